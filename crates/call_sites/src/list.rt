// The list of call sites.
ghost use Rattle.std.specs.Prelude.{◌≡◌, ◌<◌, Some, length, slice_get};

use crate::site::CallSite;
use std::marker::Model;

/// The call sites of a link in site order: by file, by section, by offset. Contracts see their list.
#[derive(Drop)]
pub struct Sites {
    pub(crate) items: Vec<CallSite>,
}

impl Model for Sites {
    ghost use Rattle.std.specs.Prelude.{List, ◌≤◌, length};
    ghost use Rattle.ppc_bytes.specs.declared.constants.TheConstants.{TEXT_LIMIT};
    ghost use Rattle.call_sites.specs.declared.site.CallSite.{CallSite};

    ghost Value = { List CallSite };

    ghost view = { λ s. s.items.items };

    ghost invariant = { λ s. length s.items.items ≤ TEXT_LIMIT };
}

impl Sites {
    /// How many there are.
    pub fn count(&self) -> u32
        ensures { result ≡ length self.now }
    {
        self.items.len() as u32
    }

    /// All of them.
    pub fn as_slice(&self) -> &[CallSite]
        ensures { result.now ≡ self.now }
    {
        self.items.as_slice()
    }

    /// A site, by its number in site order.
    pub fn at(&self, i: u32) -> &CallSite
        requires { i < length self.now }
        ensures { slice_get self.now i ≡ Some result.now }
    {
        &self.items[i as usize]
    }
}
