// The set of far keys.
ghost use Rattle.std.specs.Prelude.{◌≡◌, ◌<◌, ℕ, false, true, length, slice_set, IfOk};
ghost use Rattle.layout_rounds.specs.FarSets.{count, member};
ghost use Rattle.layout_rounds.specs.Layout.{key_count};

use crate::keys::Keyed;
use ppc_bytes::Memory;
use std::alloc::Global;
use std::marker::Model;

/// A set of keys, whose stubs have their far form. Contracts see a flag for each key.
#[derive(Drop)]
pub struct FarSet {
    flags: Vec<bool>,
}

impl Model for FarSet {
    ghost use Rattle.std.specs.Prelude.{Bool, List};

    ghost Value = { List Bool };

    ghost view = { λ s. s.flags.items };
}

impl FarSet {
    /// The empty set, with room for every key.
    pub fn none(alloc: Global, keyed: &Keyed) -> Result<FarSet, Memory>
        ensures room { IfOk result (λ set. length set ≡ key_count keyed.now) }
        ensures empty { IfOk result (λ set. (k : ℕ) → member set k ≡ false) }
    {
        Ok(FarSet {
            flags: vec![in alloc; false; keyed.key_count() as usize]?,
        })
    }

    /// Puts a key into the set.
    pub fn add(&mut self, key: u32)
        requires { key < length self.old }
        ensures { self.new ≡ slice_set self.old key true }
    {
        self.flags[key as usize] = true;
    }

    /// Whether a key is in the set.
    pub fn holds(&self, key: u32) -> bool
        requires { key < length self.now }
        ensures { result ≡ member self.now key }
    {
        self.flags[key as usize]
    }

    /// How many keys are in the set.
    pub fn count(&self) -> u64
        ensures { result ≡ count (member self.now) (length self.now) }
    {
        let mut count = 0;
        for k in 0..self.flags.len() {
            if self.flags[k] {
                count += 1;
            }
        }
        count
    }
}
