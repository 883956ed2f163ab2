// Call sites, and their words.
ghost use Rattle.std.specs.Prelude.{◌≡◌, ◌%◌, map};
ghost use Rattle.std.specs.Int.{int_rem_euclid};
ghost use Rattle.ppc_bytes.specs.Bytes.{InSigned};
ghost use Rattle.call_sites.specs.Words.{branch_word, slot_word};

use object_set::Site;
use ppc_bytes::constants::{B, NOP};
use ppc_bytes::low_bits;
use stub_kinds::Class;

/// ld r2,24(r1)
const LD_R2: u32 = 0xE841_0018;

/// A branch with a record R_PPC64_REL24 or R_PPC64_REL24_NOTOC.
#[derive(Clone, Copy, Debug, PartialEq, Eq)]
pub struct CallSite {
    /// The record.
    pub site: Site,
    /// The number of the text section that holds the branch.
    pub section: u32,
    /// The branch's offset in bytes in its section.
    pub offset: u64,
    /// Whether the branch sets LR.
    pub link: bool,
    /// How the call comes to its callee; None where that is an undefined weak function. The four numbers of the callee are 0 then.
    pub class: Option<Class>,
    /// The entry points of the callee, by the high three bits of its symbol's st_other; 0 where the record has an addend.
    pub e: u32,
    /// The callee's offset in bytes in its section.
    pub callee: u64,
    /// The number of the text section that holds the callee.
    pub to_section: u32,
    /// The offset in bytes at which the call enters it: the callee's, or its local entry point's.
    pub to_offset: u64,
    /// Whether the word behind the branch is a restore slot: a nop that the linker may use.
    pub slot: bool,
    /// Whether r2 must be restored there.
    pub restore: bool,
}

/// The words of a call that branches by `disp` bytes: the branch's own, and that of its restore slot, if there is one.
pub fn site_words(site: &CallSite, disp: i64) -> (u32, Option<u32>)
    requires { InSigned 26 disp }
    ensures branch { result.0 ≡ branch_word site.now.class site.now.link disp }
    ensures slot { result.1 ≡ slot_word site.now.slot site.now.restore }
{
    let branch = match site.class {
        None => NOP,
        Some(_) => B + low_bits(disp as i128, 26) as u32 + u32::from(site.link),
    };
    let slot = if site.slot {
        Some(if site.restore { LD_R2 } else { NOP })
    } else {
        None
    };
    (branch, slot)
}
