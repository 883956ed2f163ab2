// The class of a call.
ghost use Rattle.std.specs.Prelude.{◌≡◌};
ghost use Rattle.call_sites.specs.Classes.{changes_r2, class_of, entry_offset, no_toc_class, toc_class};

use stub_kinds::Class;

/// Whether the caller of a function has its TOC base in r2: a record R_PPC64_REL24 says that it has, and R_PPC64_REL24_NOTOC that it
/// has not (ELFv2 ABI, "Relocation Descriptions").
#[derive(Clone, Copy, Debug, PartialEq, Eq)]
pub enum Linkage {
    WithToc,
    WithoutToc,
}

/// What the class of a call depends on at its callee.
#[derive(Clone, Copy, Debug, PartialEq, Eq)]
pub struct Callee {
    /// The entry points by the high three bits of st_other, from 0 to 6 (ELFv2 ABI, "Symbol Values").
    pub entries: u32,
    /// Whether a recognised prologue stands at the callee's global entry point.
    pub recognised: bool,
    /// Whether its file is in the caller's TOC group.
    pub same_group: bool,
}

/// The class of a call that goes to a function.
pub fn class_of(linkage: Linkage, callee: Callee) -> Class
    ensures { result ≡ class_of linkage callee }
{
    match linkage {
        Linkage::WithToc => toc_class(callee),
        Linkage::WithoutToc if callee.entries <= 1 => Class::NearN,
        Linkage::WithoutToc => Class::EntryN,
    }
}

// The class where the caller has its TOC base in r2.
fn toc_class(callee: Callee) -> Class
    ensures { result ≡ toc_class callee }
{
    match callee.entries {
        0 => Class::Same,
        1 => Class::Save,
        _ => match (callee.recognised, callee.same_group) {
            (true, true) => Class::Same,
            (true, false) => Class::Switch,
            (false, true) => Class::EntryBare,
            (false, false) => Class::EntrySave,
        },
    }
}

/// Whether r2 may be another TOC base after a call of the class, so that it must be restored.
pub fn changes_r2(class: Class) -> bool
    ensures { result ≡ changes_r2 class }
{
    match class {
        Class::Switch | Class::Save | Class::EntrySave => true,
        Class::Same | Class::NearN | Class::EntryBare | Class::EntryN => false,
    }
}

/// How many bytes behind the callee's global entry point the call goes: 8 where it goes to the local entry point behind a recognised
/// prologue.
pub fn entry_offset(linkage: Linkage, callee: Callee) -> u64
    ensures { result ≡ entry_offset linkage callee }
{
    if linkage == Linkage::WithToc && callee.entries >= 2 && callee.recognised {
        8
    } else {
        0
    }
}
