// The classes of calls, the keys by which calls share a stub, and the sizes of stubs.
ghost use Rattle.std.specs.Prelude.{◌≡◌};
ghost use Rattle.stub_kinds.specs.Stubs.{size_of};

/// How a call comes to its callee. In r2 stands the TOC base of the caller, except in `NearN` and `EntryN`, which are for callers
/// without one; where a class saves r2, the caller restores it from 24(r1) after the call (ELFv2 ABI, "Function Call").
#[derive(Clone, Copy, Debug, PartialEq, Eq)]
pub enum Class {
    /// To a callee that leaves r2 alone, or to the local entry of one with the caller's TOC base.
    Same,
    /// To the local entry of a callee with another TOC base: r2 is saved and set to that base.
    Switch,
    /// To a callee that may change r2: r2 is saved.
    Save,
    /// From a caller without a TOC base to a callee that asks for none.
    NearN,
    /// To the global entry of a callee with another TOC base: r2 is saved, and r12 gets the entry's address.
    EntrySave,
    /// To the global entry of a callee with the caller's TOC base: r12 gets the entry's address.
    EntryBare,
    /// From a caller without a TOC base to the global entry of a callee: r12 gets the entry's address.
    EntryN,
}

/// What calls have in common that share a stub: the stub group of the call, the class, and the place that the stub leads to, as
/// the number of a text section and an offset in it.
#[derive(Clone, Copy, Debug, PartialEq, Eq)]
pub struct Key {
    pub group: u32,
    pub class: Class,
    pub section: u32,
    pub offset: u64,
}

/// How many bytes a stub takes, where its key is near and where it is `far`, that is, where a branch may not reach the place.
/// `EntrySave`, `EntryBare` and `EntryN` have one form.
pub fn size(class: Class, far: bool) -> u32
    ensures { result ≡ size_of class far }
{
    match class {
        Class::Same | Class::NearN if !far => 0,
        Class::Same | Class::NearN | Class::EntryBare | Class::EntryN => 16,
        Class::Switch | Class::Save if !far => 16,
        Class::Switch | Class::Save | Class::EntrySave => 32,
    }
}
