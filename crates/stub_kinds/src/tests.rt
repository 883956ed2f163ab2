use crate::{Class, size, stub_words};
use std::alloc::Global;
use std::test::Fail;

// The TOC bases of two groups, and the address of a stub.
const CALLER: u64 = 0x1000_8000;

const CALLEE: u64 = 0x1001_8000;

const STUB: u64 = 0x1002_0040;

// Words as a listing, nops by name.
fn listing(alloc: Global, words: &[u32; 8]) -> Result<String, Fail> {
    let mut text = String::new(alloc);
    for word in words {
        let line = if *word == 0x6000_0000 {
            format!(in alloc; "nop ")?
        } else {
            format!(in alloc; "{word:08X} ")?
        };
        text.push_str(&line)?;
    }
    Ok(text)
}

#[test]
fn each_class_has_its_sizes(rt: HostRuntime) {
    let rows = [
        (Class::Same, 0, 16),
        (Class::Switch, 16, 32),
        (Class::Save, 16, 32),
        (Class::NearN, 0, 16),
        (Class::EntrySave, 32, 32),
        (Class::EntryBare, 16, 16),
        (Class::EntryN, 16, 16),
    ];
    for (class, near, far) in rows {
        assert_eq!(rt; size(class, false), near, "{class:?}");
        assert_eq!(rt; size(class, true), far, "{class:?}");
    }
}

// The callee of the first is in another TOC group; that of the second may change r2, and stands before the stub.
#[test]
fn near_stubs_save_and_branch(rt: HostRuntime) -> Result<(), Fail> {
    let switch = stub_words(Class::Switch, false, STUB, STUB + 0x48, CALLER, CALLEE);
    let save = stub_words(Class::Save, false, STUB, STUB - 0x40, CALLER, CALLER);
    let same = stub_words(Class::Same, false, STUB, STUB - 0x40, CALLER, CALLER);
    let near = stub_words(Class::NearN, false, STUB, STUB - 0x40, CALLER, CALLER);
    for (words, wanted) in [
        (
            switch,
            "F8410018 3C420001 38420000 4800003C nop nop nop nop ",
        ),
        (save, "F8410018 4BFFFFBC nop nop nop nop nop nop "),
        (same, "nop nop nop nop nop nop nop nop "),
        (near, "nop nop nop nop nop nop nop nop "),
    ] {
        assert_eq!(rt; listing(rt.alloc(), &words)?.as_str(), wanted);
    }
    Ok(())
}

// 0x12345678 is 0x233D678 past the caller's base, which is 0x10000 below the callee's, or above it.
#[test]
fn far_stubs_jump_through_r12(rt: HostRuntime) -> Result<(), Fail> {
    let far = 0x1234_5678;
    let same = stub_words(Class::Same, true, 0x1000_0200, 0x1000_0440, CALLER, CALLER);
    let switch = stub_words(Class::Switch, true, STUB, far, CALLER, CALLEE);
    let back = stub_words(Class::Switch, true, STUB, far + 0x1_0000, CALLEE, CALLER);
    let save = stub_words(Class::Save, true, STUB, far, CALLER, CALLEE);
    let near = stub_words(Class::NearN, true, 0x1000_0080, 0x1001_0084, CALLER, CALLER);
    for (words, wanted) in [
        (same, "3D820000 398C8440 7D8903A6 4E800420 nop nop nop nop "),
        (
            switch,
            "F8410018 3D820234 398CD678 7D8903A6 3C420001 38420000 4E800420 nop ",
        ),
        (
            back,
            "F8410018 3D820234 398CD678 7D8903A6 3C42FFFF 38420000 4E800420 nop ",
        ),
        (
            save,
            "F8410018 3D820234 398CD678 7D8903A6 4E800420 nop nop nop ",
        ),
        (near, "06100001 39800004 7D8903A6 4E800420 nop nop nop nop "),
    ] {
        assert_eq!(rt; listing(rt.alloc(), &words)?.as_str(), wanted);
    }
    Ok(())
}

// The prologue of the second's callee isn't one that the linker knows; the third's caller has no TOC base, and its callee is 0x40
// before the stub.
#[test]
fn entry_stubs_have_one_form(rt: HostRuntime) -> Result<(), Fail> {
    for far in [false, true] {
        let save = stub_words(Class::EntrySave, far, STUB, 0x1234_5678, CALLER, CALLEE);
        let bare = stub_words(Class::EntryBare, far, STUB, 0x1000_0040, CALLER, CALLER);
        let entry = stub_words(Class::EntryN, far, STUB, STUB - 0x40, CALLER, CALLER);
        for (words, wanted) in [
            (
                save,
                "F8410018 3D820234 398CD678 7D8903A6 4E800420 nop nop nop ",
            ),
            (bare, "3D820000 398C8040 7D8903A6 4E800420 nop nop nop nop "),
            (
                entry,
                "0613FFFF 3980FFC0 7D8903A6 4E800420 nop nop nop nop ",
            ),
        ] {
            assert_eq!(rt; listing(rt.alloc(), &words)?.as_str(), wanted);
        }
    }
    Ok(())
}
