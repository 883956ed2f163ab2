// Libraries among the files of a link and of a check: what they come to is what their chosen members come to, named as objects.
use super::files::{SMALLEST, library};
use super::{row_ends, run, words_of};
use elf64_records::constants::{SHF_ALLOC, SHF_TLS, SHF_WRITE, STB_GLOBAL, STB_WEAK};
use object_builder::{Object, Record, Section, Symbol};
use ppc_outside::{MemConsole, MemStore};
use std::alloc::Global;
use std::process::Abort;
use std::test::Fail;

/// A call at the front of a section, of symbol 2 (R_PPC64_REL24_NOTOC).
const CALL_AT_FRONT: Record = Record {
    offset: 0,
    kind: 116,
    symbol: 2,
    addend: 0,
};

/// bl symbol 2; li r0,1; sc
const CALLER: Section<'static> = Section {
    bytes: b"\x01\x00\x00\x48\x01\x00\x00\x38\x02\x00\x00\x44",
    records: &[CALL_AT_FRONT],
    ..Section::TEXT
};

/// b symbol 2
const JUMP: Section<'static> = Section {
    bytes: b"\x00\x00\x00\x48",
    records: &[CALL_AT_FRONT],
    ..Section::TEXT
};

/// li r3,3; blr; b symbol 2
const THREE: Section<'static> = Section {
    bytes: b"\x03\x00\x60\x38\x20\x00\x80\x4e\x00\x00\x00\x48",
    records: &[Record {
        offset: 8,
        ..CALL_AT_FRONT
    }],
    ..Section::TEXT
};

/// blr
const RETURN: Section<'static> = Section {
    bytes: b"\x20\x00\x80\x4e",
    ..Section::TEXT
};

/// Eight bytes for each thread, which no link takes.
const PER_THREAD: Section<'static> = Section {
    name: b".tdata",
    bytes: &[0; 8],
    flags: SHF_ALLOC | SHF_WRITE | SHF_TLS,
    ..Section::DATA
};

const F: Symbol<'static> = Symbol {
    name: b"f",
    ..Symbol::START
};

const G: Symbol<'static> = Symbol {
    name: b"g",
    ..Symbol::START
};

const H: Symbol<'static> = Symbol {
    name: b"h",
    ..Symbol::START
};

/// What nothing in the file defines.
const ASKS_F: Symbol<'static> = Symbol {
    info: STB_GLOBAL << 4,
    section: 0,
    ..F
};

const ASKS_G: Symbol<'static> = Symbol {
    name: b"g",
    ..ASKS_F
};

const ASKS_H: Symbol<'static> = Symbol {
    name: b"h",
    ..ASKS_F
};

const MAY_USE_H: Symbol<'static> = Symbol {
    info: STB_WEAK << 4,
    ..ASKS_H
};

/// `x.o` and `y.o` need each other, and `z.o` can't be linked. `a.o` needs the first, `b.o` the last too.
static PARTS: [(&str, Object); 6] = [
    (
        "a.o",
        Object {
            sections: &[CALLER],
            symbols: &[Symbol::START, ASKS_F, MAY_USE_H],
            ..Object::EMPTY
        },
    ),
    (
        "b.o",
        Object {
            sections: &[CALLER],
            symbols: &[Symbol::START, ASKS_F, ASKS_H],
            ..Object::EMPTY
        },
    ),
    (
        "x.o",
        Object {
            sections: &[JUMP],
            symbols: &[F, ASKS_G],
            ..Object::EMPTY
        },
    ),
    (
        "y.o",
        Object {
            sections: &[THREE],
            symbols: &[G, ASKS_F],
            ..Object::EMPTY
        },
    ),
    (
        "z.o",
        Object {
            sections: &[RETURN, PER_THREAD],
            symbols: &[H],
            ..Object::EMPTY
        },
    ),
    (
        "t.o",
        Object {
            sections: &[RETURN, PER_THREAD],
            ..Object::EMPTY
        },
    ),
];

/// Libraries, and the files that are their members: a note is no ELF file, and `63` is the front of one.
const LIBRARIES: [(&str, &[&str]); 6] = [
    ("l.a", &["x.o", "y.o", "z.o", "note"]),
    ("back.a", &["note", "z.o", "y.o", "x.o"]),
    ("f.a", &["x.o"]),
    ("g.a", &["z.o", "y.o"]),
    ("cut.a", &["note", "63", "x.o"]),
    ("empty.a", &[]),
];

fn add_parts(alloc: Global, store: &mut MemStore) -> Result<(), Fail> {
    for row in &PARTS {
        store.add(row.0, &row.1.file(alloc)?)?;
    }
    let smallest = SMALLEST.file(alloc)?;
    store.add("63", smallest.get(..63).ok_or("too short")?)?;
    store.add("note", b"hello")?;
    Ok(())
}

/// The library of these files.
fn library_of(alloc: Global, store: &MemStore, names: &[&str]) -> Result<Vec<u8>, Fail> {
    let mut members = Vec::new(alloc);
    for name in names {
        let file = store.get(name).ok_or("no such file")?;
        let title = format!(in alloc; "{name}/")?;
        members.push((title, Vec::from_slice(alloc, file)?))?;
    }
    library(alloc, &members)
}

/// A store with all of them.
fn parts(alloc: Global) -> Result<MemStore, Fail> {
    let mut store = MemStore::new(alloc);
    add_parts(alloc, &mut store)?;
    for (name, members) in LIBRARIES {
        let bytes = library_of(alloc, &store, members)?;
        store.add(name, &bytes)?;
    }
    Ok(store)
}

/// The executable that a link of these files writes.
fn image_of(rt: &impl Abort, alloc: Global, files: &str) -> Result<Option<Vec<u8>>, Fail> {
    let mut store = parts(alloc)?;
    let mut console = MemConsole::new(alloc);
    let line = format!(in alloc; "link -o x {files}")?;
    let words = words_of(alloc, &line)?;
    let ran = run(alloc, &words, &mut store, &mut console)?;
    assert_eq!(rt; ran.status, 0, "{files}");
    Ok(ran.out)
}

/// Files with libraries, and the files that stand for the same.
const ALIKE: [(&str, &str); 7] = [
    ("a.o l.a", "a.o x.o y.o"),
    ("l.a a.o", "x.o y.o a.o"),
    ("a.o back.a", "a.o y.o x.o"),
    ("a.o f.a g.a", "a.o x.o y.o"),
    ("a.o g.a f.a", "a.o y.o x.o"),
    ("a.o l.a x.o", "a.o y.o x.o"),
    ("a.o l.a l.a back.a", "a.o x.o y.o"),
];

#[test]
fn a_library_links_as_its_chosen_members(rt: HostRuntime) -> Result<(), Fail> {
    for (libraries, objects) in ALIKE {
        let image = image_of(&rt, rt.alloc(), libraries)?;
        assert!(rt; image.is_some(), "{libraries}");
        assert!(rt; image == image_of(&rt, rt.alloc(), objects)?, "{libraries}");
    }
    Ok(())
}

/// Members that can't be linked or read, of which the first in the order of refusals is told, and a library that runs.
const TURNS: &str = "\
check a.o l.a             | | 0 | exit 3                                           |
check b.o l.a             | | 1 | ppclink: l.a(z.o) section 2: thread-local storage |
link -o x b.o l.a         | | 1 | ppclink: l.a(z.o) section 2: thread-local storage |
link -o x b.o f.a g.a     | | 1 | ppclink: g.a(z.o) section 2: thread-local storage |
link -o x g.a f.a b.o     | | 1 | ppclink: g.a(z.o) section 2: thread-local storage |
link -o x b.o l.a z.o     | | 1 | ppclink: z.o section 2: thread-local storage     |
link -o x b.o l.a t.o     | | 1 | ppclink: t.o section 2: thread-local storage     |
link -o x a.o l.a cut.a   | | 1 | ppclink: cut.a(63): bad table                    |
link -o x b.o l.a cut.a   | | 1 | ppclink: cut.a(63): bad table                    |
link -o x cut.a a.o t.o   | | 1 | ppclink: cut.a(63): bad table                    |
link -o x a.o t.o cut.a   | | 1 | ppclink: t.o section 2: thread-local storage     |
link -o x b.o f.a         | | 1 | ppclink: f.a(x.o) section 1 offset 0x0: unresolved g |
link -o x empty.a         | | 1 | ppclink: no entry _start                         |
link -o x l.a             | | 1 | ppclink: no entry _start                         |
link -o x -e h l.a        | | 1 | ppclink: l.a(z.o) section 2: thread-local storage |";

#[test]
fn a_failing_member_is_named_in_its_turn(rt: HostRuntime) -> Result<(), Fail> {
    for row in TURNS.lines() {
        let mut store = parts(rt.alloc())?;
        row_ends(&rt, rt.alloc(), row, &mut store)?;
    }
    Ok(())
}
