// The files that the tables name.
use super::listings::add_listings;
use elf64_records::constants::{SHF_TLS, STB_LOCAL, STB_WEAK, STT_FUNC};
use object_builder::{FileHeader, Object, Record, Section, Stated, Symbol};
use ppc_outside::MemStore;
use std::alloc::Global;
use std::test::Fail;

/// li r0,1; li r3,7; sc
const TEXT: &[u8] = b"\x01\x00\x00\x38\x07\x00\x60\x38\x02\x00\x00\x44";

/// The same behind a word outside the subset.
const ZERO_FIRST: &[u8] = b"\x00\x00\x00\x00\x07\x00\x60\x38\x02\x00\x00\x44";

/// The text of the smallest object.
pub const SECTION: Section = Section {
    bytes: TEXT,
    ..Section::TEXT
};

/// Its symbol.
pub const START: Symbol = Symbol {
    size: 12,
    ..Symbol::START
};

/// The smallest object that links.
pub const SMALLEST: Object = Object {
    sections: &[SECTION],
    symbols: &[START],
    ..Object::EMPTY
};

/// nop; nop; bl .; blr
const CALL: &[u8] = b"\x00\x00\x00\x60\x00\x00\x00\x60\x01\x00\x00\x48\x20\x00\x80\x4e";

/// A call at offset 8, of symbol 1 (R_PPC64_REL24).
const CALLING: Section = Section {
    bytes: CALL,
    records: &[Record {
        offset: 8,
        kind: 10,
        symbol: 1,
        addend: 0,
    }],
    ..Section::TEXT
};

/// blr, and a load from two bytes behind symbol 1, by a distance from the TOC base (R_PPC64_TOC16_LO_DS).
const LOADING: Section = Section {
    bytes: b"\x20\x00\x80\x4e\x00\x00\x69\xe8",
    records: &[Record {
        offset: 4,
        kind: 64,
        symbol: 1,
        addend: 2,
    }],
    align: 8,
    ..Section::TEXT
};

const G: Symbol = Symbol {
    name: b"g",
    ..START
};

const HERE: Symbol = Symbol {
    name: b"here",
    info: STB_LOCAL << 4,
    ..START
};

/// The smallest object and others that differ from it in one thing, and some that are refused later.
static OBJECTS: [(&str, Object); 18] = [
    (
        "g.o",
        Object {
            symbols: &[G],
            ..SMALLEST
        },
    ),
    (
        "weak.o",
        Object {
            symbols: &[Symbol {
                info: STB_WEAK << 4 | STT_FUNC,
                ..G
            }],
            ..SMALLEST
        },
    ),
    // nothing defines what it calls
    (
        "u.o",
        Object {
            sections: &[CALLING],
            symbols: &[
                Symbol {
                    name: b"u",
                    section: 0,
                    size: 0,
                    ..START
                },
                START,
            ],
            ..SMALLEST
        },
    ),
    // it calls a function that may change r2, and no nop stands behind the call
    (
        "nonop.o",
        Object {
            sections: &[CALLING],
            symbols: &[
                Symbol {
                    value: 12,
                    size: 4,
                    other: 1 << 5,
                    ..HERE
                },
                START,
            ],
            ..SMALLEST
        },
    ),
    // a byte more of data than can be
    (
        "data.o",
        Object {
            sections: &[
                SECTION,
                Section {
                    stated: Stated {
                        size: Some(0x3000_0001),
                        ..Stated::TRUE
                    },
                    ..Section::ZEROED
                },
            ],
            ..SMALLEST
        },
    ),
    // the displacement of a doubleword's load is no multiple of 4
    (
        "odd.o",
        Object {
            sections: &[
                LOADING,
                Section {
                    bytes: &[0; 16],
                    ..Section::DATA
                },
            ],
            symbols: &[
                Symbol {
                    section: 2,
                    size: 0,
                    ..HERE
                },
                START,
            ],
            ..SMALLEST
        },
    ),
    ("t.o", SMALLEST),
    ("a.o", SMALLEST),
    ("c.o", SMALLEST),
    // nothing is kept, so the symbol defines nothing
    (
        "dropped.o",
        Object {
            sections: &[Section {
                flags: 0,
                ..SECTION
            }],
            ..SMALLEST
        },
    ),
    // its symbol is for itself alone
    (
        "local.o",
        Object {
            symbols: &[Symbol {
                info: STB_LOCAL << 4 | STT_FUNC,
                ..START
            }],
            ..SMALLEST
        },
    ),
    (
        "late.o",
        Object {
            symbols: &[Symbol { value: 4, ..START }],
            ..SMALLEST
        },
    ),
    (
        "aligned.o",
        Object {
            sections: &[Section {
                align: 8,
                ..SECTION
            }],
            ..SMALLEST
        },
    ),
    (
        "zero.o",
        Object {
            sections: &[Section {
                bytes: ZERO_FIRST,
                ..SECTION
            }],
            ..SMALLEST
        },
    ),
    (
        "shared.o",
        Object {
            header: FileHeader {
                kind: 3,
                ..FileHeader::OBJECT
            },
            ..SMALLEST
        },
    ),
    (
        "abi1.o",
        Object {
            header: FileHeader {
                flags: 1,
                ..FileHeader::OBJECT
            },
            ..SMALLEST
        },
    ),
    // the symbol table ends one byte past the file's 496
    (
        "table.o",
        Object {
            symbol_table: Stated {
                offset: Some(449),
                ..Stated::TRUE
            },
            ..SMALLEST
        },
    ),
    (
        "name.o",
        Object {
            symbols: &[Symbol {
                stated_name: Some(8),
                ..START
            }],
            ..SMALLEST
        },
    ),
];

/// The first bytes of the smallest object.
const FRONTS: [(&str, usize); 3] = [("3", 3), ("63", 63), ("495", 495)];

/// The file header of an executable with one segment up to its entry, and from there to the size in the file.
const HEADERS: [&str; 2] = [
    "7f454c460201010000000000000000000200150001000000",
    "40000000000000000000000000000000020000004000380001000000000000000100000005000000000001000000000000000010000000000000001000000000",
];

/// Programs as the digits of their bytes.
const PROGRAMS: [(&str, &str); 3] = [
    // li r0,1; li r3,7; sc
    ("exits", "010000380700603802000044"),
    // li r0,3; li r3,0; addi r4,r1,-256; li r5,16; sc; li r0,1; sc
    (
        "reads",
        "030000380000603800ff81381000a038020000440100003802000044",
    ),
    // li r0,4; li r3,1; lis r4,0x1000; li r5,4; sc; li r0,1; sc
    (
        "writes",
        "04000038010060380010803c0400a038020000440100003802000044",
    ),
];

// The executable whose text has these digits, with so much more or less room in memory than in the file.
fn program(alloc: Global, entry: u64, digits: &str, less: u64) -> Result<Vec<u8>, Fail> {
    let text = hex::decode(alloc, digits)?;
    let size = text.len() as u64;
    let [front, back] = HEADERS;
    let mut bytes = hex::decode(alloc, front)?;
    bytes.extend_from_slice(&entry.to_le_bytes())?;
    bytes.extend_from_slice(&hex::decode(alloc, back)?)?;
    bytes.extend_from_slice(&size.to_le_bytes())?;
    bytes.extend_from_slice(&size.saturating_sub(less).to_le_bytes())?;
    bytes.extend_from_slice(&0x1_0000_u64.to_le_bytes())?;
    bytes.resize(0x1_0000, 0)?;
    bytes.extend_from_slice(&text)?;
    Ok(bytes)
}

/// The executable of the smallest object, of 65,548 bytes, with this entry.
pub fn executable(alloc: Global, entry: u64) -> Result<Vec<u8>, Fail> {
    program(alloc, entry, "010000380700603802000044", 0)
}

fn add_objects(alloc: Global, store: &mut MemStore) -> Result<(), Fail> {
    for row in &OBJECTS {
        store.add(row.0, &row.1.file(alloc)?)?;
    }
    Ok(())
}

fn add_fronts(alloc: Global, store: &mut MemStore) -> Result<(), Fail> {
    let smallest = SMALLEST.file(alloc)?;
    for (name, length) in FRONTS {
        store.add(name, smallest.get(..length).ok_or("too short")?)?;
    }
    Ok(())
}

fn add_programs(alloc: Global, store: &mut MemStore) -> Result<(), Fail> {
    for (name, digits) in PROGRAMS {
        store.add(name, &program(alloc, 0x1000_0000, digits, 0)?)?;
    }
    let broken = program(alloc, 0x1000_0000, "010000380700603802000044", 1)?;
    store.add("broken", &broken)?;
    Ok(())
}

/// A library of members with these names, in the form of GNU ar.
pub fn library(alloc: Global, members: &[(String, Vec<u8>)]) -> Result<Vec<u8>, Fail> {
    let mut bytes = Vec::from_slice(alloc, b"!<arch>\n")?;
    for (name, member) in members {
        let size = member.len();
        let header = format!(in alloc; "{name:<48}{size:<10}`\n")?;
        bytes.extend_from_slice(header.as_bytes())?;
        bytes.extend_from_slice(member)?;
        if size % 2 == 1 {
            bytes.push(b'\n')?;
        }
    }
    Ok(bytes)
}

// Libraries: one of a note that is no ELF file, of the smallest object, and of what defines t in a section that can't be linked; one of
// what begins with a word outside the subset; one without members; and one with ten bytes that are no header.
fn add_libraries(alloc: Global, store: &mut MemStore) -> Result<(), Fail> {
    let tls = Object {
        sections: &[Section {
            flags: SECTION.flags | SHF_TLS,
            ..SECTION
        }],
        symbols: &[Symbol {
            name: b"t",
            ..START
        }],
        ..Object::EMPTY
    };
    let note = Vec::from_slice(alloc, b"hello")?;
    let members = [
        (String::from_str(alloc, "note/")?, note),
        (String::from_str(alloc, "t.o/")?, SMALLEST.file(alloc)?),
        (String::from_str(alloc, "tls.o/")?, tls.file(alloc)?),
    ];
    store.add("l.a", &library(alloc, &members)?)?;
    store.add("empty.a", b"!<arch>\n")?;
    let zero = Object {
        sections: &[Section {
            bytes: ZERO_FIRST,
            ..SECTION
        }],
        ..SMALLEST
    };
    let members = [(String::from_str(alloc, "zero.o/")?, zero.file(alloc)?)];
    store.add("z.a", &library(alloc, &members)?)?;
    store.add("cut.a", b"!<arch>\n0123456789")?;
    Ok(())
}

/// A store with all the files.
pub fn files(alloc: Global) -> Result<MemStore, Fail> {
    let mut store = MemStore::new(alloc);
    add_objects(alloc, &mut store)?;
    add_fronts(alloc, &mut store)?;
    add_listings(alloc, &mut store)?;
    add_programs(alloc, &mut store)?;
    add_libraries(alloc, &mut store)?;
    store.add("in", b"hi\n")?;
    Ok(store)
}
