// Objects of code for the plain run, by their words. The slot is the doubleword at the front of `.toc`.
use elf64_records::constants::{SHF_ALLOC, STB_GLOBAL, STB_LOCAL};
use object_builder::{Object, Record, Section, Stated, Symbol};
use ppc_outside::MemStore;
use std::alloc::Global;
use std::test::Fail;

/// Kinds of relocation by their numbers (ELFv2 ABI, "Relocation Types Table").
const REL32: u32 = 26;

const ADDR64: u32 = 38;

const TOC16_LO: u32 = 48;

const TOC16_HA: u32 = 50;

const TOC16_DS: u32 = 63;

const TOC16_LO_DS: u32 = 64;

const REL16_LO: u32 = 250;

const REL16_HA: u32 = 252;

/// A function with a second entry 8 bytes past its first.
const START: Symbol<'static> = Symbol {
    other: 3 << 5,
    ..Symbol::START
};

const TOC_BASE: Symbol<'static> = Symbol {
    name: b".TOC.",
    info: STB_GLOBAL << 4,
    section: 0,
    ..Symbol::START
};

/// The front of section 2, for its file alone.
const SECOND: Symbol<'static> = Symbol {
    name: b"second",
    info: STB_LOCAL << 4,
    section: 2,
    ..Symbol::START
};

const THIRD: Symbol<'static> = Symbol {
    name: b"third",
    section: 3,
    ..SECOND
};

/// An offset, a kind of relocation, a symbol and an addend.
type Row = (u64, u32, u32, i64);

/// A section behind the code, with its records.
struct Other {
    section: Section<'static>,
    records: &'static [Row],
}

/// Eight bytes of zeros.
const SLOT: Section<'static> = Section {
    bytes: &[0; 8],
    ..Section::TOC
};

const DATA: Section<'static> = Section {
    bytes: &[0; 8],
    ..Section::DATA
};

/// The words of section 1, its records, the other sections, and the symbols of an object.
struct Listing {
    name: &'static str,
    words: &'static str,
    records: &'static [Row],
    others: &'static [Other],
    symbols: &'static [Symbol<'static>],
}

/// A number is no place to go on.
const AWAY: Listing = Listing {
    name: "away.o",
    words: "
        39800000  li r12,0
        7D8903A6  mtctr r12
        4E800420  bctr",
    records: &[],
    others: &[],
    symbols: &[Symbol::START],
};

const ENDLESS: Listing = Listing {
    name: "endless.o",
    words: "
        48000000  b .",
    records: &[],
    others: &[],
    symbols: &[Symbol::START],
};

/// The address of a function, from the slot and from data, is the same.
const SAME: Listing = Listing {
    name: "same.o",
    words: "
        3C4C0000  addis r2,r12,.TOC.@ha
        38420000  addi r2,r2,.TOC.@l
        3D220000  addis r9,r2,slot@toc@ha
        E9290000  ld r9,slot@toc@l(r9)
        3D420000  addis r10,r2,p@toc@ha
        E94A0000  ld r10,p@toc@l(r10)
        7C295000  cmpd r9,r10
        38000001  li r0,1
        38600000  li r3,0
        41820008  beq .+8
        38600001  li r3,1
        44000002  sc
        4E800020  blr",
    records: &[
        (0, REL16_HA, 5, 0),
        (4, REL16_LO, 5, 4),
        (8, TOC16_HA, 1, 0),
        (0xC, TOC16_LO_DS, 1, 0),
        (0x10, TOC16_HA, 2, 0),
        (0x14, TOC16_LO_DS, 2, 0),
    ],
    others: &[
        Other {
            section: SLOT,
            records: &[(0, ADDR64, 3, 0)],
        },
        Other {
            section: DATA,
            records: &[(0, ADDR64, 3, 0)],
        },
    ],
    symbols: &[
        SECOND,
        THIRD,
        Symbol {
            name: b"f",
            section: 1,
            value: 0x30,
            ..SECOND
        },
        START,
        TOC_BASE,
    ],
};

/// It reads into `.bss`, calls a function of another file by its address in data, and writes what it read.
const CALLS: Listing = Listing {
    name: "calls.o",
    words: "
        3C4C0000  addis r2,r12,.TOC.@ha
        38420000  addi r2,r2,.TOC.@l
        38000003  li r0,3
        38600000  li r3,0
        3C820000  addis r4,r2,buf@toc@ha
        38840000  addi r4,r4,buf@toc@l
        38A00010  li r5,16
        44000002  sc
        7C7F1B78  or r31,r3,r3
        3D220000  addis r9,r2,tab@toc@ha
        E9890000  ld r12,tab@toc@l(r9)
        7D8903A6  mtctr r12
        F8410018  std r2,24(r1)
        3C620000  addis r3,r2,buf@toc@ha
        38630000  addi r3,r3,buf@toc@l
        4E800421  bctrl
        E8410018  ld r2,24(r1)
        38000004  li r0,4
        38600001  li r3,1
        3C820000  addis r4,r2,buf@toc@ha
        38840000  addi r4,r4,buf@toc@l
        7FE5FB78  or r5,r31,r31
        44000002  sc
        38000001  li r0,1
        38600000  li r3,0
        44000002  sc",
    records: &[
        (0, REL16_HA, 4, 0),
        (4, REL16_LO, 4, 4),
        (0x10, TOC16_HA, 2, 0),
        (0x14, TOC16_LO, 2, 0),
        (0x24, TOC16_HA, 1, 0),
        (0x28, TOC16_LO_DS, 1, 0),
        (0x34, TOC16_HA, 2, 0),
        (0x38, TOC16_LO, 2, 0),
        (0x4C, TOC16_HA, 2, 0),
        (0x50, TOC16_LO, 2, 0),
    ],
    others: &[
        Other {
            section: DATA,
            records: &[(0, ADDR64, 5, 0)],
        },
        Other {
            section: Section {
                stated: Stated {
                    size: Some(16),
                    ..Stated::TRUE
                },
                ..Section::ZEROED
            },
            records: &[],
        },
    ],
    symbols: &[
        SECOND,
        THIRD,
        START,
        TOC_BASE,
        Symbol {
            name: b"up",
            section: 0,
            ..Symbol::START
        },
    ],
};

/// It turns a letter's case.
const UP: Listing = Listing {
    name: "up.o",
    words: "
        89230000  lbz r9,0(r3)
        69290020  xori r9,r9,32
        99230000  stb r9,0(r3)
        4E800020  blr",
    records: &[],
    others: &[],
    symbols: &[Symbol {
        name: b"up",
        ..Symbol::START
    }],
};

/// It goes where the second entry of a table of differences leads.
const TABLE: Listing = Listing {
    name: "jumps.o",
    words: "
        3C4C0000  addis r2,r12,.TOC.@ha
        38420000  addi r2,r2,.TOC.@l
        3D220000  addis r9,r2,tbl@toc@ha
        39290000  addi r9,r9,tbl@toc@l
        39400004  li r10,4
        7D4952AA  lwax r10,r9,r10
        7D4A4A14  add r10,r10,r9
        7D4903A6  mtctr r10
        4E800420  bctr
        38600001  li r3,1
        48000008  b .+8
        38600002  li r3,2
        38000001  li r0,1
        44000002  sc",
    records: &[
        (0, REL16_HA, 3, 0),
        (4, REL16_LO, 3, 4),
        (8, TOC16_HA, 1, 0),
        (0xC, TOC16_LO, 1, 0),
    ],
    others: &[Other {
        section: Section {
            name: b".rodata",
            flags: SHF_ALLOC,
            align: 4,
            ..DATA
        },
        records: &[(0, REL32, 2, 0x24), (4, REL32, 2, 0x30)],
    }],
    symbols: &[SECOND, START, TOC_BASE],
};

/// It loads the address of data from the slot with one word.
const SMALL: Listing = Listing {
    name: "small.o",
    words: "
        3C4C0000  addis r2,r12,.TOC.@ha
        38420000  addi r2,r2,.TOC.@l
        E8620000  ld r3,slot@toc(r2)
        E8630000  ld r3,0(r3)
        38000001  li r0,1
        44000002  sc",
    records: &[
        (0, REL16_HA, 4, 0),
        (4, REL16_LO, 4, 4),
        (8, TOC16_DS, 1, 0),
    ],
    others: &[
        Other {
            section: SLOT,
            records: &[(0, ADDR64, 2, 0)],
        },
        Other {
            section: Section {
                bytes: &[5, 0, 0, 0, 0, 0, 0, 0],
                ..Section::DATA
            },
            records: &[],
        },
    ],
    symbols: &[SECOND, THIRD, START, TOC_BASE],
};

const LISTINGS: [&Listing; 7] = [&AWAY, &ENDLESS, &SAME, &CALLS, &UP, &TABLE, &SMALL];

/// The bytes of a listing: each line is a word and what it says.
fn bytes_of(alloc: Global, words: &str) -> Result<Vec<u8>, Fail> {
    let mut bytes = Vec::new(alloc);
    for line in words.lines() {
        if let Some(word) = line.split_whitespace().next() {
            bytes.extend_from_slice(&u32::from_str_radix(word, 16)?.to_le_bytes())?;
        }
    }
    Ok(bytes)
}

fn records_of(alloc: Global, rows: &[Row]) -> Result<Vec<Record>, Fail> {
    let mut records = Vec::new(alloc);
    for (offset, kind, symbol, addend) in rows {
        records.push(Record {
            offset: *offset,
            kind: *kind,
            symbol: *symbol,
            addend: *addend,
        })?;
    }
    Ok(records)
}

fn tables_of(alloc: Global, others: &[Other]) -> Result<Vec<Vec<Record>>, Fail> {
    let mut tables = Vec::new(alloc);
    for other in others {
        tables.push(records_of(alloc, other.records)?)?;
    }
    Ok(tables)
}

/// The object of a listing.
fn file_of(alloc: Global, listing: &Listing) -> Result<Vec<u8>, Fail> {
    let bytes = bytes_of(alloc, listing.words)?;
    let records = records_of(alloc, listing.records)?;
    let tables = tables_of(alloc, listing.others)?;
    let mut sections = Vec::new(alloc);
    sections.push(Section {
        bytes: &bytes,
        records: &records,
        ..Section::TEXT
    })?;
    for (other, records) in listing.others.iter().zip(tables.iter()) {
        sections.push(Section {
            records,
            ..other.section
        })?;
    }
    Ok(Object::of_parts(&sections, listing.symbols).file(alloc)?)
}

/// Adds the objects.
pub fn add_listings(alloc: Global, store: &mut MemStore) -> Result<(), Fail> {
    for listing in LISTINGS {
        store.add(listing.name, &file_of(alloc, listing)?)?;
    }
    Ok(())
}
