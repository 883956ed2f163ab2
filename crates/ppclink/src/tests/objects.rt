// Objects of two functions, told by their statements. The first is `_start`, the second is `f` at 0x40. Nops stand behind each.
use super::columns_of;
use super::statements::meaning_of;
use elf64_records::constants::{SHN_ABS, STB_GLOBAL, STB_LOCAL, STB_WEAK};
use object_builder::{Object, Record, Section, Symbol};
use std::alloc::Global;
use std::test::Fail;

/// Kinds of relocation by their numbers (ELFv2 ABI, "Relocation Types Table").
const KINDS: [(&str, u32); 23] = [
    ("ADDR32", ADDR32),
    ("ADDR16", 3),
    ("ADDR16_LO", 4),
    ("ADDR16_HI", 5),
    ("ADDR16_HA", 6),
    ("REL24", 10),
    ("REL14", 11),
    ("REL32", REL32),
    ("ADDR64", ADDR64),
    ("TOC16", 47),
    ("TOC16_LO", 48),
    ("TOC16_HI", 49),
    ("TOC16_HA", 50),
    ("ADDR16_DS", 56),
    ("ADDR16_LO_DS", 57),
    ("TOC16_DS", 63),
    ("TOC16_LO_DS", 64),
    ("REL24_NOTOC", 116),
    ("PCREL_OPT", 123),
    ("PCREL34", 132),
    ("GOT_PCREL34", 133),
    ("REL16_LO", 250),
    ("REL16_HA", 252),
];

const ADDR32: u32 = 1;

const REL32: u32 = 26;

const ADDR64: u32 = 38;

const REL64: u32 = 44;

const TOC_BASE: u32 = 51;

/// The offset of the second function.
const SECOND: u64 = 0x40;

const SLOT: Symbol<'static> = Symbol {
    name: b"slot",
    info: STB_LOCAL << 4,
    section: 2,
    ..Symbol::START
};

const DATA: Symbol<'static> = Symbol {
    name: b"data",
    section: 3,
    ..SLOT
};

/// A number that is no address.
const SEVEN: Symbol<'static> = Symbol {
    name: b"seven",
    section: SHN_ABS,
    value: 7,
    ..SLOT
};

/// The second function, where r2 is preserved.
const F: Symbol<'static> = Symbol {
    name: b"f",
    section: 1,
    value: SECOND,
    ..SLOT
};

/// The symbols of every object. The second function has a name for each sort of entry point: `g`,
/// where r2 may change, and `h`, with a second entry point 8 bytes past the first.
const SYMBOLS: [Symbol<'static>; 11] = [
    SLOT,
    DATA,
    Symbol {
        name: b"ptr",
        value: 8,
        ..DATA
    },
    F,
    Symbol {
        name: b"g",
        other: 1 << 5,
        ..F
    },
    Symbol {
        name: b"h",
        other: 3 << 5,
        ..F
    },
    SEVEN,
    Symbol {
        name: b"eight",
        value: 8,
        ..SEVEN
    },
    Symbol {
        name: b"weak",
        info: STB_WEAK << 4,
        section: 0,
        ..Symbol::START
    },
    Symbol {
        name: b".TOC.",
        info: STB_GLOBAL << 4,
        section: 0,
        ..Symbol::START
    },
    Symbol {
        other: 3 << 5,
        ..Symbol::START
    },
];

/// A field that is made of `data`, and one of the second function.
const TO_DATA: Record = Record {
    offset: 0,
    kind: ADDR64,
    symbol: 2,
    addend: 0,
};

const TO_CODE: Record = Record {
    symbol: 4,
    ..TO_DATA
};

/// The slot holds the address of `data`.
const TOC: Section<'static> = Section {
    bytes: &[0; 16],
    records: &[TO_DATA],
    ..Section::TOC
};

/// The number 5 at `data`, the address of the second function at `ptr`, and the number 7; then an address in each half of a
/// doubleword, a distance in each half, a distance in each of two doublewords, and the TOC base.
const NUMBERS: Section<'static> = Section {
    bytes: &[
        5, 0, 0, 0, 0, 0, 0, 0, 0, 0, 0, 0, 0, 0, 0, 0, 7, 0, 0, 0, 0, 0, 0, 0, 0, 0, 0, 0, 0, 0,
        0, 0, 0, 0, 0, 0, 0, 0, 0, 0, 0, 0, 0, 0, 0, 0, 0, 0, 0, 0, 0, 0, 0, 0, 0, 0, 0, 0, 0, 0,
        0, 0, 0, 0,
    ],
    records: &[
        Record {
            offset: 8,
            kind: ADDR64,
            ..TO_CODE
        },
        Record {
            offset: 24,
            kind: ADDR32,
            ..TO_DATA
        },
        Record {
            offset: 28,
            kind: ADDR32,
            ..TO_CODE
        },
        Record {
            offset: 32,
            kind: REL32,
            ..TO_DATA
        },
        Record {
            offset: 36,
            kind: REL32,
            ..TO_CODE
        },
        Record {
            offset: 40,
            kind: REL64,
            ..TO_DATA
        },
        Record {
            offset: 48,
            kind: REL64,
            ..TO_CODE
        },
        Record {
            offset: 56,
            kind: TOC_BASE,
            ..TO_DATA
        },
    ],
    ..Section::DATA
};

fn kind_named(name: &str) -> Result<u32, Fail> {
    for (known, number) in KINDS {
        if known == name {
            return Ok(number);
        }
    }
    Err(Fail::from("no kind has this name"))
}

/// A dash is no symbol.
fn symbol_named(name: &str) -> Result<u32, Fail> {
    if name == "-" {
        return Ok(0);
    }
    let mut number = 0u32;
    for symbol in SYMBOLS {
        number = number.saturating_add(1);
        if symbol.name == name.as_bytes() {
            return Ok(number);
        }
    }
    Err(Fail::from("no symbol has this name"))
}

/// The words of section 1 and its records.
#[derive(Drop)]
struct Code {
    bytes: Vec<u8>,
    records: Vec<Record>,
}

/// A record whose offset is counted from where its statement begins.
fn record_of(alloc: Global, start: u64, column: &str) -> Result<Record, Fail> {
    let mut parts = Vec::new(alloc);
    for part in column.split_whitespace() {
        parts.push(part)?;
    }
    if parts.len() != 4 {
        return Err(Fail::from("a record has four parts"));
    }
    Ok(Record {
        offset: parts[0].parse::<u64>()?.saturating_add(start),
        kind: kind_named(parts[1])?,
        symbol: symbol_named(parts[2])?,
        addend: parts[3].parse::<i64>()?,
    })
}

fn add_words(code: &mut Code, column: &str) -> Result<(), Fail> {
    for word in column.split_whitespace() {
        code.bytes
            .extend_from_slice(&u32::from_str_radix(word, 16)?.to_le_bytes())?;
    }
    Ok(())
}

fn add_records(alloc: Global, code: &mut Code, start: u64, column: &str) -> Result<(), Fail> {
    if !column.is_empty() {
        for record in column.split(',') {
            code.records.push(record_of(alloc, start, record)?)?;
        }
    }
    Ok(())
}

/// Puts a statement behind the others.
fn add_statement(alloc: Global, code: &mut Code, statement: &str) -> Result<(), Fail> {
    let columns = meaning_of(alloc, statement)?;
    if columns.len() != 3 {
        return Err(Fail::from("a statement has three columns"));
    }
    let start = code.bytes.len() as u64;
    add_words(code, columns[1])?;
    add_records(alloc, code, start, columns[2])
}

fn add_statements(alloc: Global, code: &mut Code, column: &str) -> Result<(), Fail> {
    if !column.is_empty() {
        for statement in column.split(';') {
            add_statement(alloc, code, statement.trim())?;
        }
    }
    Ok(())
}

/// Puts nops behind the others up to an offset.
fn fill(code: &mut Code, end: u64) -> Result<(), Fail> {
    for _ in 0..16 {
        if (code.bytes.len() as u64) < end {
            add_words(code, "60000000")?;
        }
    }
    Ok(())
}

/// An object of two functions, of 16 words each.
pub fn object_of(alloc: Global, align: u64, first: &str, second: &str) -> Result<Vec<u8>, Fail> {
    let mut code = Code {
        bytes: Vec::new(alloc),
        records: Vec::new(alloc),
    };
    add_statements(alloc, &mut code, first)?;
    fill(&mut code, SECOND)?;
    add_statements(alloc, &mut code, second)?;
    fill(&mut code, SECOND * 2)?;
    let text = Section {
        bytes: &code.bytes,
        records: &code.records,
        align,
        ..Section::TEXT
    };
    Ok(Object::of_parts(&[text, TOC, NUMBERS], &SYMBOLS).file(alloc)?)
}
