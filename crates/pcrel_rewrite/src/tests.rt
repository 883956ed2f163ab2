// Pairs of small objects, and the words that they become.
use crate::{pairs, rewrite_got, rewrite_pair};
use object_builder::{FileHeader, Object, Record, Section, Stated, Symbol};
use object_set::{FileBytes, ObjectSet};
use power_insns::decode;
use ppc_bytes::constants::{SHN_ABS, SHN_COMMON};
use std::alloc::{AllocError, Global};
use std::process::Abort;
use std::test::Fail;
use symbol_table::resolve;

/// The symbols from symbol 1 on: their names, bindings, sections and values.
const SYMBOLS: [(&[u8], u8, u16, u64); 7] = [
    (b"local", 0x00, SHN_ABS, 8),
    (b"_start", 0x10, 1, 0),
    (b"v", 0x10, 2, 0),
    (b"number", 0x10, SHN_ABS, 8),
    (b"weak", 0x20, 0, 0),
    (b"common", 0x10, SHN_COMMON, 8),
    (b".TOC.", 0x10, 0, 0),
];

/// The number of a symbol; any other name is symbol 0's.
fn symbol_named(name: &str) -> u32 {
    match name {
        "local" => 1,
        "_start" => 2,
        "v" => 3,
        "number" => 4,
        "weak" => 5,
        "common" => 6,
        ".TOC." => 7,
        _ => 0,
    }
}

/// The number of a kind of relocation.
fn kind_named(name: &str) -> Result<u32, Fail> {
    match name {
        "ADDR32" => Ok(1),
        "TOC16_LO" => Ok(48),
        "TOCSAVE" => Ok(109),
        "PCREL_OPT" => Ok(123),
        "PCREL34" => Ok(132),
        "GOT" => Ok(133),
        _ => Err(Fail::from("no such kind")),
    }
}

/// The parts of a row.
fn columns_of<'a>(alloc: Global, row: &'a str, between: char) -> Result<Vec<&'a str>, AllocError> {
    let mut columns = Vec::new(alloc);
    for column in row.split(between) {
        columns.push(column.trim())?;
    }
    Ok(columns)
}

/// The bytes of words, of which `nops` are many.
fn bytes_of(alloc: Global, column: &str, nops: usize) -> Result<Vec<u8>, Fail> {
    let mut bytes = Vec::new(alloc);
    for word in column.split_whitespace() {
        if word == "nops" {
            for _ in 0..nops {
                bytes.extend_from_slice(&0x6000_0000u32.to_le_bytes())?;
            }
        } else {
            bytes.extend_from_slice(&u32::from_str_radix(word, 16)?.to_le_bytes())?;
        }
    }
    Ok(bytes)
}

/// Records, each with its offset, the relocation, the symbol and the addend.
fn records_of(alloc: Global, column: &str) -> Result<Vec<Record>, Fail> {
    let mut records = Vec::new(alloc);
    for row in column.split(';') {
        let parts = columns_of(alloc, row.trim(), ' ')?;
        if parts.len() != 4 {
            return Err(Fail::from("a record has four parts"));
        }
        records.push(Record {
            offset: parts[0].parse::<u64>()?,
            kind: kind_named(parts[1])?,
            symbol: symbol_named(parts[2]),
            addend: parts[3].parse::<i64>()?,
        })?;
    }
    Ok(records)
}

/// A file of text with these bytes and records, and data.
fn object<'a>(alloc: Global, bytes: &'a [u8], records: &'a [Record]) -> Result<FileBytes, Fail> {
    let mut symbols = Vec::new(alloc);
    for (name, info, section, value) in SYMBOLS {
        symbols.push(Symbol {
            name,
            info,
            other: 0,
            section,
            value,
            size: 8,
            stated_name: None,
        })?;
    }
    let sections = [
        Section {
            bytes,
            records,
            align: 64,
            ..Section::TEXT
        },
        Section {
            bytes: &[0; 16],
            ..Section::DATA
        },
    ];
    let object = Object {
        header: FileHeader::OBJECT,
        sections: &sections,
        null_symbol: Symbol::NULL,
        symbols: &symbols,
        null_section: Stated::TRUE,
        symbol_table: Stated::TRUE,
        symbol_names: Stated::TRUE,
        section_names: Stated::TRUE,
    };
    Ok(FileBytes {
        name: String::from_str(alloc, "t.o")?,
        bytes: object.file(alloc)?,
    })
}

/// The pairs of a file, each as its head and its tail, and then the tails alone.
fn told_of_pairs(alloc: Global, files: &[FileBytes], size: u64) -> Result<String, Fail> {
    if files.len() > 4096 {
        return Err(Fail::from("at most 4096 files"));
    }
    let Ok(set) = ObjectSet::take(alloc, files) else {
        return Err(Fail::from("object files"));
    };
    let Ok(resolved) = resolve(alloc, &set, b"_start") else {
        return Err(Fail::from("records"));
    };
    let pairs = pairs(alloc, &resolved)?;
    let mut told = String::new(alloc);
    for offset in 0..size {
        if let Some(tail) = pairs.head(0, offset) {
            told.push_str(&format!(in alloc; "{offset}-{tail} ")?)?;
        }
    }
    for offset in 0..size {
        if pairs.tail(0, offset) {
            told.push_str(&format!(in alloc; "{offset} ")?)?;
        }
    }
    Ok(told)
}

/// Whether the pairs of rows are these: the words, the records, and heads and tails.
fn all_recognised(rt: &impl Abort, alloc: Global, rows: &str, nops: usize) -> Result<(), Fail> {
    for row in rows.lines() {
        let columns = columns_of(alloc, row, '|')?;
        assert_eq!(rt; columns.len(), 3, "{row}");
        let bytes = bytes_of(alloc, columns[0], nops)?;
        let records = records_of(alloc, columns[1])?;
        let size = bytes.len() as u64;
        let files = [object(alloc, &bytes, &records)?];
        let told = told_of_pairs(alloc, &files, size)?;
        assert!(rt; told.as_str().trim() == columns[2], "{row}: {told}");
    }
    Ok(())
}

/// `pld r9`, `add r5,r6,r7`, `lwz r3,8(r9)`; with a store between; and the load and the access alone.
const LISTED: &str = "\
04100000 E5200000 7CA63A14 80690008          | 0 GOT v 0; 0 PCREL_OPT v 12 | 0-12 12
04100000 E5200000 7CA63A14 90C10000 80690008 | 0 GOT v 0; 0 PCREL_OPT v 16 |
04100000 E5200000 80690008                   | 0 GOT v 0; 0 PCREL_OPT v 8  | 0-8 8";

/// What stands at the head: no record of a load, another record, r0, and a record that comes behind.
const LOADS: &str = "\
04100000 E5200000 80690008 | 0 PCREL_OPT v 8                  |
04100000 E5200000 80690008 | 0 PCREL34 v 0; 0 PCREL_OPT v 8   |
04100000 E4000000 80600008 | 0 GOT v 0; 0 PCREL_OPT v 8       |
04100000 E5200000 80690008 | 0 PCREL_OPT v 8; 0 GOT v 0       | 0-8 8
60000000 04100000 E5200000 80690008 | 4 GOT v 0; 4 PCREL_OPT v 8 | 4-12 12
60000000 04100000 E5200000 80690008 | 4 GOT v 0; 0 PCREL_OPT v 12 |";

/// How far the access stands: too near, no multiple of 4, past the end, and in front; and places that no record should name.
const DISTANCES: &str = "\
04100000 E5200000 80690008 | 0 GOT v 0; 0 PCREL_OPT v 4       |
04100000 E5200000 80690008 | 0 GOT v 0; 0 PCREL_OPT v 10      |
04100000 E5200000 80690008 | 0 GOT v 0; 0 PCREL_OPT v 12      |
80690008 60000000 04100000 E5200000 | 8 GOT v 0; 8 PCREL_OPT v -8 |
04100000 E5200000 80690008 | 0 GOT v 0; 1 PCREL_OPT v 8       |
04100000 E5200000 80690008 | 0 GOT v 0; 18446744073709551608 PCREL_OPT v 16 |
04100000 E5200000 80690008 | 0 GOT v 0; 0 PCREL_OPT v 8; 0 PCREL_OPT v 8; 0 PCREL_OPT v 12; 5 PCREL_OPT v 128 | 0-8 8";

/// The access: loads and stores of each width; forms without a prefixed one; another base; r9 loaded, and stored.
const ACCESSES: &str = "\
04100000 E5200000 88690008 | 0 GOT v 0; 0 PCREL_OPT v 8 | 0-8 8
04100000 E5200000 E869000A | 0 GOT v 0; 0 PCREL_OPT v 8 | 0-8 8
04100000 E5200000 E8690008 | 0 GOT v 0; 0 PCREL_OPT v 8 | 0-8 8
04100000 E5200000 B0690008 | 0 GOT v 0; 0 PCREL_OPT v 8 | 0-8 8
04100000 E5200000 F8690008 | 0 GOT v 0; 0 PCREL_OPT v 8 | 0-8 8
04100000 E5200000 F8690009 | 0 GOT v 0; 0 PCREL_OPT v 8 |
04100000 E5200000 84690008 | 0 GOT v 0; 0 PCREL_OPT v 8 |
04100000 E5200000 7C69402E | 0 GOT v 0; 0 PCREL_OPT v 8 |
04100000 E5200000 39290008 | 0 GOT v 0; 0 PCREL_OPT v 8 |
04100000 E5200000 80680008 | 0 GOT v 0; 0 PCREL_OPT v 8 |
04100000 E5200000 81290008 | 0 GOT v 0; 0 PCREL_OPT v 8 | 0-8 8
04100000 E5200000 91290008 | 0 GOT v 0; 0 PCREL_OPT v 8 |";

/// The symbol: a number of the file alone, a number, and what lies within reach of all text.
const SYMBOL_ROWS: &str = "\
04100000 E5200000 80690008 | 0 GOT local 0; 0 PCREL_OPT v 8  |
04100000 E5200000 80690008 | 0 GOT number 0; 0 PCREL_OPT v 8 |
04100000 E5200000 80690008 | 0 GOT v 0; 0 PCREL_OPT number 8 | 0-8 8
04100000 E5200000 80690008 | 0 GOT _start 0; 0 PCREL_OPT v 8 | 0-8 8
04100000 E5200000 80690008 | 0 GOT weak 0; 0 PCREL_OPT v 8   | 0-8 8
04100000 E5200000 80690008 | 0 GOT common 0; 0 PCREL_OPT v 8 | 0-8 8
04100000 E5200000 80690008 | 0 GOT .TOC. 0; 0 PCREL_OPT v 8  | 0-8 8
04100000 E5200000 80690008 | 0 GOT none 0; 0 PCREL_OPT v 8   | 0-8 8";

/// Fields: on a word between, on the access, on its last byte, behind it; and a record without one.
const FIELDS: &str = "\
04100000 E5200000 7CA63A14 80690008 | 0 GOT v 0; 0 PCREL_OPT v 12; 8 ADDR32 v 0   |
04100000 E5200000 7CA63A14 80690008 | 0 GOT v 0; 0 PCREL_OPT v 12; 12 TOC16_LO v 0 |
04100000 E5200000 80690008 60000000 | 0 GOT v 0; 0 PCREL_OPT v 8; 11 ADDR32 v 0   |
04100000 E5200000 80690008 60000000 | 0 GOT v 0; 0 PCREL_OPT v 8; 12 ADDR32 v 0   | 0-8 8
04100000 E5200000 7CA63A14 80690008 | 0 GOT v 0; 0 PCREL_OPT v 12; 8 TOCSAVE v 0  | 0-12 12";

/// A word between: branches and `sc`; the registers of the address and of the access, read and written; loads and stores; and a
/// floating-point word.
const BETWEEN: &str = "\
04100000 E5200000 48000008 80690008 | 0 GOT v 0; 0 PCREL_OPT v 12 |
04100000 E5200000 41820008 80690008 | 0 GOT v 0; 0 PCREL_OPT v 12 |
04100000 E5200000 4E800020 80690008 | 0 GOT v 0; 0 PCREL_OPT v 12 |
04100000 E5200000 44000002 80690008 | 0 GOT v 0; 0 PCREL_OPT v 12 |
04100000 E5200000 7D2A4B78 80690008 | 0 GOT v 0; 0 PCREL_OPT v 12 |
04100000 E5200000 39200000 80690008 | 0 GOT v 0; 0 PCREL_OPT v 12 |
04100000 E5200000 7C6A1B78 80690008 | 0 GOT v 0; 0 PCREL_OPT v 12 |
04100000 E5200000 38600000 80690008 | 0 GOT v 0; 0 PCREL_OPT v 12 |
04100000 E5200000 38600000 90690008 | 0 GOT v 0; 0 PCREL_OPT v 12 |
04100000 E5200000 80C10000 80690008 | 0 GOT v 0; 0 PCREL_OPT v 12 | 0-12 12
04100000 E5200000 80C10000 90690008 | 0 GOT v 0; 0 PCREL_OPT v 12 |
04100000 E5200000 2C050000 90690008 | 0 GOT v 0; 0 PCREL_OPT v 12 | 0-12 12
04100000 E5200000 FC00002A 80690008 | 0 GOT v 0; 0 PCREL_OPT v 12 |";

/// Two pairs, and two loads of which one lies between the other and its access.
const SEVERAL: &str = "\
04100000 E5200000 80690008 04100000 E5400000 806A0008 | 12 GOT v 0; 12 PCREL_OPT v 8; 0 GOT v 0; 0 PCREL_OPT v 8 | 0-8 12-20 8 20
04100000 E5200000 04100000 E5400000 806A0008 80690008 | 8 GOT v 0; 8 PCREL_OPT v 8; 0 GOT v 0; 0 PCREL_OPT v 20 | 8-16 16";

#[test]
fn pairs_are_recognised_rule_by_rule(rt: HostRuntime) -> Result<(), Fail> {
    for rows in [
        LISTED,
        LOADS,
        DISTANCES,
        ACCESSES,
        SYMBOL_ROWS,
        FIELDS,
        BETWEEN,
        SEVERAL,
    ] {
        all_recognised(&rt, rt.alloc(), rows, 0)?;
    }
    Ok(())
}

#[test]
fn an_access_is_at_most_128_bytes_behind_its_load(rt: HostRuntime) -> Result<(), Fail> {
    let most = "04100000 E5200000 nops 80690008 | 0 GOT v 0; 0 PCREL_OPT v 128 | 0-128 128";
    all_recognised(&rt, rt.alloc(), most, 30)?;
    let more = "04100000 E5200000 nops 80690008 | 0 GOT v 0; 0 PCREL_OPT v 132 |";
    all_recognised(&rt, rt.alloc(), more, 31)
}

#[test]
fn loads_become_address_sums_and_accesses(rt: HostRuntime) {
    // the symbol lies at 0x10000008, the load at 0x10010000
    assert!(rt; rewrite_got(9, -0xFFF8) == (0x0613_FFFF, 0x3920_0008));
    assert!(rt; rewrite_got(3, -4) == (0x0613_FFFF, 0x3860_FFFC));
    let rows = [
        // lwz r3,8(r9); std r3,8(r9); add r5,r6,r7
        (0x8069_0008, Some((0x0613_FFFF, 0x8060_0010))),
        (0xF869_0008, Some((0x0413_FFFF, 0xF460_0010))),
        (0x7CA6_3A14, None),
    ];
    for (word, words) in rows {
        let found = match decode(word) {
            Some(insn) => rewrite_pair(&insn, -0xFFF0),
            None => None,
        };
        assert!(rt; found == words, "{word:x}");
    }
}
