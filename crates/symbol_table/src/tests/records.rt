// Relocation records: where their fields may stand, on which words, and where they may go.
use super::listings::{columns_of, entered, file_of, parts_of, told};
use object_builder::{Record, Section, Stated, Symbol};
use object_set::FileBytes;
use ppc_bytes::constants::{SHF_ALLOC, SHN_ABS};
use std::alloc::{AllocError, Global};
use std::test::Fail;

/// The place of a section. They have the same four words, but for the zeroed one; behind them stands more text.
fn section_named(name: &str) -> usize {
    match name {
        "text" => 0,
        "data" => 1,
        "toc" => 2,
        "read-only" => 3,
        "zeroed" => 4,
        _ => 5,
    }
}

/// The number of a symbol.
fn symbol_named(name: &str) -> u32 {
    match name {
        "l" => 1,
        "_start" => 2,
        "d" => 3,
        "u" => 4,
        "w" => 5,
        ".TOC." => 6,
        "n" => 7,
        "f" => 8,
        "between" => 9,
        "end" => 10,
        _ => 0,
    }
}

fn symbol<'a>(name: &'a [u8], info: u8, section: u16, value: u64) -> Symbol<'a> {
    Symbol {
        name,
        info,
        other: 0,
        section,
        value,
        size: 0,
        stated_name: None,
    }
}

/// The symbols, where `_start` has these entry points.
fn symbols_of<'a>(alloc: Global, entry_points: u8) -> Result<Vec<Symbol<'a>>, AllocError> {
    let mut symbols = Vec::new(alloc);
    // what only the file sees, and lies nowhere
    symbols.push(symbol(b"l", 0x00, 0, 0))?;
    symbols.push(Symbol {
        other: entry_points << 5,
        ..symbol(b"_start", 0x10, 1, 0)
    })?;
    symbols.push(symbol(b"d", 0x10, 2, 0))?;
    // undefined, and undefined and weak
    symbols.push(symbol(b"u", 0x10, 0, 0))?;
    symbols.push(symbol(b"w", 0x20, 0, 0))?;
    symbols.push(symbol(b".TOC.", 0x10, 0, 0))?;
    symbols.push(symbol(b"n", 0x10, SHN_ABS, 8))?;
    // in the other text
    symbols.push(symbol(b"f", 0x10, 6, 4))?;
    symbols.push(symbol(b"between", 0x10, 1, 2))?;
    symbols.push(symbol(b"end", 0x10, 1, 16))?;
    Ok(symbols)
}

/// The bytes of four words, of which the first are given.
fn bytes_of(alloc: Global, column: &str) -> Result<Vec<u8>, Fail> {
    let mut bytes = Vec::new(alloc);
    for word in column.split_whitespace() {
        bytes.extend_from_slice(&u32::from_str_radix(word, 16)?.to_le_bytes())?;
    }
    for _ in 0..4 {
        if bytes.len() < 16 {
            bytes.extend_from_slice(&0x6000_0000u32.to_le_bytes())?;
        }
    }
    Ok(bytes)
}

/// Records, each with its offset, the relocation's number, the symbol and the addend.
fn records_of(alloc: Global, column: &str) -> Result<Vec<Record>, Fail> {
    let mut records = Vec::new(alloc);
    if column.is_empty() {
        return Ok(records);
    }
    for row in column.split(';') {
        let parts = parts_of(alloc, row)?;
        if parts.len() != 4 {
            return Err(Fail::from("a record has four parts"));
        }
        records.push(Record {
            offset: parts[0].parse::<u64>()?,
            kind: parts[1].parse::<u32>()?,
            symbol: symbol_named(parts[2]),
            addend: parts[3].parse::<i64>()?,
        })?;
    }
    Ok(records)
}

/// A section like another one with these bytes.
fn with<'a>(section: Section<'a>, bytes: &'a [u8]) -> Section<'a> {
    Section { bytes, ..section }
}

/// The sections of a file, of which the last one has records about the text.
fn sections_of<'a>(
    alloc: Global,
    bytes: &'a [u8],
    more: &'a [Record],
) -> Result<Vec<Section<'a>>, AllocError> {
    let read_only = Section {
        flags: SHF_ALLOC,
        ..Section::DATA
    };
    let zeroed = Section {
        stated: Stated {
            size: Some(16),
            ..Stated::TRUE
        },
        ..Section::ZEROED
    };
    let more_text = Section {
        records: more,
        records_stated: Stated {
            info: Some(1),
            ..Stated::TRUE
        },
        ..Section::TEXT
    };
    let mut sections = Vec::new(alloc);
    sections.push(with(Section::TEXT, bytes))?;
    sections.push(with(Section::DATA, bytes))?;
    sections.push(with(Section::TOC, bytes))?;
    sections.push(with(read_only, bytes))?;
    sections.push(zeroed)?;
    sections.push(with(more_text, bytes))?;
    Ok(sections)
}

/// A file: the section that the records are about, its first words, the entry points of `_start`, the records, and behind `/` more of
/// them about the text.
fn object(
    alloc: Global,
    about: &str,
    words: &str,
    entry_points: u8,
    records: &str,
) -> Result<FileBytes, Fail> {
    let bytes = bytes_of(alloc, words)?;
    let (records, more) = records.split_once('/').unwrap_or((records, ""));
    let records = records_of(alloc, records)?;
    let more = records_of(alloc, more)?;
    let mut sections = sections_of(alloc, &bytes, &more)?;
    if let Some(section) = sections.get_mut(section_named(about)) {
        section.records = &records;
    }
    let symbols = symbols_of(alloc, entry_points)?;
    Ok(file_of(alloc, &sections, &symbols)?)
}

/// What comes of a link of files with these records, one file for each section that the records are about.
fn outcome(
    alloc: Global,
    about: &str,
    words: &str,
    entry_points: &str,
    records: &str,
    entry: &str,
) -> Result<String, Fail> {
    let entry_points = entry_points.parse::<u8>()?;
    let mut files = Vec::new(alloc);
    for section in about.split_whitespace() {
        files.push(object(alloc, section, words, entry_points, records)?)?;
    }
    Ok(match entered(alloc, &files, entry.as_bytes())? {
        Ok(_) => String::from_str(alloc, "links")?,
        Err(refusal) => told(alloc, &refusal, entry.as_bytes())?,
    })
}

/// The first row that isn't as it says, with what comes of it, or nothing. A row has the section that the records are about, its first
/// words, the entry points of `_start`, the records, what comes of the link, and the entry if it isn't `_start`. The section that holds
/// the records is number 7.
fn wrong_row(alloc: Global, rows: &str) -> Result<String, Fail> {
    for row in rows.lines() {
        let columns = columns_of(alloc, row, '|')?;
        if columns.len() < 5 {
            return Err(Fail::from("five columns"));
        }
        let entry = *columns.get(5).unwrap_or(&"_start");
        let outcome = outcome(alloc, columns[0], columns[1], columns[2], columns[3], entry)?;
        if outcome.as_str() != columns[4] {
            return Ok(format!(in alloc; "{row}: {outcome}")?);
        }
    }
    Ok(String::new(alloc))
}

/// Fields up to the end of a section and past it; at a multiple of 4, if they fill an instruction; that touch, and that have a byte in
/// common, in either order; and records without bytes.
const PLACES: &str = "\
data   | | 0 | 12 1 d 0 | links
data   | | 0 | 13 1 d 0 | bad 7.0
data   | | 0 | 8 38 d 0 | links
data   | | 0 | 9 38 d 0 | bad 7.0
data   | | 0 | 18446744073709551615 38 d 0 | bad 7.0
text   | 04100000 E5200000 04100000 04100000 | 0 | 12 133 d 0 | bad 7.0
text   | | 0 | 2 1 d 0 | links
text   | | 0 | 2 4 d 0 | bad 7.0
data   | | 0 | 8 1 d 0; 4 1 d 0; 0 1 d 0 | links
data   | | 0 | 8 38 d 0; 0 38 d 0 | links
data   | | 0 | 4 1 d 0; 7 1 d 0 | bad 7.1
data   | | 0 | 7 1 d 0; 4 1 d 0 | bad 7.1
data   | | 0 | 0 38 d 0; 4 1 d 0 | bad 7.1
data   | | 0 | 4 1 d 0; 0 38 d 0 | bad 7.1
data   | | 0 | 4 1 d 0; 4 1 d 0 | bad 7.1
data   | | 0 | 0 1 d 0; 8 1 d 0; 2 1 d 0 | bad 7.2
data   | | 0 | 8 1 d 0; 0 1 d 0; 5 1 d 0 | bad 7.2
data   | | 0 | 15 1 d 0; 0 3 d 0 | bad 7.0
data   | | 0 | 0 1 d 0; 0 0 d 0; 1 109 u 0; 2 123 u 8 | links
zeroed | | 0 | 18446744073709551615 0 u 0 | links
text   | | 0 | 18446744073709551614 123 u -4 | links
text   | | 0 | 16 109 l 1 | links";

/// `b`, `bl`, `ba`, `bla` and another word; `beq`, `beqa` and `b`; prefixed words with R, without R, with RA 1, and others; `pld` with a
/// displacement, with a bit more, with another type, without R, `paddi`, `pstd`, with RA 9, and beside the slot; `lxsd`, `lwa`, `std`, a
/// load of another form, and `lwz`, which has any displacement.
const WORDS: &str = "\
text | 48000000          | 0 | 0 10 f 0       | links
text | 4BFFFFFD          | 0 | 0 116 f 0      | links
text | 48000002          | 0 | 0 10 f 0       | bad 7.0
text | 48000003          | 0 | 0 116 f 0      | bad 7.0
text | 60000000          | 0 | 0 10 f 0       | bad 7.0
text | 41820009          | 0 | 0 11 _start 0  | links
text | 4182000A          | 0 | 0 11 _start 0  | bad 7.0
text | 48000000          | 0 | 0 11 _start 0  | bad 7.0
text | 0613FFFF 3860FFFF | 0 | 0 132 d 0      | links
text | 06000000 38600000 | 0 | 0 132 d 0      | bad 7.0
text | 06100000 38610000 | 0 | 0 132 d 0      | bad 7.0
text | 38600000 38600000 | 0 | 0 132 d 0      | bad 7.0
text | 0413FFFF E520FFFF | 0 | 0 133 d 0      | links
text | 04140000 E5200000 | 0 | 0 133 d 0      | bad 7.0
text | 06100000 E5200000 | 0 | 0 133 d 0      | bad 7.0
text | 04000000 E5200000 | 0 | 0 133 d 0      | bad 7.0
text | 06100000 39200000 | 0 | 0 133 d 0      | bad 7.0
text | 04100000 F5200000 | 0 | 0 133 d 0      | bad 7.0
text | 04100000 E5290000 | 0 | 0 133 d 0      | bad 7.0
text | 04100000 E5200000 | 0 | 0 133 d 4      | left out 7.0
text | E4000000          | 0 | 0 56 d 0       | links
text | E8690002          | 0 | 0 57 d 0       | links
text | F8690000          | 0 | 0 63 d 0       | links
text | E0800000          | 0 | 0 57 d 0       | left out 7.0
text | 80690000          | 0 | 0 56 d 0       | left out 7.0
text | 80690000          | 0 | 0 64 d 0       | left out 7.0
text | 80690000          | 0 | 0 63 u 0       | left out 7.0";

/// Symbols that stand for nothing, for data and for numbers; calls of instructions, of other places, and of a weak symbol that stands for
/// nothing; and branches that leave their section or not.
const TARGETS: &str = "\
data | | 0 | 0 38 u 0 | u is nothing 7.0
data | | 0 | 0 38 l 0 | l is nothing 7.0
data | | 0 | 0 38 w 8 | links
data | | 0 | 0 38 0 8 | links
data | | 0 | 0 38 .TOC. 8 | links
data | | 0 | 0 51 u 0 | links
data | | 0 | 0 4 u 0 | bad 7.0
text | 48000001 | 0 | 0 10 u 0 | u is nothing 7.0
text | 48000001 | 0 | 0 10 f 8 | links
text | 48000001 | 0 | 0 10 f 12 | no code 7.0
text | 48000001 | 0 | 0 10 f 2 | no code 7.0
text | 48000001 | 0 | 0 116 between 0 | no code 7.0
text | 48000001 | 0 | 0 116 between 2 | links
text | 48000001 | 0 | 0 116 end 0 | no code 7.0
text | 48000001 | 0 | 0 10 end -4 | links
text | 48000001 | 0 | 0 10 _start -4 | no code 7.0
text | 48000001 | 0 | 0 10 d 0 | no code 7.0
text | 48000001 | 0 | 0 10 n 0 | no code 7.0
text | 48000001 | 0 | 0 116 0 0 | no code 7.0
text | 48000001 | 0 | 0 10 .TOC. 0 | no code 7.0
text | 48000001 | 0 | 0 10 w 2 | links
text | 41820000 | 0 | 0 11 _start 12 | links
text | 41820000 | 0 | 0 11 f 0 | no code 7.0
text | 41820000 | 0 | 0 11 w 0 | no code 7.0";

/// Numbers of thread-local storage and their neighbours, and the first of several records that are refused.
const NUMBERS: &str = "\
zeroed | | 0 | 99 66 u 0 | unknown 7.0 66
zeroed | | 0 | 99 67 u 0 | tls 7.0
data | | 0 | 0 108 d 0 | tls 7.0
data | | 0 | 0 110 d 0 | unknown 7.0 110
data | | 0 | 0 111 d 0 | unknown 7.0 111
data | | 0 | 0 112 d 0 | tls 7.0
data | | 0 | 0 115 d 0 | tls 7.0
data | | 0 | 0 117 d 0 | unknown 7.0 117
data | | 0 | 0 145 d 0 | unknown 7.0 145
data | | 0 | 0 146 d 0 | tls 7.0
data | | 0 | 0 151 d 0 | tls 7.0
data | | 0 | 0 152 d 0 | unknown 7.0 152
data | | 0 | 0 2 d 0 | unknown 7.0 2
data | | 0 | 0 4294967295 d 0 | unknown 7.0 4294967295
data | | 0 | 0 1 d 0; 0 2 d 0 | unknown 7.1 2
data | | 0 | 0 1 d 0; 4 1 u 0; 8 67 d 0 | u is nothing 7.1
data | | 0 | 0 67 d 0; 99 1 d 0 | tls 7.0";

/// Prologues with both halves; with other entry points, one half, other words, addends, symbols and places; with a later field that has
/// bytes of them, and with other records.
const PROLOGUES: &str = "\
text | 3C4C1234 3842FFFF | 3 | 0 252 .TOC. 0; 4 250 .TOC. 4 | links
text | 3C4C1234 3842FFFF | 3 | 4 250 .TOC. 4; 0 252 .TOC. 0 | links
text | 3C4C1234 3842FFFF | 1 | 0 252 .TOC. 0; 4 250 .TOC. 4 | left out 7.0
text | 3C4C1234 3842FFFF | 2 | 0 252 .TOC. 0; 4 250 .TOC. 4 | left out 7.0
text | 3C4C1234 3842FFFF | 0 | 4 250 .TOC. 4; 0 252 .TOC. 0 | left out 7.0
text | 3C4C1234 3842FFFF | 3 | 0 252 .TOC. 0 | left out 7.0
text | 3C4C1234 3842FFFF | 3 | 4 250 .TOC. 4 | left out 7.0
text | 3C4B0000 38420000 | 3 | 0 252 .TOC. 0; 4 250 .TOC. 4 | left out 7.0
text | 3C4C0000 38620000 | 3 | 0 252 .TOC. 0; 4 250 .TOC. 4 | left out 7.0
text | 3C400000 38420000 | 3 | 0 252 .TOC. 0; 4 250 .TOC. 4 | left out 7.0
text | 3C4C1234 3842FFFF | 3 | 0 252 .TOC. 4; 4 250 .TOC. 4 | left out 7.0
text | 3C4C1234 3842FFFF | 3 | 0 252 .TOC. 0; 4 250 .TOC. 0 | left out 7.0
text | 3C4C1234 3842FFFF | 3 | 0 252 .TOC. 0; 4 250 _start 4 | left out 7.0
text | 3C4C1234 3842FFFF | 3 | 0 252 .TOC. 0; 4 250 .TOC. 4; 8 252 .TOC. 0 | left out 7.2
text | 3C4C1234 3842FFFF | 3 | 0 252 .TOC. 0; 4 250 .TOC. 4; 6 1 d 0 | left out 7.0
text | 3C4C1234 3842FFFF | 3 | 4 250 .TOC. 4; 0 252 .TOC. 0; 6 1 d 0 | left out 7.0
text | 3C4C1234 3842FFFF | 3 | 0 252 .TOC. 0; 4 250 .TOC. 4; 0 252 .TOC. 0 | left out 7.0
text | 3C4C1234 3842FFFF | 3 | 0 252 .TOC. 0; 4 250 .TOC. 4; 0 44 d 0 | left out 7.0
text | 3C4C1234 3842FFFF | 3 | 0 252 .TOC. 0; 4 250 .TOC. 4; 8 1 d 0 | links
text | 3C4C1234 3842FFFF | 3 | 0 0 d 0; 0 252 .TOC. 0; 4 109 d 0; 4 250 .TOC. 4 | links
text | 3C4C1234 3842FFFF | 3 | 0 252 .TOC. 0; 4 250 .TOC. 4; 4 2 d 0 | unknown 7.2 2
text | 3C4C1234 3842FFFF | 3 | 2 1 d 0; 0 252 .TOC. 0; 4 250 .TOC. 4 | bad 7.1";

/// Records of the text in the sections 7 and 8, which are judged in this order; and records that are judged only where there is an entry
/// and no name is defined twice.
const ORDER: &str = "\
text | | 0 | 0 1 d 0 / 4 1 d 0 | links
text | | 0 | 0 1 d 0 / 8 1 d 0; 2 1 d 0 | bad 8.1
text | | 0 | 8 1 d 0; 4 1 u 0 / 0 67 d 0 | u is nothing 7.1
text | | 0 | 8 1 d 0 / 0 67 d 0 | tls 8.0
data | | 0 | 0 67 d 0 | tls 7.0
data | | 0 | 0 67 d 0 | no entry | main
data data | | 0 | 0 67 d 0 | twice _start 0 1";

#[test]
fn a_record_fits_its_place_its_words_and_its_target(rt: HostRuntime) -> Result<(), Fail> {
    for rows in [PLACES, WORDS, TARGETS, NUMBERS, PROLOGUES, ORDER] {
        let wrong = wrong_row(rt.alloc(), rows)?;
        assert!(rt; wrong.is_empty(), "{wrong}");
    }
    Ok(())
}

/// Each kind's number, where its field may stand, words that suit it, a symbol, and what is said of it on them. Of the last two there is no
/// recognised prologue.
const KINDS: &str = "\
0   | any  |                   | u      | links
1   | both |                   | d      | links
3   | text |                   | d      | links
4   | text |                   | d      | links
5   | text |                   | d      | links
6   | text |                   | d      | links
10  | text | 48000001          | f      | links
11  | text | 41820000          | _start | links
26  | both |                   | d      | links
38  | both |                   | d      | links
44  | data |                   | d      | links
47  | text |                   | d      | links
48  | text |                   | d      | links
49  | text |                   | d      | links
50  | text |                   | d      | links
51  | data |                   | u      | links
56  | text | E8690000          | d      | links
57  | text | E8690000          | d      | links
63  | text | E8690000          | d      | links
64  | text | E8690000          | d      | links
109 | any  |                   | u      | links
116 | text | 48000001          | f      | links
123 | any  |                   | u      | links
132 | text | 06100000 38600000 | d      | links
133 | text | 04100000 E5200000 | d      | links
250 | text |                   | .TOC.  | left out 7.0
252 | text |                   | .TOC.  | left out 7.0";

/// Whether a field of a kind may stand in a section.
fn may_stand(place: &str, about: &str) -> bool {
    match place {
        "any" => true,
        "text" => about == "text",
        "both" => about != "zeroed",
        _ => about != "text" && about != "zeroed",
    }
}

/// The first section in which a kind isn't judged as its row says, or nothing.
fn wrong_section(alloc: Global, row: &str) -> Result<String, Fail> {
    let columns = columns_of(alloc, row, '|')?;
    if columns.len() != 5 {
        return Err(Fail::from("five columns"));
    }
    let records = format!(in alloc; "0 {} {} 0", columns[0], columns[3])?;
    for about in ["text", "data", "toc", "read-only", "zeroed"] {
        let outcome = outcome(alloc, about, columns[2], "0", &records, "_start")?;
        let expected = if may_stand(columns[1], about) {
            columns[4]
        } else {
            "bad 7.0"
        };
        if outcome.as_str() != expected {
            return Ok(format!(in alloc; "{about}: {outcome}")?);
        }
    }
    Ok(String::new(alloc))
}

#[test]
fn each_kind_stands_where_it_may(rt: HostRuntime) -> Result<(), Fail> {
    for row in KINDS.lines() {
        let wrong = wrong_section(rt.alloc(), row)?;
        assert!(rt; wrong.is_empty(), "{row}, {wrong}");
    }
    Ok(())
}
