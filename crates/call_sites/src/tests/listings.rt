// Objects as listings: the words of section 1, the symbols and the records.
use crate::{CallSite, Sites, prologue_of, sites};
use object_builder::{Object, Record, Section, Symbol};
use object_set::{FileBytes, ObjectSet, Refusal};
use std::alloc::{AllocError, Global};
use std::test::Fail;
use symbol_table::resolve;

/// A file with one text section.
#[derive(Clone, Copy)]
pub struct File {
    /// The words of the section, in hexadecimal.
    pub words: &'static str,
    /// The symbols, each with its name, st_info and the entry points in hexadecimal, its section and its value.
    pub symbols: &'static str,
    /// The records, each with its offset, the relocation's number, the symbol and the addend.
    pub records: &'static str,
}

/// The parts of a row.
fn parts_of<'a>(alloc: Global, row: &'a str) -> Result<Vec<&'a str>, AllocError> {
    let mut parts = Vec::new(alloc);
    for part in row.split_whitespace() {
        parts.push(part)?;
    }
    Ok(parts)
}

fn bytes_of(alloc: Global, words: &str) -> Result<Vec<u8>, Fail> {
    let mut bytes = Vec::new(alloc);
    for word in words.split_whitespace() {
        bytes.extend_from_slice(&u32::from_str_radix(word, 16)?.to_le_bytes())?;
    }
    Ok(bytes)
}

fn symbols_of(alloc: Global, rows: &'static str) -> Result<Vec<Symbol<'static>>, Fail> {
    let mut symbols = Vec::new(alloc);
    for row in rows.split(';') {
        let parts = parts_of(alloc, row)?;
        if parts.len() != 5 {
            return Err(Fail::from("a symbol has five parts"));
        }
        symbols.push(Symbol {
            name: parts[0].as_bytes(),
            info: u8::from_str_radix(parts[1], 16)?,
            other: u8::from_str_radix(parts[2], 16)?,
            section: parts[3].parse::<u16>()?,
            value: parts[4].parse::<u64>()?,
            size: 0,
            stated_name: None,
        })?;
    }
    Ok(symbols)
}

fn records_of(alloc: Global, rows: &str) -> Result<Vec<Record>, Fail> {
    let mut records = Vec::new(alloc);
    for row in rows.split(';') {
        let parts = parts_of(alloc, row)?;
        if parts.len() != 4 {
            return Err(Fail::from("a record has four parts"));
        }
        records.push(Record {
            offset: parts[0].parse::<u64>()?,
            kind: parts[1].parse::<u32>()?,
            symbol: parts[2].parse::<u32>()?,
            addend: parts[3].parse::<i64>()?,
        })?;
    }
    Ok(records)
}

/// A text section of these bytes and records.
fn sections_of<'a>(
    alloc: Global,
    bytes: &'a [u8],
    records: &'a [Record],
) -> Result<Vec<Section<'a>>, AllocError> {
    let mut sections = Vec::new(alloc);
    sections.push(Section {
        bytes,
        records,
        ..Section::TEXT
    })?;
    Ok(sections)
}

fn file_bytes(alloc: Global, file: &File) -> Result<FileBytes, Fail> {
    let bytes = bytes_of(alloc, file.words)?;
    let records = records_of(alloc, file.records)?;
    let symbols = symbols_of(alloc, file.symbols)?;
    let sections = sections_of(alloc, &bytes, &records)?;
    Ok(FileBytes {
        name: String::from_str(alloc, "t.o")?,
        bytes: Object::of_parts(&sections, &symbols).file(alloc)?,
    })
}

fn files_of(alloc: Global, files: &[File]) -> Result<Vec<FileBytes>, Fail> {
    let mut list = Vec::new(alloc);
    for file in files {
        list.push(file_bytes(alloc, file)?)?;
    }
    Ok(list)
}

/// The call sites of files of these TOC groups, or why there are none.
pub fn found(
    alloc: Global,
    files: &[File],
    groups: &[u32],
) -> Result<Result<Sites, Refusal>, Fail> {
    let list = files_of(alloc, files)?;
    let list = list.as_slice();
    if list.len() > 4096 {
        return Err(Fail::new("too many files"));
    }
    let Ok(set) = ObjectSet::take(alloc, list) else {
        return Err(Fail::new("a file is refused"));
    };
    if groups.len() != set.file_count() as usize {
        return Err(Fail::new("each file has a group"));
    }
    let Ok(resolved) = resolve(alloc, &set, b"_start") else {
        return Err(Fail::new("a record is refused"));
    };
    Ok(sites(alloc, &resolved, groups))
}

/// Whether an offset of a text section of files has a recognised prologue.
pub fn recognised(alloc: Global, files: &[File], section: u32, offset: u64) -> Result<bool, Fail> {
    let list = files_of(alloc, files)?;
    let list = list.as_slice();
    if list.len() > 4096 {
        return Err(Fail::new("too many files"));
    }
    let Ok(set) = ObjectSet::take(alloc, list) else {
        return Err(Fail::new("a file is refused"));
    };
    let Ok(resolved) = resolve(alloc, &set, b"_start") else {
        return Err(Fail::new("a record is refused"));
    };
    if resolved.text_count() <= section {
        return Err(Fail::new("no such section"));
    }
    Ok(prologue_of(&resolved, section, offset))
}

/// A site as a line: where it stands, its class, e, its callee, where it goes, and whether it has a slot and r2 is restored there.
pub fn line_of(alloc: Global, site: &CallSite) -> Result<String, AllocError> {
    format!(in alloc;
        "{} {} {:?} {} {} {} {} {} {}",
        site.section,
        site.offset,
        site.class,
        site.e,
        site.callee,
        site.to_section,
        site.to_offset,
        site.slot,
        site.restore
    )
}
