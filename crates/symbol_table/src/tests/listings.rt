// Links as text: the symbols of each file, and what comes of the link.
use crate::{CodePlace, resolve};
use object_builder::{Object, Section, Symbol};
use object_set::{FileBytes, ObjectSet, Refusal, Site};
use ppc_bytes::Memory;
use ppc_bytes::constants::{SHN_ABS, SHN_COMMON};
use std::alloc::{AllocError, Global};
use std::test::Fail;

/// The columns of a row, or other parts between two marks.
pub fn columns_of<'a>(
    alloc: Global,
    row: &'a str,
    between: char,
) -> Result<Vec<&'a str>, AllocError> {
    let mut columns = Vec::new(alloc);
    for column in row.split(between) {
        columns.push(column.trim())?;
    }
    Ok(columns)
}

/// The parts of a column.
pub fn parts_of<'a>(alloc: Global, column: &'a str) -> Result<Vec<&'a str>, AllocError> {
    let mut parts = Vec::new(alloc);
    for part in column.split_whitespace() {
        parts.push(part)?;
    }
    Ok(parts)
}

/// The name that a word stands for: itself, but for names that are empty or not text.
pub fn name_of<'a>(word: &'a str) -> &'a [u8] {
    match word {
        "empty" => b"",
        "ff" => b"\xff",
        "ff-fe" => b"\xff\xfe",
        "ff-80" => b"\xff\x80",
        "ff-81" => b"\xff\x81",
        "main-00" => b"main\x00",
        "main-ff" => b"main\xff",
        _ => word.as_bytes(),
    }
}

/// A binding as st_info has it.
fn info_of(binding: &str) -> u8 {
    match binding {
        "LOCAL" => 0x00,
        "GLOBAL" => 0x10,
        _ => 0x20,
    }
}

/// The section in which a symbol lies, or its special index. A function has a local entry point 8 bytes past the global one.
fn section_of(lies: &str) -> u16 {
    match lies {
        "text" | "function" => 1,
        "data" => 2,
        "more-text" => 3,
        "dropped" => 4,
        "number" => SHN_ABS,
        "common" => SHN_COMMON,
        _ => 0,
    }
}

/// The number that is part `k` of a symbol, 0 where it is left out.
fn number_at(parts: &[&str], k: usize) -> Result<u64, Fail> {
    match parts.get(k) {
        Some(part) => Ok(part.parse::<u64>()?),
        None => Ok(0),
    }
}

/// A word, and the place behind `@` where it has one.
fn placed(word: &str) -> Result<(&str, Option<u32>), Fail> {
    match word.split_once('@') {
        Some((name, place)) => Ok((name, Some(place.parse::<u32>()?))),
        None => Ok((word, None)),
    }
}

/// A symbol: its name, with the place where the name is stated to begin, its binding, where it lies, st_value and st_size.
fn symbol_of<'a>(alloc: Global, row: &'a str) -> Result<Symbol<'a>, Fail> {
    let parts = parts_of(alloc, row)?;
    if parts.len() < 3 {
        return Err(Fail::from("a symbol has a name, a binding and a place"));
    }
    let (name, stated_name) = placed(parts[0])?;
    Ok(Symbol {
        name: name_of(name),
        info: info_of(parts[1]),
        other: if parts[2] == "function" { 3 << 5 } else { 0 },
        section: section_of(parts[2]),
        value: number_at(&parts, 3)?,
        size: number_at(&parts, 4)?,
        stated_name,
    })
}

/// The symbols of a file from symbol 1 on.
fn symbols_of<'a>(alloc: Global, column: &'a str) -> Result<Vec<Symbol<'a>>, Fail> {
    let mut symbols = Vec::new(alloc);
    for row in column.split(',') {
        if !row.trim().is_empty() {
            symbols.push(symbol_of(alloc, row)?)?;
        }
    }
    Ok(symbols)
}

/// A section like another one with these bytes.
fn with<'a>(section: Section<'a>, bytes: &'a [u8]) -> Section<'a> {
    Section { bytes, ..section }
}

/// The sections of a file: text and data of 16 bytes, more text of 8, and data that isn't kept.
fn sections_of(alloc: Global) -> Result<Vec<Section<'static>>, AllocError> {
    let dropped = Section {
        flags: 0,
        ..Section::DATA
    };
    let mut sections = Vec::new(alloc);
    sections.push(with(Section::TEXT, &[0; 16]))?;
    sections.push(with(Section::DATA, &[0; 16]))?;
    sections.push(with(Section::TEXT, &[0; 8]))?;
    sections.push(with(dropped, &[0; 16]))?;
    Ok(sections)
}

/// A file of these sections and symbols.
pub fn file_of<'a>(
    alloc: Global,
    sections: &'a [Section<'a>],
    symbols: &'a [Symbol<'a>],
) -> Result<FileBytes, Memory> {
    Ok(FileBytes {
        name: String::from_str(alloc, "t.o")?,
        bytes: Object::of_parts(sections, symbols).file(alloc)?,
    })
}

/// A file with these symbols.
pub fn object(alloc: Global, column: &str) -> Result<FileBytes, Fail> {
    let symbols = symbols_of(alloc, column)?;
    let sections = sections_of(alloc)?;
    Ok(file_of(alloc, &sections, &symbols)?)
}

/// The files of a link.
pub fn files_of(alloc: Global, column: &str) -> Result<Vec<FileBytes>, Fail> {
    let mut files = Vec::new(alloc);
    for file in column.split('/') {
        files.push(object(alloc, file)?)?;
    }
    Ok(files)
}

/// Where the program of a link is entered, or why there is none.
pub fn entered(
    alloc: Global,
    files: &[FileBytes],
    entry: &[u8],
) -> Result<Result<CodePlace, Refusal>, Fail> {
    if files.len() > 4096 {
        return Err(Fail::from("at most 4096 files"));
    }
    match ObjectSet::take(alloc, files) {
        Ok(set) => match resolve(alloc, &set, entry) {
            Ok(resolved) => Ok(Ok(resolved.entry())),
            Err(refusal) => Ok(Err(refusal)),
        },
        Err(_) => Err(Fail::from("object files")),
    }
}

/// The word for a name that is refused.
fn word_of<'a>(name: &[u8]) -> &'a str {
    match name {
        b"" => "empty",
        b"\xff" => "ff",
        b"f" => "f",
        b"g" => "g",
        b"l" => "l",
        b"u" => "u",
        b"_start" => "_start",
        _ => "another",
    }
}

/// A refusal of a record, by the section that holds the record and the record's place there.
fn told_at(alloc: Global, what: &str, site: &Site) -> Result<String, AllocError> {
    format!(in alloc; "{what} {}.{}", site.table, site.entry)
}

/// Why a link with this entry is refused.
pub fn told(alloc: Global, refusal: &Refusal, entry: &[u8]) -> Result<String, AllocError> {
    match refusal {
        Refusal::Duplicate(name, first, second) => {
            format!(in alloc; "twice {} {first} {second}", word_of(name.as_slice()))
        }
        Refusal::NoEntry(name) if name.as_slice() == entry => String::from_str(alloc, "no entry"),
        Refusal::EntryNotCode(name) if name.as_slice() == entry => {
            String::from_str(alloc, "entry is no code")
        }
        Refusal::TlsAt(site) => told_at(alloc, "tls", site),
        Refusal::UnknownReloc(site, number) => {
            format!(in alloc; "unknown {}.{} {number}", site.table, site.entry)
        }
        Refusal::BadSite(site) => told_at(alloc, "bad", site),
        Refusal::UnsupportedAt(site) => told_at(alloc, "left out", site),
        Refusal::Unresolved(name, site) => {
            format!(in alloc;
                "{} is nothing {}.{}",
                word_of(name.as_slice()),
                site.table,
                site.entry
            )
        }
        Refusal::NotCode(site) => told_at(alloc, "no code", site),
        _ => String::from_str(alloc, "refused"),
    }
}
