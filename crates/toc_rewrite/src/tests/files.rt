// Files with TOC loads, made of their words and slots, and the foldable slots that they have where their data lies at known addresses.
ghost use Rattle.std.specs.Prelude.{◌≡◌, ◌<◌, ◌≤◌, ◌^◌, ℕ, None, IsTrue, IfOk, Ok, slice_index};
ghost use Rattle.symbol_table.specs.Records.{records_refusal};
ghost use Rattle.toc_rewrite.specs.Laid.{laid_files, HasAddresses};
ghost use Rattle.toc_rewrite.specs.declared.laid.TheConstants.{ADDRESS_END};

use crate::laid::{ADDRESS_END, firsts_of};
use crate::{Folds, foldable};
use object_builder::{Object, Record, Section, Symbol};
use object_set::{FileBytes, ObjectSet};
use ppc_bytes::Memory;
use ppc_bytes::constants::{SHN_ABS, STB_GLOBAL, STB_WEAK};
use reloc_fields::Kind;
use std::alloc::{AllocError, Global};
use std::test::Fail;
use symbol_table::{Resolved, resolve};

/// The symbols of each file, and their numbers.
#[derive(Clone, Copy)]
pub enum Named {
    /// The file's own `.toc`.
    Toc = 1,
    /// Its own `.text`.
    Text = 2,
    /// Its own `.data`.
    Data = 3,
    /// The number 0.
    Zero = 4,
    /// `.TOC.`.
    Base = 5,
    /// A weak symbol that stands for nothing.
    Nothing = 6,
    /// The `.toc` of the first file.
    First = 7,
}

/// A word with its record, or eight bytes with theirs: its kind, symbol and addend.
pub type Line = (u32, Option<(Kind, Named, i64)>);

/// A file: its code behind a prologue, the cells of its `.toc`, and those of its `.data`.
#[derive(Clone, Copy)]
pub struct File {
    pub code: &'static [Line],
    pub toc: &'static [Line],
    pub data: &'static [Line],
}

/// The number of a kind in a record.
fn number_of(kind: Kind) -> u32 {
    match kind {
        Kind::Addr16Lo => 4,
        Kind::Addr16Ha => 6,
        Kind::Addr64 => 38,
        Kind::Rel64 => 44,
        Kind::Toc16 => 47,
        Kind::Toc16Lo => 48,
        Kind::Toc16Ha => 50,
        Kind::Toc16Ds => 63,
        Kind::Toc16LoDs => 64,
        Kind::Rel16Lo => 250,
        Kind::Rel16Ha => 252,
        _ => 0,
    }
}

/// Puts lines of so many bytes behind bytes, and their records behind others.
fn push_lines(
    bytes: &mut Vec<u8>,
    records: &mut Vec<Record>,
    lines: &[Line],
    pad: &[u8],
) -> Result<(), AllocError> {
    for (word, record) in lines {
        if let Some((kind, symbol, addend)) = *record {
            records.push(Record {
                offset: bytes.len() as u64,
                kind: number_of(kind),
                symbol: symbol as u32,
                addend,
            })?;
        }
        bytes.extend_from_slice(&word.to_le_bytes())?;
        bytes.extend_from_slice(pad)?;
    }
    Ok(())
}

/// A symbol of a section, or of none where that is 0.
fn symbol(name: &'static [u8], binding: u8, section: u16) -> Symbol<'static> {
    Symbol {
        name,
        info: binding << 4,
        section,
        stated_name: None,
        ..Symbol::NULL
    }
}

/// The symbols of a file of this number from symbol 1 on: those of `Named`, and the entry.
fn symbols_of(alloc: Global, number: usize) -> Result<Vec<Symbol<'static>>, AllocError> {
    let is_first = number == 0;
    let mut symbols = Vec::new(alloc);
    symbols.push(symbol(b"toc", 0, 2))?;
    symbols.push(symbol(b"text", 0, 1))?;
    symbols.push(symbol(b"data", 0, 3))?;
    symbols.push(symbol(b"zero", 0, SHN_ABS))?;
    symbols.push(symbol(b".TOC.", 0, 0))?;
    symbols.push(symbol(b"nothing", STB_WEAK, 0))?;
    symbols.push(symbol(b"first", STB_GLOBAL, if is_first { 2 } else { 0 }))?;
    symbols.push(Symbol {
        info: STB_WEAK << 4,
        other: 3 << 5,
        ..Symbol::START
    })?;
    Ok(symbols)
}

/// The bytes of a section, and its records.
#[derive(Drop)]
struct SectionParts {
    bytes: Vec<u8>,
    records: Vec<Record>,
}

/// Those of lines of so many bytes more than a word.
fn parts_of(alloc: Global, lines: &[Line], pad: &[u8]) -> Result<SectionParts, AllocError> {
    let mut bytes = Vec::new(alloc);
    let mut records = Vec::new(alloc);
    push_lines(&mut bytes, &mut records, lines, pad)?;
    Ok(SectionParts { bytes, records })
}

/// Section 1, 2 or 3, behind so many others.
fn section<'a>(before: usize, parts: &'a SectionParts) -> Section<'a> {
    let kind = match before {
        0 => Section::TEXT,
        1 => Section::TOC,
        _ => Section::DATA,
    };
    Section {
        bytes: parts.bytes.as_slice(),
        records: parts.records.as_slice(),
        ..kind
    }
}

/// The bytes of a file of this number. Its section 1 is text, section 2 `.toc` and section 3 `.data`.
fn file_bytes(alloc: Global, number: usize, file: &File) -> Result<Vec<u8>, Memory> {
    let mut parts = Vec::new(alloc);
    parts.push(parts_of(alloc, file.code, &[])?)?;
    parts.push(parts_of(alloc, file.toc, &[0; 4])?)?;
    parts.push(parts_of(alloc, file.data, &[0; 4])?)?;
    let mut sections = Vec::new(alloc);
    for (i, part) in parts.iter().enumerate() {
        sections.push(section(i, part))?;
    }
    let symbols = symbols_of(alloc, number)?;
    Object::of_parts(&sections, &symbols).file(alloc)
}

/// Whether all addresses are as low as data's.
fn are_low(addresses: &[u64]) -> bool
    ensures { IsTrue result → (k : ℕ) → slice_index addresses.now k < ADDRESS_END }
{
    for address in addresses {
        if *address >= ADDRESS_END {
            return false;
        }
    }
    true
}

/// Whether there is an address for each base, section and common.
fn have_addresses(
    alloc: Global,
    res: &Resolved,
    bases: &[u64],
    pieces: &[u64],
) -> Result<bool, AllocError>
    ensures { IfOk result (λ fits. IsTrue fits →
        HasAddresses (laid_files res.now.files bases.now pieces.now)) }
{
    let sections = firsts_of(alloc, res.set())?.commons;
    let commons = res.common_count();
    let count = pieces.len() as u64;
    Ok(
        bases.len() == res.set().file_count() as usize
            && sections <= count
            && count - sections == commons
            && are_low(bases)
            && are_low(pieces),
    )
}

/// Where the `.toc` of a file lies; its `.data` is 0x10000 bytes behind it.
pub fn toc_of(file: u32) -> u64
    ensures { result < 2 ^ 63 }
{
    0x1000_0000 + 0x10_0000 * u64::from(file)
}

/// The addresses of a set's sections.
fn addresses(alloc: Global, set: &ObjectSet) -> Result<Vec<u64>, AllocError> {
    let mut pieces = Vec::new(alloc);
    for file in 0..set.file_count() {
        for section in 0..set.view(file).section_count() {
            pieces.push(match section {
                2 => toc_of(file),
                3 => toc_of(file) + 0x1_0000,
                _ => 0,
            })?;
        }
    }
    Ok(pieces)
}

/// The foldable slots of files, where the TOC base of each lies so far behind the start of its `.toc`.
pub fn folds(alloc: Global, files: &[File], bias: u32) -> Result<Folds, Fail> {
    let mut list = Vec::new(alloc);
    for (number, file) in files.iter().enumerate() {
        list.push(FileBytes {
            name: String::from_str(alloc, "t.o")?,
            bytes: file_bytes(alloc, number, file)?,
        })?;
    }
    let list = list.as_slice();
    if list.len() > 4096 {
        return Err(Fail::new("too many files"));
    }
    let Ok(set) = ObjectSet::take(alloc, list) else {
        return Err(Fail::new("a file is refused"));
    };
    let Ok(resolved) = resolve(alloc, &set, b"_start") else {
        return Err(Fail::new("the entry or a record is refused"));
    };
    let mut bases = Vec::new(alloc);
    for file in 0..set.file_count() {
        bases.push(toc_of(file) + u64::from(bias))?;
    }
    let pieces = addresses(alloc, &set)?;
    if !have_addresses(alloc, &resolved, &bases, &pieces)? {
        return Err(Fail::new("no addresses"));
    }
    Ok(foldable(alloc, &resolved, &bases, &pieces)?)
}
