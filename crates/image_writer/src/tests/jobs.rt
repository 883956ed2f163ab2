// Jobs as listings, and what their text comes to.
ghost use Rattle.std.specs.Prelude.{◌≡◌, ◌<◌, ◌^◌, IsTrue, length};
ghost use Rattle.layout_rounds.specs.Shapes.{IsSpan};
ghost use Rattle.image_writer.specs.Job.{IsJob};

use crate::{lay_text, plans_have_addresses, text_bytes};
use call_sites::{CallSite, sites};
use layout_rounds::Settled;
use object_builder::{Object, Record, Section, Symbol};
use object_set::{FileBytes, ObjectSet, Refusal};
use pcrel_rewrite::pairs;
use ppc_bytes::Steps;
use ppc_bytes::constants::{SHN_ABS, STB_GLOBAL, STB_WEAK};
use std::alloc::{AllocError, Global};
use std::marker::Brand;
use std::sync::ledger::{Blank, Ledger};
use std::test::Fail;
use symbol_table::{Resolved, resolve};
use toc_groups::{DataPlan, lay_data};
use toc_rewrite::foldable;

/// Zeros but for some words, each with its offset.
#[derive(Clone, Copy)]
pub struct Words {
    /// How many bytes there are, a multiple of 4.
    pub size: usize,
    pub words: &'static [(usize, u32)],
}

/// A record: its offset, its kind, its symbol and its addend.
pub type Row = (u64, u32, u32, i64);

/// A text section.
#[derive(Clone, Copy)]
pub struct Code {
    pub words: Words,
    pub records: &'static [Row],
}

/// A symbol.
#[derive(Clone, Copy)]
pub enum Named {
    /// One that only the file sees: its section, its offset there, and its entry points.
    At(u16, u64, u8),
    /// A GLOBAL one in section 1: its name, its offset there, and its entry points.
    Global(&'static [u8], u64, u8),
    /// A GLOBAL one that the file doesn't define.
    Elsewhere(&'static [u8]),
    /// A WEAK one that the file doesn't define.
    Perhaps(&'static [u8]),
    /// One that only the file sees and that stands for a number.
    Number(u64),
}

/// A file: text sections, a part of the table of contents with its records, and data, both zeros, and symbols, of which those that only
/// the file sees come first.
#[derive(Clone, Copy)]
pub struct File {
    pub texts: &'static [Code],
    pub toc: usize,
    pub slots: &'static [Row],
    pub data: usize,
    pub symbols: &'static [Named],
}

impl Words {
    /// The word at an offset.
    fn at(&self, offset: usize) -> u32 {
        for (place, word) in self.words {
            if *place == offset {
                return *word;
            }
        }
        0
    }

    /// The bytes.
    pub fn bytes(&self, alloc: Global) -> Result<Vec<u8>, AllocError> {
        let mut bytes = Vec::new(alloc);
        for k in 0..self.size / 4 {
            bytes.extend_from_slice(&self.at(4 * k).to_le_bytes())?;
        }
        Ok(bytes)
    }
}

fn symbol(named: Named) -> Symbol<'static> {
    let (name, info, section, value, entries) = match named {
        Named::At(section, value, entries) => (b"here".as_slice(), 0, section, value, entries),
        Named::Global(name, value, entries) => (name, STB_GLOBAL << 4, 1, value, entries),
        Named::Elsewhere(name) => (name, STB_GLOBAL << 4, 0, 0, 0),
        Named::Perhaps(name) => (name, STB_WEAK << 4, 0, 0, 0),
        Named::Number(n) => (b"number".as_slice(), 0, SHN_ABS, n, 0),
    };
    Symbol {
        name,
        info,
        other: (entries & 7) << 5,
        section,
        value,
        size: 0,
        stated_name: None,
    }
}

/// Records by their rows.
fn table(alloc: Global, rows: &[Row]) -> Result<Vec<Record>, AllocError> {
    let mut table = Vec::new(alloc);
    for (offset, kind, symbol, addend) in rows {
        table.push(Record {
            offset: *offset,
            kind: *kind,
            symbol: *symbol,
            addend: *addend,
        })?;
    }
    Ok(table)
}

/// The records of each section: those of text, those of the table of contents, and none of data.
fn records(alloc: Global, file: &File) -> Result<Vec<Vec<Record>>, AllocError> {
    let mut tables = Vec::new(alloc);
    for code in file.texts {
        tables.push(table(alloc, code.records)?)?;
    }
    tables.push(table(alloc, file.slots)?)?;
    tables.push(Vec::new(alloc))?;
    Ok(tables)
}

/// The bytes of each section: those of text, and zeros.
fn contents(alloc: Global, file: &File) -> Result<Vec<Vec<u8>>, AllocError> {
    let mut contents = Vec::new(alloc);
    for code in file.texts {
        contents.push(code.words.bytes(alloc)?)?;
    }
    contents.push(vec![in alloc; 0u8; file.toc]?)?;
    contents.push(vec![in alloc; 0u8; file.data]?)?;
    Ok(contents)
}

/// What a section is that comes behind so many others, of which the first ones are text.
fn kind_behind(count: usize, texts: usize) -> Section<'static> {
    if count < texts {
        Section::TEXT
    } else if count == texts {
        Section::TOC
    } else {
        Section::DATA
    }
}

fn of_bytes<'a>(kind: Section<'static>, bytes: &'a [u8], records: &'a [Record]) -> Section<'a> {
    Section {
        bytes,
        records,
        ..kind
    }
}

/// Sections with these bytes and records, of which so many are text.
fn sections<'a>(
    alloc: Global,
    texts: usize,
    contents: &'a [Vec<u8>],
    tables: &'a [Vec<Record>],
) -> Result<Vec<Section<'a>>, AllocError> {
    let mut sections = Vec::new(alloc);
    for (bytes, records) in contents.iter().zip(tables.iter()) {
        let kind = kind_behind(sections.len(), texts);
        sections.push(of_bytes(kind, bytes.as_slice(), records.as_slice()))?;
    }
    Ok(sections)
}

fn symbols_of(alloc: Global, file: &File) -> Result<Vec<Symbol<'static>>, AllocError> {
    let mut symbols = Vec::new(alloc);
    for named in file.symbols {
        symbols.push(symbol(*named))?;
    }
    Ok(symbols)
}

/// The bytes of a file.
fn file_bytes(alloc: Global, file: &File) -> Result<FileBytes, Fail> {
    let contents = contents(alloc, file)?;
    let tables = records(alloc, file)?;
    let sections = sections(alloc, file.texts.len(), &contents, &tables)?;
    let symbols = symbols_of(alloc, file)?;
    Ok(FileBytes {
        name: String::from_str(alloc, "t.o")?,
        bytes: Object::of_parts(&sections, &symbols).file(alloc)?,
    })
}

/// Whether a branch span may be asked for.
fn is_span(span: u32) -> bool
    ensures { IsTrue result → IsSpan span }
{
    span % 4 == 0 && 0x100 <= span && span <= 0x200_0000
}

/// The text of a job that is laid out, with its slots and pairs.
fn bytes_of(
    alloc: Global,
    res: &Resolved,
    plan: &DataPlan,
    sites: &[CallSite],
    settled: &Settled,
) -> Result<Result<Vec<u8>, Refusal>, Fail>
    requires job { IsJob res.now.files plan.now sites.now settled.now.keyed settled.now.far
        settled.now.places }
    requires few { length sites.now < 2 ^ 32 }
{
    let _count = res.set().file_count();
    plans_have_addresses();
    let Ok(folds) = foldable(alloc, res, plan.bases(), plan.pieces()) else {
        return Err(Fail::new("no memory for slots"));
    };
    let Ok(pairs) = pairs(alloc, res) else {
        return Err(Fail::new("no memory for pairs"));
    };
    Ok(text_bytes(alloc, res, plan, sites, settled, &folds, &pairs))
}

/// The text of files that aren't refused, with a branch span and a counter of placements, or why there is none.
fn text_of<L: Ledger>(
    blank: Blank,
    alloc: Global,
    files: &[File],
    span: u32,
) -> Result<Result<Vec<u8>, Refusal>, Fail>
    requires name { blank.name ≡ L.name }
    requires parts { blank.parts ≡ L.parts }
    requires some { 0 < L.parts }
{
    let mut list = Vec::new(alloc);
    for file in files {
        list.push(file_bytes(alloc, file)?)?;
    }
    let list = list.as_slice();
    if list.len() > 4096 || !is_span(span) {
        return Err(Fail::new("no such job"));
    }
    let Ok(set) = ObjectSet::take(alloc, list) else {
        return Err(Fail::new("a file is refused"));
    };
    let Ok(res) = resolve(alloc, &set, b"_start") else {
        return Err(Fail::new("a record is refused"));
    };
    let Ok(plan) = lay_data(alloc, &res, 0x1_0000) else {
        return Err(Fail::new("data is refused"));
    };
    if plan.groups().len() != set.file_count() as usize {
        return Err(Fail::new("each file has a group"));
    }
    let Ok(found) = sites(alloc, &res, plan.groups()) else {
        return Err(Fail::new("a call is refused"));
    };
    let _count = found.count();
    let mut steps = Steps::<L>::new(blank);
    match lay_text(alloc, &res, &plan, found.as_slice(), span, &mut steps) {
        Ok(settled) => bytes_of(alloc, &res, &plan, found.as_slice(), &settled),
        Err(refusal) => Ok(Err(refusal)),
    }
}

/// The same with a counter of its own.
pub fn outcome(alloc: Global, files: &[File], span: u32) -> Result<Result<Vec<u8>, Refusal>, Fail> {
    text_of::<Brand>(Blank::new(1), alloc, files, span)
}
