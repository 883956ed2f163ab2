// Files of a link, made of the room that their sections take, their symbols and what they load from slots.
use crate::{DataPlan, lay_data};
use object_builder::{Object, Record, Section, Stated, Symbol};
use object_set::{FileBytes, ObjectSet, Refusal};
use ppc_bytes::constants::{SHF_ALLOC, SHN_ABS, SHN_COMMON, STB_GLOBAL, STB_WEAK};
use std::alloc::Global;
use std::test::Fail;
use symbol_table::resolve;

/// A section: what it is, its size and its alignment.
#[derive(Clone, Copy)]
pub enum Room {
    /// Data that is only read.
    ReadOnly(usize, u64),
    /// A part of the table of contents.
    Toc(usize, u64),
    /// Data that may be written.
    Writable(usize, u64),
    /// Zeros.
    Zeroed(u64, u64),
    /// Data that is only read, with these bytes and records.
    Constant(&'static [u8], &'static [Record]),
    /// A part of the table of contents, with these bytes and records.
    Slots(&'static [u8], &'static [Record]),
    /// Data that may be written, with these bytes and records.
    Data(&'static [u8], &'static [Record]),
}

/// A symbol.
#[derive(Clone, Copy)]
pub enum Named {
    /// One that only the file sees, in section 1.
    Own,
    /// A GLOBAL one in section 1.
    Here(&'static [u8]),
    /// A GLOBAL one that the file doesn't define.
    Elsewhere(&'static [u8]),
    /// A WEAK one that the file doesn't define.
    Perhaps(&'static [u8]),
    /// A common of this size and alignment.
    Common(&'static [u8], u64, u64),
    /// One that only the file sees, at an offset of a section.
    In(u16, u64),
    /// One that only the file sees, which is a number.
    Absolute(u64),
}

/// A file: section 1 is text, and these are the sections from 2 on, the symbols from 1 on, and the symbols that are loaded from slots.
#[derive(Clone, Copy)]
pub struct File {
    pub rooms: &'static [Room],
    pub symbols: &'static [Named],
    pub loads: &'static [u32],
}

impl File {
    /// A file without data.
    pub const EMPTY: File = File {
        rooms: &[],
        symbols: &[],
        loads: &[],
    };
}

/// The number of R_PPC64_GOT_PCREL34.
const GOT_PCREL34: u32 = 133;

/// `pld r3` with R = 1, as its bytes stand in a file.
const LOAD: [u8; 8] = [0x00, 0x00, 0x10, 0x04, 0x00, 0x00, 0x60, 0xE4];

/// How many zeros there are.
const MOST: usize = 0x10008;

/// So many of the zeros.
fn zeros_of<'a>(zeros: &'a [u8], size: usize) -> &'a [u8] {
    if size <= zeros.len() {
        &zeros[..size]
    } else {
        zeros
    }
}

fn section<'a>(room: Room, zeros: &'a [u8]) -> Section<'a> {
    match room {
        Room::ReadOnly(size, align) => Section {
            name: b".rodata",
            flags: SHF_ALLOC,
            align,
            bytes: zeros_of(zeros, size),
            ..Section::DATA
        },
        Room::Toc(size, align) => Section {
            align,
            bytes: zeros_of(zeros, size),
            ..Section::TOC
        },
        Room::Writable(size, align) => Section {
            align,
            bytes: zeros_of(zeros, size),
            ..Section::DATA
        },
        Room::Zeroed(size, align) => Section {
            align,
            stated: Stated {
                size: Some(size),
                ..Stated::TRUE
            },
            ..Section::ZEROED
        },
        Room::Constant(bytes, records) => Section {
            name: b".rodata",
            flags: SHF_ALLOC,
            bytes,
            records,
            ..Section::DATA
        },
        Room::Slots(bytes, records) => Section {
            bytes,
            records,
            ..Section::TOC
        },
        Room::Data(bytes, records) => Section {
            bytes,
            records,
            ..Section::DATA
        },
    }
}

fn symbol(named: Named) -> Symbol<'static> {
    let (name, info, section, value, size) = match named {
        Named::Own => (b"own".as_slice(), 0, 1, 0, 0),
        Named::Here(name) => (name, STB_GLOBAL << 4, 1, 0, 0),
        Named::Elsewhere(name) => (name, STB_GLOBAL << 4, 0, 0, 0),
        Named::Perhaps(name) => (name, STB_WEAK << 4, 0, 0, 0),
        Named::Common(name, size, align) => (name, STB_GLOBAL << 4, SHN_COMMON, align, size),
        Named::In(section, offset) => (b"own".as_slice(), 0, section, offset, 0),
        Named::Absolute(n) => (b"own".as_slice(), 0, SHN_ABS, n, 0),
    };
    Symbol {
        name,
        info,
        other: 0,
        section,
        value,
        size,
        stated_name: None,
    }
}

/// The bytes of a file, which has a WEAK `_start` as its last symbol.
fn file_bytes(alloc: Global, file: &File, zeros: &[u8]) -> Result<Vec<u8>, Fail> {
    let mut code = Vec::new(alloc);
    let mut records = Vec::new(alloc);
    for load in file.loads {
        records.push(Record {
            offset: code.len() as u64,
            kind: GOT_PCREL34,
            symbol: *load,
            addend: 0,
        })?;
        code.extend_from_slice(&LOAD)?;
    }
    code.extend_from_slice(&LOAD)?;
    let mut sections = Vec::new(alloc);
    sections.push(Section {
        bytes: &code,
        records: &records,
        ..Section::TEXT
    })?;
    for room in file.rooms {
        sections.push(section(*room, zeros))?;
    }
    let mut symbols = Vec::new(alloc);
    for named in file.symbols {
        symbols.push(symbol(*named))?;
    }
    symbols.push(Symbol {
        info: STB_WEAK << 4,
        ..Symbol::START
    })?;
    Ok(Object::of_parts(&sections, &symbols).file(alloc)?)
}

/// The files with their bytes.
pub fn list_of(alloc: Global, files: &[File]) -> Result<Vec<FileBytes>, Fail> {
    let zeros = vec![in alloc; 0u8; MOST]?;
    let mut list = Vec::new(alloc);
    for file in files {
        list.push(FileBytes {
            name: String::from_str(alloc, "t.o")?,
            bytes: file_bytes(alloc, file, &zeros)?,
        })?;
    }
    Ok(list)
}

/// The plan of files with a TOC span, or why there is none.
pub fn laid(alloc: Global, files: &[File], span: u32) -> Result<Result<DataPlan, Refusal>, Fail> {
    if span % 8 != 0 || span < 16 || span > 0x1_0000 {
        return Err(Fail::new("no TOC span"));
    }
    let list = list_of(alloc, files)?;
    let list = list.as_slice();
    if list.len() > 4096 {
        return Err(Fail::new("too many files"));
    }
    let Ok(set) = ObjectSet::take(alloc, list) else {
        return Err(Fail::new("a file is refused"));
    };
    let Ok(resolved) = resolve(alloc, &set, b"_start") else {
        return Err(Fail::new("the entry is refused"));
    };
    Ok(lay_data(alloc, &resolved, span))
}

/// The plan of files that have one.
pub fn plan(alloc: Global, files: &[File], span: u32) -> Result<DataPlan, Fail> {
    match laid(alloc, files, span)? {
        Ok(plan) => Ok(plan),
        Err(_) => Err(Fail::new("data is refused")),
    }
}
