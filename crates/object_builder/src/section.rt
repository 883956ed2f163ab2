// Sections, symbols and records, by their fields.
ghost use Rattle.std.specs.Prelude.{◌≡◌, nat_lt};

use ppc_bytes::constants::{
    SHF_ALLOC, SHF_EXECINSTR, SHF_WRITE, SHT_NOBITS, SHT_PROGBITS, STB_GLOBAL, STT_FUNC,
};

/// Values that are stated in a section header in place of the true ones.
#[derive(Clone, Copy)]
pub struct Stated {
    /// sh_name.
    pub name: Option<u32>,
    /// sh_type.
    pub kind: Option<u32>,
    /// sh_flags.
    pub flags: Option<u64>,
    /// sh_offset.
    pub offset: Option<u64>,
    /// sh_size.
    pub size: Option<u64>,
    /// sh_link.
    pub link: Option<u32>,
    /// sh_info.
    pub info: Option<u32>,
    /// sh_addralign.
    pub align: Option<u64>,
    /// sh_entsize.
    pub entry_size: Option<u64>,
}

impl Stated {
    /// The truth.
    pub const TRUE: Stated = Stated {
        name: None,
        kind: None,
        flags: None,
        offset: None,
        size: None,
        link: None,
        info: None,
        align: None,
        entry_size: None,
    };
}

/// A relocation record with an addend, of the section that has it.
#[derive(Clone, Copy)]
pub struct Record {
    /// The offset of the field (r_offset).
    pub offset: u64,
    /// The relocation's number.
    pub kind: u32,
    /// The symbol's number.
    pub symbol: u32,
    /// The addend (r_addend).
    pub addend: i64,
}

/// A section with its bytes and its records.
#[derive(Clone, Copy)]
pub struct Section<'a> {
    /// Its name, without a zero byte.
    pub name: &'a [u8],
    /// Its type (sh_type).
    pub kind: u32,
    /// Its flags (sh_flags).
    pub flags: u64,
    /// Its alignment in bytes (sh_addralign).
    pub align: u64,
    /// Its bytes in the file.
    pub bytes: &'a [u8],
    /// The records about it, which a section of their own holds if there are any.
    pub records: &'a [Record],
    /// What its header states otherwise. A zeroed section states its size.
    pub stated: Stated,
    /// The same of the section that holds its records.
    pub records_stated: Stated,
}

impl Section<'_> {
    /// `.text` without instructions.
    pub const TEXT: Section<'static> = Section {
        name: b".text",
        kind: SHT_PROGBITS,
        flags: SHF_ALLOC | SHF_EXECINSTR,
        align: 4,
        bytes: &[],
        records: &[],
        stated: Stated::TRUE,
        records_stated: Stated::TRUE,
    };

    /// `.data` without bytes.
    pub const DATA: Section<'static> = Section {
        name: b".data",
        kind: SHT_PROGBITS,
        flags: SHF_ALLOC | SHF_WRITE,
        align: 8,
        bytes: &[],
        records: &[],
        stated: Stated::TRUE,
        records_stated: Stated::TRUE,
    };

    /// `.toc` without slots.
    pub const TOC: Section<'static> = Section {
        name: b".toc",
        ..Section::DATA
    };

    /// `.bss`, of which the size is yet to be stated.
    pub const ZEROED: Section<'static> = Section {
        name: b".bss",
        kind: SHT_NOBITS,
        ..Section::DATA
    };
}

/// A symbol.
#[derive(Clone, Copy)]
pub struct Symbol<'a> {
    /// Its name, without a zero byte.
    pub name: &'a [u8],
    /// The binding in the high four bits and the type in the low four (st_info).
    pub info: u8,
    /// st_other, with the entry points in the high three bits.
    pub other: u8,
    /// The section in which it lies, or a special index (st_shndx).
    pub section: u16,
    /// st_value.
    pub value: u64,
    /// st_size.
    pub size: u64,
    /// The place of the name among the symbols' names, where it is stated otherwise (st_name).
    pub stated_name: Option<u32>,
}

impl Symbol<'_> {
    /// Symbol 0.
    pub const NULL: Symbol<'static> = Symbol {
        name: &[],
        info: 0,
        other: 0,
        section: 0,
        value: 0,
        size: 0,
        stated_name: Some(0),
    };

    /// The global function `_start` at the front of section 1.
    pub const START: Symbol<'static> = Symbol {
        name: b"_start",
        info: STB_GLOBAL << 4 | STT_FUNC,
        other: 0,
        section: 1,
        value: 0,
        size: 0,
        stated_name: None,
    };

    /// Whether its binding is LOCAL: it stands before all symbols that other files see.
    pub fn is_local(&self) -> bool
        ensures { result ≡ nat_lt self.now.info 16 }
    {
        self.info < STB_GLOBAL << 4
    }
}
