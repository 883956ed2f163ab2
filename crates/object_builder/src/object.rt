// An object file.
ghost use Rattle.std.specs.Prelude.{◌≡◌, ◌≤◌, IfOk, vec_len};

use crate::encoding::{
    Header, append, append_name, file_header_bytes, half_of, record_bytes, symbol_bytes, word_of,
};
use crate::header::FileHeader;
use crate::section::{Section, Stated, Symbol};
use ppc_bytes::Memory;
use ppc_bytes::constants::{SHT_RELA, SHT_STRTAB, SHT_SYMTAB};
use std::alloc::Global;

/// An object file, by its parts. Its sections have the numbers from 1 on, behind them stand those that hold their records, then the
/// symbol table, the symbols' names and the sections' names. Its symbols have the numbers from 1 on; the LOCAL ones come first.
#[derive(Clone, Copy)]
pub struct Object<'a> {
    /// The file header.
    pub header: FileHeader,
    /// The sections.
    pub sections: &'a [Section<'a>],
    /// Symbol 0.
    pub null_symbol: Symbol<'a>,
    /// The symbols behind it.
    pub symbols: &'a [Symbol<'a>],
    /// What the header of section 0 states.
    pub null_section: Stated,
    /// What that of the symbol table states.
    pub symbol_table: Stated,
    /// What that of the symbols' names states.
    pub symbol_names: Stated,
    /// What that of the sections' names states.
    pub section_names: Stated,
}

/// The parts of a file that is being made.
#[derive(Drop)]
struct Parts {
    /// What stands behind the file header.
    body: Vec<u8>,
    /// The section headers.
    headers: Vec<u8>,
    /// How many there are.
    count: u32,
    /// The sections' names.
    names: Vec<u8>,
}

impl Parts {
    /// Section 0 alone.
    fn new(alloc: Global, stated: &Stated) -> Result<Parts, Memory> {
        let mut parts = Parts {
            body: Vec::new(alloc),
            headers: Vec::new(alloc),
            count: 1,
            names: Vec::new(alloc),
        };
        append(&mut parts.names, &[0])?;
        append(&mut parts.headers, &Header::NULL.with(stated).bytes())?;
        Ok(parts)
    }

    /// Fills the file up to a multiple of eight bytes, and says where it ends.
    fn end(&mut self) -> Result<u64, Memory> {
        for _ in 0..8 {
            if self.body.len() % 8 == 0 {
                break;
            }
            append(&mut self.body, &[0])?;
        }
        Ok((self.body.len() as u64).saturating_add(64))
    }

    /// A section with a name and these bytes. Its header has the place and the size of the bytes.
    fn add(
        &mut self,
        name: u32,
        bytes: &[u8],
        header: Header,
        stated: &Stated,
    ) -> Result<(), Memory> {
        let offset = self.end()?;
        append(&mut self.body, bytes)?;
        let header = Header {
            name,
            offset,
            size: bytes.len() as u64,
            ..header
        };
        append(&mut self.headers, &header.with(stated).bytes())?;
        self.count = word_of((self.count as usize).saturating_add(1))?;
        Ok(())
    }

    /// A section of the file.
    fn add_section(&mut self, section: &Section) -> Result<(), Memory> {
        let name = append_name(&mut self.names, section.name)?;
        let header = Header {
            kind: section.kind,
            flags: section.flags,
            align: section.align,
            ..Header::NULL
        };
        self.add(name, section.bytes, header, &section.stated)
    }

    /// The section that holds the records of section `about`, where it has any.
    fn add_records(
        &mut self,
        alloc: Global,
        section: &Section,
        about: u32,
        table: u32,
    ) -> Result<(), Memory> {
        if section.records.is_empty() {
            return Ok(());
        }
        let mut bytes = Vec::new(alloc);
        for record in section.records {
            append(&mut bytes, &record_bytes(record))?;
        }
        let name = append_name(&mut self.names, b".rela")?;
        let header = Header {
            kind: SHT_RELA,
            link: table,
            info: about,
            align: 8,
            entry_size: 24,
            ..Header::NULL
        };
        self.add(name, &bytes, header, &section.records_stated)
    }

    /// A string table.
    fn add_strings(&mut self, name: u32, strings: &[u8], stated: &Stated) -> Result<(), Memory> {
        let header = Header {
            kind: SHT_STRTAB,
            align: 1,
            ..Header::NULL
        };
        self.add(name, strings, header, stated)
    }
}

impl<'a> Object<'a> {
    /// No sections and no symbols.
    pub const EMPTY: Object<'static> = Object {
        header: FileHeader::OBJECT,
        sections: &[],
        null_symbol: Symbol::NULL,
        symbols: &[],
        null_section: Stated::TRUE,
        symbol_table: Stated::TRUE,
        symbol_names: Stated::TRUE,
        section_names: Stated::TRUE,
    };

    /// An object of these sections and symbols, of which every header says the truth.
    pub fn of_parts(sections: &'a [Section<'a>], symbols: &'a [Symbol<'a>]) -> Object<'a>
        ensures sections { result.sections ≡ sections.entry }
        ensures symbols { result.symbols ≡ symbols.entry }
    {
        Object {
            header: FileHeader::OBJECT,
            sections,
            null_symbol: Symbol::NULL,
            symbols,
            null_section: Stated::TRUE,
            symbol_table: Stated::TRUE,
            symbol_names: Stated::TRUE,
            section_names: Stated::TRUE,
        }
    }

    /// The number of the symbol table.
    fn table(&self) -> Result<u32, Memory> {
        let mut table = self.sections.len();
        for section in self.sections {
            if !section.records.is_empty() {
                table = table.saturating_add(1);
            }
        }
        word_of(table.saturating_add(1))
    }

    /// Puts the symbol table and the symbols' names behind the other parts.
    fn add_symbols(&self, alloc: Global, parts: &mut Parts) -> Result<(), Memory> {
        let mut names = Vec::new(alloc);
        append(&mut names, &[0])?;
        let mut table = Vec::new(alloc);
        append(&mut table, &symbol_bytes(&self.null_symbol, 0))?;
        for symbol in self.symbols {
            let name = append_name(&mut names, symbol.name)?;
            append(&mut table, &symbol_bytes(symbol, name))?;
        }
        let locals = self.symbols.iter().take_while(|s| s.is_local()).count();
        let header = Header {
            kind: SHT_SYMTAB,
            link: word_of((parts.count as usize).saturating_add(1))?,
            info: word_of(locals.saturating_add(1))?,
            align: 8,
            entry_size: 24,
            ..Header::NULL
        };
        let name = append_name(&mut parts.names, b".symtab")?;
        parts.add(name, &table, header, &self.symbol_table)?;
        let name = append_name(&mut parts.names, b".strtab")?;
        parts.add_strings(name, &names, &self.symbol_names)
    }

    /// The file's parts in order.
    fn parts(&self, alloc: Global) -> Result<Parts, Memory> {
        let table = self.table()?;
        let mut parts = Parts::new(alloc, &self.null_section)?;
        for section in self.sections {
            parts.add_section(section)?;
        }
        for (i, section) in self.sections.iter().enumerate() {
            parts.add_records(alloc, section, word_of(i.saturating_add(1))?, table)?;
        }
        self.add_symbols(alloc, &mut parts)?;
        Ok(parts)
    }

    /// The bytes of the file, which begin with its file header.
    pub fn file(&self, alloc: Global) -> Result<Vec<u8>, Memory>
        ensures { IfOk result (λ file. 64 ≤ vec_len file) }
    {
        let mut parts = self.parts(alloc)?;
        let last = parts.count;
        let name = append_name(&mut parts.names, b".shstrtab")?;
        let names = Vec::from_slice(alloc, &parts.names)?;
        parts.add_strings(name, &names, &self.section_names)?;
        let start = parts.end()?;
        let header = file_header_bytes(&self.header, start, half_of(parts.count)?, half_of(last)?);
        let mut file = Vec::new(alloc);
        append(&mut file, &header)?;
        append(&mut file, &parts.body)?;
        append(&mut file, &parts.headers)?;
        Ok(file)
    }
}
