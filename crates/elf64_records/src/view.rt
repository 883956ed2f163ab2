// A relocatable file as a whole.
ghost use Rattle.std.specs.Prelude.{◌≡◌, ◌<◌, ◌≤◌, IfOk, IsTrue, None, length};
ghost use Rattle.std.specs.Str.{bytes_eq};
ghost use Rattle.elf64_records.specs.First.{Refuses};
ghost use Rattle.elf64_records.specs.FileHeader.{e_shnum};
ghost use Rattle.elf64_records.specs.Sections.{has_bytes, section_of};
ghost use Rattle.elf64_records.specs.Symbols.{symbol_count, symbol_of, st_name};
ghost use Rattle.elf64_records.specs.Records.{record_count, rela_of};
ghost use Rattle.elf64_records.specs.Faults.{object_fault};

use crate::fault::ElfFault;
use crate::headers::{FILE_LIMIT, Headers};
use crate::records::{Rela, check_relas, record_at};
use crate::sections::{SectionHeader, SectionView, Sections};
use crate::symbols::{SymbolEntry, SymbolView, Symbols};
use ppc_bytes::constants::SHT_RELA;
use std::marker::Model;

/// A relocatable file that has none of the faults of `ElfFault`. It borrows the file's bytes, as which contracts see it, and each
/// slice that it lends is a part of them. Making it and reading it takes no memory.
#[derive(Drop)]
pub struct ObjectView<'a> {
    symbols: Symbols<'a>,
}

impl<'a> Model for ObjectView<'a> {
    ghost use Rattle.std.specs.Prelude.{◌≡◌, List, ℕ, None};
    ghost use Rattle.elf64_records.specs.Faults.{object_fault};

    ghost Value = { List ℕ };

    ghost view = { λ v. v.symbols.sections.headers.bytes.now };

    ghost invariant = { λ v. object_fault v.symbols.sections.headers.bytes.now ≡ None };
}

impl<'a> ObjectView<'a> {
    /// The view of a file's bytes, or the first fault of the file (ELF64, "ELF Header" to "Relocation").
    pub fn read(bytes: &'a [u8]) -> Result<ObjectView<'a>, ElfFault>
        requires { length bytes.now ≤ FILE_LIMIT }
        ensures fault { Refuses result (object_fault bytes.now) }
        ensures view { IfOk result (λ view. view ≡ bytes.now) }
    {
        let headers = Headers::read(bytes)?;
        let sections = Sections::read(headers)?;
        let symbols = Symbols::read(sections)?;
        check_relas(&symbols)?;
        Ok(ObjectView { symbols })
    }

    /// The number of sections, section 0 among them.
    pub fn section_count(&self) -> u32
        ensures count { result ≡ e_shnum self.now }
        ensures whole { object_fault self.now ≡ None }
    {
        self.symbols.sections.headers.count
    }

    /// Section `i` of the file. Of section 0 the name and the bytes are empty, and the numbers are those of its header.
    pub fn section(&self, i: u32) -> SectionView<'a>
        requires { i < e_shnum self.now }
        ensures name { result.name.now ≡ (section_of self.now i).name }
        ensures kind { result.kind ≡ (section_of self.now i).kind }
        ensures flags { result.flags ≡ (section_of self.now i).flags }
        ensures size { result.size ≡ (section_of self.now i).size }
        ensures link { result.link ≡ (section_of self.now i).link }
        ensures info { result.info ≡ (section_of self.now i).info }
        ensures align { result.align ≡ (section_of self.now i).align }
        ensures bytes { result.bytes.now ≡ (section_of self.now i).bytes }
        ensures length { IsTrue (has_bytes self.now i) → length result.bytes.now ≡ result.size }
    {
        self.symbols.sections.section(i)
    }

    /// The numbers in the header of section `i`, in constant time: what `section` says but for the name and the bytes.
    pub fn section_header(&self, i: u32) -> SectionHeader
        requires { i < e_shnum self.now }
        ensures kind { result.kind ≡ (section_of self.now i).kind }
        ensures flags { result.flags ≡ (section_of self.now i).flags }
        ensures size { result.size ≡ (section_of self.now i).size }
        ensures link { result.link ≡ (section_of self.now i).link }
        ensures info { result.info ≡ (section_of self.now i).info }
        ensures align { result.align ≡ (section_of self.now i).align }
    {
        self.symbols.sections.header(i)
    }

    /// Whether section `i` has this name. The name of section 0 is empty. It takes no longer for a longer name in the file.
    pub fn section_is_named(&self, i: u32, name: &[u8]) -> bool
        requires { i < e_shnum self.now }
        ensures { result ≡ bytes_eq (section_of self.now i).name name.now }
    {
        self.symbols.sections.is_named(i, name)
    }

    /// The number of symbols, symbol 0 among them; 0 where the file has no symbol table.
    pub fn symbol_count(&self) -> u32
        ensures { result ≡ symbol_count self.now }
    {
        self.symbols.count
    }

    /// Symbol `j` of the file.
    pub fn symbol(&self, j: u32) -> SymbolView<'a>
        requires { j < symbol_count self.now }
        ensures name { result.name.now ≡ (symbol_of self.now j).name }
        ensures info { result.info ≡ (symbol_of self.now j).info }
        ensures other { result.other ≡ (symbol_of self.now j).other }
        ensures shndx { result.shndx ≡ (symbol_of self.now j).shndx }
        ensures value { result.value ≡ (symbol_of self.now j).value }
        ensures size { result.size ≡ (symbol_of self.now j).size }
    {
        self.symbols.symbol(j)
    }

    /// The entry of symbol `j`, in constant time: what `symbol` says but for the name.
    pub fn symbol_entry(&self, j: u32) -> SymbolEntry
        requires { j < symbol_count self.now }
        ensures info { result.info ≡ (symbol_of self.now j).info }
        ensures other { result.other ≡ (symbol_of self.now j).other }
        ensures shndx { result.shndx ≡ (symbol_of self.now j).shndx }
        ensures value { result.value ≡ (symbol_of self.now j).value }
        ensures size { result.size ≡ (symbol_of self.now j).size }
    {
        self.symbols.entry(j)
    }

    /// Where the name of symbol `j` begins in the string table of symbols (st_name): names that begin at one place are one name.
    pub fn symbol_name_place(&self, j: u32) -> usize
        requires { j < symbol_count self.now }
        ensures { result ≡ st_name self.now j }
    {
        self.symbols.name_place(j)
    }

    /// Whether symbol `j` has this name. It takes no longer for a longer name in the file.
    pub fn symbol_is_named(&self, j: u32, name: &[u8]) -> bool
        requires { j < symbol_count self.now }
        ensures { result ≡ bytes_eq (symbol_of self.now j).name name.now }
    {
        self.symbols.is_named(j, name)
    }

    /// The number of records in section `i`: 0 where it holds no relocation records with addends, or those of a section that
    /// isn't kept.
    #[tactic(auto, using(crate::specs::laws::Whole::target_in_range))]
    pub fn record_count(&self, i: u32) -> u32
        requires { i < e_shnum self.now }
        ensures { result ≡ record_count self.now i }
    {
        let headers = self.symbols.sections.headers;
        if headers.kind(i) == SHT_RELA && headers.is_kept(headers.info(i)) {
            self.symbols.sections.entries(i).1
        } else {
            0
        }
    }

    /// Record `k` of section `i`.
    pub fn rela(&self, i: u32, k: u32) -> Rela
        requires section { i < e_shnum self.now }
        requires record { k < record_count self.now i }
        ensures offset { result.offset ≡ (rela_of self.now i k).offset }
        ensures kind { result.kind ≡ (rela_of self.now i k).kind }
        ensures symbol { result.symbol ≡ (rela_of self.now i k).symbol }
        ensures addend { result.addend ≡ (rela_of self.now i k).addend }
        ensures known { result.symbol < symbol_count self.now }
    {
        let (start, _) = self.symbols.sections.entries(i);
        record_at(self.symbols.sections.headers.bytes, start + 24 * k as usize)
    }
}
