// The symbol table.
ghost use Rattle.std.specs.Prelude.{◌≡◌, ◌≢◌, ◌<◌, ◌≤◌, ◌+◌, ◌*◌, ◌/◌, ◌%◌, ◌==◌, nat_lt, if◌then◌else◌, IfOk, IfSome, IsTrue, Some, None, length};
ghost use Rattle.std.specs.Str.{bytes_eq};
ghost use Rattle.elf64_records.specs.First.{Refuses, first_from};
ghost use Rattle.elf64_records.specs.Sections.{is_symbol_table, sh_offset, sh_link};
ghost use Rattle.elf64_records.specs.Names.{IsZeroEnd};
ghost use Rattle.elf64_records.specs.Symbols.{symbol_table_at, symbol_table, symbol_count, symbol_place, symbol_names, symbol_of, st_name};
ghost use Rattle.elf64_records.specs.Faults.{first_section, second_fault, symbol_table_fault, symbol_fault, symbols_fault};

use crate::fault::{ElfFault, Place};
use crate::headers::Headers;
use crate::names::{is_named, name_from, zero_end};
use crate::sections::Sections;
use ppc_bytes::constants::{
    SHN_ABS, SHN_COMMON, SHN_LORESERVE, SHN_UNDEF, SHT_STRTAB, SHT_SYMTAB, STB_GLOBAL, STB_LOCAL,
    STB_WEAK,
};
use ppc_bytes::{half_at, long_at, word_at};

/// What a file says of one symbol.
#[derive(Clone, Copy, Debug)]
pub struct SymbolView<'a> {
    /// The name, without the zero byte that ends it.
    pub name: &'a [u8],
    /// The binding in the high four bits and the type in the low four (st_info).
    pub info: u8,
    /// The other information: for a function, what its entry points are (st_other).
    pub other: u8,
    /// The section in which the symbol lies, or a special index (st_shndx).
    pub shndx: u16,
    /// The value: in a section the offset, of a common symbol the alignment (st_value).
    pub value: u64,
    /// The size in bytes (st_size).
    pub size: u64,
}

/// A symbol's entry in the symbol table, but for the name.
#[derive(Clone, Copy, Debug, PartialEq, Eq)]
pub struct SymbolEntry {
    /// The binding in the high four bits and the type in the low four (st_info).
    pub info: u8,
    /// The other information: for a function, what its entry points are (st_other).
    pub other: u8,
    /// The section in which the symbol lies, or a special index (st_shndx).
    pub shndx: u16,
    /// The value: in a section the offset, of a common symbol the alignment (st_value).
    pub value: u64,
    /// The size in bytes (st_size).
    pub size: u64,
}

impl SymbolEntry {
    /// The binding: the high four bits of st_info.
    pub fn binding(self) -> u8
        ensures { result ≡ self.info / 16 }
    {
        self.info >> 4
    }

    /// The type: the low four bits of st_info.
    pub fn kind(self) -> u8
        ensures { result ≡ self.info % 16 }
    {
        self.info & 0xF
    }

    /// Whether only the symbol's own file sees it.
    pub fn is_local(self) -> bool
        ensures { result ≡ (self.info / 16 == STB_LOCAL) }
    {
        self.binding() == STB_LOCAL
    }

    /// Whether all files see the symbol, and one of them may define it.
    pub fn is_global(self) -> bool
        ensures { result ≡ (self.info / 16 == STB_GLOBAL) }
    {
        self.binding() == STB_GLOBAL
    }

    /// Whether all files see the symbol, and each may define it.
    pub fn is_weak(self) -> bool
        ensures { result ≡ (self.info / 16 == STB_WEAK) }
    {
        self.binding() == STB_WEAK
    }

    /// Whether the file doesn't say what the symbol stands for.
    pub fn is_undefined(self) -> bool
        ensures { result ≡ (self.shndx == SHN_UNDEF) }
    {
        self.shndx == SHN_UNDEF
    }

    /// Whether the symbol is a number.
    pub fn is_absolute(self) -> bool
        ensures { result ≡ (self.shndx == SHN_ABS) }
    {
        self.shndx == SHN_ABS
    }

    /// Whether the symbol asks for room that it shares with the commons of its name.
    pub fn is_common(self) -> bool
        ensures { result ≡ (self.shndx == SHN_COMMON) }
    {
        self.shndx == SHN_COMMON
    }

    /// The section in which the symbol lies, where its index is a section's number.
    pub fn section(self) -> Option<u32>
        ensures { result ≡ (if nat_lt self.shndx SHN_LORESERVE then Some self.shndx else None) }
    {
        if self.shndx < SHN_LORESERVE {
            Some(u32::from(self.shndx))
        } else {
            None
        }
    }
}

/// The symbols of a file, of which the names end. Where `table` is 0 the file has no symbol table.
#[derive(Clone, Copy)]
pub struct Symbols<'a> {
    pub sections: Sections<'a>,
    pub table: u32,
    pub start: usize,
    pub count: u32,
    pub names: &'a [u8],
    ghost whole: { symbols_fault sections.headers.bytes.now ≡ None },
    ghost table_is: { table ≡ symbol_table sections.headers.bytes.now },
    ghost count_is: { count ≡ symbol_count sections.headers.bytes.now },
    ghost start_is: { 0 < count → start ≡ sh_offset sections.headers.bytes.now table },
    ghost names_is: { 0 < count → names.now ≡ symbol_names sections.headers.bytes.now },
    ghost within: { start + 24 * count ≤ length sections.headers.bytes.now },
}

impl<'a> Symbols<'a> {
    /// The symbols, or the first fault of their table, or else of their names.
    pub fn read(sections: Sections<'a>) -> Result<Symbols<'a>, ElfFault>
        ensures fault { Refuses result (symbols_fault sections.entry.headers.bytes.now) }
        ensures bytes { let b = sections.entry.headers.bytes.now in
            IfOk result (λ s. s.sections.headers.bytes.now ≡ b) }
    {
        let headers = sections.headers;
        let table = symbol_table(&headers);
        check_second(&headers, table)?;
        check_table(&headers, table)?;
        if table == 0 {
            return Ok(Symbols {
                sections,
                table,
                start: 0,
                count: 0,
                names: &[],
            });
        }
        let (start, count) = sections.entries(table);
        let names = sections.bytes(headers.link(table));
        check_names(headers.bytes, start, count, names)?;
        Ok(Symbols {
            sections,
            table,
            start,
            count,
            names,
        })
    }

    /// Symbol `j` of the file.
    pub fn symbol(&self, j: u32) -> SymbolView<'a>
        requires { j < self.now.count }
        ensures name { result.name.now ≡ (symbol_of self.now.sections.headers.bytes.now j).name }
        ensures info { result.info ≡ (symbol_of self.now.sections.headers.bytes.now j).info }
        ensures other { result.other ≡ (symbol_of self.now.sections.headers.bytes.now j).other }
        ensures shndx { result.shndx ≡ (symbol_of self.now.sections.headers.bytes.now j).shndx }
        ensures value { result.value ≡ (symbol_of self.now.sections.headers.bytes.now j).value }
        ensures size { result.size ≡ (symbol_of self.now.sections.headers.bytes.now j).size }
    {
        let entry = self.entry(j);
        SymbolView {
            name: self.name(j),
            info: entry.info,
            other: entry.other,
            shndx: entry.shndx,
            value: entry.value,
            size: entry.size,
        }
    }

    /// The entry of symbol `j` of the file.
    pub fn entry(&self, j: u32) -> SymbolEntry
        requires { j < self.now.count }
        ensures info { result.info ≡ (symbol_of self.now.sections.headers.bytes.now j).info }
        ensures other { result.other ≡ (symbol_of self.now.sections.headers.bytes.now j).other }
        ensures shndx { result.shndx ≡ (symbol_of self.now.sections.headers.bytes.now j).shndx }
        ensures value { result.value ≡ (symbol_of self.now.sections.headers.bytes.now j).value }
        ensures size { result.size ≡ (symbol_of self.now.sections.headers.bytes.now j).size }
    {
        let bytes = self.sections.headers.bytes;
        let place = self.start + 24 * j as usize;
        SymbolEntry {
            info: bytes[place + 4],
            other: bytes[place + 5],
            shndx: half_at(bytes, place + 6),
            value: long_at(bytes, place + 8),
            size: long_at(bytes, place + 16),
        }
    }

    /// Whether a symbol has this name.
    #[tactic(auto, using(crate::specs::laws::Whole::symbol_name_in_table))]
    pub fn is_named(&self, j: u32, name: &[u8]) -> bool
        requires { j < self.now.count }
        ensures { let b = self.now.sections.headers.bytes.now in
            result ≡ bytes_eq (symbol_of b j).name name.now }
    {
        is_named(self.names, self.name_place(j), name)
    }

    /// The name of a symbol.
    #[tactic(auto, using(crate::specs::laws::Whole::symbol_name_in_table))]
    fn name(&self, j: u32) -> &'a [u8]
        requires { j < self.now.count }
        ensures { result.now ≡ (symbol_of self.now.sections.headers.bytes.now j).name }
    {
        name_from(self.names, self.name_place(j))
    }

    /// The place of a symbol's name in the table of the symbols' names.
    #[tactic(auto, unfolding(crate::specs::Symbols::st_name))]
    pub fn name_place(&self, j: u32) -> usize
        requires { j < self.now.count }
        ensures { result ≡ st_name self.now.sections.headers.bytes.now j }
    {
        word_at(self.sections.headers.bytes, self.start + 24 * j as usize) as usize
    }
}

/// A section's number, where it is a symbol table.
#[tactic(auto, unfolding(crate::specs::Symbols::symbol_table_at))]
fn symbol_table_at(headers: &Headers, i: u32) -> Option<u32>
    requires { i < headers.now.count }
    ensures number { result ≡ symbol_table_at headers.now.bytes.now i }
    ensures within { IfSome result (λ n. n < headers.now.count) }
    ensures kind { IfSome result (λ n. IsTrue (is_symbol_table headers.now.bytes.now n)) }
{
    if headers.kind(i) == SHT_SYMTAB {
        Some(i)
    } else {
        None
    }
}

/// The number of the first symbol table, or 0 where there is none.
#[tactic(auto, using(crate::specs::laws::First::walk_step, crate::specs::laws::First::walk_end))]
fn symbol_table(headers: &Headers) -> u32
    ensures number { result ≡ symbol_table headers.now.bytes.now }
    ensures within { result < headers.now.count }
    ensures kind { result ≢ 0 → IsTrue (is_symbol_table headers.now.bytes.now result) }
{
    for i in 1..headers.count {
        if let Some(table) = symbol_table_at(headers, i) {
            return table;
        }
    }
    0
}

#[tactic(auto, unfolding(crate::specs::Faults::second_fault))]
fn check_no_other(headers: &Headers, table: u32, i: u32) -> Result<(), ElfFault>
    requires table { table ≡ symbol_table headers.now.bytes.now }
    requires number { i < headers.now.count }
    ensures { Refuses result (second_fault headers.now.bytes.now i) }
{
    if headers.kind(i) == SHT_SYMTAB && i != table {
        return Err(ElfFault::BadTable(Place::Section(i)));
    }
    Ok(())
}

#[tactic(auto, using(crate::specs::laws::First::walk_step, crate::specs::laws::First::walk_end))]
fn check_second(headers: &Headers, table: u32) -> Result<(), ElfFault>
    requires { table ≡ symbol_table headers.now.bytes.now }
    ensures { let b = headers.now.bytes.now in Refuses result (first_section b (second_fault b)) }
{
    for i in 1..headers.count {
        check_no_other(headers, table, i)?;
    }
    Ok(())
}

fn check_table(headers: &Headers, table: u32) -> Result<(), ElfFault>
    requires number { table ≡ symbol_table headers.now.bytes.now }
    requires within { table < headers.now.count }
    ensures fault { Refuses result (symbol_table_fault headers.now.bytes.now) }
    ensures link { IfOk result (λ _. table ≢ 0 →
        sh_link headers.now.bytes.now table < headers.now.count) }
{
    if table == 0 {
        return Ok(());
    }
    let link = headers.link(table);
    if !headers.has_entries(table) || link >= headers.count || headers.kind(link) != SHT_STRTAB {
        return Err(ElfFault::BadTable(Place::Section(table)));
    }
    Ok(())
}

#[tactic(auto, unfolding(crate::specs::Faults::symbol_fault, crate::specs::Symbols::st_name))]
fn check_name(bytes: &[u8], place: usize, end: usize, j: u32) -> Result<(), ElfFault>
    requires place { place ≡ symbol_place bytes.now j }
    requires within { place + 24 ≤ length bytes.now }
    requires end { IsZeroEnd (symbol_names bytes.now) end }
    ensures { Refuses result (symbol_fault bytes.now j) }
{
    if (word_at(bytes, place) as usize) < end {
        Ok(())
    } else {
        Err(ElfFault::BadTable(Place::Symbol(j)))
    }
}

#[tactic(auto, using(crate::specs::laws::First::walk_step, crate::specs::laws::First::walk_end))]
fn check_names(bytes: &[u8], start: usize, count: u32, names: &[u8]) -> Result<(), ElfFault>
    requires start { start ≡ sh_offset bytes.now (symbol_table bytes.now) }
    requires count { count ≡ symbol_count bytes.now }
    requires within { start + 24 * count ≤ length bytes.now }
    requires names { names.now ≡ symbol_names bytes.now }
    ensures { Refuses result (first_from (symbol_fault bytes.now) 0 (symbol_count bytes.now)) }
{
    let end = zero_end(names);
    for j in 0..count {
        check_name(bytes, start + 24 * j as usize, end, j)?;
    }
    Ok(())
}
