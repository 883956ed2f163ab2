// GOT slots: which symbols have one in a TOC group, and their numbers.
ghost use Rattle.std.specs.Prelude.{◌≡◌, ◌<◌, ◌≤◌, ◌+◌, ◌++◌, ◌∷◌, [], ℕ, List, Some, None, true, false, IfOk, OnOk, OnErr, length, take, position};
ghost use Rattle.std.specs.List.{list_any, slice_index_or};
ghost use Rattle.elf64_records.specs.FileHeader.{e_shnum};
ghost use Rattle.elf64_records.specs.Records.{record_count};
ghost use Rattle.elf64_records.specs.Symbols.{symbol_count, symbol_of};
ghost use Rattle.object_set.specs.declared.places.SymbolId.{SymbolId};
ghost use Rattle.object_set.specs.Files.{file_at};
ghost use Rattle.object_set.specs.Symbols.{is_local, name_of};
ghost use Rattle.object_set.specs.Walks.{IsSymbol};
ghost use Rattle.toc_groups.specs.Slots.{is_got_load, symbol_id, shares_slot, with_slot, named_at, named_by, named_symbols};
ghost use Rattle.toc_groups.specs.inside.Numbered.{slot_list, is_symbol, IsNew, IsRow, Adds};

use object_set::{ObjectSet, SymbolId};
use reloc_fields::{Kind, kind_of};
use std::alloc::{AllocError, Global};
use std::collections::BTreeMap;
use std::marker::Model;

/// How many bytes a slot has: an address.
pub const SLOT_SIZE: u64 = 8;

/// Whether a relocation of this number loads from a slot.
fn is_got_load(number: u32) -> bool
    ensures { result ≡ is_got_load number }
{
    match kind_of(number) {
        Some(Kind::GotPcrel34) => true,
        Some(_) => false,
        None => false,
    }
}

/// The numbers of the slots of a file's symbols in its TOC group, as whose list contracts see them.
#[derive(Drop)]
pub struct SlotRow {
    items: Vec<Option<u64>>,
}

impl Model for SlotRow {
    ghost use Rattle.std.specs.Prelude.{ℕ, List, Option};

    ghost Value = { List (Option ℕ) };

    ghost view = { λ r. r.items.items };
}

impl SlotRow {
    /// How many symbols the file has.
    pub fn count(&self) -> u64
        ensures { result ≡ length self.now }
    {
        self.items.len() as u64
    }

    /// The number of a symbol's slot, if a load of the file names the symbol.
    pub fn of_symbol(&self, symbol: u32) -> Option<u64>
        requires { symbol < length self.now }
        ensures { result ≡ slice_index_or self.now symbol None }
    {
        self.items[symbol as usize]
    }
}

/// The slots of a TOC group, each told by the symbol that was named for it first, and the number of the slot for each name that other
/// files see. Contracts see the files and the list of the slots.
#[derive(Drop)]
pub struct GroupSlots<'a, 'b> {
    set: &'b ObjectSet<'a>,
    symbols: Vec<SymbolId>,
    names: BTreeMap<&'a [u8], u64>,
}

impl<'a, 'b> Model for GroupSlots<'a, 'b> {
    ghost use Rattle.toc_groups.specs.inside.Numbered.{SlotList, AreNamed};

    ghost Value = { SlotList };

    ghost view = { λ g. record { files = g.set.now; slots = g.symbols.items } };

    ghost invariant = { λ g. AreNamed g.set.now g.symbols.items g.names };
}

impl<'a, 'b> GroupSlots<'a, 'b> {
    /// No slots.
    pub fn none(alloc: Global, set: &'b ObjectSet<'a>) -> Self
        ensures { result ≡ slot_list set.now [] }
    {
        GroupSlots {
            set,
            symbols: Vec::new(alloc),
            names: BTreeMap::new(alloc),
        }
    }

    /// The files.
    pub fn set(&self) -> &'b ObjectSet<'a>
        ensures { result.now ≡ self.now.files }
    {
        self.set
    }

    /// How many slots there are.
    pub fn count(&self) -> u64
        ensures { result ≡ length self.now.slots }
    {
        self.symbols.len() as u64
    }

    /// The first so many slots.
    pub fn into_first(self, count: u64) -> Vec<SymbolId>
        requires { count ≤ length self.slots }
        ensures { result.items ≡ take count self.entry.slots }
    {
        let mut symbols = self.symbols;
        symbols.truncate(count as usize);
        symbols
    }

    /// A slot for a symbol that only its file sees.
    fn push(&mut self, symbol: SymbolId) -> Result<u64, AllocError>
        requires symbol { IsSymbol self.old.files symbol }
        requires local { is_local (file_at self.old.files symbol.file) symbol.symbol ≡ true }
        ensures slots { OnOk result (
            self.new ≡ slot_list self.old.files (self.old.slots ++ symbol ∷ [])) }
        ensures number { IfOk result (λ n. n ≡ length self.old.slots) }
    {
        let number = self.symbols.len() as u64;
        self.symbols.push(symbol)?;
        Ok(number)
    }

    /// A slot for a symbol whose name has none.
    fn push_named(&mut self, symbol: SymbolId, name: &'a [u8]) -> Result<u64, AllocError>
        requires symbol { IsSymbol self.old.files symbol }
        requires seen { is_local (file_at self.old.files symbol.file) symbol.symbol ≡ false }
        requires name { name.now ≡ name_of (file_at self.old.files symbol.file) symbol.symbol }
        requires new { list_any (shares_slot self.old.files symbol) self.old.slots ≡ false }
        ensures slots { OnOk result (
            self.new ≡ slot_list self.old.files (self.old.slots ++ symbol ∷ [])) }
        ensures number { IfOk result (λ n. n ≡ length self.old.slots) }
    {
        let number = self.symbols.len() as u64;
        self.symbols.push(symbol)?;
        match self.names.insert(name, number) {
            Ok(_) => Ok(number),
            Err(_) => {
                self.symbols.pop();
                Err(AllocError)
            }
        }
    }

    /// The number of a symbol's slot, which is a new one where the symbol shares none of those that are there. A symbol that only its
    /// file sees shares none.
    fn number(&mut self, symbol: SymbolId) -> Result<u64, AllocError>
        requires symbol { IsSymbol self.old.files symbol }
        requires own { IsNew self.old symbol }
        ensures slots { OnOk result (
            self.new ≡ slot_list self.old.files (with_slot self.old.files self.old.slots symbol)) }
        ensures number { IfOk result (λ n.
            position (shares_slot self.old.files symbol) self.new.slots ≡ Some n) }
    {
        let set = self.set;
        if set.is_local(symbol.file, symbol.symbol) {
            return self.push(symbol);
        }
        let name = set.view(symbol.file).symbol(symbol.symbol).name;
        match self.names.get(name).copied() {
            Some(number) => Ok(number),
            None => self.push_named(symbol, name),
        }
    }

    /// Takes in a symbol of a file that a load names.
    fn add_symbol(
        &mut self,
        row: &mut Vec<Option<u64>>,
        file: u32,
        symbol: u32,
    ) -> Result<(), AllocError>
        requires symbol { IsSymbol self.old.files (symbol_id file symbol) }
        requires row { IsRow self.old file row.old.items }
        ensures { OnOk result (Adds
            (symbol_id file symbol ∷ []) file self.old self.new row.old.items row.new.items) }
    {
        if row[symbol as usize].is_none() {
            let number = self.number(SymbolId { file, symbol })?;
            row[symbol as usize] = Some(number);
        }
        Ok(())
    }

    /// Takes in the symbol that a record names, if it is such a load.
    fn add_record(
        &mut self,
        row: &mut Vec<Option<u64>>,
        file: u32,
        table: u32,
        entry: u32,
    ) -> Result<(), AllocError>
        requires file { file < length self.old.files }
        requires table { table < e_shnum (file_at self.old.files file) }
        requires entry { entry < record_count (file_at self.old.files file) table }
        requires row { IsRow self.old file row.old.items }
        ensures { let named = named_at file (file_at self.old.files file) table entry in
            OnOk result (Adds named file self.old self.new row.old.items row.new.items) }
    {
        let record = self.set.view(file).rela(table, entry);
        if is_got_load(record.kind) {
            self.add_symbol(row, file, record.symbol)?;
        }
        Ok(())
    }

    /// Takes in the symbols that the records of a section name for loads.
    fn add_table(
        &mut self,
        row: &mut Vec<Option<u64>>,
        file: u32,
        table: u32,
    ) -> Result<(), AllocError>
        requires file { file < length self.old.files }
        requires table { table < e_shnum (file_at self.old.files file) }
        requires row { IsRow self.old file row.old.items }
        ensures { let b = file_at self.old.files file in
            let named = named_by file b table (record_count b table) in
            OnOk result (Adds named file self.old self.new row.old.items row.new.items) }
    {
        for entry in 0..self.set.view(file).record_count(table) {
            self.add_record(row, file, table, entry)?;
        }
        Ok(())
    }

    /// Takes in a file, all of whose symbols are new, and gives the numbers of their slots.
    pub fn add_file(&mut self, alloc: Global, file: u32) -> Result<SlotRow, AllocError>
        requires file { file < length self.old.files }
        requires new { (j : ℕ) → list_any (is_symbol file j) self.old.slots ≡ false }
        ensures { let named = named_symbols self.old.files file in
            IfOk result (Adds named file self.old self.new []) }
    {
        let count = self.set.view(file).symbol_count();
        let mut items = vec![in alloc; None; count as usize]?;
        for table in 0..self.set.view(file).section_count() {
            self.add_table(&mut items, file, table)?;
        }
        Ok(SlotRow { items })
    }
}
