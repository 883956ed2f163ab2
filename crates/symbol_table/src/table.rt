// What the symbols of a set of files say of each name.
ghost use Rattle.std.specs.Prelude.{false, ◌<◌, ◌≡◌, ℕ, List, ◌∷◌, [], ◌++◌, Some, None, IfOk, OnOk, length, slice_get, slice_index};
ghost use Rattle.elf64_records.specs.Symbols.{symbol_count, symbol_of};
ghost use Rattle.object_set.specs.Files.{file_at};
ghost use Rattle.object_set.specs.Refusals.{set_refusal, Answers};
ghost use Rattle.object_set.specs.Symbols.{is_local};
ghost use Rattle.symbol_table.specs.Externals.{External, external_symbol, external_at, external_walk, external_symbols, names_of};
ghost use Rattle.object_set.specs.Walks.{items_in};
ghost use Rattle.symbol_table.specs.Candidates.{NamesSeen, names_seen, candidates_of, duplicate_at, first_duplicate};
ghost use Rattle.symbol_table.specs.inside.Names.{IsPaired, SeesMore, HasNumber, KeepsNumbers, AreFileNumbers, AreAllNameNumbers};
ghost use Rattle.symbol_table.specs.inside.Names.{IsNumbered, AreNamePlaces, NotesPlace, external_of};

use crate::candidates::Candidates;
use crate::names::{NameIndex, owned};
use crate::role::{ExternalSymbol, role_of};
use object_set::{ObjectSet, Refusal};
use std::alloc::{AllocError, Global};
use std::collections::BTreeMap;
use std::marker::Model;

/// Names in the order in which they are first seen, and what is said of each.
#[derive(Drop)]
pub struct NameTable<'a> {
    names: NameIndex<'a>,
    candidates: Vec<Candidates>,
}

impl<'a> Model for NameTable<'a> {
    ghost use Rattle.symbol_table.specs.Candidates.{NamesSeen};

    ghost Value = { NamesSeen };

    ghost view = { λ t. record { names = t.names; candidates = t.candidates.items } };
}

impl<'a> NameTable<'a> {
    /// No names, and room for about so many.
    pub fn with_room(alloc: Global, names: usize) -> Result<Self, AllocError>
        ensures { IfOk result (λ table. table ≡ names_seen []) }
    {
        Ok(NameTable {
            names: NameIndex::with_room(alloc, names)?,
            candidates: Vec::new(alloc),
        })
    }

    /// What is said of a name.
    pub fn candidates(&self, name: &[u8]) -> Candidates
        requires { IsPaired self.now }
        ensures { (symbols : List External) →
            self.now ≡ names_seen symbols → result ≡ candidates_of symbols name.now }
    {
        match self.names.number_of(name) {
            Some(number) => self.candidates[number],
            None => Candidates::none(),
        }
    }

    /// What is said of each name.
    pub fn into_candidates(self) -> Vec<Candidates>
        ensures { result.items ≡ self.entry.candidates }
    {
        let NameTable {
            names: _,
            candidates,
        } = self;
        candidates
    }

    /// Refuses name `i` where it has two GLOBAL definitions.
    #[tactic(auto, using(crate::proofs::Numbers::read_at), unfolding(crate::specs::Candidates::duplicate_at))]
    fn check_name(&self, alloc: Global, i: usize) -> Result<(), Refusal>
        requires paired { IsPaired self.now }
        requires within { i < length self.now.names }
        ensures { Answers result (duplicate_at self.now i) }
    {
        let candidates = self.candidates[i];
        match (candidates.global, candidates.second) {
            (Some(first), Some(second)) => {
                let name = owned(alloc, self.names.get(i))?;
                Err(Refusal::Duplicate(name, first.file, second))
            }
            _ => Ok(()),
        }
    }

    /// Refuses the first name that has two GLOBAL definitions.
    #[tactic(auto, using(elf64_records::specs::laws::First::walk_step))]
    pub fn check_names(&self, alloc: Global) -> Result<(), Refusal>
        requires { IsPaired self.now }
        ensures { Answers result (first_duplicate self.now) }
    {
        for i in 0..self.candidates.len() {
            self.check_name(alloc, i)?;
        }
        Ok(())
    }

    /// The number of a name, of which nothing is said where it is new.
    fn add_name(&mut self, name: &'a [u8]) -> Result<usize, AllocError>
        requires { IsPaired self.old }
        ensures named { IfOk result (IsNumbered self.old self.new name.now) }
        ensures paired { OnOk result (IsPaired self.new) }
    {
        let number = self.names.add(name)?;
        if number == self.candidates.len() {
            self.candidates.push(Candidates::none())?;
        }
        Ok(number)
    }

    /// Takes in what a symbol says of the name with this number.
    fn add_symbol(&mut self, number: usize, symbol: ExternalSymbol)
        requires paired { IsPaired self.old }
        requires within { number < length self.old.names }
        ensures seen { (old : NamesSeen) (name : List ℕ) →
            IsNumbered old self.old name number →
            SeesMore old self.new (external_of name symbol ∷ []) }
        ensures names { self.new.names ≡ self.old.names }
        ensures paired { IsPaired self.new }
    {
        let candidates = self.candidates[number].with(symbol);
        self.candidates[number] = candidates;
    }
}

/// The numbers of the names of a file's symbols, which contracts see as their list.
#[derive(Drop)]
pub struct NameNumbers {
    items: Vec<usize>,
}

impl Model for NameNumbers {
    ghost use Rattle.std.specs.Prelude.{ℕ, List};

    ghost Value = { List ℕ };

    ghost view = { λ n. n.items.items };
}

impl NameNumbers {
    /// The number of the name of a symbol.
    pub fn of_symbol(&self, j: u32) -> usize
        requires { j < length self.now }
        ensures { result ≡ slice_index self.now j }
    {
        self.items[j as usize]
    }
}

/// Symbol `j` of a file, which other files see, but for its name.
fn external_symbol(set: &ObjectSet, file: u32, j: u32) -> ExternalSymbol
    requires file { file < length set.now }
    requires within { j < symbol_count (file_at set.now file) }
    requires external { is_local (file_at set.now file) j ≡ false }
    ensures { let b = file_at set.now file in
        external_of (symbol_of b j).name result ≡ external_symbol file b j }
{
    let symbol = set.view(file).symbol_entry(j);
    ExternalSymbol {
        role: role_of(set, file, j),
        file,
        number: j,
        size: symbol.size,
        value: symbol.value,
    }
}

/// How long a name is that is worth remembering by its place: a shorter one is as soon read again.
const LONG_NAME: usize = 64;

/// Remembers the number of the name that begins at a place, where the name is long.
fn note_place(
    places: &mut BTreeMap<usize, usize>,
    place: usize,
    number: usize,
    length: usize,
) -> Result<(), AllocError>
    ensures { OnOk result (NotesPlace places.old places.new place number) }
{
    if length >= LONG_NAME {
        places.insert(place, number)?;
    }
    Ok(())
}

/// The number of the name of symbol `j` of a file. Names that begin at one place are read once.
fn read_name<'a>(
    table: &mut NameTable<'a>,
    places: &mut BTreeMap<usize, usize>,
    set: &ObjectSet<'a>,
    file: u32,
    j: u32,
) -> Result<usize, AllocError>
    requires paired { IsPaired table.old }
    requires file { file < length set.now }
    requires within { j < symbol_count (file_at set.now file) }
    requires places { AreNamePlaces table.old.names (file_at set.now file) places.old }
    ensures named { IfOk result (
        IsNumbered table.old table.new (symbol_of (file_at set.now file) j).name) }
    ensures paired { OnOk result (IsPaired table.new) }
    ensures places { OnOk result (
        AreNamePlaces table.new.names (file_at set.now file) places.new) }
{
    let view = set.view(file);
    let place = view.symbol_name_place(j);
    if let Some(number) = places.get(&place) {
        return Ok(*number);
    }
    let name = view.symbol(j).name;
    let number = table.add_name(name)?;
    note_place(places, place, number, name.len())?;
    Ok(number)
}

/// Takes in symbol `j` of a file, where other files see it, and gives the number of its name.
fn read_symbol<'a>(
    table: &mut NameTable<'a>,
    places: &mut BTreeMap<usize, usize>,
    set: &ObjectSet<'a>,
    file: u32,
    j: u32,
) -> Result<usize, AllocError>
    requires paired { IsPaired table.old }
    requires file { file < length set.now }
    requires within { j < symbol_count (file_at set.now file) }
    requires places { AreNamePlaces table.old.names (file_at set.now file) places.old }
    ensures seen { OnOk result (
        SeesMore table.old table.new (external_at file (file_at set.now file) j)) }
    ensures keeps { OnOk result (KeepsNumbers table.old.names table.new.names) }
    ensures number { IfOk result (HasNumber table.new.names (file_at set.now file) j) }
    ensures paired { OnOk result (IsPaired table.new) }
    ensures places { OnOk result (
        AreNamePlaces table.new.names (file_at set.now file) places.new) }
{
    if set.is_local(file, j) {
        return Ok(0);
    }
    let number = read_name(table, places, set, file, j)?;
    table.add_symbol(number, external_symbol(set, file, j));
    Ok(number)
}

/// Takes in the symbols of a file, and gives the numbers of their names.
fn read_file<'a>(
    alloc: Global,
    table: &mut NameTable<'a>,
    set: &ObjectSet<'a>,
    file: u32,
) -> Result<NameNumbers, AllocError>
    requires paired { IsPaired table.old }
    requires file { file < length set.now }
    ensures seen { let b = file_at set.now file in OnOk result (
        SeesMore table.old table.new (items_in external_walk file b (symbol_count b))) }
    ensures keeps { OnOk result (KeepsNumbers table.old.names table.new.names) }
    ensures numbers { IfOk result (AreFileNumbers table.new.names set.now file) }
    ensures paired { OnOk result (IsPaired table.new) }
{
    let mut items = Vec::new(alloc);
    let mut places = BTreeMap::new(alloc);
    for j in 0..set.view(file).symbol_count() {
        let number = read_symbol(table, &mut places, set, file, j)?;
        items.push(number)?;
    }
    Ok(NameNumbers { items })
}

/// How many symbols the files have: not fewer than names.
fn symbol_total(set: &ObjectSet) -> usize {
    let mut total = 0usize;
    for file in 0..set.file_count() {
        total = total.saturating_add(set.view(file).symbol_count() as usize);
    }
    total
}

/// What the symbols of all files say of their names, and for each file the numbers of these.
pub fn name_table<'a>(
    alloc: Global,
    set: &ObjectSet<'a>,
) -> Result<(NameTable<'a>, Vec<NameNumbers>), AllocError>
    ensures seen { IfOk result (λ (table, _). table ≡ names_seen (external_symbols set.now)) }
    ensures numbers { IfOk result (λ (_, numbers). AreAllNameNumbers
        (names_of (external_symbols set.now)) set.now (length set.now) numbers.items) }
    ensures whole { OnOk result (set_refusal set.now ≡ None) }
{
    let mut table = NameTable::with_room(alloc, symbol_total(set))?;
    let mut numbers = Vec::new(alloc);
    for file in 0..set.file_count() {
        let row = read_file(alloc, &mut table, set, file)?;
        numbers.push(row)?;
    }
    Ok((table, numbers))
}
