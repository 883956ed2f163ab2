// Prologues by which functions with two entry points make their TOC base.
ghost use Rattle.std.specs.Prelude.{◌≡◌, ◌<◌, ◌≤◌, ◌+◌, ◌^◌, ◌++◌, true, IfOk, OnOk, length, filter};
ghost use Rattle.std.specs.List.{list_any};
ghost use Rattle.std.specs.Ordering.{int_eq};
ghost use Rattle.std.specs.List.Sorted.{IsPermutation, IsNonDecreasingBy};
ghost use Rattle.elf64_records.specs.FileHeader.{e_shnum};
ghost use Rattle.elf64_records.specs.Sections.{section_bytes};
ghost use Rattle.elf64_records.specs.Symbols.{symbol_count};
ghost use Rattle.object_set.specs.Files.{file_at};
ghost use Rattle.object_set.specs.Walks.{IsRecord};
ghost use Rattle.symbol_table.specs.Prologue.{facts_of, is_half, are_halves, has_form, has_some_form, has_two_entries, has_recognised_prologue};
ghost use Rattle.symbol_table.specs.Fields.{fields_meeting};
ghost use Rattle.symbol_table.specs.inside.Fields.{IsFieldOf};
ghost use Rattle.symbol_table.specs.inside.Places.{rank, is_place};
ghost use Rattle.symbol_table.specs.inside.Entries.{entry_at, has_prologue, AreEntries};

use crate::fields::{FileFields, RecordField, is_of_kind};
use crate::places::FilePlace;
use object_set::{ObjectSet, RecordId};
use ppc_bytes::word_at;
use reloc_fields::Kind;
use std::alloc::{AllocError, Global};
use std::marker::Model;

/// How the two words of a prologue make the TOC base in r2.
#[derive(Clone, Copy)]
pub enum PrologueForm {
    /// `addis r2,r12` and `addi r2,r2`: by its distance from the entry, which r12 holds.
    FromEntry,
    /// `lis r2` and `addi r2,r2`: by its address.
    Absolute,
}

/// What a form of the prologue is made of.
#[derive(Clone, Copy)]
pub struct FormFacts {
    /// The high half of the first word.
    pub high_half: u32,
    /// The relocation of the first word.
    pub high: Kind,
    /// That of the second word.
    pub low: Kind,
    /// The addend there.
    pub low_addend: i64,
}

/// The high half of the second word, `addi r2,r2`.
pub const LOW_HIGH_HALF: u32 = 0x3842;

impl PrologueForm {
    /// What it is made of.
    pub fn facts(self) -> FormFacts
        ensures { result ≡ facts_of self }
    {
        match self {
            PrologueForm::FromEntry => FormFacts {
                high_half: 0x3C4C,
                high: Kind::Rel16Ha,
                low: Kind::Rel16Lo,
                low_addend: 4,
            },
            PrologueForm::Absolute => FormFacts {
                high_half: 0x3C40,
                high: Kind::Addr16Ha,
                low: Kind::Addr16Lo,
                low_addend: 0,
            },
        }
    }
}

/// The places of the functions of a file of which the local entry point is two instructions past the global one. Contracts see
/// their list.
#[derive(Drop)]
struct EntryPlaces {
    /// In order.
    items: Vec<FilePlace>,
}

impl Model for EntryPlaces {
    ghost use Rattle.std.specs.Prelude.{List};
    ghost use Rattle.std.specs.List.Sorted.{IsNonDecreasingBy};
    ghost use Rattle.symbol_table.specs.declared.places.FilePlace.{FilePlace};
    ghost use Rattle.symbol_table.specs.inside.Places.{rank, is_place};

    ghost Value = { List FilePlace };

    ghost view = { λ e. e.items.items };

    ghost invariant = { λ e. IsNonDecreasingBy rank e.items.items };
}

/// Puts the place of a symbol behind others, where the symbol is such a function.
fn push_entry(
    items: &mut Vec<FilePlace>,
    set: &ObjectSet,
    file: u32,
    j: u32,
) -> Result<(), AllocError>
    requires file { file < length set.now }
    requires within { j < symbol_count (file_at set.now file) }
    ensures { OnOk result (items.new.items ≡ items.old.items ++ entry_at (file_at set.now file) j) }
{
    let symbol = set.view(file).symbol_entry(j);
    match set.section_of(file, j) {
        Some(section) if symbol.other >> 5 == 3 => {
            items.push(FilePlace {
                section,
                offset: symbol.value,
            })?;
        }
        _ => {}
    }
    Ok(())
}

/// Puts places in order.
fn sort_places(items: &mut Vec<FilePlace>)
    ensures same { IsPermutation items.old.items items.new.items }
    ensures sorted { IsNonDecreasingBy rank items.new.items }
{
    items.sort_unstable_by(|p, q| p.order(*q));
}

impl EntryPlaces {
    /// Those of a file.
    fn of_file(alloc: Global, set: &ObjectSet, file: u32) -> Result<Self, AllocError>
        requires { file < length set.now }
        ensures { IfOk result (AreEntries (file_at set.now file)) }
    {
        let mut items = Vec::new(alloc);
        for j in 0..set.view(file).symbol_count() {
            push_entry(&mut items, set, file, j)?;
        }
        sort_places(&mut items);
        Ok(EntryPlaces { items })
    }

    /// Whether one of them is at an offset of a section.
    fn contains(&self, section: u32, at: u64) -> bool
        ensures { result ≡ list_any (is_place section at) self.now }
    {
        let place = FilePlace {
            section,
            offset: at,
        };
        let next = self.items.partition_point(|p| p.is_before(place));
        match self.items.get(next) {
            Some(p) => p.is_at(section, at),
            None => false,
        }
    }
}

/// Whether two addends are the same.
fn is_same(addend: i64, other: i64) -> bool
    ensures { result ≡ int_eq addend other }
{
    addend == other
}

/// Whether a field begins at an offset, and its record is of a kind, against `.TOC.`, with an addend.
pub fn is_half(set: &ObjectSet, field: RecordField, kind: Kind, addend: i64, at: u64) -> bool
    requires { IsRecord set.now field.id }
    ensures { let b = file_at set.now field.id.file in
        result ≡ is_half b kind addend at field }
{
    let RecordId {
        file,
        table,
        entry,
        ..
    } = field.id;
    let rela = set.view(file).rela(table, entry);
    is_of_kind(rela.kind, kind)
        && set.is_toc_base(file, rela.symbol)
        && is_same(rela.addend, addend)
        && field.start == at
}

/// The recognised prologues of a file. Contracts see the file.
#[derive(Drop)]
pub struct Prologues<'a, 'b> {
    fields: FileFields<'a, 'b>,
    /// Their places. Each is tried once, since many calls may ask for it.
    places: EntryPlaces,
}

impl<'a, 'b> Model for Prologues<'a, 'b> {
    ghost use Rattle.object_set.specs.Files.{file_at};
    ghost use Rattle.symbol_table.specs.inside.Fields.{FileOf};
    ghost use Rattle.symbol_table.specs.inside.Entries.{AreRecognised};

    ghost Value = { FileOf };

    ghost view = { λ p. p.fields };

    ghost invariant = { λ p.
        AreRecognised p.fields.file (file_at p.fields.files p.fields.file) p.places };
}

impl<'a, 'b> FileFields<'a, 'b> {
    /// Whether a field of the file begins at an offset, and its record is of a kind, against `.TOC.`, with an addend.
    fn is_half(&self, kind: Kind, addend: i64, at: u64, field: RecordField) -> bool
        requires { IsFieldOf self.now.files self.now.file field }
        ensures { let b = file_at self.now.files self.now.file in
            result ≡ is_half b kind addend at field }
    {
        is_half(self.set(), field, kind, addend, at)
    }

    /// Whether just two fields have bytes of the two words at an offset of a section, those of a form's halves.
    fn has_halves(&self, form: FormFacts, section: u32, at: u64) -> bool
        requires { at + 8 < 2 ^ 64 }
        ensures { let b = file_at self.now.files self.now.file in
            result ≡ are_halves b form at (fields_meeting self.now.file b section at 8) }
    {
        match self.only_two(section, at, 8) {
            Some((f, g)) => {
                let high = self.is_half(form.high, 0, at, f) || self.is_half(form.high, 0, at, g);
                let low = self.is_half(form.low, form.low_addend, at + 4, f)
                    || self.is_half(form.low, form.low_addend, at + 4, g);
                high && low
            }
            None => false,
        }
    }

    /// Whether the two words at an offset of a section are a prologue of a form.
    fn has_form(&self, form: PrologueForm, section: u32, at: u64, bytes: &[u8]) -> bool
        requires bytes { let b = file_at self.now.files self.now.file in
            bytes.now ≡ section_bytes b section }
        requires within { at + 8 ≤ length bytes.now }
        ensures { let b = file_at self.now.files self.now.file in
            result ≡ has_form self.now.file b section at form }
    {
        let place = at as usize;
        word_at(bytes, place) >> 16 == form.facts().high_half
            && word_at(bytes, place + 4) >> 16 == LOW_HIGH_HALF
            && self.has_halves(form.facts(), section, at)
    }

    /// Whether they are a prologue of one of the forms.
    fn has_some_form(&self, section: u32, at: u64, bytes: &[u8]) -> bool
        requires bytes { let b = file_at self.now.files self.now.file in
            bytes.now ≡ section_bytes b section }
        requires within { at + 8 ≤ length bytes.now }
        ensures { let b = file_at self.now.files self.now.file in
            result ≡ has_some_form self.now.file b section at }
    {
        self.has_form(PrologueForm::FromEntry, section, at, bytes)
            || self.has_form(PrologueForm::Absolute, section, at, bytes)
    }

    /// Whether the place of a function with two entry points lies in a section of the file and has a recognised prologue.
    #[tactic(auto, unfolding(crate::specs::Prologue::has_recognised_prologue))]
    fn has_prologue(&self, place: FilePlace) -> bool
        requires { let b = file_at self.now.files self.now.file in
            has_two_entries b place.section place.offset ≡ true }
        ensures { let b = file_at self.now.files self.now.file in
            result ≡ has_prologue self.now.file b place }
    {
        let (set, file) = (self.set(), self.file());
        // no symbol of a set is refused, so that the words lie in the section
        let _files = set.file_count();
        let FilePlace { section, offset } = place;
        let view = set.view(file);
        if section >= view.section_count() || !set.sort_of(file, section).is_text() {
            return false;
        }
        self.has_some_form(section, offset, view.section(section).bytes)
    }

    /// Those of places of functions with two entry points that have a recognised prologue.
    fn prologues(&self, alloc: Global, entries: &[FilePlace]) -> Result<Vec<FilePlace>, AllocError>
        requires { AreEntries (file_at self.now.files self.now.file) entries.now }
        ensures { let b = file_at self.now.files self.now.file in IfOk result (λ places.
            places.items ≡ filter (has_prologue self.now.file b) entries.now) }
    {
        let mut places = Vec::new(alloc);
        for place in entries {
            if self.has_prologue(*place) {
                places.push(*place)?;
            }
        }
        Ok(places)
    }
}

impl<'a, 'b> Prologues<'a, 'b> {
    /// Those of a file of a set.
    pub fn of_file(alloc: Global, set: &'b ObjectSet<'a>, file: u32) -> Result<Self, AllocError>
        requires { file < length set.now }
        ensures { IfOk result (λ p. p ≡ record { files = set.now; file = file }) }
    {
        let fields = FileFields::of_file(alloc, set, file)?;
        let entries = EntryPlaces::of_file(alloc, set, file)?;
        let places = EntryPlaces {
            items: fields.prologues(alloc, &entries.items)?,
        };
        Ok(Prologues { fields, places })
    }

    /// The fields of the file's records.
    pub fn fields(&self) -> &FileFields<'a, 'b>
        ensures { result.now ≡ self.now }
    {
        &self.fields
    }

    /// Whether a place of a section has a recognised prologue.
    pub fn is_recognised(&self, section: u32, at: u64) -> bool
        requires section { section < e_shnum (file_at self.now.files self.now.file) }
        ensures { let b = file_at self.now.files self.now.file in
            result ≡ has_recognised_prologue self.now.file b section at }
    {
        self.places.contains(section, at)
    }
}
