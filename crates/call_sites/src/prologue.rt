// Whether one place has a recognised prologue. It is asked without any table, by looking through the symbols and the records of the file.
ghost use Rattle.std.specs.Prelude.{◌≡◌, ◌<◌, ◌≤◌, ◌+◌, ◌^◌, length, map};
ghost use Rattle.elf64_records.specs.FileHeader.{e_shnum};
ghost use Rattle.elf64_records.specs.Records.{record_count};
ghost use Rattle.elf64_records.specs.Sections.{section_bytes};
ghost use Rattle.elf64_records.specs.Symbols.{symbol_count};
ghost use Rattle.object_set.specs.Files.{file_at};
ghost use Rattle.object_set.specs.Walks.{IsRecord, records_in};
ghost use Rattle.symbol_table.specs.Fields.{field_of, fields_of};
ghost use Rattle.symbol_table.specs.Prologue.{stands_at, has_some_form, has_two_entries};
ghost use Rattle.symbol_table.specs.Text.{text_sections};
ghost use Rattle.call_sites.specs.Sites.{is_recognised};
ghost use Rattle.call_sites.specs.inside.Halves.{seen_of, with_field, is_form, SeesMore};

use crate::callees::text_section;
use object_set::{ObjectSet, RecordId, SectionId};
use ppc_bytes::word_at;
use symbol_table::{FormFacts, LOW_HIGH_HALF, PrologueForm, RecordField, Resolved, is_half};

/// Two words at an offset of a section, and a form that they may have.
#[derive(Clone, Copy)]
pub struct Halves {
    pub section: u32,
    pub at: u64,
    pub form: FormFacts,
}

/// What was seen of the fields that have bytes of two words: how many there are, counted up to three, and whether those of the form's
/// halves are among them.
#[derive(Clone, Copy)]
pub struct Seen {
    pub count: u32,
    pub high: bool,
    pub low: bool,
}

/// Whether a symbol stands at an offset of a section, with its local entry point two instructions past the global one.
fn stands_at(set: &ObjectSet, file: u32, j: u32, section: u32, at: u64) -> bool
    requires file { file < length set.now }
    requires within { j < symbol_count (file_at set.now file) }
    ensures { result ≡ stands_at (file_at set.now file) section at j }
{
    let symbol = set.view(file).symbol_entry(j);
    match set.section_of(file, j) {
        Some(own) => own == section && symbol.value == at && symbol.other >> 5 == 3,
        None => false,
    }
}

/// Whether one of a file's symbols does.
fn has_two_entries(set: &ObjectSet, file: u32, section: u32, at: u64) -> bool
    requires { file < length set.now }
    ensures { result ≡ has_two_entries (file_at set.now file) section at }
{
    for j in 0..set.view(file).symbol_count() {
        if stands_at(set, file, j, section, at) {
            return true;
        }
    }
    false
}

/// What is seen with the field of one record more.
fn with_record(seen: Seen, set: &ObjectSet, halves: Halves, id: RecordId) -> Seen
    requires record { IsRecord set.now id }
    requires room { halves.at + 8 < 2 ^ 64 }
    ensures { let b = file_at set.now id.file in
        result ≡ with_field b halves seen (field_of b id) }
{
    let Halves { section, at, form } = halves;
    let field = RecordField::of_record(set, id);
    if !field.meets(section, at, 8) {
        return seen;
    }
    Seen {
        count: if seen.count < 3 { seen.count + 1 } else { 3 },
        high: seen.high || is_half(set, field, form.high, 0, at),
        low: seen.low || is_half(set, field, form.low, form.low_addend, at + 4),
    }
}

/// What is seen with the records that one section more holds.
fn with_table(seen: Seen, set: &ObjectSet, halves: Halves, file: u32, table: u32) -> Seen
    requires file { file < length set.now }
    requires table { table < e_shnum (file_at set.now file) }
    requires room { halves.at + 8 < 2 ^ 64 }
    ensures { let b = file_at set.now file in
        let more = map (field_of b) (records_in file b table (record_count b table)) in
        SeesMore b halves seen result more }
{
    let view = set.view(file);
    let section = view.section_header(table).info;
    let mut all = seen;
    for entry in 0..view.record_count(table) {
        let id = RecordId {
            file,
            table,
            entry,
            section,
        };
        all = with_record(all, set, halves, id);
    }
    all
}

/// What is seen of all records of a file.
fn seen_of(set: &ObjectSet, halves: Halves, file: u32) -> Seen
    requires file { file < length set.now }
    requires room { halves.at + 8 < 2 ^ 64 }
    ensures { let b = file_at set.now file in
        result ≡ seen_of b halves (fields_of file b) }
{
    let mut seen = Seen {
        count: 0,
        high: false,
        low: false,
    };
    for table in 0..set.view(file).section_count() {
        seen = with_table(seen, set, halves, file, table);
    }
    seen
}

/// Whether two words are a prologue of a form.
fn is_form(set: &ObjectSet, halves: Halves, file: u32, bytes: &[u8]) -> bool
    requires file { file < length set.now }
    requires bytes { bytes.now ≡ section_bytes (file_at set.now file) halves.section }
    requires within { halves.at + 8 ≤ length bytes.now }
    ensures { result ≡ is_form file (file_at set.now file) halves }
{
    let at = halves.at as usize;
    if word_at(bytes, at) >> 16 != halves.form.high_half
        || word_at(bytes, at + 4) >> 16 != LOW_HIGH_HALF
    {
        return false;
    }
    let seen = seen_of(set, halves, file);
    seen.count == 2 && seen.high && seen.low
}

/// Whether the two words at an offset of a section are a prologue of one of the forms.
fn is_some_form(set: &ObjectSet, file: u32, section: u32, at: u64, bytes: &[u8]) -> bool
    requires file { file < length set.now }
    requires bytes { bytes.now ≡ section_bytes (file_at set.now file) section }
    requires within { at + 8 ≤ length bytes.now }
    ensures { result ≡ has_some_form file (file_at set.now file) section at }
{
    let from_entry = Halves {
        section,
        at,
        form: PrologueForm::FromEntry.facts(),
    };
    let absolute = Halves {
        form: PrologueForm::Absolute.facts(),
        ..from_entry
    };
    is_form(set, from_entry, file, bytes) || is_form(set, absolute, file, bytes)
}

/// Whether a place of text has a recognised prologue (ELFv2 ABI, "TOC Pointer Usage"), by which a function with two entry points makes its
/// TOC base. It takes no memory, and looks at all symbols and records of the file.
#[tactic(auto, unfolding(symbol_table::specs::Prologue::has_recognised_prologue))]
pub fn prologue_of(res: &Resolved, section: u32, offset: u64) -> bool
    requires { section < length (text_sections res.now.files) }
    ensures { result ≡ is_recognised res.now.files section offset }
{
    let SectionId { file, section: own } = text_section(res, section);
    let set = res.set();
    // no symbol of a set is refused, so that the words lie in the section
    let _files = set.file_count();
    if !has_two_entries(set, file, own, offset) {
        return false;
    }
    let bytes = set.view(file).section(own).bytes;
    is_some_form(set, file, own, offset, bytes)
}
