// The fields that the relocation records of a file fill, by their places.
ghost use Rattle.std.specs.Prelude.{◌≡◌, ◌<◌, ◌+◌, ◌^◌, ◌++◌, ◌==◌, IfOk, IfSome, OnOk, IsTrue, length, map};
ghost use Rattle.std.specs.List.{list_any};
ghost use Rattle.elf64_records.specs.FileHeader.{e_shnum};
ghost use Rattle.elf64_records.specs.Records.{record_count};
ghost use Rattle.object_set.specs.Files.{file_at};
ghost use Rattle.object_set.specs.Walks.{IsRecord, records_in};
ghost use Rattle.reloc_fields.specs.Table.{line_of};
ghost use Rattle.symbol_table.specs.Fields.{kind_numbered, width_in, field_of, fields_of, fields_meeting, meets, comes_before, overlaps_earlier};
ghost use Rattle.symbol_table.specs.inside.Fields.{place_of, IsFieldOf, AreOnlyTwo, EndsBefore};

use crate::ordered_fields::{any_meets, are_apart, has_earlier, only_two, sort_fields, window};
use crate::places::FilePlace;
use object_set::{ObjectSet, RecordId};
use reloc_fields::{Kind, kind_of, width};
use std::alloc::{AllocError, Global};
use std::marker::Model;

/// The field that a relocation record fills.
#[derive(Clone, Copy)]
pub struct RecordField {
    /// The record.
    pub id: RecordId,
    /// The offset of its first byte in the section that the record is about.
    pub start: u64,
    /// How many bytes it has.
    pub width: u32,
}

/// The kind of a relocation with this number.
pub fn kind_numbered(number: u32) -> Option<Kind>
    ensures { result ≡ kind_numbered number }
{
    kind_of(number)
}

/// How many bytes a relocation with this number fills: none where it is unknown.
fn width_of(number: u32) -> u32
    ensures { result ≡ width_in (kind_numbered number) }
{
    match kind_numbered(number) {
        Some(kind) => width(kind),
        None => 0,
    }
}

/// Whether a relocation's number is that of a kind.
pub fn is_of_kind(number: u32, kind: Kind) -> bool
    ensures { result ≡ (number == (line_of kind).number) }
{
    kind_of(number) == Some(kind)
}

/// Whether a record of a file comes before another one of it, in record order.
pub fn comes_before(id: RecordId, other: RecordId) -> bool
    ensures { result ≡ comes_before id other }
{
    id.table < other.table || (id.table == other.table && id.entry < other.entry)
}

impl RecordField {
    /// The field of a record.
    pub fn of_record(set: &ObjectSet, id: RecordId) -> RecordField
        requires { IsRecord set.now id }
        ensures { result ≡ field_of (file_at set.now id.file) id }
    {
        let rela = set.view(id.file).rela(id.table, id.entry);
        RecordField {
            id,
            start: rela.offset,
            width: width_of(rela.kind),
        }
    }

    /// Where it begins.
    pub fn place(&self) -> FilePlace
        ensures { result ≡ place_of self.now }
    {
        FilePlace {
            section: self.id.section,
            offset: self.start,
        }
    }

    /// Whether it lies in an earlier section than another one, or ends where that one begins or before.
    pub fn ends_before(&self, other: RecordField) -> bool
        ensures { IsTrue result → EndsBefore self.now other }
    {
        self.id.section < other.id.section
            || (self.id.section == other.id.section
                && self.start <= other.start
                && u64::from(self.width) <= other.start - self.start)
    }

    /// Whether it has bytes among so many of a section from an offset on.
    pub fn meets(&self, section: u32, from: u64, count: u32) -> bool
        ensures { result ≡ meets section from count self.now }
    {
        if self.id.section != section {
            false
        } else if self.start <= from {
            from - self.start < u64::from(self.width) && 0 < count
        } else {
            self.start - from < u64::from(count) && 0 < self.width
        }
    }
}

/// The fields of the relocation records of a file. Contracts see the file.
#[derive(Drop)]
pub struct FileFields<'a, 'b> {
    set: &'b ObjectSet<'a>,
    file: u32,
    /// The fields in order of their places.
    items: Vec<RecordField>,
    /// Each ends before the next one begins.
    apart: bool,
}

impl<'a, 'b> Model for FileFields<'a, 'b> {
    ghost use Rattle.symbol_table.specs.inside.Fields.{FileOf, AreKeptFields};

    ghost Value = { FileOf };

    ghost view = { λ f. record { files = f.set.now; file = f.file } };

    ghost invariant = { λ f. AreKeptFields f.set.now f.file f.items.items f.apart };
}

/// Puts the fields of the records of a section behind others.
fn push_table(
    items: &mut Vec<RecordField>,
    set: &ObjectSet,
    file: u32,
    table: u32,
) -> Result<(), AllocError>
    requires file { file < length set.now }
    requires table { table < e_shnum (file_at set.now file) }
    ensures { let b = file_at set.now file in
        let records = records_in file b table (record_count b table) in
        OnOk result (items.new.items ≡ items.old.items ++ map (field_of b) records) }
{
    let view = set.view(file);
    let section = view.section_header(table).info;
    for entry in 0..view.record_count(table) {
        let id = RecordId {
            file,
            table,
            entry,
            section,
        };
        items.push(RecordField::of_record(set, id))?;
    }
    Ok(())
}

impl<'a, 'b> FileFields<'a, 'b> {
    /// The fields of a file of a set.
    pub fn of_file(alloc: Global, set: &'b ObjectSet<'a>, file: u32) -> Result<Self, AllocError>
        requires { file < length set.now }
        ensures { IfOk result (λ fields. fields ≡ record { files = set.now; file = file }) }
    {
        let mut items = Vec::new(alloc);
        for table in 0..set.view(file).section_count() {
            push_table(&mut items, set, file, table)?;
        }
        sort_fields(&mut items);
        let apart = are_apart(&items);
        Ok(FileFields {
            set,
            file,
            items,
            apart,
        })
    }

    /// The set of files.
    pub fn set(&self) -> &'b ObjectSet<'a>
        ensures { result.now ≡ self.now.files }
    {
        self.set
    }

    /// The file's number.
    pub fn file(&self) -> u32
        ensures number { result ≡ self.now.file }
        ensures within { result < length self.now.files }
    {
        self.file
    }

    /// Whether a record's field has bytes that are also an earlier record's. A field that passes 2^64 isn't asked about.
    ///
    /// Records are asked about in order until one has such bytes, so that no field is looked at more often than fields without common
    /// bytes lie round it.
    pub fn overlaps_earlier(&self, id: RecordId) -> bool
        requires record { IsRecord self.now.files id }
        requires file { id.file ≡ self.now.file }
        requires fits { let field = field_of (file_at self.now.files id.file) id in
            field.start + field.width < 2 ^ 64 }
        ensures { let b = file_at self.now.files id.file in
            result ≡ overlaps_earlier id.file b id }
    {
        if self.apart {
            return false;
        }
        let field = RecordField::of_record(self.set, id);
        let (section, start, width) = (id.section, field.start, field.width);
        has_earlier(window(&self.items, section, start, width), field)
    }

    /// Whether a field has bytes among so many of a section from an offset on. It looks at the fields that begin near there.
    pub fn has_any(&self, section: u32, from: u64, count: u32) -> bool
        requires { from + count < 2 ^ 64 }
        ensures { let b = file_at self.now.files self.now.file in
            result ≡ list_any (meets section from count) (fields_of self.now.file b) }
    {
        any_meets(
            window(&self.items, section, from, count),
            section,
            from,
            count,
        )
    }

    /// The two fields that have bytes among so many of a section from an offset on, where there are two.
    pub fn only_two(
        &self,
        section: u32,
        from: u64,
        count: u32,
    ) -> Option<(RecordField, RecordField)>
        requires { from + count < 2 ^ 64 }
        ensures two { let b = file_at self.now.files self.now.file in
            AreOnlyTwo (fields_meeting self.now.file b section from count) result }
        ensures records { IfSome result (λ (f, g).
            IsFieldOf self.now.files self.now.file f × IsFieldOf self.now.files self.now.file g) }
    {
        only_two(
            window(&self.items, section, from, count),
            section,
            from,
            count,
        )
    }
}
