// The calls of a file, in the order in which they stand.
ghost use Rattle.std.specs.Prelude.{◌≡◌, ◌<◌, ◌++◌, ◌∷◌, [], None, IfOk, OnOk, filter, length, map};
ghost use Rattle.std.specs.List.{All};
ghost use Rattle.std.specs.Ordering.{nat_cmp};
ghost use Rattle.elf64_records.specs.FileHeader.{e_shnum};
ghost use Rattle.elf64_records.specs.Records.{record_count};
ghost use Rattle.object_set.specs.Files.{file_at};
ghost use Rattle.object_set.specs.Walks.{IsRecord, records_in};
ghost use Rattle.symbol_table.specs.Fields.{kind_numbered, field_of};
ghost use Rattle.symbol_table.specs.Records.{records_refusal};
ghost use Rattle.symbol_table.specs.inside.Fields.{rank_of};
ghost use Rattle.call_sites.specs.Sites.{linkage_in, is_call};
ghost use Rattle.call_sites.specs.inside.Calls.{unsorted_calls, file_calls, IsCall, IsInOrder};

use crate::class::Linkage;
use object_set::{ObjectSet, RecordId};
use reloc_fields::Kind;
use std::alloc::{AllocError, Global};
use std::cmp::Ordering;
use symbol_table::{FilePlace, RecordField, kind_numbered};

/// How a call of a relocation with this number is linked, if it is one.
pub fn linkage_of(number: u32) -> Option<Linkage>
    ensures { result ≡ linkage_in (kind_numbered number) }
{
    match kind_numbered(number) {
        Some(Kind::Rel24) => Some(Linkage::WithToc),
        Some(Kind::Rel24Notoc) => Some(Linkage::WithoutToc),
        Some(_) => None,
        None => None,
    }
}

/// Puts the field of a record behind others, where it is a call's.
fn push_call(items: &mut Vec<RecordField>, set: &ObjectSet, id: RecordId) -> Result<(), AllocError>
    requires { IsRecord set.now id }
    ensures { let b = file_at set.now id.file in
        OnOk result (items.new.items ≡ items.old.items ++ filter (is_call b) (field_of b id ∷ [])) }
{
    let rela = set.view(id.file).rela(id.table, id.entry);
    if linkage_of(rela.kind).is_some() {
        items.push(RecordField::of_record(set, id))?;
    }
    Ok(())
}

/// Puts the calls among the records that a section holds behind others.
fn push_table(
    items: &mut Vec<RecordField>,
    set: &ObjectSet,
    file: u32,
    table: u32,
) -> Result<(), AllocError>
    requires file { file < length set.now }
    requires table { table < e_shnum (file_at set.now file) }
    ensures { let b = file_at set.now file in
        let fields = map (field_of b) (records_in file b table (record_count b table)) in
        OnOk result (items.new.items ≡ items.old.items ++ filter (is_call b) fields) }
{
    let view = set.view(file);
    let section = view.section_header(table).info;
    for entry in 0..view.record_count(table) {
        let id = RecordId {
            file,
            table,
            entry,
            section,
        };
        push_call(items, set, id)?;
    }
    Ok(())
}

/// The calls of a file, in record order.
fn unsorted_calls(alloc: Global, set: &ObjectSet, file: u32) -> Result<Vec<RecordField>, AllocError>
    requires { file < length set.now }
    ensures { IfOk result (λ calls. calls.items ≡ unsorted_calls file (file_at set.now file)) }
{
    let mut items = Vec::new(alloc);
    for table in 0..set.view(file).section_count() {
        push_table(&mut items, set, file, table)?;
    }
    Ok(items)
}

/// How two fields stand to one another: by section, and then by offset.
fn order(f: &RecordField, g: &RecordField) -> Ordering
    ensures { result ≡ nat_cmp (rank_of f.now) (rank_of g.now) }
{
    let place = FilePlace {
        section: f.id.section,
        offset: f.start,
    };
    place.order(FilePlace {
        section: g.id.section,
        offset: g.start,
    })
}

/// Puts fields in order of their places; those at one place keep their order.
fn sort_calls(calls: &mut Vec<RecordField>) -> Result<(), AllocError>
    ensures { OnOk result (IsInOrder calls.old.items calls.new.items) }
{
    calls.sort_by(|f, g| order(f, g))?;
    Ok(())
}

/// The calls of a file in site order, by section and by offset.
pub fn file_calls(alloc: Global, set: &ObjectSet, file: u32) -> Result<Vec<RecordField>, AllocError>
    requires file { file < length set.now }
    requires sound { records_refusal set.now ≡ None }
    ensures calls { IfOk result (λ calls. calls.items ≡ file_calls file (file_at set.now file)) }
    ensures each { IfOk result (λ calls. All (IsCall set.now) calls.items) }
{
    // no file of a set is refused
    let _files = set.file_count();
    let mut calls = unsorted_calls(alloc, set, file)?;
    sort_calls(&mut calls)?;
    Ok(calls)
}
