// What relocation records put into text.
ghost use Rattle.std.specs.Prelude.{◌≡◌, ◌<◌, ◌||◌, ℕ, false, Some, OnOk, IsTrue, length, slice_index};
ghost use Rattle.elf64_records.specs.First.{Refuses};
ghost use Rattle.elf64_records.specs.Sections.{section_bytes};
ghost use Rattle.object_set.specs.Files.{file_at};
ghost use Rattle.object_set.specs.Walks.{IsRecord};
ghost use Rattle.reloc_fields.specs.Table.{line_of, Passes};
ghost use Rattle.toc_groups.specs.Contents.{AreOfFiles};
ghost use Rattle.toc_groups.specs.Values.{passes, record_value};
ghost use Rattle.toc_rewrite.specs.Folded.{AreFolds};
ghost use Rattle.toc_rewrite.specs.Folds.{slot_records};
ghost use Rattle.toc_rewrite.specs.Uses.{is_folded_load};
ghost use Rattle.pcrel_rewrite.specs.Pairs.{ArePairs};
ghost use Rattle.placed_bytes.specs.Patches.{all_patched};
ghost use Rattle.image_writer.specs.Fields.{text_kind};
ghost use Rattle.image_writer.specs.GotLoads.{rewritten_load};
ghost use Rattle.image_writer.specs.Records.{load_or_field, record_by, record_patch, record_patches, text_overflow_at, text_overflow};
ghost use Rattle.image_writer.specs.Rewriting.{laid_by, rewriting_of};
ghost use Rattle.image_writer.specs.TocLoads.{toc_record};
ghost use Rattle.image_writer.specs.inside.Ready.{HasFieldRoom, AreTextAddresses};

use crate::fields::{holds, put_field, text_kind};
use crate::got_loads::{put_load, rewritten_load};
use crate::toc_loads::{put_folded, toc_record};
use layout_rounds::Places;
use object_set::{RecordId, Refusal};
use pcrel_rewrite::Pairs;
use reloc_fields::Kind;
use symbol_table::Resolved;
use toc_groups::{DataPlan, field_address, parts_are_apart, record_value, section_of, site_of};
use toc_rewrite::{Folds, TocRecord};

/// Puts a load of an address that is rewritten, or a field with the record's value, which it holds. `bytes` are those of the record's
/// section.
fn put_load_or_field(
    text: &mut [u8],
    res: &Resolved,
    plan: &DataPlan,
    places: &Places,
    pairs: &Pairs,
    id: RecordId,
    kind: Kind,
    bytes: &[u8],
    value: i128,
)
    requires of_files { AreOfFiles res.now.files plan.now places.now.sections }
    requires pairs { ArePairs res.now.files pairs.now }
    requires record { IsRecord res.now.files id }
    requires kind { text_kind res.now.files id ≡ Some kind }
    requires bytes { bytes.now ≡ section_bytes (file_at res.now.files id.file) id.section }
    requires room { HasFieldRoom res.now.files plan.now.span places.now.sections
        plan.now.text_start (length text.old) id kind }
    requires value { value ≡
        record_value res.now.files plan.now.span places.now.sections id kind }
    requires holds { Passes (line_of kind).check value }
    ensures put { let w = rewriting_of res.now.files plan.now.span pairs.now in
        let load = rewritten_load res.now.files plan.now.span places.now.sections w id kind in
        text.new ≡ all_patched text.old (load_or_field res.now.files plan.now.span
        places.now.sections w plan.now.text_start id kind load) }
    ensures size { length text.new ≡ length text.old }
{
    // none of the files is refused
    let _files = res.set().file_count();
    match rewritten_load(res, plan, places, pairs, id, kind, bytes) {
        Some(load) => {
            let at = field_address(res, plan, places, id) - plan.text_start();
            put_load(text, at as usize, &load);
        }
        None => put_field(text, res, plan, places, id, kind, bytes, value),
    }
}

/// Whether a record's field holds its value, or its load is left out, which isn't checked.
fn is_checked(load: &TocRecord, value: i128) -> bool
    ensures test { result ≡
        (is_folded_load load.now || passes (line_of load.now.kind).check value) }
    ensures fact { IsTrue result → is_folded_load load.now ≡ false →
        Passes (line_of load.now.kind).check value }
{
    load.is_folded_load() || holds(load.kind, value)
}

/// Puts what a record in text puts that is no call's branch, by what the rewriting of TOC loads sees of it and by its value, which is
/// checked. `bytes` are those of its section.
fn put_checked(
    text: &mut [u8],
    res: &Resolved,
    plan: &DataPlan,
    places: &Places,
    folds: &Folds,
    pairs: &Pairs,
    id: RecordId,
    load: &TocRecord,
    bytes: &[u8],
    value: i128,
)
    requires of_files { AreOfFiles res.now.files plan.now places.now.sections }
    requires addresses { AreTextAddresses places.now.sections }
    requires bases { (file : ℕ) → slice_index plan.now.bases file < 0x60000000 }
    requires folds { AreFolds (laid_by res.now.files plan.now.span) folds.now }
    requires pairs { ArePairs res.now.files pairs.now }
    requires record { IsRecord res.now.files id }
    requires kind { text_kind res.now.files id ≡ Some load.now.kind }
    requires load { load.now ≡ toc_record res.now.files plan.now.span places.now.sections
        (slot_records (laid_by res.now.files plan.now.span)) id load.now.kind }
    requires bytes { bytes.now ≡ section_bytes (file_at res.now.files id.file) id.section }
    requires room { HasFieldRoom res.now.files plan.now.span places.now.sections
        plan.now.text_start (length text.old) id load.now.kind }
    requires value { value ≡
        record_value res.now.files plan.now.span places.now.sections id load.now.kind }
    requires checked { is_folded_load load.now ≡ false →
        Passes (line_of load.now.kind).check value }
    ensures put { text.new ≡ all_patched text.old (record_by res.now.files plan.now.span
        places.now.sections (rewriting_of res.now.files plan.now.span pairs.now)
        plan.now.text_start id (Some load.now.kind)) }
    ensures size { length text.new ≡ length text.old }
{
    // none of the files is refused
    let _files = res.set().file_count();
    parts_are_apart();
    if load.is_rewritten(folds.orderly(id.file)) {
        put_folded(text, res, plan, places, id, load, value);
    } else {
        put_load_or_field(text, res, plan, places, pairs, id, load.kind, bytes, value);
    }
}

/// Puts what a record puts into text, if it is in text and no call's branch; or its field doesn't hold its value.
fn put_record(
    text: &mut [u8],
    res: &Resolved,
    plan: &DataPlan,
    places: &Places,
    folds: &Folds,
    pairs: &Pairs,
    id: RecordId,
) -> Result<(), Refusal>
    requires of_files { AreOfFiles res.now.files plan.now places.now.sections }
    requires addresses { AreTextAddresses places.now.sections }
    requires bases { (file : ℕ) → slice_index plan.now.bases file < 0x60000000 }
    requires folds { AreFolds (laid_by res.now.files plan.now.span) folds.now }
    requires pairs { ArePairs res.now.files pairs.now }
    requires record { IsRecord res.now.files id }
    requires room { (kind : Kind) → text_kind res.now.files id ≡ Some kind →
        HasFieldRoom res.now.files plan.now.span places.now.sections plan.now.text_start
        (length text.old) id kind }
    ensures refusal { Refuses result (text_overflow_at res.now.files plan.now.span
        places.now.sections (rewriting_of res.now.files plan.now.span pairs.now) id) }
    ensures put { OnOk result (text.new ≡ all_patched text.old (record_patch res.now.files
        plan.now.span places.now.sections (rewriting_of res.now.files plan.now.span pairs.now)
        plan.now.text_start id)) }
    ensures size { length text.new ≡ length text.old }
{
    let kind = match text_kind(res, id) {
        Some(kind) => kind,
        None => return Ok(()),
    };
    let value = record_value(res, plan, places, id, kind);
    let bytes = res.set().view(id.file).section(section_of(res, id)).bytes;
    let load = toc_record(res, plan, places, folds, id, kind, bytes);
    if !is_checked(&load, value) {
        return Err(Refusal::Overflow(site_of(res, id), value));
    }
    put_checked(
        text, res, plan, places, folds, pairs, id, &load, bytes, value,
    );
    Ok(())
}

/// Puts what all records in text put, but for calls, into a text behind the data of a plan; or the first record in record order whose
/// field doesn't hold its value, which is told with it (ELFv2 ABI, "Relocation Types Table").
pub fn put_records(
    text: &mut [u8],
    res: &Resolved,
    plan: &DataPlan,
    places: &Places,
    folds: &Folds,
    pairs: &Pairs,
) -> Result<(), Refusal>
    requires of_files { AreOfFiles res.now.files plan.now places.now.sections }
    requires addresses { AreTextAddresses places.now.sections }
    requires bases { (file : ℕ) → slice_index plan.now.bases file < 0x60000000 }
    requires folds { AreFolds (laid_by res.now.files plan.now.span) folds.now }
    requires pairs { ArePairs res.now.files pairs.now }
    requires room { (r : RecordId) (kind : Kind) → IsRecord res.now.files r →
        text_kind res.now.files r ≡ Some kind → HasFieldRoom res.now.files plan.now.span
        places.now.sections plan.now.text_start (length text.old) r kind }
    ensures refusal { Refuses result (text_overflow res.now.files plan.now.span
        places.now.sections (rewriting_of res.now.files plan.now.span pairs.now)) }
    ensures put { OnOk result (text.new ≡ all_patched text.old (record_patches res.now.files
        plan.now.span places.now.sections (rewriting_of res.now.files plan.now.span pairs.now)
        plan.now.text_start)) }
    ensures size { length text.new ≡ length text.old }
{
    for id in res.set().records() {
        put_record(text, res, plan, places, folds, pairs, id)?;
    }
    Ok(())
}
