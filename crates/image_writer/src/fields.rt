// Fields of relocation records in text, with their values.
ghost use Rattle.std.specs.Prelude.{◌≡◌, Some, IsTrue, length, is_some};
ghost use Rattle.elf64_records.specs.Sections.{section_bytes};
ghost use Rattle.object_set.specs.Files.{file_at};
ghost use Rattle.object_set.specs.Walks.{IsRecord};
ghost use Rattle.reloc_fields.specs.Table.{line_of, Passes};
ghost use Rattle.symbol_table.specs.Fields.{kind_numbered};
ghost use Rattle.toc_groups.specs.Contents.{AreOfFiles};
ghost use Rattle.toc_groups.specs.Values.{passes, record_value};
ghost use Rattle.placed_bytes.specs.Patches.{all_patched};
ghost use Rattle.call_sites.specs.Sites.{linkage_of};
ghost use Rattle.image_writer.specs.Fields.{field_by, plain_kind, text_kind};
ghost use Rattle.image_writer.specs.inside.Ready.{HasFieldRoom};

use layout_rounds::Places;
use object_set::RecordId;
use placed_bytes::put_number;
use reloc_fields::{Kind, check, width};
use symbol_table::{Resolved, kind_numbered};
use toc_groups::{DataPlan, field_address, filled_field, record_of, section_of};

/// Whether a relocation is that of a call.
fn is_call(kind: Kind) -> bool
    ensures { result ≡ is_some (linkage_of kind) }
{
    match kind {
        Kind::Rel24 | Kind::Rel24Notoc => true,
        _ => false,
    }
}

/// A kind, if it fills bytes and isn't a call's.
fn plain(kind: Kind) -> Option<Kind>
    ensures { result ≡ plain_kind (Some kind) }
{
    if width(kind) == 0 || is_call(kind) {
        None
    } else {
        Some(kind)
    }
}

/// The kind of a relocation with this number, if it fills bytes and isn't a call's.
fn plain_kind(number: u32) -> Option<Kind>
    ensures { result ≡ plain_kind (kind_numbered number) }
{
    match kind_numbered(number) {
        Some(kind) => plain(kind),
        None => None,
    }
}

/// The kind of a record whose field is in text and is no call's branch.
#[tactic(auto, unfolding(crate::specs::Fields::text_kind))]
pub fn text_kind(res: &Resolved, id: RecordId) -> Option<Kind>
    requires { IsRecord res.now.files id }
    ensures { result ≡ text_kind res.now.files id }
{
    let section = section_of(res, id);
    if !res.set().sort_of(id.file, section).is_text() {
        return None;
    }
    plain_kind(record_of(res, id).kind)
}

/// Puts the field of a record with its value, which it holds, into a text behind the data of a plan. `bytes` are those of its section.
pub fn put_field(
    text: &mut [u8],
    res: &Resolved,
    plan: &DataPlan,
    places: &Places,
    id: RecordId,
    kind: Kind,
    bytes: &[u8],
    value: i128,
)
    requires of_files { AreOfFiles res.now.files plan.now places.now.sections }
    requires record { IsRecord res.now.files id }
    requires kind { text_kind res.now.files id ≡ Some kind }
    requires bytes { bytes.now ≡ section_bytes (file_at res.now.files id.file) id.section }
    requires room { HasFieldRoom res.now.files plan.now.span places.now.sections
        plan.now.text_start (length text.old) id kind }
    requires value { value ≡
        record_value res.now.files plan.now.span places.now.sections id kind }
    requires holds { Passes (line_of kind).check value }
    ensures put { text.new ≡ all_patched text.old (field_by res.now.files plan.now.span
        places.now.sections plan.now.text_start id (Some kind)) }
    ensures size { length text.new ≡ length text.old }
{
    let offset = record_of(res, id).offset as usize;
    let at = field_address(res, plan, places, id) - plan.text_start();
    put_number(
        text,
        at as usize,
        width(kind),
        filled_field(kind, bytes, offset, value),
    );
}

/// Whether the field of a kind holds a value.
pub fn holds(kind: Kind, value: i128) -> bool
    ensures test { result ≡ passes (line_of kind).check value }
    ensures fact { IsTrue result → Passes (line_of kind).check value }
{
    check(kind, value).is_ok()
}
