// Words that load from the table of contents.
ghost use Rattle.std.specs.Prelude.{◌≡◌, Some, IsSome, length};
ghost use Rattle.elf64_records.specs.Sections.{section_bytes};
ghost use Rattle.object_set.specs.Files.{file_at};
ghost use Rattle.object_set.specs.Walks.{IsRecord};
ghost use Rattle.toc_groups.specs.Contents.{AreOfFiles};
ghost use Rattle.toc_groups.specs.Parts.{IsTargetOf};
ghost use Rattle.toc_groups.specs.Values.{record_value};
ghost use Rattle.toc_rewrite.specs.Folded.{AreFolds};
ghost use Rattle.toc_rewrite.specs.Folds.{slot_records};
ghost use Rattle.toc_rewrite.specs.Records.{record_target};
ghost use Rattle.toc_rewrite.specs.Uses.{number_of, is_folded_load};
ghost use Rattle.toc_rewrite.specs.Words.{IsRewritten};
ghost use Rattle.placed_bytes.specs.Patches.{all_patched};
ghost use Rattle.image_writer.specs.Fields.{text_kind};
ghost use Rattle.image_writer.specs.Rewriting.{laid_by};
ghost use Rattle.image_writer.specs.TocLoads.{slot_value, named_distance, toc_record, folded_patch};
ghost use Rattle.image_writer.specs.inside.Ready.{HasFieldRoom};

use layout_rounds::Places;
use object_set::RecordId;
use ppc_bytes::{put_word, word_at};
use reloc_fields::Kind;
use symbol_table::{Resolved, Target};
use toc_groups::{DataPlan, address_of, field_address, parts_are_apart, record_of};
use toc_rewrite::{Folds, TocRecord, fold_word, only_loads};

/// Where a record goes.
fn target_of(res: &Resolved, id: RecordId) -> Target
    requires record { IsRecord res.now.files id }
    requires goes { IsSome (record_target res.now.files id) }
    ensures target { record_target res.now.files id ≡ Some result }
    ensures known { IsTargetOf res.now.files result }
{
    // none of the files is refused
    let _files = res.set().file_count();
    let rela = record_of(res, id);
    res.target(id.file, rela.symbol, rela.addend)
}

/// What a slot holds: the address to which the record goes that fills it.
fn slot_value(res: &Resolved, plan: &DataPlan, places: &Places, slot: RecordId) -> u64
    requires of_files { AreOfFiles res.now.files plan.now places.now.sections }
    requires record { IsRecord res.now.files slot }
    requires goes { IsSome (record_target res.now.files slot) }
    ensures { result ≡ slot_value res.now.files plan.now.span places.now.sections slot }
{
    address_of(plan, places, target_of(res, slot))
}

/// How far what the slot holds that a record names lies from the TOC base of its file, if the slot is foldable.
fn named_distance(
    res: &Resolved,
    plan: &DataPlan,
    places: &Places,
    folds: &Folds,
    id: RecordId,
) -> Option<i128>
    requires of_files { AreOfFiles res.now.files plan.now places.now.sections }
    requires folds { AreFolds (laid_by res.now.files plan.now.span) folds.now }
    requires record { IsRecord res.now.files id }
    requires goes { IsSome (record_target res.now.files id) }
    ensures { result ≡ named_distance res.now.files plan.now.span places.now.sections
        (slot_records (laid_by res.now.files plan.now.span)) id }
{
    // none of the files is refused
    let _files = res.set().file_count();
    parts_are_apart();
    let number = plan.address(target_of(res, id))?;
    let slot = folds.named(id.file, number)?;
    let value = slot_value(res, plan, places, slot.id);
    Some(i128::from(value) - i128::from(plan.base_of(id.file)))
}

/// A record of a kind as the rewriting of TOC loads sees it. `bytes` are those of its section.
pub fn toc_record(
    res: &Resolved,
    plan: &DataPlan,
    places: &Places,
    folds: &Folds,
    id: RecordId,
    kind: Kind,
    bytes: &[u8],
) -> TocRecord
    requires of_files { AreOfFiles res.now.files plan.now places.now.sections }
    requires folds { AreFolds (laid_by res.now.files plan.now.span) folds.now }
    requires record { IsRecord res.now.files id }
    requires kind { text_kind res.now.files id ≡ Some kind }
    requires bytes { bytes.now ≡ section_bytes (file_at res.now.files id.file) id.section }
    ensures record { result ≡ toc_record res.now.files plan.now.span places.now.sections
        (slot_records (laid_by res.now.files plan.now.span)) id kind }
    ensures kind { result.kind ≡ kind }
{
    // none of the files is refused
    let _files = res.set().file_count();
    let word = word_at(bytes, record_of(res, id).offset as usize);
    let slot = if only_loads(kind, word) {
        named_distance(res, plan, places, folds, id)
    } else {
        None
    };
    TocRecord { kind, word, slot }
}

/// Puts the word of a record that is rewritten, with the record's own value, into a text behind the data of a plan.
pub fn put_folded(
    text: &mut [u8],
    res: &Resolved,
    plan: &DataPlan,
    places: &Places,
    id: RecordId,
    load: &TocRecord,
    own: i128,
)
    requires of_files { AreOfFiles res.now.files plan.now places.now.sections }
    requires record { IsRecord res.now.files id }
    requires room { HasFieldRoom res.now.files plan.now.span places.now.sections
        plan.now.text_start (length text.old) id load.now.kind }
    requires own { own ≡
        record_value res.now.files plan.now.span places.now.sections id load.now.kind }
    requires rewritten { IsRewritten load.now.kind load.now.word (number_of load.now own)
        (is_folded_load load.now) }
    ensures put { text.new ≡ all_patched text.old (folded_patch res.now.files plan.now.span
        places.now.sections plan.now.text_start id load.now) }
    ensures size { length text.new ≡ length text.old }
{
    let at = field_address(res, plan, places, id) - plan.text_start();
    let word = fold_word(
        load.kind,
        load.word,
        load.number(own),
        load.is_folded_load(),
    );
    put_word(text, at as usize, word);
}
