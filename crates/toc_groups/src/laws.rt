// What follows for data that is laid out, for crates above.
ghost use Rattle.std.specs.Prelude.{◌≡◌, ◌↔◌, ℕ, ℤ, List, None, true};
ghost use Rattle.elf64_exec.specs.declared.layout.Segment.{Segment};
ghost use Rattle.object_set.specs.Refusals.{set_refusal};
ghost use Rattle.reloc_fields.specs.Table.{Check, Passes};
ghost use Rattle.symbol_table.specs.Records.{records_refusal};
ghost use Rattle.toc_groups.specs.Contents.{AreDataSegments};
ghost use Rattle.toc_groups.specs.Data.{data_refusal};
ghost use Rattle.toc_groups.specs.Values.{passes};
ghost use Rattle.toc_groups.specs.Parts.{Part, Takes};
ghost use Rattle.toc_groups.specs.PlacedData.{IsPlacedData};
ghost use Rattle.toc_groups.specs.PlacedSegments.{ArePlacedSegments};
ghost use Rattle.toc_groups.specs.Plans.{LaidData, IsPlan, TellsOf};

/// No two parts of data have an address in common.
pub fn parts_are_apart()
    ensures { (files : List (List ℕ)) (span a : ℕ) (p q : Part) → set_refusal files ≡ None →
        Takes files span p a → Takes files span q a → p ≡ q }
{}

/// What a plan tells of pieces, targets and slots is what the files have.
pub fn plans_are_read()
    ensures { (files : List (List ℕ)) (span : ℕ) (plan : LaidData) → IsPlan files span plan →
        TellsOf files span plan }
{}

/// The segments of data are determined by the files, the TOC span and the addresses of text.
pub fn data_is_one()
    ensures { (files : List (List ℕ)) (span : ℕ) (text : List ℕ) (xs ys : List Segment) →
        set_refusal files ≡ None → records_refusal files ≡ None → data_refusal files span ≡ None →
        AreDataSegments files span text xs → AreDataSegments files span text ys → xs ≡ ys }
{}

/// The test of a value is the table's.
pub fn tests_are_the_table()
    ensures { (check : Check) (x : ℤ) → (passes check x ≡ true) ↔ Passes check x }
{}

/// Data that isn't too big lies in its segments, one before the other, and text begins at a page behind them.
pub fn data_is_placed()
    ensures { (files : List (List ℕ)) (span : ℕ) →
        set_refusal files ≡ None → data_refusal files span ≡ None → IsPlacedData files span }
{}

/// The segments of data that isn't too big are those of an executable, in order and below text; a segment of text behind them makes an
/// image.
pub fn data_segments_are_placed()
    ensures { (files : List (List ℕ)) (span : ℕ) (text : List ℕ) (segments : List Segment) →
        set_refusal files ≡ None → data_refusal files span ≡ None →
        AreDataSegments files span text segments → ArePlacedSegments files span segments }
{}
