// What follows from these definitions, for crates above.
ghost use Rattle.std.specs.Prelude.{◌≡◌, ℕ, ℤ, Bool, pos, true, false, ◌+ℤ◌, ◌*ℤ◌};
ghost use Rattle.object_set.specs.declared.places.RecordId.{RecordId};
ghost use Rattle.object_set.specs.Walks.{IsRecord};
ghost use Rattle.ppc_bytes.specs.Bytes.{InSigned};
ghost use Rattle.ppc_bytes.specs.Halves.{signed_of, lo, ha, IsSmall};
ghost use Rattle.toc_rewrite.specs.declared.loads.TocRecord.{TocRecord};
ghost use Rattle.toc_rewrite.specs.Laid.{LaidFiles};
ghost use Rattle.toc_rewrite.specs.Records.{record_number, is_of_prologue};
ghost use Rattle.toc_rewrite.specs.Folds.{fills_foldable, slot_address, lies_in};
ghost use Rattle.toc_rewrite.specs.Uses.{number_of, is_folded_load, is_rewritten};
ghost use Rattle.toc_rewrite.specs.Words.{IsRewritten};
ghost use Rattle.toc_rewrite.specs.laws.Slots.{IsLoad};
ghost use Rattle.toc_rewrite.specs.laws.Rewritten.{IsGiven};

/// A base and the two halves of a number in reach make base and number; a base and the low half of a small one do.
pub fn halves_reach()
    ensures both { (base : ℕ) (x : ℤ) → InSigned 32 (x +ℤ pos 0x8000) →
        (pos base +ℤ signed_of 16 (ha x) *ℤ pos 0x10000) +ℤ signed_of 16 (lo x) ≡ pos base +ℤ x }
    ensures small { (base : ℕ) (x : ℤ) → IsSmall x →
        pos base +ℤ signed_of 16 (lo x) ≡ pos base +ℤ x }
{}

/// Each record that goes into a foldable slot, but for those of recognised prologues, is of the slot's file, names its first byte, and
/// only loads it.
pub fn slots_are_only_loaded()
    ensures { (laid : LaidFiles) (s r : RecordId) → fills_foldable laid s ≡ true →
        IsRecord laid.files r → is_of_prologue laid.files r ≡ false →
        lies_in (slot_address laid s) (record_number laid r) ≡ true →
        IsLoad laid s.file (slot_address laid s) r }
{}

/// A word that is rewritten may be: it meets the condition of `fold_word`.
pub fn rewritten_words_may_be()
    ensures { (r : TocRecord) (own : ℤ) (orderly : Bool) →
        IsGiven r.kind r.word r.slot own orderly → is_rewritten r orderly ≡ true →
        IsRewritten r.kind r.word (number_of r own) (is_folded_load r) }
{}
