// What follows where no relocation record is refused, for crates above.
ghost use Rattle.std.specs.Prelude.{◌≡◌, ◌<◌, ◌≤◌, ◌+◌, ◌⊎◌, ℕ, List, None, true, false};
ghost use Rattle.object_set.specs.declared.places.RecordId.{RecordId};
ghost use Rattle.object_set.specs.Files.{file_at};
ghost use Rattle.object_set.specs.Walks.{IsRecord};
ghost use Rattle.symbol_table.specs.Fields.{field_of, comes_before, overlaps_earlier};
ghost use Rattle.symbol_table.specs.Records.{records_refusal};
ghost use Rattle.symbol_table.specs.laws.Records.{IsSoundRecord};

/// Each record has a kind, and if that fills bytes it can be linked.
pub fn records_are_sound()
    ensures { (files : List (List ℕ)) (r : RecordId) →
        records_refusal files ≡ None → IsRecord files r → IsSoundRecord files r }
{}

/// Fields of one section have no byte in common.
pub fn fields_are_apart()
    ensures { (files : List (List ℕ)) (q r : RecordId) →
        let b = file_at files r.file in let f = field_of b q in let g = field_of b r in
        overlaps_earlier r.file b r ≡ false → IsRecord files q →
        q.file ≡ r.file → q.section ≡ r.section → comes_before q r ≡ true →
        0 < f.width → 0 < g.width → (f.start + f.width ≤ g.start) ⊎ (g.start + g.width ≤ f.start) }
{}
