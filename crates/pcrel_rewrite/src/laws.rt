// What follows for crates above where pairs are recognised, and no record is refused.
ghost use Rattle.std.specs.Prelude.{◌≡◌, ◌<◌, ◌≤◌, ◌+◌, ◌+ℤ◌, ◌-ℤ◌, ℕ, ℤ, pos, List, None, false};
ghost use Rattle.std.specs.List.{list_any};
ghost use Rattle.ppc_bytes.specs.Bytes.{number_at};
ghost use Rattle.object_set.specs.declared.places.RecordId.{RecordId};
ghost use Rattle.object_set.specs.declared.places.SectionId.{SectionId};
ghost use Rattle.object_set.specs.Files.{file_at};
ghost use Rattle.power_insns.specs.Words.{InSigned};
ghost use Rattle.reloc_fields.specs.declared.kind.Kind.TheVariants.{GotPcrel34};
ghost use Rattle.symbol_table.specs.Fields.{fields_of, meets};
ghost use Rattle.symbol_table.specs.Records.{records_refusal};
ghost use Rattle.symbol_table.specs.laws.Records.{IsSoundField};
ghost use Rattle.pcrel_rewrite.specs.Pairs.{IsRecordAt, IsPair, IsRecognised};
ghost use Rattle.pcrel_rewrite.specs.TextPairs.{text_pair};
ghost use Rattle.pcrel_rewrite.specs.Words.{ArePairWords};

/// A load has one access, whatever other records ask for: the first of two would be a word between that reads the address. So a place
/// has one recognised pair.
pub fn loads_have_one_access()
    ensures place { (files : List (List ℕ)) (section head tail other : ℕ) →
        IsRecognised files (text_pair section head tail) →
        IsRecognised files (text_pair section head other) → tail ≡ other }
    ensures words { (bytes : List ℕ) (head tail other : ℕ) →
        ArePairWords bytes head tail → ArePairWords bytes head other → tail ≡ other }
{}

/// Two pairs of a section have no byte in common.
pub fn pairs_are_apart()
    ensures { (files : List (List ℕ)) (s : SectionId) (head tail later end : ℕ) →
        records_refusal files ≡ None → IsPair files s head tail → IsPair files s later end →
        head < later → tail + 4 ≤ later }
{}

/// The load of a pair has a field of its own, which can be linked.
pub fn loads_are_sound()
    ensures { (files : List (List ℕ)) (s : SectionId) (at : ℕ) (r : RecordId) →
        records_refusal files ≡ None → IsRecordAt files GotPcrel34 s at r →
        IsSoundField files r GotPcrel34 }
{}

/// No field has bytes of the words between the load and the access, nor of the access, so that none of them is a call, a prologue's word
/// or a load; and the access isn't a nop, so that it is no slot to restore r2 in.
pub fn accesses_are_alone()
    ensures field { (files : List (List ℕ)) (s : SectionId) (head tail from count : ℕ) →
        IsPair files s head tail → head + 8 ≤ from → from + count ≤ tail + 4 →
        list_any (meets s.section from count) (fields_of s.file (file_at files s.file)) ≡ false }
    ensures word { (bytes : List ℕ) (head tail : ℕ) →
        ArePairWords bytes head tail → 0x80000000 ≤ number_at 4 bytes tail }
{}

/// From a load to what its symbol stands for, and an access's displacement on, it is a signed number of 34 bits.
pub fn pairs_reach()
    ensures { (symbol place : ℕ) (disp : ℤ) → symbol < 0x60000000 → place < 0x60000000 →
        InSigned 16 disp → InSigned 34 ((pos symbol +ℤ disp) -ℤ pos place) }
{}
