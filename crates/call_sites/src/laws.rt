// What follows of call sites where nothing is refused, for crates above.
ghost use Rattle.std.specs.Prelude.{◌≡◌, ◌<◌, ◌+◌, ℕ, List, None, Some, true, slice_get};
ghost use Rattle.elf64_records.specs.First.{first_in};
ghost use Rattle.object_set.specs.Refusals.{set_refusal};
ghost use Rattle.symbol_table.specs.Records.{records_refusal};
ghost use Rattle.call_sites.specs.declared.site.CallSite.{CallSite};
ghost use Rattle.call_sites.specs.Sites.{call_sites};
ghost use Rattle.call_sites.specs.Refusals.{restore_refusal};
ghost use Rattle.call_sites.specs.laws.SiteFacts.{IsSoundSite};
ghost use Rattle.call_sites.specs.laws.SiteOrder.{StandsBefore};

/// Each site stands on a branch in text and goes to an instruction, or to nothing; a restore slot is a nop of its section that nothing
/// fills.
pub fn sites_are_sound()
    ensures { (files : List (List ℕ)) (groups : List ℕ) (k : ℕ) (site : CallSite) →
        set_refusal files ≡ None → records_refusal files ≡ None →
        slice_get (call_sites files groups) k ≡ Some site → IsSoundSite files groups site }
{}

/// Each site stands before the next one, by section and offset.
pub fn sites_are_in_order()
    ensures { (files : List (List ℕ)) (groups : List ℕ) (k : ℕ) (a b : CallSite) →
        set_refusal files ≡ None → records_refusal files ≡ None →
        slice_get (call_sites files groups) k ≡ Some a →
        slice_get (call_sites files groups) (k + 1) ≡ Some b → StandsBefore a b }
{}

/// Where no call is refused, r2 is restored in a slot.
pub fn restored_sites_have_slots()
    ensures { (files : List (List ℕ)) (groups : List ℕ) (k : ℕ) (site : CallSite) →
        first_in restore_refusal (call_sites files groups) ≡ None →
        slice_get (call_sites files groups) k ≡ Some site → site.restore ≡ true → site.slot ≡ true }
{}
