// What a plan of data is for the rewriting of its loads.
ghost use Rattle.std.specs.Prelude.{◌≡◌, ℕ, List, None};
ghost use Rattle.object_set.specs.Refusals.{set_refusal};
ghost use Rattle.toc_groups.specs.Plans.{LaidData, IsPlan};
ghost use Rattle.toc_rewrite.specs.Laid.{laid_files, HasAddresses};

use toc_groups::data_is_placed;

/// The bases and the pieces of a plan are those that `foldable` asks for.
pub fn plans_have_addresses()
    ensures { (files : List (List ℕ)) (span : ℕ) (plan : LaidData) →
        set_refusal files ≡ None → IsPlan files span plan →
        HasAddresses (laid_files files plan.bases plan.pieces) }
{
    data_is_placed();
}
