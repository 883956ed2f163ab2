// What stands at each place of a text, for crates above.
ghost use Rattle.std.specs.Prelude.{◌≡◌, ◌<◌, ◌^◌, ◌⊎◌, ℕ, Bool, List, None, length};
ghost use Rattle.object_set.specs.Refusals.{set_refusal};
ghost use Rattle.symbol_table.specs.Text.{text_sections};
ghost use Rattle.call_sites.specs.declared.site.CallSite.{CallSite};
ghost use Rattle.toc_groups.specs.Plans.{LaidData};
ghost use Rattle.layout_rounds.specs.declared.shape.Shape.{Shape};
ghost use Rattle.layout_rounds.specs.Shapes.{KeyedText, IsSpan};
ghost use Rattle.layout_rounds.specs.Layout.{PlacedText};
ghost use Rattle.image_writer.specs.Branches.{BranchesReach};
ghost use Rattle.image_writer.specs.Job.{IsJob, IsShapeOf};
ghost use Rattle.image_writer.specs.LaidText.{HasCalls, HasTextLayout, HasTextRefusal, IsLaidText};
ghost use Rattle.image_writer.specs.Places.{AreApartPatches, OfEachText, PairsReach, StandsByPlace, TellsText};

use crate::ready::layouts_give;
use layout_rounds::{reach_shrinks, some_far_set};
use toc_groups::data_is_placed;

/// No two patches of a text have a byte in common, but for those of calls and records with the sections over which they lie.
pub fn patches_are_apart()
    ensures { OfEachText AreApartPatches }
{
    layouts_give();
}

/// So each stands in the text where it was put: stubs, branches, words behind calls, fields and rewritten words; each other byte of a
/// section is its file's, and what lies between sections and stubs is zero.
pub fn text_stands_place_by_place()
    ensures { OfEachText StandsByPlace }
{
    layouts_give();
}

/// What stands at each place of a text tells it.
pub fn places_tell_a_text()
    ensures { OfEachText TellsText }
{}

/// What the access of a recognised pair loads or stores is in reach of one instruction, which it becomes with its load.
pub fn pairs_are_in_reach()
    ensures { OfEachText PairsReach }
{
    layouts_give();
    data_is_placed();
}

/// Each branch of a text goes from instruction to instruction, and its word holds how far.
pub fn branches_reach()
    ensures { OfEachText BranchesReach }
{
    layouts_give();
    data_is_placed();
}

/// Each job with fewer than 2^28 text sections has a layout of its text, or a reason in it why there is none.
pub fn texts_are_laid_out_or_refused()
    ensures { (files : List (List ℕ)) (plan : LaidData) (sites : List CallSite) (shape : Shape)
        (span : ℕ) → set_refusal files ≡ None → HasCalls files plan sites →
        length (text_sections files) < 2 ^ 28 → IsShapeOf files plan sites shape → IsSpan span →
        HasTextLayout files plan sites span ⊎ HasTextRefusal files plan sites span }
{
    some_far_set();
    reach_shrinks();
    data_is_placed();
}

/// A text that is laid out for the far set is that of a job.
pub fn laid_texts_are_of_jobs()
    ensures { (files : List (List ℕ)) (plan : LaidData) (sites : List CallSite) (span : ℕ)
        (t : KeyedText) (far : List Bool) (p : PlacedText) → set_refusal files ≡ None →
        HasCalls files plan sites → length (text_sections files) < 2 ^ 28 → IsSpan span →
        IsLaidText files plan sites span t far p → IsJob files plan sites t far p }
{
    data_is_placed();
}
