// What a layout gives to those who write its text.
ghost use Rattle.std.specs.Prelude.{◌≡◌, ◌<◌, ℕ, Bool, List, length, slice_index};
ghost use Rattle.call_sites.specs.declared.site.CallSite.{CallSite};
ghost use Rattle.layout_rounds.specs.FarSets.{member};
ghost use Rattle.layout_rounds.specs.Layout.{PlacedText};
ghost use Rattle.layout_rounds.specs.Shapes.{KeyedText};
ghost use Rattle.toc_groups.specs.Contents.{AreOfFiles};
ghost use Rattle.toc_groups.specs.Plans.{LaidData};
ghost use Rattle.image_writer.specs.Job.{IsJob, IsPlacedText};
ghost use Rattle.image_writer.specs.inside.Gives.{LayoutGives};
ghost use Rattle.image_writer.specs.inside.Ready.{HasRooms};

use call_sites::CallSite;
use layout_rounds::{
    Settled, branches_stay_in_reach, calls_have_keys, sections_and_stubs_are_apart,
    sections_and_stubs_lie_in_text,
};
use symbol_table::Resolved;
use toc_groups::{DataPlan, data_is_placed};

/// The layout of a job keeps what the laws say of layouts. It does nothing when it runs.
pub fn layouts_give()
    ensures { (files : List (List ℕ)) (plan : LaidData) (sites : List CallSite) (t : KeyedText)
        (far : List Bool) (p : PlacedText) → (job : IsJob files plan sites t far p) →
        LayoutGives t job.shape.sites.items job.span (member far) }
{
    calls_have_keys();
    sections_and_stubs_lie_in_text();
    sections_and_stubs_are_apart();
    branches_stay_in_reach();
}

/// In the layout of a job sections, stubs, calls and fields have room in the text, and branches reach. It does nothing when it runs.
pub fn parts_have_room(res: &Resolved, plan: &DataPlan, sites: &[CallSite], settled: &Settled)
    requires job { IsJob res.now.files plan.now sites.now settled.now.keyed settled.now.far
        settled.now.places }
    ensures rooms { HasRooms res.now.files plan.now sites.now settled.now.keyed settled.now.far
        settled.now.places }
    ensures bases { length plan.now.bases ≡ length res.now.files }
    ensures low { (file : ℕ) → slice_index plan.now.bases file < 0x60000000 }
{
    // none of the files is refused
    let _files = res.set().file_count();
    layouts_give();
    data_is_placed();
}

/// The text of a job lies behind its data and within its limit, and each text section in it. It does nothing when it runs.
pub fn text_is_placed(res: &Resolved, plan: &DataPlan, sites: &[CallSite], settled: &Settled)
    requires { IsJob res.now.files plan.now sites.now settled.now.keyed settled.now.far
        settled.now.places }
    ensures placed { IsPlacedText res.now.files plan.now settled.now.keyed settled.now.far
        settled.now.places }
    ensures of_files { AreOfFiles res.now.files plan.now settled.now.places.sections }
{
    // none of the files is refused
    let _files = res.set().file_count();
    data_is_placed();
    parts_have_room(res, plan, sites, settled);
}
