// The bytes of text.
ghost use Rattle.std.specs.Prelude.{◌≡◌, ◌<◌, ◌-◌, ◌^◌, IfOk, length};
ghost use Rattle.object_set.specs.Refusals.{Answers};
ghost use Rattle.layout_rounds.specs.FarSets.{member};
ghost use Rattle.layout_rounds.specs.Layout.{text_end};
ghost use Rattle.toc_rewrite.specs.Laid.{laid_files};
ghost use Rattle.toc_rewrite.specs.Folded.{AreFolds};
ghost use Rattle.pcrel_rewrite.specs.Pairs.{ArePairs};
ghost use Rattle.image_writer.specs.Records.{text_overflow};
ghost use Rattle.image_writer.specs.Rewriting.{rewriting_of};
ghost use Rattle.image_writer.specs.Image.{text_image, text_with_sections};
ghost use Rattle.image_writer.specs.Job.{IsJob};
ghost use Rattle.image_writer.specs.inside.Ready.{HasRooms};

use crate::calls::put_calls;
use crate::ready::parts_have_room;
use crate::records::put_records;
use crate::sections::put_sections;
use crate::stubs::{caller_bases, put_stubs};
use call_sites::CallSite;
use layout_rounds::Settled;
use object_set::Refusal;
use pcrel_rewrite::Pairs;
use std::alloc::{AllocError, Global};
use symbol_table::Resolved;
use toc_groups::DataPlan;
use toc_rewrite::Folds;

/// Zeros with the sections and the stubs of a job at their addresses.
fn with_sections(
    alloc: Global,
    res: &Resolved,
    plan: &DataPlan,
    settled: &Settled,
    sites: &[CallSite],
) -> Result<Vec<u8>, AllocError>
    requires bases { length plan.now.bases ≡ length res.now.files }
    requires rooms { HasRooms res.now.files plan.now sites.now settled.now.keyed settled.now.far
        settled.now.places }
    ensures text { IfOk result (λ text. text.items ≡ text_with_sections res.now.files plan.now
        sites.now settled.now.keyed (member settled.now.far) settled.now.places) }
    ensures size { IfOk result (λ text. length text.items
        ≡ text_end settled.now.keyed (member settled.now.far) - plan.now.text_start) }
{
    let start = plan.text_start();
    let mut text = vec![in alloc; 0u8; (settled.places.end() - start) as usize]?;
    let callers = caller_bases(alloc, res, plan, settled)?;
    put_sections(&mut text, res, &settled.places, start);
    put_stubs(&mut text, res, plan, settled, callers.as_slice());
    Ok(text)
}

/// The bytes of the text of a job, from the start of text to the end of its last section or stub, where `folds` are the foldable slots of
/// its files and `pairs` their recognised pairs; or the first record in record order whose field in text doesn't hold its value, which
/// is told with it (ELFv2 ABI, "Relocation Types Table"). The branches of calls are judged by the layout, not here.
pub fn text_bytes(
    alloc: Global,
    res: &Resolved,
    plan: &DataPlan,
    sites: &[CallSite],
    settled: &Settled,
    folds: &Folds,
    pairs: &Pairs,
) -> Result<Vec<u8>, Refusal>
    requires job { IsJob res.now.files plan.now sites.now settled.now.keyed settled.now.far
        settled.now.places }
    requires few { length sites.now < 2 ^ 32 }
    requires folds { AreFolds (laid_files res.now.files plan.now.bases plan.now.pieces) folds.now }
    requires pairs { ArePairs res.now.files pairs.now }
    ensures refusal { Answers result (text_overflow res.now.files plan.now.span
        settled.now.places.sections (rewriting_of res.now.files plan.now.span pairs.now)) }
    ensures text { IfOk result (λ text. text.items ≡ text_image res.now.files plan.now sites.now
        settled.now.keyed (member settled.now.far) settled.now.places
        (rewriting_of res.now.files plan.now.span pairs.now)) }
    ensures size { IfOk result (λ text. length text.items
        ≡ text_end settled.now.keyed (member settled.now.far) - plan.now.text_start) }
{
    parts_have_room(res, plan, sites, settled);
    let mut text = with_sections(alloc, res, plan, settled, sites)?;
    put_calls(&mut text, res, plan, settled, sites);
    put_records(&mut text, res, plan, &settled.places, folds, pairs)?;
    Ok(text)
}
