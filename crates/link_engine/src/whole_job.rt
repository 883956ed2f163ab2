// A job goes through the stages that a link and a plain run share.
ghost use Rattle.std.specs.Prelude.{◌≡◌, ◌⊎◌, ◌+◌, ◌-◌, ◌≤◌, ◌<◌, ◌^◌, length, Err, IfOk, IfErr};
ghost use Rattle.object_set.specs.Refusals.{Answers};
ghost use Rattle.layout_rounds.specs.FarSets.{member};
ghost use Rattle.layout_rounds.specs.Layout.{text_end};
ghost use Rattle.toc_groups.specs.Contents.{AreDataSegments};
ghost use Rattle.toc_rewrite.specs.Laid.{laid_files};
ghost use Rattle.toc_rewrite.specs.Folded.{AreFolds};
ghost use Rattle.pcrel_rewrite.specs.Pairs.{ArePairs};
ghost use Rattle.image_writer.specs.Image.{text_image};
ghost use Rattle.image_writer.specs.Rewriting.{rewriting_of};
ghost use Rattle.image_writer.specs.Job.{IsJob};
ghost use Rattle.link_engine.specs.Options.{InRange};
ghost use Rattle.link_engine.specs.Link.{LinksTo, overflow, placement_limit};
ghost use Rattle.link_engine.specs.inside.Writing.{IsResolved, IsWholeJob};

use crate::files::Options;
use crate::overflow::earlier;
use call_sites::{CallSite, Sites, sites};
use elf64_exec::Segment;
use image_writer::{lay_text, plans_have_addresses, text_bytes, text_is_placed};
use layout_rounds::Settled;
use object_set::Refusal;
use pcrel_rewrite::{Pairs, pairs};
use ppc_bytes::Steps;
use std::alloc::Global;
use std::sync::ledger::Ledger;
use symbol_table::Resolved;
use toc_groups::{DataPlan, data_bytes, lay_data};
use toc_rewrite::{Folds, foldable};

/// What is loaded: the segments of data, and the bytes of text.
#[derive(Drop)]
pub struct Loaded {
    pub data: Vec<Segment>,
    pub text: Vec<u8>,
}

/// The data and the text of a job; or the first record in record order whose field doesn't hold its value, which is told with it.
fn contents(
    alloc: Global,
    res: &Resolved,
    plan: &DataPlan,
    calls: &[CallSite],
    settled: &Settled,
    folds: &Folds,
    pairs: &Pairs,
) -> Result<Loaded, Refusal>
    requires job { IsJob res.now.files plan.now calls.now settled.now.keyed settled.now.far
        settled.now.places }
    requires few { length calls.now < 2 ^ 32 }
    requires folds { AreFolds (laid_files res.now.files plan.now.bases plan.now.pieces) folds.now }
    requires pairs { ArePairs res.now.files pairs.now }
    ensures refusal { Answers result (overflow res.now.files plan.now.span
        settled.now.places.sections (rewriting_of res.now.files plan.now.span pairs.now)) }
    ensures data { IfOk result (λ l. AreDataSegments res.now.files plan.now.span
        settled.now.places.sections l.data.items) }
    ensures text { IfOk result (λ l. l.text.items ≡ text_image res.now.files plan.now calls.now
        settled.now.keyed (member settled.now.far) settled.now.places
        (rewriting_of res.now.files plan.now.span pairs.now)) }
    ensures size { IfOk result (λ l. length l.text.items
        ≡ text_end settled.now.keyed (member settled.now.far) - plan.now.text_start) }
{
    text_is_placed(res, plan, calls, settled);
    match (
        data_bytes(alloc, res, plan, &settled.places),
        text_bytes(alloc, res, plan, calls, settled, folds, pairs),
    ) {
        (Ok(data), Ok(text)) => Ok(Loaded { data, text }),
        (Err(refusal), Ok(_)) => Err(refusal),
        (Ok(_), Err(refusal)) => Err(refusal),
        (Err(in_data), Err(in_text)) => Err(earlier(in_data, in_text)),
    }
}

/// A job of which nothing is refused: where its data and its text lie, its calls, what is rewritten, and what is loaded.
#[derive(Drop)]
pub struct WholeJob {
    pub plan: DataPlan,
    pub calls: Sites,
    pub settled: Settled,
    pub folds: Folds,
    pub pairs: Pairs,
    pub loaded: Loaded,
}

/// The job of files whose names and records are resolved, or the first refusal behind those of names and records.
pub fn whole_job<L: Ledger>(
    alloc: Global,
    res: &Resolved,
    options: &Options,
    steps: &mut Steps<L>,
) -> Result<WholeJob, Refusal>
    requires resolved { IsResolved res.now options.now }
    requires range { InRange options.now }
    ensures refused { IfErr result (λ r.
        (r ≡ Refusal.Memory) ⊎ LinksTo res.now.files options.now (Err r)) }
    ensures whole { IfOk result (IsWholeJob res.now.files options.now) }
    ensures steps { steps.new ≤ steps.old + placement_limit res.now.files options.now }
{
    let plan = lay_data(alloc, res, options.toc_span)?;
    let calls = sites(alloc, res, plan.groups())?;
    let _count = calls.count();
    let settled = lay_text(
        alloc,
        res,
        &plan,
        calls.as_slice(),
        options.branch_span,
        steps,
    )?;
    plans_have_addresses();
    let folds = foldable(alloc, res, plan.bases(), plan.pieces())?;
    let pairs = pairs(alloc, res)?;
    let loaded = contents(
        alloc,
        res,
        &plan,
        calls.as_slice(),
        &settled,
        &folds,
        &pairs,
    )?;
    Ok(WholeJob {
        plan,
        calls,
        settled,
        folds,
        pairs,
        loaded,
    })
}
