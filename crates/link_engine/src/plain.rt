// Files run without an image.
ghost use Rattle.std.specs.Prelude.{◌≡◌, ◌⊎◌, ◌+◌, ◌≤◌, ◌<◌, length, Err, IfOk, IfErr};
ghost use Rattle.object_set.specs.Files.{contents_of};
ghost use Rattle.call_sites.specs.Sites.{text_section};
ghost use Rattle.link_engine.specs.Link.{LinksTo, placement_limit};
ghost use Rattle.link_engine.specs.Options.{InRange};
ghost use Rattle.link_engine.specs.Plain.{IsPlainEnd, section_left};
ghost use Rattle.link_engine.specs.inside.Writing.{IsResolved, IsWholeJob};

use crate::files::Options;
use crate::whole_job::{WholeJob, whole_job};
use call_sites::text_section;
use image_writer::text_is_placed;
use object_set::{FileBytes, ObjectSet, Refusal, SectionId};
use plain_run::{Plain, PlainOutcome};
use power_machine::{Event, World};
use ppc_bytes::Steps;
use std::alloc::Global;
use std::sync::ledger::Ledger;
use symbol_table::{Resolved, resolve};
use toc_groups::tests_are_the_table;

/// What a plain run came to, and the calls that it made.
#[derive(Drop)]
pub struct PlainEnd {
    /// How it ended, if it did.
    pub outcome: PlainOutcome,

    /// The calls, in order.
    pub events: Vec<Event>,

    /// Where it left: the file, by its number; else 0.
    pub file: u32,

    /// Where it left: the number of the text section in its file; else 0.
    pub section: u32,
}

/// A text section, by its number; where there is none, both numbers are 0.
fn section_numbered(res: &Resolved, number: u32) -> SectionId
    ensures { result ≡ text_section res.now.files number }
{
    if number < res.text_count() {
        text_section(res, number)
    } else {
        SectionId {
            file: 0,
            section: 0,
        }
    }
}

/// The section of the place where a run left; of one that didn't, both numbers are 0.
fn section_left(res: &Resolved, outcome: PlainOutcome) -> SectionId
    ensures { result ≡ section_left res.now.files outcome }
{
    match outcome {
        PlainOutcome::Left(_, section, _) => section_numbered(res, section),
        PlainOutcome::Exited(_) | PlainOutcome::Budget | PlainOutcome::Memory => {
            SectionId {
                file: 0,
                section: 0,
            }
        }
    }
}

/// The plain run of a job, of at most so many steps.
fn run_job(
    alloc: Global,
    res: &Resolved,
    options: &Options,
    job: WholeJob,
    budget: u64,
    world: &mut World,
) -> Result<PlainEnd, Refusal>
    requires resolved { IsResolved res.now options.now }
    requires whole { IsWholeJob res.now.files options.now job }
    ensures refused { IfErr result (λ r. r ≡ Refusal.Memory) }
    ensures end { IfOk result
        (IsPlainEnd res.now.files options.now budget world.old world.new) }
{
    let WholeJob {
        plan,
        calls,
        settled,
        folds,
        pairs,
        loaded,
    } = job;
    text_is_placed(res, &plan, calls.as_slice(), &settled);
    tests_are_the_table();
    let mut plain = Plain::start(alloc, &*res, &plan, &calls, &folds, &pairs, loaded.data)?;
    let outcome = plain.run(budget, world);
    if let PlainOutcome::Memory = outcome {
        return Err(Refusal::Memory);
    }
    let SectionId { file, section } = section_left(res, outcome);
    Ok(PlainEnd {
        outcome,
        events: plain.into_events(),
        file,
        section,
    })
}

/// Runs files without linking them, in a world, by at most so many steps. They are refused exactly as a link of them is. Else it is their
/// plain run: from the global entry point of what the entry's name stands for, with code addresses that are places in their sections (ELFv2
/// ABI, "Process Initialization" and "Function Call").
pub fn plain_of<L: Ledger>(
    alloc: Global,
    files: &[FileBytes],
    options: &Options,
    budget: u64,
    world: &mut World,
    steps: &mut Steps<L>,
) -> Result<PlainEnd, Refusal>
    requires some { 1 ≤ length files.now }
    requires few { length files.now ≤ 4096 }
    requires range { InRange options.now }
    ensures refused { IfErr result (λ r.
        (r ≡ Refusal.Memory) ⊎ LinksTo (contents_of files.now) options.now (Err r)) }
    ensures end { IfOk result (IsPlainEnd (contents_of files.now) options.now budget
        world.old world.new) }
    ensures steps { steps.new
        ≤ steps.old + placement_limit (contents_of files.now) options.now }
{
    let set = ObjectSet::take(alloc, files)?;
    let res = resolve(alloc, &set, options.entry.as_str().as_bytes())?;
    let job = whole_job(alloc, &res, options, steps)?;
    run_job(alloc, &res, options, job, budget, world)
}
