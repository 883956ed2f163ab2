// The files of a job are run without an image, and their calls and their end are printed.
ghost use Rattle.std.specs.Prelude.{◌≡◌, ◌≤◌, ◌+◌, ◌++◌, length, Some, IfOk};
ghost use Rattle.object_set.specs.Files.{contents_of};
ghost use Rattle.link_engine.specs.Link.{placement_limit};
ghost use Rattle.link_engine.specs.Options.{InRange};
ghost use Rattle.ppc_archive.specs.Expand.{named_files};
ghost use Rattle.ppclink.specs.Jobs.{names_of_files};
ghost use Rattle.ppclink.specs.Lines.{name_in, offset_text};
ghost use Rattle.ppclink.specs.Requests.{check_job, texts};
ghost use Rattle.ppclink.specs.Statuses.{CountsFor, CountsOver};
ghost use Rattle.ppclink.specs.inside.Commands.{link_options, run_options, CanLink};
ghost use Rattle.ppclink.specs.inside.Fetched.{HaveRead};
ghost use Rattle.ppclink.specs.inside.Reports.{Causes, TextReport, SaysPlain, SaysCheck, SaysPlainEnd};

use crate::fetching::fetch_files;
use crate::inputs::fetch_input;
use crate::jobs::{job_of, options_of};
use crate::lines::{file_name_at, job_line, joined, offset_text};
use crate::report::{Report, text_report, unfetched_report};
use crate::run_text::{RunText, event_lines, push_budget, push_exit, push_left};
use crate::words::{LinkOptions, RunOptions};
use link_engine::{FileBytes, Options, PlainEnd, Steps, plain_of};
use plain_run::PlainOutcome;
use power_machine::World;
use ppc_bytes::Memory;
use ppc_outside::Store;
use std::alloc::Global;
use std::sync::ledger::Ledger;

// An offset in the section of a job's files where a run left.
fn code_place_text(
    alloc: Global,
    job: &[FileBytes],
    end: &PlainEnd,
    offset: u64,
) -> Result<Vec<u8>, Memory>
    ensures { IfOk result (λ text. text.items
        ≡ name_in (names_of_files job.now) end.now.file ++ offset_text end.now.section offset) }
{
    let place = offset_text(alloc, end.section, offset)?;
    joined(alloc, file_name_at(job, end.file), &place)
}

// What is printed of a plain run.
fn plain_text(alloc: Global, job: &[FileBytes], end: &PlainEnd) -> Result<RunText, Memory>
    ensures { IfOk result (λ r. SaysPlainEnd (name_in (names_of_files job.now) end.now.file)
        end.now.section end.now.events.items end.now.outcome r.status r.text.items) }
{
    let mut text = event_lines(alloc, end.events.as_slice())?;
    match end.outcome {
        PlainOutcome::Exited(status) => {
            push_exit(alloc, &mut text, status)?;
            Ok(RunText { status: 0, text })
        }
        PlainOutcome::Left(reason, _, offset) => {
            let place = code_place_text(alloc, job, end, offset)?;
            push_left(&mut text, reason, &place)?;
            Ok(RunText { status: 6, text })
        }
        PlainOutcome::Budget => {
            push_budget(&mut text)?;
            Ok(RunText { status: 7, text })
        }
        PlainOutcome::Memory => Err(Memory),
    }
}

// Runs the files of a job, in a world with this input.
fn check_job<L: Ledger>(
    alloc: Global,
    options: &Options,
    job: &[FileBytes],
    budget: u32,
    input: Vec<u8>,
    steps: &mut Steps<L>,
) -> Report
    requires some { 1 ≤ length job.now }
    requires few { length job.now ≤ 4096 }
    requires range { InRange options.now }
    ensures report { TextReport (SaysPlain options.now budget input.items (named_files job.now))
        result }
    ensures steps { steps.new
        ≤ steps.old + placement_limit (contents_of job.now) options.now }
{
    let mut world = World::new(input, Vec::new(alloc));
    match plain_of(alloc, job, options, u64::from(budget), &mut world, steps) {
        Ok(end) => match plain_text(alloc, job, &end) {
            Ok(RunText { status, text }) => Report::Text { status, text },
            Err(Memory) => Report::NoMemory,
        },
        Err(refusal) => text_report(1, job_line(alloc, job, &refusal)),
    }
}

// Runs files that were fetched.
fn check_fetched<L: Ledger>(
    alloc: Global,
    options: LinkOptions<'_>,
    files: Vec<FileBytes>,
    budget: u32,
    input: Vec<u8>,
    steps: &mut Steps<L>,
) -> Report
    requires range { InRange (link_options options) }
    requires few { length files.items ≤ 4096 }
    ensures report { TextReport (SaysCheck (link_options options.entry) budget input.items
        (names_of_files files.items) (contents_of files.items)) result }
    ensures steps { CountsFor (link_options options.entry) (names_of_files files.items)
        (contents_of files.items) steps.old steps.new }
{
    let Ok(options) = options_of(alloc, options) else {
        return Report::NoMemory;
    };
    match job_of(alloc, &options, files) {
        Ok(job) => check_job(alloc, &options, job.as_slice(), budget, input, steps),
        Err(report) => report,
    }
}

// Fetches the input, if there is one, and runs the files.
fn check_with_input<S: Store, L: Ledger>(
    alloc: Global,
    options: LinkOptions<'_>,
    run: RunOptions<'_>,
    files: Vec<FileBytes>,
    store: &mut S,
    steps: &mut Steps<L>,
) -> Report
    requires range { InRange (link_options options) }
    requires few { length files.items ≤ 4096 }
    requires read { HaveRead (S.state store.old).told (names_of_files files.items)
        (contents_of files.items) }
    ensures causes { Causes (S.state store.old) (S.state store.new)
        (Some (check_job (link_options options.entry) (run_options run.entry)
        (names_of_files files.items))) result }
    ensures steps { CountsOver (S.state store.old).told (link_options options.entry)
        (names_of_files files.items) steps.old steps.new }
{
    match fetch_input(alloc, run.input, store) {
        Ok(input) => check_fetched(alloc, options, files, run.budget, input, steps),
        Err(report) => report,
    }
}

/// Runs the named files without an image, in a world with the input of the file that the options name, or with none.
pub fn perform_check<S: Store, L: Ledger>(
    alloc: Global,
    options: LinkOptions<'_>,
    run: RunOptions<'_>,
    names: &[String],
    store: &mut S,
    steps: &mut Steps<L>,
) -> Report
    requires allowed { CanLink (link_options options) (length names.now) }
    ensures causes { Causes (S.state store.old) (S.state store.new)
        (Some (check_job (link_options options.entry) (run_options run.entry) (texts names.now)))
        result }
    ensures steps { CountsOver (S.state store.old).told (link_options options.entry)
        (texts names.now) steps.old steps.new }
{
    match fetch_files(alloc, names, store) {
        Ok(files) => check_with_input(alloc, options, run, files, store, steps),
        Err(cause) => unfetched_report(alloc, names, cause),
    }
}
