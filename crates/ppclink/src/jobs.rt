// The files of a job, in which libraries are replaced by their chosen members, and their link.
ghost use Rattle.std.specs.Prelude.{◌≡◌, ◌≤◌, ◌+◌, length, Some, IfOk, IfErr};
ghost use Rattle.object_set.specs.Files.{contents_of};
ghost use Rattle.link_engine.specs.Link.{placement_limit};
ghost use Rattle.link_engine.specs.Options.{InRange};
ghost use Rattle.ppc_archive.specs.Expand.{IsJob, named_files};
ghost use Rattle.ppclink.specs.Jobs.{names_of_files};
ghost use Rattle.ppclink.specs.Requests.{texts, link_to};
ghost use Rattle.ppclink.specs.Statuses.{CountsOver};
ghost use Rattle.ppclink.specs.inside.Commands.{link_options, CanLink};
ghost use Rattle.ppclink.specs.inside.Fetched.{HaveRead};
ghost use Rattle.ppclink.specs.inside.Reports.{Causes, JobReport, ReplaceReport, SaysFault, TextReport};

use crate::fetching::fetch_files;
use crate::lines::{fault_line, job_line};
use crate::report::{Report, text_report, unfetched_report};
use crate::words::LinkOptions;
use link_engine::{FileBytes, Options, Steps, link};
use ppc_archive::{ChooseFault, choose};
use ppc_bytes::Memory;
use ppc_outside::{OutsideError, Store};
use std::alloc::Global;
use std::sync::ledger::Ledger;

/// The options as the link takes them.
pub fn options_of(alloc: Global, options: LinkOptions<'_>) -> Result<Options, Memory>
    ensures { IfOk result (λ o. o ≡ link_options options.entry) }
{
    Ok(Options {
        entry: String::from_str(alloc, options.entry)?,
        branch_span: options.branch_span,
        toc_span: options.toc_span,
    })
}

/// The job that fetched files come to, or what is to be reported where they come to none.
pub fn job_of(
    alloc: Global,
    options: &Options,
    files: Vec<FileBytes>,
) -> Result<Vec<FileBytes>, Report>
    requires few { length files.items ≤ 4096 }
    ensures job { IfOk result (λ job.
        IsJob (named_files files.items) options.now.entry (named_files job.items)) }
    ensures some { IfOk result (λ job. 1 ≤ length job.items) }
    ensures few { IfOk result (λ job. length job.items ≤ 4096) }
    ensures report { IfErr result
        (TextReport (SaysFault (named_files files.items) options.now.entry)) }
{
    match choose(alloc, files, options.entry.as_bytes()) {
        Ok(job) => Ok(job),
        Err(ChooseFault::Refused { name, refusal }) => {
            Err(text_report(1, fault_line(alloc, name.as_slice(), &refusal)))
        }
        Err(ChooseFault::Memory) => Err(Report::NoMemory),
    }
}

// The executable takes the place of the named file.
fn write_out<S: Store>(out: &str, image: &[u8], store: &mut S) -> Report
    ensures { ReplaceReport (S.state store.old) (S.state store.new) out.now image.now result }
{
    match store.replace(out, image) {
        Ok(()) => Report::Written,
        Err(OutsideError::Failed) => Report::Unwritten,
        Err(OutsideError::Memory) => Report::NoMemory,
    }
}

// Links the files of a job, and writes the executable.
fn link_job<S: Store, L: Ledger>(
    alloc: Global,
    out: &str,
    options: &Options,
    job: &[FileBytes],
    store: &mut S,
    steps: &mut Steps<L>,
) -> Report
    requires some { 1 ≤ length job.now }
    requires few { length job.now ≤ 4096 }
    requires range { InRange options.now }
    ensures report { JobReport (S.state store.old) (S.state store.new) out.now options.now
        (named_files job.now) result }
    ensures steps { steps.new
        ≤ steps.old + placement_limit (contents_of job.now) options.now }
{
    match link(alloc, job, options, steps) {
        Ok(linked) => write_out(out, linked.image.as_slice(), store),
        Err(refusal) => text_report(1, job_line(alloc, job, &refusal)),
    }
}

// Links files that were fetched, and writes the executable.
fn link_fetched<S: Store, L: Ledger>(
    alloc: Global,
    out: &str,
    options: LinkOptions<'_>,
    files: Vec<FileBytes>,
    store: &mut S,
    steps: &mut Steps<L>,
) -> Report
    requires range { InRange (link_options options) }
    requires few { length files.items ≤ 4096 }
    requires read { HaveRead (S.state store.old).told (names_of_files files.items)
        (contents_of files.items) }
    ensures causes { Causes (S.state store.old) (S.state store.new)
        (Some (link_to out.now (link_options options.entry) (names_of_files files.items))) result }
    ensures steps { CountsOver (S.state store.old).told (link_options options.entry)
        (names_of_files files.items) steps.old steps.new }
{
    let Ok(options) = options_of(alloc, options) else {
        return Report::NoMemory;
    };
    match job_of(alloc, &options, files) {
        Ok(job) => link_job(alloc, out, &options, job.as_slice(), store, steps),
        Err(report) => report,
    }
}

/// Links the named files.
pub fn perform_link<S: Store, L: Ledger>(
    alloc: Global,
    out: &str,
    options: LinkOptions<'_>,
    names: &[String],
    store: &mut S,
    steps: &mut Steps<L>,
) -> Report
    requires allowed { CanLink (link_options options) (length names.now) }
    ensures causes { Causes (S.state store.old) (S.state store.new)
        (Some (link_to out.now (link_options options.entry) (texts names.now))) result }
    ensures steps { CountsOver (S.state store.old).told (link_options options.entry)
        (texts names.now) steps.old steps.new }
{
    match fetch_files(alloc, names, store) {
        Ok(files) => link_fetched(alloc, out, options, files, store, steps),
        Err(cause) => unfetched_report(alloc, names, cause),
    }
}
