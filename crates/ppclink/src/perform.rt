// What the command does over the files, before it prints.
ghost use Rattle.std.specs.Prelude.{◌≡◌, ◌≤◌, ◌+◌, length, Some, None, IfOk, IfErr, OnOk, string_bytes};
ghost use Rattle.object_set.specs.Files.{contents_of};
ghost use Rattle.link_engine.specs.Link.{placement_limit};
ghost use Rattle.link_engine.specs.Options.{InRange};
ghost use Rattle.ppc_archive.specs.Expand.{named_files};
ghost use Rattle.ppclink.specs.Jobs.{names_of_files};
ghost use Rattle.ppclink.specs.Requests.{request_of, texts, link_to, show_file};
ghost use Rattle.ppclink.specs.Responses.{view_refusal};
ghost use Rattle.ppclink.specs.Statuses.{CountsOver, Ticks};
ghost use Rattle.ppclink.specs.inside.Commands.{link_options, CanLink};
ghost use Rattle.ppclink.specs.inside.Fetched.{HaveRead};
ghost use Rattle.ppclink.specs.inside.Reports.{Causes, JobReport, ReplaceReport, TextReport, ShowsFile};

use crate::checking::perform_check;
use crate::fetching::fetch;
use crate::jobs::perform_link;
use crate::lines::{refusal_line, usage_line};
use crate::report::{Report, text_report, unread_report};
use crate::running::perform_run;
use crate::show::shown;
use crate::words::{Command, parse};
use elf64_records::{FILE_LIMIT, ObjectView};
use link_engine::{Refusal, Steps};
use object_set::refusal_of;
use ppc_outside::Store;
use std::alloc::Global;
use std::slice;
use std::sync::ledger::Ledger;

// The view of a file's bytes, or why it can't be shown.
#[tactic(auto, unfolding(object_set::specs::Refusals::fault_refusal))]
fn view_of(b: &[u8]) -> Result<ObjectView<'_>, Refusal>
    ensures refused { IfErr result (λ r. view_refusal b.now ≡ Some r) }
    ensures found { OnOk result (view_refusal b.now ≡ None) }
    ensures view { IfOk result (λ v. v ≡ b.now) }
{
    if b.len() > FILE_LIMIT {
        return Err(Refusal::FileTooLong(0));
    }
    match ObjectView::read(b) {
        Ok(view) => Ok(view),
        Err(fault) => Err(refusal_of(0, fault)),
    }
}

// The text of an object file, or the line of what is wrong with it.
fn show_fetched(alloc: Global, name: &String, b: &[u8]) -> Report
    ensures { TextReport (ShowsFile (string_bytes name.now) b.now) result }
{
    match view_of(b) {
        Ok(view) => text_report(0, shown(alloc, &view)),
        Err(refusal) => text_report(1, refusal_line(alloc, slice::from_ref(name), &refusal)),
    }
}

// Shows the named file.
fn perform_show<S: Store>(alloc: Global, name: &String, store: &mut S) -> Report
    ensures { Causes (S.state store.old) (S.state store.new)
        (Some (show_file (string_bytes name.now))) result }
{
    match fetch(alloc, name.as_str(), FILE_LIMIT, store) {
        Ok(bytes) => show_fetched(alloc, name, bytes.as_slice()),
        Err(error) => unread_report(alloc, name.as_str(), error),
    }
}

/// Does what the words say, all but the printing.
pub fn perform<S: Store, L: Ledger>(
    alloc: Global,
    words: &[String],
    store: &mut S,
    steps: &mut Steps<L>,
) -> Report
    ensures causes { Causes (S.state store.old) (S.state store.new)
        (request_of (texts words.now)) result }
    ensures untouched { request_of (texts words.now) ≡ None →
        S.state store.new ≡ S.state store.old }
    ensures steps { Ticks (S.state store.old) (request_of (texts words.now)) steps.old steps.new }
{
    match parse(words) {
        Some(
            Command::Link {
                out,
                options,
                files,
            },
        ) => perform_link(alloc, out, options, files, store, steps),
        Some(Command::Show { file }) => perform_show(alloc, file, store),
        Some(
            Command::Check {
                options,
                run,
                files,
            },
        ) => perform_check(alloc, options, run, files, store, steps),
        Some(Command::Run { options, image }) => perform_run(alloc, options, image, store),
        None => text_report(2, usage_line(alloc)),
    }
}
