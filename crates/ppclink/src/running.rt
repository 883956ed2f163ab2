// An executable is run on the machine of numbers, and its calls and its end are printed.
ghost use Rattle.std.specs.Prelude.{◌≡◌, ◌≢◌, Some, None, IfOk, OnOk};
ghost use Rattle.std.specs.Option.{option_map};
ghost use Rattle.elf64_exec.specs.Executable.{ArePlaced};
ghost use Rattle.ppclink.specs.Requests.{run_image};
ghost use Rattle.ppclink.specs.Runs.{exec_line, too_long, image_limit};
ghost use Rattle.ppclink.specs.inside.Commands.{run_options};
ghost use Rattle.ppclink.specs.inside.Fetched.{HasRead};
ghost use Rattle.ppclink.specs.inside.Reports.{Causes, TextReport, RunSays, SaysRun, SaysEnd};

use crate::fetching::fetch;
use crate::inputs::fetch_input;
use crate::lines::{about, numbered, too_long_line};
use crate::report::{Report, text_report, unread_report};
use crate::run_text::{RunText, event_lines, push_budget, push_exit, push_left};
use crate::words::RunOptions;
use elf64_exec::{ExecFault, Segments, read_exec};
use power_machine::{Event, Machine, Outcome, World};
use ppc_bytes::Memory;
use ppc_outside::Store;
use std::alloc::Global;

/// How many bytes an executable may have.
const IMAGE_LIMIT: usize = 0x6000_0000;

// The line for a file that isn't an executable. That memory was refused has no line, and is an error here too.
fn exec_line(alloc: Global, name: &str, fault: ExecFault) -> Result<Vec<u8>, Memory>
    ensures line { IfOk result (λ text. text.items ≡ exec_line name.now fault) }
    ensures stated { OnOk result (fault ≢ ExecFault.Memory) }
{
    let name = name.as_bytes();
    match fault {
        ExecFault::NotElf | ExecFault::NotExec => about(alloc, name, b"", b"not an executable"),
        ExecFault::BadSegment(i) => {
            let place = numbered(alloc, b" segment ", i)?;
            about(alloc, name, &place, b"bad segment")
        }
        ExecFault::Memory => Err(Memory),
    }
}

// What is printed of a run, from its calls and its end.
fn run_text(alloc: Global, events: &[Event], outcome: Outcome) -> Result<RunText, Memory>
    ensures { IfOk result (λ r. SaysEnd events.now outcome r.status r.text.items) }
{
    let mut text = event_lines(alloc, events)?;
    match outcome {
        Outcome::Exited(status) => {
            push_exit(alloc, &mut text, status)?;
            Ok(RunText { status: 0, text })
        }
        Outcome::Left(reason, at) => {
            let place = format!(in alloc; "0x{at:x}")?;
            push_left(&mut text, reason, place.as_bytes())?;
            Ok(RunText { status: 6, text })
        }
        Outcome::Budget => {
            push_budget(&mut text)?;
            Ok(RunText { status: 7, text })
        }
        Outcome::Memory => Err(Memory),
    }
}

// Runs a program from its start.
fn run_program(
    alloc: Global,
    segments: Segments,
    input: Vec<u8>,
    budget: u32,
) -> Result<RunText, Memory>
    requires { ArePlaced segments.list.items }
    ensures { IfOk result (λ r.
        RunSays segments.entry segments.list.items input.items budget r.status r.text.items) }
{
    let mut machine = Machine::load(alloc, segments)?;
    let mut world = World::new(input, Vec::new(alloc));
    let outcome = machine.run(u64::from(budget), &mut world);
    run_text(alloc, machine.events().as_slice(), outcome)
}

// Reads an executable and runs it.
fn execute(alloc: Global, name: &str, file: Vec<u8>, input: Vec<u8>, budget: u32) -> Report
    ensures { TextReport (SaysRun name.now file.items input.items budget None) result }
{
    let read = read_exec(alloc, file.as_slice());
    drop(file);
    let segments = match read {
        Ok(segments) => segments,
        Err(fault) => return text_report(1, exec_line(alloc, name, fault)),
    };
    match run_program(alloc, segments, input, budget) {
        Ok(RunText { status, text }) => Report::Text { status, text },
        Err(Memory) => Report::NoMemory,
    }
}

// Runs an executable that was fetched, with its input.
fn run_fetched(alloc: Global, image: &str, file: Vec<u8>, given: Vec<u8>, budget: u32) -> Report
    ensures { TextReport (SaysRun image.now file.items given.items budget
        (too_long image_limit image.now file.items)) result }
{
    if file.len() > IMAGE_LIMIT {
        return text_report(1, too_long_line(alloc, image));
    }
    execute(alloc, image, file, given, budget)
}

// Fetches the input, if there is one, and runs.
fn run_with_input<S: Store>(
    alloc: Global,
    options: RunOptions<'_>,
    image: &str,
    file: Vec<u8>,
    store: &mut S,
) -> Report
    requires { HasRead (S.state store.old).told image_limit image.now file.items }
    ensures { Causes (S.state store.old) (S.state store.new)
        (Some (run_image (run_options options.entry) image.now)) result }
{
    match fetch_input(alloc, options.input, store) {
        Ok(given) => run_fetched(alloc, image, file, given, options.budget),
        Err(report) => report,
    }
}

/// Runs the named executable, in a world with the input of the file that the options name, or with none.
pub fn perform_run<S: Store>(
    alloc: Global,
    options: RunOptions<'_>,
    image: &str,
    store: &mut S,
) -> Report
    ensures { Causes (S.state store.old) (S.state store.new)
        (Some (run_image (run_options options.entry) image.now)) result }
{
    match fetch(alloc, image, IMAGE_LIMIT, store) {
        Ok(file) => run_with_input(alloc, options, image, file, store),
        Err(error) => unread_report(alloc, image, error),
    }
}
