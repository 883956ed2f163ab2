// The start of the plain run of a job.
ghost use Rattle.std.specs.Prelude.{◌≡◌, IfOk, OnOk, fold};
ghost use Rattle.plain_machine.specs.Start.{held_state};
ghost use Rattle.plain_machine.specs.inside.Machine.{machine_state, machine_may, machine_sizes, machine_events, machine_ended};
ghost use Rattle.plain_run.specs.Data.{AreSomeSegments, entry_place};
ghost use Rattle.plain_run.specs.Places.{toc_ranges};
ghost use Rattle.plain_run.specs.Running.{IsPlainStart};
ghost use Rattle.plain_run.specs.Standing.{text_sizes};
ghost use Rattle.plain_run.specs.inside.Data.{IsSoundPlan, AreLow};
ghost use Rattle.plain_run.specs.inside.Starts.{IsMachineStart};
ghost use Rattle.plain_run.specs.Jobs.{PlainJob};
ghost use Rattle.plain_run.specs.inside.Text.{IsOfJob};

use crate::data::{data_pointers, toc_ranges};
use crate::plain::Plain;
use crate::text::PlainText;
use call_sites::{Sites, text_section};
use elf64_exec::Segment;
use object_set::SectionId;
use pcrel_rewrite::Pairs;
use plain_machine::{AddressRange, Kept, PlacedPointer, PlainMachine, Program, TextPlace};
use ppc_bytes::Memory;
use std::alloc::{AllocError, Global};
use symbol_table::Resolved;
use toc_groups::{DataPlan, data_segments_are_placed};
use toc_rewrite::Folds;

/// The sizes of the text sections.
fn text_sizes(alloc: Global, res: &Resolved) -> Result<Vec<u64>, AllocError>
    ensures { IfOk result (λ sizes. sizes.items ≡ text_sizes res.now.files) }
{
    let mut sizes = Vec::new(alloc);
    for number in 0..res.text_count() {
        let SectionId { file, section } = text_section(res, number);
        sizes.push(res.set().view(file).section_header(section).size)?;
    }
    Ok(sizes)
}

/// Puts what depends on where text lies into data.
fn hold_all(machine: &mut PlainMachine, pointers: &[PlacedPointer]) -> Result<(), Memory>
    requires { AreLow pointers.now }
    ensures state { OnOk result (machine_state machine.new ≡
        fold held_state (machine_state machine.old) pointers.now) }
    ensures may { machine_may machine.new ≡ machine_may machine.old }
    ensures sizes { machine_sizes machine.new ≡ machine_sizes machine.old }
    ensures events { machine_events machine.new ≡ machine_events machine.old }
    ensures ended { machine_ended machine.new ≡ machine_ended machine.old }
{
    for pointer in pointers {
        machine.hold(*pointer)?;
    }
    Ok(())
}

/// The program of a job with this table of contents.
fn program_of(alloc: Global, res: &Resolved, kept: Vec<AddressRange>) -> Result<Program, AllocError>
    ensures entry { IfOk result (λ program. program.entry ≡ entry_place res.now.entry) }
    ensures sizes { IfOk result (λ program. program.sizes.items ≡ text_sizes res.now.files) }
    ensures kept { IfOk result (λ program. program.kept.items ≡ kept.items) }
{
    let entry = res.entry();
    Ok(Program {
        entry: TextPlace {
            section: entry.section,
            offset: entry.offset,
        },
        sizes: text_sizes(alloc, res)?,
        kept,
    })
}

/// The machine at the start of a job with this table of contents, where data has these segments.
fn start_machine(
    alloc: Global,
    res: &Resolved,
    plan: &DataPlan,
    toc: Vec<AddressRange>,
    segments: Vec<Segment>,
) -> Result<PlainMachine, Memory>
    requires plan { IsSoundPlan res.now.files plan.now }
    requires toc { toc.items ≡ toc_ranges res.now.files plan.now.span }
    requires segments { AreSomeSegments res.now.files plan.now.span segments.items }
    ensures { IfOk result (IsMachineStart res.now.files plan.now.span res.now.entry segments.items) }
{
    data_segments_are_placed();
    let program = program_of(alloc, res, toc)?;
    let mut machine = PlainMachine::start(alloc, program, segments)?;
    hold_all(&mut machine, &data_pointers(alloc, res, plan)?)?;
    Ok(machine)
}

impl<'p, 'a, 'b> Plain<'p, 'a, 'b> {
    /// A job at the start of its plain run, where its data has these segments wherever text lies.
    pub fn start(
        alloc: Global,
        res: &'p Resolved<'a, 'b>,
        plan: &'p DataPlan,
        sites: &'p Sites,
        folds: &'p Folds,
        pairs: &'p Pairs,
        segments: Vec<Segment>,
    ) -> Result<Plain<'p, 'a, 'b>, Memory>
        requires job { IsOfJob (record {
          files = res.now.files;
          plan = plan.now;
          pairs = pairs.now;
        }) sites.now folds.now }
        requires segments { AreSomeSegments res.now.files plan.now.span segments.items }
        ensures { let job : PlainJob = record {
          files = res.now.files;
          plan = plan.now;
          pairs = pairs.now;
        } in
            IfOk result (IsPlainStart job res.now.entry segments.items) }
    {
        let ranges = toc_ranges(alloc, res, plan)?;
        let kept = Vec::from_slice(alloc, &ranges)?;
        let machine = start_machine(alloc, res, plan, kept, segments)?;
        let toc = Kept::of_ranges(alloc, ranges)?;
        let text = PlainText::of_job(alloc, res, plan, sites, folds, pairs, toc)?;
        Ok(Plain { text, machine })
    }
}
