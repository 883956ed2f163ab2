// The machine in its world.
ghost use Rattle.std.specs.Prelude.{◌≡◌, ◌<◌, ◌+◌, ◌%◌, ◌||◌, ◌==◌, ℕ, List, Some, None, IfOk, true, false};
ghost use Rattle.power_insns.specs.Operations.{IsWellNamed};
ghost use Rattle.power_machine.specs.Codes.{IsNext};
ghost use Rattle.power_machine.specs.Numbers.{numbers, core_ranges, state_of};
ghost use Rattle.power_machine.specs.Steps.{run_of, machine_may, machine_ranges, Made, Performs, RunAnswers};
ghost use Rattle.power_machine.specs.Pages.{PagesAfter, RunKeeps, StepKeeps, kept_pages, stored_by_operation};
ghost use Rattle.power_machine.specs.Runs.{operates, is_call};

use crate::code::{Code, code_at};
use crate::reason::Reason;
use crate::state::{Core, CoreOutcome};
use crate::world::{Event, World};
use power_insns::meaning::Operation;
use power_insns::plan::plan_for;
use prefixed_insns::plan_for_pair;
use std::alloc::Global;

/// A machine of numbers, with the calls that it has made and, where it has ended, its status.
#[derive(Drop)]
pub struct Machine {
    pub(crate) alloc: Global,
    pub(crate) core: Core,
    pub(crate) events: Vec<Event>,
    pub(crate) ended: Option<u8>,
}

/// What a step came to.
#[derive(Clone, Copy, Debug, PartialEq, Eq)]
pub enum StepOutcome {
    /// The instruction was run.
    Went,

    /// The run has ended, with this status.
    Ended(u8),

    /// The step can't be made, for this reason, at this address. Nothing has changed.
    Left(Reason, u64),

    /// Memory was refused. Nothing has changed.
    Memory,
}

/// What a run came to.
#[derive(Clone, Copy, Debug, PartialEq, Eq)]
pub enum Outcome {
    /// The run has ended, with this status.
    Exited(u8),

    /// A step couldn't be made, for this reason, at this address. All is as the steps before it left it.
    Left(Reason, u64),

    /// All steps were made and the run goes on.
    Budget,

    /// Memory was refused at a step. All is as the steps before it left it.
    Memory,
}

// Whether an operation is a call of the system.
fn is_system(operation: &Operation) -> bool
    ensures { result ≡ is_call operation.now }
{
    matches!(operation, Operation::System)
}

impl Machine {
    /// The calls that were made, in order.
    pub fn events(&self) -> &Vec<Event>
        ensures { result.now ≡ self.now.events }
    {
        &self.events
    }

    /// Whether a page is kept: page p has the addresses from `p * 0x1000` to `p * 0x1000 + 0x1000`. One that isn't kept holds zeros and has
    /// no bytes.
    pub fn page_kept(&self, page: u64) -> bool
        ensures { result ≡ kept_pages self.now page }
    {
        self.core.memory.keeps_page(page)
    }

    // An operation, of an instruction of so many bytes.
    fn operate(&mut self, size: u64, operation: &Operation, world: &mut World) -> StepOutcome
        requires names { IsWellNamed operation.now }
        requires going { self.old.ended ≡ None }
        ensures performs { let r = run_of self.old world.old in
            Performs (operates numbers (machine_may self.old) r size operation.now) r
            (run_of self.new world.new) result }
        ensures ranges { machine_ranges self.new ≡ machine_ranges self.old }
        ensures pages { PagesAfter (stored_by_operation (run_of self.old world.old) operation.now)
            (kept_pages self.old) (kept_pages self.new) result }
    {
        if is_system(operation) {
            return self.call(world);
        }
        let at = self.core.at;
        match self.core.act(size, operation) {
            CoreOutcome::Went => StepOutcome::Went,
            CoreOutcome::Left(reason) => StepOutcome::Left(reason, at),
            CoreOutcome::Memory => StepOutcome::Memory,
        }
    }

    /// One step. After the end it answers Ended again, and nothing changes.
    pub fn step(&mut self, world: &mut World) -> StepOutcome
        ensures made { Made (machine_ranges self.old) (run_of self.old world.old)
            (run_of self.new world.new) result }
        ensures ranges { machine_ranges self.new ≡ machine_ranges self.old }
        ensures pages { StepKeeps (machine_ranges self.old) (run_of self.old world.old)
            (kept_pages self.old) (kept_pages self.new) result }
    {
        if let Some(status) = self.ended {
            return StepOutcome::Ended(status);
        }
        match code_at(&self.core.memory, self.core.at) {
            Code::Unfetched => StepOutcome::Left(Reason::Fetch, self.core.at),
            Code::Unknown => StepOutcome::Left(Reason::Word, self.core.at),
            Code::OneWord(insn) => self.operate(4, &plan_for(&insn), world),
            Code::TwoWords(insn) => self.operate(8, &plan_for_pair(&insn), world),
        }
    }

    /// At most so many steps. After the end it answers Exited again, and nothing changes.
    pub fn run(&mut self, budget: u64, world: &mut World) -> Outcome
        ensures answers { RunAnswers (machine_ranges self.old) budget
            (run_of self.old world.old) (run_of self.new world.new) result }
        ensures ranges { machine_ranges self.new ≡ machine_ranges self.old }
        ensures pages { RunKeeps (machine_ranges self.old) budget (run_of self.old world.old)
            (run_of self.new world.new) (kept_pages self.old) (kept_pages self.new) result }
    {
        if let Some(status) = self.ended {
            return Outcome::Exited(status);
        }
        for _ in 0..budget {
            match self.step(world) {
                StepOutcome::Went => {}
                StepOutcome::Ended(status) => return Outcome::Exited(status),
                StepOutcome::Left(reason, at) => return Outcome::Left(reason, at),
                StepOutcome::Memory => return Outcome::Memory,
            }
        }
        Outcome::Budget
    }
}
