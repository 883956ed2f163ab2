// A job at a step of its plain run, and what steps and runs come to.
ghost use Rattle.std.specs.Prelude.{◌≡◌};
ghost use Rattle.plain_machine.specs.inside.Machine.{machine_sizes, machine_events};
ghost use Rattle.plain_run.specs.Standing.{text_sizes};

use crate::text::PlainText;
use plain_machine::PlainMachine;
use power_machine::{Event, Reason};

/// A job at a step of its plain run.
#[derive(Drop)]
pub struct Plain<'p, 'a, 'b> {
    pub(crate) text: PlainText<'p, 'a, 'b>,
    pub(crate) machine: PlainMachine,
    ghost sizes_are: { machine_sizes machine ≡ text_sizes text.files },
}

/// What a step came to. A leave tells the place, by the number of its text section and its offset there.
#[derive(Clone, Copy, Debug, PartialEq, Eq)]
pub enum PlainStep {
    /// It was made.
    Went,

    /// The run has ended, with this status.
    Ended(u8),

    /// It can't be made, for this reason, at this place. Nothing has changed.
    Left(Reason, u32, u64),

    /// Memory was refused. Nothing has changed.
    Memory,
}

/// What a run came to.
#[derive(Clone, Copy, Debug, PartialEq, Eq)]
pub enum PlainOutcome {
    /// The run has ended, with this status.
    Exited(u8),

    /// A step couldn't be made, for this reason, at this place. All is as the steps before it left it.
    Left(Reason, u32, u64),

    /// All steps were made and the run goes on.
    Budget,

    /// Memory was refused at a step. All is as the steps before it left it.
    Memory,
}

impl<'p, 'a, 'b> Plain<'p, 'a, 'b> {
    /// The calls that were made, in order.
    pub fn events(&self) -> &Vec<Event>
        ensures { result.now.items ≡ machine_events self.now.machine }
    {
        self.machine.events()
    }

    /// The same, of a job that makes no more.
    pub fn into_events(self) -> Vec<Event>
        ensures { result.items ≡ machine_events self.entry.machine }
    {
        self.machine.into_events()
    }
}
