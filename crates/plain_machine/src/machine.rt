// The machine of places in its world, and its steps.
ghost use Rattle.std.specs.Prelude.{◌≡◌, ◌≢◌, ◌<◌, ℕ, Some, None};
ghost use Rattle.power_insns.specs.Operations.{IsWellNamed};
ghost use Rattle.power_machine.specs.Machines.{Went};
ghost use Rattle.power_machine.specs.Runs.{next_of, operates};
ghost use Rattle.plain_machine.specs.inside.Core.{domain_of, plain_state, core_may};
ghost use Rattle.plain_machine.specs.inside.Machine.{run_of, machine_may, Performs, Stays};

use crate::place::TextPlace;
use crate::state::PlainCore;
use power_machine::{Event, Reason};
use std::alloc::Global;

/// The machine, with the calls that it has made and, where it has ended, its status.
#[derive(Drop)]
pub struct PlainMachine {
    pub(crate) alloc: Global,
    pub(crate) core: PlainCore,
    pub(crate) events: Vec<Event>,
    pub(crate) ended: Option<u8>,
}

/// What a step came to.
#[derive(Clone, Copy)]
pub enum Performed {
    /// It was made.
    Went,

    /// The run has ended, with this status.
    Ended(u8),

    /// It can't be made, for this reason. Nothing has changed.
    Left(Reason),

    /// Memory was refused. Nothing has changed.
    Memory,
}

impl PlainMachine {
    /// The calls that were made, in order.
    pub fn events(&self) -> &Vec<Event>
        ensures { result.now ≡ self.now.events }
    {
        &self.events
    }

    /// The same, of a machine that makes no more.
    pub fn into_events(self) -> Vec<Event>
        ensures { result ≡ self.events }
    {
        self.events
    }

    /// The status with which the run has ended, if it has.
    pub fn ended(&self) -> Option<u8>
        ensures { result ≡ self.now.ended }
    {
        self.ended
    }

    /// The place of the next instruction.
    pub fn place(&self) -> TextPlace
        ensures { result ≡ self.now.core.at }
    {
        self.core.at
    }
}
