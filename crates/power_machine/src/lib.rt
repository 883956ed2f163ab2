// A machine that runs static executables for little-endian 64-bit Power (Power ISA 3.1, books I and III; ELFv2 ABI for the start):
// registers, memory, fetches, operations and four system calls, in a world that answers reads and writes.
#![tactic(auto)]

mod bytes;
mod calls;
mod code;
mod laws;
mod loading;
mod machine;
mod memory;
mod pages;
mod reason;
mod state;
mod world;

pub use laws::{
    ended_stays_ended, events_only_grow, leaves_change_nothing, loads_move_before,
    operations_keep_the_rest, runs_are_one, steps_are_one, steps_are_runs, stores_move_before,
};
pub use machine::{Machine, Outcome, StepOutcome};
pub use memory::{AddressSpace, Purpose, Stored, size_of};
pub use reason::Reason;
pub use world::{Answer, Event, World};

#[cfg(test)]
mod call_tests;
#[cfg(test)]
mod insn_tests;
#[cfg(test)]
mod page_tests;
#[cfg(test)]
mod test_programs;
#[cfg(test)]
mod tests;
