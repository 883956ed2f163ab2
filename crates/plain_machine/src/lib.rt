// A machine of places: it runs code whose addresses are places and not numbers, as objects have them before they are linked. What must not
// be known of an address is no value at all (ELFv2 ABI, "Function Call", "TOC Pointer Usage"; Power ISA 3.1, book I).
#![tactic(auto)]

mod action;
mod calls;
mod compute;
mod kept;
mod machine;
mod memory;
mod others;
mod perform;
mod place;
mod pointer;
mod same;
mod start;
mod state;
mod value;

pub use action::{Action, Effect, FullCall, Need};
pub use kept::{AddressRange, Kept};
pub use machine::{Performed, PlainMachine};
pub use place::TextPlace;
pub use pointer::{PlacedPointer, Pointer};
pub use start::Program;
pub use value::{Cell, Part, PartTarget, PlainValue};

#[cfg(test)]
mod tests;
