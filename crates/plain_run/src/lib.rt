// The plain run: the objects of a job run without an image. A code address is a place, a call with a relocation record is one step, each
// address comes from its record or its slot, and nothing is rewritten (ELFv2 ABI, "Function Call", "TOC Pointer Usage" and "Relocation
// Types").
#![tactic(auto)]

mod actions;
mod data;
mod effects;
mod fields;
mod marks;
mod plain;
mod role;
mod roles;
mod run;
mod standing;
mod start;
mod text;

pub use plain::{Plain, PlainOutcome, PlainStep};
pub use role::FieldRole;
pub use standing::Standing;

#[cfg(test)]
mod tests;
