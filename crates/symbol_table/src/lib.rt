// What the names of the symbols of a link's files stand for (ELF64 object file format, "Symbol Table"; ELFv2 ABI, 3.4 "Symbol
// Table"), which place a relocation record goes to, and where the program is entered. Names are compared as bytes.
#![tactic(auto)]

mod branches;
mod candidates;
mod commons;
mod definition;
mod entry;
mod fields;
mod laws;
mod names;
mod ordered_fields;
mod places;
mod prologue;
mod records;
mod resolutions;
mod resolved;
mod role;
mod sites;
mod table;
mod target;
mod text;

pub use fields::{FileFields, RecordField, is_of_kind, kind_numbered};
pub use laws::{fields_are_apart, records_are_sound};
pub use places::FilePlace;
pub use prologue::{FormFacts, LOW_HIGH_HALF, PrologueForm, Prologues, is_half};
pub use resolved::{Resolved, resolve};
pub use target::{CodePlace, Piece, Target};

#[cfg(test)]
mod tests;
