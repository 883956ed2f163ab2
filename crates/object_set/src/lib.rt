// The object files of a link, and what sort each of their sections is of: sections and symbols that a link can take, as the ELF64
// object file format ("Section Header", "Symbol Table") and the ELFv2 ABI (3.2 "Special Sections", "Symbol Table") have them. A
// set is made of files that are all whole; else the first thing that is wrong is said.
#![tactic(auto)]

mod files;
mod places;
mod refusal;
mod sections;
mod set;
mod sort;
mod symbol_readers;
mod symbols;
mod taken;
mod walk;

pub use files::FileBytes;
pub use places::{RecordId, SectionId, SymbolId};
pub use refusal::{Refusal, Site};
pub use set::{ObjectSet, fit_view, refusal_of, whole_view};
pub use sort::Sort;
pub use walk::{RecordIds, SectionIds, SymbolIds};

#[cfg(test)]
mod tests;
