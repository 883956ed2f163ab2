// The rewriting of loads from the table of contents (ELFv2 ABI, 3.3 "TOC"): which slots are foldable, so that a load from one may make
// the address that the slot holds, and which words the rewriting gives.
#![tactic(auto)]

mod asked;
mod folds;
mod found;
mod laid;
mod laws;
mod loads;
mod orderly;
mod records;
mod uses;
mod words;

pub use folds::{Folds, foldable};
pub use found::Slot;
pub use laws::{halves_reach, rewritten_words_may_be, slots_are_only_loaded};
pub use loads::{TocRecord, is_toc_load};
pub use words::{ADDI, ADDIS, base_register, fold_word, only_loads, suits, target_register};

#[cfg(test)]
mod tests;
