// The instructions of a single word, little-endian 64-bit Power (Power ISA 3.1): the words of a subset of fixed-point, branch,
// load, store and system call instructions, both ways, and what each instruction does, as an operation.
#![tactic(auto)]

pub mod compute;
pub mod decoding;
pub mod encoding;
mod extended;
pub mod forms;
pub mod instruction;
pub mod meaning;
#[cfg(test)]
mod meaning_tests;
pub mod plan;
pub mod uses;
pub mod words;
#[cfg(test)]
mod words_tests;

pub use decoding::decode;
pub use encoding::encode;
pub use forms::Form;
pub use instruction::Insn;
pub use uses::{Access, memory, reads, writes};
