// The instructions of two words, little-endian 64-bit Power (Power ISA 3.1, book I, "Instruction Formats"): the
// prefixed loads and stores and `paddi`, their words, both ways, and what each of them does, as an operation.
#![tactic(auto)]

pub mod decoding;
pub mod encoding;
pub mod instruction;
pub mod laws;
pub mod plan;
pub mod short_forms;
#[cfg(test)]
mod tests;

pub use decoding::decode_pair;
pub use encoding::encode_pair;
pub use instruction::{PInsn, POp};
pub use plan::plan_for_pair;
pub use short_forms::{ShortForm, as_prefixed, short_form};
