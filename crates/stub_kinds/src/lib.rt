// Stubs: the few instructions between a call and a callee that the call's own branch doesn't serve, by their sizes and their
// words (ELFv2 ABI, "Function Call"). Which call needs which class of stub is decided elsewhere.
#![tactic(auto)]

mod class;
mod laws;
mod words;

pub use class::{Class, Key, size};
pub use laws::{sizes_are_few_and_grow, words_are_within_the_size};
pub use words::stub_words;

#[cfg(test)]
mod tests;
