// Relocations of little-endian 64-bit Power: which kinds there are, the value of each, the range that its field holds, and how
// the value is put into the field (ELFv2 ABI, "Relocation Types"). All of it follows one table, in specs/Table.antt.
#![tactic(auto)]

mod field;
mod kind;
mod laws;
mod range;
mod value;

pub use field::fill;
pub use kind::{Kind, kind_of, width};
pub use laws::{
    displacement_is_joined, fills_alike, fills_as_a_number, high_and_low_are_joined, small_numbers,
};
pub use range::{Overflow, check};
pub use value::value_of;

#[cfg(test)]
mod tests;
