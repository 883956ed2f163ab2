// Numbers in bytes, the lowest byte first, as every multi-byte number of a little-endian ELF64 file and of little-endian
// Power is stored; the identification that ELF files of this machine share; and the small numeric tests of linking.
#![tactic(auto)]

mod align;
mod bytes;
pub mod constants;
mod halves;
mod ident;
mod laws;
mod memory;
mod numbers;
mod steps;

pub use align::{align_up, fits_signed};
pub use bytes::Bytes;
pub use halves::{d0, d1, ha, hi, lo, low_bits};
pub use ident::{has_magic, is_ppc64_le};
pub use laws::{put_keeps_others, put_then_read};
pub use memory::Memory;
pub use numbers::{half_at, long_at, put_half, put_long, put_word, word_at};
pub use steps::Steps;

#[cfg(test)]
mod tests;
