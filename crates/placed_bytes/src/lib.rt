// Bytes that are put at places of an image: sections at their addresses, and the fields of relocation records over them. Where the
// places are apart, each stands where it was put, whatever the order, and all else is as it was.
#![tactic(auto)]

mod laws;
mod patches;

pub use laws::{patched_is_one, patches_stand};
pub use patches::{put_bytes, put_number};

#[cfg(test)]
mod tests;
