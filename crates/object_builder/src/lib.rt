// Relocatable ELF64 files for little-endian 64-bit Power, made from their sections, symbols and records by name (ELF64 Object File
// Format, "ELF Header" to "Relocation"). Tests make their objects so, also objects that lie: each header field has a name by which
// another value can be stated for it.
#![tactic(auto)]

mod encoding;
mod header;
mod object;
mod section;

pub use header::FileHeader;
pub use object::Object;
pub use section::{Record, Section, Stated, Symbol};

#[cfg(test)]
mod tests;
