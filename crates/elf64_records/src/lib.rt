// Relocatable ELF64 files for little-endian 64-bit Power: their sections, symbols and relocation records (ELF64 Object File Format,
// "Section Header", "Symbol Table" and "Relocation"). A view borrows the file's bytes, lends parts of them and copies nothing; a
// file that isn't whole is refused with the first of its faults.
#![tactic(auto)]

mod fault;
mod headers;
mod names;
mod records;
mod sections;
mod symbols;
mod view;

pub use fault::{ElfFault, Place};
pub use headers::FILE_LIMIT;
pub use ppc_bytes::constants;
pub use records::Rela;
pub use sections::{SectionHeader, SectionView};
pub use symbols::{SymbolEntry, SymbolView};
pub use view::ObjectView;

#[cfg(test)]
mod tests;
