// Where the data of a link lies: TOC groups with their GOT slots (ELFv2 ABI, 3.3 "TOC" and "GOT"), and the addresses of all sections
// and commons that are no text (ELF64, "Program Header"). All of it is a function of the sizes and alignments of the pieces and of what
// the relocation records name; nothing here depends on how large text is.
#![tactic(auto)]

mod contents;
mod extents;
mod groups;
mod laws;
mod memory;
mod pieces;
mod plan;
mod slots;
mod toc_ends;
mod values;

pub use contents::{data_bytes, field_kind, filled_field, site_of, slot_place, slot_symbol};
pub use laws::{
    data_is_one, data_is_placed, data_segments_are_placed, parts_are_apart, plans_are_read,
    tests_are_the_table,
};
pub use plan::{DataPlan, lay_data};
pub use slots::SLOT_SIZE;
pub use values::{
    address_of, field_address, holds_value, record_of, record_value, section_of, symbol_address,
};

#[cfg(test)]
mod tests;
