// Static executables for little-endian 64-bit Power, written and read: the file header, the program
// headers and the segments' bytes (System V gABI, "ELF Header" and "Program Header"; ELFv2 ABI, "ELF
// Header"). There are no section headers.
#![tactic(auto)]

mod laws;
mod layout;
mod memory_map;
mod reading;
mod writing;

pub use laws::{faults_are_one, loaded_has_no_fault, written_loads};
pub use layout::{ExecFault, Segment, Segments};
pub use memory_map::{IMAGE_START, MEMORY_END, PAGE, READ_ONLY, TEXT, WRITABLE};
pub use reading::read_exec;
pub use writing::write_exec;

#[cfg(test)]
mod tests;
