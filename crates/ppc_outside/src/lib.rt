//! The world outside the linker: files by name and a console, as traits whose contracts say what each call gives and why it
//! may fail; both in memory, for tests and for embedding; and both over the operating system.
#![tactic(auto)]

mod dir_store;
mod mem_console;
mod mem_store;
mod outside;
mod std_console;
mod transfer;

pub use dir_store::DirStore;
pub use mem_console::MemConsole;
pub use mem_store::MemStore;
pub use outside::{Console, OutsideError, Store};
pub use std_console::StdConsole;

#[cfg(test)]
mod tests;
