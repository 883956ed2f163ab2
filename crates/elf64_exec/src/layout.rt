// What an executable holds, and what can be wrong with one.
ghost use Rattle.std.specs.Prelude.{◌≡◌};
ghost use Rattle.elf64_exec.specs.declared.layout.ExecFault.{ExecFault};

use ppc_bytes::Bytes;
use std::alloc::{AllocError, AllocFailed};

/// The bytes of the file header (gABI, "ELF Header").
pub(crate) const FILE_HEADER: usize = 64;

/// The bytes of a program header (gABI, "Program Header").
pub(crate) const PROGRAM_HEADER: usize = 56;

/// The file type of an executable (e_type).
pub(crate) const ET_EXEC: u16 = 2;

/// The program header type of bytes to be loaded (p_type).
pub(crate) const PT_LOAD: u32 = 1;

/// The flag of the ELFv2 ABI in a file header (e_flags).
pub(crate) const ELFV2: u32 = 2;

/// A range of memory, and the bytes that it begins with. The rest of it is zero.
#[derive(Debug, Drop)]
pub struct Segment {
    /// What its memory allows: 4 to read, 2 to write, 1 to execute, added up.
    pub flags: u32,

    /// The address of its first byte.
    pub address: u64,

    /// The bytes that the file holds, at most `size` of them.
    pub bytes: Bytes,

    /// How many bytes of memory it takes.
    pub size: u64,
}

/// The segments of an executable in the order of its program headers, and the address at which it starts.
#[derive(Debug, Drop)]
pub struct Segments {
    /// The address of the first instruction.
    pub entry: u64,

    /// The segments.
    pub list: Vec<Segment>,
}

/// Why bytes aren't an executable that can be loaded. The first that holds counts.
#[derive(Clone, Copy, Debug, PartialEq, Eq)]
pub enum ExecFault {
    /// They don't begin as an ELF file does.
    NotElf,

    /// The file header isn't that of an executable for this machine, or the program headers aren't in the
    /// file.
    NotExec,

    /// The program header with this number can't be loaded.
    BadSegment(u32),

    /// Memory was refused.
    Memory,
}

impl From<AllocError> for ExecFault {
    ghost from_gives = { λ error fault. fault ≡ ExecFault.Memory };

    fn from(_: AllocError) -> Self {
        ExecFault::Memory
    }
}

impl<T: Drop> From<AllocFailed<T>> for ExecFault {
    ghost from_gives = { λ error fault. fault ≡ ExecFault.Memory };

    fn from(_: AllocFailed<T>) -> Self {
        ExecFault::Memory
    }
}
