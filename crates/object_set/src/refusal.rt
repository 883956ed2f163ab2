// Why a link is refused.
ghost use Rattle.std.specs.Prelude.{◌≡◌};
ghost use Rattle.object_set.specs.declared.refusal.Refusal.TheVariants.{Memory};

use elf64_records::Place;
use ppc_bytes::Bytes;
use std::alloc::{AllocError, AllocFailed};

/// The place of a relocation record, and of the field that it fills.
#[derive(Clone, Copy, Debug, PartialEq, Eq)]
pub struct Site {
    /// The file, by its number from 0.
    pub file: u32,
    /// The section that holds the record.
    pub table: u32,
    /// The record's position in that section, from 0.
    pub entry: u32,
    /// The section that holds the field.
    pub section: u32,
    /// The field's offset in its section.
    pub offset: u64,
}

/// Why a link is refused. Files are numbered from 0 in the order in which they were given; the first number is the file's, unless
/// something else is said.
#[derive(Debug, Drop)]
pub enum Refusal {
    /// The file has more than 0x10000000 bytes.
    FileTooLong(u32),
    /// The file doesn't begin as an ELF file does.
    NotElf(u32),
    /// The file isn't for 64-bit little-endian Power, or of another version of ELF.
    NotPpc64Le(u32),
    /// The file is a shared object.
    SharedObject(u32),
    /// The file isn't relocatable.
    NotObject(u32),
    /// The file names an ABI other than ELFv2.
    BadAbi(u32),
    /// A header, a table or an entry isn't as it should be.
    BadTable(u32, Place),
    /// A section or symbol asks for something that a static link of this kind leaves out.
    Unsupported(u32, Place),
    /// A relocation record asks for something that a static link of this kind leaves out.
    UnsupportedAt(Site),
    /// A section or symbol is of thread-local storage.
    Tls(u32, Place),
    /// A relocation record is of thread-local storage.
    TlsAt(Site),
    /// The section, the second number, has a type, flags or a size that a kept section of its sort can't have.
    BadSection(u32, u32),
    /// The alignment of a section or of a common symbol is no power of two, or is too large.
    BadAlign(u32, Place),
    /// The symbol, the second number, has a binding, a section, a value or entry points that it can't have.
    BadSymbol(u32, u32),
    /// The name has two global definitions: in these two files, the first of all, which may be one file.
    Duplicate(Bytes, u32, u32),
    /// The name of the entry is neither defined nor common.
    NoEntry(Bytes),
    /// The name of the entry doesn't stand for an instruction.
    EntryNotCode(Bytes),
    /// The record's relocation has this number, which isn't one that is known.
    UnknownReloc(Site, u32),
    /// The record's field can't be filled: it stands in a wrong place, overlaps another one, or is in an unfit word.
    BadSite(Site),
    /// The name that the record needs stands for nothing.
    Unresolved(Bytes, Site),
    /// The record's branch goes to what is no instruction.
    NotCode(Site),
    /// Data takes more than 0x30000000 bytes.
    DataTooBig,
    /// The call needs r2 restored after it, and has no place for the instruction.
    NoRestore(Site),
    /// Text takes more than 0x20000000 bytes.
    TextTooBig,
    /// The call doesn't reach its stub.
    StubReach(Site),
    /// The value, the second number, doesn't fit the record's field.
    Overflow(Site, i128),
    /// At this place of the library, the second number, no member begins as a member does.
    BadArchive(u32, u64),
    /// A link has more than 4096 files.
    TooManyFiles,
    /// Memory was refused.
    Memory,
}

impl From<AllocError> for Refusal {
    ghost from_gives = { λ _ r. r ≡ Memory };

    fn from(_: AllocError) -> Self {
        Refusal::Memory
    }
}

impl<T: Drop> From<AllocFailed<T>> for Refusal {
    ghost from_gives = { λ _ r. r ≡ Memory };

    fn from(_: AllocFailed<T>) -> Self {
        Refusal::Memory
    }
}

impl From<ppc_bytes::Memory> for Refusal {
    ghost from_gives = { λ _ r. r ≡ Memory };

    fn from(_: ppc_bytes::Memory) -> Self {
        Refusal::Memory
    }
}
