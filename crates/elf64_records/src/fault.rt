// Why a file is no object file that is read.

/// The part of a file that a fault is about.
#[derive(Clone, Copy, Debug, PartialEq, Eq)]
pub enum Place {
    /// The file as a whole.
    File,
    /// A section, by its number.
    Section(u32),
    /// A symbol, by its number.
    Symbol(u32),
    /// A relocation record: the number of the section that holds it, and its position there.
    Record(u32, u32),
}

/// The first thing that is wrong with an object file.
#[derive(Clone, Copy, Debug, PartialEq, Eq)]
pub enum ElfFault {
    /// The file doesn't begin as an ELF file does.
    NotElf,
    /// The file isn't for 64-bit little-endian Power, or of another version of ELF.
    NotPpc64Le,
    /// The file is a shared object.
    SharedObject,
    /// The file isn't relocatable.
    NotObject,
    /// The file names an ABI other than ELFv2.
    BadAbi,
    /// A header, a table or an entry isn't as it should be.
    BadTable(Place),
}
