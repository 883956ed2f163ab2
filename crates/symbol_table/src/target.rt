// Where a relocation record goes.

/// A place in text: the number of the text section, and the offset in it.
#[derive(Clone, Copy, Debug, PartialEq, Eq)]
pub struct CodePlace {
    /// The number of the text section, in order of file and section.
    pub section: u32,
    /// The offset in bytes.
    pub offset: u64,
}

/// A piece of data.
#[derive(Clone, Copy, Debug, PartialEq, Eq)]
pub enum Piece {
    /// A section: its file and number.
    Section(u32, u32),
    /// A common, by its number in the order in which the names are first seen.
    Common(u64),
}

/// Where a symbol with an addend goes. Sums wrap modulo 2^64.
#[derive(Clone, Copy, Debug, PartialEq, Eq)]
pub enum Target {
    /// A place in data: so many bytes past a piece's start.
    Data {
        /// The piece.
        piece: Piece,
        /// The bytes past its start.
        addend: i64,
    },
    /// A place in text.
    Code {
        /// The number of the text section.
        section: u32,
        /// The offset in bytes.
        offset: u64,
    },
    /// A number.
    Number(u64),
    /// So many bytes past the base of the table of contents for the file that refers to it.
    TocBase {
        /// The file.
        file: u32,
        /// The bytes past the base.
        addend: i64,
    },
    /// A weak symbol that stands for nothing, which counts as 0, and the addend.
    WeakNone(i64),
}
