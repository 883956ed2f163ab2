// Sections, symbols and relocation records of a set, each told by its file and its number there.

/// A section of a file of a set.
#[derive(Clone, Copy, Debug, PartialEq, Eq)]
pub struct SectionId {
    /// The file, by its number from 0.
    pub file: u32,
    /// The section's number in the file.
    pub section: u32,
}

/// A symbol of a file of a set.
#[derive(Clone, Copy, Debug, PartialEq, Eq)]
pub struct SymbolId {
    /// The file, by its number from 0.
    pub file: u32,
    /// The symbol's number in the file.
    pub symbol: u32,
}

/// A relocation record of a kept section.
#[derive(Clone, Copy, Debug, PartialEq, Eq)]
pub struct RecordId {
    /// The file, by its number from 0.
    pub file: u32,
    /// The section that holds the record.
    pub table: u32,
    /// The record's position in that section, from 0.
    pub entry: u32,
    /// The section that the record is about.
    pub section: u32,
}
