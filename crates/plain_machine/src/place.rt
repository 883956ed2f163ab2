// Places of text.

/// A place in text: a text section by its number, and an offset in it. Offsets wrap as addresses do.
#[derive(Clone, Copy)]
pub struct TextPlace {
    /// The number of the text section.
    pub section: u32,

    /// The offset in bytes.
    pub offset: u64,
}
