// What a layout is made of.
use stub_kinds::Class;

/// A text section.
#[derive(Clone, Copy, Debug)]
pub struct ShapeSection {
    /// Its size in bytes.
    pub size: u64,

    /// Its alignment in bytes.
    pub align: u64,

    /// The TOC group of its file.
    pub toc: u32,
}

/// A call from a place of text to another.
#[derive(Clone, Copy, Debug)]
pub struct ShapeSite {
    /// The section of the call.
    pub section: u32,

    /// How far the call is into that section, in bytes.
    pub offset: u64,

    /// How the call comes to its callee.
    pub class: Class,

    /// The section to which it goes.
    pub to_section: u32,

    /// How far into that section, in bytes.
    pub to_offset: u64,
}

/// The text of a link: where it starts, its sections in order, and its calls in order of section and offset.
#[derive(Debug, Drop)]
pub struct Shape {
    /// The address of the first section.
    pub start: u64,

    /// The sections.
    pub sections: Vec<ShapeSection>,

    /// The calls.
    pub sites: Vec<ShapeSite>,
}
