// The file header.
use ppc_bytes::constants::ET_REL;

/// The file header, by its fields. Where no value is stated for the last three they are those of the file that is made.
#[derive(Clone, Copy)]
pub struct FileHeader {
    /// The first four bytes of e_ident.
    pub magic: [u8; 4],
    /// EI_CLASS: 2 for 64 bits.
    pub class: u8,
    /// EI_DATA: 1 for little-endian.
    pub encoding: u8,
    /// EI_VERSION.
    pub ident_version: u8,
    /// e_type.
    pub kind: u16,
    /// e_machine: 21 for 64-bit Power.
    pub machine: u16,
    /// e_version.
    pub version: u32,
    /// e_flags: the version of the ABI.
    pub flags: u32,
    /// e_shentsize.
    pub section_header_size: u16,
    /// e_shoff.
    pub section_headers: Option<u64>,
    /// e_shnum.
    pub section_count: Option<u16>,
    /// e_shstrndx.
    pub section_names: Option<u16>,
}

impl FileHeader {
    /// That of an object file of the ELFv2 ABI.
    pub const OBJECT: FileHeader = FileHeader {
        magic: [0x7F, 0x45, 0x4C, 0x46],
        class: 2,
        encoding: 1,
        ident_version: 1,
        kind: ET_REL,
        machine: 21,
        version: 1,
        flags: 2,
        section_header_size: 64,
        section_headers: None,
        section_count: None,
        section_names: None,
    };
}
