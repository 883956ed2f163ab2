// The numbers to which the ELF64 object file format gives names, the names of the table of contents, and what several layers say of text.

/// File types (e_type): relocatable, and shared.
pub const ET_REL: u16 = 1;

pub const ET_DYN: u16 = 3;

/// Section types (sh_type).
pub const SHT_NULL: u32 = 0;

pub const SHT_PROGBITS: u32 = 1;

pub const SHT_SYMTAB: u32 = 2;

pub const SHT_STRTAB: u32 = 3;

pub const SHT_RELA: u32 = 4;

pub const SHT_NOTE: u32 = 7;

pub const SHT_NOBITS: u32 = 8;

pub const SHT_REL: u32 = 9;

pub const SHT_INIT_ARRAY: u32 = 14;

pub const SHT_FINI_ARRAY: u32 = 15;

pub const SHT_GROUP: u32 = 17;

pub const SHT_SYMTAB_SHNDX: u32 = 18;

/// Flags of sections (sh_flags).
pub const SHF_WRITE: u64 = 0x1;

pub const SHF_ALLOC: u64 = 0x2;

pub const SHF_EXECINSTR: u64 = 0x4;

pub const SHF_TLS: u64 = 0x400;

pub const SHF_COMPRESSED: u64 = 0x800;

/// Bindings of symbols (the high four bits of st_info).
pub const STB_LOCAL: u8 = 0;

pub const STB_GLOBAL: u8 = 1;

pub const STB_WEAK: u8 = 2;

pub const STB_GNU_UNIQUE: u8 = 10;

/// Types of symbols (the low four bits of st_info).
pub const STT_NOTYPE: u8 = 0;

pub const STT_OBJECT: u8 = 1;

pub const STT_FUNC: u8 = 2;

pub const STT_SECTION: u8 = 3;

pub const STT_TLS: u8 = 6;

pub const STT_GNU_IFUNC: u8 = 10;

/// Section indices of symbols (st_shndx). From SHN_LORESERVE on they aren't sections' numbers.
pub const SHN_UNDEF: u16 = 0;

pub const SHN_LORESERVE: u16 = 0xFF00;

pub const SHN_ABS: u16 = 0xFFF1;

pub const SHN_COMMON: u16 = 0xFFF2;

pub const SHN_XINDEX: u16 = 0xFFFF;

/// The name of the base of the table of contents, and that of the sections that are parts of this table (ELFv2 ABI, 3.2 "Special
/// Sections").
pub const TOC_BASE: &[u8] = b".TOC.";

pub const TOC_SECTION: &[u8] = b".toc";

/// Words of instructions: `nop`, which is `ori r0,r0,0`, and `b` by 0 bytes (Power ISA 3.1, "Branch Instructions").
pub const NOP: u32 = 0x6000_0000;

pub const B: u32 = 0x4800_0000;

/// How many bytes of text an image may have, by this linker's limit.
pub const TEXT_LIMIT: u64 = 0x2000_0000;
