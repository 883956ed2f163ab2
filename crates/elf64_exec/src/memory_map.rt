// Where an image lies in memory, and what its segments allow.

/// The address of an image's first byte: data begins there, or text where there is no data.
pub const IMAGE_START: u64 = 0x1000_0000;

/// The end of the memory that a program's segments may have; a stack lies above it.
pub const MEMORY_END: u64 = 0x7000_0000;

/// The alignment of segments, in the file and in memory.
pub const PAGE: u64 = 0x1_0000;

/// The flags of a segment that is only read: PF_R (gABI, "Segment Flag Bits").
pub const READ_ONLY: u32 = 4;

/// The flags of a segment that is read and written: PF_R + PF_W.
pub const WRITABLE: u32 = 6;

/// The flags of a segment that is read and executed: PF_R + PF_X.
pub const TEXT: u32 = 5;
