// The parts of a number that instructions hold (ELFv2 ABI, "Relocation Notations"; Power ISA 3.1, "Instruction Formats").
ghost use Rattle.std.specs.Prelude.{◌≡◌, ◌≤◌, ◌<◌, ◌^◌};
ghost use Rattle.ppc_bytes.specs.Halves.{low_of, lo, hi, ha, d0, d1};

/// The lowest bits of a number in two's complement.
pub fn low_bits(x: i128, bits: u32) -> u64
    requires { bits ≤ 64 }
    ensures { result ≡ low_of bits x }
{
    x.rem_euclid(1 << bits) as u64
}

/// `#lo`: bits 0 to 15.
pub fn lo(x: i128) -> u32
    ensures value { result ≡ lo x }
    ensures half { result < 2 ^ 16 }
{
    low_bits(x, 16) as u32
}

/// `#hi`: bits 16 to 31.
pub fn hi(x: i128) -> u32
    ensures value { result ≡ hi x }
    ensures half { result < 2 ^ 16 }
{
    (low_bits(x, 32) >> 16) as u32
}

/// `#ha`: bits 16 to 31 of x + 0x8000, so that `#ha` times 0x10000 and the signed `#lo` make x.
pub fn ha(x: i128) -> u32
    ensures value { result ≡ ha x }
    ensures half { result < 2 ^ 16 }
{
    hi(x.rem_euclid(1 << 32) + 0x8000)
}

/// d0, the part of a 34-bit displacement in the prefix: bits 16 to 33.
pub fn d0(x: i128) -> u32
    ensures value { result ≡ d0 x }
    ensures fits { result < 2 ^ 18 }
{
    (low_bits(x, 34) >> 16) as u32
}

/// d1, the part of a 34-bit displacement in the suffix: bits 0 to 15.
pub fn d1(x: i128) -> u32
    ensures value { result ≡ d1 x }
    ensures half { result < 2 ^ 16 }
{
    (low_bits(x, 34) & 0xFFFF) as u32
}
