// Alignment, and whether a number is in a signed range.
ghost use Rattle.std.specs.Prelude.{◌≤◌, ◌<◌, ◌^◌, ◌↔◌, IsTrue};
ghost use Rattle.ppc_bytes.specs.Bytes.{IsPowerOfTwo, IsAlignedUp, InSigned};

/// The least multiple of the alignment `a` from `n` on.
pub fn align_up(n: u64, a: u64) -> u64
    requires power { IsPowerOfTwo a }
    requires limit { a ≤ 0x10000 }
    requires room { n < 2 ^ 63 }
    ensures { IsAlignedUp n a result }
{
    let past = n % a;
    if past == 0 { n } else { n - past + a }
}

/// Whether `v` is in the signed range of so many bits.
pub fn fits_signed(v: i128, bits: u32) -> bool
    requires some { 1 ≤ bits }
    requires most { bits ≤ 64 }
    ensures { IsTrue result ↔ InSigned bits v }
{
    let limit = 1i128 << (bits - 1);
    -limit <= v && v < limit
}
