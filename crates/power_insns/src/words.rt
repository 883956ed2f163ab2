// Fields of words: what encoders put in, and what decoders read.
ghost use Rattle.std.specs.Prelude.{ℕ, ◌≡◌, ◌<◌, ◌≤◌, ◌↔◌, ◌^◌, ◌/◌, ◌%◌, ◌-◌, ◌+◌, ◌*◌, IsTrue, ◌∷◌, []};
ghost use Rattle.power_insns.specs.Words.{fld, flag, low_of, word, InSigned, IsDisplacement};

/// The lowest bits of a signed number, in two's complement.
pub fn low_of(z: i32, bits: u32) -> u32
    requires { bits < 31 }
    ensures value { result ≡ low_of bits z }
    ensures below { result < 2 ^ bits }
{
    z.rem_euclid(1 << bits) as u32
}

/// The bits `first` to `last` of a word, where bit 0 is the most significant.
pub fn field(w: u32, first: u32, last: u32) -> u32
    requires order { first ≤ last }
    requires within { last < 32 }
    ensures { result ≡ w / 2 ^ (31 - last) % 2 ^ (last - first + 1) }
{
    let shifted = u64::from(w) >> (31 - last);
    (shifted % (1 << (last - first + 1))) as u32
}

/// The bit of a word at a place, where bit 0 is the most significant.
pub fn bit(w: u32, place: u32) -> bool
    requires { place < 32 }
    ensures { flag result ≡ w / 2 ^ (31 - place) % 2 }
{
    field(w, place, place) == 1
}

// A number of 16 bits, read as two's complement.
fn signed_half(n: u32) -> i32
    requires { n < 2 ^ 16 }
    ensures fits { InSigned 16 result }
    ensures low { low_of 16 result ≡ n }
{
    if n < 0x8000 {
        n as i32
    } else {
        n as i32 - 0x1_0000
    }
}

/// The signed number in the low 16 bits.
pub fn low_signed(w: u32) -> i32
    ensures fits { InSigned 16 result }
    ensures low { low_of 16 result ≡ w % 2 ^ 16 }
{
    signed_half(w % 0x1_0000)
}

/// The displacement in the low 16 bits, whose last two count as zero.
pub fn displacement(w: u32) -> i32
    ensures fits { IsDisplacement 16 result }
    ensures low { low_of 16 result ≡ w % 2 ^ 16 / 4 * 4 }
{
    signed_half(w % 0x1_0000 / 4 * 4)
}

/// The displacement in the low 26 bits, whose last two count as zero.
pub fn long_displacement(w: u32) -> i32
    ensures fits { IsDisplacement 26 result }
    ensures low { low_of 26 result ≡ w % 2 ^ 26 / 4 * 4 }
{
    let n = w % 0x0400_0000 / 4 * 4;
    if n < 0x0200_0000 {
        n as i32
    } else {
        n as i32 - 0x0400_0000
    }
}

/// Whether a number is signed with so many bits.
pub fn fits_signed(z: i32, bits: u32) -> bool
    requires some { 0 < bits }
    requires most { bits < 31 }
    ensures { IsTrue result ↔ InSigned bits z }
{
    let limit = 1i64 << (bits - 1);
    -limit <= i64::from(z) && i64::from(z) < limit
}

/// Whether a number is a displacement of so many bits, a multiple of 4.
pub fn is_displacement(z: i32, bits: u32) -> bool
    requires some { 0 < bits }
    requires most { bits < 31 }
    ensures { IsTrue result ↔ IsDisplacement bits z }
{
    fits_signed(z, bits) && z.rem_euclid(4) == 0
}

/// A word of the D form: opcode, two registers and 16 low bits.
pub fn d_word(op: u32, rt: u32, ra: u32, low: u32) -> u32
    requires op { op < 2 ^ 6 }
    requires rt { rt < 2 ^ 5 }
    requires ra { ra < 2 ^ 5 }
    requires low { low < 2 ^ 16 }
    ensures { result ≡ word (fld 6 op ∷ fld 5 rt ∷ fld 5 ra ∷ fld 16 low ∷ []) }
{
    (op << 26) + (rt << 21) + (ra << 16) + low
}

/// A word of the X form: opcode, three registers, the extended opcode and one bit.
pub fn x_word(op: u32, rt: u32, ra: u32, rb: u32, xo: u32, last: bool) -> u32
    requires op { op < 2 ^ 6 }
    requires rt { rt < 2 ^ 5 }
    requires ra { ra < 2 ^ 5 }
    requires rb { rb < 2 ^ 5 }
    requires xo { xo < 2 ^ 10 }
    ensures { result ≡ word (fld 6 op ∷ fld 5 rt ∷ fld 5 ra ∷ fld 5 rb ∷ fld 10 xo ∷ fld 1
        (flag last) ∷ []) }
{
    (op << 26) + (rt << 21) + (ra << 16) + (rb << 11) + (xo << 1) + u32::from(last)
}

/// A word of the MD form: a rotation of a doubleword, whose shift count and mask place have their top bits apart.
pub fn md_word(rs: u32, ra: u32, sh: u32, place: u32, xo: u32, rc: bool) -> u32
    requires rs { rs < 2 ^ 5 }
    requires ra { ra < 2 ^ 5 }
    requires sh { sh < 2 ^ 6 }
    requires place { place < 2 ^ 6 }
    requires xo { xo < 2 ^ 3 }
    ensures { result ≡ word (fld 6 30 ∷ fld 5 rs ∷ fld 5 ra ∷ fld 5 (sh % 32) ∷ fld 5
        (place % 32) ∷ fld 1 (place / 32) ∷ fld 3 xo ∷ fld 1 (sh / 32) ∷ fld 1 (flag rc) ∷ []) }
{
    let split = ((sh % 32) << 11) + ((place % 32) << 6) + ((place / 32) << 5) + ((sh / 32) << 1);
    d_word(30, rs, ra, split + (xo << 2) + u32::from(rc))
}
