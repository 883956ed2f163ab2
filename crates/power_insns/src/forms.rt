// What has a word of its own: a trait with its laws, and the instructions as its instance.
ghost use Rattle.std.specs.Prelude.{ℕ, ◌≡◌, ◌↔◌, IsTrue, IfSome};
ghost use Rattle.power_insns.specs.Table.{word_of, Fits};

use crate::decoding::decode;
use crate::encoding::encode;
use crate::instruction::Insn;
use crate::words::{fits_signed, is_displacement};

/// A kind of values that are each one word. Decoding and encoding undo each other.
pub trait Form: Sized + Copy {
    /// The word of a value.
    ghost word: { Self → ℕ };

    /// The values that have a word: each field fits its bits, and the conditions of the form hold.
    ghost HasWord: { Self → Type 0 };

    /// Whether the value has a word.
    fn fits(&self) -> bool
        ensures { IsTrue result ↔ HasWord self.now };

    /// The value of a word; `None` exactly where no value has that word.
    fn decode(w: u32) -> Option<Self>
        ensures fits { IfSome result HasWord }
        ensures found { IfSome result (λ x. word x ≡ w) }
        ensures only { (x : Self) → HasWord x → word x ≡ w → result ≡ Some x };

    /// The word of a value that fits.
    fn encode(&self) -> u32
        requires { HasWord self.now }
        ensures { result ≡ word self.now };

    /// No two values have one word.
    ghost one_word: { (x y : Self) → HasWord x → HasWord y → word x ≡ word y → x ≡ y };
}

impl Form for Insn {
    ghost use Rattle.power_insns.specs.laws.Words.{one_word};

    ghost word = { word_of };

    ghost HasWord = { Fits };

    ghost one_word = { one_word };

    fn fits(&self) -> bool {
        match *self {
            Insn::Mulli { rt, ra, si } => rt < 32 && ra < 32 && fits_signed(si, 16),
            Insn::Cmpli { bf, ra, ui, .. } => bf < 8 && ra < 32 && ui < 0x1_0000,
            Insn::Cmpi { bf, ra, si, .. } => bf < 8 && ra < 32 && fits_signed(si, 16),
            Insn::Addi { rt, ra, si } => rt < 32 && ra < 32 && fits_signed(si, 16),
            Insn::Addis { rt, ra, si } => rt < 32 && ra < 32 && fits_signed(si, 16),
            Insn::Bc { bo, bi, bd, .. } => bo < 32 && bi < 32 && is_displacement(bd, 16),
            Insn::Sc => true,
            Insn::B { li, .. } => is_displacement(li, 26),
            Insn::Bclr { bo, bi, bh, .. } => bo < 32 && bi < 32 && bh < 4,
            Insn::Bcctr { bo, bi, bh, .. } => bo < 32 && bi < 32 && bh < 4 && bo / 4 % 2 == 1,
            Insn::Rlwinm {
                rs,
                ra,
                sh,
                mb,
                me,
                ..
            } => rs < 32 && ra < 32 && sh < 32 && mb < 32 && me < 32,
            Insn::Ori { rs, ra, ui } => rs < 32 && ra < 32 && ui < 0x1_0000,
            Insn::Oris { rs, ra, ui } => rs < 32 && ra < 32 && ui < 0x1_0000,
            Insn::Xori { rs, ra, ui } => rs < 32 && ra < 32 && ui < 0x1_0000,
            Insn::Xoris { rs, ra, ui } => rs < 32 && ra < 32 && ui < 0x1_0000,
            Insn::Andi { rs, ra, ui } => rs < 32 && ra < 32 && ui < 0x1_0000,
            Insn::Andis { rs, ra, ui } => rs < 32 && ra < 32 && ui < 0x1_0000,
            Insn::Rldicl { rs, ra, sh, mb, .. } => rs < 32 && ra < 32 && sh < 64 && mb < 64,
            Insn::Rldicr { rs, ra, sh, me, .. } => rs < 32 && ra < 32 && sh < 64 && me < 64,
            Insn::Lwz { rt, ra, d } => rt < 32 && ra < 32 && fits_signed(d, 16),
            Insn::Lbz { rt, ra, d } => rt < 32 && ra < 32 && fits_signed(d, 16),
            Insn::Lhz { rt, ra, d } => rt < 32 && ra < 32 && fits_signed(d, 16),
            Insn::Lha { rt, ra, d } => rt < 32 && ra < 32 && fits_signed(d, 16),
            Insn::Stw { rs, ra, d } => rs < 32 && ra < 32 && fits_signed(d, 16),
            Insn::Stb { rs, ra, d } => rs < 32 && ra < 32 && fits_signed(d, 16),
            Insn::Sth { rs, ra, d } => rs < 32 && ra < 32 && fits_signed(d, 16),
            Insn::Ld { rt, ra, ds } => rt < 32 && ra < 32 && is_displacement(ds, 16),
            Insn::Lwa { rt, ra, ds } => rt < 32 && ra < 32 && is_displacement(ds, 16),
            Insn::Std { rs, ra, ds } => rs < 32 && ra < 32 && is_displacement(ds, 16),
            Insn::Stdu { rs, ra, ds } => rs < 32 && ra < 32 && is_displacement(ds, 16) && 0 < ra,
            Insn::Cmp { bf, ra, rb, .. } => bf < 8 && ra < 32 && rb < 32,
            Insn::Cmpl { bf, ra, rb, .. } => bf < 8 && ra < 32 && rb < 32,
            Insn::Add { rt, ra, rb, .. } => rt < 32 && ra < 32 && rb < 32,
            Insn::Subf { rt, ra, rb, .. } => rt < 32 && ra < 32 && rb < 32,
            Insn::Neg { rt, ra, .. } => rt < 32 && ra < 32,
            Insn::Mullw { rt, ra, rb, .. } => rt < 32 && ra < 32 && rb < 32,
            Insn::Mulld { rt, ra, rb, .. } => rt < 32 && ra < 32 && rb < 32,
            Insn::Divd { rt, ra, rb, .. } => rt < 32 && ra < 32 && rb < 32,
            Insn::Divdu { rt, ra, rb, .. } => rt < 32 && ra < 32 && rb < 32,
            Insn::And { rs, ra, rb, .. } => rs < 32 && ra < 32 && rb < 32,
            Insn::Andc { rs, ra, rb, .. } => rs < 32 && ra < 32 && rb < 32,
            Insn::Nor { rs, ra, rb, .. } => rs < 32 && ra < 32 && rb < 32,
            Insn::Xor { rs, ra, rb, .. } => rs < 32 && ra < 32 && rb < 32,
            Insn::Or { rs, ra, rb, .. } => rs < 32 && ra < 32 && rb < 32,
            Insn::Slw { rs, ra, rb, .. } => rs < 32 && ra < 32 && rb < 32,
            Insn::Srw { rs, ra, rb, .. } => rs < 32 && ra < 32 && rb < 32,
            Insn::Sld { rs, ra, rb, .. } => rs < 32 && ra < 32 && rb < 32,
            Insn::Srd { rs, ra, rb, .. } => rs < 32 && ra < 32 && rb < 32,
            Insn::Extsb { rs, ra, .. } => rs < 32 && ra < 32,
            Insn::Extsh { rs, ra, .. } => rs < 32 && ra < 32,
            Insn::Extsw { rs, ra, .. } => rs < 32 && ra < 32,
            Insn::Ldx { rt, ra, rb } => rt < 32 && ra < 32 && rb < 32,
            Insn::Lwzx { rt, ra, rb } => rt < 32 && ra < 32 && rb < 32,
            Insn::Lbzx { rt, ra, rb } => rt < 32 && ra < 32 && rb < 32,
            Insn::Lhzx { rt, ra, rb } => rt < 32 && ra < 32 && rb < 32,
            Insn::Lhax { rt, ra, rb } => rt < 32 && ra < 32 && rb < 32,
            Insn::Lwax { rt, ra, rb } => rt < 32 && ra < 32 && rb < 32,
            Insn::Stdx { rs, ra, rb } => rs < 32 && ra < 32 && rb < 32,
            Insn::Stwx { rs, ra, rb } => rs < 32 && ra < 32 && rb < 32,
            Insn::Stbx { rs, ra, rb } => rs < 32 && ra < 32 && rb < 32,
            Insn::Sthx { rs, ra, rb } => rs < 32 && ra < 32 && rb < 32,
            Insn::Mfspr { rt, spr } => rt < 32 && (spr == 8 || spr == 9),
            Insn::Mtspr { rs, spr } => rs < 32 && (spr == 8 || spr == 9),
        }
    }

    fn decode(w: u32) -> Option<Self> {
        decode(w)
    }

    fn encode(&self) -> u32 {
        encode(self)
    }
}

/// The value of a value's word, which is that value.
pub fn again<F: Form>(x: &F) -> Option<F>
    requires { F.HasWord x.now }
    ensures { result ≡ Some x.now }
{
    F::decode(x.encode())
}
