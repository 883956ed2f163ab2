// From instructions to words.
ghost use Rattle.std.specs.Prelude.{◌≡◌, ◌<◌, ◌^◌};
ghost use Rattle.power_insns.specs.declared.instruction.Insn.{Insn};
ghost use Rattle.power_insns.specs.Words.{EachHolds, total_bits};
ghost use Rattle.power_insns.specs.Table.{fields, word_of, Fits};

use crate::instruction::Insn;
use crate::words::{d_word, low_of, md_word, x_word};

/// The word of an instruction.
pub fn encode(insn: &Insn) -> u32
    requires { Fits insn.now }
    ensures { result ≡ word_of insn.now }
{
    match *insn {
        Insn::Mulli { rt, ra, si } => d_word(7, rt, ra, low_of(si, 16)),
        Insn::Cmpli { bf, l, ra, ui } => d_word(10, (bf << 2) + u32::from(l), ra, ui),
        Insn::Cmpi { bf, l, ra, si } => d_word(11, (bf << 2) + u32::from(l), ra, low_of(si, 16)),
        Insn::Addi { rt, ra, si } => d_word(14, rt, ra, low_of(si, 16)),
        Insn::Addis { rt, ra, si } => d_word(15, rt, ra, low_of(si, 16)),
        Insn::Bc { bo, bi, bd, lk } => d_word(16, bo, bi, low_of(bd, 16) + u32::from(lk)),
        Insn::Sc => 0x4400_0002,
        Insn::B { li, lk } => (18 << 26) + low_of(li, 26) + u32::from(lk),
        Insn::Bclr { bo, bi, bh, lk } => x_word(19, bo, bi, bh, 16, lk),
        Insn::Bcctr { bo, bi, bh, lk } => x_word(19, bo, bi, bh, 528, lk),
        Insn::Rlwinm {
            rs,
            ra,
            sh,
            mb,
            me,
            rc,
        } => d_word(
            21,
            rs,
            ra,
            (sh << 11) + (mb << 6) + (me << 1) + u32::from(rc),
        ),
        Insn::Ori { rs, ra, ui } => d_word(24, rs, ra, ui),
        Insn::Oris { rs, ra, ui } => d_word(25, rs, ra, ui),
        Insn::Xori { rs, ra, ui } => d_word(26, rs, ra, ui),
        Insn::Xoris { rs, ra, ui } => d_word(27, rs, ra, ui),
        Insn::Andi { rs, ra, ui } => d_word(28, rs, ra, ui),
        Insn::Andis { rs, ra, ui } => d_word(29, rs, ra, ui),
        Insn::Rldicl { rs, ra, sh, mb, rc } => md_word(rs, ra, sh, mb, 0, rc),
        Insn::Rldicr { rs, ra, sh, me, rc } => md_word(rs, ra, sh, me, 1, rc),
        Insn::Lwz { rt, ra, d } => d_word(32, rt, ra, low_of(d, 16)),
        Insn::Lbz { rt, ra, d } => d_word(34, rt, ra, low_of(d, 16)),
        Insn::Lhz { rt, ra, d } => d_word(40, rt, ra, low_of(d, 16)),
        Insn::Lha { rt, ra, d } => d_word(42, rt, ra, low_of(d, 16)),
        Insn::Stw { rs, ra, d } => d_word(36, rs, ra, low_of(d, 16)),
        Insn::Stb { rs, ra, d } => d_word(38, rs, ra, low_of(d, 16)),
        Insn::Sth { rs, ra, d } => d_word(44, rs, ra, low_of(d, 16)),
        Insn::Ld { rt, ra, ds } => d_word(58, rt, ra, low_of(ds, 16)),
        Insn::Lwa { rt, ra, ds } => d_word(58, rt, ra, low_of(ds, 16) + 2),
        Insn::Std { rs, ra, ds } => d_word(62, rs, ra, low_of(ds, 16)),
        Insn::Stdu { rs, ra, ds } => d_word(62, rs, ra, low_of(ds, 16) + 1),
        Insn::Cmp { bf, l, ra, rb } => x_word(31, (bf << 2) + u32::from(l), ra, rb, 0, false),
        Insn::Cmpl { bf, l, ra, rb } => x_word(31, (bf << 2) + u32::from(l), ra, rb, 32, false),
        Insn::Add { rt, ra, rb, rc } => x_word(31, rt, ra, rb, 266, rc),
        Insn::Subf { rt, ra, rb, rc } => x_word(31, rt, ra, rb, 40, rc),
        Insn::Neg { rt, ra, rc } => x_word(31, rt, ra, 0, 104, rc),
        Insn::Mullw { rt, ra, rb, rc } => x_word(31, rt, ra, rb, 235, rc),
        Insn::Mulld { rt, ra, rb, rc } => x_word(31, rt, ra, rb, 233, rc),
        Insn::Divd { rt, ra, rb, rc } => x_word(31, rt, ra, rb, 489, rc),
        Insn::Divdu { rt, ra, rb, rc } => x_word(31, rt, ra, rb, 457, rc),
        Insn::And { rs, ra, rb, rc } => x_word(31, rs, ra, rb, 28, rc),
        Insn::Andc { rs, ra, rb, rc } => x_word(31, rs, ra, rb, 60, rc),
        Insn::Nor { rs, ra, rb, rc } => x_word(31, rs, ra, rb, 124, rc),
        Insn::Xor { rs, ra, rb, rc } => x_word(31, rs, ra, rb, 316, rc),
        Insn::Or { rs, ra, rb, rc } => x_word(31, rs, ra, rb, 444, rc),
        Insn::Slw { rs, ra, rb, rc } => x_word(31, rs, ra, rb, 24, rc),
        Insn::Srw { rs, ra, rb, rc } => x_word(31, rs, ra, rb, 536, rc),
        Insn::Sld { rs, ra, rb, rc } => x_word(31, rs, ra, rb, 27, rc),
        Insn::Srd { rs, ra, rb, rc } => x_word(31, rs, ra, rb, 539, rc),
        Insn::Extsb { rs, ra, rc } => x_word(31, rs, ra, 0, 954, rc),
        Insn::Extsh { rs, ra, rc } => x_word(31, rs, ra, 0, 922, rc),
        Insn::Extsw { rs, ra, rc } => x_word(31, rs, ra, 0, 986, rc),
        Insn::Ldx { rt, ra, rb } => x_word(31, rt, ra, rb, 21, false),
        Insn::Lwzx { rt, ra, rb } => x_word(31, rt, ra, rb, 23, false),
        Insn::Lbzx { rt, ra, rb } => x_word(31, rt, ra, rb, 87, false),
        Insn::Lhzx { rt, ra, rb } => x_word(31, rt, ra, rb, 279, false),
        Insn::Lhax { rt, ra, rb } => x_word(31, rt, ra, rb, 343, false),
        Insn::Lwax { rt, ra, rb } => x_word(31, rt, ra, rb, 341, false),
        Insn::Stdx { rs, ra, rb } => x_word(31, rs, ra, rb, 149, false),
        Insn::Stwx { rs, ra, rb } => x_word(31, rs, ra, rb, 151, false),
        Insn::Stbx { rs, ra, rb } => x_word(31, rs, ra, rb, 215, false),
        Insn::Sthx { rs, ra, rb } => x_word(31, rs, ra, rb, 407, false),
        Insn::Mfspr { rt, spr } => x_word(31, rt, spr % 32, spr / 32, 339, false),
        Insn::Mtspr { rs, spr } => x_word(31, rs, spr % 32, spr / 32, 467, false),
    }
}

/// The law of the layouts: each has 32 bits, and where an instruction fits, what a field holds fits the field, so that no field
/// reaches into another and the word has 32 bits too.
pub fn layouts()
    ensures whole { (i : Insn) → total_bits (fields i) ≡ 32 }
    ensures apart { (i : Insn) → Fits i → EachHolds (fields i) }
    ensures word { (i : Insn) → Fits i → word_of i < 2 ^ 32 }
{}
