// The words of primary opcode 31, by the extended opcode in bits 21 to 30.
ghost use Rattle.std.specs.Prelude.{◌≡◌, ◌^◌, ◌/◌, IfSome};
ghost use Rattle.power_insns.specs.declared.instruction.Insn.{Insn};
ghost use Rattle.power_insns.specs.Table.{word_of, Fits};

use crate::instruction::Insn;
use crate::words::{bit, field};

/// The instruction of a word with primary opcode 31.
pub fn decode_extended(w: u32) -> Option<Insn>
    requires { w / 2 ^ 26 ≡ 31 }
    ensures fits { IfSome result Fits }
    ensures found { IfSome result (λ i. word_of i ≡ w) }
    ensures only { (i : Insn) → Fits i → word_of i ≡ w → result ≡ Some i }
{
    let bf = field(w, 6, 8);
    let l = bit(w, 10);
    let rt = field(w, 6, 10);
    let rs = rt;
    let ra = field(w, 11, 15);
    let rb = field(w, 16, 20);
    let rc = bit(w, 31);
    match field(w, 21, 30) {
        0 if !bit(w, 9) && !rc => Some(Insn::Cmp { bf, l, ra, rb }),
        32 if !bit(w, 9) && !rc => Some(Insn::Cmpl { bf, l, ra, rb }),
        266 => Some(Insn::Add { rt, ra, rb, rc }),
        40 => Some(Insn::Subf { rt, ra, rb, rc }),
        104 if rb == 0 => Some(Insn::Neg { rt, ra, rc }),
        235 => Some(Insn::Mullw { rt, ra, rb, rc }),
        233 => Some(Insn::Mulld { rt, ra, rb, rc }),
        489 => Some(Insn::Divd { rt, ra, rb, rc }),
        457 => Some(Insn::Divdu { rt, ra, rb, rc }),
        28 => Some(Insn::And { rs, ra, rb, rc }),
        60 => Some(Insn::Andc { rs, ra, rb, rc }),
        124 => Some(Insn::Nor { rs, ra, rb, rc }),
        316 => Some(Insn::Xor { rs, ra, rb, rc }),
        444 => Some(Insn::Or { rs, ra, rb, rc }),
        24 => Some(Insn::Slw { rs, ra, rb, rc }),
        536 => Some(Insn::Srw { rs, ra, rb, rc }),
        27 => Some(Insn::Sld { rs, ra, rb, rc }),
        539 => Some(Insn::Srd { rs, ra, rb, rc }),
        954 if rb == 0 => Some(Insn::Extsb { rs, ra, rc }),
        922 if rb == 0 => Some(Insn::Extsh { rs, ra, rc }),
        986 if rb == 0 => Some(Insn::Extsw { rs, ra, rc }),
        21 if !rc => Some(Insn::Ldx { rt, ra, rb }),
        23 if !rc => Some(Insn::Lwzx { rt, ra, rb }),
        87 if !rc => Some(Insn::Lbzx { rt, ra, rb }),
        279 if !rc => Some(Insn::Lhzx { rt, ra, rb }),
        343 if !rc => Some(Insn::Lhax { rt, ra, rb }),
        341 if !rc => Some(Insn::Lwax { rt, ra, rb }),
        149 if !rc => Some(Insn::Stdx { rs, ra, rb }),
        151 if !rc => Some(Insn::Stwx { rs, ra, rb }),
        215 if !rc => Some(Insn::Stbx { rs, ra, rb }),
        407 if !rc => Some(Insn::Sthx { rs, ra, rb }),
        339 if !rc && rb == 0 && (ra == 8 || ra == 9) => Some(Insn::Mfspr { rt, spr: ra }),
        467 if !rc && rb == 0 && (ra == 8 || ra == 9) => Some(Insn::Mtspr { rs, spr: ra }),
        _ => None,
    }
}
