// From words to instructions, by primary opcode.
ghost use Rattle.std.specs.Prelude.{◌≡◌, ◌^◌, ◌/◌, ◌⊎◌, IfSome};
ghost use Rattle.power_insns.specs.declared.instruction.Insn.{Insn};
ghost use Rattle.power_insns.specs.Table.{word_of, Fits};

use crate::extended::decode_extended;
use crate::instruction::Insn;
use crate::words::{bit, displacement, field, long_displacement, low_signed};

/// The instruction of a word; `None` exactly where the word is of no instruction that fits. Bits that an instruction's layout
/// reserves are zero, and opcode and extended opcode are those of the instruction's page in Power ISA 3.1, book I.
pub fn decode(w: u32) -> Option<Insn>
    ensures fits { IfSome result Fits }
    ensures found { IfSome result (λ i. word_of i ≡ w) }
    ensures only { (i : Insn) → Fits i → word_of i ≡ w → result ≡ Some i }
{
    match w >> 26 {
        7 | 14 | 15 => decode_arithmetic(w),
        10 | 11 => decode_compare(w),
        16 => decode_conditional(w),
        17 => decode_system_call(w),
        18 => decode_branch(w),
        19 => decode_register_branch(w),
        21 => decode_word_rotation(w),
        24..=29 => decode_logic(w),
        30 => decode_rotation(w),
        31 => decode_extended(w),
        32 | 34 | 40 | 42 => decode_load(w),
        36 | 38 | 44 => decode_store(w),
        58 => decode_doubleword_load(w),
        62 => decode_doubleword_store(w),
        _ => None,
    }
}

// Immediate arithmetic.
fn decode_arithmetic(w: u32) -> Option<Insn>
    requires { (w / 2 ^ 26 ≡ 7) ⊎ (w / 2 ^ 26 ≡ 14) ⊎ (w / 2 ^ 26 ≡ 15) }
    ensures fits { IfSome result Fits }
    ensures found { IfSome result (λ i. word_of i ≡ w) }
    ensures only { (i : Insn) → Fits i → word_of i ≡ w → result ≡ Some i }
{
    let rt = field(w, 6, 10);
    let ra = field(w, 11, 15);
    let si = low_signed(w);
    match w >> 26 {
        7 => Some(Insn::Mulli { rt, ra, si }),
        14 => Some(Insn::Addi { rt, ra, si }),
        15 => Some(Insn::Addis { rt, ra, si }),
        _ => None,
    }
}

// Immediate comparisons, whose bit 9 is reserved.
fn decode_compare(w: u32) -> Option<Insn>
    requires { (w / 2 ^ 26 ≡ 10) ⊎ (w / 2 ^ 26 ≡ 11) }
    ensures fits { IfSome result Fits }
    ensures found { IfSome result (λ i. word_of i ≡ w) }
    ensures only { (i : Insn) → Fits i → word_of i ≡ w → result ≡ Some i }
{
    let bf = field(w, 6, 8);
    let l = bit(w, 10);
    let ra = field(w, 11, 15);
    match w >> 26 {
        10 if !bit(w, 9) => Some(Insn::Cmpli {
            bf,
            l,
            ra,
            ui: w % 0x1_0000,
        }),
        11 if !bit(w, 9) => Some(Insn::Cmpi {
            bf,
            l,
            ra,
            si: low_signed(w),
        }),
        _ => None,
    }
}

// Conditional branches by a displacement; the absolute form is not of the subset.
fn decode_conditional(w: u32) -> Option<Insn>
    requires { w / 2 ^ 26 ≡ 16 }
    ensures fits { IfSome result Fits }
    ensures found { IfSome result (λ i. word_of i ≡ w) }
    ensures only { (i : Insn) → Fits i → word_of i ≡ w → result ≡ Some i }
{
    if bit(w, 30) {
        return None;
    }
    Some(Insn::Bc {
        bo: field(w, 6, 10),
        bi: field(w, 11, 15),
        bd: displacement(w),
        lk: bit(w, 31),
    })
}

// The system call, at level 0 alone.
fn decode_system_call(w: u32) -> Option<Insn>
    requires { w / 2 ^ 26 ≡ 17 }
    ensures fits { IfSome result Fits }
    ensures found { IfSome result (λ i. word_of i ≡ w) }
    ensures only { (i : Insn) → Fits i → word_of i ≡ w → result ≡ Some i }
{
    if w == 0x4400_0002 {
        Some(Insn::Sc)
    } else {
        None
    }
}

// Branches by a displacement; the absolute form is not of the subset.
fn decode_branch(w: u32) -> Option<Insn>
    requires { w / 2 ^ 26 ≡ 18 }
    ensures fits { IfSome result Fits }
    ensures found { IfSome result (λ i. word_of i ≡ w) }
    ensures only { (i : Insn) → Fits i → word_of i ≡ w → result ≡ Some i }
{
    if bit(w, 30) {
        return None;
    }
    Some(Insn::B {
        li: long_displacement(w),
        lk: bit(w, 31),
    })
}

// Branches to a register: no branch to the count register lowers it.
fn decode_register_branch(w: u32) -> Option<Insn>
    requires { w / 2 ^ 26 ≡ 19 }
    ensures fits { IfSome result Fits }
    ensures found { IfSome result (λ i. word_of i ≡ w) }
    ensures only { (i : Insn) → Fits i → word_of i ≡ w → result ≡ Some i }
{
    let bo = field(w, 6, 10);
    let bi = field(w, 11, 15);
    let bh = field(w, 16, 20);
    let lk = bit(w, 31);
    match field(w, 21, 30) {
        16 if bh < 4 => Some(Insn::Bclr { bo, bi, bh, lk }),
        528 if bh < 4 && bit(w, 8) => Some(Insn::Bcctr { bo, bi, bh, lk }),
        _ => None,
    }
}

// The rotation of a word.
fn decode_word_rotation(w: u32) -> Option<Insn>
    requires { w / 2 ^ 26 ≡ 21 }
    ensures fits { IfSome result Fits }
    ensures found { IfSome result (λ i. word_of i ≡ w) }
    ensures only { (i : Insn) → Fits i → word_of i ≡ w → result ≡ Some i }
{
    Some(Insn::Rlwinm {
        rs: field(w, 6, 10),
        ra: field(w, 11, 15),
        sh: field(w, 16, 20),
        mb: field(w, 21, 25),
        me: field(w, 26, 30),
        rc: bit(w, 31),
    })
}

// Immediate logic.
fn decode_logic(w: u32) -> Option<Insn>
    requires { (w / 2 ^ 26 ≡ 24) ⊎ (w / 2 ^ 26 ≡ 25) ⊎ (w / 2 ^ 26 ≡ 26) ⊎ (w / 2 ^ 26 ≡ 27)
        ⊎ (w / 2 ^ 26 ≡ 28) ⊎ (w / 2 ^ 26 ≡ 29) }
    ensures fits { IfSome result Fits }
    ensures found { IfSome result (λ i. word_of i ≡ w) }
    ensures only { (i : Insn) → Fits i → word_of i ≡ w → result ≡ Some i }
{
    let rs = field(w, 6, 10);
    let ra = field(w, 11, 15);
    let ui = w % 0x1_0000;
    match w >> 26 {
        24 => Some(Insn::Ori { rs, ra, ui }),
        25 => Some(Insn::Oris { rs, ra, ui }),
        26 => Some(Insn::Xori { rs, ra, ui }),
        27 => Some(Insn::Xoris { rs, ra, ui }),
        28 => Some(Insn::Andi { rs, ra, ui }),
        29 => Some(Insn::Andis { rs, ra, ui }),
        _ => None,
    }
}

// Rotations of a doubleword, whose shift count and mask place have their top bits apart.
fn decode_rotation(w: u32) -> Option<Insn>
    requires { w / 2 ^ 26 ≡ 30 }
    ensures fits { IfSome result Fits }
    ensures found { IfSome result (λ i. word_of i ≡ w) }
    ensures only { (i : Insn) → Fits i → word_of i ≡ w → result ≡ Some i }
{
    let rs = field(w, 6, 10);
    let ra = field(w, 11, 15);
    let sh = field(w, 16, 20) + 32 * field(w, 30, 30);
    let place = field(w, 21, 25) + 32 * field(w, 26, 26);
    let rc = bit(w, 31);
    match field(w, 27, 29) {
        0 => Some(Insn::Rldicl {
            rs,
            ra,
            sh,
            mb: place,
            rc,
        }),
        1 => Some(Insn::Rldicr {
            rs,
            ra,
            sh,
            me: place,
            rc,
        }),
        _ => None,
    }
}

// Loads by a displacement.
fn decode_load(w: u32) -> Option<Insn>
    requires { (w / 2 ^ 26 ≡ 32) ⊎ (w / 2 ^ 26 ≡ 34) ⊎ (w / 2 ^ 26 ≡ 40) ⊎ (w / 2 ^ 26 ≡ 42) }
    ensures fits { IfSome result Fits }
    ensures found { IfSome result (λ i. word_of i ≡ w) }
    ensures only { (i : Insn) → Fits i → word_of i ≡ w → result ≡ Some i }
{
    let rt = field(w, 6, 10);
    let ra = field(w, 11, 15);
    let d = low_signed(w);
    match w >> 26 {
        32 => Some(Insn::Lwz { rt, ra, d }),
        34 => Some(Insn::Lbz { rt, ra, d }),
        40 => Some(Insn::Lhz { rt, ra, d }),
        42 => Some(Insn::Lha { rt, ra, d }),
        _ => None,
    }
}

// Stores by a displacement.
fn decode_store(w: u32) -> Option<Insn>
    requires { (w / 2 ^ 26 ≡ 36) ⊎ (w / 2 ^ 26 ≡ 38) ⊎ (w / 2 ^ 26 ≡ 44) }
    ensures fits { IfSome result Fits }
    ensures found { IfSome result (λ i. word_of i ≡ w) }
    ensures only { (i : Insn) → Fits i → word_of i ≡ w → result ≡ Some i }
{
    let rs = field(w, 6, 10);
    let ra = field(w, 11, 15);
    let d = low_signed(w);
    match w >> 26 {
        36 => Some(Insn::Stw { rs, ra, d }),
        38 => Some(Insn::Stb { rs, ra, d }),
        44 => Some(Insn::Sth { rs, ra, d }),
        _ => None,
    }
}

// Loads by a displacement that is a multiple of 4.
fn decode_doubleword_load(w: u32) -> Option<Insn>
    requires { w / 2 ^ 26 ≡ 58 }
    ensures fits { IfSome result Fits }
    ensures found { IfSome result (λ i. word_of i ≡ w) }
    ensures only { (i : Insn) → Fits i → word_of i ≡ w → result ≡ Some i }
{
    let rt = field(w, 6, 10);
    let ra = field(w, 11, 15);
    let ds = displacement(w);
    match field(w, 30, 31) {
        0 => Some(Insn::Ld { rt, ra, ds }),
        2 => Some(Insn::Lwa { rt, ra, ds }),
        _ => None,
    }
}

// Stores by a displacement that is a multiple of 4; an update needs a register.
fn decode_doubleword_store(w: u32) -> Option<Insn>
    requires { w / 2 ^ 26 ≡ 62 }
    ensures fits { IfSome result Fits }
    ensures found { IfSome result (λ i. word_of i ≡ w) }
    ensures only { (i : Insn) → Fits i → word_of i ≡ w → result ≡ Some i }
{
    let rs = field(w, 6, 10);
    let ra = field(w, 11, 15);
    let ds = displacement(w);
    match field(w, 30, 31) {
        0 => Some(Insn::Std { rs, ra, ds }),
        1 if ra != 0 => Some(Insn::Stdu { rs, ra, ds }),
        _ => None,
    }
}
