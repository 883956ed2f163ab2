// One word of each mnemonic, as an assembler spells it, and the instruction that it is.
use crate::decoding::decode;
use crate::forms::{Form, again};
use crate::instruction::Insn;
use std::test::Fail;

// Each word is decoded to its instruction.
macro_rules! spelled {
    ($rt:ident; $($word:literal => $insn:pat,)*) => {
        $(assert!($rt; matches!(decode($word), Some($insn)));)*
    };
}

#[test]
fn arithmetic_and_comparisons_with_a_number(rt: HostRuntime) {
    spelled! { rt;
        0x1C64_FFFB => Insn::Mulli { rt: 3, ra: 4, si: -5 },
        0x2BA3_9C40 => Insn::Cmpli { bf: 7, l: true, ra: 3, ui: 40000 },
        0x2D09_FFFF => Insn::Cmpi { bf: 2, l: false, ra: 9, si: -1 },
        0x3821_FFE0 => Insn::Addi { rt: 1, ra: 1, si: -32 },
        0x3C4C_FFFF => Insn::Addis { rt: 2, ra: 12, si: -1 },
        0x7CA3_2000 => Insn::Cmp { bf: 1, l: true, ra: 3, rb: 4 },
        0x7F1E_F840 => Insn::Cmpl { bf: 6, l: false, ra: 30, rb: 31 },
    }
}

#[test]
fn branches_and_the_system_call(rt: HostRuntime) {
    spelled! { rt;
        0x4182_FFF8 => Insn::Bc { bo: 12, bi: 2, bd: -8, lk: false },
        0x4400_0002 => Insn::Sc,
        0x4900_0000 => Insn::B { li: 0x100_0000, lk: false },
        0x4C9F_1821 => Insn::Bclr { bo: 4, bi: 31, bh: 3, lk: true },
        0x4D8A_0C20 => Insn::Bcctr { bo: 12, bi: 10, bh: 1, lk: false },
        0x7C08_02A6 => Insn::Mfspr { rt: 0, spr: 8 },
        0x7D89_03A6 => Insn::Mtspr { rs: 12, spr: 9 },
    }
}

#[test]
fn logic_with_a_number_and_rotations(rt: HostRuntime) {
    spelled! { rt;
        0x6083_8001 => Insn::Ori { rs: 4, ra: 3, ui: 0x8001 },
        0x6483_FFFF => Insn::Oris { rs: 4, ra: 3, ui: 0xFFFF },
        0x6929_0020 => Insn::Xori { rs: 9, ra: 9, ui: 32 },
        0x6FDF_8000 => Insn::Xoris { rs: 30, ra: 31, ui: 0x8000 },
        0x73E0_0001 => Insn::Andi { rs: 31, ra: 0, ui: 1 },
        0x7507_7FFF => Insn::Andis { rs: 8, ra: 7, ui: 0x7FFF },
        0x54C5_3F85 => Insn::Rlwinm { rs: 6, ra: 5, sh: 7, mb: 30, me: 2, rc: true },
        0x7883_08A2 => Insn::Rldicl { rs: 4, ra: 3, sh: 33, mb: 34, rc: false },
        0x796A_47C7 => Insn::Rldicr { rs: 11, ra: 10, sh: 40, me: 31, rc: true },
    }
}

#[test]
fn loads_and_stores_by_a_displacement(rt: HostRuntime) {
    spelled! { rt;
        0x8069_0008 => Insn::Lwz { rt: 3, ra: 9, d: 8 },
        0x8885_FFFF => Insn::Lbz { rt: 4, ra: 5, d: -1 },
        0xA0C7_7FFF => Insn::Lhz { rt: 6, ra: 7, d: 32767 },
        0xA90A_8000 => Insn::Lha { rt: 8, ra: 10, d: -32768 },
        0x90C1_0000 => Insn::Stw { rs: 6, ra: 1, d: 0 },
        0x9923_0000 => Insn::Stb { rs: 9, ra: 3, d: 0 },
        0xB19F_FFFE => Insn::Sth { rs: 12, ra: 31, d: -2 },
        0xE841_0018 => Insn::Ld { rt: 2, ra: 1, ds: 24 },
        0xE864_FFFE => Insn::Lwa { rt: 3, ra: 4, ds: -4 },
        0xF841_0018 => Insn::Std { rs: 2, ra: 1, ds: 24 },
        0xF821_FFE1 => Insn::Stdu { rs: 1, ra: 1, ds: -32 },
    }
}

#[test]
fn loads_and_stores_by_a_register(rt: HostRuntime) {
    spelled! { rt;
        0x7C64_282A => Insn::Ldx { rt: 3, ra: 4, rb: 5 },
        0x7C60_282E => Insn::Lwzx { rt: 3, ra: 0, rb: 5 },
        0x7C64_28AE => Insn::Lbzx { rt: 3, ra: 4, rb: 5 },
        0x7C64_2A2E => Insn::Lhzx { rt: 3, ra: 4, rb: 5 },
        0x7C64_2AAE => Insn::Lhax { rt: 3, ra: 4, rb: 5 },
        0x7C64_2AAA => Insn::Lwax { rt: 3, ra: 4, rb: 5 },
        0x7C64_292A => Insn::Stdx { rs: 3, ra: 4, rb: 5 },
        0x7C64_292E => Insn::Stwx { rs: 3, ra: 4, rb: 5 },
        0x7C64_29AE => Insn::Stbx { rs: 3, ra: 4, rb: 5 },
        0x7C64_2B2E => Insn::Sthx { rs: 3, ra: 4, rb: 5 },
    }
}

#[test]
fn arithmetic_of_registers(rt: HostRuntime) {
    spelled! { rt;
        0x7C63_4A14 => Insn::Add { rt: 3, ra: 3, rb: 9, rc: false },
        0x7C64_2851 => Insn::Subf { rt: 3, ra: 4, rb: 5, rc: true },
        0x7FFE_00D0 => Insn::Neg { rt: 31, ra: 30, rc: false },
        0x7C64_29D6 => Insn::Mullw { rt: 3, ra: 4, rb: 5, rc: false },
        0x7C64_29D3 => Insn::Mulld { rt: 3, ra: 4, rb: 5, rc: true },
        0x7C64_2BD2 => Insn::Divd { rt: 3, ra: 4, rb: 5, rc: false },
        0x7C64_2B93 => Insn::Divdu { rt: 3, ra: 4, rb: 5, rc: true },
    }
}

#[test]
fn logic_of_registers(rt: HostRuntime) {
    spelled! { rt;
        0x7C83_2838 => Insn::And { rs: 4, ra: 3, rb: 5, rc: false },
        0x7C83_2879 => Insn::Andc { rs: 4, ra: 3, rb: 5, rc: true },
        0x7C83_28F8 => Insn::Nor { rs: 4, ra: 3, rb: 5, rc: false },
        0x7C83_2A79 => Insn::Xor { rs: 4, ra: 3, rb: 5, rc: true },
        0x7C7F_2B78 => Insn::Or { rs: 3, ra: 31, rb: 5, rc: false },
        0x7C83_2831 => Insn::Slw { rs: 4, ra: 3, rb: 5, rc: true },
        0x7C83_2C30 => Insn::Srw { rs: 4, ra: 3, rb: 5, rc: false },
        0x7C83_2837 => Insn::Sld { rs: 4, ra: 3, rb: 5, rc: true },
        0x7C83_2C36 => Insn::Srd { rs: 4, ra: 3, rb: 5, rc: false },
        0x7C83_0775 => Insn::Extsb { rs: 4, ra: 3, rc: true },
        0x7C83_0734 => Insn::Extsh { rs: 4, ra: 3, rc: false },
        0x7C83_07B5 => Insn::Extsw { rs: 4, ra: 3, rc: true },
    }
}

// A word, and the bits of which each alone makes it another form: a reserved bit, one that another extended opcode has, the absolute bit of a
// branch, another special register.
const OTHERS: &str = "\
cmpli                                     | 2804FFFF | 00400000
cmpi                                      | 2C04FFFF | 00400000
bc                                        | 4182FFF8 | 00000002
b                                         | 48000008 | 00000002
sc                                        | 44000002 | 03FFFFFF
bclr                                      | 4E800020 | 0000E000
bcctr, where BO may not ask to lower CTR  | 4E800420 | 0080E000
rldicl                                    | 78830020 | 00000018
rldicr                                    | 788345E4 | 00000018
cmp                                       | 7C042800 | 00400001
cmpl                                      | 7C042840 | 00400001
add, whose form with overflow is left out | 7C642A14 | 00000400
subf                                      | 7C642850 | 00000400
neg                                       | 7C6400D0 | 0000FC00
mullw                                     | 7C6429D6 | 00000400
mulld                                     | 7C6429D2 | 00000400
divd                                      | 7C642BD2 | 00000400
divdu                                     | 7C642B92 | 00000400
extsb                                     | 7C830774 | 0000F800
extsh                                     | 7C830734 | 0000F800
extsw                                     | 7C8307B4 | 0000F800
ldx                                       | 7C64282A | 00000001
lwzx                                      | 7C64282E | 00000001
lbzx                                      | 7C6428AE | 00000001
lhzx                                      | 7C642A2E | 00000001
lhax                                      | 7C642AAE | 00000001
lwax                                      | 7C642AAA | 00000001
stdx                                      | 7C64292A | 00000001
stwx                                      | 7C64292E | 00000001
stbx                                      | 7C6429AE | 00000001
sthx                                      | 7C642B2E | 00000001
mfspr                                     | 7C0802A6 | 001EF801
mtspr                                     | 7D8903A6 | 001EF801
ld                                        | E8410018 | 00000001
lwa                                       | E864FFFE | 00000001
std                                       | F8410018 | 00000002
stdu, whose RA may not be 0               | F821FFE1 | 00010002
lwz, under primary opcode 33              | 80690008 | 04000000
addi, under primary opcode 6              | 3821FFE0 | 20000000";

#[test]
fn a_word_of_another_form_is_none(rt: HostRuntime) -> Result<(), Fail> {
    for line in OTHERS.lines() {
        let mut columns = line.split('|').skip(1);
        let word = columns.next().ok_or("a word is wanted")?.trim();
        let others = columns.next().ok_or("bits are wanted")?.trim();
        let word = u32::from_str_radix(word, 16)?;
        let others = u32::from_str_radix(others, 16)?;
        for place in 0..32u32 {
            if others >> place & 1 == 1 {
                assert!(rt; decode(word ^ 1 << place).is_none(), "{line}: bit {place}");
            }
        }
    }
    Ok(())
}

#[test]
fn words_that_linkers_write(rt: HostRuntime) {
    spelled! { rt;
        0x6000_0000 => Insn::Ori { rs: 0, ra: 0, ui: 0 },
        0x4E80_0020 => Insn::Bclr { bo: 20, bi: 0, bh: 0, lk: false },
        0x4E80_0420 => Insn::Bcctr { bo: 20, bi: 0, bh: 0, lk: false },
        0x4E80_0421 => Insn::Bcctr { bo: 20, bi: 0, bh: 0, lk: true },
        0x7D89_03A6 => Insn::Mtspr { rs: 12, spr: 9 },
        0x7C08_02A6 => Insn::Mfspr { rt: 0, spr: 8 },
        0x7C08_03A6 => Insn::Mtspr { rs: 0, spr: 8 },
        0xF841_0018 => Insn::Std { rs: 2, ra: 1, ds: 24 },
        0xE841_0018 => Insn::Ld { rt: 2, ra: 1, ds: 24 },
    }
}

#[test]
fn values_that_do_not_fit(rt: HostRuntime) {
    assert!(rt;
        !Insn::Addi {
            rt: 32,
            ra: 0,
            si: 0
        }
        .fits()
    );
    assert!(rt;
        !Insn::Addi {
            rt: 0,
            ra: 0,
            si: 0x8000
        }
        .fits()
    );
    assert!(rt;
        !Insn::Ld {
            rt: 0,
            ra: 0,
            ds: 2
        }
        .fits()
    );
    assert!(rt;
        !Insn::Stdu {
            rs: 0,
            ra: 0,
            ds: 0
        }
        .fits()
    );
    assert!(rt;
        !Insn::Bcctr {
            bo: 16,
            bi: 0,
            bh: 0,
            lk: false
        }
        .fits()
    );
    assert!(rt; !Insn::Mfspr { rt: 0, spr: 1 }.fits());
    let stdu = Insn::Stdu {
        rs: 1,
        ra: 1,
        ds: -32,
    };
    assert!(rt; stdu.fits());
    assert_eq!(rt; stdu.encode(), 0xF821_FFE1);
    assert!(rt; again(&stdu).is_some());
}
