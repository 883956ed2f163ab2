use crate::{PInsn, POp, as_prefixed, decode_pair, encode_pair, plan_for_pair};
use power_insns::decode;
use power_insns::meaning::{Operand, Operation, Sign, Width};

#[test]
fn paddi_minus_four_both_ways(rt: HostRuntime) {
    let insn = PInsn {
        op: POp::Paddi,
        rt: 3,
        ra: 0,
        relative: true,
        disp: -4,
    };
    assert!(rt; insn.fits());
    assert!(rt; encode_pair(&insn) == (0x0613_FFFF, 0x3860_FFFC));
    assert_eq!(rt; decode_pair(0x0613_FFFF, 0x3860_FFFC), Some(insn));
}

#[test]
fn each_mnemonic_at_both_ends_of_the_displacement(rt: HostRuntime) {
    let lines = [
        (POp::Paddi, 0x0600_0000, 0x3864_0000),
        (POp::Plwz, 0x0600_0000, 0x8064_0000),
        (POp::Plbz, 0x0600_0000, 0x8864_0000),
        (POp::Pstw, 0x0600_0000, 0x9064_0000),
        (POp::Pstb, 0x0600_0000, 0x9864_0000),
        (POp::Plhz, 0x0600_0000, 0xA064_0000),
        (POp::Plwa, 0x0400_0000, 0xA464_0000),
        (POp::Plha, 0x0600_0000, 0xA864_0000),
        (POp::Psth, 0x0600_0000, 0xB064_0000),
        (POp::Pld, 0x0400_0000, 0xE464_0000),
        (POp::Pstd, 0x0400_0000, 0xF464_0000),
    ];
    let ends = [
        (-0x2_0000_0000, 0x2_0000, 0),
        (0x1_FFFF_FFFF, 0x1_FFFF, 0xFFFF),
    ];
    for (op, prefix, suffix) in lines {
        for (disp, high, low) in ends {
            let insn = PInsn {
                op,
                rt: 3,
                ra: 4,
                relative: false,
                disp,
            };
            assert!(rt; insn.fits());
            assert!(rt;
                encode_pair(&insn) == (prefix | high, suffix | low),
                "{insn:?}"
            );
            assert_eq!(rt; decode_pair(prefix | high, suffix | low), Some(insn));
        }
    }
}

#[test]
fn other_words_are_no_pair(rt: HostRuntime) {
    let others = [
        // another primary opcode; reserved bits 8 and 13; another type; R with a base register
        (0x0A00_0000, 0x3864_0000),
        (0x0680_0000, 0x3864_0000),
        (0x0604_0000, 0x3864_0000),
        (0x0500_0000, 0x3864_0000),
        (0x0610_0000, 0x3864_0000),
        // the opcodes of the other type
        (0x0400_0000, 0x3864_0000),
        (0x0600_0000, 0xE464_0000),
    ];
    for (prefix, suffix) in others {
        assert_eq!(rt; decode_pair(prefix, suffix), None, "{prefix:x} {suffix:x}");
    }
    let wide = PInsn {
        op: POp::Pld,
        rt: 3,
        ra: 0,
        relative: true,
        disp: 0x2_0000_0000,
    };
    assert!(rt; !wide.fits());
}

#[test]
fn a_relative_load_reaches_from_its_own_address(rt: HostRuntime) {
    let near = PInsn {
        op: POp::Plwa,
        rt: 3,
        ra: 0,
        relative: true,
        disp: -8,
    };
    assert!(rt; near.fits());
    assert!(rt;
        matches!(
            plan_for_pair(&near),
            Operation::Load {
                width: Width::Word,
                sign: Sign::Signed,
                to: 3,
                base: Operand::Here(0xFFFF_FFFF_FFFF_FFF8),
                offset: Operand::Fixed(0),
            }
        )
    );
    let based = PInsn {
        op: POp::Pstd,
        rt: 3,
        ra: 9,
        relative: false,
        disp: 8,
    };
    assert!(rt; based.fits());
    assert!(rt;
        matches!(
            plan_for_pair(&based),
            Operation::Store {
                width: Width::Long,
                from: 3,
                base: Operand::Register(9),
                offset: Operand::Fixed(8),
                update: None,
            }
        )
    );
}

#[test]
fn ten_loads_and_stores_have_a_prefixed_form(rt: HostRuntime) {
    // with r3 and 8(r9): each mnemonic, and what it becomes where 16 bytes back is meant
    let forms = [
        ("lwz", 0x8069_0008, Some((0x0613_FFFF, 0x8060_FFF0))),
        ("lbz", 0x8869_0008, Some((0x0613_FFFF, 0x8860_FFF0))),
        ("lhz", 0xA069_0008, Some((0x0613_FFFF, 0xA060_FFF0))),
        ("lha", 0xA869_0008, Some((0x0613_FFFF, 0xA860_FFF0))),
        ("lwa", 0xE869_000A, Some((0x0413_FFFF, 0xA460_FFF0))),
        ("ld", 0xE869_0008, Some((0x0413_FFFF, 0xE460_FFF0))),
        ("stw", 0x9069_0008, Some((0x0613_FFFF, 0x9060_FFF0))),
        ("stb", 0x9869_0008, Some((0x0613_FFFF, 0x9860_FFF0))),
        ("sth", 0xB069_0008, Some((0x0613_FFFF, 0xB060_FFF0))),
        ("std", 0xF869_0008, Some((0x0413_FFFF, 0xF460_FFF0))),
        ("stdu", 0xF869_0009, None),
        ("addi", 0x3869_0008, None),
        ("lwzx", 0x7C69_402E, None),
    ];
    for (mnemonic, word, pair) in forms {
        let found = match decode(word) {
            Some(insn) => as_prefixed(&insn, -16).map(|pair| encode_pair(&pair)),
            None => None,
        };
        assert!(rt; found == pair, "{mnemonic}");
    }
}
