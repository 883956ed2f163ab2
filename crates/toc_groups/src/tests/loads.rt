// Slots, and what is read of a plan.
use super::files::Named::{Elsewhere, Here, Own, Perhaps};
use super::files::Room::Toc;
use super::files::{File, plan};
use crate::DataPlan;
use std::test::Fail;
use symbol_table::Target;

/// Two files of one group, the second of which shares the slots of two names; a third one that begins the next group.
const FILES: [File; 3] = [
    File {
        rooms: &[Toc(8, 8)],
        symbols: &[Own, Own, Here(b"f"), Perhaps(b"w")],
        loads: &[4, 2, 3, 2, 0],
    },
    File {
        rooms: &[],
        symbols: &[Own, Perhaps(b"w"), Elsewhere(b"f")],
        loads: &[3, 1, 2],
    },
    File {
        rooms: &[],
        symbols: &[Own, Elsewhere(b"f"), Perhaps(b"v")],
        loads: &[3, 2],
    },
];

/// The slot of a symbol of a file, which has one with this number.
fn slot(plan: &DataPlan, file: u32, symbol: u32) -> Result<Option<u64>, Fail> {
    if plan.has_symbol(file, symbol) {
        Ok(plan.slot(file, symbol))
    } else {
        Err(Fail::new("no such symbol"))
    }
}

/// The address of an offset from the TOC base of a file, and the base.
fn base(plan: &DataPlan, file: u32, addend: i64) -> Result<(Option<u64>, u64), Fail> {
    if plan.has_file(file) {
        Ok((
            plan.address(Target::TocBase { file, addend }),
            plan.base_of(file),
        ))
    } else {
        Err(Fail::new("no such file"))
    }
}

#[test]
fn a_name_has_one_slot_in_a_group(rt: HostRuntime) -> Result<(), Fail> {
    let plan = plan(rt.alloc(), &FILES, 48)?;
    assert_eq!(rt; plan.groups(), [0, 0, 1].as_slice());
    let wanted: [(u32, u32, Option<u64>); 12] = [
        (0, 4, Some(0x1000_0000)),
        (0, 2, Some(0x1000_0008)),
        (0, 3, Some(0x1000_0010)),
        (0, 0, Some(0x1000_0018)),
        (0, 1, None),
        (1, 3, Some(0x1000_0010)),
        (1, 1, Some(0x1000_0020)),
        (1, 2, Some(0x1000_0000)),
        (1, 0, None),
        (2, 3, Some(0x1000_0100)),
        (2, 2, Some(0x1000_0108)),
        (2, 1, None),
    ];
    for (file, symbol, wanted) in wanted {
        assert_eq!(rt; slot(&plan, file, symbol)?, wanted);
    }
    Ok(())
}

#[test]
fn targets_have_addresses_but_for_those_in_text(rt: HostRuntime) -> Result<(), Fail> {
    let plan = plan(rt.alloc(), &FILES, 48)?;
    let code = Target::Code {
        section: 0,
        offset: 4,
    };
    assert_eq!(rt; plan.address(code), None);
    assert_eq!(rt; plan.address(Target::Number(7)), Some(7));
    assert_eq!(rt; base(&plan, 2, -8)?, (Some(0x1000_80F8), 0x1000_8100));
    assert_eq!(rt;
        plan.address(Target::WeakNone(-1)),
        Some(0xFFFF_FFFF_FFFF_FFFF)
    );
    Ok(())
}
