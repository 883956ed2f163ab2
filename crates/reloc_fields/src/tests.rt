use crate::{Kind, check, fill, kind_of, value_of, width};
use std::str::SplitWhitespace;
use std::test::Fail;

// The field with a value in it, or `None` where it doesn't hold it.
fn filled(kind: Kind, old: u64, v: i128) -> Option<u64> {
    match check(kind, v) {
        Ok(()) => Some(fill(kind, old, v)),
        Err(_) => None,
    }
}

// For each kind with a check: its number, the bytes of its field, and four values in hex, which are the ends of its range between
// the next past each. Where a kind asks for a multiple of 4 alone, the ends are two multiples, each with a neighbour that is none.
const RANGES: &str = "1 4 -80000001 -80000000 FFFFFFFF 100000000
3 4 -8001 -8000 7FFF 8000
5 4 -80000001 -80000000 7FFFFFFF 80000000
6 4 -80008001 -80008000 7FFF7FFF 7FFF8000
10 4 -2000004 -2000000 1FFFFFC 2000000
11 4 -8004 -8000 7FFC 8000
26 4 -80000001 -80000000 7FFFFFFF 80000000
47 4 -8001 -8000 7FFF 8000
49 4 -80000001 -80000000 7FFFFFFF 80000000
50 4 -80008001 -80008000 7FFF7FFF 7FFF8000
56 4 -8004 -8000 7FFC 8000
57 4 -8001 -8000 8000 8001
63 4 -8004 -8000 7FFC 8000
64 4 -7FFE -8000 8000 8002
116 4 -2000004 -2000000 1FFFFFC 2000000
132 8 -200000001 -200000000 1FFFFFFFF 200000000
133 8 -200000001 -200000000 1FFFFFFFF 200000000
252 4 -80008001 -80008000 7FFF7FFF 7FFF8000";

// The kind of a row's first column, whose width is the second.
fn kind_in<'a>(columns: &mut SplitWhitespace<'a>) -> Result<Kind, Fail> {
    let number: u32 = columns.next().ok_or("a number is wanted")?.parse()?;
    let bytes: u32 = columns.next().ok_or("a width is wanted")?.parse()?;
    match kind_of(number) {
        Some(kind) if width(kind) == bytes => Ok(kind),
        _ => Err(Fail::new("another kind or width")),
    }
}

// Whether the kind holds the number of a row's next column.
fn holds<'a>(kind: Kind, columns: &mut SplitWhitespace<'a>) -> Result<bool, Fail> {
    let text = columns.next().ok_or("a value is wanted")?;
    Ok(check(kind, i128::from_str_radix(text, 16)?).is_ok())
}

#[test]
fn each_kind_holds_its_range_and_nothing_past_it(rt: HostRuntime) -> Result<(), Fail> {
    for line in RANGES.lines() {
        let mut columns = line.split_whitespace();
        let kind = kind_in(&mut columns)?;
        for wanted in [false, true, true, false] {
            assert_eq!(rt; holds(kind, &mut columns)?, wanted, "{line}");
        }
    }
    Ok(())
}

// Kinds without a check, with the bytes of their fields, and numbers of no kind.
const UNCHECKED: &str = "0 0
4 4
38 8
44 8
48 4
51 8
109 0
123 0
250 4";

#[test]
fn kinds_without_a_check_hold_every_value(rt: HostRuntime) -> Result<(), Fail> {
    for line in UNCHECKED.lines() {
        let kind = kind_in(&mut line.split_whitespace())?;
        assert!(rt; check(kind, i128::MIN).is_ok(), "{line}");
        assert!(rt; check(kind, i128::MAX).is_ok(), "{line}");
    }
    for number in [2, 7, 9, 12, 58, 67, 131, 249, 251, 253, u32::MAX] {
        assert!(rt; kind_of(number).is_none(), "a kind {number}");
    }
    Ok(())
}

#[test]
fn toc_halves_of_0x8000(rt: HostRuntime) {
    assert_eq!(rt; fill(Kind::Toc16Ha, 0x3D22_0000, 0x8000), 0x3D22_0001);
    assert_eq!(rt; fill(Kind::Toc16Lo, 0x3929_0000, 0x8000), 0x3929_8000);
}

#[test]
fn branch_field_range_ends(rt: HostRuntime) {
    assert_eq!(rt;
        filled(Kind::Rel24, 0x4800_0001, -0x200_0000),
        Some(0x4A00_0001)
    );
    assert_eq!(rt; filled(Kind::Rel24, 0x4800_0001, 0x200_0000), None);
    assert_eq!(rt; filled(Kind::Rel24, 0x4800_0001, 2), None);
}

#[test]
fn each_filling_keeps_the_other_bits(rt: HostRuntime) {
    let rows = [
        (Kind::None, 0x1234_5678_9ABC_DEF0, 7, 0x1234_5678_9ABC_DEF0),
        (
            Kind::Addr32,
            0x1234_5678_9ABC_DEF0,
            -2,
            0x1234_5678_FFFF_FFFE,
        ),
        (
            Kind::Addr64,
            0x1234_5678_9ABC_DEF0,
            -2,
            0xFFFF_FFFF_FFFF_FFFE,
        ),
        (Kind::Addr16, 0x3860_1234, -1, 0x3860_FFFF),
        (Kind::Addr16Lo, 0x3863_0000, 0x1234_8765, 0x3863_8765),
        (Kind::Addr16Hi, 0x3C60_FFFF, 0x1234_8765, 0x3C60_1234),
        (Kind::Addr16Ha, 0x3C60_FFFF, 0x1234_8765, 0x3C60_1235),
        (Kind::Rel16Ha, 0x3C4C_0000, -0x8001, 0x3C4C_FFFF),
        (Kind::Rel16Lo, 0x3842_0000, -0x8001, 0x3842_7FFF),
        (Kind::Rel24Notoc, 0x4BFF_FFFD, 0x40, 0x4800_0041),
        (Kind::Rel14, 0x4182_0003, -4, 0x4182_FFFF),
        (Kind::Toc16Ds, 0xE922_FFFC, -0x8000, 0xE922_8000),
        (Kind::Addr16LoDs, 0xE869_0001, 0x1234_8764, 0xE869_8765),
        (
            Kind::Pcrel34,
            0x3860_0000_0610_0000,
            -4,
            0x3860_FFFC_0613_FFFF,
        ),
        (
            Kind::GotPcrel34,
            0xE520_0000_0410_0000,
            0x1_2345_6789,
            0xE520_6789_0411_2345,
        ),
    ];
    for (kind, old, v, new) in rows {
        assert_eq!(rt; filled(kind, old, v), Some(new), "{kind:?}");
    }
}

#[test]
fn values_do_not_wrap(rt: HostRuntime) {
    let rows = [
        (Kind::None, 1, 2, 3, 4, 0),
        (Kind::Tocsave, 1, 2, 3, 4, 0),
        (Kind::PcrelOpt, 1, 12, 3, 4, 12),
        (Kind::Toc, 1, 2, 3, 0x1000_8000, 0x1000_8000),
        (
            Kind::Addr64,
            u64::MAX,
            i64::MAX,
            3,
            4,
            0x1_7FFF_FFFF_FFFF_FFFE,
        ),
        (
            Kind::Rel64,
            0,
            i64::MIN,
            u64::MAX,
            4,
            -0x1_7FFF_FFFF_FFFF_FFFF,
        ),
        (Kind::Toc16LoDs, 0x1000_0002, 0, 3, 0x1000_8000, -32766),
        (Kind::GotPcrel34, 0x1000_0008, 0, 0x1001_0000, 4, -0xFFF8),
        (Kind::Rel24, 0x1000_0040, -4, 0x1000_0080, 4, -0x44),
    ];
    for (kind, s, a, p, toc, v) in rows {
        assert!(rt; value_of(kind, s, a, p, toc) == v, "{kind:?}");
    }
}
