// How records use foldable slots.
use crate::TocRecord;
use reloc_fields::Kind;
use std::test::Fail;

/// A record, whether its file is orderly, and what follows: its number where its own value is 8, whether its load is folded, and whether
/// its word is rewritten.
type Row = (Kind, u32, Option<i128>, bool, i128, bool, bool);

const ROWS: [Row; 10] = [
    (
        Kind::Toc16Ha,
        0x3D22_0000,
        Some(0x9000),
        true,
        0x9000,
        false,
        true,
    ),
    (Kind::Toc16Ha, 0x3D22_0000, None, true, 8, false, true),
    (Kind::Toc16Ha, 0x3D22_0000, None, false, 8, false, false),
    (
        Kind::Toc16LoDs,
        0xE929_0000,
        Some(0x9000),
        true,
        0x9000,
        true,
        true,
    ),
    (Kind::Toc16LoDs, 0xE929_0000, None, true, 8, false, true),
    (Kind::Toc16Lo, 0x3929_0000, None, true, 8, false, true),
    // a small load is folded where the number is small
    (
        Kind::Toc16Ds,
        0xE862_0000,
        Some(-0x7FF8),
        false,
        -0x7FF8,
        true,
        true,
    ),
    (
        Kind::Toc16Ds,
        0xE862_0000,
        Some(0x8000),
        true,
        0x8000,
        false,
        false,
    ),
    // from another base it is a plain field
    (
        Kind::Toc16Ds,
        0xE863_0000,
        Some(-0x7FF8),
        true,
        8,
        false,
        false,
    ),
    (Kind::Addr16Ha, 0x3D22_0000, None, true, 8, false, false),
];

#[test]
fn records_take_what_slots_hold(rt: HostRuntime) -> Result<(), Fail> {
    for (i, (kind, word, slot, orderly, number, folded, rewritten)) in ROWS.iter().enumerate() {
        let record = TocRecord {
            kind: *kind,
            word: *word,
            slot: *slot,
        };
        assert_eq!(rt; record.number(8), *number, "{i}");
        assert_eq!(rt; record.is_folded_load(), *folded, "{i}");
        assert_eq!(rt; record.is_rewritten(*orderly), *rewritten, "{i}");
    }
    Ok(())
}
