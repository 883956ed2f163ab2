// Where groups, sections and commons lie.
use super::files::Named::Common;
use super::files::Room::{ReadOnly, Toc, Writable, Zeroed};
use super::files::{File, laid, plan};
use object_set::Refusal;
use std::test::Fail;

/// Files, the TOC span, and what is laid out: the group and the base of each file, the address of each section and common, and where
/// text starts.
type Row = (
    &'static [File],
    u32,
    &'static [u32],
    &'static [u64],
    &'static [u64],
    u64,
);

/// A `.toc` of so many bytes.
const TOC_SIX: File = File {
    rooms: &[Toc(16, 8)],
    ..File::EMPTY
};

const ROWS: [Row; 8] = [
    // a `.toc` as large as the span, and one of 8 bytes
    (
        &[
            File {
                rooms: &[Toc(0x10000, 8)],
                ..File::EMPTY
            },
            File {
                rooms: &[Toc(8, 8)],
                ..File::EMPTY
            },
        ],
        0x10000,
        &[0, 1],
        &[0x1000_8000, 0x1001_8000],
        &[0, 0, 0x1000_0000, 0, 0, 0, 0, 0, 0x1001_0000, 0, 0, 0],
        0x1002_0000,
    ),
    // no data: an empty group has a base, and text starts where the image does
    (
        &[File::EMPTY],
        0x10000,
        &[0],
        &[0x1000_8000],
        &[0, 0, 0, 0, 0],
        0x1000_0000,
    ),
    // each sort behind the ones before, commons last in first-seen order; an empty section takes no room
    (
        &[
            File {
                rooms: &[
                    Zeroed(4, 4),
                    Writable(8, 8),
                    ReadOnly(3, 1),
                    Toc(8, 8),
                    Writable(0, 16),
                ],
                symbols: &[Common(b"b", 8, 8), Common(b"a", 4, 4)],
                loads: &[],
            },
            File {
                rooms: &[Zeroed(4, 16), ReadOnly(2, 2), Toc(8, 32)],
                symbols: &[Common(b"a", 16, 16)],
                loads: &[],
            },
        ],
        0x10000,
        &[0, 0],
        &[0x1001_8000, 0x1001_8000],
        &[
            0,
            0,
            0x1001_0030,
            0x1001_0028,
            0x1000_0000,
            0x1001_0000,
            0x1001_0030,
            0,
            0,
            0,
            0,
            0,
            0x1001_0040,
            0x1000_0004,
            0x1001_0020,
            0,
            0,
            0,
            0x1001_0048,
            0x1001_0050,
        ],
        0x1002_0000,
    ),
    // a file that fills the span to the byte stays in the group
    (
        &[TOC_SIX, TOC_SIX],
        32,
        &[0, 0],
        &[0x1000_8000, 0x1000_8000],
        &[0, 0, 0x1000_0000, 0, 0, 0, 0, 0, 0x1000_0010, 0, 0, 0],
        0x1001_0000,
    ),
    // one byte more begins a new group
    (
        &[TOC_SIX, TOC_SIX],
        24,
        &[0, 1],
        &[0x1000_8000, 0x1000_8100],
        &[0, 0, 0x1000_0000, 0, 0, 0, 0, 0, 0x1000_0100, 0, 0, 0],
        0x1001_0000,
    ),
    // a `.toc` larger than the span is alone; a file without one begins a group that has no bytes
    (
        &[
            File {
                rooms: &[Toc(40, 8)],
                ..File::EMPTY
            },
            File::EMPTY,
            TOC_SIX,
        ],
        32,
        &[0, 1, 1],
        &[0x1000_8000, 0x1000_8100, 0x1000_8100],
        &[
            0,
            0,
            0x1000_0000,
            0,
            0,
            0,
            0,
            0,
            0,
            0,
            0,
            0,
            0,
            0x1000_0100,
            0,
            0,
            0,
        ],
        0x1001_0000,
    ),
    // slots come first, and move the sections behind them; the file that comes with a slot more moves the one before
    (
        &[
            File {
                rooms: &[Toc(8, 16)],
                symbols: &[Common(b"a", 0, 1)],
                loads: &[1],
            },
            File {
                rooms: &[Toc(8, 8)],
                symbols: &[Common(b"b", 0, 1), Common(b"c", 0, 1)],
                loads: &[1, 2],
            },
        ],
        0x10000,
        &[0, 0],
        &[0x1000_8000, 0x1000_8000],
        &[
            0,
            0,
            0x1000_0020,
            0,
            0,
            0,
            0,
            0,
            0,
            0x1000_0028,
            0,
            0,
            0,
            0,
            0x1000_0030,
            0x1000_0030,
            0x1000_0030,
        ],
        0x1001_0000,
    ),
    // a `.bss` as large as data may be
    (
        &[File {
            rooms: &[Zeroed(0x3000_0000, 8)],
            ..File::EMPTY
        }],
        0x10000,
        &[0],
        &[0x1000_8000],
        &[0, 0, 0x1000_0000, 0, 0, 0],
        0x4000_0000,
    ),
];

#[test]
fn data_lies_where_the_rules_say(rt: HostRuntime) -> Result<(), Fail> {
    for (files, span, groups, bases, pieces, text_start) in ROWS {
        let plan = plan(rt.alloc(), files, span)?;
        assert_eq!(rt; plan.groups(), groups);
        assert_eq!(rt; plan.bases(), bases);
        assert_eq!(rt; plan.pieces(), pieces);
        assert_eq!(rt; plan.text_start(), text_start);
    }
    Ok(())
}

/// Files whose data is too big.
const TOO_BIG: [&[File]; 3] = [
    &[File {
        rooms: &[Zeroed(0x3000_0001, 8)],
        ..File::EMPTY
    }],
    &[File {
        rooms: &[Zeroed(0xFFFF_FFFF_FFFF_FFFF, 1)],
        ..File::EMPTY
    }],
    &[File {
        rooms: &[ReadOnly(1, 1)],
        symbols: &[Common(b"a", 0x2FFF_0001, 1)],
        loads: &[],
    }],
];

#[test]
fn more_data_is_too_big(rt: HostRuntime) -> Result<(), Fail> {
    for files in TOO_BIG {
        assert!(rt; matches!(laid(rt.alloc(), files, 0x10000)?, Err(Refusal::DataTooBig)));
    }
    Ok(())
}
