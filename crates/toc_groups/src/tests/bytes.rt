// The bytes of data, worked by hand. Text sections stand one behind the other, each with 0x40 bytes, from where text starts.
ghost use Rattle.std.specs.Prelude.{◌≡◌, ◌<◌, ◌%◌, ◌^◌, IfOk, length};

use super::files::Named::{Absolute, Common, Here, In, Own, Perhaps};
use super::files::Room::{Constant, Data, Slots, Writable, Zeroed};
use super::files::{File, list_of};
use crate::{data_bytes, lay_data};
use elf64_exec::Segment;
use layout_rounds::{FarSet, Places, Shape, ShapeSection, group, place};
use object_builder::Record;
use object_set::{ObjectSet, Refusal};
use ppc_bytes::Steps;
use std::alloc::Global;
use std::marker::Brand;
use std::sync::ledger::{Blank, Ledger};
use std::test::Fail;
use symbol_table::resolve;

/// Kinds of relocation by their numbers (ELFv2 ABI, "Relocation Types Table").
const ADDR32: u32 = 1;

const REL32: u32 = 26;

const ADDR64: u32 = 38;

const REL64: u32 = 44;

const TOC: u32 = 51;

/// So many text sections of 0x40 bytes, from an address on.
fn texts<L: Ledger>(blank: Blank, alloc: Global, start: u64, count: u32) -> Result<Places, Fail>
    requires name { blank.name ≡ L.name }
    requires parts { blank.parts ≡ L.parts }
    requires some { 0 < L.parts }
    requires page { start % 0x10000 ≡ 0 }
    requires low { start < 0x60000000 }
    requires few { count < 2 ^ 28 }
    ensures { IfOk result (λ p. length p.sections ≡ count) }
{
    let section = ShapeSection {
        size: 0x40,
        align: 4,
        toc: 0,
    };
    let shape = Shape {
        start,
        sections: vec![in alloc; section; count as usize]?,
        sites: Vec::new(alloc),
    };
    let mut steps = Steps::<L>::new(blank);
    let keyed = group(alloc, &shape, 0x200_0000)?;
    let far = FarSet::none(alloc, &keyed)?;
    Ok(place(alloc, &keyed, &far, &mut steps)?)
}

/// The segments of files with a TOC span, or the first overflow.
fn outcome(
    alloc: Global,
    files: &[File],
    span: u32,
) -> Result<Result<Vec<Segment>, Refusal>, Fail> {
    if span % 8 != 0 || span < 16 || span > 0x1_0000 {
        return Err(Fail::new("no TOC span"));
    }
    let list = list_of(alloc, files)?;
    let list = list.as_slice();
    if list.len() > 4096 {
        return Err(Fail::new("too many files"));
    }
    let Ok(set) = ObjectSet::take(alloc, list) else {
        return Err(Fail::new("a file is refused"));
    };
    let Ok(res) = resolve(alloc, &set, b"_start") else {
        return Err(Fail::new("a record is refused"));
    };
    let Ok(plan) = lay_data(alloc, &res, span) else {
        return Err(Fail::new("data is refused"));
    };
    let (start, count) = (plan.text_start(), res.text_count());
    if start % 0x1_0000 != 0 || start >= 0x6000_0000 || count >= 0x1000_0000 {
        return Err(Fail::new("text is out of range"));
    }
    let text = texts::<Brand>(Blank::new(1), alloc, start, count)?;
    Ok(data_bytes(alloc, &res, &plan, &text))
}

/// A segment: its flags, address, bytes and size.
type Part = (u32, u64, &'static [u8], u64);

/// Files, the TOC span, and the segments of data.
type Row = (&'static [File], u32, &'static [Part]);

const ROWS: [Row; 5] = [
    // no data, no segments
    (&[File::EMPTY], 0x10000, &[]),
    // a slot of a code symbol, a part of the table of contents, and fields that are relative or hold the TOC base
    (
        &[File {
            rooms: &[
                Slots(
                    &[0; 8],
                    &[Record {
                        offset: 0,
                        kind: ADDR64,
                        symbol: 2,
                        addend: 0,
                    }],
                ),
                Data(
                    &[0x11; 16],
                    &[
                        Record {
                            offset: 4,
                            kind: REL32,
                            symbol: 2,
                            addend: 0,
                        },
                        Record {
                            offset: 8,
                            kind: TOC,
                            symbol: 0,
                            addend: 0,
                        },
                    ],
                ),
            ],
            symbols: &[Own, In(3, 8)],
            loads: &[1],
        }],
        0x10000,
        &[(
            6,
            0x1000_0000,
            &[
                0x00, 0x00, 0x01, 0x10, 0, 0, 0, 0, // the slot: text starts at 0x10010000
                0x18, 0x00, 0x00, 0x10, 0, 0, 0, 0, // 0x10000018, 8 bytes into the data
                0x11, 0x11, 0x11, 0x11, 4, 0, 0, 0, // 0x10000018 less 0x10000014
                0x00, 0x80, 0x00, 0x10, 0, 0, 0, 0, // the TOC base, 0x10008000
            ],
            0x20,
        )],
    ),
    // a segment that is only read, and one whose bytes no file has; a symbol of another file's text
    (
        &[
            File {
                rooms: &[
                    Constant(
                        &[0; 8],
                        &[Record {
                            offset: 0,
                            kind: ADDR64,
                            symbol: 1,
                            addend: 4,
                        }],
                    ),
                    Zeroed(8, 8),
                ],
                symbols: &[Here(b"f"), Common(b"c", 4, 4)],
                loads: &[],
            },
            File {
                rooms: &[Constant(
                    &[0; 12],
                    &[Record {
                        offset: 4,
                        kind: ADDR32,
                        symbol: 1,
                        addend: 0,
                    }],
                )],
                symbols: &[Here(b"g")],
                loads: &[],
            },
        ],
        0x10000,
        &[
            (
                4,
                0x1000_0000,
                &[
                    0x04, 0x00, 0x02, 0x10, 0, 0, 0, 0, // text starts at 0x10020000
                    0, 0, 0, 0, 0x40, 0x00, 0x02, 0x10, 0, 0, 0, 0,
                ],
                20,
            ),
            (6, 0x1001_0000, &[], 12),
        ],
    ),
    // the ends of ranges: -2^31 and 2^32 - 1 in 32 bits; all of 64 bits; a weak symbol that stands for nothing, with an addend
    (
        &[File {
            rooms: &[Data(
                &[0; 24],
                &[
                    Record {
                        offset: 0,
                        kind: ADDR32,
                        symbol: 0,
                        addend: -0x8000_0000,
                    },
                    Record {
                        offset: 4,
                        kind: ADDR32,
                        symbol: 1,
                        addend: 0,
                    },
                    Record {
                        offset: 8,
                        kind: REL64,
                        symbol: 0,
                        addend: 0,
                    },
                    Record {
                        offset: 16,
                        kind: ADDR64,
                        symbol: 2,
                        addend: -1,
                    },
                ],
            )],
            symbols: &[Absolute(0xFFFF_FFFF), Perhaps(b"w")],
            loads: &[],
        }],
        0x10000,
        &[(
            6,
            0x1000_0000,
            &[
                0x00, 0x00, 0x00, 0x80, 0xFF, 0xFF, 0xFF, 0xFF, 0xF8, 0xFF, 0xFF, 0xEF, 0xFF, 0xFF,
                0xFF, 0xFF, 0xFF, 0xFF, 0xFF, 0xFF, 0xFF, 0xFF, 0xFF, 0xFF,
            ],
            24,
        )],
    ),
    // zeros alone
    (
        &[File {
            rooms: &[Zeroed(3, 1)],
            ..File::EMPTY
        }],
        0x10000,
        &[(6, 0x1000_0000, &[], 3)],
    ),
];

#[test]
fn data_holds_what_the_rules_say(rt: HostRuntime) -> Result<(), Fail> {
    for (files, span, parts) in ROWS {
        let Ok(segments) = outcome(rt.alloc(), files, span)? else {
            return Err(Fail::new("a field overflows"));
        };
        assert_eq!(rt; segments.len(), parts.len());
        for i in 0..parts.len() {
            let (flags, address, bytes, size) = parts[i];
            assert_eq!(rt; segments[i].flags, flags);
            assert_eq!(rt; segments[i].address, address);
            assert_eq!(rt; segments[i].bytes.as_slice(), bytes);
            assert_eq!(rt; segments[i].size, size);
        }
    }
    Ok(())
}

/// Two groups, each with a slot of its own; an empty section and an empty common.
const TWO_GROUPS: [File; 2] = [
    File {
        rooms: &[Slots(&[0xAA; 8], &[]), Writable(0, 16)],
        symbols: &[Absolute(7)],
        loads: &[1],
    },
    File {
        rooms: &[Slots(
            &[0xBB; 8],
            &[Record {
                offset: 0,
                kind: TOC,
                symbol: 0,
                addend: 0,
            }],
        )],
        symbols: &[Absolute(9), Common(b"c", 0, 8)],
        loads: &[1],
    },
];

#[test]
fn each_group_has_its_own_slots_and_base(rt: HostRuntime) -> Result<(), Fail> {
    let Ok(segments) = outcome(rt.alloc(), &TWO_GROUPS, 16)? else {
        return Err(Fail::new("a field overflows"));
    };
    assert_eq!(rt; segments.len(), 1);
    assert_eq!(rt; segments[0].size, 0x110);
    let bytes = segments[0].bytes.as_slice();
    assert_eq!(rt; bytes.len(), 0x110);
    let (first, second) = bytes.split_at(0x100);
    assert_eq!(rt;
        &first[..16],
        [
            7, 0, 0, 0, 0, 0, 0, 0, 0xAA, 0xAA, 0xAA, 0xAA, 0xAA, 0xAA, 0xAA, 0xAA
        ]
        .as_slice()
    );
    assert!(rt; first[16..].iter().all(|byte| *byte == 0));
    assert_eq!(rt;
        second,
        [9, 0, 0, 0, 0, 0, 0, 0, 0x00, 0x81, 0x00, 0x10, 0, 0, 0, 0].as_slice()
    );
    Ok(())
}

/// A `.data` of 16 bytes with these records, and symbol 1, which is 2^32.
const OVERFLOWS: [([File; 1], u64, i128); 4] = [
    (
        [File {
            rooms: &[Data(
                &[0; 16],
                &[Record {
                    offset: 0,
                    kind: ADDR32,
                    symbol: 1,
                    addend: 0,
                }],
            )],
            symbols: &[Absolute(0x1_0000_0000)],
            loads: &[],
        }],
        0,
        0x1_0000_0000,
    ),
    (
        [File {
            rooms: &[Data(
                &[0; 16],
                &[Record {
                    offset: 4,
                    kind: ADDR32,
                    symbol: 0,
                    addend: -0x8000_0001,
                }],
            )],
            symbols: &[Absolute(0x1_0000_0000)],
            loads: &[],
        }],
        4,
        -0x8000_0001,
    ),
    (
        [File {
            rooms: &[Data(
                &[0; 16],
                &[Record {
                    offset: 8,
                    kind: REL32,
                    symbol: 0,
                    addend: 0x9000_0008,
                }],
            )],
            symbols: &[Absolute(0x1_0000_0000)],
            loads: &[],
        }],
        8,
        0x8000_0000,
    ),
    // the first in record order, not the one at the lowest offset
    (
        [File {
            rooms: &[Data(
                &[0; 16],
                &[
                    Record {
                        offset: 12,
                        kind: ADDR32,
                        symbol: 1,
                        addend: -1,
                    },
                    Record {
                        offset: 8,
                        kind: ADDR32,
                        symbol: 1,
                        addend: 5,
                    },
                    Record {
                        offset: 0,
                        kind: ADDR32,
                        symbol: 1,
                        addend: 1,
                    },
                ],
            )],
            symbols: &[Absolute(0x1_0000_0000)],
            loads: &[],
        }],
        8,
        0x1_0000_0005,
    ),
];

#[test]
fn the_first_overflow_is_told_with_its_value(rt: HostRuntime) -> Result<(), Fail> {
    for (files, offset, wanted) in OVERFLOWS {
        let Err(Refusal::Overflow(site, value)) = outcome(rt.alloc(), &files, 0x10000)? else {
            return Err(Fail::new("no field overflows"));
        };
        assert_eq!(rt; (site.file, site.section, site.offset), (0, 2, offset));
        assert_eq!(rt; value, wanted);
    }
    Ok(())
}
