// Words of texts that a link rewrites. Data begins at 0x10000000, the TOC base is 0x10008000, and text starts at 0x10010000.
use super::jobs::Named::{At, Elsewhere, Global as Public, Number};
use super::jobs::{Code, File, Words, outcome};
use std::alloc::Global;
use std::process::Abort;
use std::test::Fail;

/// Kinds of relocation by their numbers (ELFv2 ABI, "Relocation Types Table").
const ADDR64: u32 = 38;

const TOC16_LO: u32 = 48;

const TOC16_HA: u32 = 50;

const TOC16_DS: u32 = 63;

const TOC16_LO_DS: u32 = 64;

const PCREL_OPT: u32 = 123;

const GOT_PCREL34: u32 = 133;

/// A file, and the words of its text.
type Row = (File, Words);

/// A slot of a function of the text, and what lies in data, each by a high and a low half: the function's address is made in place of
/// the slot's load, and data is near enough to the TOC base for one half.
const FOLDED: Row = (
    File {
        texts: &[Code {
            words: Words {
                size: 0x34,
                words: &[
                    (8, 0x3D22_0000),
                    (0xC, 0xE929_0000),
                    (0x10, 0x3D42_0000),
                    (0x14, 0xE94A_0000),
                    (0x18, 0x7C29_5000),
                    (0x30, 0x4E80_0020),
                ],
            },
            records: &[
                (8, TOC16_HA, 1, 0),
                (0xC, TOC16_LO_DS, 1, 0),
                (0x10, TOC16_HA, 2, 0),
                (0x14, TOC16_LO_DS, 2, 0),
            ],
        }],
        toc: 8,
        slots: &[(0, ADDR64, 3, 0)],
        data: 8,
        symbols: &[
            At(2, 0, 0),
            At(3, 0, 0),
            At(1, 0x30, 0),
            Public(b"_start", 0, 1),
        ],
    },
    Words {
        size: 0x34,
        words: &[
            (8, 0x3D22_0001),
            (0xC, 0x3929_8030),
            (0x10, 0x6000_0000),
            (0x14, 0xE942_8008),
            (0x18, 0x7C29_5000),
            (0x30, 0x4E80_0020),
        ],
    },
);

/// The same slot, of which a third word makes the address: it is loaded.
const NAMED: Row = (
    File {
        texts: &[Code {
            words: Words {
                size: 0x34,
                words: &[
                    (8, 0x3D22_0000),
                    (0xC, 0xE929_0000),
                    (0x10, 0x3909_0000),
                    (0x30, 0x4E80_0020),
                ],
            },
            records: &[
                (8, TOC16_HA, 1, 0),
                (0xC, TOC16_LO_DS, 1, 0),
                (0x10, TOC16_LO, 1, 0),
            ],
        }],
        toc: 8,
        slots: &[(0, ADDR64, 2, 0)],
        data: 8,
        symbols: &[At(2, 0, 0), At(1, 0x30, 0), Public(b"_start", 0, 1)],
    },
    Words {
        size: 0x34,
        words: &[
            (8, 0x6000_0000),
            (0xC, 0xE922_8000),
            (0x10, 0x3902_8000),
            (0x30, 0x4E80_0020),
        ],
    },
);

/// Slots that words load by one half: data is near, and a function in text isn't.
const SMALL: Row = (
    File {
        texts: &[Code {
            words: Words {
                size: 0x34,
                words: &[(0, 0xE862_0000), (4, 0xE882_0000), (0x30, 0x4E80_0020)],
            },
            records: &[(0, TOC16_DS, 1, 0), (4, TOC16_DS, 1, 8)],
        }],
        toc: 16,
        slots: &[(0, ADDR64, 2, 0), (8, ADDR64, 3, 0)],
        data: 8,
        symbols: &[
            At(2, 0, 0),
            At(3, 0, 0),
            At(1, 0x30, 0),
            Public(b"_start", 0, 1),
        ],
    },
    Words {
        size: 0x34,
        words: &[(0, 0x3862_8010), (4, 0xE882_8008), (0x30, 0x4E80_0020)],
    },
);

/// A load of the address of data behind one slot, and an access eight bytes past it, with a sum of registers between.
const PAIRED: Row = (
    File {
        texts: &[Code {
            words: Words {
                size: 0x14,
                words: &[
                    (0, 0x0410_0000),
                    (4, 0xE520_0000),
                    (8, 0x7CA6_3A14),
                    (0xC, 0x8069_0008),
                    (0x10, 0x4E80_0020),
                ],
            },
            records: &[(0, GOT_PCREL34, 1, 0), (0, PCREL_OPT, 1, 12)],
        }],
        toc: 0,
        slots: &[],
        data: 16,
        symbols: &[At(3, 0, 0), Public(b"_start", 0, 1)],
    },
    Words {
        size: 0x14,
        words: &[
            (0, 0x0613_FFFF),
            (4, 0x8060_0010),
            (8, 0x7CA6_3A14),
            (0xC, 0x6000_0000),
            (0x10, 0x4E80_0020),
        ],
    },
);

/// With a store between them the address is made, and the access stays.
const STORED: Row = (
    File {
        texts: &[Code {
            words: Words {
                size: 0x14,
                words: &[
                    (0, 0x0410_0000),
                    (4, 0xE520_0000),
                    (8, 0x90C1_0000),
                    (0xC, 0x8069_0008),
                    (0x10, 0x4E80_0020),
                ],
            },
            records: &[(0, GOT_PCREL34, 1, 0), (0, PCREL_OPT, 1, 12)],
        }],
        toc: 0,
        slots: &[],
        data: 16,
        symbols: &[At(3, 0, 0), Public(b"_start", 0, 1)],
    },
    Words {
        size: 0x14,
        words: &[
            (0, 0x0613_FFFF),
            (4, 0x3920_0008),
            (8, 0x90C1_0000),
            (0xC, 0x8069_0008),
            (0x10, 0x4E80_0020),
        ],
    },
);

/// Two numbers: 8, which a sum reaches, and 2^40, which is loaded from its slot.
const NUMBERS: Row = (
    File {
        texts: &[Code {
            words: Words {
                size: 0x14,
                words: &[
                    (0, 0x0410_0000),
                    (4, 0xE520_0000),
                    (8, 0x0410_0000),
                    (0xC, 0xE540_0000),
                    (0x10, 0x4E80_0020),
                ],
            },
            records: &[(0, GOT_PCREL34, 1, 0), (8, GOT_PCREL34, 2, 0)],
        }],
        toc: 0,
        slots: &[],
        data: 0,
        symbols: &[Number(8), Number(0x100_0000_0000), Public(b"_start", 0, 1)],
    },
    Words {
        size: 0x14,
        words: &[
            (0, 0x0613_EFFF),
            (4, 0x3920_0008),
            (8, 0x0413_FFFF),
            (0xC, 0xE540_0000),
            (0x10, 0x4E80_0020),
        ],
    },
);

/// Whether the text of a file is this.
fn becomes(rt: &impl Abort, alloc: Global, row: Row) -> Result<(), Fail> {
    let (file, wanted) = row;
    let Ok(text) = outcome(alloc, &[file], 0x200_0000)? else {
        return Err(Fail::new("the text is refused"));
    };
    assert_eq!(rt; text.as_slice(), wanted.bytes(alloc)?.as_slice());
    Ok(())
}

#[test]
fn a_foldable_slot_is_left_out(rt: HostRuntime) -> Result<(), Fail> {
    becomes(&rt, rt.alloc(), FOLDED)
}

#[test]
fn a_third_user_forbids_the_fold(rt: HostRuntime) -> Result<(), Fail> {
    becomes(&rt, rt.alloc(), NAMED)
}

#[test]
fn a_slot_is_left_out_by_one_half_where_it_holds_what_is_near(rt: HostRuntime) -> Result<(), Fail> {
    becomes(&rt, rt.alloc(), SMALL)
}

#[test]
fn a_load_and_its_access_become_one_instruction(rt: HostRuntime) -> Result<(), Fail> {
    becomes(&rt, rt.alloc(), PAIRED)
}

#[test]
fn a_store_forbids_the_pair(rt: HostRuntime) -> Result<(), Fail> {
    becomes(&rt, rt.alloc(), STORED)
}

#[test]
fn a_load_of_an_address_becomes_a_sum_where_it_is_near(rt: HostRuntime) -> Result<(), Fail> {
    becomes(&rt, rt.alloc(), NUMBERS)
}
