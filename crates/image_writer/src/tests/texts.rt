// Texts by their words. Where nothing is said, data is empty, text starts at 0x10000000, and the TOC base is 0x10008000.
use super::jobs::Named::{At, Elsewhere, Global as Public, Perhaps};
use super::jobs::{Code, File, Words, outcome};
use object_set::Refusal;
use std::test::Fail;

/// Kinds of relocation by their numbers (ELFv2 ABI, "Relocation Types Table").
const REL24: u32 = 10;

const TOC16_LO: u32 = 48;

const TOC16_HA: u32 = 50;

const TOC16_LO_DS: u32 = 64;

const REL24_NOTOC: u32 = 116;

const REL16_LO: u32 = 250;

const REL16_HA: u32 = 252;

const LARGEST_SPAN: u32 = 0x200_0000;

/// Files, the branch span, and the words of their text.
type Row = (&'static [File], u32, Words);

/// A call of a function that may change r2: a stub saves it.
const SAVED: Row = (
    &[File {
        texts: &[Code {
            words: Words {
                size: 0x44,
                words: &[
                    (0, 0x3C4C_0000),
                    (4, 0x3842_0000),
                    (8, 0x4800_0001),
                    (0xC, 0x6000_0000),
                    (0x40, 0x4E80_0020),
                ],
            },
            records: &[(0, REL16_HA, 3, 0), (4, REL16_LO, 3, 4), (8, REL24, 1, 0)],
        }],
        toc: 0,
        slots: &[],
        data: 0,
        symbols: &[At(1, 0x40, 1), Public(b"_start", 0, 3), Elsewhere(b".TOC.")],
    }],
    LARGEST_SPAN,
    Words {
        size: 0x90,
        words: &[
            (0, 0x3C4C_0001),
            (4, 0x3842_8000),
            (8, 0x4800_0079),
            (0xC, 0xE841_0018),
            (0x40, 0x4E80_0020),
            (0x80, 0xF841_0018),
            (0x84, 0x4BFF_FFBC),
            (0x88, 0x6000_0000),
            (0x8C, 0x6000_0000),
        ],
    },
);

/// A call into another TOC group: a stub makes the callee's base from the caller's.
const SWITCHED: Row = (
    &[
        File {
            texts: &[Code {
                words: Words {
                    size: 0x10,
                    words: &[
                        (0, 0x3C4C_0000),
                        (4, 0x3842_0000),
                        (8, 0x4800_0001),
                        (0xC, 0x6000_0000),
                    ],
                },
                records: &[(0, REL16_HA, 2, 0), (4, REL16_LO, 2, 4), (8, REL24, 3, 0)],
            }],
            toc: 0x1_0000,
            slots: &[],
            data: 0,
            symbols: &[
                Public(b"_start", 0, 3),
                Elsewhere(b".TOC."),
                Elsewhere(b"f"),
            ],
        },
        File {
            texts: &[Code {
                words: Words {
                    size: 0xC,
                    words: &[(0, 0x3C4C_0000), (4, 0x3842_0000), (8, 0x4E80_0020)],
                },
                records: &[(0, REL16_HA, 2, 0), (4, REL16_LO, 2, 4)],
            }],
            toc: 8,
            slots: &[],
            data: 0,
            symbols: &[Public(b"f", 0, 3), Elsewhere(b".TOC.")],
        },
    ],
    LARGEST_SPAN,
    // the bases are 0x10008000 and 0x10018000, and text starts at 0x10020000
    Words {
        size: 0x8C,
        words: &[
            (0, 0x3C4C_FFFF),
            (4, 0x3842_8000),
            (8, 0x4800_0039),
            (0xC, 0xE841_0018),
            (0x40, 0xF841_0018),
            (0x44, 0x3C42_0001),
            (0x48, 0x3842_0000),
            (0x4C, 0x4800_003C),
            (0x80, 0x3C4C_FFFF),
            (0x84, 0x3842_7F80),
            (0x88, 0x4E80_0020),
        ],
    },
);

/// A call without a TOC base of a function that makes its own: a stub puts the function's address into r12.
const ENTERED: Row = (
    &[File {
        texts: &[Code {
            words: Words {
                size: 0x4C,
                words: &[
                    (0, 0x4800_0001),
                    (0x40, 0x3C4C_0000),
                    (0x44, 0x3842_0000),
                    (0x48, 0x4E80_0020),
                ],
            },
            records: &[
                (0, REL24_NOTOC, 1, 0),
                (0x40, REL16_HA, 3, 0),
                (0x44, REL16_LO, 3, 4),
            ],
        }],
        toc: 0,
        slots: &[],
        data: 0,
        symbols: &[At(1, 0x40, 3), Public(b"_start", 0, 1), Elsewhere(b".TOC.")],
    }],
    LARGEST_SPAN,
    Words {
        size: 0x90,
        words: &[
            (0, 0x4800_0081),
            (0x40, 0x3C4C_0000),
            (0x44, 0x3842_7FC0),
            (0x48, 0x4E80_0020),
            (0x80, 0x0613_FFFF),
            (0x84, 0x3980_FFC0),
            (0x88, 0x7D89_03A6),
            (0x8C, 0x4E80_0420),
        ],
    },
);

/// 0x200 bytes without a call.
const QUIET: Code = Code {
    words: Words {
        size: 0x200,
        words: &[],
    },
    records: &[],
};

/// Five sections of 0x200 bytes and three calls, of which each stub pushes the next callee out of reach.
const PUSHED: [File; 1] = [File {
    texts: &[
        Code {
            words: Words {
                size: 0x200,
                words: &[(0, 0x4800_0001)],
            },
            records: &[(0, REL24, 1, 0)],
        },
        QUIET,
        Code {
            words: Words {
                size: 0x200,
                words: &[(0x100, 0x4800_0001)],
            },
            records: &[(0x100, REL24, 2, 0)],
        },
        QUIET,
        Code {
            words: Words {
                size: 0x200,
                words: &[(0x180, 0x4800_0001)],
            },
            records: &[(0x180, REL24, 3, 0)],
        },
    ],
    toc: 0,
    slots: &[],
    data: 0,
    symbols: &[
        At(3, 0, 0),
        At(1, 0x100, 0),
        At(3, 0x180, 0),
        Public(b"_start", 0, 1),
    ],
}];

const FAR: Row = (
    &PUSHED,
    0x400,
    // the sections stand at 0, 0x240, 0x440, 0x680 and 0x880
    Words {
        size: 0xA90,
        words: &[
            (0, 0x4800_0201),
            (0x200, 0x3D82_0000),
            (0x204, 0x398C_8440),
            (0x208, 0x7D89_03A6),
            (0x20C, 0x4E80_0420),
            (0x540, 0x4800_0101),
            (0x640, 0x3D82_0000),
            (0x644, 0x398C_8100),
            (0x648, 0x7D89_03A6),
            (0x64C, 0x4E80_0420),
            (0xA00, 0x4800_0081),
            (0xA80, 0x3D82_0000),
            (0xA84, 0x398C_85C0),
            (0xA88, 0x7D89_03A6),
            (0xA8C, 0x4E80_0420),
        ],
    },
);

/// With four bytes more of reach no stub is needed.
const NEAR: Row = (
    &PUSHED,
    0x404,
    Words {
        size: 0xA00,
        words: &[(0, 0x4800_0401), (0x500, 0x4BFF_FC01), (0x980, 0x4BFF_FC01)],
    },
);

/// A call of what nothing defines becomes a nop.
const NOWHERE: Row = (
    &[File {
        texts: &[Code {
            words: Words {
                size: 8,
                words: &[(0, 0x4800_0001), (4, 0x4E80_0020)],
            },
            records: &[(0, REL24, 2, 0)],
        }],
        toc: 0,
        slots: &[],
        data: 0,
        symbols: &[Public(b"_start", 0, 1), Perhaps(b"u")],
    }],
    LARGEST_SPAN,
    Words {
        size: 8,
        words: &[(0, 0x6000_0000), (4, 0x4E80_0020)],
    },
);

/// Loads by distances from the TOC base, of a slot at 0x10000000 and a pointer at 0x10000008. Text starts at 0x10010000. The last word has
/// r0 as its base, so that the file isn't orderly.
const LOADS: Row = (
    &[File {
        texts: &[Code {
            words: Words {
                size: 0x20,
                words: &[
                    (0, 0x3C4C_0000),
                    (4, 0x3842_0000),
                    (8, 0x3D22_0000),
                    (0xC, 0xE929_0000),
                    (0x10, 0x3D42_0000),
                    (0x14, 0xE94A_0000),
                    (0x18, 0x3900_0000),
                    (0x1C, 0x4E80_0020),
                ],
            },
            records: &[
                (0, REL16_HA, 4, 0),
                (4, REL16_LO, 4, 4),
                (8, TOC16_HA, 1, 0),
                (0xC, TOC16_LO_DS, 1, 0),
                (0x10, TOC16_HA, 2, 0),
                (0x14, TOC16_LO_DS, 2, 0),
                (0x18, TOC16_LO, 2, 3),
            ],
        }],
        toc: 8,
        slots: &[],
        data: 8,
        symbols: &[
            At(2, 0, 0),
            At(3, 0, 0),
            Public(b"_start", 0, 3),
            Elsewhere(b".TOC."),
        ],
    }],
    LARGEST_SPAN,
    Words {
        size: 0x20,
        words: &[
            (0, 0x3C4C_0000),
            (4, 0x3842_8000),
            (8, 0x3D22_0000),
            (0xC, 0xE929_8000),
            (0x10, 0x3D42_0000),
            (0x14, 0xE94A_8008),
            (0x18, 0x3900_800B),
            (0x1C, 0x4E80_0020),
        ],
    },
);

#[test]
fn text_has_its_sections_stubs_calls_and_fields(rt: HostRuntime) -> Result<(), Fail> {
    let rows = [SAVED, SWITCHED, ENTERED, FAR, NEAR, NOWHERE, LOADS];
    for (files, span, wanted) in rows {
        let Ok(text) = outcome(rt.alloc(), files, span)? else {
            return Err(Fail::new("the text is refused"));
        };
        assert_eq!(rt; text.as_slice(), wanted.bytes(rt.alloc())?.as_slice());
    }
    Ok(())
}

/// A section longer than the branch span, whose call comes before its stub.
const OUT: [File; 1] = [File {
    texts: &[Code {
        words: Words {
            size: 0x400,
            words: &[(4, 0x4800_0001)],
        },
        records: &[(4, REL24, 1, 0)],
    }],
    toc: 0,
    slots: &[],
    data: 0,
    symbols: &[At(1, 0x200, 0), Public(b"_start", 0, 1)],
}];

#[test]
fn a_call_that_does_not_reach_its_stub_is_refused(rt: HostRuntime) -> Result<(), Fail> {
    let Err(Refusal::StubReach(site)) = outcome(rt.alloc(), &OUT, 0x100)? else {
        return Err(Fail::new("the call reaches"));
    };
    assert_eq!(rt; (site.file, site.section, site.offset), (0, 1, 4));
    Ok(())
}

/// Loads of which the displacements, from the TOC base to two bytes into data, are no multiples of 4.
const UNEVEN: [File; 1] = [File {
    texts: &[Code {
        words: Words {
            size: 0xC,
            words: &[(0, 0x4E80_0020), (4, 0xE869_0000), (8, 0xE869_0000)],
        },
        records: &[(8, TOC16_LO_DS, 1, 4), (4, TOC16_LO_DS, 1, 0)],
    }],
    toc: 0,
    slots: &[],
    data: 8,
    symbols: &[At(3, 2, 0), Public(b"_start", 0, 1)],
}];

#[test]
fn the_first_field_that_does_not_hold_its_value_is_told(rt: HostRuntime) -> Result<(), Fail> {
    let told = outcome(rt.alloc(), &UNEVEN, LARGEST_SPAN)?;
    let Err(Refusal::Overflow(site, value)) = told else {
        return Err(Fail::new("no field overflows"));
    };
    assert_eq!(rt;
        (site.file, site.section, site.entry, site.offset),
        (0, 1, 0, 8)
    );
    assert_eq!(rt; value, -32762);
    Ok(())
}
