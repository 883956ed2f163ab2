// Which slots are foldable, and which files are orderly: for each condition a file that just meets it, and one that just doesn't.
use super::files::Named::{Base, Data, First, Nothing, Text, Toc, Zero};
use super::files::{File, Line, folds, toc_of};
use reloc_fields::Kind;
use reloc_fields::Kind::{
    Addr16Ha, Addr16Lo, Addr64, Rel16Ha, Rel16Lo, Rel64, Toc16Ds, Toc16Ha, Toc16Lo, Toc16LoDs,
};
use std::alloc::Global;
use std::process::Abort;
use std::test::Fail;

/// The prologue of a function.
const HIGH: Line = (0x3C4C_0000, Some((Rel16Ha, Base, 0)));

const LOW: Line = (0x3842_0000, Some((Rel16Lo, Base, 4)));

/// `addis r9,r2` and `ld r9,0(r9)` of the slot, and the last word.
const ADDIS: Line = (0x3D22_0000, Some((Toc16Ha, Toc, 0)));

const LD: Line = (0xE929_0000, Some((Toc16LoDs, Toc, 0)));

const END: Line = (0x4E80_0020, None);

/// A function that loads from the slot.
const LOADS: &[Line] = &[HIGH, LOW, ADDIS, LD, END];

/// A slot that holds the address of the file's data.
const SLOT: Line = (0, Some((Addr64, Data, 0)));

const ZERO: Line = (0, None);

/// A file, how many foldable slots it has, and whether it is orderly.
type Row = (&'static [Line], &'static [Line], &'static [Line], u64, bool);

const USERS: [Row; 11] = [
    // a slot that is only loaded
    (LOADS, &[SLOT], &[], 1, true),
    (&[HIGH, LOW, ADDIS, LD, LD, END], &[SLOT], &[], 1, true),
    // a third user forbids the fold: `addi r8,r8`
    (
        &[
            HIGH,
            LOW,
            ADDIS,
            LD,
            (0x3908_0000, Some((Toc16Lo, Toc, 0))),
            END,
        ],
        &[SLOT],
        &[],
        0,
        true,
    ),
    // so does another word than `ld`: `lwa`
    (
        &[
            HIGH,
            LOW,
            ADDIS,
            (0xE929_0002, Some((Toc16LoDs, Toc, 0))),
            END,
        ],
        &[SLOT],
        &[],
        0,
        true,
    ),
    // and a record that names another byte
    (
        &[HIGH, LOW, (0x3D22_0000, Some((Toc16Ha, Toc, 4))), LD, END],
        &[SLOT],
        &[],
        0,
        true,
    ),
    // the byte behind the slot is another slot's
    (
        &[HIGH, LOW, (0x3D22_0000, Some((Toc16Ha, Toc, 8))), LD, END],
        &[SLOT, SLOT],
        &[],
        2,
        true,
    ),
    // a pointer in data names the slot, or only its last byte
    (LOADS, &[SLOT], &[(0, Some((Addr64, Toc, 0)))], 0, true),
    (
        LOADS,
        &[SLOT, SLOT],
        &[(0, Some((Addr64, Toc, 15)))],
        1,
        true,
    ),
    // a small-model slot
    (
        &[HIGH, LOW, (0xE862_0000, Some((Toc16Ds, Toc, 0))), END],
        &[SLOT],
        &[],
        1,
        true,
    ),
    // records that fill a slot otherwise, or not
    (LOADS, &[(0, Some((Rel64, Data, 0)))], &[], 0, true),
    (LOADS, &[ZERO], &[], 0, true),
];

const HOLDS: [Row; 10] = [
    // what the slot holds is in reach: the base is 0x10008000
    (
        LOADS,
        &[(0, Some((Addr64, Zero, 0x9000_0000 - 1)))],
        &[],
        1,
        true,
    ),
    (
        LOADS,
        &[(0, Some((Addr64, Zero, 0x9000_0000)))],
        &[],
        0,
        true,
    ),
    (LOADS, &[(0, Some((Addr64, Nothing, 0)))], &[], 1, true),
    // a number is read modulo 2^64
    (LOADS, &[(0, Some((Addr64, Nothing, -1)))], &[], 0, true),
    (LOADS, &[(0, Some((Addr64, Base, 0)))], &[], 1, true),
    // a place in text is in reach by its offset
    (LOADS, &[(0, Some((Addr64, Text, 0)))], &[], 1, true),
    (
        LOADS,
        &[(0, Some((Addr64, Text, 0x1000_0000)))],
        &[],
        1,
        true,
    ),
    (
        LOADS,
        &[(0, Some((Addr64, Text, 0x1000_0001)))],
        &[],
        0,
        true,
    ),
    (
        LOADS,
        &[(0, Some((Addr64, Text, -0x1000_0000)))],
        &[],
        1,
        true,
    ),
    (
        LOADS,
        &[(0, Some((Addr64, Text, -0x1000_0001)))],
        &[],
        0,
        true,
    ),
];

const ORDERS: [Row; 9] = [
    // `addis` from r9, and into r2 and r0
    (
        &[HIGH, LOW, (0x3D29_0000, Some((Toc16Ha, Toc, 0))), LD, END],
        &[SLOT],
        &[],
        0,
        false,
    ),
    (
        &[HIGH, LOW, (0x3C42_0000, Some((Toc16Ha, Toc, 0))), LD, END],
        &[SLOT],
        &[],
        0,
        false,
    ),
    (
        &[HIGH, LOW, (0x3C02_0000, Some((Toc16Ha, Toc, 0))), LD, END],
        &[SLOT],
        &[],
        0,
        false,
    ),
    // `addi` from r2, `lwz` from r9, and `lwzu`, which writes its base
    (
        &[
            HIGH,
            LOW,
            ADDIS,
            (0x3922_0000, Some((Toc16Lo, Data, 0))),
            END,
        ],
        &[SLOT],
        &[],
        0,
        false,
    ),
    (
        &[
            HIGH,
            LOW,
            ADDIS,
            (0x8129_0000, Some((Toc16Lo, Data, 0))),
            END,
        ],
        &[SLOT],
        &[],
        1,
        true,
    ),
    (
        &[
            HIGH,
            LOW,
            ADDIS,
            (0x8529_0000, Some((Toc16Lo, Data, 0))),
            END,
        ],
        &[SLOT],
        &[],
        0,
        false,
    ),
    // `ldu`, `std`, and `ld` from r2
    (
        &[
            HIGH,
            LOW,
            ADDIS,
            (0xE929_0001, Some((Toc16LoDs, Data, 0))),
            END,
        ],
        &[SLOT],
        &[],
        0,
        false,
    ),
    (
        &[
            HIGH,
            LOW,
            ADDIS,
            (0xF929_0000, Some((Toc16LoDs, Data, 0))),
            END,
        ],
        &[SLOT],
        &[],
        1,
        true,
    ),
    (
        &[
            HIGH,
            LOW,
            ADDIS,
            (0xE922_0000, Some((Toc16LoDs, Data, 0))),
            END,
        ],
        &[SLOT],
        &[],
        0,
        false,
    ),
];

/// Tries rows.
fn try_rows(rt: &impl Abort, alloc: Global, rows: &[Row]) -> Result<(), Fail> {
    for (i, (code, toc, data, count, orderly)) in rows.iter().enumerate() {
        let file = File {
            code: *code,
            toc: *toc,
            data: *data,
        };
        let folds = folds(alloc, &[file], 0x8000)?;
        assert_eq!(rt; folds.count(), *count, "{i}");
        assert_eq!(rt; folds.is_orderly_file(0), Some(*orderly), "{i}");
    }
    Ok(())
}

#[test]
fn a_slot_is_foldable_where_it_is_only_loaded(rt: HostRuntime) -> Result<(), Fail> {
    try_rows(&rt, rt.alloc(), &USERS)
}

#[test]
fn a_slot_is_foldable_where_two_halves_reach_what_it_holds(rt: HostRuntime) -> Result<(), Fail> {
    try_rows(&rt, rt.alloc(), &HOLDS)
}

#[test]
fn a_file_is_orderly_where_each_word_suits(rt: HostRuntime) -> Result<(), Fail> {
    try_rows(&rt, rt.alloc(), &ORDERS)
}

/// A file that loads from its slot.
const FOLDING: File = File {
    code: LOADS,
    toc: &[SLOT],
    data: &[],
};

/// Files, how far the TOC base lies behind `.toc`, and the foldable slots in order: file and offset.
type Places = (&'static [File], u32, &'static [(u32, u64)]);

const PLACES: [Places; 4] = [
    // slots of two groups
    (&[FOLDING, FOLDING], 0x8000, &[(0, 0), (1, 0)]),
    // another file's record names the slot
    (
        &[
            FOLDING,
            File {
                code: &[HIGH, LOW, (0x3D22_0000, Some((Toc16Ha, First, 0))), END],
                ..FOLDING
            },
        ],
        0x8000,
        &[(1, 0)],
    ),
    // the records of a prologue name the TOC base, where the slot stands
    (&[FOLDING], 0, &[(0, 0)]),
    // those of no prologue keep it
    (
        &[File {
            code: &[
                HIGH,
                LOW,
                ADDIS,
                LD,
                (0x3C40_0000, Some((Addr16Ha, Base, 0))),
                (0x3842_0000, Some((Addr16Lo, Base, 0))),
                END,
            ],
            ..FOLDING
        }],
        0,
        &[],
    ),
];

#[test]
fn slots_are_told_by_their_places_and_addresses(rt: HostRuntime) -> Result<(), Fail> {
    for (i, (files, bias, places)) in PLACES.iter().enumerate() {
        let folds = folds(rt.alloc(), files, *bias)?;
        assert_eq!(rt; folds.count(), places.len() as u64, "{i}");
        for (file, offset) in *places {
            assert!(rt; folds.folded(*file, 2, *offset), "{i}");
            assert!(rt; !folds.folded(*file, 2, *offset + 4), "{i}");
            assert!(rt; !folds.folded(*file, 3, *offset), "{i}");
            let named = folds.named(*file, toc_of(*file) + *offset).ok_or("none")?;
            assert_eq!(rt; named.id.section, 2, "{i}");
            assert_eq!(rt; named.offset, *offset, "{i}");
        }
        assert!(rt; folds.named(0, 0x1000_0004).is_none(), "{i}");
    }
    Ok(())
}
