// Links of a few small objects.
ghost use Rattle.std.specs.Prelude.{◌≡◌, ◌<◌, ◌≤◌, length, IfOk};
ghost use Rattle.link_engine.specs.Options.{InRange};

use crate::{
    BRANCH_SPAN, FileBytes, Linked, Options, PlainEnd, Refusal, Steps, TOC_SPAN, link, plain_of,
};
use elf64_exec::{IMAGE_START, PAGE, read_exec};
use object_builder::{FileHeader, Object, Record, Section, Symbol};
use plain_run::PlainOutcome;
use power_machine::{Reason, World};
use ppc_bytes::Memory;
use ppc_bytes::constants::SHN_COMMON;
use std::alloc::Global;
use std::marker::Brand;
use std::sync::ledger::{Blank, Ledger};
use std::test::Fail;

/// The words 38000001, 38600007 and 44000002: `li r0,1`, `li r3,7`, `sc`.
const EXIT_7: &[u8] = b"\x01\x00\x00\x38\x07\x00\x60\x38\x02\x00\x00\x44";

const TEXT: Section<'static> = Section {
    bytes: EXIT_7,
    ..Section::TEXT
};

/// The same, but not kept.
const DROPPED_TEXT: Section<'static> = Section { flags: 0, ..TEXT };

const EIGHT_BYTES: Section<'static> = Section {
    bytes: &[0; 8],
    ..Section::DATA
};

const RECORD: Record = Record {
    offset: 0,
    kind: 0,
    symbol: 0,
    addend: 0,
};

/// One text section, and the function `_start` at its front.
const WHOLE: Object<'static> = Object {
    sections: &[TEXT],
    symbols: &[Symbol::START],
    ..Object::EMPTY
};

/// The function is 4 bytes into the text.
const AT_FOUR: Object<'static> = Object {
    symbols: &[Symbol {
        value: 4,
        ..Symbol::START
    }],
    ..WHOLE
};

/// The text has the alignment 8.
const ALIGNED: Object<'static> = Object {
    sections: &[Section { align: 8, ..TEXT }],
    ..WHOLE
};

/// The text isn't kept, so that the symbol only refers to its name.
const DROPPED: Object<'static> = Object {
    sections: &[DROPPED_TEXT],
    ..WHOLE
};

/// The symbol is LOCAL.
const LOCAL: Object<'static> = Object {
    symbols: &[Symbol {
        info: 2,
        ..Symbol::START
    }],
    ..WHOLE
};

/// `other` is a common of alignment 4 and 8 bytes.
const COMMON_DATA: Object<'static> = Object {
    sections: &[DROPPED_TEXT],
    symbols: &[Symbol {
        name: b"other",
        section: SHN_COMMON,
        value: 4,
        size: 8,
        ..Symbol::START
    }],
    ..Object::EMPTY
};

/// `_start` is a common of alignment 4.
const COMMON: Object<'static> = Object {
    sections: &[DROPPED_TEXT],
    symbols: &[Symbol {
        section: SHN_COMMON,
        value: 4,
        ..Symbol::START
    }],
    ..Object::EMPTY
};

/// A record of the text.
const RECORDS: Object<'static> = Object {
    sections: &[Section {
        records: &[RECORD],
        ..TEXT
    }],
    ..WHOLE
};

/// A record of a section that isn't kept.
const OTHER_RECORDS: Object<'static> = Object {
    sections: &[
        TEXT,
        Section {
            records: &[RECORD],
            ..DROPPED_TEXT
        },
    ],
    ..WHOLE
};

/// Kept data beside the text.
const DATA: Object<'static> = Object {
    sections: &[TEXT, EIGHT_BYTES],
    ..WHOLE
};

/// Text beside the text.
const MORE_TEXT: Object<'static> = Object {
    sections: &[TEXT, TEXT],
    ..WHOLE
};

/// The address of the text, which the immediate operand of the first instruction doesn't hold (R_PPC64_ADDR16).
const WIDE_IN_TEXT: Object<'static> = Object {
    sections: &[Section {
        records: &[Record {
            kind: 3,
            symbol: 1,
            ..RECORD
        }],
        ..TEXT
    }],
    symbols: &[Symbol {
        info: 2,
        ..Symbol::START
    }],
    ..WHOLE
};

/// A number of 33 bits that a word of data doesn't hold (R_PPC64_ADDR32).
const WIDE_IN_DATA: Object<'static> = Object {
    sections: &[
        TEXT,
        Section {
            records: &[Record {
                kind: 1,
                symbol: 1,
                addend: 0x1_0000_0000,
                ..RECORD
            }],
            ..EIGHT_BYTES
        },
    ],
    ..WIDE_IN_TEXT
};

/// Objects, and the name of their entry.
#[derive(Clone, Copy)]
struct Job<'a> {
    objects: &'a [&'a Object<'a>],
    entry: &'a str,
}

fn file(alloc: Global, object: &Object) -> Result<FileBytes, Memory> {
    Ok(FileBytes {
        name: String::from_str(alloc, "t.o")?,
        bytes: object.file(alloc)?,
    })
}

fn files(alloc: Global, objects: &[&Object]) -> Result<Vec<FileBytes>, Fail>
    ensures { IfOk result (λ files. (1 ≤ length files.items) × (length files.items ≤ 4096)) }
{
    let mut files = Vec::new(alloc);
    for object in objects {
        files.push(file(alloc, object)?)?;
    }
    if files.is_empty() || files.len() > 4096 {
        return Err(Fail::from("1 to 4096 files"));
    }
    Ok(files)
}

fn options(alloc: Global, entry: &str) -> Result<Options, Memory>
    ensures { IfOk result InRange }
{
    Ok(Options {
        entry: String::from_str(alloc, entry)?,
        branch_span: BRANCH_SPAN,
        toc_span: TOC_SPAN,
    })
}

fn link_with<L: Ledger>(
    blank: Blank,
    alloc: Global,
    job: Job,
) -> Result<Result<Linked, Refusal>, Fail>
    requires name { blank.name ≡ L.name }
    requires parts { blank.parts ≡ L.parts }
    requires some { 0 < L.parts }
{
    let files = files(alloc, job.objects)?;
    let options = options(alloc, job.entry)?;
    let mut steps = Steps::<L>::new(blank);
    Ok(link(alloc, &files, &options, &mut steps))
}

fn linked(alloc: Global, job: Job) -> Result<Result<Linked, Refusal>, Fail> {
    link_with::<Brand>(Blank::new(1), alloc, job)
}

/// Files, how far into the text they are entered, and whether they have data.
const LINKED: [(&[&Object], u64, bool); 11] = [
    (&[&WHOLE], 0, false),
    (&[&AT_FOUR], 4, false),
    (&[&ALIGNED], 0, false),
    (&[&WHOLE, &DROPPED], 0, false),
    (&[&DROPPED, &AT_FOUR], 4, false),
    (&[&OTHER_RECORDS], 0, false),
    (&[&RECORDS], 0, false),
    (&[&MORE_TEXT], 0, false),
    (&[&LOCAL, &WHOLE], 12, false),
    (&[&DATA], 0, true),
    (&[&WHOLE, &COMMON_DATA], 0, true),
];

#[test]
fn text_stands_behind_data_and_is_entered(rt: HostRuntime) -> Result<(), Fail> {
    for (objects, offset, data) in LINKED {
        let entry = "_start";
        let Ok(linked) = linked(rt.alloc(), Job { objects, entry })? else {
            return Err(Fail::from("the files link"));
        };
        let Ok(image) = read_exec(rt.alloc(), &linked.image) else {
            return Err(Fail::from("an executable"));
        };
        let start = IMAGE_START + if data { PAGE } else { 0 };
        assert_eq!(rt; image.entry, start + offset);
        assert_eq!(rt; image.list.len(), 1 + data as usize);
        let text = &image.list[data as usize];
        assert_eq!(rt; text.address, start);
        assert!(rt; text.bytes.as_slice().starts_with(EXIT_7));
    }
    Ok(())
}

/// How files with an entry are refused.
#[derive(Clone, Copy)]
enum Why {
    /// This file is none.
    NotElf(u32),
    /// `_start` is defined twice, in these files.
    Twice(u32, u32),
    NoEntry,
    NotCode,
    /// A field of this file doesn't hold this value.
    Wide(u32, i128),
}

/// What doesn't begin as an ELF file does.
const FOREIGN: Object<'static> = Object {
    header: FileHeader {
        magic: *b"\x7fELG",
        ..FileHeader::OBJECT
    },
    ..WHOLE
};

const REFUSED: [(&[&Object], &str, Why); 7] = [
    // files, then names, then the entry come before fields
    (&[&WHOLE, &WIDE_IN_TEXT, &FOREIGN], "main", Why::NotElf(2)),
    (&[&WHOLE, &WIDE_IN_TEXT, &WHOLE], "main", Why::Twice(0, 2)),
    (&[&WHOLE, &WIDE_IN_TEXT], "main", Why::NoEntry),
    (&[&WIDE_IN_TEXT, &COMMON], "_start", Why::NotCode),
    // the earlier record is told, be it in data or in text
    (
        &[&WHOLE, &WIDE_IN_TEXT],
        "_start",
        Why::Wide(1, 0x1000_000C),
    ),
    (
        &[&WHOLE, &WIDE_IN_TEXT, &WIDE_IN_DATA],
        "_start",
        Why::Wide(1, 0x1001_000C),
    ),
    (
        &[&WHOLE, &WIDE_IN_DATA, &WIDE_IN_TEXT],
        "_start",
        Why::Wide(1, 0x1_1001_000C),
    ),
];

#[test]
fn the_first_refusal_in_order_is_answered(rt: HostRuntime) -> Result<(), Fail> {
    for (i, (objects, entry, why)) in REFUSED.into_iter().enumerate() {
        let is_so = match (linked(rt.alloc(), Job { objects, entry })?, why) {
            (Err(Refusal::NotElf(file)), Why::NotElf(first)) => file == first,
            (Err(Refusal::Duplicate(_, one, other)), Why::Twice(first, second)) => {
                one == first && other == second
            }
            (Err(Refusal::NoEntry(_)), Why::NoEntry) => true,
            (Err(Refusal::EntryNotCode(_)), Why::NotCode) => true,
            (Err(Refusal::Overflow(site, value)), Why::Wide(file, wide)) => {
                site.file == file && value == wide
            }
            _ => false,
        };
        assert!(rt; is_so, "row {i}");
    }
    Ok(())
}

/// The first of the three instructions, behind which the section ends.
const CUT_SHORT: Object<'static> = Object {
    sections: &[
        EIGHT_BYTES,
        Section {
            bytes: &[1, 0, 0, 0x38],
            ..TEXT
        },
    ],
    symbols: &[Symbol {
        section: 2,
        ..Symbol::START
    }],
    ..Object::EMPTY
};

fn run_with<L: Ledger>(
    blank: Blank,
    alloc: Global,
    objects: &[&Object],
    budget: u64,
) -> Result<Result<PlainEnd, Refusal>, Fail>
    requires name { blank.name ≡ L.name }
    requires parts { blank.parts ≡ L.parts }
    requires some { 0 < L.parts }
{
    let files = files(alloc, objects)?;
    let options = options(alloc, "_start")?;
    let mut world = World::new(Vec::new(alloc), Vec::new(alloc));
    let mut steps = Steps::<L>::new(blank);
    Ok(plain_of(alloc, &files, &options, budget, &mut world, &mut steps))
}

fn run(alloc: Global, objects: &[&Object], budget: u64) -> Result<Result<PlainEnd, Refusal>, Fail> {
    run_with::<Brand>(Blank::new(1), alloc, objects, budget)
}

/// Files, how many steps they may make, how their run ends, and the file and the section where it leaves.
const RUNS: [(&[&Object], u64, PlainOutcome, u32, u32); 3] = [
    (&[&WHOLE], 3, PlainOutcome::Exited(7), 0, 0),
    (&[&WHOLE], 2, PlainOutcome::Budget, 0, 0),
    (
        &[&DROPPED, &CUT_SHORT],
        3,
        PlainOutcome::Left(Reason::Fetch, 0, 4),
        1,
        2,
    ),
];

#[test]
fn files_run_without_an_image(rt: HostRuntime) -> Result<(), Fail> {
    for (objects, budget, outcome, file, section) in RUNS {
        let Ok(end) = run(rt.alloc(), objects, budget)? else {
            return Err(Fail::from("the files run"));
        };
        assert_eq!(rt; end.outcome, outcome);
        assert!(rt; end.events.is_empty());
        assert_eq!(rt; (end.file, end.section), (file, section));
    }
    Ok(())
}
