// Calls are found, classed and refused.
use super::listings::{File, found, line_of, recognised};
use object_set::Refusal;
use std::alloc::Global;
use std::test::Fail;

/// A call of each line of the table of classes, with records that stand in the table from the last to the first. At 96 stands a recognised
/// prologue, and at 108 one that isn't; `far` and `other` are defined in the other file.
const CALLER: File = File {
    words: "48000001 60000000 48000001 60000000 48000001 60000000 48000001 60000000 48000001 60000000 48000001 60000000
        48000001 60000000 48000001 60000000 48000001 60000000 48000001 60000000 48000001 60000000 48000000 60000000
        3C4C0000 38420000 4E800020 60000000 60000000 4E800020 4E800020 4E800020",
    symbols: "zero 10 0 1 120; one 10 20 1 124; near 10 60 1 96; plain 10 60 1 108; far 10 0 0 0; other 10 0 0 0;
        maybe 20 0 0 0; .TOC. 10 0 0 0; _start 10 20 1 0",
    records: "100 250 8 4; 96 252 8 0; 88 10 1 0; 80 10 3 8; 72 116 3 0; 64 116 2 0; 56 116 1 0; 48 10 6 0; 40 10 4 0;
        32 10 5 0; 24 10 3 0; 16 10 2 0; 8 10 1 0; 0 10 7 0",
};

/// The other file: at 0 a recognised prologue of the other form, and at 12 one that isn't.
const OTHER: File = File {
    words: "3C400000 38420000 4E800020 60000000 60000000 4E800020",
    symbols: "far 10 60 1 0; other 10 60 1 12; .TOC. 10 0 0 0",
    records: "0 6 3 0; 4 4 3 0",
};

/// The sites where the files are of two TOC groups: section, offset, class, e, callee, where it goes, slot, restored.
const TWO_GROUPS: [&str; 12] = [
    "0 0 None 0 0 0 0 true false",
    "0 8 Some(Same) 0 120 0 120 true false",
    "0 16 Some(Save) 1 124 0 124 true true",
    "0 24 Some(Same) 3 96 0 104 true false",
    "0 32 Some(Switch) 3 0 1 8 true true",
    "0 40 Some(EntryBare) 3 108 0 108 true false",
    "0 48 Some(EntrySave) 3 12 1 12 true true",
    "0 56 Some(NearN) 0 120 0 120 true false",
    "0 64 Some(NearN) 1 124 0 124 true false",
    "0 72 Some(EntryN) 3 96 0 96 true false",
    // a place beside a symbol's own is no function's
    "0 80 Some(Same) 0 104 0 104 true false",
    // what doesn't come back has no slot
    "0 88 Some(Same) 0 120 0 120 false false",
];

/// What comes of files: the lines of their sites, or where the first call without its slot stands.
fn told(alloc: Global, files: &[File], groups: &[u32]) -> Result<String, Fail> {
    match found(alloc, files, groups)? {
        Ok(sites) => {
            let mut text = String::new(alloc);
            for i in 0..sites.count() {
                text.push_str(&line_of(alloc, sites.at(i))?)?;
                text.push_str(";")?;
            }
            Ok(text)
        }
        Err(Refusal::NoRestore(site)) => Ok(format!(in alloc; "no restore at {}", site.offset)?),
        Err(_) => Ok(String::from_str(alloc, "refused")?),
    }
}

#[test]
fn each_line_of_the_table_of_classes(rt: HostRuntime) -> Result<(), Fail> {
    for (groups, far, other) in [
        ([0, 1], TWO_GROUPS[4], TWO_GROUPS[6]),
        // in one group both files have one TOC base
        (
            [7, 7],
            "0 32 Some(Same) 3 0 1 8 true false",
            "0 48 Some(EntryBare) 3 12 1 12 true false",
        ),
    ] {
        let mut lines = String::new(rt.alloc());
        for (i, line) in TWO_GROUPS.iter().enumerate() {
            lines.push_str(match i {
                4 => far,
                6 => other,
                _ => line,
            })?;
            lines.push_str(";")?;
        }
        let text = told(rt.alloc(), &[CALLER, OTHER], &groups)?;
        assert_eq!(rt; text.as_str(), lines.as_str());
    }
    Ok(())
}

/// Words, symbols, records, and what comes of them: a call at the front goes to `f`, which may change r2 or leaves it alone.
const SLOTS: [(&str, &str, &str, &str); 9] = [
    (
        "48000001 60000000 4E800020",
        "f 10 20 1 8; _start 10 20 1 0",
        "0 10 1 0",
        "0 0 Some(Save) 1 8 0 8 true true;",
    ),
    // no nop, no link, and a nop that another record fills
    (
        "48000001 4E800020 4E800020",
        "f 10 20 1 8; _start 10 20 1 0",
        "0 10 1 0",
        "no restore at 0",
    ),
    (
        "48000000 60000000 4E800020",
        "f 10 20 1 8; _start 10 20 1 0",
        "0 10 1 0",
        "no restore at 0",
    ),
    (
        "48000001 60000000 4E800020",
        "f 10 20 1 8; _start 10 20 1 0",
        "0 10 1 0; 4 1 1 0",
        "no restore at 0",
    ),
    // a record without bytes fills nothing
    (
        "48000001 60000000 4E800020",
        "f 10 20 1 8; _start 10 20 1 0",
        "0 10 1 0; 4 0 0 0",
        "0 0 Some(Save) 1 8 0 8 true true;",
    ),
    // where r2 stays no slot is needed
    (
        "48000001 4E800020 4E800020",
        "f 10 0 1 8; _start 10 20 1 0",
        "0 10 1 0",
        "0 0 Some(Same) 0 8 0 8 false false;",
    ),
    (
        "48000001 60000000 4E800020",
        "f 10 0 1 8; _start 10 20 1 0",
        "0 10 1 0; 4 1 1 0",
        "0 0 Some(Same) 0 8 0 8 false false;",
    ),
    // the last word of its section has none behind it
    (
        "4E800020 48000001",
        "f 10 20 1 0; _start 10 20 1 4",
        "4 10 1 0",
        "no restore at 4",
    ),
    // of two such calls the first in site order is told
    (
        "48000001 4E800020 48000001 4E800020",
        "f 10 20 1 12; _start 10 20 1 0",
        "8 10 1 0; 0 10 1 0",
        "no restore at 0",
    ),
];

#[test]
fn r2_is_restored_in_a_nop_that_nothing_fills(rt: HostRuntime) -> Result<(), Fail> {
    for (words, symbols, records, comes) in SLOTS {
        let file = File {
            words,
            symbols,
            records,
        };
        let text = told(rt.alloc(), &[file], &[0])?;
        assert_eq!(rt; text.as_str(), comes);
    }
    Ok(())
}

#[test]
fn a_prologue_is_recognised_where_its_function_stands(rt: HostRuntime) -> Result<(), Fail> {
    for (section, offset, is) in [
        (0, 96, true),
        // its second word, another prologue, a place without a symbol, past the section's end
        (0, 100, false),
        (0, 108, false),
        (0, 0, false),
        (0, 128, false),
        (1, 0, true),
        (1, 12, false),
    ] {
        let prologue = recognised(rt.alloc(), &[CALLER, OTHER], section, offset)?;
        assert_eq!(rt; prologue, is, "{section} {offset}");
    }
    Ok(())
}
