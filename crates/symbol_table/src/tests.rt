// Resolution of small sets of files: how it refuses them, and where the program is entered.
mod listings;
mod many;
mod records;
mod slots;
mod stands;

use listings::{columns_of, entered, files_of, name_of, told};
use std::alloc::Global;
use std::test::Fail;

/// What a row shows, the files, the entry, and what comes of the link: a name with two GLOBAL definitions and their files, an entry that is
/// refused, or the text section and the offset at which the program is entered. Each file has two text sections.
const LINKS: &str = "\
a file between | g GLOBAL text / _start GLOBAL text, u GLOBAL undefined / g GLOBAL text | _start | twice g 0 2
in one file | g GLOBAL text, g GLOBAL data 4 | g | twice g 0 0
the first two of three | g GLOBAL undefined / g GLOBAL text / g GLOBAL text / g GLOBAL text | g | twice g 1 2
numbers | g GLOBAL number 1 / g GLOBAL number 1 | g | twice g 0 1
the name that is seen first | f GLOBAL text, g GLOBAL text 4 / g GLOBAL text / f GLOBAL text | _start | twice f 0 2
a reference is seen | g WEAK undefined / f GLOBAL text, g GLOBAL text 4 / f GLOBAL text, g GLOBAL text 4 | _start | twice g 1 2
a LOCAL symbol isn't seen, and neither it nor a weak, common or dropped one is a GLOBAL definition \
| g LOCAL text, f GLOBAL text, g GLOBAL text / g WEAK text, f GLOBAL common 4 4, g GLOBAL dropped / g GLOBAL text, f GLOBAL text \
| main | twice f 0 2
names that aren't text, one of them the other's beginning | ff-fe GLOBAL text, ff GLOBAL text / ff GLOBAL text | ff-fe | twice ff 0 1
the empty name | empty GLOBAL text / empty GLOBAL text | empty | twice empty 0 1
another name | _start GLOBAL text | main | no entry
a reference | main GLOBAL undefined | main | no entry
a weak reference | main WEAK undefined | main | no entry
a LOCAL symbol | main LOCAL text | main | no entry
a symbol that isn't kept | main GLOBAL dropped | main | no entry
the base of the table of contents | .TOC. GLOBAL undefined | .TOC. | no entry
a name's beginning | main GLOBAL text | mai | no entry
a zero byte more | main GLOBAL text | main-00 | no entry
another last letter | main GLOBAL text | maim | no entry
no name | main GLOBAL text | empty | no entry
a byte more | main GLOBAL text | main-ff | no entry
data | main GLOBAL data | main | entry is no code
a place between two instructions | main GLOBAL text 2 | main | entry is no code
the end of a section | main GLOBAL text 16 | main | entry is no code
a number | main GLOBAL number 4 | main | entry is no code
a common | main GLOBAL common 4 4 | main | entry is no code
a common before a weak definition | main WEAK text, main GLOBAL common 4 4 | main | entry is no code
the front of a section | main GLOBAL text | main | enters 0.0
the last instruction | main GLOBAL text 12 | main | enters 0.12
the second text section | main GLOBAL more-text 4 | main | enters 1.4
the global entry point of two | main GLOBAL function 4 | main | enters 0.4
a weak definition | main WEAK text 4 | main | enters 0.4
the second file | main LOCAL text / main GLOBAL text 8 | main | enters 2.8
a GLOBAL definition behind a weak one | main WEAK text / main GLOBAL more-text 4 | main | enters 3.4
a weak one behind one that isn't kept | main GLOBAL dropped / main WEAK text 8 | main | enters 2.8
the first of two that are weak | main WEAK text 4 / main WEAK text 8 | main | enters 0.4
a definition beside a common | main GLOBAL common 4 4 / main GLOBAL text 8 | main | enters 2.8
names that are empty, not text, and equal up to a byte \
| main GLOBAL text, mai GLOBAL text 4, ff GLOBAL text 8, empty GLOBAL text 12 | empty | enters 0.12
names of symbols 1 to 4 that begin at one place \
| main@1 WEAK undefined, empty@1 WEAK text 4, empty@1 GLOBAL text 8, empty@1 WEAK text 12, empty@2 GLOBAL text | main | enters 0.8
a name that begins behind its first letter \
| main@1 WEAK undefined, empty@1 WEAK text 4, empty@1 GLOBAL text 8, empty@1 WEAK text 12, empty@2 GLOBAL text | ain | enters 0.0";

/// What comes of a link.
fn outcome(alloc: Global, files: &str, entry: &str) -> Result<String, Fail> {
    let files = files_of(alloc, files)?;
    let entry = name_of(entry);
    Ok(match entered(alloc, &files, entry)? {
        Ok(place) => format!(in alloc; "enters {}.{}", place.section, place.offset)?,
        Err(refusal) => told(alloc, &refusal, entry)?,
    })
}

#[test]
fn a_name_is_defined_once_and_the_entry_is_an_instruction(rt: HostRuntime) -> Result<(), Fail> {
    for row in LINKS.lines() {
        let columns = columns_of(rt.alloc(), row, '|')?;
        assert_eq!(rt; columns.len(), 4, "{row}");
        let outcome = outcome(rt.alloc(), columns[1], columns[2])?;
        assert!(rt; outcome.as_str() == columns[3], "{row}: {outcome}");
    }
    Ok(())
}
