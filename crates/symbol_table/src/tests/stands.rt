// What symbols stand for, and where they go.
use super::listings::{columns_of, files_of, object, parts_of};
use crate::{Piece, Resolved, Target, resolve};
use object_set::{FileBytes, ObjectSet};
use std::alloc::{AllocError, Global};
use std::test::Fail;

/// What a row shows, the files, each common with its size and alignment, and of symbols by file and number, with an addend, the file and
/// the number of their definition and where they go with the addend. The entry comes in a file more. Each file has text sections 1 and 3
/// and data 2.
const ROWS: &str = "\
a GLOBAL definition comes before a WEAK one and a common \
| f WEAK text 4, g GLOBAL common 8 8 / f GLOBAL text 8, g WEAK data / f WEAK undefined, g GLOBAL more-text 4 \
| \
| 0 1 0 = 1.1 code 2.8; 1 1 4 = 1.1 code 2.12; 2 1 -12 = 1.1 code 2.18446744073709551612; 0 2 0 = 2.2 code 5.4; 1 2 0 = 2.2 code 5.4
the first of two that are WEAK, in order of files and in one file \
| f GLOBAL undefined / f WEAK data 8, f WEAK text 4 / f WEAK text \
| \
| 0 1 0 = 1.1 section 1.2 8; 1 2 -9 = 1.1 section 1.2 -1; 2 1 9223372036854775807 = 1.1 section 1.2 -9223372036854775801
commons come before a WEAK definition, with the largest size and the largest alignment \
| c WEAK data, d WEAK undefined / c GLOBAL common 16 4, d GLOBAL common 1 8 / c GLOBAL common 4 8, d WEAK common 2 4 \
| 8 16, 8 2 \
| 0 1 0 = none common 0 0; 1 1 2 = none common 0 2; 2 1 -2 = none common 0 -2; 0 2 4 = none common 1 4
commons are numbered as their names are first seen, a reference included \
| b GLOBAL undefined, x GLOBAL common 1 1, a GLOBAL common 2 2 \
/ c LOCAL undefined, x GLOBAL data, b GLOBAL common 4 3, c WEAK common 8 4 \
| 3 4, 2 2, 4 8 \
| 0 1 0 = none common 0 0; 0 2 0 = 1.2 section 1.2 0; 0 3 0 = none common 1 0; 1 1 0 = none nowhere; 1 3 0 = none common 0 0; \
1 4 0 = none common 2 0
a symbol in a section that isn't kept refers to what its name stands for \
| f GLOBAL dropped, g GLOBAL dropped, h WEAK dropped, f LOCAL dropped / f WEAK text 4 \
| \
| 0 1 0 = 1.1 code 2.4; 0 2 0 = none nowhere; 0 3 0 = none weak 0; 0 4 0 = none nowhere
a LOCAL symbol stands for itself, and for nothing elsewhere \
| f LOCAL text 4, f LOCAL data 4, f LOCAL number 7, f LOCAL undefined / f GLOBAL undefined, f WEAK undefined \
| \
| 0 1 4 = 0.1 code 0.8; 0 2 4 = 0.2 section 0.2 8; 0 3 4 = 0.3 number 11; 0 4 0 = none nowhere; 1 1 0 = none nowhere; 1 2 5 = none weak 5
absolute symbols are numbers modulo 2^64 \
| n GLOBAL undefined, m GLOBAL undefined / n WEAK number 18446744073709551615, m GLOBAL number 0 \
| \
| 0 1 2 = 1.1 number 1; 0 2 -1 = 1.2 number 18446744073709551615
the base of the table of contents is that of the file that refers to it \
| .TOC. GLOBAL undefined, .TOC WEAK undefined / .TOC. WEAK undefined, .TOC. LOCAL undefined \
| \
| 0 1 4 = none base 0 4; 0 2 4 = none weak 4; 1 1 -4 = none base 1 -4; 1 2 0 = none base 1 0
symbol 0 is the number 0 \
| / | \
| 0 0 0 = none number 0; 1 0 -1 = none number 18446744073709551615
the global entry point of two, and the end of a section \
| f GLOBAL function 4, g GLOBAL text 16, h GLOBAL data 16 \
| \
| 0 1 0 = 0.1 code 0.4; 0 2 0 = 0.2 code 0.16; 0 3 0 = 0.3 section 0.2 16
names that are empty, not text, and equal up to a byte \
| empty GLOBAL undefined, ff-80 GLOBAL undefined, ab GLOBAL undefined, ac GLOBAL undefined, a GLOBAL undefined, abc GLOBAL undefined \
/ a GLOBAL number 1, ab GLOBAL number 2, ad GLOBAL number 3, ff-80 GLOBAL number 4, ff-81 GLOBAL number 5, empty GLOBAL number 6 \
| \
| 0 1 0 = 1.6 number 6; 0 2 0 = 1.4 number 4; 0 3 0 = 1.2 number 2; 0 4 0 = none nowhere; 0 5 0 = 1.1 number 1; 0 6 0 = none nowhere";

/// The definition of a symbol.
fn definition_told(alloc: Global, definition: Option<(u32, u32)>) -> Result<String, AllocError> {
    match definition {
        Some((file, symbol)) => format!(in alloc; "{file}.{symbol}"),
        None => String::from_str(alloc, "none"),
    }
}

/// Where a symbol goes.
fn target_told(alloc: Global, target: Target) -> Result<String, AllocError> {
    match target {
        Target::Number(number) => format!(in alloc; "number {number}"),
        Target::Code { section, offset } => format!(in alloc; "code {section}.{offset}"),
        Target::Data { piece, addend } => match piece {
            Piece::Section(file, section) => {
                format!(in alloc; "section {file}.{section} {addend}")
            }
            Piece::Common(common) => format!(in alloc; "common {common} {addend}"),
        },
        Target::TocBase { file, addend } => format!(in alloc; "base {file} {addend}"),
        Target::WeakNone(addend) => format!(in alloc; "weak {addend}"),
    }
}

/// The definition of a symbol by file and number, and where it goes with an addend.
fn answer(alloc: Global, resolved: &Resolved, question: &str) -> Result<String, Fail> {
    let parts = parts_of(alloc, question)?;
    if parts.len() != 3 {
        return Err(Fail::from("a file, a symbol and an addend"));
    }
    let (file, symbol) = (parts[0].parse::<u32>()?, parts[1].parse::<u32>()?);
    let set = resolved.set();
    if file >= set.file_count() || symbol >= set.view(file).symbol_count() {
        return Err(Fail::from("no such symbol"));
    }
    let definition = definition_told(alloc, resolved.definition(file, symbol))?;
    let addend = parts[2].parse::<i64>()?;
    let target = match resolved.find_target(file, symbol, addend) {
        Some(_) => target_told(alloc, resolved.target(file, symbol, addend))?,
        None => String::from_str(alloc, "nowhere")?,
    };
    Ok(format!(in alloc; "{definition} {target}")?)
}

/// The answer to a question that isn't answered as it says, or nothing.
fn wrong_answer(alloc: Global, resolved: &Resolved, row: &str) -> Result<String, Fail> {
    let Some((question, expected)) = row.split_once('=') else {
        return Err(Fail::from("a question and an answer"));
    };
    let answer = answer(alloc, resolved, question)?;
    Ok(if answer.as_str() == expected.trim() {
        String::new(alloc)
    } else {
        format!(in alloc; "{question}= {answer}")?
    })
}

/// The first wrong answer, or nothing.
fn first_wrong(alloc: Global, resolved: &Resolved, column: &str) -> Result<String, Fail> {
    for row in column.split(';') {
        let wrong = wrong_answer(alloc, resolved, row)?;
        if !wrong.is_empty() {
            return Ok(wrong);
        }
    }
    Ok(String::new(alloc))
}

/// The commons, each with its size and alignment.
fn commons_told(alloc: Global, resolved: &Resolved) -> Result<String, AllocError> {
    let mut text = String::new(alloc);
    for common in 0..resolved.common_count() {
        let (size, align) = resolved.common(common);
        text.push_str(if common == 0 { "" } else { ", " })?;
        text.push_str(&format!(in alloc; "{size} {align}")?)?;
    }
    Ok(text)
}

/// What is wrong in the answers to a link's questions, or nothing.
pub fn wrong_in(
    alloc: Global,
    files: &[FileBytes],
    entry: &[u8],
    commons: &str,
    asked: &str,
) -> Result<String, Fail> {
    if files.len() > 4096 {
        return Err(Fail::from("at most 4096 files"));
    }
    let Ok(set) = ObjectSet::take(alloc, files) else {
        return Err(Fail::from("object files"));
    };
    let Ok(resolved) = resolve(alloc, &set, entry) else {
        return Err(Fail::from("an entry"));
    };
    let told = commons_told(alloc, &resolved)?;
    if told.as_str() != commons {
        return Ok(told);
    }
    first_wrong(alloc, &resolved, asked)
}

/// The files of a row, and one more with the entry.
fn files_with_entry(alloc: Global, column: &str) -> Result<Vec<FileBytes>, Fail> {
    let mut files = files_of(alloc, column)?;
    files.push(object(alloc, "_start GLOBAL text")?)?;
    Ok(files)
}

#[test]
fn symbols_stand_for_what_their_names_do(rt: HostRuntime) -> Result<(), Fail> {
    for row in ROWS.lines() {
        let columns = columns_of(rt.alloc(), row, '|')?;
        assert_eq!(rt; columns.len(), 4, "{row}");
        let files = files_with_entry(rt.alloc(), columns[1])?;
        let wrong = wrong_in(rt.alloc(), &files, b"_start", columns[2], columns[3])?;
        assert!(rt; wrong.is_empty(), "{row}: {wrong}");
    }
    Ok(())
}
