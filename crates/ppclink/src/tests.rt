// The command over files and a console in memory. A row of a table says, between bars: the words, where '' is an empty word; the call
// of the store or of the console that fails, if one does; the status; the lines that are printed, with a stroke between two; and the
// entry of the executable that `x` holds at the end, if it was written.
ghost use Rattle.std.specs.Prelude.{◌≡◌, ◌<◌};

mod checking;
mod computing;
mod files;
mod leaving;
mod libraries;
mod linking;
mod listings;
mod objects;
mod running;
mod showing;
mod statements;

use crate::top::command;
use files::{executable, files};
use link_engine::Steps;
use ppc_outside::{MemConsole, MemStore};
use std::alloc::{AllocError, Global};
use std::marker::Brand;
use std::process::Abort;
use std::sync::ledger::{Blank, Ledger};
use std::test::Fail;

/// What a command did.
#[derive(Drop)]
struct Ran {
    status: u8,
    text: Vec<u8>,
    out: Option<Vec<u8>>,
}

// Does what the words say over a store with these files.
fn run_with<L: Ledger>(
    blank: Blank,
    alloc: Global,
    words: &Vec<String>,
    store: &mut MemStore,
    console: &mut MemConsole,
) -> Result<Ran, Fail>
    requires name { blank.name ≡ L.name }
    requires parts { blank.parts ≡ L.parts }
    requires some { 0 < L.parts }
{
    let mut steps = Steps::<L>::new(blank);
    let status = command(alloc, words, store, console, &mut steps);
    let out = match store.get("x") {
        Some(bytes) => Some(Vec::from_slice(alloc, bytes)?),
        None => None,
    };
    let text = Vec::from_slice(alloc, console.text())?;
    Ok(Ran { status, text, out })
}

fn run(
    alloc: Global,
    words: &Vec<String>,
    store: &mut MemStore,
    console: &mut MemConsole,
) -> Result<Ran, Fail> {
    run_with::<Brand>(Blank::new(1), alloc, words, store, console)
}

// Marks the call that a column names.
fn mark(column: &str, store: &mut MemStore, console: &mut MemConsole) -> Result<(), Fail> {
    match column.split_once(' ') {
        Some(("store", call)) => store.fail_call(call.parse::<u64>()?)?,
        Some(("console", call)) => console.fail_call(call.parse::<u64>()?)?,
        _ => {}
    }
    Ok(())
}

// The words of a column.
fn words_of(alloc: Global, column: &str) -> Result<Vec<String>, AllocError> {
    let mut words = Vec::new(alloc);
    for word in column.split_whitespace() {
        let word = if word == "''" { "" } else { word };
        words.push(String::from_str(alloc, word)?)?;
    }
    Ok(words)
}

// The lines of a column.
fn text_of(alloc: Global, column: &str) -> Result<String, AllocError> {
    let mut text = String::new(alloc);
    if !column.is_empty() {
        for line in column.split(" / ") {
            text.push_str(line)?;
            text.push_str("\n")?;
        }
    }
    Ok(text)
}

// The executable that a column stands for.
fn out_of(alloc: Global, column: &str) -> Result<Option<Vec<u8>>, Fail> {
    if column.is_empty() {
        return Ok(None);
    }
    Ok(Some(executable(alloc, u64::from_str_radix(column, 16)?)?))
}

// The columns of a row.
fn columns_of<'a>(alloc: Global, row: &'a str) -> Result<Vec<&'a str>, AllocError> {
    let mut columns = Vec::new(alloc);
    for column in row.split('|') {
        columns.push(column.trim())?;
    }
    Ok(columns)
}

// A row's words end over a store as it says.
fn row_ends(rt: &impl Abort, alloc: Global, row: &str, store: &mut MemStore) -> Result<(), Fail> {
    let columns = columns_of(alloc, row)?;
    assert_eq!(rt; columns.len(), 5, "{row}");
    let mut console = MemConsole::new(alloc);
    mark(columns[1], store, &mut console)?;
    let words = words_of(alloc, columns[0])?;
    let ran = run(alloc, &words, store, &mut console)?;
    assert_eq!(rt; ran.status, columns[2].parse::<u8>()?, "{row}");
    let text = text_of(alloc, columns[3])?;
    assert!(rt; ran.text.as_slice() == text.as_bytes(), "{row}");
    assert!(rt; ran.out == out_of(alloc, columns[4])?, "{row}");
    Ok(())
}

// Each row's words end as it says.
fn all_end(rt: &impl Abort, alloc: Global, rows: &str) -> Result<(), Fail> {
    for row in rows.lines() {
        let mut store = files(alloc)?;
        row_ends(rt, alloc, row, &mut store)?;
    }
    Ok(())
}
