//! The linker's command: words in, a status and text out, over files and a console.
#![tactic(auto)]

mod checking;
mod fetching;
mod inputs;
mod jobs;
mod lines;
mod numbers;
mod perform;
mod report;
mod run_text;
mod running;
mod show;
#[cfg(test)]
mod tests;
mod top;
mod words;

ghost use Rattle.std.specs.Prelude.{◌≡◌, ◌<◌};

use link_engine::Steps;
use ppc_outside::{DirStore, StdConsole};
use std::alloc::AllocError;
use std::env;
use std::io::ErrorKind;
use std::marker::Brand;
use std::process::ExitCode;
use std::sync::ledger::{Blank, Ledger};
use top::command;

/// The status where memory is refused.
const NO_MEMORY: u8 = 5;

// The words of the command line, without the program's name. A command line that isn't all UTF-8 is none that is understood, and
// gives no words at all.
fn command_words(rt: &HostRuntime) -> Result<Vec<String>, AllocError> {
    let mut words = Vec::new(rt.alloc());
    match env::args(rt) {
        Ok(all) => {
            for word in all.skip(1) {
                words.push(word)?;
            }
            Ok(words)
        }
        Err(error) if error.kind() == ErrorKind::InvalidData => Ok(words),
        Err(_) => Err(AllocError),
    }
}

// Runs the command over the real files and standard output.
fn run<L: Ledger>(rt: &HostRuntime, blank: Blank) -> u8
    requires name { blank.name ≡ L.name }
    requires parts { blank.parts ≡ L.parts }
    requires some { 0 < L.parts }
{
    let Ok(words) = command_words(rt) else {
        return NO_MEMORY;
    };
    let mut store = DirStore::new(*rt);
    let mut console = StdConsole::new(*rt);
    let mut steps = Steps::<L>::new(blank);
    command(rt.alloc(), &words, &mut store, &mut console, &mut steps)
}

fn main(rt: HostRuntime) -> ExitCode {
    ExitCode::from(run::<Brand>(&rt, Blank::new(1)))
}
