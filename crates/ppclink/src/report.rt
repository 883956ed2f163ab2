// What a command reports before it prints.
ghost use Rattle.std.specs.Prelude.{◌≡◌, ◌<◌, length, MatchResult};
ghost use Rattle.ppclink.specs.Requests.{texts};
ghost use Rattle.ppclink.specs.inside.Reports.{UnreadReport, IsNumbered, UnfetchedReport};

use crate::fetching::Unfetched;
use crate::lines::unread_line;
use ppc_bytes::Memory;
use ppc_outside::OutsideError;
use std::alloc::Global;

/// What is left to do for a command.
#[derive(Debug, Drop)]
pub enum Report {
    /// Print the text and end with the status.
    Text {
        /// The status.
        status: u8,
        /// The text.
        text: Vec<u8>,
    },
    /// The executable was written.
    Written,
    /// The executable couldn't be written.
    Unwritten,
    /// Memory was refused.
    NoMemory,
}

/// A text to print, if there was memory for it.
pub fn text_report(status: u8, text: Result<Vec<u8>, Memory>) -> Report
    ensures { MatchResult text
        (λ t. result ≡ Report.Text status t)
        (λ e. result ≡ Report.NoMemory) }
{
    match text {
        Ok(text) => Report::Text { status, text },
        Err(Memory) => Report::NoMemory,
    }
}

/// The report where files of these names weren't fetched.
pub fn unfetched_report(alloc: Global, names: &[String], cause: Unfetched) -> Report
    requires { IsNumbered cause (length names.now) }
    ensures { UnfetchedReport (texts names.now) cause result }
{
    match cause {
        Unfetched::Failed(i) => text_report(3, unread_line(alloc, names[i].as_str())),
        Unfetched::Memory => Report::NoMemory,
    }
}

/// The report where a file wasn't fetched.
pub fn unread_report(alloc: Global, name: &str, error: OutsideError) -> Report
    ensures { UnreadReport name.now error result }
{
    match error {
        OutsideError::Failed => text_report(3, unread_line(alloc, name)),
        OutsideError::Memory => Report::NoMemory,
    }
}
