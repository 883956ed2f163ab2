// The text of a run: a line for each call that it made, and a last line.
ghost use Rattle.std.specs.Prelude.{◌≡◌, ◌++◌, codes, decimal, IfOk, OnOk};
ghost use Rattle.hex.specs.Hex.{encode_lower};
ghost use Rattle.ppclink.specs.Runs.{reason_name, event_line, event_lines, exit_line, left_line, budget_line};

use power_machine::{Event, Reason};
use ppc_bytes::Memory;
use std::alloc::Global;

/// What is printed of a run, and the status.
#[derive(Drop)]
pub struct RunText {
    /// The status.
    pub status: u8,
    /// The text.
    pub text: Vec<u8>,
}

/// The number of the system call that reads.
const READ: u64 = 3;

/// The name of a reason to leave.
fn reason_name(reason: Reason) -> &'static [u8]
    ensures { result.now ≡ reason_name reason }
{
    match reason {
        Reason::Fetch => b"fetch",
        Reason::Word => b"word",
        Reason::Load => b"load",
        Reason::Store => b"store",
        Reason::Divide => b"divide",
        Reason::Call => b"call",
        Reason::Value => b"value",
        Reason::Toc => b"toc",
        Reason::Restore => b"restore",
        Reason::Prologue => b"prologue",
        Reason::Part => b"part",
        Reason::Pair => b"pair",
    }
}

// The text goes on with a decimal number.
fn push_decimal(alloc: Global, text: &mut Vec<u8>, n: u64) -> Result<(), Memory>
    ensures { OnOk result (text.new.items ≡ text.old.items ++ decimal n) }
{
    let digits = n.to_string(alloc)?;
    text.extend_from_slice(digits.as_bytes())?;
    Ok(())
}

// The text goes on with the hexadecimal digits of bytes, and the line ends.
fn push_bytes(alloc: Global, text: &mut Vec<u8>, bytes: &[u8]) -> Result<(), Memory>
    ensures { OnOk result
        (text.new.items ≡ text.old.items ++ encode_lower bytes.now ++ codes "\n") }
{
    let digits = hex::encode(alloc, bytes)?;
    text.extend_from_slice(digits.as_bytes())?;
    text.extend_from_slice(b"\n")?;
    Ok(())
}

// The text goes on with the line of a call.
fn push_event(alloc: Global, text: &mut Vec<u8>, event: &Event) -> Result<(), Memory>
    ensures { OnOk result (text.new.items ≡ text.old.items ++ event_line event.now) }
{
    if event.number == READ {
        text.extend_from_slice(b"read ")?;
        push_decimal(alloc, text, event.fd)?;
        text.extend_from_slice(b" ")?;
        push_decimal(alloc, text, event.length)?;
    } else {
        text.extend_from_slice(b"write ")?;
        push_decimal(alloc, text, event.fd)?;
    }
    text.extend_from_slice(b" ")?;
    push_bytes(alloc, text, event.bytes.as_slice())
}

/// The lines of calls.
pub fn event_lines(alloc: Global, events: &[Event]) -> Result<Vec<u8>, Memory>
    ensures { IfOk result (λ text. text.items ≡ event_lines events.now) }
{
    let mut text = Vec::new(alloc);
    for event in events {
        push_event(alloc, &mut text, event)?;
    }
    Ok(text)
}

/// The text goes on with the last line of a run that ended.
pub fn push_exit(alloc: Global, text: &mut Vec<u8>, status: u8) -> Result<(), Memory>
    ensures { OnOk result (text.new.items ≡ text.old.items ++ exit_line status) }
{
    text.extend_from_slice(b"exit ")?;
    push_decimal(alloc, text, u64::from(status))?;
    text.extend_from_slice(b"\n")?;
    Ok(())
}

/// The text goes on with the last line of a run that left.
pub fn push_left(text: &mut Vec<u8>, reason: Reason, place: &[u8]) -> Result<(), Memory>
    ensures { OnOk result (text.new.items ≡ text.old.items ++ left_line reason place.now) }
{
    text.extend_from_slice(b"left ")?;
    text.extend_from_slice(reason_name(reason))?;
    text.extend_from_slice(b" ")?;
    text.extend_from_slice(place)?;
    text.extend_from_slice(b"\n")?;
    Ok(())
}

/// The text goes on with the last line of a run that took all its steps.
pub fn push_budget(text: &mut Vec<u8>) -> Result<(), Memory>
    ensures { OnOk result (text.new.items ≡ text.old.items ++ budget_line) }
{
    text.extend_from_slice(b"budget\n")?;
    Ok(())
}
