// The segments of an executable.
ghost use Rattle.std.specs.Prelude.{◌≡◌, ◌+◌, ◌≤◌, ◌<◌, length, IfOk};
ghost use Rattle.elf64_exec.specs.Executable.{IsImage};
ghost use Rattle.elf64_exec.specs.declared.memory_map.TheConstants.{MEMORY_END};
ghost use Rattle.image_writer.specs.Segments.{image_segments, TakeText};

use elf64_exec::{Segment, Segments, TEXT};
use ppc_bytes::{Bytes, Memory};
use std::alloc::Global;
use toc_groups::DataPlan;

/// The segments of an executable: `parts`, which are those of data, and the text behind them, which is read and executed. The program
/// starts at the address `entry` (ELF64, "Program Header"). The one error is want of memory.
pub fn segments(
    alloc: Global,
    parts: Vec<Segment>,
    text: Vec<u8>,
    plan: &DataPlan,
    entry: u64,
) -> Result<Segments, Memory>
    requires parts { TakeText plan.now.text_start parts.items }
    requires some { 0 < length text.items }
    requires limit { plan.now.text_start + length text.items ≤ MEMORY_END }
    ensures entry { IfOk result (λ segments. segments.entry ≡ entry) }
    ensures list { IfOk result (λ segments.
        segments.list.items ≡ image_segments parts.items plan.now.text_start text.items) }
    ensures image { IfOk result (λ segments. IsImage segments.list.items) }
{
    let mut list = parts;
    let size = text.len() as u64;
    list.push(Segment {
        flags: TEXT,
        address: plan.text_start(),
        bytes: Bytes::of(text),
        size,
    })?;
    Ok(Segments { entry, list })
}
