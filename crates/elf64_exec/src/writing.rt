// Writing an executable.
ghost use Rattle.std.specs.Prelude.{◌≡◌, ◌+◌, ◌*◌, ◌^◌, ◌<◌, ◌≤◌, ◌++◌, length, IfOk, OnOk};
ghost use Rattle.elf64_exec.specs.Executable.{identification, half, word, long, file_header, program_header, page_up, file_end, program_headers, contents, header_length, executable, ArePlaced, IsImage};

use crate::layout::{ELFV2, ET_EXEC, FILE_HEADER, PROGRAM_HEADER, PT_LOAD, Segment, Segments};
use crate::memory_map::PAGE;
use ppc_bytes::{Memory, align_up};
use std::alloc::Global;

/// What an executable's file header begins with (gABI, "ELF Identification").
const IDENTIFICATION: [u8; 16] = [0x7F, 0x45, 0x4C, 0x46, 2, 1, 1, 0, 0, 0, 0, 0, 0, 0, 0, 0];

/// The executable of these segments, which ends with the last one's last byte. The one error is want of
/// memory.
pub fn write_exec(alloc: Global, segments: &Segments) -> Result<Vec<u8>, Memory>
    requires { IsImage segments.now.list.items }
    ensures { IfOk result (λ file.
        file.items ≡ executable segments.now.entry segments.now.list.items) }
{
    let list = segments.list.as_slice();
    let mut file = Vec::new(alloc);
    push_file_header(&mut file, segments.entry, list.len() as u16)?;
    let end = push_program_headers(&mut file, list)?;
    file.reserve_exact(end - file.len())?;
    push_contents(&mut file, list)?;
    Ok(file)
}

#[tactic(auto, unfolding(crate::specs::Executable::file_header))]
fn push_file_header(file: &mut Vec<u8>, entry: u64, count: u16) -> Result<(), Memory>
    ensures { OnOk result (file.new.items ≡ file.old.items ++ file_header entry count) }
{
    push_identification(file)?;
    push_half(file, ET_EXEC)?;
    push_half(file, 21)?;
    push_word(file, 1)?;
    push_long(file, entry)?;
    push_long(file, FILE_HEADER as u64)?;
    push_long(file, 0)?;
    push_word(file, ELFV2)?;
    push_half(file, FILE_HEADER as u16)?;
    push_half(file, PROGRAM_HEADER as u16)?;
    push_half(file, count)?;
    push_half(file, 0)?;
    push_half(file, 0)?;
    push_half(file, 0)
}

#[tactic(auto, unfolding(crate::specs::Executable::identification))]
fn push_identification(file: &mut Vec<u8>) -> Result<(), Memory>
    ensures { OnOk result (file.new.items ≡ file.old.items ++ identification) }
{
    Ok(file.extend_from_slice(&IDENTIFICATION)?)
}

#[tactic(auto, unfolding(crate::specs::Executable::program_header))]
fn push_program_header(file: &mut Vec<u8>, offset: u64, segment: &Segment) -> Result<(), Memory>
    ensures { OnOk result (file.new.items ≡ file.old.items ++ program_header offset segment.now) }
{
    push_word(file, PT_LOAD)?;
    push_word(file, segment.flags)?;
    push_long(file, offset)?;
    push_long(file, segment.address)?;
    push_long(file, segment.address)?;
    push_long(file, segment.bytes.as_slice().len() as u64)?;
    push_long(file, segment.size)?;
    push_long(file, PAGE)
}

#[tactic(auto, unfolding(crate::specs::Executable::half))]
fn push_half(file: &mut Vec<u8>, x: u16) -> Result<(), Memory>
    ensures { OnOk result (file.new.items ≡ file.old.items ++ half x) }
{
    Ok(file.extend_from_slice(&x.to_le_bytes())?)
}

#[tactic(auto, unfolding(crate::specs::Executable::word))]
fn push_word(file: &mut Vec<u8>, x: u32) -> Result<(), Memory>
    ensures { OnOk result (file.new.items ≡ file.old.items ++ word x) }
{
    Ok(file.extend_from_slice(&x.to_le_bytes())?)
}

#[tactic(auto, unfolding(crate::specs::Executable::long))]
fn push_long(file: &mut Vec<u8>, x: u64) -> Result<(), Memory>
    ensures { OnOk result (file.new.items ≡ file.old.items ++ long x) }
{
    Ok(file.extend_from_slice(&x.to_le_bytes())?)
}

/// The next multiple of the page.
fn next_page(n: usize) -> usize
    requires { n < 2 ^ 62 }
    ensures { result ≡ page_up n }
{
    align_up(n as u64, PAGE) as usize
}

/// Appends the program headers, and answers where the file ends.
fn push_program_headers(file: &mut Vec<u8>, list: &[Segment]) -> Result<usize, Memory>
    requires placed { ArePlaced list.now }
    requires few { length list.now ≤ 3 }
    ensures headers { OnOk result (file.new.items
        ≡ file.old.items ++ program_headers (header_length list.now) list.now) }
    ensures end { IfOk result (λ end. end ≡ file_end (header_length list.now) list.now) }
{
    let mut end = FILE_HEADER + PROGRAM_HEADER * list.len();
    for segment in list {
        let offset = next_page(end);
        push_program_header(file, offset as u64, segment)?;
        end = offset + segment.bytes.as_slice().len();
    }
    Ok(end)
}

/// Appends the segments' bytes, each from the next page on.
fn push_contents(file: &mut Vec<u8>, list: &[Segment]) -> Result<(), Memory>
    requires placed { ArePlaced list.now }
    requires few { length list.now ≤ 3 }
    requires start { length file.old.items ≤ PAGE }
    ensures { OnOk result (file.new.items
        ≡ file.old.items ++ contents (length file.old.items) list.now) }
{
    for segment in list {
        file.resize(next_page(file.len()), 0)?;
        file.extend_from_slice(segment.bytes.as_slice())?;
    }
    Ok(())
}
