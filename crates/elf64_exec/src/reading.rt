// Reading an executable.
ghost use Rattle.std.specs.Prelude.{◌≡◌, ◌+◌, ◌*◌, ◌<◌, ◌≤◌, ◌↔◌, ◌++◌, ℕ, length, take, drop, IsTrue, IfOk, IfErr};
ghost use Rattle.ppc_bytes.specs.Bytes.{number_at};
ghost use Rattle.ppc_bytes.specs.Elf.{HasMagic};
ghost use Rattle.elf64_exec.specs.Executable.{ArePlaced};
ghost use Rattle.elf64_exec.specs.Loading.{e_phoff, e_phnum, IsExecHeader, IsGood, HasFault, segments_upto, Loads};
ghost use Rattle.elf64_exec.specs.inside.Headers.{IsHeaderAt, CanFollow};

use crate::layout::{
    ELFV2, ET_EXEC, ExecFault, FILE_HEADER, PROGRAM_HEADER, PT_LOAD, Segment, Segments,
};
use crate::memory_map::MEMORY_END;
use ppc_bytes::{Bytes, half_at, has_magic, is_ppc64_le, long_at, word_at};
use std::alloc::Global;

/// The entry and the segments that the bytes of an executable stand for, or the first thing that is wrong
/// with them. Program headers of other types and empty segments are skipped.
pub fn read_exec(alloc: Global, bytes: &[u8]) -> Result<Segments, ExecFault>
    ensures loads { IfOk result (λ segments. Loads bytes.now segments.entry segments.list.items) }
    ensures placed { IfOk result (λ segments. ArePlaced segments.list.items) }
    ensures fault { IfErr result (HasFault bytes.now) }
{
    if !has_magic(bytes) {
        return Err(ExecFault::NotElf);
    }
    if !is_exec_header(bytes) {
        return Err(ExecFault::NotExec);
    }
    let list = read_segments(alloc, bytes)?;
    Ok(Segments {
        entry: long_at(bytes, 24),
        list,
    })
}

/// Whether the file header is that of an executable whose program headers lie in the file.
fn is_exec_header(bytes: &[u8]) -> bool
    ensures { IsTrue result ↔ IsExecHeader bytes.now }
{
    if bytes.len() < FILE_HEADER || !is_ppc64_le(bytes) {
        return false;
    }
    let flags = word_at(bytes, 48);
    if flags != 0 && flags != ELFV2 {
        return false;
    }
    half_at(bytes, 16) == ET_EXEC
        && usize::from(half_at(bytes, 54)) == PROGRAM_HEADER
        && half_at(bytes, 56) > 0
        && are_headers_inside(bytes)
}

fn are_headers_inside(bytes: &[u8]) -> bool
    requires { 64 ≤ length bytes.now }
    ensures { IsTrue result ↔ (e_phoff bytes.now + 56 * e_phnum bytes.now ≤ length bytes.now) }
{
    let length = bytes.len() as u64;
    let start = long_at(bytes, 32);
    let size = PROGRAM_HEADER as u64 * u64::from(half_at(bytes, 56));
    start <= length && size <= length - start
}

/// What a program header says, but for its `p_paddr` and `p_align`.
#[derive(Clone, Copy)]
pub(crate) struct ProgramHeader {
    kind: u32,
    flags: u32,
    offset: u64,
    address: u64,
    stored: u64,
    size: u64,
}

impl ProgramHeader {
    ghost use Rattle.elf64_exec.specs.inside.Headers.{IsHeaderAt, CanFollow};

    /// The program header at a place.
    fn read(bytes: &[u8], at: usize) -> ProgramHeader
        requires { at + 56 ≤ length bytes.now }
        ensures { IsHeaderAt bytes.now at result }
    {
        ProgramHeader {
            kind: word_at(bytes, at),
            flags: word_at(bytes, at + 4),
            offset: long_at(bytes, at + 8),
            address: long_at(bytes, at + 16),
            stored: long_at(bytes, at + 32),
            size: long_at(bytes, at + 40),
        }
    }

    /// Whether it can be loaded from a file of this length, after memory that ends at `top`.
    fn can_follow(&self, length: u64, top: u64) -> bool
        ensures { IsTrue result ↔ CanFollow length top self.now }
    {
        self.offset <= length
            && self.stored <= length - self.offset
            && self.stored <= self.size
            && self.address <= MEMORY_END
            && self.size <= MEMORY_END - self.address
            && top <= self.address
    }

    /// Its segment, with a copy of its bytes.
    fn segment(&self, alloc: Global, bytes: &[u8]) -> Result<Segment, ExecFault>
        requires { self.now.offset + self.now.stored ≤ length bytes.now }
        ensures segment { IfOk result (λ segment. segment ≡ record {
          flags = self.now.flags;
          address = self.now.address;
          bytes = take self.now.stored (drop self.now.offset bytes.now);
          size = self.now.size;
        }) }
        ensures memory { IfErr result (λ fault. fault ≡ ExecFault.Memory) }
    {
        let from = self.offset as usize;
        let copy = Vec::from_slice(alloc, &bytes[from..from + self.stored as usize])?;
        Ok(Segment {
            flags: self.flags,
            address: self.address,
            bytes: Bytes::of(copy),
            size: self.size,
        })
    }
}

/// The segments of all program headers, or the number of the first that can't be loaded.
fn read_segments(alloc: Global, bytes: &[u8]) -> Result<Vec<Segment>, ExecFault>
    requires magic { HasMagic bytes.now }
    requires header { IsExecHeader bytes.now }
    ensures good { IfOk result (λ list. (i : ℕ) → i < e_phnum bytes.now → IsGood bytes.now i) }
    ensures segments { IfOk result (λ list.
        list.items ≡ segments_upto bytes.now (e_phnum bytes.now)) }
    ensures placed { IfOk result (λ list. ArePlaced list.items) }
    ensures fault { IfErr result (HasFault bytes.now) }
{
    let length = bytes.len() as u64;
    let start = long_at(bytes, 32) as usize;
    let mut list = Vec::new(alloc);
    let mut top = 0;
    for i in 0..half_at(bytes, 56) {
        let header = ProgramHeader::read(bytes, start + PROGRAM_HEADER * i as usize);
        if header.kind == PT_LOAD {
            if !header.can_follow(length, top) {
                return Err(ExecFault::BadSegment(u32::from(i)));
            }
            top = header.address + header.size;
            if header.size > 0 {
                list.push(header.segment(alloc, bytes)?)?;
            }
        }
    }
    Ok(list)
}
