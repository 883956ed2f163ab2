// The memory of data while it is filled.
ghost use Rattle.std.specs.Prelude.{◌≡◌, ◌<◌, ◌≤◌, ◌⊎◌, ◌^◌, ℕ, IfOk, length, slice_index};
ghost use Rattle.byteorder.specs.Endian.{little_bytes};
ghost use Rattle.elf64_exec.specs.declared.memory_map.TheConstants.{IMAGE_START};
ghost use Rattle.toc_groups.specs.Contents.{bytes_between};
ghost use Rattle.toc_groups.specs.inside.Memory.{byte_of, HasRange, Puts};

use crate::pieces::DataEnds;
use elf64_exec::IMAGE_START;
use placed_bytes::{put_bytes, put_number};
use std::alloc::{AllocError, Global};
use std::marker::Model;

/// The bytes of the segment that is only read, and those that the file has of the one that is written.
#[derive(Drop)]
pub struct DataMemory {
    ends: DataEnds,
    read_only: Vec<u8>,
    writable: Vec<u8>,
}

impl Model for DataMemory {
    ghost use Rattle.toc_groups.specs.inside.Memory.{TwoParts, IsShaped};

    ghost Value = { TwoParts };

    ghost view = { λ m. record {
      ends = m.ends;
      read_only = m.read_only.items;
      writable = m.writable.items;
    } };

    ghost invariant = { λ m. IsShaped m.ends m.read_only.items m.writable.items };
}

/// So many zeros.
fn zeros(alloc: Global, count: u64) -> Result<Vec<u8>, AllocError>
    ensures length { IfOk result (λ bytes. length bytes.items ≡ count) }
    ensures zero { IfOk result (λ bytes. (k : ℕ) → slice_index bytes.items k ≡ 0) }
{
    vec![in alloc; 0u8; count as usize]
}

impl DataMemory {
    /// Zeros, from one end of data to another.
    pub fn zeroed(alloc: Global, ends: DataEnds) -> Result<DataMemory, AllocError>
        requires first { IMAGE_START ≤ ends.read_only }
        requires order { ends.read_only ≤ ends.writable_start }
        requires last { ends.writable_start ≤ ends.writable }
        requires limit { ends.writable < 2 ^ 63 }
        ensures ends { IfOk result (λ m. m.ends ≡ ends) }
        ensures zero { IfOk result (λ m. (a : ℕ) → byte_of m a ≡ 0) }
    {
        let read_only = zeros(alloc, ends.read_only - IMAGE_START)?;
        let writable = zeros(alloc, ends.writable - ends.writable_start)?;
        Ok(DataMemory {
            ends,
            read_only,
            writable,
        })
    }

    /// Puts bytes at an address.
    pub fn put(&mut self, address: u64, bytes: &[u8])
        requires some { 0 < length bytes.now }
        requires room { HasRange self.old.ends address (length bytes.now) }
        ensures ends { self.new.ends ≡ self.old.ends }
        ensures puts { Puts (byte_of self.old) address bytes.now (byte_of self.new) }
    {
        if address < self.ends.writable_start {
            let at = (address - IMAGE_START) as usize;
            put_bytes(&mut self.read_only, at, bytes);
        } else {
            let at = (address - self.ends.writable_start) as usize;
            put_bytes(&mut self.writable, at, bytes);
        }
    }

    /// Puts a number of four or eight bytes at an address, the lowest byte first.
    pub fn put_number(&mut self, address: u64, width: u32, x: u64)
        requires width { (width ≡ 4) ⊎ (width ≡ 8) }
        requires fits { x < 256 ^ width }
        requires room { HasRange self.old.ends address width }
        ensures ends { self.new.ends ≡ self.old.ends }
        ensures puts { Puts (byte_of self.old) address (little_bytes width x) (byte_of self.new) }
    {
        if address < self.ends.writable_start {
            let at = (address - IMAGE_START) as usize;
            put_number(&mut self.read_only, at, width, x);
        } else {
            let at = (address - self.ends.writable_start) as usize;
            put_number(&mut self.writable, at, width, x);
        }
    }

    /// The bytes of the segment that is only read, and those of the one that is written.
    pub fn into_parts(self) -> (Vec<u8>, Vec<u8>)
        ensures read_only { result.0.items ≡
            bytes_between (byte_of self) IMAGE_START self.ends.read_only }
        ensures writable { result.1.items ≡
            bytes_between (byte_of self) self.ends.writable_start self.ends.writable }
    {
        (self.read_only, self.writable)
    }
}
