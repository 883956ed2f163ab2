// Memory: regions of bytes, which are kept by pages.
ghost use Rattle.std.specs.Prelude.{◌≡◌, ◌≢◌, ◌+◌, ◌*◌, ◌≤◌, ◌<◌, ◌-◌, ◌^◌, ℕ, List, length, IfSome, IfOk, OnOk, OnErr, true, false, if◌then◌else◌, Some, None};
ghost use Rattle.power_insns.specs.Arithmetic.{bytes_of};
ghost use Rattle.power_machine.specs.declared.memory.Purpose.TheVariants.{Loading, Storing};
ghost use Rattle.power_machine.specs.Bytes.{spelled};
ghost use Rattle.power_machine.specs.Memory.{permits, holds, range_of, ranges_of, allows, allows_range, base_of, keeps, keeps_page};
ghost use Rattle.power_machine.specs.inside.Regions.{BeginBy, InOrder, IsPlace, Puts, Writes, bytes_read, number_read, permitted, place_of, range_read};
ghost use Rattle.power_machine.specs.declared.memory.Stored.TheVariants.{Whole};

use crate::pages::{PAGE, Pages};
use power_insns::meaning::Width;
use ppc_bytes::Bytes;
use std::alloc::{AllocError, Global};

/// How many addresses a page has, as an address.
pub const PAGE_SIZE: u64 = PAGE as u64;

/// What bytes of memory are wanted for.
#[derive(Clone, Copy)]
pub enum Purpose {
    Loading,
    Storing,
    Fetching,
}

/// Bytes from an address on, by pages from the one on which the first of them lies.
#[derive(Drop)]
pub struct Region {
    pub start: u64,
    pub size: u64,
    pub writable: bool,
    pub executable: bool,
    pub pages: Pages,
}

impl Region {
    fn permits(&self, purpose: Purpose) -> bool
        ensures { result ≡ permits purpose (range_of self.now) }
    {
        match purpose {
            Purpose::Loading => true,
            Purpose::Storing => self.writable,
            Purpose::Fetching => self.executable,
        }
    }

    // Whether so many bytes at an address lie in it and may be used.
    fn holds(&self, purpose: Purpose, at: u64, count: u64) -> bool
        ensures { result ≡ holds purpose at count (range_of self.now) }
    {
        self.start <= at
            && at - self.start <= self.size
            && count <= self.size - (at - self.start)
            && self.permits(purpose)
    }

    // The number in the pages of the byte at an address.
    fn index_of(&self, at: u64) -> usize
        requires { self.now.start ≤ at }
        ensures { result ≡ at - base_of self.now.start }
    {
        (at - self.start / PAGE_SIZE * PAGE_SIZE) as usize
    }

    fn keeps(&self, page: u64) -> bool
        ensures { result ≡ keeps page self.now }
    {
        let first = self.start / PAGE_SIZE;
        first <= page && self.pages.keeps((page - first) as usize)
    }
}

/// The regions, in order of their addresses.
#[derive(Drop)]
pub struct AddressSpace {
    pub alloc: Global,
    pub regions: Vec<Region>,
    ghost in_order: { InOrder regions.items },
}

/// What became of bytes that were to be stored.
#[derive(Clone, Copy)]
pub enum Stored {
    /// They are there.
    Whole,

    /// They may not be stored there.
    Outside,

    /// Memory was refused.
    Refused,
}

// How many regions begin at or below an address.
fn begun_by(regions: &[Region], at: u64) -> usize
    requires { InOrder regions.now }
    ensures { BeginBy regions.now at result }
{
    let mut low = 0;
    let mut high = regions.len();
    while low < high {
        let middle = low + (high - low) / 2;
        if regions[middle].start <= at {
            low = middle + 1;
        } else {
            high = middle;
        }
    }
    low
}

// The region that holds so many bytes at an address: none but the last that begins there or below can.
fn place(regions: &[Region], purpose: Purpose, at: u64, count: u64) -> Option<usize>
    requires order { InOrder regions.now }
    requires some { 0 < count }
    ensures value { result ≡ place_of purpose at count regions.now }
    ensures found { IfSome result (λ index. IsPlace purpose at count regions.now index) }
{
    let begun = begun_by(regions, at);
    if begun == 0 {
        return None;
    }
    let last = begun - 1;
    if regions[last].holds(purpose, at, count) {
        Some(last)
    } else {
        None
    }
}

impl AddressSpace {
    // Whether one region has so many bytes at an address for this use.
    fn has(&self, purpose: Purpose, at: u64, count: u64) -> bool
        requires { 0 < count }
        ensures { result ≡ allows purpose at count (ranges_of self.now.regions.items) }
    {
        place(&self.regions, purpose, at, count).is_some()
    }

    /// Whether a call's range may be used. A range without bytes may, wherever it lies.
    pub fn allows(&self, purpose: Purpose, at: u64, count: u64) -> bool
        ensures { result ≡ allows_range (permitted self.now.regions.items) purpose at count }
    {
        count == 0 || self.has(purpose, at, count)
    }

    /// The number at an address, where it may be used.
    pub fn number_at(&self, purpose: Purpose, at: u64, width: Width) -> Option<u64>
        ensures value { result ≡ number_read purpose at width self.now.regions.items }
        ensures bound { IfSome result (λ n. n < 256 ^ bytes_of width) }
    {
        let Some(index) = place(&self.regions, purpose, at, size_of(width)) else {
            return None;
        };
        let region = &self.regions[index];
        Some(region.pages.number_at(region.index_of(at), width))
    }

    /// Puts bytes at an address, where a number of bytes may be stored there, and keeps the pages on which they lie.
    pub fn write(&mut self, at: u64, room: u64, bytes: &[u8]) -> Stored
        requires some { 0 < room }
        requires fits { length bytes.now ≤ room }
        ensures ranges { ranges_of self.new.regions.items ≡ ranges_of self.old.regions.items }
        ensures writes { Writes self.old.regions.items self.new.regions.items at room bytes.now
            result }
        ensures refused { result ≢ Whole → self.new ≡ self.old }
    {
        let Some(index) = place(&self.regions, Purpose::Storing, at, room) else {
            return Stored::Outside;
        };
        let region = &mut self.regions[index];
        let from = region.index_of(at);
        match region.pages.write(self.alloc, from, bytes) {
            Ok(()) => Stored::Whole,
            Err(_) => Stored::Refused,
        }
    }

    /// Puts bytes into a call's range that may be stored into. Where memory is refused all stays as it was.
    pub fn fill(&mut self, at: u64, room: u64, bytes: &[u8]) -> Result<(), AllocError>
        requires fits { length bytes.now ≤ room }
        requires allowed { allows_range (permitted self.old.regions.items) Storing at room ≡ true }
        ensures ranges { ranges_of self.new.regions.items ≡ ranges_of self.old.regions.items }
        ensures filled { OnOk result (Puts self.old.regions.items self.new.regions.items at
            bytes.now) }
        ensures refused { OnErr result (self.new ≡ self.old) }
    {
        if bytes.is_empty() {
            return Ok(());
        }
        match self.write(at, room, bytes) {
            Stored::Whole => Ok(()),
            Stored::Outside => Ok(()),
            Stored::Refused => Err(AllocError),
        }
    }

    // The first bytes at an address, where a number of bytes may be loaded there.
    fn bytes_at(&self, at: u64, room: u64, count: u64) -> Result<Option<Bytes>, AllocError>
        requires some { 0 < room }
        requires fits { count ≤ room }
        ensures { IfOk result (λ bytes. bytes ≡ bytes_read at room count self.now.regions.items) }
    {
        let Some(index) = place(&self.regions, Purpose::Loading, at, room) else {
            return Ok(None);
        };
        let region = &self.regions[index];
        let bytes = region
            .pages
            .copy_of(self.alloc, region.index_of(at), count as usize)?;
        Ok(Some(Bytes::of(bytes)))
    }

    /// The first bytes of a call's range, where it may be loaded from.
    pub fn copy_at(&self, at: u64, room: u64, count: u64) -> Result<Option<Bytes>, AllocError>
        requires { count ≤ room }
        ensures { IfOk result (λ bytes. bytes ≡ range_read at room count self.now.regions.items) }
    {
        if room == 0 {
            return Ok(Some(Bytes::of(Vec::new(self.alloc))));
        }
        self.bytes_at(at, room, count)
    }

    /// Whether a page is kept.
    pub fn keeps_page(&self, page: u64) -> bool
        ensures { result ≡ keeps_page self.now.regions.items page }
    {
        self.regions.iter().any(|region| region.keeps(page))
    }
}

// How many bytes a number has.
pub fn size_of(width: Width) -> u64
    ensures { result ≡ bytes_of width }
{
    match width {
        Width::Byte => 1,
        Width::Half => 2,
        Width::Word => 4,
        Width::Long => 8,
    }
}
