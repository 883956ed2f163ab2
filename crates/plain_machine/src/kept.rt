// Ranges of addresses that aren't stored to.
ghost use Rattle.std.specs.Prelude.{◌≡◌, ◌+◌, ◌<◌, ◌≤◌, ℕ, Bool, List, [], length, nat_lt, Some, true, false, IfOk};
ghost use Rattle.std.specs.List.{list_any};
ghost use Rattle.std.specs.List.Sorted.{IsPermutation, IsNonDecreasingBy};
ghost use Rattle.plain_machine.specs.Actions.{meets};
ghost use Rattle.plain_machine.specs.inside.Kept.{start_of, farther, AreReaches, IsBegun};

use std::alloc::{AllocError, Global};
use std::marker::Model;

/// The addresses from `start` up to `stop`.
#[derive(Clone, Copy)]
pub struct AddressRange {
    /// The first address.
    pub start: u64,
    /// The one behind the last.
    pub stop: u64,
}

impl AddressRange {
    // Whether it begins before the end of so many bytes at an address.
    fn begins_before(self, at: u64, count: u64) -> bool
        ensures { result ≡ nat_lt self.start (at + count) }
    {
        self.start < at || self.start - at < count
    }
}

/// Puts ranges in order of their starts.
fn sort_ranges(ranges: &mut Vec<AddressRange>)
    ensures same { IsPermutation ranges.old.items ranges.new.items }
    ensures sorted { IsNonDecreasingBy start_of ranges.new.items }
{
    ranges.sort_unstable_by_key(|range| range.start);
}

/// How far ranges reach that reach so far before this one. A range without addresses reaches nowhere.
fn farther(reach: u64, range: AddressRange) -> u64
    ensures { result ≡ farther reach range }
{
    if range.start < range.stop {
        reach.max(range.stop)
    } else {
        reach
    }
}

/// How far the first ranges reach, for each number of them.
fn reaches(alloc: Global, ranges: &[AddressRange]) -> Result<Vec<u64>, AllocError>
    ensures { IfOk result (λ v. AreReaches ranges.now v.items) }
{
    let mut reach = 0;
    let mut reaches = vec![in alloc; reach]?;
    for range in ranges {
        reach = farther(reach, *range);
        reaches.push(reach)?;
    }
    Ok(reaches)
}

/// How many of ranges in order begin before the end of so many bytes at an address.
fn begun(ranges: &[AddressRange], at: u64, count: u64) -> usize
    requires { IsNonDecreasingBy start_of ranges.now }
    ensures begun { IsBegun (at + count) ranges.now result }
    ensures within { result ≤ length ranges.now }
{
    ranges.partition_point(|range| range.begins_before(at, count))
}

/// Ranges, and what finds those that bytes meet.
#[derive(Drop)]
pub struct Kept {
    /// As they were given.
    list: Vec<AddressRange>,
    /// In order of their starts.
    sorted: Vec<AddressRange>,
    /// How far the first of these reach, for each number of them.
    reaches: Vec<u64>,
}

impl Model for Kept {
    ghost use Rattle.std.specs.Prelude.{List};
    ghost use Rattle.plain_machine.specs.declared.kept.AddressRange.{AddressRange};
    ghost use Rattle.plain_machine.specs.inside.Kept.{AreInOrder};

    ghost Value = { List AddressRange };

    ghost view = { λ k. k.list.items };

    ghost invariant = { λ k. AreInOrder k.list.items k.sorted.items k.reaches.items };
}

impl Kept {
    /// These ranges.
    pub fn of_ranges(alloc: Global, list: Vec<AddressRange>) -> Result<Kept, AllocError>
        ensures { IfOk result (λ k. k ≡ list.items) }
    {
        let mut sorted = Vec::from_slice(alloc, &list)?;
        sort_ranges(&mut sorted);
        let reaches = reaches(alloc, &sorted)?;
        Ok(Kept {
            list,
            sorted,
            reaches,
        })
    }

    /// Whether so many bytes from an address on have one of a range.
    pub fn meets(&self, at: u64, count: u64) -> bool
        ensures { result ≡ list_any (meets at count) self.now }
    {
        if count == 0 {
            return false;
        }
        at < self.reaches[begun(&self.sorted, at, count)]
    }
}
