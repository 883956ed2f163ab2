// The bytes of memory that are no numbers, by doublewords.
ghost use Rattle.std.specs.Prelude.{◌≡◌, ◌≢◌, ◌+◌, ◌-◌, ◌*◌, ◌/◌, ◌%◌, ◌^◌, ◌<◌, ◌≤◌, ◌⊎◌, ℕ, Bool, List, Option, Some, None, IsSome, is_some, length, IfOk, OnOk, OnErr, IfSome, true, false};
ghost use Rattle.power_machine.specs.Memory.{put};
ghost use Rattle.plain_machine.specs.inside.Others.{entry_in, other_at, merged_at, get_at, cell_none, put_where, cleared_at, cleared_where, are_numbers, is_number};

use crate::value::Cell;
use std::alloc::{AllocError, Global};
use std::collections::HashMap;

/// A doubleword of which all bytes are numbers, which are told elsewhere.
const NUMBERS: [Cell; 8] = [Cell::Number(0); 8];

/// Doublewords some of whose bytes are no numbers, by their addresses divided by 8. What is told of numbers there counts for nothing.
#[derive(Drop)]
pub struct Others {
    doublewords: HashMap<u64, [Cell; 8]>,
}

// A doubleword with these cells from an address on over its own. It has the number of its address divided by 8.
fn merged(own: [Cell; 8], number: u64, at: u64, cells: &[Cell]) -> [Cell; 8]
    requires low { number < 2 ^ 61 }
    requires few { length cells.now ≤ 8 }
    ensures { (k : ℕ) → k < 8 →
        entry_in (Some result) k ≡ merged_at (entry_in (Some own)) (8 * number) at cells.now k }
{
    let mut new = own;
    for k in 0..8 {
        let address = 8 * number + k as u64;
        if at <= address && address - at < cells.len() as u64 {
            new[k] = cells[(address - at) as usize];
        }
    }
    new
}

// A doubleword with numbers for those of so many bytes from an address on that lie in it.
fn cleared(own: [Cell; 8], number: u64, at: u64, count: u64) -> [Cell; 8]
    requires low { number < 2 ^ 61 }
    ensures { (k : ℕ) → k < 8 →
        entry_in (Some result) k ≡ cleared_at (entry_in (Some own)) (8 * number) at count k }
{
    let mut new = own;
    for k in 0..8 {
        let address = 8 * number + k as u64;
        if at <= address && address - at < count {
            new[k] = Cell::Number(0);
        }
    }
    new
}

impl Others {
    /// None.
    pub fn none(alloc: Global) -> Others
        ensures { (a : ℕ) → other_at result a ≡ cell_none }
    {
        Others {
            doublewords: HashMap::new(alloc),
        }
    }

    // The cells of a doubleword.
    fn doubleword(&self, number: u64) -> [Cell; 8]
        ensures { (k : ℕ) → entry_in (Some result) k ≡ entry_in (get_at self.now number) k }
    {
        match self.doublewords.get(&number) {
            Some(cells) => *cells,
            None => NUMBERS,
        }
    }

    /// The cell at an address: any number where it is one.
    pub fn at(&self, address: u64) -> Cell
        ensures { result ≡ other_at self.now address }
    {
        self.doubleword(address / 8)[(address % 8) as usize]
    }

    // Makes room for a doubleword: its bytes may be told from then on, and are as they were.
    fn make_room(&mut self, number: u64) -> Result<(), AllocError>
        ensures same { (a : ℕ) → other_at self.new a ≡ other_at self.old a }
        ensures there { OnOk result (IsSome (get_at self.new number)) }
        ensures others { (q : ℕ) → IsSome (get_at self.old q) → IsSome (get_at self.new q) }
    {
        if self.doublewords.contains_key(&number) {
            return Ok(());
        }
        match self.doublewords.insert(number, NUMBERS) {
            Ok(_) => Ok(()),
            Err(_) => Err(AllocError),
        }
    }

    // Puts those of cells from an address on that lie in a doubleword that has room.
    fn put_in(&mut self, number: u64, at: u64, cells: &[Cell])
        requires low { number < 2 ^ 61 }
        requires few { length cells.now ≤ 8 }
        requires there { IsSome (get_at self.old number) }
        ensures put { (a : ℕ) → other_at self.new a ≡
            put_where number (other_at self.old) at cells.now a }
        ensures others { (q : ℕ) → IsSome (get_at self.old q) → IsSome (get_at self.new q) }
    {
        let new = merged(self.doubleword(number), number, at, cells);
        let _ = self.doublewords.insert(number, new);
    }

    /// Puts up to eight cells at an address. Where memory is refused all stays as it was.
    pub fn put(&mut self, at: u64, cells: &[Cell]) -> Result<(), AllocError>
        requires low { at < 2 ^ 63 }
        requires some { 0 < length cells.now }
        requires few { length cells.now ≤ 8 }
        ensures ok { OnOk result ((a : ℕ) →
            other_at self.new a ≡ put (other_at self.old) at cells.now a) }
        ensures err { OnErr result ((a : ℕ) → other_at self.new a ≡ other_at self.old a) }
    {
        let first = at / 8;
        let last = (at + cells.len() as u64 - 1) / 8;
        self.make_room(first)?;
        self.make_room(last)?;
        self.put_in(first, at, cells);
        if last != first {
            self.put_in(last, at, cells);
        }
        Ok(())
    }

    // Whether a doubleword may have bytes that are no numbers.
    fn is_touched(&self, number: u64) -> bool
        ensures { result ≡ is_some (get_at self.now number) }
    {
        self.doublewords.contains_key(&number)
    }

    // Whether all of so many bytes from an address on are numbers, by a look at each.
    fn are_all_numbers(&self, at: u64, count: u64) -> bool
        requires low { at + count < 2 ^ 64 }
        ensures { result ≡ are_numbers (other_at self.now) at count }
    {
        for k in 0..count {
            if !self.at(at + k).is_number() {
                return false;
            }
        }
        true
    }

    /// Whether all of so many bytes from an address on are numbers.
    pub fn are_numbers(&self, at: u64, count: u64) -> bool
        requires low { at + count < 2 ^ 64 }
        ensures { result ≡ are_numbers (other_at self.now) at count }
    {
        if count > 0 && count <= 8 {
            let last = (at + count - 1) / 8;
            if !self.is_touched(at / 8) && !self.is_touched(last) {
                return true;
            }
        }
        self.are_all_numbers(at, count)
    }

    // Makes numbers of those of so many bytes from an address on that lie in a doubleword.
    fn clear_in(&mut self, number: u64, at: u64, count: u64)
        requires low { number < 2 ^ 61 }
        ensures { (a : ℕ) → other_at self.new a ≡
            cleared_where number (other_at self.old) at count a }
    {
        let Some(own) = self.doublewords.get(&number) else {
            return;
        };
        let new = cleared(*own, number, at, count);
        let _ = self.doublewords.insert(number, new);
    }

    /// Makes numbers of so many bytes from an address on.
    pub fn clear(&mut self, at: u64, count: u64)
        requires low { at + count < 2 ^ 63 }
        ensures inside { (a : ℕ) → at ≤ a → a < at + count →
            is_number (other_at self.new a) ≡ true }
        ensures outside { (a : ℕ) → (a < at) ⊎ (at + count ≤ a) →
            other_at self.new a ≡ other_at self.old a }
    {
        if count == 0 {
            return;
        }
        let last = (at + count - 1) / 8;
        for number in at / 8..last + 1 {
            self.clear_in(number, at, count);
        }
    }
}
