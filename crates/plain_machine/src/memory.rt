// Memory: numbers in pages, and beside them the bytes that are none.
ghost use Rattle.std.specs.Prelude.{◌≡◌, ◌+◌, ◌-◌, ◌<◌, ◌≤◌, ◌^◌, ◌&&◌, ℕ, Bool, List, map, Option, Some, None, true, false, length, IfOk, OnOk, OnErr};
ghost use Rattle.power_insns.specs.Arithmetic.{bytes_of};
ghost use Rattle.power_machine.specs.declared.memory.Purpose.TheVariants.{Loading, Storing};
ghost use Rattle.power_machine.specs.Memory.{allows_range, bytes_from};
ghost use Rattle.plain_machine.specs.Plain.{split, cell_numbers, joined_code, joined_difference, joined_pieces};
ghost use Rattle.plain_machine.specs.Values.{same_cells, code_cells, difference_cells};
ghost use Rattle.plain_machine.specs.inside.Others.{other_at, are_numbers};
ghost use Rattle.plain_machine.specs.inside.Memory.{cell_at, memory_may, value_read, held_at, Stores, Holds, IsSame, are_special};
ghost use Rattle.plain_machine.specs.declared.value.Cell.TheVariants as cell;

use crate::kept::Kept;
use crate::others::Others;
use crate::place::TextPlace;
use crate::same::same_cell;
use crate::value::{Cell, PlainValue};
use power_insns::compute::widen;
use power_insns::meaning::{Sign, Width};
use power_machine::{AddressSpace, Purpose, Stored, size_of};
use ppc_bytes::Bytes;
use std::alloc::{AllocError, Global};

/// Memory, which has a cell at each address: a number where the other bytes tell one.
#[derive(Drop)]
pub struct PlainMemory {
    pub numbers: AddressSpace,
    pub others: Others,
    pub kept: Kept,
}

/// Bytes of which nothing is known.
pub const JUNK: [Cell; 8] = [Cell::Junk; 8];

/// The eight bytes of the address of a place.
pub fn code_cells(place: TextPlace) -> [Cell; 8]
    ensures { result ≡ code_cells place }
{
    [
        Cell::Code { place, piece: 0 },
        Cell::Code { place, piece: 1 },
        Cell::Code { place, piece: 2 },
        Cell::Code { place, piece: 3 },
        Cell::Code { place, piece: 4 },
        Cell::Code { place, piece: 5 },
        Cell::Code { place, piece: 6 },
        Cell::Code { place, piece: 7 },
    ]
}

/// The four bytes of the address of a place less a number.
pub fn difference_cells(to: TextPlace, from: u64) -> [Cell; 4]
    ensures { result ≡ difference_cells to from }
{
    [
        Cell::Difference { to, from, piece: 0 },
        Cell::Difference { to, from, piece: 1 },
        Cell::Difference { to, from, piece: 2 },
        Cell::Difference { to, from, piece: 3 },
    ]
}

impl PlainMemory {
    /// Whether a call's range may be used. A range without bytes may, wherever it lies.
    pub fn allows(&self, purpose: Purpose, at: u64, count: u64) -> bool
        ensures { result ≡ allows_range (memory_may self.now) purpose at count }
    {
        if count == 0 {
            return true;
        }
        if !self.numbers.allows(purpose, at, count) {
            return false;
        }
        match purpose {
            Purpose::Storing => !self.kept.meets(at, count),
            Purpose::Loading | Purpose::Fetching => true,
        }
    }

    // The cell at an address from which a byte may be loaded.
    fn cell(&self, at: u64) -> Cell
        requires { memory_may self.now Loading at 1 ≡ true }
        ensures { result ≡ cell_at self.now at }
    {
        match self.others.at(at) {
            Cell::Number(_) => match self.numbers.number_at(Purpose::Loading, at, Width::Byte) {
                Some(n) => Cell::Number(n as u8),
                None => Cell::Junk,
            },
            other => other,
        }
    }

    // Whether these cells stand at an address from which so many bytes may be loaded.
    fn has(&self, at: u64, cells: &[Cell]) -> bool
        requires { memory_may self.now Loading at (length cells.now) ≡ true }
        ensures { result ≡
            same_cells (bytes_from (cell_at self.now) at (length cells.now)) cells.now }
    {
        for (i, cell) in cells.iter().enumerate() {
            if !same_cell(self.cell(at + i as u64), *cell) {
                return false;
            }
        }
        true
    }

    // The place whose address stands at an address from which eight bytes may be loaded.
    fn code(&self, at: u64) -> PlainValue
        requires { memory_may self.now Loading at 8 ≡ true }
        ensures { result ≡ joined_code (bytes_from (cell_at self.now) at 8) }
    {
        match self.others.at(at) {
            Cell::Code { place, .. } if self.has(at, &code_cells(place)) => PlainValue::Code(place),
            _ => PlainValue::Junk,
        }
    }

    // The difference that stands at an address from which four bytes may be loaded.
    fn difference(&self, at: u64) -> PlainValue
        requires { memory_may self.now Loading at 4 ≡ true }
        ensures { result ≡ joined_difference (bytes_from (cell_at self.now) at 4) }
    {
        match self.others.at(at) {
            Cell::Difference { to, from, .. } if self.has(at, &difference_cells(to, from)) => {
                PlainValue::Difference { to, from }
            }
            _ => PlainValue::Junk,
        }
    }

    // What stands at an address from which it may be loaded, where not all of it are numbers.
    fn pieces(&self, width: Width, sign: Sign, at: u64) -> PlainValue
        requires { memory_may self.now Loading at (bytes_of width) ≡ true }
        ensures { result ≡ joined_pieces width sign
            (bytes_from (cell_at self.now) at (bytes_of width)) }
    {
        match (width, sign) {
            (Width::Long, _) => self.code(at),
            (Width::Word, Sign::Signed) => self.difference(at),
            _ => PlainValue::Junk,
        }
    }

    /// The value at an address, where it may be loaded.
    pub fn load(&self, width: Width, sign: Sign, at: u64) -> Option<PlainValue>
        ensures { result ≡ value_read width sign at self.now }
    {
        let n = self.numbers.number_at(Purpose::Loading, at, width)?;
        if self.others.are_numbers(at, size_of(width)) {
            Some(PlainValue::Number(widen(width, sign, n)))
        } else {
            Some(self.pieces(width, sign, at))
        }
    }

    /// Whether the eight bytes at an address are these cells, where they may be loaded.
    pub fn holds(&self, at: u64, cells: &[Cell; 8]) -> Option<bool>
        ensures { result ≡ held_at self.now at cells.now }
    {
        if self.allows(Purpose::Loading, at, 8) {
            Some(self.has(at, cells))
        } else {
            None
        }
    }

    /// Whether so many bytes may be stored at an address.
    pub fn may_store(&self, at: u64, count: u64) -> bool
        requires { 0 < count }
        ensures { result ≡ memory_may self.now Storing at count }
    {
        self.allows(Purpose::Storing, at, count)
    }

    /// Puts up to eight cells at an address, none of which is a number, whatever may be stored there. Where memory is refused all stays
    /// as it was.
    pub fn hold(&mut self, at: u64, cells: &[Cell]) -> Result<(), AllocError>
        requires low { at < 2 ^ 63 }
        requires some { 0 < length cells.now }
        requires few { length cells.now ≤ 8 }
        requires special { are_special cells.now ≡ true }
        ensures held { OnOk result (Holds self.old self.new at cells.now) }
        ensures refused { OnErr result (IsSame self.old self.new) }
    {
        self.others.put(at, cells)?;
        Ok(())
    }

    /// Puts up to eight cells at an address, none of which is a number.
    pub fn put(&mut self, at: u64, cells: &[Cell]) -> Stored
        requires some { 0 < length cells.now }
        requires few { length cells.now ≤ 8 }
        requires special { are_special cells.now ≡ true }
        ensures { Stores self.old self.new at (length cells.now) cells.now result }
    {
        if !self.may_store(at, cells.len() as u64) {
            return Stored::Outside;
        }
        match self.hold(at, cells) {
            Ok(()) => Stored::Whole,
            Err(_) => Stored::Refused,
        }
    }

    // Puts numbers at an address.
    fn put_numbers(&mut self, at: u64, bytes: &[u8]) -> Stored
        requires some { 0 < length bytes.now }
        ensures { Stores self.old self.new at (length bytes.now) (map cell.Number bytes.now)
            result }
    {
        let count = bytes.len() as u64;
        if self.kept.meets(at, count) {
            return Stored::Outside;
        }
        let stored = self.numbers.write(at, count, bytes);
        if let Stored::Whole = stored {
            if !self.others.are_numbers(at, count) {
                self.others.clear(at, count);
            }
        }
        stored
    }

    /// Puts a value at an address, where it may be stored there.
    pub fn store(&mut self, width: Width, at: u64, value: PlainValue) -> Stored
        ensures { Stores self.old self.new at (bytes_of width) (split width value) result }
    {
        let count = size_of(width) as usize;
        match (value, width) {
            (PlainValue::Number(n), _) => self.put_numbers(at, &n.to_le_bytes()[..count]),
            (PlainValue::Code(place), Width::Long) => self.put(at, &code_cells(place)),
            _ => self.put(at, &JUNK[..count]),
        }
    }

    /// Puts bytes into a call's range that may be stored into. Where memory is refused all stays as it was.
    pub fn fill(&mut self, at: u64, room: u64, bytes: &[u8]) -> Result<(), AllocError>
        requires fits { length bytes.now ≤ room }
        requires allowed { allows_range (memory_may self.old) Storing at room ≡ true }
        ensures filled { OnOk result (Holds self.old self.new at (map cell.Number bytes.now)) }
        ensures refused { OnErr result (IsSame self.old self.new) }
    {
        if bytes.is_empty() {
            return Ok(());
        }
        self.numbers.fill(at, room, bytes)?;
        self.others.clear(at, bytes.len() as u64);
        Ok(())
    }

    /// The first bytes of a call's range that may be loaded from, where all are numbers.
    pub fn numbers_at(
        &self,
        alloc: Global,
        at: u64,
        room: u64,
        count: u64,
    ) -> Result<Option<Bytes>, AllocError>
        requires fits { count ≤ room }
        requires allowed { allows_range (memory_may self.now) Loading at room ≡ true }
        ensures { IfOk result (λ bytes.
            bytes ≡ cell_numbers (bytes_from (cell_at self.now) at count)) }
    {
        if count == 0 {
            return Ok(Some(Bytes::of(Vec::new(alloc))));
        }
        if !self.others.are_numbers(at, count) {
            return Ok(None);
        }
        self.numbers.copy_at(at, room, count)
    }
}
