// The foldable slots of files.
ghost use Rattle.std.specs.Prelude.{◌≡◌, ◌<◌, ◌≤◌, ◌+◌, ◌*◌, ◌^◌, ◌&&◌, ℕ, None, Some, not, All, IfOk, length, filter, slice_get, nat_lt};
ghost use Rattle.std.specs.List.{list_any, slice_index_or};
ghost use Rattle.std.specs.List.Sorted.{IsPermutation, IsNonDecreasingBy};
ghost use Rattle.std.specs.Ordering.{nat_cmp};
ghost use Rattle.symbol_table.specs.Records.{records_refusal};
ghost use Rattle.toc_rewrite.specs.declared.found.Slot.{Slot};
ghost use Rattle.toc_rewrite.specs.Laid.{laid_files, HasAddresses};
ghost use Rattle.toc_rewrite.specs.Folded.{is_slot_at, is_slot_named, folded_in, IsNamed, AreFolds};
ghost use Rattle.toc_rewrite.specs.inside.Slots.{place_of, place_rank, slot_rank, name_rank, is_free, IsLowSlot};

use crate::found::{Found, Slot};
use crate::laid::Laid;
use crate::uses::SlotUses;
use ppc_bytes::Memory;
use std::alloc::{AllocError, Global};
use std::cmp::Ordering;
use std::marker::Model;
use symbol_table::Resolved;

/// The place of a slot.
#[derive(Clone, Copy)]
struct SlotPlace {
    /// The file.
    file: u32,
    /// The section's number there.
    section: u32,
    /// The offset in it.
    offset: u64,
}

impl SlotPlace {
    /// Whether the place comes before another one: by file, by section, and then by offset.
    fn is_before(self, other: SlotPlace) -> bool
        ensures { result ≡ nat_lt (place_rank self) (place_rank other) }
    {
        self.file < other.file
            || (self.file == other.file
                && (self.section < other.section
                    || (self.section == other.section && self.offset < other.offset)))
    }

    /// How the place stands to another one.
    fn order(self, other: SlotPlace) -> Ordering
        ensures { result ≡ nat_cmp (place_rank self) (place_rank other) }
    {
        if self.is_before(other) {
            Ordering::Less
        } else if other.is_before(self) {
            Ordering::Greater
        } else {
            Ordering::Equal
        }
    }
}

impl Slot {
    /// Its place.
    fn place(self) -> SlotPlace
        ensures { result ≡ place_of self }
    {
        SlotPlace {
            file: self.id.file,
            section: self.id.section,
            offset: self.offset,
        }
    }

    /// Whether the slot lies at an offset of a section of a file.
    fn is_at(self, file: u32, section: u32, offset: u64) -> bool
        ensures is { result ≡ is_slot_at file section offset self }
        ensures section { self.id.section < 2 ^ 32 }
        ensures offset { self.offset < 2 ^ 64 }
    {
        self.id.file == file && self.id.section == section && self.offset == offset
    }

    /// Whether a slot of a file that begins at an address comes behind it: by file, and then by address.
    fn is_named_before(self, file: u32, address: u64) -> bool
        ensures { result ≡ nat_lt (name_rank self) (file * 2 ^ 64 + address) }
    {
        self.id.file < file || (self.id.file == file && self.address < address)
    }

    /// How the slot stands to another one by file, and then by address.
    fn order_of_names(self, other: Slot) -> Ordering
        ensures { result ≡ nat_cmp (name_rank self) (name_rank other) }
    {
        if self.is_named_before(other.id.file, other.address) {
            Ordering::Less
        } else if other.is_named_before(self.id.file, self.address) {
            Ordering::Greater
        } else {
            Ordering::Equal
        }
    }

    /// Whether it is a slot of a file that begins at a number.
    fn is_named(self, file: u32, number: u64) -> bool
        ensures is { result ≡ is_slot_named file number self }
        ensures address { self.address < 2 ^ 64 }
    {
        self.id.file == file && self.address == number
    }
}

/// Those of slots that lie in orderly files and that no use keeps.
fn free_slots(
    alloc: Global,
    orderly: &[bool],
    uses: &SlotUses,
    slots: &[Slot],
) -> Result<Vec<Slot>, AllocError>
    requires { All (IsLowSlot (length orderly.now)) slots.now }
    ensures { IfOk result (λ free. free.items ≡ filter (is_free orderly.now uses.now) slots.now) }
{
    let mut free = Vec::new(alloc);
    for slot in slots {
        let file = slot.id.file;
        if orderly[file as usize] && !uses.keep(file, slot.address) {
            free.push(*slot)?;
        }
    }
    Ok(free)
}

/// Puts slots in order of their places. Those of a compiler's files mostly are.
fn sort_slots(slots: &mut Vec<Slot>)
    ensures same { IsPermutation slots.old.items slots.new.items }
    ensures sorted { IsNonDecreasingBy slot_rank slots.new.items }
{
    slots.sort_unstable_by(|s, t| s.place().order(t.place()));
}

/// Slots in order of their files and addresses.
fn named_slots(alloc: Global, slots: &[Slot]) -> Result<Vec<Slot>, AllocError>
    ensures same { IfOk result (λ named. IsPermutation slots.now named.items) }
    ensures sorted { IfOk result (λ named. IsNonDecreasingBy name_rank named.items) }
{
    let mut named = Vec::from_slice(alloc, slots)?;
    named.sort_unstable_by(|s, t| s.order_of_names(*t));
    Ok(named)
}

/// How many of slots in order of their places lie before one.
fn slots_before(slots: &[Slot], place: SlotPlace) -> usize
    requires { IsNonDecreasingBy slot_rank slots.now }
    ensures before { (k : ℕ) (d : Slot) → k < result →
        slot_rank (slice_index_or slots.now k d) < place_rank place }
    ensures after { (k : ℕ) (d : Slot) → result ≤ k → k < length slots.now →
        place_rank place ≤ slot_rank (slice_index_or slots.now k d) }
{
    slots.partition_point(|s| s.place().is_before(place))
}

/// How many of slots in order of their files and addresses come before a number in a file.
fn named_before(named: &[Slot], file: u32, number: u64) -> usize
    requires { IsNonDecreasingBy name_rank named.now }
    ensures before { (k : ℕ) (d : Slot) → k < result →
        name_rank (slice_index_or named.now k d) < file * 2 ^ 64 + number }
    ensures after { (k : ℕ) (d : Slot) → result ≤ k → k < length named.now →
        file * 2 ^ 64 + number ≤ name_rank (slice_index_or named.now k d) }
{
    named.partition_point(|s| s.is_named_before(file, number))
}

/// The foldable slots of files, and which of the files are orderly. Reading them takes no memory.
#[derive(Drop)]
pub struct Folds {
    orderly: Vec<bool>,
    /// In order of their places.
    slots: Vec<Slot>,
    /// In order of their addresses.
    named: Vec<Slot>,
}

impl Model for Folds {
    ghost use Rattle.toc_rewrite.specs.Folded.{FoldedSlots};
    ghost use Rattle.toc_rewrite.specs.inside.Slots.{AreOrdered};

    ghost Value = { FoldedSlots };

    ghost view = { λ f. record { orderly = f.orderly.items; slots = f.slots.items } };

    ghost invariant = { λ f. AreOrdered f.slots.items f.named.items };
}

impl Folds {
    /// How many foldable slots there are.
    pub fn count(&self) -> u64
        ensures { result ≡ length self.now.slots }
    {
        self.slots.len() as u64
    }

    /// Whether a file is orderly.
    pub fn orderly(&self, file: u32) -> bool
        requires { file < length self.now.orderly }
        ensures { slice_get self.now.orderly file ≡ Some result }
    {
        self.orderly[file as usize]
    }

    /// Whether the eight bytes at an offset of a section of a file are a foldable slot. Any numbers may be asked about.
    pub fn folded(&self, file: u32, section: u32, offset: u64) -> bool
        ensures { result ≡ folded_in self.now file section offset }
    {
        let place = SlotPlace {
            file,
            section,
            offset,
        };
        let slots = self.slots.as_slice();
        let next = slots_before(slots, place);
        match slots.get(next) {
            Some(slot) => slot.is_at(file, section, offset),
            None => false,
        }
    }

    /// The foldable slot of a file that begins at a number, if there is one. Only records of the file that name its first byte go into
    /// its eight bytes.
    pub fn named(&self, file: u32, number: u64) -> Option<Slot>
        ensures { IsNamed self.now file number result }
    {
        let named = self.named.as_slice();
        let next = named_before(named, file, number);
        match named.get(next) {
            Some(slot) => {
                if slot.is_named(file, number) {
                    Some(*slot)
                } else {
                    None
                }
            }
            None => None,
        }
    }
}

/// What a test asks of files that may not be there.
#[cfg(test)]
impl Folds {
    /// Whether a file is orderly, if it is one of the files.
    pub fn is_orderly_file(&self, file: u32) -> Option<bool> {
        self.orderly.get(file as usize).copied()
    }
}

/// The foldable slots of resolved files, of which no record is refused, where `bases` has the TOC base of each file; and `pieces` has,
/// for each file in order and each section number from 0, the section's address, or 0 where it is no data, and then the address of each
/// common in first-seen order of the names. Each address is below 0x60000000.
pub fn foldable(
    alloc: Global,
    res: &Resolved,
    bases: &[u64],
    pieces: &[u64],
) -> Result<Folds, Memory>
    requires whole { records_refusal res.now.files ≡ None }
    requires addresses { HasAddresses (laid_files res.now.files bases.now pieces.now) }
    ensures { IfOk result (AreFolds (laid_files res.now.files bases.now pieces.now)) }
{
    // none of the files is refused
    let _files = res.set().file_count();
    let laid = Laid::of(alloc, res, bases, pieces)?;
    let orderly = laid.orderly_files(alloc)?;
    let Found { uses, slots } = laid.found(alloc)?;
    let uses = SlotUses::of(uses);
    let mut free = free_slots(alloc, orderly.as_slice(), &uses, slots.as_slice())?;
    sort_slots(&mut free);
    let named = named_slots(alloc, free.as_slice())?;
    Ok(Folds {
        orderly,
        slots: free,
        named,
    })
}
