// Names in the order in which they are first seen.
ghost use Rattle.std.specs.Prelude.{◌≡◌, ◌<◌, ◌≤◌, ◌+◌, ◌++◌, ◌∷◌, ℕ, IsTrue, ◌↔◌, length, [], Some, IfOk, IfSome, OnOk, MatchOption, false, slice_get};
ghost use Rattle.std.specs.List.{list_any};
ghost use Rattle.std.specs.Str.{bytes_eq};
ghost use Rattle.symbol_table.specs.Externals.{with_name};
ghost use Rattle.symbol_table.specs.inside.Keys.{named};
ghost use Rattle.symbol_table.specs.inside.NameIndex.{name_hash, first_slot, IsFree, IsInNoSlot};

use ppc_bytes::Bytes;
use std::alloc::{AllocError, Global};
use std::collections::BTreeMap;
use std::marker::Model;

/// How many slots a name may lie in.
const REACH: usize = 8;

/// How many names can lie in slots: the others lie in the crowd.
const SLOT_LIMIT: usize = 0xFFFF_FFFF;

/// Names, each once, in the order in which they are first seen. Contracts see the list of them.
///
/// A slot is 0 or one more than a name's number. A name lies in the first of its eight slots that was empty when it came; where none
/// was, in the crowd, so that names with one hash cost no more than an ordered map does.
#[derive(Drop)]
pub struct NameIndex<'a> {
    names: Vec<&'a [u8]>,
    slots: Vec<u32>,
    crowd: BTreeMap<&'a [u8], usize>,
}

impl<'a> Model for NameIndex<'a> {
    ghost use Rattle.std.specs.Prelude.{ℕ, List};
    ghost use Rattle.symbol_table.specs.inside.Keys.{named};
    ghost use Rattle.symbol_table.specs.inside.NameIndex.{IsIndex};

    ghost Value = { List (List ℕ) };

    ghost view = { λ n. named n.names.items };

    ghost invariant = { λ n. IsIndex (named n.names.items) n.slots.items n.crowd };
}

/// FNV-1a.
fn hash(name: &[u8]) -> u64
    ensures { result ≡ name_hash name.now }
{
    let mut hash = 0xCBF2_9CE4_8422_2325u64;
    for byte in name {
        hash = (hash ^ u64::from(*byte)).wrapping_mul(0x0000_0100_0000_01B3);
    }
    hash
}

/// Where the slots of a name with this hash begin, of so many.
fn first_slot(count: usize, hash: u64, name: &[u8]) -> usize
    requires room { 8 ≤ count }
    requires hash { hash ≡ name_hash name.now }
    ensures start { result ≡ first_slot count name.now }
    ensures within { result + 8 ≤ count }
{
    (hash % (count - REACH + 1) as u64) as usize
}

/// Whether this is the name with this number.
fn is_name(names: &[&[u8]], number: usize, name: &[u8]) -> bool
    ensures { IsTrue result ↔ (slice_get (named names.now) number ≡ Some name.now) }
{
    match names.get(number) {
        Some(other) => *other == name,
        None => false,
    }
}

/// The number of a name, where one of its slots holds it.
fn slotted(names: &[&[u8]], slots: &[u32], start: usize, name: &[u8]) -> Option<usize>
    requires { start + 8 ≤ length slots.now }
    ensures { MatchOption result
        (IsInNoSlot (named names.now) slots.now start name.now)
        (λ k. slice_get (named names.now) k ≡ Some name.now) }
{
    for i in 0..REACH {
        let slot = slots[start + i] as usize;
        if slot == 0 {
            return None;
        }
        if is_name(names, slot - 1, name) {
            return Some(slot - 1);
        }
    }
    None
}

/// The first of a name's slots that is empty.
fn free_slot(slots: &[u32], start: usize) -> Option<usize>
    requires { start + 8 ≤ length slots.now }
    ensures { IfSome result (IsFree slots.now start) }
{
    for i in 0..REACH {
        if slots[start + i] == 0 {
            return Some(i);
        }
    }
    None
}

impl<'a> NameIndex<'a> {
    /// No names, and room for about so many.
    pub fn with_room(alloc: Global, names: usize) -> Result<Self, AllocError>
        ensures { IfOk result (λ index. index ≡ []) }
    {
        let count = names.saturating_mul(4).saturating_add(REACH);
        Ok(NameIndex {
            names: Vec::new(alloc),
            slots: vec![in alloc; 0u32; count]?,
            crowd: BTreeMap::new(alloc),
        })
    }

    /// The number of a name, which is taken in where it is new.
    pub fn add(&mut self, name: &'a [u8]) -> Result<usize, AllocError>
        ensures names { OnOk result (self.new ≡ with_name self.old name.now) }
        ensures number { IfOk result (λ k. slice_get self.new k ≡ Some name.now) }
    {
        let hash = hash(name);
        if let Some(number) = self.find(hash, name) {
            return Ok(number);
        }
        self.take_in(hash, name)
    }

    /// Takes in a name that is new.
    fn take_in(&mut self, hash: u64, name: &'a [u8]) -> Result<usize, AllocError>
        requires new { list_any (bytes_eq name.now) self.old ≡ false }
        requires hash { hash ≡ name_hash name.now }
        ensures names { OnOk result (self.new ≡ self.old ++ name.now ∷ []) }
        ensures number { IfOk result (λ k. slice_get self.new k ≡ Some name.now) }
    {
        let number = self.names.len();
        let start = first_slot(self.slots.len(), hash, name);
        match free_slot(&self.slots, start) {
            Some(i) if number < SLOT_LIMIT => {
                self.names.push(name)?;
                self.slots[start + i] = number as u32 + 1;
            }
            _ => {
                self.crowd.insert(name, number)?;
                self.names.push(name)?;
            }
        }
        Ok(number)
    }

    /// The number of a name, if it is one of these.
    pub fn number_of(&self, name: &[u8]) -> Option<usize>
        ensures { MatchOption result
            (list_any (bytes_eq name.now) self.now ≡ false)
            (λ k. slice_get self.now k ≡ Some name.now) }
    {
        self.find(hash(name), name)
    }

    /// The number of a name with this hash, if it is one of these.
    fn find(&self, hash: u64, name: &[u8]) -> Option<usize>
        requires { hash ≡ name_hash name.now }
        ensures { MatchOption result
            (list_any (bytes_eq name.now) self.now ≡ false)
            (λ k. slice_get self.now k ≡ Some name.now) }
    {
        let start = first_slot(self.slots.len(), hash, name);
        if let Some(number) = slotted(&self.names, &self.slots, start, name) {
            return Some(number);
        }
        match self.crowd.get(name) {
            Some(number) => {
                if is_name(&self.names, *number, name) {
                    Some(*number)
                } else {
                    None
                }
            }
            None => None,
        }
    }

    /// A name, by its number.
    pub fn get(&self, number: usize) -> &'a [u8]
        requires { number < length self.now }
        ensures { slice_get self.now number ≡ Some result.now }
    {
        self.names[number]
    }
}

/// A copy of a name, for a refusal.
pub fn owned(alloc: Global, name: &[u8]) -> Result<Bytes, AllocError>
    ensures { IfOk result (λ bytes. bytes ≡ name.now) }
{
    Ok(Bytes::of(Vec::from_slice(alloc, name)?))
}
