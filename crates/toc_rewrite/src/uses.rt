// What records use of the table of contents, in order of their numbers.
ghost use Rattle.std.specs.Prelude.{◌≡◌, ◌<◌, ◌≤◌, ◌+◌, ◌^◌, ℕ, List, length, nat_lt, ◌||◌};
ghost use Rattle.std.specs.List.{list_any, slice_index_or};
ghost use Rattle.std.specs.List.Sorted.{IsPermutation, IsNonDecreasingBy};
ghost use Rattle.std.specs.Ordering.{nat_cmp};
ghost use Rattle.toc_rewrite.specs.inside.Uses.{loader_rank, rank, is_between, is_below, is_above};

use std::cmp::Ordering;
use std::marker::Model;

/// A record goes to a number.
#[derive(Clone, Copy)]
pub struct SlotUse {
    /// The number.
    pub number: u64,
    /// The record's file, if it only loads the slot there.
    pub loader: Option<u32>,
}

/// The rank of a loader among uses of one number.
fn loader_rank(loader: Option<u32>) -> u64
    ensures rank { result ≡ loader_rank loader }
    ensures few { result < 2 ^ 33 }
{
    match loader {
        Some(file) => u64::from(file),
        None => 1 << 32,
    }
}

impl SlotUse {
    /// Whether the use comes before another one.
    fn is_before(self, other: SlotUse) -> bool
        ensures { result ≡ nat_lt (rank self) (rank other) }
    {
        self.number < other.number
            || (self.number == other.number && loader_rank(self.loader) < loader_rank(other.loader))
    }

    /// How the use stands to another one: by number, and then by loader.
    fn order(self, other: SlotUse) -> Ordering
        ensures { result ≡ nat_cmp (rank self) (rank other) }
    {
        if self.is_before(other) {
            Ordering::Less
        } else if other.is_before(self) {
            Ordering::Greater
        } else {
            Ordering::Equal
        }
    }
}

/// Puts uses in order.
fn sort_uses(uses: &mut Vec<SlotUse>)
    ensures same { IsPermutation uses.old.items uses.new.items }
    ensures sorted { IsNonDecreasingBy rank uses.new.items }
{
    uses.sort_unstable_by(|u, v| u.order(*v));
}

/// How many of uses in order come before one.
fn count_before(uses: &[SlotUse], bound: SlotUse) -> usize
    requires { IsNonDecreasingBy rank uses.now }
    ensures within { result ≤ length uses.now }
    ensures before { (k : ℕ) (d : SlotUse) → k < result →
        rank (slice_index_or uses.now k d) < rank bound }
    ensures after { (k : ℕ) (d : SlotUse) → result ≤ k → k < length uses.now →
        rank bound ≤ rank (slice_index_or uses.now k d) }
{
    uses.partition_point(|u| u.is_before(bound))
}

/// Whether one of uses in order stands from one bound on and before another one.
fn has_between(uses: &[SlotUse], first: SlotUse, end: SlotUse) -> bool
    requires sorted { IsNonDecreasingBy rank uses.now }
    requires bounds { rank first ≤ rank end }
    ensures { result ≡ list_any (λ u. is_between (rank first) (rank end) (rank u)) uses.now }
{
    count_before(uses, first) != count_before(uses, end)
}

/// The uses that records make of numbers, in order. Contracts see their list.
#[derive(Drop)]
pub struct SlotUses {
    items: Vec<SlotUse>,
}

impl Model for SlotUses {
    ghost use Rattle.std.specs.Prelude.{List};
    ghost use Rattle.std.specs.List.Sorted.{IsNonDecreasingBy};
    ghost use Rattle.toc_rewrite.specs.declared.uses.SlotUse.{SlotUse};
    ghost use Rattle.toc_rewrite.specs.inside.Uses.{rank};

    ghost Value = { List SlotUse };

    ghost view = { λ u. u.items.items };

    ghost invariant = { λ u. IsNonDecreasingBy rank u.items.items };
}

impl SlotUses {
    /// These uses.
    pub fn of(uses: Vec<SlotUse>) -> SlotUses
        ensures { IsPermutation uses.items result }
    {
        let mut items = uses;
        sort_uses(&mut items);
        SlotUses { items }
    }

    /// Whether one of them comes before a load of an address by a file, but not before the address.
    fn has_below(&self, file: u32, address: u64) -> bool
        ensures { result ≡ list_any (is_below file address) self.now }
    {
        let first = SlotUse {
            number: address,
            loader: Some(0),
        };
        let own = SlotUse {
            number: address,
            loader: Some(file),
        };
        has_between(self.items.as_slice(), first, own)
    }

    /// Whether one of them comes behind a load of an address by a file, but not behind the eight bytes there.
    fn has_above(&self, file: u32, address: u64) -> bool
        requires file { file < 2 ^ 31 }
        requires room { address + 8 < 2 ^ 64 }
        ensures { result ≡ list_any (is_above file address) self.now }
    {
        let behind = SlotUse {
            number: address,
            loader: Some(file + 1),
        };
        let end = SlotUse {
            number: address + 8,
            loader: Some(0),
        };
        has_between(self.items.as_slice(), behind, end)
    }

    /// Whether one of them keeps the slot at an address of a file: it goes to one of the eight bytes, and isn't a load of the slot by
    /// this file.
    pub fn keep(&self, file: u32, address: u64) -> bool
        requires file { file < 2 ^ 31 }
        requires room { address + 8 < 2 ^ 64 }
        ensures { result ≡ (list_any (is_below file address) self.now
            || list_any (is_above file address) self.now) }
    {
        self.has_below(file, address) || self.has_above(file, address)
    }
}
