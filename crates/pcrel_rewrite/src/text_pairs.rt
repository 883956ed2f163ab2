// The recognised pairs of a link, and how they are asked for.
ghost use Rattle.std.specs.Prelude.{◌≡◌, ◌<◌, ◌≤◌, ◌^◌, ◌&&◌, ◌==◌, ◌↔◌, ℕ, IfOk, IfSome, IfNone, IsTrue, length};
ghost use Rattle.std.specs.List.{Contains, slice_index_or};
ghost use Rattle.std.specs.List.Sorted.{IsPermutation, IsNonDecreasingBy};
ghost use Rattle.pcrel_rewrite.specs.inside.Order.{rank, head_of, tail_of, head_rank, tail_rank};
ghost use Rattle.pcrel_rewrite.specs.declared.text_pairs.TextPair.{TextPair};
ghost use Rattle.pcrel_rewrite.specs.TextPairs.{text_pair};

use crate::order::{comes_before, place_order};
use std::alloc::{AllocError, Global};
use std::marker::Model;
use symbol_table::CodePlace;

/// A load of an address and the access through it, in a text section.
#[derive(Clone, Copy, Debug, PartialEq, Eq)]
pub struct TextPair {
    /// The section's number among all text sections.
    pub section: u32,
    /// The offset of the load.
    pub head: u64,
    /// The offset of the access.
    pub tail: u64,
}

impl TextPair {
    /// Where the load stands.
    pub fn head_place(self) -> CodePlace
        ensures { result ≡ head_of self }
    {
        CodePlace {
            section: self.section,
            offset: self.head,
        }
    }

    /// Where the access stands.
    fn tail_place(self) -> CodePlace
        ensures { result ≡ tail_of self }
    {
        CodePlace {
            section: self.section,
            offset: self.tail,
        }
    }

    /// Whether the load stands at a place.
    fn has_head(self, place: CodePlace) -> bool
        ensures is { IsTrue result ↔ (head_of self ≡ place) }
        ensures fits { self.head < 2 ^ 64 }
        ensures place_fits { place.offset < 2 ^ 64 }
    {
        self.section == place.section && self.head == place.offset
    }

    /// Whether the access stands at a place.
    fn has_tail(self, place: CodePlace) -> bool
        ensures is { IsTrue result ↔ (tail_of self ≡ place) }
        ensures fits { self.tail < 2 ^ 64 }
        ensures place_fits { place.offset < 2 ^ 64 }
    {
        self.section == place.section && self.tail == place.offset
    }
}

/// Recognised pairs, as whose list contracts see them. Asking takes no memory.
#[derive(Drop)]
pub struct Pairs {
    /// In order of the loads.
    heads: Vec<TextPair>,
    /// The same in order of the accesses.
    tails: Vec<TextPair>,
}

impl Model for Pairs {
    ghost use Rattle.std.specs.Prelude.{List};
    ghost use Rattle.pcrel_rewrite.specs.declared.text_pairs.TextPair.{TextPair};
    ghost use Rattle.pcrel_rewrite.specs.inside.Order.{AreSortedPairs};

    ghost Value = { List TextPair };

    ghost view = { λ p. p.heads.items };

    ghost invariant = { λ p. AreSortedPairs p.heads.items p.tails.items };
}

/// Puts pairs in order of their loads.
pub fn sort_heads(pairs: &mut Vec<TextPair>)
    ensures same { IsPermutation pairs.old.items pairs.new.items }
    ensures sorted { IsNonDecreasingBy head_rank pairs.new.items }
{
    pairs.sort_unstable_by(|p, q| place_order(p.head_place(), q.head_place()));
}

/// Puts pairs in order of their accesses.
fn sort_tails(pairs: &mut Vec<TextPair>)
    ensures same { IsPermutation pairs.old.items pairs.new.items }
    ensures sorted { IsNonDecreasingBy tail_rank pairs.new.items }
{
    pairs.sort_unstable_by(|p, q| place_order(p.tail_place(), q.tail_place()));
}

/// How many of pairs in order of their loads have theirs before a place.
fn heads_before(heads: &[TextPair], place: CodePlace) -> usize
    requires { IsNonDecreasingBy head_rank heads.now }
    ensures before { (k : ℕ) (d : TextPair) → k < result →
        head_rank (slice_index_or heads.now k d) < rank place }
    ensures after { (k : ℕ) (d : TextPair) → result ≤ k → k < length heads.now →
        rank place ≤ head_rank (slice_index_or heads.now k d) }
{
    heads.partition_point(|p| comes_before(p.head_place(), place))
}

/// How many of pairs in order of their accesses have theirs before a place.
fn tails_before(tails: &[TextPair], place: CodePlace) -> usize
    requires { IsNonDecreasingBy tail_rank tails.now }
    ensures before { (k : ℕ) (d : TextPair) → k < result →
        tail_rank (slice_index_or tails.now k d) < rank place }
    ensures after { (k : ℕ) (d : TextPair) → result ≤ k → k < length tails.now →
        rank place ≤ tail_rank (slice_index_or tails.now k d) }
{
    tails.partition_point(|p| comes_before(p.tail_place(), place))
}

impl Pairs {
    /// These pairs.
    pub(crate) fn of_list(alloc: Global, pairs: Vec<TextPair>) -> Result<Pairs, AllocError>
        ensures { IfOk result (λ p. IsPermutation pairs.items p) }
    {
        let mut heads = pairs;
        sort_heads(&mut heads);
        let mut tails = Vec::from_slice(alloc, &heads)?;
        sort_tails(&mut tails);
        Ok(Pairs { heads, tails })
    }

    /// All of them.
    pub fn as_slice(&self) -> &[TextPair]
        ensures { result.now ≡ self.now }
    {
        self.heads.as_slice()
    }

    /// Where the access of the pair stands whose load is at a place, if one is: the text section's number, and any offset.
    pub fn head(&self, section: u32, offset: u64) -> Option<u64>
        ensures some { IfSome result (λ tail. Contains self.now (text_pair section offset tail)) }
        ensures none { IfNone result ((tail : ℕ) →
            ¬ Contains self.now (text_pair section offset tail)) }
    {
        let place = CodePlace { section, offset };
        let heads = self.heads.as_slice();
        let next = heads_before(heads, place);
        match heads.get(next) {
            Some(pair) => {
                if pair.has_head(place) {
                    Some(pair.tail)
                } else {
                    None
                }
            }
            None => None,
        }
    }

    /// Whether the access of a pair stands at a place: the text section's number, and any offset.
    pub fn tail(&self, section: u32, offset: u64) -> bool
        ensures { IsTrue result ↔ (head : ℕ) × Contains self.now (text_pair section head offset) }
    {
        let place = CodePlace { section, offset };
        let tails = self.tails.as_slice();
        let next = tails_before(tails, place);
        match tails.get(next) {
            Some(pair) => pair.has_tail(place),
            None => false,
        }
    }
}
