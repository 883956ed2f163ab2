// The ways of keys: which keys reach near is told by two points of each. What lies between two points of a stub group that reach a
// place reaches it too, so of a key's calls the first and the last stand for all.
ghost use Rattle.std.specs.Prelude.{◌≡◌, ◌+◌, ◌<◌, ◌≤◌, ◌^◌, ℕ, true, IsTrue, IfOk, OnOk, length};
ghost use Rattle.layout_rounds.specs.Shapes.{keyed_text, IsInText, IsSound, IsSpan};
ghost use Rattle.layout_rounds.specs.Layout.{section_count, group_count, group_size, padded, IsKeyed};
ghost use Rattle.layout_rounds.specs.Reach.{reaches};
ghost use Rattle.layout_rounds.specs.inside.Placed.{AreSizes};
ghost use Rattle.layout_rounds.specs.inside.Ways.{ends_with, spot_in, way_by, address_by, way_reaches};
ghost use Rattle.layout_rounds.specs.inside.Ways.{AreInOrder, AreEnds, AreEndsIn, AreWays, IsPlaced, IsWayPlaced};

use crate::grouping::Spot;
use crate::keys::Keyed;
use crate::placing::group_sizes;
use crate::shape::{Shape, ShapeSite};
use ppc_bytes::Memory;
use std::alloc::Global;
use stub_kinds::{Class, Key};

/// The first and the last call of a key, by their numbers.
#[derive(Clone, Copy, Debug)]
struct Ends {
    first: usize,
    last: usize,
}

/// Two points that branch to a place.
#[derive(Clone, Copy, Debug)]
pub(crate) struct Way {
    low: Spot,
    high: Spot,
    to: Spot,
}

/// Notes a call of a key, which is one that was seen or the next.
fn note(ends: &mut Vec<Ends>, k: usize, i: usize) -> Result<(), Memory>
    requires { k ≤ length ends.old.items }
    ensures { OnOk result (ends.new.items ≡ ends_with ends.old.items k i) }
{
    if k < ends.len() {
        ends[k].last = i;
    } else {
        ends.push(Ends { first: i, last: i })?;
    }
    Ok(())
}

/// The first and the last call of each key.
fn ends_of(alloc: Global, numbers: &[u32]) -> Result<Vec<Ends>, Memory>
    requires { AreInOrder numbers.now }
    ensures { IfOk result (λ ends. AreEnds numbers.now (length numbers.now) ends.items) }
{
    let mut ends = Vec::new(alloc);
    for i in 0..numbers.len() {
        note(&mut ends, numbers[i] as usize, i)?;
    }
    Ok(ends)
}

/// An offset of a section.
fn spot_in(keyed: &Keyed, section: u32, offset: u64) -> Spot
    requires text { IsKeyed keyed.now }
    requires place { IsInText keyed.now.sections section offset }
    ensures { result ≡ spot_in keyed.now section offset }
{
    let spot = keyed.spot_of(section);
    Spot {
        group: spot.group,
        offset: spot.offset + offset,
    }
}

/// How far past its start a group's stub area begins.
fn area_start(keyed: &Keyed, sizes: &[u64], group: u32) -> u64
    requires text { IsKeyed keyed.now }
    requires sizes { AreSizes keyed.now (section_count keyed.now) sizes.now }
    requires within { group < group_count keyed.now }
    ensures { result ≡ padded keyed.now (group_size keyed.now group) }
{
    keyed.padded(sizes[group as usize])
}

/// The way of a key with these first and last calls.
fn way_of(keyed: &Keyed, sites: &[ShapeSite], sizes: &[u64], ends: Ends, key: Key) -> Way
    requires text { IsKeyed keyed.now }
    requires sizes { AreSizes keyed.now (section_count keyed.now) sizes.now }
    requires group { key.group < group_count keyed.now }
    requires place { IsInText keyed.now.sections key.section key.offset }
    requires calls { AreEndsIn keyed.now sites.now ends }
    ensures { result ≡
        way_by
        keyed.now sites.now key.class key.group ends
        (spot_in keyed.now key.section key.offset) }
{
    let to = spot_in(keyed, key.section, key.offset);
    let first = sites[ends.first];
    let last = sites[ends.last];
    match key.class {
        Class::Same | Class::NearN => Way {
            low: spot_in(keyed, first.section, first.offset),
            high: spot_in(keyed, last.section, last.offset),
            to,
        },
        Class::Switch | Class::Save => Way {
            low: Spot {
                group: key.group,
                offset: area_start(keyed, sizes, key.group),
            },
            high: Spot {
                group: key.group + 1,
                offset: 0,
            },
            to,
        },
        Class::EntrySave | Class::EntryBare | Class::EntryN => Way {
            low: to,
            high: to,
            to,
        },
    }
}

/// The ways of all keys.
pub(crate) fn ways_of(
    alloc: Global,
    shape: &Shape,
    span: u32,
    keyed: &Keyed,
) -> Result<Vec<Way>, Memory>
    requires sound { IsSound shape.now }
    requires span { IsSpan span }
    requires keyed { keyed.now ≡ keyed_text shape.now span }
    ensures { IfOk result (λ ways. AreWays keyed.now shape.now.sites.items span ways.items) }
{
    let ends = ends_of(alloc, keyed.numbers())?;
    let sizes = group_sizes(alloc, keyed)?;
    let mut ways = Vec::new(alloc);
    for k in 0..keyed.key_count() {
        let key = keyed.key(k);
        ways.push(way_of(keyed, &shape.sites, &sizes, ends[k as usize], key))?;
    }
    Ok(ways)
}

/// Whether a branch at an address reaches another.
pub(crate) fn reaches(span: u32, at: u64, to: u64) -> bool
    requires at { at < 2 ^ 62 }
    requires to { to < 2 ^ 62 }
    ensures { result ≡ reaches span at to }
{
    at <= to + u64::from(span) && to + 4 <= at + u64::from(span)
}

/// The address of a point in the layout with these starts.
fn address(starts: &[u64], spot: Spot) -> u64
    requires { IsPlaced starts.now spot }
    ensures { result ≡ address_by starts.now spot }
{
    starts[spot.group as usize] + spot.offset
}

/// Whether both points of a way reach its place in the layout with these starts.
pub(crate) fn is_near(way: Way, span: u32, starts: &[u64]) -> bool
    requires { IsWayPlaced starts.now way }
    ensures { result ≡ way_reaches span starts.now way }
{
    let to = address(starts, way.to);
    reaches(span, address(starts, way.low), to) && reaches(span, address(starts, way.high), to)
}

/// Whether nothing grew between two points from one layout to another: whether they are as far apart in both.
fn keeps(before: &[u64], starts: &[u64], from: Spot, to: Spot) -> bool
    requires from_before { IsPlaced before.now from }
    requires from_now { IsPlaced starts.now from }
    requires to_before { IsPlaced before.now to }
    requires to_now { IsPlaced starts.now to }
    ensures { IsTrue result →
        address_by starts.now to + address_by before.now from
        ≡ address_by starts.now from + address_by before.now to }
{
    let from = from.group as usize;
    let to = to.group as usize;
    starts[to] + before[from] == starts[from] + before[to]
}

/// Whether a way need not be looked at again: nothing grew on it.
pub(crate) fn rests(way: Way, before: &[u64], starts: &[u64]) -> bool
    requires before { IsWayPlaced before.now way }
    requires now { IsWayPlaced starts.now way }
    ensures { IsTrue result → (span : ℕ) →
        way_reaches span before.now way ≡ true → way_reaches span starts.now way ≡ true }
{
    keeps(before, starts, way.low, way.to) && keeps(before, starts, way.high, way.to)
}
