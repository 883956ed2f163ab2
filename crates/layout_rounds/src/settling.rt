// The far set of a shape, and its layout.
ghost use Rattle.std.specs.Prelude.{◌≡◌, ◌+◌, ◌≤◌, ◌<◌, length, IfOk, IfErr};
ghost use Rattle.layout_rounds.specs.FarSets.{member};
ghost use Rattle.layout_rounds.specs.Shapes.{keyed_text, IsSound, IsSpan};
ghost use Rattle.layout_rounds.specs.Settled.{is_out, stub_reach, IsFarLayout, IsAccepted, IsRefused};
ghost use Rattle.layout_rounds.specs.Layout.{key_count};
ghost use Rattle.layout_rounds.specs.inside.Looks.{HasWays, WereNear, IsLooked};

use crate::far_set::FarSet;
use crate::grouping::group;
use crate::keys::Keyed;
use crate::near::{Way, reaches, ways_of};
use crate::placing::{Places, place};
use crate::rounds::{Round, widen, widen_grown};
use crate::shape::Shape;
use ppc_bytes::constants::TEXT_LIMIT;
use ppc_bytes::{Memory, Steps};
use std::alloc::Global;
use std::sync::ledger::Ledger;
use stub_kinds::size;

/// A text with its far set, and the layout of that set.
#[derive(Drop)]
pub struct Settled {
    /// The text in stub groups, with its keys.
    pub keyed: Keyed,

    /// The far keys.
    pub far: FarSet,

    /// The places in their layout.
    pub places: Places,

    /// How many times a key was tested for near reach.
    pub looks: u64,
}

/// Why a shape has no layout.
#[derive(Clone, Copy, Debug, PartialEq, Eq)]
pub enum LayoutFault {
    /// The text ends more than 0x20000000 bytes past its start.
    TextTooBig,

    /// The call with this number, which is the first such, doesn't reach its stub.
    StubReach(u32),

    /// Memory was refused.
    Memory,
}

impl From<Memory> for LayoutFault {
    ghost use Rattle.std.specs.Prelude.{◌≡◌};
    ghost use Rattle.layout_rounds.specs.declared.settling.LayoutFault.TheVariants.{Memory};

    ghost from_gives = { λ _ fault. fault ≡ Memory };

    fn from(_: Memory) -> Self {
        LayoutFault::Memory
    }
}

/// Whether a call branches to a stub, and doesn't reach it.
fn is_out(shape: &Shape, span: u32, settled: &Settled, i: u32) -> bool
    requires sound { IsSound shape.now }
    requires layout { IsFarLayout
        shape.now span settled.now.keyed settled.now.far settled.now.places }
    requires call { i < length shape.now.sites.items }
    ensures { result ≡
        is_out settled.now.keyed shape.now.sites.items (member settled.now.far) span i }
{
    let site = shape.sites[i as usize];
    let k = settled.keyed.key_of(i);
    if size(settled.keyed.key(k).class, settled.far.holds(k)) == 0 {
        return false;
    }
    let at = settled.places.section_at(site.section) + site.offset;
    !reaches(span, at, settled.places.stub_at(k))
}

/// The first call that doesn't reach its stub.
fn stub_reach(shape: &Shape, span: u32, settled: &Settled) -> Option<u32>
    requires sound { IsSound shape.now }
    requires layout { IsFarLayout
        shape.now span settled.now.keyed settled.now.far settled.now.places }
    ensures { result ≡ stub_reach shape.now span (member settled.now.far) }
{
    for i in 0..shape.sites.len() {
        if is_out(shape, span, settled, i as u32) {
            return Some(i as u32);
        }
    }
    None
}

/// The layout of the far set, if the text is within its limit and each call reaches its stub.
fn accepted_layout(shape: &Shape, span: u32, settled: Settled) -> Result<Settled, LayoutFault>
    requires sound { IsSound shape.now }
    requires span { IsSpan span }
    requires layout { IsFarLayout shape.now span settled.keyed settled.far settled.places }
    ensures layout { IfOk result (λ s. IsFarLayout shape.now span s.keyed s.far s.places) }
    ensures accepted { IfOk result (λ s. IsAccepted shape.now span (member s.far)) }
    ensures refused { IfErr result (IsRefused shape.now span) }
{
    if settled.places.end() > shape.start + TEXT_LIMIT {
        return Err(LayoutFault::TextTooBig);
    }
    match stub_reach(shape, span, &settled) {
        Some(site) => Err(LayoutFault::StubReach(site)),
        None => Ok(settled),
    }
}

/// The places of a text in the layout of a far set, and the round of looks at the keys outside the set.
#[derive(Drop)]
struct Looked {
    places: Places,
    round: Round,
}

/// Lays out the text of a shape for a far set, and looks at each key outside the set.
fn look_at_all<L: Ledger>(
    alloc: Global,
    shape: &Shape,
    span: u32,
    keyed: &Keyed,
    ways: &[Way],
    far: &mut FarSet,
    steps: &mut Steps<L>,
) -> Result<Looked, Memory>
    requires sound { IsSound shape.now }
    requires ways { HasWays shape.now span keyed.now ways.now }
    requires room { length far.old ≡ key_count (keyed_text shape.now span) }
    ensures looked { IfOk result (IsLooked shape.now span far.old far.new) }
    ensures tick { steps.new ≡ steps.old + 1 }
{
    let places = place(alloc, keyed, far, steps)?;
    let round = widen(ways, span, places.starts(), far);
    Ok(Looked { places, round })
}

/// Lays out the text of a shape for a far set that has grown, and looks at the keys outside the set on whose ways something grew since
/// the places `before`, in whose layout each key outside the set reached near.
fn look_at_grown<L: Ledger>(
    alloc: Global,
    shape: &Shape,
    span: u32,
    keyed: &Keyed,
    ways: &[Way],
    before: &Places,
    far: &mut FarSet,
    steps: &mut Steps<L>,
) -> Result<Looked, Memory>
    requires sound { IsSound shape.now }
    requires ways { HasWays shape.now span keyed.now ways.now }
    requires room { length far.old ≡ key_count (keyed_text shape.now span) }
    requires near { WereNear shape.now span far.old before.now }
    ensures looked { IfOk result (IsLooked shape.now span far.old far.new) }
    ensures tick { steps.new ≡ steps.old + 1 }
{
    let places = place(alloc, keyed, far, steps)?;
    let round = widen_grown(ways, span, before.starts(), places.starts(), far);
    Ok(Looked { places, round })
}

/// Finds the far set of a shape by whole rounds: each looks at all keys outside the set.
pub fn settle_rounds<L: Ledger>(
    alloc: Global,
    shape: &Shape,
    span: u32,
    steps: &mut Steps<L>,
) -> Result<Settled, LayoutFault>
    requires sound { IsSound shape.now }
    requires span { IsSpan span }
    ensures layout { IfOk result (λ s. IsFarLayout shape.now span s.keyed s.far s.places) }
    ensures accepted { IfOk result (λ s. IsAccepted shape.now span (member s.far)) }
    ensures refused { IfErr result (IsRefused shape.now span) }
    ensures ticks { steps.new ≤ steps.old + length shape.now.sites.items + 1 }
{
    let keyed = group(alloc, shape, span)?;
    let mut far = FarSet::none(alloc, &keyed)?;
    let ways = ways_of(alloc, shape, span, &keyed)?;
    let mut looks = 0;
    loop {
        let looked = look_at_all(alloc, shape, span, &keyed, &ways, &mut far, steps)?;
        looks += looked.round.looks;
        if looked.round.added == 0 {
            let settled = Settled {
                keyed,
                far,
                places: looked.places,
                looks,
            };
            return accepted_layout(shape, span, settled);
        }
    }
}

/// Finds the far set of a shape: after the first placement each key is looked at, and after a further one only those keys on whose
/// ways something grew in it.
pub fn settle<L: Ledger>(
    alloc: Global,
    shape: &Shape,
    span: u32,
    steps: &mut Steps<L>,
) -> Result<Settled, LayoutFault>
    requires sound { IsSound shape.now }
    requires span { IsSpan span }
    ensures layout { IfOk result (λ s. IsFarLayout shape.now span s.keyed s.far s.places) }
    ensures accepted { IfOk result (λ s. IsAccepted shape.now span (member s.far)) }
    ensures refused { IfErr result (IsRefused shape.now span) }
    ensures ticks { steps.new ≤ steps.old + length shape.now.sites.items + 1 }
{
    let keyed = group(alloc, shape, span)?;
    let mut far = FarSet::none(alloc, &keyed)?;
    let ways = ways_of(alloc, shape, span, &keyed)?;
    let first = look_at_all(alloc, shape, span, &keyed, &ways, &mut far, steps)?;
    let mut places = first.places;
    let mut round = first.round;
    let mut looks = round.looks;
    while round.added > 0 {
        let next = look_at_grown(alloc, shape, span, &keyed, &ways, &places, &mut far, steps)?;
        places = next.places;
        round = next.round;
        looks += round.looks;
    }
    let settled = Settled {
        keyed,
        far,
        places,
        looks,
    };
    accepted_layout(shape, span, settled)
}
