// Rounds of looks: a look is one test of one key for near reach.
ghost use Rattle.std.specs.Prelude.{◌≡◌, ◌≤◌, ◌<◌, ◌^◌, ℕ, false, true, length};
ghost use Rattle.layout_rounds.specs.FarSets.{member};
ghost use Rattle.layout_rounds.specs.inside.Rounds.{far_after, round_after, IsRound};
ghost use Rattle.layout_rounds.specs.inside.Ways.{way_at, way_reaches, AreWaysPlaced, IsWayPlaced};

use crate::far_set::FarSet;
use crate::near::{Way, is_near, rests};

/// How many keys a round looked at, and how many of them it put into the far set.
#[derive(Clone, Copy, Debug)]
pub(crate) struct Round {
    pub looks: u64,
    pub added: u64,
}

/// Looks at a key that the set doesn't hold: it joins the set unless it reaches near in the layout with these starts.
fn look(way: Way, span: u32, starts: &[u64], k: u32, far: &mut FarSet, round: &mut Round)
    requires key { k < length far.old }
    requires way { IsWayPlaced starts.now way }
    requires few { round.old.added ≤ round.old.looks }
    requires room { round.old.looks < 2 ^ 63 }
    ensures far { far.new ≡
        far_after (member far.old k) (way_reaches span starts.now way) far.old k }
    ensures round { round.new ≡
        round_after (member far.old k) (way_reaches span starts.now way) round.old }
{
    if !far.holds(k) {
        round.looks += 1;
        if !is_near(way, span, starts) {
            far.add(k);
            round.added += 1;
        }
    }
}

/// A round that looks at each key outside the far set.
pub(crate) fn widen(ways: &[Way], span: u32, starts: &[u64], far: &mut FarSet) -> Round
    requires placed { AreWaysPlaced starts.now ways.now }
    requires keys { length far.old ≡ length ways.now }
    requires few { length ways.now < 2 ^ 32 }
    ensures { IsRound
        (λ k. way_reaches span starts.now (way_at ways.now k))
        far.old far.new (length ways.now) result }
{
    let mut round = Round { looks: 0, added: 0 };
    for k in 0..ways.len() {
        look(ways[k], span, starts, k as u32, far, &mut round);
    }
    round
}

/// A later round, which looks only at keys on whose ways something grew since the layout with the starts `before`, in which each key
/// outside the far set reached near.
pub(crate) fn widen_grown(
    ways: &[Way],
    span: u32,
    before: &[u64],
    starts: &[u64],
    far: &mut FarSet,
) -> Round
    requires was_placed { AreWaysPlaced before.now ways.now }
    requires placed { AreWaysPlaced starts.now ways.now }
    requires keys { length far.old ≡ length ways.now }
    requires few { length ways.now < 2 ^ 32 }
    requires was_near { (k : ℕ) → k < length ways.now → member far.old k ≡ false →
        way_reaches span before.now (way_at ways.now k) ≡ true }
    ensures { IsRound
        (λ k. way_reaches span starts.now (way_at ways.now k))
        far.old far.new (length ways.now) result }
{
    let mut round = Round { looks: 0, added: 0 };
    for k in 0..ways.len() {
        if !rests(ways[k], before, starts) {
            look(ways[k], span, starts, k as u32, far, &mut round);
        }
    }
    round
}
