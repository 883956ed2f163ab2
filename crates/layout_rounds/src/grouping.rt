// Stub groups: runs of sections that share one stub area.
ghost use Rattle.std.specs.Prelude.{◌≡◌, ◌+◌, ◌-◌, ◌/◌, ◌<◌, ◌^◌, length, map, IfOk};
ghost use Rattle.std.specs.List.{range_with_len};
ghost use Rattle.layout_rounds.specs.Shapes.{next_spot, spot_at, spots_of, unit_upto, keyed_text, section_of, AreSound, IsSoundSection};
ghost use Rattle.layout_rounds.specs.Shapes.{IsSound, IsSpan};

use crate::keys::{Keyed, key_text};
use crate::shape::{Shape, ShapeSection};
use ppc_bytes::{Memory, align_up};
use std::alloc::Global;

/// The least alignment of stub areas in bytes.
const LEAST_UNIT: u64 = 64;

/// Where a section stands: the number of its stub group, and how many bytes past the group's start.
#[derive(Clone, Copy, Debug)]
pub struct Spot {
    pub group: u32,
    pub offset: u64,
}

/// Where a section stands that comes behind another: in the same group if both are of one TOC group and it ends within
/// reach, else first in the next.
fn next_spot(reach: u64, last: Spot, before: ShapeSection, section: ShapeSection) -> Spot
    requires group { last.group + 1 < 2 ^ 32 }
    requires room { last.offset + before.size < 2 ^ 62 }
    requires sound { IsSoundSection section }
    ensures { result ≡ next_spot reach last before section }
{
    let offset = align_up(last.offset + before.size, section.align);
    if before.toc == section.toc && offset + section.size <= reach {
        Spot {
            group: last.group,
            offset,
        }
    } else {
        Spot {
            group: last.group + 1,
            offset: 0,
        }
    }
}

/// Where section `s` stands, behind those whose places are known.
fn spot_behind(sections: &[ShapeSection], reach: u64, spots: &[Spot], s: usize) -> Spot
    requires sound { AreSound sections.now }
    requires within { s < length sections.now }
    requires spots { spots.now ≡ map (spot_at sections.now reach) (range_with_len 0 s) }
    ensures { result ≡ spot_at sections.now reach s }
{
    if s == 0 {
        Spot {
            group: 0,
            offset: 0,
        }
    } else {
        next_spot(reach, spots[s - 1], sections[s - 1], sections[s])
    }
}

/// Where each section stands.
fn spots_of(alloc: Global, sections: &[ShapeSection], reach: u64) -> Result<Vec<Spot>, Memory>
    requires { AreSound sections.now }
    ensures { IfOk result (λ spots. spots.items ≡ spots_of sections.now reach) }
{
    let mut spots = Vec::new(alloc);
    for s in 0..sections.len() {
        let spot = spot_behind(sections, reach, spots.as_slice(), s);
        spots.push(spot)?;
    }
    Ok(spots)
}

/// The alignment of stub groups and stub areas: the largest of a section, and at least 64.
pub(crate) fn unit_of(sections: &[ShapeSection]) -> u64
    ensures { result ≡ unit_upto sections.now (length sections.now) }
{
    let mut unit = LEAST_UNIT;
    for s in 0..sections.len() {
        unit = unit.max(sections[s].align);
    }
    unit
}

/// The stub groups of a shape with a branch span in bytes, and the keys of its calls.
pub fn group(alloc: Global, shape: &Shape, span: u32) -> Result<Keyed, Memory>
    requires sound { IsSound shape.now }
    requires span { IsSpan span }
    ensures { IfOk result (λ keyed. keyed ≡ keyed_text shape.now span) }
{
    let reach = u64::from(span) / 2;
    let spots = spots_of(alloc, shape.sections.as_slice(), reach)?;
    key_text(alloc, shape, reach, spots)
}
