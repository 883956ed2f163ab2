// The layout of a set of far keys.
ghost use Rattle.std.specs.Prelude.{◌≡◌, ◌+◌, ◌<◌, length, slice_index, IfOk};
ghost use Rattle.layout_rounds.specs.FarSets.{member};
ghost use Rattle.layout_rounds.specs.Layout.{group_count, key_count, sections_end, stubs_end, IsLayout};
ghost use Rattle.layout_rounds.specs.inside.Placed.{AreSizes, AreBytes, AreOffsets, AreAreas, AreGroupStarts, AreAreaStarts, AreStarts};
ghost use Rattle.layout_rounds.specs.inside.Placed.{AreSections, AreStubs};

use crate::far_set::FarSet;
use crate::keys::Keyed;
use ppc_bytes::{Memory, Steps};
use std::alloc::Global;
use std::marker::Model;
use std::sync::ledger::Ledger;

/// The addresses of sections and stubs.
#[derive(Drop)]
pub struct Places {
    pub(crate) starts: Vec<u64>,
    pub(crate) areas: Vec<u64>,
    sections: Vec<u64>,
    stubs: Vec<u64>,
    end: u64,
}

impl Model for Places {
    ghost use Rattle.layout_rounds.specs.Layout.{PlacedText};

    ghost Value = { PlacedText };

    ghost view = { λ p. record {
      starts = p.starts.items;
      areas = p.areas.items;
      sections = p.sections.items;
      stubs = p.stubs.items;
      end = p.end;
    } };
}

impl Places {
    /// The address of a section.
    pub fn section_at(&self, section: u32) -> u64
        requires { section < length self.now.sections }
        ensures { result ≡ slice_index self.now.sections section }
    {
        self.sections[section as usize]
    }

    /// The address of a key's stub.
    pub fn stub_at(&self, key: u32) -> u64
        requires { key < length self.now.stubs }
        ensures { result ≡ slice_index self.now.stubs key }
    {
        self.stubs[key as usize]
    }

    /// Where each group starts, and where the last one ends.
    pub(crate) fn starts(&self) -> &[u64]
        ensures { result.now ≡ self.now.starts }
    {
        self.starts.as_slice()
    }

    /// Where the last section or stub ends, whichever is later.
    pub fn end(&self) -> u64
        ensures { result ≡ self.now.end }
    {
        self.end
    }
}

/// How many bytes the sections of each stub group take.
pub(crate) fn group_sizes(alloc: Global, keyed: &Keyed) -> Result<Vec<u64>, Memory>
    ensures { IfOk result (λ sizes. AreSizes keyed.now (length keyed.now.sections) sizes.items) }
{
    let mut sizes = vec![in alloc; 0u64; keyed.group_count() as usize]?;
    for s in 0..keyed.section_count() {
        let spot = keyed.spot_of(s);
        let end = spot.offset + keyed.section_size(s);
        let g = spot.group as usize;
        sizes[g] = sizes[g].max(end);
    }
    Ok(sizes)
}

/// The stubs of all keys: where each begins in its area, and how many bytes each area has.
#[derive(Drop)]
struct Areas {
    offsets: Vec<u64>,
    bytes: Vec<u64>,
}

/// The stubs of each area, one behind the other in the order of their keys.
fn areas_of(alloc: Global, keyed: &Keyed, far: &FarSet) -> Result<Areas, Memory>
    requires { length far.now ≡ key_count keyed.now }
    ensures { IfOk result (λ areas.
        AreAreas
        keyed.now (member far.now) (key_count keyed.now) areas.offsets.items areas.bytes.items) }
{
    let mut bytes = vec![in alloc; 0u64; keyed.group_count() as usize]?;
    let mut offsets = Vec::new(alloc);
    for k in 0..keyed.key_count() {
        let g = keyed.key(k).group as usize;
        let offset = bytes[g];
        offsets.push(offset)?;
        bytes[g] = offset + keyed.stub_size(far, k);
    }
    Ok(Areas { offsets, bytes })
}

/// Where groups and their stub areas start.
#[derive(Drop)]
struct Starts {
    groups: Vec<u64>,
    areas: Vec<u64>,
}

fn starts_of(
    alloc: Global,
    keyed: &Keyed,
    sizes: &[u64],
    far: &FarSet,
    bytes: &[u64],
) -> Result<Starts, Memory>
    requires sizes { AreSizes keyed.now (length keyed.now.sections) sizes.now }
    requires bytes { AreBytes keyed.now (member far.now) (key_count keyed.now) bytes.now }
    ensures { IfOk result (λ starts.
        AreStarts keyed.now (member far.now) starts.groups.items starts.areas.items) }
{
    let mut groups = Vec::new(alloc);
    let mut areas = Vec::new(alloc);
    let mut top = keyed.start();
    for g in 0..keyed.group_count() as usize {
        groups.push(top)?;
        let area = top + keyed.padded(sizes[g]);
        areas.push(area)?;
        top = area + keyed.padded(bytes[g]);
    }
    groups.push(top)?;
    Ok(Starts { groups, areas })
}

/// The address of each stub.
fn stubs_of(
    alloc: Global,
    keyed: &Keyed,
    far: &FarSet,
    areas: &[u64],
    offsets: &[u64],
) -> Result<Vec<u64>, Memory>
    requires areas { AreAreaStarts keyed.now (member far.now) (group_count keyed.now) areas.now }
    requires offsets { AreOffsets keyed.now (member far.now) (key_count keyed.now) offsets.now }
    ensures { IfOk result (λ stubs.
        AreStubs keyed.now (member far.now) (key_count keyed.now) stubs.items) }
{
    let mut stubs = Vec::new(alloc);
    for k in 0..keyed.key_count() {
        stubs.push(areas[keyed.key(k).group as usize] + offsets[k as usize])?;
    }
    Ok(stubs)
}

/// The address of each section.
fn sections_of(
    alloc: Global,
    keyed: &Keyed,
    far: &FarSet,
    starts: &[u64],
) -> Result<Vec<u64>, Memory>
    requires { AreGroupStarts keyed.now (member far.now) (group_count keyed.now + 1) starts.now }
    ensures { IfOk result (λ sections.
        AreSections keyed.now (member far.now) (length keyed.now.sections) sections.items) }
{
    let mut sections = Vec::new(alloc);
    for s in 0..keyed.section_count() {
        let spot = keyed.spot_of(s);
        sections.push(starts[spot.group as usize] + spot.offset)?;
    }
    Ok(sections)
}

/// The greatest end of a section.
fn sections_end(keyed: &Keyed, far: &FarSet, sections: &[u64]) -> u64
    requires { AreSections keyed.now (member far.now) (length keyed.now.sections) sections.now }
    ensures { result ≡ sections_end keyed.now (member far.now) (length keyed.now.sections) }
{
    let mut end = keyed.start();
    for s in 0..keyed.section_count() {
        end = end.max(sections[s as usize] + keyed.section_size(s));
    }
    end
}

/// The greatest end of a stub that isn't empty.
fn stubs_end(keyed: &Keyed, far: &FarSet, stubs: &[u64]) -> u64
    requires stubs { AreStubs keyed.now (member far.now) (key_count keyed.now) stubs.now }
    requires room { length far.now ≡ key_count keyed.now }
    ensures { result ≡ stubs_end keyed.now (member far.now) (key_count keyed.now) }
{
    let mut end = keyed.start();
    for k in 0..keyed.key_count() {
        let length = keyed.stub_size(far, k);
        if length > 0 {
            end = end.max(stubs[k as usize] + length);
        }
    }
    end
}

/// The places of a text in the layout of a set of far keys. It counts one step.
pub fn place<L: Ledger>(
    alloc: Global,
    keyed: &Keyed,
    far: &FarSet,
    steps: &mut Steps<L>,
) -> Result<Places, Memory>
    requires { length far.now ≡ key_count keyed.now }
    ensures layout { IfOk result (IsLayout keyed.now (member far.now)) }
    ensures tick { steps.new ≡ steps.old + 1 }
{
    steps.tick();
    let sizes = group_sizes(alloc, keyed)?;
    let stubs = areas_of(alloc, keyed, far)?;
    let starts = starts_of(alloc, keyed, &sizes, far, &stubs.bytes)?;
    let sections = sections_of(alloc, keyed, far, &starts.groups)?;
    let stubs = stubs_of(alloc, keyed, far, &starts.areas, &stubs.offsets)?;
    let end = sections_end(keyed, far, &sections).max(stubs_end(keyed, far, &stubs));
    Ok(Places {
        starts: starts.groups,
        areas: starts.areas,
        sections,
        stubs,
        end,
    })
}
