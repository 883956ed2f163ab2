// Call keys: what calls have in common that share a stub.
ghost use Rattle.std.specs.Prelude.{◌≡◌, ◌+◌, ◌-◌, ◌<◌, ◌^◌, ℕ, Bool, length, [], slice_index, IfOk, OnOk};
ghost use Rattle.layout_rounds.specs.FarSets.{member};
ghost use Rattle.layout_rounds.specs.Shapes.{key_of, keys_of, numbers_of, same_key, site_of, spots_of, with_key, IsSound};
ghost use Rattle.layout_rounds.specs.Layout.{address, area, area_start, group_at, group_count, key_at, key_count, offset_at};
ghost use Rattle.layout_rounds.specs.Layout.{padded, section_address, section_count, section_size, stub_address, stub_size};
ghost use Rattle.std.specs.List.{position_or_len};
ghost use Rattle.layout_rounds.specs.inside.Texts.{text_at};
ghost use Rattle.layout_rounds.specs.inside.Seen.{rank_of};

use crate::far_set::FarSet;
use crate::grouping::{Spot, unit_of};
use crate::shape::{Shape, ShapeSection, ShapeSite};
use ppc_bytes::{Memory, align_up};
use std::alloc::Global;
use std::collections::BTreeMap;
use std::marker::Model;
use stub_kinds::{Class, Key, size};

/// The sections of a text in stub groups, and the keys of its calls.
#[derive(Drop)]
pub struct Keyed {
    start: u64,
    reach: u64,
    unit: u64,
    sections: Vec<ShapeSection>,
    pub(crate) spots: Vec<Spot>,
    keys: Vec<Key>,
    pub(crate) numbers: Vec<u32>,
}

impl Model for Keyed {
    ghost use Rattle.layout_rounds.specs.Shapes.{KeyedText, keyed_parts};
    ghost use Rattle.layout_rounds.specs.inside.Texts.{IsKeyedWith};

    ghost Value = { KeyedText };

    ghost view = { λ k.
        keyed_parts k.start k.reach k.sections.items k.spots.items k.keys.items k.numbers.items };

    ghost invariant = { λ k. IsKeyedWith
        (keyed_parts k.start k.reach k.sections.items k.spots.items k.keys.items k.numbers.items)
        k.unit };
}

impl Keyed {
    /// The address of the first section.
    pub(crate) fn start(&self) -> u64
        ensures { result ≡ self.now.start }
    {
        self.start
    }

    /// How many stub groups there are.
    pub fn group_count(&self) -> u32
        ensures count { result ≡ group_count self.now }
        // where their stub areas end, whichever keys are far
        ensures low { (F : ℕ → Bool) (g : ℕ) → g < result →
            address self.now F (area_start self.now g) + area self.now F g < 2 ^ 61 }
    {
        match self.spots.last() {
            Some(spot) => spot.group + 1,
            None => 0,
        }
    }

    /// How many sections there are.
    pub(crate) fn section_count(&self) -> u32
        ensures count { result ≡ section_count self.now }
        // where they end, whichever keys are far
        ensures low { (F : ℕ → Bool) (s : ℕ) → s < result →
            section_address self.now F s + section_size self.now s < 2 ^ 62 }
    {
        self.sections.len() as u32
    }

    /// How many keys there are.
    pub fn key_count(&self) -> u32
        ensures count { result ≡ key_count self.now }
        // where their stubs end, whichever keys are far
        ensures low { (F : ℕ → Bool) (k : ℕ) → k < result →
            stub_address self.now F k + stub_size self.now F k < 2 ^ 62 }
    {
        self.keys.len() as u32
    }

    /// Where a section stands.
    pub(crate) fn spot_of(&self, section: u32) -> Spot
        requires { section < section_count self.now }
        ensures group { result.group ≡ group_at self.now section }
        ensures offset { result.offset ≡ offset_at self.now section }
        ensures within { result.group < group_count self.now }
        ensures room { result.offset + section_size self.now section < 2 ^ 61 }
    {
        self.spots[section as usize]
    }

    /// The stub group of a section.
    pub fn group_of(&self, section: u32) -> u32
        requires { section < section_count self.now }
        ensures group { result ≡ group_at self.now section }
        ensures within { result < group_count self.now }
    {
        self.spot_of(section).group
    }

    /// How many bytes a section has.
    pub(crate) fn section_size(&self, section: u32) -> u64
        requires { section < section_count self.now }
        ensures { result ≡ section_size self.now section }
    {
        self.sections[section as usize].size
    }

    /// The key with a number.
    pub fn key(&self, k: u32) -> Key
        requires { k < key_count self.now }
        ensures key { result ≡ key_at self.now k }
        ensures within { result.group < group_count self.now }
    {
        self.keys[k as usize]
    }

    /// The number of a call's key.
    pub fn key_of(&self, site: u32) -> u32
        requires { site < length self.now.numbers }
        ensures { result ≡ slice_index self.now.numbers site }
    {
        self.numbers[site as usize]
    }

    /// The number of each call's key.
    pub(crate) fn numbers(&self) -> &[u32]
        ensures { result.now ≡ self.now.numbers }
    {
        self.numbers.as_slice()
    }

    /// How many bytes the stub of a key has, where these keys are far.
    pub(crate) fn stub_size(&self, far: &FarSet, k: u32) -> u64
        requires key { k < key_count self.now }
        requires room { length far.now ≡ key_count self.now }
        ensures { result ≡ stub_size self.now (member far.now) k }
    {
        u64::from(size(self.keys[k as usize].class, far.holds(k)))
    }

    /// A number of bytes, padded to the alignment of stub groups and stub areas.
    pub(crate) fn padded(&self, n: u64) -> u64
        requires { padded self.now n < 2 ^ 62 }
        ensures { result ≡ padded self.now n }
    {
        align_up(n, self.unit)
    }
}

/// A number for each class, by which keys are sorted.
fn rank(class: Class) -> u32
    ensures { result ≡ rank_of class }
{
    match class {
        Class::Same => 0,
        Class::Switch => 1,
        Class::Save => 2,
        Class::NearN => 3,
        Class::EntrySave => 4,
        Class::EntryBare => 5,
        Class::EntryN => 6,
    }
}

/// The key of a call.
fn key_of(spots: &[Spot], site: ShapeSite) -> Key
    requires { site.section < length spots.now }
    ensures { result ≡ key_of spots.now site }
{
    Key {
        group: spots[site.section as usize].group,
        class: site.class,
        section: site.to_section,
        offset: site.to_offset,
    }
}

/// The keys that were seen, in order, and the number of each by what sorts them. Contracts see the keys.
#[derive(Drop)]
struct Seen {
    keys: Vec<Key>,
    numbers: BTreeMap<((u32, u32), (u32, u64)), u32>,
}

impl Model for Seen {
    ghost use Rattle.std.specs.Prelude.{List};
    ghost use Rattle.stub_kinds.specs.declared.class.Key.{Key};
    ghost use Rattle.layout_rounds.specs.inside.Seen.{AreNumbered};

    ghost Value = { List Key };

    ghost view = { λ s. s.keys.items };

    ghost invariant = { λ s. AreNumbered s.keys.items s.numbers };
}

impl Seen {
    /// No key.
    fn none(alloc: Global) -> Seen
        ensures { result ≡ [] }
    {
        Seen {
            keys: Vec::new(alloc),
            numbers: BTreeMap::new(alloc),
        }
    }

    /// The number of a key, which joins the others if it is new.
    fn number(&mut self, key: Key) -> Result<u32, Memory>
        requires { length self.old < 2 ^ 32 - 1 }
        ensures keys { OnOk result (self.new ≡ with_key self.old key) }
        ensures number { IfOk result (λ n. n ≡ position_or_len (same_key key) self.new) }
    {
        let sorted = ((key.group, rank(key.class)), (key.section, key.offset));
        match self.numbers.get(&sorted).copied() {
            Some(number) => Ok(number),
            None => {
                let number = self.keys.len() as u32;
                self.keys.push(key)?;
                match self.numbers.insert(sorted, number) {
                    Ok(_) => Ok(number),
                    Err(_) => {
                        self.keys.pop();
                        Err(Memory)
                    }
                }
            }
        }
    }
}

/// The keys of calls, in order of their first calls, and the number of each call's key.
#[derive(Drop)]
struct CallKeys {
    keys: Vec<Key>,
    numbers: Vec<u32>,
}

fn call_keys(alloc: Global, spots: &[Spot], sites: &[ShapeSite]) -> Result<CallKeys, Memory>
    requires few { length sites.now < 2 ^ 32 }
    requires from { (i : ℕ) → i < length sites.now →
        (site_of sites.now i).section < length spots.now }
    ensures keys { IfOk result (λ calls. calls.keys.items ≡ keys_of spots.now sites.now) }
    ensures numbers { IfOk result (λ calls.
        calls.numbers.items ≡ numbers_of spots.now calls.keys.items sites.now) }
{
    let mut seen = Seen::none(alloc);
    let mut numbers = Vec::new(alloc);
    for site in sites {
        let number = seen.number(key_of(spots, *site))?;
        numbers.push(number)?;
    }
    Ok(CallKeys {
        keys: seen.keys,
        numbers,
    })
}

/// The text with its keys.
pub(crate) fn key_text(
    alloc: Global,
    shape: &Shape,
    reach: u64,
    spots: Vec<Spot>,
) -> Result<Keyed, Memory>
    requires sound { IsSound shape.now }
    requires reach { reach < 2 ^ 32 }
    requires spots { spots.items ≡ spots_of shape.now.sections.items reach }
    ensures { IfOk result (λ keyed. keyed ≡ text_at shape.now reach spots.items) }
{
    let calls = call_keys(alloc, spots.as_slice(), shape.sites.as_slice())?;
    Ok(Keyed {
        start: shape.start,
        reach,
        unit: unit_of(shape.sections.as_slice()),
        sections: Vec::from_slice(alloc, shape.sections.as_slice())?,
        spots,
        keys: calls.keys,
        numbers: calls.numbers,
    })
}
