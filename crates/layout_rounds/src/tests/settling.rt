// Far sets that were worked by hand, and those of random shapes, of which each set of keys is tried.
ghost use Rattle.std.specs.Prelude.{◌≡◌, ◌<◌, length, IsTrue, IfOk};
ghost use Rattle.layout_rounds.specs.Layout.{key_count};
ghost use Rattle.layout_rounds.specs.Shapes.{IsSound, IsSpan};
ghost use Rattle.layout_rounds.specs.Settled.{IsFarLayout};

use super::{FIVE, far_set, shape_of, sound, text_of};
use crate::{
    FarSet, Keyed, LayoutFault, Places, Settled, Shape, ShapeSection, ShapeSite, group, place,
    settle, settle_rounds,
};
use ppc_bytes::Steps;
use ppc_bytes::constants::TEXT_LIMIT;
use std::alloc::Global;
use std::marker::Brand;
use std::sync::ledger::{Blank, Ledger};
use std::test::Fail;
use stub_kinds::{Class, size};

/// The two bodies that find a far set.
#[derive(Clone, Copy)]
enum Body {
    Rounds,
    Looks,
}

/// Whether a branch span may be asked for.
fn is_span(span: u32) -> bool
    ensures { IsTrue result → IsSpan span }
{
    span % 4 == 0 && 0x100 <= span && span <= 0x200_0000
}

/// What a body finds.
fn settled_by<L: Ledger>(
    alloc: Global,
    steps: &mut Steps<L>,
    shape: &Shape,
    span: u32,
    body: Body,
) -> Result<Settled, LayoutFault>
    requires sound { IsSound shape.now }
    requires span { IsSpan span }
    ensures { IfOk result (λ s. IsFarLayout shape.now span s.keyed s.far s.places) }
{
    match body {
        Body::Rounds => settle_rounds(alloc, shape, span, steps),
        Body::Looks => settle(alloc, shape, span, steps),
    }
}

/// The far keys, and the addresses of all sections and stubs.
fn layout_text(alloc: Global, keyed: &Keyed, far: &FarSet, places: &Places) -> Result<String, Fail>
    requires far { length far.now ≡ key_count keyed.now }
    requires sections { length places.now.sections ≡ length keyed.now.sections }
    requires stubs { length places.now.stubs ≡ length keyed.now.keys }
{
    let mut text = String::new(alloc);
    text.push_str("far ")?;
    for k in 0..keyed.key_count() {
        if far.holds(k) {
            text.push_str(&format!(in alloc; "{k} ")?)?;
        }
    }
    text.push_str(&text_of(alloc, keyed, places)?)?;
    Ok(text)
}

/// The far set and its layout, or the fault; and the number of looks.
fn outcome<L: Ledger>(
    alloc: Global,
    steps: &mut Steps<L>,
    shape: &Shape,
    span: u32,
    body: Body,
) -> Result<(String, u64), Fail>
    requires sound { IsSound shape.now }
    requires span { IsSpan span }
{
    match settled_by(alloc, steps, shape, span, body) {
        Ok(s) => Ok((layout_text(alloc, &s.keyed, &s.far, &s.places)?, s.looks)),
        Err(LayoutFault::Memory) => Err(Fail::new("memory")),
        Err(fault) => Ok((format!(in alloc; "{fault:?}")?, 0)),
    }
}

/// What both bodies find, and the looks of each.
fn row<L: Ledger>(
    alloc: Global,
    steps: &mut Steps<L>,
    shape: &Shape,
    span: u32,
) -> Result<String, Fail>
    requires { IsSound shape.now }
{
    if !is_span(span) {
        return Err(Fail::new("no branch span"));
    }
    let (rounds, all) = outcome(alloc, steps, shape, span, Body::Rounds)?;
    let (looks, some) = outcome(alloc, steps, shape, span, Body::Looks)?;
    if rounds != looks {
        return Err(Fail::new("two answers"));
    }
    Ok(format!(in alloc; "{rounds}, looks {all} {some}")?)
}

const CHAIN: [(u32, u64, u32, u64); 3] = [(0, 0, 2, 0), (2, 0x100, 0, 0x100), (4, 0x180, 2, 0x180)];

/// A chain, and a hundred sections behind it with a near call each.
fn chain_and_near_calls(alloc: Global) -> Result<Shape, Fail>
    ensures { IfOk result IsSound }
{
    let mut shape = shape_of(alloc, &FIVE, &CHAIN)?;
    for i in 5..105 {
        shape.sections.push(ShapeSection {
            size: 0x200,
            align: 4,
            toc: 0,
        })?;
        shape.sites.push(ShapeSite {
            section: i,
            offset: 0,
            class: Class::Same,
            to_section: i,
            to_offset: 0x10,
        })?;
    }
    sound(shape)
}

/// How many keys are far, and how many looks each body takes.
fn looks_row<L: Ledger>(
    alloc: Global,
    steps: &mut Steps<L>,
    shape: &Shape,
    span: u32,
) -> Result<String, Fail>
    requires sound { IsSound shape.now }
    requires span { IsSpan span }
{
    match (
        settle_rounds(alloc, shape, span, steps),
        settle(alloc, shape, span, steps),
    ) {
        (Ok(a), Ok(b)) => Ok(format!(in alloc;
            "far {} {}, looks {} {}",
            a.far.count(),
            b.far.count(),
            a.looks,
            b.looks
        )?),
        _ => Err(Fail::new("a fault")),
    }
}

fn rows<L: Ledger>(blank: Blank, alloc: Global) -> Result<String, Fail>
    requires name { blank.name ≡ L.name }
    requires parts { blank.parts ≡ L.parts }
    requires some { 0 < L.parts }
{
    let mut steps = Steps::<L>::new(blank);
    let chain = shape_of(alloc, &FIVE, &CHAIN)?;
    let long = shape_of(alloc, &[(0x2000_0004, 0)], &[])?;
    let full = shape_of(alloc, &[(0x2000_0000, 0)], &[])?;
    let out = shape_of(alloc, &[(0x400, 0)], &[(0, 0, 0, 0x200)])?;
    let many = chain_and_near_calls(alloc)?;
    let far = row(alloc, &mut steps, &chain, 0x400)?;
    let near = row(alloc, &mut steps, &chain, 0x404)?;
    let long = row(alloc, &mut steps, &long, 0x200_0000)?;
    let full = row(alloc, &mut steps, &full, 0x200_0000)?;
    let out = row(alloc, &mut steps, &out, 0x100)?;
    let many = looks_row(alloc, &mut steps, &many, 0x400)?;
    Ok(format!(in alloc; "{far}\n{near}\n{long}\n{full}\n{out}\n{many}\n")?)
}

fn worked_rows(alloc: Global) -> Result<String, Fail> {
    rows::<Brand>(Blank::new(1), alloc)
}

const ROWS: &str = "\
far 0 1 2 10000000 10000240 10000440 10000680 10000880 stub 10000200 stub 10000640 stub 10000a80 end 10000a90, looks 6 5
far 10000000 10000200 10000400 10000600 10000800 stub 10000200 stub 10000600 stub 10000a00 end 10000a00, looks 3 3
TextTooBig, looks 0 0
far 10000000 end 30000000, looks 0 0
StubReach(0), looks 0 0
far 3 3, looks 406 105
";

#[test]
fn far_sets_that_were_worked_by_hand(rt: HostRuntime) -> Result<(), Fail> {
    let text = worked_rows(rt.alloc())?;
    assert_eq!(rt; text.as_str(), ROWS);
    Ok(())
}

/// The next number below a limit.
fn random(seed: &mut u64, limit: u64) -> u64
    requires { 0 < limit }
    ensures { result < limit }
{
    *seed = seed
        .wrapping_mul(6364136223846793005)
        .wrapping_add(1442695040888963407);
    (*seed >> 33) % limit
}

fn random_class(seed: &mut u64) -> Class {
    match random(seed, 9) {
        0 => Class::Switch,
        1 => Class::Save,
        2 => Class::NearN,
        3 => Class::EntrySave,
        4 => Class::EntryBare,
        5 => Class::EntryN,
        _ => Class::Same,
    }
}

/// A call from a section to a random place.
fn random_site(
    seed: &mut u64,
    sections: &[ShapeSection],
    section: u32,
    offset: u64,
) -> Result<ShapeSite, Fail> {
    if sections.is_empty() || sections.len() > 100 {
        return Err(Fail::new("no section, or too many"));
    }
    let to = random(seed, sections.len() as u64) as u32;
    let words = (sections[to as usize].size / 4).min(0x1000);
    if words == 0 {
        return Err(Fail::new("an empty section"));
    }
    Ok(ShapeSite {
        section,
        offset,
        class: random_class(seed),
        to_section: to,
        to_offset: random(seed, words) * 4,
    })
}

/// One to six short sections with at most nine calls.
fn random_shape(alloc: Global, seed: &mut u64) -> Result<Shape, Fail>
    ensures { IfOk result IsSound }
{
    let mut shape = Shape {
        start: 0x1000_0000,
        sections: Vec::new(alloc),
        sites: Vec::new(alloc),
    };
    for _ in 0..1 + random(seed, 6) {
        shape.sections.push(ShapeSection {
            size: (1 + random(seed, 0x60)) * 4,
            align: 4,
            toc: random(seed, 5) as u32 / 4,
        })?;
    }
    for s in 0..shape.sections.len().min(6) {
        for half in 0..2 {
            if random(seed, 4) > 0 && shape.sites.len() < 9 {
                let offset = shape.sections[s].size / 8 * 4 * half;
                let site = random_site(seed, &shape.sections, s as u32, offset)?;
                shape.sites.push(site)?;
            }
        }
    }
    sound(shape)
}

/// The address of an offset of a section.
fn address(keyed: &Keyed, places: &Places, section: u32, offset: u64) -> u64 {
    match keyed.spots.get(section as usize) {
        Some(spot) => match places.starts.get(spot.group as usize) {
            Some(start) => start.wrapping_add(spot.offset).wrapping_add(offset),
            None => 0,
        },
        None => 0,
    }
}

fn reaches(span: u32, at: u64, to: u64) -> bool {
    if at <= to {
        to - at <= u64::from(span).saturating_sub(4)
    } else {
        at - to <= u64::from(span)
    }
}

/// Whether a call reaches near, or both ends of its stub area do, as its class asks.
fn call_is_near(span: u32, keyed: &Keyed, places: &Places, site: ShapeSite) -> bool {
    let to = address(keyed, places, site.to_section, site.to_offset);
    match site.class {
        Class::Same | Class::NearN => {
            reaches(span, address(keyed, places, site.section, site.offset), to)
        }
        Class::Switch | Class::Save => area_is_near(span, keyed, places, site.section, to),
        Class::EntrySave | Class::EntryBare | Class::EntryN => true,
    }
}

fn area_is_near(span: u32, keyed: &Keyed, places: &Places, section: u32, to: u64) -> bool {
    let group = match keyed.spots.get(section as usize) {
        Some(spot) => spot.group as usize,
        None => 0,
    };
    match (places.areas.get(group), places.starts.get(group + 1)) {
        (Some(start), Some(end)) => reaches(span, *start, to) && reaches(span, *end, to),
        _ => false,
    }
}

fn key_is_near(span: u32, shape: &Shape, keyed: &Keyed, places: &Places, k: u32) -> bool {
    for (site, number) in shape.sites.iter().zip(keyed.numbers.iter()) {
        if *number == k && !call_is_near(span, keyed, places, *site) {
            return false;
        }
    }
    true
}

fn is_closed(span: u32, shape: &Shape, keyed: &Keyed, far: &FarSet, places: &Places) -> bool
    requires { length far.now ≡ key_count keyed.now }
{
    for k in 0..keyed.key_count() {
        if !far.holds(k) && !key_is_near(span, shape, keyed, places, k) {
            return false;
        }
    }
    true
}

/// The set of the keys whose bits are set.
fn set_of(alloc: Global, keyed: &Keyed, bits: u32) -> Result<FarSet, Fail>
    ensures { IfOk result (λ set. length set ≡ length keyed.now.keys) }
{
    let mut keys = Vec::new(alloc);
    for k in 0..keyed.key_count().min(9) {
        if bits >> k & 1 == 1 {
            keys.push(k)?;
        }
    }
    far_set(alloc, keyed, &keys)
}

/// What is in every closed set, as bits.
fn least_closed<L: Ledger>(
    alloc: Global,
    steps: &mut Steps<L>,
    shape: &Shape,
    span: u32,
    keyed: &Keyed,
) -> Result<u32, Fail> {
    let mut least = 0x1FF;
    for bits in 0..1u32 << keyed.key_count().min(9) {
        let far = set_of(alloc, keyed, bits)?;
        let places = place(alloc, keyed, &far, steps)?;
        if is_closed(span, shape, keyed, &far, &places) {
            least &= bits;
        }
    }
    Ok(least)
}

/// The first call that doesn't reach its stub.
fn first_out(
    span: u32,
    shape: &Shape,
    keyed: &Keyed,
    far: &FarSet,
    places: &Places,
) -> Option<usize>
    requires far { length far.now ≡ key_count keyed.now }
    requires stubs { length places.now.stubs ≡ length keyed.now.keys }
{
    for i in 0..shape.sites.len() {
        let site = shape.sites[i];
        match keyed.numbers.get(i) {
            Some(k) => {
                if *k < keyed.key_count()
                    && size(site.class, far.holds(*k)) > 0
                    && !reaches(
                        span,
                        address(keyed, places, site.section, site.offset),
                        places.stub_at(*k),
                    )
                {
                    return Some(i);
                }
            }
            None => {}
        }
    }
    None
}

/// The outcome of a shape of at most nine calls, of which every set of keys is tried.
fn tried_outcome<L: Ledger>(
    alloc: Global,
    steps: &mut Steps<L>,
    shape: &Shape,
    span: u32,
) -> Result<String, Fail>
    requires sound { IsSound shape.now }
    requires span { IsSpan span }
{
    let keyed = group(alloc, shape, span)?;
    let bits = least_closed(alloc, steps, shape, span, &keyed)?;
    let far = set_of(alloc, &keyed, bits)?;
    let places = place(alloc, &keyed, &far, steps)?;
    if !is_closed(span, shape, &keyed, &far, &places) {
        return Err(Fail::new("no least closed set"));
    }
    if places.end() > shape.start.saturating_add(TEXT_LIMIT) {
        return Ok(format!(in alloc; "TextTooBig")?);
    }
    match first_out(span, shape, &keyed, &far, &places) {
        Some(i) => Ok(format!(in alloc; "StubReach({i})")?),
        None => layout_text(alloc, &keyed, &far, &places),
    }
}

/// How many shapes had far keys, and how many a call out of reach of its stub.
#[derive(Clone, Copy)]
struct Tally {
    far: u32,
    out: u32,
}

/// Both bodies, and the trial of every set, on a shape with a branch span.
fn compare<L: Ledger>(
    alloc: Global,
    steps: &mut Steps<L>,
    shape: &Shape,
    span: u32,
    tally: &mut Tally,
) -> Result<(), Fail>
    requires { IsSound shape.now }
{
    if !is_span(span) {
        return Err(Fail::new("no branch span"));
    }
    let (rounds, all) = outcome(alloc, steps, shape, span, Body::Rounds)?;
    let (looks, some) = outcome(alloc, steps, shape, span, Body::Looks)?;
    let tried = tried_outcome(alloc, steps, shape, span)?;
    if rounds != looks || rounds != tried || some > all {
        return Err(Fail::new(&format!(in alloc; "{rounds}\n{looks}\n{tried}\n")?));
    }
    if rounds.starts_with("StubReach") {
        tally.out = tally.out.wrapping_add(1);
    } else if !rounds.starts_with("far 10000000") {
        tally.far = tally.far.wrapping_add(1);
    }
    Ok(())
}

/// All three on random shapes, and how many of these were of each kind.
fn random_shapes<L: Ledger>(blank: Blank, alloc: Global) -> Result<Tally, Fail>
    requires name { blank.name ≡ L.name }
    requires parts { blank.parts ≡ L.parts }
    requires some { 0 < L.parts }
{
    let mut steps = Steps::<L>::new(blank);
    let mut tally = Tally { far: 0, out: 0 };
    let mut seed = 1;
    for _ in 0..40 {
        let shape = random_shape(alloc, &mut seed)?;
        for span in [0x100, 0x120, 0x180, 0x240, 0x300, 0x400] {
            compare(alloc, &mut steps, &shape, span, &mut tally)?;
        }
    }
    Ok(tally)
}

fn random_rows(alloc: Global) -> Result<Tally, Fail> {
    random_shapes::<Brand>(Blank::new(1), alloc)
}

#[test]
fn far_sets_of_random_shapes_are_the_least_closed_ones(rt: HostRuntime) -> Result<(), Fail> {
    let tally = random_rows(rt.alloc())?;
    assert!(rt; tally.far > 20 && tally.out > 20);
    Ok(())
}
