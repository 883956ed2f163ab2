// Layouts that were worked by hand.
ghost use Rattle.std.specs.Prelude.{◌≡◌, ◌<◌, length, IsTrue, IfOk};
ghost use Rattle.layout_rounds.specs.Shapes.{IsInText, IsSound, IsSoundSection, IsSpan};
ghost use Rattle.layout_rounds.specs.inside.Checked.{IsSoundSite};

mod settling;

use crate::{FarSet, Keyed, Places, Shape, ShapeSection, ShapeSite, group, place};
use ppc_bytes::Steps;
use std::alloc::Global;
use std::marker::Brand;
use std::sync::ledger::{Blank, Ledger};
use std::test::Fail;
use stub_kinds::Class;

/// Whether a shape may have a section. No other alignment is used here.
fn is_sound_section(section: ShapeSection) -> bool
    ensures { IsTrue result → IsSoundSection section }
{
    section.size < 0x1_0000_0000 && section.size % 4 == 0 && section.align == 4
}

/// Whether an instruction of one of the sections stands there.
fn is_in_text(sections: &[ShapeSection], section: u32, offset: u64) -> bool
    ensures { IsTrue result → IsInText sections.now section offset }
{
    (section as usize) < sections.len()
        && offset < sections[section as usize].size
        && offset % 4 == 0
}

/// Whether a call goes from an instruction to another, and the next one, if there is one, stands no earlier.
fn is_sound_site(sections: &[ShapeSection], sites: &[ShapeSite], i: usize) -> bool
    requires { i < length sites.now }
    ensures { IsTrue result → IsSoundSite sections.now sites.now i }
{
    let site = sites[i];
    is_in_text(sections, site.section, site.offset)
        && is_in_text(sections, site.to_section, site.to_offset)
        && (i + 1 == sites.len()
            || site.section < sites[i + 1].section
            || site.section == sites[i + 1].section && site.offset <= sites[i + 1].offset)
}

/// The shape, if it is sound.
fn sound(shape: Shape) -> Result<Shape, Fail>
    ensures { IfOk result IsSound }
{
    if shape.start != 0x1000_0000 || shape.sections.len() > 1000 || shape.sites.len() > 1000 {
        return Err(Fail::new("out of range"));
    }
    for s in 0..shape.sections.len() {
        if !is_sound_section(shape.sections[s]) {
            return Err(Fail::new("a section"));
        }
    }
    for i in 0..shape.sites.len() {
        if !is_sound_site(&shape.sections, &shape.sites, i) {
            return Err(Fail::new("a call"));
        }
    }
    Ok(shape)
}

/// A shape of sections, each with its size and TOC group, and calls of class Same, each from a section and an offset to another.
fn shape_of(
    alloc: Global,
    sections: &[(u64, u32)],
    sites: &[(u32, u64, u32, u64)],
) -> Result<Shape, Fail>
    ensures { IfOk result IsSound }
{
    let mut shape = Shape {
        start: 0x1000_0000,
        sections: Vec::new(alloc),
        sites: Vec::new(alloc),
    };
    for (size, toc) in sections {
        shape.sections.push(ShapeSection {
            size: *size,
            align: 4,
            toc: *toc,
        })?;
    }
    for (section, offset, to_section, to_offset) in sites {
        shape.sites.push(ShapeSite {
            section: *section,
            offset: *offset,
            class: Class::Same,
            to_section: *to_section,
            to_offset: *to_offset,
        })?;
    }
    sound(shape)
}

/// The set of these keys.
fn far_set(alloc: Global, keyed: &Keyed, keys: &[u32]) -> Result<FarSet, Fail>
    ensures { IfOk result (λ set. length set ≡ length keyed.now.keys) }
{
    let mut set = FarSet::none(alloc, keyed)?;
    for key in keys {
        if *key >= keyed.key_count() {
            return Err(Fail::new("no such key"));
        }
        set.add(*key);
    }
    Ok(set)
}

/// The addresses of all sections and of all stubs, and the end.
fn text_of(alloc: Global, keyed: &Keyed, places: &Places) -> Result<String, Fail>
    requires sections { length places.now.sections ≡ length keyed.now.sections }
    requires stubs { length places.now.stubs ≡ length keyed.now.keys }
{
    let mut text = String::new(alloc);
    for s in 0..keyed.section_count() {
        text.push_str(&format!(in alloc; "{:x} ", places.section_at(s))?)?;
    }
    for k in 0..keyed.key_count() {
        text.push_str(&format!(in alloc; "stub {:x} ", places.stub_at(k))?)?;
    }
    text.push_str(&format!(in alloc; "end {:x}", places.end())?)?;
    Ok(text)
}

/// The layout of a shape in which these keys are far.
fn layout_of<L: Ledger>(
    alloc: Global,
    steps: &mut Steps<L>,
    shape: &Shape,
    span: u32,
    far: &[u32],
) -> Result<String, Fail>
    requires sound { IsSound shape.now }
    requires span { IsSpan span }
{
    let keyed = group(alloc, shape, span)?;
    let set = far_set(alloc, &keyed, far)?;
    let places = place(alloc, &keyed, &set, steps)?;
    text_of(alloc, &keyed, &places)
}

const FIVE: [(u64, u32); 5] = [(0x200, 0), (0x200, 0), (0x200, 0), (0x200, 0), (0x200, 0)];

const CALLS: [(u32, u64, u32, u64); 4] = [
    (0, 0, 2, 0),
    (2, 0x100, 0, 0x100),
    (2, 0x104, 0, 0x100),
    (4, 0x180, 2, 0x180),
];

/// Four layouts, a line each.
fn layouts<L: Ledger>(blank: Blank, alloc: Global) -> Result<String, Fail>
    requires name { blank.name ≡ L.name }
    requires parts { blank.parts ≡ L.parts }
    requires some { 0 < L.parts }
{
    let mut steps = Steps::<L>::new(blank);
    let shape = shape_of(alloc, &FIVE, &CALLS)?;
    let groups = shape_of(alloc, &[(0x20, 0), (0x20, 0), (0x20, 1), (0, 1)], &[])?;
    let none = layout_of(alloc, &mut steps, &shape, 0x400, &[])?;
    let all = layout_of(alloc, &mut steps, &shape, 0x400, &[0, 1, 2])?;
    let wide = layout_of(alloc, &mut steps, &shape, 0x800, &[1])?;
    let split = layout_of(alloc, &mut steps, &groups, 0x400, &[])?;
    Ok(format!(in alloc; "{none}\n{all}\n{wide}\n{split}\n")?)
}

fn worked(alloc: Global) -> Result<String, Fail> {
    layouts::<Brand>(Blank::new(1), alloc)
}

const LAYOUTS: &str = "\
10000000 10000200 10000400 10000600 10000800 stub 10000200 stub 10000600 stub 10000a00 end 10000a00
10000000 10000240 10000440 10000680 10000880 stub 10000200 stub 10000640 stub 10000a80 end 10000a90
10000000 10000200 10000400 10000600 10000840 stub 10000400 stub 10000800 stub 10000a40 end 10000a40
10000000 10000020 10000040 10000060 end 10000060
";

#[test]
fn layouts_of_sets_that_were_worked_by_hand(rt: HostRuntime) -> Result<(), Fail> {
    let text = worked(rt.alloc())?;
    assert_eq!(rt; text.as_str(), LAYOUTS);
    Ok(())
}
