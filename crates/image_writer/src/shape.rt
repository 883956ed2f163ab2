// The shape of a job.
ghost use Rattle.std.specs.Prelude.{◌≡◌, ◌<◌, ◌++◌, length, IfOk, OnOk};
ghost use Rattle.std.specs.List.{slice_index_or};
ghost use Rattle.call_sites.specs.declared.site.CallSite.{CallSite};
ghost use Rattle.symbol_table.specs.Text.{text_sections};
ghost use Rattle.layout_rounds.specs.Shapes.{AreSound};
ghost use Rattle.image_writer.specs.JobShape.{classed_sites, shape_by, shape_sections, shape_sites};

use crate::sections::section_at;
use call_sites::CallSite;
use layout_rounds::{Shape, ShapeSection, ShapeSite};
use object_set::Site;
use ppc_bytes::Memory;
use std::alloc::{AllocError, Global};
use symbol_table::Resolved;
use toc_groups::DataPlan;

/// How many text sections can be laid out. 4096 files have fewer.
const SECTION_LIMIT: u32 = 0x1000_0000;

/// The text sections of files of these TOC groups, as the layout sees them.
fn shape_sections(
    alloc: Global,
    res: &Resolved,
    groups: &[u32],
) -> Result<Vec<ShapeSection>, AllocError>
    requires { length groups.now ≡ length res.now.files }
    ensures sections { IfOk result (λ sections.
        sections.items ≡ shape_sections res.now.files groups.now) }
    ensures sound { IfOk result (λ sections. AreSound sections.items) }
{
    // none of the files is refused
    let _files = res.set().file_count();
    if res.text_count() >= SECTION_LIMIT {
        return Err(AllocError);
    }
    let mut sections = Vec::new(alloc);
    for s in 0..res.text_count() {
        let id = section_at(res, s);
        sections.push(ShapeSection {
            size: res.set().view(id.file).section_header(id.section).size,
            align: res.set().align_of(id.file, id.section),
            toc: groups[id.file as usize],
        })?;
    }
    Ok(sections)
}

/// Puts a call behind others, as the layout sees it, if it goes somewhere.
fn push_site(sites: &mut Vec<ShapeSite>, site: &CallSite) -> Result<(), AllocError>
    ensures { OnOk result (sites.new.items ≡ sites.old.items ++ shape_by site.now site.now.class) }
{
    if let Some(class) = site.class {
        sites.push(ShapeSite {
            section: site.section,
            offset: site.offset,
            class,
            to_section: site.to_section,
            to_offset: site.to_offset,
        })?;
    }
    Ok(())
}

/// The calls that go somewhere, as the layout sees them.
fn shape_sites(alloc: Global, sites: &[CallSite]) -> Result<Vec<ShapeSite>, AllocError>
    ensures { IfOk result (λ shapes. shapes.items ≡ shape_sites sites.now) }
{
    let mut shapes = Vec::new(alloc);
    for site in sites {
        push_site(&mut shapes, site)?;
    }
    Ok(shapes)
}

/// The shape of a job: its text starts behind the data of a plan, and has these call sites.
pub fn shape_of(
    alloc: Global,
    res: &Resolved,
    plan: &DataPlan,
    sites: &[CallSite],
) -> Result<Shape, Memory>
    requires { length plan.now.groups ≡ length res.now.files }
    ensures start { IfOk result (λ shape. shape.start ≡ plan.now.text_start) }
    ensures sections { IfOk result (λ shape.
        shape.sections.items ≡ shape_sections res.now.files plan.now.groups) }
    ensures sites { IfOk result (λ shape. shape.sites.items ≡ shape_sites sites.now) }
    ensures sound { IfOk result (λ shape. AreSound shape.sections.items) }
{
    Ok(Shape {
        start: plan.text_start(),
        sections: shape_sections(alloc, res, plan.groups())?,
        sites: shape_sites(alloc, sites)?,
    })
}

/// The record of a call, by its number among the calls that go somewhere.
pub fn call_numbered(sites: &[CallSite], number: u32) -> Site
    requires { number < length (classed_sites sites.now) }
    ensures { (d : CallSite) → result ≡ (slice_index_or (classed_sites sites.now) number d).site }
{
    let mut left = number;
    for site in sites {
        if site.class.is_some() {
            if left == 0 {
                return site.site;
            }
            left -= 1;
        }
    }
    unreachable!()
}
