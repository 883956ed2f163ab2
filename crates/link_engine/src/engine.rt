// Files become an executable.
ghost use Rattle.std.specs.Prelude.{◌≡◌, ◌⊎◌, ◌+◌, ◌≤◌, ◌<◌, ◌^◌, length, Err, IfOk, IfErr};
ghost use Rattle.object_set.specs.Files.{contents_of};
ghost use Rattle.link_engine.specs.Options.{InRange};
ghost use Rattle.link_engine.specs.Link.{LinksTo, IsLinked, placement_limit};
ghost use Rattle.link_engine.specs.inside.Writing.{IsResolved, IsWholeJob, address_of};

use crate::files::{Linked, Options};
use crate::whole_job::{WholeJob, whole_job};
use elf64_exec::{write_exec, written_loads};
use image_writer::{segments, stub_bytes, text_is_placed};
use layout_rounds::Places;
use object_set::{FileBytes, ObjectSet, Refusal};
use ppc_bytes::{Memory, Steps};
use std::alloc::Global;
use std::sync::ledger::Ledger;
use symbol_table::{Resolved, resolve};
use toc_groups::data_segments_are_placed;

/// The address at which the program starts.
fn entry_address(res: &Resolved, places: &Places) -> u64
    requires section { res.now.entry.section < length places.now.sections }
    requires low { address_of places.now.sections res.now.entry < 2 ^ 64 }
    ensures { result ≡ address_of places.now.sections res.now.entry }
{
    let entry = res.entry();
    places.section_at(entry.section) + entry.offset
}

/// The executable of a job, and what the link counted.
fn write_image(
    alloc: Global,
    res: &Resolved,
    options: &Options,
    job: WholeJob,
) -> Result<Linked, Memory>
    requires resolved { IsResolved res.now options.now }
    requires whole { IsWholeJob res.now.files options.now job }
    ensures linked { IfOk result (IsLinked res.now.files options.now) }
{
    // none of the files is refused
    let _files = res.set().file_count();
    text_is_placed(res, &job.plan, job.calls.as_slice(), &job.settled);
    data_segments_are_placed();
    written_loads();
    let entry = entry_address(res, &job.settled.places);
    let list = segments(alloc, job.loaded.data, job.loaded.text, &job.plan, entry)?;
    Ok(Linked {
        image: write_exec(alloc, &list)?,
        sites: u64::from(job.calls.count()),
        far: job.settled.far.count(),
        stub_bytes: stub_bytes(&job.settled),
        folds: job.folds.count(),
    })
}

/// Links files. The refusal is the first in the stated order: of each file by itself, in order; of a name that is defined twice, of the
/// entry, and of a relocation record; of data that is too big, of text that is, and of a call without a place to restore r2; of laid out
/// text that is too big, and of a call that doesn't reach its stub; of a field that doesn't hold its value. Else the image is the
/// executable of the files' data and text, which is entered at the global entry point of what the entry's name stands for (ELFv2 ABI,
/// "Symbol Values").
pub fn link<L: Ledger>(
    alloc: Global,
    files: &[FileBytes],
    options: &Options,
    steps: &mut Steps<L>,
) -> Result<Linked, Refusal>
    requires some { 1 ≤ length files.now }
    requires few { length files.now ≤ 4096 }
    requires range { InRange options.now }
    ensures refused { IfErr result (λ r.
        (r ≡ Refusal.Memory) ⊎ LinksTo (contents_of files.now) options.now (Err r)) }
    ensures linked { IfOk result (IsLinked (contents_of files.now) options.now) }
    ensures steps { steps.new
        ≤ steps.old + placement_limit (contents_of files.now) options.now }
{
    let set = ObjectSet::take(alloc, files)?;
    let res = resolve(alloc, &set, options.entry.as_str().as_bytes())?;
    let job = whole_job(alloc, &res, options, steps)?;
    Ok(write_image(alloc, &res, options, job)?)
}
