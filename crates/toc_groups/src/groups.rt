// TOC groups: files that share one TOC base.
ghost use Rattle.std.specs.Prelude.{◌≡◌, ◌<◌, ◌≤◌, ◌+◌, ◌++◌, ℕ, suc, List, None, IfOk, OnOk, length, take, option_to_list};
ghost use Rattle.elf64_records.specs.FileHeader.{e_shnum};
ghost use Rattle.object_set.specs.declared.sort.Sort.TheVariants.{Toc};
ghost use Rattle.object_set.specs.Files.{file_at};
ghost use Rattle.object_set.specs.Refusals.{set_refusal};
ghost use Rattle.object_set.specs.Walks.{items_in};
ghost use Rattle.toc_groups.specs.declared.extents.Extent.{Extent};
ghost use Rattle.toc_groups.specs.Sections.{extent_at, sort_walk};
ghost use Rattle.toc_groups.specs.Groups.{group_after};
ghost use Rattle.toc_groups.specs.inside.Ends.{AreEnds, AreLow, AreFileEnds};
ghost use Rattle.toc_groups.specs.inside.Open.{IsOpen, IsJoined, HaveJoined, IsNumbered, AreGroups};

use crate::extents::{is_of_sort, section_extent};
use crate::slots::{GroupSlots, SlotRow};
use crate::toc_ends::TocEnds;
use object_set::{ObjectSet, Sort, SymbolId};
use std::alloc::{AllocError, Global};

/// The alignment of TOC groups in bytes.
pub const GROUP_ALIGN: u64 = 0x100;

/// How far the TOC base lies past its group's start, so that signed 16-bit offsets reach all of 64 KiB (ELFv2 ABI, 3.3 "TOC").
pub const TOC_BIAS: u64 = 0x8000;

/// A TOC group with all its files.
#[derive(Drop)]
pub struct TocGroup {
    /// Its first file.
    pub first: u32,
    /// The symbols for which its slots were made.
    pub slots: Vec<SymbolId>,
    /// Its size in bytes.
    pub size: u64,
}

/// A TOC group that files may still join.
#[derive(Drop)]
struct OpenGroup<'a, 'b> {
    /// Its first file.
    first: u32,
    /// Its slots.
    slots: GroupSlots<'a, 'b>,
    /// Where its `.toc` sections end.
    ends: TocEnds,
    /// Its size in bytes.
    size: u64,
}

/// What comes of a file that joins: its group, the numbers of its slots there, and the group before if that is full.
#[derive(Drop)]
struct Joined<'a, 'b> {
    open_group: OpenGroup<'a, 'b>,
    row: SlotRow,
    full: Option<TocGroup>,
}

/// The TOC groups of all files.
#[derive(Drop)]
pub struct TocGroups {
    /// The TOC span for which they were made.
    pub span: u64,
    /// The groups in order.
    pub groups: Vec<TocGroup>,
    /// The number of each file's group.
    pub numbers: Vec<u32>,
    /// The numbers of the slots of each file's symbols.
    pub rows: Vec<SlotRow>,
}

/// Takes in a section of a file, if it is a `.toc`.
fn add_toc(ends: &mut TocEnds, set: &ObjectSet, file: u32, section: u32)
    requires file { file < length set.now }
    requires section { section < e_shnum (file_at set.now file) }
    requires whole { set_refusal set.now ≡ None }
    requires low { AreLow ends.old }
    ensures { (sections : List Extent) → AreEnds sections ends.old →
        AreEnds (sections ++ extent_at Toc file (file_at set.now file) section) ends.new }
{
    if is_of_sort(set, file, section, Sort::Toc) {
        ends.add(section_extent(set, file, section));
    }
}

/// Takes in the `.toc` sections of the next file of a group.
fn add_tocs(ends: &mut TocEnds, set: &ObjectSet, file: u32)
    requires file { file < length set.now }
    requires few { length set.now ≤ 4096 }
    requires whole { set_refusal set.now ≡ None }
    requires ends { AreFileEnds set.now file ends.old }
    ensures { let b = file_at set.now file in
        (sections : List Extent) → AreEnds sections ends.old →
        AreEnds (sections ++ items_in (sort_walk Toc) file b (e_shnum b)) ends.new }
{
    for section in 0..set.view(file).section_count() {
        add_toc(ends, set, file, section);
    }
}

impl<'a, 'b> OpenGroup<'a, 'b> {
    /// A group that no file has joined.
    fn none(alloc: Global, set: &'b ObjectSet<'a>, first: u32) -> Result<Self, AllocError>
        ensures open_group { IfOk result (IsOpen set.now first) }
        ensures first { IfOk result (λ group. group.first ≡ first) }
    {
        Ok(OpenGroup {
            first,
            slots: GroupSlots::none(alloc, set),
            ends: TocEnds::none(alloc)?,
            size: 0,
        })
    }

    /// Takes in the next file, and gives the numbers of its slots.
    fn add(&mut self, alloc: Global, file: u32) -> Result<SlotRow, AllocError>
        requires file { file < length self.old.slots.files }
        requires few { length self.old.slots.files ≤ 4096 }
        requires whole { set_refusal self.old.slots.files ≡ None }
        requires open_group { IsOpen self.old.slots.files file self.old }
        ensures open_group { OnOk result (IsOpen self.old.slots.files (file + 1) self.new) }
        ensures first { self.new.first ≡ self.old.first }
        ensures row { IfOk result (λ row. (number n : ℕ) →
            self.old.first + n ≡ file →
            IsNumbered self.old.slots.files
            (record { number = number; first = self.old.first; count = suc n }) file row) }
    {
        let row = self.slots.add_file(alloc, file)?;
        add_tocs(&mut self.ends, self.slots.set(), file);
        self.size = self.ends.behind_slots(self.slots.count());
        Ok(row)
    }

    /// The group with its first so many slots and of this size.
    fn whole(self, slots: u64, size: u64) -> TocGroup
        requires { slots ≤ length self.slots.slots }
        ensures first { result.first ≡ self.entry.first }
        ensures slots { result.slots.items ≡ take slots self.entry.slots.slots }
        ensures size { result.size ≡ size }
    {
        TocGroup {
            first: self.first,
            slots: self.slots.into_first(slots),
            size,
        }
    }
}

/// Puts the next file into a group or, where the group would be longer than the span, begins the next one with it.
fn join<'a, 'b>(
    alloc: Global,
    last: OpenGroup<'a, 'b>,
    file: u32,
    span: u64,
) -> Result<Joined<'a, 'b>, AllocError>
    requires file { file < length last.slots.files }
    requires few { length last.slots.files ≤ 4096 }
    requires whole { set_refusal last.slots.files ≡ None }
    requires open_group { IsOpen last.slots.files file last }
    requires first { last.first ≡ (group_after last.slots.files span file).first }
    ensures { IfOk result (IsJoined last.entry.slots.files span file) }
{
    let (slots, size) = (last.slots.count(), last.size);
    let mut open_group = last;
    let row = open_group.add(alloc, file)?;
    if file == open_group.first || open_group.size <= span {
        return Ok(Joined {
            open_group,
            row,
            full: None,
        });
    }
    let mut next = OpenGroup::none(alloc, open_group.slots.set(), file)?;
    let row = next.add(alloc, file)?;
    Ok(Joined {
        open_group: next,
        row,
        full: Some(open_group.whole(slots, size)),
    })
}

/// Puts a group behind others, where it is full.
fn push_full(groups: &mut Vec<TocGroup>, full: Option<TocGroup>) -> Result<(), AllocError>
    ensures { OnOk result (groups.new.items ≡ groups.old.items ++ option_to_list full) }
{
    if let Some(group) = full {
        groups.push(group)?;
    }
    Ok(())
}

/// The groups of files, the last of which is still open.
#[derive(Drop)]
struct AllJoined<'a, 'b> {
    laid: TocGroups,
    last: OpenGroup<'a, 'b>,
}

/// Puts all files into groups.
fn join_all<'a, 'b>(
    alloc: Global,
    set: &'b ObjectSet<'a>,
    span: u64,
) -> Result<AllJoined<'a, 'b>, AllocError>
    ensures { IfOk result (HaveJoined set.now span) }
{
    let mut groups = Vec::new(alloc);
    let mut numbers = Vec::new(alloc);
    let mut rows = Vec::new(alloc);
    let mut last = OpenGroup::none(alloc, set, 0)?;
    for file in 0..set.file_count() {
        let Joined {
            open_group,
            row,
            full,
        } = join(alloc, last, file, span)?;
        push_full(&mut groups, full)?;
        numbers.push(groups.len() as u32)?;
        rows.push(row)?;
        last = open_group;
    }
    let laid = TocGroups {
        span,
        groups,
        numbers,
        rows,
    };
    Ok(AllJoined { laid, last })
}

/// The TOC groups of files, none of which is longer than the span unless it has one file alone.
pub fn toc_groups(alloc: Global, set: &ObjectSet, span: u64) -> Result<TocGroups, AllocError>
    ensures { IfOk result (AreGroups set.now span) }
{
    let AllJoined { laid, last } = join_all(alloc, set, span)?;
    let mut laid = laid;
    if laid.numbers.is_empty() {
        return Ok(laid);
    }
    let (slots, size) = (last.slots.count(), last.size);
    laid.groups.push(last.whole(slots, size))?;
    Ok(laid)
}
