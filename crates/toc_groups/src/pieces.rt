// Where sections and commons lie.
ghost use Rattle.std.specs.Prelude.{◌≡◌, ◌<◌, ◌≤◌, ◌+◌, ◌^◌, ◌++◌, true, None, IfOk, OnOk, length, map};
ghost use Rattle.std.specs.List.{range_with_len, AllByRecursion};
ghost use Rattle.elf64_records.specs.First.{Refuses};
ghost use Rattle.elf64_records.specs.FileHeader.{e_shnum};
ghost use Rattle.object_set.specs.Files.{file_at};
ghost use Rattle.object_set.specs.Refusals.{set_refusal, Answers};
ghost use Rattle.object_set.specs.Sections.{is_kept_sort};
ghost use Rattle.object_set.specs.Walks.{items_in};
ghost use Rattle.toc_groups.specs.Runs.{run_end, run_place, IsFitExtent};
ghost use Rattle.toc_groups.specs.Sections.{extent_at, sort_walk, sections_of, commons_of};
ghost use Rattle.toc_groups.specs.Data.{address_walk, data_refusal};
ghost use Rattle.toc_groups.specs.declared.extents.TheConstants.{DATA_END};
ghost use Rattle.toc_groups.specs.inside.Limits.{past_limit, Refusing, FitsData};
ghost use Rattle.toc_groups.specs.inside.Laid.{room_of, HasRoom, address_after, ends_after, toc_start, AreEndsAt, AreEndsBefore, AreStarts, AreGroupStarts, AreAddresses, AreRuns, AreLaid};
ghost use Rattle.toc_groups.specs.inside.Open.{AreGroups};

use crate::extents::{Extent, is_of_sort, lay, place, section_extent};
use crate::groups::{GROUP_ALIGN, TocGroup, TocGroups};
use crate::slots::SLOT_SIZE;
use elf64_exec::{IMAGE_START, PAGE};
use object_set::{ObjectSet, Refusal, Sort};
use ppc_bytes::align_up;
use std::alloc::{AllocError, Global};
use symbol_table::Resolved;

/// Lays out a section of a file, if it is of a sort; or data is too big.
fn add_section(
    end: &mut u64,
    set: &ObjectSet,
    sort: Sort,
    file: u32,
    section: u32,
) -> Result<(), Refusal>
    requires file { file < length set.now }
    requires section { section < e_shnum (file_at set.now file) }
    requires whole { set_refusal set.now ≡ None }
    requires kept { is_kept_sort sort ≡ true }
    requires low { end.old ≤ DATA_END }
    ensures refusal { let piece = extent_at sort file (file_at set.now file) section in
        Refuses result (past_limit (run_end end.old piece)) }
    ensures end { let piece = extent_at sort file (file_at set.now file) section in
        OnOk result (end.new ≡ run_end end.old piece) }
{
    if is_of_sort(set, file, section, sort) {
        place(end, section_extent(set, file, section))?;
    }
    Ok(())
}

/// Lays out the sections of a file that are of a sort; or data is too big.
fn add_sections(end: &mut u64, set: &ObjectSet, sort: Sort, file: u32) -> Result<(), Refusal>
    requires file { file < length set.now }
    requires whole { set_refusal set.now ≡ None }
    requires kept { is_kept_sort sort ≡ true }
    requires low { end.old ≤ DATA_END }
    ensures refusal { let b = file_at set.now file in
        Refuses result
        (past_limit (run_end end.old (items_in (sort_walk sort) file b (e_shnum b)))) }
    ensures end { let b = file_at set.now file in
        OnOk result (end.new ≡ run_end end.old (items_in (sort_walk sort) file b (e_shnum b))) }
{
    for section in 0..set.view(file).section_count() {
        add_section(end, set, sort, file, section)?;
    }
    Ok(())
}

/// Where the sections of a sort end that begin here; or data is too big.
fn sections_end(set: &ObjectSet, sort: Sort, start: u64) -> Result<u64, Refusal>
    requires kept { is_kept_sort sort ≡ true }
    requires low { start ≤ DATA_END }
    ensures refusal { Refuses result (past_limit (run_end start (sections_of set.now sort))) }
    ensures end { IfOk result (λ end. end ≡ run_end start (sections_of set.now sort)) }
{
    let mut end = start;
    for file in 0..set.file_count() {
        add_sections(&mut end, set, sort, file)?;
    }
    Ok(end)
}

/// Lays out pieces that begin here, puts their addresses behind others, and gives where they end; or data is too big.
fn push_places(addresses: &mut Vec<u64>, pieces: &[Extent], start: u64) -> Result<u64, Refusal>
    requires fit { AllByRecursion IsFitExtent pieces.now }
    requires low { start ≤ DATA_END }
    ensures refusal { Answers result (past_limit (run_end start pieces.now)) }
    ensures addresses { let count = length pieces.now in
        OnOk result (addresses.new.items
        ≡ addresses.old.items ++ map (run_place start pieces.now) (range_with_len 0 count)) }
    ensures end { IfOk result (λ end. end ≡ run_end start pieces.now) }
{
    let mut end = start;
    for k in 0..pieces.len() {
        addresses.push(place(&mut end, pieces[k])?)?;
    }
    Ok(end)
}

/// The room of each group.
fn group_rooms(alloc: Global, groups: &[TocGroup]) -> Result<Vec<Extent>, AllocError>
    ensures { IfOk result (λ rooms. rooms.items ≡ map room_of groups.now) }
{
    let mut rooms = Vec::new(alloc);
    for group in groups {
        rooms.push(Extent {
            size: group.size,
            align: GROUP_ALIGN,
        })?;
    }
    Ok(rooms)
}

/// Where each TOC group starts, and where they end.
#[derive(Drop)]
struct GroupStarts {
    starts: Vec<u64>,
    end: u64,
}

/// Where TOC groups start that begin here; or data is too big.
fn group_starts(alloc: Global, groups: &[TocGroup], start: u64) -> Result<GroupStarts, Refusal>
    requires low { start ≤ DATA_END }
    ensures refusal { Answers result (past_limit (run_end start (map room_of groups.now))) }
    ensures starts { IfOk result (AreStarts start (map room_of groups.now)) }
{
    let rooms = group_rooms(alloc, groups)?;
    let mut starts = Vec::new(alloc);
    let end = push_places(&mut starts, rooms.as_slice(), start)?;
    Ok(GroupStarts { starts, end })
}

/// The room of each common.
fn common_rooms(alloc: Global, res: &Resolved) -> Result<Vec<Extent>, AllocError>
    ensures { IfOk result (λ rooms. rooms.items ≡ commons_of res.now.files) }
{
    let mut rooms = Vec::new(alloc);
    for c in 0..res.common_count() {
        let (size, align) = res.common(c);
        rooms.push(Extent { size, align })?;
    }
    Ok(rooms)
}

/// Where the sections of each sort end that are laid out so far, and how far into its group the `.toc` sections of a file reach.
#[derive(Clone, Copy)]
struct Ends {
    read_only: u64,
    toc: u64,
    writable: u64,
    zeroed: u64,
}

/// Lays out a section of a sort that has room, and gives its address, where its file's TOC group starts here; 0 where it isn't data.
fn lay_section(sort: Sort, room: Extent, start: u64, ends: &mut Ends) -> u64
    requires start { start < 2 ^ 62 }
    requires room { HasRoom room ends.old sort }
    ensures address { result ≡ address_after room start ends.old sort }
    ensures ends { ends.new ≡ ends_after room ends.old sort }
{
    match sort {
        Sort::ReadOnly => lay(&mut ends.read_only, room),
        Sort::Toc => start + lay(&mut ends.toc, room),
        Sort::Writable => lay(&mut ends.writable, room),
        Sort::Zeroed => lay(&mut ends.zeroed, room),
        Sort::Text | Sort::Dropped => 0,
    }
}

/// Where the `.toc` sections of a file of a group begin that comes behind others: the first file's behind the slots.
fn toc_start(group: &TocGroup, file: u32, toc: u64) -> u64
    requires { length group.now.slots.items ≤ 2 ^ 58 }
    ensures { result ≡ toc_start group.now file toc }
{
    if group.first == file {
        SLOT_SIZE * group.slots.len() as u64
    } else {
        toc
    }
}

/// Puts the addresses of a file's sections behind those of the files before it.
fn push_sections(
    pieces: &mut Vec<u64>,
    set: &ObjectSet,
    laid: &TocGroups,
    starts: &[u64],
    file: u32,
    ends: &mut Ends,
) -> Result<(), AllocError>
    requires file { file < length set.now }
    requires few { length set.now ≤ 4096 }
    requires whole { set_refusal set.now ≡ None }
    requires groups { AreGroups set.now laid.now.span laid.now }
    requires starts { AreGroupStarts set.now laid.now.span starts.now }
    requires fits { FitsData set.now laid.now.span }
    requires ends { AreEndsBefore set.now laid.now.span file ends.old }
    ensures pieces { let b = file_at set.now file in
        OnOk result (pieces.new.items ≡ pieces.old.items
        ++ items_in (address_walk set.now laid.now.span) file b (e_shnum b)) }
    ensures ends { OnOk result (AreEndsBefore set.now laid.now.span (file + 1) ends.new) }
{
    let number = laid.numbers[file as usize] as usize;
    ends.toc = toc_start(&laid.groups[number], file, ends.toc);
    for section in 0..set.view(file).section_count() {
        let room = section_extent(set, file, section);
        let sort = set.sort_of(file, section);
        pieces.push(lay_section(sort, room, starts[number], ends))?;
    }
    Ok(())
}

/// The addresses of all sections, and how many of them come before those of each file.
#[derive(Drop)]
pub struct SectionAddresses {
    pub pieces: Vec<u64>,
    pub firsts: Vec<u64>,
}

/// The addresses of all sections, where the first of each sort lies here.
fn section_addresses(
    alloc: Global,
    set: &ObjectSet,
    laid: &TocGroups,
    starts: &[u64],
    first: Ends,
) -> Result<SectionAddresses, AllocError>
    requires groups { AreGroups set.now laid.now.span laid.now }
    requires starts { AreGroupStarts set.now laid.now.span starts.now }
    requires fits { FitsData set.now laid.now.span }
    requires first { AreEndsBefore set.now laid.now.span 0 first }
    ensures { IfOk result (AreAddresses set.now laid.now.span (length set.now)) }
{
    let mut pieces = Vec::new(alloc);
    let mut firsts = Vec::new(alloc);
    let mut ends = first;
    for file in 0..set.file_count() {
        firsts.push(pieces.len() as u64)?;
        push_sections(&mut pieces, set, laid, starts, file, &mut ends)?;
    }
    Ok(SectionAddresses { pieces, firsts })
}

/// Where the runs of data begin and end.
#[derive(Clone, Copy)]
pub struct DataEnds {
    /// The segment that is only read ends here.
    pub read_only: u64,
    /// The one that is written starts here.
    pub writable_start: u64,
    /// Its TOC groups and writable sections end here.
    pub writable: u64,
    /// It ends here.
    pub commons: u64,
}

/// The runs of sections, the groups' starts among them.
#[derive(Drop)]
struct Runs {
    starts: Vec<u64>,
    first: Ends,
    read_only: u64,
    writable_start: u64,
    zeroed: u64,
}

/// Lays out the runs of sections; or data is too big.
fn lay_runs(alloc: Global, set: &ObjectSet, laid: &TocGroups) -> Result<Runs, Refusal>
    requires whole { set_refusal set.now ≡ None }
    requires groups { AreGroups set.now laid.now.span laid.now }
    ensures refusal { Refusing result (data_refusal set.now laid.now.span) }
    ensures runs { IfOk result (AreRuns set.now laid.now.span) }
{
    let read_only = sections_end(set, Sort::ReadOnly, IMAGE_START)?;
    let writable_start = align_up(read_only, PAGE);
    let groups = group_starts(alloc, laid.groups.as_slice(), writable_start)?;
    let zeroed_start = sections_end(set, Sort::Writable, groups.end)?;
    let zeroed = sections_end(set, Sort::Zeroed, zeroed_start)?;
    let first = Ends {
        read_only: IMAGE_START,
        toc: 0,
        writable: groups.end,
        zeroed: zeroed_start,
    };
    Ok(Runs {
        starts: groups.starts,
        first,
        read_only,
        writable_start,
        zeroed,
    })
}

/// What is laid out of data.
#[derive(Drop)]
pub struct LaidPieces {
    /// The addresses of all sections and commons.
    pub addresses: SectionAddresses,
    /// How many of them are sections.
    pub commons: u64,
    /// Where each TOC group starts.
    pub starts: Vec<u64>,
    /// Where the runs of data begin and end.
    pub ends: DataEnds,
}

/// Lays out all pieces; or data is too big.
pub fn lay_pieces(alloc: Global, res: &Resolved, laid: &TocGroups) -> Result<LaidPieces, Refusal>
    requires { AreGroups res.now.files laid.now.span laid.now }
    ensures refusal { Answers result (data_refusal res.now.files laid.now.span) }
    ensures pieces { IfOk result (AreLaid res.now.files laid.now.span) }
{
    let set = res.set();
    // none of the files is refused
    let _files = set.file_count();
    let runs = lay_runs(alloc, set, laid)?;
    let mut addresses = section_addresses(alloc, set, laid, runs.starts.as_slice(), runs.first)?;
    let section_count = addresses.pieces.len() as u64;
    let rooms = common_rooms(alloc, res)?;
    let commons = push_places(&mut addresses.pieces, rooms.as_slice(), runs.zeroed)?;
    Ok(LaidPieces {
        addresses,
        commons: section_count,
        starts: runs.starts,
        ends: DataEnds {
            read_only: runs.read_only,
            writable_start: runs.writable_start,
            writable: runs.first.zeroed,
            commons,
        },
    })
}
