// The bytes of data: sections are copied to their addresses, slots get their symbols' addresses, and fields their records' values.
ghost use Rattle.std.specs.Prelude.{◌≡◌, ◌<◌, ◌≤◌, ◌+◌, ◌++◌, ◌^◌, Some, None, true, IsSome, IfSome, IfNone, IfOk, OnOk, length, pos};
ghost use Rattle.elf64_records.specs.FileHeader.{e_shnum};
ghost use Rattle.elf64_records.specs.First.{Refuses};
ghost use Rattle.elf64_records.specs.Records.{rela_of};
ghost use Rattle.elf64_records.specs.Sections.{section_bytes};
ghost use Rattle.elf64_records.specs.Symbols.{symbol_count};
ghost use Rattle.object_set.specs.Files.{file_at};
ghost use Rattle.object_set.specs.Refusals.{Answers};
ghost use Rattle.object_set.specs.Walks.{IsRecord};
ghost use Rattle.ppc_bytes.specs.Bytes.{number_at};
ghost use Rattle.reloc_fields.specs.declared.kind.Kind.{Kind};
ghost use Rattle.reloc_fields.specs.Table.{line_of, filled, Passes};
ghost use Rattle.symbol_table.specs.Fields.{kind_numbered};
ghost use Rattle.symbol_table.specs.Records.{records_refusal, site_of};
ghost use Rattle.symbol_table.specs.Sites.{is_data_sort};
ghost use Rattle.symbol_table.specs.Targets.{target_of};
ghost use Rattle.toc_groups.specs.Groups.{group_count};
ghost use Rattle.toc_groups.specs.Data.{group_slots};
ghost use Rattle.toc_groups.specs.Parts.{slot_place};
ghost use Rattle.toc_groups.specs.Plans.{IsPlan};
ghost use Rattle.toc_groups.specs.Values.{passes, record_value, data_overflow_at, data_overflow};
ghost use Rattle.toc_groups.specs.Contents.{AreOfFiles, IsDataField, IsSlot, HoldsData, AreDataSegments};
ghost use Rattle.toc_groups.specs.declared.slots.TheConstants.{SLOT_SIZE};
ghost use Rattle.toc_groups.specs.inside.Memory.{byte_of, HasRange};
ghost use Rattle.toc_groups.specs.inside.Filled.{AreCopied, AreSlotted, AreFilled, table_overflow, file_overflow, segment};

use crate::memory::DataMemory;
use crate::plan::DataPlan;
use crate::slots::SLOT_SIZE;
use crate::values::{
    field_address, holds_value, record_of, record_value, section_of, symbol_address,
};
use elf64_exec::{IMAGE_START, READ_ONLY, Segment, WRITABLE};
use layout_rounds::Places;
use object_set::{RecordId, Refusal, Site, Sort, SymbolId};
use ppc_bytes::{Bytes, long_at, word_at};
use reloc_fields::{Kind, fill, kind_of, width};
use std::alloc::{AllocError, Global};
use symbol_table::{Piece, Resolved};

/// Whether a section of this sort has bytes that are no instructions.
fn is_data_sort(sort: Sort) -> bool
    ensures { result ≡ is_data_sort sort }
{
    match sort {
        Sort::Toc | Sort::Writable | Sort::ReadOnly => true,
        Sort::Text | Sort::Zeroed | Sort::Dropped => false,
    }
}

/// Copies a section into memory, if it is data that its file has bytes of.
fn copy_section(memory: &mut DataMemory, res: &Resolved, plan: &DataPlan, file: u32, section: u32)
    requires plan { IsPlan res.now.files plan.now.span plan.now }
    requires ends { memory.old.ends ≡ plan.now.ends }
    requires file { file < length res.now.files }
    requires section { section < e_shnum (file_at res.now.files file) }
    requires before { AreCopied res.now.files plan.now.span file section (byte_of memory.old) }
    ensures ends { memory.new.ends ≡ plan.now.ends }
    ensures copied { AreCopied res.now.files plan.now.span file (section + 1)
        (byte_of memory.new) }
{
    let set = res.set();
    // no file of a set is refused
    let _files = set.file_count();
    if !is_data_sort(set.sort_of(file, section)) {
        return;
    }
    let bytes = set.view(file).section(section).bytes;
    if bytes.is_empty() {
        return;
    }
    let address = plan.piece_address(Piece::Section(file, section));
    memory.put(address, bytes);
}

/// Copies the sections of a file.
fn copy_file(memory: &mut DataMemory, res: &Resolved, plan: &DataPlan, file: u32)
    requires plan { IsPlan res.now.files plan.now.span plan.now }
    requires ends { memory.old.ends ≡ plan.now.ends }
    requires file { file < length res.now.files }
    requires before { AreCopied res.now.files plan.now.span file 0 (byte_of memory.old) }
    ensures ends { memory.new.ends ≡ plan.now.ends }
    ensures copied { AreCopied res.now.files plan.now.span (file + 1) 0 (byte_of memory.new) }
{
    for section in 0..res.set().view(file).section_count() {
        copy_section(memory, res, plan, file, section);
    }
}

/// Copies all sections into memory that is zero.
fn copy_sections(memory: &mut DataMemory, res: &Resolved, plan: &DataPlan)
    requires plan { IsPlan res.now.files plan.now.span plan.now }
    requires ends { memory.old.ends ≡ plan.now.ends }
    requires before { AreCopied res.now.files plan.now.span 0 0 (byte_of memory.old) }
    ensures ends { memory.new.ends ≡ plan.now.ends }
    ensures copied { AreCopied res.now.files plan.now.span (length res.now.files) 0
        (byte_of memory.new) }
{
    for file in 0..res.set().file_count() {
        copy_file(memory, res, plan, file);
    }
}

/// The symbol for which a slot was made, which goes somewhere.
pub fn slot_symbol(res: &Resolved, plan: &DataPlan, group: usize, k: usize) -> SymbolId
    requires plan { IsPlan res.now.files plan.now.span plan.now }
    requires records { records_refusal res.now.files ≡ None }
    requires group { group < group_count res.now.files plan.now.span }
    requires slot { k < length (group_slots res.now.files plan.now.span group) }
    ensures slot { IsSlot res.now.files plan.now.span group k result }
    ensures file { result.file < length res.now.files }
    ensures symbol { result.symbol < symbol_count (file_at res.now.files result.file) }
    ensures stands { IsSome (target_of res.now.files result.file result.symbol (pos 0)) }
{
    // none of the files is refused
    let _files = res.set().file_count();
    plan.group_slots(group)[k]
}

/// Where a slot lies.
pub fn slot_place(res: &Resolved, plan: &DataPlan, group: usize, k: usize) -> u64
    requires plan { IsPlan res.now.files plan.now.span plan.now }
    requires group { group < group_count res.now.files plan.now.span }
    requires slot { k < length (group_slots res.now.files plan.now.span group) }
    ensures place { result ≡ slot_place res.now.files plan.now.span group k }
    ensures room { HasRange plan.now.ends result SLOT_SIZE }
{
    // none of the files is refused
    let _files = res.set().file_count();
    plan.group_start(group) + SLOT_SIZE * k as u64
}

/// Puts the address of a slot's symbol into it.
fn put_slot(
    memory: &mut DataMemory,
    res: &Resolved,
    plan: &DataPlan,
    text: &Places,
    group: usize,
    k: usize,
)
    requires of_files { AreOfFiles res.now.files plan.now text.now.sections }
    requires ends { memory.old.ends ≡ plan.now.ends }
    requires group { group < group_count res.now.files plan.now.span }
    requires slot { k < length (group_slots res.now.files plan.now.span group) }
    requires before { AreSlotted res.now.files plan.now.span text.now.sections group k
        (byte_of memory.old) }
    ensures ends { memory.new.ends ≡ plan.now.ends }
    ensures slotted { AreSlotted res.now.files plan.now.span text.now.sections group (k + 1)
        (byte_of memory.new) }
{
    // no file of a set is refused
    let _files = res.set().file_count();
    let symbol = slot_symbol(res, plan, group, k);
    let address = symbol_address(res, plan, text, symbol.file, symbol.symbol);
    memory.put_number(slot_place(res, plan, group, k), 8, address);
}

/// Fills the slots of a group.
fn put_group(memory: &mut DataMemory, res: &Resolved, plan: &DataPlan, text: &Places, group: usize)
    requires of_files { AreOfFiles res.now.files plan.now text.now.sections }
    requires ends { memory.old.ends ≡ plan.now.ends }
    requires group { group < group_count res.now.files plan.now.span }
    requires before { AreSlotted res.now.files plan.now.span text.now.sections group 0
        (byte_of memory.old) }
    ensures ends { memory.new.ends ≡ plan.now.ends }
    ensures slotted { AreSlotted res.now.files plan.now.span text.now.sections (group + 1) 0
        (byte_of memory.new) }
{
    for k in 0..plan.group_slots(group).len() {
        put_slot(memory, res, plan, text, group, k);
    }
}

/// Fills the slots of all groups.
fn put_slots(memory: &mut DataMemory, res: &Resolved, plan: &DataPlan, text: &Places)
    requires of_files { AreOfFiles res.now.files plan.now text.now.sections }
    requires ends { memory.old.ends ≡ plan.now.ends }
    requires before { AreSlotted res.now.files plan.now.span text.now.sections 0 0
        (byte_of memory.old) }
    ensures ends { memory.new.ends ≡ plan.now.ends }
    ensures slotted { let count = group_count res.now.files plan.now.span in
        AreSlotted res.now.files plan.now.span text.now.sections count 0 (byte_of memory.new) }
{
    for group in 0..plan.group_count() {
        put_group(memory, res, plan, text, group);
    }
}

/// A record's field with its value in it: `bytes` are those of its section, and it begins at an offset there.
pub fn filled_field(kind: Kind, bytes: &[u8], offset: usize, value: i128) -> u64
    requires fills { 0 < (line_of kind).width }
    requires within { offset + (line_of kind).width ≤ length bytes.now }
    requires holds { Passes (line_of kind).check value }
    ensures number { let line = line_of kind in
        result ≡ filled line.filling (number_at line.width bytes.now offset) value }
    ensures fits { result < 256 ^ (line_of kind).width }
{
    if width(kind) == 4 {
        fill(kind, u64::from(word_at(bytes, offset)), value)
    } else {
        fill(kind, long_at(bytes, offset), value)
    }
}

/// Fills the field of a record in data, whose value it holds. `bytes` are those of its section.
fn put_field(
    memory: &mut DataMemory,
    res: &Resolved,
    plan: &DataPlan,
    text: &Places,
    id: RecordId,
    kind: Kind,
    bytes: &[u8],
    value: i128,
)
    requires of_files { AreOfFiles res.now.files plan.now text.now.sections }
    requires ends { memory.old.ends ≡ plan.now.ends }
    requires field { IsDataField res.now.files id kind }
    requires bytes { bytes.now ≡ section_bytes (file_at res.now.files id.file) id.section }
    requires value { value ≡
        record_value res.now.files plan.now.span text.now.sections id kind }
    requires holds { Passes (line_of kind).check value }
    requires before { AreFilled res.now.files plan.now.span text.now.sections
        id.file id.table id.entry (byte_of memory.old) }
    ensures ends { memory.new.ends ≡ plan.now.ends }
    ensures filled { AreFilled res.now.files plan.now.span text.now.sections
        id.file id.table (id.entry + 1) (byte_of memory.new) }
{
    // none of the files is refused
    let _files = res.set().file_count();
    let offset = record_of(res, id).offset as usize;
    let address = field_address(res, plan, text, id);
    memory.put_number(
        address,
        width(kind),
        filled_field(kind, bytes, offset, value),
    );
}

/// The kind of a record whose field is in data and has bytes.
pub fn field_kind(res: &Resolved, id: RecordId) -> Option<Kind>
    requires { IsRecord res.now.files id }
    ensures some { IfSome result (IsDataField res.now.files id) }
    ensures none { IfNone result ((kind : Kind) → IsDataField res.now.files id kind → ⊥) }
{
    let section = section_of(res, id);
    if !is_data_sort(res.set().sort_of(id.file, section)) {
        return None;
    }
    match kind_of(record_of(res, id).kind) {
        Some(kind) => {
            if width(kind) == 0 {
                return None;
            }
            Some(kind)
        }
        None => None,
    }
}

/// The place of a record, and of its field.
pub fn site_of(res: &Resolved, id: RecordId) -> Site
    requires { IsRecord res.now.files id }
    ensures { result ≡ site_of (file_at res.now.files id.file) id }
{
    Site {
        file: id.file,
        table: id.table,
        entry: id.entry,
        section: id.section,
        offset: record_of(res, id).offset,
    }
}

/// Fills the field of a record, if it is in data; or the field doesn't hold the record's value.
fn fill_record(
    memory: &mut DataMemory,
    res: &Resolved,
    plan: &DataPlan,
    text: &Places,
    id: RecordId,
    bytes: &[u8],
) -> Result<(), Refusal>
    requires of_files { AreOfFiles res.now.files plan.now text.now.sections }
    requires ends { memory.old.ends ≡ plan.now.ends }
    requires record { IsRecord res.now.files id }
    requires bytes { bytes.now ≡ section_bytes (file_at res.now.files id.file) id.section }
    requires before { AreFilled res.now.files plan.now.span text.now.sections
        id.file id.table id.entry (byte_of memory.old) }
    ensures ends { memory.new.ends ≡ plan.now.ends }
    ensures refusal { Refuses result
        (data_overflow_at res.now.files plan.now.span text.now.sections id) }
    ensures filled { OnOk result (AreFilled res.now.files plan.now.span text.now.sections
        id.file id.table (id.entry + 1) (byte_of memory.new)) }
{
    let kind = match field_kind(res, id) {
        Some(kind) => kind,
        None => return Ok(()),
    };
    let value = record_value(res, plan, text, id, kind);
    if !holds_value(kind, value) {
        return Err(Refusal::Overflow(site_of(res, id), value));
    }
    put_field(memory, res, plan, text, id, kind, bytes, value);
    Ok(())
}

/// Fills the fields of the records that a section of a file holds.
#[tactic(auto, using(elf64_records::specs::laws::First::walk_step))]
fn fill_table(
    memory: &mut DataMemory,
    res: &Resolved,
    plan: &DataPlan,
    text: &Places,
    file: u32,
    table: u32,
) -> Result<(), Refusal>
    requires of_files { AreOfFiles res.now.files plan.now text.now.sections }
    requires ends { memory.old.ends ≡ plan.now.ends }
    requires file { file < length res.now.files }
    requires table { table < e_shnum (file_at res.now.files file) }
    requires before { AreFilled res.now.files plan.now.span text.now.sections file table 0
        (byte_of memory.old) }
    ensures ends { memory.new.ends ≡ plan.now.ends }
    ensures refusal { Refuses result
        (table_overflow res.now.files plan.now.span text.now.sections file table) }
    ensures filled { OnOk result (AreFilled res.now.files plan.now.span text.now.sections
        file (table + 1) 0 (byte_of memory.new)) }
{
    let view = res.set().view(file);
    let count = view.record_count(table);
    if count == 0 {
        return Ok(());
    }
    let first = RecordId {
        file,
        table,
        entry: 0,
        section: view.section_header(table).info,
    };
    let bytes = view.section(section_of(res, first)).bytes;
    for entry in 0..count {
        fill_record(memory, res, plan, text, RecordId { entry, ..first }, bytes)?;
    }
    Ok(())
}

/// Fills the fields of a file's records.
#[tactic(auto, using(elf64_records::specs::laws::First::walk_step))]
fn fill_file(
    memory: &mut DataMemory,
    res: &Resolved,
    plan: &DataPlan,
    text: &Places,
    file: u32,
) -> Result<(), Refusal>
    requires of_files { AreOfFiles res.now.files plan.now text.now.sections }
    requires ends { memory.old.ends ≡ plan.now.ends }
    requires file { file < length res.now.files }
    requires before { AreFilled res.now.files plan.now.span text.now.sections file 0 0
        (byte_of memory.old) }
    ensures ends { memory.new.ends ≡ plan.now.ends }
    ensures refusal { Refuses result
        (file_overflow res.now.files plan.now.span text.now.sections file) }
    ensures filled { OnOk result (AreFilled res.now.files plan.now.span text.now.sections
        (file + 1) 0 0 (byte_of memory.new)) }
{
    for table in 0..res.set().view(file).section_count() {
        fill_table(memory, res, plan, text, file, table)?;
    }
    Ok(())
}

/// Fills the fields of all records in data.
#[tactic(auto, using(elf64_records::specs::laws::First::walk_step))]
fn fill_fields(
    memory: &mut DataMemory,
    res: &Resolved,
    plan: &DataPlan,
    text: &Places,
) -> Result<(), Refusal>
    requires of_files { AreOfFiles res.now.files plan.now text.now.sections }
    requires ends { memory.old.ends ≡ plan.now.ends }
    requires before { AreFilled res.now.files plan.now.span text.now.sections 0 0 0
        (byte_of memory.old) }
    ensures ends { memory.new.ends ≡ plan.now.ends }
    ensures refusal { Refuses result
        (data_overflow res.now.files plan.now.span text.now.sections) }
    ensures filled { OnOk result (AreFilled res.now.files plan.now.span text.now.sections
        (length res.now.files) 0 0 (byte_of memory.new)) }
{
    for file in 0..res.set().file_count() {
        fill_file(memory, res, plan, text, file)?;
    }
    Ok(())
}

/// A segment from one address to another, of which the file has these bytes, if it isn't empty.
fn push_segment(
    list: &mut Vec<Segment>,
    flags: u32,
    bytes: Vec<u8>,
    start: u64,
    end: u64,
) -> Result<(), AllocError>
    requires order { start ≤ end }
    ensures { OnOk result (list.new.items ≡ list.old.items ++ segment flags bytes.items start end) }
{
    if start < end {
        list.push(Segment {
            flags,
            address: start,
            bytes: Bytes::of(bytes),
            size: end - start,
        })?;
    }
    Ok(())
}

/// The memory of data, filled; or the first record in record order whose field in data doesn't hold its value.
fn data_memory(
    alloc: Global,
    res: &Resolved,
    plan: &DataPlan,
    text: &Places,
) -> Result<DataMemory, Refusal>
    requires { AreOfFiles res.now.files plan.now text.now.sections }
    ensures refusal { Answers result
        (data_overflow res.now.files plan.now.span text.now.sections) }
    ensures ends { IfOk result (λ m. m.ends ≡ plan.now.ends) }
    ensures holds { IfOk result (λ m.
        HoldsData res.now.files plan.now.span text.now.sections (byte_of m)) }
{
    // none of the files is refused
    let _files = res.set().file_count();
    let mut memory = DataMemory::zeroed(alloc, plan.ends())?;
    copy_sections(&mut memory, res, plan);
    put_slots(&mut memory, res, plan, text);
    fill_fields(&mut memory, res, plan, text)?;
    Ok(memory)
}

/// The segments of data that aren't empty, in order of their addresses: one that is only read, and one that is written, whose zeroed
/// sections and commons have no bytes in the file (ELF64, "Program Header"). Or the first record in record order whose field in data
/// doesn't hold its value, which is told with it (ELFv2 ABI, "Relocation Types Table"). Text sections lie at the addresses of `text`.
pub fn data_bytes(
    alloc: Global,
    res: &Resolved,
    plan: &DataPlan,
    text: &Places,
) -> Result<Vec<Segment>, Refusal>
    requires { AreOfFiles res.now.files plan.now text.now.sections }
    ensures refusal { Answers result
        (data_overflow res.now.files plan.now.span text.now.sections) }
    ensures segments { IfOk result (λ segments.
        AreDataSegments res.now.files plan.now.span text.now.sections segments.items) }
{
    // none of the files is refused
    let _files = res.set().file_count();
    let ends = plan.ends();
    let memory = data_memory(alloc, res, plan, text)?;
    let (read_only, writable) = memory.into_parts();
    let mut list = Vec::new(alloc);
    push_segment(&mut list, READ_ONLY, read_only, IMAGE_START, ends.read_only)?;
    push_segment(
        &mut list,
        WRITABLE,
        writable,
        ends.writable_start,
        ends.commons,
    )?;
    Ok(list)
}
