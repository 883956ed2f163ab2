// Values of relocation records, where data lies by a plan and text sections lie at addresses that are given.
ghost use Rattle.std.specs.Prelude.{◌≡◌, ◌<◌, ◌+◌, ◌%◌, ◌^◌, Some, IsSome, length, pos, unwrap_or, slice_index};
ghost use Rattle.elf64_records.specs.FileHeader.{e_shnum};
ghost use Rattle.elf64_records.specs.Records.{rela_of};
ghost use Rattle.elf64_records.specs.Symbols.{symbol_count};
ghost use Rattle.object_set.specs.Files.{file_at};
ghost use Rattle.object_set.specs.Walks.{IsRecord};
ghost use Rattle.reloc_fields.specs.Table.{line_of};
ghost use Rattle.symbol_table.specs.Fields.{kind_numbered};
ghost use Rattle.symbol_table.specs.Records.{is_slot_kind, looks_at_symbol};
ghost use Rattle.symbol_table.specs.laws.Sections.{IsAbout};
ghost use Rattle.symbol_table.specs.Targets.{target_of};
ghost use Rattle.toc_groups.specs.Plans.{IsLaidTarget, address_in};
ghost use Rattle.toc_groups.specs.Values.{code_address, symbol_address, section_place, field_address, source_address, record_value, passes};
ghost use Rattle.toc_groups.specs.Contents.{AreOfFiles};
ghost use Rattle.toc_groups.specs.inside.Values.{IsPlacedTarget};

use crate::plan::DataPlan;
use elf64_records::Rela;
use layout_rounds::Places;
use object_set::RecordId;
use reloc_fields::{Kind, check, value_of};
use symbol_table::{Piece, Resolved, Target};

/// The address of a place in text.
fn code_address(text: &Places, target: Target) -> u64
    requires { IsPlacedTarget text.now.sections target }
    ensures { result ≡ code_address text.now.sections target }
{
    match target {
        Target::Code { section, offset } => text.section_at(section).wrapping_add(offset),
        Target::Data { .. } | Target::Number(_) | Target::TocBase { .. } | Target::WeakNone(_) => 0,
    }
}

/// The address of a target, in data or in text, or the number that it is.
pub fn address_of(plan: &DataPlan, text: &Places, target: Target) -> u64
    requires laid { IsLaidTarget plan.now target }
    requires placed { IsPlacedTarget text.now.sections target }
    ensures { result ≡
        unwrap_or (address_in plan.now target) (code_address text.now.sections target) }
{
    match plan.address(target) {
        Some(address) => address,
        None => code_address(text, target),
    }
}

/// The address of a symbol that stands for something, modulo 2^64: of a place in data by the plan, of a place in text by the addresses of
/// text sections, of `.TOC.` the base of the symbol's file, and 0 of a weak symbol that stands for nothing (ELFv2 ABI, "Relocation
/// Notations": S).
pub fn symbol_address(res: &Resolved, plan: &DataPlan, text: &Places, file: u32, symbol: u32) -> u64
    requires of_files { AreOfFiles res.now.files plan.now text.now.sections }
    requires file { file < length res.now.files }
    requires symbol { symbol < symbol_count (file_at res.now.files file) }
    requires stands { IsSome (target_of res.now.files file symbol (pos 0)) }
    ensures { result ≡
        symbol_address res.now.files plan.now.span text.now.sections file symbol }
{
    // none of the files is refused
    let _files = res.set().file_count();
    address_of(plan, text, res.target(file, symbol, 0))
}

/// Where a section of a file lies, in text or in data.
fn section_place(res: &Resolved, plan: &DataPlan, text: &Places, file: u32, section: u32) -> u64
    requires of_files { AreOfFiles res.now.files plan.now text.now.sections }
    requires file { file < length res.now.files }
    requires section { section < e_shnum (file_at res.now.files file) }
    ensures { result ≡
        section_place res.now.files plan.now.span text.now.sections file section }
{
    match res.text_number(file, section) {
        Some(number) => text.section_at(number),
        None => plan.piece_address(Piece::Section(file, section)),
    }
}

/// What a record says.
pub fn record_of(res: &Resolved, id: RecordId) -> Rela
    requires { IsRecord res.now.files id }
    ensures offset { let b = file_at res.now.files id.file in
        result.offset ≡ (rela_of b id.table id.entry).offset }
    ensures kind { let b = file_at res.now.files id.file in
        result.kind ≡ (rela_of b id.table id.entry).kind }
    ensures symbol { let b = file_at res.now.files id.file in
        result.symbol ≡ (rela_of b id.table id.entry).symbol }
    ensures addend { let b = file_at res.now.files id.file in
        result.addend ≡ (rela_of b id.table id.entry).addend }
    ensures known { result.symbol < symbol_count (file_at res.now.files id.file) }
{
    res.set().view(id.file).rela(id.table, id.entry)
}

/// The addend of a record.
fn addend_of(res: &Resolved, id: RecordId) -> i64
    requires { IsRecord res.now.files id }
    ensures { let b = file_at res.now.files id.file in
        result ≡ (rela_of b id.table id.entry).addend }
{
    record_of(res, id).addend
}

/// The section that a record is about, which is one of its file.
pub fn section_of(res: &Resolved, id: RecordId) -> u32
    requires { IsRecord res.now.files id }
    ensures section { result ≡ id.section }
    ensures about { IsAbout (file_at res.now.files id.file) result }
{
    // no file of a set is refused
    let _files = res.set().file_count();
    id.section
}

/// The address of a record's field.
pub fn field_address(res: &Resolved, plan: &DataPlan, text: &Places, id: RecordId) -> u64
    requires of_files { AreOfFiles res.now.files plan.now text.now.sections }
    requires record { IsRecord res.now.files id }
    ensures { result ≡
        field_address res.now.files plan.now.span text.now.sections id }
{
    let section = section_of(res, id);
    let offset = record_of(res, id).offset;
    section_place(res, plan, text, id.file, section).wrapping_add(offset)
}

/// Whether a relocation loads from a slot.
fn is_slot_kind(kind: Kind) -> bool
    ensures { result ≡ is_slot_kind kind }
{
    match kind {
        Kind::GotPcrel34 => true,
        _ => false,
    }
}

/// Whether a relocation is made of its record's symbol.
fn looks_at_symbol(kind: Kind) -> bool
    ensures { result ≡ looks_at_symbol kind }
{
    match kind {
        Kind::Toc => false,
        _ => true,
    }
}

/// What a record's value begins with: where its slot lies, or its symbol.
fn source_address(res: &Resolved, plan: &DataPlan, text: &Places, id: RecordId, kind: Kind) -> u64
    requires of_files { AreOfFiles res.now.files plan.now text.now.sections }
    requires record { IsRecord res.now.files id }
    requires kind { kind_numbered (rela_of (file_at res.now.files id.file) id.table id.entry).kind
        ≡ Some kind }
    requires fills { 0 < (line_of kind).width }
    ensures { result ≡
        source_address res.now.files plan.now.span text.now.sections id kind }
{
    let symbol = record_of(res, id).symbol;
    if is_slot_kind(kind) {
        return match plan.slot(id.file, symbol) {
            Some(address) => address,
            None => 0,
        };
    }
    if looks_at_symbol(kind) {
        return symbol_address(res, plan, text, id.file, symbol);
    }
    0
}

/// The value of a record that fills a field, over whole numbers, so that nothing wraps (ELFv2 ABI, "Relocation Types Table"): of S, the
/// symbol's address or that of its slot, A, the addend, P, the field's address, and the TOC base of the file.
#[tactic(auto, unfolding(crate::specs::Values::record_value))]
pub fn record_value(
    res: &Resolved,
    plan: &DataPlan,
    text: &Places,
    id: RecordId,
    kind: Kind,
) -> i128
    requires of_files { AreOfFiles res.now.files plan.now text.now.sections }
    requires record { IsRecord res.now.files id }
    requires kind { kind_numbered (rela_of (file_at res.now.files id.file) id.table id.entry).kind
        ≡ Some kind }
    requires fills { 0 < (line_of kind).width }
    ensures { result ≡
        record_value res.now.files plan.now.span text.now.sections id kind }
{
    let source = source_address(res, plan, text, id, kind);
    let addend = addend_of(res, id);
    let place = field_address(res, plan, text, id);
    value_of(kind, source, addend, place, plan.base_of(id.file))
}

/// Whether the field of a kind holds a value.
pub fn holds_value(kind: Kind, value: i128) -> bool
    ensures { result ≡ passes (line_of kind).check value }
{
    check(kind, value).is_ok()
}
