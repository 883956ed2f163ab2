// Each field of each structure of an object file set to 0, to 1, to its greatest value and to the file's length, and so for two
// fields that stand beside each other: what the view answers is compared with a second reading of the file, which goes byte by byte and fault by fault in the stated
// order, and whose sums can't wrap.
ghost use Rattle.std.specs.Prelude.{◌≡◌, ◌<◌, ◌≤◌, length};
ghost use Rattle.elf64_records.specs.FileHeader.{e_shnum};
ghost use Rattle.elf64_records.specs.Symbols.{symbol_count};
ghost use Rattle.elf64_records.specs.Records.{record_count};

use super::{Change, RECORDS, change, smallest_with};
use crate::{ElfFault, ObjectView, Place};
use std::alloc::Global;
use std::test::Fail;

/// The number of so many bytes at a place. What lies past the end counts as zero.
fn number(b: &[u8], at: u128, width: usize) -> u128 {
    let mut number = 0u128;
    for k in 0..width {
        let place = at.saturating_add((width - 1 - k) as u128);
        let byte = match usize::try_from(place) {
            Ok(place) => b.get(place).copied().unwrap_or(0),
            Err(_) => 0,
        };
        number = number.wrapping_mul(256).wrapping_add(u128::from(byte));
    }
    number
}

/// A number that is a count or an index, which is below 2^32.
fn small_number(n: u128) -> u32 {
    u32::try_from(n).unwrap_or(u32::MAX)
}

/// A number in the header of a section.
fn header_number(b: &[u8], i: u32, at: u128, width: usize) -> u128 {
    let place = u128::from(i).saturating_mul(64).saturating_add(at);
    number(b, number(b, 40, 8).saturating_add(place), width)
}

/// The type that a section counts as.
fn kind(b: &[u8], i: u32) -> u128 {
    if i == 0 {
        return 0;
    }
    header_number(b, i, 4, 4)
}

/// How many sections there are.
fn sections(b: &[u8]) -> u32 {
    small_number(number(b, 60, 2))
}

/// The section of this number is a string table.
fn is_names(b: &[u8], i: u128) -> bool {
    i < u128::from(sections(b)) && kind(b, small_number(i)) == 3
}

/// The section of this number is kept.
fn is_kept(b: &[u8], i: u128) -> bool {
    i != 0 && header_number(b, small_number(i), 8, 8) & 2 != 0
}

/// A part of the file, or nothing where it passes the end.
fn part(b: &[u8], from: u128, size: u128) -> &[u8] {
    let from = from.min(0xFFFF_FFFF) as usize;
    let size = size.min(0xFFFF_FFFF) as usize;
    b.get(from..from.saturating_add(size)).unwrap_or(&[])
}

/// The bytes of a section.
fn bytes(b: &[u8], i: u32) -> &[u8] {
    let stored = kind(b, i) != 0 && kind(b, i) != 8;
    let size = if stored {
        header_number(b, i, 32, 8)
    } else {
        0
    };
    part(b, header_number(b, i, 24, 8), size)
}

/// Whether a name at a place of a table of names ends.
fn ends(table: &[u8], start: u128) -> bool {
    let start = start.min(0xFFFF_FFFF) as usize;
    table.iter().skip(start).any(|c| *c == 0)
}

/// Whether the name at a place of a table of names is this one.
fn is_name(table: &[u8], start: u128, name: &[u8]) -> bool {
    let same = part(table, start, name.len() as u128) == name;
    let end = part(table, start.saturating_add(name.len() as u128), 1);
    same && end == b"\x00".as_slice() && !name.contains(&0)
}

/// What is wrong with the file header.
fn check_header(b: &[u8]) -> Result<(), ElfFault> {
    if b.get(..4) != Some(b"\x7fELF".as_slice()) {
        return Err(ElfFault::NotElf);
    }
    if b.len() < 64 {
        return Err(ElfFault::BadTable(Place::File));
    }
    let identified = b.get(4..7) == Some(b"\x02\x01\x01".as_slice());
    if !identified || number(b, 18, 2) != 21 || number(b, 20, 4) != 1 {
        return Err(ElfFault::NotPpc64Le);
    }
    if number(b, 16, 2) == 3 {
        return Err(ElfFault::SharedObject);
    }
    if number(b, 16, 2) != 1 {
        return Err(ElfFault::NotObject);
    }
    if number(b, 48, 4) != 0 && number(b, 48, 4) != 2 {
        return Err(ElfFault::BadAbi);
    }
    let end = number(b, 60, 2).saturating_mul(64);
    let end = end.saturating_add(number(b, 40, 8));
    let stands = number(b, 58, 2) == 64 && number(b, 60, 2) != 0 && end <= b.len() as u128;
    if !stands || !is_names(b, number(b, 62, 2)) {
        return Err(ElfFault::BadTable(Place::File));
    }
    Ok(())
}

/// The first section whose bytes pass the end of the file.
fn check_ranges(b: &[u8]) -> Result<(), ElfFault> {
    for i in 1..sections(b) {
        let end = header_number(b, i, 24, 8).saturating_add(header_number(b, i, 32, 8));
        if kind(b, i) != 0 && kind(b, i) != 8 && end > b.len() as u128 {
            return Err(ElfFault::BadTable(Place::Section(i)));
        }
    }
    Ok(())
}

/// The table of the sections' names.
fn section_names(b: &[u8]) -> &[u8] {
    bytes(b, small_number(number(b, 62, 2)))
}

/// The first section whose name doesn't end.
fn check_names(b: &[u8]) -> Result<(), ElfFault> {
    for i in 1..sections(b) {
        if !ends(section_names(b), header_number(b, i, 0, 4)) {
            return Err(ElfFault::BadTable(Place::Section(i)));
        }
    }
    Ok(())
}

/// The symbol table, or 0.
fn symbol_table(b: &[u8]) -> u32 {
    for i in 1..sections(b) {
        if kind(b, i) == 2 {
            return i;
        }
    }
    0
}

/// A second symbol table.
fn check_second(b: &[u8]) -> Result<(), ElfFault> {
    for i in 1..sections(b) {
        if kind(b, i) == 2 && i != symbol_table(b) {
            return Err(ElfFault::BadTable(Place::Section(i)));
        }
    }
    Ok(())
}

/// Whether a section holds entries of 24 bytes.
fn has_entries(b: &[u8], i: u32) -> bool {
    header_number(b, i, 56, 8) == 24 && header_number(b, i, 32, 8) % 24 == 0
}

/// How many symbols there are.
fn symbols(b: &[u8]) -> u32 {
    if symbol_table(b) == 0 {
        return 0;
    }
    small_number(header_number(b, symbol_table(b), 32, 8) / 24)
}

/// A number in the entry of a symbol.
fn symbol_number(b: &[u8], j: u32, at: u128, width: usize) -> u128 {
    let place = u128::from(j).saturating_mul(24).saturating_add(at);
    let start = header_number(b, symbol_table(b), 24, 8);
    number(b, start.saturating_add(place), width)
}

/// The table of the symbols' names.
fn symbol_names(b: &[u8]) -> &[u8] {
    bytes(b, small_number(header_number(b, symbol_table(b), 40, 4)))
}

/// What is wrong with the symbol table, or the first symbol whose name doesn't end.
fn check_symbols(b: &[u8]) -> Result<(), ElfFault> {
    let table = symbol_table(b);
    if table == 0 {
        return Ok(());
    }
    if !has_entries(b, table) || !is_names(b, header_number(b, table, 40, 4)) {
        return Err(ElfFault::BadTable(Place::Section(table)));
    }
    for j in 0..symbols(b) {
        if !ends(symbol_names(b), symbol_number(b, j, 0, 4)) {
            return Err(ElfFault::BadTable(Place::Symbol(j)));
        }
    }
    Ok(())
}

/// A number in a record.
fn record_number(b: &[u8], i: u32, k: u32, at: u128, width: usize) -> u128 {
    let place = u128::from(k).saturating_mul(24).saturating_add(at);
    number(b, header_number(b, i, 24, 8).saturating_add(place), width)
}

/// How many records of a kept section a section holds.
fn records(b: &[u8], i: u32) -> u32 {
    if kind(b, i) != 4 || !is_kept(b, header_number(b, i, 44, 4)) {
        return 0;
    }
    small_number(header_number(b, i, 32, 8) / 24)
}

/// What is wrong with a section of records, or the first of them that names no symbol.
fn check_table(b: &[u8], i: u32) -> Result<(), ElfFault> {
    if header_number(b, i, 44, 4) >= u128::from(sections(b)) {
        return Err(ElfFault::BadTable(Place::Section(i)));
    }
    if !is_kept(b, header_number(b, i, 44, 4)) {
        return Ok(());
    }
    let table = symbol_table(b);
    let linked = table != 0 && header_number(b, i, 40, 4) == u128::from(table);
    if !has_entries(b, i) || !linked {
        return Err(ElfFault::BadTable(Place::Section(i)));
    }
    for k in 0..records(b, i) {
        if record_number(b, i, k, 12, 4) >= u128::from(symbols(b)) {
            return Err(ElfFault::BadTable(Place::Record(i, k)));
        }
    }
    Ok(())
}

/// The first fault of the sections of records.
fn check_records(b: &[u8]) -> Result<(), ElfFault> {
    for i in 1..sections(b) {
        if kind(b, i) == 4 {
            check_table(b, i)?;
        }
    }
    Ok(())
}

/// The first fault of a file.
fn check(b: &[u8]) -> Result<(), ElfFault> {
    check_header(b)?;
    check_ranges(b)?;
    check_names(b)?;
    check_second(b)?;
    check_symbols(b)?;
    check_records(b)
}

/// The view tells the same of a section.
fn is_section(view: &ObjectView, b: &[u8], i: u32) -> bool
    requires { i < e_shnum view.now }
{
    let s = view.section(i);
    let named = if i == 0 {
        s.name.is_empty()
    } else {
        is_name(section_names(b), header_number(b, i, 0, 4), s.name)
    };
    let h = view.section_header(i);
    named
        && view.section_is_named(i, s.name)
        && u128::from(s.kind) == header_number(b, i, 4, 4)
        && u128::from(s.flags) == header_number(b, i, 8, 8)
        && u128::from(s.size) == header_number(b, i, 32, 8)
        && u128::from(s.link) == header_number(b, i, 40, 4)
        && u128::from(s.info) == header_number(b, i, 44, 4)
        && u128::from(s.align) == header_number(b, i, 48, 8)
        && s.bytes == bytes(b, i)
        && (h.kind, h.flags, h.size) == (s.kind, s.flags, s.size)
        && (h.link, h.info, h.align) == (s.link, s.info, s.align)
}

/// The same of a record.
fn is_record(view: &ObjectView, b: &[u8], i: u32, k: u32) -> bool
    requires section { i < e_shnum view.now }
    requires record { k < record_count view.now i }
{
    let r = view.rela(i, k);
    u128::from(r.offset) == record_number(b, i, k, 0, 8)
        && u128::from(r.kind) == record_number(b, i, k, 8, 4)
        && u128::from(r.symbol) == record_number(b, i, k, 12, 4)
        && u128::from(r.addend.cast_unsigned()) == record_number(b, i, k, 16, 8)
}

/// The same of all records in a section.
fn are_records(view: &ObjectView, b: &[u8], i: u32) -> bool
    requires { i < e_shnum view.now }
{
    for k in 0..view.record_count(i) {
        if !is_record(view, b, i, k) {
            return false;
        }
    }
    view.record_count(i) == records(b, i)
}

/// The same of all sections.
fn are_sections(view: &ObjectView, b: &[u8]) -> bool {
    for i in 0..view.section_count() {
        if !is_section(view, b, i) || !are_records(view, b, i) {
            return false;
        }
    }
    view.section_count() == sections(b)
}

/// The same of a symbol.
fn is_symbol(view: &ObjectView, b: &[u8], j: u32) -> bool
    requires { j < symbol_count view.now }
{
    let s = view.symbol(j);
    let e = view.symbol_entry(j);
    is_name(symbol_names(b), symbol_number(b, j, 0, 4), s.name)
        && view.symbol_is_named(j, s.name)
        && view.symbol_name_place(j) as u128 == symbol_number(b, j, 0, 4)
        && u128::from(s.info) == symbol_number(b, j, 4, 1)
        && u128::from(s.other) == symbol_number(b, j, 5, 1)
        && u128::from(s.shndx) == symbol_number(b, j, 6, 2)
        && u128::from(s.value) == symbol_number(b, j, 8, 8)
        && u128::from(s.size) == symbol_number(b, j, 16, 8)
        && (e.info, e.other, e.shndx) == (s.info, s.other, s.shndx)
        && (e.value, e.size) == (s.value, s.size)
}

/// The same of all symbols.
fn are_symbols(view: &ObjectView, b: &[u8]) -> bool {
    for j in 0..view.symbol_count() {
        if !is_symbol(view, b, j) {
            return false;
        }
    }
    view.symbol_count() == symbols(b)
}

/// Both readings of a file are the same.
fn is_read_alike(b: &[u8]) -> bool
    requires { length b.now ≤ 544 }
{
    match (ObjectView::read(b), check(b)) {
        (Ok(view), Ok(())) => are_sections(&view, b) && are_symbols(&view, b),
        (Err(fault), Err(slow)) => fault == slow,
        _ => false,
    }
}

/// The fields of the file header by their places and widths.
const HEADER: [(u16, u8); 17] = [
    (0, 4),
    (4, 1),
    (5, 1),
    (6, 1),
    (16, 2),
    (18, 2),
    (20, 4),
    (24, 8),
    (32, 8),
    (40, 8),
    (48, 4),
    (52, 2),
    (54, 2),
    (56, 2),
    (58, 2),
    (60, 2),
    (62, 2),
];

/// Those of a section header.
const SECTION: [(u16, u8); 10] = [
    (0, 4),
    (4, 4),
    (8, 8),
    (16, 8),
    (24, 8),
    (32, 8),
    (40, 4),
    (44, 4),
    (48, 8),
    (56, 8),
];

/// Those of a symbol.
const SYMBOL: [(u16, u8); 6] = [(0, 4), (4, 1), (5, 1), (6, 2), (8, 8), (16, 8)];

/// Those of a record, with r_info in its halves.
const RECORD: [(u16, u8); 4] = [(0, 8), (8, 4), (12, 4), (16, 8)];

/// Where a structure begins in the smallest file with records, and its fields.
const STRUCTURES: [(u16, &[(u16, u8)]); 10] = [
    (0, &HEADER),
    (176, &SECTION),
    (240, &SECTION),
    (304, &SECTION),
    (368, &SECTION),
    (432, &SECTION),
    (80, &SYMBOL),
    (104, &SYMBOL),
    (496, &RECORD),
    (520, &RECORD),
];

/// What a field is set to: the greatest value is cut to the field's width.
const VALUES: [u64; 4] = [0, 1, u64::MAX, 544];

/// How many changes stand near one: those of a field and of the next.
const NEAR: usize = 8;

/// Each field with each value.
fn all_changes(alloc: Global) -> Result<Vec<Change>, Fail> {
    let mut changes = Vec::new(alloc);
    for (start, fields) in STRUCTURES {
        for (at, width) in fields {
            for value in VALUES {
                changes.push((start.saturating_add(*at), *width, value))?;
            }
        }
    }
    Ok(changes)
}

#[test]
fn each_field_is_read_as_a_second_reader_does(rt: HostRuntime) -> Result<(), Fail> {
    let changes = all_changes(rt.alloc())?;
    assert_eq!(rt; changes.len(), 348);
    for (row, first) in changes.iter().enumerate() {
        let mut b = smallest_with(&RECORDS);
        change(&mut b, *first);
        assert!(rt; is_read_alike(&b), "row {row}");
    }
    Ok(())
}

#[test]
fn two_fields_are_read_as_a_second_reader_does(rt: HostRuntime) -> Result<(), Fail> {
    let changes = all_changes(rt.alloc())?;
    for (row, first) in changes.iter().enumerate() {
        let mut changed = smallest_with(&RECORDS);
        change(&mut changed, *first);
        for second in changes.iter().skip(row).take(NEAR) {
            let mut b = changed;
            change(&mut b, *second);
            assert!(rt; is_read_alike(&b), "row {row}");
        }
    }
    Ok(())
}

#[test]
fn a_file_that_is_cut_off_is_read_as_a_second_reader_does(rt: HostRuntime) {
    let b = smallest_with(&RECORDS);
    for length in 0..545 {
        assert!(rt; is_read_alike(&b[..length]), "of {length} bytes");
    }
}
