// Where a symbol lies by itself: in text, in data, or at a number.
ghost use Rattle.std.specs.Prelude.{◌≡◌, ◌<◌, length};
ghost use Rattle.elf64_records.specs.FileHeader.{e_shnum};
ghost use Rattle.object_set.specs.Files.{file_at};
ghost use Rattle.object_set.specs.Sections.{sort_of};
ghost use Rattle.elf64_records.specs.Symbols.{symbol_count};
ghost use Rattle.symbol_table.specs.Targets.{plus_addend, own_target, section_target, is_defined, instruction_at, is_instruction};

use crate::target::{CodePlace, Piece, Target};
use crate::text::TextSections;
use object_set::{ObjectSet, Sort};

/// Whether an instruction stands at an offset of a section: in text, at a multiple of 4 below the section's size.
pub fn is_instruction(set: &ObjectSet, file: u32, section: u32, offset: u64) -> bool
    requires file { file < length set.now }
    requires section { section < e_shnum (file_at set.now file) }
    ensures { result ≡ is_instruction (file_at set.now file) section offset }
{
    set.sort_of(file, section).is_text()
        && offset % 4 == 0
        && offset < set.view(file).section_header(section).size
}

/// The place of a symbol that is an instruction.
pub fn instruction(texts: &TextSections, file: u32, j: u32) -> Option<CodePlace>
    requires file { file < length texts.now }
    requires within { j < symbol_count (file_at texts.now file) }
    ensures { result ≡ instruction_at texts.now file j }
{
    let set = texts.set();
    let offset = set.view(file).symbol_entry(j).value;
    match set.section_of(file, j) {
        Some(section) => {
            if is_instruction(set, file, section, offset) {
                let section = texts.index_of(file, section);
                Some(CodePlace { section, offset })
            } else {
                None
            }
        }
        None => None,
    }
}

/// Whether a symbol is a place or a number: it lies in a kept section, or is absolute.
pub fn is_defined(set: &ObjectSet, file: u32, j: u32) -> bool
    requires file { file < length set.now }
    requires within { j < symbol_count (file_at set.now file) }
    ensures { result ≡ is_defined (file_at set.now file) j }
{
    if set.is_absolute(file, j) {
        return true;
    }
    match set.section_of(file, j) {
        Some(section) => set.sort_of(file, section).is_kept(),
        None => false,
    }
}

/// A value and an addend, modulo 2^64.
pub fn plus_addend(value: u64, addend: i64) -> u64
    ensures { result ≡ plus_addend value addend }
{
    value.wrapping_add(addend.cast_unsigned())
}

/// Where something at an offset of a section goes: to text or to data, or nowhere if the section isn't kept.
fn section_target(texts: &TextSections, file: u32, section: u32, at: u64) -> Option<Target>
    requires file { file < length texts.now }
    requires section { section < e_shnum (file_at texts.now file) }
    ensures { let sort = sort_of (file_at texts.now file) section in
        result ≡ section_target texts.now file at section sort }
{
    match texts.set().sort_of(file, section) {
        Sort::Text => Some(Target::Code {
            section: texts.index_of(file, section),
            offset: at,
        }),
        Sort::Dropped => None,
        Sort::Zeroed | Sort::Toc | Sort::Writable | Sort::ReadOnly => Some(Target::Data {
            piece: Piece::Section(file, section),
            addend: at.cast_signed(),
        }),
    }
}

/// Where a symbol lies, with an addend.
pub fn own_target(texts: &TextSections, file: u32, j: u32, addend: i64) -> Option<Target>
    requires file { file < length texts.now }
    requires within { j < symbol_count (file_at texts.now file) }
    ensures { result ≡ own_target texts.now file j addend }
{
    let set = texts.set();
    let at = plus_addend(set.view(file).symbol_entry(j).value, addend);
    if set.is_absolute(file, j) {
        return Some(Target::Number(at));
    }
    match set.section_of(file, j) {
        Some(section) => section_target(texts, file, section, at),
        None => None,
    }
}
