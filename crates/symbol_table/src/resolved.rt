// What the symbols of a set of files stand for.
ghost use Rattle.std.specs.Prelude.{◌≡◌, ◌<◌, Some, None, false, IsSome, IfOk, length, slice_get};
ghost use Rattle.std.specs.Option.{option_map};
ghost use Rattle.elf64_records.specs.FileHeader.{e_shnum};
ghost use Rattle.elf64_records.specs.Symbols.{symbol_count};
ghost use Rattle.object_set.specs.Files.{file_at};
ghost use Rattle.object_set.specs.Refusals.{Answers};
ghost use Rattle.object_set.specs.Symbols.{is_local, name_of};
ghost use Rattle.symbol_table.specs.Text.{text_sections, text_number};
ghost use Rattle.symbol_table.specs.Candidates.{all_commons, common_number, stands_for};
ghost use Rattle.symbol_table.specs.Targets.{definition_of, external_target, target_of, entry_place};
ghost use Rattle.symbol_table.specs.Refusals.{resolve_refusal};
ghost use Rattle.symbol_table.specs.Resolved.{pair_of, size_pair, section_id};

use crate::candidates::Resolution;
use crate::definition::{is_defined, own_target, plus_addend};
use crate::entry::find_entry;
use crate::records::check_records;
use crate::resolutions::Resolutions;
use crate::table::name_table;
use crate::target::{CodePlace, Piece, Target};
use crate::text::TextSections;
use object_set::{ObjectSet, Refusal, SymbolId};
use std::alloc::Global;
use std::marker::Model;

/// What the symbols of a set of files stand for, and where the program is entered. Reading it takes no memory.
#[derive(Drop)]
pub struct Resolved<'a, 'b> {
    names: Resolutions<'a, 'b>,
    texts: TextSections<'a, 'b>,
    entry: CodePlace,
}

impl<'a, 'b> Model for Resolved<'a, 'b> {
    ghost use Rattle.symbol_table.specs.Resolved.{ResolvedFiles};
    ghost use Rattle.symbol_table.specs.inside.Resolved.{IsOfFiles};

    ghost Value = { ResolvedFiles };

    ghost view = { λ r. record { files = r.texts; entry = r.entry } };

    ghost invariant = { λ r. IsOfFiles r.names r.texts };
}

/// What the symbols of the files stand for, and where the program is entered; or the first name in first-seen order that has two GLOBAL
/// definitions, or else why the entry is refused (ELF64, "Symbol Table"), or else the first relocation record that is refused (ELFv2 ABI,
/// "Relocation Types").
pub fn resolve<'a, 'b>(
    alloc: Global,
    set: &'b ObjectSet<'a>,
    entry: &[u8],
) -> Result<Resolved<'a, 'b>, Refusal>
    ensures refusal { Answers result (resolve_refusal set.now entry.now) }
    ensures files { IfOk result (λ r. r.files ≡ set.now) }
    ensures entry { IfOk result (λ r. r.entry ≡ entry_place set.now entry.now) }
{
    let (table, numbers) = name_table(alloc, set)?;
    table.check_names(alloc)?;
    let texts = TextSections::of_files(alloc, set)?;
    let resolution = table.candidates(entry).resolution();
    let place = find_entry(alloc, &texts, entry, resolution)?;
    let names = Resolutions::new(alloc, set, table, numbers)?;
    let resolved = Resolved {
        names,
        texts,
        entry: place,
    };
    check_records(alloc, &resolved)?;
    Ok(resolved)
}

impl<'a, 'b> Resolved<'a, 'b> {
    /// The place where the program is entered.
    pub fn entry(&self) -> CodePlace
        ensures { result ≡ self.now.entry }
    {
        self.entry
    }

    /// The files.
    pub fn set(&self) -> &'b ObjectSet<'a>
        ensures { result.now ≡ self.now.files }
    {
        self.texts.set()
    }

    /// The number of text sections.
    pub fn text_count(&self) -> u32
        ensures { result ≡ length (text_sections self.now.files) }
    {
        self.texts.count()
    }

    /// The file and section number of a text section.
    pub fn text_of(&self, section: u32) -> (u32, u32)
        requires { section < length (text_sections self.now.files) }
        ensures { slice_get (text_sections self.now.files) section ≡ Some (section_id result) }
    {
        let id = self.texts.section_at(section);
        (id.file, id.section)
    }

    /// The number of a section among the text sections, if it is one.
    pub fn text_number(&self, file: u32, section: u32) -> Option<u32>
        requires file { file < length self.now.files }
        requires section { section < e_shnum (file_at self.now.files file) }
        ensures { result ≡ text_number self.now.files file section }
    {
        self.texts.number_of(file, section)
    }

    /// The number of commons.
    pub fn common_count(&self) -> u64
        ensures { result ≡ length (all_commons self.now.files) }
    {
        self.names.common_count()
    }

    /// The size and alignment of a common, by its number in first-seen order of the names.
    pub fn common(&self, c: u64) -> (u64, u64)
        requires { c < length (all_commons self.now.files) }
        ensures { option_map size_pair (slice_get (all_commons self.now.files) c) ≡ Some result }
    {
        let common = self.names.common(c);
        (common.size, common.align)
    }

    /// What the name of a symbol that other files see stands for.
    fn resolution_at(&self, file: u32, symbol: u32) -> Resolution
        requires file { file < length self.now.files }
        requires symbol { symbol < symbol_count (file_at self.now.files file) }
        requires external { is_local (file_at self.now.files file) symbol ≡ false }
        ensures { let name = name_of (file_at self.now.files file) symbol in
            result ≡ stands_for self.now.files name }
    {
        self.names.of_symbol(file, symbol)
    }

    /// The number of the common of the name of a symbol that other files see: how many names before it stand for a common.
    fn common_number(&self, file: u32, symbol: u32) -> u64
        requires file { file < length self.now.files }
        requires symbol { symbol < symbol_count (file_at self.now.files file) }
        requires external { is_local (file_at self.now.files file) symbol ≡ false }
        ensures { let name = name_of (file_at self.now.files file) symbol in
            result ≡ common_number self.now.files name }
    {
        self.names.common_number(file, symbol)
    }

    /// The definition for which a symbol stands.
    fn find_definition(&self, file: u32, symbol: u32) -> Option<SymbolId>
        requires file { file < length self.now.files }
        requires symbol { symbol < symbol_count (file_at self.now.files file) }
        ensures { result ≡ definition_of self.now.files file symbol }
    {
        let set = self.set();
        if symbol == 0 || set.is_toc_base(file, symbol) {
            None
        } else if set.is_local(file, symbol) {
            if is_defined(set, file, symbol) {
                Some(SymbolId { file, symbol })
            } else {
                None
            }
        } else {
            self.resolution_at(file, symbol).definition()
        }
    }

    /// The file and number of the definition for which a symbol stands. None for symbol 0, for `.TOC.`, and for a symbol that stands for
    /// a common or for nothing.
    pub fn definition(&self, file: u32, symbol: u32) -> Option<(u32, u32)>
        requires file { file < length self.now.files }
        requires symbol { symbol < symbol_count (file_at self.now.files file) }
        ensures { result ≡ option_map pair_of (definition_of self.now.files file symbol) }
    {
        match self.find_definition(file, symbol) {
            Some(definition) => Some((definition.file, definition.symbol)),
            None => None,
        }
    }

    /// Where the name of a symbol that other files see goes, with an addend.
    fn external_target(&self, file: u32, symbol: u32, addend: i64) -> Option<Target>
        requires file { file < length self.now.files }
        requires symbol { symbol < symbol_count (file_at self.now.files file) }
        requires external { is_local (file_at self.now.files file) symbol ≡ false }
        ensures { result ≡ external_target self.now.files file symbol addend }
    {
        match self.resolution_at(file, symbol) {
            Resolution::Definition(definition) => {
                own_target(&self.texts, definition.file, definition.symbol, addend)
            }
            Resolution::Common(_) => Some(Target::Data {
                piece: Piece::Common(self.common_number(file, symbol)),
                addend,
            }),
            Resolution::Undefined => {
                if self.set().is_weak(file, symbol) {
                    Some(Target::WeakNone(addend))
                } else {
                    None
                }
            }
        }
    }

    /// Where a symbol goes, with an addend, if it stands for anything.
    pub(crate) fn find_target(&self, file: u32, symbol: u32, addend: i64) -> Option<Target>
        requires file { file < length self.now.files }
        requires symbol { symbol < symbol_count (file_at self.now.files file) }
        ensures { result ≡ target_of self.now.files file symbol addend }
    {
        let set = self.set();
        if symbol == 0 {
            Some(Target::Number(plus_addend(0, addend)))
        } else if set.is_toc_base(file, symbol) {
            Some(Target::TocBase { file, addend })
        } else if set.is_local(file, symbol) {
            own_target(&self.texts, file, symbol, addend)
        } else {
            self.external_target(file, symbol, addend)
        }
    }

    /// Where a symbol goes, with an addend (ELF64, "Relocation": S + A). The symbol stands for something, is symbol 0 or `.TOC.`, or
    /// is weak.
    pub fn target(&self, file: u32, symbol: u32, addend: i64) -> Target
        requires file { file < length self.now.files }
        requires symbol { symbol < symbol_count (file_at self.now.files file) }
        requires stands { IsSome (target_of self.now.files file symbol addend) }
        ensures { target_of self.now.files file symbol addend ≡ Some result }
    {
        match self.find_target(file, symbol, addend) {
            Some(target) => target,
            None => Target::WeakNone(addend),
        }
    }
}
