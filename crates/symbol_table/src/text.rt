// The text sections of a set of files, numbered in order of file and section.
ghost use Rattle.std.specs.Prelude.{◌≡◌, ◌≤◌, ◌<◌, ◌++◌, ◌+◌, Some, IfOk, OnOk, length, slice_get, slice_index};
ghost use Rattle.elf64_records.specs.FileHeader.{e_shnum};
ghost use Rattle.object_set.specs.Files.{file_at};
ghost use Rattle.object_set.specs.Walks.{items_before};
ghost use Rattle.symbol_table.specs.Text.{text_walk, text_index, text_number, text_at, text_sections};
ghost use Rattle.symbol_table.specs.inside.Text.{AreFileIndexes};

use object_set::{ObjectSet, SectionId};
use std::alloc::{AllocError, Global};
use std::marker::Model;

/// How many text sections can be numbered. 4096 files have far fewer.
const MOST_SECTIONS: usize = 0xFFFF_FFFF;

/// How many text sections stand before each section of a file. Contracts see the list of these.
#[derive(Drop)]
struct TextIndexes {
    items: Vec<u32>,
}

impl Model for TextIndexes {
    ghost use Rattle.std.specs.Prelude.{ℕ, List};

    ghost Value = { List ℕ };

    ghost view = { λ p. p.items.items };
}

impl TextIndexes {
    /// How many text sections stand before a section.
    fn of_section(&self, section: u32) -> u32
        requires { section < length self.now }
        ensures { result ≡ slice_index self.now section }
    {
        self.items[section as usize]
    }
}

/// Puts a section behind others, where it is text.
fn push_text(
    texts: &mut Vec<SectionId>,
    set: &ObjectSet,
    file: u32,
    section: u32,
) -> Result<(), AllocError>
    requires file { file < length set.now }
    requires section { section < e_shnum (file_at set.now file) }
    ensures { OnOk result (
        texts.new.items ≡ texts.old.items ++ text_at file (file_at set.now file) section) }
{
    if set.sort_of(file, section).is_text() {
        texts.push(SectionId { file, section })?;
    }
    Ok(())
}

/// Puts the text sections of a file behind those of the files before it, and says how many stand before each of its sections.
fn push_file(
    alloc: Global,
    texts: &mut Vec<SectionId>,
    set: &ObjectSet,
    file: u32,
) -> Result<TextIndexes, AllocError>
    requires file { file < length set.now }
    requires before { texts.old.items ≡ items_before text_walk set.now file }
    ensures texts { OnOk result (texts.new.items ≡ items_before text_walk set.now (file + 1)) }
    ensures indexes { IfOk result (AreFileIndexes set.now file) }
{
    let mut items = Vec::new(alloc);
    for section in 0..set.view(file).section_count() {
        if texts.len() > MOST_SECTIONS {
            return Err(AllocError);
        }
        items.push(texts.len() as u32)?;
        push_text(texts, set, file, section)?;
    }
    Ok(TextIndexes { items })
}

/// The text sections of a set of files, each with its file's number, in order of file and section. Contracts see the files.
#[derive(Drop)]
pub struct TextSections<'a, 'b> {
    set: &'b ObjectSet<'a>,
    items: Vec<SectionId>,
    indexes: Vec<TextIndexes>,
}

impl<'a, 'b> Model for TextSections<'a, 'b> {
    ghost use Rattle.std.specs.Prelude.{List, ℕ};
    ghost use Rattle.symbol_table.specs.inside.Text.{AreNumberedTexts};

    ghost Value = { List (List ℕ) };

    ghost view = { λ t. t.set.now };

    ghost invariant = { λ t. AreNumberedTexts t.set.now t.items.items t.indexes.items };
}

impl<'a, 'b> TextSections<'a, 'b> {
    /// The text sections of these files.
    pub fn of_files(alloc: Global, set: &'b ObjectSet<'a>) -> Result<Self, AllocError>
        ensures { IfOk result (λ texts. texts ≡ set.now) }
    {
        let mut items = Vec::new(alloc);
        let mut indexes = Vec::new(alloc);
        for file in 0..set.file_count() {
            let row = push_file(alloc, &mut items, set, file)?;
            indexes.push(row)?;
        }
        if items.len() > MOST_SECTIONS {
            return Err(AllocError);
        }
        Ok(TextSections {
            set,
            items,
            indexes,
        })
    }

    /// The files.
    pub fn set(&self) -> &'b ObjectSet<'a>
        ensures { result.now ≡ self.now }
    {
        self.set
    }

    /// How many there are.
    pub fn count(&self) -> u32
        ensures { result ≡ length (text_sections self.now) }
    {
        self.items.len() as u32
    }

    /// The file and section number of a text section.
    pub fn section_at(&self, number: u32) -> SectionId
        requires { number < length (text_sections self.now) }
        ensures { slice_get (text_sections self.now) number ≡ Some result }
    {
        self.items[number as usize]
    }

    /// How many text sections stand before a section of a file.
    pub fn index_of(&self, file: u32, section: u32) -> u32
        requires file { file < length self.now }
        requires section { section < e_shnum (file_at self.now file) }
        ensures { result ≡ text_index self.now file section }
    {
        self.indexes[file as usize].of_section(section)
    }

    /// The number of a section among the text sections, if it is one.
    pub fn number_of(&self, file: u32, section: u32) -> Option<u32>
        requires file { file < length self.now }
        requires section { section < e_shnum (file_at self.now file) }
        ensures { result ≡ text_number self.now file section }
    {
        if self.set.sort_of(file, section).is_text() {
            Some(self.index_of(file, section))
        } else {
            None
        }
    }
}
