// Walks through the sections, the symbols and the records of a set in order. They take no memory and copy no bytes.
ghost use Rattle.std.specs.Prelude.{◌≡◌, MatchOption};
ghost use Rattle.std.specs.Iterator.{YieldsFirst, item_count};
ghost use Rattle.object_set.specs.Walks.{all_items, section_walk, symbol_walk, record_walk};
ghost use Rattle.object_set.specs.inside.Cursor.{pair_walk, count_of};

use crate::places::{RecordId, SectionId, SymbolId};
use crate::set::ObjectSet;
use elf64_records::ObjectView;
use std::marker::Model;

/// What a cursor counts in each file.
#[derive(Clone, Copy)]
enum Numbers {
    /// Its sections.
    Sections,
    /// Its symbols.
    Symbols,
}

impl Numbers {
    /// How many of them a file has.
    fn count(self, view: &ObjectView) -> u32
        ensures { result ≡ count_of self view.now }
    {
        match self {
            Numbers::Sections => view.section_count(),
            Numbers::Symbols => view.symbol_count(),
        }
    }
}

/// A place in a set from which on files and numbers are left, as whose list contracts see it.
#[derive(Drop)]
struct Cursor<'s, 'a> {
    set: &'s ObjectSet<'a>,
    numbers: Numbers,
    /// The file of the next number, if it has one left.
    file: u32,
    /// The next number there.
    number: u32,
    /// How many numbers that file has.
    end: u32,
    /// The file after it.
    next: u32,
}

impl<'s, 'a> Model for Cursor<'s, 'a> {
    ghost use Rattle.std.specs.Prelude.{List, ℕ};

    ghost Value = { List (ℕ × ℕ) };

    ghost use Rattle.object_set.specs.inside.Cursor.{pairs_left, IsWithin};

    ghost view = { λ c. pairs_left c.numbers c.set.now c.file c.number c.end c.next };

    ghost invariant = { λ c. IsWithin c.set.now c.number c.end c.next };
}

impl<'s, 'a> Cursor<'s, 'a> {
    /// The cursor at the start of a set.
    fn new(set: &'s ObjectSet<'a>, numbers: Numbers) -> Cursor<'s, 'a>
        ensures { result ≡ all_items (pair_walk numbers) set.entry.now }
    {
        Cursor {
            set,
            numbers,
            file: 0,
            number: 0,
            end: 0,
            next: 0,
        }
    }

    /// The next file and number, which the cursor passes.
    fn advance(&mut self) -> Option<(u32, u32)>
        ensures { YieldsFirst (λ pairs. pairs) self.old result self.new }
    {
        while self.number == self.end {
            if self.next == self.set.file_count() {
                return None;
            }
            self.file = self.next;
            self.number = 0;
            self.end = self.numbers.count(self.set.view(self.file));
            self.next += 1;
        }
        let place = (self.file, self.number);
        self.number += 1;
        Some(place)
    }
}

/// The sections of a set that are left, section 0 of each file among them, as whose list contracts see it.
#[derive(Drop)]
pub struct SectionIds<'s, 'a> {
    cursor: Cursor<'s, 'a>,
}

impl<'s, 'a> Model for SectionIds<'s, 'a> {
    ghost use Rattle.std.specs.Prelude.{List, map};
    ghost use Rattle.object_set.specs.declared.places.SectionId.{SectionId};

    ghost Value = { List SectionId };

    ghost use Rattle.object_set.specs.inside.Cursor.{section_id};

    ghost view = { λ s. map section_id s.cursor };
}

impl<'s, 'a> Iterator for SectionIds<'s, 'a> {
    type Item = SectionId;

    ghost next_gives = { YieldsFirst (λ sections. sections) };

    ghost remaining = { item_count (λ sections. sections) };

    fn next(&mut self) -> Option<SectionId> {
        match self.cursor.advance() {
            Some((file, section)) => Some(SectionId { file, section }),
            None => None,
        }
    }
}

/// The symbols of a set that are left, symbol 0 of each file among them, as whose list contracts see it.
#[derive(Drop)]
pub struct SymbolIds<'s, 'a> {
    cursor: Cursor<'s, 'a>,
}

impl<'s, 'a> Model for SymbolIds<'s, 'a> {
    ghost use Rattle.std.specs.Prelude.{List, map};
    ghost use Rattle.object_set.specs.declared.places.SymbolId.{SymbolId};

    ghost Value = { List SymbolId };

    ghost use Rattle.object_set.specs.inside.Cursor.{symbol_id};

    ghost view = { λ s. map symbol_id s.cursor };
}

impl<'s, 'a> Iterator for SymbolIds<'s, 'a> {
    type Item = SymbolId;

    ghost next_gives = { YieldsFirst (λ symbols. symbols) };

    ghost remaining = { item_count (λ symbols. symbols) };

    fn next(&mut self) -> Option<SymbolId> {
        match self.cursor.advance() {
            Some((file, symbol)) => Some(SymbolId { file, symbol }),
            None => None,
        }
    }
}

/// The relocation records of kept sections that are left, as whose list contracts see them.
#[derive(Drop)]
pub struct RecordIds<'s, 'a> {
    set: &'s ObjectSet<'a>,
    sections: SectionIds<'s, 'a>,
    /// The next record, if its section has one left.
    next: RecordId,
    /// How many records that section holds.
    end: u32,
}

impl<'s, 'a> Model for RecordIds<'s, 'a> {
    ghost use Rattle.std.specs.Prelude.{List};
    ghost use Rattle.object_set.specs.declared.places.RecordId.{RecordId};

    ghost Value = { List RecordId };

    ghost use Rattle.object_set.specs.inside.Records.{all_records_left, AreWithin};

    ghost view = { λ r. all_records_left r.set.now r.next r.end r.sections };

    ghost invariant = { λ r. AreWithin r.set.now r.next r.end r.sections };
}

impl<'s, 'a> RecordIds<'s, 'a> {
    /// The next record, which the walk passes.
    fn advance(&mut self) -> Option<RecordId>
        ensures { YieldsFirst (λ records. records) self.old result self.new }
    {
        while self.next.entry == self.end {
            match self.sections.next() {
                Some(SectionId { file, section }) => {
                    let view = self.set.view(file);
                    self.end = view.record_count(section);
                    self.next = RecordId {
                        file,
                        table: section,
                        entry: 0,
                        section: view.section_header(section).info,
                    };
                }
                None => return None,
            }
        }
        let record = self.next;
        self.next.entry += 1;
        Some(record)
    }
}

impl<'s, 'a> Iterator for RecordIds<'s, 'a> {
    type Item = RecordId;

    ghost next_gives = { YieldsFirst (λ records. records) };

    ghost remaining = { item_count (λ records. records) };

    fn next(&mut self) -> Option<RecordId> {
        self.advance()
    }
}

impl<'a> ObjectSet<'a> {
    /// All sections in order of file and number, section 0 of each file among them.
    pub fn sections<'s>(&'s self) -> SectionIds<'s, 'a>
        ensures { result ≡ all_items section_walk self.entry.now }
    {
        SectionIds {
            cursor: Cursor::new(self, Numbers::Sections),
        }
    }

    /// All symbols in order of file and number, symbol 0 of each file among them.
    pub fn symbols<'s>(&'s self) -> SymbolIds<'s, 'a>
        ensures { result ≡ all_items symbol_walk self.entry.now }
    {
        SymbolIds {
            cursor: Cursor::new(self, Numbers::Symbols),
        }
    }

    /// The relocation records of kept sections in record order: by file, by the section that holds them, by position.
    pub fn records<'s>(&'s self) -> RecordIds<'s, 'a>
        ensures { result ≡ all_items record_walk self.entry.now }
    {
        RecordIds {
            set: self,
            sections: self.sections(),
            next: RecordId {
                file: 0,
                table: 0,
                entry: 0,
                section: 0,
            },
            end: 0,
        }
    }
}
