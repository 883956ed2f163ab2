// What the relocation records, calls and pairs of a job say of each word of its text.
ghost use Rattle.std.specs.Prelude.{◌≡◌, ◌<◌, ◌+◌, ◌-◌, ◌*◌, ◌/◌, ◌^◌, ℕ, List, [], ◌∷◌, Some, None, IfOk, length, slice_get};
ghost use Rattle.elf64_records.specs.FileHeader.{e_shnum};
ghost use Rattle.object_set.specs.declared.places.RecordId.{RecordId};
ghost use Rattle.object_set.specs.Files.{file_at};
ghost use Rattle.object_set.specs.Walks.{IsRecord};
ghost use Rattle.reloc_fields.specs.Table.{line_of};
ghost use Rattle.symbol_table.specs.Records.{records_refusal};
ghost use Rattle.symbol_table.specs.Text.{text_sections};
ghost use Rattle.call_sites.specs.Sites.{text_section};
ghost use Rattle.pcrel_rewrite.specs.Words.{IsNear};
ghost use Rattle.pcrel_rewrite.specs.declared.text_pairs.TextPair.{TextPair};
ghost use Rattle.plain_run.specs.declared.marks.Mark.{Mark};
ghost use Rattle.plain_run.specs.Standing.{has_toc, saves_base};
ghost use Rattle.plain_run.specs.inside.Marks.{AreTexts, AreMarked, AreMarkable, AllTell, HasMark, IsMarkedAs, IsTextField, LeftOf, NoneLeft, mark_in, met_mark, touched, with_mark, start_of, unmarked_section, unmarked_sections, field_record, call_number, is_free};

use call_sites::{CallSite, Sites, text_section};
use object_set::{RecordId, SectionId};
use pcrel_rewrite::{Pairs, TextPair};
use reloc_fields::{Kind, width};
use std::alloc::{AllocError, Global};
use std::marker::Model;
use stub_kinds::Class;
use symbol_table::{Resolved, kind_numbered};
use toc_groups::record_of;

/// What is known of a word of text from the start.
#[derive(Clone, Copy)]
pub enum Mark {
    /// No field has bytes of it.
    Word,

    /// A field has bytes of it, but none begins with it.
    Touched,

    /// A field begins with it that is no call's: that of a record, by the section that holds the record and its position there.
    Field {
        /// The section.
        table: u32,
        /// The position.
        entry: u32,
    },

    /// A call, by its number in site order.
    Call(u32),

    /// The access of a recognised pair, so many bytes behind its load.
    Access(u32),
}

impl Mark {
    /// The record of the field with which the word begins, by the section that holds it and its position there; unless it is a call's.
    pub fn field(self) -> Option<(u32, u32)>
        ensures { result ≡ field_record self }
    {
        match self {
            Mark::Field { table, entry } => Some((table, entry)),
            _ => None,
        }
    }

    /// The number of the call, if it is one.
    pub fn call(self) -> Option<u32>
        ensures { result ≡ call_number self }
    {
        match self {
            Mark::Call(number) => Some(number),
            _ => None,
        }
    }

    /// Whether no field has bytes of the word.
    pub fn is_free(self) -> bool
        ensures { result ≡ is_free self }
    {
        match self {
            Mark::Word | Mark::Access(_) => true,
            Mark::Touched | Mark::Field { .. } | Mark::Call(_) => false,
        }
    }

    /// The mark where a field has bytes of the word also.
    fn touched(self) -> Mark
        ensures { result ≡ touched self }
    {
        match self {
            Mark::Word => Mark::Touched,
            other => other,
        }
    }
}

/// A text section: its file and number, its alignment, its bytes, and what is known of each of its words.
#[derive(Drop)]
pub struct SectionText<'a> {
    id: SectionId,
    align: u64,
    bytes: &'a [u8],
    marks: Vec<Mark>,
}

impl<'a> Model for SectionText<'a> {
    ghost use Rattle.plain_run.specs.inside.Marks.{MarkedSection};

    ghost Value = { MarkedSection };

    ghost view = { λ s. record { id = s.id; align = s.align; bytes = s.bytes.now; marks = s.marks.items } };
}

impl<'a> SectionText<'a> {
    /// A text section of which nothing is known but its words.
    fn unmarked(
        alloc: Global,
        res: &Resolved<'a, '_>,
        number: u32,
    ) -> Result<SectionText<'a>, AllocError>
        requires { number < length (text_sections res.now.files) }
        ensures { IfOk result (λ s.
            s ≡ unmarked_section res.now.files (text_section res.now.files number)) }
    {
        let id = text_section(res, number);
        let bytes = res.set().view(id.file).section(id.section).bytes;
        let align = res.set().align_of(id.file, id.section);
        let marks = vec![in alloc; Mark::Word; bytes.len() / 4]?;
        Ok(SectionText {
            id,
            align,
            bytes,
            marks,
        })
    }

    /// Its file, and its number there.
    pub fn id(&self) -> SectionId
        ensures { result ≡ self.now.id }
    {
        self.id
    }

    /// Its alignment.
    pub fn align(&self) -> u64
        ensures { result ≡ self.now.align }
    {
        self.align
    }

    /// Its bytes.
    pub fn bytes(&self) -> &'a [u8]
        ensures { result.now ≡ self.now.bytes }
    {
        self.bytes
    }

    /// The mark of a word, if it has that.
    pub fn mark(&self, word: u64) -> Option<Mark>
        ensures { result ≡ slice_get self.now.marks word }
    {
        if word < self.marks.len() as u64 {
            Some(self.marks[word as usize])
        } else {
            None
        }
    }

    /// Marks a word.
    fn set(&mut self, word: u64, mark: Mark)
        requires { word < length self.old.marks }
        ensures { self.new ≡ with_mark self.old word mark }
    {
        self.marks[word as usize] = mark;
    }
}

/// Whether a call of this class is one of a caller that has a TOC base in r2.
pub fn has_toc(class: Class) -> bool
    ensures { result ≡ has_toc class }
{
    match class {
        Class::Same | Class::Switch | Class::Save | Class::EntrySave | Class::EntryBare => true,
        Class::NearN | Class::EntryN => false,
    }
}

/// Whether a call saves the TOC base of its caller, which the restore slot behind it gives back.
pub fn saves_base(site: &CallSite) -> bool
    ensures { result ≡ saves_base site.now }
{
    match site.class {
        Some(class) => site.slot && has_toc(class),
        None => false,
    }
}

/// The text sections of a job.
fn unmarked_sections<'a>(
    alloc: Global,
    res: &Resolved<'a, '_>,
) -> Result<Vec<SectionText<'a>>, AllocError>
    ensures { IfOk result (λ v. v.items ≡ unmarked_sections res.now.files) }
{
    let mut sections = Vec::new(alloc);
    for number in 0..res.text_count() {
        sections.push(SectionText::unmarked(alloc, res, number)?)?;
    }
    Ok(sections)
}

/// The mark of a word of a section.
fn mark_at(sections: &[SectionText], number: u32, word: u64) -> Mark
    requires { HasMark sections.now number word }
    ensures { mark_in sections.now number word ≡ Some result }
{
    match sections[number as usize].mark(word) {
        Some(mark) => mark,
        None => Mark::Word,
    }
}

/// Marks a word of a section.
fn set_mark(sections: &mut Vec<SectionText>, number: u32, word: u64, mark: Mark)
    requires { HasMark sections.old.items number word }
    ensures { IsMarkedAs sections.old.items sections.new.items number word mark }
{
    sections[number as usize].set(word, mark);
}

/// Marks a word of which the field of a record has bytes that begins at an offset.
fn mark_word(sections: &mut Vec<SectionText>, number: u32, word: u64, id: RecordId, start: u64)
    requires mark { HasMark sections.old.items number word }
    requires word { word * 4 < 2 ^ 64 }
    ensures { (x : Mark) → mark_in sections.old.items number word ≡ Some x →
        IsMarkedAs sections.old.items sections.new.items number word
        (met_mark id start word x) }
{
    let mark = if word * 4 == start {
        Mark::Field {
            table: id.table,
            entry: id.entry,
        }
    } else {
        mark_at(sections, number, word).touched()
    };
    set_mark(sections, number, word, mark);
}

/// The words of which the field of a record has bytes: the first, and the one behind the last.
fn words_of(res: &Resolved, number: u32, id: RecordId, kind: Kind) -> (u64, u64)
    requires records { records_refusal res.now.files ≡ None }
    requires field { IsTextField res.now.files id kind number }
    ensures first { result.0 ≡ start_of res.now.files id / 4 }
    ensures end { result.1 ≡ (start_of res.now.files id + (line_of kind).width - 1) / 4 + 1 }
{
    // none of the files is refused
    let _files = res.set().file_count();
    let start = record_of(res, id).offset;
    let last = start + u64::from(width(kind)) - 1;
    (start / 4, last / 4 + 1)
}

/// Marks the words of which the field of a record in text has bytes.
fn mark_field(
    sections: &mut Vec<SectionText>,
    res: &Resolved,
    number: u32,
    id: RecordId,
    kind: Kind,
)
    requires records { records_refusal res.now.files ≡ None }
    requires texts { AreTexts res.now.files sections.old.items }
    requires field { IsTextField res.now.files id kind number }
    ensures texts { AreTexts res.now.files sections.new.items }
    ensures marks { (pairs : List TextPair) (rest : List RecordId) →
        AllTell res.now.files pairs (LeftOf (id ∷ rest)) 0 0 sections.old.items →
        AllTell res.now.files pairs (LeftOf rest) 0 0 sections.new.items }
{
    // none of the files is refused
    let _files = res.set().file_count();
    let start = record_of(res, id).offset;
    let (first, end) = words_of(res, number, id, kind);
    for word in first..end {
        mark_word(sections, number, word, id, start);
    }
}

/// Marks the words of which the field of a record has bytes, if it is one in text.
fn mark_record(sections: &mut Vec<SectionText>, res: &Resolved, id: RecordId)
    requires records { records_refusal res.now.files ≡ None }
    requires texts { AreTexts res.now.files sections.old.items }
    requires record { IsRecord res.now.files id }
    ensures texts { AreTexts res.now.files sections.new.items }
    ensures marks { (pairs : List TextPair) (rest : List RecordId) →
        AllTell res.now.files pairs (LeftOf (id ∷ rest)) 0 0 sections.old.items →
        AllTell res.now.files pairs (LeftOf rest) 0 0 sections.new.items }
{
    // none of the files is refused
    let _files = res.set().file_count();
    let number = match res.text_number(id.file, id.section) {
        Some(number) => number,
        None => return,
    };
    let kind = match kind_numbered(record_of(res, id).kind) {
        Some(kind) => kind,
        None => return,
    };
    if width(kind) > 0 {
        mark_field(sections, res, number, id, kind);
    }
}

/// Marks the words of which fields have bytes.
fn mark_records(sections: &mut Vec<SectionText>, res: &Resolved)
    requires records { records_refusal res.now.files ≡ None }
    requires texts { sections.old.items ≡ unmarked_sections res.now.files }
    ensures texts { AreTexts res.now.files sections.new.items }
    ensures marks { (pairs : List TextPair) →
        AllTell res.now.files pairs NoneLeft 0 0 sections.new.items }
{
    for id in res.set().records() {
        mark_record(sections, res, id);
    }
}

/// Marks the calls.
fn mark_calls(sections: &mut Vec<SectionText>, res: &Resolved, sites: &Sites, pairs: &Pairs)
    requires job { AreMarkable res.now.files sites.now pairs.now }
    requires texts { AreTexts res.now.files sections.old.items }
    requires marks { AllTell res.now.files pairs.now NoneLeft 0 0 sections.old.items }
    ensures texts { AreTexts res.now.files sections.new.items }
    ensures marks { AllTell res.now.files pairs.now NoneLeft (length sites.now) 0
        sections.new.items }
{
    // none of the files is refused
    let _files = res.set().file_count();
    for number in 0..sites.count() {
        let site = sites.at(number);
        set_mark(sections, site.section, site.offset / 4, Mark::Call(number));
    }
}

/// How far the access of a pair stands behind its load.
fn distance(pair: &TextPair) -> u32
    requires near { IsNear pair.now.head pair.now.tail }
    ensures { pair.now.tail ≡ pair.now.head + result }
{
    (pair.tail - pair.head) as u32
}

/// Marks the accesses of recognised pairs.
fn mark_pairs(sections: &mut Vec<SectionText>, res: &Resolved, sites: &Sites, pairs: &Pairs)
    requires job { AreMarkable res.now.files sites.now pairs.now }
    requires texts { AreTexts res.now.files sections.old.items }
    requires marks { AllTell res.now.files pairs.now NoneLeft (length sites.now) 0
        sections.old.items }
    ensures texts { AreTexts res.now.files sections.new.items }
    ensures marks { AllTell res.now.files pairs.now NoneLeft (length sites.now)
        (length pairs.now) sections.new.items }
{
    // none of the files is refused
    let _files = res.set().file_count();
    for pair in pairs.as_slice() {
        let mark = Mark::Access(distance(pair));
        set_mark(sections, pair.section, pair.tail / 4, mark);
    }
}

/// The text sections of a job, marked.
pub fn marked_sections<'a>(
    alloc: Global,
    res: &Resolved<'a, '_>,
    sites: &Sites,
    pairs: &Pairs,
) -> Result<Vec<SectionText<'a>>, AllocError>
    requires { AreMarkable res.now.files sites.now pairs.now }
    ensures { IfOk result (λ v. AreMarked res.now.files pairs.now v.items) }
{
    // none of the files is refused
    let _files = res.set().file_count();
    let mut sections = unmarked_sections(alloc, res)?;
    mark_records(&mut sections, res);
    mark_calls(&mut sections, res, sites, pairs);
    mark_pairs(&mut sections, res, sites, pairs);
    Ok(sections)
}
