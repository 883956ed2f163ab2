// The text of a job, as the plain run reads it.
ghost use Rattle.std.specs.Prelude.{◌≡◌, ◌<◌, ◌≤◌, ◌+◌, ◌&&◌, ◌==◌, ℕ, List, IfOk, Some, None, IfSome, true, false, length, slice_get};
ghost use Rattle.std.specs.List.{Contains};
ghost use Rattle.elf64_records.specs.Records.{rela_of};
ghost use Rattle.elf64_records.specs.Sections.{section_bytes};
ghost use Rattle.object_set.specs.Files.{file_at};
ghost use Rattle.symbol_table.specs.Fields.{kind_numbered, field_of};
ghost use Rattle.symbol_table.specs.Text.{text_sections};
ghost use Rattle.call_sites.specs.inside.Ready.{files_of};
ghost use Rattle.pcrel_rewrite.specs.TextPairs.{text_pair};
ghost use Rattle.plain_run.specs.Places.{toc_ranges, may_cross};
ghost use Rattle.plain_run.specs.Standing.{form_of, file_of, section_at, word_at, is_word, fields_at, field_at, is_entry, is_base, standing_at, field_by, call_by, saving_before};
ghost use Rattle.plain_run.specs.declared.marks.Mark.{Mark};
ghost use Rattle.plain_run.specs.inside.Marks.{MarkTells, IsAccessed, IsBegun, IsFree, IsTextAt, record_at, word_place};
ghost use Rattle.plain_run.specs.Jobs.{PlainJob};
ghost use Rattle.plain_run.specs.inside.Text.{IsOfJob, IsFieldAt, IsLoadRecord, KnownAt};

use crate::marks::{Mark, SectionText, marked_sections, saves_base};
use crate::standing::Standing;
use call_sites::{CallSite, Sites};
use object_set::RecordId;
use pcrel_rewrite::Pairs;
use plain_machine::{Kept, TextPlace};
use ppc_bytes::word_at;
use reloc_fields::Kind;
use std::alloc::{AllocError, Global};
use std::marker::Model;
use symbol_table::{PrologueForm, Prologues, Resolved, kind_numbered};
use toc_groups::{DataPlan, record_of};
use toc_rewrite::Folds;

/// The text of a job, with what tells what stands at each of its places.
#[derive(Drop)]
pub struct PlainText<'p, 'a, 'b> {
    pub res: &'p Resolved<'a, 'b>,
    pub plan: &'p DataPlan,
    pub sites: &'p Sites,
    pub folds: &'p Folds,
    pub pairs: &'p Pairs,
    pub toc: Kept,
    sections: Vec<SectionText<'a>>,
    /// The prologues of each file.
    prologues: Vec<Prologues<'a, 'b>>,
}

impl<'p, 'a, 'b> Model for PlainText<'p, 'a, 'b> {
    ghost use Rattle.plain_run.specs.Jobs.{PlainJob};
    ghost use Rattle.plain_run.specs.inside.Text.{IsTextOf};

    ghost Value = { PlainJob };

    ghost view = { λ t. record { files = t.res.now.files; plan = t.plan.now; pairs = t.pairs.now } };

    ghost invariant = { λ t. IsTextOf (record {
      files = t.res.now.files;
      plan = t.plan.now;
      pairs = t.pairs.now;
    }) t.sites.now t.folds.now t.toc t.sections.items t.prologues.items };
}

/// The prologues of all files.
fn all_prologues<'a, 'b>(
    alloc: Global,
    res: &Resolved<'a, 'b>,
) -> Result<Vec<Prologues<'a, 'b>>, AllocError>
    ensures { IfOk result (λ p. p.items ≡ files_of res.now.files) }
{
    let set = res.set();
    let mut prologues = Vec::new(alloc);
    for file in 0..set.file_count() {
        prologues.push(Prologues::of_file(alloc, set, file)?)?;
    }
    Ok(prologues)
}

/// The form of a recognised prologue, by its first word.
fn form_of(word: u32) -> PrologueForm
    ensures { result ≡ form_of word }
{
    if word >> 16 == PrologueForm::FromEntry.facts().high_half {
        PrologueForm::FromEntry
    } else {
        PrologueForm::Absolute
    }
}

impl<'p, 'a, 'b> PlainText<'p, 'a, 'b> {
    /// The text of a job.
    pub fn of_job(
        alloc: Global,
        res: &'p Resolved<'a, 'b>,
        plan: &'p DataPlan,
        sites: &'p Sites,
        folds: &'p Folds,
        pairs: &'p Pairs,
        toc: Kept,
    ) -> Result<Self, AllocError>
        requires job { IsOfJob (record {
          files = res.now.files;
          plan = plan.now;
          pairs = pairs.now;
        }) sites.now folds.now }
        requires toc { toc ≡ toc_ranges res.now.files plan.now.span }
        ensures { IfOk result (λ t. t ≡ record {
          files = res.now.files;
          plan = plan.now;
          pairs = pairs.now;
        }) }
    {
        let sections = marked_sections(alloc, res, sites, pairs)?;
        let prologues = all_prologues(alloc, res)?;
        Ok(PlainText {
            res,
            plan,
            sites,
            folds,
            pairs,
            toc,
            sections,
            prologues,
        })
    }

    /// The text section of a place.
    fn section_of(&self, p: TextPlace) -> &SectionText<'a>
        requires { p.section < length (text_sections self.now.files) }
        ensures text { IsTextAt self.now.files p.section (section_at self.now.files p) result.now }
        ensures marks { (w : ℕ) (x : Mark) → slice_get result.now.marks w ≡ Some x →
            MarkTells self.now.files self.now.pairs (word_place p.section w) x }
    {
        &self.sections[p.section as usize]
    }

    /// What is known of the word at a place, if there is one.
    fn mark_at(&self, p: TextPlace) -> Option<Mark>
        ensures none { result ≡ None → is_word self.now.files p ≡ false }
        ensures some { IfSome result (λ mark. (is_word self.now.files p ≡ true)
            × MarkTells self.now.files self.now.pairs p mark) }
    {
        if p.section >= self.res.text_count() {
            return None;
        }
        if p.offset % 4 != 0 {
            return None;
        }
        self.section_of(p).mark(p.offset / 4)
    }

    /// The file of a place.
    #[tactic(auto, using(crate::proofs::TextWords::section_in))]
    pub fn file_of(&self, p: TextPlace) -> u32
        requires { is_word self.now.files p ≡ true }
        ensures file { result ≡ (section_at self.now.files p).file }
        ensures within { result < length self.now.files }
    {
        self.section_of(p).id().file
    }

    /// The bytes of a place's section.
    #[tactic(auto, using(crate::proofs::TextWords::section_in))]
    pub fn bytes_of(&self, p: TextPlace) -> &[u8]
        requires { is_word self.now.files p ≡ true }
        ensures bytes { result.now ≡
            section_bytes (file_of self.now.files p) (section_at self.now.files p).section }
        ensures within { p.offset + 4 ≤ length result.now }
    {
        self.section_of(p).bytes()
    }

    /// The word at a place.
    pub fn word_at(&self, p: TextPlace) -> u32
        requires { is_word self.now.files p ≡ true }
        ensures { result ≡ word_at self.now.files p }
    {
        word_at(self.bytes_of(p), p.offset as usize)
    }

    /// Whether a prefixed instruction at a place may cross a boundary of 64 bytes, for all that is known of where its section lies.
    #[tactic(auto, using(crate::proofs::TextWords::section_in))]
    pub fn may_cross(&self, p: TextPlace) -> bool
        requires { is_word self.now.files p ≡ true }
        ensures { result ≡ may_cross self.now.files self.now.plan p }
    {
        self.section_of(p).align() < 64 || p.offset % 64 == 60
    }

    /// Whether a word stands at a place of which no field has bytes.
    pub fn is_free(&self, p: TextPlace) -> bool
        ensures { result ≡
            (is_word self.now.files p && length (fields_at self.now.files p) == 0) }
    {
        match self.mark_at(p) {
            Some(mark) => mark.is_free(),
            None => false,
        }
    }

    /// The call at a place, if one is there.
    fn call_at(&self, p: TextPlace) -> Option<CallSite>
        requires { is_word self.now.files p ≡ true }
        ensures { result ≡ call_by self.now.files self.now.plan.groups self.now.pairs
            (field_at self.now.files p) }
    {
        match self.mark_at(p) {
            Some(mark) => match mark.call() {
                Some(number) => Some(*self.sites.at(number)),
                None => None,
            },
            None => None,
        }
    }

    /// The call before a place, if it saves its caller's TOC base.
    fn saving_before(&self, p: TextPlace) -> Option<CallSite>
        requires { is_word self.now.files p ≡ true }
        ensures { result ≡
            saving_before self.now.files self.now.plan.groups self.now.pairs p }
    {
        if p.offset < 4 {
            return None;
        }
        let before = TextPlace {
            section: p.section,
            offset: p.offset - 4,
        };
        match self.call_at(before) {
            Some(site) if saves_base(&site) => Some(site),
            _ => None,
        }
    }

    /// Whether a recognised prologue begins at a place.
    fn is_entry(&self, p: TextPlace) -> bool
        requires { p.section < length (text_sections self.now.files) }
        ensures { result ≡ is_entry self.now.files p }
    {
        let id = self.section_of(p).id();
        self.prologues[id.file as usize].is_recognised(id.section, p.offset)
    }

    /// Whether one begins with the word before.
    fn is_base(&self, p: TextPlace) -> bool
        requires { p.section < length (text_sections self.now.files) }
        ensures { result ≡ is_base self.now.files p }
    {
        p.offset >= 4
            && self.is_entry(TextPlace {
                section: p.section,
                offset: p.offset - 4,
            })
    }

    /// What stands where the field of a record of a kind begins that is no call's.
    fn field_standing(&self, p: TextPlace, id: RecordId, kind: Kind) -> Standing
        requires word { is_word self.now.files p ≡ true }
        requires field { IsFieldAt self.now.files p id kind }
        ensures standing { let f = field_of (file_at self.now.files id.file) id in result ≡
            field_by self.now.files self.now.plan.groups self.now.pairs p f kind }
        ensures known { KnownAt self.now.files self.now.pairs p result }
    {
        if self.is_entry(p) {
            Standing::Entry(form_of(self.word_at(p)))
        } else if self.is_base(p) {
            Standing::Base
        } else {
            Standing::Field { id, kind }
        }
    }

    /// A record about a section, by where it stands.
    #[tactic(auto, using(crate::proofs::TextWords::section_in))]
    fn record_at(&self, p: TextPlace, table: u32, entry: u32) -> RecordId
        requires { is_word self.now.files p ≡ true }
        ensures { result ≡ record_at self.now.files p table entry }
    {
        let id = self.section_of(p).id();
        RecordId {
            file: id.file,
            table,
            entry,
            section: id.section,
        }
    }

    /// A word with which a field begins that is no call's.
    fn begun(&self, p: TextPlace, table: u32, entry: u32) -> Standing
        requires word { is_word self.now.files p ≡ true }
        requires begun { IsBegun self.now.files p table entry }
        ensures standing { result ≡
            standing_at self.now.files self.now.plan.groups self.now.pairs p }
        ensures known { KnownAt self.now.files self.now.pairs p result }
    {
        let id = self.record_at(p, table, entry);
        match kind_numbered(record_of(self.res, id).kind) {
            Some(kind) => self.field_standing(p, id, kind),
            None => Standing::Touched,
        }
    }

    /// A word of which no field has bytes, and which is no access.
    fn own_word(&self, p: TextPlace) -> Standing
        requires word { is_word self.now.files p ≡ true }
        requires free { IsFree self.now.files self.now.pairs p }
        ensures standing { result ≡
            standing_at self.now.files self.now.plan.groups self.now.pairs p }
        ensures known { KnownAt self.now.files self.now.pairs p result }
    {
        match self.saving_before(p) {
            Some(site) => Standing::Restore(site),
            None => Standing::Word,
        }
    }

    /// The access of a recognised pair, so many bytes behind its load.
    fn access(&self, p: TextPlace, distance: u32) -> Standing
        requires word { is_word self.now.files p ≡ true }
        requires access { IsAccessed self.now.files self.now.pairs p distance }
        ensures standing { result ≡
            standing_at self.now.files self.now.plan.groups self.now.pairs p }
        ensures known { KnownAt self.now.files self.now.pairs p result }
    {
        match self.saving_before(p) {
            Some(site) => Standing::Restore(site),
            None => Standing::Access {
                head: p.offset - u64::from(distance),
            },
        }
    }

    /// What stands at a place.
    pub fn standing_at(&self, p: TextPlace) -> Standing
        ensures standing { result ≡
            standing_at self.now.files self.now.plan.groups self.now.pairs p }
        ensures known { KnownAt self.now.files self.now.pairs p result }
    {
        match self.mark_at(p) {
            None => Standing::Outside,
            Some(Mark::Word) => self.own_word(p),
            Some(Mark::Touched) => Standing::Touched,
            Some(Mark::Field { table, entry }) => self.begun(p, table, entry),
            Some(Mark::Call(number)) => Standing::Call(*self.sites.at(number)),
            Some(Mark::Access(distance)) => self.access(p, distance),
        }
    }

    /// The record of the load of a recognised pair, by its place.
    pub fn load_at(&self, p: TextPlace) -> Option<RecordId>
        requires { (tail : ℕ) × Contains self.now.pairs (text_pair p.section p.offset tail) }
        ensures { IsLoadRecord self.now.files p result }
    {
        // none of the files is refused
        let _files = self.res.set().file_count();
        match self.mark_at(p) {
            Some(mark) => match mark.field() {
                Some((table, entry)) => Some(self.record_at(p, table, entry)),
                None => None,
            },
            None => None,
        }
    }
}
