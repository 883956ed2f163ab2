// Relocation records are judged in order.
ghost use Rattle.std.specs.Prelude.{◌≡◌, ◌<◌, ◌≤◌, ◌+◌, false, IfOk, Some, length};
ghost use Rattle.elf64_records.specs.FileHeader.{e_shnum};
ghost use Rattle.elf64_records.specs.Records.{rela_of};
ghost use Rattle.elf64_records.specs.Sections.{section_bytes};
ghost use Rattle.elf64_records.specs.Symbols.{symbol_count};
ghost use Rattle.object_set.specs.Files.{file_at};
ghost use Rattle.object_set.specs.Refusals.{Answers};
ghost use Rattle.object_set.specs.Symbols.{name_of};
ghost use Rattle.object_set.specs.Walks.{IsRecord};
ghost use Rattle.symbol_table.specs.Fields.{kind_numbered};
ghost use Rattle.symbol_table.specs.Text.{text_number};
ghost use Rattle.symbol_table.specs.laws.Sections.{IsAbout};
ghost use Rattle.symbol_table.specs.Records.{site_of, is_outside, is_unfit, is_in_prologue, is_left_out, may_go, target_refusal, kind_refusal, record_refusal, records_refusal};
ghost use Rattle.symbol_table.specs.inside.Records.{IsFilling, LiesIn, table_refusal, file_records_refusal};

use crate::branches::{may_branch, may_call};
use crate::fields::kind_numbered;
use crate::names::owned;
use crate::prologue::Prologues;
use crate::resolved::Resolved;
use crate::sites::{is_thread_local, rule_of};
use crate::target::Target;
use elf64_records::Rela;
use object_set::{RecordId, Refusal, Site};
use reloc_fields::{Kind, width};
use std::alloc::{AllocError, Global};
use std::marker::Model;

/// The relocation records of a file while they are judged. Contracts see the file.
#[derive(Drop)]
struct FileRecords<'r, 'a, 'b> {
    resolved: &'r Resolved<'a, 'b>,
    prologues: Prologues<'a, 'b>,
}

impl<'r, 'a, 'b> Model for FileRecords<'r, 'a, 'b> {
    ghost use Rattle.symbol_table.specs.inside.Fields.{FileOf};
    ghost use Rattle.symbol_table.specs.inside.Resolved.{IsOfFiles};

    ghost Value = { FileOf };

    ghost view = { λ r. r.prologues };

    ghost invariant = { λ r. IsOfFiles r.prologues.files r.resolved.now.files };
}

impl<'r, 'a, 'b> FileRecords<'r, 'a, 'b> {
    /// Those of a file.
    fn of_file(alloc: Global, resolved: &'r Resolved<'a, 'b>, file: u32) -> Result<Self, AllocError>
        requires { file < length resolved.now.files }
        ensures { IfOk result (λ r. r ≡ record { files = resolved.entry.now.files; file = file }) }
    {
        let set = resolved.set();
        // no file of a set is refused
        let _files = set.file_count();
        Ok(FileRecords {
            resolved,
            prologues: Prologues::of_file(alloc, set, file)?,
        })
    }

    /// What a record says.
    fn rela(&self, id: RecordId) -> Rela
        requires { IsRecord self.now.files id }
        ensures offset { let b = file_at self.now.files id.file in
            result.offset ≡ (rela_of b id.table id.entry).offset }
        ensures kind { let b = file_at self.now.files id.file in
            result.kind ≡ (rela_of b id.table id.entry).kind }
        ensures symbol { let b = file_at self.now.files id.file in
            result.symbol ≡ (rela_of b id.table id.entry).symbol }
        ensures addend { let b = file_at self.now.files id.file in
            result.addend ≡ (rela_of b id.table id.entry).addend }
        ensures known { result.symbol < symbol_count (file_at self.now.files id.file) }
    {
        let view = self.resolved.set().view(id.file);
        view.rela(id.table, id.entry)
    }

    /// The place of a record, and of its field.
    fn site(&self, id: RecordId) -> Site
        requires { IsRecord self.now.files id }
        ensures { result ≡ site_of (file_at self.now.files id.file) id }
    {
        Site {
            file: id.file,
            table: id.table,
            entry: id.entry,
            section: id.section,
            offset: self.rela(id).offset,
        }
    }

    /// The section that a record is about.
    fn section(&self, id: RecordId) -> u32
        requires { IsRecord self.now.files id }
        ensures section { result ≡ id.section }
        ensures about { IsAbout (file_at self.now.files id.file) result }
    {
        // no file of a set is refused
        let _files = self.resolved.set().file_count();
        id.section
    }

    /// Whether a record's field stands in a section of another sort than it may, or passes its end.
    fn is_outside(&self, id: RecordId, kind: Kind, bytes: &[u8]) -> bool
        requires filling { IsFilling self.now.files self.now.file id kind }
        requires bytes { bytes.now ≡ section_bytes (file_at self.now.files id.file) id.section }
        ensures outside { result ≡ is_outside (file_at self.now.files id.file) id kind }
        ensures within { result ≡ false → LiesIn self.now.files id kind bytes.now }
    {
        let set = self.resolved.set();
        let section = self.section(id);
        if !rule_of(kind).stand.admits(set.sort_of(id.file, section)) {
            return true;
        }
        let size = set.view(id.file).section_header(section).size;
        let width = u64::from(width(kind));
        size < width || size - width < self.rela(id).offset
    }

    /// Whether a record's field fills an instruction and isn't at one, has bytes of an earlier record's, or is on words that don't suit.
    #[tactic(auto, using(crate::proofs::JudgedRecords::words_fit))]
    fn is_unfit(&self, id: RecordId, kind: Kind, bytes: &[u8]) -> bool
        requires filling { IsFilling self.now.files self.now.file id kind }
        requires bytes { bytes.now ≡ section_bytes (file_at self.now.files id.file) id.section }
        requires within { LiesIn self.now.files id kind bytes.now }
        ensures { result ≡ is_unfit (file_at self.now.files id.file) id kind }
    {
        let rule = rule_of(kind);
        let start = self.rela(id).offset;
        (rule.stand.is_text_only() && start % 4 != 0)
            || self.prologues.fields().overlaps_earlier(id)
            || !rule.words.suit(bytes, start as usize)
    }

    /// Whether the word at an offset of a section is one of the two of a recognised prologue.
    fn is_in_prologue(&self, section: u32, at: u64) -> bool
        requires { section < e_shnum (file_at self.now.files self.now.file) }
        ensures { let b = file_at self.now.files self.now.file in
            result ≡ is_in_prologue self.now.file b section at }
    {
        self.prologues.is_recognised(section, at)
            || (4 <= at && self.prologues.is_recognised(section, at - 4))
    }

    /// Whether a record asks for what is left out.
    #[tactic(auto, using(crate::proofs::JudgedRecords::words_fit))]
    fn is_left_out(&self, id: RecordId, kind: Kind, bytes: &[u8]) -> bool
        requires filling { IsFilling self.now.files self.now.file id kind }
        requires bytes { bytes.now ≡ section_bytes (file_at self.now.files id.file) id.section }
        requires within { LiesIn self.now.files id kind bytes.now }
        ensures { result ≡ is_left_out (file_at self.now.files id.file) id kind }
    {
        let rela = self.rela(id);
        match kind {
            Kind::Rel16Ha | Kind::Rel16Lo => { !self.is_in_prologue(self.section(id), rela.offset) }
            Kind::GotPcrel34 => rela.addend != 0,
            _ => rule_of(kind)
                .words
                .are_left_out(bytes, rela.offset as usize),
        }
    }

    /// Whether a record's relocation may go to a target.
    fn may_go(&self, id: RecordId, kind: Kind, target: Target) -> bool
        requires { IsRecord self.now.files id }
        ensures { let own = text_number self.now.files id.file id.section in
            result ≡ may_go self.now.files own kind target }
    {
        match kind {
            Kind::Rel24 | Kind::Rel24Notoc => may_call(self.resolved, target),
            Kind::Rel14 => {
                let own = self.resolved.text_number(id.file, self.section(id));
                may_branch(self.resolved, own, target)
            }
            _ => true,
        }
    }

    /// The name of a symbol other than symbol 0.
    fn name(&self, file: u32, symbol: u32) -> &'a [u8]
        requires file { file < length self.now.files }
        requires some { 0 < symbol }
        requires within { symbol < symbol_count (file_at self.now.files file) }
        ensures { result.now ≡ name_of (file_at self.now.files file) symbol }
    {
        self.resolved.set().view(file).symbol(symbol).name
    }

    /// Refuses a record for its target.
    fn check_target(&self, alloc: Global, id: RecordId, kind: Kind) -> Result<(), Refusal>
        requires filling { IsFilling self.now.files self.now.file id kind }
        ensures { Answers result (target_refusal self.now.files id kind) }
    {
        if kind == Kind::Toc {
            return Ok(());
        }
        let rela = self.rela(id);
        match self.resolved.find_target(id.file, rela.symbol, rela.addend) {
            None => {
                let name = self.name(id.file, rela.symbol);
                Err(Refusal::Unresolved(owned(alloc, name)?, self.site(id)))
            }
            Some(target) if self.may_go(id, kind, target) => Ok(()),
            Some(_) => Err(Refusal::NotCode(self.site(id))),
        }
    }

    /// Refuses a record of a known kind.
    #[tactic(auto, unfolding(crate::specs::Records::kind_refusal))]
    fn check_kind(
        &self,
        alloc: Global,
        id: RecordId,
        kind: Kind,
        bytes: &[u8],
    ) -> Result<(), Refusal>
        requires record { IsRecord self.now.files id }
        requires file { id.file ≡ self.now.file }
        requires kind { let b = file_at self.now.files id.file in
            kind_numbered (rela_of b id.table id.entry).kind ≡ Some kind }
        requires bytes { bytes.now ≡ section_bytes (file_at self.now.files id.file) id.section }
        ensures { Answers result (kind_refusal self.now.files id kind) }
    {
        if width(kind) == 0 {
            return Ok(());
        }
        if self.is_outside(id, kind, bytes) || self.is_unfit(id, kind, bytes) {
            return Err(Refusal::BadSite(self.site(id)));
        }
        if self.is_left_out(id, kind, bytes) {
            return Err(Refusal::UnsupportedAt(self.site(id)));
        }
        self.check_target(alloc, id, kind)
    }

    /// Refuses a record, where the bytes of the section that it is about are given.
    #[tactic(auto, unfolding(crate::specs::Records::record_refusal))]
    fn check_record(&self, alloc: Global, id: RecordId, bytes: &[u8]) -> Result<(), Refusal>
        requires record { IsRecord self.now.files id }
        requires file { id.file ≡ self.now.file }
        requires bytes { bytes.now ≡ section_bytes (file_at self.now.files id.file) id.section }
        ensures { Answers result (record_refusal self.now.files id) }
    {
        let number = self.rela(id).kind;
        if is_thread_local(number) {
            return Err(Refusal::TlsAt(self.site(id)));
        }
        match kind_numbered(number) {
            Some(kind) => self.check_kind(alloc, id, kind, bytes),
            None => Err(Refusal::UnknownReloc(self.site(id), number)),
        }
    }

    /// Refuses the first of the records that a section holds.
    #[tactic(auto, using(elf64_records::specs::laws::First::walk_step))]
    fn check_table(&self, alloc: Global, table: u32) -> Result<(), Refusal>
        requires { table < e_shnum (file_at self.now.files self.now.file) }
        ensures { Answers result (table_refusal self.now.files self.now.file table) }
    {
        let file = self.prologues.fields().file();
        let view = self.resolved.set().view(file);
        let count = view.record_count(table);
        if count == 0 {
            return Ok(());
        }
        let first = RecordId {
            file,
            table,
            entry: 0,
            section: view.section_header(table).info,
        };
        let bytes = view.section(self.section(first)).bytes;
        for entry in 0..count {
            self.check_record(alloc, RecordId { entry, ..first }, bytes)?;
        }
        Ok(())
    }
}

/// Refuses the first of the records of a file.
#[tactic(auto, using(elf64_records::specs::laws::First::walk_step))]
fn check_file(alloc: Global, resolved: &Resolved, file: u32) -> Result<(), Refusal>
    requires { file < length resolved.now.files }
    ensures { Answers result (file_records_refusal resolved.now.files file) }
{
    let records = FileRecords::of_file(alloc, resolved, file)?;
    for table in 0..resolved.set().view(file).section_count() {
        records.check_table(alloc, table)?;
    }
    Ok(())
}

/// Refuses the first record in record order: by file, by the section that holds it, by position.
#[tactic(auto, using(elf64_records::specs::laws::First::walk_step))]
pub fn check_records(alloc: Global, resolved: &Resolved) -> Result<(), Refusal>
    ensures { Answers result (records_refusal resolved.now.files) }
{
    for file in 0..resolved.set().file_count() {
        check_file(alloc, resolved, file)?;
    }
    Ok(())
}
