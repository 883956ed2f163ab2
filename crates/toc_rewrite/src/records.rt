// What relocation records say of the files whose data has addresses.
ghost use Rattle.std.specs.Prelude.{◌≡◌, ◌<◌, ◌≤◌, ◌+◌, Some, IfSome, IfOk, true, not};
ghost use Rattle.elf64_records.specs.Records.{rela_of};
ghost use Rattle.elf64_records.specs.Sections.{section_bytes};
ghost use Rattle.elf64_records.specs.Symbols.{symbol_count};
ghost use Rattle.object_set.specs.Files.{file_at};
ghost use Rattle.object_set.specs.Walks.{IsRecord};
ghost use Rattle.symbol_table.specs.Fields.{kind_numbered};
ghost use Rattle.symbol_table.specs.Records.{is_prologue_kind};
ghost use Rattle.symbol_table.specs.laws.Sections.{IsAbout};
ghost use Rattle.toc_rewrite.specs.Records.{facts_of, kind_of, word_at, goes, record_target, record_number, is_of_prologue};
ghost use Rattle.toc_rewrite.specs.Folds.{is_unsuited, loads_only};
ghost use Rattle.toc_rewrite.specs.inside.Laid.{IsTargetOf, IsFileOf};
ghost use Rattle.toc_rewrite.specs.inside.Tables.{is_toc_user};

use crate::asked::AskedPrologues;
use crate::laid::Laid;
use crate::words::{only_loads, suits};
use elf64_records::Rela;
use object_set::RecordId;
use ppc_bytes::word_at;
use reloc_fields::{Kind, width};
use std::alloc::{AllocError, Global};
use symbol_table::{Target, kind_numbered};

/// Whether a relocation of a kind goes somewhere.
fn goes(kind: Kind) -> bool
    ensures { result ≡ goes kind }
{
    width(kind) != 0 && !matches!(kind, Kind::Toc)
}

/// Whether relocations of a kind stand in recognised prologues alone.
fn is_prologue_kind(kind: Kind) -> bool
    ensures { result ≡ is_prologue_kind kind }
{
    matches!(kind, Kind::Rel16Ha | Kind::Rel16Lo)
}

impl<'l, 'a, 'b> Laid<'l, 'a, 'b> {
    /// What a record says.
    pub fn facts(&self, id: RecordId) -> Rela
        requires { IsRecord self.now.files id }
        ensures offset { result.offset ≡ (facts_of self.now.files id).offset }
        ensures kind { result.kind ≡ (facts_of self.now.files id).kind }
        ensures symbol { result.symbol ≡ (facts_of self.now.files id).symbol }
        ensures addend { result.addend ≡ (facts_of self.now.files id).addend }
        ensures known { result.symbol < symbol_count (file_at self.now.files id.file) }
    {
        let view = self.resolved().set().view(id.file);
        view.rela(id.table, id.entry)
    }

    /// The section that a record is about.
    pub fn section(&self, id: RecordId) -> u32
        requires { IsRecord self.now.files id }
        ensures section { result ≡ id.section }
        ensures about { IsAbout (file_at self.now.files id.file) result }
    {
        // no file of a set is refused
        let _files = self.resolved().set().file_count();
        id.section
    }

    /// The kind of a record's relocation.
    pub fn kind(&self, id: RecordId) -> Kind
        requires { IsRecord self.now.files id }
        ensures { kind_of self.now.files id ≡ Some result }
    {
        // no record is refused
        let _resolved = self.resolved();
        match kind_numbered(self.facts(id).kind) {
            Some(kind) => kind,
            None => Kind::None,
        }
    }

    /// Where a record goes.
    pub fn target(&self, id: RecordId) -> Option<Target>
        requires { IsRecord self.now.files id }
        ensures target { result ≡ record_target self.now.files id }
        ensures known { IfSome result (IsTargetOf self.now.files) }
    {
        let res = self.resolved();
        let _files = res.set().file_count();
        if !goes(self.kind(id)) {
            return None;
        }
        let rela = self.facts(id);
        Some(res.target(id.file, rela.symbol, rela.addend))
    }

    /// The number to which a record goes, if it isn't a place in text.
    pub fn number(&self, id: RecordId) -> Option<u64>
        requires { IsRecord self.now.files id }
        ensures { result ≡ record_number self.now id }
    {
        match self.target(id) {
            Some(target) => self.number_of(target),
            None => None,
        }
    }

    /// The word on which a record of a TOC load stands, where the bytes of its section are given.
    fn word(&self, id: RecordId, kind: Kind, bytes: &[u8]) -> u32
        requires record { IsRecord self.now.files id }
        requires kind { kind_of self.now.files id ≡ Some kind }
        requires user { is_toc_user kind ≡ true }
        requires bytes { bytes.now ≡ section_bytes (file_at self.now.files id.file) id.section }
        ensures { result ≡ word_at self.now.files id }
    {
        let _resolved = self.resolved();
        let _files = self.resolved().set().file_count();
        word_at(bytes, self.facts(id).offset as usize)
    }

    /// Whether an orderly file may have a record on its word, where the bytes of its section are given.
    pub fn is_suited(&self, id: RecordId, bytes: &[u8]) -> bool
        requires record { IsRecord self.now.files id }
        requires bytes { bytes.now ≡ section_bytes (file_at self.now.files id.file) id.section }
        ensures { let files = self.now.files in
            result ≡ not (is_unsuited (kind_of files id) (word_at files id)) }
    {
        let kind = self.kind(id);
        match kind {
            Kind::Toc16Ha | Kind::Toc16Lo | Kind::Toc16LoDs => {
                suits(kind, self.word(id, kind, bytes))
            }
            _ => true,
        }
    }

    /// Whether a record on its word uses what it names for nothing but to load it, where the bytes of its section are given.
    pub fn loads_only(&self, id: RecordId, bytes: &[u8]) -> bool
        requires record { IsRecord self.now.files id }
        requires bytes { bytes.now ≡ section_bytes (file_at self.now.files id.file) id.section }
        ensures { let files = self.now.files in
            result ≡ loads_only (kind_of files id) (word_at files id) }
    {
        let kind = self.kind(id);
        match kind {
            Kind::Toc16LoDs => only_loads(kind, self.word(id, kind, bytes)),
            Kind::Toc16Ha | Kind::Toc16Ds => true,
            _ => false,
        }
    }

    /// Whether a record is one of the two of a recognised prologue, where its file can be asked for its prologues.
    pub fn is_of_prologue(
        &self,
        alloc: Global,
        prologues: &mut AskedPrologues,
        id: RecordId,
    ) -> Result<bool, AllocError>
        requires record { IsRecord self.now.files id }
        requires prologues { IsFileOf prologues.old self.now.files id.file }
        ensures is { IfOk result (λ is. is ≡ is_of_prologue self.now.files id) }
        ensures same { prologues.new ≡ prologues.old }
    {
        let rela = self.facts(id);
        if !self.resolved().set().is_toc_base(id.file, rela.symbol) {
            return Ok(false);
        }
        // elsewhere a record of these kinds is refused
        if is_prologue_kind(self.kind(id)) {
            return Ok(true);
        }
        let section = self.section(id);
        if prologues.is_recognised(alloc, section, rela.offset)? {
            return Ok(true);
        }
        if rela.offset < 4 {
            return Ok(false);
        }
        prologues.is_recognised(alloc, section, rela.offset - 4)
    }
}
