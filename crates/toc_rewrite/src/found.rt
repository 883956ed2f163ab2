// What the records of files are found to be: uses of numbers, and slots.
ghost use Rattle.std.specs.Prelude.{◌≡◌, ◌<◌, ◌++◌, ◌∷◌, [], ◌+◌, ◌^◌, ◌≤◌, true, OnOk, IfOk, IfSome, length};
ghost use Rattle.std.specs.Int.{cast_signed, w64};
ghost use Rattle.elf64_records.specs.FileHeader.{e_shnum};
ghost use Rattle.elf64_records.specs.Records.{record_count};
ghost use Rattle.elf64_records.specs.Sections.{section_bytes};
ghost use Rattle.object_set.specs.Files.{file_at};
ghost use Rattle.object_set.specs.Walks.{IsRecord, records_in, items_in, record_walk};
ghost use Rattle.symbol_table.specs.declared.target.Target.{Target};
ghost use Rattle.toc_rewrite.specs.Laid.{base_of};
ghost use Rattle.toc_rewrite.specs.Records.{record_target};
ghost use Rattle.toc_rewrite.specs.Folds.{fills_slot, slot_address, reaches_number, reaches_offset, reaches};
ghost use Rattle.toc_rewrite.specs.Folded.{slot_of};
ghost use Rattle.toc_rewrite.specs.inside.Laid.{IsTargetOf, IsFileOf};
ghost use Rattle.toc_rewrite.specs.inside.Uses.{use_of};
ghost use Rattle.toc_rewrite.specs.inside.Slots.{is_candidate, candidate_of, HasFound, HasAll};

use crate::asked::AskedPrologues;
use crate::laid::{CODE_REACH, Laid};
use crate::uses::SlotUse;
use object_set::{RecordId, Sort};
use reloc_fields::Kind;
use std::alloc::{AllocError, Global};
use symbol_table::Target;

/// A slot of the table of contents.
#[derive(Clone, Copy)]
pub struct Slot {
    /// The record that fills it.
    pub id: RecordId,
    /// Its offset in its section.
    pub offset: u64,
    /// Its address.
    pub address: u64,
}

/// What records are found to be, in record order.
#[derive(Drop)]
pub struct Found {
    /// Their uses of numbers.
    pub uses: Vec<SlotUse>,
    /// The slots that they fill with what is in reach of the TOC base.
    pub slots: Vec<Slot>,
}

/// Whether two halves reach a number from a base.
fn reaches_number(base: u64, number: Option<u64>) -> bool
    ensures { result ≡ reaches_number base number }
{
    match number {
        Some(n) => {
            let x = i128::from(n) - i128::from(base) + 0x8000;
            -0x8000_0000 <= x && x < 0x8000_0000
        }
        None => false,
    }
}

/// Whether no layout of text puts an offset out of reach.
fn reaches_offset(offset: i64) -> bool
    ensures { result ≡ reaches_offset offset }
{
    -CODE_REACH <= offset && offset <= CODE_REACH
}

impl<'l, 'a, 'b> Laid<'l, 'a, 'b> {
    /// Whether two halves reach a target from the TOC base of a file.
    fn reaches(&self, file: u32, target: Option<Target>) -> bool
        requires file { file < length self.now.files }
        requires known { IfSome target (IsTargetOf self.now.files) }
        ensures { result ≡ reaches self.now (base_of self.now file) target }
    {
        match target {
            Some(Target::Code { section: _, offset }) => reaches_offset(offset.cast_signed()),
            Some(other) => reaches_number(self.base_of(file), self.number_of(other)),
            None => false,
        }
    }

    /// Whether a record fills a slot.
    fn fills_slot(&self, id: RecordId) -> bool
        requires { IsRecord self.now.files id }
        ensures { result ≡ fills_slot self.now.files id }
    {
        matches!(self.kind(id), Kind::Addr64)
            && matches!(
                self.resolved().set().sort_of(id.file, self.section(id)),
                Sort::Toc
            )
            && self.facts(id).offset % 8 == 0
    }

    /// The slot that a record fills, where the bytes of its section are given.
    fn slot(&self, id: RecordId, bytes: &[u8]) -> Slot
        requires record { IsRecord self.now.files id }
        requires fills { fills_slot self.now.files id ≡ true }
        requires bytes { bytes.now ≡ section_bytes (file_at self.now.files id.file) id.section }
        ensures { result ≡ slot_of self.now id }
    {
        let _resolved = self.resolved();
        let _files = self.resolved().set().file_count();
        let offset = self.facts(id).offset;
        Slot {
            id,
            offset,
            address: self.section_address(id.file, id.section) + offset,
        }
    }

    /// Puts the use that a record makes of a number behind others.
    fn push_use(
        &self,
        alloc: Global,
        uses: &mut Vec<SlotUse>,
        prologues: &mut AskedPrologues,
        id: RecordId,
        bytes: &[u8],
    ) -> Result<(), AllocError>
        requires record { IsRecord self.now.files id }
        requires prologues { IsFileOf prologues.old self.now.files id.file }
        requires bytes { bytes.now ≡ section_bytes (file_at self.now.files id.file) id.section }
        ensures uses { OnOk result (uses.new.items ≡ uses.old.items ++ use_of self.now id) }
        ensures same { prologues.new ≡ prologues.old }
    {
        if let Some(number) = self.number(id) {
            if !self.is_of_prologue(alloc, prologues, id)? {
                let loader = if self.loads_only(id, bytes) {
                    Some(id.file)
                } else {
                    None
                };
                uses.push(SlotUse { number, loader })?;
            }
        }
        Ok(())
    }

    /// Puts the slot that a record fills behind others, if what it holds is in reach of the TOC base.
    fn push_slot(&self, slots: &mut Vec<Slot>, id: RecordId, bytes: &[u8]) -> Result<(), AllocError>
        requires record { IsRecord self.now.files id }
        requires bytes { bytes.now ≡ section_bytes (file_at self.now.files id.file) id.section }
        ensures { OnOk result (slots.new.items ≡ slots.old.items ++ candidate_of self.now id) }
    {
        if self.fills_slot(id) && self.reaches(id.file, self.target(id)) {
            slots.push(self.slot(id, bytes))?;
        }
        Ok(())
    }

    /// Puts what a record is found to be behind others.
    fn push_record(
        &self,
        alloc: Global,
        found: &mut Found,
        prologues: &mut AskedPrologues,
        id: RecordId,
        bytes: &[u8],
    ) -> Result<(), AllocError>
        requires record { IsRecord self.now.files id }
        requires prologues { IsFileOf prologues.old self.now.files id.file }
        requires bytes { bytes.now ≡ section_bytes (file_at self.now.files id.file) id.section }
        ensures found { OnOk result (HasFound self.now (id ∷ []) found.old found.new) }
        ensures same { prologues.new ≡ prologues.old }
    {
        self.push_use(alloc, &mut found.uses, prologues, id, bytes)?;
        self.push_slot(&mut found.slots, id, bytes)
    }

    /// Puts what the records that a section holds are found to be behind others.
    fn push_table(
        &self,
        alloc: Global,
        found: &mut Found,
        prologues: &mut AskedPrologues,
        file: u32,
        table: u32,
    ) -> Result<(), AllocError>
        requires file { file < length self.now.files }
        requires table { table < e_shnum (file_at self.now.files file) }
        requires prologues { IsFileOf prologues.old self.now.files file }
        ensures found { let b = file_at self.now.files file in
            let records = records_in file b table (record_count b table) in
            OnOk result (HasFound self.now records found.old found.new) }
        ensures same { prologues.new ≡ prologues.old }
    {
        let view = self.resolved().set().view(file);
        let count = view.record_count(table);
        if count == 0 {
            return Ok(());
        }
        let first = RecordId {
            file,
            table,
            entry: 0,
            section: view.section_header(table).info,
        };
        let bytes = view.section(self.section(first)).bytes;
        for entry in 0..count {
            self.push_record(alloc, found, prologues, RecordId { entry, ..first }, bytes)?;
        }
        Ok(())
    }

    /// Puts what the records of a file are found to be behind others.
    fn push_file(&self, alloc: Global, found: &mut Found, file: u32) -> Result<(), AllocError>
        requires { file < length self.now.files }
        ensures { let b = file_at self.now.files file in
            let records = items_in record_walk file b (e_shnum b) in
            OnOk result (HasFound self.now records found.old found.new) }
    {
        let set = self.resolved().set();
        let mut prologues = AskedPrologues::of_file(set, file);
        for table in 0..set.view(file).section_count() {
            self.push_table(alloc, found, &mut prologues, file, table)?;
        }
        Ok(())
    }

    /// What all records are found to be.
    pub fn found(&self, alloc: Global) -> Result<Found, AllocError>
        ensures { IfOk result (HasAll self.now) }
    {
        let mut found = Found {
            uses: Vec::new(alloc),
            slots: Vec::new(alloc),
        };
        for file in 0..self.resolved().set().file_count() {
            self.push_file(alloc, &mut found, file)?;
        }
        Ok(found)
    }
}
