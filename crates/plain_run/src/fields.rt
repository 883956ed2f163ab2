// Where records go, as values, and their values where text doesn't move them.
ghost use Rattle.std.specs.Prelude.{◌≡◌, ◌<◌, [], IfSome, IfNone, IsSome, Some, length, pos, true, false};
ghost use Rattle.elf64_records.specs.Records.{rela_of};
ghost use Rattle.elf64_records.specs.Symbols.{symbol_count};
ghost use Rattle.object_set.specs.Files.{file_at};
ghost use Rattle.object_set.specs.Walks.{IsRecord};
ghost use Rattle.ppc_bytes.specs.Bytes.{InSigned};
ghost use Rattle.symbol_table.specs.Fields.{kind_numbered};
ghost use Rattle.symbol_table.specs.Records.{is_slot_kind, looks_at_symbol};
ghost use Rattle.symbol_table.specs.Targets.{target_of};
ghost use Rattle.toc_groups.specs.Parts.{IsTargetOf};
ghost use Rattle.toc_groups.specs.Values.{symbol_address};
ghost use Rattle.toc_rewrite.specs.Folds.{fills_foldable};
ghost use Rattle.toc_rewrite.specs.Records.{record_target};
ghost use Rattle.plain_run.specs.declared.role.FieldRole.TheVariants.{Fixed};
ghost use Rattle.plain_run.specs.Places.{laid, value_of_target, record_goal, NamesSlot, names_foldable, role_at, fixed_value, goal_of, toc_part, filled_word};
ghost use Rattle.plain_run.specs.Standing.{is_word};
ghost use Rattle.plain_run.specs.inside.Text.{IsFieldAt};

use crate::text::PlainText;
use object_set::RecordId;
use plain_machine::{Part, PartTarget, PlainValue, TextPlace};
use reloc_fields::{Kind, value_of, width};
use symbol_table::Target;
use toc_groups::{filled_field, record_of};

impl<'p, 'a, 'b> PlainText<'p, 'a, 'b> {
    /// Where a record goes, if it goes anywhere.
    pub fn target_of(&self, id: RecordId, kind: Kind) -> Option<Target>
        requires record { IsRecord self.now.files id }
        requires kind { let b = file_at self.now.files id.file in
            kind_numbered (rela_of b id.table id.entry).kind ≡ Some kind }
        ensures target { result ≡ record_target self.now.files id }
        ensures known { IfSome result (IsTargetOf self.now.files) }
    {
        if width(kind) == 0 {
            return None;
        }
        if let Kind::Toc = kind {
            return None;
        }
        let rela = record_of(self.res, id);
        Some(self.res.target(id.file, rela.symbol, rela.addend))
    }

    /// A target as a value.
    pub fn value_of(&self, target: Target) -> PlainValue
        requires { IsTargetOf self.now.files target }
        ensures { result ≡ value_of_target self.now.files self.now.plan (Some target) }
    {
        match self.plan.address(target) {
            Some(n) => PlainValue::Number(n),
            None => match target {
                Target::Code { section, offset } => PlainValue::Code(TextPlace { section, offset }),
                _ => PlainValue::Junk,
            },
        }
    }

    /// Where a record goes, as a value.
    pub fn goal(&self, id: RecordId, kind: Kind) -> PlainValue
        requires record { IsRecord self.now.files id }
        requires kind { let b = file_at self.now.files id.file in
            kind_numbered (rela_of b id.table id.entry).kind ≡ Some kind }
        ensures { result ≡ record_goal self.now.files self.now.plan id }
    {
        match self.target_of(id, kind) {
            Some(target) => self.value_of(target),
            None => PlainValue::Junk,
        }
    }

    /// Where the record that fills a slot goes, as a value.
    pub fn slot_goal(&self, slot: RecordId) -> PlainValue
        requires there { IsRecord self.now.files slot }
        requires foldable { fills_foldable (laid self.now.files self.now.plan) slot ≡ true }
        ensures { result ≡ record_goal self.now.files self.now.plan slot }
    {
        self.goal(slot, Kind::Addr64)
    }

    /// The foldable slot that a record names.
    pub fn named_slot(&self, id: RecordId, target: Option<Target>) -> Option<RecordId>
        requires target { target ≡ record_target self.now.files id }
        requires known { IfSome target (IsTargetOf self.now.files) }
        ensures some { IfSome result (NamesSlot self.now.files self.now.plan id) }
        ensures none { IfNone result (names_foldable self.now.files self.now.plan id ≡ false) }
    {
        let number = self.plan.address(target?)?;
        let slot = self.folds.named(id.file, number)?;
        Some(slot.id)
    }

    /// The address of a symbol, where text sections are taken to lie at 0.
    fn source(&self, file: u32, symbol: u32) -> u64
        requires file { file < length self.now.files }
        requires symbol { symbol < symbol_count (file_at self.now.files file) }
        requires stands { IsSome (target_of self.now.files file symbol (pos 0)) }
        ensures { result ≡ symbol_address self.now.files self.now.plan.span [] file symbol }
    {
        let target = self.res.target(file, symbol, 0);
        match (self.plan.address(target), target) {
            (Some(n), _) => n,
            (None, Target::Code { offset, .. }) => offset,
            (None, _) => 0,
        }
    }

    /// The value of a record where it doesn't depend on where text lies, so that text sections may be taken to lie at 0.
    pub fn fixed_value(&self, p: TextPlace, id: RecordId, kind: Kind) -> i128
        requires field { IsFieldAt self.now.files p id kind }
        requires symbol { looks_at_symbol kind ≡ true }
        requires no_slot { is_slot_kind kind ≡ false }
        ensures value { result ≡ fixed_value self.now.files self.now.plan id kind }
        ensures near { InSigned 68 result }
    {
        let rela = record_of(self.res, id);
        let source = self.source(id.file, rela.symbol);
        let base = self.plan.base_of(id.file);
        value_of(kind, source, rela.addend, p.offset, base)
    }

    /// The same as what a half is of.
    fn part_target(&self, value: PlainValue) -> PartTarget
        ensures { result ≡ goal_of self.now.files self.now.plan value }
    {
        match value {
            PlainValue::Number(n) => {
                if self.toc.meets(n, 1) {
                    PartTarget::Toc(n)
                } else {
                    PartTarget::Elsewhere
                }
            }
            PlainValue::Code(p) => PartTarget::Place(p),
            _ => PartTarget::Elsewhere,
        }
    }

    /// The high half of an address less the TOC base.
    pub fn toc_part(&self, p: TextPlace, id: RecordId, kind: Kind) -> PlainValue
        requires field { IsFieldAt self.now.files p id kind }
        requires symbol { looks_at_symbol kind ≡ true }
        requires no_slot { is_slot_kind kind ≡ false }
        ensures { result ≡ toc_part self.now.files self.now.plan id kind }
    {
        let value = self.goal(id, kind);
        let high = match value {
            PlainValue::Number(_) => {
                let x = self.fixed_value(p, id, kind);
                Some(((x + 0x8000) >> 16) as i64)
            }
            _ => None,
        };
        PlainValue::Part(Part::Toc {
            file: id.file,
            target: self.part_target(value),
            high,
        })
    }

    /// A word with its field filled.
    pub fn filled_word(&self, p: TextPlace, id: RecordId, kind: Kind) -> u32
        requires word { is_word self.now.files p ≡ true }
        requires field { IsFieldAt self.now.files p id kind }
        requires fixed { role_at self.now.files self.now.plan p id kind ≡ Fixed }
        ensures { result ≡ filled_word self.now.files self.now.plan p id kind }
    {
        // each such field of the job holds its value
        let _res = &self.res;
        let value = self.fixed_value(p, id, kind);
        filled_field(kind, self.bytes_of(p), p.offset as usize, value) as u32
    }
}
