// What a step does at each place of text.
ghost use Rattle.std.specs.Prelude.{◌≡◌, ◌≤◌, ◌-◌, ◌<◌, Some, None, IfSome, IfNone, true, false, length, nat_le};
ghost use Rattle.std.specs.List.{Contains};
ghost use Rattle.elf64_records.specs.Records.{rela_of};
ghost use Rattle.object_set.specs.Files.{file_at};
ghost use Rattle.symbol_table.specs.Fields.{kind_numbered};
ghost use Rattle.symbol_table.specs.Records.{is_slot_kind, looks_at_symbol};
ghost use Rattle.pcrel_rewrite.specs.TextPairs.{text_pair};
ghost use Rattle.power_machine.specs.declared.code.Code.TheVariants.{Unknown};
ghost use Rattle.reloc_fields.specs.declared.kind.Kind.TheVariants.{Pcrel34};
ghost use Rattle.plain_machine.specs.Plain.{place_ahead};
ghost use Rattle.plain_machine.specs.Actions.{IsAction, IsNamedEffect, IsNamedNeed, MayNeed};
ghost use Rattle.plain_run.specs.declared.standing.Standing.TheVariants as standing;
ghost use Rattle.plain_run.specs.declared.role.FieldRole.TheVariants as role;
ghost use Rattle.plain_run.specs.Effects.{IsWordCode, does, code_action, code_acting};
ghost use Rattle.plain_run.specs.Places.{base_at, place_of_value, toc_need, IsOwnCode, IsPairCode, may_cross, call_by, restore_action, entry_action, base_action, gives, toc_low_action, place_sum_action, place_or_action, slot_action, toc_high_action, toc_part, record_goal, role_at, NamesSlot, names_foldable, IsSlotLoad, IsRoleAction, IsStandingAction, IsActionAt};
ghost use Rattle.plain_run.specs.Standing.{place_before, section_at, word_at, is_word, standing_at};
ghost use Rattle.plain_run.specs.inside.Effects.{IsReadyEffect, IsMade};
ghost use Rattle.plain_run.specs.inside.Text.{IsFieldAt};

use crate::effects::{
    acting_with, does, insn_action, leaves, needs_value, nop_action, pair_access, pair_action,
    word_acting, word_action,
};
use crate::marks::{has_toc, saves_base};
use crate::role::FieldRole;
use crate::roles::role_of;
use crate::standing::Standing;
use crate::text::PlainText;
use call_sites::CallSite;
use object_set::RecordId;
use plain_machine::{Action, Effect, FullCall, Need, Part, PlainValue, TextPlace};
use power_insns::decode;
use power_machine::Reason;
use prefixed_insns::{decode_pair, plan_for_pair};
use reloc_fields::Kind;
use symbol_table::PrologueForm;
use toc_rewrite::{base_register, target_register};

/// The TOC pointer.
const TOC_POINTER: u32 = 2;

/// The register that holds a global entry point's address.
const ENTRY_REGISTER: u32 = 12;

/// The place of the word before.
fn before(p: TextPlace) -> TextPlace
    requires { 4 ≤ p.offset }
    ensures { result ≡ place_before p }
{
    TextPlace {
        section: p.section,
        offset: p.offset - 4,
    }
}

/// The place of a value that is a place's address.
fn place_of(value: PlainValue) -> TextPlace
    ensures { result ≡ place_of_value value }
{
    match value {
        PlainValue::Code(p) => p,
        _ => TextPlace {
            section: 0,
            offset: 0,
        },
    }
}

impl<'p, 'a, 'b> PlainText<'p, 'a, 'b> {
    /// The TOC base of a file.
    fn base_of(&self, file: u32) -> u64
        requires { file < length self.now.files }
        ensures { result ≡ base_at self.now.files self.now.plan file }
    {
        self.plan.base_of(file)
    }

    /// The same, which r2 must hold.
    fn toc_need(&self, file: u32) -> Option<Need>
        requires { file < length self.now.files }
        ensures need { result ≡ toc_need self.now.files self.now.plan file }
        ensures named { IsNamedNeed result }
    {
        let base = self.base_of(file);
        needs_value(TOC_POINTER, PlainValue::Number(base), Reason::Toc)
    }

    /// What two words do that are no instruction of one: a prefixed instruction, or none.
    fn pair_action_at(&self, p: TextPlace) -> Action
        requires word { is_word self.now.files p ≡ true }
        requires none { IsWordCode (word_at self.now.files p) Unknown }
        ensures { IsMade (IsOwnCode self.now.files self.now.plan p) code_action result }
    {
        let next = p.ahead(4);
        if !self.is_free(next) || self.may_cross(p) {
            return leaves(Reason::Word);
        }
        match decode_pair(self.word_at(p), self.word_at(next)) {
            Some(insn) => pair_action(&insn),
            None => leaves(Reason::Word),
        }
    }

    /// What the file's own words do: an instruction of one word, or else of two.
    fn own_action(&self, p: TextPlace) -> Action
        requires { is_word self.now.files p ≡ true }
        ensures { IsMade (IsOwnCode self.now.files self.now.plan p) code_action result }
    {
        match decode(self.word_at(p)) {
            Some(insn) => insn_action(&insn),
            None => self.pair_action_at(p),
        }
    }

    /// A call: to the global entry point, with the caller's TOC base in r2 where it has one.
    fn call_action(&self, p: TextPlace, site: &CallSite) -> Action
        requires { is_word self.now.files p ≡ true }
        ensures action { result ≡ call_by self.now.files self.now.plan
            (section_at self.now.files p).file site.now site.now.class }
        ensures made { IsAction result }
    {
        let Some(class) = site.class else {
            return nop_action();
        };
        let file = self.file_of(p);
        Action {
            first: if has_toc(class) {
                self.toc_need(file)
            } else {
                None
            },
            second: None,
            effect: Effect::Call(FullCall {
                to: TextPlace {
                    section: site.to_section,
                    offset: site.callee,
                },
                link: site.link,
                enters: site.e >= 2,
                saves: if saves_base(site) {
                    Some(self.base_of(file))
                } else {
                    None
                },
            }),
        }
    }

    /// The restore behind a call. Where r2 needs no restore, it must be the TOC base already.
    fn restore_action(&self, p: TextPlace, site: &CallSite) -> Action
        requires word { is_word self.now.files p ≡ true }
        requires behind { 4 ≤ p.offset }
        ensures action { result ≡ restore_action self.now.files self.now.plan p
            (section_at self.now.files p).file site.now }
        ensures made { IsAction result }
    {
        let base = self.base_of(self.file_of(p));
        Action {
            first: if site.restore {
                None
            } else {
                needs_value(TOC_POINTER, PlainValue::Number(base), Reason::Restore)
            },
            second: None,
            effect: Effect::Restore {
                site: before(p),
                base,
            },
        }
    }

    /// The first word of a recognised prologue.
    fn entry_action(&self, p: TextPlace, form: PrologueForm) -> Action
        ensures action { result ≡ entry_action self.now.files self.now.plan p form }
        ensures made { IsAction result }
    {
        Action {
            first: match form {
                PrologueForm::FromEntry => {
                    needs_value(ENTRY_REGISTER, PlainValue::Code(p), Reason::Prologue)
                }
                PrologueForm::Absolute => None,
            },
            second: None,
            effect: Effect::Give {
                size: 4,
                to: TOC_POINTER,
                value: PlainValue::Part(Part::Prologue(p)),
            },
        }
    }

    /// The second.
    fn base_action(&self, p: TextPlace) -> Action
        requires word { is_word self.now.files p ≡ true }
        requires behind { 4 ≤ p.offset }
        ensures action { result ≡ base_action self.now.files self.now.plan p
            (section_at self.now.files p).file }
        ensures made { IsAction result }
    {
        let part = PlainValue::Part(Part::Prologue(before(p)));
        Action {
            first: needs_value(TOC_POINTER, part, Reason::Prologue),
            second: None,
            effect: Effect::Enter {
                base: self.base_of(self.file_of(p)),
            },
        }
    }

    /// A word gives a value to its target register.
    fn gives(&self, p: TextPlace, value: PlainValue) -> Effect
        requires { is_word self.now.files p ≡ true }
        ensures effect { result ≡ gives self.now.files self.now.plan p value }
        ensures ready { IsReadyEffect result }
    {
        Effect::Give {
            size: 4,
            to: target_register(self.word_at(p)),
            value,
        }
    }

    /// A low half of an address less the TOC base, which needs the high half.
    fn toc_low_action(&self, p: TextPlace, id: RecordId, kind: Kind) -> Action
        requires word { is_word self.now.files p ≡ true }
        requires field { IsFieldAt self.now.files p id kind }
        requires symbol { looks_at_symbol kind ≡ true }
        requires no_slot { is_slot_kind kind ≡ false }
        ensures { IsMade (IsWordCode (word_at self.now.files p))
            (toc_low_action self.now.files self.now.plan p id kind) result }
    {
        let word = self.word_at(p);
        Action {
            first: self.toc_need(id.file),
            second: needs_value(
                base_register(word),
                self.toc_part(p, id, kind),
                Reason::Part,
            ),
            effect: word_acting(self.goal(id, kind), word),
        }
    }

    /// A word that needs r2 to be the TOC base and gives a value.
    fn toc_gives(&self, p: TextPlace, file: u32, value: PlainValue) -> Action
        requires word { is_word self.now.files p ≡ true }
        requires file { file < length self.now.files }
        ensures first { result.first ≡ toc_need self.now.files self.now.plan file }
        ensures second { result.second ≡ None }
        ensures effect { result.effect ≡ gives self.now.files self.now.plan p value }
        ensures made { IsAction result }
    {
        Action {
            first: self.toc_need(file),
            second: None,
            effect: self.gives(p, value),
        }
    }

    /// A load from the slot that its record names.
    fn slot_load(&self, p: TextPlace, id: RecordId, slot: Option<RecordId>) -> Action
        requires word { is_word self.now.files p ≡ true }
        requires file { id.file < length self.now.files }
        requires some { IfSome slot (NamesSlot self.now.files self.now.plan id) }
        requires there { names_foldable self.now.files self.now.plan id ≡ true }
        requires none { IfNone slot (names_foldable self.now.files self.now.plan id ≡ false) }
        ensures load { IsSlotLoad self.now.files self.now.plan p id result }
        ensures made { IsAction result }
    {
        match slot {
            Some(slot) => self.toc_gives(p, id.file, self.slot_goal(slot)),
            None => leaves(Reason::Word),
        }
    }

    /// The low half of a place's address, added to the high half.
    fn place_sum_action(&self, p: TextPlace, id: RecordId, goal: PlainValue) -> Action
        requires word { is_word self.now.files p ≡ true }
        requires goal { goal ≡ record_goal self.now.files self.now.plan id }
        ensures action { result ≡ place_sum_action self.now.files self.now.plan p id }
        ensures made { IsAction result }
    {
        let part = PlainValue::Part(Part::Adjusted(place_of(goal)));
        Action {
            first: needs_value(base_register(self.word_at(p)), part, Reason::Part),
            second: None,
            effect: self.gives(p, goal),
        }
    }

    /// The low half of a place's address, put beside the high half.
    fn place_or_action(&self, p: TextPlace, id: RecordId, goal: PlainValue) -> Action
        requires word { is_word self.now.files p ≡ true }
        requires goal { goal ≡ record_goal self.now.files self.now.plan id }
        ensures action { result ≡ place_or_action self.now.files self.now.plan p id }
        ensures made { IsAction result }
    {
        let word = self.word_at(p);
        let part = PlainValue::Part(Part::High(place_of(goal)));
        Action {
            first: needs_value(target_register(word), part, Reason::Part),
            second: None,
            effect: Effect::Give {
                size: 4,
                to: base_register(word),
                value: goal,
            },
        }
    }

    /// A prefixed instruction with the address to which its record goes.
    fn pair_address_action(&self, p: TextPlace, id: RecordId, goal: PlainValue) -> Action
        requires word { is_word self.now.files p ≡ true }
        requires second { is_word self.now.files (place_ahead p 4) ≡ true }
        requires goal { goal ≡ record_goal self.now.files self.now.plan id }
        ensures done { IsRoleAction self.now.files self.now.plan self.now.pairs p id Pcrel34
            role.PairAddress result }
        ensures made { IsAction result }
    {
        if self.may_cross(p) {
            return leaves(Reason::Word);
        }
        match decode_pair(self.word_at(p), self.word_at(p.ahead(4))) {
            Some(insn) => does(acting_with(8, goal, &plan_for_pair(&insn))),
            None => leaves(Reason::Word),
        }
    }

    /// A prefixed load from a slot.
    fn slot_action(&self, p: TextPlace, id: RecordId, goal: PlainValue) -> Action
        requires word { is_word self.now.files p ≡ true }
        requires second { is_word self.now.files (place_ahead p 4) ≡ true }
        requires goal { goal ≡ record_goal self.now.files self.now.plan id }
        ensures action { result ≡
            slot_action self.now.files self.now.plan self.now.pairs p id }
        ensures made { IsAction result }
    {
        if self.may_cross(p) {
            return leaves(Reason::Word);
        }
        let value = match self.pairs.head(p.section, p.offset) {
            Some(_) => PlainValue::Pair(p),
            None => goal,
        };
        does(Effect::Give {
            size: 8,
            to: target_register(self.word_at(p.ahead(4))),
            value,
        })
    }

    /// A word with which a record's field begins.
    fn field_action(&self, p: TextPlace, id: RecordId, kind: Kind) -> Action
        requires word { is_word self.now.files p ≡ true }
        requires field { IsFieldAt self.now.files p id kind }
        ensures done { IsRoleAction self.now.files self.now.plan self.now.pairs p id kind
            (role_at self.now.files self.now.plan p id kind) result }
        ensures made { IsAction result }
    {
        // none of the files and records is refused
        let _res = &self.res;
        let target = self.target_of(id, kind);
        let goal = self.goal(id, kind);
        let slot = self.named_slot(id, target);
        match role_of(kind, self.word_at(p), target, slot.is_some()) {
            FieldRole::Barred => leaves(Reason::Word),
            FieldRole::PairAddress => self.pair_address_action(p, id, goal),
            FieldRole::SlotAddress => self.slot_action(p, id, goal),
            FieldRole::TocHigh => self.toc_gives(p, id.file, self.toc_part(p, id, kind)),
            FieldRole::TocLow => self.toc_low_action(p, id, kind),
            FieldRole::TocSlot => self.slot_load(p, id, slot),
            FieldRole::PlaceAdjusted => {
                let part = Part::Adjusted(place_of(goal));
                does(self.gives(p, PlainValue::Part(part)))
            }
            FieldRole::PlaceHigh => {
                let part = Part::High(place_of(goal));
                does(self.gives(p, PlainValue::Part(part)))
            }
            FieldRole::PlaceSum => self.place_sum_action(p, id, goal),
            FieldRole::PlaceOr => self.place_or_action(p, id, goal),
            FieldRole::Fixed => word_action(self.filled_word(p, id, kind)),
            FieldRole::Moving => leaves(Reason::Value),
        }
    }

    /// The access of a recognised pair.
    fn access_action(&self, p: TextPlace, head: u64) -> Action
        requires word { is_word self.now.files p ≡ true }
        requires pair { Contains self.now.pairs (text_pair p.section head p.offset) }
        ensures done { IsStandingAction self.now.files self.now.plan self.now.pairs p
            (standing.Access head) result }
        ensures made { IsAction result }
    {
        let load = TextPlace {
            section: p.section,
            offset: head,
        };
        let goal = match self.load_at(load) {
            Some(id) => self.goal(id, Kind::GotPcrel34),
            None => PlainValue::Junk,
        };
        pair_access(PlainValue::Pair(load), goal, self.word_at(p))
    }

    /// What a step does at a place.
    pub fn action_at(&self, p: TextPlace) -> Action
        ensures action { IsActionAt self.now.files self.now.plan self.now.pairs p result }
        ensures made { IsAction result }
    {
        match self.standing_at(p) {
            Standing::Outside => leaves(Reason::Fetch),
            Standing::Word => self.own_action(p),
            Standing::Touched => leaves(Reason::Word),
            Standing::Call(site) => self.call_action(p, &site),
            Standing::Restore(site) => self.restore_action(p, &site),
            Standing::Entry(form) => self.entry_action(p, form),
            Standing::Base => self.base_action(p),
            Standing::Access { head } => self.access_action(p, head),
            Standing::Field { id, kind } => self.field_action(p, id, kind),
        }
    }
}
