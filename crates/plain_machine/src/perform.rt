// Steps: what they need, and what they do.
ghost use Rattle.std.specs.Prelude.{◌≡◌, ◌<◌, ◌≤◌, ◌+◌, ◌%◌, ◌^◌, ◌||◌, ◌&&◌, ◌==◌, ℕ, Bool, List, Option, Some, None, true, false, length, slice_index, slice_set, if◌then◌else◌};
ghost use Rattle.power_insns.specs.Operations.{IsWellNamed};
ghost use Rattle.power_machine.specs.Machines.{Went, Left, exec, with_result, sum_address};
ghost use Rattle.power_machine.specs.Runs.{next_of, operates};
ghost use Rattle.plain_machine.specs.Actions.{number_cells, loads_to, with_registers, spent, entered, with_save, call_registers, called, call_saving, is_saved, restored, effect_on, performed, holds_need, is_access, IsNamedNeed, IsNamedEffect, MayNeed, IsAction, need_reason};
ghost use Rattle.plain_machine.specs.Values.{slot_cells, same_cells};
ghost use Rattle.plain_machine.specs.inside.Core.{Did, domain_of, plain_state, core_may};
ghost use Rattle.plain_machine.specs.inside.Machine.{run_of, machine_may, Performs, Stays, save_address, SavesAt, performed_by, fault_of, state_fault};

use crate::action::{Action, Effect, FullCall, Need};
use crate::machine::{Performed, PlainMachine};
use crate::place::TextPlace;
use crate::same::same_value;
use crate::state::{Acted, PlainCore};
use crate::value::{Cell, PlainValue};
use power_insns::meaning::{COUNT_REGISTER, LINK_REGISTER, Operation};
use power_machine::{Purpose, Reason, Stored, World, size_of};

// The eight bytes of a number.
#[tactic(auto, unfolding(power_machine::specs::Bytes::bytes_of_long))]
fn number_cells(n: u64) -> [Cell; 8]
    ensures { result ≡ number_cells n }
{
    let [a, b, c, d, e, f, g, h] = n.to_le_bytes();
    [
        Cell::Number(a),
        Cell::Number(b),
        Cell::Number(c),
        Cell::Number(d),
        Cell::Number(e),
        Cell::Number(f),
        Cell::Number(g),
        Cell::Number(h),
    ]
}

// The eight bytes of the TOC base that a call saves.
fn slot_cells(site: TextPlace) -> [Cell; 8]
    ensures { result ≡ slot_cells site }
{
    [
        Cell::Slot { site, piece: 0 },
        Cell::Slot { site, piece: 1 },
        Cell::Slot { site, piece: 2 },
        Cell::Slot { site, piece: 3 },
        Cell::Slot { site, piece: 4 },
        Cell::Slot { site, piece: 5 },
        Cell::Slot { site, piece: 6 },
        Cell::Slot { site, piece: 7 },
    ]
}

impl PlainCore {
    // Whether a register holds what is needed, if anything is.
    fn has(&self, need: Option<Need>) -> bool
        requires { IsNamedNeed need }
        ensures { result ≡ holds_need (plain_state self.now) need }
    {
        match need {
            Some(n) => same_value(n.value, self.registers[n.register as usize]),
            None => true,
        }
    }

    // The second instruction of a prologue.
    fn enter(&mut self, base: u64) -> Acted
        ensures { Did (Went (entered (plain_state self.old) base)) self.old self.new result }
    {
        self.registers[2] = PlainValue::Number(base);
        self.registers[12] = PlainValue::Junk;
        self.at = self.at.ahead(4);
        Acted::Went
    }

    // The registers after a call, which goes to its callee.
    fn enter_callee(&mut self, call: FullCall)
        ensures state { plain_state self.new ≡ called (plain_state self.old) call
            (plain_state self.old).byte }
        ensures memory { self.new.memory ≡ self.old.memory }
        ensures sizes { self.new.sizes ≡ self.old.sizes }
    {
        self.registers[COUNT_REGISTER as usize] = PlainValue::Junk;
        self.registers[12] = if call.enters {
            PlainValue::Code(call.to)
        } else {
            PlainValue::Junk
        };
        if call.link {
            self.registers[LINK_REGISTER as usize] = PlainValue::Code(self.at.ahead(4));
        }
        self.at = call.to;
    }

    // Where the TOC base is saved in a frame, where the stack pointer is a number.
    fn save_address(&self) -> Option<u64>
        ensures { result ≡ save_address (plain_state self.now) }
    {
        let frame = self.registers[1].number()?;
        Some(frame.wrapping_add(24))
    }

    // An access through the address of a pair, which is lost.
    fn access(&mut self, operation: &Operation, through: u32) -> Acted
        requires names { IsWellNamed operation.now }
        requires through { through < 34 }
        ensures { let next = exec (domain_of self.old) 4 (core_may self.old) operation.now
            (plain_state self.old) in
            Did (spent through operation.now next) self.old self.new result }
    {
        let keeps = match *operation {
            Operation::Load { to, .. } => to == through,
            _ => false,
        };
        let acted = self.act(4, operation);
        if let Acted::Went = acted {
            if !keeps {
                self.registers[through as usize] = PlainValue::Junk;
            }
        }
        acted
    }

    // A call, which saves the TOC base if it is asked to.
    fn call(&mut self, call: FullCall) -> Acted
        ensures { Did (call_saving (core_may self.old) (plain_state self.old) call call.saves)
            self.old self.new result }
    {
        if let Some(base) = call.saves {
            let Some(at) = self.save_address() else {
                return Acted::Left(Reason::Value);
            };
            match self.save(base, at) {
                Stored::Outside => return Acted::Left(Reason::Store),
                Stored::Refused => return Acted::Refused,
                Stored::Whole => {}
            }
        }
        self.enter_callee(call);
        Acted::Went
    }

    // Saves the TOC base at an address, where it doesn't stand there yet.
    fn save(&mut self, base: u64, at: u64) -> Stored
        ensures saved { SavesAt self.old self.new base at result }
    {
        let site = self.at;
        if !self.memory.may_store(at, 8) {
            return Stored::Outside;
        }
        if self.memory.holds(at, &number_cells(base)) == Some(true) {
            return Stored::Whole;
        }
        self.memory.put(at, &slot_cells(site))
    }

    // The restore behind a call.
    fn restore(&mut self, site: TextPlace, base: u64) -> Acted
        ensures { Did (restored (slice_index self.old.sizes.items) (core_may self.old)
            (plain_state self.old) site base) self.old self.new result }
    {
        let Some(at) = self.save_address() else {
            return Acted::Left(Reason::Value);
        };
        let (Some(own), Some(number)) = (
            self.memory.holds(at, &slot_cells(site)),
            self.memory.holds(at, &number_cells(base)),
        ) else {
            return Acted::Left(Reason::Load);
        };
        if !own && !number {
            return Acted::Left(Reason::Restore);
        }
        self.finish(4, 2, PlainValue::Number(base), false)
    }
}

// What an operation on the state came to.
fn performed(acted: Acted) -> Performed
    ensures { result ≡ performed_by acted }
{
    match acted {
        Acted::Went => Performed::Went,
        Acted::Left(reason) => Performed::Left(reason),
        Acted::Refused => Performed::Memory,
    }
}

impl PlainCore {
    // Why an access can't be made, if it can't.
    fn access_fault(&self, operation: &Operation) -> Option<Reason>
        requires names { IsWellNamed operation.now }
        requires access { is_access operation.now ≡ true }
        ensures { (size : ℕ) → result ≡ fault_of (exec (domain_of self.now) size
            (core_may self.now) operation.now (plain_state self.now)) }
    {
        match *operation {
            Operation::Load {
                width,
                base,
                offset,
                ..
            } => match self.address_of(base, offset) {
                Some(at) if self.memory.allows(Purpose::Loading, at, size_of(width)) => None,
                Some(_) => Some(Reason::Load),
                None => Some(Reason::Value),
            },
            Operation::Store {
                width,
                base,
                offset,
                ..
            } => match self.address_of(base, offset) {
                Some(at) if self.memory.allows(Purpose::Storing, at, size_of(width)) => None,
                Some(_) => Some(Reason::Store),
                None => Some(Reason::Value),
            },
            _ => None,
        }
    }
}

impl PlainCore {
    // Why a call can't be made, if it can't.
    fn call_fault(&self, call: FullCall) -> Option<Reason>
        ensures { result ≡ fault_of (call_saving (core_may self.now) (plain_state self.now) call
            call.saves) }
    {
        if call.saves.is_none() {
            return None;
        }
        match self.save_address() {
            Some(at) if self.memory.may_store(at, 8) => None,
            Some(_) => Some(Reason::Store),
            None => Some(Reason::Value),
        }
    }

    // Why a restore can't be made, if it can't.
    fn restore_fault(&self, site: TextPlace, base: u64) -> Option<Reason>
        ensures { result ≡ fault_of (restored (slice_index self.now.sizes.items)
            (core_may self.now) (plain_state self.now) site base) }
    {
        let Some(at) = self.save_address() else {
            return Some(Reason::Value);
        };
        let (Some(own), Some(number)) = (
            self.memory.holds(at, &slot_cells(site)),
            self.memory.holds(at, &number_cells(base)),
        ) else {
            return Some(Reason::Load);
        };
        if own || number {
            None
        } else {
            Some(Reason::Restore)
        }
    }

    // Why an effect that may need something can't be, if it can't.
    fn fault(&self, effect: &Effect) -> Option<Reason>
        requires names { IsNamedEffect effect.now }
        requires needs { MayNeed effect.now }
        ensures { result ≡ state_fault (slice_index self.now.sizes.items) (core_may self.now)
            effect.now (plain_state self.now) }
    {
        match *effect {
            Effect::Leave(reason) => Some(reason),
            Effect::Operate { operation, .. } => self.access_fault(&operation),
            Effect::Access { operation, .. } => self.access_fault(&operation),
            Effect::Give { .. } | Effect::Enter { .. } => None,
            Effect::Call(call) => self.call_fault(call),
            Effect::Restore { site, base } => self.restore_fault(site, base),
        }
    }
}

// The reason of a need that isn't met.
fn reason_of(need: Option<Need>) -> Reason
    ensures { result ≡ need_reason need }
{
    match need {
        Some(need) => need.reason,
        None => Reason::Value,
    }
}

impl PlainMachine {
    /// A step. After Left and Memory the machine and the world are as they were.
    pub fn perform(&mut self, action: &Action, world: &mut World) -> Performed
        requires action { IsAction action.now }
        requires going { self.old.ended ≡ None }
        ensures performs { let r = run_of self.old world.old in
            Performs (performed (slice_index self.old.core.sizes.items) (machine_may self.old)
            action.now r) r (run_of self.new world.new) result }
        ensures stays { Stays self.old self.new }
    {
        let first = self.core.has(action.first);
        let second = self.core.has(action.second);
        if first && second {
            return self.apply(&action.effect, world);
        }
        if let Some(reason) = self.core.fault(&action.effect) {
            return Performed::Left(reason);
        }
        if !first {
            return Performed::Left(reason_of(action.first));
        }
        Performed::Left(reason_of(action.second))
    }

    // An effect, whatever it needs.
    fn apply(&mut self, effect: &Effect, world: &mut World) -> Performed
        requires names { IsNamedEffect effect.now }
        requires going { self.old.ended ≡ None }
        ensures performs { let r = run_of self.old world.old in
            Performs (effect_on (slice_index self.old.core.sizes.items) (machine_may self.old)
            effect.now r) r (run_of self.new world.new) result }
        ensures stays { Stays self.old self.new }
    {
        match *effect {
            Effect::Leave(reason) => Performed::Left(reason),
            Effect::Operate { size, operation } => {
                if let Operation::System = operation {
                    return self.call(world);
                }
                performed(self.core.act(size, &operation))
            }
            Effect::Give { size, to, value } => performed(self.core.finish(size, to, value, false)),
            Effect::Access { operation, through } => {
                performed(self.core.access(&operation, through))
            }
            Effect::Enter { base } => performed(self.core.enter(base)),
            Effect::Call(call) => performed(self.core.call(call)),
            Effect::Restore { site, base } => performed(self.core.restore(site, base)),
        }
    }
}
