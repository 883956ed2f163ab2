// The state of the machine, and what operations do to it.
ghost use Rattle.std.specs.Prelude.{◌≡◌, ◌+◌, ◌*◌, ◌<◌, ◌≤◌, ◌-◌, ◌^◌, ◌%◌, ◌==◌, ◌&&◌, ℕ, Bool, List, length, slice_set, true, false, Option, Some, None, if◌then◌else◌};
ghost use Rattle.power_insns.specs.Arithmetic.{bytes_of};
ghost use Rattle.power_insns.specs.Operations.{IsWellNamed, NamesOperand, NamesTarget, NamesBit, NamesUpdate};
ghost use Rattle.power_machine.specs.Machines.{Went, agrees, with_field, with_result, with_order, load_at, store_at, branch, exec, divide as divide_of, value_of, wanted, met, target_of, one_less, sum_address, updated};
ghost use Rattle.power_machine.specs.Memory.{within};
ghost use Rattle.power_machine.specs.Paging.{span_at};
ghost use Rattle.power_machine.specs.Numbers.{numbers, state_of, core_ranges};
ghost use Rattle.power_machine.specs.Pages.{stored_by};
ghost use Rattle.power_machine.specs.inside.Core.{Did};

use crate::memory::{AddressSpace, Purpose, Stored, size_of};
use crate::reason::Reason;
use power_insns::compute::{compare, compute, divide, widen};
use power_insns::meaning::{
    BranchTarget, COUNT_REGISTER, Condition, Counter, LINK_REGISTER, Operand, Operation, Sign,
    Width,
};

/// r0 to r31 with LR and CTR behind them, the bits of CR, memory, and the address of the next instruction.
#[derive(Drop)]
pub struct Core {
    pub at: u64,
    pub registers: [u64; 34],
    pub condition: [bool; 32],
    pub memory: AddressSpace,
}

/// What an operation came to.
#[derive(Clone, Copy)]
pub enum CoreOutcome {
    Went,
    Left(Reason),

    /// Memory was refused. Nothing has changed.
    Memory,
}

// Whether a test is as wanted.
fn agrees_with(b: bool, wanted: bool) -> bool
    ensures { result ≡ agrees b wanted }
{
    if wanted { b } else { !b }
}

// Replaces the bits of a field.
fn set_field(condition: &mut [bool], field: u32, bits: [bool; 4])
    requires field { field < 8 }
    requires bits { length condition.old ≡ 32 }
    ensures { condition.new ≡ with_field condition.old field bits }
{
    let from = 4 * field as usize;
    condition[from..from + 4].copy_from_slice(&bits);
}

impl Core {
    fn value_of(&self, operand: Operand) -> u64
        requires { NamesOperand operand }
        ensures { result ≡ value_of numbers (state_of self.now) operand }
    {
        match operand {
            Operand::Register(r) => self.registers[r as usize],
            Operand::Fixed(n) => n,
            Operand::Here(n) => self.at.wrapping_add(n),
        }
    }

    // Sets a register, and field 0 of CR by its value where that is asked.
    fn finish(&mut self, size: u64, to: u32, value: u64, rc: bool) -> CoreOutcome
        requires { to < 34 }
        ensures { Did (Went (with_result numbers size (state_of self.old) to value rc)) None
            self.old self.new result }
    {
        self.registers[to as usize] = value;
        if rc {
            set_field(
                &mut self.condition,
                0,
                compare(Width::Long, Sign::Signed, value, 0),
            );
        }
        self.at = self.at.wrapping_add(size);
        CoreOutcome::Went
    }

    fn set_order(&mut self, size: u64, field: u32, bits: [bool; 4]) -> CoreOutcome
        requires { field < 8 }
        ensures { Did (Went (with_order numbers size (state_of self.old) field bits)) None self.old
            self.new result }
    {
        set_field(&mut self.condition, field, bits);
        self.at = self.at.wrapping_add(size);
        CoreOutcome::Went
    }

    fn divide(&mut self, size: u64, sign: Sign, to: u32, x: u64, y: u64, rc: bool) -> CoreOutcome
        requires { to < 34 }
        ensures { Did (divide_of numbers size (state_of self.old) sign to x y rc) None self.old
            self.new result }
    {
        match divide(sign, x, y) {
            Some(value) => self.finish(size, to, value, rc),
            None => CoreOutcome::Left(Reason::Divide),
        }
    }

    fn load(&mut self, size: u64, width: Width, sign: Sign, to: u32, at: u64) -> CoreOutcome
        requires { to < 34 }
        ensures { Did (load_at numbers size (within (core_ranges self.old)) (state_of self.old)
            width sign to at) None self.old self.new result }
    {
        match self.memory.number_at(Purpose::Loading, at, width) {
            Some(n) => self.finish(size, to, widen(width, sign, n), false),
            None => CoreOutcome::Left(Reason::Load),
        }
    }

    #[tactic(auto, unfolding(crate::specs::Bytes::bytes_of_long))]
    fn store(
        &mut self,
        size: u64,
        width: Width,
        from: u32,
        update: Option<u32>,
        at: u64,
    ) -> CoreOutcome
        requires from { from < 34 }
        requires update { NamesUpdate update }
        ensures { Did (store_at numbers size (within (core_ranges self.old)) (state_of self.old)
            width from update at) (Some (span_at at (bytes_of width))) self.old self.new result }
    {
        let bytes = self.registers[from as usize].to_le_bytes();
        let count = size_of(width);
        match self.memory.write(at, count, &bytes[..count as usize]) {
            Stored::Whole => {}
            Stored::Outside => return CoreOutcome::Left(Reason::Store),
            Stored::Refused => return CoreOutcome::Memory,
        }
        self.go_on(size, update, at);
        CoreOutcome::Went
    }

    // Goes on behind a store, whose address a register may get.
    fn go_on(&mut self, size: u64, update: Option<u32>, address: u64)
        requires { NamesUpdate update }
        ensures at { self.new.at ≡ sum_address self.old.at size }
        ensures registers { self.new.registers ≡ updated numbers self.old.registers update address }
        ensures condition { self.new.condition ≡ self.old.condition }
        ensures memory { self.new.memory ≡ self.old.memory }
    {
        if let Some(r) = update {
            self.registers[r as usize] = address;
        }
        self.at = self.at.wrapping_add(size);
    }

    // Whether the condition register is as wanted.
    fn meets(&self, condition: Condition) -> bool
        requires { NamesBit condition }
        ensures { (b : Bool) → wanted numbers self.now.condition condition ≡ Some b →
            result ≡ met condition b }
    {
        match condition {
            Condition::Always => true,
            Condition::Bit { bit, value } => agrees_with(self.condition[bit as usize], value),
        }
    }

    fn target_of(&self, target: BranchTarget) -> u64
        requires { NamesTarget target }
        ensures { target_of numbers self.now.at self.now.registers target ≡ Some result }
    {
        match target {
            BranchTarget::Ahead(n) => self.at.wrapping_add(n),
            BranchTarget::Through(r) => self.registers[r as usize] / 4 * 4,
        }
    }

    fn branch(
        &mut self,
        size: u64,
        counter: Counter,
        condition: Condition,
        target: BranchTarget,
        link: bool,
    ) -> CoreOutcome
        requires bit { NamesBit condition }
        requires target { NamesTarget target }
        ensures { Did (branch numbers size (state_of self.old) counter condition target link) None
            self.old self.new result }
    {
        let counted = match counter {
            Counter::Kept => true,
            Counter::Lowered { zero } => {
                let n = self.registers[COUNT_REGISTER as usize].wrapping_add(u64::MAX);
                self.registers[COUNT_REGISTER as usize] = n;
                agrees_with(n == 0, zero)
            }
        };
        let next = self.at.wrapping_add(size);
        let to = if counted && self.meets(condition) {
            self.target_of(target)
        } else {
            next
        };
        if link {
            self.registers[LINK_REGISTER as usize] = next;
        }
        self.at = to;
        CoreOutcome::Went
    }

    /// One operation, of an instruction of so many bytes. One that leaves changes nothing.
    pub fn act(&mut self, size: u64, operation: &Operation) -> CoreOutcome
        requires { IsWellNamed operation.now }
        ensures { Did (exec numbers size (within (core_ranges self.old)) operation.now
            (state_of self.old)) (stored_by (state_of self.old) operation.now) self.old self.new
            result }
    {
        match *operation {
            Operation::Copy { to, from, rc } => {
                let value = self.value_of(from);
                self.finish(size, to, value, rc)
            }
            Operation::Calculate {
                function,
                to,
                x,
                y,
                rc,
            } => {
                let value = compute(function, self.value_of(x), self.value_of(y));
                self.finish(size, to, value, rc)
            }
            Operation::Divide { sign, to, x, y, rc } => {
                let x = self.value_of(x);
                let y = self.value_of(y);
                self.divide(size, sign, to, x, y, rc)
            }
            Operation::Compare {
                field,
                width,
                sign,
                x,
                y,
            } => {
                let bits = compare(width, sign, self.value_of(x), self.value_of(y));
                self.set_order(size, field, bits)
            }
            Operation::Load {
                width,
                sign,
                to,
                base,
                offset,
            } => {
                let at = self.value_of(base).wrapping_add(self.value_of(offset));
                self.load(size, width, sign, to, at)
            }
            Operation::Store {
                width,
                from,
                base,
                offset,
                update,
            } => {
                let at = self.value_of(base).wrapping_add(self.value_of(offset));
                self.store(size, width, from, update, at)
            }
            Operation::Branch {
                counter,
                condition,
                target,
                link,
            } => { self.branch(size, counter, condition, target, link) }
            Operation::System => CoreOutcome::Left(Reason::Call),
        }
    }
}
