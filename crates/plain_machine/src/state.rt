// The state of the machine of places, and what operations do to it.
ghost use Rattle.std.specs.Prelude.{◌≡◌, ◌+◌, ◌*◌, ◌<◌, ◌≤◌, ◌-◌, ◌^◌, ◌%◌, ◌==◌, ◌&&◌, ℕ, Bool, List, length, slice_index, slice_set, true, false, Option, Some, None, if◌then◌else◌};
ghost use Rattle.power_insns.specs.Operations.{IsWellNamed, NamesOperand, NamesTarget, NamesBit, NamesUpdate};
ghost use Rattle.power_machine.specs.Machines.{Went, agrees, with_field, with_result, with_order, load_at, store_at, with_address, going, branches, branch_if, branch, exec, divide as divide_of, value_of, wanted, met, target_of, one_less, sum_address};
ghost use Rattle.plain_machine.specs.inside.Core.{Did, domain_of, plain_state, core_may, address_by, met_by, counted};

use crate::compute::{calculate, order_of};
use crate::memory::PlainMemory;
use crate::place::TextPlace;
use crate::value::PlainValue;
use power_insns::compute::divide;
use power_insns::meaning::{
    BranchTarget, COUNT_REGISTER, Condition, Counter, LINK_REGISTER, Operand, Operation, Sign,
    Width,
};
use power_machine::{Reason, Stored};

/// r0 to r31 with LR and CTR behind them, the bits of CR, memory, and the place of the next instruction.
#[derive(Drop)]
pub struct PlainCore {
    pub at: TextPlace,
    pub registers: [PlainValue; 34],
    pub condition: [Option<bool>; 32],
    pub memory: PlainMemory,

    /// The sizes of the text sections.
    pub sizes: Vec<u64>,
}

/// What an operation came to.
#[derive(Clone, Copy)]
pub enum Acted {
    /// It was done.
    Went,

    /// It can't be, and nothing has changed.
    Left(Reason),

    /// Memory was refused, and nothing has changed.
    Refused,
}

// Whether a test is as wanted.
fn agrees_with(b: bool, wanted: bool) -> bool
    ensures { result ≡ agrees b wanted }
{
    if wanted { b } else { !b }
}

// Replaces the bits of a field.
fn set_field(condition: &mut [Option<bool>], field: u32, bits: [Option<bool>; 4])
    requires field { field < 8 }
    requires bits { length condition.old ≡ 32 }
    ensures { condition.new ≡ with_field condition.old field bits }
{
    let from = 4 * field as usize;
    condition[from..from + 4].copy_from_slice(&bits);
}

impl PlainCore {
    fn value_of(&self, operand: Operand) -> PlainValue
        requires { NamesOperand operand }
        ensures { result ≡ value_of (domain_of self.now) (plain_state self.now) operand }
    {
        match operand {
            Operand::Register(r) => self.registers[r as usize],
            Operand::Fixed(n) => PlainValue::Number(n),
            Operand::Here(n) => PlainValue::Code(self.at.ahead(n)),
        }
    }

    // Sets a register, and field 0 of CR by its value where that is asked.
    pub fn finish(&mut self, size: u64, to: u32, value: PlainValue, rc: bool) -> Acted
        requires { to < 34 }
        ensures { let d = domain_of self.old in
            Did (Went (with_result d size (plain_state self.old) to value rc)) self.old
            self.new result }
    {
        self.registers[to as usize] = value;
        if rc {
            set_field(
                &mut self.condition,
                0,
                order_of(
                    &self.sizes,
                    Width::Long,
                    Sign::Signed,
                    value,
                    PlainValue::Number(0),
                ),
            );
        }
        self.at = self.at.ahead(size);
        Acted::Went
    }

    fn set_order(&mut self, size: u64, field: u32, bits: [Option<bool>; 4]) -> Acted
        requires { field < 8 }
        ensures { Did (Went (with_order (domain_of self.old) size (plain_state self.old) field
            bits)) self.old self.new result }
    {
        set_field(&mut self.condition, field, bits);
        self.at = self.at.ahead(size);
        Acted::Went
    }

    fn divide(
        &mut self,
        size: u64,
        sign: Sign,
        to: u32,
        x: PlainValue,
        y: PlainValue,
        rc: bool,
    ) -> Acted
        requires { to < 34 }
        ensures { let d = domain_of self.old in
            Did (divide_of d size (plain_state self.old) sign to x y rc) self.old self.new result }
    {
        let (Some(a), Some(b)) = (x.number(), y.number()) else {
            return Acted::Left(Reason::Value);
        };
        match divide(sign, a, b) {
            Some(value) => self.finish(size, to, PlainValue::Number(value), rc),
            None => Acted::Left(Reason::Divide),
        }
    }

    // The address that a base and an offset make, where both are numbers.
    pub fn address_of(&self, base: Operand, offset: Operand) -> Option<u64>
        requires base { NamesOperand base }
        requires offset { NamesOperand offset }
        ensures { result ≡ address_by (plain_state self.now) base offset }
    {
        let base = self.value_of(base).number()?;
        let offset = self.value_of(offset).number()?;
        Some(base.wrapping_add(offset))
    }

    fn load(&mut self, size: u64, width: Width, sign: Sign, to: u32, at: u64) -> Acted
        requires { to < 34 }
        ensures { Did (load_at (domain_of self.old) size (core_may self.old) (plain_state self.old)
            width sign to at) self.old self.new result }
    {
        match self.memory.load(width, sign, at) {
            Some(value) => {
                self.registers[to as usize] = value;
                self.at = self.at.ahead(size);
                Acted::Went
            }
            None => Acted::Left(Reason::Load),
        }
    }

    fn store(&mut self, size: u64, width: Width, from: u32, update: Option<u32>, at: u64) -> Acted
        requires from { from < 34 }
        requires update { NamesUpdate update }
        ensures { Did (store_at (domain_of self.old) size (core_may self.old) (plain_state self.old)
            width from update at) self.old self.new result }
    {
        match self.memory.store(width, at, self.registers[from as usize]) {
            Stored::Outside => return Acted::Left(Reason::Store),
            Stored::Refused => return Acted::Refused,
            Stored::Whole => {}
        }
        if let Some(r) = update {
            self.registers[r as usize] = PlainValue::Number(at);
        }
        self.at = self.at.ahead(size);
        Acted::Went
    }

    // Whether the condition register is as wanted, where that is known.
    fn meets(&self, condition: Condition) -> Option<bool>
        requires { NamesBit condition }
        ensures { result ≡
            met_by condition (wanted (domain_of self.now) self.now.condition condition) }
    {
        match condition {
            Condition::Always => Some(true),
            Condition::Bit { bit, value } => {
                let b = self.condition[bit as usize]?;
                Some(agrees_with(b, value))
            }
        }
    }

    // Where a branch goes, with CTR as it was lowered, if it was.
    fn target_of(&self, count: Option<u64>, target: BranchTarget) -> Option<TextPlace>
        requires { NamesTarget target }
        ensures { target_of (domain_of self.now) self.now.at (counted (plain_state self.now) count)
            target ≡ result }
    {
        match target {
            BranchTarget::Ahead(n) => Some(self.at.ahead(n)),
            BranchTarget::Through(r) => {
                if r == COUNT_REGISTER && count.is_some() {
                    return None;
                }
                self.registers[r as usize].place()
            }
        }
    }

    // Goes to a place, with CTR as it was lowered, if it was, and LR set where that is asked.
    fn go(&mut self, size: u64, count: Option<u64>, link: bool, to: TextPlace) -> Acted
        ensures { let s = plain_state self.old in
            Did (Went (going (domain_of self.old) size s (counted s count) link to)) self.old
            self.new result }
    {
        if let Some(n) = count {
            self.registers[COUNT_REGISTER as usize] = PlainValue::Number(n);
        }
        if link {
            self.registers[LINK_REGISTER as usize] = PlainValue::Code(self.at.ahead(size));
        }
        self.at = to;
        Acted::Went
    }

    // Goes to a target where the branch is taken, and else on.
    fn branch_by(
        &mut self,
        size: u64,
        count: Option<u64>,
        target: BranchTarget,
        link: bool,
        taken: bool,
    ) -> Acted
        requires { NamesTarget target }
        ensures { let s = plain_state self.old in
            Did (branches (domain_of self.old) size s (counted s count) target link taken) self.old
            self.new result }
    {
        if !taken {
            return self.go(size, count, link, self.at.ahead(size));
        }
        match self.target_of(count, target) {
            Some(to) => self.go(size, count, link, to),
            None => Acted::Left(Reason::Value),
        }
    }

    // Goes to a target where the counter and the condition are as wanted.
    fn branch_if(
        &mut self,
        size: u64,
        count: Option<u64>,
        wanted: bool,
        condition: Condition,
        target: BranchTarget,
        link: bool,
    ) -> Acted
        requires bit { NamesBit condition }
        requires target { NamesTarget target }
        ensures { let s = plain_state self.old in
            Did (branch_if (domain_of self.old) size s (counted s count) wanted condition target
            link) self.old self.new result }
    {
        match self.meets(condition) {
            Some(met) => self.branch_by(size, count, target, link, wanted && met),
            None => Acted::Left(Reason::Value),
        }
    }

    fn branch(
        &mut self,
        size: u64,
        counter: Counter,
        condition: Condition,
        target: BranchTarget,
        link: bool,
    ) -> Acted
        requires bit { NamesBit condition }
        requires target { NamesTarget target }
        ensures { Did (branch (domain_of self.old) size (plain_state self.old) counter condition
            target link) self.old self.new result }
    {
        match counter {
            Counter::Kept => self.branch_if(size, None, true, condition, target, link),
            Counter::Lowered { zero } => {
                let Some(n) = self.registers[COUNT_REGISTER as usize].number() else {
                    return Acted::Left(Reason::Value);
                };
                let less = n.wrapping_add(u64::MAX);
                let wanted = agrees_with(less == 0, zero);
                self.branch_if(size, Some(less), wanted, condition, target, link)
            }
        }
    }

    /// One operation, of an instruction of so many bytes.
    pub fn act(&mut self, size: u64, operation: &Operation) -> Acted
        requires { IsWellNamed operation.now }
        ensures { let d = domain_of self.old in
            Did (exec d size (core_may self.old) operation.now (plain_state self.old)) self.old
            self.new result }
    {
        match *operation {
            Operation::Copy { to, from, rc } => {
                let value = self.value_of(from);
                self.finish(size, to, value, rc)
            }
            Operation::Calculate {
                function,
                to,
                x,
                y,
                rc,
            } => {
                let value = calculate(function, self.value_of(x), self.value_of(y));
                self.finish(size, to, value, rc)
            }
            Operation::Divide { sign, to, x, y, rc } => {
                let x = self.value_of(x);
                let y = self.value_of(y);
                self.divide(size, sign, to, x, y, rc)
            }
            Operation::Compare {
                field,
                width,
                sign,
                x,
                y,
            } => {
                let bits = order_of(&self.sizes, width, sign, self.value_of(x), self.value_of(y));
                self.set_order(size, field, bits)
            }
            Operation::Load {
                width,
                sign,
                to,
                base,
                offset,
            } => match self.address_of(base, offset) {
                Some(at) => self.load(size, width, sign, to, at),
                None => Acted::Left(Reason::Value),
            },
            Operation::Store {
                width,
                from,
                base,
                offset,
                update,
            } => match self.address_of(base, offset) {
                Some(at) => self.store(size, width, from, update, at),
                None => Acted::Left(Reason::Value),
            },
            Operation::Branch {
                counter,
                condition,
                target,
                link,
            } => { self.branch(size, counter, condition, target, link) }
            Operation::System => Acted::Left(Reason::Call),
        }
    }
}
