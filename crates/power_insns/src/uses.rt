// What instructions read, write and do with memory.
ghost use Rattle.std.specs.Prelude.{◌≡◌, ◌<◌, ◌↔◌, IsTrue};
ghost use Rattle.power_insns.specs.Table.{Fits};
ghost use Rattle.power_insns.specs.Operations.{operation_of};
ghost use Rattle.power_insns.specs.Uses.{IsRegister, Reads, Writes, access_of};

use crate::instruction::Insn;
use crate::meaning::{BranchTarget, COUNT_REGISTER, Counter, LINK_REGISTER, Operand, Operation};
use crate::plan::plan_for;

/// What an instruction does with memory.
#[derive(Clone, Copy, Debug, PartialEq, Eq)]
pub enum Access {
    None,
    Load,
    Store,
}

// Whether an operand is what a register holds.
fn is_register(operand: Operand, r: u32) -> bool
    ensures { IsTrue result ↔ IsRegister operand r }
{
    match operand {
        Operand::Register(q) => q == r,
        Operand::Fixed(_) | Operand::Here(_) => false,
    }
}

// Whether an operation reads a register, of 34.
fn operation_reads(operation: &Operation, r: u32) -> bool
    ensures { IsTrue result ↔ Reads operation.now r }
{
    match *operation {
        Operation::Copy { from, .. } => is_register(from, r),
        Operation::Calculate { x, y, .. }
        | Operation::Divide { x, y, .. }
        | Operation::Compare { x, y, .. } => is_register(x, r) || is_register(y, r),
        Operation::Load { base, offset, .. } => is_register(base, r) || is_register(offset, r),
        Operation::Store {
            from,
            base,
            offset,
            ..
        } => from == r || is_register(base, r) || is_register(offset, r),
        Operation::Branch {
            counter,
            target,
            ..
        } => {
            (matches!(counter, Counter::Lowered { .. }) && r == COUNT_REGISTER)
                || matches!(target, BranchTarget::Through(q) if q == r)
        }
        Operation::System => r == 0 || r == 3 || r == 4 || r == 5,
    }
}

// Whether an operation writes a register, of 34.
fn operation_writes(operation: &Operation, r: u32) -> bool
    ensures { IsTrue result ↔ Writes operation.now r }
{
    match *operation {
        Operation::Copy { to, .. }
        | Operation::Calculate { to, .. }
        | Operation::Divide { to, .. }
        | Operation::Load { to, .. } => to == r,
        Operation::Compare { .. } => false,
        Operation::Store { update, .. } => update == Some(r),
        Operation::Branch { counter, link, .. } => {
            (matches!(counter, Counter::Lowered { .. }) && r == COUNT_REGISTER)
                || (link && r == LINK_REGISTER)
        }
        Operation::System => r == 3,
    }
}

/// Whether an instruction reads a general register, r0 to r31. `sc` reads r0, r3, r4 and r5; a form with (RA|0) reads no register
/// where RA is 0. Neither LR nor CTR is among these registers.
pub fn reads(insn: &Insn, r: u32) -> bool
    requires { Fits insn.now }
    ensures { IsTrue result ↔ (r < 32) × Reads (operation_of insn.now) r }
{
    r < 32 && operation_reads(&plan_for(insn), r)
}

/// Whether an instruction writes a general register, r0 to r31. `sc` writes r3; `stdu` writes RA.
pub fn writes(insn: &Insn, r: u32) -> bool
    requires { Fits insn.now }
    ensures { IsTrue result ↔ (r < 32) × Writes (operation_of insn.now) r }
{
    r < 32 && operation_writes(&plan_for(insn), r)
}

/// What an instruction does with memory. `sc` counts as none.
pub fn memory(insn: &Insn) -> Access
    requires { Fits insn.now }
    ensures { result ≡ access_of (operation_of insn.now) }
{
    match plan_for(insn) {
        Operation::Load { .. } => Access::Load,
        Operation::Store { .. } => Access::Store,
        Operation::Copy { .. }
        | Operation::Calculate { .. }
        | Operation::Divide { .. }
        | Operation::Compare { .. }
        | Operation::Branch { .. }
        | Operation::System => Access::None,
    }
}
