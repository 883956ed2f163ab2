// From prefixed instructions to operations.
ghost use Rattle.std.specs.Prelude.{◌≡◌, ◌<◌};
ghost use Rattle.power_insns.specs.Arithmetic.{extended};
ghost use Rattle.power_insns.specs.Operations.{IsWellNamed};
ghost use Rattle.prefixed_insns.specs.Table.{Fits};
ghost use Rattle.prefixed_insns.specs.Meaning.{operation_of_pair, base_of, offset_of, sum_of};
ghost use Rattle.power_insns.specs.declared.meaning.Operation.TheVariants.{Load, Store};

use crate::instruction::{PInsn, POp};
use power_insns::meaning::{Function, Operand, Operation, Sign, Width};

/// What an instruction does: what its one-word form does, with its own base and displacement.
pub fn plan_for_pair(insn: &PInsn) -> Operation
    requires { Fits insn.now }
    ensures plan { result ≡ operation_of_pair insn.now }
    ensures names { IsWellNamed result }
{
    match insn.op {
        POp::Paddi => sum(insn),
        POp::Plwz => load(insn, Width::Word, Sign::Unsigned),
        POp::Plbz => load(insn, Width::Byte, Sign::Unsigned),
        POp::Plhz => load(insn, Width::Half, Sign::Unsigned),
        POp::Plha => load(insn, Width::Half, Sign::Signed),
        POp::Plwa => load(insn, Width::Word, Sign::Signed),
        POp::Pld => load(insn, Width::Long, Sign::Unsigned),
        POp::Pstw => store(insn, Width::Word),
        POp::Pstb => store(insn, Width::Byte),
        POp::Psth => store(insn, Width::Half),
        POp::Pstd => store(insn, Width::Long),
    }
}

// The displacement as a register would hold it.
fn displacement(insn: &PInsn) -> u64
    ensures { result ≡ extended insn.now.disp }
{
    insn.disp.cast_unsigned()
}

// What the displacement is added to, or the address itself.
fn base_of(insn: &PInsn) -> Operand
    ensures { result ≡ base_of insn.now }
{
    if insn.relative {
        Operand::Here(displacement(insn))
    } else if insn.ra == 0 {
        Operand::Fixed(0)
    } else {
        Operand::Register(insn.ra)
    }
}

// What is added to the base.
fn offset_of(insn: &PInsn) -> Operand
    ensures { result ≡ offset_of insn.now }
{
    if insn.relative {
        Operand::Fixed(0)
    } else {
        Operand::Fixed(displacement(insn))
    }
}

fn sum(insn: &PInsn) -> Operation
    ensures { result ≡ sum_of insn.now }
{
    if insn.relative {
        Operation::Copy {
            to: insn.rt,
            from: base_of(insn),
            rc: false,
        }
    } else {
        Operation::Calculate {
            function: Function::Sum,
            to: insn.rt,
            x: base_of(insn),
            y: offset_of(insn),
            rc: false,
        }
    }
}

fn load(insn: &PInsn, width: Width, sign: Sign) -> Operation
    ensures { result ≡ Load width sign insn.now.rt (base_of insn.now) (offset_of insn.now) }
{
    Operation::Load {
        width,
        sign,
        to: insn.rt,
        base: base_of(insn),
        offset: offset_of(insn),
    }
}

fn store(insn: &PInsn, width: Width) -> Operation
    ensures { result ≡ Store width insn.now.rt (base_of insn.now) (offset_of insn.now) None }
{
    Operation::Store {
        width,
        from: insn.rt,
        base: base_of(insn),
        offset: offset_of(insn),
        update: None,
    }
}
