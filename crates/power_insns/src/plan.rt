// From instructions to operations.
ghost use Rattle.std.specs.Prelude.{◌≡◌, ◌<◌, ◌*◌, ◌*ℤ◌, pos, ◌^◌};
ghost use Rattle.power_insns.specs.Arithmetic.{extended, mask};
ghost use Rattle.power_insns.specs.Table.{Fits};
ghost use Rattle.power_insns.specs.Operations.{operation_of, or_zero, sum_or_copy, or_or_copy, register_or, sum_of_registers, compared_width, counter_of, condition_of, special_register, IsWellNamed};
ghost use Rattle.power_insns.specs.declared.meaning.Operand.TheVariants.{Register, Fixed};
ghost use Rattle.power_insns.specs.declared.meaning.Operation.TheVariants.{Copy, Calculate, Divide, Compare, Load, Store, Branch, System};

use crate::compute::mask;
use crate::instruction::Insn;
use crate::meaning::{
    BranchTarget, COUNT_REGISTER, Condition, Counter, Function, LINK_REGISTER, Operand, Operation,
    Sign, Width,
};

// A signed number as a register holds it.
fn extended(z: i32) -> u64
    ensures { result ≡ extended z }
{
    i64::from(z).cast_unsigned()
}

// A signed number of the instruction.
fn signed(z: i32) -> Operand
    ensures { result ≡ Fixed (extended z) }
{
    Operand::Fixed(extended(z))
}

// A number of the instruction.
fn fixed(n: u32) -> Operand
    ensures { result ≡ Fixed n }
{
    Operand::Fixed(u64::from(n))
}

// A number of the instruction, moved left by 16.
fn fixed_high(n: u32) -> Operand
    ensures { result ≡ Fixed (n * 2 ^ 16) }
{
    Operand::Fixed(u64::from(n) * 0x1_0000)
}

// A signed number of the instruction, moved left by 16.
fn signed_high(z: i32) -> Operand
    ensures { result ≡ Fixed (extended (z *ℤ pos (2 ^ 16))) }
{
    Operand::Fixed((i64::from(z) * 0x1_0000).cast_unsigned())
}

// A mask with ones from bit `first` to bit `last`.
fn ones(first: u32, last: u32) -> Operand
    requires first { first < 64 }
    requires last { last < 64 }
    ensures { result ≡ Fixed (mask first last) }
{
    Operand::Fixed(mask(first, last))
}

// (RA|0).
fn base_of(ra: u32) -> Operand
    ensures { result ≡ or_zero ra }
{
    if ra == 0 {
        Operand::Fixed(0)
    } else {
        Operand::Register(ra)
    }
}

// The operation of `addi`: it copies where it adds nothing to a register.
fn sum_or_copy(rt: u32, ra: u32, n: u64) -> Operation
    ensures { result ≡ sum_or_copy rt ra n }
{
    if ra > 0 && n == 0 {
        copy(rt, Operand::Register(ra), false)
    } else {
        calculate(Function::Sum, rt, base_of(ra), Operand::Fixed(n), false)
    }
}

// The operation of `ori`: it copies where it adds no ones.
fn or_or_copy(ra: u32, rs: u32, n: u32) -> Operation
    ensures { result ≡ or_or_copy ra rs n }
{
    if n == 0 {
        copy(ra, Operand::Register(rs), false)
    } else {
        calculate(Function::BitOr, ra, Operand::Register(rs), fixed(n), false)
    }
}

// The operation of `or`: it copies where both operands are one register.
fn register_or(ra: u32, rs: u32, rb: u32, rc: bool) -> Operation
    ensures { result ≡ register_or ra rs rb rc }
{
    if rs == rb {
        copy(ra, Operand::Register(rs), rc)
    } else {
        calculate(
            Function::BitOr,
            ra,
            Operand::Register(rs),
            Operand::Register(rb),
            rc,
        )
    }
}

// The function of `add`: `add.`, which looks at its sum, is a sum like any other.
fn sum_of_registers(rc: bool) -> Function
    ensures { result ≡ sum_of_registers rc }
{
    if rc {
        Function::Sum
    } else {
        Function::RegisterSum
    }
}

// How many bits a comparison looks at.
fn compared_width(l: bool) -> Width
    ensures { result ≡ compared_width l }
{
    if l { Width::Long } else { Width::Word }
}

// What a branch asks of the count register, by its BO.
fn counter_of(bo: u32) -> Counter
    ensures { result ≡ counter_of bo }
{
    if bo / 4 % 2 == 1 {
        Counter::Kept
    } else {
        Counter::Lowered {
            zero: bo / 2 % 2 == 1,
        }
    }
}

// What a branch asks of the condition register, by its BO and BI.
fn condition_of(bo: u32, bi: u32) -> Condition
    ensures { result ≡ condition_of bo bi }
{
    if bo / 16 % 2 == 1 {
        Condition::Always
    } else {
        Condition::Bit {
            bit: bi,
            value: bo / 8 % 2 == 1,
        }
    }
}

// The register that a special register's number means.
fn special_register(spr: u32) -> u32
    ensures { result ≡ special_register spr }
{
    if spr == 8 {
        LINK_REGISTER
    } else {
        COUNT_REGISTER
    }
}

fn copy(to: u32, from: Operand, rc: bool) -> Operation
    ensures { result ≡ Copy to from rc }
{
    Operation::Copy { to, from, rc }
}

fn calculate(function: Function, to: u32, x: Operand, y: Operand, rc: bool) -> Operation
    ensures { result ≡ Calculate function to x y rc }
{
    Operation::Calculate {
        function,
        to,
        x,
        y,
        rc,
    }
}

fn divide(sign: Sign, to: u32, x: u32, y: u32, rc: bool) -> Operation
    ensures { result ≡ Divide sign to (Register x) (Register y) rc }
{
    Operation::Divide {
        sign,
        to,
        x: Operand::Register(x),
        y: Operand::Register(y),
        rc,
    }
}

fn compare(field: u32, l: bool, sign: Sign, x: u32, y: Operand) -> Operation
    ensures { result ≡ Compare field (compared_width l) sign (Register x) y }
{
    Operation::Compare {
        field,
        width: compared_width(l),
        sign,
        x: Operand::Register(x),
        y,
    }
}

fn load(width: Width, sign: Sign, to: u32, ra: u32, offset: Operand) -> Operation
    ensures { result ≡ Load width sign to (or_zero ra) offset }
{
    Operation::Load {
        width,
        sign,
        to,
        base: base_of(ra),
        offset,
    }
}

fn store(width: Width, from: u32, ra: u32, offset: Operand, update: Option<u32>) -> Operation
    ensures { result ≡ Store width from (or_zero ra) offset update }
{
    Operation::Store {
        width,
        from,
        base: base_of(ra),
        offset,
        update,
    }
}

fn branch(counter: Counter, condition: Condition, target: BranchTarget, link: bool) -> Operation
    ensures { result ≡ Branch counter condition target link }
{
    Operation::Branch {
        counter,
        condition,
        target,
        link,
    }
}

// A function of two registers.
fn of_registers(function: Function, to: u32, x: u32, y: u32, rc: bool) -> Operation
    ensures { result ≡ Calculate function to (Register x) (Register y) rc }
{
    calculate(function, to, Operand::Register(x), Operand::Register(y), rc)
}

// A function of a register and a number of the instruction.
fn with_number(function: Function, to: u32, x: u32, y: Operand, rc: bool) -> Operation
    ensures { result ≡ Calculate function to (Register x) y rc }
{
    calculate(function, to, Operand::Register(x), y, rc)
}

/// What an instruction does.
pub fn plan_for(insn: &Insn) -> Operation
    requires { Fits insn.now }
    ensures plan { result ≡ operation_of insn.now }
    ensures names { IsWellNamed result }
{
    match *insn {
        Insn::Mulli { rt, ra, si } => with_number(Function::Product, rt, ra, signed(si), false),
        Insn::Cmpli { bf, l, ra, ui } => compare(bf, l, Sign::Unsigned, ra, fixed(ui)),
        Insn::Cmpi { bf, l, ra, si } => compare(bf, l, Sign::Signed, ra, signed(si)),
        Insn::Addi { rt, ra, si } => sum_or_copy(rt, ra, extended(si)),
        Insn::Addis { rt, ra, si } => calculate(
            Function::Sum,
            rt,
            base_of(ra),
            signed_high(si),
            false,
        ),
        Insn::Bc { bo, bi, bd, lk } => branch(
            counter_of(bo),
            condition_of(bo, bi),
            BranchTarget::Ahead(extended(bd)),
            lk,
        ),
        Insn::Sc => Operation::System,
        Insn::B { li, lk } => branch(
            Counter::Kept,
            Condition::Always,
            BranchTarget::Ahead(extended(li)),
            lk,
        ),
        Insn::Bclr { bo, bi, lk, .. } => branch(
            counter_of(bo),
            condition_of(bo, bi),
            BranchTarget::Through(LINK_REGISTER),
            lk,
        ),
        Insn::Bcctr { bo, bi, lk, .. } => branch(
            counter_of(bo),
            condition_of(bo, bi),
            BranchTarget::Through(COUNT_REGISTER),
            lk,
        ),
        Insn::Rlwinm {
            rs,
            ra,
            sh,
            mb,
            me,
            rc,
        } => with_number(Function::RotateWord(sh), ra, rs, ones(mb + 32, me + 32), rc),
        Insn::Ori { rs, ra, ui } => or_or_copy(ra, rs, ui),
        Insn::Oris { rs, ra, ui } => with_number(Function::BitOr, ra, rs, fixed_high(ui), false),
        Insn::Xori { rs, ra, ui } => with_number(Function::BitXor, ra, rs, fixed(ui), false),
        Insn::Xoris { rs, ra, ui } => with_number(Function::BitXor, ra, rs, fixed_high(ui), false),
        Insn::Andi { rs, ra, ui } => with_number(Function::BitAnd, ra, rs, fixed(ui), true),
        Insn::Andis { rs, ra, ui } => with_number(Function::BitAnd, ra, rs, fixed_high(ui), true),
        Insn::Rldicl { rs, ra, sh, mb, rc } => with_number(
            Function::Rotate(sh),
            ra,
            rs,
            ones(mb, 63),
            rc,
        ),
        Insn::Rldicr { rs, ra, sh, me, rc } => with_number(
            Function::Rotate(sh),
            ra,
            rs,
            ones(0, me),
            rc,
        ),
        Insn::Lwz { rt, ra, d } => load(Width::Word, Sign::Unsigned, rt, ra, signed(d)),
        Insn::Lbz { rt, ra, d } => load(Width::Byte, Sign::Unsigned, rt, ra, signed(d)),
        Insn::Lhz { rt, ra, d } => load(Width::Half, Sign::Unsigned, rt, ra, signed(d)),
        Insn::Lha { rt, ra, d } => load(Width::Half, Sign::Signed, rt, ra, signed(d)),
        Insn::Stw { rs, ra, d } => store(Width::Word, rs, ra, signed(d), None),
        Insn::Stb { rs, ra, d } => store(Width::Byte, rs, ra, signed(d), None),
        Insn::Sth { rs, ra, d } => store(Width::Half, rs, ra, signed(d), None),
        Insn::Ld { rt, ra, ds } => load(Width::Long, Sign::Unsigned, rt, ra, signed(ds)),
        Insn::Lwa { rt, ra, ds } => load(Width::Word, Sign::Signed, rt, ra, signed(ds)),
        Insn::Std { rs, ra, ds } => store(Width::Long, rs, ra, signed(ds), None),
        Insn::Stdu { rs, ra, ds } => store(Width::Long, rs, ra, signed(ds), Some(ra)),
        Insn::Cmp { bf, l, ra, rb } => compare(bf, l, Sign::Signed, ra, Operand::Register(rb)),
        Insn::Cmpl { bf, l, ra, rb } => compare(bf, l, Sign::Unsigned, ra, Operand::Register(rb)),
        Insn::Add { rt, ra, rb, rc } => of_registers(sum_of_registers(rc), rt, ra, rb, rc),
        Insn::Subf { rt, ra, rb, rc } => of_registers(Function::Difference, rt, rb, ra, rc),
        Insn::Neg { rt, ra, rc } => calculate(
            Function::Difference,
            rt,
            Operand::Fixed(0),
            Operand::Register(ra),
            rc,
        ),
        Insn::Mullw { rt, ra, rb, rc } => of_registers(Function::WordProduct, rt, ra, rb, rc),
        Insn::Mulld { rt, ra, rb, rc } => of_registers(Function::Product, rt, ra, rb, rc),
        Insn::Divd { rt, ra, rb, rc } => divide(Sign::Signed, rt, ra, rb, rc),
        Insn::Divdu { rt, ra, rb, rc } => divide(Sign::Unsigned, rt, ra, rb, rc),
        Insn::And { rs, ra, rb, rc } => of_registers(Function::BitAnd, ra, rs, rb, rc),
        Insn::Andc { rs, ra, rb, rc } => of_registers(Function::BitAndNot, ra, rs, rb, rc),
        Insn::Nor { rs, ra, rb, rc } => of_registers(Function::BitNotOr, ra, rs, rb, rc),
        Insn::Xor { rs, ra, rb, rc } => of_registers(Function::BitXor, ra, rs, rb, rc),
        Insn::Or { rs, ra, rb, rc } => register_or(ra, rs, rb, rc),
        Insn::Slw { rs, ra, rb, rc } => of_registers(Function::ShiftWordLeft, ra, rs, rb, rc),
        Insn::Srw { rs, ra, rb, rc } => of_registers(Function::ShiftWordRight, ra, rs, rb, rc),
        Insn::Sld { rs, ra, rb, rc } => of_registers(Function::ShiftLeft, ra, rs, rb, rc),
        Insn::Srd { rs, ra, rb, rc } => of_registers(Function::ShiftRight, ra, rs, rb, rc),
        Insn::Extsb { rs, ra, rc } => with_number(
            Function::Extend(Width::Byte),
            ra,
            rs,
            fixed(0),
            rc,
        ),
        Insn::Extsh { rs, ra, rc } => with_number(
            Function::Extend(Width::Half),
            ra,
            rs,
            fixed(0),
            rc,
        ),
        Insn::Extsw { rs, ra, rc } => with_number(
            Function::Extend(Width::Word),
            ra,
            rs,
            fixed(0),
            rc,
        ),
        Insn::Ldx { rt, ra, rb } => load(
            Width::Long,
            Sign::Unsigned,
            rt,
            ra,
            Operand::Register(rb),
        ),
        Insn::Lwzx { rt, ra, rb } => load(
            Width::Word,
            Sign::Unsigned,
            rt,
            ra,
            Operand::Register(rb),
        ),
        Insn::Lbzx { rt, ra, rb } => load(
            Width::Byte,
            Sign::Unsigned,
            rt,
            ra,
            Operand::Register(rb),
        ),
        Insn::Lhzx { rt, ra, rb } => load(
            Width::Half,
            Sign::Unsigned,
            rt,
            ra,
            Operand::Register(rb),
        ),
        Insn::Lhax { rt, ra, rb } => load(Width::Half, Sign::Signed, rt, ra, Operand::Register(rb)),
        Insn::Lwax { rt, ra, rb } => load(Width::Word, Sign::Signed, rt, ra, Operand::Register(rb)),
        Insn::Stdx { rs, ra, rb } => store(Width::Long, rs, ra, Operand::Register(rb), None),
        Insn::Stwx { rs, ra, rb } => store(Width::Word, rs, ra, Operand::Register(rb), None),
        Insn::Stbx { rs, ra, rb } => store(Width::Byte, rs, ra, Operand::Register(rb), None),
        Insn::Sthx { rs, ra, rb } => store(Width::Half, rs, ra, Operand::Register(rb), None),
        Insn::Mfspr { rt, spr } => copy(rt, Operand::Register(special_register(spr)), false),
        Insn::Mtspr { rs, spr } => copy(special_register(spr), Operand::Register(rs), false),
    }
}
