// What instructions do: operations over registers, memory, the condition register and the place of the instruction.
//
// Registers are numbered 0 to 33: the general registers r0 to r31, then LR (32) and CTR (33). Numbers are taken modulo 2^64.
// What an operation does to a state is said by whoever runs it, over numbers or over other values; here stand its parts.

/// The number of the link register among the registers.
pub const LINK_REGISTER: u32 = 32;

/// The number of the count register among the registers.
pub const COUNT_REGISTER: u32 = 33;

/// How many registers there are.
pub const REGISTER_COUNT: u32 = 34;

/// How wide a number is: 1, 2, 4 or 8 bytes.
#[derive(Clone, Copy)]
pub enum Width {
    Byte,
    Half,
    Word,
    Long,
}

/// How the bits of a number are read.
#[derive(Clone, Copy)]
pub enum Sign {
    /// As they stand.
    Unsigned,
    /// As two's complement.
    Signed,
}

/// A value that an operation takes.
#[derive(Clone, Copy)]
pub enum Operand {
    /// What a register holds.
    Register(u32),
    /// A number of the instruction.
    Fixed(u64),
    /// The address of the instruction, and so many bytes on.
    Here(u64),
}

/// A number as a function of two operands.
#[derive(Clone, Copy)]
pub enum Function {
    /// x + y.
    Sum,
    /// x + y, of two registers and without a look at the sum: `add` alone. Over numbers it is the sum. Over other values
    /// a difference of addresses and a number may make a place of code by it, and by no other sum.
    RegisterSum,
    /// x - y.
    Difference,
    /// The low 64 bits of x * y.
    Product,
    /// The product of the low words, read with their signs.
    WordProduct,
    /// x and y, bit by bit.
    BitAnd,
    /// x and not y.
    BitAndNot,
    /// x or y.
    BitOr,
    /// Neither x nor y.
    BitNotOr,
    /// x or y and not both.
    BitXor,
    /// The low word of x, moved left by the low 6 bits of y within a word; 0 from 32 on.
    ShiftWordLeft,
    /// The low word of x, moved right by the low 6 bits of y; 0 from 32 on.
    ShiftWordRight,
    /// x, moved left by the low 7 bits of y; 0 from 64 on.
    ShiftLeft,
    /// x, moved right by the low 7 bits of y; 0 from 64 on.
    ShiftRight,
    /// The low bits of x, so many as the width has, with their sign extended. y isn't looked at.
    Extend(Width),
    /// x, rotated left by so many bits, where the mask y has ones.
    Rotate(u32),
    /// The low word of x in both halves, rotated left by so many bits, where the mask y has ones.
    RotateWord(u32),
}

/// What a branch asks of the count register.
#[derive(Clone, Copy)]
pub enum Counter {
    /// Nothing, and leaves it as it is.
    Kept,
    /// To be lowered by one first, and then to be zero exactly if `zero`.
    Lowered { zero: bool },
}

/// What a branch asks of the condition register.
#[derive(Clone, Copy)]
pub enum Condition {
    /// Nothing.
    Always,
    /// That the bit, of 32 from the most significant on, has this value.
    Bit { bit: u32, value: bool },
}

/// Where a branch goes.
#[derive(Clone, Copy)]
pub enum BranchTarget {
    /// To its own address and so many bytes on.
    Ahead(u64),
    /// To the address that a register holds, with its low two bits cleared.
    Through(u32),
}

/// What an instruction does. Each but a branch goes on at the next instruction.
///
/// `rc` says that the operation also compares the register's new value, as a signed number of 64 bits, with 0 into field 0 of
/// the condition register. A comparison sets the field's first three bits to less, greater and equal and its fourth, the summary
/// overflow, to 0.
#[derive(Clone, Copy)]
pub enum Operation {
    /// The register `to` gets the operand's value, whatever kind of value it is.
    Copy {
        to: u32,
        from: Operand,
        rc: bool,
    },
    /// The register `to` gets the function's value at the numbers x and y.
    Calculate {
        function: Function,
        to: u32,
        x: Operand,
        y: Operand,
        rc: bool,
    },
    /// The register `to` gets x divided by y, towards zero. Where that isn't defined, the operation can't be done.
    Divide {
        sign: Sign,
        to: u32,
        x: Operand,
        y: Operand,
        rc: bool,
    },
    /// The field of the condition register gets the order of x and y, of which the low bits count, so many as the width has.
    Compare {
        field: u32,
        width: Width,
        sign: Sign,
        x: Operand,
        y: Operand,
    },
    /// The register `to` gets the number in memory at base + offset, of the width and read by the sign.
    Load {
        width: Width,
        sign: Sign,
        to: u32,
        base: Operand,
        offset: Operand,
    },
    /// The low bytes of the register `from`, so many as the width has, go to memory at base + offset. Then the register `update`
    /// gets that address.
    Store {
        width: Width,
        from: u32,
        base: Operand,
        offset: Operand,
        update: Option<u32>,
    },
    /// Lowers the count register where asked. Goes to the target where the counter and the condition are as asked, else on. The
    /// target is read before `link` sets the link register to the next instruction's address, which it does in either case.
    Branch {
        counter: Counter,
        condition: Condition,
        target: BranchTarget,
        link: bool,
    },
    /// A call of the system: its number is in r0, its arguments in r3, r4 and r5, its result in r3.
    System,
}
