// What instructions do, on numbers worked by hand from the manual's definition of each.
use crate::compute::{compare, compute, divide, widen};
use crate::decoding::decode;
use crate::instruction::Insn;
use crate::meaning::BranchTarget::{Ahead, Through};
use crate::meaning::Condition::{Always, Bit};
use crate::meaning::Counter::{Kept, Lowered};
use crate::meaning::{Function, Operand, Operation, Sign, Width};
use crate::plan::plan_for;
use crate::uses::{Access, memory, reads, writes};
use std::test::Fail;

// What a word does.
fn operation(w: u32) -> Option<Operation> {
    Some(plan_for(&decode(w)?))
}

// What an operand is, where r4 holds a and every other register b.
fn value(operand: Operand, a: u64, b: u64) -> u64 {
    match operand {
        Operand::Register(4) => a,
        Operand::Register(_) => b,
        Operand::Fixed(n) => n,
        Operand::Here(_) => 0,
    }
}

// What a word calculates, where r4 holds a and every other register b.
fn calculated(w: u32, a: u64, b: u64) -> Option<u64> {
    match operation(w)? {
        Operation::Calculate { function, x, y, .. } => {
            Some(compute(function, value(x, a, b), value(y, a, b)))
        }
        Operation::Divide { sign, x, y, .. } => divide(sign, value(x, a, b), value(y, a, b)),
        _ => None,
    }
}

// The bits that a word compares to, where r4 holds a and every other register b.
fn compared(w: u32, a: u64, b: u64) -> Option<[bool; 4]> {
    match operation(w)? {
        Operation::Compare {
            width,
            sign,
            x,
            y,
            ..
        } => Some(compare(width, sign, value(x, a, b), value(y, a, b))),
        _ => None,
    }
}

// Each word does its operation.
macro_rules! planned {
    ($rt:ident; $($word:literal => $operation:pat,)*) => {
        $(assert!($rt; matches!(operation($word), Some($operation)));)*
    };
}

const LEAST: u64 = 1 << 63;

// What words calculate: the assembly, the word, what r4 and what every other register holds, and the number, or none. `mullw` takes signed low
// words, `divd` goes towards zero, logic with a number extends no sign, and a mask of `rlwinm` that wraps keeps the rotated word's upper half.
const NUMBERS: &str = "\
add 3,4,5          | 7C642A14 | FFFFFFFFFFFFFFFF | 3                | 2
subf 3,4,5         | 7C642850 | 5                | 3                | FFFFFFFFFFFFFFFE
neg 3,4            | 7C6400D0 | 1                | 0                | FFFFFFFFFFFFFFFF
neg 3,4            | 7C6400D0 | 8000000000000000 | 0                | 8000000000000000
addi 3,4,-1        | 3864FFFF | 0                | 0                | FFFFFFFFFFFFFFFF
addis 3,4,-1       | 3C64FFFF | 10001            | 0                | 1
addi 3,0,-1        | 3860FFFF | 7                | 7                | FFFFFFFFFFFFFFFF
addis 3,0,-32768   | 3C608000 | 7                | 7                | FFFFFFFF80000000
mulli 3,4,-5       | 1C64FFFB | 3                | 0                | FFFFFFFFFFFFFFF1
mullw 3,4,5        | 7C6429D6 | 7FFFFFFFF        | 900000002        | FFFFFFFFFFFFFFFE
mulld 3,4,5        | 7C6429D2 | 100000001        | 100000001        | 200000001
divd 3,4,5         | 7C642BD2 | FFFFFFFFFFFFFFF9 | 2                | FFFFFFFFFFFFFFFD
divd 3,4,5         | 7C642BD2 | 7                | FFFFFFFFFFFFFFFE | FFFFFFFFFFFFFFFD
divd 3,4,5         | 7C642BD2 | 8000000000000000 | 1                | 8000000000000000
divd 3,4,5         | 7C642BD2 | 7                | 0                | none
divd 3,4,5         | 7C642BD2 | 8000000000000000 | FFFFFFFFFFFFFFFF | none
divdu 3,4,5        | 7C642B92 | FFFFFFFFFFFFFFF9 | 2                | 7FFFFFFFFFFFFFFC
divdu 3,4,5        | 7C642B92 | 8000000000000000 | FFFFFFFFFFFFFFFF | 0
divdu 3,4,5        | 7C642B92 | 7                | 0                | none
and 3,4,5          | 7C832838 | C                | A                | 8
andc 3,4,5         | 7C832878 | C                | A                | 4
nor 3,4,5          | 7C8328F8 | C                | A                | FFFFFFFFFFFFFFF1
xor 3,4,5          | 7C832A78 | C                | A                | 6
or 3,4,5           | 7C832B78 | C                | A                | E
ori 3,4,0x8001     | 60838001 | 10               | 0                | 8011
oris 3,4,0x8001    | 64838001 | 10               | 0                | 80010010
xori 3,4,0x8001    | 68838001 | 1                | 0                | 8000
xoris 3,4,0x8001   | 6C838001 | 10000            | 0                | 80000000
andi. 3,4,0x8001   | 70838001 | FFFFFFFFFFFFFFFF | 0                | 8001
andis. 3,4,0x8001  | 74838001 | FFFFFFFFFFFFFFFF | 0                | 80010000
extsb 3,4          | 7C830774 | 180              | 0                | FFFFFFFFFFFFFF80
extsh 3,4          | 7C830734 | 17FFF            | 0                | 7FFF
extsw 3,4          | 7C8307B4 | 80000000         | 0                | FFFFFFFF80000000
slw 3,4,5          | 7C832830 | FFFFFFFF00000003 | 1F               | 80000000
slw 3,4,5          | 7C832830 | 3                | 20               | 0
slw 3,4,5          | 7C832830 | 3                | 40               | 3
srw 3,4,5          | 7C832C30 | FFFFFFFF80000000 | 1F               | 1
srw 3,4,5          | 7C832C30 | 80000000         | 20               | 0
srw 3,4,5          | 7C832C30 | 80000000         | 40               | 80000000
sld 3,4,5          | 7C832836 | 3                | 3F               | 8000000000000000
sld 3,4,5          | 7C832836 | 3                | 40               | 0
sld 3,4,5          | 7C832836 | 3                | 80               | 3
srd 3,4,5          | 7C832C36 | 8000000000000000 | 3F               | 1
srd 3,4,5          | 7C832C36 | 8000000000000000 | 7F               | 0
srd 3,4,5          | 7C832C36 | 8000000000000000 | 80               | 8000000000000000
rlwinm 3,4,7,30,2  | 54833F84 | 123456789ABCDEF  | 0                | D5E6F7C4C0000000
rlwinm 3,4,31,0,31 | 5483F83E | 3                | 0                | 80000001
rlwinm 3,4,0,24,31 | 5483063E | FFFFFFFFFFFFFFAB | 0                | AB
rldicl 3,4,4,60    | 78832720 | A000000000000000 | 0                | A
rldicl 3,4,0,32    | 78830020 | 123456789ABCDEF0 | 0                | 9ABCDEF0
rldicl 3,4,33,34   | 788308A2 | 8000000080000001 | 0                | 1
rldicr 3,4,8,55    | 788345E4 | 123456789ABCDEF0 | 0                | 3456789ABCDEF000
rldicr 3,4,40,31   | 788347C6 | 123456789ABCDEF0 | 0                | BCDEF01200000000";

// What words compare to, in the same columns.
const ORDERS: &str = "\
cmpd 4,5        | 7C242800 | FFFFFFFFFFFFFFFF | 1 | less
cmpld 4,5       | 7C242840 | FFFFFFFFFFFFFFFF | 1 | greater
cmpw 4,5        | 7C042800 | 1FFFFFFFF        | 0 | less
cmplw 4,5       | 7C042840 | 700000001        | 1 | equal
cmpwi 4,-1      | 2C04FFFF | FFFFFFFF         | 0 | equal
cmpdi 4,-1      | 2C24FFFF | FFFFFFFF         | 0 | greater
cmplwi 4,0xFFFF | 2804FFFF | 30000FFFF        | 0 | equal
cmpldi 4,0xFFFF | 2824FFFF | 30000FFFF        | 0 | greater";

// What words use: the registers that they read and that they write, a bit each, and what they do with memory.
const USES: &str = "\
add 3,4,5         | 7C642A14 | 30   | 8        | none
divd 3,4,5        | 7C642BD2 | 30   | 8        | none
cmpd 1,3,4        | 7CA32000 | 18   | 0        | none
li 3,1            | 38600001 | 0    | 8        | none
rlwinm 5,6,7,30,2 | 54C53F84 | 40   | 20       | none
mr 31,3           | 7C7F1B78 | 8    | 80000000 | none
nop               | 60000000 | 1    | 1        | none
mflr 0            | 7C0802A6 | 0    | 1        | none
mtctr 12          | 7D8903A6 | 1000 | 0        | none
bctrl             | 4E800421 | 0    | 0        | none
sc                | 44000002 | 39   | 8        | none
lwz 3,8(9)        | 80690008 | 200  | 8        | load
ld 3,8(0)         | E8600008 | 0    | 8        | load
lwzx 3,0,5        | 7C60282E | 20   | 8        | load
lhax 3,4,5        | 7C642AAE | 30   | 8        | load
stb 9,0(0)        | 99200000 | 200  | 0        | store
std 2,24(1)       | F8410018 | 6    | 0        | store
stdu 1,-32(1)     | F821FFE1 | 2    | 2        | store
stwx 3,4,5        | 7C64292E | 38   | 0        | store";

#[derive(Clone, Copy)]
struct Row<'a> {
    word: u32,
    first: u64,
    second: u64,
    wanted: &'a str,
}

// The row of a line, whose first column is the assembly.
fn row_of(line: &str) -> Result<Row<'_>, Fail> {
    let mut columns = line.split('|').skip(1);
    let word = columns.next().ok_or("a word is wanted")?.trim();
    let first = columns.next().ok_or("a number is wanted")?.trim();
    let second = columns.next().ok_or("a number is wanted")?.trim();
    let wanted = columns.next().ok_or("what is wanted")?.trim();
    Ok(Row {
        word: u32::from_str_radix(word, 16)?,
        first: u64::from_str_radix(first, 16)?,
        second: u64::from_str_radix(second, 16)?,
        wanted,
    })
}

#[test]
fn words_calculate_numbers(rt: HostRuntime) -> Result<(), Fail> {
    for line in NUMBERS.lines() {
        let row = row_of(line)?;
        let wanted = if row.wanted == "none" {
            None
        } else {
            Some(u64::from_str_radix(row.wanted, 16)?)
        };
        assert_eq!(rt;
            calculated(row.word, row.first, row.second),
            wanted,
            "{line}"
        );
    }
    Ok(())
}

#[test]
fn comparisons_of_words_and_doublewords(rt: HostRuntime) -> Result<(), Fail> {
    for line in ORDERS.lines() {
        let row = row_of(line)?;
        let wanted = [
            row.wanted == "less",
            row.wanted == "greater",
            row.wanted == "equal",
            false,
        ];
        assert_eq!(rt;
            compared(row.word, row.first, row.second),
            Some(wanted),
            "{line}"
        );
    }
    Ok(())
}

#[test]
fn results_compared_with_zero(rt: HostRuntime) {
    // the whole result counts: its low word alone would be less than 0
    assert_eq!(rt;
        compare(Width::Long, Sign::Signed, 0x8000_0000, 0),
        [false, true, false, false]
    );
    assert_eq!(rt;
        compare(Width::Long, Sign::Signed, LEAST, 0),
        [true, false, false, false]
    );
    // add. 3,4,5; andi. 3,4,1; divd. 3,4,5; add 3,4,5, whose sum is its own
    planned! { rt;
        0x7C64_2A15 => Operation::Calculate { function: Function::Sum, rc: true, .. },
        0x7083_0001 => Operation::Calculate { rc: true, .. },
        0x7C64_2BD3 => Operation::Divide { rc: true, .. },
        0x7C64_2A14 => Operation::Calculate { function: Function::RegisterSum, rc: false, .. },
    }
}

#[test]
fn loaded_numbers_and_their_signs(rt: HostRuntime) {
    assert_eq!(rt;
        widen(Width::Half, Sign::Signed, 0x8000),
        0xFFFF_FFFF_FFFF_8000
    );
    assert_eq!(rt; widen(Width::Word, Sign::Signed, 0x7FFF_FFFF), 0x7FFF_FFFF);
    assert_eq!(rt;
        widen(Width::Word, Sign::Unsigned, 0x8000_0000),
        0x8000_0000
    );
    // lwz, lbz, lhz and ld 3,0(4), lwzx 3,4,5; lha and lwa 3,0(4), lhax and lwax 3,4,5
    planned! { rt;
        0x8064_0000 => Operation::Load { width: Width::Word, sign: Sign::Unsigned, .. },
        0x8864_0000 => Operation::Load { width: Width::Byte, sign: Sign::Unsigned, .. },
        0xA064_0000 => Operation::Load { width: Width::Half, sign: Sign::Unsigned, .. },
        0xE864_0000 => Operation::Load { width: Width::Long, sign: Sign::Unsigned, .. },
        0x7C64_282E => Operation::Load { width: Width::Word, sign: Sign::Unsigned, .. },
        0xA864_0000 => Operation::Load { width: Width::Half, sign: Sign::Signed, .. },
        0xE864_0002 => Operation::Load { width: Width::Word, sign: Sign::Signed, .. },
        0x7C64_2AAE => Operation::Load { width: Width::Half, sign: Sign::Signed, .. },
        0x7C64_2AAA => Operation::Load { width: Width::Word, sign: Sign::Signed, .. },
    }
}

#[test]
fn addresses_of_loads_and_stores(rt: HostRuntime) {
    // ld 3,-8(4); ld 3,8(0); lwzx 3,0,5; stdu 1,-32(1); sth 12,-2(31)
    planned! { rt;
        0xE864_FFF8 => Operation::Load { to: 3, base: Operand::Register(4), offset: Operand::Fixed(0xFFFF_FFFF_FFFF_FFF8), .. },
        0xE860_0008 => Operation::Load { to: 3, base: Operand::Fixed(0), offset: Operand::Fixed(8), .. },
        0x7C60_282E => Operation::Load { to: 3, base: Operand::Fixed(0), offset: Operand::Register(5), .. },
        0xF821_FFE1 => Operation::Store { width: Width::Long, from: 1, base: Operand::Register(1), update: Some(1), .. },
        0xB19F_FFFE => Operation::Store { width: Width::Half, from: 12, base: Operand::Register(31), update: None, .. },
    }
}

#[test]
fn branches_by_a_displacement(rt: HostRuntime) {
    // b -4; bl 8; beq -8; bne 8; bdnz 16; bdz 16; bdnzf 30,8; bdzt 31,8
    planned! { rt;
        0x4BFF_FFFC => Operation::Branch { counter: Kept, condition: Always, target: Ahead(0xFFFF_FFFF_FFFF_FFFC), link: false },
        0x4800_0009 => Operation::Branch { counter: Kept, condition: Always, target: Ahead(8), link: true },
        0x4182_FFF8 => Operation::Branch { counter: Kept, condition: Bit { bit: 2, value: true }, target: Ahead(0xFFFF_FFFF_FFFF_FFF8), link: false },
        0x4082_0008 => Operation::Branch { counter: Kept, condition: Bit { bit: 2, value: false }, .. },
        0x4200_0010 => Operation::Branch { counter: Lowered { zero: false }, condition: Always, .. },
        0x4240_0010 => Operation::Branch { counter: Lowered { zero: true }, condition: Always, .. },
        0x401E_0008 => Operation::Branch { counter: Lowered { zero: false }, condition: Bit { bit: 30, value: false }, .. },
        0x415F_0008 => Operation::Branch { counter: Lowered { zero: true }, condition: Bit { bit: 31, value: true }, .. },
    }
}

#[test]
fn branches_through_a_register(rt: HostRuntime) {
    // blr; beqlrl; bdnzlr; bctr; bctrl
    planned! { rt;
        0x4E80_0020 => Operation::Branch { counter: Kept, condition: Always, target: Through(32), link: false },
        0x4D82_0021 => Operation::Branch { condition: Bit { bit: 2, value: true }, target: Through(32), link: true, .. },
        0x4E00_0020 => Operation::Branch { counter: Lowered { zero: false }, target: Through(32), .. },
        0x4E80_0420 => Operation::Branch { target: Through(33), link: false, .. },
        0x4E80_0421 => Operation::Branch { target: Through(33), link: true, .. },
    }
}

#[test]
fn copies_keep_what_they_copy(rt: HostRuntime) {
    // mr 31,3; mr. 31,3; nop; addi 3,4,0; mflr 0; mfctr 12; mtlr 0; mtctr 12
    planned! { rt;
        0x7C7F_1B78 => Operation::Copy { to: 31, from: Operand::Register(3), rc: false },
        0x7C7F_1B79 => Operation::Copy { to: 31, from: Operand::Register(3), rc: true },
        0x6000_0000 => Operation::Copy { to: 0, from: Operand::Register(0), rc: false },
        0x3864_0000 => Operation::Copy { to: 3, from: Operand::Register(4), rc: false },
        0x7C08_02A6 => Operation::Copy { to: 0, from: Operand::Register(32), rc: false },
        0x7D89_02A6 => Operation::Copy { to: 12, from: Operand::Register(33), rc: false },
        0x7C08_03A6 => Operation::Copy { to: 32, from: Operand::Register(0), rc: false },
        0x7D89_03A6 => Operation::Copy { to: 33, from: Operand::Register(12), rc: false },
    }
    // li 3,0 and oris 3,4,0 calculate
    assert_eq!(rt; calculated(0x3860_0000, 7, 7), Some(0));
    assert_eq!(rt; calculated(0x6483_0000, 7, 7), Some(7));
}

// What an instruction does with memory, by its name.
fn access_of(name: &str) -> Access {
    match name {
        "load" => Access::Load,
        "store" => Access::Store,
        _ => Access::None,
    }
}

#[test]
fn registers_read_and_written(rt: HostRuntime) -> Result<(), Fail> {
    for line in USES.lines() {
        let row = row_of(line)?;
        let insn = decode(row.word).ok_or("an instruction is wanted")?;
        assert_eq!(rt; memory(&insn), access_of(row.wanted), "{line}");
        for r in 0..40 {
            assert_eq!(rt; reads(&insn, r), 1u64 << r & row.first != 0, "{line}: r{r}");
            assert_eq!(rt;
                writes(&insn, r),
                1u64 << r & row.second != 0,
                "{line}: r{r}"
            );
        }
    }
    Ok(())
}
