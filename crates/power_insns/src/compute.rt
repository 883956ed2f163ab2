// The numbers that instructions compute.
ghost use Rattle.std.specs.Prelude.{◌≡◌, ◌<◌, ◌≤◌, ◌+◌, ◌-◌, ◌*◌, ◌/◌, ◌%◌, ◌^◌};
ghost use Rattle.power_insns.specs.Arithmetic.{low_number, widened, mask, doubled, shifted_left, shifted_right, function_of, quotient, compared};
ghost use Rattle.power_insns.specs.declared.meaning.Sign.TheVariants.{Unsigned, Signed};

use crate::meaning::{Function, Sign, Width};

// The low bits of a number, so many as the width has, without their sign.
fn low_bits(width: Width, n: u64) -> u64
    ensures { widened width Unsigned n ≡ result }
{
    match width {
        Width::Byte => n % 0x100,
        Width::Half => n % 0x1_0000,
        Width::Word => n % 0x1_0000_0000,
        Width::Long => n,
    }
}

// The low bits of a number, so many as the width has, with their sign.
fn low_signed(width: Width, n: u64) -> i64
    ensures { result ≡ low_number width Signed n }
{
    match width {
        Width::Byte => i64::from(((n % 0x100) as u8).cast_signed()),
        Width::Half => i64::from(((n % 0x1_0000) as u16).cast_signed()),
        Width::Word => i64::from(((n % 0x1_0000_0000) as u32).cast_signed()),
        Width::Long => n.cast_signed(),
    }
}

/// The low bits of a number, so many as the width has, extended to a register by the sign: what a load of that width gives.
pub fn widen(width: Width, sign: Sign, n: u64) -> u64
    ensures { result ≡ widened width sign n }
{
    match sign {
        Sign::Unsigned => low_bits(width, n),
        Sign::Signed => low_signed(width, n).cast_unsigned(),
    }
}

/// Ones from bit `first` to bit `last` of a doubleword, where bit 0 is the most significant, round the end where first > last.
pub fn mask(first: u32, last: u32) -> u64
    requires first { first < 64 }
    requires last { last < 64 }
    ensures { result ≡ mask first last }
{
    let from_first = 1u128 << (64 - first);
    let past_last = 1u128 << (63 - last);
    if first <= last {
        (from_first - past_last) as u64
    } else {
        u64::MAX - (past_last - from_first) as u64
    }
}

// The low word in both halves.
fn doubled(n: u64) -> u64
    ensures { result ≡ doubled n }
{
    let low = n % 0x1_0000_0000;
    (low << 32) + low
}

fn shift_word_left(n: u64, count: u64) -> u64
    ensures { result ≡ shifted_left 32 (count % 2 ^ 6) (n % 2 ^ 32) }
{
    let count = (count % 64) as u32;
    let low = (n % 0x1_0000_0000) as u32;
    if count < 32 {
        u64::from(low << count)
    } else {
        0
    }
}

fn shift_word_right(n: u64, count: u64) -> u64
    ensures { result ≡ shifted_right 32 (count % 2 ^ 6) (n % 2 ^ 32) }
{
    let count = (count % 64) as u32;
    let low = (n % 0x1_0000_0000) as u32;
    if count < 32 {
        u64::from(low >> count)
    } else {
        0
    }
}

fn shift_left(n: u64, count: u64) -> u64
    ensures { result ≡ shifted_left 64 (count % 2 ^ 7) n }
{
    let count = (count % 128) as u32;
    if count < 64 { n << count } else { 0 }
}

fn shift_right(n: u64, count: u64) -> u64
    ensures { result ≡ shifted_right 64 (count % 2 ^ 7) n }
{
    let count = (count % 128) as u32;
    if count < 64 { n >> count } else { 0 }
}

/// A function's value at two numbers.
pub fn compute(function: Function, x: u64, y: u64) -> u64
    ensures { result ≡ function_of function x y }
{
    match function {
        Function::Sum | Function::RegisterSum => x.wrapping_add(y),
        Function::Difference => x.wrapping_sub(y),
        Function::Product => x.wrapping_mul(y),
        Function::WordProduct => {
            (low_signed(Width::Word, x) * low_signed(Width::Word, y)).cast_unsigned()
        }
        Function::BitAnd => x & y,
        Function::BitAndNot => x & !y,
        Function::BitOr => x | y,
        Function::BitNotOr => !(x | y),
        Function::BitXor => x ^ y,
        Function::ShiftWordLeft => shift_word_left(x, y),
        Function::ShiftWordRight => shift_word_right(x, y),
        Function::ShiftLeft => shift_left(x, y),
        Function::ShiftRight => shift_right(x, y),
        Function::Extend(width) => widen(width, Sign::Signed, x),
        Function::Rotate(count) => x.rotate_left(count) & y,
        Function::RotateWord(count) => doubled(x).rotate_left(count) & y,
    }
}

/// x divided by y, towards zero; `None` where that isn't defined: y is 0, or the signed quotient would be 2^63.
pub fn divide(sign: Sign, x: u64, y: u64) -> Option<u64>
    ensures { result ≡ quotient sign x y }
{
    match sign {
        Sign::Unsigned => x.checked_div(y),
        Sign::Signed => {
            if y == 0 || (x == 1 << 63 && y == u64::MAX) {
                return None;
            }
            Some((x.cast_signed() / y.cast_signed()).cast_unsigned())
        }
    }
}

/// The bits of a field of the condition register after a comparison of the low bits of x and y: less, greater, equal and
/// summary overflow, which is false.
pub fn compare(width: Width, sign: Sign, x: u64, y: u64) -> [bool; 4]
    ensures { result ≡ compared width sign x y }
{
    let (less, greater) = match sign {
        Sign::Unsigned => {
            let x = low_bits(width, x);
            let y = low_bits(width, y);
            (x < y, y < x)
        }
        Sign::Signed => {
            let x = low_signed(width, x);
            let y = low_signed(width, y);
            (x < y, y < x)
        }
    };
    [less, greater, !(less || greater), false]
}
