// What is computed of values.
ghost use Rattle.std.specs.Prelude.{◌≡◌, ◌<◌, ◌+◌, ◌-◌, ◌^◌, ◌%◌, ◌/◌, ◌*◌, ◌&&◌, ◌==◌, Bool, List, Option, length, map, Some, None, slice_index};
ghost use Rattle.plain_machine.specs.Plain.{place_ahead, number_of, joined_place, sum_of_registers, computed, calculated, unknown_order, known_equality, branch_place, is_inside, compared_places, compared_to_number, compared_long, compared_values, order_of};

use crate::place::TextPlace;
use crate::same::same_place;
use crate::value::PlainValue;
use power_insns::compute::{compare, compute};
use power_insns::meaning::{Function, Sign, Width};

impl TextPlace {
    /// So many bytes behind the place.
    pub fn ahead(self, count: u64) -> TextPlace
        ensures { result ≡ place_ahead self count }
    {
        TextPlace {
            section: self.section,
            offset: self.offset.wrapping_add(count),
        }
    }
}

impl PlainValue {
    /// The number that a value is, if it is one.
    pub fn number(self) -> Option<u64>
        ensures { result ≡ number_of self }
    {
        match self {
            PlainValue::Number(n) => Some(n),
            _ => None,
        }
    }

    /// The place to which a branch through a value goes.
    pub fn place(self) -> Option<TextPlace>
        ensures { result ≡ branch_place self }
    {
        match self {
            PlainValue::Code(p) => Some(TextPlace {
                section: p.section,
                offset: p.offset / 4 * 4,
            }),
            _ => None,
        }
    }
}

/// The sum of two registers.
fn sum_of_registers(x: PlainValue, y: PlainValue) -> PlainValue
    ensures { result ≡ sum_of_registers x y }
{
    match (x, y) {
        (PlainValue::Number(a), PlainValue::Number(b)) => PlainValue::Number(a.wrapping_add(b)),
        (PlainValue::Difference { to, from }, PlainValue::Number(b))
        | (PlainValue::Number(b), PlainValue::Difference { to, from }) => {
            PlainValue::Code(to.ahead(b.wrapping_sub(from)))
        }
        _ => PlainValue::Junk,
    }
}

/// A function's value at two values.
pub fn calculate(function: Function, x: PlainValue, y: PlainValue) -> PlainValue
    ensures { result ≡ calculated function x y }
{
    match (x, y) {
        (PlainValue::Number(a), PlainValue::Number(b)) => {
            PlainValue::Number(compute(function, a, b))
        }
        _ => match function {
            Function::RegisterSum => sum_of_registers(x, y),
            _ => PlainValue::Junk,
        },
    }
}

/// What is known of a comparison where nothing is known but that summary overflow is 0.
const UNKNOWN: [Option<bool>; 4] = [None, None, None, Some(false)];

/// What is known of a comparison where it is known whether both are equal.
fn equality(equal: bool) -> [Option<bool>; 4]
    ensures { result ≡ known_equality equal }
{
    [None, None, Some(equal), Some(false)]
}

/// Whether a place is that of a byte of its section.
fn is_inside(sizes: &[u64], p: TextPlace) -> bool
    ensures { result ≡ is_inside (slice_index sizes.now) p }
{
    (p.section as usize) < sizes.len() && p.offset < sizes[p.section as usize]
}

/// What is known of a comparison of two places' addresses.
fn compare_places(sizes: &[u64], p: TextPlace, q: TextPlace) -> [Option<bool>; 4]
    ensures { result ≡ compared_places (slice_index sizes.now) p q }
{
    if is_inside(sizes, p) && is_inside(sizes, q) {
        equality(same_place(p, q))
    } else {
        UNKNOWN
    }
}

/// What is known of a comparison of a place's address with a number.
fn compare_to_number(sizes: &[u64], p: TextPlace, n: u64) -> [Option<bool>; 4]
    ensures { result ≡ compared_to_number (slice_index sizes.now) p n }
{
    if is_inside(sizes, p) && n == 0 {
        equality(false)
    } else {
        UNKNOWN
    }
}

/// What is known of a comparison of two registers that aren't both numbers.
fn compare_long(sizes: &[u64], x: PlainValue, y: PlainValue) -> [Option<bool>; 4]
    ensures { result ≡ compared_long (slice_index sizes.now) x y }
{
    match (x, y) {
        (PlainValue::Code(p), PlainValue::Code(q)) => compare_places(sizes, p, q),
        (PlainValue::Code(p), PlainValue::Number(n))
        | (PlainValue::Number(n), PlainValue::Code(p)) => compare_to_number(sizes, p, n),
        _ => UNKNOWN,
    }
}

/// What is known of a comparison of the low bits of two values: less, greater, equal and summary overflow, which is false. Text sections
/// have these sizes.
pub fn order_of(
    sizes: &[u64],
    width: Width,
    sign: Sign,
    x: PlainValue,
    y: PlainValue,
) -> [Option<bool>; 4]
    ensures { result ≡ order_of (slice_index sizes.now) width sign x y }
{
    if let (PlainValue::Number(a), PlainValue::Number(b)) = (x, y) {
        let [less, greater, equal, overflow] = compare(width, sign, a, b);
        return [Some(less), Some(greater), Some(equal), Some(overflow)];
    }
    match width {
        Width::Long => compare_long(sizes, x, y),
        Width::Word | Width::Half | Width::Byte => UNKNOWN,
    }
}
