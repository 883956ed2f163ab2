// Whether values are the same, as far as they are known.
ghost use Rattle.std.specs.Prelude.{◌≡◌, ◌+◌, ◌==◌, ◌&&◌, ◌≤◌, ◌<◌, Bool, List, Option, drop, length};
ghost use Rattle.plain_machine.specs.Values.{same_place, same_target, same_high, same_part, same_value, same_cell, same_cells};

use crate::place::TextPlace;
use crate::value::{Cell, Part, PartTarget, PlainValue};

/// Whether two places are the same.
pub fn same_place(p: TextPlace, q: TextPlace) -> bool
    ensures { result ≡ same_place p q }
{
    p.section == q.section && p.offset == q.offset
}

/// Whether parts of two addresses go to where one may be reached through the other.
fn same_target(a: PartTarget, b: PartTarget) -> bool
    ensures { result ≡ same_target a b }
{
    match (a, b) {
        (PartTarget::Toc(n), PartTarget::Toc(m)) => n == m,
        (PartTarget::Elsewhere, PartTarget::Elsewhere) => true,
        (PartTarget::Place(p), PartTarget::Place(q)) => same_place(p, q),
        _ => false,
    }
}

/// Whether two high halves are the same, or neither is known.
fn same_high(a: Option<i64>, b: Option<i64>) -> bool
    ensures { result ≡ same_high a b }
{
    match (a, b) {
        (None, None) => true,
        (Some(h), Some(k)) => h == k,
        _ => false,
    }
}

/// Whether one part of an address may stand for the other.
fn same_part(a: Part, b: Part) -> bool
    ensures { result ≡ same_part a b }
{
    match (a, b) {
        (
            Part::Toc { file, target, high },
            Part::Toc {
                file: other,
                target: to,
                high: half,
            },
        ) => file == other && same_target(target, to) && same_high(high, half),
        (Part::Adjusted(p), Part::Adjusted(q)) => same_place(p, q),
        (Part::High(p), Part::High(q)) => same_place(p, q),
        (Part::Prologue(p), Part::Prologue(q)) => same_place(p, q),
        _ => false,
    }
}

/// Whether two values are known to be the same.
pub fn same_value(a: PlainValue, b: PlainValue) -> bool
    ensures { result ≡ same_value a b }
{
    match (a, b) {
        (PlainValue::Number(n), PlainValue::Number(m)) => n == m,
        (PlainValue::Code(p), PlainValue::Code(q)) => same_place(p, q),
        (PlainValue::Part(p), PlainValue::Part(q)) => same_part(p, q),
        (PlainValue::Pair(p), PlainValue::Pair(q)) => same_place(p, q),
        (
            PlainValue::Difference { to, from },
            PlainValue::Difference {
                to: place,
                from: number,
            },
        ) => same_place(to, place) && from == number,
        _ => false,
    }
}

/// Whether two bytes are known to be the same.
pub fn same_cell(a: Cell, b: Cell) -> bool
    ensures { result ≡ same_cell a b }
{
    match (a, b) {
        (Cell::Number(n), Cell::Number(m)) => n == m,
        (
            Cell::Code { place, piece },
            Cell::Code {
                place: other,
                piece: i,
            },
        ) => same_place(place, other) && piece == i,
        (
            Cell::Slot { site, piece },
            Cell::Slot {
                site: other,
                piece: i,
            },
        ) => same_place(site, other) && piece == i,
        (
            Cell::Difference { to, from, piece },
            Cell::Difference {
                to: other,
                from: number,
                piece: i,
            },
        ) => same_place(to, other) && from == number && piece == i,
        _ => false,
    }
}

/// Whether bytes are known to be the same, one by one.
pub fn same_cells(a: &[Cell], b: &[Cell]) -> bool
    ensures { result ≡ same_cells a.now b.now }
{
    if a.len() != b.len() {
        return false;
    }
    for (i, cell) in a.iter().enumerate() {
        if !same_cell(*cell, b[i]) {
            return false;
        }
    }
    true
}
