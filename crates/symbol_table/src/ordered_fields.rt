// Lists of fields in order of their places, and which of them have bytes of a range.
ghost use Rattle.std.specs.Prelude.{◌≡◌, ◌<◌, ◌≤◌, ◌+◌, ◌^◌, ◌&&◌, ℕ, All, IsTrue, length, filter};
ghost use Rattle.std.specs.List.{slice_index_or, list_any};
ghost use Rattle.std.specs.List.Sorted.{IsPermutation, IsNonDecreasingBy};
ghost use Rattle.symbol_table.specs.Fields.{meets, comes_before};
ghost use Rattle.symbol_table.specs.inside.Places.{rank};
ghost use Rattle.symbol_table.specs.inside.Fields.{rank_of, AreTwo, AreApart};

use crate::fields::{RecordField, comes_before};
use crate::places::FilePlace;

/// How many bytes the largest field has.
const LARGEST_FIELD: u64 = 8;

/// Whether fields are in order of their places.
fn are_sorted(fields: &[RecordField]) -> bool
    ensures { IsTrue result → IsNonDecreasingBy rank_of fields.now }
{
    for i in 1..fields.len() {
        if fields[i].place().is_before(fields[i - 1].place()) {
            return false;
        }
    }
    true
}

/// Puts fields in order of their places. Those of a compiler's files mostly are.
pub fn sort_fields(fields: &mut Vec<RecordField>)
    ensures same { IsPermutation fields.old.items fields.new.items }
    ensures sorted { IsNonDecreasingBy rank_of fields.new.items }
{
    if !are_sorted(fields) {
        fields.sort_unstable_by(|f, g| f.place().order(g.place()));
    }
}

/// Whether each of fields in order ends before the next one begins, so that no two have a byte in common. Those of a compiler's files
/// mostly do.
pub fn are_apart(fields: &[RecordField]) -> bool
    ensures { IsTrue result → AreApart fields.now }
{
    for i in 1..fields.len() {
        if !fields[i - 1].ends_before(fields[i]) {
            return false;
        }
    }
    true
}

/// How many of fields in order begin before a place.
fn count_before(fields: &[RecordField], place: FilePlace) -> usize
    requires { IsNonDecreasingBy rank_of fields.now }
    ensures within { result ≤ length fields.now }
    ensures before { (k : ℕ) (d : RecordField) → k < result →
        rank_of (slice_index_or fields.now k d) < rank place }
    ensures after { (k : ℕ) (d : RecordField) → result ≤ k → k < length fields.now →
        rank place ≤ rank_of (slice_index_or fields.now k d) }
{
    fields.partition_point(|f| f.place().is_before(place))
}

/// How many of the first fields, of fields in order, begin before a place: they are gone through, since mostly they are few.
fn walk_before(fields: &[RecordField], place: FilePlace) -> usize
    requires { IsNonDecreasingBy rank_of fields.now }
    ensures within { result ≤ length fields.now }
    ensures after { (k : ℕ) (d : RecordField) → result ≤ k → k < length fields.now →
        rank place ≤ rank_of (slice_index_or fields.now k d) }
{
    for i in 0..fields.len() {
        if !fields[i].place().is_before(place) {
            return i;
        }
    }
    fields.len()
}

/// The part of fields in order that holds those that have bytes among so many of a section from an offset on.
pub fn window(fields: &[RecordField], section: u32, from: u64, count: u32) -> &[RecordField]
    requires sorted { IsNonDecreasingBy rank_of fields.now }
    requires narrow { All (λ f. f.width ≤ 8) fields.now }
    requires fits { from + count < 2 ^ 64 }
    ensures { filter (meets section from count) result.now
        ≡ filter (meets section from count) fields.now }
{
    let first = FilePlace {
        section,
        offset: from.saturating_sub(LARGEST_FIELD),
    };
    let end = FilePlace {
        section,
        offset: from + u64::from(count),
    };
    let rest = &fields[count_before(fields, first)..];
    &rest[..walk_before(rest, end)]
}

/// Whether one of fields has bytes that are also this one's, and is an earlier record's.
pub fn has_earlier(fields: &[RecordField], field: RecordField) -> bool
    ensures { let section = field.id.section in
        result ≡ list_any
        (λ f. meets section field.start field.width f && comes_before f.id field.id) fields.now }
{
    let RecordField { id, start, width } = field;
    fields.iter().any(|f| f.meets(id.section, start, width) && comes_before(f.id, id))
}

/// Whether one of fields has bytes among so many of a section from an offset on.
pub fn any_meets(fields: &[RecordField], section: u32, from: u64, count: u32) -> bool
    ensures { result ≡ list_any (meets section from count) fields.now }
{
    fields.iter().any(|f| f.meets(section, from, count))
}

/// The fields that have bytes among so many of a section from an offset on, where there are two of them.
pub fn only_two(
    fields: &[RecordField],
    section: u32,
    from: u64,
    count: u32,
) -> Option<(RecordField, RecordField)>
    ensures { AreTwo (filter (meets section from count) fields.now) result }
{
    let mut first = None;
    let mut second = None;
    for field in fields {
        if field.meets(section, from, count) {
            if second.is_some() {
                return None;
            }
            second = first;
            first = Some(*field);
        }
    }
    match (second, first) {
        (Some(f), Some(g)) => Some((f, g)),
        _ => None,
    }
}
