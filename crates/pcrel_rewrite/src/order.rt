// Places of text in order, so that lists of them are searched by halves.
ghost use Rattle.std.specs.Prelude.{◌≡◌, ◌<◌, ◌^◌, nat_lt};
ghost use Rattle.std.specs.Ordering.{nat_cmp};
ghost use Rattle.pcrel_rewrite.specs.inside.Order.{rank};

use std::cmp::Ordering;
use symbol_table::CodePlace;

/// Whether a place comes before another one: by section, and then by offset.
pub fn comes_before(place: CodePlace, other: CodePlace) -> bool
    ensures { result ≡ nat_lt (rank place) (rank other) }
{
    place.section < other.section || (place.section == other.section && place.offset < other.offset)
}

/// How a place stands to another one.
pub fn place_order(place: CodePlace, other: CodePlace) -> Ordering
    ensures { result ≡ nat_cmp (rank place) (rank other) }
{
    if comes_before(place, other) {
        Ordering::Less
    } else if comes_before(other, place) {
        Ordering::Greater
    } else {
        Ordering::Equal
    }
}
