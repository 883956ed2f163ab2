// Places of a file in order.
ghost use Rattle.std.specs.Prelude.{◌≡◌, ◌<◌, ◌^◌, nat_lt};
ghost use Rattle.std.specs.Ordering.{nat_cmp};
ghost use Rattle.symbol_table.specs.inside.Places.{rank, is_place};

use std::cmp::Ordering;

/// An offset of a section of a file.
#[derive(Clone, Copy)]
pub struct FilePlace {
    /// The section's number.
    pub section: u32,
    /// The offset in bytes.
    pub offset: u64,
}

impl FilePlace {
    /// How the place stands to another one: by section, and then by offset.
    pub fn order(self, other: FilePlace) -> Ordering
        ensures { result ≡ nat_cmp (rank self) (rank other) }
    {
        if self.is_before(other) {
            Ordering::Less
        } else if other.is_before(self) {
            Ordering::Greater
        } else {
            Ordering::Equal
        }
    }

    /// Whether the place comes before another one.
    pub fn is_before(self, other: FilePlace) -> bool
        ensures { result ≡ nat_lt (rank self) (rank other) }
    {
        self.section < other.section
            || (self.section == other.section && self.offset < other.offset)
    }
    /// Whether the place is this offset of this section.
    pub fn is_at(self, section: u32, at: u64) -> bool
        ensures is { result ≡ is_place section at self }
        ensures fits { self.offset < 2 ^ 64 }
    {
        self.section == section && self.offset == at
    }
}
