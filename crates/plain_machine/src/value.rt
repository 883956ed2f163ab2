// The values of a run that knows no code addresses.
ghost use Rattle.std.specs.Prelude.{◌≡◌, Bool};
ghost use Rattle.plain_machine.specs.inside.Others.{is_number};

use crate::place::TextPlace;

/// Where an address goes of which a part is made: into the table of contents, elsewhere in data or to a number, or to a place in text. Of
/// two addresses elsewhere that have one high half, one may be reached through the other's.
#[derive(Clone, Copy)]
pub enum PartTarget {
    /// A number that is the address of a byte of the table of contents.
    Toc(u64),

    /// Another number.
    Elsewhere,

    /// A place in text.
    Place(TextPlace),
}

/// A part of an address, which only the instruction that makes the rest may use.
#[derive(Clone, Copy)]
pub enum Part {
    /// The TOC base of a file and a high half: of the distance from the base to the target, rounded so that a signed low half makes
    /// the rest. Of a place the half isn't known.
    Toc {
        /// The file.
        file: u32,
        /// Where the address goes.
        target: PartTarget,
        /// The high half, which may have more than 16 bits.
        high: Option<i64>,
    },

    /// The high half of a place's address, rounded so that a signed low half makes the rest.
    Adjusted(TextPlace),

    /// The high half of a place's address.
    High(TextPlace),

    /// What the first instruction of the recognised prologue at a place leaves in r2.
    Prologue(TextPlace),
}

/// What a register holds.
#[derive(Clone, Copy)]
pub enum PlainValue {
    /// A number.
    Number(u64),

    /// The address of a place in text.
    Code(TextPlace),

    /// A part of an address.
    Part(Part),

    /// The address that the load of a recognised pair gives, told by the place of the load.
    Pair(TextPlace),

    /// The address of a place less a number.
    Difference {
        /// The place.
        to: TextPlace,
        /// The number.
        from: u64,
    },

    /// A value of which nothing is known.
    Junk,
}

/// A byte of memory.
#[derive(Clone, Copy)]
pub enum Cell {
    /// A number.
    Number(u8),

    /// Byte `piece`, 0 to 7, of the address of a place in text, the lowest first.
    Code {
        /// The place.
        place: TextPlace,
        /// Which byte.
        piece: u32,
    },

    /// Byte `piece`, 0 to 7, of the TOC base that a call saved for the restore behind it.
    Slot {
        /// The place of the call.
        site: TextPlace,
        /// Which byte.
        piece: u32,
    },

    /// Byte `piece`, 0 to 3, of the address of a place less a number.
    Difference {
        /// The place.
        to: TextPlace,
        /// The number.
        from: u64,
        /// Which byte.
        piece: u32,
    },

    /// A byte of which nothing is known.
    Junk,
}

impl Cell {
    /// Whether the byte is a number.
    pub fn is_number(self) -> bool
        ensures { result ≡ is_number self }
    {
        match self {
            Cell::Number(_) => true,
            _ => false,
        }
    }
}
