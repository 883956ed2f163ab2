// What data holds that depends on where text lies.
ghost use Rattle.std.specs.Prelude.{◌≡◌, ◌<◌, ◌^◌, OnOk, OnErr};
ghost use Rattle.plain_machine.specs.Start.{pointer_cells, held_state};
ghost use Rattle.plain_machine.specs.inside.Machine.{machine_state, Stays};
ghost use Rattle.plain_machine.specs.inside.Memory.{Holds, IsSame};

use crate::machine::PlainMachine;
use crate::memory::{JUNK, PlainMemory, code_cells, difference_cells};
use crate::place::TextPlace;
use power_insns::meaning::Width;
use power_machine::size_of;
use ppc_bytes::Memory;
use std::alloc::AllocError;

/// What data holds of a place in text.
#[derive(Clone, Copy)]
pub enum Pointer {
    /// Its address, in eight bytes.
    Address(TextPlace),

    /// Its address less a number, in four bytes.
    Difference {
        /// The place.
        to: TextPlace,
        /// The number.
        from: u64,
    },

    /// So many bytes of which nothing is known.
    Unknown(Width),
}

/// A pointer at an address.
#[derive(Clone, Copy)]
pub struct PlacedPointer {
    /// The address.
    pub at: u64,

    /// What stands there.
    pub pointer: Pointer,
}

impl PlainMemory {
    // Puts a pointer at its address, whatever may be stored there. Where memory is refused all stays as it was.
    fn hold_pointer(&mut self, placed: PlacedPointer) -> Result<(), AllocError>
        requires { placed.at < 2 ^ 63 }
        ensures held { OnOk result
            (Holds self.old self.new placed.at (pointer_cells placed.pointer)) }
        ensures refused { OnErr result (IsSame self.old self.new) }
    {
        match placed.pointer {
            Pointer::Address(place) => self.hold(placed.at, &code_cells(place)),
            Pointer::Difference { to, from } => self.hold(placed.at, &difference_cells(to, from)),
            Pointer::Unknown(width) => self.hold(placed.at, &JUNK[..size_of(width) as usize]),
        }
    }
}

impl PlainMachine {
    /// Puts a pointer at its address, whatever may be stored there. Where memory is refused all stays as it was.
    pub fn hold(&mut self, placed: PlacedPointer) -> Result<(), Memory>
        requires { placed.at < 2 ^ 63 }
        ensures held { OnOk result (machine_state self.new ≡
            held_state (machine_state self.old) placed) }
        ensures refused { OnErr result (machine_state self.new ≡ machine_state self.old) }
        ensures stays { Stays self.old self.new }
        ensures events { self.new.events ≡ self.old.events }
        ensures ended { self.new.ended ≡ self.old.ended }
    {
        match self.core.memory.hold_pointer(placed) {
            Ok(()) => Ok(()),
            Err(_) => Err(Memory),
        }
    }
}
