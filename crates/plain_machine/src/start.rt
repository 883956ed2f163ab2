// The machine at the start of a program.
ghost use Rattle.std.specs.Prelude.{◌≡◌, IfOk};
ghost use Rattle.elf64_exec.specs.Executable.{ArePlaced};
ghost use Rattle.plain_machine.specs.Start.{IsStart};

use crate::kept::{AddressRange, Kept};
use crate::machine::PlainMachine;
use crate::memory::PlainMemory;
use crate::others::Others;
use crate::place::TextPlace;
use crate::state::PlainCore;
use crate::value::PlainValue;
use elf64_exec::Segment;
use power_machine::AddressSpace;
use ppc_bytes::Memory;
use std::alloc::Global;

/// What a program is: where it is entered, the sizes of its text sections, and the bytes of data to which no store may go.
#[derive(Drop)]
pub struct Program {
    /// The place of its first instruction.
    pub entry: TextPlace,

    /// The sizes of its text sections in bytes.
    pub sizes: Vec<u64>,

    /// The addresses of its table of contents.
    pub kept: Vec<AddressRange>,
}

impl PlainMachine {
    /// The machine at the start of a program whose data has these segments (ELFv2 ABI, "Process Initialization"): r1 is the stack pointer,
    /// r12 the entry, and every other register 0. The stack of zeros lies from 0x7F800000 to 0x80000000.
    pub fn start(
        alloc: Global,
        program: Program,
        segments: Vec<Segment>,
    ) -> Result<PlainMachine, Memory>
        requires { ArePlaced segments.items }
        ensures { IfOk result (IsStart program segments.items) }
    {
        let numbers = AddressSpace::of(alloc, segments)?;
        let kept = Kept::of_ranges(alloc, program.kept)?;
        let mut registers = [PlainValue::Number(0); 34];
        registers[1] = PlainValue::Number(0x7FFF_F000);
        registers[12] = PlainValue::Code(program.entry);
        Ok(PlainMachine {
            alloc,
            core: PlainCore {
                at: program.entry,
                registers,
                condition: [Some(false); 32],
                memory: PlainMemory {
                    numbers,
                    others: Others::none(alloc),
                    kept,
                },
                sizes: program.sizes,
            },
            events: Vec::new(alloc),
            ended: None,
        })
    }
}
