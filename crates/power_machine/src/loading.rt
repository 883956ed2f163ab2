// Loading an executable's segments.
ghost use Rattle.std.specs.Prelude.{◌≡◌, ◌<◌, ◌≤◌, ◌+◌, ◌-◌, ℕ, List, [], ◌∷◌, ◌++◌, length, map, IfOk, IsTrue, ◌↔◌, true, false};
ghost use Rattle.elf64_exec.specs.Executable.{ArePlaced};
ghost use Rattle.power_machine.specs.inside.Regions.{InOrder};
ghost use Rattle.power_machine.specs.Memory.{ranges_of, byte_at, keeps_page};
ghost use Rattle.power_machine.specs.Start.{IsStart, start_ranges, start_byte};
ghost use Rattle.power_machine.specs.Pages.{kept_pages, HasData};
ghost use Rattle.power_machine.specs.inside.Loading.{Fits, IsRegionOf, AreRegionsOf, stack};

use crate::machine::Machine;
use crate::memory::{AddressSpace, PAGE_SIZE, Region};
use crate::pages::pages_with;
use crate::state::Core;
use elf64_exec::{Segment, Segments};
use ppc_bytes::{Bytes, Memory};
use std::alloc::Global;

// The region of a segment. Pages in which it has only zeros aren't kept.
fn region_of(alloc: Global, segment: &Segment) -> Result<Region, Memory>
    requires { Fits segment.now }
    ensures { IfOk result (λ r. IsRegionOf segment.now r) }
{
    let first = segment.address / PAGE_SIZE;
    let stop = (segment.address + segment.size - 1) / PAGE_SIZE + 1;
    let from = (segment.address - first * PAGE_SIZE) as usize;
    let pages = pages_with(
        alloc,
        (stop - first) as usize,
        from,
        segment.bytes.as_slice(),
    )?;
    Ok(Region {
        start: segment.address,
        size: segment.size,
        writable: segment.flags / 2 % 2 == 1,
        executable: segment.flags % 2 == 1,
        pages,
    })
}

// The stack, as a segment that has no bytes in a file.
fn stack(alloc: Global) -> Segment
    ensures { result ≡ stack }
{
    Segment {
        flags: 6,
        address: 0x7F80_0000,
        bytes: Bytes::of(Vec::new(alloc)),
        size: 0x80_0000,
    }
}

// The regions of segments, and of the stack behind them.
fn regions_of(alloc: Global, segments: Vec<Segment>) -> Result<Vec<Region>, Memory>
    requires { ArePlaced segments.items }
    ensures { IfOk result (λ regions. AreRegionsOf (segments.items ++ stack ∷ []) regions.items) }
{
    let mut regions = Vec::with_capacity(alloc, segments.len() + 1)?;
    for segment in segments {
        regions.push(region_of(alloc, &segment)?)?;
    }
    regions.push(region_of(alloc, &stack(alloc))?)?;
    Ok(regions)
}

impl AddressSpace {
    /// Segments, and a stack of zeros from 0x7F800000 to 0x80000000. Those pages alone are kept in which a segment has a byte that isn't
    /// zero.
    pub fn of(alloc: Global, segments: Vec<Segment>) -> Result<AddressSpace, Memory>
        requires { ArePlaced segments.items }
        ensures ranges { IfOk result (λ m. ranges_of m.regions.items ≡ start_ranges segments.items) }
        ensures bytes { IfOk result (λ m. byte_at m.regions.items ≡ start_byte segments.items) }
        ensures pages { IfOk result (λ m. (page : ℕ) →
            IsTrue (keeps_page m.regions.items page) ↔ HasData segments.items page) }
    {
        let regions = regions_of(alloc, segments)?;
        Ok(AddressSpace { alloc, regions })
    }
}

impl Machine {
    /// The machine at the start of a program (ELFv2 ABI, "Process Initialization"): r1 is the stack pointer, r12 the entry, and every
    /// other register 0. The stack of zeros lies from 0x7F800000 to 0x80000000. Those pages alone are kept in which a segment has a
    /// byte that isn't zero.
    pub fn load(alloc: Global, segments: Segments) -> Result<Machine, Memory>
        requires { ArePlaced segments.list.items }
        ensures start { IfOk result (λ m. IsStart segments.entry segments.list.items m) }
        ensures pages { IfOk result (λ m. (page : ℕ) →
            IsTrue (kept_pages m page) ↔ HasData segments.list.items page) }
    {
        let entry = segments.entry;
        let memory = AddressSpace::of(alloc, segments.list)?;
        let mut registers = [0; 34];
        registers[1] = 0x7FFF_F000;
        registers[12] = entry;
        Ok(Machine {
            alloc,
            core: Core {
                at: entry,
                registers,
                condition: [false; 32],
                memory,
            },
            events: Vec::new(alloc),
            ended: None,
        })
    }
}
