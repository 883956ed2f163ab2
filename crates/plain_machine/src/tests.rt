// Values, and memory that holds them.

use crate::action::{Action, Effect, FullCall, Need};
use crate::compute::{calculate, order_of};
use crate::kept::{AddressRange, Kept};
use crate::machine::{Performed, PlainMachine};
use crate::memory::PlainMemory;
use crate::others::Others;
use crate::place::TextPlace;
use crate::same::same_value;
use crate::start::Program;
use crate::value::PlainValue;
use power_insns::meaning::{Function, Sign, Width};
use power_machine::{AddressSpace, Reason, Stored, World};
use std::process::Abort;
use std::test::Fail;

const PLACE: TextPlace = TextPlace {
    section: 1,
    offset: 0x20,
};

const NEXT: TextPlace = TextPlace {
    section: 1,
    offset: 0x24,
};

const TABLE_ENTRY: PlainValue = PlainValue::Difference {
    to: PLACE,
    from: 0x1000_0000,
};

#[test]
fn a_difference_and_a_number_make_a_place_by_one_function_alone(rt: HostRuntime) {
    let number = PlainValue::Number(0x1000_0004);
    let sum = calculate(Function::RegisterSum, TABLE_ENTRY, number);
    assert!(rt; same_value(sum, PlainValue::Code(NEXT)));
    let turned = calculate(Function::RegisterSum, number, TABLE_ENTRY);
    assert!(rt; same_value(turned, PlainValue::Code(NEXT)));
    let other = calculate(Function::Sum, TABLE_ENTRY, number);
    assert!(rt; !same_value(other, PlainValue::Code(NEXT)));
}

#[test]
fn places_are_compared_for_equality_where_they_are_inside_their_sections(rt: HostRuntime) {
    let sizes = [0x10, 0x24];
    let place = PlainValue::Code(PLACE);
    let zero = PlainValue::Number(0);
    assert!(rt; order_of(&sizes, Width::Long, Sign::Signed, place, place)[2] == Some(true));
    assert!(rt; order_of(&sizes, Width::Long, Sign::Unsigned, place, zero)[2] == Some(false));
    assert!(rt; order_of(&sizes, Width::Word, Sign::Signed, place, place)[2].is_none());
    let past = PlainValue::Code(NEXT);
    assert!(rt; order_of(&sizes, Width::Long, Sign::Signed, past, past)[2].is_none());
}

fn loads(memory: &PlainMemory, width: Width, at: u64, value: PlainValue) -> bool {
    match memory.load(width, Sign::Unsigned, at) {
        Some(loaded) => same_value(loaded, value),
        None => false,
    }
}

#[test]
fn an_address_is_loaded_whole_and_lost_where_a_number_is_stored_over(
    rt: HostRuntime,
) -> Result<(), Fail> {
    let alloc = rt.alloc();
    let mut kept = Vec::new(alloc);
    kept.push(AddressRange {
        start: 0x7FFF_E100,
        stop: 0x7FFF_E108,
    })?;
    let mut memory = PlainMemory {
        numbers: AddressSpace::of(alloc, Vec::new(alloc))?,
        others: Others::none(alloc),
        kept: Kept::of_ranges(alloc, kept)?,
    };
    let place = PlainValue::Code(PLACE);
    assert!(rt; matches!(memory.store(Width::Long, 0x7FFF_E004, place), Stored::Whole));
    assert!(rt; loads(&memory, Width::Long, 0x7FFF_E004, place));
    assert!(rt; !loads(&memory, Width::Word, 0x7FFF_E004, place));
    assert!(rt; loads(&memory, Width::Long, 0x7FFF_E00C, PlainValue::Number(0)));
    let byte = PlainValue::Number(0x1FF);
    assert!(rt; matches!(memory.store(Width::Byte, 0x7FFF_E00B, byte), Stored::Whole));
    assert!(rt; loads(&memory, Width::Byte, 0x7FFF_E00B, PlainValue::Number(0xFF)));
    assert!(rt; !loads(&memory, Width::Long, 0x7FFF_E004, place));
    assert!(rt;
        matches!(
            memory.store(Width::Word, 0x7FFF_E0FE, byte),
            Stored::Outside
        )
    );
    assert!(rt; matches!(memory.store(Width::Word, 0x7FFF_E0FC, byte), Stored::Whole));
    assert!(rt;
        matches!(
            memory.store(Width::Byte, 0x8000_0000, byte),
            Stored::Outside
        )
    );
    Ok(())
}

/// A call to the first text section, whose callee is entered with its own address, and which saves the TOC base.
const CALL: Action = Action {
    first: Some(Need {
        register: 12,
        value: PlainValue::Code(PLACE),
        reason: Reason::Value,
    }),
    second: None,
    effect: Effect::Call(FullCall {
        to: TextPlace {
            section: 0,
            offset: 8,
        },
        link: true,
        enters: true,
        saves: Some(0x1000_8000),
    }),
};

#[test]
fn a_machine_starts_at_its_entry_and_a_call_goes_to_its_callee(
    rt: HostRuntime,
) -> Result<(), Fail> {
    let alloc = rt.alloc();
    let mut sizes = Vec::new(alloc);
    sizes.push(0x10)?;
    sizes.push(0x28)?;
    let program = Program {
        entry: PLACE,
        sizes,
        kept: Vec::new(alloc),
    };
    let mut machine = PlainMachine::start(alloc, program, Vec::new(alloc))?;
    assert!(rt; machine.place().section == 1 && machine.place().offset == 0x20);
    let mut world = World::new(Vec::new(alloc), Vec::new(alloc));
    assert!(rt; matches!(machine.perform(&CALL, &mut world), Performed::Went));
    assert!(rt; machine.place().section == 0 && machine.place().offset == 8);
    let registers = machine.core.registers;
    let callee = PlainValue::Code(TextPlace {
        section: 0,
        offset: 8,
    });
    assert!(rt; same_value(registers[12], callee));
    assert!(rt; same_value(registers[32], PlainValue::Code(NEXT)));
    let saved = machine
        .core
        .memory
        .load(Width::Long, Sign::Unsigned, 0x7FFF_F018);
    assert!(rt; saved.is_some());
    assert!(rt; machine.events().is_empty());
    Ok(())
}
