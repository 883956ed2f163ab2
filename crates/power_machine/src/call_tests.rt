// Calls of the system, and how a world answers them.
use crate::test_programs::{CONDITION, left_in_r3, number_of, program, row_of, world};
use crate::{Event, Machine, Outcome, StepOutcome};
use std::alloc::Global;
use std::process::Abort;
use std::test::Fail;

// Reads of 5 bytes to 16(r9), which holds ones before, with an input of 6 bytes. A row has the answers in its third column.
const READS: &str = "\
li r0,3; sc                                   | 38000003 44000002                                     | whole            | 5
li r0,3; sc                                   | 38000003 44000002                                     | short 2          | 2
li r0,3; sc                                   | 38000003 44000002                                     | short 0          | 0
li r0,3; sc                                   | 38000003 44000002                                     | short 9          | 5
li r0,3; sc                                   | 38000003 44000002                                     | error 4095       | FFF
li r0,3; sc; ld r3,16(r9)                     | 38000003 44000002 E8690010                            | whole            | FFFFFF6F6C6C6568
li r0,3; sc; ld r3,16(r9)                     | 38000003 44000002 E8690010                            | short 2          | FFFFFFFFFFFF6568
li r0,3; sc; ld r3,16(r9)                     | 38000003 44000002 E8690010                            | short 0          | FFFFFFFFFFFFFFFF
li r0,3; sc; ld r3,16(r9)                     | 38000003 44000002 E8690010                            | error 1          | FFFFFFFFFFFFFFFF
li r0,3; sc; sc                               | 38000003 44000002 44000002                            | whole            | 1
li r0,3; sc; sc                               | 38000003 44000002 44000002                            | short 2          | 4
li r0,3; sc; sc                               | 38000003 44000002 44000002                            | error 1          | 5
li r0,3; sc; sc                               | 38000003 44000002 44000002                            | error 1, error 2 | 2
li r0,3; sc; sc; ld r3,16(r9)                 | 38000003 44000002 44000002 E8690010                   | short 2          | FFFFFFFF0A6F6C6C
li r0,3; sc; sc; sc                           | 38000003 44000002 44000002 44000002                   | whole            | 0
li r0,3; sc; li r5,0; sc                      | 38000003 44000002 38A00000 44000002                   | error 1, whole   | 0";

// What is in CR after reads.
const SUMMARIES: &str = "\
cmpdi r9,0; li r0,3; sc             | 2C290000 38000003 44000002          | whole   | 40000000
cmpdi r9,0; li r0,3; sc             | 2C290000 38000003 44000002          | short 0 | 40000000
cmpdi r9,0; li r0,3; sc             | 2C290000 38000003 44000002          | error 5 | 50000000
cmpdi r9,0; li r0,3; sc; sc         | 2C290000 38000003 44000002 44000002 | error 5 | 40000000
li r0,3; sc; cmpdi r9,0             | 38000003 44000002 2C290000          | error 5 | 40000000
li r0,3; sc; add. r3,r9,r9          | 38000003 44000002 7C694A15          | error 5 | 40000000";

fn all_leave(rt: &impl Abort, alloc: Global, rows: &str, after: &str) -> Result<(), Fail> {
    for line in rows.lines() {
        let row = row_of(line)?;
        let mut world = world(alloc, "hello\n", row.given)?;
        // std r0,16(r9)
        let parts = ["F8090010", row.words, after];
        let left = left_in_r3(alloc, [0x1010, 5], &parts, &mut world)?;
        assert_eq!(rt; left, Some(number_of(row.wanted)?), "{line}");
    }
    Ok(())
}

#[test]
fn reads_give_what_input_and_answer_allow(rt: HostRuntime) -> Result<(), Fail> {
    all_leave(&rt, rt.alloc(), READS, "")
}

#[test]
fn calls_set_the_summary_bit_alone(rt: HostRuntime) -> Result<(), Fail> {
    all_leave(&rt, rt.alloc(), SUMMARIES, CONDITION)
}

// A call that was made: read or write by its number, descriptor, address, length, bytes, and the error.
type Call<'a> = (u64, u64, u64, u64, &'a str, u32);

fn all_are(rt: &impl Abort, events: &[Event], calls: &[Call<'_>]) {
    assert_eq!(rt; events.len(), calls.len());
    for (event, call) in events.iter().zip(calls) {
        let (number, fd, address, length, bytes, error) = *call;
        assert_eq!(rt; event.number, number);
        assert_eq!(rt; event.fd, fd);
        assert_eq!(rt; event.address, address);
        assert_eq!(rt; event.length, length);
        assert_eq!(rt; event.bytes.as_slice(), bytes.as_bytes());
        assert_eq!(rt; event.error, error);
    }
}

#[test]
fn a_read_is_answered_whole_short_and_by_error(rt: HostRuntime) -> Result<(), Fail> {
    // li r0,3; li r3,0; addi r4,r1,-256; li r5,16; sc; li r0,1; sc
    let words = "38000003 38600000 3881FF00 38A00010 44000002 38000001 44000002";
    for (answers, bytes, error, status) in [
        ("whole", "hi\n", 0, 3),
        ("short 1", "h", 0, 1),
        ("error 5", "", 5, 5),
    ] {
        let mut machine = Machine::load(rt.alloc(), program(rt.alloc(), [0, 0], &[words])?)?;
        let mut world = world(rt.alloc(), "hi\n", answers)?;
        assert_eq!(rt; machine.run(9, &mut world), Outcome::Exited(status));
        all_are(
            &rt,
            machine.events(),
            &[(3, 0, 0x7FFF_EF00, 16, bytes, error)],
        );
        assert_eq!(rt; machine.step(&mut world), StepOutcome::Ended(status));
        assert_eq!(rt; machine.run(0, &mut world), Outcome::Exited(status));
        assert_eq!(rt; machine.events().len(), 1);
    }
    Ok(())
}

#[test]
fn a_write_is_answered_whole_short_and_by_error(rt: HostRuntime) -> Result<(), Fail> {
    // li r0,4; li r3,-1; li r4,0x1001; li r5,3; sc; bns .+8; addi r3,r3,100; li r0,234; sc
    let words = "38000004 3860FFFF 38801001 38A00003 44000002 40830008 38630064 380000EA 44000002";
    let numbers = [u64::from_le_bytes(*b"abcdefgh"), 0];
    for (answers, bytes, error, status) in [
        ("whole", "bcd", 0, 3),
        ("short 2", "bc", 0, 2),
        ("short 0", "", 0, 0),
        ("short 4", "bcd", 0, 3),
        ("error 5", "", 5, 105),
    ] {
        let mut machine = Machine::load(rt.alloc(), program(rt.alloc(), numbers, &[words])?)?;
        let mut world = world(rt.alloc(), "hi\n", answers)?;
        assert_eq!(rt; machine.run(9, &mut world), Outcome::Exited(status));
        all_are(
            &rt,
            machine.events(),
            &[(4, u64::MAX, 0x1001, 3, bytes, error)],
        );
    }
    Ok(())
}

// Calls of length 0, then an exit with what they gave: the answer in the third column, and the address of the range.
const EMPTY: &str = "\
li r0,3; li r3,1; li r4,-1; li r5,0; sc; li r0,1; sc     | 38000003 38600001 3880FFFF 38A00000 44000002 38000001 44000002 | whole   | FFFFFFFFFFFFFFFF
li r0,3; li r3,1; li r4,0x1040; li r5,0; sc; li r0,1; sc | 38000003 38600001 38801040 38A00000 44000002 38000001 44000002 | short 2 | 1040
li r0,4; li r3,1; li r4,0; li r5,0; sc; li r0,1; sc      | 38000004 38600001 38800000 38A00000 44000002 38000001 44000002 | whole   | 0
li r0,4; li r3,1; li r4,-1; li r5,0; sc; li r0,1; sc     | 38000004 38600001 3880FFFF 38A00000 44000002 38000001 44000002 | error 5 | FFFFFFFFFFFFFFFF";

#[test]
fn a_call_of_length_0_may_have_any_address(rt: HostRuntime) -> Result<(), Fail> {
    for line in EMPTY.lines() {
        let row = row_of(line)?;
        let segments = program(rt.alloc(), [0, 0], &[row.words])?;
        let mut machine = Machine::load(rt.alloc(), segments)?;
        let mut world = world(rt.alloc(), "hi\n", row.given)?;
        let outcome = machine.run(99, &mut world);
        let event = machine.events().last().ok_or("an event is wanted")?;
        assert_eq!(rt;
            outcome,
            Outcome::Exited((event.error % 256) as u8),
            "{line}"
        );
        assert_eq!(rt; event.address, number_of(row.wanted)?, "{line}");
        assert_eq!(rt; event.length, 0, "{line}");
        assert_eq!(rt; event.bytes.as_slice().len(), 0, "{line}");
    }
    Ok(())
}

#[test]
fn a_program_copies_its_input_whatever_the_answers(rt: HostRuntime) -> Result<(), Fail> {
    // li r0,3; li r3,0; li r4,0x1010; li r5,4; sc; cmpdi r3,0; beq .+24; mr r5,r3; li r0,4; li r3,1; sc; b .-44; li r0,1; sc
    let words =
        "38000003 38600000 38801010 38A00004 44000002 2C230000 41820018 7C651B78 38000004 38600001 44000002 4BFFFFD4 38000001 44000002";
    let mut machine = Machine::load(rt.alloc(), program(rt.alloc(), [0, 0], &[words])?)?;
    let mut world = world(
        rt.alloc(),
        "hello\n",
        "short 1, whole, whole, short 2, short 3",
    )?;
    assert_eq!(rt; machine.run(99, &mut world), Outcome::Exited(0));
    let calls = [
        (3, 0, 0x1010, 4, "h", 0),
        (4, 1, 0x1010, 1, "h", 0),
        (3, 0, 0x1010, 4, "ello", 0),
        (4, 1, 0x1010, 4, "el", 0),
        (3, 0, 0x1010, 4, "\n", 0),
        (4, 1, 0x1010, 1, "\n", 0),
        (3, 0, 0x1010, 4, "", 0),
    ];
    all_are(&rt, machine.events(), &calls);
    Ok(())
}

#[test]
fn a_program_exits_with_the_low_byte_of_r3(rt: HostRuntime) -> Result<(), Fail> {
    for (words, status) in [
        // li r0,1; li r3,0x1FE; sc
        ("38000001 386001FE 44000002", 254),
        // li r0,234; li r3,0x100; sc
        ("380000EA 38600100 44000002", 0),
        // li r0,234; li r3,-1; sc
        ("380000EA 3860FFFF 44000002", 255),
    ] {
        let mut machine = Machine::load(rt.alloc(), program(rt.alloc(), [0, 0], &[words])?)?;
        let mut world = world(rt.alloc(), "", "whole")?;
        assert_eq!(rt; machine.run(3, &mut world), Outcome::Exited(status));
        assert_eq!(rt; machine.events().len(), 0);
    }
    Ok(())
}
