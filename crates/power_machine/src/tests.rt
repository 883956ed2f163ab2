// Runs: how many steps they take, why they leave, and where a pair may stand.
use crate::test_programs::{program, world};
use crate::{Machine, Outcome, Reason};
use std::alloc::Global;
use std::test::Fail;

// What a program comes to within so many steps.
fn run(alloc: Global, words: &str, budget: u64) -> Result<Outcome, Fail> {
    let mut machine = Machine::load(alloc, program(alloc, [0, 0], &[words])?)?;
    Ok(machine.run(budget, &mut world(alloc, "", "whole")?))
}

#[test]
fn the_smallest_program_exits_in_three_steps(rt: HostRuntime) -> Result<(), Fail> {
    // li r0,1; li r3,7; sc
    let words = "38000001 38600007 44000002";
    assert_eq!(rt; run(rt.alloc(), words, 3)?, Outcome::Exited(7));
    assert_eq!(rt; run(rt.alloc(), words, 2)?, Outcome::Budget);
    assert_eq!(rt; run(rt.alloc(), words, 0)?, Outcome::Budget);
    Ok(())
}

// The assembly, the words, and why and where their run leaves. The text begins at 0x1040, right behind the data.
const LEAVES: [(&str, &str, Reason, u64); 27] = [
    ("b .+0x40", "48000040", Reason::Fetch, 0x1080),
    ("b .-0x40", "4BFFFFC0", Reason::Fetch, 0x1000),
    (
        "nop, and nothing behind it",
        "60000000",
        Reason::Fetch,
        0x1044,
    ),
    ("blr", "4E800020", Reason::Fetch, 0),
    ("a word of zeros", "00000000", Reason::Word, 0x1040),
    ("lhzu r3,0(r4)", "A4640000", Reason::Word, 0x1040),
    ("bdnzctr", "4E000420", Reason::Word, 0x1040),
    ("sc 1", "44000022", Reason::Word, 0x1040),
    (
        "a prefix at the end of the text",
        "06000000",
        Reason::Word,
        0x1040,
    ),
    (
        "a prefix before nop",
        "06000000 60000000",
        Reason::Word,
        0x1040,
    ),
    ("ld r3,0(0)", "E8600000", Reason::Load, 0x1040),
    ("lbz r3,0xFFF(0)", "88600FFF", Reason::Load, 0x1040),
    (
        "lwz r3,0x103D(0) into the text",
        "8060103D",
        Reason::Load,
        0x1040,
    ),
    ("ld r3,0xFFC(r1)", "E8610FFC", Reason::Load, 0x1040),
    ("plbz r3,8(0),1", "06100000 88600008", Reason::Load, 0x1040),
    (
        "std r3,0(r12) in the text",
        "F86C0000",
        Reason::Store,
        0x1040,
    ),
    ("stw r3,0x103D(0)", "9060103D", Reason::Store, 0x1040),
    ("stdu r3,-8(r3)", "F863FFF9", Reason::Store, 0x1040),
    (
        "li r3,5; divd r3,r3,r4",
        "38600005 7C6323D2",
        Reason::Divide,
        0x1044,
    ),
    (
        "li r3,5; divdu r3,r3,r4",
        "38600005 7C632392",
        Reason::Divide,
        0x1044,
    ),
    (
        "li r3,-1; sldi r4,r3,63; divd r4,r4,r3",
        "3860FFFF 7864F806 7C841BD2",
        Reason::Divide,
        0x1048,
    ),
    ("li r0,2; sc", "38000002 44000002", Reason::Call, 0x1044),
    (
        "a read of a byte at 0",
        "38000003 38A00001 44000002",
        Reason::Store,
        0x1048,
    ),
    (
        "li r0,3; li r4,0x103C; li r5,5; sc",
        "38000003 3880103C 38A00005 44000002",
        Reason::Store,
        0x104C,
    ),
    (
        "li r0,3; li r4,0x1040; li r5,1; sc",
        "38000003 38801040 38A00001 44000002",
        Reason::Store,
        0x104C,
    ),
    (
        "li r0,3; li r4,0x1000; li r5,-1; sc",
        "38000003 38801000 38A0FFFF 44000002",
        Reason::Store,
        0x104C,
    ),
    (
        "li r0,4; li r4,0xFFF; li r5,1; sc",
        "38000004 38800FFF 38A00001 44000002",
        Reason::Load,
        0x104C,
    ),
];

#[test]
fn each_reason_to_leave_at_its_edges(rt: HostRuntime) -> Result<(), Fail> {
    for (name, words, reason, at) in LEAVES {
        assert_eq!(rt;
            run(rt.alloc(), words, 9)?,
            Outcome::Left(reason, at),
            "{name}"
        );
    }
    Ok(())
}

#[test]
fn a_pair_may_not_cross_a_boundary_of_64_bytes(rt: HostRuntime) -> Result<(), Fail> {
    // seven nops
    let nops = "60000000 60000000 60000000 60000000 60000000 60000000 60000000";
    // paddi r3,0,7
    let pair = "06000000 38600007";
    // li r0,1; sc
    let exit = "38000001 44000002";
    for (parts, outcome) in [
        (
            [nops, nops, "60000000", pair, exit],
            Outcome::Left(Reason::Word, 0x107C),
        ),
        ([nops, nops, "", pair, exit], Outcome::Exited(7)),
        (
            [nops, nops, "60000000 60000000", pair, exit],
            Outcome::Exited(7),
        ),
    ] {
        let mut machine = Machine::load(rt.alloc(), program(rt.alloc(), [0, 0], &parts)?)?;
        assert_eq!(rt;
            machine.run(99, &mut world(rt.alloc(), "", "whole")?),
            outcome
        );
    }
    Ok(())
}
