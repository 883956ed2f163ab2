// Which pages are kept.
ghost use Rattle.std.specs.Prelude.{◌+◌, ◌<◌, ◌≤◌, length, IfOk};
ghost use Rattle.elf64_exec.specs.Executable.{ArePlaced};

use crate::test_programs::{bytes_of, program, world};
use crate::{Machine, Outcome, Reason};
use elf64_exec::{Segment, Segments};
use ppc_bytes::{Bytes, Memory};
use std::alloc::Global;
use std::process::Abort;
use std::test::Fail;

// A text of 12 bytes, and behind it writable memory of so many bytes, of which the file has these.
fn image(alloc: Global, text: Vec<u8>, bytes: Vec<u8>, size: u64) -> Result<Segments, Memory>
    requires text { length text.items < 0x1000 }
    requires some { 0 < length text.items }
    requires bytes { length bytes.items ≤ size }
    requires size { size ≤ 0x30000000 }
    requires any { 0 < size }
    ensures { IfOk result (λ s. ArePlaced s.list.items) }
{
    let mut list = Vec::new(alloc);
    let text_size = text.len() as u64;
    list.push(Segment {
        flags: 5,
        address: 0x1000_0000,
        bytes: Bytes::of(text),
        size: text_size,
    })?;
    list.push(Segment {
        flags: 6,
        address: 0x2000_0000,
        bytes: Bytes::of(bytes),
        size,
    })?;
    Ok(Segments {
        entry: 0x1000_0000,
        list,
    })
}

// The machine on such an image.
fn machine(alloc: Global, words: &str, data: &[u8], size: u64) -> Result<Machine, Fail> {
    let text = bytes_of(alloc, &[words])?;
    if text.is_empty() || text.len() >= 0x1000 || size == 0 || size > 0x3000_0000 {
        return Err(Fail::new("an image of other sizes is wanted"));
    }
    let data = Vec::from_slice(alloc, data)?;
    if data.len() as u64 > size {
        return Err(Fail::new("more memory is wanted"));
    }
    let segments = image(alloc, text, data, size)?;
    Ok(Machine::load(alloc, segments)?)
}

fn kept_are(rt: &impl Abort, machine: &Machine, pages: &[(u64, bool)]) {
    for (page, kept) in pages {
        assert_eq!(rt; machine.page_kept(*page), *kept, "{page:x}");
    }
}

#[test]
fn the_stack_isn_t_kept_before_a_store(rt: HostRuntime) -> Result<(), Fail> {
    // li r0,1; li r3,7; sc
    let mut machine = machine(rt.alloc(), "38000001 38600007 44000002", &[], 8)?;
    let pages = [
        (0x10000, true),
        (0x20000, false),
        (0x7FFFE, false),
        (0x7FFFF, false),
    ];
    kept_are(&rt, &machine, &pages);
    let mut world = world(rt.alloc(), "", "whole")?;
    assert_eq!(rt; machine.run(9, &mut world), Outcome::Exited(7));
    kept_are(&rt, &machine, &pages);
    Ok(())
}

#[test]
fn pages_of_zeros_aren_t_kept(rt: HostRuntime) -> Result<(), Fail> {
    let mut data = Vec::new(rt.alloc());
    data.resize(0x3001, 0)?;
    data[0xFFF] = 1;
    data[0x2000] = 2;
    // b .
    let machine = machine(rt.alloc(), "48000000", data.as_slice(), 0x5000)?;
    kept_are(
        &rt,
        &machine,
        &[
            (0x20000, true),
            (0x20001, false),
            (0x20002, true),
            (0x20003, false),
            (0x20004, false),
            (0x20005, false),
            (0, false),
            (u64::MAX, false),
        ],
    );
    Ok(())
}

#[test]
fn a_store_across_two_pages_keeps_both(rt: HostRuntime) -> Result<(), Fail> {
    // std r12,-4(r1); ld r3,-4(r1); li r0,1; sc
    let mut machine = machine(rt.alloc(), "F981FFFC E861FFFC 38000001 44000002", &[], 8)?;
    let mut world = world(rt.alloc(), "", "whole")?;
    assert_eq!(rt; machine.run(1, &mut world), Outcome::Budget);
    kept_are(
        &rt,
        &machine,
        &[
            (0x7FFFD, false),
            (0x7FFFE, true),
            (0x7FFFF, true),
            (0x80000, false),
        ],
    );
    assert_eq!(rt; machine.run(9, &mut world), Outcome::Exited(0));
    Ok(())
}

#[test]
fn a_load_and_a_refused_store_keep_no_page(rt: HostRuntime) -> Result<(), Fail> {
    // ld r3,-4(r1); lis r4,0x2000; ld r5,4(r4); std r5,4(r4)
    let words = "E861FFFC 3C802000 E8A40004 F8A40004";
    let mut machine = machine(rt.alloc(), words, &[], 8)?;
    let mut world = world(rt.alloc(), "", "whole")?;
    assert_eq!(rt;
        machine.run(9, &mut world),
        Outcome::Left(Reason::Load, 0x1000_0008)
    );
    kept_are(
        &rt,
        &machine,
        &[(0x20000, false), (0x7FFFE, false), (0x7FFFF, false)],
    );
    Ok(())
}

#[test]
fn a_read_keeps_the_pages_of_its_bytes(rt: HostRuntime) -> Result<(), Fail> {
    // li r0,3; li r3,0; addi r4,r1,-1; li r5,16; sc; li r0,1; sc
    let words = "38000003 38600000 3881FFFF 38A00010 44000002 38000001 44000002";
    for (answers, status, last, first) in [
        ("whole", 3, true, true),
        ("short 1", 1, true, false),
        ("short 0", 0, false, false),
        ("error 5", 5, false, false),
    ] {
        let segments = program(rt.alloc(), [0, 0], &[words])?;
        let mut machine = Machine::load(rt.alloc(), segments)?;
        let mut world = world(rt.alloc(), "hi\n", answers)?;
        assert_eq!(rt; machine.run(9, &mut world), Outcome::Exited(status));
        kept_are(&rt, &machine, &[(0x7FFFE, last), (0x7FFFF, first)]);
    }
    Ok(())
}

#[test]
fn memory_that_is_never_used_takes_no_page(rt: HostRuntime) -> Result<(), Fail> {
    // lis r4,0x4000; lis r5,0x4FFF; std r4,0(r5); ld r3,0(r5); srdi r3,r3,24; li r0,1; sc
    let words = "3C804000 3CA04FFF F8850000 E8650000 78634602 38000001 44000002";
    let mut machine = machine(rt.alloc(), words, &[], 0x3000_0000)?;
    let mut world = world(rt.alloc(), "", "whole")?;
    assert_eq!(rt; machine.run(9, &mut world), Outcome::Exited(0x40));
    kept_are(
        &rt,
        &machine,
        &[
            (0x20000, false),
            (0x4FFEF, false),
            (0x4FFF0, true),
            (0x4FFF1, false),
        ],
    );
    Ok(())
}
