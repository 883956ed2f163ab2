// Jobs that keep a promise of the plain run, each beside jobs that break it. A row says how the run
// ends, and the statements of the two functions of its one file; `left REASON at OFFSET` is told of
// the file's first section. What keeps its promises ends alike when it is linked and run.
use super::objects::object_of;
use super::{columns_of, run, text_of, words_of};
use ppc_outside::{MemConsole, MemStore};
use std::alloc::Global;
use std::process::Abort;
use std::test::Fail;

/// What a command over these files prints, and its status.
fn ending_of(alloc: Global, store: &mut MemStore, words: &str) -> Result<(String, u8), Fail> {
    let mut console = MemConsole::new(alloc);
    let words = words_of(alloc, words)?;
    let ran = run(alloc, &words, store, &mut console)?;
    Ok((String::from_utf8(ran.text)?, ran.status))
}

/// What is printed where a run ends so, and the status.
fn ending_told(alloc: Global, end: &str) -> Result<(String, u8), Fail> {
    match end.split_once(" at ") {
        Some((left, offset)) => Ok((
            format!(in alloc; "{left} j.o section 1 offset {offset}\n")?,
            6,
        )),
        None => Ok((text_of(alloc, end)?, 0)),
    }
}

/// A job ends as its row says, linked too where it ends by itself.
fn job_ends(rt: &impl Abort, alloc: Global, align: u64, row: &str) -> Result<(), Fail> {
    let columns = columns_of(alloc, row)?;
    assert_eq!(rt; columns.len(), 3, "{row}");
    let mut store = MemStore::new(alloc);
    store.add("j.o", &object_of(alloc, align, columns[1], columns[2])?)?;
    let (text, status) = ending_told(alloc, columns[0])?;
    let (plain, answer) = ending_of(alloc, &mut store, "check j.o")?;
    assert_eq!(rt; plain, text, "{row}");
    assert_eq!(rt; answer, status, "{row}");
    if status == 0 {
        let (_, linked) = ending_of(alloc, &mut store, "link -o x j.o")?;
        assert_eq!(rt; linked, 0, "{row}");
        let (image, _) = ending_of(alloc, &mut store, "run x")?;
        assert_eq!(rt; image, text, "{row}");
    }
    Ok(())
}

/// Each row of a table does, where the functions lie in a section with this alignment.
pub fn jobs_end(rt: &impl Abort, alloc: Global, align: u64, jobs: &str) -> Result<(), Fail> {
    for row in jobs.lines() {
        job_ends(rt, alloc, align, row)?;
    }
    Ok(())
}

const CALLS: &str = "\
exit 3            | prologue; bl f; nop; exit                          | li r3,3; blr
left toc at 0x0   | bl f; nop; exit                                    | li r3,3; blr
left toc at 0xc   | prologue; li r2,0; bl f; nop; exit                 | li r3,3; blr
exit 3            | bl f@notoc; exit                                   | li r3,3; blr
exit 0            | bl weak; nop; exit                                 |
exit 5            | prologue; addis r9,r2,data@toc@ha; ld r3,data@toc@l(r9); exit |
left toc at 0x0   | addis r9,r2,data@toc@ha; ld r3,data@toc@l(r9); exit |
left toc at 0x10  | prologue; addis r9,r2,data@toc@ha; li r2,0; ld r3,data@toc@l(r9); exit |
exit 5            | prologue; ld r3,slot@toc(r2); ld r3,0(r3); exit    |
left toc at 0x0   | ld r3,slot@toc(r2); ld r3,0(r3); exit              |";

#[test]
fn a_caller_with_a_toc_base_has_it_in_r2(rt: HostRuntime) -> Result<(), Fail> {
    jobs_end(&rt, rt.alloc(), 64, CALLS)
}

const RESTORES: &str = "\
exit 5               | prologue; bl g; nop; addis r9,r2,data@toc@ha; ld r3,data@toc@l(r9); exit \
                     | li r2,0; blr
left restore at 0xc  | prologue; bl f; nop; exit                       | li r2,0; blr
exit 0               | prologue; bl f; exit                            | li r2,0; blr
left restore at 0xc  | prologue; bl f; nop; exit                       | std r3,24(r1); blr
exit 0               | prologue; bl f; nop; exit                       | std r3,16(r1); blr
exit 0               | prologue; bl f; nop; exit                       | std r2,24(r1); blr
exit 0               | bl f@notoc; nop; exit                           | std r3,24(r1); blr
left restore at 0x10 | prologue; b .+8; bl f; nop; exit                | blr
exit 0               | prologue; std r2,24(r1); b .+8; bl f; nop; exit | blr
left load at 0xc     | prologue; bl f; nop; exit                       | li r1,0; blr
left store at 0xc    | prologue; li r1,0; bl f; nop; exit              | blr
left store at 0x4    | li r1,0; bl f; nop; exit                        | blr
left value at 0xc    | prologue; bl f; nop; exit                       | mr r1,r12; blr
left value at 0xc    | prologue; mr r1,r12; bl f; nop; exit            | blr";

#[test]
fn a_restore_slot_finds_the_saved_toc_base(rt: HostRuntime) -> Result<(), Fail> {
    jobs_end(&rt, rt.alloc(), 64, RESTORES)
}

const PROLOGUES: &str = "\
exit 3                | prologue; bl h; nop; exit | prologue; li r3,3; blr
left prologue at 0x40 | prologue; bl f; nop; exit | prologue; li r3,3; blr
left value at 0xc     | prologue; mtctr r12; bctr |
left value at 0x4c    | prologue; bl h; nop; exit | prologue; mtctr r12; bctr
exit 5                | bl h@notoc; exit \
                      | prologue; addis r9,r2,data@toc@ha; ld r3,data@toc@l(r9); blr
left prologue at 0x40 | bl f@notoc; exit          | prologue; li r3,3; blr
left prologue at 0x40 | b .+64                    | prologue; exit
left prologue at 0x44 | b .+68                    | prologue; exit
exit 5                | b .+64 \
                      | absolute prologue; addis r9,r2,data@toc@ha; ld r3,data@toc@l(r9); exit
left prologue at 0x44 | b .+68                    | absolute prologue; exit
exit 4                | prologue; addis r9,r2,ptr@toc@ha; ld r12,ptr@toc@l(r9); mtctr r12; \
                        bctrl; exit               | prologue; li r3,4; blr
left prologue at 0x40 | prologue; addis r9,r2,ptr@toc@ha; ld r11,ptr@toc@l(r9); mtctr r11; \
                        bctrl; exit               | prologue; li r3,4; blr";

#[test]
fn a_prologue_finds_its_address_in_r12(rt: HostRuntime) -> Result<(), Fail> {
    jobs_end(&rt, rt.alloc(), 64, PROLOGUES)
}

const PARTS: &str = "\
exit 5            | prologue; addis r9,r2,data@toc@ha; addi r9,r9,data@toc@l; ld r3,0(r9); exit |
left part at 0x8  | prologue; addi r9,r9,data@toc@l; ld r3,0(r9); exit                          |
left part at 0xc  | prologue; addis r9,r2,data@toc@ha; addi r9,r10,data@toc@l; exit             |
left part at 0xc  | prologue; addis r9,r2,data+65536@toc@ha; ld r3,data@toc@l(r9); exit         |
exit 7            | prologue; addis r9,r2,data@toc@ha; ld r3,data+16@toc@l(r9); exit            |
left part at 0xc  | prologue; addis r9,r2,slot@toc@ha; ld r3,data@toc@l(r9); exit               |
exit 5            | prologue; addis r9,r2,slot@toc@ha; ld r9,slot@toc@l(r9); ld r3,0(r9); exit  |
exit 3            | prologue; addis r12,r2,f@toc@ha; addi r12,r12,f@toc@l; mtctr r12; bctrl; exit \
                  | li r3,3; blr
exit 5            | lis r9,data@ha; ld r3,data@l(r9); exit                                      |
exit 3            | lis r12,f@ha; addi r12,r12,f@l; mtctr r12; bctrl; exit | li r3,3; blr
left part at 0x0  | addi r12,r12,f@l; mtctr r12; bctrl; exit               | li r3,3; blr
left part at 0x4  | lis r12,f@h; addi r12,r12,f@l; mtctr r12; bctrl; exit  | li r3,3; blr
exit 3            | lis r12,f@h; ori r12,r12,f@l; mtctr r12; bctrl; exit   | li r3,3; blr
left part at 0x4  | lis r12,f@ha; ori r12,r12,f@l; mtctr r12; bctrl; exit  | li r3,3; blr
left part at 0x4  | lis r12,f@ha; addi r12,r12,f+4@l; mtctr r12; bctrl; exit | li r3,3; blr";

#[test]
fn the_halves_of_an_address_belong_together(rt: HostRuntime) -> Result<(), Fail> {
    jobs_end(&rt, rt.alloc(), 64, PARTS)
}

const PAIRS: &str = "\
exit 5             | pld r9,data@got@pcrel .+8; ld r3,0(r9); exit                    |
exit 0             | pld r9,data@got@pcrel .+8; std r3,0(r9); exit                   |
exit 0             | mr r9,r1; b .+12; pld r9,data@got@pcrel; ld r3,0(r9); exit      |
left pair at 0x10  | mr r9,r1; b .+12; pld r9,data@got@pcrel .+8; ld r3,0(r9); exit  |
left pair at 0x8   | pld r9,data@got@pcrel .+8; ld r3,0(r9); b .-4                   |
left load at 0xc   | b .+12; pld r9,data@got@pcrel .+8; ld r3,60(r9); exit           |
exit 5             | pld r9,data@got@pcrel; ld r3,0(r9); ld r3,0(r9); exit           |
left value at 0xc  | pld r9,data@got@pcrel .+8; ld r3,0(r9); ld r3,0(r9); exit       |";

#[test]
fn the_access_of_a_pair_comes_from_its_load(rt: HostRuntime) -> Result<(), Fail> {
    jobs_end(&rt, rt.alloc(), 64, PAIRS)
}
