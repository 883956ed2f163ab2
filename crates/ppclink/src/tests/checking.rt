// Plain runs of files, and the words of `check`.
use super::files::files;
use super::{all_end, run, words_of};
use ppc_outside::MemConsole;
use std::test::Fail;

/// Files, the calls that they make, and how they end.
const CHECKS: &str = "\
check t.o                     | | 0 | exit 7                                                  |
check -n 3 t.o                | | 0 | exit 7                                                  |
check -n 2 t.o                | | 7 | budget                                                  |
check -n 10 endless.o         | | 7 | budget                                                  |
check zero.o                  | | 6 | left word zero.o section 1 offset 0x0                   |
check away.o                  | | 6 | left value away.o section 1 offset 0x8                  |
check same.o                  | | 0 | exit 0                                                  |
check -i in calls.o up.o      | | 0 | read 0 16 68690a / write 1 48690a / exit 0              |
check calls.o up.o            | | 0 | read 0 16  / write 1  / exit 0                          |
check jumps.o                 | | 0 | exit 2                                                  |
check small.o                 | | 0 | exit 5                                                  |
check dropped.o l.a           | | 0 | exit 7                                                  |
check dropped.o z.a           | | 6 | left word z.a(zero.o) section 1 offset 0x0              |";

#[test]
fn files_run_without_an_image(rt: HostRuntime) -> Result<(), Fail> {
    all_end(&rt, rt.alloc(), CHECKS)
}

/// Words of a check, of the link of the same files, and of the run of what is linked.
const AGREEING: [[&str; 3]; 6] = [
    ["check t.o", "link -o x t.o", "run x"],
    ["check same.o", "link -o x same.o", "run x"],
    [
        "check -i in calls.o up.o",
        "link -o x calls.o up.o",
        "run -i in x",
    ],
    ["check jumps.o", "link -o x jumps.o", "run x"],
    ["check small.o", "link -o x small.o", "run x"],
    [
        "check -n 10 endless.o",
        "link -o x endless.o",
        "run -n 10 x",
    ],
];

#[test]
fn an_image_does_what_its_files_do(rt: HostRuntime) -> Result<(), Fail> {
    for [check, link, image] in AGREEING {
        let mut store = files(rt.alloc())?;
        let mut checked = MemConsole::new(rt.alloc());
        let words = words_of(rt.alloc(), check)?;
        let plain = run(rt.alloc(), &words, &mut store, &mut checked)?;
        let mut console = MemConsole::new(rt.alloc());
        let words = words_of(rt.alloc(), link)?;
        let linked = run(rt.alloc(), &words, &mut store, &mut console)?;
        assert_eq!(rt; linked.status, 0, "{link}");
        let words = words_of(rt.alloc(), image)?;
        let ran = run(rt.alloc(), &words, &mut store, &mut console)?;
        assert_eq!(rt; ran.status, plain.status, "{check}");
        assert!(rt; ran.text == plain.text, "{check}");
    }
    Ok(())
}

/// Files that a link refuses, calls that fail, and words.
const NOT_RUN: &str = "\
check -e main t.o                     |           | 1 | ppclink: no entry main             |
check nonop.o                         |           | 1 | ppclink: nonop.o section 1 offset 0x8: no nop to restore r2 |
check odd.o                           |           | 1 | ppclink: odd.o section 1 offset 0x4: overflow -32766 |
check a.o cut.a                       |           | 1 | ppclink: cut.a: bad archive at 0x8 |
check -i no t.o no.too                |           | 3 | ppclink: cannot read no.too        |
check -i no t.o                       |           | 3 | ppclink: cannot read no            |
check -i in t.o                       | store 1   | 3 | ppclink: cannot read in            |
check t.o                             | console 0 | 4 |                                    |
check                                 |           | 2 | ppclink: words not understood      |
check -o x t.o                        |           | 2 | ppclink: words not understood      |
check -n 5                            |           | 2 | ppclink: words not understood      |
check -n t.o                          |           | 2 | ppclink: words not understood      |
check -i -n t.o                       |           | 2 | ppclink: words not understood      |
check -i in -n 5 t.o                  |           | 2 | ppclink: words not understood      |
check -n 5 -e _start t.o              |           | 2 | ppclink: words not understood      |
check --toc-span 20 t.o               |           | 2 | ppclink: words not understood      |";

#[test]
fn what_is_not_linked_is_not_run(rt: HostRuntime) -> Result<(), Fail> {
    all_end(&rt, rt.alloc(), NOT_RUN)
}

#[test]
fn an_input_that_is_too_long_is_refused_before_all_else(rt: HostRuntime) -> Result<(), Fail> {
    let mut input = Vec::new(rt.alloc());
    input.resize(0x100_0001, 0)?;
    let mut store = files(rt.alloc())?;
    store.add("long", &input)?;
    let mut console = MemConsole::new(rt.alloc());
    let words = words_of(rt.alloc(), "check -i long 3")?;
    let ran = run(rt.alloc(), &words, &mut store, &mut console)?;
    assert_eq!(rt; ran.status, 1);
    assert!(rt; ran.text.as_slice() == b"ppclink: long: file too long\n".as_slice());
    Ok(())
}
