// Links, the words of a link, and what is told where one fails.
use super::files::SMALLEST;
use super::{all_end, run};
use ppc_outside::{MemConsole, MemStore};
use std::alloc::{AllocError, Global};
use std::test::Fail;

/// Links of several files, with an entry, and their refusals.
const LINKS: &str = "\
link -o x t.o                       | | 0 |                                              | 10000000
link -o x a.o dropped.o             | | 0 |                                              | 10000000
link -o x dropped.o dropped.o c.o   | | 0 |                                              | 10000000
link -o x -e _start a.o             | | 0 |                                              | 10000000
link -o x -e _start dropped.o a.o   | | 0 |                                              | 10000000
link -o x --branch-span 0x100 t.o   | | 0 |                                              | 10000000
link -o x --toc-span 16 t.o         | | 0 |                                              | 10000000
link -o x -e _start --branch-span 33554432 --toc-span 0x10000 t.o | | 0 |                | 10000000
link -o x -e --toc-span t.o         | | 1 | ppclink: no entry --toc-span                 |
link -o x late.o                    | | 0 |                                              | 10000004
link -o x aligned.o                 | | 0 |                                              | 10000000
link -o x -e main a.o               | | 1 | ppclink: no entry main                       |
link -o x -e -o a.o                 | | 1 | ppclink: no entry -o                         |
link -o x dropped.o                 | | 1 | ppclink: no entry _start                     |
link -o x a.o dropped.o c.o         | | 1 | ppclink: a.o and c.o: defined twice _start   |
link -o x c.o a.o                   | | 1 | ppclink: c.o and a.o: defined twice _start   |
link -o x local.o dropped.o         | | 1 | ppclink: no entry _start                     |
link -o x g.o u.o g.o               | | 1 | ppclink: g.o and g.o: defined twice g        |
link -o x g.o u.o weak.o            | | 1 | ppclink: u.o section 1 offset 0x8: unresolved u |
link -o x nonop.o                   | | 1 | ppclink: nonop.o section 1 offset 0x8: no nop to restore r2 |
link -o x data.o                    | | 1 | ppclink: data too big                        |
link -o x odd.o                     | | 1 | ppclink: odd.o section 1 offset 0x4: overflow -32766 |
link -o x shared.o                  | | 1 | ppclink: shared.o: shared object             |
link -o x abi1.o                    | | 1 | ppclink: abi1.o: not ELFv2                   |
link -o x table.o                   | | 1 | ppclink: table.o section 2: bad table        |
link -o x name.o                    | | 1 | ppclink: name.o symbol 1: bad table          |
link -o x 3                         | | 1 | ppclink: 3: not an ELF file                  |
link -o x 63                        | | 1 | ppclink: 63: bad table                       |
link -o x 495                       | | 1 | ppclink: 495: bad table                      |";

#[test]
fn links_are_written_or_refused(rt: HostRuntime) -> Result<(), Fail> {
    all_end(&rt, rt.alloc(), LINKS)
}

/// Libraries among the files of a link. To other commands a library is a file of another kind.
const LIBRARIES: &str = "\
link -o x l.a           | | 0 |                                                    | 10000000
link -o x l.a l.a       | | 0 |                                                    | 10000000
link -o x dropped.o l.a | | 0 |                                                    | 10000000
link -o x l.a a.o       | | 0 |                                                    | 10000000
link -o x late.o l.a    | | 0 |                                                    | 10000004
link -o x a.o empty.a   | | 0 |                                                    | 10000000
link -o x empty.a       | | 1 | ppclink: no entry _start                           |
link -o x -e g a.o l.a  | | 1 | ppclink: no entry g                                |
link -o x -e t a.o l.a  | | 1 | ppclink: l.a(tls.o) section 1: thread-local storage |
link -o x u.o l.a       | | 1 | ppclink: u.o section 1 offset 0x8: unresolved u    |
link -o x a.o u.o l.a   | | 1 | ppclink: a.o and u.o: defined twice _start         |
link -o x a.o cut.a     | | 1 | ppclink: cut.a: bad archive at 0x8                 |
link -o x cut.a 3       | | 1 | ppclink: cut.a: bad archive at 0x8                 |
link -o x 3 cut.a       | | 1 | ppclink: 3: not an ELF file                        |
link -o x a.o l.a no    | | 3 | ppclink: cannot read no                            |
show l.a                | | 1 | ppclink: l.a: not an ELF file                      |
run l.a                 | | 1 | ppclink: l.a: not an executable                    |";

#[test]
fn libraries_are_replaced_by_their_chosen_members(rt: HostRuntime) -> Result<(), Fail> {
    all_end(&rt, rt.alloc(), LIBRARIES)
}

/// Calls that fail, and files that are missing.
const FAILURES: &str = "\
link -o x t.o         | store 0   | 3 | ppclink: cannot read t.o  |
link -o x t.o         | store 1   | 4 |                           |
link -o x a.o no b.o  |           | 3 | ppclink: cannot read no   |
link -o x no          | console 0 | 4 |                           |
link -o x t.o         | console 0 | 0 |                           | 10000000
link -o x t.o c.o     | console 0 | 4 |                           |
link -o x nonop.o     | console 0 | 4 |                           |
show t.o              | store 0   | 3 | ppclink: cannot read t.o  |
show t.o              | console 0 | 4 |                           |
run no                |           | 3 | ppclink: cannot read no   |
run -i no exits       |           | 3 | ppclink: cannot read no   |
run -i no no.too      |           | 3 | ppclink: cannot read no.too |
run -i in exits       | store 1   | 3 | ppclink: cannot read in   |
run exits             | console 0 | 4 |                           |";

#[test]
fn failures_have_their_status(rt: HostRuntime) -> Result<(), Fail> {
    all_end(&rt, rt.alloc(), FAILURES)
}

/// Words outside the grammar.
const MISUNDERSTOOD: &str = "\
                                    | | 2 | ppclink: words not understood |
link t.o                            | | 2 | ppclink: words not understood |
link -o x                           | | 2 | ppclink: words not understood |
link -o -x t.o                      | | 2 | ppclink: words not understood |
link -o x ''                        | | 2 | ppclink: words not understood |
link -o x t.o -x                    | | 2 | ppclink: words not understood |
link -o x -e f -e g t.o             | | 2 | ppclink: words not understood |
link -o x -e '' t.o                 | | 2 | ppclink: words not understood |
link -o x -e f                      | | 2 | ppclink: words not understood |
link -o x -e                        | | 2 | ppclink: words not understood |
link -e _start -o x t.o             | | 2 | ppclink: words not understood |
link -o x t.o -e _start             | | 2 | ppclink: words not understood |
link -o x --branch-span 0x402 t.o   | | 2 | ppclink: words not understood |
link -o x --branch-span 252 t.o     | | 2 | ppclink: words not understood |
link -o x --branch-span 0x2000004 t.o | | 2 | ppclink: words not understood |
link -o x --branch-span t.o         | | 2 | ppclink: words not understood |
link -o x --toc-span 8 t.o          | | 2 | ppclink: words not understood |
link -o x --toc-span 20 t.o         | | 2 | ppclink: words not understood |
link -o x --toc-span 0x10008 t.o    | | 2 | ppclink: words not understood |
link -o x --toc-span t.o            | | 2 | ppclink: words not understood |
link -o x --toc-span 16 --branch-span 0x100 t.o | | 2 | ppclink: words not understood |
link -o x --toc-span 16 --toc-span 16 t.o | | 2 | ppclink: words not understood |
link -o x --branch-span 0x100 -e _start t.o | | 2 | ppclink: words not understood |
show                                | | 2 | ppclink: words not understood |
show t.o t.o                        | | 2 | ppclink: words not understood |
show -t.o                           | | 2 | ppclink: words not understood |
--help                              | | 2 | ppclink: words not understood |";

#[test]
fn words_outside_the_grammar_are_not_understood(rt: HostRuntime) -> Result<(), Fail> {
    all_end(&rt, rt.alloc(), MISUNDERSTOOD)
}

// The words of a link of one file so many times.
fn many_files(alloc: Global, count: usize) -> Result<Vec<String>, AllocError> {
    let mut words = Vec::new(alloc);
    for word in ["link", "-o", "x"] {
        words.push(String::from_str(alloc, word)?)?;
    }
    for _ in 0..count {
        words.push(String::from_str(alloc, "t.o")?)?;
    }
    Ok(words)
}

#[test]
fn one_file_more_than_4096_is_not_understood(rt: HostRuntime) -> Result<(), Fail> {
    for (count, status) in [(4096, 1), (4097, 2)] {
        let mut store = MemStore::new(rt.alloc());
        store.add("t.o", &SMALLEST.file(rt.alloc())?)?;
        let words = many_files(rt.alloc(), count)?;
        let mut console = MemConsole::new(rt.alloc());
        let ran = run(rt.alloc(), &words, &mut store, &mut console)?;
        assert_eq!(rt; ran.status, status);
    }
    Ok(())
}
