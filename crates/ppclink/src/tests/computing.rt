// Instructions and values that keep a promise of the plain run, each beside ones that break it, as rows of jobs.
use super::leaving::jobs_end;
use std::test::Fail;

const WORDS: &str = "\
left word at 0x0  | .long 0; exit                                             |
left word at 0x0  | fadd f1,f1,f1; exit                                       |
left word at 0x0  | .long data; exit                                          |
left word at 0x0  | .long data-.; exit                                        |
left word at 0x0  | .quad data; exit                                          |
left word at 0x8  | b .+8; .quad data; exit                                   |
exit 0            | b .+12; .quad data; exit                                  |
exit 7            | paddi r3,0,7; exit                                        |
exit 7            | paddi r3,r3,7; exit                                       |
left word at 0x0  | paddi r3,r3,7,1; exit                                     |
exit 7            | seven nops; seven nops; paddi r3,0,7; exit                |
left word at 0x3c | seven nops; seven nops; nop; paddi r3,0,7; exit           |
left word at 0x8  | b .+8; pld r9,data@got@pcrel; exit                        |";

#[test]
fn what_runs_is_an_instruction(rt: HostRuntime) -> Result<(), Fail> {
    jobs_end(&rt, rt.alloc(), 64, WORDS)
}

const UNALIGNED: &str = "\
exit 7            | li r3,7; exit                                             |
left word at 0x0  | paddi r3,0,7; exit                                        |
left word at 0x0  | pld r3,data@pcrel; exit                                   |
left word at 0x4  | nop; pld r9,data@got@pcrel; exit                          |";

#[test]
fn two_words_may_not_cross_a_multiple_of_64(rt: HostRuntime) -> Result<(), Fail> {
    jobs_end(&rt, rt.alloc(), 4, UNALIGNED)?;
    jobs_end(&rt, rt.alloc(), 32, UNALIGNED)
}

const ACCESSES: &str = "\
left load at 0x0     | ld r3,0(r4); exit                                                     |
exit 0               | ld r3,4088(r1); exit                                                  |
left load at 0x0     | ld r3,4092(r1); exit                                                  |
left load at 0xc     | prologue; addis r9,r2,data@toc@ha; ld r3,data+60@toc@l(r9); exit      |
left store at 0x0    | std r3,0(r4); exit                                                    |
left store at 0xc    | prologue; addis r9,r2,slot@toc@ha; std r3,slot@toc@l(r9); exit        |
left store at 0xc    | prologue; addi r9,r2,-32768; std r3,8(r9); exit                       |
exit 0               | prologue; addi r9,r2,-32768; std r3,16(r9); exit                      |
exit 9               | prologue; li r4,9; addis r9,r2,data@toc@ha; std r4,data@toc@l(r9); \
                       ld r3,data@toc@l(r9); exit |
left store at 0x14   | prologue; addi r4,r2,-32768; li r0,3; li r5,8; sc; exit               |
read 0 8  / exit 0   | prologue; addi r4,r2,-32752; li r0,3; li r5,8; sc; exit               |
left store at 0xc    | mr r3,r12; li r0,3; li r5,8; sc; exit                                 |
left load at 0x8     | li r0,4; li r5,1; sc; exit                                            |
write 0  / exit 0    | li r0,4; sc; exit                                                     |
write 0 00 / exit 1  | li r0,4; li r5,1; mr r4,r1; sc; exit                                  |
write 0 05 / exit 1  | prologue; addi r4,r2,-32752; li r0,4; li r5,1; sc; exit               |
left value at 0x14   | prologue; addi r4,r2,-32744; li r0,4; li r5,1; sc; exit               |";

#[test]
fn accesses_stay_in_data_and_on_the_stack(rt: HostRuntime) -> Result<(), Fail> {
    jobs_end(&rt, rt.alloc(), 64, ACCESSES)
}

const SYSTEM: &str = "\
exit 7             | li r3,21; li r4,3; divd r3,r3,r4; exit                          |
left divide at 0x4 | li r3,21; divd r3,r3,r4; exit                                   |
left divide at 0x0 | divdu r3,r3,r4; exit                                            |
left divide at 0xc | li r3,1; sldi r3,r3,63; li r4,-1; divd r3,r3,r4; exit           |
exit 0             | li r3,1; sldi r3,r3,63; li r4,-1; divdu r3,r3,r4; exit          |
left value at 0x0  | divd r3,r12,r4; exit                                            |
exit 0             | li r0,234; sc                                                   |
left call at 0x0   | sc                                                              |
left call at 0x4   | li r0,2; sc                                                     |
left value at 0x4  | mr r0,r12; sc                                                   |
left value at 0x8  | mr r3,r12; exit                                                 |
exit 0             | mr r4,r12; exit                                                 |";

#[test]
fn quotients_and_system_calls_are_known(rt: HostRuntime) -> Result<(), Fail> {
    jobs_end(&rt, rt.alloc(), 64, SYSTEM)
}

const VALUES: &str = "\
exit 3             | lis r12,f@ha; addi r12,r12,f@l; mtctr r12; bctr | li r3,3; exit
left value at 0x8  | li r12,0; mtctr r12; bctr                       |
left value at 0x8  | addi r12,r12,4; mtctr r12; bctr                 |
left value at 0x8  | bl f@notoc; mtctr r12; bctr                     | blr
left value at 0x0  | blr                                             |
exit 0             | beqlr; exit                                     |
exit 0             | cmpd r12,r12; beq .+8; .long 0; exit            |
left value at 0x4  | cmpd r12,r12; blt .+8; exit                     |
left value at 0x4  | cmpw r12,r12; beq .+8; exit                     |
exit 0             | cmpdi r12,0; bne .+8; .long 0; exit             |
left value at 0x4  | cmpdi r12,1; bne .+8; exit                      |
left value at 0xc  | lis r12,f+64@ha; addi r12,r12,f+64@l; cmpd r12,r12; beq .+8; exit |
exit 3             | cmpd r3,r3; beq f                               | li r3,3; exit
left value at 0x4  | cmpd r12,r1; beq f                              | li r3,3; exit
left value at 0x4  | bl f@notoc; bdnz .+8; exit                      | blr
exit 0             | bl f@notoc; li r9,1; mtctr r9; bdnz .+8; exit   | blr
left value at 0x0  | ld r3,0(r12); exit                              |
left value at 0xc  | prologue; addis r9,r2,data@toc@ha; ld r3,0(r9); exit |
left value at 0xc  | prologue; addis r9,r2,f@toc@ha; ld r3,f@toc@l(r9); exit |
left value at 0x0  | lwz r3,f@l(r3); exit                            |
exit 16            | ori r3,r3,data@l; exit                          |";

#[test]
fn numbers_and_places_are_not_mixed(rt: HostRuntime) -> Result<(), Fail> {
    jobs_end(&rt, rt.alloc(), 64, VALUES)
}

const RELATIVE: &str = "\
exit 5             | pla r3,data@pcrel; ld r3,0(r3); exit           |
exit 5             | pld r3,data@pcrel; exit                        |
left load at 0x0   | pld r3,data+60@pcrel; exit                     |
exit 3             | pla r12,f@pcrel; mtctr r12; bctrl; exit        | li r3,3; blr
left value at 0x0  | pld r3,f@pcrel; exit                           |
exit 0             | pstd r3,data@pcrel; exit                       |
left store at 0x0  | pstd r3,slot@pcrel; exit                       |
exit 3             | pla r12,.+64; mtctr r12; bctrl; exit           | li r3,3; blr
left value at 0x0  | pld r3,.+64; exit                              |
exit 5             | pld r9,data@got@pcrel; ld r3,0(r9); exit       |
exit 3             | pld r12,f@got@pcrel; mtctr r12; bctrl; exit    | li r3,3; blr
left value at 0x8  | pld r12,f@got@pcrel; ld r3,0(r12); exit        |";

#[test]
fn addresses_are_taken_by_distance(rt: HostRuntime) -> Result<(), Fail> {
    jobs_end(&rt, rt.alloc(), 64, RELATIVE)
}

const ENDS: &str = "\
exit 3                           | bl f@notoc; exit                                | li r3,3; blr
left fetch at 0x80               | bl f@notoc; exit                                | li r3,3
left fetch at 0x100              | b .+256                                         |
left fetch at 0xfffffffffffffffc | b .-4                                           |
exit 6                           | lis r12,f+4@ha; addi r12,r12,f+4@l; mtctr r12; bctr \
                                 | .long 0; li r3,6; exit
left fetch at 0x80               | lis r12,f+64@ha; addi r12,r12,f+64@l; mtctr r12; bctr |";

#[test]
fn functions_end_before_their_section(rt: HostRuntime) -> Result<(), Fail> {
    jobs_end(&rt, rt.alloc(), 64, ENDS)
}

const FIELDS: &str = "\
exit 7             | li r3,seven; exit                                               |
exit 0             | ld r3,eight(r1); exit                                           |
left load at 0x0   | ld r3,eight(r4); exit                                           |
exit 5             | prologue; addi r9,r2,data@toc; ld r3,0(r9); exit                |
left load at 0x4   | addi r9,r2,data@toc; ld r3,0(r9); exit                          |
exit 5             | prologue; ld r3,data@toc(r2); exit                              |
left load at 0x0   | ld r3,data@toc(r2); exit                                        |
exit 0             | prologue; addis r3,r2,data@toc@h; exit                          |
exit 0             | addis r3,r2,data@toc@h; exit                                    |
exit 8             | prologue; addis r9,r2,seven@toc@ha; addi r3,r9,eight@toc@l; exit |
left part at 0xc   | prologue; addis r9,r2,seven@toc@ha; addi r9,r9,data@toc@l; exit |";

#[test]
fn fields_are_filled_with_numbers(rt: HostRuntime) -> Result<(), Fail> {
    jobs_end(&rt, rt.alloc(), 64, FIELDS)
}

const DATA: &str = "\
exit 16            | prologue; addis r9,r2,data@toc@ha; lwz r3,data+24@toc@l(r9); exit |
left value at 0x14 | prologue; addis r9,r2,data@toc@ha; lwz r3,data+28@toc@l(r9); exit |
exit 224           | prologue; addis r9,r2,data@toc@ha; lwz r3,data+32@toc@l(r9); exit |
left value at 0x14 | prologue; addis r9,r2,data@toc@ha; lwz r3,data+36@toc@l(r9); exit |
exit 3             | prologue; addis r9,r2,data@toc@ha; lwa r10,data+36@toc@l(r9); addi r9,r9,data+36@toc@l; \
                     add r10,r10,r9; mtctr r10; bctr                           | li r3,3; exit
exit 216           | prologue; addis r9,r2,data@toc@ha; ld r3,data+40@toc@l(r9); exit |
left value at 0x14 | prologue; addis r9,r2,data@toc@ha; ld r3,data+48@toc@l(r9); exit |
exit 0             | prologue; addis r9,r2,data@toc@ha; ld r3,data+56@toc@l(r9); cmpd r3,r2; beq .+8; .long 0; exit |";

#[test]
fn data_holds_what_a_link_fills_in(rt: HostRuntime) -> Result<(), Fail> {
    jobs_end(&rt, rt.alloc(), 64, DATA)
}
