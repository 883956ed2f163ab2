// Statements in assembly.
use super::columns_of;
use std::alloc::Global;
use std::test::Fail;

/// A statement, its words, and its records: the offset in the words, the kind of relocation, the
/// symbol and the addend of each. Where a field fills whole words they are nops without it. `.+8`
/// behind a load says that the access there is a pair's.
const STATEMENTS: &str = "\
prologue                      | 3C4C0000 38420000 | 0 REL16_HA .TOC. 0, 4 REL16_LO .TOC. 4
absolute prologue             | 3C400000 38420000 | 0 ADDR16_HA .TOC. 0, 4 ADDR16_LO .TOC. 0
exit                          | 38000001 44000002 |
seven nops                    | 60000000 60000000 60000000 60000000 60000000 60000000 60000000 |
.long 0                       | 00000000          |
.quad data                    | 60000000 60000000 | 0 ADDR64 data 0
.long data                    | 60000000          | 0 ADDR32 data 0
.long data-.                  | 60000000          | 0 REL32 data 0
paddi r3,r3,7                 | 06000000 38630007 |
paddi r3,r3,7,1               | 06100000 38630007 |
nop                           | 60000000          |
li r0,2                       | 38000002          |
li r0,3                       | 38000003          |
li r0,4                       | 38000004          |
li r0,234                     | 380000EA          |
li r1,0                       | 38200000          |
li r2,0                       | 38400000          |
li r3,1                       | 38600001          |
li r3,3                       | 38600003          |
li r3,4                       | 38600004          |
li r3,6                       | 38600006          |
li r3,7                       | 38600007          |
li r3,21                      | 38600015          |
li r4,-1                      | 3880FFFF          |
li r4,3                       | 38800003          |
li r4,9                       | 38800009          |
li r5,1                       | 38A00001          |
li r5,8                       | 38A00008          |
li r9,1                       | 39200001          |
li r12,0                      | 39800000          |
mr r0,r12                     | 7D806378          |
mr r1,r12                     | 7D816378          |
mr r3,r12                     | 7D836378          |
mr r4,r1                      | 7C240B78          |
mr r4,r12                     | 7D846378          |
mr r9,r1                      | 7C290B78          |
addi r4,r2,-32768             | 38828000          |
addi r4,r2,-32752             | 38828010          |
addi r4,r2,-32744             | 38828018          |
addi r9,r2,-32768             | 39228000          |
addi r12,r12,4                | 398C0004          |
add r10,r10,r9                | 7D4A4A14          |
sldi r3,r3,63                 | 7863F806          |
divd r3,r3,r4                 | 7C6323D2          |
divd r3,r12,r4                | 7C6C23D2          |
divdu r3,r3,r4                | 7C632392          |
cmpd r3,r3                    | 7C231800          |
cmpd r12,r1                   | 7C2C0800          |
cmpd r12,r12                  | 7C2C6000          |
cmpw r12,r12                  | 7C0C6000          |
cmpd r3,r2                    | 7C231000          |
cmpdi r12,0                   | 2C2C0000          |
cmpdi r12,1                   | 2C2C0001          |
ld r3,0(r3)                   | E8630000          |
ld r3,0(r4)                   | E8640000          |
ld r3,0(r9)                   | E8690000          |
ld r3,0(r12)                  | E86C0000          |
ld r3,60(r9)                  | E869003C          |
ld r3,4088(r1)                | E8610FF8          |
ld r3,4092(r1)                | E8610FFC          |
std r2,24(r1)                 | F8410018          |
std r3,0(r4)                  | F8640000          |
std r3,0(r9)                  | F8690000          |
std r3,8(r9)                  | F8690008          |
std r3,16(r1)                 | F8610010          |
std r3,16(r9)                 | F8690010          |
std r3,24(r1)                 | F8610018          |
mtctr r9                      | 7D2903A6          |
mtctr r10                     | 7D4903A6          |
mtctr r11                     | 7D6903A6          |
mtctr r12                     | 7D8903A6          |
b .+8                         | 48000008          |
b .+12                        | 4800000C          |
b .+64                        | 48000040          |
b .+68                        | 48000044          |
b .+256                       | 48000100          |
b .-4                         | 4BFFFFFC          |
beq .+8                       | 41820008          |
bne .+8                       | 40820008          |
blt .+8                       | 41800008          |
bdnz .+8                      | 42000008          |
blr                           | 4E800020          |
beqlr                         | 4D820020          |
bctr                          | 4E800420          |
bctrl                         | 4E800421          |
sc                            | 44000002          |
fadd f1,f1,f1                 | FC21082A          |
bl f                          | 48000001          | 0 REL24 f 0
bl g                          | 48000001          | 0 REL24 g 0
bl h                          | 48000001          | 0 REL24 h 0
bl weak                       | 48000001          | 0 REL24 weak 0
bl f@notoc                    | 48000001          | 0 REL24_NOTOC f 0
bl h@notoc                    | 48000001          | 0 REL24_NOTOC h 0
beq f                         | 41820000          | 0 REL14 f 0
addis r9,r2,data@toc@ha       | 3D220000          | 0 TOC16_HA data 0
addis r9,r2,data+65536@toc@ha | 3D220000          | 0 TOC16_HA data 65536
addis r9,r2,ptr@toc@ha        | 3D220000          | 0 TOC16_HA ptr 0
addis r9,r2,slot@toc@ha       | 3D220000          | 0 TOC16_HA slot 0
addis r9,r2,f@toc@ha          | 3D220000          | 0 TOC16_HA f 0
addis r12,r2,f@toc@ha         | 3D820000          | 0 TOC16_HA f 0
addi r9,r9,data@toc@l         | 39290000          | 0 TOC16_LO data 0
addi r9,r10,data@toc@l        | 392A0000          | 0 TOC16_LO data 0
addi r12,r12,f@toc@l          | 398C0000          | 0 TOC16_LO f 0
ld r3,data@toc@l(r9)          | E8690000          | 0 TOC16_LO_DS data 0
ld r3,data+16@toc@l(r9)       | E8690000          | 0 TOC16_LO_DS data 16
ld r3,data+60@toc@l(r9)       | E8690000          | 0 TOC16_LO_DS data 60
ld r3,f@toc@l(r9)             | E8690000          | 0 TOC16_LO_DS f 0
ld r9,slot@toc@l(r9)          | E9290000          | 0 TOC16_LO_DS slot 0
ld r11,ptr@toc@l(r9)          | E9690000          | 0 TOC16_LO_DS ptr 0
ld r12,ptr@toc@l(r9)          | E9890000          | 0 TOC16_LO_DS ptr 0
std r3,slot@toc@l(r9)         | F8690000          | 0 TOC16_LO_DS slot 0
std r4,data@toc@l(r9)         | F8890000          | 0 TOC16_LO_DS data 0
ld r3,slot@toc(r2)            | E8620000          | 0 TOC16_DS slot 0
ld r3,data@toc(r2)            | E8620000          | 0 TOC16_DS data 0
addi r9,r2,data@toc           | 39220000          | 0 TOC16 data 0
addis r3,r2,data@toc@h        | 3C620000          | 0 TOC16_HI data 0
addis r9,r2,seven@toc@ha      | 3D220000          | 0 TOC16_HA seven 0
addi r3,r9,eight@toc@l        | 38690000          | 0 TOC16_LO eight 0
lwz r3,data+24@toc@l(r9)      | 80690000          | 0 TOC16_LO data 24
lwz r3,data+28@toc@l(r9)      | 80690000          | 0 TOC16_LO data 28
lwz r3,data+32@toc@l(r9)      | 80690000          | 0 TOC16_LO data 32
lwz r3,data+36@toc@l(r9)      | 80690000          | 0 TOC16_LO data 36
lwa r10,data+36@toc@l(r9)     | E9490002          | 0 TOC16_LO_DS data 36
addi r9,r9,data+36@toc@l      | 39290000          | 0 TOC16_LO data 36
ld r3,data+40@toc@l(r9)       | E8690000          | 0 TOC16_LO_DS data 40
ld r3,data+48@toc@l(r9)       | E8690000          | 0 TOC16_LO_DS data 48
ld r3,data+56@toc@l(r9)       | E8690000          | 0 TOC16_LO_DS data 56
li r3,seven                   | 38600000          | 0 ADDR16 seven 0
ld r3,eight(r1)               | E8610000          | 0 ADDR16_DS eight 0
ld r3,eight(r4)               | E8640000          | 0 ADDR16_DS eight 0
lis r9,data@ha                | 3D200000          | 0 ADDR16_HA data 0
ld r3,data@l(r9)              | E8690000          | 0 ADDR16_LO_DS data 0
ori r3,r3,data@l              | 60630000          | 0 ADDR16_LO data 0
lwz r3,f@l(r3)                | 80630000          | 0 ADDR16_LO f 0
lis r12,f@ha                  | 3D800000          | 0 ADDR16_HA f 0
lis r12,f@h                   | 3D800000          | 0 ADDR16_HI f 0
lis r12,f+4@ha                | 3D800000          | 0 ADDR16_HA f 4
lis r12,f+64@ha               | 3D800000          | 0 ADDR16_HA f 64
addi r12,r12,f@l              | 398C0000          | 0 ADDR16_LO f 0
addi r12,r12,f+4@l            | 398C0000          | 0 ADDR16_LO f 4
addi r12,r12,f+64@l           | 398C0000          | 0 ADDR16_LO f 64
ori r12,r12,f@l               | 618C0000          | 0 ADDR16_LO f 0
paddi r3,0,7                  | 06000000 38600007 |
pla r12,.+64                  | 06100000 39800040 |
pld r3,.+64                   | 04100000 E4600040 |
pla r3,data@pcrel             | 06100000 38600000 | 0 PCREL34 data 0
pla r12,f@pcrel               | 06100000 39800000 | 0 PCREL34 f 0
pld r3,data@pcrel             | 04100000 E4600000 | 0 PCREL34 data 0
pld r3,data+60@pcrel          | 04100000 E460003C | 0 PCREL34 data 60
pld r3,f@pcrel                | 04100000 E4600000 | 0 PCREL34 f 0
pstd r3,data@pcrel            | 04100000 F4600000 | 0 PCREL34 data 0
pstd r3,slot@pcrel            | 04100000 F4600000 | 0 PCREL34 slot 0
pld r9,data@got@pcrel         | 04100000 E5200000 | 0 GOT_PCREL34 data 0
pld r9,data@got@pcrel .+8     | 04100000 E5200000 | 0 GOT_PCREL34 data 0, 0 PCREL_OPT - 8
pld r12,f@got@pcrel           | 04100000 E5800000 | 0 GOT_PCREL34 f 0";

/// The columns of a statement.
pub fn meaning_of(alloc: Global, statement: &str) -> Result<Vec<&'static str>, Fail> {
    for row in STATEMENTS.lines() {
        let columns = columns_of(alloc, row)?;
        if columns.len() == 3 && columns[0] == statement {
            return Ok(columns);
        }
    }
    Err(Fail::from("a statement isn't known"))
}
