// A small program for each mnemonic, on numbers worked by hand from the manual's definition of each (Power ISA 3.1, book I).
// A row is the assembly, its words in hex, what r4 and r5 hold at first, and what is wanted of it.
use crate::test_programs::{CONDITION, left_in_r3, number_of, row_of, world};
use std::alloc::Global;
use std::process::Abort;
use std::test::Fail;

const SUMS: &str = "\
addi r3,r4,-1    | 3864FFFF | 0 0                | FFFFFFFFFFFFFFFF
addi r3,r4,32767 | 38647FFF | FFFFFFFFFFFFFFFF 0 | 7FFE
li r3,-32768     | 38608000 | 0 0                | FFFFFFFFFFFF8000
addis r3,r4,-1   | 3C64FFFF | 10001 0            | 1
lis r3,-32768    | 3C608000 | 0 0                | FFFFFFFF80000000
add r3,r4,r5     | 7C642A14 | FFFFFFFFFFFFFFFF 3 | 2
add r3,r4,r5     | 7C642A14 | 7FFFFFFFFFFFFFFF 1 | 8000000000000000
add r3,r0,r4     | 7C602214 | 5 0                | 4
subf r3,r4,r5    | 7C642850 | 5 3                | FFFFFFFFFFFFFFFE
subf r3,r4,r5    | 7C642850 | 8000000000000000 0 | 8000000000000000
neg r3,r4        | 7C6400D0 | 1 0                | FFFFFFFFFFFFFFFF
neg r3,r4        | 7C6400D0 | 8000000000000000 0 | 8000000000000000";

const PRODUCTS: &str = "\
mulli r3,r4,-5     | 1C64FFFB | 3 0                               | FFFFFFFFFFFFFFF1
mulli r3,r4,-32768 | 1C648000 | 8000000000000001 0                | FFFFFFFFFFFF8000
mullw r3,r4,r5     | 7C6429D6 | 7FFFFFFFF 900000002               | FFFFFFFFFFFFFFFE
mullw r3,r4,r5     | 7C6429D6 | 80000000 80000000                 | 4000000000000000
mullw r3,r4,r5     | 7C6429D6 | 7FFFFFFF 80000000                 | C000000080000000
mulld r3,r4,r5     | 7C6429D2 | 100000001 100000001               | 200000001
mulld r3,r4,r5     | 7C6429D2 | 8000000000000000 FFFFFFFFFFFFFFFF | 8000000000000000
divd r3,r4,r5      | 7C642BD2 | FFFFFFFFFFFFFFF9 2                | FFFFFFFFFFFFFFFD
divd r3,r4,r5      | 7C642BD2 | 7 FFFFFFFFFFFFFFFE                | FFFFFFFFFFFFFFFD
divd r3,r4,r5      | 7C642BD2 | FFFFFFFFFFFFFFF9 FFFFFFFFFFFFFFFE | 3
divd r3,r4,r5      | 7C642BD2 | 8000000000000000 1                | 8000000000000000
divd r3,r4,r5      | 7C642BD2 | 7FFFFFFFFFFFFFFF FFFFFFFFFFFFFFFF | 8000000000000001
divdu r3,r4,r5     | 7C642B92 | FFFFFFFFFFFFFFF9 2                | 7FFFFFFFFFFFFFFC
divdu r3,r4,r5     | 7C642B92 | 8000000000000000 FFFFFFFFFFFFFFFF | 0
divdu r3,r4,r5     | 7C642B92 | FFFFFFFFFFFFFFFF 1                | FFFFFFFFFFFFFFFF";

const LOGIC: &str = "\
and r3,r4,r5        | 7C832838 | F0F0F0F0F0F0F0F0 FF00FF00FF00FF00 | F000F000F000F000
andc r3,r4,r5       | 7C832878 | F0F0F0F0F0F0F0F0 FF00FF00FF00FF00 | F000F000F000F0
nor r3,r4,r5        | 7C8328F8 | F0F0F0F0F0F0F0F0 FF00FF00FF00FF00 | F000F000F000F
xor r3,r4,r5        | 7C832A78 | F0F0F0F0F0F0F0F0 FF00FF00FF00FF00 | FF00FF00FF00FF0
or r3,r4,r5         | 7C832B78 | F0F0F0F0F0F0F0F0 FF00FF00FF00FF00 | FFF0FFF0FFF0FFF0
mr r3,r5            | 7CA32B78 | F0F0F0F0F0F0F0F0 FF00FF00FF00FF00 | FF00FF00FF00FF00
mr r3,r0            | 7C030378 | F0F0F0F0F0F0F0F0 FF00FF00FF00FF00 | FFFFFFFFFFFFFFFF
ori r3,r4,0x8001    | 60838001 | FFFFFFFF00000010 0                | FFFFFFFF00008011
oris r3,r4,0x8001   | 64838001 | 10 0                              | 80010010
xori r3,r4,0x8001   | 68838001 | FFFFFFFFFFFFFFFF 0                | FFFFFFFFFFFF7FFE
xoris r3,r4,0x8001  | 6C838001 | FFFFFFFFFFFFFFFF 0                | FFFFFFFF7FFEFFFF
andi. r3,r4,0x8001  | 70838001 | FFFFFFFFFFFFFFFF 0                | 8001
andis. r3,r4,0x8001 | 74838001 | FFFFFFFFFFFFFFFF 0                | 80010000
extsb r3,r4         | 7C830774 | 80 0                              | FFFFFFFFFFFFFF80
extsb r3,r4         | 7C830774 | FFFFFFFFFFFFFF7F 0                | 7F
extsh r3,r4         | 7C830734 | 8000 0                            | FFFFFFFFFFFF8000
extsh r3,r4         | 7C830734 | FFFFFFFFFFFF7FFF 0                | 7FFF
extsw r3,r4         | 7C8307B4 | 80000000 0                        | FFFFFFFF80000000
extsw r3,r4         | 7C8307B4 | FFFFFFFF7FFFFFFF 0                | 7FFFFFFF";

const SHIFTS: &str = "\
slw r3,r4,r5 | 7C832830 | FFFFFFFF80000003 0  | 80000003
slw r3,r4,r5 | 7C832830 | FFFFFFFF80000003 1F | 80000000
slw r3,r4,r5 | 7C832830 | FFFFFFFF80000003 20 | 0
slw r3,r4,r5 | 7C832830 | FFFFFFFF80000003 3F | 0
slw r3,r4,r5 | 7C832830 | FFFFFFFF80000003 40 | 80000003
srw r3,r4,r5 | 7C832C30 | FFFFFFFF80000003 0  | 80000003
srw r3,r4,r5 | 7C832C30 | FFFFFFFF80000003 1F | 1
srw r3,r4,r5 | 7C832C30 | FFFFFFFF80000003 20 | 0
srw r3,r4,r5 | 7C832C30 | FFFFFFFF80000003 3F | 0
srw r3,r4,r5 | 7C832C30 | FFFFFFFF80000003 40 | 80000003
sld r3,r4,r5 | 7C832836 | 8000000000000003 0  | 8000000000000003
sld r3,r4,r5 | 7C832836 | 8000000000000003 1F | 180000000
sld r3,r4,r5 | 7C832836 | 8000000000000003 20 | 300000000
sld r3,r4,r5 | 7C832836 | 8000000000000003 3F | 8000000000000000
sld r3,r4,r5 | 7C832836 | 8000000000000003 40 | 0
sld r3,r4,r5 | 7C832836 | 8000000000000003 7F | 0
sld r3,r4,r5 | 7C832836 | 8000000000000003 80 | 8000000000000003
srd r3,r4,r5 | 7C832C36 | C000000000000001 0  | C000000000000001
srd r3,r4,r5 | 7C832C36 | C000000000000001 1F | 180000000
srd r3,r4,r5 | 7C832C36 | C000000000000001 20 | C0000000
srd r3,r4,r5 | 7C832C36 | C000000000000001 3F | 1
srd r3,r4,r5 | 7C832C36 | C000000000000001 40 | 0
srd r3,r4,r5 | 7C832C36 | C000000000000001 7F | 0
srd r3,r4,r5 | 7C832C36 | C000000000000001 80 | C000000000000001";

const ROTATIONS: &str = "\
rlwinm r3,r4,0,0,31  | 5483003E | FFFFFFFF80000001 0 | 80000001
rlwinm r3,r4,31,0,31 | 5483F83E | 3 0                | 80000001
rlwinm r3,r4,1,31,31 | 54830FFE | 80000000 0         | 1
rlwinm r3,r4,0,24,31 | 5483063E | FFFFFFFFFFFFFFAB 0 | AB
rlwinm r3,r4,7,30,2  | 54833F84 | 123456789ABCDEF 0  | D5E6F7C4C0000000
rlwinm r3,r4,4,28,27 | 54832736 | 12345678 0         | 2345678123456781
rldicl r3,r4,0,0     | 78830000 | 8000000000000001 0 | 8000000000000001
rldicl r3,r4,0,32    | 78830020 | 123456789ABCDEF0 0 | 9ABCDEF0
rldicl r3,r4,31,0    | 7883F800 | 200000001 0        | 80000001
rldicl r3,r4,32,32   | 78830022 | 123456789ABCDEF0 0 | 12345678
rldicl r3,r4,63,0    | 7883F802 | 3 0                | 8000000000000001
rldicl r3,r4,1,63    | 78830FE0 | 8000000000000000 0 | 1
rldicr r3,r4,0,63    | 788307E4 | 8000000000000001 0 | 8000000000000001
rldicr r3,r4,8,55    | 788345E4 | 123456789ABCDEF0 0 | 3456789ABCDEF000
rldicr r3,r4,31,32   | 7883F824 | 200000001 0        | 80000000
rldicr r3,r4,32,31   | 788307C6 | 123456789ABCDEF0 0 | 9ABCDEF000000000
rldicr r3,r4,63,0    | 7883F806 | 3 0                | 8000000000000000";

const ORDERS: &str = "\
cmpd r4,r5                                 | 7C242800                   | FFFFFFFFFFFFFFFF 1                | 80000000
cmpd r4,r5                                 | 7C242800                   | 1 FFFFFFFFFFFFFFFF                | 40000000
cmpd r4,r5                                 | 7C242800                   | 8000000000000000 8000000000000000 | 20000000
cmpd cr7,r4,r5                             | 7FA42800                   | 8000000000000000 7FFFFFFFFFFFFFFF | 8
cmpw cr1,r4,r5                             | 7C842800                   | 1FFFFFFFF 0                       | 8000000
cmpw cr1,r4,r5                             | 7C842800                   | 7FFFFFFF 80000000                 | 4000000
cmpld cr2,r4,r5                            | 7D242840                   | FFFFFFFFFFFFFFFF 1                | 400000
cmpld cr2,r4,r5                            | 7D242840                   | 7FFFFFFFFFFFFFFF 8000000000000000 | 800000
cmplw cr6,r4,r5                            | 7F042840                   | 700000001 1                       | 20
cmplw cr6,r4,r5                            | 7F042840                   | 80000000 7FFFFFFF                 | 40
cmpdi r4,-1                                | 2C24FFFF                   | FFFFFFFF 0                        | 40000000
cmpdi r4,-32768                            | 2C248000                   | FFFFFFFFFFFF8000 0                | 20000000
cmpwi cr5,r4,-1                            | 2E84FFFF                   | FFFFFFFF 0                        | 200
cmpldi cr4,r4,0xFFFF                       | 2A24FFFF                   | 30000FFFF 0                       | 4000
cmplwi cr3,r4,0xFFFF                       | 2984FFFF                   | 30000FFFF 0                       | 20000
cmpd r4,r5; cmpd cr7,r5,r4; cmpd cr7,r4,r4 | 7C242800 7FA52000 7FA42000 | 1 2                               | 80000002";

const RECORDS: &str = "\
add. r3,r4,r5        | 7C642A15 | FFFFFFFFFFFFFFFF 1  | 20000000
subf. r3,r4,r5       | 7C642851 | 5 3                 | 80000000
neg. r3,r4           | 7C6400D1 | FFFFFFFFFFFFFFFF 0  | 40000000
mullw. r3,r4,r5      | 7C6429D7 | 80000000 1          | 80000000
mulld. r3,r4,r5      | 7C6429D3 | 100000000 100000000 | 20000000
divd. r3,r4,r5       | 7C642BD3 | 1 2                 | 20000000
divdu. r3,r4,r5      | 7C642B93 | 8000000000000000 1  | 80000000
and. r3,r4,r5        | 7C832839 | 1 2                 | 20000000
andc. r3,r4,r5       | 7C832879 | 3 1                 | 40000000
nor. r3,r4,r5        | 7C8328F9 | 0 0                 | 80000000
xor. r3,r4,r5        | 7C832A79 | 5 5                 | 20000000
or. r3,r4,r5         | 7C832B79 | 8000000000000000 1  | 80000000
mr. r3,r4            | 7C832379 | 1 0                 | 40000000
slw. r3,r4,r5        | 7C832831 | 1 1F                | 40000000
srw. r3,r4,r5        | 7C832C31 | FFFFFFFF00000000 0  | 20000000
sld. r3,r4,r5        | 7C832837 | 1 3F                | 80000000
srd. r3,r4,r5        | 7C832C37 | 8000000000000000 1  | 40000000
extsb. r3,r4         | 7C830775 | 80 0                | 80000000
extsh. r3,r4         | 7C830735 | 10000 0             | 20000000
extsw. r3,r4         | 7C8307B5 | 7FFFFFFF 0          | 40000000
rlwinm. r3,r4,0,0,31 | 5483003F | 80000000 0          | 40000000
rldicl. r3,r4,0,1    | 78830041 | 8000000000000000 0  | 20000000
rldicr. r3,r4,63,0   | 7883F807 | 1 0                 | 80000000
andi. r3,r4,0x8001   | 70838001 | 2 0                 | 20000000
andis. r3,r4,0x8001  | 74838001 | 80000000 0          | 40000000";

const BRANCHES: &str = "\
li r3,1; b .+8; li r3,2                       | 38600001 48000008 38600002                   | 0 0                | 1
b .+12; li r3,5; b .+8; b .-8                 | 4800000C 38600005 48000008 4BFFFFF8          | 0 0                | 5
bl .+8; mtlr r0; mflr r3                      | 48000009 7C0803A6 7C6802A6                   | 0 0                | 1054
bl .+12; addi r3,r3,1; b .+12; li r3,4; blr   | 4800000D 38630001 4800000C 38600004 4E800020 | 0 0                | 5
mtlr r4; mtctr r5; mflr r3                    | 7C8803A6 7CA903A6 7C6802A6                   | FFFFFFFFFFFFFFFF 7 | FFFFFFFFFFFFFFFF
mtlr r4; mtctr r5; mfctr r3                   | 7C8803A6 7CA903A6 7C6902A6                   | FFFFFFFFFFFFFFFF 7 | 7
mtctr r4; bctr; li r3,1; addi r3,r3,4         | 7C8903A6 4E800420 38600001 38630004          | 105F 0             | 4
mtctr r4; bctrl; mtlr r0; mflr r3             | 7C8903A6 4E800421 7C0803A6 7C6802A6          | 105C 0             | 1058
mtlr r4; blrl; mtlr r0; mflr r3               | 7C8803A6 4E800021 7C0803A6 7C6802A6          | 105E 0             | 1058
mtlr r4; bclr 20,0,3; li r3,1; addi r3,r3,4   | 7C8803A6 4E801820 38600001 38630004          | 105C 0             | 4
beql .+8; mflr r3                             | 41820009 7C6802A6                            | 0 0                | 1054
bnel .+8; mtlr r0; mflr r3                    | 40820009 7C0803A6 7C6802A6                   | 0 0                | 1054
mtlr r4; beqlrl; mflr r3                      | 7C8803A6 4D820021 7C6802A6                   | 1050 0             | 1058
mtctr r4; beqctr; bnectrl; mtlr r0; mflr r3   | 7C8903A6 4D820420 4C820421 7C0803A6 7C6802A6 | 1060 0             | 105C
mtctr r4; addi r3,r3,3; bdnz .-4              | 7C8903A6 38630003 4200FFFC                   | 5 0                | F
mtctr r4; mtlr r5; bdnzlr; mtctr r0; mfctr r3 | 7C8903A6 7CA803A6 4E000020 7C0903A6 7C6902A6 | 2 1060             | 1
mtctr r4; mtlr r5; bdnzlr; mtctr r0; mfctr r3 | 7C8903A6 7CA803A6 4E000020 7C0903A6 7C6902A6 | 1 1060             | FFFFFFFFFFFFFFFF";

const CONDITIONS: &str = "\
bc 0,2,.+12  | 4002000C | 1 0         | 0
bc 0,2,.+12  | 4002000C | 1 7         | 0
bc 0,2,.+12  | 4002000C | 2 0         | 1
bc 0,2,.+12  | 4002000C | 2 7         | 101
bc 2,2,.+12  | 4042000C | 1 0         | 0
bc 2,2,.+12  | 4042000C | 1 7         | 100
bc 2,2,.+12  | 4042000C | 2 0         | 1
bc 2,2,.+12  | 4042000C | 2 7         | 1
bc 4,2,.+12  | 4082000C | 1 0         | 1
bc 4,2,.+12  | 4082000C | 1 7         | 101
bc 8,2,.+12  | 4102000C | 1 0         | 0
bc 8,2,.+12  | 4102000C | 1 7         | 0
bc 8,2,.+12  | 4102000C | 2 0         | 101
bc 8,2,.+12  | 4102000C | 2 7         | 1
bc 10,2,.+12 | 4142000C | 1 0         | 100
bc 10,2,.+12 | 4142000C | 1 7         | 0
bc 10,2,.+12 | 4142000C | 2 0         | 1
bc 10,2,.+12 | 4142000C | 2 7         | 1
bc 12,2,.+12 | 4182000C | 1 0         | 101
bc 12,2,.+12 | 4182000C | 1 7         | 1
bc 15,2,.+12 | 41E2000C | 1 0         | 101
bc 15,2,.+12 | 41E2000C | 1 7         | 1
bc 16,0,.+12 | 4200000C | 1 0         | 0
bc 16,0,.+12 | 4200000C | 2 0         | 101
bc 16,0,.+12 | 4200000C | 0 0         | FF
bc 16,0,.+12 | 4200000C | 100000000 0 | 1000000FF
bc 18,0,.+12 | 4240000C | 1 0         | 100
bc 18,0,.+12 | 4240000C | 2 0         | 1
bc 18,0,.+12 | 4240000C | 0 0         | FFFFFFFFFFFFFFFF
bc 20,0,.+12 | 4280000C | 0 0         | 100
bc 25,0,.+12 | 4320000C | 1 0         | 0
bc 25,0,.+12 | 4320000C | 2 0         | 101";

const LOADS: &str = "\
lbz r3,0(r9)                            | 88690000                   | F8F7F6F5F4F3F2F1 0807060504030201 | F1
addi r10,r9,16; lbz r3,-1(r10)          | 39490010 886AFFFF          | F8F7F6F5F4F3F2F1 0807060504030201 | 8
lhz r3,1(r9)                            | A0690001                   | F8F7F6F5F4F3F2F1 0807060504030201 | F3F2
lhz r3,7(r9)                            | A0690007                   | F8F7F6F5F4F3F2F1 0807060504030201 | 1F8
lha r3,3(r9)                            | A8690003                   | F8F7F6F5F4F3F2F1 0807060504030201 | FFFFFFFFFFFFF5F4
lha r3,7(r9)                            | A8690007                   | F8F7F6F5F4F3F2F1 0807060504030201 | 1F8
lwz r3,0(r9)                            | 80690000                   | F8F7F6F5F4F3F2F1 0807060504030201 | F4F3F2F1
lwz r3,5(r9)                            | 80690005                   | F8F7F6F5F4F3F2F1 0807060504030201 | 1F8F7F6
lwz r3,0x1008(0)                        | 80601008                   | F8F7F6F5F4F3F2F1 0807060504030201 | 4030201
lwa r3,0(r9)                            | E8690002                   | F8F7F6F5F4F3F2F1 0807060504030201 | FFFFFFFFF4F3F2F1
lwa r3,8(r9)                            | E869000A                   | F8F7F6F5F4F3F2F1 0807060504030201 | 4030201
ld r3,8(r9)                             | E8690008                   | F8F7F6F5F4F3F2F1 0807060504030201 | 0807060504030201
addi r10,r9,16; ld r3,-8(r10)           | 39490010 E86AFFF8          | F8F7F6F5F4F3F2F1 0807060504030201 | 0807060504030201
addi r10,r9,1; ld r3,4(r10)             | 39490001 E86A0004          | F8F7F6F5F4F3F2F1 0807060504030201 | 504030201F8F7F6
lwz r9,0(r9); mr r3,r9                  | 81290000 7D234B78          | F8F7F6F5F4F3F2F1 0807060504030201 | F4F3F2F1
ldx r3,0,r9                             | 7C60482A                   | F8F7F6F5F4F3F2F1 0807060504030201 | F8F7F6F5F4F3F2F1
addi r10,r9,16; li r6,-8; ldx r3,r10,r6 | 39490010 38C0FFF8 7C6A302A | F8F7F6F5F4F3F2F1 0807060504030201 | 0807060504030201
li r6,5; lwzx r3,r9,r6                  | 38C00005 7C69302E          | F8F7F6F5F4F3F2F1 0807060504030201 | 1F8F7F6
li r6,4; lwax r3,r9,r6                  | 38C00004 7C6932AA          | F8F7F6F5F4F3F2F1 0807060504030201 | FFFFFFFFF8F7F6F5
li r6,7; lbzx r3,r9,r6                  | 38C00007 7C6930AE          | F8F7F6F5F4F3F2F1 0807060504030201 | F8
li r6,7; lhzx r3,r9,r6                  | 38C00007 7C69322E          | F8F7F6F5F4F3F2F1 0807060504030201 | 1F8
li r6,3; lhax r3,r9,r6                  | 38C00003 7C6932AE          | F8F7F6F5F4F3F2F1 0807060504030201 | FFFFFFFFFFFFF5F4";

const STORES: &str = "\
stb r4,17(r9); ld r3,16(r9)                    | 98890011 E8690010          | F8F7F6F5F4F3F2F1 0807060504030201 | F100
stb r5,3(r9); ld r3,0(r9)                      | 98A90003 E8690000          | F8F7F6F5F4F3F2F1 0807060504030201 | F8F7F6F501F3F2F1
sth r4,17(r9); ld r3,16(r9)                    | B0890011 E8690010          | F8F7F6F5F4F3F2F1 0807060504030201 | F2F100
stw r4,19(r9); ld r3,16(r9)                    | 90890013 E8690010          | F8F7F6F5F4F3F2F1 0807060504030201 | F4F3F2F1000000
std r4,16(r9); ld r3,16(r9)                    | F8890010 E8690010          | F8F7F6F5F4F3F2F1 0807060504030201 | F8F7F6F5F4F3F2F1
std r5,0x1010(0); ld r3,16(r9)                 | F8A01010 E8690010          | F8F7F6F5F4F3F2F1 0807060504030201 | 0807060504030201
addi r10,r9,1; std r4,16(r10); ld r3,16(r9)    | 39490001 F88A0010 E8690010 | F8F7F6F5F4F3F2F1 0807060504030201 | F7F6F5F4F3F2F100
addi r10,r9,1; std r4,16(r10); ld r3,24(r9)    | 39490001 F88A0010 E8690018 | F8F7F6F5F4F3F2F1 0807060504030201 | F8
stdx r5,0,r9; ld r3,0(r9)                      | 7CA0492A E8690000          | F8F7F6F5F4F3F2F1 0807060504030201 | 0807060504030201
li r6,16; stdx r4,r9,r6; ld r3,16(r9)          | 38C00010 7C89312A E8690010 | F8F7F6F5F4F3F2F1 0807060504030201 | F8F7F6F5F4F3F2F1
li r6,19; stwx r4,r9,r6; ld r3,16(r9)          | 38C00013 7C89312E E8690010 | F8F7F6F5F4F3F2F1 0807060504030201 | F4F3F2F1000000
li r6,17; stbx r4,r9,r6; ld r3,16(r9)          | 38C00011 7C8931AE E8690010 | F8F7F6F5F4F3F2F1 0807060504030201 | F100
li r6,17; sthx r4,r9,r6; ld r3,16(r9)          | 38C00011 7C89332E E8690010 | F8F7F6F5F4F3F2F1 0807060504030201 | F2F100
stw r4,60(r9); lwz r3,60(r9)                   | 9089003C 8069003C          | F8F7F6F5F4F3F2F1 0807060504030201 | F4F3F2F1
addi r10,r9,40; stdu r4,-16(r10); ld r3,24(r9) | 39490028 F88AFFF1 E8690018 | F8F7F6F5F4F3F2F1 0807060504030201 | F8F7F6F5F4F3F2F1
addi r10,r9,40; stdu r4,-16(r10); mr r3,r10    | 39490028 F88AFFF1 7D435378 | F8F7F6F5F4F3F2F1 0807060504030201 | 1018
addi r10,r9,40; stdu r10,-8(r10); ld r3,32(r9) | 39490028 F94AFFF9 E8690020 | F8F7F6F5F4F3F2F1 0807060504030201 | 1028";

const PREFIXED: &str = "\
paddi r3,r9,-1                                     | 0603FFFF 3869FFFF                   | F8F7F6F5F4F3F2F1 0807060504030201 | FFF
paddi r3,r9,-0x200000000                           | 06020000 38690000                   | F8F7F6F5F4F3F2F1 0807060504030201 | FFFFFFFE00001000
pli r3,0x1FFFFFFFF                                 | 0601FFFF 3860FFFF                   | F8F7F6F5F4F3F2F1 0807060504030201 | 1FFFFFFFF
paddi r3,0,-4,1                                    | 0613FFFF 3860FFFC                   | F8F7F6F5F4F3F2F1 0807060504030201 | 104C
plbz r3,0x1001(0)                                  | 06000000 88601001                   | F8F7F6F5F4F3F2F1 0807060504030201 | F2
plhz r3,7(r9)                                      | 06000000 A0690007                   | F8F7F6F5F4F3F2F1 0807060504030201 | 1F8
plha r3,3(r9)                                      | 06000000 A8690003                   | F8F7F6F5F4F3F2F1 0807060504030201 | FFFFFFFFFFFFF5F4
plwz r3,5(r9)                                      | 06000000 80690005                   | F8F7F6F5F4F3F2F1 0807060504030201 | 1F8F7F6
plwz r3,8(0),1; nop                                | 06100000 80600008 60000000          | F8F7F6F5F4F3F2F1 0807060504030201 | 60000000
plwa r3,0(r9)                                      | 04000000 A4690000                   | F8F7F6F5F4F3F2F1 0807060504030201 | FFFFFFFFF4F3F2F1
pld r3,5(r9)                                       | 04000000 E4690005                   | F8F7F6F5F4F3F2F1 0807060504030201 | 504030201F8F7F6
pld r3,-0x50(0),1                                  | 0413FFFF E460FFB0                   | F8F7F6F5F4F3F2F1 0807060504030201 | F8F7F6F5F4F3F2F1
paddi r10,r9,-0x1FFFFFFF7; pld r3,0x1FFFFFFFF(r10) | 06020000 39490009 0401FFFF E46AFFFF | F8F7F6F5F4F3F2F1 0807060504030201 | 0807060504030201
pstb r4,17(r9); ld r3,16(r9)                       | 06000000 98890011 E8690010          | F8F7F6F5F4F3F2F1 0807060504030201 | F100
psth r4,17(r9); ld r3,16(r9)                       | 06000000 B0890011 E8690010          | F8F7F6F5F4F3F2F1 0807060504030201 | F2F100
pstw r4,19(r9); ld r3,16(r9)                       | 06000000 90890013 E8690010          | F8F7F6F5F4F3F2F1 0807060504030201 | F4F3F2F1000000
pstd r4,17(r9); ld r3,16(r9)                       | 04000000 F4890011 E8690010          | F8F7F6F5F4F3F2F1 0807060504030201 | F7F6F5F4F3F2F100
pstd r4,-0x40(0),1; ld r3,16(r9)                   | 0413FFFF F480FFC0 E8690010          | F8F7F6F5F4F3F2F1 0807060504030201 | F8F7F6F5F4F3F2F1";

// The two numbers of a column.
fn pair_of(text: &str) -> Result<[u64; 2], Fail> {
    let mut numbers = text.split_whitespace();
    let first = numbers.next().ok_or("a number is wanted")?;
    let second = numbers.next().ok_or("two numbers are wanted")?;
    Ok([number_of(first)?, number_of(second)?])
}

// Each row's words, with others before and after, leave in r3 what is wanted.
fn all_leave(
    rt: &impl Abort,
    alloc: Global,
    rows: &str,
    before: &str,
    after: &str,
) -> Result<(), Fail> {
    for line in rows.lines() {
        let row = row_of(line)?;
        let mut world = world(alloc, "", "whole")?;
        let left = left_in_r3(
            alloc,
            pair_of(row.given)?,
            &[before, row.words, after],
            &mut world,
        )?;
        assert_eq!(rt; left, Some(number_of(row.wanted)?), "{line}");
    }
    Ok(())
}

#[test]
fn sums_and_differences(rt: HostRuntime) -> Result<(), Fail> {
    all_leave(&rt, rt.alloc(), SUMS, "", "")
}

#[test]
fn products_and_quotients(rt: HostRuntime) -> Result<(), Fail> {
    all_leave(&rt, rt.alloc(), PRODUCTS, "", "")
}

#[test]
fn logic_and_signs(rt: HostRuntime) -> Result<(), Fail> {
    all_leave(&rt, rt.alloc(), LOGIC, "", "")
}

#[test]
fn shifts_at_the_ends_of_words(rt: HostRuntime) -> Result<(), Fail> {
    all_leave(&rt, rt.alloc(), SHIFTS, "", "")
}

#[test]
fn rotations_under_masks(rt: HostRuntime) -> Result<(), Fail> {
    all_leave(&rt, rt.alloc(), ROTATIONS, "", "")
}

#[test]
fn comparisons_set_their_field_alone(rt: HostRuntime) -> Result<(), Fail> {
    all_leave(&rt, rt.alloc(), ORDERS, "", CONDITION)
}

#[test]
fn recorded_results_set_field_0(rt: HostRuntime) -> Result<(), Fail> {
    all_leave(&rt, rt.alloc(), RECORDS, "", CONDITION)
}

#[test]
fn branches_and_links(rt: HostRuntime) -> Result<(), Fail> {
    all_leave(&rt, rt.alloc(), BRANCHES, "", "")
}

// The row's branch is over an mfctr and a branch, to an mfctr and an addition of 0x100.
#[test]
fn conditional_branches_by_ctr_and_a_bit(rt: HostRuntime) -> Result<(), Fail> {
    // mtctr r4; cmpdi r5,0; mfctr r3; b .+12; mfctr r3; addi r3,r3,0x100
    all_leave(
        &rt,
        rt.alloc(),
        CONDITIONS,
        "7C8903A6 2C250000",
        "7C6902A6 4800000C 7C6902A6 38630100",
    )
}

#[test]
fn loads_of_each_width(rt: HostRuntime) -> Result<(), Fail> {
    all_leave(&rt, rt.alloc(), LOADS, "", "")
}

#[test]
fn stores_of_each_width(rt: HostRuntime) -> Result<(), Fail> {
    all_leave(&rt, rt.alloc(), STORES, "", "")
}

#[test]
fn prefixed_instructions(rt: HostRuntime) -> Result<(), Fail> {
    all_leave(&rt, rt.alloc(), PREFIXED, "", "")
}
