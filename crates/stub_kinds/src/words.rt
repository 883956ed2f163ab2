// The words of stubs.
ghost use Rattle.std.specs.Prelude.{◌≡◌, ◌+◌, ◌<◌, ◌%◌, ◌^◌, pos, ◌+ℤ◌, ◌-ℤ◌, ◌∷◌, []};
ghost use Rattle.ppc_bytes.specs.Bytes.{InSigned};
ghost use Rattle.ppc_bytes.specs.Halves.{low_of, lo, ha, d0, d1};
ghost use Rattle.stub_kinds.specs.Stubs.{addi_r12_r12, addi_r2_r2, addis_r12_r2, addis_r2_r2, bctr, branch, by_distance, by_toc, eight, mtctr_r12, std_r2, words_of, BranchReaches};

use crate::class::Class;
use ppc_bytes::constants::{B, NOP};
use ppc_bytes::{d0, d1, ha, lo, low_bits};

const STD_R2: u32 = 0xF841_0018;

const ADDIS_R12_R2: u32 = 0x3D82_0000;

const ADDI_R12_R12: u32 = 0x398C_0000;

const ADDIS_R2_R2: u32 = 0x3C42_0000;

const ADDI_R2_R2: u32 = 0x3842_0000;

const PADDI_PREFIX: u32 = 0x0610_0000;

const PADDI_R12: u32 = 0x3980_0000;

const MTCTR_R12: u32 = 0x7D89_03A6;

const BCTR: u32 = 0x4E80_0420;

/// The words of a stub, with nops behind them: `at` is the stub's address, `to` that of the key's place, `base` the TOC base
/// of the caller and `to_base` that of the callee. A near `Same` or `NearN` key has no stub, so its words are nops.
pub fn stub_words(class: Class, far: bool, at: u64, to: u64, base: u64, to_base: u64) -> [u32; 8]
    requires at_low { at < 0x60000000 }
    requires to_low { to < 0x60000000 }
    requires base_low { base < 0x60000000 }
    requires to_base_low { to_base < 0x60000000 }
    requires at_whole { at % 4 ≡ 0 }
    requires to_whole { to % 4 ≡ 0 }
    requires reaches { BranchReaches class far at to }
    ensures { result ≡ eight (words_of class far at to base to_base) }
{
    match class {
        Class::Same | Class::NearN if !far => [NOP; 8],
        Class::Same | Class::EntryBare => jump_by_toc(difference(to, base)),
        Class::NearN | Class::EntryN => jump_by_distance(difference(to, at)),
        Class::Switch if far => switch_far(difference(to, base), difference(to_base, base)),
        Class::Switch => switch_near(difference(to_base, base), difference(to, at + 12)),
        Class::Save if !far => save_near(difference(to, at + 4)),
        Class::Save | Class::EntrySave => save_by_toc(difference(to, base)),
    }
}

// How far one address is past another.
fn difference(to: u64, from: u64) -> i128
    requires to_low { to < 0x60000010 }
    requires from_low { from < 0x60000010 }
    ensures { result ≡ pos to -ℤ pos from }
{
    to as i128 - from as i128
}

// To the place `x` past r2.
fn jump_by_toc(x: i128) -> [u32; 8]
    requires { InSigned 32 x }
    ensures { result ≡ eight (by_toc x) }
{
    [
        ADDIS_R12_R2 + ha(x),
        ADDI_R12_R12 + lo(x),
        MTCTR_R12,
        BCTR,
        NOP,
        NOP,
        NOP,
        NOP,
    ]
}

// The same with r2 saved first.
fn save_by_toc(x: i128) -> [u32; 8]
    requires { InSigned 32 x }
    ensures { result ≡ eight (std_r2 ∷ by_toc x) }
{
    [
        STD_R2,
        ADDIS_R12_R2 + ha(x),
        ADDI_R12_R12 + lo(x),
        MTCTR_R12,
        BCTR,
        NOP,
        NOP,
        NOP,
    ]
}

// To the place `x` past the stub.
fn jump_by_distance(x: i128) -> [u32; 8]
    requires { InSigned 32 x }
    ensures { result ≡ eight (by_distance x) }
{
    [
        PADDI_PREFIX + d0(x),
        PADDI_R12 + d1(x),
        MTCTR_R12,
        BCTR,
        NOP,
        NOP,
        NOP,
        NOP,
    ]
}

// r2 is saved and moved by `d`, and a branch goes on.
fn switch_near(d: i128, displacement: i128) -> [u32; 8]
    requires moved { InSigned 32 d }
    requires reaches { InSigned 26 displacement }
    ensures { result ≡ eight (std_r2 ∷ (addis_r2_r2 + ha d) ∷ (addi_r2_r2 + lo d)
        ∷ branch displacement ∷ []) }
{
    [
        STD_R2,
        ADDIS_R2_R2 + ha(d),
        ADDI_R2_R2 + lo(d),
        branch(displacement),
        NOP,
        NOP,
        NOP,
        NOP,
    ]
}

// r2 is saved, r12 gets the address `x` past r2, r2 is moved by `d`, and a jump goes to r12.
fn switch_far(x: i128, d: i128) -> [u32; 8]
    requires place { InSigned 32 x }
    requires moved { InSigned 32 d }
    ensures { result ≡ eight (std_r2 ∷ (addis_r12_r2 + ha x) ∷ (addi_r12_r12 + lo x) ∷ mtctr_r12
        ∷ (addis_r2_r2 + ha d) ∷ (addi_r2_r2 + lo d) ∷ bctr ∷ []) }
{
    [
        STD_R2,
        ADDIS_R12_R2 + ha(x),
        ADDI_R12_R12 + lo(x),
        MTCTR_R12,
        ADDIS_R2_R2 + ha(d),
        ADDI_R2_R2 + lo(d),
        BCTR,
        NOP,
    ]
}

// r2 is saved, and a branch goes on.
fn save_near(displacement: i128) -> [u32; 8]
    requires { InSigned 26 displacement }
    ensures { result ≡ eight (std_r2 ∷ branch displacement ∷ []) }
{
    [STD_R2, branch(displacement), NOP, NOP, NOP, NOP, NOP, NOP]
}

// A branch by a displacement.
fn branch(displacement: i128) -> u32
    ensures { result ≡ branch displacement }
{
    B + low_bits(displacement, 26) as u32
}
