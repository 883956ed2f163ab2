// From prefixed instructions to words.
ghost use Rattle.std.specs.Prelude.{◌≡◌, ◌<◌, ◌^◌};
ghost use Rattle.power_insns.specs.Words.{low_of};
ghost use Rattle.prefixed_insns.specs.Table.{type_of, opcode_of, prefix_of, suffix_of, Fits};

use crate::instruction::{PInsn, POp};
use power_insns::words::d_word;

/// The words of an instruction: the prefix, which stands at the lower address, and the suffix.
pub fn encode_pair(insn: &PInsn) -> (u32, u32)
    requires { Fits insn.now }
    ensures prefix { result.0 ≡ prefix_of insn.now }
    ensures suffix { result.1 ≡ suffix_of insn.now }
{
    let low = low_of(insn.disp);
    let high = (low >> 16) as u32;
    let prefix = (1 << 26) + (type_of(insn.op) << 24) + (u32::from(insn.relative) << 20) + high;
    let suffix = d_word(
        opcode_of(insn.op),
        insn.rt,
        insn.ra,
        (low % 0x1_0000) as u32,
    );
    (prefix, suffix)
}

// The lowest 34 bits of a displacement.
fn low_of(z: i64) -> u64
    ensures value { result ≡ low_of 34 z }
    ensures below { result < 2 ^ 34 }
{
    z.rem_euclid(1 << 34) as u64
}

// The type in the prefix: 2 for MLS, 0 for 8LS.
fn type_of(op: POp) -> u32
    ensures value { result ≡ type_of op }
    ensures below { result < 4 }
{
    match op {
        POp::Plwa | POp::Pld | POp::Pstd => 0,
        _ => 2,
    }
}

// The primary opcode of the suffix.
fn opcode_of(op: POp) -> u32
    ensures value { result ≡ opcode_of op }
    ensures below { result < 64 }
{
    match op {
        POp::Paddi => 14,
        POp::Plwz => 32,
        POp::Plbz => 34,
        POp::Pstw => 36,
        POp::Pstb => 38,
        POp::Plhz => 40,
        POp::Plwa => 41,
        POp::Plha => 42,
        POp::Psth => 44,
        POp::Pld => 57,
        POp::Pstd => 61,
    }
}
