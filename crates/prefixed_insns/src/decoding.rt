// From words to prefixed instructions.
ghost use Rattle.std.specs.Prelude.{◌≡◌, ◌<◌, ◌^◌, ◌/◌, ◌%◌, IfSome};
ghost use Rattle.power_insns.specs.Words.{low_of, InSigned};
ghost use Rattle.prefixed_insns.specs.declared.instruction.POp.{POp};
ghost use Rattle.prefixed_insns.specs.declared.instruction.PInsn.{PInsn};
ghost use Rattle.prefixed_insns.specs.Table.{type_of, opcode_of, prefix_of, suffix_of, Fits};

use crate::instruction::{PInsn, POp};
use power_insns::words::{bit, field};

/// The instruction of a prefix and a suffix; `None` exactly where they are the words of none.
pub fn decode_pair(prefix: u32, suffix: u32) -> Option<PInsn>
    ensures fits { IfSome result Fits }
    ensures found { IfSome result (λ i. (prefix_of i ≡ prefix) × (suffix_of i ≡ suffix)) }
    ensures only { (i : PInsn) → Fits i → prefix_of i ≡ prefix → suffix_of i ≡ suffix →
        result ≡ Some i }
{
    if field(prefix, 0, 5) != 1 || field(prefix, 8, 10) != 0 || field(prefix, 12, 13) != 0 {
        return None;
    }
    let op = op_of(field(prefix, 6, 7), field(suffix, 0, 5))?;
    let relative = bit(prefix, 11);
    let ra = field(suffix, 11, 15);
    if relative && ra != 0 {
        return None;
    }
    let rt = field(suffix, 6, 10);
    let disp = displacement(prefix, suffix);
    Some(PInsn {
        op,
        rt,
        ra,
        relative,
        disp,
    })
}

// The mnemonic of a type and an opcode.
fn op_of(kind: u32, opcode: u32) -> Option<POp>
    ensures found { IfSome result (λ op. (type_of op ≡ kind) × (opcode_of op ≡ opcode)) }
    ensures only { (op : POp) → type_of op ≡ kind → opcode_of op ≡ opcode → result ≡ Some op }
{
    Some(match (kind, opcode) {
        (2, 14) => POp::Paddi,
        (2, 32) => POp::Plwz,
        (2, 34) => POp::Plbz,
        (2, 36) => POp::Pstw,
        (2, 38) => POp::Pstb,
        (2, 40) => POp::Plhz,
        (0, 41) => POp::Plwa,
        (2, 42) => POp::Plha,
        (2, 44) => POp::Psth,
        (0, 57) => POp::Pld,
        (0, 61) => POp::Pstd,
        _ => return None,
    })
}

// The displacement whose high 18 bits the prefix holds, and whose low 16 the suffix.
fn displacement(prefix: u32, suffix: u32) -> i64
    ensures fits { InSigned 34 result }
    ensures high { low_of 34 result / 2 ^ 16 ≡ prefix % 2 ^ 18 }
    ensures low { low_of 34 result % 2 ^ 16 ≡ suffix % 2 ^ 16 }
{
    signed_of(u64::from(prefix % 0x4_0000) * 0x1_0000 + u64::from(suffix % 0x1_0000))
}

// A number of 34 bits, read as two's complement.
fn signed_of(n: u64) -> i64
    requires { n < 2 ^ 34 }
    ensures fits { InSigned 34 result }
    ensures low { low_of 34 result ≡ n }
{
    if n < 1 << 33 {
        n as i64
    } else {
        n as i64 - (1 << 34)
    }
}
