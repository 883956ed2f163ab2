// The words of pc-relative loads that are rewritten.
ghost use Rattle.std.specs.Prelude.{◌≡◌, ◌<◌};
ghost use Rattle.power_insns.specs.Table.{Fits as FitsWord};
ghost use Rattle.power_insns.specs.Words.{InSigned};
ghost use Rattle.pcrel_rewrite.specs.Rewriting.{address_sum, got_words, pair_words};

use power_insns::Insn;
use prefixed_insns::{PInsn, POp, as_prefixed, encode_pair};

/// The words of `paddi rT,0,disp,1`, which makes the address so many bytes past its own (Power ISA 3.1, book I, "Fixed-Point Arithmetic
/// Instructions"): what a load of an address from its slot becomes.
pub fn rewrite_got(rt: u32, disp: i64) -> (u32, u32)
    requires rt { rt < 32 }
    requires disp { InSigned 34 disp }
    ensures { result ≡ got_words rt disp }
{
    encode_pair(&PInsn {
        op: POp::Paddi,
        rt,
        ra: 0,
        relative: true,
        disp,
    })
}

/// The words of the prefixed form of a load or store, relative to its own address: what a load of an address and the access through it
/// become. `None` exactly where the instruction has no such form.
pub fn rewrite_pair(insn: &Insn, disp: i64) -> Option<(u32, u32)>
    requires insn { FitsWord insn.now }
    requires disp { InSigned 34 disp }
    ensures { result ≡ pair_words insn.now disp }
{
    match as_prefixed(insn, disp) {
        Some(pair) => Some(encode_pair(&pair)),
        None => None,
    }
}
