// Numbers in bytes.
ghost use Rattle.std.specs.Prelude.{◌≡◌, ◌+◌, ◌^◌, ◌<◌, ◌≤◌, length, take, drop};
ghost use Rattle.power_insns.specs.Arithmetic.{bytes_of};
ghost use Rattle.power_machine.specs.Bytes.{spelled};

use power_insns::meaning::Width;
use ppc_bytes::{half_at, long_at, word_at};

// The number in the bytes from a place on.
#[tactic(auto, unfolding(crate::specs::Bytes::spelled))]
pub fn number_in(bytes: &[u8], from: usize, width: Width) -> u64
    requires { from + bytes_of width ≤ length bytes.now }
    ensures value { result ≡ spelled (take (bytes_of width) (drop from bytes.now)) }
    ensures bound { result < 256 ^ bytes_of width }
{
    match width {
        Width::Byte => u64::from(byte_at(bytes, from)),
        Width::Half => u64::from(half_at(bytes, from)),
        Width::Word => u64::from(word_at(bytes, from)),
        Width::Long => long_at(bytes, from),
    }
}

#[tactic(auto, unfolding(crate::specs::Bytes::spelled))]
fn byte_at(bytes: &[u8], from: usize) -> u8
    requires { from + 1 ≤ length bytes.now }
    ensures { result ≡ spelled (take 1 (drop from bytes.now)) }
{
    bytes[from]
}
