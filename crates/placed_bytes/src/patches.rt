// Bytes and numbers put at a place.
ghost use Rattle.std.specs.Prelude.{◌≡◌, ◌⊎◌, ◌+◌, ◌^◌, ◌<◌, ◌≤◌, length};
ghost use Rattle.placed_bytes.specs.Patches.{number_patch, patched};

use ppc_bytes::{put_long, put_word};

/// Puts bytes at a place of others, in the place of as many; all others stay.
pub fn put_bytes(b: &mut [u8], at: usize, bytes: &[u8])
    requires { at + length bytes.now ≤ length b.old }
    ensures { b.new ≡ patched b.old (record { at = at; bytes = bytes.now }) }
{
    b[at..at + bytes.len()].copy_from_slice(bytes);
}

/// Puts a number of four or eight bytes at a place, the lowest byte first; all other bytes stay.
pub fn put_number(b: &mut [u8], at: usize, width: u32, x: u64)
    requires width { (width ≡ 4) ⊎ (width ≡ 8) }
    requires fits { x < 256 ^ width }
    requires room { at + width ≤ length b.old }
    ensures { b.new ≡ patched b.old (number_patch width at x) }
{
    if width == 4 {
        put_word(b, at, x as u32);
    } else {
        put_long(b, at, x);
    }
}
