// Numbers of two, four and eight bytes at a place in a slice.
ghost use Rattle.std.specs.Prelude.{◌≡◌, ◌+◌, ◌≤◌, length};
ghost use Rattle.ppc_bytes.specs.Bytes.{number_at, with_number};

use byteorder::{ByteOrder, LittleEndian};

/// The number in the two bytes from `at` on.
pub fn half_at(b: &[u8], at: usize) -> u16
    requires { at + 2 ≤ length b.now }
    ensures { result ≡ number_at 2 b.now at }
{
    LittleEndian::read_u16(&b[at..])
}

/// The number in the four bytes from `at` on.
pub fn word_at(b: &[u8], at: usize) -> u32
    requires { at + 4 ≤ length b.now }
    ensures { result ≡ number_at 4 b.now at }
{
    LittleEndian::read_u32(&b[at..])
}

/// The number in the eight bytes from `at` on.
pub fn long_at(b: &[u8], at: usize) -> u64
    requires { at + 8 ≤ length b.now }
    ensures { result ≡ number_at 8 b.now at }
{
    LittleEndian::read_u64(&b[at..])
}

/// Writes `v` into the two bytes from `at` on; all other bytes stay.
pub fn put_half(b: &mut [u8], at: usize, v: u16)
    requires { at + 2 ≤ length b.old }
    ensures { b.new ≡ with_number 2 b.old at v }
{
    LittleEndian::write_u16(&mut b[at..at + 2], v);
}

/// Writes `v` into the four bytes from `at` on; all other bytes stay.
pub fn put_word(b: &mut [u8], at: usize, v: u32)
    requires { at + 4 ≤ length b.old }
    ensures { b.new ≡ with_number 4 b.old at v }
{
    LittleEndian::write_u32(&mut b[at..at + 4], v);
}

/// Writes `v` into the eight bytes from `at` on; all other bytes stay.
pub fn put_long(b: &mut [u8], at: usize, v: u64)
    requires { at + 8 ≤ length b.old }
    ensures { b.new ≡ with_number 8 b.old at v }
{
    LittleEndian::write_u64(&mut b[at..at + 8], v);
}
