// What identifies a little-endian 64-bit Power file (ELF64 "ELF Identification", ELFv2 ABI, 3.1 "ELF Header").
ghost use Rattle.std.specs.Prelude.{◌≡◌, ◌≤◌, length};
ghost use Rattle.ppc_bytes.specs.Elf.{has_magic, is_ppc64_le};

use crate::numbers::{half_at, word_at};

/// Whether the bytes begin as an ELF file does, with 7F 45 4C 46.
pub fn has_magic(b: &[u8]) -> bool
    ensures { result ≡ has_magic b.now }
{
    b.len() >= 4 && word_at(b, 0) == 0x464C_457F
}

/// Whether a file header is that of a 64-bit little-endian Power file of the current ELF version.
pub fn is_ppc64_le(b: &[u8]) -> bool
    requires { 64 ≤ length b.now }
    ensures { result ≡ is_ppc64_le b.now }
{
    b[4] == 2 && b[5] == 1 && b[6] == 1 && half_at(b, 18) == 21 && word_at(b, 20) == 1
}
