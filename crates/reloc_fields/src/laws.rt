// What callers may rely on beside the contracts: filled fields as numbers, and the halves of a number put together again.
ghost use Rattle.std.specs.Prelude.{◌≡◌, ◌<◌, ◌*◌, ◌+◌, ◌^◌, ◌↔◌, ℕ, ℤ, pos, ◌+ℤ◌, ◌*ℤ◌};
ghost use Rattle.ppc_bytes.specs.Bytes.{InSigned};
ghost use Rattle.ppc_bytes.specs.Halves.{signed_of, lo, hi, ha, whole_ha, IsSmall, d0, d1};
ghost use Rattle.reloc_fields.specs.Bits.{Fills};
ghost use Rattle.reloc_fields.specs.Table.{Filling, field, filled, mask};

/// Two numbers that are filled alike are equal.
pub fn fills_alike()
    ensures { (ones old bits a b : ℕ) → a < 2 ^ 64 → b < 2 ^ 64 →
        Fills ones old bits a → Fills ones old bits b → a ≡ b }
{}

/// A filled field as a number, for each filling.
pub fn fills_as_a_number()
    ensures { (filling : Filling) (old new : ℕ) (x : ℤ) → old < 2 ^ 64 → new < 2 ^ 64 →
        Fills (mask filling) old (field filling x) new → new ≡ filled filling old x }
{}

/// `#ha` and `#lo` make the number again where `#ha` holds it, and `#hi` and `#lo` do where `#hi` holds it.
pub fn high_and_low_are_joined()
    ensures adjusted { (x : ℤ) → InSigned 32 (x +ℤ pos 0x8000) →
        signed_of 16 (ha x) *ℤ pos 0x10000 +ℤ signed_of 16 (lo x) ≡ x }
    ensures plain { (x : ℤ) → InSigned 32 x → signed_of 16 (hi x) *ℤ pos 0x10000 +ℤ pos (lo x) ≡ x }
{}

/// A number is small exactly if its whole `#ha` is 0, and then `#lo` alone makes it again.
pub fn small_numbers()
    ensures exactly { (x : ℤ) → IsSmall x ↔ (whole_ha x ≡ pos 0) }
    ensures low { (x : ℤ) → IsSmall x → signed_of 16 (lo x) ≡ x }
{}

/// The two parts of a prefixed instruction's displacement make it again.
pub fn displacement_is_joined()
    ensures { (x : ℤ) → InSigned 34 x → signed_of 34 (d0 x * 2 ^ 16 + d1 x) ≡ x }
{}
