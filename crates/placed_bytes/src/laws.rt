// What callers may rely on beside the contracts.
ghost use Rattle.std.specs.Prelude.{ℕ, ◌≡◌, List, length};
ghost use Rattle.placed_bytes.specs.Patches.{ArePlaced, IsPatched, Patch, all_patched};

/// Patches at places that are apart stand where they were put, and all else is as it was.
pub fn patches_stand()
    ensures { (b : List ℕ) (ps : List Patch) → ArePlaced (length b) ps →
        IsPatched b ps (all_patched b ps) }
{}

/// One list with the same patches is one list.
pub fn patched_is_one()
    ensures { (old a b : List ℕ) (ps : List Patch) → IsPatched old ps a → IsPatched old ps b →
        a ≡ b }
{}
