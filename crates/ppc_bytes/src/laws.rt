// What callers may rely on when they put and read numbers.
ghost use Rattle.std.specs.Prelude.{◌≡◌, ◌<◌, ◌≤◌, ◌+◌, ◌^◌, ◌⊎◌, ℕ, List, length};
ghost use Rattle.ppc_bytes.specs.Bytes.{number_at, with_number};

/// What was put at a place is read there again.
pub fn put_then_read()
    ensures { (n at x : ℕ) (b : List ℕ) → at + n ≤ length b → x < 256 ^ n →
        number_at n (with_number n b at x) at ≡ x }
{}

/// A number beside the place of a write is as before.
pub fn put_keeps_others()
    ensures { (n m at place x : ℕ) (b : List ℕ) → at + n ≤ length b →
        (place + m ≤ at) ⊎ (at + n ≤ place) →
        number_at m (with_number n b at x) place ≡ number_at m b place }
{}
