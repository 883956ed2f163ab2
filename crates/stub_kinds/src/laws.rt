// What callers may rely on beside the contracts.
ghost use Rattle.std.specs.Prelude.{◌≡◌, ◌<◌, ◌≤◌, ◌*◌, ◌%◌, ◌^◌, ℕ, Bool, true, false, length, All};
ghost use Rattle.stub_kinds.specs.declared.class.Class.{Class};
ghost use Rattle.stub_kinds.specs.Stubs.{size_of, words_of};

/// A stub's size is 0, 16 or 32 bytes, and a far stub is no shorter than a near one.
pub fn sizes_are_few_and_grow()
    ensures few { (class : Class) (far : Bool) →
        (size_of class far % 16 ≡ 0) × (size_of class far ≤ 32) }
    ensures grow { (class : Class) → size_of class false ≤ size_of class true }
{}

/// A stub's words are words, and are within its size.
pub fn words_are_within_the_size()
    ensures words { (class : Class) (far : Bool) (at place base to_base : ℕ) →
        All (λ w. w < 2 ^ 32) (words_of class far at place base to_base) }
    ensures within { (class : Class) (far : Bool) (at place base to_base : ℕ) →
        4 * length (words_of class far at place base to_base) ≤ size_of class far }
{}
