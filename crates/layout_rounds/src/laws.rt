// What callers may rely on beside the contracts.
ghost use Rattle.std.specs.Prelude.{◌≡◌, ◌≤◌, ◌<◌, ◌+◌, ◌%◌, ℕ, List, Bool, true, pos, ◌-ℤ◌, length, slice_index};
ghost use Rattle.ppc_bytes.specs.Bytes.{InSigned};
ghost use Rattle.stub_kinds.specs.Stubs.{BranchReaches};
ghost use Rattle.layout_rounds.specs.declared.shape.Shape.{Shape};
ghost use Rattle.layout_rounds.specs.FarSets.{◌⊆◌};
ghost use Rattle.layout_rounds.specs.declared.shape.ShapeSite.{ShapeSite};
ghost use Rattle.layout_rounds.specs.Shapes.{KeyedText, keyed_text, section_of, IsSound, IsSpan};
ghost use Rattle.layout_rounds.specs.Layout.{key_at, key_count, area, address, point_in, section_count, section_size};
ghost use Rattle.layout_rounds.specs.Layout.{section_address, stub_address, stub_size, IsKeyed};
ghost use Rattle.layout_rounds.specs.Lying.{AreApart, IsInLayout};
ghost use Rattle.layout_rounds.specs.Reach.{reaches, reaches_near, IsClosed, IsFarSet};

/// No stub area is shorter where more keys are far.
pub fn areas_grow()
    ensures { (shape : Shape) (span : ℕ) (F G : ℕ → Bool) → IsSound shape → IsSpan span → F ⊆ G →
        (g : ℕ) → area (keyed_text shape span) F g ≤ area (keyed_text shape span) G g }
{}

/// So a key that reaches near where more keys are far does where fewer are.
pub fn reach_shrinks()
    ensures { (shape : Shape) (span : ℕ) (F G : ℕ → Bool) → IsSound shape → IsSpan span → F ⊆ G →
        (k : ℕ) → k < key_count (keyed_text shape span) →
        reaches_near (keyed_text shape span) shape.sites.items span G k ≡ true →
        reaches_near (keyed_text shape span) shape.sites.items span F k ≡ true }
{}

/// Each shape has a far set.
pub fn some_far_set()
    ensures { (shape : Shape) (span : ℕ) → IsSound shape → IsSpan span →
        (F : ℕ → Bool) × IsFarSet shape span F }
{}

/// A shape has at most one far set.
pub fn one_far_set()
    ensures { (shape : Shape) (span : ℕ) (F G : ℕ → Bool) →
        IsFarSet shape span F → IsFarSet shape span G → (k : ℕ) → F k ≡ G k }
{}

/// In the layout of any set each section, and each stub that isn't empty, lies in the text, at a multiple of its alignment.
pub fn sections_and_stubs_lie_in_text()
    ensures sections { (t : KeyedText) (F : ℕ → Bool) (s : ℕ) → IsKeyed t → s < section_count t →
        IsInLayout t F (section_address t F s) (section_size t s) (section_of t.sections s).align }
    ensures instructions { (t : KeyedText) (F : ℕ → Bool) (s : ℕ) →
        IsKeyed t → s < section_count t → section_address t F s % 4 ≡ 0 }
    ensures stubs { (t : KeyedText) (F : ℕ → Bool) (k : ℕ) → IsKeyed t → k < key_count t →
        0 < stub_size t F k → IsInLayout t F (stub_address t F k) (stub_size t F k) 16 }
{}

/// There no two of them have an address in common.
pub fn sections_and_stubs_are_apart()
    ensures sections { (t : KeyedText) (F : ℕ → Bool) (s r : ℕ) → IsKeyed t → s < r →
        r < section_count t → section_address t F s + section_size t s ≤ section_address t F r }
    ensures beside { (t : KeyedText) (F : ℕ → Bool) (s k : ℕ) → IsKeyed t → s < section_count t →
        k < key_count t → AreApart (section_address t F s) (section_size t s) (stub_address t F k)
        (stub_size t F k) }
    ensures stubs { (t : KeyedText) (F : ℕ → Bool) (j k : ℕ) → IsKeyed t → j < k → k < key_count t →
        AreApart (stub_address t F j) (stub_size t F j) (stub_address t F k) (stub_size t F k) }
{}

/// A distance in reach fits a branch; and in the layout of a closed set the branch of each near stub reaches the key's place.
pub fn branches_stay_in_reach()
    ensures calls { (span at to : ℕ) → IsSpan span → reaches span at to ≡ true →
        InSigned 26 (pos to -ℤ pos at) }
    ensures stubs { (t : KeyedText) (sites : List ShapeSite) (span : ℕ) (F : ℕ → Bool) →
        IsKeyed t → IsSpan span → IsClosed t sites span F → (k : ℕ) → k < key_count t →
        BranchReaches (key_at t k).class (F k) (stub_address t F k)
        (address t F (point_in t (key_at t k).section (key_at t k).offset)) }
{}

/// In the text of a sound shape each key leads to an instruction, and each call has a key.
pub fn calls_have_keys()
    ensures keyed { (shape : Shape) (span : ℕ) → IsSound shape → IsKeyed (keyed_text shape span) }
    ensures count { (shape : Shape) (span : ℕ) → IsSound shape →
        length (keyed_text shape span).numbers ≡ length shape.sites.items }
    ensures numbered { (shape : Shape) (span i : ℕ) → IsSound shape → i < length shape.sites.items →
        slice_index (keyed_text shape span).numbers i < key_count (keyed_text shape span) }
{}
