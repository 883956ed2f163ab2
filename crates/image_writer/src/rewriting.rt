// What follows of texts of which something is rewritten or nothing, for crates above.
ghost use Rattle.std.specs.Prelude.{◌≡◌, ℕ, Bool, List};
ghost use Rattle.call_sites.specs.declared.site.CallSite.{CallSite};
ghost use Rattle.toc_groups.specs.Plans.{LaidData};
ghost use Rattle.layout_rounds.specs.Shapes.{KeyedText};
ghost use Rattle.layout_rounds.specs.Layout.{PlacedText};
ghost use Rattle.pcrel_rewrite.specs.declared.text_pairs.TextPair.{TextPair};
ghost use Rattle.pcrel_rewrite.specs.Pairs.{ArePairs};
ghost use Rattle.image_writer.specs.Fields.{field_overflow};
ghost use Rattle.image_writer.specs.Image.{plain_text, text_image};
ghost use Rattle.image_writer.specs.Records.{text_overflow};
ghost use Rattle.image_writer.specs.Rewriting.{no_rewriting, rewriting_of};

/// Where nothing is rewritten, a text has the fields of all records, and each of them is checked.
pub fn texts_may_stay_plain()
    ensures text { (files : List (List ℕ)) (plan : LaidData) (sites : List CallSite)
        (t : KeyedText) (F : ℕ → Bool) (p : PlacedText) →
        text_image files plan sites t F p no_rewriting ≡ plain_text files plan sites t F p }
    ensures overflow { (files : List (List ℕ)) (span : ℕ) (text : List ℕ) →
        text_overflow files span text no_rewriting ≡ field_overflow files span text }
{}

/// The recognised pairs of files, in whatever order they are listed, make one text.
pub fn texts_are_one()
    ensures { (files : List (List ℕ)) (plan : LaidData) (sites : List CallSite) (t : KeyedText)
        (F : ℕ → Bool) (p : PlacedText) (a b : List TextPair) → ArePairs files a →
        ArePairs files b → text_image files plan sites t F p (rewriting_of files plan.span a)
        ≡ text_image files plan sites t F p (rewriting_of files plan.span b) }
{}
