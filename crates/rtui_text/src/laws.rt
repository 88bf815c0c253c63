//! Laws of texts that are no single call's clause, stated over the definitions of `specs/` alone.
//! Calling one of these functions costs nothing and tells the caller's proof its law.

ghost use Rattle.std.specs.Prelude.{◌≡◌, ℕ, List, length, take, drop, true, false};
ghost use Rattle.std.specs.List.{concat};
ghost use Rattle.std.specs.Str.{IsUtf8};
ghost use Rattle.unicode_segmentation.specs.Grapheme.{graphemes};
ghost use Rattle.rtui_text.specs.Graphemes.{EachGrapheme, has_control};

/// The graphemes of a text from one of its graphemes on are the rest of its graphemes. So what
/// stands before a grapheme doesn't change how the text is cut after it.
pub fn the_rest_of_a_text_has_the_rest_of_its_graphemes()
    ensures joined { (n : ℕ) (text : List ℕ) → let rest = drop n (graphemes true text) in
        graphemes true (concat rest) ≡ rest }
    ensures bytes { (n : ℕ) (text : List ℕ) → IsUtf8 text → let gs = graphemes true text in
        graphemes true (drop (length (concat (take n gs))) text) ≡ drop n gs }
{}

/// The graphemes of a text up to the end of one of its graphemes are the first of its graphemes.
pub fn the_front_of_a_text_has_the_first_of_its_graphemes()
    ensures joined { (n : ℕ) (text : List ℕ) → let first = take n (graphemes true text) in
        graphemes true (concat first) ≡ first }
    ensures bytes { (n : ℕ) (text : List ℕ) → IsUtf8 text → let gs = graphemes true text in
        graphemes true (take (length (concat (take n gs))) text) ≡ take n gs }
{}

/// No grapheme of a text without control characters has one.
pub fn no_grapheme_has_a_control_character_of_its_own()
    ensures { (text : List ℕ) → has_control text ≡ false
        → EachGrapheme (λ g. has_control g ≡ false) text }
{}
