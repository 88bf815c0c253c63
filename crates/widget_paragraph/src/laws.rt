//! Laws of paragraphs that are no single call's clause.

ghost use Rattle.std.specs.Prelude.{◌≡◌, ℕ, ◌+◌, ◌<◌, ◌≤◌, Bool, false, List, [], take, slice_index_or, All};
ghost use Rattle.std.specs.List.{flat_map};
ghost use Rattle.ratatui_core.specs.Buffer.{BufferData, PaintsPieces, position_of};
ghost use Rattle.ratatui_core.specs.Text.{GraphemeData};
ghost use Rattle.widget_paragraph.specs.Paragraphs.{IsSingleGrapheme, row_pieces, PaintsGraphemes};
ghost use Rattle.widget_paragraph.specs.Reflow.{is_break, columns_taken, words_of, AllFit, word_around};
ghost use Rattle.widget_paragraph.specs.Reflow.{word_start, IsWithinWord, row_break, broken_rows};

/// Of a line that is broken into rows nothing is lost but blanks: no row is wider than the width,
/// and the rows have the graphemes of all words, in order.
pub fn wrapping_loses_nothing()
    ensures fits { (width : ℕ) (trim : Bool) (gs : List GraphemeData) → AllFit width gs
        → All (λ row. columns_taken row ≤ width) (broken_rows width trim gs) }
    ensures words { (width : ℕ) (trim : Bool) (gs : List GraphemeData) → AllFit width gs
        → flat_map words_of (broken_rows width trim gs) ≡ words_of gs }
{}

/// A word is broken only if it is wider than a row, or than what blanks before it leave: if no blank
/// stands before the place at which a line is broken, and none after it, then the word there has no
/// other one before it in its row, and doesn't fit the row with the blanks before it. A row that is
/// trimmed begins with no blank.
pub fn words_are_broken_only_if_wide()
    ensures alone { (width : ℕ) (gs : List GraphemeData) (d : GraphemeData)
        → let k = (row_break width gs).1 in IsWithinWord gs k d
        → words_of (take (word_start gs k) gs) ≡ [] }
    ensures wide { (width : ℕ) (gs : List GraphemeData) (d : GraphemeData)
        → let k = (row_break width gs).1 in IsWithinWord gs k d
        → width < columns_taken (take (word_start gs k) gs) + columns_taken (word_around gs k) }
    ensures trimmed { (width : ℕ) (gs : List GraphemeData) (d : GraphemeData)
        → let k = (row_break width gs).1 in IsWithinWord gs k d
        → is_break (slice_index_or gs 0 d) ≡ false → width < columns_taken (word_around gs k) }
{}

/// Whole graphemes that are painted in a row one after the other are painted together.
pub fn whole_graphemes_are_painted_together()
    ensures { (x y : ℕ) (gs : List GraphemeData) (old new : BufferData)
        → old.area.x ≤ x → All IsSingleGrapheme gs → PaintsGraphemes x y gs old new
        → PaintsPieces (position_of (x, y)) (row_pieces gs) old new }
{}
