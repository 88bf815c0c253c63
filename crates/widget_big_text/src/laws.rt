//! Laws of big texts that are no single call's clause.

ghost use Rattle.std.specs.Prelude.{◌≡◌, ◌+◌, ◌*◌, ℕ, List, IfSome};
ghost use Rattle.ratatui_core.specs.Layout.{Rect};
ghost use Rattle.ratatui_core.specs.Buffer.{BufferData, IsPlainFrom};
ghost use Rattle.widget_boxes.specs.Boxes.{IsNarrowBox};
ghost use Rattle.widget_big_text.specs.declared.big_text.BigText.{BigText};
ghost use Rattle.widget_big_text.specs.declared.pixel_size.PixelSize.{PixelSize};
ghost use Rattle.widget_big_text.specs.declared.pixel_size.PixelSize.TheVariants.{Full, HalfHeight};
ghost use Rattle.widget_big_text.specs.declared.pixel_size.PixelSize.TheVariants.{HalfWidth, Quadrant};
ghost use Rattle.widget_big_text.specs.Glyphs.{has_pixel, letter_mark, two_by_two};
ghost use Rattle.widget_big_text.specs.BigTexts.{RendersBigText};

use crate::pixel_size::PixelSize;

/// A big text leaves a buffer of plain cells one of plain cells, if it has no box or a narrow one;
/// so a screen can show it.
pub fn big_texts_keep_cells_plain()
    ensures { (t : BigText) (area : Rect) (old new : BufferData) → IfSome t.block IsNarrowBox
        → IsPlainFrom 0 old → RendersBigText t area old new → IsPlainFrom 0 new }
{}

/// A pixel is a whole cell, unless it is told otherwise.
pub fn pixel_sizes_have_this_default()
    ensures { (s : PixelSize) → ⟦<PixelSize as Default>⟧.is_default s → s ≡ Full }
{}

/// Each cell of a letter shows the pixels that lie in it: one, two in a column or a row, or four.
pub fn cells_show_their_pixels()
    ensures full { (rows : List ℕ) (x y : ℕ) → let one = has_pixel rows x y in
        letter_mark Full rows x y ≡ two_by_two one one one one }
    ensures half_height { (rows : List ℕ) (x y : ℕ) → let upper = has_pixel rows x (2 * y) in
        let lower = has_pixel rows x (2 * y + 1) in
        letter_mark HalfHeight rows x y ≡ two_by_two upper upper lower lower }
    ensures half_width { (rows : List ℕ) (x y : ℕ) → let left = has_pixel rows (2 * x) y in
        let right = has_pixel rows (2 * x + 1) y in
        letter_mark HalfWidth rows x y ≡ two_by_two left right left right }
    ensures quadrant { (rows : List ℕ) (x y : ℕ) → let has = has_pixel rows in
        letter_mark Quadrant rows x y ≡ two_by_two (has (2 * x) (2 * y)) (has (2 * x + 1) (2 * y))
        (has (2 * x) (2 * y + 1)) (has (2 * x + 1) (2 * y + 1)) }
{}
