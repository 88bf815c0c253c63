//! Laws of buffers and of painting that are no single call's clause, stated over the definitions of
//! `specs/` alone. Calling one of these functions costs nothing and tells the caller's proof its
//! law.

ghost use Rattle.std.specs.Prelude.{ℕ, true, false, ◌≡◌, ◌+◌, ◌-◌, ◌<◌, ◌≤◌, ◌++◌, ◌↔◌, IsTrue, List, []};
ghost use Rattle.std.specs.Prelude.{◌∷◌, filter, sum_by, All};
ghost use Rattle.std.specs.Hash as fed;
ghost use Rattle.std.specs.Str.{IsAscii};
ghost use Rattle.unicode_segmentation.specs.Grapheme.{graphemes};
ghost use Rattle.rtui_geometry.specs.declared.position.Position.{Position};
ghost use Rattle.rtui_style.specs.declared.Style.{Style};
ghost use Rattle.rtui_text.specs.Text.{SpanData, LineData};
ghost use Rattle.rtui_cell.specs.Width.{text_width};
ghost use Rattle.rtui_cell.specs.Look.{look_of};
ghost use Rattle.rtui_cell.specs.Cell.{is_skipped};
ghost use Rattle.rtui_cell.specs.Grid.{Grid};
ghost use Rattle.rtui_geometry.specs.declared.rect.Rect.{Rect};
ghost use Rattle.rtui_geometry.specs.Rect.{HasPosition, EdgesFit};
ghost use Rattle.rtui_buffer.specs.BufferData.{HasRow, BufferData, IsEmptied, IsEqualBuffer, cell_in};
ghost use Rattle.rtui_buffer.specs.Shown.{IsSettledBuffer, ShowsBuffer, IsAligned, HaveSettledRows};
ghost use Rattle.rtui_buffer.specs.Painting.{Piece, piece_of, painted_width, has_painted_width, kept};
ghost use Rattle.rtui_buffer.specs.Painting.{text_pieces, columns, AreWide, IsLongestFront, KeepsUnmarked};
ghost use Rattle.rtui_buffer.specs.PaintedText.{pieces_at, room_at, right_by, AreShort, IsOneGrapheme};
ghost use Rattle.rtui_buffer.specs.PaintedText.{IsBeside, IsPaintable};
ghost use Rattle.rtui_buffer.specs.PaintedText.{IsSameBeside, IsStyled, PaintsPieces, PaintsFront};
ghost use Rattle.rtui_buffer.specs.PaintedText.{PaintsByColumns};
ghost use Rattle.rtui_buffer.specs.Line.{line_pieces, line_pieces_at};
ghost use Rattle.rtui_text.specs.Graphemes.{EachGrapheme, EachSpanGrapheme};
ghost use Rattle.rtui_cell.specs.Symbol.{IsShort};

use crate::buffer::Buffer;
use rtui_cell::Cell;
use rtui_cell::laws::equality_is_by_looks;
use rtui_geometry::Rect;
use std::hash::Hash;

/// Two buffers are equal if their areas and their cells are, and only then.
pub fn equality_is_by_cells()
    ensures { (s t : BufferData) → IsTrue (⟦<Buffer as PartialEq>⟧.eq s t) ↔ IsEqualBuffer s t }
{
    equality_is_by_looks();
}

/// A buffer feeds a hasher its area and its cells, and equal buffers feed it equally.
pub fn hashing_names_area_and_cells()
    ensures alike { (s t : BufferData) → IsTrue (⟦<Buffer as PartialEq>⟧.eq s t)
        → ⟦<Buffer as Hash>⟧.hash_input s ≡ ⟦<Buffer as Hash>⟧.hash_input t }
    ensures fields { (s : BufferData) → ⟦<Buffer as Hash>⟧.hash_input s
        ≡ ⟦<Rect as Hash>⟧.hash_input s.area ++ fed.slice ⟦<Cell as Hash>⟧.hash_input s.cells }
{}

/// A screen can show an empty buffer, and each of its columns may be painted.
pub fn empty_buffers_are_settled()
    ensures settled { (r : Rect) (s : BufferData) → IsEmptied r s → IsSettledBuffer s }
    ensures paintable { (r : Rect) (s : BufferData) (p : Position) (n : ℕ) → IsEmptied r s
        → IsPaintable p n s }
{}

/// A screen can show an empty buffer with a style laid over an area of it, and each of its columns
/// may be painted.
pub fn styled_empty_buffers_are_settled()
    ensures settled { (r area : Rect) (style : Style) (old new : BufferData)
        → EdgesFit r → IsEmptied r old → IsStyled area style old new → IsSettledBuffer new }
    ensures paintable { (r area : Rect) (style : Style) (old new : BufferData) (p : Position)
        (n : ℕ)
        → EdgesFit r → IsEmptied r old → IsStyled area style old new
        → HasRow old.area p.y → old.area.x ≤ p.x → p.x + n ≤ old.area.x + old.area.width
        → IsPaintable p n new }
{}

/// If a screen shows a buffer, the column of each unskipped cell has the cell's look.
pub fn shown_cells_have_their_looks()
    ensures { (s : BufferData) (g : Grid) (p : Position) → ShowsBuffer s g → HasPosition s.area p
        → is_skipped (cell_in s p) ≡ false → g p.x p.y ≡ look_of (cell_in s p) }
{}

/// The common rows of two settled buffers are settled in both.
pub fn common_rows_are_settled()
    ensures { (prev next : BufferData) → IsAligned prev next → IsSettledBuffer prev
        → IsSettledBuffer next
        → HaveSettledRows prev next }
{}

/// A kept grapheme takes at least one column.
pub fn kept_graphemes_take_columns()
    ensures { (room : ℕ) (gs : List (List ℕ)) → All (λ g. 0 < text_width g) (kept room gs) }
{}

/// Of the graphemes without control characters that have a column, the longest front that fits the
/// room is painted.
pub fn longest_front_is_kept()
    ensures { (room : ℕ) (gs : List (List ℕ))
        → IsLongestFront room (filter has_painted_width gs) (kept room gs) }
{}

/// A text and a line are painted up to the right edge of the area and no further.
pub fn painting_ends_in_its_row()
    ensures text { (r : Rect) (x max : ℕ) (s : Style) (text : List ℕ)
        → columns (pieces_at r x max s text) ≤ r.x + r.width - x }
    ensures line { (r : Rect) (x max : ℕ) (l : LineData)
        → columns (line_pieces_at r x max l) ≤ r.x + r.width - x }
{}

/// A text and a line are painted in at most as many columns as they are given.
pub fn painting_keeps_to_its_columns()
    ensures text { (r : Rect) (x max : ℕ) (s : Style) (text : List ℕ)
        → columns (pieces_at r x max s text) ≤ max }
    ensures line { (r : Rect) (x max : ℕ) (l : LineData)
        → columns (line_pieces_at r x max l) ≤ max }
{}

/// Each piece of a text or of a line takes a column.
pub fn pieces_take_columns()
    ensures text { (room : ℕ) (style : Style) (text : List ℕ)
        → AreWide (text_pieces room style text) }
    ensures line { (room : ℕ) (base : Style) (spans : List SpanData)
        → AreWide (line_pieces room base spans) }
{}

/// Pieces that are painted in a row one after the other are painted together.
pub fn pieces_are_painted_in_parts()
    ensures { (p : Position) (ps qs : List Piece) (old mid new : BufferData)
        → old.area.x ≤ p.x → AreWide ps
        → PaintsPieces p ps old mid → PaintsPieces (right_by (columns ps) p) qs mid new
        → PaintsPieces p (ps ++ qs) old new }
{}

/// The pieces of a text are those of its front, if that fits, and then those of the rest in the
/// columns that are left, if no grapheme goes over the seam. The pieces of a line are those of its
/// first spans and then those of the others. A grapheme that fits is one piece.
pub fn texts_are_painted_in_parts()
    ensures text { (r : Rect) (x max : ℕ) (style : Style) (s t : List ℕ) → EdgesFit r
        → graphemes true (s ++ t) ≡ graphemes true s ++ graphemes true t
        → sum_by painted_width (graphemes true s) ≤ room_at r x max
        → let ps = pieces_at r x max style s in let n = columns ps in
        pieces_at r x max style (s ++ t) ≡ ps ++ pieces_at r (x + n) (max - n) style t }
    ensures line { (r : Rect) (x max : ℕ) (l : LineData) (ts : List SpanData) → EdgesFit r
        → let ps = line_pieces_at r x max l in let n = columns ps in
        line_pieces_at r x max (record l { spans = l.spans ++ ts })
        ≡ ps ++ line_pieces_at r (x + n) (max - n) (record l { spans = ts }) }
    ensures grapheme { (room : ℕ) (style : Style) (g : List ℕ) → IsOneGrapheme g
        → 0 < painted_width g → painted_width g ≤ room
        → text_pieces room style g ≡ piece_of style g ∷ [] }
{}

/// A text whose graphemes are short is painted without taking memory, and so is a line of such
/// texts.
pub fn short_graphemes_are_painted_short()
    ensures text { (room : ℕ) (style : Style) (text : List ℕ) → EachGrapheme IsShort text
        → AreShort (text_pieces room style text) }
    ensures line { (room : ℕ) (base : Style) (spans : List SpanData)
        → EachSpanGrapheme IsShort spans → AreShort (line_pieces room base spans) }
{}

/// The graphemes of a text of ASCII are short.
pub fn ascii_graphemes_are_short()
    ensures { (text : List ℕ) → IsAscii text → EachGrapheme IsShort text }
{}

/// Says what is painted within a row of the area, seen by columns; and what isn't painted if memory
/// is refused.
pub fn painting_goes_by_columns()
    ensures painted { (p : Position) (ps : List Piece) (old new : BufferData)
        → HasRow old.area p.y → old.area.x ≤ p.x → columns ps ≤ old.area.x + old.area.width - p.x
        → PaintsPieces p ps old new → PaintsByColumns p ps old new }
    ensures refused { (p q : Position) (ps : List Piece) (old new : BufferData)
        → HasRow old.area p.y → old.area.x ≤ p.x → columns ps ≤ old.area.x + old.area.width - p.x
        → IsSameBeside p ps old new → HasPosition old.area q → IsBeside p (columns ps) q
        → cell_in new q ≡ cell_in old q }
{}

/// What is painted of pieces, all of them or a front: at most their columns differ, no cell gets an
/// option or the flag, and a settled buffer stays settled if the columns may be painted.
pub fn painted_fronts_keep_the_rest()
    ensures beside { (p : Position) (ps : List Piece) (old new : BufferData)
        → PaintsFront p ps old new → IsSameBeside p ps old new }
    ensures marks { (p : Position) (ps : List Piece) (old new : BufferData)
        → PaintsFront p ps old new → KeepsUnmarked old.cells new.cells }
    ensures settled { (p : Position) (ps : List Piece) (old new : BufferData)
        → PaintsFront p ps old new → old.area.x ≤ p.x
        → columns ps ≤ old.area.x + old.area.width - p.x → IsSettledBuffer old
        → IsPaintable p (columns ps) old → IsSettledBuffer new }
{}
