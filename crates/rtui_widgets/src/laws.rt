//! Laws of rendering that are no single call's clause, stated over the definitions of `specs/`
//! alone. Calling one of these functions costs nothing and tells the caller's proof its law.

ghost use Rattle.std.specs.Prelude.{ℕ, ◌+◌, ◌<◌, ◌≤◌, List, Option, length, All};
ghost use Rattle.std.specs.Str.{IsAscii, IsUtf8};
ghost use Rattle.rtui_geometry.specs.declared.rect.Rect.{Rect};
ghost use Rattle.rtui_layout.specs.declared.alignment.HorizontalAlignment.{HorizontalAlignment};
ghost use Rattle.rtui_text.specs.Text.{LineData, TextData};
ghost use Rattle.rtui_buffer.specs.BufferData.{BufferData, IsEmptied};
ghost use Rattle.rtui_buffer.specs.Shown.{IsSettledBuffer};
ghost use Rattle.rtui_widgets.specs.Span.{IsShortSpan};
ghost use Rattle.rtui_widgets.specs.Line.{IsShortLine, part_of};
ghost use Rattle.rtui_widgets.specs.Rendering.{AreAscii, HasFirstRow, RendersStr, RendersShortText};
ghost use Rattle.rtui_widgets.specs.Rendering.{RendersShortStr};
ghost use Rattle.std.specs.Prelude.{◌≡◌, ℕ, List, All, drop, true};
ghost use Rattle.unicode_segmentation.specs.Grapheme.{graphemes};
ghost use Rattle.rtui_geometry.specs.Rect.{EdgesFit};
ghost use Rattle.rtui_text.specs.Text.{SpanData, LineData, TextData};
ghost use Rattle.rtui_text.specs.Printable.{ArePrintable};
ghost use Rattle.rtui_widgets.specs.Rendering.{RendersSpan, RendersLine, RendersText};
ghost use Rattle.rtui_widgets.specs.Plain.{IsPlainFrom};
ghost use Rattle.rtui_text.specs.Graphemes.{EachGrapheme, TakesOneColumn};
ghost use Rattle.rtui_widgets.specs.Graphemes.{EachLineGrapheme, EachTextGrapheme};

/// A text of at most 22 bytes takes no memory, in however many columns it is rendered.
pub fn short_texts_take_no_memory()
    ensures { (columns : ℕ) (text : List ℕ) → IsUtf8 text → length text ≤ 22
        → IsShortSpan columns text }
{}

/// What is of ASCII takes no memory, in however many columns it is rendered.
pub fn ascii_texts_take_no_memory()
    ensures span { (columns : ℕ) (text : List ℕ) → IsAscii text → IsShortSpan columns text }
    ensures line { (alignment : Option HorizontalAlignment) (line : LineData) (columns : ℕ)
        → AreAscii line.spans → IsShortLine alignment line columns }
    ensures text { (text : TextData) (area : Rect) (s : BufferData)
        → All (λ line. AreAscii line.spans) text.lines → RendersShortText text area s }
    ensures painted { (text : List ℕ) (area : Rect) (s : BufferData) → IsAscii text
        → RendersShortStr text area s }
{}

/// An empty buffer with rows has a first row to render in, and a screen can show what a text leaves
/// that is rendered on an empty buffer, from one of its columns on.
pub fn texts_on_empty_buffers_are_settled()
    ensures first { (r : Rect) (s : BufferData) → 0 < r.height → IsEmptied r s → HasFirstRow r s }
    ensures settled { (r area : Rect) (text : List ℕ) (old new : BufferData) → IsEmptied r old
        → old.area.x ≤ area.x → area.x ≤ old.area.x + old.area.width
        → RendersStr text area old new → IsSettledBuffer new }
{}

/// A screen can show a buffer of plain cells.
#[tactic(auto, using(crate::proofs::PlainLemmas::plain_steps))]
pub fn plain_buffers_are_settled()
    ensures { (s : BufferData) → EdgesFit s.area → IsPlainFrom 0 s → IsSettledBuffer s }
{}

/// The cells of an empty buffer are plain.
pub fn empty_buffers_are_plain()
    ensures { (r : Rect) (s : BufferData) → IsEmptied r s → IsPlainFrom 0 s }
{}

/// What shows of a span that is cut at the left has the last of the span's graphemes and no others.
pub fn a_cut_span_keeps_its_last_graphemes()
    ensures { (skip : ℕ) (span : SpanData) → let gs = graphemes true span.content in
        (n : ℕ) × (graphemes true (part_of skip span).content ≡ drop n gs) }
{}

/// Texts of printable characters of ASCII take one column for each grapheme.
pub fn printable_graphemes_take_one_column()
    ensures text { (text : List ℕ) → ArePrintable text → EachGrapheme TakesOneColumn text }
    ensures line { (line : LineData) → All (λ span. ArePrintable span.content) line.spans
        → EachLineGrapheme TakesOneColumn line }
{}

/// A span, a line and a text whose graphemes take one column each leave a buffer of plain cells one
/// of plain cells, wherever they are rendered; so a screen can show it. A grapheme of no columns
/// after a wide one stands in a column of that one, which a screen can't show.
pub fn texts_keep_cells_plain()
    ensures span { (span : SpanData) (area : Rect) (old new : BufferData)
        → EachGrapheme TakesOneColumn span.content → IsPlainFrom 0 old
        → RendersSpan span area old new → IsPlainFrom 0 new }
    ensures line { (line : LineData) (area : Rect) (old new : BufferData)
        → EachLineGrapheme TakesOneColumn line → IsPlainFrom 0 old → RendersLine line area old new
        → IsPlainFrom 0 new }
    ensures text { (text : TextData) (area : Rect) (old new : BufferData)
        → EachTextGrapheme TakesOneColumn text → IsPlainFrom 0 old → RendersText text area old new
        → IsPlainFrom 0 new }
{}
