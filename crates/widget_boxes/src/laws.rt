//! Laws of widgets that are no single call's clause.

ghost use Rattle.std.specs.Prelude.{◌≡◌, [], ◌∷◌, Some, None};
ghost use Rattle.ratatui_core.specs.Layout.{EdgesFit, IsInside, intersected};
ghost use Rattle.ratatui_core.specs.Buffer.{BufferData, IsPlainFrom, IsSettledBuffer};
ghost use Rattle.ratatui_core.specs.Layout.{Rect};
ghost use Rattle.ratatui_core.specs.Style.{Style};
ghost use Rattle.ratatui_core.specs.Text.{LineData, SpanData, TextData, EachGrapheme};
ghost use Rattle.ratatui_core.specs.declared.layout.HorizontalAlignment.TheVariants.{Left};
ghost use Rattle.ratatui_core.specs.Widgets.{ChangesWithin, RendersLine, RendersText};
ghost use Rattle.widget_boxes.specs.declared.block.Block.{Block};
ghost use Rattle.widget_boxes.specs.Boxes.{RendersBlock, IsNarrowBox, inner_of, HasShortSymbols, AreShortCells};
ghost use Rattle.widget_boxes.specs.Boxes.{IsShortBlock, AreShortAnywhere};
ghost use Rattle.widget_boxes.specs.Apart.{StandsApart, IsReadyIn, IsShowable, IsShowableText, IsShowableBox};
ghost use Rattle.widget_boxes.specs.Apart.{IsShowableAs, TakesColumns, HasTitleRows};
ghost use Rattle.widget_boxes.specs.Clears.{RendersClear};
ghost use Rattle.widget_boxes.specs.Highlights.{IsHighlighted};
ghost use Rattle.widget_boxes.specs.declared.border_type.BorderType.{BorderType};
ghost use Rattle.widget_boxes.specs.declared.border_type.BorderType.TheVariants.{Plain};
ghost use Rattle.widget_boxes.specs.declared.title.TitlePosition.{TitlePosition};
ghost use Rattle.widget_boxes.specs.declared.title.TitlePosition.TheVariants.{Top};

use crate::border_type::BorderType;
use crate::title::TitlePosition;

/// A box of symbols of one column, with titles of such symbols or without, leaves a buffer of plain
/// cells one of plain cells, however its borders are joined with what stands there.
#[tactic(auto, using(crate::proofs::PlainBoxLemmas::box_steps))]
pub fn narrow_boxes_keep_cells_plain()
    ensures { (b : Block) (area : Rect) (old new : BufferData) → IsNarrowBox b → IsPlainFrom 0 old
        → RendersBlock b area old new → IsPlainFrom 0 new }
{}

/// A box takes no memory if its symbols, its titles and those of the cells take none, and no title
/// of any columns stands in the centre.
pub fn boxes_of_short_symbols_take_no_memory()
    ensures short { (b : Block) (area : Rect) (s : BufferData) → AreShortAnywhere b → HasShortSymbols b
        → AreShortCells s → IsShortBlock b area s }
    ensures untitled { (b : Block) → b.titles.items ≡ [] → AreShortAnywhere b }
{}

/// A cleared buffer is settled if it was settled before.
pub fn clearing_keeps_settled()
    ensures { (area : Rect) (old new : BufferData) → EdgesFit old.area → RendersClear area old new
        → IsSettledBuffer old → IsSettledBuffer new }
{}

/// A line or a text over an area that is ready leaves the area apart, with wide graphemes, too, if
/// a screen can show it; so the buffer is settled. What is at the area's right side is cut there.
pub fn texts_leave_areas_apart()
    ensures line { (line : LineData) (area : Rect) (old new : BufferData) → IsShowable line
        → IsReadyIn area old → RendersLine line area old new → StandsApart area new }
    ensures text { (text : TextData) (area : Rect) (old new : BufferData) → IsShowableText text
        → IsReadyIn area old → RendersText text area old new → StandsApart area new }
{}

/// A line of one span is such a line if it stands at the left and each of its graphemes takes a
/// column, or more.
pub fn lines_of_one_span_can_be_shown()
    ensures left { (line : LineData) (span : SpanData) → line.spans ≡ span ∷ []
        → EachGrapheme TakesColumns span.content → IsShowableAs (Some Left) line }
    ensures unaligned { (line : LineData) (span : SpanData) → line.spans ≡ span ∷ []
        → EachGrapheme TakesColumns span.content → IsShowableAs None line }
{}

/// An area that stands apart does so under a highlight.
pub fn highlights_leave_areas_apart()
    ensures { (style : Style) (area : Rect) (old new : BufferData) → StandsApart area old
        → IsHighlighted area style old new → StandsApart area new }
{}

/// A narrow box over an area that is ready leaves it ready, and so what is inside it. What leaves
/// that apart leaves the area apart.
pub fn insides_of_ready_areas_are_ready()
    ensures boxed { (b : Block) (area : Rect) (old new : BufferData) → IsNarrowBox b
        → IsReadyIn area old → RendersBlock b area old new → IsReadyIn area new }
    ensures inside { (area part : Rect) (s : BufferData) → IsInside part area → IsReadyIn area s
        → IsReadyIn part s }
    ensures around { (area part : Rect) (old new : BufferData) → IsInside part area
        → StandsApart area old → ChangesWithin part old new → StandsApart part new
        → StandsApart area new }
{}

/// A box of narrow symbols over an area that is ready leaves the area apart, if a screen can show
/// its titles, wide graphemes among them, and none lies over another one.
pub fn titles_leave_areas_apart()
    ensures { (b : Block) (area : Rect) (old new : BufferData) → IsShowableBox b
        → HasTitleRows b (intersected area old.area) → IsReadyIn area old
        → RendersBlock b area old new → StandsApart area new }
{}

/// Each area of a buffer of plain cells is ready, and an area that is ready stands apart.
pub fn plain_areas_are_ready()
    ensures plain { (area : Rect) (s : BufferData) → EdgesFit s.area → IsPlainFrom 0 s
        → IsReadyIn area s }
    ensures ready { (area : Rect) (s : BufferData) → IsReadyIn area s → StandsApart area s }
{}

/// What is inside a box lies in its area.
pub fn insides_lie_in_their_areas()
    ensures { (b : Block) (area : Rect) → IsInside (inner_of b area) area }
{}

/// A box has plain lines, and its titles stand in its first row, unless it is told otherwise.
pub fn boxes_have_these_defaults()
    ensures border_type { (t : BorderType) → ⟦<BorderType as Default>⟧.is_default t → t ≡ Plain }
    ensures position { (p : TitlePosition) → ⟦<TitlePosition as Default>⟧.is_default p
        → p ≡ Top }
{}
