//! Laws of canvases that are no single call's clause.

ghost use Rattle.std.specs.Prelude.{◌≡◌, All, IfSome, map, slice_index};
ghost use Rattle.ratatui_core.specs.Layout.{Rect};
ghost use Rattle.ratatui_core.specs.Buffer.{BufferData, IsPlainFrom};
ghost use Rattle.ratatui_core.specs.declared.symbols.Marker.TheVariants.{Dot, Block, Bar, Braille};
ghost use Rattle.ratatui_core.specs.declared.symbols.Marker.TheVariants.{HalfBlock, Quadrant, Sextant};
ghost use Rattle.ratatui_core.specs.declared.symbols.Marker.TheVariants.{Octant};
ghost use Rattle.ratatui_core.specs.Symbols.{filled, older_octants, older_sextants};
ghost use Rattle.widget_canvas.specs.declared.shown.TheConstants.{QUADRANTS, SEXTANTS, OCTANTS};
ghost use Rattle.std.specs.List.{range_with_len};
ghost use Rattle.widget_canvas.specs.declared.canvas.Canvas.{Canvas};
ghost use Rattle.widget_canvas.specs.declared.state.CanvasState.{CanvasState};
ghost use Rattle.widget_canvas.specs.Kept.{RendersKept, IsShortCanvas, HasShortLabels, inside_of};
ghost use Rattle.widget_canvas.specs.Canvases.{HasNarrowDots, RendersCanvas, rows_doubled};
ghost use Rattle.ratatui_core.specs.Text.{TakesOneColumn, EachLineGrapheme};
ghost use Rattle.widget_boxes.specs.Boxes.{IsNarrowBox};
ghost use Rattle.widget_boxes.specs.Framed.{IsShortFrame};

/// A canvas whose marks and labels take one column for each grapheme keeps cells plain, if it has
/// no box or a narrow one; so a screen can show it.
pub fn canvases_keep_cells_plain()
    ensures { (c : Canvas) (area : Rect) (old new : BufferData) → IfSome c.block IsNarrowBox
        → HasNarrowDots c.marker
        → All (λ label. EachLineGrapheme TakesOneColumn label.line) c.labels.now
        → IsPlainFrom 0 old → RendersCanvas c area old new → IsPlainFrom 0 new }
{}

/// The marks of each of these markers take one column.
pub fn marks_are_narrow()
    ensures braille { HasNarrowDots Braille }
    ensures half_blocks { HasNarrowDots HalfBlock }
    ensures dots { HasNarrowDots Dot }
    ensures blocks { HasNarrowDots Block }
    ensures bars { HasNarrowDots Bar }
    ensures quadrants { HasNarrowDots Quadrant }
    ensures sextants { HasNarrowDots Sextant }
    ensures octants { HasNarrowDots Octant }
{}

/// Sextants and octants stand in the order of their characters, but for the older ones, and each
/// quadrant is the octant that has each of its rows twice.
pub fn marks_have_their_dots()
    ensures sextants { SEXTANTS ≡ filled older_sextants 64 0 0x1fb00 }
    ensures octants { OCTANTS ≡ filled older_octants 256 0 0x1cd00 }
    ensures quadrants { QUADRANTS
        ≡ map (λ n. slice_index OCTANTS (rows_doubled n)) (range_with_len 0 16) }
{}

/// A rendering with a state leaves what one without a state leaves.
pub fn kept_grids_show_the_same()
    ensures { (c : Canvas) (s t : CanvasState) (area : Rect) (old new : BufferData)
        → RendersKept c s t area old new → RendersCanvas c area old new }
{}

/// After a rendering with a state the next one takes no memory, if the size inside its box is the
/// same, and neither its box nor its labels take any: its bounds, its marker and its shapes may be
/// others.
pub fn kept_grids_take_no_memory()
    ensures { (c d : Canvas) (s t : CanvasState) (area next : Rect) (old new b : BufferData)
        → RendersKept c s t area old new → (inside_of d next b).width ≡ (inside_of c area old).width
        → (inside_of d next b).height ≡ (inside_of c area old).height
        → IsShortFrame d.block b → HasShortLabels d → IsShortCanvas d t next b }
{}
