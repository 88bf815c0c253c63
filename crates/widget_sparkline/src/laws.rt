//! Laws of sparklines that are no single call's clause.

ghost use Rattle.std.specs.Prelude.{◌≡◌, IfSome};
ghost use Rattle.ratatui_core.specs.Layout.{Rect};
ghost use Rattle.ratatui_core.specs.Buffer.{BufferData, IsPlainFrom};
ghost use Rattle.widget_boxes.specs.Boxes.{IsNarrowBox};
ghost use Rattle.widget_sparkline.specs.declared.sparkline.Sparkline.{Sparkline};
ghost use Rattle.widget_sparkline.specs.declared.sparkline.RenderDirection.{RenderDirection};
ghost use Rattle.widget_sparkline.specs.declared.sparkline.RenderDirection.TheVariants.{LeftToRight};
ghost use Rattle.widget_sparkline.specs.Sparklines.{HasNarrowBars, RendersSparkline};

use crate::sparkline::RenderDirection;

/// A sparkline of symbols of one column keeps cells plain, if it has no box or a narrow one; so a
/// screen can show it.
pub fn sparklines_keep_cells_plain()
    ensures { (s : Sparkline) (area : Rect) (old new : BufferData) → IfSome s.block IsNarrowBox
        → HasNarrowBars s → IsPlainFrom 0 old → RendersSparkline s area old new
        → IsPlainFrom 0 new }
{}

/// A sparkline stands from the left, unless it is told otherwise.
pub fn sparklines_have_this_default()
    ensures { (d : RenderDirection) → ⟦<RenderDirection as Default>⟧.is_default d
        → d ≡ LeftToRight }
{}
