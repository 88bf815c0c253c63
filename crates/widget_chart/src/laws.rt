//! Laws of charts that are no single call's clause.

ghost use Rattle.std.specs.Prelude.{IfSome};
ghost use Rattle.ratatui_core.specs.Layout.{Rect};
ghost use Rattle.ratatui_core.specs.Buffer.{BufferData, IsPlainFrom};
ghost use Rattle.widget_boxes.specs.Boxes.{IsNarrowBox};
ghost use Rattle.widget_chart.specs.declared.chart.Chart.{Chart};
ghost use Rattle.widget_chart.specs.NarrowCharts.{IsNarrowChart};
ghost use Rattle.widget_chart.specs.Plots.{RendersChart, StopsPlot};
ghost use Rattle.widget_chart.specs.ShortCharts.{HasShortWords, StopsAtGrid};

/// A chart whose texts and marks take one column for each grapheme keeps cells plain, if it has no
/// box or a narrow one; so a screen can show it.
pub fn charts_keep_cells_plain()
    ensures { (c : Chart) (area : Rect) (old new : BufferData) → IfSome c.block IsNarrowBox
        → IsNarrowChart c → IsPlainFrom 0 old → RendersChart c area old new → IsPlainFrom 0 new }
{}

/// A chart of short texts takes memory for the grids of its data sets alone: if memory was refused
/// inside its box, then for one of them, and the labels, the axes and all data sets before it stand.
pub fn charts_take_memory_for_grids()
    ensures { (c : Chart) (area : Rect) (old new : BufferData) → HasShortWords c
        → StopsPlot c area old new → StopsAtGrid c area old new }
{}
