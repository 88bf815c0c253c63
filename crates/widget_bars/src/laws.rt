//! Laws of bar charts that are no single call's clause.

ghost use Rattle.std.specs.Prelude.{ℕ, ◌<◌, ◌^◌, decimal, IfSome};
ghost use Rattle.ratatui_core.specs.Layout.{Rect};
ghost use Rattle.ratatui_core.specs.Buffer.{BufferData, IsPlainFrom};
ghost use Rattle.widget_bars.specs.declared.chart.BarChart.{BarChart};
ghost use Rattle.widget_bars.specs.BarCharts.{HasNarrowGroups, RendersBarChart};
ghost use Rattle.ratatui_core.specs.Text.{EachGrapheme, TakesOneColumn};
ghost use Rattle.widget_boxes.specs.Boxes.{IsNarrowBox};

use ratatui_core::buffer::laws::printable_graphemes_take_one_column;

/// A bar chart whose texts and symbols take one column for each grapheme keeps cells plain, in both
/// directions, if it has no box or a narrow one; so a screen can show it.
pub fn bar_charts_keep_cells_plain()
    ensures { (c : BarChart) (area : Rect) (old new : BufferData) → IfSome c.block IsNarrowBox
        → HasNarrowGroups c → IsPlainFrom 0 old → RendersBarChart c area old new
        → IsPlainFrom 0 new }
{}

/// The digits of a value take one column each.
pub fn digits_take_one_column()
    ensures { (n : ℕ) → n < 2 ^ 64 → EachGrapheme TakesOneColumn (decimal n) }
{
    printable_graphemes_take_one_column();
}
