//! Highlighting an area.

ghost use Rattle.std.specs.Prelude.{◌≡◌, if◌then◌else◌};
ghost use Rattle.ratatui_core.specs.Layout.{IsInside};
ghost use Rattle.ratatui_core.specs.Buffer.{ChangesEach, styled, width_of};
ghost use Rattle.rtui_widgets.specs.Inner.{row_part, IsRowOfArea};
ghost use Rattle.widget_boxes.specs.Highlights.{IsHighlighted};
ghost use Rattle.widget_boxes.specs.Inner.{highlighted};

use ratatui_core::buffer::{Buffer, Cell, CellWidth};
use ratatui_core::layout::{Position, Rect};
use ratatui_core::style::Style;

// Lays a style over a cell that isn't covered; says how many columns its symbol takes.
fn highlight_cell(style: Style, is_covered: bool, cell: &mut Cell) -> u16
    ensures value { cell.new ≡ (if is_covered then cell.old else styled style cell.old) }
    ensures columns { result ≡ width_of cell.old }
{
    let columns = cell.cell_width();
    if !is_covered {
        cell.set_style(style);
    }
    columns
}

// Highlights a row of a part.
fn highlight_row(style: Style, part: Rect, y: u16, buf: &mut Buffer)
    requires inside { IsInside part buf.old.area }
    requires row { IsRowOfArea part y }
    ensures { let f = highlighted style part buf.old in
        ChangesEach (row_part part y) f buf.old buf.new }
{
    let mut end = 0;
    for x in part.left()..part.right() {
        let column = u32::from(x);
        let columns = highlight_cell(style, column < end, &mut buf[Position { x, y }]);
        end = end.max(column + u32::from(columns));
    }
}

// Highlights each row of a part.
fn highlight_part(style: Style, part: Rect, buf: &mut Buffer)
    requires { IsInside part buf.old.area }
    ensures { let f = highlighted style part buf.old in
        ChangesEach part f buf.old buf.new }
{
    for y in part.top()..part.bottom() {
        highlight_row(style, part, y, buf);
    }
}

/// Lays a style over the cells of an area, as far as the buffer has them, but for the columns that
/// a wide symbol of the area covers: they show that symbol, in its own style. A settled buffer
/// stays settled, if no symbol left of the area reaches into it.
pub fn highlight(style: Style, area: Rect, buf: &mut Buffer)
    ensures { IsHighlighted area style buf.old buf.new }
{
    if let Some(part) = buf.part(area) {
        highlight_part(style, part, buf);
    }
}
