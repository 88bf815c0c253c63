//! The cells of a content that a view shows.

ghost use Rattle.std.specs.Prelude.{◌≡◌, ◌+◌, nat_lt};
ghost use Rattle.ratatui_core.specs.Buffer.{width_of};
ghost use Rattle.widget_scroll_view.specs.ScrollViews.{styled_blank};
ghost use Rattle.widget_scroll_view.specs.Inner.{IsSource};

use ratatui_core::buffer::{Buffer, Cell, CellChange, CellWidth};
use ratatui_core::layout::{Position, Rect};
use std::alloc::{AllocError, Global};

// The cells of a content from an offset on, over an area.
#[derive(Drop)]
pub(crate) struct Window<'b> {
    pub(crate) content: &'b Buffer,
    pub(crate) offset: Position,
    pub(crate) area: Rect,
}

impl Window<'_> {
    // Which of the content's positions is shown at one of the area, as far as the grid goes.
    fn source(&self, position: Position) -> Position
        ensures { let w = self.now in
            IsSource w.content.now w.offset w.area position result }
    {
        let from = self.content.area();
        let column = position.x.saturating_sub(self.area.x);
        let row = position.y.saturating_sub(self.area.y);
        Position {
            x: from.x.saturating_add(self.offset.x).saturating_add(column),
            y: from.y.saturating_add(self.offset.y).saturating_add(row),
        }
    }
}

// Whether a cell that stands in a column doesn't end within an area.
fn is_cut(cell: &Cell, x: u16, area: Rect) -> bool
    ensures { result ≡ nat_lt (area.x + area.width) (x + width_of cell.now) }
{
    let end = usize::from(x) + usize::from(cell.cell_width());
    end > usize::from(area.x) + usize::from(area.width)
}

// Makes a cell a blank in the style of another one.
fn make_blank(cell: &mut Cell, other: &Cell)
    ensures { cell.new ≡ styled_blank other.now }
{
    cell.reset();
    cell.set_style(other.style());
}

impl CellChange for Window<'_> {
    ghost use Rattle.widget_scroll_view.specs.Inner.{window_cell, IsLightWindow};

    ghost made = { window_cell };

    ghost is_light = { IsLightWindow };

    fn change(&self, alloc: Global, position: Position, cell: &mut Cell) -> Result<(), AllocError> {
        let Some(source) = self.content.cell(self.source(position)) else {
            return Ok(());
        };
        if is_cut(source, position.x, self.area) {
            make_blank(cell, source);
            return Ok(());
        }
        cell.clone_from(alloc, source)
    }
}
