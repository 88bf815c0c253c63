//! The sides and the corners of a box.

ghost use Rattle.std.specs.Prelude.{◌≡◌, ◌≤◌, ◌&&◌, [], ◌∷◌, ◌++◌};
ghost use Rattle.ratatui_core.specs.Layout.{IsInside};
ghost use Rattle.ratatui_core.specs.Buffer.{joined, IsShort, place_at, position_of};
ghost use Rattle.widget_boxes.specs.Boxes.{drawn, joins, has_side, inset, IsBoxArea, left_side, right_side};
ghost use Rattle.widget_boxes.specs.Boxes.{top_side, bottom_side, stroke, side_strokes, corner_strokes};
ghost use Rattle.widget_boxes.specs.Inner.{DrawsStrokes};

use crate::block::Block;
use crate::borders::Borders;
use ratatui_core::buffer::{Buffer, Cell, CellChange, change_area};
use ratatui_core::layout::{Position, Rect};
use ratatui_core::style::Style;
use ratatui_core::symbols::merge::MergeStrategy;
use std::alloc::{AllocError, Global};

// A symbol drawn over a cell by a strategy, in a style.
#[derive(Drop)]
struct Stroke<'a> {
    symbol: &'a str,
    strategy: MergeStrategy,
    style: Style,
}

impl<'a> CellChange for Stroke<'a> {
    ghost made = { λ s _. drawn s.strategy s.style s.symbol.now };

    ghost is_light = { λ s _ cell. IsShort (joined s.strategy cell.symbol s.symbol.now) };

    fn change(&self, alloc: Global, position: Position, cell: &mut Cell) -> Result<(), AllocError> {
        let _ = position;
        cell.merge_symbol(alloc, self.symbol, self.strategy)?;
        cell.set_style(self.style);
        Ok(())
    }
}

impl<'a> Block<'a> {
    // Draws the sides and then the corners.
    pub(crate) fn render_borders(&self, area: Rect, buf: &mut Buffer) -> Result<(), AllocError>
        requires some { IsBoxArea area }
        requires inside { IsInside area buf.old.area }
        ensures { let ss = side_strokes self.now area ++ corner_strokes self.now area in
            DrawsStrokes self.now area ss result buf.old buf.new }
    {
        self.render_sides(area, buf)?;
        self.render_corners(area, buf)
    }

    // Draws the sides.
    fn render_sides(&self, area: Rect, buf: &mut Buffer) -> Result<(), AllocError>
        requires some { IsBoxArea area }
        requires inside { IsInside area buf.old.area }
        ensures { DrawsStrokes self.now area (side_strokes self.now area) result buf.old buf.new }
    {
        let set = self.border_set;
        let left = self.has_side(Borders::LEFT);
        let top = self.has_side(Borders::TOP);
        let right = self.has_side(Borders::RIGHT);
        let bottom = self.has_side(Borders::BOTTOM);
        self.draw(area, left, self.left_side(area), set.vertical_left, buf)?;
        self.draw(area, top, self.top_side(area), set.horizontal_top, buf)?;
        self.draw(area, right, self.right_side(area), set.vertical_right, buf)?;
        self.draw(
            area,
            bottom,
            self.bottom_side(area),
            set.horizontal_bottom,
            buf,
        )
    }

    // Draws the corners, each if both its sides are drawn.
    fn render_corners(&self, area: Rect, buf: &mut Buffer) -> Result<(), AllocError>
        requires some { IsBoxArea area }
        requires inside { IsInside area buf.old.area }
        ensures { DrawsStrokes self.now area (corner_strokes self.now area) result buf.old buf.new }
    {
        let set = self.border_set;
        let bottom_right = self.has_corner(Borders::RIGHT, Borders::BOTTOM);
        let top_right = self.has_corner(Borders::RIGHT, Borders::TOP);
        let bottom_left = self.has_corner(Borders::LEFT, Borders::BOTTOM);
        let top_left = self.has_corner(Borders::LEFT, Borders::TOP);
        let x = area.x + (area.width - 1);
        let y = area.y + (area.height - 1);
        self.draw(area, bottom_right, place(x, y), set.bottom_right, buf)?;
        self.draw(area, top_right, place(x, area.y), set.top_right, buf)?;
        self.draw(area, bottom_left, place(area.x, y), set.bottom_left, buf)?;
        self.draw(area, top_left, place(area.x, area.y), set.top_left, buf)
    }

    // Whether both sides of a corner are drawn.
    fn has_corner(&self, first: Borders, second: Borders) -> bool
        ensures { result ≡ (has_side self.now first && has_side self.now second) }
    {
        self.has_side(first) && self.has_side(second)
    }

    // Draws a symbol over a part of an area, if it is to be drawn.
    fn draw(
        &self,
        area: Rect,
        is_drawn: bool,
        part: Rect,
        symbol: &str,
        buf: &mut Buffer,
    ) -> Result<(), AllocError>
        requires part { IsInside part area }
        requires inside { IsInside area buf.old.area }
        ensures { let ss = stroke is_drawn part symbol.now ∷ [] in
            DrawsStrokes self.now area ss result buf.old buf.new }
    {
        let _ = area;
        if !is_drawn {
            return Ok(());
        }
        let stroke = Stroke {
            symbol,
            strategy: self.merge_borders,
            style: self.border_style,
        };
        change_area(buf, part, &stroke)
    }

    // How far a side begins after this one: if borders are joined a corner belongs to no side.
    fn inset(&self, side: Borders) -> u16
        ensures value { result ≡ inset self.now side }
        ensures bit { result ≤ 1 }
    {
        u16::from(joins(self.merge_borders) && self.has_side(side))
    }

    fn left_side(&self, area: Rect) -> Rect
        requires { IsBoxArea area }
        ensures { result ≡ left_side self.now area }
    {
        let top = self.inset(Borders::TOP);
        let bottom = self.inset(Borders::BOTTOM);
        Rect {
            x: area.x,
            y: area.y + top,
            width: 1,
            height: area.height.saturating_sub(top).saturating_sub(bottom),
        }
    }

    fn right_side(&self, area: Rect) -> Rect
        requires { IsBoxArea area }
        ensures { result ≡ right_side self.now area }
    {
        Rect {
            x: area.x + (area.width - 1),
            ..self.left_side(area)
        }
    }

    fn top_side(&self, area: Rect) -> Rect
        requires { IsBoxArea area }
        ensures { result ≡ top_side self.now area }
    {
        let left = self.inset(Borders::LEFT);
        let right = self.inset(Borders::RIGHT);
        Rect {
            x: area.x + left,
            y: area.y,
            width: area.width.saturating_sub(left).saturating_sub(right),
            height: 1,
        }
    }

    fn bottom_side(&self, area: Rect) -> Rect
        requires { IsBoxArea area }
        ensures { result ≡ bottom_side self.now area }
    {
        Rect {
            y: area.y + (area.height - 1),
            ..self.top_side(area)
        }
    }
}

// Whether borders are joined with what stands there.
fn joins(strategy: MergeStrategy) -> bool
    ensures { result ≡ joins strategy }
{
    match strategy {
        MergeStrategy::Replace => false,
        MergeStrategy::Exact | MergeStrategy::Fuzzy => true,
    }
}

// One place.
fn place(x: u16, y: u16) -> Rect
    ensures { result ≡ place_at (position_of (x, y)) }
{
    Rect {
        x,
        y,
        width: 1,
        height: 1,
    }
}
