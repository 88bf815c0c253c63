//! Labels of a canvas.

ghost use Rattle.std.specs.Prelude.{◌≡◌, ◌≤◌, ◌-◌, OnOk, IfOk, IsOk, IsTrue};
ghost use Rattle.ratatui_core.specs.Layout.{IsInside};
ghost use Rattle.ratatui_core.specs.Widgets.{ChangesWithin};
ghost use Rattle.widget_boxes.specs.Boxes.{IsBoxArea};
ghost use Rattle.widget_boxes.specs.Lines.{IsShortTitle};
ghost use Rattle.widget_boxes.specs.Titles.{title_width};
ghost use Rattle.rtui_dots.specs.Grids.{lies_between, lies_within};
ghost use Rattle.widget_canvas.specs.Canvases.{label_column, label_row, label_from, label_area};
ghost use Rattle.widget_canvas.specs.Canvases.{RendersLabel};

use ratatui_core::buffer::Buffer;
use ratatui_core::layout::Rect;
use ratatui_core::text::Line;
use ratatui_core::widgets::Widget;
use rtui_dots::Scale;
use std::alloc::{AllocError, Global};

/// A line of text at a point of a canvas, over its dots.
#[derive(Debug, PartialEq, Eq, Drop)]
pub struct Label<'a> {
    pub(crate) x: i64,
    pub(crate) y: i64,
    pub(crate) line: Line<'a>,
}

impl<'a> Label<'a> {
    /// Makes a label of a line from this point on to the right.
    pub fn new(x: i64, y: i64, line: Line<'a>) -> Label<'a>
        ensures { result ≡ record { x = x; y = y; line = line.entry } }
    {
        Label { x, y, line }
    }

    /// Makes an equal label.
    ///
    /// # Errors
    ///
    /// `AllocError` if memory is refused.
    pub fn clone(&self, alloc: Global) -> Result<Label<'a>, AllocError>
        ensures { IfOk result (λ label. label ≡ self.now) }
    {
        Ok(Label {
            x: self.x,
            y: self.y,
            line: self.line.clone(alloc)?,
        })
    }

    // Where the label stands from a cell of an area on.
    fn area_from(&self, inner: Rect, cell: (u16, u16)) -> Rect
        requires some { IsBoxArea inner }
        requires across { cell.0 ≤ inner.width - 1 }
        requires down { cell.1 ≤ inner.height - 1 }
        ensures { result ≡ label_from inner cell.0 cell.1 self.now.line }
    {
        Rect {
            x: inner.x + cell.0,
            y: inner.y + cell.1,
            width: columns_of(&self.line).min(inner.width - cell.0),
            height: 1,
        }
    }

    // Whether the label lies within the bounds or on them.
    fn lies_within(&self, scale: &Scale) -> bool
        ensures { result ≡ lies_within scale.now self.now.x self.now.y }
    {
        let (left, right) = (scale.left, scale.right);
        lies_between(left, right, self.x) && lies_between(scale.bottom, scale.top, self.y)
    }

    // The column among the cells of a label within the bounds.
    fn column(&self, scale: &Scale) -> u16
        requires { IsTrue (lies_between scale.now.left scale.now.right self.now.x) }
        ensures value { result ≡ label_column scale.now self.now.x }
        ensures within { result ≤ scale.now.columns - 1 }
    {
        if scale.left >= scale.right {
            return 0;
        }
        let across = Scale {
            bottom: 0,
            top: 1,
            ..*scale
        };
        across.cell_of(self.x, 0).0
    }

    // The row among the cells of a label within the bounds.
    fn row(&self, scale: &Scale) -> u16
        requires { IsTrue (lies_between scale.now.bottom scale.now.top self.now.y) }
        ensures value { result ≡ label_row scale.now self.now.y }
        ensures within { result ≤ scale.now.rows - 1 }
    {
        if scale.bottom >= scale.top {
            return 0;
        }
        let down = Scale {
            left: 0,
            right: 1,
            ..*scale
        };
        down.cell_of(0, self.y).1
    }

    // Where the label stands, if it lies within the bounds.
    fn area(&self, scale: &Scale, inner: Rect) -> Rect
        requires some { IsBoxArea inner }
        requires columns { scale.now.columns ≡ inner.width }
        requires rows { scale.now.rows ≡ inner.height }
        requires within { IsTrue (lies_within scale.now self.now.x self.now.y) }
        ensures value { result ≡ label_area scale.now inner self.now }
        ensures inside { IsInside result inner }
    {
        let cell = (self.column(scale), self.row(scale));
        self.area_from(inner, cell)
    }

    // Renders the label, if it lies within the bounds or on them.
    pub(crate) fn render(
        &self,
        scale: &Scale,
        inner: Rect,
        buf: &mut Buffer,
    ) -> Result<(), AllocError>
        requires some { IsBoxArea inner }
        requires columns { scale.now.columns ≡ inner.width }
        requires rows { scale.now.rows ≡ inner.height }
        ensures within { ChangesWithin inner buf.old buf.new }
        ensures ok { OnOk result (RendersLabel scale.now inner self.now buf.old buf.new) }
        ensures short { IsShortTitle self.now.line → IsOk result }
    {
        if !self.lies_within(scale) {
            return Ok(());
        }
        let line = &self.line;
        line.render(self.area(scale, inner), buf)
    }
}

// Whether a number lies between two others, or is one of them.
fn lies_between(low: i64, high: i64, n: i64) -> bool
    ensures { result ≡ lies_between low high n }
{
    low <= n && n <= high
}

// How many columns a line takes, at most 65535.
fn columns_of(line: &Line<'_>) -> u16
    ensures { result ≡ title_width line.now }
{
    line.width().min(65535) as u16
}
