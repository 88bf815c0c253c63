//! A canvas.

ghost use Rattle.std.specs.Prelude.{◌≡◌, Some, OnOk, IfOk, IsOk, slice_index_or, pos, true};
ghost use Rattle.ratatui_core.specs.Widgets.{ChangesWithin};
ghost use Rattle.widget_boxes.specs.Boxes.{IsBoxArea};
ghost use Rattle.widget_canvas.specs.Canvases.{IsNewCanvas, scale_of, ShowsLayers, RendersLabels};
ghost use Rattle.widget_canvas.specs.Kept.{HasCells, HasGrid, HasShortLabels, ShowsKept};
ghost use Rattle.widget_canvas.specs.Inner.{DrawsNext, IsEmptyGrid};
ghost use Rattle.rtui_dots.specs.Layers.{layers_of};

use crate::label::Label;
use crate::shown::show;
use crate::state::CanvasState;
use ratatui_core::buffer::Buffer;
use ratatui_core::layout::Rect;
use ratatui_core::style::{Color, Style};
use ratatui_core::symbols::Marker;
use ratatui_core::widgets::StatefulWidget;
use rtui_dots::{Drawing, Painter, Scale, Shape};
use std::alloc::{AllocError, Global};
use widget_boxes::{Block, cloned_block, render_frame};

/// Shapes by dots, over a range of coordinates, and labels over them.
///
/// ```
/// let line = Line { x1: 0, y1: 0, x2: 99, y2: 49, color: Color::Green };
/// let drawings = [Drawing::Line(line)];
/// let canvas = Canvas::new().x_bounds([0, 99]).y_bounds([0, 49]).paint(&drawings);
/// canvas.render(area, buf)?;
/// ```
#[derive(Debug, Drop)]
pub struct Canvas<'a> {
    block: Option<Block<'a>>,
    left: i64,
    right: i64,
    bottom: i64,
    top: i64,
    drawings: &'a [Drawing<'a>],
    labels: &'a [Label<'a>],
    background_color: Color,
    marker: Marker,
}

impl<'a> Canvas<'a> {
    /// Makes a canvas of nothing, without a box, that marks dots in Braille. Its bounds are 0 on
    /// each side, so it shows no dots before it is given others. Takes no memory.
    pub fn new() -> Canvas<'a>
        ensures { IsNewCanvas result }
    {
        Canvas {
            block: None,
            left: 0,
            right: 0,
            bottom: 0,
            top: 0,
            drawings: &[],
            labels: &[],
            background_color: Color::Reset,
            marker: Marker::Braille,
        }
    }

    /// Puts the canvas in a box.
    pub fn block(mut self, block: Block<'a>) -> Canvas<'a>
        ensures { result ≡ record self.entry { block = Some block.entry } }
    {
        self.block = Some(block);
        self
    }

    /// Sets the coordinates at the left and the right side. The canvas shows no dots unless the
    /// left one is less. If both are the same, the labels that lie there stand at the left.
    pub fn x_bounds(mut self, bounds: [i64; 2]) -> Canvas<'a>
        ensures { let left = slice_index_or bounds 0 (pos 0) in
            let right = slice_index_or bounds 1 (pos 0) in
            result ≡ record self.entry { left = left; right = right } }
    {
        self.left = bounds[0];
        self.right = bounds[1];
        self
    }

    /// Sets the coordinates at the lower and the upper side. The canvas shows no dots unless the
    /// lower one is less. If both are the same, the labels that lie there stand in the first row.
    pub fn y_bounds(mut self, bounds: [i64; 2]) -> Canvas<'a>
        ensures { let bottom = slice_index_or bounds 0 (pos 0) in
            let top = slice_index_or bounds 1 (pos 0) in
            result ≡ record self.entry { bottom = bottom; top = top } }
    {
        self.bottom = bounds[0];
        self.top = bounds[1];
        self
    }

    /// Sets the shapes of the canvas.
    pub fn paint(self, drawings: &'a [Drawing<'a>]) -> Canvas<'a>
        ensures { result ≡ record self.entry { drawings = drawings.entry } }
    {
        Canvas { drawings, ..self }
    }

    /// Sets the labels of the canvas. They lie over all dots, each over those before it.
    pub fn print(self, labels: &'a [Label<'a>]) -> Canvas<'a>
        ensures { result ≡ record self.entry { labels = labels.entry } }
    {
        Canvas { labels, ..self }
    }

    /// Sets the background of the canvas.
    pub fn background_color(mut self, color: Color) -> Canvas<'a>
        ensures { result ≡ record self.entry { background_color = color } }
    {
        self.background_color = color;
        self
    }

    /// Sets how the dots are marked.
    pub fn marker(mut self, marker: Marker) -> Canvas<'a>
        ensures { result ≡ record self.entry { marker = marker } }
    {
        self.marker = marker;
        self
    }

    /// Makes a canvas of the same shapes and labels, in an equal box.
    ///
    /// # Errors
    ///
    /// `AllocError` if memory is refused.
    pub fn clone(&self, alloc: Global) -> Result<Canvas<'a>, AllocError>
        ensures block { let same = ⟦<Option<Block<'a>> as PartialEq>⟧.eq in
            IfOk result (λ canvas. same self.now.block canvas.block ≡ true) }
        ensures others { IfOk result
            (λ canvas. canvas ≡ record self.now { block = canvas.block }) }
    {
        Ok(Canvas {
            block: cloned_block(alloc, &self.block)?,
            left: self.left,
            right: self.right,
            bottom: self.bottom,
            top: self.top,
            drawings: self.drawings,
            labels: self.labels,
            background_color: self.background_color,
            marker: self.marker,
        })
    }

    // The bounds over the cells of an area.
    fn scale(&self, inner: Rect) -> Scale
        ensures { result ≡ scale_of self.now inner }
    {
        Scale {
            left: self.left,
            right: self.right,
            bottom: self.bottom,
            top: self.top,
            columns: inner.width,
            rows: inner.height,
            marker: self.marker,
        }
    }

    // Shows the layers over an area, by a grid.
    fn render_layers(
        &self,
        painter: &mut Painter,
        inner: Rect,
        buf: &mut Buffer,
    ) -> Result<(), AllocError>
        requires { IsEmptyGrid (scale_of self.now inner) painter.old }
        ensures within { ChangesWithin inner buf.old buf.new }
        ensures layers { let s = scale_of self.now inner in
            ShowsLayers s inner (layers_of s self.now.drawings.now) buf.old buf.new }
        ensures grid { HasCells (scale_of self.now inner) painter.new }
        ensures succeeds { IsOk result }
    {
        for drawing in self.drawings {
            draw_next(drawing, painter, inner, buf)?;
        }
        show(painter, inner, buf)
    }

    // Shows the layers over an area, by the grid of a state.
    fn render_dots(
        &self,
        inner: Rect,
        buf: &mut Buffer,
        state: &mut CanvasState,
    ) -> Result<(), AllocError>
        ensures within { ChangesWithin inner buf.old buf.new }
        ensures ok { let s = scale_of self.now inner in
            OnOk result (ShowsLayers s inner (layers_of s self.now.drawings.now) buf.old buf.new) }
        ensures grid { OnOk result (HasGrid state.new (scale_of self.now inner)) }
        ensures short { HasGrid state.old (scale_of self.now inner) → IsOk result }
    {
        let mut painter = state.take(buf.allocator(), self.scale(inner))?;
        let shown = self.render_layers(&mut painter, inner, buf);
        state.grid = Some(painter);
        shown
    }

    // Renders the labels over an area.
    fn render_labels(&self, inner: Rect, buf: &mut Buffer) -> Result<(), AllocError>
        requires { IsBoxArea inner }
        ensures within { ChangesWithin inner buf.old buf.new }
        ensures ok { let s = scale_of self.now inner in
            OnOk result (RendersLabels s inner self.now.labels.now buf.old buf.new) }
        ensures short { HasShortLabels self.now → IsOk result }
    {
        let scale = self.scale(inner);
        for label in self.labels {
            label.render(&scale, inner, buf)?;
        }
        Ok(())
    }

    // Shows what is inside the box, by the grid of a state.
    fn render_canvas(
        &self,
        inner: Rect,
        buf: &mut Buffer,
        state: &mut CanvasState,
    ) -> Result<(), AllocError>
        requires { IsBoxArea inner }
        ensures within { ChangesWithin inner buf.old buf.new }
        ensures ok { OnOk result
            (ShowsKept self.now state.old state.new inner buf.old buf.new) }
        ensures short { HasGrid state.old (scale_of self.now inner) → HasShortLabels self.now
            → IsOk result }
    {
        buf.set_style(inner, Style::new().bg(self.background_color));
        self.render_dots(inner, buf, state)?;
        self.render_labels(inner, buf)
    }
}

// Draws what is next: sets its dots, or shows a layer over an area and begins another one.
fn draw_next(
    drawing: &Drawing<'_>,
    painter: &mut Painter,
    inner: Rect,
    buf: &mut Buffer,
) -> Result<(), AllocError>
    ensures within { ChangesWithin inner buf.old buf.new }
    ensures draws { let f = DrawsNext drawing.now inner painter.old painter.new in
        f buf.old buf.new }
    ensures succeeds { IsOk result }
{
    if !drawing.is_layer() {
        drawing.draw(painter);
        return Ok(());
    }
    show(painter, inner, buf)?;
    painter.clear();
    Ok(())
}

/// Over the area, as far as the buffer has it: the box, and inside the background, the dots layer
/// by layer, and the labels. It takes memory for a grid of the cells inside, unless the state has
/// one of as many cells.
impl<'b, 'a> StatefulWidget for &'b Canvas<'a> {
    type State = CanvasState;

    ghost use Rattle.widget_canvas.specs.Kept.{RendersKept, IsShortCanvas};

    ghost renders = { λ canvas. RendersKept canvas.now };

    ghost is_short = { λ canvas. IsShortCanvas canvas.now };

    fn render(
        self,
        area: Rect,
        buf: &mut Buffer,
        state: &mut CanvasState,
    ) -> Result<(), AllocError> {
        let Some(inner) = render_frame(Style::new(), &self.block, area, buf)? else {
            return Ok(());
        };
        self.render_canvas(inner, buf, state)
    }
}

impl<'a> StatefulWidget for Canvas<'a> {
    type State = CanvasState;

    ghost use Rattle.widget_canvas.specs.Kept.{RendersKept, IsShortCanvas};

    ghost renders = { RendersKept };

    ghost is_short = { IsShortCanvas };

    fn render(
        self,
        area: Rect,
        buf: &mut Buffer,
        state: &mut CanvasState,
    ) -> Result<(), AllocError> {
        StatefulWidget::render(&self, area, buf, state)
    }
}
