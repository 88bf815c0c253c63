//! A bar that fills a share of an area.

ghost use Rattle.std.specs.Prelude.{◌≡◌, Some, OnOk, OnErr, IsOk, IfOk, true};
ghost use Rattle.ratatui_core.specs.Layout.{IsInside};
ghost use Rattle.ratatui_core.specs.Buffer.{IsShort};
ghost use Rattle.widget_boxes.specs.Boxes.{IsBoxArea};
ghost use Rattle.rtui_drawing.specs.Drawings.{IsDone};
ghost use Rattle.widget_meters.specs.Shares.{share_of};
ghost use Rattle.widget_meters.specs.Gauges.{IsNewGauge, IsFillOf, is_under_label, full_cell, bar_drawing};

use crate::share::Share;
use ratatui_core::buffer::{Buffer, Cell, CellChange};
use ratatui_core::layout::{Position, Rect};
use ratatui_core::style::{Color, Style};
use ratatui_core::symbols::block;
use ratatui_core::text::{Span, text_columns};
use ratatui_core::widgets::Widget;
use rtui_drawing::{Cut, put_change, write};
use rtui_inside::{DrawInside, render_inside};
use std::alloc::{AllocError, Global};
use widget_boxes::{Block, cloned_block};

/// A bar that fills a share of an area from the left, with a label in the middle.
///
/// ```
/// Gauge::new().ratio(sent, total).gauge_style(Style::new().fg(Color::Green)).render(area, buf)?;
/// ```
#[derive(Debug, PartialEq, Eq, Drop)]
pub struct Gauge<'a> {
    block: Option<Block<'a>>,
    share: Share,
    label: Option<Span<'a>>,
    use_unicode: bool,
    pub(crate) style: Style,
    gauge_style: Style,
}

impl<'a> Gauge<'a> {
    /// Makes an empty gauge, without box, label and styles; takes no memory.
    pub fn new() -> Gauge<'a>
        ensures { IsNewGauge result }
    {
        Gauge {
            block: None,
            share: Share { parts: 0, whole: 1 },
            label: None,
            use_unicode: false,
            style: Style::new(),
            gauge_style: Style::new(),
        }
    }

    /// Puts the gauge in a box.
    pub fn block(mut self, block: Block<'a>) -> Gauge<'a>
        ensures { result ≡ record self.entry { block = Some block.entry } }
    {
        self.block = Some(block);
        self
    }

    /// Sets how many hundredths are filled; more than 100 are 100.
    pub fn percent(self, percent: u16) -> Gauge<'a>
        ensures { result ≡ record self.entry { share = share_of percent 100 } }
    {
        self.ratio(u32::from(percent), 100)
    }

    /// Sets how many parts of a whole are filled; more than the whole are the whole.
    pub fn ratio(mut self, parts: u32, whole: u32) -> Gauge<'a>
        ensures { result ≡ record self.entry { share = share_of parts whole } }
    {
        self.share = Share { parts, whole };
        self
    }

    /// Sets the label; without one the percentage is shown.
    pub fn label(mut self, label: Span<'a>) -> Gauge<'a>
        ensures { result ≡ record self.entry { label = Some label.entry } }
    {
        self.label = Some(label);
        self
    }

    /// Sets whether the last column is filled by eighths, or by whole columns.
    pub fn use_unicode(mut self, unicode: bool) -> Gauge<'a>
        ensures { result ≡ record self.entry { use_unicode = unicode } }
    {
        self.use_unicode = unicode;
        self
    }

    /// Sets the style of the gauge, with its box.
    pub fn style(mut self, style: Style) -> Gauge<'a>
        ensures { result ≡ record self.entry { style = style } }
    {
        self.style = style;
        self
    }

    /// Sets the style of the bar: the foreground is the colour of the filled part, the background
    /// that of the rest.
    pub fn gauge_style(mut self, style: Style) -> Gauge<'a>
        ensures { result ≡ record self.entry { gauge_style = style } }
    {
        self.gauge_style = style;
        self
    }

    /// Makes an equal gauge.
    ///
    /// # Errors
    ///
    /// `AllocError` if memory is refused.
    pub fn clone(&self, alloc: Global) -> Result<Gauge<'a>, AllocError>
        ensures { let same = ⟦<Gauge<'a> as PartialEq>⟧.eq in
            IfOk result (λ gauge. same self.now gauge ≡ true) }
    {
        Ok(Gauge {
            block: cloned_block(alloc, &self.block)?,
            share: self.share,
            label: cloned_span(alloc, &self.label)?,
            use_unicode: self.use_unicode,
            style: self.style,
            gauge_style: self.gauge_style,
        })
    }

    // Draws the bar and a label on it.
    fn draw_labelled(
        &self,
        text: &str,
        style: Style,
        inner: Rect,
        buf: &mut Buffer,
    ) -> Result<(), AllocError>
        requires some { IsBoxArea inner }
        requires inside { IsInside inner buf.old.area }
        ensures { let d = bar_drawing self.now text.now style inner in
            IsDone d inner result buf.old buf.new }
    {
        let fill = self.fill(text, inner);
        put_change(&fill, inner, buf)?;
        write(text, style, fill.label, buf)?;
        Ok(())
    }

    // How the bar fills an area in which a label stands.
    fn fill(&self, text: &str, inner: Rect) -> Fill
        requires { IsBoxArea inner }
        ensures fill { IsFillOf self.now text.now inner result }
        ensures light { IsShort result.tip.now }
    {
        let width = text_columns(text).min(65535) as u16;
        let columns = if self.use_unicode {
            self.share.filled(inner.width)
        } else {
            self.share.rounded(inner.width)
        };
        Fill {
            end: inner.x + columns,
            has_tip: self.use_unicode && !self.share.is_full(),
            tip: TIPS[self.share.eighths(inner.width)],
            label: Cut::Middle(width).of(Cut::Rows(inner.height / 2, 1).of(inner)),
            style: self.gauge_style,
        }
    }
}

impl Default for Gauge<'_> {
    ghost is_default = { IsNewGauge };

    fn default() -> Self {
        Gauge::new()
    }
}

/// The symbol of a column that is filled.
pub const FULL_BLOCK: &str = block::FULL;

/// The symbols of a column that is filled by eighths, from none to all.
pub static TIPS: [&str; 9] = [
    " ",
    block::ONE_EIGHTH,
    block::ONE_QUARTER,
    block::THREE_EIGHTHS,
    block::HALF,
    block::FIVE_EIGHTHS,
    block::THREE_QUARTERS,
    block::SEVEN_EIGHTHS,
    FULL_BLOCK,
];

// An equal span, if there is one.
fn cloned_span<'a>(alloc: Global, span: &Option<Span<'a>>) -> Result<Option<Span<'a>>, AllocError>
    ensures { IfOk result (λ cloned. cloned ≡ span.now) }
{
    match span {
        Some(span) => Ok(Some(span.clone(alloc)?)),
        None => Ok(None),
    }
}

// How a bar fills an area: up to which column, by which symbol in the next one, where the label
// stands, and in which style.
#[derive(Drop)]
pub(crate) struct Fill {
    end: u16,
    has_tip: bool,
    tip: &'static str,
    label: Rect,
    style: Style,
}

impl Fill {
    // Whether a position is one of the label's columns, or the one after them.
    fn is_under_label(&self, position: Position) -> bool
        ensures { result ≡ is_under_label self.now position }
    {
        let label = self.label;
        position.y == label.y && label.x <= position.x && position.x - label.x <= label.width
    }

    // Fills a cell: with a block, or with a blank in the other colours under the label.
    fn fill(&self, alloc: Global, position: Position, cell: &mut Cell) -> Result<(), AllocError>
        ensures ok { OnOk result (cell.new ≡ full_cell self.now position cell.old) }
        ensures err { OnErr result (cell.new ≡ cell.old) }
        ensures succeeds { IsOk result }
    {
        let front = self.style.fg.unwrap_or(Color::Reset);
        let back = self.style.bg.unwrap_or(Color::Reset);
        if self.is_under_label(position) {
            cell.put(alloc, " ", self.style)?;
            cell.fg = back;
            cell.bg = front;
        } else {
            cell.put(alloc, FULL_BLOCK, self.style)?;
            cell.fg = front;
            cell.bg = back;
        }
        Ok(())
    }
}

impl CellChange for Fill {
    ghost use Rattle.widget_meters.specs.Gauges.{filled_cell};
    ghost use Rattle.ratatui_core.specs.Buffer.{IsShort};

    ghost made = { filled_cell };

    ghost is_light = { λ f _ _. IsShort f.tip.now };

    fn change(&self, alloc: Global, position: Position, cell: &mut Cell) -> Result<(), AllocError> {
        if position.x < self.end {
            return self.fill(alloc, position, cell);
        }
        if self.has_tip && position.x == self.end {
            cell.set_symbol(alloc, self.tip)?;
        }
        cell.set_style(self.style);
        Ok(())
    }
}

// The bar inside the box, with its label.
impl<'a> DrawInside for Gauge<'a> {
    ghost use Rattle.widget_meters.specs.Gauges.{gauge_drawing};

    ghost drawing = { gauge_drawing };

    fn draw_inside(&self, inner: Rect, buf: &mut Buffer) -> Result<(), AllocError> {
        match &self.label {
            Some(label) => self.draw_labelled(label.text(), label.style, inner, buf),
            None => {
                let text = self.share.text();
                self.draw_labelled(text.as_str(), Style::new(), inner, buf)
            }
        }
    }
}

/// Over the area, as far as the buffer has it: the style, the box, and the bar with its label
/// inside.
impl<'b, 'a> Widget for &'b Gauge<'a> {
    ghost use Rattle.widget_meters.specs.Gauges.{RendersAreaGauge, LeavesGauge, IsShortGauge};

    ghost renders = { λ gauge. RendersAreaGauge gauge.now };

    ghost leaves = { λ gauge. LeavesGauge gauge.now };

    ghost is_short = { λ gauge. IsShortGauge gauge.now };

    fn render(self, area: Rect, buf: &mut Buffer) -> Result<(), AllocError> {
        render_inside(self, self.style, &self.block, area, buf)
    }
}

impl<'a> Widget for Gauge<'a> {
    ghost use Rattle.widget_meters.specs.Gauges.{RendersAreaGauge, LeavesGauge, IsShortGauge};

    ghost renders = { RendersAreaGauge };

    ghost leaves = { LeavesGauge };

    ghost is_short = { IsShortGauge };

    fn render(self, area: Rect, buf: &mut Buffer) -> Result<(), AllocError> {
        (&self).render(area, buf)
    }
}
