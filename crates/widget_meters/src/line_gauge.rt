//! A line that is filled by a share of a row.

ghost use Rattle.std.specs.Prelude.{◌≡◌, ◌<◌, ◌+◌, Some, IfOk, true};
ghost use Rattle.ratatui_core.specs.Buffer.{columns, IsShort};
ghost use Rattle.rtui_drawing.specs.Drawings.{put_pieces, IsDone, IsRowIn};
ghost use Rattle.widget_meters.specs.Shares.{share_of};
ghost use Rattle.widget_meters.specs.LineGauges.{IsNewLineGauge, line_label_pieces};

use crate::share::Share;
use ratatui_core::buffer::{Buffer, Cell, CellChange};
use ratatui_core::layout::{Position, Rect};
use ratatui_core::style::Style;
use ratatui_core::symbols::line;
use ratatui_core::text::Line;
use ratatui_core::widgets::Widget;
use rtui_drawing::{Cut, put_change, write, write_line};
use rtui_inside::{DrawInside, render_inside};
use std::alloc::{AllocError, Global};
use widget_boxes::{Block, cloned_block, cloned_line};

/// The line that a gauge is made of if it says nothing else.
pub const PLAIN_LINE: &str = line::HORIZONTAL;

/// A line in one row that is filled by a share from the left, with a label before it.
///
/// ```
/// LineGauge::new().percent(40).filled_style(Style::new().fg(Color::Green)).render(area, buf)?;
/// ```
#[derive(Debug, PartialEq, Eq, Drop)]
pub struct LineGauge<'a> {
    block: Option<Block<'a>>,
    share: Share,
    label: Option<Line<'a>>,
    filled_symbol: &'a str,
    unfilled_symbol: &'a str,
    pub(crate) style: Style,
    filled_style: Style,
    unfilled_style: Style,
}

impl<'a> LineGauge<'a> {
    /// Makes an empty gauge of plain lines, without box, label and styles; takes no memory.
    pub fn new() -> LineGauge<'a>
        ensures { IsNewLineGauge result }
    {
        LineGauge {
            block: None,
            share: Share { parts: 0, whole: 1 },
            label: None,
            filled_symbol: PLAIN_LINE,
            unfilled_symbol: PLAIN_LINE,
            style: Style::new(),
            filled_style: Style::new(),
            unfilled_style: Style::new(),
        }
    }

    /// Puts the gauge in a box.
    pub fn block(mut self, block: Block<'a>) -> LineGauge<'a>
        ensures { result ≡ record self.entry { block = Some block.entry } }
    {
        self.block = Some(block);
        self
    }

    /// Sets how many hundredths are filled; more than 100 are 100.
    pub fn percent(self, percent: u16) -> LineGauge<'a>
        ensures { result ≡ record self.entry { share = share_of percent 100 } }
    {
        self.ratio(u32::from(percent), 100)
    }

    /// Sets how many parts of a whole are filled; more than the whole are the whole.
    pub fn ratio(mut self, parts: u32, whole: u32) -> LineGauge<'a>
        ensures { result ≡ record self.entry { share = share_of parts whole } }
    {
        self.share = Share { parts, whole };
        self
    }

    /// Sets the label; without one the percentage is shown.
    pub fn label(mut self, label: Line<'a>) -> LineGauge<'a>
        ensures { result ≡ record self.entry { label = Some label.entry } }
    {
        self.label = Some(label);
        self
    }

    /// Sets the symbol of all columns to the level line of a set.
    pub fn line_set(mut self, set: line::Set<'a>) -> LineGauge<'a>
        ensures { let symbol = set.entry.horizontal in
            result ≡ record self.entry { filled_symbol = symbol; unfilled_symbol = symbol } }
    {
        self.filled_symbol = set.horizontal;
        self.unfilled_symbol = set.horizontal;
        self
    }

    /// Sets the symbol of each column that is filled.
    pub fn filled_symbol(mut self, symbol: &'a str) -> LineGauge<'a>
        ensures { result ≡ record self.entry { filled_symbol = symbol.entry } }
    {
        self.filled_symbol = symbol;
        self
    }

    /// Sets the symbol of each other column.
    pub fn unfilled_symbol(mut self, symbol: &'a str) -> LineGauge<'a>
        ensures { result ≡ record self.entry { unfilled_symbol = symbol.entry } }
    {
        self.unfilled_symbol = symbol;
        self
    }

    /// Sets the style of the gauge, with its box and its label.
    pub fn style(mut self, style: Style) -> LineGauge<'a>
        ensures { result ≡ record self.entry { style = style } }
    {
        self.style = style;
        self
    }

    /// Sets the style of the filled part of the line.
    pub fn filled_style(mut self, style: Style) -> LineGauge<'a>
        ensures { result ≡ record self.entry { filled_style = style } }
    {
        self.filled_style = style;
        self
    }

    /// Sets the style of the other part of the line.
    pub fn unfilled_style(mut self, style: Style) -> LineGauge<'a>
        ensures { result ≡ record self.entry { unfilled_style = style } }
    {
        self.unfilled_style = style;
        self
    }

    /// Makes an equal gauge.
    ///
    /// # Errors
    ///
    /// `AllocError` if memory is refused.
    pub fn clone(&self, alloc: Global) -> Result<LineGauge<'a>, AllocError>
        ensures { let same = ⟦<LineGauge<'a> as PartialEq>⟧.eq in
            IfOk result (λ gauge. same self.now gauge ≡ true) }
    {
        Ok(LineGauge {
            block: cloned_block(alloc, &self.block)?,
            share: self.share,
            label: cloned_line(alloc, &self.label)?,
            filled_symbol: self.filled_symbol,
            unfilled_symbol: self.unfilled_symbol,
            style: self.style,
            filled_style: self.filled_style,
            unfilled_style: self.unfilled_style,
        })
    }

    // Writes the label, and answers how many columns it took.
    fn write_label(&self, row: Rect, buf: &mut Buffer) -> Result<u16, AllocError>
        requires { IsRowIn buf.old.area row }
        ensures done { let ps = line_label_pieces self.now row.width in
            IsDone (put_pieces ps) row result buf.old buf.new }
        ensures columns { let ps = line_label_pieces self.now row.width in
            IfOk result (λ n. n ≡ columns ps) }
    {
        match &self.label {
            Some(label) => write_line(label, row, buf),
            None => {
                let text = self.share.even_text();
                write(text.as_str(), Style::new(), row, buf)
            }
        }
    }
}

// The label in the first row inside the box, and the line after it.
impl<'a> DrawInside for LineGauge<'a> {
    ghost use Rattle.widget_meters.specs.LineGauges.{line_gauge_drawing};

    ghost drawing = { line_gauge_drawing };

    fn draw_inside(&self, inner: Rect, buf: &mut Buffer) -> Result<(), AllocError> {
        let row = Cut::Rows(0, 1).of(inner);
        let label = self.write_label(row, buf)?;
        let part = Cut::After(label.saturating_add(1)).of(row);
        let line = LineFill {
            end: part.x.saturating_add(self.share.filled(part.width)),
            filled_symbol: self.filled_symbol,
            unfilled_symbol: self.unfilled_symbol,
            filled_style: self.filled_style,
            unfilled_style: self.unfilled_style,
        };
        put_change(&line, part, buf)
    }
}

impl Default for LineGauge<'_> {
    ghost is_default = { IsNewLineGauge };

    fn default() -> Self {
        LineGauge::new()
    }
}

// A line that is filled up to a column.
#[derive(Drop)]
pub(crate) struct LineFill<'a> {
    end: u16,
    filled_symbol: &'a str,
    unfilled_symbol: &'a str,
    filled_style: Style,
    unfilled_style: Style,
}

impl<'a> CellChange for LineFill<'a> {
    ghost use Rattle.widget_meters.specs.LineGauges.{line_cell};
    ghost use Rattle.ratatui_core.specs.Buffer.{IsShort};

    ghost made = { line_cell };

    ghost is_light = { λ f _ _. IsShort f.filled_symbol.now × IsShort f.unfilled_symbol.now };

    fn change(&self, alloc: Global, position: Position, cell: &mut Cell) -> Result<(), AllocError> {
        if position.x < self.end {
            cell.put(alloc, self.filled_symbol, self.filled_style)
        } else {
            cell.put(alloc, self.unfilled_symbol, self.unfilled_style)
        }
    }
}

/// Over the area, as far as the buffer has it: the style, the box, and in the first row inside the
/// label and the line.
impl<'b, 'a> Widget for &'b LineGauge<'a> {
    ghost use Rattle.widget_meters.specs.LineGauges.{RendersLineGauge, LeavesLineGauge};
    ghost use Rattle.widget_meters.specs.LineGauges.{IsShortLineGauge};

    ghost renders = { λ gauge. RendersLineGauge gauge.now };

    ghost leaves = { λ gauge. LeavesLineGauge gauge.now };

    ghost is_short = { λ gauge. IsShortLineGauge gauge.now };

    fn render(self, area: Rect, buf: &mut Buffer) -> Result<(), AllocError> {
        render_inside(self, self.style, &self.block, area, buf)
    }
}

impl<'a> Widget for LineGauge<'a> {
    ghost use Rattle.widget_meters.specs.LineGauges.{RendersLineGauge, LeavesLineGauge};
    ghost use Rattle.widget_meters.specs.LineGauges.{IsShortLineGauge};

    ghost renders = { RendersLineGauge };

    ghost leaves = { LeavesLineGauge };

    ghost is_short = { IsShortLineGauge };

    fn render(self, area: Rect, buf: &mut Buffer) -> Result<(), AllocError> {
        (&self).render(area, buf)
    }
}
