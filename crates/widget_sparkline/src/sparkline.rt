//! Bars of one column each.

ghost use Rattle.std.specs.Prelude.{◌≡◌, ◌<◌, ◌+◌, ◌-◌, Some, IfOk, true};
ghost use Rattle.ratatui_core.specs.Style.{patch};
ghost use Rattle.ratatui_core.specs.Buffer.{ChangesEach};
ghost use Rattle.std.specs.List.{list_any};
ghost use Rattle.widget_sparkline.specs.Sparklines.{IsNewSparkline, greatest_of, bars_width, bars_cut};
ghost use Rattle.widget_sparkline.specs.Sparklines.{HasShortLevels, number_of_column};
ghost use Rattle.widget_sparkline.specs.Sparklines.{style_of_bar, bar_cell_of};
ghost use Rattle.widget_sparkline.specs.Inner.{has_own_style, column_of, bar_style_at, mark_at, bar_mark, IsColumnsOf};
ghost use Rattle.rtui_drawing.specs.{Cuts.cut_from, Drawings.IsDone, Drawings.put_change};

use crate::fill::{fill, fill_levels, lay_style};
use crate::level::eighths_of;
use ratatui_core::buffer::Buffer;
use ratatui_core::layout::Rect;
use ratatui_core::style::Style;
use ratatui_core::style::laws::new_style_is_identity;
use ratatui_core::symbols::{bar, shade};
use ratatui_core::widgets::Widget;
use rtui_drawing::{Cut, put_style};
use rtui_inside::{DrawInside, render_inside};
use std::alloc::{AllocError, Global};
use widget_boxes::{Block, cloned_block};

/// From which side bars stand one after the other.
#[derive(Debug, Default, Clone, Copy, PartialEq, Eq, Hash)]
pub enum RenderDirection {
    /// From the left.
    #[default]
    LeftToRight,
    /// From the right.
    RightToLeft,
}

/// A bar of a sparkline: a value, if it isn't absent, and a style of its own, if it has one.
#[derive(Debug, Default, Clone, Copy, PartialEq, Eq, Hash)]
pub struct SparklineBar {
    pub(crate) value: Option<u64>,
    pub(crate) style: Option<Style>,
}

impl SparklineBar {
    /// Makes a bar of a value, or of an absent one.
    pub fn new(value: Option<u64>) -> SparklineBar
        ensures { result ≡ record { value = value; style = None } }
    {
        SparklineBar { value, style: None }
    }

    /// Sets the bar's own style; without one it has the sparkline's.
    pub fn style(self, style: Option<Style>) -> SparklineBar
        ensures { result ≡ record self { style = style } }
    {
        SparklineBar { style, ..self }
    }
}

/// Bars of one column each, as high as their share of the greatest value.
///
/// ```
/// let mut bars = Vec::new(alloc);
/// for value in [3u64, 1, 4, 1, 5] {
///     bars.push(SparklineBar::new(Some(value)))?;
/// }
/// Sparkline::new(bars).render(area, buf)?; // "▄▁▆▁█" in one row
/// ```
#[derive(Debug, PartialEq, Eq, Drop)]
pub struct Sparkline<'a> {
    block: Option<Block<'a>>,
    pub(crate) style: Style,
    absent_value_style: Style,
    absent_value_symbol: &'a str,
    bars: Vec<SparklineBar>,
    max: Option<u64>,
    bar_set: bar::Set<'a>,
    direction: RenderDirection,
}

impl<'a> Sparkline<'a> {
    /// Makes a sparkline of these bars from the left, without box and styles; absent values are
    /// blank. Takes no memory.
    pub fn new(bars: Vec<SparklineBar>) -> Sparkline<'a>
        ensures { IsNewSparkline bars.items result }
    {
        Sparkline {
            block: None,
            style: Style::new(),
            absent_value_style: Style::new(),
            absent_value_symbol: shade::EMPTY,
            bars,
            max: None,
            bar_set: bar::NINE_LEVELS,
            direction: RenderDirection::LeftToRight,
        }
    }

    /// Sets the bars of the sparkline.
    pub fn data(mut self, bars: Vec<SparklineBar>) -> Sparkline<'a>
        ensures { result ≡ record self.entry { bars = bars } }
    {
        self.bars = bars;
        self
    }

    /// Puts the sparkline in a box.
    pub fn block(mut self, block: Block<'a>) -> Sparkline<'a>
        ensures { result ≡ record self.entry { block = Some block.entry } }
    {
        self.block = Some(block);
        self
    }

    /// Sets the style of the bars; the box and what is beside the bars keep theirs.
    pub fn style(mut self, style: Style) -> Sparkline<'a>
        ensures { result ≡ record self.entry { style = style } }
    {
        self.style = style;
        self
    }

    /// Sets the style of the absent values.
    pub fn absent_value_style(mut self, style: Style) -> Sparkline<'a>
        ensures { result ≡ record self.entry { absent_value_style = style } }
    {
        self.absent_value_style = style;
        self
    }

    /// Sets the symbol in each cell of an absent value.
    pub fn absent_value_symbol(mut self, symbol: &'a str) -> Sparkline<'a>
        ensures { result ≡ record self.entry { absent_value_symbol = symbol.entry } }
    {
        self.absent_value_symbol = symbol;
        self
    }

    /// Sets the value that is as high as the area; without one it is the greatest value.
    pub fn max(mut self, max: u64) -> Sparkline<'a>
        ensures { result ≡ record self.entry { max = Some max } }
    {
        self.max = Some(max);
        self
    }

    /// Sets the symbols for cells that are filled in part.
    pub fn bar_set(mut self, bar_set: bar::Set<'a>) -> Sparkline<'a>
        ensures { result ≡ record self.entry { bar_set = bar_set.entry } }
    {
        self.bar_set = bar_set;
        self
    }

    /// Sets the direction of the sparkline: from the left or from the right.
    pub fn direction(mut self, direction: RenderDirection) -> Sparkline<'a>
        ensures { result ≡ record self.entry { direction = direction } }
    {
        self.direction = direction;
        self
    }

    /// Makes an equal sparkline.
    ///
    /// # Errors
    ///
    /// `AllocError` if memory is refused.
    pub fn clone(&self, alloc: Global) -> Result<Sparkline<'a>, AllocError>
        ensures { let same = ⟦<Sparkline<'a> as PartialEq>⟧.eq in
            IfOk result (λ sparkline. same self.now sparkline ≡ true) }
    {
        Ok(Sparkline {
            block: cloned_block(alloc, &self.block)?,
            style: self.style,
            absent_value_style: self.absent_value_style,
            absent_value_symbol: self.absent_value_symbol,
            bars: Vec::from_slice(alloc, self.bars.as_slice())?,
            max: self.max,
            bar_set: self.bar_set,
            direction: self.direction,
        })
    }

    // The value that is as high as the area.
    fn greatest(&self) -> u64
        ensures { result ≡ greatest_of self.now }
    {
        if let Some(max) = self.max {
            return max;
        }
        let mut greatest = 0;
        for bar in self.bars.as_slice() {
            greatest = bar.value.unwrap_or(0).max(greatest);
        }
        greatest
    }

    // Whether some bar has another style than the sparkline.
    fn has_own_styles(&self) -> bool
        ensures { result ≡ list_any has_own_style self.now.bars.items }
    {
        let bars = self.bars.as_slice();
        bars.iter()
            .any(|bar| bar.value.is_none() || bar.style.is_some())
    }

    // The part of an area in which the bars stand.
    fn bars_cut(&self, inner: Rect) -> Cut
        ensures { result ≡ bars_cut self.now.direction (bars_width self.now inner) }
    {
        let width = self.bars.len().min(usize::from(inner.width)) as u16;
        match self.direction {
            RenderDirection::LeftToRight => Cut::First(width),
            RenderDirection::RightToLeft => Cut::Last(width),
        }
    }
}

// The bars inside the box, each in a column.
impl<'a> DrawInside for Sparkline<'a> {
    ghost use Rattle.widget_sparkline.specs.Sparklines.{sparkline_drawing};

    ghost drawing = { sparkline_drawing };

    #[tactic(auto, using(rtui_drawing::proofs::DrawingLemmas::drawing_steps))]
    fn draw_inside(&self, inner: Rect, buf: &mut Buffer) -> Result<(), AllocError> {
        let bars = Bars {
            sparkline: self,
            greatest: self.greatest(),
            area: inner,
        };
        bars.put_all(self.bars_cut(inner).of(inner), buf)
    }
}

// The bars of a sparkline over an area, by the value that is as high as it.
#[derive(Drop)]
pub(crate) struct Bars<'b, 'a> {
    sparkline: &'b Sparkline<'a>,
    greatest: u64,
    area: Rect,
}

impl<'b, 'a> Bars<'b, 'a> {
    // The number of the bar in a column.
    fn number(&self, x: u16) -> usize
        ensures { result ≡ number_of_column self.now.sparkline.now.direction self.now.area x }
    {
        let from_left = usize::from(x).saturating_sub(usize::from(self.area.x));
        match self.sparkline.direction {
            RenderDirection::LeftToRight => from_left,
            RenderDirection::RightToLeft => {
                usize::from(self.area.width).saturating_sub(from_left + 1)
            }
        }
    }

    // The style of a bar, over that of the sparkline.
    fn style(&self, bar: &SparklineBar) -> Style
        ensures { let s = self.now.sparkline.now in
            result ≡ patch s.style (style_of_bar s bar.now.value bar.now.style) }
    {
        let own = match bar.value {
            Some(_) => bar.style.unwrap_or(Style::new()),
            None => self.sparkline.absent_value_style,
        };
        self.sparkline.style.patch(own)
    }

    // A column of the area.
    fn column(&self, x: u16) -> Rect
        ensures { result ≡ column_of self.now.area x }
    {
        Rect {
            x,
            width: 1,
            ..self.area
        }
    }

    // Lays the style of a column's bar over it, if there is one.
    fn lay_style(&self, x: u16, buf: &mut Buffer)
        ensures { let r = self.now.area in
            ChangesEach (column_of r x) (bar_style_at self.now.sparkline.now r) buf.old buf.new }
    {
        let bars = self.sparkline.bars.as_slice();
        let number = self.number(x);
        if number < bars.len() {
            lay_style(self.style(&bars[number]), self.column(x), buf);
        }
    }

    // Lays the styles of the bars over their columns of an area.
    fn lay_own_styles(&self, area: Rect, buf: &mut Buffer)
        requires { IsColumnsOf area self.now.area }
        ensures { let f = bar_style_at self.now.sparkline.now self.now.area in
            ChangesEach area f buf.old buf.new }
    {
        for x in area.left()..area.right() {
            self.lay_style(x, buf);
        }
    }

    // Lays the styles of the bars over their columns of an area; all at once, if none has its own.
    fn lay_styles(&self, area: Rect, buf: &mut Buffer)
        requires { let s = self.now.sparkline.now in let r = self.now.area in
            area ≡ cut_from (bars_cut s.direction (bars_width s r)) r }
        ensures { let f = bar_style_at self.now.sparkline.now self.now.area in
            ChangesEach area f buf.old buf.new }
    {
        if self.sparkline.has_own_styles() {
            self.lay_own_styles(area, buf);
        } else {
            new_style_is_identity(self.sparkline.style);
            put_style(self.sparkline.style, area, buf);
        }
    }

    // Sets the symbols of a bar in a column of the area.
    fn put_bar(&self, bar: &SparklineBar, x: u16, buf: &mut Buffer) -> Result<(), AllocError>
        ensures { let s = self.now.sparkline.now in let r = self.now.area in
            let f = bar_mark s self.now.greatest r bar.now in
            IsDone (put_change f (λ _ _. HasShortLevels s)) (column_of r x) result buf.old buf.new }
    {
        let column = self.column(x);
        match bar.value {
            Some(value) => {
                let eighths = eighths_of(value, self.greatest, column.height);
                fill_levels(&self.sparkline.bar_set, eighths, column, buf)
            }
            None => fill(self.sparkline.absent_value_symbol, column, buf),
        }
    }

    // Sets the symbols of a column's bar, if there is one.
    fn put_column(&self, x: u16, buf: &mut Buffer) -> Result<(), AllocError>
        ensures { let s = self.now.sparkline.now in let r = self.now.area in
            let f = mark_at s self.now.greatest r in
            IsDone (put_change f (λ _ _. HasShortLevels s)) (column_of r x) result buf.old buf.new }
    {
        let bars = self.sparkline.bars.as_slice();
        let number = self.number(x);
        if number >= bars.len() {
            return Ok(());
        }
        self.put_bar(&bars[number], x, buf)
    }

    // Sets the symbols of the bars in their columns of an area.
    fn put_marks(&self, area: Rect, buf: &mut Buffer) -> Result<(), AllocError>
        requires { IsColumnsOf area self.now.area }
        ensures { let s = self.now.sparkline.now in
            let f = mark_at s self.now.greatest self.now.area in
            IsDone (put_change f (λ _ _. HasShortLevels s)) area result buf.old buf.new }
    {
        for x in area.left()..area.right() {
            self.put_column(x, buf)?;
        }
        Ok(())
    }

    // Puts the bars over their columns of an area.
    fn put_all(&self, area: Rect, buf: &mut Buffer) -> Result<(), AllocError>
        requires { let s = self.now.sparkline.now in let r = self.now.area in
            area ≡ cut_from (bars_cut s.direction (bars_width s r)) r }
        ensures { let s = self.now.sparkline.now in
            let f = bar_cell_of s self.now.greatest self.now.area in
            IsDone (put_change f (λ _ _. HasShortLevels s)) area result buf.old buf.new }
    {
        self.lay_styles(area, buf);
        self.put_marks(area, buf)
    }
}

/// Over the area, as far as the buffer has it: the box, and inside a bar in each column, as far as
/// there are bars, in the style of the sparkline under its own.
impl<'b, 'a> Widget for &'b Sparkline<'a> {
    ghost use Rattle.widget_sparkline.specs.Sparklines.{RendersSparkline, LeavesSparkline};
    ghost use Rattle.widget_sparkline.specs.Sparklines.{IsShortSparkline};

    ghost renders = { λ sparkline. RendersSparkline sparkline.now };

    ghost leaves = { λ sparkline. LeavesSparkline sparkline.now };

    ghost is_short = { λ sparkline _. IsShortSparkline sparkline.now };

    fn render(self, area: Rect, buf: &mut Buffer) -> Result<(), AllocError> {
        render_inside(self, Style::new(), &self.block, area, buf)
    }
}

impl<'a> Widget for Sparkline<'a> {
    ghost use Rattle.widget_sparkline.specs.Sparklines.{RendersSparkline, LeavesSparkline};
    ghost use Rattle.widget_sparkline.specs.Sparklines.{IsShortSparkline};

    ghost renders = { RendersSparkline };

    ghost leaves = { LeavesSparkline };

    ghost is_short = { λ sparkline _. IsShortSparkline sparkline };

    fn render(self, area: Rect, buf: &mut Buffer) -> Result<(), AllocError> {
        (&self).render(area, buf)
    }
}
