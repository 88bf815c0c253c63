//! Horizontal bars.

ghost use Rattle.std.specs.Prelude.{◌≡◌, ◌<◌, nat_lt};
ghost use Rattle.ratatui_core.specs.Style.{patch};
ghost use Rattle.rtui_drawing.specs.Drawings.{IsDone, IsRowIn, IsPartOf, draw_if};
ghost use Rattle.widget_bars.specs.BarCharts.{filled_cells, text_of_bar, line_if, value_over, long_filled};
ghost use Rattle.widget_bars.specs.BarCharts.{label_columns, long_cells, long_label, long_value, long_bar};
ghost use Rattle.widget_bars.specs.Inner.{measures_of};

use crate::area::beside_labels;
use crate::chart::{BarChart, Measures};
use crate::group::Bar;
use itoa::Buffer as Digits;
use ratatui_core::buffer::{Buffer, Cell, CellChange};
use ratatui_core::layout::{Position, Rect};
use ratatui_core::style::Style;
use ratatui_core::symbols::bar;
use ratatui_core::text::{Line, text_columns};
use rtui_drawing::{Cut, put_change, put_line, put_style, write};
use std::alloc::{AllocError, Global};

// The cells of a horizontal bar that fills so many of them.
#[derive(Drop)]
struct LongFilling<'b, 'a> {
    set: &'b bar::Set<'a>,
    area: Rect,
    style: Style,
    filled: u16,
}

impl<'b, 'a> CellChange for LongFilling<'b, 'a> {
    ghost use Rattle.widget_bars.specs.BarCharts.{long_cell, HasShortBars};

    ghost made = { λ f. long_cell f.set.now f.area f.style f.filled };

    ghost is_light = { λ f _ _. HasShortBars f.set.now };

    #[tactic(auto, using(crate::proofs::ChartLemmas::short_bars))]
    fn change(&self, alloc: Global, position: Position, cell: &mut Cell) -> Result<(), AllocError> {
        let is_full = position.x.saturating_sub(self.area.x) < self.filled;
        let symbol = if is_full {
            self.set.full
        } else {
            self.set.empty
        };
        cell.put(alloc, symbol, self.style)
    }
}

// How many cells a bar fills, if the greatest value fills so many.
fn filled_cells(value: u64, greatest: u64, width: u16) -> u16
    requires { 0 < greatest }
    ensures { result ≡ filled_cells value greatest width }
{
    let share = u128::from(value) * u128::from(width) / u128::from(greatest);
    share.min(u128::from(width)) as u16
}

// Writes a text from the left of a row on, and lays a style over its columns among the first ones.
fn write_over(
    text: &str,
    style: Style,
    count: u16,
    row: Rect,
    buf: &mut Buffer,
) -> Result<(), AllocError>
    requires { IsRowIn buf.old.area row }
    ensures { IsDone (value_over style text.now count row.width) row result buf.old buf.new }
{
    write(text, Style::new(), row, buf)?;
    let columns = text_columns(text).min(usize::from(count)) as u16;
    put_style(style, Cut::First(columns).of(row), buf);
    Ok(())
}

// Puts a line over an area, if there is one.
#[tactic(auto, using(rtui_drawing::proofs::DrawingLemmas::drawing_steps))]
fn put_if(line: &Option<Line<'_>>, area: Rect, buf: &mut Buffer) -> Result<(), AllocError>
    ensures { IsDone (line_if line.now) area result buf.old buf.new }
{
    match line {
        Some(line) => put_line(line, area, buf),
        None => Ok(()),
    }
}

impl<'a> BarChart<'a> {
    // Fills the cells of a bar, right of the labels.
    #[tactic(auto, using(crate::proofs::ChartLemmas::bar_steps))]
    fn fill_long_bar(
        &self,
        bar: &Bar<'a>,
        filled: u16,
        labels: u16,
        area: Rect,
        buf: &mut Buffer,
    ) -> Result<(), AllocError>
        requires labels { labels ≡ label_columns self.now }
        requires filled { filled ≡ long_filled self.now bar.now area }
        ensures { IsDone (long_cells self.now bar.now area) area result buf.old buf.new }
    {
        let part = beside_labels(labels).of(area);
        let filling = LongFilling {
            set: &self.bar_set,
            area: part,
            style: self.bar_style.patch(bar.style),
            filled,
        };
        put_change(&filling, part, buf)
    }

    // Puts the label of a bar in the middle row, if it has one.
    #[tactic(auto, using(crate::proofs::ChartLemmas::bar_steps))]
    fn put_long_label(
        &self,
        bar: &Bar<'a>,
        labels: u16,
        area: Rect,
        buf: &mut Buffer,
    ) -> Result<(), AllocError>
        requires { labels ≡ label_columns self.now }
        ensures { IsDone (long_label self.now bar.now area) area result buf.old buf.new }
    {
        let row = Cut::Rows(area.height / 2, 1).of(Cut::First(labels).of(area));
        put_if(&bar.label, row, buf)
    }

    // Writes the value of a bar from the left of a row on.
    fn write_text_over(
        &self,
        bar: &Bar<'a>,
        filled: u16,
        row: Rect,
        buf: &mut Buffer,
    ) -> Result<(), AllocError>
        requires { IsRowIn buf.old.area row }
        ensures { let style = patch self.now.value_style bar.now.value_style in
            let text = text_of_bar bar.now.value bar.now.text_value in
            IsDone (value_over style text filled row.width) row result buf.old buf.new }
    {
        let style = self.value_style.patch(bar.value_style);
        match bar.text_value {
            Some(text) => write_over(text, style, filled, row, buf),
            None => {
                let mut digits = Digits::new();
                write_over(digits.format(bar.value), style, filled, row, buf)
            }
        }
    }

    // Writes the value of a bar from the left of a row on, if the row has columns.
    #[tactic(auto, using(crate::proofs::ChartLemmas::bar_steps))]
    fn write_long_text(
        &self,
        bar: &Bar<'a>,
        filled: u16,
        row: Rect,
        buf: &mut Buffer,
    ) -> Result<(), AllocError>
        requires rows { 0 < row.height }
        requires part { IsPartOf buf.old.area row }
        ensures { let style = patch self.now.value_style bar.now.value_style in
            let text = text_of_bar bar.now.value bar.now.text_value in
            let d = draw_if (nat_lt 0 row.width) (value_over style text filled row.width) in
            IsDone d row result buf.old buf.new }
    {
        if row.width == 0 {
            return Ok(());
        }
        self.write_text_over(bar, filled, row, buf)
    }

    // Writes the value of a bar in the middle row, right of the labels.
    #[tactic(auto, using(crate::proofs::ChartLemmas::bar_steps))]
    fn write_long_value(
        &self,
        bar: &Bar<'a>,
        filled: u16,
        labels: u16,
        area: Rect,
        buf: &mut Buffer,
    ) -> Result<(), AllocError>
        requires labels { labels ≡ label_columns self.now }
        requires filled { filled ≡ long_filled self.now bar.now area }
        requires rows { 0 < area.height }
        requires part { IsPartOf buf.old.area area }
        ensures { IsDone (long_value self.now bar.now area) area result buf.old buf.new }
    {
        let row = Cut::Rows(area.height / 2, 1).of(beside_labels(labels).of(area));
        self.write_long_text(bar, filled, row, buf)
    }

    // Draws a horizontal bar in its rows of an area, its label and its value in the middle one.
    #[tactic(auto, using(rtui_drawing::proofs::DrawingLemmas::drawing_steps))]
    pub(crate) fn draw_long_bar(
        &self,
        bar: &Bar<'a>,
        measures: Measures,
        area: Rect,
        buf: &mut Buffer,
    ) -> Result<(), AllocError>
        requires measures { measures ≡ measures_of self.now }
        requires rows { 0 < area.height }
        requires part { IsPartOf buf.old.area area }
        ensures { IsDone (long_bar self.now bar.now area) area result buf.old buf.new }
    {
        let labels = measures.labels;
        let width = beside_labels(labels).of(area).width;
        let filled = filled_cells(bar.value, measures.greatest, width);
        self.fill_long_bar(bar, filled, labels, area, buf)?;
        self.put_long_label(bar, labels, area, buf)?;
        self.write_long_value(bar, filled, labels, area, buf)
    }
}
