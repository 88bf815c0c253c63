//! The parts of a bar chart.

ghost use Rattle.std.specs.Prelude.{◌≡◌, ◌≤◌, ◌<◌, ◌+◌, ◌*◌, length, true, IfOk};
ghost use Rattle.std.specs.List.{list_any};
ghost use Rattle.ratatui_core.specs.Buffer.{text_columns};
ghost use Rattle.ratatui_core.specs.Style.{patch};
ghost use Rattle.ratatui_core.specs.declared.layout.Direction.TheVariants.{Horizontal, Vertical};
ghost use Rattle.widget_boxes.specs.Titles.{title_width};
ghost use Rattle.rtui_drawing.specs.Drawings.{IsDone, IsRowIn, IsPartOf, draw_if};
ghost use Rattle.widget_bars.specs.BarAreas.{cells_along};
ghost use Rattle.widget_bars.specs.BarCharts.{greatest_of_chart, label_columns, has_label, has_labelled_bar};
ghost use Rattle.widget_bars.specs.BarCharts.{has_bar_labels, bar_label_rows, has_group_labels};
ghost use Rattle.widget_bars.specs.BarCharts.{group_label_rows, bar_rows, text_of_bar, is_written, chart_eighths};
ghost use Rattle.widget_bars.specs.BarCharts.{styled_line, bar_label, middle_text, tall_cells, tall_label};
ghost use Rattle.widget_bars.specs.BarCharts.{tall_value, tall_bar, bar_in, bars_from, after_bars};
ghost use Rattle.widget_bars.specs.BarCharts.{fitting_count, shown_bars, bars_columns, label_indent};
ghost use Rattle.widget_bars.specs.BarCharts.{group_label, label_of, group_drawing, groups_from};
ghost use Rattle.widget_bars.specs.BarCharts.{chart_cell, filled_by};
ghost use Rattle.widget_bars.specs.Inner.{measures_of, cells_across, BarsFit};

use crate::area::{bar_cut, behind_cut, beside_labels, cells_along};
use crate::chart::{BarChart, Measures};
use crate::group::{Bar, BarGroup};
use itoa::Buffer as Digits;
use ratatui_core::buffer::Buffer;
use ratatui_core::layout::{Direction, HorizontalAlignment, Rect};
use ratatui_core::style::Style;
use ratatui_core::symbols::bar;
use ratatui_core::text::{Line, text_columns};
use rtui_drawing::{Cut, put_line, put_style, write};
use std::alloc::AllocError;
use widget_sparkline::fill::{fill_levels, lay_style};
use widget_sparkline::level::eighths_of;

// How many columns a line takes, at most 65535.
pub(crate) fn columns_of(line: &Line<'_>) -> u16
    ensures { result ≡ title_width line.now }
{
    line.width().min(65535) as u16
}

// Fills the cells of an area, as those of a bar that is so many eighths of a cell high.
fn fill_bar(
    set: &bar::Set<'_>,
    style: Style,
    eighths: u128,
    area: Rect,
    buf: &mut Buffer,
) -> Result<(), AllocError>
    ensures { let f = chart_cell set.now area style eighths in
        IsDone (filled_by set.now f) area result buf.old buf.new }
{
    lay_style(style, area, buf);
    fill_levels(set, eighths, area, buf)
}

// Lays a style over an area and puts a line there.
#[tactic(auto, using(rtui_drawing::proofs::DrawingLemmas::drawing_steps))]
fn put_styled(line: &Line<'_>, style: Style, area: Rect, buf: &mut Buffer) -> Result<(), AllocError>
    ensures { IsDone (styled_line style line.now) area result buf.old buf.new }
{
    put_style(style, area, buf);
    put_line(line, area, buf)
}

// Whether some bar of a group has a label.
fn has_labelled_bar(group: &BarGroup<'_>) -> bool
    ensures { result ≡ has_labelled_bar group.now }
{
    group.bars.as_slice().iter().any(|bar| bar.label.is_some())
}

// Writes a text in the middle of a row.
fn write_text(text: &str, style: Style, row: Rect, buf: &mut Buffer) -> Result<(), AllocError>
    requires { IsRowIn buf.old.area row }
    ensures { IsDone (middle_text style text.now row.width) row result buf.old buf.new }
{
    let columns = text_columns(text).min(65535) as u16;
    write(text, style, Cut::Middle(columns).of(row), buf)?;
    Ok(())
}

// How far from the left a label stands in so many columns.
fn label_indent(alignment: Option<HorizontalAlignment>, width: u16, columns: u16) -> u16
    ensures { result ≡ label_indent alignment width columns }
{
    let left = width.saturating_sub(columns);
    match alignment {
        None | Some(HorizontalAlignment::Left) => 0,
        Some(HorizontalAlignment::Center) => left / 2,
        Some(HorizontalAlignment::Right) => left,
    }
}

impl<'a> BarChart<'a> {
    // Whether some bar has a label.
    fn has_labelled_group(&self) -> bool
        ensures { result ≡ list_any has_labelled_bar self.now.groups.items }
    {
        let groups = self.groups.as_slice();
        groups.iter().any(|group| has_labelled_bar(group))
    }

    // Whether some group has a label.
    fn has_group_label(&self) -> bool
        ensures { result ≡ list_any has_label self.now.groups.items }
    {
        let groups = self.groups.as_slice();
        groups.iter().any(|group| group.label.is_some())
    }

    // Whether bars have labels under them in so many rows.
    fn has_bar_labels(&self, height: u16) -> bool
        ensures value { result ≡ has_bar_labels self.now height }
        ensures deep { result ≡ true → 1 < height }
    {
        height > 1 && self.has_labelled_group()
    }

    // How many rows the labels of bars take, of so many.
    fn bar_label_rows(&self, height: u16) -> u16
        requires { 0 < height }
        ensures value { result ≡ bar_label_rows self.now height }
        ensures below { result < height }
    {
        if self.has_bar_labels(height) { 1 } else { 0 }
    }

    // Whether groups have labels under them in so many rows.
    fn has_group_labels(&self, height: u16) -> bool
        requires { 0 < height }
        ensures value { result ≡ has_group_labels self.now height }
        ensures deep { result ≡ true → 1 + bar_label_rows self.now height < height }
    {
        height - self.bar_label_rows(height) > 1 && self.has_group_label()
    }

    // How many rows the labels of groups take, of so many.
    fn group_label_rows(&self, height: u16) -> u16
        requires { 0 < height }
        ensures value { result ≡ group_label_rows self.now height }
        ensures below { bar_label_rows self.now height + result < height }
    {
        let _rows = self.bar_label_rows(height);
        if self.has_group_labels(height) { 1 } else { 0 }
    }

    // How many rows the bars themselves take, of so many.
    fn bar_rows(&self, height: u16) -> u16
        requires { 0 < height }
        ensures value { result ≡ bar_rows self.now height }
        ensures some { 0 < result }
        ensures within { result ≤ height }
    {
        height - self.bar_label_rows(height) - self.group_label_rows(height)
    }

    // Puts the label of a bar in the middle of a row, if it has one.
    #[tactic(auto, using(rtui_drawing::proofs::DrawingLemmas::drawing_steps))]
    fn put_bar_label(
        &self,
        label: &Option<Line<'a>>,
        row: Rect,
        buf: &mut Buffer,
    ) -> Result<(), AllocError>
        ensures { let d = bar_label self.now.label_style label.now in
            IsDone d row result buf.old buf.new }
    {
        match label {
            Some(line) => {
                let part = Cut::Middle(columns_of(line)).of(row);
                put_styled(line, self.label_style, part, buf)
            }
            None => Ok(()),
        }
    }

    // Writes a text on a bar in the middle of a row, if there is room for it.
    #[tactic(auto, using(rtui_drawing::proofs::DrawingLemmas::drawing_choices))]
    fn write_value(
        &self,
        bar: &Bar<'a>,
        text: &str,
        eighths: u128,
        row: Rect,
        buf: &mut Buffer,
    ) -> Result<(), AllocError>
        requires { IsRowIn buf.old.area row }
        ensures { let written = is_written bar.now.value (text_columns text.now) row.width eighths in
            let style = patch self.now.value_style bar.now.value_style in
            let d = draw_if written (middle_text style text.now row.width) in
            IsDone d row result buf.old buf.new }
    {
        if !is_written(bar.value, text_columns(text), row.width, eighths) {
            return Ok(());
        }
        write_text(text, self.value_style.patch(bar.value_style), row, buf)
    }

    // Writes the value of a bar in the middle of a row, if there is room for it.
    fn write_text_of(
        &self,
        bar: &Bar<'a>,
        eighths: u128,
        row: Rect,
        buf: &mut Buffer,
    ) -> Result<(), AllocError>
        requires { IsRowIn buf.old.area row }
        ensures { let text = text_of_bar bar.now.value bar.now.text_value in
            let written = is_written bar.now.value (text_columns text) row.width eighths in
            let style = patch self.now.value_style bar.now.value_style in
            let d = draw_if written (middle_text style text row.width) in
            IsDone d row result buf.old buf.new }
    {
        match bar.text_value {
            Some(text) => self.write_value(bar, text, eighths, row, buf),
            None => {
                let mut digits = Digits::new();
                self.write_value(bar, digits.format(bar.value), eighths, row, buf)
            }
        }
    }

    // Fills the cells of a vertical bar, in the first rows of an area.
    #[tactic(auto, using(crate::proofs::ChartLemmas::bar_steps))]
    fn fill_tall_bar(
        &self,
        bar: &Bar<'a>,
        rows: u16,
        eighths: u128,
        area: Rect,
        buf: &mut Buffer,
    ) -> Result<(), AllocError>
        requires rows { rows ≡ bar_rows self.now area.height }
        requires eighths { eighths ≡ chart_eighths self.now bar.now area.height }
        ensures { IsDone (tall_cells self.now bar.now area) area result buf.old buf.new }
    {
        let part = Cut::Rows(0, rows).of(area);
        let style = self.bar_style.patch(bar.style);
        fill_bar(&self.bar_set, style, eighths, part, buf)
    }

    // Puts the label of a vertical bar under it, if there is a row for it.
    #[tactic(auto, using(crate::proofs::ChartLemmas::bar_steps))]
    fn put_tall_label(&self, bar: &Bar<'a>, area: Rect, buf: &mut Buffer) -> Result<(), AllocError>
        requires { 0 < area.height }
        ensures { IsDone (tall_label self.now bar.now area) area result buf.old buf.new }
    {
        if !self.has_bar_labels(area.height) {
            return Ok(());
        }
        let below = area.height - 1 - self.group_label_rows(area.height);
        self.put_bar_label(&bar.label, Cut::Rows(below, 1).of(area), buf)
    }

    // Writes the value of a vertical bar in its last row, if there is room for it.
    #[tactic(auto, using(crate::proofs::ChartLemmas::bar_steps))]
    fn write_tall_value(
        &self,
        bar: &Bar<'a>,
        rows: u16,
        eighths: u128,
        area: Rect,
        buf: &mut Buffer,
    ) -> Result<(), AllocError>
        requires rows { rows ≡ bar_rows self.now area.height }
        requires some { 0 < rows }
        requires within { rows ≤ area.height }
        requires eighths { eighths ≡ chart_eighths self.now bar.now area.height }
        requires columns { 0 < area.width }
        requires part { IsPartOf buf.old.area area }
        ensures { IsDone (tall_value self.now bar.now area) area result buf.old buf.new }
    {
        self.write_text_of(bar, eighths, Cut::Rows(rows - 1, 1).of(area), buf)
    }

    // Draws a vertical bar in its columns of an area.
    #[tactic(auto, using(rtui_drawing::proofs::DrawingLemmas::drawing_steps))]
    fn draw_tall_bar(
        &self,
        bar: &Bar<'a>,
        greatest: u64,
        area: Rect,
        buf: &mut Buffer,
    ) -> Result<(), AllocError>
        requires greatest { greatest ≡ greatest_of_chart self.now }
        requires columns { 0 < area.width }
        requires rows { 0 < area.height }
        requires part { IsPartOf buf.old.area area }
        ensures { IsDone (tall_bar self.now bar.now area) area result buf.old buf.new }
    {
        let rows = self.bar_rows(area.height);
        let eighths = eighths_of(bar.value, greatest, rows);
        self.fill_tall_bar(bar, rows, eighths, area, buf)?;
        self.put_tall_label(bar, area, buf)?;
        self.write_tall_value(bar, rows, eighths, area, buf)
    }

    // Draws a bar in its part of an area.
    fn draw_bar(
        &self,
        bar: &Bar<'a>,
        measures: Measures,
        area: Rect,
        buf: &mut Buffer,
    ) -> Result<(), AllocError>
        requires measures { measures ≡ measures_of self.now }
        requires cells { (0 < area.width) × (0 < area.height) }
        requires part { IsPartOf buf.old.area area }
        ensures { let d = bar_in self.now.direction self.now bar.now area in
            IsDone d area result buf.old buf.new }
    {
        match self.direction {
            Direction::Vertical => self.draw_tall_bar(bar, measures.greatest, area, buf),
            Direction::Horizontal => self.draw_long_bar(bar, measures, area, buf),
        }
    }

    // Draws bars from the left or the top of an area on, and answers what is left after them.
    fn draw_bars(
        &self,
        bars: &[Bar<'a>],
        measures: Measures,
        area: Rect,
        buf: &mut Buffer,
    ) -> Result<Rect, AllocError>
        requires measures { measures ≡ measures_of self.now }
        requires wide { 0 < self.now.bar_width }
        requires across { 0 < cells_across self.now.direction area }
        requires fit { BarsFit self.now (cells_along self.now.direction area) bars.now }
        requires part { IsPartOf buf.old.area area }
        ensures done { IsDone (bars_from self.now area bars.now) area result buf.old buf.new }
        ensures rest { IfOk result (λ rest. rest ≡ after_bars self.now area bars.now) }
    {
        let own = bar_cut(self.direction, self.bar_width);
        let step = self.bar_width.saturating_add(self.bar_gap);
        let behind = behind_cut(self.direction, step);
        let mut left = area;
        for bar in bars {
            self.draw_bar(bar, measures, own.of(left), buf)?;
            left = behind.of(left);
        }
        Ok(left)
    }

    // How many bars fit into so many cells.
    fn fitting_count(&self, width: u16) -> usize
        requires { 0 < self.now.bar_width }
        ensures value { result ≡ fitting_count self.now width }
        ensures fits { result * (self.now.bar_width + self.now.bar_gap)
            ≤ width + self.now.bar_gap }
    {
        let bar = usize::from(self.bar_width);
        let gap = usize::from(self.bar_gap);
        (usize::from(width) + gap) / (bar + gap)
    }

    // How many columns bars take, without the gap after the last one; at most 65535.
    fn bars_columns(&self, count: usize) -> u16
        requires { count ≤ 131070 }
        ensures { result ≡ bars_columns self.now count }
    {
        let bar = usize::from(self.bar_width);
        let gap = usize::from(self.bar_gap);
        (count * (bar + gap)).saturating_sub(gap).min(65535) as u16
    }

    // Puts the label of a group, aligned in so many columns, if it has one.
    #[tactic(auto, using(rtui_drawing::proofs::DrawingLemmas::drawing_steps))]
    fn put_group_label(
        &self,
        label: &Option<Line<'a>>,
        columns: u16,
        row: Rect,
        buf: &mut Buffer,
    ) -> Result<(), AllocError>
        ensures { let d = group_label self.now.label_style label.now columns in
            IsDone d row result buf.old buf.new }
    {
        match label {
            Some(line) => {
                let width = columns_of(line);
                let indent = label_indent(line.alignment, columns, width);
                let part = Cut::First(width).of(Cut::After(indent).of(row));
                put_styled(line, self.label_style, part, buf)
            }
            None => Ok(()),
        }
    }

    // Puts the label of a group of so many vertical bars, if there are any and a row for it.
    #[tactic(auto, using(crate::proofs::ChartLemmas::bar_steps))]
    fn put_label_below(
        &self,
        group: &BarGroup<'a>,
        count: usize,
        area: Rect,
        buf: &mut Buffer,
    ) -> Result<(), AllocError>
        requires count { count ≤ 131070 }
        requires some { 0 < area.height }
        ensures { let d = label_of Vertical self.now group.now count area in
            IsDone d area result buf.old buf.new }
    {
        if !(self.has_group_labels(area.height) && 0 < count) {
            return Ok(());
        }
        let row = Cut::Rows(area.height - 1, 1).of(area);
        self.put_group_label(&group.label, self.bars_columns(count), row, buf)
    }

    // Puts the label of a group of so many horizontal bars, if there are any and a row for it.
    #[tactic(auto, using(crate::proofs::ChartLemmas::bar_steps))]
    fn put_label_after(
        &self,
        group: &BarGroup<'a>,
        count: usize,
        labels: u16,
        area: Rect,
        buf: &mut Buffer,
    ) -> Result<(), AllocError>
        requires labels { labels ≡ label_columns self.now }
        requires count { count ≤ 131070 }
        ensures { let d = label_of Horizontal self.now group.now count area in
            IsDone d area result buf.old buf.new }
    {
        let behind = self.bars_columns(count);
        if !(0 < self.group_gap && behind < area.height && 0 < count) {
            return Ok(());
        }
        let bars = beside_labels(labels).of(area);
        self.put_group_label(&group.label, bars.width, Cut::Rows(behind, 1).of(bars), buf)
    }

    // Puts the label of a group of so many bars, if there are any and a row for it.
    fn put_label_of(
        &self,
        group: &BarGroup<'a>,
        count: usize,
        labels: u16,
        area: Rect,
        buf: &mut Buffer,
    ) -> Result<(), AllocError>
        requires labels { labels ≡ label_columns self.now }
        requires count { count ≤ 131070 }
        requires across { 0 < cells_across self.now.direction area }
        ensures { let d = label_of self.now.direction self.now group.now count area in
            IsDone d area result buf.old buf.new }
    {
        match self.direction {
            Direction::Vertical => self.put_label_below(group, count, area, buf),
            Direction::Horizontal => self.put_label_after(group, count, labels, area, buf),
        }
    }

    // The bars that a group shows: as many as fit.
    fn shown<'g>(&self, group: &'g BarGroup<'a>, area: Rect) -> &'g [Bar<'a>]
        requires { 0 < self.now.bar_width }
        ensures value { result.now ≡ shown_bars self.now group.now area }
        ensures fit { BarsFit self.now (cells_along self.now.direction area) result.now }
        ensures few { length result.now ≤ 131070 }
    {
        let bars = group.bars.as_slice();
        let along = cells_along(self.direction, area);
        let count = self.fitting_count(along).min(bars.len());
        &bars[..count]
    }

    // Draws a group from the left or the top of an area on, and answers what is left after its bars.
    #[tactic(auto, using(crate::proofs::ChartLemmas::bar_steps))]
    fn draw_group(
        &self,
        group: &BarGroup<'a>,
        measures: Measures,
        area: Rect,
        buf: &mut Buffer,
    ) -> Result<Rect, AllocError>
        requires measures { measures ≡ measures_of self.now }
        requires wide { 0 < self.now.bar_width }
        requires across { 0 < cells_across self.now.direction area }
        requires part { IsPartOf buf.old.area area }
        ensures done { IsDone (group_drawing self.now group.now area) area result buf.old buf.new }
        ensures rest { let bars = shown_bars self.now group.now area in
            IfOk result (λ rest. rest ≡ after_bars self.now area bars) }
    {
        let bars = self.shown(group, area);
        let rest = self.draw_bars(bars, measures, area, buf)?;
        self.put_label_of(group, bars.len(), measures.labels, area, buf)?;
        Ok(rest)
    }

    // Draws the groups from the left or the top of an area on.
    pub(crate) fn draw_groups(
        &self,
        measures: Measures,
        area: Rect,
        buf: &mut Buffer,
    ) -> Result<(), AllocError>
        requires measures { measures ≡ measures_of self.now }
        requires wide { 0 < self.now.bar_width }
        requires across { 0 < cells_across self.now.direction area }
        requires part { IsPartOf buf.old.area area }
        ensures { let d = groups_from self.now area self.now.groups.items in
            IsDone d area result buf.old buf.new }
    {
        let gap = behind_cut(self.direction, self.group_gap);
        let mut left = area;
        for group in self.groups.as_slice() {
            let rest = self.draw_group(group, measures, left, buf)?;
            left = gap.of(rest);
        }
        Ok(())
    }
}

// Whether the text of a value, of so many columns, is written on a bar.
fn is_written(value: u64, columns: usize, width: u16, eighths: u128) -> bool
    ensures { result ≡ is_written value columns width eighths }
{
    let width = usize::from(width);
    value != 0 && (columns < width || (columns == width && eighths >= 8))
}
