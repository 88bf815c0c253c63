//! The labels, the axes and the titles of a chart.

ghost use Rattle.std.specs.Prelude.{◌≡◌, ◌≤◌, ◌<◌, ◌+◌, ◌-◌, ◌*◌, ◌/◌, length, max, IfSome};
ghost use Rattle.rtui_drawing.specs.Drawings.{IsDone};
ghost use Rattle.widget_chart.specs.Charts.{axis_labels};
ghost use Rattle.widget_chart.specs.ChartParts.{label_share, first_place, label_place, x_label, y_label};
ghost use Rattle.widget_chart.specs.ChartParts.{label_at, each_numbered, x_labels, y_labels, ruled, rules, axes};
ghost use Rattle.widget_chart.specs.ChartParts.{axis_title, x_title, y_title};

use crate::axis::Axis;
use crate::layout::{Margins, columns_of, title_columns};
use ratatui_core::buffer::{Buffer, Cell, CellChange};
use ratatui_core::layout::{HorizontalAlignment, Position, Rect};
use ratatui_core::style::Style;
use ratatui_core::symbols::line;
use ratatui_core::text::Line;
use rtui_drawing::{Cut, put_change, put_line, put_style};
use std::alloc::{AllocError, Global};

impl<'a> Axis<'a> {
    // How many columns of the dots each label below has.
    fn label_share(&self, left: u16, width: u16) -> u16
        requires { 0 < length (axis_labels self.now) }
        ensures { result ≡ label_share self.now left width }
    {
        (usize::from(width.saturating_sub(left)) / self.lines().len()) as u16
    }

    // In which column of a row label i below begins, which takes so many columns, and how many it
    // has.
    fn label_place(&self, i: usize, columns: u16, left: u16, width: u16) -> (u16, u16)
        requires one { i < length (axis_labels self.now) }
        requires some { left < width }
        ensures start { let place = label_place self.now left width i columns in
            result.0 ≡ place.0 }
        ensures columns { let place = label_place self.now left width i columns in
            result.1 ≡ place.1 }
    {
        let (n, share) = (self.lines().len(), self.label_share(left, width));
        if i == 0 {
            return first_place(self.labels_alignment, left, share, columns);
        }
        if i + 1 == n {
            return (width - share, share);
        }
        (left + columns_before(i, share) + 1, share.saturating_sub(1))
    }

    // Puts label i below in its columns of a row.
    #[tactic(auto, using(crate::proofs::PlotLemmas::chart_steps))]
    fn put_x_label(
        &self,
        i: usize,
        label: &Line<'a>,
        left: u16,
        row: Rect,
        buf: &mut Buffer,
    ) -> Result<(), AllocError>
        requires one { i < length (axis_labels self.now) }
        requires some { left < row.width }
        ensures { let d = x_label self.now left row.width i label.now in
            IsDone d row result buf.old buf.new }
    {
        let (start, columns) = self.label_place(i, columns_of(label), left, row.width);
        put_line(
            label,
            Cut::First(columns).of(Cut::After(start).of(row)),
            buf,
        )
    }

    // Puts the labels below, if there are at least two, in the row for them.
    #[tactic(auto, using(crate::proofs::PlotLemmas::chart_steps))]
    fn put_x_labels(&self, margins: Margins, area: Rect, buf: &mut Buffer) -> Result<(), AllocError>
        requires { margins.left < area.width }
        ensures { IsDone (x_labels self.now margins area) area result buf.old buf.new }
    {
        if self.lines().len() < 2 {
            return Ok(());
        }
        let rows = margins.below.saturating_sub(margins.rows);
        let row = Cut::Rows(area.height.saturating_sub(rows), rows).of(area);
        self.put_all(Some(margins.left), row, buf)
    }

    // How far over the last row of so many the label of this number stands.
    fn rows_above(&self, i: usize, height: u16) -> u16
        requires { i < length (axis_labels self.now) }
        ensures { let n = length (axis_labels self.now) in
            result ≡ i * (height - 1) / max (n - 1) 1 }
    {
        let between = self.lines().len().saturating_sub(1).max(1) as u128;
        (i as u128 * u128::from(height.saturating_sub(1)) / between) as u16
    }

    // Puts label i at the left in its row.
    #[tactic(auto, using(crate::proofs::PlotLemmas::chart_steps))]
    fn put_y_label(
        &self,
        i: usize,
        label: &Line<'a>,
        area: Rect,
        buf: &mut Buffer,
    ) -> Result<(), AllocError>
        requires { i < length (axis_labels self.now) }
        ensures { IsDone (y_label self.now area.height i label.now) area result buf.old buf.new }
    {
        let above = self.rows_above(i, area.height);
        let row = area.height.saturating_sub(1).saturating_sub(above);
        put_line(label, Cut::Rows(row, 1).of(area), buf)
    }

    // Puts label i in its place in an area: below the dots, so many columns left of them, or at
    // the left.
    fn put_label(
        &self,
        left: Option<u16>,
        i: usize,
        label: &Line<'a>,
        area: Rect,
        buf: &mut Buffer,
    ) -> Result<(), AllocError>
        requires one { i < length (axis_labels self.now) }
        requires some { IfSome left (λ n. n < area.width) }
        ensures { IsDone (label_at self.now left area i label.now) area result buf.old buf.new }
    {
        match left {
            Some(left) => self.put_x_label(i, label, left, area, buf),
            None => self.put_y_label(i, label, area, buf),
        }
    }

    // Puts all labels in their places in an area.
    fn put_all(&self, left: Option<u16>, area: Rect, buf: &mut Buffer) -> Result<(), AllocError>
        requires { IfSome left (λ n. n < area.width) }
        ensures { let d = each_numbered (label_at self.now left area) 0 (axis_labels self.now) in
            IsDone d area result buf.old buf.new }
    {
        for (i, label) in self.lines().iter().enumerate() {
            self.put_label(left, i, label, area, buf)?;
        }
        Ok(())
    }

    // Puts the labels at the left in the columns for them.
    #[tactic(auto, using(crate::proofs::PlotLemmas::chart_steps))]
    fn put_y_labels(&self, margins: Margins, area: Rect, buf: &mut Buffer) -> Result<(), AllocError>
        ensures { IsDone (y_labels self.now margins area) area result buf.old buf.new }
    {
        let columns = Cut::First(margins.left.saturating_sub(1)).of(area);
        self.put_all(None, Cut::Above(margins.below).of(columns), buf)
    }
}

// In which column the first label below begins, and how many it has.
fn first_place(alignment: HorizontalAlignment, left: u16, w: u16, n: u16) -> (u16, u16)
    requires { left + w ≤ 65535 }
    ensures start { result.0 ≡ (first_place alignment left w n).0 }
    ensures columns { result.1 ≡ (first_place alignment left w n).1 }
{
    match alignment {
        HorizontalAlignment::Left => (0, left),
        HorizontalAlignment::Center => (0, left + w.min(n)),
        HorizontalAlignment::Right => (left.saturating_sub(1), w + left.min(1)),
    }
}

// How far right of the dots' first column the label of this number begins, of so many columns each.
fn columns_before(index: usize, width: u16) -> u16
    requires { index * width ≤ 65535 }
    ensures { result ≡ index * width }
{
    (index * usize::from(width)) as u16
}

// The cells of an axis.
#[derive(Drop)]
struct Ruling {
    symbol: &'static str,
    style: Style,
}

impl CellChange for Ruling {
    ghost use Rattle.ratatui_core.specs.Buffer.{IsShort};
    ghost use Rattle.widget_chart.specs.ChartParts.{ruled_cell};

    ghost made = { λ f. ruled_cell f.style f.symbol.now };

    ghost is_light = { λ f _ _. IsShort f.symbol.now };

    fn change(&self, alloc: Global, _: Position, cell: &mut Cell) -> Result<(), AllocError> {
        cell.put(alloc, self.symbol, self.style)
    }
}

// Rules an area: this symbol in each cell.
pub(crate) fn rule(
    symbol: &'static str,
    style: Style,
    area: Rect,
    buf: &mut Buffer,
) -> Result<(), AllocError>
    ensures { IsDone (ruled style symbol.now) area result buf.old buf.new }
{
    put_change(&Ruling { symbol, style }, area, buf)
}

// Rules the axes and the corner between them.
#[tactic(auto, using(crate::proofs::PlotLemmas::chart_steps))]
fn put_rules(
    x: Style,
    y: Style,
    margins: Margins,
    area: Rect,
    buf: &mut Buffer,
) -> Result<(), AllocError>
    ensures { IsDone (rules x y margins area) area result buf.old buf.new }
{
    let rows = Cut::Rows(area.height.saturating_sub(margins.below), margins.rows);
    let left = margins.left.saturating_sub(margins.columns);
    let beside = Cut::First(margins.columns).of(Cut::After(left).of(area));
    rule(
        line::HORIZONTAL,
        x,
        rows.of(Cut::After(margins.left).of(area)),
        buf,
    )?;
    rule(line::VERTICAL, y, Cut::Above(margins.below).of(beside), buf)?;
    rule(line::BOTTOM_LEFT, x, rows.of(beside), buf)
}

// Draws the labels and the axes around the dots.
#[tactic(auto, using(crate::proofs::PlotLemmas::chart_steps))]
pub(crate) fn draw_axes(
    x: &Axis<'_>,
    y: &Axis<'_>,
    margins: Margins,
    area: Rect,
    buf: &mut Buffer,
) -> Result<(), AllocError>
    requires { margins.left < area.width }
    ensures { IsDone (axes x.now y.now margins area) area result buf.old buf.new }
{
    x.put_x_labels(margins, area, buf)?;
    y.put_y_labels(margins, area, buf)?;
    put_rules(x.style, y.style, margins, area, buf)
}

// Puts the title of an axis over a style, if there is one.
#[tactic(auto, using(crate::proofs::PlotLemmas::chart_steps))]
fn put_title(
    title: &Option<Line<'_>>,
    style: Style,
    area: Rect,
    buf: &mut Buffer,
) -> Result<(), AllocError>
    ensures { IsDone (axis_title style title.now) area result buf.old buf.new }
{
    match title {
        Some(line) => {
            put_style(style, area, buf);
            put_line(line, area, buf)
        }
        None => Ok(()),
    }
}

// Puts the title of the axis below over the dots.
#[tactic(auto, using(crate::proofs::PlotLemmas::chart_steps))]
pub(crate) fn put_x_title(
    title: &Option<Line<'_>>,
    style: Style,
    graph: Rect,
    buf: &mut Buffer,
) -> Result<(), AllocError>
    ensures { IsDone (x_title style title.now graph) graph result buf.old buf.new }
{
    let row = Cut::Rows(graph.height.saturating_sub(1), 1).of(graph);
    put_title(
        title,
        style,
        Cut::Last(title_columns(title, 0, graph)).of(row),
        buf,
    )
}

// Puts the title of the axis at the left over the dots.
#[tactic(auto, using(crate::proofs::PlotLemmas::chart_steps))]
pub(crate) fn put_y_title(
    title: &Option<Line<'_>>,
    style: Style,
    graph: Rect,
    buf: &mut Buffer,
) -> Result<(), AllocError>
    ensures { IsDone (y_title style title.now graph) graph result buf.old buf.new }
{
    let row = Cut::Rows(0, 1).of(graph);
    put_title(
        title,
        style,
        Cut::First(title_columns(title, 1, graph)).of(row),
        buf,
    )
}
