//! The legend of a chart.

ghost use Rattle.std.specs.Prelude.{◌≡◌, ◌≤◌, ◌<◌, ◌+◌, ◌*◌, ◌/◌, min, length, [], IfOk};
ghost use Rattle.ratatui_core.specs.Style.{new_style};
ghost use Rattle.rtui_drawing.specs.Drawings.{IsDone};
ghost use Rattle.widget_chart.specs.ChartParts.{ruled};
ghost use Rattle.widget_chart.specs.ChartLayouts.{widest_line};
ghost use Rattle.widget_chart.specs.Legends.{legend_names, room_in, legend_fits, legend_column, legend_row};
ghost use Rattle.widget_chart.specs.Legends.{one_row_if, legend_box, name_if, below_name, names, box_row, box_of};
ghost use Rattle.widget_chart.specs.Legends.{legend_in, legend_at};
ghost use Rattle.widget_chart.specs.Inner.{name_columns, name_count, HasLegendRoom};

use crate::dataset::Dataset;
use crate::layout::columns_of;
use crate::parts::rule;
use ratatui_core::buffer::Buffer;
use ratatui_core::layout::{Constraint, Rect};
use ratatui_core::style::Style;
use ratatui_core::symbols::line;
use ratatui_core::text::Line;
use rtui_drawing::{Cut, put_line, put_style};
use std::alloc::AllocError;

/// Where the legend of a chart stands over the dots. It gives way by a row to a title that it would
/// cover.
#[derive(Debug, Default, Clone, Copy, PartialEq, Eq, Hash)]
pub enum LegendPosition {
    /// In the middle of the first rows.
    Top,
    /// At the right of the first rows.
    #[default]
    TopRight,
    /// At the left of the first rows.
    TopLeft,
    /// At the left, in the middle of the rows.
    Left,
    /// At the right, in the middle of the rows.
    Right,
    /// In the middle of the last rows.
    Bottom,
    /// At the right of the last rows.
    BottomRight,
    /// At the left of the last rows.
    BottomLeft,
}

// The sizes of a legend and of the titles beside it.
#[derive(Debug, Clone, Copy)]
pub(crate) struct LegendSize {
    pub(crate) columns: u16,
    pub(crate) rows: u16,
    pub(crate) x_title: u16,
    pub(crate) y_title: u16,
}

// A share of so many columns or rows, rounded to the nearest whole number.
fn share_of(cells: u16, share: u32, whole: u32) -> u16
    requires { 0 < whole }
    ensures { result ≡ min ((2 * cells * share + whole) / (2 * whole)) cells }
{
    let whole = u64::from(whole);
    let twice = 2 * u64::from(cells) * u64::from(share) + whole;
    (twice / (2 * whole)).min(u64::from(cells)) as u16
}

// How many columns or rows a constraint leaves of so many.
fn room_in(constraint: Constraint, cells: u16) -> u16
    ensures { result ≡ room_in constraint cells }
{
    match constraint {
        Constraint::Min(_) | Constraint::Fill(_) => cells,
        Constraint::Max(n) | Constraint::Length(n) => n.min(cells),
        Constraint::Percentage(n) => share_of(cells, u32::from(n), 100),
        Constraint::Ratio(m, n) => share_of(cells, m, n.max(1)),
    }
}

// A row, if a test holds.
fn one_row_if(test: bool) -> u16
    ensures value { result ≡ one_row_if test }
    ensures one { result ≤ 1 }
{
    if test { 1 } else { 0 }
}

impl LegendPosition {
    // How far from the left a legend of so many columns begins.
    fn column(self, columns: u16, graph: Rect) -> u16
        requires { columns ≤ graph.width }
        ensures { result ≡ legend_column self columns graph.width }
    {
        let left = graph.width - columns;
        match self {
            LegendPosition::TopLeft | LegendPosition::Left | LegendPosition::BottomLeft => 0,
            LegendPosition::Top | LegendPosition::Bottom => left / 2,
            _ => left,
        }
    }

    // How far from the top a legend begins.
    fn row(self, size: LegendSize, graph: Rect) -> u16
        requires within { size.columns ≤ graph.width }
        requires rows { HasLegendRoom size graph }
        ensures { result ≡ legend_row self size.columns size.rows graph size.x_title size.y_title }
    {
        let left = graph.height - size.rows;
        let (above, below) = (size.y_title.min(1), size.x_title.min(1));
        let middle = (graph.width - size.columns) / 2;
        match self {
            LegendPosition::TopLeft => above,
            LegendPosition::TopRight => one_row_if(graph.width - size.columns < size.y_title),
            LegendPosition::Top => one_row_if(middle < size.y_title),
            LegendPosition::Left | LegendPosition::Right => (left / 2 + above).saturating_sub(
                below,
            ),
            LegendPosition::BottomLeft => {
                left.saturating_sub(one_row_if(graph.width - size.columns < size.x_title))
            }
            LegendPosition::BottomRight => left.saturating_sub(below),
            LegendPosition::Bottom => {
                let shown = graph.width.saturating_sub(size.x_title);
                left.saturating_sub(one_row_if(shown < middle + size.columns))
            }
        }
    }
}

// The columns of a name, if there is one.
fn name_columns(name: &Option<Line<'_>>) -> u16
    ensures { result ≡ name_columns name.now }
{
    match name {
        Some(line) => columns_of(line),
        None => 0,
    }
}

// How many names there are: one or none.
fn name_count(name: &Option<Line<'_>>) -> usize
    ensures value { result ≡ name_count name.now }
    ensures one { result ≤ 1 }
{
    match name {
        Some(_) => 1,
        None => 0,
    }
}

// The columns of the widest name.
fn widest_name(datasets: &[Dataset<'_>]) -> u16
    ensures { result ≡ widest_line (legend_names datasets.now) }
{
    let mut widest = 0;
    for dataset in datasets {
        widest = name_columns(&dataset.name).max(widest);
    }
    widest
}

// How many names there are.
fn count_names(datasets: &[Dataset<'_>]) -> usize
    ensures { result ≡ length (legend_names datasets.now) }
{
    let mut count = 0;
    for dataset in datasets {
        count += name_count(&dataset.name);
    }
    count
}

// Whether a legend fits into the area of the dots.
fn legend_fits(
    across: Constraint,
    down: Constraint,
    size: (u32, u64),
    titles: (u16, u16),
    graph: Rect,
) -> bool
    ensures { result ≡ legend_fits across down size.0 size.1 graph titles.0 titles.1 }
{
    let beside = u64::from(titles.0.min(1)) + u64::from(titles.1.min(1));
    size.0 <= u32::from(room_in(across, graph.width))
        && size.1 <= u64::from(room_in(down, graph.height))
        && size.1.saturating_add(beside) <= u64::from(graph.height)
}

// The box of the legend around the names of data sets, counted from the corner of the dots' area,
// without columns if there is none.
pub(crate) fn legend_box(
    position: Option<LegendPosition>,
    constraints: (Constraint, Constraint),
    datasets: &[Dataset<'_>],
    titles: (u16, u16),
    graph: Rect,
) -> Rect
    ensures { let names = legend_names datasets.now in
        result ≡ legend_box position constraints.0 constraints.1 names graph titles.0 titles.1 }
{
    let Some(position) = position else {
        return Rect::default();
    };
    let columns = u32::from(widest_name(datasets)) + 2;
    let rows = (count_names(datasets) as u64).saturating_add(2);
    let (across, down) = constraints;
    if !(2 < columns && legend_fits(across, down, (columns, rows), titles, graph)) {
        return Rect::default();
    }
    let size = LegendSize {
        columns: columns as u16,
        rows: rows as u16,
        x_title: titles.0,
        y_title: titles.1,
    };
    Rect {
        x: position.column(size.columns, graph),
        y: position.row(size, graph),
        width: size.columns,
        height: size.rows,
    }
}

// Puts a name in the first row of an area, if there is one, and answers what is left of the area.
#[tactic(auto, using(crate::proofs::PlotLemmas::chart_steps))]
fn put_name(name: &Option<Line<'_>>, area: Rect, buf: &mut Buffer) -> Result<Rect, AllocError>
    ensures done { IsDone (name_if name.now) area result buf.old buf.new }
    ensures rest { IfOk result (λ rest. rest ≡ below_name name.now area) }
{
    let Some(line) = name else {
        return Ok(area);
    };
    put_line(line, Cut::Rows(0, 1).of(area), buf)?;
    Ok(Cut::Below(1).of(area))
}

// Puts the names of data sets in an area, one in each row.
fn put_names(datasets: &[Dataset<'_>], area: Rect, buf: &mut Buffer) -> Result<(), AllocError>
    ensures { IsDone (names datasets.now) area result buf.old buf.new }
{
    let mut left = area;
    for dataset in datasets {
        left = put_name(&dataset.name, left, buf)?;
    }
    Ok(())
}

// Rules an area of a box: this symbol in each cell.
fn rule_plain(symbol: &'static str, area: Rect, buf: &mut Buffer) -> Result<(), AllocError>
    ensures { IsDone (ruled new_style symbol.now) area result buf.old buf.new }
{
    rule(symbol, Style::new(), area, buf)
}

// Puts a row of a box over an area: a line between these corners.
#[tactic(auto, using(crate::proofs::PlotLemmas::chart_steps))]
fn put_box_row(
    left: &'static str,
    right: &'static str,
    row: Rect,
    buf: &mut Buffer,
) -> Result<(), AllocError>
    ensures { IsDone (box_row left.now right.now) row result buf.old buf.new }
{
    rule_plain(line::HORIZONTAL, row, buf)?;
    rule_plain(left, Cut::First(1).of(row), buf)?;
    rule_plain(right, Cut::Last(1).of(row), buf)
}

// Puts a box over an area.
#[tactic(auto, using(crate::proofs::PlotLemmas::chart_steps))]
fn put_box(area: Rect, buf: &mut Buffer) -> Result<(), AllocError>
    ensures { IsDone (box_of area) area result buf.old buf.new }
{
    let last = area.height.saturating_sub(1);
    rule_plain(line::VERTICAL, Cut::First(1).of(area), buf)?;
    rule_plain(line::VERTICAL, Cut::Last(1).of(area), buf)?;
    put_box_row(
        line::TOP_LEFT,
        line::TOP_RIGHT,
        Cut::Rows(0, 1).of(area),
        buf,
    )?;
    put_box_row(
        line::BOTTOM_LEFT,
        line::BOTTOM_RIGHT,
        Cut::Rows(last, 1).of(area),
        buf,
    )
}

// Draws a legend over an area: a style, a box, and the names.
#[tactic(auto, using(crate::proofs::PlotLemmas::chart_steps))]
fn draw_legend_in(
    datasets: &[Dataset<'_>],
    style: Style,
    area: Rect,
    buf: &mut Buffer,
) -> Result<(), AllocError>
    ensures { IsDone (legend_in style datasets.now area) area result buf.old buf.new }
{
    put_style(style, area, buf);
    put_box(area, buf)?;
    let inside = Cut::BeforeLast(1).of(Cut::After(1).of(Cut::Below(1).of(area)));
    put_names(datasets, inside, buf)
}

// Draws a legend in a box that is counted from an area's corner, if the box has columns.
#[tactic(auto, using(crate::proofs::PlotLemmas::chart_steps))]
pub(crate) fn draw_legend_at(
    datasets: &[Dataset<'_>],
    style: Style,
    at: Rect,
    area: Rect,
    buf: &mut Buffer,
) -> Result<(), AllocError>
    ensures { IsDone (legend_at style datasets.now at area) area result buf.old buf.new }
{
    if at.width == 0 {
        return Ok(());
    }
    let columns = Cut::First(at.width).of(Cut::After(at.x).of(area));
    draw_legend_in(datasets, style, Cut::Rows(at.y, at.height).of(columns), buf)
}
