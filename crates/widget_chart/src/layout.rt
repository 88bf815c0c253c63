//! How many columns and rows the parts of a chart take.

ghost use Rattle.std.specs.Prelude.{◌≡◌, ◌≤◌, ◌<◌, ◌+◌, ◌*◌};
ghost use Rattle.widget_boxes.specs.Titles.{title_width};
ghost use Rattle.widget_chart.specs.ChartLayouts.{is_labelled, widest_line, first_width, left_of_axis};
ghost use Rattle.widget_chart.specs.ChartLayouts.{columns_beside, axis_columns, axis_rows, label_rows};
ghost use Rattle.widget_chart.specs.ChartLayouts.{margins_of, graph_in, title_columns};

use crate::axis::Axis;
use ratatui_core::layout::{HorizontalAlignment, Rect};
use ratatui_core::text::Line;
use rtui_drawing::Cut;

// What a chart has around its dots: the columns of the axis at the left, all columns there, the rows
// of the axis below, and all rows there.
#[derive(Debug, Clone, Copy)]
pub(crate) struct Margins {
    pub(crate) columns: u16,
    pub(crate) left: u16,
    pub(crate) rows: u16,
    pub(crate) below: u16,
}

impl Margins {
    // The area of the dots.
    pub(crate) fn graph(self, area: Rect) -> Rect
        ensures { result ≡ graph_in self area }
    {
        Cut::Above(self.below).of(Cut::After(self.left).of(area))
    }
}

// How many columns a line takes, at most 65535.
pub(crate) fn columns_of(line: &Line<'_>) -> u16
    ensures { result ≡ title_width line.now }
{
    line.width().min(65535) as u16
}

// The columns of the widest of some lines.
fn widest_line(lines: &[Line<'_>]) -> u16
    ensures { result ≡ widest_line lines.now }
{
    let mut widest = 0;
    for line in lines {
        widest = columns_of(line).max(widest);
    }
    widest
}

// The columns of the first of some lines.
fn first_width(lines: &[Line<'_>]) -> u16
    ensures { result ≡ first_width lines.now }
{
    match lines.first() {
        Some(line) => columns_of(line),
        None => 0,
    }
}

// How many of a label's columns stand left of the dots, and of the axis there if there is one.
fn left_of_axis(alignment: HorizontalAlignment, has_axis: bool, columns: u16) -> u16
    ensures { result ≡ left_of_axis alignment has_axis columns }
{
    match alignment {
        HorizontalAlignment::Left if has_axis => columns.saturating_sub(1),
        HorizontalAlignment::Left => columns,
        HorizontalAlignment::Center => columns / 2,
        HorizontalAlignment::Right => 0,
    }
}

// The columns of the labels at the left.
fn columns_beside(x: &Axis<'_>, y: &Axis<'_>, width: u16) -> u16
    ensures value { result ≡ columns_beside x.now y.now width }
    ensures third { result * 3 ≤ width }
{
    let first = first_width(x.lines());
    let below = left_of_axis(x.labels_alignment, y.is_labelled(), first);
    widest_line(y.lines()).max(below).min(width / 3)
}

// The columns of a title over the dots, if there is room for it and some columns more.
pub(crate) fn title_columns(title: &Option<Line<'_>>, over: u16, graph: Rect) -> u16
    ensures { result ≡ title_columns title.now over graph }
{
    match title {
        Some(line) => {
            let columns = columns_of(line);
            let has_room = columns.saturating_add(over) < graph.width && 2 < graph.height;
            if has_room { columns } else { 0 }
        }
        None => 0,
    }
}

impl<'a> Axis<'a> {
    // Whether it has labels.
    fn is_labelled(&self) -> bool
        ensures { result ≡ is_labelled self.now }
    {
        0 < self.lines().len()
    }

    // The columns of the axis at the left.
    fn axis_columns(&self, left: u16, width: u16) -> u16
        ensures value { result ≡ axis_columns self.now left width }
        ensures some { left < width → left + result < width }
        ensures one { result ≤ 1 }
    {
        if self.is_labelled() && left.saturating_add(1) < width {
            1
        } else {
            0
        }
    }

    // The rows of the axis below.
    fn axis_rows(&self, height: u16) -> u16
        ensures value { result ≡ axis_rows self.now height }
        ensures one { result ≤ 1 }
    {
        if self.is_labelled() && 2 < height {
            1
        } else {
            0
        }
    }

    // The rows of its labels.
    fn label_rows(&self, height: u16) -> u16
        ensures value { result ≡ label_rows self.now height }
        ensures some { 0 < height → axis_rows self.now height + result < height }
        ensures one { result ≤ 1 }
    {
        if self.is_labelled() && 1 < height {
            1
        } else {
            0
        }
    }
}

// What a chart has around its dots in an area.
pub(crate) fn margins_in(x: &Axis<'_>, y: &Axis<'_>, area: Rect) -> Margins
    ensures value { result ≡ margins_of x.now y.now area }
    ensures across { 0 < area.width → result.left < area.width }
    ensures down { 0 < area.height → result.below < area.height }
{
    let labels = columns_beside(x, y, area.width);
    let columns = y.axis_columns(labels, area.width);
    let rows = x.axis_rows(area.height);
    Margins {
        columns,
        left: labels + columns,
        rows,
        below: rows + x.label_rows(area.height),
    }
}
