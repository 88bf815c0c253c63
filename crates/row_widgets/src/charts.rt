//! The charts of the cases.

use crate::boxes::frame_of;
use crate::canvases::{all_points, marker_of};
use crate::cases::{Case, pair_of};
use crate::looks::{line_of, lines_of, style_of};
use ratatui_core::buffer::Buffer;
use ratatui_core::layout::{Constraint, Rect};
use ratatui_core::widgets::Widget;
use std::alloc::{AllocError, Global};
use widget_chart::{Axis, Chart, Dataset, GraphType, LegendPosition};

// The names of the options of an axis.
struct Names {
    bounds: &'static str,
    title: &'static str,
    labels: &'static str,
    align: &'static str,
    style: &'static str,
}

const X_AXIS: Names = Names {
    bounds: "x",
    title: "xtitle",
    labels: "xlabels",
    align: "xalign",
    style: "xstyle",
};

const Y_AXIS: Names = Names {
    bounds: "y",
    title: "ytitle",
    labels: "ylabels",
    align: "yalign",
    style: "ystyle",
};

// The axis that options of these names say.
fn axis_of<'a>(alloc: Global, case: &Case<'a>, names: &Names) -> Result<Axis<'a>, AllocError> {
    let axis = Axis::new()
        .bounds(case.bounds(names.bounds))
        .labels(lines_of(alloc, case.text(names.labels), ",")?)
        .labels_alignment(case.alignment(names.align))
        .style(case.style(names.style));
    match case.option(names.title) {
        Some(title) => Ok(axis.title(line_of(alloc, title)?)),
        None => Ok(axis),
    }
}

// The data set that a text with these points says.
fn dataset_of<'a>(case: &Case<'_>, text: &str, points: &'a [(i64, i64)]) -> Dataset<'a> {
    let (signs, _) = text.split_once(" ").unwrap_or((text, ""));
    let kind = match case.text("kind") {
        "line" => GraphType::Line,
        "bar" => GraphType::Bar,
        _ => GraphType::Scatter,
    };
    Dataset::new()
        .data(points)
        .graph_type(kind)
        .marker(marker_of(case))
        .style(style_of(signs))
}

// The data sets that texts between bars say, each with its points, and with a name if there is one
// for it.
fn datasets_of<'a>(
    alloc: Global,
    case: &Case<'a>,
    points: &'a [Vec<(i64, i64)>],
) -> Result<Vec<Dataset<'a>>, AllocError> {
    let mut datasets = Vec::new(alloc);
    let mut names = case.text("names").split(",");
    for (text, points) in case.texts.split(" | ").zip(points.iter()) {
        let mut dataset = dataset_of(case, text, points.as_slice());
        let name = line_of(alloc, names.next().unwrap_or(""))?;
        if name.width() > 0 {
            dataset = dataset.name(name);
        }
        datasets.push(dataset)?;
    }
    Ok(datasets)
}

// Where the legend stands, if it does.
fn legend_of(case: &Case<'_>) -> Option<LegendPosition> {
    match case.text("legendat") {
        "none" => None,
        "top" => Some(LegendPosition::Top),
        "topleft" => Some(LegendPosition::TopLeft),
        "left" => Some(LegendPosition::Left),
        "right" => Some(LegendPosition::Right),
        "bottom" => Some(LegendPosition::Bottom),
        "bottomright" => Some(LegendPosition::BottomRight),
        "bottomleft" => Some(LegendPosition::BottomLeft),
        _ => Some(LegendPosition::TopRight),
    }
}

// The chart that a case says, of these points, without its box.
fn chart_of<'a>(
    alloc: Global,
    case: &Case<'a>,
    points: &'a [Vec<(i64, i64)>],
) -> Result<Chart<'a>, AllocError> {
    let datasets = datasets_of(alloc, case, points)?;
    let x = axis_of(alloc, case, &X_AXIS)?;
    let y = axis_of(alloc, case, &Y_AXIS)?;
    let chart = Chart::new(datasets)
        .x_axis(x)
        .y_axis(y)
        .style(case.style("style"))
        .legend_position(legend_of(case));
    let Some((columns, rows)) = pair_of(case.text("legend")) else {
        return Ok(chart);
    };
    let most = |n: i64| Constraint::Length(n.clamp(0, 65535) as u16);
    Ok(chart.hidden_legend_constraints((most(columns), most(rows))))
}

// What a chart borrows: the texts of a case, and its points.
#[derive(Drop)]
struct Owned {
    options: String,
    texts: String,
    points: Vec<Vec<(i64, i64)>>,
}

fn owned_of(alloc: Global, case: &Case<'_>) -> Result<Owned, AllocError> {
    let options = String::from_str(alloc, case.options)?;
    let texts = String::from_str(alloc, case.texts)?;
    let points = all_points(alloc, case.texts)?;
    Ok(Owned {
        options,
        texts,
        points,
    })
}

// Renders the chart that these texts and points say.
fn render_chart(
    alloc: Global,
    owned: &Owned,
    area: Rect,
    buffer: &mut Buffer,
) -> Result<(), AllocError> {
    let case = Case {
        kind: "chart",
        width: 0,
        height: 0,
        options: owned.options.as_str(),
        texts: owned.texts.as_str(),
    };
    let mut chart = chart_of(alloc, &case, owned.points.as_slice())?;
    if let Some(frame) = frame_of(alloc, &case)? {
        chart = chart.block(frame);
    }
    chart.render(area, buffer)
}

/// Renders the chart that a case says.
pub fn chart(
    alloc: Global,
    case: &Case<'_>,
    area: Rect,
    buffer: &mut Buffer,
) -> Result<(), AllocError> {
    render_chart(alloc, &owned_of(alloc, case)?, area, buffer)
}
