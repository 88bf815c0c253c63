//! The tabs, sparklines and bar charts of the cases.

use crate::boxes::frame_of;
use crate::cases::Case;
use crate::looks::{line_of, lines_of, span_of, styled_front};
use ratatui_core::buffer::Buffer;
use ratatui_core::layout::{Direction, Rect};
use ratatui_core::symbols::bar;
use ratatui_core::text::Line;
use ratatui_core::widgets::Widget;
use std::alloc::{AllocError, Global};
use widget_bars::{Bar, BarChart, BarGroup};
use widget_sparkline::{RenderDirection, Sparkline, SparklineBar};
use widget_tabs::Tabs;

// The tabs that a case says.
fn tabs_of<'a>(alloc: Global, case: &Case<'a>) -> Result<Tabs<'a>, AllocError> {
    let left = line_of(alloc, case.option("left").unwrap_or(" "))?;
    let right = line_of(alloc, case.option("right").unwrap_or(" "))?;
    let titles = lines_of(alloc, case.texts, " | ")?;
    Ok(
        Tabs::new(titles)
            .padding(left, right)
            .divider(span_of(case.option("divider").unwrap_or("│")))
            .style(case.style("style"))
            .highlight_style(case.style_or("highlight", "^"))
            .select(case.number("selected")),
    )
}

/// Renders the tabs that a case says.
pub fn tabs(
    alloc: Global,
    case: &Case<'_>,
    area: Rect,
    buffer: &mut Buffer,
) -> Result<(), AllocError> {
    let mut tabs = tabs_of(alloc, case)?;
    if let Some(frame) = frame_of(alloc, case)? {
        tabs = tabs.block(frame);
    }
    tabs.render(area, buffer)
}

// The bar that a word says, with a style in front; what is no number is an absent value.
fn sparkline_bar_of(word: &str) -> SparklineBar {
    let (style, value) = styled_front(word);
    let bar = SparklineBar::new(value.parse().ok());
    if word.starts_with("<") {
        bar.style(Some(style))
    } else {
        bar
    }
}

// The bars that an option says, between commas.
fn sparkline_bars_of(alloc: Global, case: &Case<'_>) -> Result<Vec<SparklineBar>, AllocError> {
    let mut bars = Vec::new(alloc);
    if let Some(words) = case.option("data") {
        for word in words.split(",") {
            bars.push(sparkline_bar_of(word))?;
        }
    }
    Ok(bars)
}

// The symbols of bars that a case says.
fn set_of(case: &Case<'_>) -> bar::Set<'static> {
    match case.text("set") {
        "three" => bar::THREE_LEVELS,
        _ => bar::NINE_LEVELS,
    }
}

/// Renders the sparkline that a case says.
pub fn sparkline(
    alloc: Global,
    case: &Case<'_>,
    area: Rect,
    buffer: &mut Buffer,
) -> Result<(), AllocError> {
    let mut sparkline = Sparkline::new(sparkline_bars_of(alloc, case)?)
        .style(case.style("style"))
        .bar_set(set_of(case))
        .absent_value_symbol(case.option("absent").unwrap_or(" "))
        .absent_value_style(case.style("absents"));
    if let Some(max) = case.number("max") {
        sparkline = sparkline.max(max as u64);
    }
    if case.text("from") == "right" {
        sparkline = sparkline.direction(RenderDirection::RightToLeft);
    }
    if let Some(frame) = frame_of(alloc, case)? {
        sparkline = sparkline.block(frame);
    }
    sparkline.render(area, buffer)
}

// The bar that a text says: its label, its value and, after another `=`, the text of its value.
fn bar_of<'a>(label: Option<Line<'a>>, value: &'a str) -> Bar<'a> {
    let (style, value) = styled_front(value);
    let (value, text) = value.split_once("=").unwrap_or((value, ""));
    let mut bar = Bar::new(value.parse().unwrap_or(0)).style(style);
    if let Some(label) = label {
        bar = bar.label(label);
    }
    if !text.is_empty() {
        bar = bar.text_value(text);
    }
    bar
}

// The label of a bar, if it isn't empty.
fn label_of<'a>(alloc: Global, text: &'a str) -> Result<Option<Line<'a>>, AllocError> {
    if text.is_empty() {
        return Ok(None);
    }
    Ok(Some(line_of(alloc, text)?))
}

// The groups of bars that texts between bars say, as `a=3 | b=5`; a text without `=` begins a group
// with this label.
fn groups_of<'a>(alloc: Global, texts: &'a str) -> Result<Vec<BarGroup<'a>>, AllocError> {
    let mut groups = Vec::new(alloc);
    let mut group = BarGroup::new(Vec::new(alloc));
    let mut bars = Vec::new(alloc);
    for text in texts.split(" | ") {
        let (label, value) = text.split_once("=").unwrap_or((text, ""));
        let line = label_of(alloc, label)?;
        if label.len() < text.len() {
            bars.push(bar_of(line, value))?;
        } else {
            if !bars.is_empty() {
                groups.push(group.bars(bars))?;
            }
            bars = Vec::new(alloc);
            group = BarGroup::new(Vec::new(alloc));
            if let Some(line) = line {
                group = group.label(line);
            }
        }
    }
    groups.push(group.bars(bars))?;
    Ok(groups)
}

/// Renders the bar chart that a case says.
pub fn bar_chart(
    alloc: Global,
    case: &Case<'_>,
    area: Rect,
    buffer: &mut Buffer,
) -> Result<(), AllocError> {
    let direction = match case.text("direction") {
        "horizontal" => Direction::Horizontal,
        _ => Direction::Vertical,
    };
    let mut chart = BarChart::grouped(groups_of(alloc, case.texts)?)
        .direction(direction)
        .bar_set(set_of(case))
        .bar_width(case.small("width", 1))
        .bar_gap(case.small("gap", 1))
        .group_gap(case.small("groups", 0))
        .style(case.style("style"))
        .bar_style(case.style("bars"))
        .value_style(case.style("values"))
        .label_style(case.style("labels"));
    if let Some(max) = case.number("max") {
        chart = chart.max(max as u64);
    }
    if let Some(frame) = frame_of(alloc, case)? {
        chart = chart.block(frame);
    }
    chart.render(area, buffer)
}
