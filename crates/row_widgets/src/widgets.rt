//! The paragraphs, lists, gauges and scroll bars of the cases.

use crate::boxes::frame_of;
use crate::cases::{Case, pair_of};
use crate::looks::{line_of, span_of, styled_front, text_of};
use crate::shown::push_state;
use ratatui_core::buffer::Buffer;
use ratatui_core::layout::Rect;
use ratatui_core::symbols::line;
use ratatui_core::widgets::{StatefulWidget, Widget};
use ratatui_widgets::{
    Gauge, HighlightSpacing, LineGauge, List, ListDirection, ListItem, ListState, Paragraph,
    Scrollbar, ScrollbarOrientation, ScrollbarState, Wrap,
};
use std::alloc::{AllocError, Global};

// The items that texts between bars say, each with a style in front; `\` parts the lines of an
// item.
fn items_of<'a>(alloc: Global, texts: &'a str) -> Result<Vec<ListItem<'a>>, AllocError> {
    let mut items = Vec::new(alloc);
    if texts.is_empty() {
        return Ok(items);
    }
    for text in texts.split(" | ") {
        let (style, content) = styled_front(text);
        let content = text_of(alloc, content, "\\")?;
        items.push(ListItem::new(content).style(style))?;
    }
    Ok(items)
}

/// Returns when the columns of a highlight symbol stay free.
pub fn spacing_of(case: &Case<'_>) -> HighlightSpacing {
    match case.text("marks") {
        "always" => HighlightSpacing::Always,
        "never" => HighlightSpacing::Never,
        _ => HighlightSpacing::WhenSelected,
    }
}

// The list that a case says.
fn list_of<'a>(alloc: Global, case: &Case<'a>) -> Result<List<'a>, AllocError> {
    let symbol = line_of(alloc, case.text("symbol"))?;
    let direction = match case.text("from") {
        "bottom" => ListDirection::BottomToTop,
        _ => ListDirection::TopToBottom,
    };
    let list = List::new(items_of(alloc, case.texts)?)
        .style(case.style("style"))
        .highlight_style(case.style_or("highlight", "^"))
        .highlight_symbol(symbol)
        .repeat_highlight_symbol(case.option("repeat").is_some())
        .highlight_spacing(spacing_of(case))
        .scroll_padding(case.number("padding").unwrap_or(0))
        .direction(direction);
    match frame_of(alloc, case)? {
        Some(frame) => Ok(list.block(frame)),
        None => Ok(list),
    }
}

/// Renders the list that a case says, and says its state.
pub fn list(
    alloc: Global,
    case: &Case<'_>,
    area: Rect,
    buffer: &mut Buffer,
    shown: &mut String,
) -> Result<(), AllocError> {
    let mut state = ListState::default()
        .with_selected(case.number("selected"))
        .with_offset(case.number("offset").unwrap_or(0));
    let list = list_of(alloc, case)?;
    StatefulWidget::render(list, area, buffer, &mut state)?;
    push_state(shown, state.offset(), state.selected(), None)
}

// The share that a case says: parts of a whole, or a percentage.
fn share_of(case: &Case<'_>) -> (u32, u32) {
    match pair_of(case.text("ratio")) {
        Some((parts, whole)) => {
            let whole = whole.clamp(1, 1000000) as u32;
            ((parts.clamp(0, 1000000) as u32).min(whole), whole)
        }
        None => (case.small("percent", 0).min(100).into(), 100),
    }
}

/// Renders the gauge that a case says.
pub fn gauge(
    alloc: Global,
    case: &Case<'_>,
    area: Rect,
    buffer: &mut Buffer,
) -> Result<(), AllocError> {
    let (parts, whole) = share_of(case);
    let mut gauge = Gauge::new()
        .ratio(parts, whole)
        .style(case.style("style"))
        .gauge_style(case.style("bar"))
        .use_unicode(case.option("unicode").is_some());
    if let Some(label) = case.option("label") {
        gauge = gauge.label(span_of(label));
    }
    if let Some(frame) = frame_of(alloc, case)? {
        gauge = gauge.block(frame);
    }
    gauge.render(area, buffer)
}

// A line gauge with the label that a case says, if it says one.
fn labelled<'a>(
    alloc: Global,
    case: &Case<'a>,
    gauge: LineGauge<'a>,
) -> Result<LineGauge<'a>, AllocError> {
    match case.option("label") {
        Some(label) => Ok(gauge.label(line_of(alloc, label)?)),
        None => Ok(gauge),
    }
}

/// Renders the line gauge that a case says.
pub fn line_gauge(
    alloc: Global,
    case: &Case<'_>,
    area: Rect,
    buffer: &mut Buffer,
) -> Result<(), AllocError> {
    let (parts, whole) = share_of(case);
    let set = match case.text("set") {
        "thick" => line::THICK,
        "double" => line::DOUBLE,
        _ => line::NORMAL,
    };
    let gauge = LineGauge::new()
        .ratio(parts, whole)
        .line_set(set)
        .style(case.style("style"))
        .filled_style(case.style("filled"))
        .unfilled_style(case.style("unfilled"));
    let mut gauge = labelled(alloc, case, gauge)?;
    if let Some(frame) = frame_of(alloc, case)? {
        gauge = gauge.block(frame);
    }
    gauge.render(area, buffer)
}

// The scroll bar that a case says.
fn scrollbar_of<'a>(case: &Case<'a>) -> Scrollbar<'a> {
    let orientation = match case.text("side") {
        "left" => ScrollbarOrientation::VerticalLeft,
        "bottom" => ScrollbarOrientation::HorizontalBottom,
        "top" => ScrollbarOrientation::HorizontalTop,
        _ => ScrollbarOrientation::VerticalRight,
    };
    let mut bar = Scrollbar::new(orientation)
        .style(case.style("style"))
        .thumb_style(case.style("thumbs"))
        .track_style(case.style("tracks"))
        .begin_style(case.style("begins"))
        .end_style(case.style("ends"));
    if case.text("arrows") == "no" {
        bar = bar.begin_symbol(None).end_symbol(None);
    }
    if let Some(symbol) = case.option("thumb") {
        bar = bar.thumb_symbol(symbol);
    }
    match case.option("track") {
        Some("") => bar.track_symbol(None),
        Some(symbol) => bar.track_symbol(Some(symbol)),
        None => bar,
    }
}

/// Renders the scroll bar that a case says.
pub fn scrollbar(case: &Case<'_>, area: Rect, buffer: &mut Buffer) -> Result<(), AllocError> {
    let mut state = ScrollbarState::new(case.number("content").unwrap_or(0))
        .position(case.number("position").unwrap_or(0))
        .viewport_content_length(case.number("seen").unwrap_or(0));
    scrollbar_of(case).render(area, buffer, &mut state)
}

/// Renders the paragraph that a case says.
pub fn paragraph(
    alloc: Global,
    case: &Case<'_>,
    area: Rect,
    buffer: &mut Buffer,
) -> Result<(), AllocError> {
    let text = text_of(alloc, case.texts, " | ")?;
    let (down, right) = pair_of(case.text("scroll")).unwrap_or((0, 0));
    let mut paragraph = Paragraph::new(text)
        .style(case.style("style"))
        .alignment(case.alignment("align"))
        .scroll((down.clamp(0, 65535) as u16, right.clamp(0, 65535) as u16));
    if let Some(kind) = case.option("wrap") {
        paragraph = paragraph.wrap(Wrap {
            trim: kind == "trim",
        });
    }
    if let Some(frame) = frame_of(alloc, case)? {
        paragraph = paragraph.block(frame);
    }
    paragraph.render(area, buffer)
}
