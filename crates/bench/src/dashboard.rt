//! A dashboard: a wrapped paragraph and a list side by side, a gauge and a line gauge below them,
//! built anew for each frame.
use ratatui_core::buffer::Buffer;
use ratatui_core::layout::Rect;
use ratatui_core::style::{Color, Modifier, Style};
use ratatui_core::symbols::line;
use ratatui_core::text::{Line, Span, Text};
use ratatui_core::widgets::{StatefulWidget, Widget};
use ratatui_widgets::{
    Block, BorderType, Gauge, LineGauge, List, ListItem, ListState, Paragraph, Wrap,
};
use std::alloc::{AllocError, Global};

const FOX: &str =
    "the quick brown fox jumps over the lazy dog and runs away from it as fast as it can";

static NAMES: [&str; 24] = [
    "rtui_geometry",
    "rtui_layout",
    "rtui_style",
    "rtui_palette",
    "rtui_symbols",
    "rtui_merge",
    "rtui_cell",
    "rtui_text",
    "rtui_drawing",
    "ratatui_acts",
    "rtui_diff",
    "rtui_buffer",
    "rtui_widgets",
    "widget_canvas",
    "rtui_backend",
    "rtui_viewport",
    "rtui_insert",
    "rtui_terminal",
    "ratatui_core",
    "ratatui_ansi",
    "widget_boxes",
    "widget_meters",
    "widget_list",
    "ratatui_widgets",
];

fn framed<'a>(alloc: Global, title: &'a str) -> Result<Block<'a>, AllocError> {
    let title = Line::styled(alloc, title, Style::new().fg(Color::Yellow))?;
    Block::bordered(alloc)
        .border_type(BorderType::Rounded)
        .border_style(Style::new().fg(Color::Cyan))
        .title(title)
}

// A line of five spans, and six lines of one.
fn text(alloc: Global) -> Result<Text<'static>, AllocError> {
    let mut line = Line::raw(alloc, "Words are broken ")?;
    let underlined = Style::new()
        .fg(Color::Green)
        .add_modifier(Modifier::UNDERLINED);
    line.push_span(Span::styled("between", underlined))?;
    line.push_span(Span::raw(" them, and other words follow in the same row: "))?;
    let red = Style::new().fg(Color::LightRed);
    line.push_span(Span::styled("a text in red of some words more", red))?;
    line.push_span(Span::raw("; a longwordthatdoesntfitinarow is last."))?;
    let mut text = Text::from_line(alloc, line)?;
    for _line in 0..6 {
        text.push_line(Line::raw(alloc, FOX)?)?;
    }
    Ok(text)
}

fn items(alloc: Global) -> Result<Vec<ListItem<'static>>, AllocError> {
    let mut items = Vec::new(alloc);
    for name in &NAMES {
        let mut line = Line::styled(alloc, "* ", Style::new().fg(Color::Green))?;
        line.push_span(Span::styled(name, Style::new().fg(Color::White)))?;
        items.push(ListItem::new(Text::from_line(alloc, line)?))?;
    }
    Ok(items)
}

fn paint_paragraph(alloc: Global, area: Rect, buf: &mut Buffer) -> Result<(), AllocError> {
    let block = framed(alloc, " Paragraph ")?;
    Paragraph::new(text(alloc)?)
        .block(block)
        .wrap(Wrap { trim: true })
        .render(area, buf)
}

fn paint_list(alloc: Global, area: Rect, buf: &mut Buffer, round: u64) -> Result<(), AllocError> {
    let mut state = ListState::default().with_selected(Some((round % 24) as usize));
    let block = framed(alloc, " List ")?;
    let symbol = Line::raw(alloc, "> ")?;
    let highlight = Style::new()
        .bg(Color::Rgb(40, 60, 110))
        .add_modifier(Modifier::BOLD);
    let list = List::new(items(alloc)?)
        .block(block)
        .highlight_symbol(symbol)
        .highlight_style(highlight);
    StatefulWidget::render(&list, area, buf, &mut state)
}

fn paint_gauge(alloc: Global, area: Rect, buf: &mut Buffer, round: u64) -> Result<(), AllocError> {
    let block = framed(alloc, " Gauge ")?;
    Gauge::new()
        .block(block)
        .percent((round % 100) as u16)
        .use_unicode(true)
        .gauge_style(Style::new().fg(Color::Green).bg(Color::Rgb(30, 40, 30)))
        .label(Span::raw("a gauge"))
        .render(area, buf)
}

fn paint_line(alloc: Global, area: Rect, buf: &mut Buffer, round: u64) -> Result<(), AllocError> {
    let label = Line::raw(alloc, "done")?;
    LineGauge::new()
        .percent((round % 100) as u16)
        .line_set(line::THICK)
        .label(label)
        .filled_style(Style::new().fg(Color::Magenta))
        .unfilled_style(Style::new().fg(Color::DarkGray))
        .render(area, buf)
}

/// Paints the upper part of a round: the paragraph and the list.
pub fn paint_upper(alloc: Global, buf: &mut Buffer, round: u64) -> Result<(), AllocError> {
    let area = *buf.area();
    let half = area.width / 2;
    let height = area.height.saturating_sub(4);
    let right = area.width.saturating_sub(half);
    paint_paragraph(alloc, Rect::new(0, 0, half, height), buf)?;
    paint_list(alloc, Rect::new(half, 0, right, height), buf, round)
}

/// Paints the dashboard of a round over a buffer that begins at the corner.
pub fn paint(alloc: Global, buf: &mut Buffer, round: u64) -> Result<(), AllocError> {
    paint_upper(alloc, buf, round)?;
    let area = *buf.area();
    let height = area.height.saturating_sub(4);
    paint_gauge(alloc, Rect::new(0, height, area.width, 3), buf, round)?;
    let last = area.height.saturating_sub(1);
    paint_line(alloc, Rect::new(0, last, area.width, 1), buf, round)
}
