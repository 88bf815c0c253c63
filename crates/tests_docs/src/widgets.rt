//! Examples of widgets.
use crate::symbol_at;
use logview::LogView;
use ratatui_core::backend::TestBackend;
use ratatui_core::buffer::Buffer;
use ratatui_core::layout::{Position, Rect};
use ratatui_core::style::{Color, Style, Stylize};
use ratatui_core::terminal::{Frame, Terminal};
use ratatui_core::text::Line;
use ratatui_core::widgets::{StatefulWidget, Widget};
use ratatui_widgets::{
    Block, BorderType, Gauge, LineGauge, List, ListItem, ListState, Paragraph, Scrollbar,
    ScrollbarOrientation, ScrollbarState, Wrap,
};
use std::alloc::{AllocError, Global};
use std::test::Fail;

// A box with a title, and the area inside.
fn boxed(alloc: Global, area: Rect, buf: &mut Buffer) -> Result<Rect, AllocError> {
    let block = Block::bordered(alloc)
        .border_type(BorderType::Rounded)
        .title_raw("Files")?;
    let inside = block.inner(area);
    block.render(area, buf)?;
    Ok(inside)
}

#[test]
fn a_box_has_an_inside(rt: HostRuntime) -> Result<(), AllocError> {
    let alloc = rt.alloc();
    let area = Rect::new(0, 0, 8, 3);
    let mut buffer = Buffer::empty(alloc, area)?;
    assert!(rt; boxed(alloc, area, &mut buffer)? == Rect::new(1, 1, 6, 1));
    assert!(rt; symbol_at(&buffer, 0, 0) == "╭");
    assert!(rt; symbol_at(&buffer, 1, 0) == "F");
    Ok(())
}

// Two items.
fn items(alloc: Global) -> Result<Vec<ListItem<'static>>, AllocError> {
    let mut items = Vec::new(alloc);
    items.push(ListItem::raw(alloc, "one")?)?;
    items.push(ListItem::raw(alloc, "two")?)?;
    Ok(items)
}

/// A list with its second item selected.
pub(crate) fn listed(alloc: Global, area: Rect, buf: &mut Buffer) -> Result<(), AllocError> {
    let items = items(alloc)?;
    let list = List::new(items)
        .highlight_symbol(Line::raw(alloc, "> ")?)
        .highlight_style(Style::new().bg(Color::Blue));
    let mut state = ListState::default();
    state.select(Some(1));
    StatefulWidget::render(&list, area, buf, &mut state)?;
    Ok(())
}

// The colours of the letters of a cell.
fn color_at(buffer: &Buffer, x: u16, y: u16) -> Option<Color> {
    match buffer.cell(Position { x, y }) {
        Some(cell) => Some(cell.fg),
        None => None,
    }
}

// A list of one item, with a green symbol and a blue highlight.
fn marked(alloc: Global, area: Rect, buf: &mut Buffer) -> Result<ListState, AllocError> {
    let mut items = Vec::new(alloc);
    items.push(ListItem::raw(alloc, "one")?)?;
    let list = List::new(items)
        .highlight_symbol(Line::raw(alloc, "> ")?.green())
        .highlight_style(Style::new().fg(Color::Blue));
    let mut state = ListState::default();
    *state.selected_mut() = Some(0);
    *state.offset_mut() = 3;
    StatefulWidget::render(&list, area, buf, &mut state)?;
    Ok(state)
}

#[test]
fn a_symbol_keeps_its_colour(rt: HostRuntime) -> Result<(), AllocError> {
    let alloc = rt.alloc();
    let area = Rect::new(0, 0, 6, 1);
    let mut buffer = Buffer::empty(alloc, area)?;
    let state = marked(alloc, area, &mut buffer)?;
    assert!(rt; state.offset() == 0);
    assert!(rt; color_at(&buffer, 0, 0) == Some(Color::Green));
    assert!(rt; color_at(&buffer, 2, 0) == Some(Color::Blue));
    Ok(())
}

/// Two gauges and a scroll bar.
pub(crate) fn measured(area: Rect, buf: &mut Buffer) -> Result<(), AllocError> {
    let (sent, total, lines, first) = (1, 2, 10, 0);
    Gauge::new()
        .ratio(sent, total)
        .gauge_style(Style::new().fg(Color::Green))
        .render(area, buf)?;
    LineGauge::new()
        .percent(40)
        .filled_style(Style::new().fg(Color::Green))
        .render(area, buf)?;
    let mut state = ScrollbarState::new(lines).position(first);
    Scrollbar::new(ScrollbarOrientation::VerticalRight).render(area, buf, &mut state)?;
    Ok(())
}

// A text in a box.
fn boxed_text(alloc: Global, frame: &mut Frame<'_>) -> Result<(), AllocError> {
    let area = frame.area();
    let paragraph = Paragraph::raw(alloc, "The quick brown fox")?
        .wrap(Wrap { trim: true })
        .block(Block::bordered(alloc));
    frame.render_widget(paragraph, area)?;
    Ok(())
}

// A list with its third item selected, if it has one.
fn third(alloc: Global, frame: &mut Frame<'_>) -> Result<(), AllocError> {
    let area = frame.area();
    let list = List::new(items(alloc)?);
    let mut state = ListState::default();
    state.select(Some(2));
    frame.render_stateful_widget(list, area, &mut state)?;
    Ok(())
}

#[test]
fn frames_have_widgets(rt: HostRuntime) -> Result<(), Fail> {
    let alloc = rt.alloc();
    let mut terminal = Terminal::new(alloc, TestBackend::new(alloc, 11, 4)?)?;
    terminal.draw(|frame| boxed_text(alloc, frame))?;
    assert!(rt;
        terminal.backend().lines_are(&["┌─────────┐", "│The quick│", "│brown fox│", "└─────────┘"])
    );
    terminal.draw(|frame| third(alloc, frame))?;
    Ok(())
}

#[test]
fn a_log_is_shown(rt: HostRuntime) -> Result<(), Fail> {
    let alloc = rt.alloc();
    let mut view = LogView::new(alloc, TestBackend::new(alloc, 8, 3)?)?;
    view.push("one")?;
    assert!(rt;
        view.terminal()
            .backend()
            .lines_are(&["one     ", "lines: 1", "        "])
    );
    Ok(())
}
