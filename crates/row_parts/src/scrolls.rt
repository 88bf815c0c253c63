//! Rows of scroll views.

use crate::rows::{Row, number};
use ratatui_core::buffer::Buffer;
use ratatui_core::layout::{Position, Size};
use ratatui_core::style::{Color, Style};
use ratatui_core::text::{Line, Text};
use ratatui_core::widgets::StatefulWidget;
use std::alloc::{AllocError, Global};
use widget_scroll_view::{ScrollView, ScrollViewState, ScrollbarVisibility};

// Two numbers, with a comma between them.
fn pair(text: &str) -> (u16, u16) {
    match text.split_once(',') {
        Some((first, second)) => (number(first), number(second)),
        None => (0, 0),
    }
}

// The lines of a content.
fn text_of<'a>(alloc: Global, row: &Row<'a>) -> Result<Text<'a>, AllocError> {
    let mut text = Text::default_in(alloc);
    for line in row.text.split('/') {
        text.push_line(Line::raw(alloc, line)?)?;
    }
    for word in row.words.split(' ') {
        if word == "red" {
            text = text.style(Style::new().bg(Color::Red));
        }
    }
    Ok(text)
}

// The size of a content: that of its lines, unless a word says otherwise.
fn size_of(row: &Row<'_>, text: &Text<'_>) -> Size {
    for word in row.words.split(' ') {
        if let Some(("size", size)) = word.split_once(':') {
            return Size::from(pair(size));
        }
    }
    Size::new(
        text.width().min(65535) as u16,
        text.height().min(65535) as u16,
    )
}

// When bars stand, by its name.
fn visibility(name: &str) -> ScrollbarVisibility {
    match name {
        "always" => ScrollbarVisibility::Always,
        "never" => ScrollbarVisibility::Never,
        _ => ScrollbarVisibility::Automatic,
    }
}

// A view with what a word says.
fn view_with(view: ScrollView, word: &str) -> ScrollView {
    match word.split_once(':') {
        Some(("bars", name)) => view.scrollbars_visibility(visibility(name)),
        Some(("down-bar", name)) => view.vertical_scrollbar_visibility(visibility(name)),
        Some(("across-bar", name)) => view.horizontal_scrollbar_visibility(visibility(name)),
        _ => view,
    }
}

// The view of a row.
fn view_of(alloc: Global, row: &Row<'_>) -> Result<ScrollView, AllocError> {
    let text = text_of(alloc, row)?;
    let mut view = ScrollView::new(alloc, size_of(row, &text))?;
    let area = view.area();
    view.render_widget(&text, area)?;
    for word in row.words.split(' ') {
        view = view_with(view, word);
    }
    Ok(view)
}

// Scrolls a state as a word says.
fn scroll(state: &mut ScrollViewState, word: &str) {
    match word {
        "up" => state.scroll_up(),
        "down" => state.scroll_down(),
        "left" => state.scroll_left(),
        "right" => state.scroll_right(),
        "page-up" => state.scroll_page_up(),
        "page-down" => state.scroll_page_down(),
        "top" => state.scroll_to_top(),
        "bottom" => state.scroll_to_bottom(),
        _ => {
            if let Some(("to", offset)) = word.split_once(':') {
                state.set_offset(Position::from(pair(offset)));
            }
        }
    }
}

// Renders the scroll view of a row; its state before and after.
pub fn render(alloc: Global, row: &Row<'_>, buffer: &mut Buffer) -> Result<String, AllocError> {
    let view = view_of(alloc, row)?;
    let mut state = ScrollViewState::new();
    for word in row.words.split(' ') {
        if word == "shown" {
            (&view).render(row.area(), &mut row.buffer(alloc)?, &mut state)?;
        }
        scroll(&mut state, word);
    }
    let at = state.offset();
    let was_at_bottom = state.is_at_bottom();
    (&view).render(row.area(), buffer, &mut state)?;
    let offset = state.offset();
    let is_at_bottom = state.is_at_bottom();
    let settled = buffer.is_settled();
    let part = view.view_area(row.area());
    format!(in alloc;
        "{at} {was_at_bottom} to {offset} {is_at_bottom} in {part}, settled {settled}"
    )
}
