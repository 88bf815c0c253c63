//! Workloads on widgets.
use crate::texts::sum;
use crate::{Done, Size, plots};
use ratatui_core::buffer::Buffer;
use ratatui_core::layout::Rect;
use ratatui_core::style::{Color, Style};
use ratatui_core::text::{Line, Text};
use ratatui_core::widgets::{StatefulWidget, Widget};
use ratatui_widgets::{Block, List, ListItem, ListState, Paragraph, Wrap};
use std::alloc::{AllocError, Global};

// A bordered box with a title over the whole area, each round.
fn blocks(alloc: Global, size: Size) -> Done {
    let area = Rect::new(0, 0, size.width, size.height);
    let mut buffer = Buffer::empty(alloc, area)?;
    let block = Block::bordered(alloc)
        .border_style(Style::new().fg(Color::Cyan))
        .title_raw("title")?;
    for _round in 0..size.count {
        buffer.reset();
        (&block).render(area, &mut buffer)?;
    }
    Ok(Some((size.count, sum(&buffer))))
}

// So many lines of 300 columns.
fn long_lines(alloc: Global, count: u16) -> Result<Text<'static>, AllocError> {
    let mut text = Text::default_in(alloc);
    for _line in 0..count {
        let words = "the quick brown fox 日本語 jumps ".repeat(alloc, 9)?;
        text.push_line(Line::raw_string(alloc, words)?)?;
    }
    Ok(text)
}

// One line of 320,000 columns.
fn long_line(alloc: Global) -> Result<Text<'static>, AllocError> {
    Text::raw_string(alloc, "a wrapped ".repeat(alloc, 32_000)?)
}

// A text, wrapped, each round.
fn paragraphs(alloc: Global, size: Size, text: Text<'static>) -> Done {
    let area = Rect::new(0, 0, size.width, size.height);
    let mut buffer = Buffer::empty(alloc, area)?;
    let paragraph = Paragraph::new(text).wrap(Wrap { trim: true });
    for _round in 0..size.count {
        buffer.reset();
        (&paragraph).render(area, &mut buffer)?;
    }
    Ok(Some((size.count, sum(&buffer))))
}

// So many items.
fn items(alloc: Global, count: u32) -> Result<Vec<ListItem<'static>>, AllocError> {
    let mut items = Vec::new(alloc);
    for _item in 0..count {
        items.push(ListItem::new(Text::raw(alloc, "an item of a list")?))?;
    }
    Ok(items)
}

// A list of so many items, another one selected each round: as far apart as they come.
fn lists(alloc: Global, size: Size, count: u32) -> Done {
    let area = Rect::new(0, 0, size.width, size.height);
    let mut buffer = Buffer::empty(alloc, area)?;
    let list = List::new(items(alloc, count)?)
        .highlight_symbol(Line::raw(alloc, "> ")?)
        .highlight_style(Style::new().bg(Color::Blue));
    let mut state = ListState::default();
    for round in 0..size.count {
        buffer.reset();
        if round % 2 == 0 {
            state.select_last();
        } else {
            state.select_first();
        }
        StatefulWidget::render(&list, area, &mut buffer, &mut state)?;
    }
    Ok(Some((size.count, sum(&buffer))))
}

/// Runs the workload of this name, if it is one.
pub fn run(alloc: Global, name: &str, size: Size) -> Done {
    match name {
        "block" => blocks(alloc, size),
        "paragraph_wrapped" => paragraphs(alloc, size, long_lines(alloc, 200)?),
        "paragraph_long" => paragraphs(alloc, size, long_line(alloc)?),
        "list" => lists(alloc, size, 100_000),
        "list_1000" => lists(alloc, size, 1_000),
        _ => plots::run(alloc, name, size),
    }
}
