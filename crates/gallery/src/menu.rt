//! A list with its state.

use ratatui_core::backend::Backend;
use ratatui_core::style::{Modifier, Style};
use ratatui_core::terminal::{Terminal, TerminalError};
use ratatui_core::text::Line;
use ratatui_widgets::{List, ListItem, ListState};
use std::alloc::{AllocError, Global};

const FRUITS: [&str; 4] = ["apples", "cherries", "figs", "pears"];

// The list, whose selected item has a sign before it.
fn fruits(alloc: Global) -> Result<List<'static>, AllocError> {
    let mut items = Vec::new(alloc);
    for fruit in FRUITS {
        items.push(ListItem::raw(alloc, fruit)?)?;
    }
    Ok(List::new(items).highlight_symbol(Line::raw(alloc, "> ")?))
}

/// Draws the list over the whole viewport; the state says which item is selected, and keeps which
/// one comes first from one draw to the next.
pub fn draw_menu<B: Backend>(
    alloc: Global,
    terminal: &mut Terminal<B>,
    state: &mut ListState,
) -> Result<(), TerminalError<B::Error>> {
    terminal.draw(|frame| {
        let area = frame.area();
        frame.render_stateful_widget(fruits(alloc)?, area, state)
    })?;
    Ok(())
}
