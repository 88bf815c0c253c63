//! A box, and a text in a box.
use ratatui_core::style::Stylize;
use ratatui_core::terminal::Frame;
use ratatui_widgets::{Block, BorderType, Padding, Paragraph, Wrap};
use std::alloc::{AllocError, Global};

/// Draws a box with a title.
pub fn block(alloc: Global, frame: &mut Frame<'_>) -> Result<(), AllocError> {
    let area = frame.area();
    let block = Block::bordered(alloc)
        .border_type(BorderType::Rounded)
        .title_raw("Files")?
        .cyan();
    frame.render_widget(block, area)
}

/// Draws a text, wrapped at words, in a box.
pub fn paragraph(alloc: Global, frame: &mut Frame<'_>) -> Result<(), AllocError> {
    let area = frame.area();
    let block = Block::bordered(alloc).padding(Padding::horizontal(1));
    let paragraph = Paragraph::raw(alloc, "The quick brown fox jumps over the dog")?
        .wrap(Wrap { trim: true })
        .block(block);
    frame.render_widget(paragraph, area)
}
