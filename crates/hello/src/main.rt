//! The program `hello`: draws a line in the middle of the terminal.
//!
//! The size is that of the variables COLUMNS and LINES, or 80 columns and 24 rows. What stood on the
//! terminal is in its history then, and the prompt comes in the row after the last one.
#![tactic(auto)]

use ratatui_ansi::{AnsiBackend, size_told};
use ratatui_core::layout::{Constraint, SplitArea};
use ratatui_core::terminal::Terminal;
use ratatui_core::text::Line;
use std::io::BufWriter;

fn main(rt: HostRuntime) -> anyhow::Result<()> {
    let alloc = rt.alloc();
    let writer = BufWriter::new(alloc, rt.stdout())?;
    let backend = AnsiBackend::new(alloc, writer, size_told(&rt))?;
    let mut terminal = Terminal::new(alloc, backend)?;
    terminal.draw(|frame| {
        let middle = frame.area().centered_vertically(Constraint::Length(1));
        let greeting = Line::raw(alloc, "Hello, world!")?.centered();
        frame.render_widget(greeting, middle)
    })?;
    Ok(())
}
