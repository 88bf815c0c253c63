//! The program `menu`: a list that keys change, by a loop of its own.
//!
//! `j` and `k` move, `a` adds an entry, `d` removes the selected one after a question, `q` and Ctrl+C
//! end. It shows what a small program needs: a list with its state, a box in the middle, a field in
//! which a person types, and the size of the window. `tools/play menu` shows it.
#![tactic(auto)]

mod menu;
mod view;
mod window;

use crate::menu::Menu;
use crate::window::Window;
use programs::{Stream, is_terminal};
use ratatui_ansi::{AnsiBackend, size_told};
use ratatui_core::terminal::Terminal;
use ratatui_input::EventReader;
use std::io::BufWriter;

fn main(rt: HostRuntime) -> anyhow::Result<()> {
    let alloc = rt.alloc();
    let writer = BufWriter::new(alloc, rt.stdout())?;
    let backend = AnsiBackend::new_on_alternate_screen(alloc, writer, size_told(&rt))?;
    let mut terminal = Terminal::new(alloc, backend)?;
    let mut events = EventReader::new(rt.reader());
    let mut window = Window::new();
    let has_ticks = is_terminal(&rt, Stream::Input);
    let mut menu = Menu::new(alloc)?;
    terminal.draw(|frame| menu.draw(frame))?;
    for _ in 0..u64::MAX {
        let event = events.read()?;
        window.follow(event, &mut terminal)?;
        if let Some(event) = event {
            menu.take(event)?;
            terminal.draw(|frame| menu.draw(frame))?;
        }
        let is_end = event.is_none() && !has_ticks;
        if is_end || menu.is_over() {
            break;
        }
    }
    terminal.into_backend().leave()?;
    Ok(())
}
