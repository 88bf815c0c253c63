//! Screens that are stored in a file, or in a test.

use crate::screens;
use ratatui_core::backend::TestBackend;
use ratatui_core::terminal::Terminal;
use ratatui_core::text::Line;
use ratatui_test::{assert_shows, assert_stored};
use std::test::Fail;

#[test]
fn a_greeting(rt: HostRuntime) -> Result<(), Fail> {
    let alloc = rt.alloc();
    let mut terminal = Terminal::new(alloc, TestBackend::new(alloc, 15, 2)?)?;
    terminal.draw_widget(Line::raw(alloc, "Hello, world!")?.centered())?;
    assert_shows!(rt; terminal.backend(), [" Hello, world! ", "               "]);
    assert_stored!(rt; terminal.backend(), screens::GREETING);
    Ok(())
}

#[test]
fn a_wide_one(rt: HostRuntime) -> Result<(), Fail> {
    let alloc = rt.alloc();
    let mut terminal = Terminal::new(alloc, TestBackend::new(alloc, 9, 1)?)?;
    terminal.draw_widget(Line::raw(alloc, "\\ \"日本\" ")?)?;
    assert_stored!(rt; terminal.backend(), screens::WIDE);
    Ok(())
}
