//! The examples of what tests print and compare.

use ratatui_core::backend::TestBackend;
use ratatui_core::buffer::Buffer;
use ratatui_core::layout::Rect;
use ratatui_core::style::Style;
use ratatui_core::terminal::Terminal;
use ratatui_core::text::Line;
use ratatui_test::{Shows, assert_same, assert_shows, difference};
use std::alloc::{AllocError, Global};
use std::test::Fail;

// A buffer of one row and fifteen columns, in which a text stands.
fn row(alloc: Global, text: &str) -> Result<Buffer, AllocError> {
    let mut buffer = Buffer::empty(alloc, Rect::new(0, 0, 15, 1))?;
    buffer.set_string(0, 0, text, Style::new())?;
    Ok(buffer)
}

#[test]
fn assertions(rt: HostRuntime) -> Result<(), Fail> {
    let alloc = rt.alloc();
    let mut terminal = Terminal::new(alloc, TestBackend::new(alloc, 15, 1)?)?;
    terminal.draw_widget(Line::raw(alloc, "Hello, world!")?.centered())?;
    let wanted = row(alloc, " Hello, world! ")?;
    assert_same!(rt; terminal.backend().buffer(), &wanted);
    assert_shows!(rt; terminal.backend(), [" Hello, world! "]);
    Ok(())
}

#[test]
fn buffers(rt: HostRuntime) -> Result<(), AllocError> {
    let alloc = rt.alloc();
    let left = row(alloc, "Hello")?;
    let right = row(alloc, "Hallo")?;
    let mut told = String::new(alloc);
    if let Some(apart) = difference(&left, &right) {
        told = format!(in alloc; "{apart}")?;
    }
    let wanted = r#"at (1, 0): left "e", right "a"
left:
|Hello          |
  ^
right:
|Hallo          |
  ^"#;
    assert!(rt; told.as_str() == wanted, "{told}");
    Ok(())
}

#[test]
fn lines(rt: HostRuntime) -> Result<(), Fail> {
    let alloc = rt.alloc();
    let mut terminal = Terminal::new(alloc, TestBackend::new(alloc, 5, 1)?)?;
    terminal.draw_widget(Line::raw(alloc, "Hello")?)?;
    let mut told = String::new(alloc);
    if let Some(apart) = terminal.backend().difference(alloc, &["Hallo"])? {
        told = format!(in alloc; "{apart}")?;
    }
    let wanted = r#"at (1, 0): "e" is shown
shown:
|Hello|
  ^
wanted:
|Hallo|
  ^"#;
    assert!(rt; told.as_str() == wanted, "{told}");
    Ok(())
}
