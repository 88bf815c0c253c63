//! Examples of texts.
use ratatui_core::style::{Color, Style};
use ratatui_core::text::{Line, Masked, Span, Text, ToSpan};
use std::alloc::AllocError;

#[test]
fn a_line_grows(rt: HostRuntime) -> Result<(), AllocError> {
    let alloc = rt.alloc();
    let mut line = Line::raw(alloc, "total: ")?.right_aligned();
    line.push_span(Span::styled("42", Style::new().fg(Color::Green)))?;
    assert!(rt; line.width() == 9);
    Ok(())
}

#[test]
fn a_secret_is_masked(rt: HostRuntime) -> Result<(), AllocError> {
    let alloc = rt.alloc();
    let password = Masked::new("12345", 'x');
    let shown = password.value(alloc)?;
    assert!(rt; shown.as_str() == "xxxxx");
    Ok(())
}

#[test]
fn spans_are_added(rt: HostRuntime) -> Result<(), AllocError> {
    let alloc = rt.alloc();
    let plain = Span::raw("files");
    let warning = Span::styled("no space left", Style::new().fg(Color::Red));
    let line = plain.try_add(alloc, warning)?;
    assert!(rt; line.width() == 18);
    Ok(())
}

#[test]
fn a_text_grows(rt: HostRuntime) -> Result<(), AllocError> {
    let alloc = rt.alloc();
    let mut text = Text::raw(alloc, "first line\nsecond line")?.centered();
    text.push_line(Line::raw(alloc, "third line")?)?;
    assert!(rt; text.height() == 3);
    Ok(())
}

#[test]
fn a_number_is_a_span(rt: HostRuntime) -> Result<(), AllocError> {
    let alloc = rt.alloc();
    let span = 42.to_span(alloc)?;
    assert!(rt; span == Span::raw("42"));
    Ok(())
}
