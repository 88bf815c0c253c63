//! Each call that draws, on a row of six columns.

ghost use Rattle.std.specs.Prelude.{◌≡◌, IfOk};

use ratatui_core::buffer::{Buffer, Cell, CellChange};
use ratatui_core::layout::{Position, Rect};
use ratatui_core::style::Style;
use ratatui_core::text::{Line, Span, Text};
use rtui_drawing::{Cut, put_change, put_line, put_text, write, write_line, write_span};
use std::alloc::{AllocError, Global};
use std::test::Fail;

// Makes a star of each cell.
#[derive(Drop)]
struct Stars;

impl CellChange for Stars {
    ghost use Rattle.std.specs.Prelude.{codes};
    ghost use Rattle.ratatui_core.specs.Style.{new_style};
    ghost use Rattle.ratatui_core.specs.Buffer.{styled, with_symbol, IsShort};

    ghost made = { λ _ _ c. styled new_style (with_symbol (codes "*") c) };

    ghost is_light = { λ _ _ _. IsShort (codes "*") };

    fn change(&self, alloc: Global, position: Position, cell: &mut Cell) -> Result<(), AllocError> {
        let _ = position;
        cell.put(alloc, "*", Style::new())
    }
}

// An empty row of six columns.
fn row(alloc: Global) -> Result<Buffer, AllocError>
    ensures { IfOk result (λ b. b.area ≡ record { x = 0; y = 0; width = 6; height = 1 }) }
{
    Buffer::empty(alloc, Rect::new(0, 0, 6, 1))
}

// Whether a row has these symbols.
fn has(alloc: Global, buffer: &Buffer, symbols: &str) -> Result<bool, AllocError> {
    let mut shown = String::new(alloc);
    for cell in buffer.content().iter() {
        shown.push_str(cell.symbol())?;
    }
    Ok(shown.as_str() == symbols)
}

// The row itself.
fn all() -> Rect
    ensures { result ≡ record { x = 0; y = 0; width = 6; height = 1 } }
{
    Rect::new(0, 0, 6, 1)
}

// Whether a text that is written takes so many columns, and leaves these symbols.
fn writes(alloc: Global, text: &str, columns: u16, symbols: &str) -> Result<bool, AllocError> {
    let mut buffer = row(alloc)?;
    let taken = write(text, Style::new(), all(), &mut buffer)?;
    Ok(taken == columns && has(alloc, &buffer, symbols)?)
}

// The same of a span.
fn writes_span(alloc: Global, text: &str, columns: u16, symbols: &str) -> Result<bool, AllocError> {
    let mut buffer = row(alloc)?;
    let taken = write_span(&Span::raw(text), all(), &mut buffer)?;
    Ok(taken == columns && has(alloc, &buffer, symbols)?)
}

// The same of a line.
fn writes_line(alloc: Global, text: &str, columns: u16, symbols: &str) -> Result<bool, AllocError> {
    let mut buffer = row(alloc)?;
    let taken = write_line(&Line::raw(alloc, text)?, all(), &mut buffer)?;
    Ok(taken == columns && has(alloc, &buffer, symbols)?)
}

// Whether a line at the right, a text in the first column and stars in the middle leave these symbols.
fn puts(alloc: Global, line: &str, text: &str, symbols: &str) -> Result<bool, AllocError> {
    let mut buffer = row(alloc)?;
    put_line(&Line::raw(alloc, line)?.right_aligned(), all(), &mut buffer)?;
    put_text(
        &Text::raw(alloc, text)?,
        Cut::First(1).of(all()),
        &mut buffer,
    )?;
    put_change(&Stars, Cut::Middle(2).of(all()), &mut buffer)?;
    has(alloc, &buffer, symbols)
}

#[test]
fn what_is_written(rt: HostRuntime) -> Result<(), Fail> {
    assert!(rt; writes(rt.alloc(), "コab", 4, "コ ab  ")?);
    assert!(rt; writes_span(rt.alloc(), "too long", 6, "too lo")?);
    assert!(rt; writes_line(rt.alloc(), "xyz", 3, "xyz   ")?);
    Ok(())
}

#[test]
fn what_is_put(rt: HostRuntime) -> Result<(), Fail> {
    assert!(rt; puts(rt.alloc(), "ab", "cd", "c **ab")?);
    Ok(())
}
