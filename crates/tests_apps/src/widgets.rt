//! The widgets of `guide` on a buffer.

ghost use Rattle.ratatui_core.specs.Layout.{Rect as RectData};
ghost use Rattle.ratatui_core.specs.Buffer.{BufferData};

use crate::tag::Tag;
use guide::{Badge, Banner, Growing};
use ratatui_core::buffer::Buffer;
use ratatui_core::layout::Rect;
use ratatui_core::style::{Color, Style};
use ratatui_core::text::Line;
use ratatui_core::widgets::{StatefulWidget, Widget};
use std::alloc::{AllocError, Global};
use std::test::Fail;
use widget_boxes::Block;

// Whether a buffer has these symbols, row after row, and so many green cells.
fn has(alloc: Global, buffer: &Buffer, symbols: &str, green: usize) -> Result<bool, AllocError> {
    let mut shown = String::new(alloc);
    for cell in buffer.content().iter() {
        shown.push_str(cell.symbol())?;
    }
    let cells = buffer.content();
    let greens = cells.iter().filter(|cell| cell.bg == Color::Green).count();
    Ok(shown.as_str() == symbols && greens == green)
}

// Whether a widget leaves these symbols on an empty buffer of 6 columns and 3 rows, and so many green
// cells.
fn leaves<W: Widget + Drop>(
    alloc: Global,
    widget: W,
    symbols: &str,
    green: usize,
) -> Result<bool, AllocError>
    requires { (area : RectData) (s : BufferData) → W.can_render widget area s }
{
    let area = Rect::new(0, 0, 6, 3);
    let mut buffer = Buffer::empty(alloc, area)?;
    widget.render(area, &mut buffer)?;
    has(alloc, &buffer, symbols, green)
}

fn green() -> Style {
    Style::new().bg(Color::Green)
}

#[test]
fn badges(rt: HostRuntime) -> Result<(), Fail> {
    let a = rt.alloc();
    let badge = Badge {
        block: Some(Block::bordered(a)),
        style: green(),
        line: Line::raw(a, "new")?,
    };
    assert!(rt; leaves(a, &badge, "┌────┐│new │└────┘", 4)?);
    let tag = Tag {
        block: None,
        style: green(),
        line: Line::raw(a, "new")?,
    };
    assert!(rt; leaves(a, &tag, "new               ", 18)?);
    Ok(())
}

#[test]
fn banners(rt: HostRuntime) -> Result<(), Fail> {
    let a = rt.alloc();
    let banner = Banner {
        style: green(),
        line: Line::raw(a, "new")?,
    };
    assert!(rt; leaves(a, &banner, "new               ", 18)?);
    Ok(())
}

#[test]
fn growing_bars(rt: HostRuntime) -> Result<(), Fail> {
    let a = rt.alloc();
    let bar = Growing {
        block: Some(Block::bordered(a)),
        style: green(),
        line: Line::raw(a, "new")?,
    };
    let area = Rect::new(0, 0, 6, 3);
    let mut buffer = Buffer::empty(a, area)?;
    let mut columns = 3;
    bar.render(area, &mut buffer, &mut columns)?;
    assert!(rt; columns == 4);
    assert!(rt; has(a, &buffer, "┌────┐│new │└────┘", 3)?);
    Ok(())
}
