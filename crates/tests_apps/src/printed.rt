//! A backend that keeps the rows that scrolled off as text, beside one that keeps them as cells.

use printed_backend::PrintedBackend;
use ratatui_core::backend::{Backend, ClearType, TestBackend};
use ratatui_core::buffer::Cell;
use ratatui_core::layout::Position;
use std::alloc::{AllocError, Global};
use std::iter;
use std::test::Fail;

// Puts each cell in the last row, one column further on each time, and scrolls it up.
fn draw_all<B: Backend>(backend: &mut B, cells: &[Cell]) -> Result<(), B::Error> {
    let mut column = 0u16;
    for cell in cells {
        backend.set_cursor_position(Position { x: 1, y: 2 })?;
        backend.draw(iter::once((column, 2, cell)))?;
        backend.append_lines(1)?;
        column = column.saturating_add(1);
    }
    Ok(())
}

// Scrolls parts of a screen of three rows, some by more rows than they have.
fn scroll_all<B: Backend>(backend: &mut B, cell: &Cell) -> Result<(), B::Error> {
    backend.scroll_region_up(0..2, 1)?;
    backend.draw(iter::once((0, 0, cell)))?;
    backend.scroll_region_up(1..3, 1)?;
    backend.scroll_region_up(0..2, 3)?;
    backend.draw(iter::once((3, 1, cell)))?;
    backend.scroll_region_up(0..99, 0)?;
    backend.scroll_region_down(0..3, 1)?;
    backend.draw(iter::once((1, 0, cell)))?;
    backend.set_cursor_position(Position { x: 9, y: 1 })?;
    backend.append_lines(4)?;
    backend.draw(iter::once((0, 2, cell)))?;
    backend.clear_region(ClearType::BeforeCursor)?;
    backend.draw(iter::once((2, 1, cell)))?;
    backend.append_lines(0)
}

// Cells of one column, of two, of none, and one whose symbol takes memory.
fn cells(alloc: Global) -> Result<Vec<Cell>, AllocError> {
    let mut cells = Vec::new(alloc);
    for symbol in &[
        "a",
        "コ",
        "",
        "e\u{301}",
        "\u{1F468}\u{200D}\u{1F469}\u{200D}\u{1F467}\u{200D}\u{1F466}",
        "b",
    ] {
        cells.push(Cell::new(alloc, symbol)?)?;
    }
    Ok(cells)
}

// Whether all calls answer Ok.
fn plays<B: Backend>(backend: &mut B, cells: &[Cell]) -> bool {
    if draw_all(backend, cells).is_err() {
        return false;
    }
    cells.iter().all(|cell| scroll_all(backend, cell).is_ok())
}

// Whether both print and show the same, and some rows scrolled off.
fn prints_alike(alloc: Global, width: u16, height: u16) -> Result<bool, AllocError> {
    let cells = cells(alloc)?;
    let mut backend = PrintedBackend::new(alloc, width, height)?;
    let mut other = TestBackend::new(alloc, width, height)?;
    if !plays(&mut backend, cells.as_slice()) || !plays(&mut other, cells.as_slice()) {
        return Ok(false);
    }
    let mut printed = Vec::new(alloc);
    let mut wanted = Vec::new(alloc);
    if backend.write_to(&mut printed).is_err() || other.write_to(&mut wanted).is_err() {
        return Ok(false);
    }
    let above = backend.scrollback().as_bytes();
    Ok(
        printed.as_slice() == wanted.as_slice()
            && other.buffer_is(backend.buffer())
            && wanted.as_slice().starts_with(above)
            && other.scrollback().len() > 20,
    )
}

#[test]
fn prints_what_a_test_backend_prints(rt: HostRuntime) -> Result<(), Fail> {
    assert!(rt; prints_alike(rt.alloc(), 4, 3)?);
    assert!(rt; prints_alike(rt.alloc(), 1, 1)?);
    assert!(rt; prints_alike(rt.alloc(), 0, 2)?);
    assert!(rt; prints_alike(rt.alloc(), 9, 5)?);
    Ok(())
}
