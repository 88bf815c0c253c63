//! The backend in memory.
use crate::outcome::{Cases, LONG, Outcome, judged};
use rtui_backend::{Backend, TestBackend, TestError};
use rtui_cell::Cell;
use std::alloc::{AllocError, Global};
use std::iter;

// Makes one of the calls that take memory.
fn call(backend: &mut TestBackend, cell: &Cell, number: usize) -> Result<(), TestError> {
    match number {
        0 => backend.draw(iter::once((0, 0, cell))),
        1 => backend.append_lines(5),
        2 => backend.scroll_region_up(0..2, 3),
        _ => backend.resize(7, 5).map_err(|_| TestError::Memory),
    }
}

// Whether the screen is as at the start: blank, of two rows, with no row that scrolled off.
fn is_blank(backend: &TestBackend) -> bool {
    backend.lines_are(&["    ", "    "]) && backend.scrollback().is_empty()
}

/// A backend that is called.
pub struct Backends;

static BACKENDS: [&str; 4] = [
    "draw of a long symbol",
    "append_lines",
    "scroll_region_up",
    "resize of a backend",
];

impl Cases for Backends {
    fn names() -> &'static [&'static str] {
        &BACKENDS
    }

    fn outcome_of(alloc: Global, number: usize) -> Result<Outcome, AllocError> {
        let mut backend = TestBackend::new(alloc, 4, 2)?;
        let cell = Cell::new(alloc, LONG)?;
        let answer = call(&mut backend, &cell, number);
        let is_refused = answer.is_err();
        let is_left = !is_refused || (answer == Err(TestError::Memory) && is_blank(&backend));
        let is_right = !is_refused || call(&mut backend, &cell, number).is_ok();
        Ok(judged(is_refused, is_left, is_right && !is_blank(&backend)))
    }
}
