//! Cells given a symbol that takes memory.
use crate::outcome::{Cases, LONG, Outcome, judged};
use rtui_cell::Cell;
use rtui_merge::MergeStrategy;
use std::alloc::{AllocError, Global};

// The shortest text that takes memory, of 23 bytes.
const SHORTEST: &str = "aaaaaaaaaaaaaaaaaaaaaaa";

// Gives a cell a long symbol, or one joined of its own and another.
fn set(alloc: Global, cell: &mut Cell, number: usize) -> Result<(), AllocError> {
    match number {
        0 => cell.set_symbol(alloc, LONG),
        1 => cell.append_symbol(alloc, LONG),
        2 => cell.set_symbol(alloc, SHORTEST),
        _ => cell.merge_symbol(alloc, LONG, MergeStrategy::Replace),
    }
}

// How many bytes the symbol then has.
fn length(number: usize) -> usize {
    match number {
        1 => 26,
        2 => 23,
        _ => 25,
    }
}

fn symbol_set(alloc: Global, number: usize) -> Result<Outcome, AllocError> {
    let mut cell = Cell::new(alloc, "a")?;
    let is_refused = set(alloc, &mut cell, number).is_err();
    let is_left = !is_refused || cell.symbol() == "a";
    let is_right = !is_refused || set(alloc, &mut cell, number).is_ok();
    Ok(judged(
        is_refused,
        is_left,
        is_right && cell.symbol().len() == length(number),
    ))
}

fn cloned(alloc: Global) -> Result<Outcome, AllocError> {
    let cell = Cell::new(alloc, LONG)?;
    match cell.clone(alloc) {
        Ok(copy) => Ok(judged(false, true, copy == cell)),
        Err(_) => {
            let again = cell.clone(alloc)?;
            Ok(judged(true, cell.symbol() == LONG, again == cell))
        }
    }
}

/// Cells that take a symbol.
pub struct Cells;

static CELLS: [&str; 5] = [
    "set_symbol",
    "append_symbol",
    "set_symbol of 23 bytes",
    "merge_symbol",
    "clone of a cell",
];

impl Cases for Cells {
    fn names() -> &'static [&'static str] {
        &CELLS
    }

    fn outcome_of(alloc: Global, number: usize) -> Result<Outcome, AllocError> {
        if number < 4 {
            symbol_set(alloc, number)
        } else {
            cloned(alloc)
        }
    }
}
