//! Rows of areas that are divided, and the parts that they are to give.
//!
//! A row is a direction, how many columns or rows the area has, a flex, a space or an overlap, then
//! the constraints, and ` = ` with the parts, each by where it begins and its size: `Horizontal 10
//! Start Space 1: Length 3, Fill 1 = 0+3 4+6`. Where several answers hold, they stand with ` | `
//! between two.
#![tactic(auto)]

mod row;

use crate::row::{Row, show_parts};
use rtui_geometry::Rect;
use rtui_layout::{Direction, Layout};
use rtui_split::Split;
use std::alloc::Global;
use std::io;

// The parts of a row's area, as they stand in a row.
fn answer(alloc: Global, row: Row) -> io::Result<String> {
    let (width, height) = match row.direction {
        Direction::Horizontal => (row.cells, 1),
        Direction::Vertical => (1, row.cells),
    };
    let area = Rect {
        x: 0,
        y: 0,
        width,
        height,
    };
    let layout = Layout::new(alloc, row.direction, row.constraints.as_slice())?
        .flex(row.flex)
        .spacing(row.spacing);
    let parts = layout.split(alloc, area)?;
    Ok(show_parts(alloc, row.direction, parts.as_slice())?)
}

// Whether a line holds; if it doesn't, it is told.
fn check_line(rt: &HostRuntime, line: &str) -> io::Result<bool> {
    let alloc = rt.alloc();
    let Some((call, answers)) = line.split_once(" = ") else {
        println!(rt; "not a row: {line}")?;
        return Ok(false);
    };
    let Some(row) = row::read(alloc, call)? else {
        println!(rt; "not read: {line}")?;
        return Ok(false);
    };
    let parts = answer(alloc, row)?;
    let parts = parts.as_str();
    if answers.split(" | ").any(|answer| answer == parts) {
        return Ok(true);
    }
    println!(rt; "{line}; answered {parts}")?;
    Ok(false)
}

/// Prints how many rows of a text that has a name hold, and each that doesn't with its answer;
/// returns how many don't.
pub fn check(rt: &HostRuntime, name: &str, text: &str) -> io::Result<usize> {
    let (mut held, mut failed) = (0usize, 0usize);
    for line in text.lines() {
        if line.is_empty() || line.starts_with("#") {
            continue;
        }
        if check_line(rt, line)? {
            held = held.saturating_add(1);
        } else {
            failed = failed.saturating_add(1);
        }
    }
    println!(rt; "{name}: {held} rows hold, {failed} don't")?;
    Ok(failed)
}
