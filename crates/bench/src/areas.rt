//! Workloads on a text area: keys in a long text.

use crate::{Done, Size};
use std::alloc::{AllocError, Global};
use text_area::{Extent, Move, TextArea};

// A text area of so many lines of so many letters.
fn area_of(alloc: Global, lines: usize, letters: usize) -> Result<TextArea, AllocError> {
    let mut line = "a".repeat(alloc, letters)?;
    line.push('\n')?;
    TextArea::from_text(alloc, line.as_str().repeat(alloc, lines)?)
}

// The rounds, and a sum of the text's length and the cursor's place.
fn done(area: &TextArea, rounds: u64) -> Done {
    let (row, column) = area.cursor();
    let length = area.text().len() as u64;
    let place = (row as u64).saturating_add(column as u64);
    Ok(Some((rounds, length.saturating_add(place))))
}

// A text typed each round.
fn typed(area: &mut TextArea, rounds: u64, text: &str) -> Done {
    for _round in 0..rounds {
        area.insert_str(text)?;
    }
    done(area, rounds)
}

// The cursor moved up and down each round.
fn moved(area: &mut TextArea, rounds: u64) -> Done {
    for _round in 0..rounds {
        area.go(Move::Up);
        area.go(Move::Down);
    }
    done(area, rounds)
}

/// Runs the workload of this name, if it is one.
pub fn run(alloc: Global, name: &str, size: Size) -> Done {
    match name {
        "area_type" => typed(&mut area_of(alloc, 125_000, 79)?, size.count, "x"),
        "area_feed" => {
            let mut area = area_of(alloc, 125_000, 79)?;
            area.go_to(62_500, 40);
            typed(&mut area, size.count, "\n")
        }
        "area_up" => {
            let mut area = area_of(alloc, 10, 1_000_000)?;
            area.go(Move::Down);
            area.go(Move::Right(Extent::Line));
            moved(&mut area, size.count)
        }
        _ => Ok(None),
    }
}
