//! Rows, read and printed.
use rtui_geometry::Rect;
use rtui_layout::{Constraint, Direction, Flex, Spacing};
use std::alloc::{AllocError, Global};

/// A layout, and the columns or rows that it divides.
#[derive(Debug, Drop)]
pub struct Row {
    pub direction: Direction,
    pub cells: u16,
    pub flex: Flex,
    pub spacing: Spacing,
    pub constraints: Vec<Constraint>,
}

// A constraint of one number.
fn constraint_of(kind: &str, number: u16) -> Option<Constraint> {
    match kind {
        "Min" => Some(Constraint::Min(number)),
        "Max" => Some(Constraint::Max(number)),
        "Length" => Some(Constraint::Length(number)),
        "Percentage" => Some(Constraint::Percentage(number)),
        "Fill" => Some(Constraint::Fill(number)),
        _ => None,
    }
}

// A constraint by its name and its numbers.
fn read_constraint(text: &str) -> Option<Constraint> {
    let (kind, numbers) = text.split_once(" ")?;
    if kind == "Ratio" {
        let (part, whole) = numbers.split_once(" ")?;
        return Some(Constraint::Ratio(part.parse::<u32>().ok()?, whole.parse::<u32>().ok()?));
    }
    constraint_of(kind, numbers.parse::<u16>().ok()?)
}

fn read_spacing(kind: &str, number: u16) -> Option<Spacing> {
    match kind {
        "Space" => Some(Spacing::Space(number)),
        "Overlap" => Some(Spacing::Overlap(number)),
        _ => None,
    }
}

// What stands before the constraints.
#[derive(Drop)]
struct Head {
    direction: Direction,
    cells: u16,
    flex: Flex,
    spacing: Spacing,
}

fn read_head(text: &str) -> Option<Head> {
    let mut words = text.split_whitespace();
    let direction = words.next()?.parse::<Direction>().ok()?;
    let cells = words.next()?.parse::<u16>().ok()?;
    let flex = words.next()?.parse::<Flex>().ok()?;
    let kind = words.next()?;
    let spacing = read_spacing(kind, words.next()?.parse::<u16>().ok()?)?;
    Some(Head {
        direction,
        cells,
        flex,
        spacing,
    })
}

/// Reads the row of a text, if it is one.
///
/// # Errors
///
/// `AllocError` if memory is refused.
pub fn read(alloc: Global, text: &str) -> Result<Option<Row>, AllocError> {
    let Some((head, list)) = text.split_once(": ") else {
        return Ok(None);
    };
    let Some(head) = read_head(head) else {
        return Ok(None);
    };
    let mut constraints = Vec::new(alloc);
    for word in list.split(", ") {
        let Some(constraint) = read_constraint(word) else {
            return Ok(None);
        };
        constraints.push(constraint)?;
    }
    let Head {
        direction,
        cells,
        flex,
        spacing,
    } = head;
    Ok(Some(Row {
        direction,
        cells,
        flex,
        spacing,
        constraints,
    }))
}

/// Returns the parts as text, each by where it begins and its size.
///
/// # Errors
///
/// `AllocError` if memory is refused.
pub fn show_parts(
    alloc: Global,
    direction: Direction,
    parts: &[Rect],
) -> Result<String, AllocError> {
    let mut text = String::new(alloc);
    for part in parts {
        if !text.is_empty() {
            text.push_str(" ")?;
        }
        match direction {
            Direction::Horizontal => write!(text, "{}+{}", part.x, part.width)?,
            Direction::Vertical => write!(text, "{}+{}", part.y, part.height)?,
        }
    }
    Ok(text)
}
