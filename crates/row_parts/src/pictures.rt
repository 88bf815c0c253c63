//! What a buffer shows.

use ratatui_core::buffer::{Buffer, Cell, CellWidth};
use ratatui_core::layout::Position;
use ratatui_core::style::Color;
use std::alloc::{AllocError, Global};

// The letter of a mascot's part, by its colour.
fn part(color: Color) -> Option<char> {
    match color {
        Color::Indexed(252) => Some('r'),
        Color::Indexed(231) => Some('h'),
        Color::Indexed(236) => Some('e'),
        Color::Indexed(196) => Some('o'),
        Color::Indexed(232) => Some('s'),
        Color::Indexed(237) => Some('b'),
        Color::Indexed(248) => Some('c'),
        _ => None,
    }
}

// The letter of a cell's colour.
fn letter(cell: &Cell) -> char {
    match (part(cell.bg), part(cell.fg)) {
        (Some(part), _) => part.to_ascii_uppercase(),
        (None, Some(part)) => part,
        (None, None) => named_letter(cell),
    }
}

// The letter of a cell's colour, if it is no mascot's.
fn named_letter(cell: &Cell) -> char {
    match (cell.bg, cell.fg) {
        (Color::Red, _) => 'R',
        (Color::Blue, _) => 'B',
        (Color::Green, _) => 'G',
        (Color::Reset, Color::Green) => 'g',
        (Color::Reset, Color::Reset) => '.',
        _ => '?',
    }
}

// Adds the symbols of a row to a text.
fn push_symbols(text: &mut String, buffer: &Buffer, y: u16) -> Result<(), AllocError> {
    let mut covered = 0u16;
    for x in 0..buffer.area().width {
        let Some(cell) = buffer.cell(Position { x, y }) else {
            continue;
        };
        if covered > 0 {
            covered -= 1;
            continue;
        }
        let symbol = cell.symbol();
        covered = symbol.cell_width().saturating_sub(1);
        text.push_str(symbol)?;
    }
    Ok(())
}

// Adds the letters of a row's colours to a text.
fn push_letters(text: &mut String, buffer: &Buffer, y: u16) -> Result<(), AllocError> {
    for x in 0..buffer.area().width {
        if let Some(cell) = buffer.cell(Position { x, y }) {
            text.push(letter(cell))?;
        }
    }
    Ok(())
}

// The rows of a buffer, with their colours beside them.
pub fn picture(alloc: Global, buffer: &Buffer) -> Result<String, AllocError> {
    let mut text = String::new(alloc);
    for y in 0..buffer.area().height {
        text.push('|')?;
        push_symbols(&mut text, buffer, y)?;
        text.push_str("| |")?;
        push_letters(&mut text, buffer, y)?;
        text.push_str("|\n")?;
    }
    Ok(text)
}
