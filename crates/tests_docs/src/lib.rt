//! Tests of the examples of doc comments, in which each of their lines stands (`tools/recipes` says
//! which stand in no crate), of macros and arrays, and of what tests print.
#![tactic(auto)]

#[cfg(test)]
mod apart;
#[cfg(test)]
mod arrays;
#[cfg(test)]
mod asserted;
#[cfg(test)]
mod buffers;
#[cfg(test)]
mod canvases;
#[cfg(test)]
mod charts;
#[cfg(test)]
mod clones;
#[cfg(test)]
mod geometry;
#[cfg(test)]
mod how;
#[cfg(test)]
mod input;
#[cfg(test)]
mod macros;
#[cfg(test)]
mod made;
#[cfg(test)]
mod places;
#[cfg(test)]
mod screens;
#[cfg(test)]
mod stored;
#[cfg(test)]
mod styles;
#[cfg(test)]
mod tables;
#[cfg(test)]
mod terminals;
#[cfg(test)]
mod texts;
#[cfg(test)]
mod widgets;

#[cfg(test)]
use ratatui_core::buffer::Buffer;
#[cfg(test)]
use ratatui_core::layout::Position;

// The symbol of a cell, or nothing outside the buffer.
#[cfg(test)]
fn symbol_at(buffer: &Buffer, x: u16, y: u16) -> &str {
    match buffer.cell(Position { x, y }) {
        Some(cell) => cell.symbol(),
        None => "",
    }
}
