//! Cells as words.
use crate::answer::{Show, quote};
use crate::args::Args;
use crate::error::RowError;
use crate::styles::put_style;
use ratatui_core::buffer::{Cell, CellDiffOption};
use ratatui_core::style::{Color, Style};
use std::alloc::{AllocError, Global};
use std::num::NonZeroU16;

// A colour other than the terminal's own.
fn chosen(color: Color) -> Option<Color> {
    if color == Color::Reset {
        None
    } else {
        Some(color)
    }
}

// The style of a cell, with no word for what is as in an empty one.
fn look_of(cell: &Cell) -> Style {
    Style {
        fg: chosen(cell.fg),
        bg: chosen(cell.bg),
        underline_color: chosen(cell.underline_color),
        add_modifier: cell.modifier,
        sub_modifier: Style::new().sub_modifier,
    }
}

// Writes after a blank each how a cell is drawn, if that isn't as usual.
fn put_option(cell: &Cell, out: &mut String) -> Result<(), AllocError> {
    match cell.diff_option {
        CellDiffOption::None => {}
        CellDiffOption::Skip => out.push_str(" Skip")?,
        CellDiffOption::AlwaysUpdate => out.push_str(" AlwaysUpdate")?,
        CellDiffOption::ForcedWidth(width) => {
            let width = width.get();
            write!(out, " ForcedWidth={width}")?;
        }
    }
    if cell.skip {
        out.push_str(" skip")
    } else {
        Ok(())
    }
}

fn put_look(cell: &Cell, out: &mut String) -> Result<(), AllocError> {
    put_style(look_of(cell), out)?;
    put_option(cell, out)
}

/// Returns the words that say how a cell looks and is drawn where that isn't as usual, each after a
/// blank.
pub fn look_words(cell: &Cell, alloc: Global) -> Result<String, AllocError> {
    let mut words = String::new(alloc);
    put_look(cell, &mut words)?;
    Ok(words)
}

impl Show for Cell {
    fn show(&self, out: &mut String) -> Result<(), AllocError> {
        quote(self.symbol(), out)?;
        put_look(self, out)
    }
}

impl<'a> Args<'a> {
    /// Takes how a cell is drawn.
    pub fn option(&mut self) -> Result<CellDiffOption, RowError> {
        match self.word()? {
            "None" => Ok(CellDiffOption::None),
            "Skip" => Ok(CellDiffOption::Skip),
            "AlwaysUpdate" => Ok(CellDiffOption::AlwaysUpdate),
            "ForcedWidth" => match NonZeroU16::new(self.u16()?) {
                Some(width) => Ok(CellDiffOption::ForcedWidth(width)),
                None => Err(RowError::Unread),
            },
            _ => Err(RowError::Unread),
        }
    }

    /// Takes a cell: its symbol, its style, and how it is drawn.
    pub fn cell(&mut self) -> Result<Cell, RowError> {
        let mut cell = Cell::new(self.alloc, self.text()?)?;
        cell.set_style(self.style());
        if self.takes("skip") {
            cell.set_skip(true);
        }
        if self.takes("option") {
            cell.set_diff_option(self.option()?);
        }
        Ok(cell)
    }
}
