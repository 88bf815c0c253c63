//! A letter in an area.

ghost use Rattle.std.specs.Prelude.{◌≡◌, ◌<◌};
ghost use Rattle.widget_big_text.specs.Glyphs.{has_pixel, shows_quarter, quarters_shown, letter_mark};

use crate::pixel_size::PixelSize;
use ratatui_core::buffer::{Cell, CellChange};
use ratatui_core::layout::{Position, Rect};
use ratatui_core::style::Style;
use ratatui_core::symbols::pixel;
use std::alloc::{AllocError, Global};

static QUADRANTS: [char; 16] = pixel::QUADRANTS;

/// A letter at the corner of an area: its rows of pixels, their size and their style.
#[derive(Drop)]
pub(crate) struct Letter {
    pub(crate) rows: [u8; 8],
    pub(crate) size: PixelSize,
    pub(crate) style: Style,
    pub(crate) area: Rect,
}

impl Letter {
    // Whether the letter has a pixel in a column and a row of pixels.
    fn has_pixel(&self, x: usize, y: usize) -> bool
        ensures { result ≡ has_pixel self.now.rows x y }
    {
        x < 8 && y < 8 && (self.rows[y] >> (7 - x)) % 2 == 1
    }

    // Whether a quarter of a cell shows a pixel, 1 if it does: the left or the right one, the upper
    // or the lower one.
    fn quarter(&self, x: u16, y: u16, right: usize, low: usize) -> usize
        requires right { right < 2 }
        requires low { low < 2 }
        ensures value { result ≡ shows_quarter self.now.size self.now.rows x y right low }
        ensures bit { result < 2 }
    {
        let (across, down) = self.size.pixels_per_cell();
        let column = (2 * usize::from(x) + right) * usize::from(across) / 2;
        let row = (2 * usize::from(y) + low) * usize::from(down) / 2;
        usize::from(self.has_pixel(column, row))
    }

    // The symbol of a cell of the letter.
    fn mark(&self, x: u16, y: u16) -> char
        ensures { result ≡ letter_mark self.now.size self.now.rows x y }
    {
        let upper = self.quarter(x, y, 0, 0) + 2 * self.quarter(x, y, 1, 0);
        let lower = self.quarter(x, y, 0, 1) + 2 * self.quarter(x, y, 1, 1);
        QUADRANTS[upper + 4 * lower]
    }
}

impl CellChange for Letter {
    ghost use Rattle.std.specs.Prelude.{⊤};
    ghost use Rattle.widget_big_text.specs.BigTexts.{big_letter_cell};

    ghost made = { λ l p. big_letter_cell l.size l.rows l.style l.area p };

    ghost is_light = { λ _ _ _. ⊤ };

    fn change(&self, alloc: Global, position: Position, cell: &mut Cell) -> Result<(), AllocError> {
        let x = position.x.saturating_sub(self.area.x);
        let y = position.y.saturating_sub(self.area.y);
        cell.set_char(alloc, self.mark(x, y))?;
        cell.set_style(self.style);
        Ok(())
    }
}
