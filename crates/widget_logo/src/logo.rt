//! The logo.

ghost use Rattle.std.specs.Prelude.{◌≡◌, Some};
ghost use Rattle.std.specs.Option.{option_map};
ghost use Rattle.widget_logo.specs.declared.logo.Size.TheVariants.{Tiny, Small};
ghost use Rattle.widget_logo.specs.Logos.{logo_row, logo_character};

use ratatui_core::buffer::{Buffer, Cell, CellChange, change_area};
use ratatui_core::layout::{Position, Rect};
use ratatui_core::widgets::Widget;
use std::alloc::{AllocError, Global};

static TINY_UPPER: [char; 15] = [
    '▛', '▚', '▗', '▀', '▖', '▜', '▘', '▞', '▚', '▝', '▛', '▐', ' ', '▌', '▌',
];

static TINY_LOWER: [char; 15] = [
    '▛', '▚', '▐', '▀', '▌', '▐', ' ', '▛', '▜', ' ', '▌', '▝', '▄', '▘', '▌',
];

static SMALL_UPPER: [char; 27] = [
    '█', '▀', '▀', '▄', ' ', '▄', '▀', '▀', '▄', '▝', '▜', '▛', '▘', '▄', '▀', '▀', '▄', '▝', '▜',
    '▛', '▘', '█', ' ', ' ', '█', ' ', '█',
];

static SMALL_LOWER: [char; 27] = [
    '█', '▀', '▀', '▄', ' ', '█', '▀', '▀', '█', ' ', '▐', '▌', ' ', '█', '▀', '▀', '█', ' ', '▐',
    '▌', ' ', '▀', '▄', '▄', '▀', ' ', '█',
];

/// How large a logo is.
#[derive(Debug, Default, Clone, Copy, PartialEq, Eq, Hash)]
pub enum Size {
    /// 15 columns and 2 rows.
    #[default]
    Tiny,
    /// 27 columns and 2 rows.
    Small,
}

/// The name of ratatui as a picture of two rows.
///
/// ```
/// frame.render_widget(RatatuiLogo::small(), area)
/// ```
#[derive(Debug, Default, Clone, Copy, PartialEq, Eq, Hash)]
pub struct RatatuiLogo {
    size: Size,
}

impl RatatuiLogo {
    /// Makes a logo of a size.
    pub fn new(size: Size) -> RatatuiLogo
        ensures { result ≡ record { size = size } }
    {
        RatatuiLogo { size }
    }

    /// Sets the size of the logo.
    pub fn size(self, size: Size) -> RatatuiLogo
        ensures { result ≡ record { size = size } }
    {
        let _ = self;
        RatatuiLogo { size }
    }

    /// Makes a logo of 15 columns and 2 rows.
    pub fn tiny() -> RatatuiLogo
        ensures { result ≡ record { size = Tiny } }
    {
        RatatuiLogo::new(Size::Tiny)
    }

    /// Makes a logo of 27 columns and 2 rows.
    pub fn small() -> RatatuiLogo
        ensures { result ≡ record { size = Small } }
    {
        RatatuiLogo::new(Size::Small)
    }
}

impl Size {
    // The characters of a row, none below the second one.
    fn row(self, y: u16) -> &'static [char]
        ensures { result.now ≡ logo_row self y }
    {
        match (self, y) {
            (Size::Tiny, 0) => &TINY_UPPER,
            (Size::Tiny, 1) => &TINY_LOWER,
            (Size::Small, 0) => &SMALL_UPPER,
            (Size::Small, 1) => &SMALL_LOWER,
            _ => &[],
        }
    }

    // The character in a column and a row, if there is one.
    fn character(self, x: u16, y: u16) -> Option<char>
        ensures { result ≡ logo_character self x y }
    {
        let row = self.row(y);
        let column = usize::from(x);
        if column < row.len() {
            Some(row[column])
        } else {
            None
        }
    }
}

// A logo at the corner of an area.
#[derive(Drop)]
struct Placed {
    size: Size,
    area: Rect,
}

impl CellChange for Placed {
    ghost use Rattle.std.specs.Prelude.{⊤};
    ghost use Rattle.widget_logo.specs.Logos.{logo_cell};

    ghost made = { λ l. logo_cell l.size l.area };

    ghost is_light = { λ _ _ _. ⊤ };

    fn change(&self, alloc: Global, position: Position, cell: &mut Cell) -> Result<(), AllocError> {
        let x = position.x.saturating_sub(self.area.x);
        let y = position.y.saturating_sub(self.area.y);
        match self.size.character(x, y) {
            Some(character) => cell.set_char(alloc, character),
            None => Ok(()),
        }
    }
}

/// From the corner of the area on, as far as the buffer has it: each character in a cell, which
/// keeps its colours. What is beside and below them stays. It takes no memory.
impl Widget for &RatatuiLogo {
    ghost use Rattle.std.specs.Prelude.{⊤};
    ghost use Rattle.widget_logo.specs.Logos.{RendersLogo};

    ghost renders = { λ logo. RendersLogo logo.now.size };

    ghost is_short = { λ _ _ _. ⊤ };

    fn render(self, area: Rect, buf: &mut Buffer) -> Result<(), AllocError> {
        let part = area.intersection(*buf.area());
        let placed = Placed {
            size: self.size,
            area: part,
        };
        change_area(buf, part, &placed)
    }
}

impl Widget for RatatuiLogo {
    ghost use Rattle.std.specs.Prelude.{⊤};
    ghost use Rattle.widget_logo.specs.Logos.{RendersLogo};

    ghost renders = { λ logo. RendersLogo logo.size };

    ghost is_short = { λ _ _ _. ⊤ };

    fn render(self, area: Rect, buf: &mut Buffer) -> Result<(), AllocError> {
        (&self).render(area, buf)
    }
}
