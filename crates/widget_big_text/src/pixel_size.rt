//! How large a pixel of a letter is.

ghost use Rattle.std.specs.Prelude.{◌≡◌};
ghost use Rattle.widget_big_text.specs.Glyphs.{pixels_across, pixels_down, letter_columns, letter_rows};

/// How large a pixel of a letter is: which part of a cell it takes.
#[derive(Debug, Default, Clone, Copy, PartialEq, Eq, Hash)]
pub enum PixelSize {
    /// A pixel is a cell: a letter has 8 columns and 8 rows.
    #[default]
    Full,
    /// A pixel is the upper or the lower half of a cell: a letter has 8 columns and 4 rows.
    HalfHeight,
    /// A pixel is the left or the right half of a cell: a letter has 4 columns and 8 rows.
    HalfWidth,
    /// A pixel is a quarter of a cell: a letter has 4 columns and 4 rows.
    Quadrant,
}

impl PixelSize {
    /// Returns how many pixels a cell shows side by side, and how many one below the other.
    pub fn pixels_per_cell(self) -> (u16, u16)
        ensures across { result.0 ≡ pixels_across self }
        ensures down { result.1 ≡ pixels_down self }
    {
        match self {
            PixelSize::Full => (1, 1),
            PixelSize::HalfHeight => (1, 2),
            PixelSize::HalfWidth => (2, 1),
            PixelSize::Quadrant => (2, 2),
        }
    }

    /// Returns how many columns a letter takes.
    pub fn letter_columns(self) -> u16
        ensures { result ≡ letter_columns self }
    {
        8 / self.pixels_per_cell().0
    }

    /// Returns how many rows a letter takes.
    pub fn letter_rows(self) -> u16
        ensures { result ≡ letter_rows self }
    {
        8 / self.pixels_per_cell().1
    }
}
