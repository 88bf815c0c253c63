ghost use Rattle.std.specs.Prelude.{◌≡◌, Some};
ghost use Rattle.rtui_geometry.specs.Display.{margin_text};

use std::fmt;

/// The space between a rectangle and what lies in it: columns on the left and on the right, and
/// rows at the top and at the bottom.
#[derive(Debug, Default, Clone, Copy, PartialEq, Eq, Hash)]
pub struct Margin {
    pub horizontal: u16,
    pub vertical: u16,
}

impl Margin {
    /// Makes a margin of `horizontal` columns on either side and `vertical` rows above and below.
    pub fn new(horizontal: u16, vertical: u16) -> Self
        ensures { result ≡ record { horizontal = horizontal; vertical = vertical } }
    {
        Margin {
            horizontal,
            vertical,
        }
    }
}

impl From<u16> for Margin {
    ghost from_gives = { λ n m. m ≡ record { horizontal = n; vertical = n } };

    fn from(value: u16) -> Self {
        Margin::new(value, value)
    }
}

/// `HxV`
impl fmt::Display for Margin {
    ghost output = { λ m. Some (margin_text m) };

    fn fmt<W: fmt::Write>(&self, f: &mut fmt::Formatter<W>) -> fmt::Result {
        let horizontal = self.horizontal;
        let vertical = self.vertical;
        write!(f, "{horizontal}x{vertical}")
    }
}
