ghost use Rattle.std.specs.Prelude.{◌≡◌, ◌*◌, Some};
ghost use Rattle.rtui_geometry.specs.Display.{size_text};

use crate::rect::Rect;
use std::fmt;

/// A number of columns and a number of rows.
#[derive(Debug, Default, Clone, Copy, PartialEq, Eq, Hash)]
pub struct Size {
    pub width: u16,
    pub height: u16,
}

impl Size {
    /// No columns and no rows.
    pub const ZERO: Self = Size {
        width: 0,
        height: 0,
    };

    /// The least size, `ZERO`.
    pub const MIN: Self = Size {
        width: 0,
        height: 0,
    };

    /// The greatest size.
    pub const MAX: Self = Size {
        width: 65535,
        height: 65535,
    };

    /// Makes the size of `width` columns and `height` rows.
    pub fn new(width: u16, height: u16) -> Self
        ensures { result ≡ record { width = width; height = height } }
    {
        Size { width, height }
    }

    /// Returns how many cells a rectangle of this size has.
    pub fn area(self) -> u32
        ensures { result ≡ self.width * self.height }
    {
        u32::from(self.width) * u32::from(self.height)
    }
}

impl From<(u16, u16)> for Size {
    ghost from_gives = { λ pair s. s ≡ record { width = pair.0; height = pair.1 } };

    fn from((width, height): (u16, u16)) -> Self {
        Size { width, height }
    }
}

impl From<Size> for (u16, u16) {
    ghost from_gives = { λ s pair. pair ≡ (s.width, s.height) };

    fn from(size: Size) -> Self {
        (size.width, size.height)
    }
}

impl From<Rect> for Size {
    ghost from_gives = { λ r s. s ≡ record { width = r.width; height = r.height } };

    fn from(rect: Rect) -> Self {
        rect.as_size()
    }
}

/// `WxH`
impl fmt::Display for Size {
    ghost output = { λ s. Some (size_text s) };

    fn fmt<W: fmt::Write>(&self, f: &mut fmt::Formatter<W>) -> fmt::Result {
        let width = self.width;
        let height = self.height;
        write!(f, "{width}x{height}")
    }
}
