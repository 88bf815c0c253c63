ghost use Rattle.std.specs.Prelude.{◌≡◌, Some};
ghost use Rattle.rtui_geometry.specs.Offset.{moved_position, opposite};
ghost use Rattle.rtui_geometry.specs.Display.{position_text};

use crate::offset::{Offset, moved, moved_back};
use crate::rect::Rect;
use std::fmt;
use std::ops::{Add, AddAssign, Sub, SubAssign};

/// A cell of the grid: its column and its row, counted from the top left. Positions are ordered by
/// their column, and then by their row.
///
/// ```
/// Position::new(3, 4) + Offset::new(-5, 1); // (0, 5)
/// ```
#[derive(Debug, Default, Clone, Copy, PartialEq, Eq, PartialOrd, Ord, Hash)]
pub struct Position {
    pub x: u16,
    pub y: u16,
}

impl Position {
    /// The first column of the first row.
    pub const ORIGIN: Self = Position { x: 0, y: 0 };

    /// The least position, `ORIGIN`.
    pub const MIN: Self = Position { x: 0, y: 0 };

    /// The greatest position.
    pub const MAX: Self = Position { x: 65535, y: 65535 };

    /// Makes the position in column `x` of row `y`.
    pub fn new(x: u16, y: u16) -> Self
        ensures { result ≡ record { x = x; y = y } }
    {
        Position { x, y }
    }

    /// Returns the position moved by the offset, as far as the grid goes.
    pub fn offset(self, offset: Offset) -> Self
        ensures { result ≡ moved_position self offset }
    {
        self + offset
    }
}

impl From<(u16, u16)> for Position {
    ghost from_gives = { λ pair p. p ≡ record { x = pair.0; y = pair.1 } };

    fn from((x, y): (u16, u16)) -> Self {
        Position { x, y }
    }
}

impl From<Position> for (u16, u16) {
    ghost from_gives = { λ p pair. pair ≡ (p.x, p.y) };

    fn from(position: Position) -> Self {
        (position.x, position.y)
    }
}

impl From<Rect> for Position {
    ghost from_gives = { λ r p. p ≡ record { x = r.x; y = r.y } };

    fn from(rect: Rect) -> Self {
        rect.as_position()
    }
}

/// `(x, y)`
impl fmt::Display for Position {
    ghost output = { λ p. Some (position_text p) };

    fn fmt<W: fmt::Write>(&self, f: &mut fmt::Formatter<W>) -> fmt::Result {
        let x = self.x;
        let y = self.y;
        write!(f, "({x}, {y})")
    }
}

impl Add<Offset> for Position {
    type Output = Self;

    ghost add_gives = { λ p o r. r ≡ moved_position p o };

    fn add(self, offset: Offset) -> Self {
        Position {
            x: moved(self.x, offset.x, u16::MAX),
            y: moved(self.y, offset.y, u16::MAX),
        }
    }
}

impl Add<Position> for Offset {
    type Output = Position;

    ghost add_gives = { λ o p r. r ≡ moved_position p o };

    fn add(self, position: Position) -> Position {
        position + self
    }
}

impl Sub<Offset> for Position {
    type Output = Self;

    ghost sub_gives = { λ p o r. r ≡ moved_position p (opposite o) };

    fn sub(self, offset: Offset) -> Self {
        Position {
            x: moved_back(self.x, offset.x, u16::MAX),
            y: moved_back(self.y, offset.y, u16::MAX),
        }
    }
}

impl AddAssign<Offset> for Position {
    ghost add_assign_gives = { λ p o r. r ≡ moved_position p o };

    fn add_assign(&mut self, offset: Offset) {
        *self = *self + offset;
    }
}

impl SubAssign<Offset> for Position {
    ghost sub_assign_gives = { λ p o r. r ≡ moved_position p (opposite o) };

    fn sub_assign(&mut self, offset: Offset) {
        *self = *self - offset;
    }
}
