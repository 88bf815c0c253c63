ghost use Rattle.std.specs.Prelude.{◌≡◌, ◌<◌, ◌^◌, ◌-◌, pos, negsuc, ◌<ℤ◌, neg_ℤ};
ghost use Rattle.rtui_geometry.specs.Offset.{moved, opposite};

use crate::position::Position;
use std::ops::Neg;

/// A move by a number of columns and a number of rows, to the left and upwards if negative.
#[derive(Debug, Default, Clone, Copy, PartialEq, Eq, Hash)]
pub struct Offset {
    pub x: i32,
    pub y: i32,
}

impl Offset {
    /// No move.
    pub const ZERO: Self = Offset { x: 0, y: 0 };

    /// The move furthest up and to the left.
    pub const MIN: Self = Offset {
        x: -2147483648,
        y: -2147483648,
    };

    /// The move furthest down and to the right.
    pub const MAX: Self = Offset {
        x: 2147483647,
        y: 2147483647,
    };

    /// Makes the move by `x` columns and `y` rows.
    pub fn new(x: i32, y: i32) -> Self
        ensures { result ≡ record { x = x; y = y } }
    {
        Offset { x, y }
    }
}

impl From<Position> for Offset {
    ghost from_gives = { λ p o. o ≡ record { x = pos p.x; y = pos p.y } };

    fn from(position: Position) -> Self {
        Offset {
            x: i32::from(position.x),
            y: i32::from(position.y),
        }
    }
}

impl Neg for Offset {
    type Output = Self;

    ghost can_neg = { λ o. (negsuc 2147483647 <ℤ o.x) × (negsuc 2147483647 <ℤ o.y) };

    ghost neg_gives = { λ o r. r ≡ opposite o };

    fn neg(self) -> Self {
        Offset {
            x: -self.x,
            y: -self.y,
        }
    }
}

// A column or a row moved by a number, and kept from 0 up to a limit.
pub(crate) fn moved(at: u16, by: i32, limit: u16) -> u16
    ensures { result ≡ moved at by limit }
{
    i32::from(at).saturating_add(by).clamp(0, i32::from(limit)) as u16
}

// The same in the other direction.
pub(crate) fn moved_back(at: u16, by: i32, limit: u16) -> u16
    ensures { result ≡ moved at (neg_ℤ by) limit }
{
    i32::from(at).saturating_sub(by).clamp(0, i32::from(limit)) as u16
}
