ghost use Rattle.std.specs.Prelude.{◌≡◌, Some};
ghost use Rattle.rtui_layout.specs.Names.{direction_name, ReadsName};

use crate::parse_error::ParseError;
use std::fmt;
use std::str::FromStr;

/// Which way a layout runs.
#[derive(Debug, Default, Clone, Copy, PartialEq, Eq, Hash)]
pub enum Direction {
    /// From left to right.
    Horizontal,
    /// From top to bottom.
    #[default]
    Vertical,
}

impl Direction {
    /// Returns the other direction.
    pub fn perpendicular(self) -> Self
        ensures horizontal { self ≡ Direction.Horizontal → result ≡ Direction.Vertical }
        ensures vertical { self ≡ Direction.Vertical → result ≡ Direction.Horizontal }
    {
        match self {
            Direction::Horizontal => Direction::Vertical,
            Direction::Vertical => Direction::Horizontal,
        }
    }
}

impl fmt::Display for Direction {
    ghost output = { λ d. Some (direction_name d) };

    fn fmt<W: fmt::Write>(&self, f: &mut fmt::Formatter<W>) -> fmt::Result {
        f.write_str(match self {
            Direction::Horizontal => "Horizontal",
            Direction::Vertical => "Vertical",
        })
    }
}

impl FromStr for Direction {
    type Err = ParseError;

    ghost from_str_gives = { ReadsName direction_name };

    fn from_str(s: &str) -> Result<Self, ParseError> {
        match s {
            "Horizontal" => Ok(Direction::Horizontal),
            "Vertical" => Ok(Direction::Vertical),
            _ => Err(ParseError::VariantNotFound),
        }
    }
}
