ghost use Rattle.std.specs.Prelude.{Some};
ghost use Rattle.rtui_layout.specs.Names.{horizontal_name, vertical_name, ReadsName};

use crate::parse_error::ParseError;
use std::fmt;
use std::str::FromStr;

/// The alignment of a text between left and right.
pub type Alignment = HorizontalAlignment;

/// Where something stands between left and right.
#[derive(Debug, Default, Clone, Copy, PartialEq, Eq, Hash)]
pub enum HorizontalAlignment {
    #[default]
    Left,
    Center,
    Right,
}

impl fmt::Display for HorizontalAlignment {
    ghost output = { λ a. Some (horizontal_name a) };

    fn fmt<W: fmt::Write>(&self, f: &mut fmt::Formatter<W>) -> fmt::Result {
        f.write_str(match self {
            HorizontalAlignment::Left => "Left",
            HorizontalAlignment::Center => "Center",
            HorizontalAlignment::Right => "Right",
        })
    }
}

impl FromStr for HorizontalAlignment {
    type Err = ParseError;

    ghost from_str_gives = { ReadsName horizontal_name };

    fn from_str(s: &str) -> Result<Self, ParseError> {
        match s {
            "Left" => Ok(HorizontalAlignment::Left),
            "Center" => Ok(HorizontalAlignment::Center),
            "Right" => Ok(HorizontalAlignment::Right),
            _ => Err(ParseError::VariantNotFound),
        }
    }
}

/// Where something stands between top and bottom.
#[derive(Debug, Default, Clone, Copy, PartialEq, Eq, Hash)]
pub enum VerticalAlignment {
    #[default]
    Top,
    Center,
    Bottom,
}

impl fmt::Display for VerticalAlignment {
    ghost output = { λ a. Some (vertical_name a) };

    fn fmt<W: fmt::Write>(&self, f: &mut fmt::Formatter<W>) -> fmt::Result {
        f.write_str(match self {
            VerticalAlignment::Top => "Top",
            VerticalAlignment::Center => "Center",
            VerticalAlignment::Bottom => "Bottom",
        })
    }
}

impl FromStr for VerticalAlignment {
    type Err = ParseError;

    ghost from_str_gives = { ReadsName vertical_name };

    fn from_str(s: &str) -> Result<Self, ParseError> {
        match s {
            "Top" => Ok(VerticalAlignment::Top),
            "Center" => Ok(VerticalAlignment::Center),
            "Bottom" => Ok(VerticalAlignment::Bottom),
            _ => Err(ParseError::VariantNotFound),
        }
    }
}
