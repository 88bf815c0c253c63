ghost use Rattle.std.specs.Prelude.{◌≡◌, ◌↔◌, IsTrue, Some};
ghost use Rattle.rtui_layout.specs.Names.{flex_name, ReadsName};

use crate::parse_error::ParseError;
use std::fmt;
use std::str::FromStr;

/// Where the columns or rows go that no part of a layout takes.
#[derive(Debug, Default, Clone, Copy, PartialEq, Eq, Hash)]
pub enum Flex {
    /// The last part takes what is left.
    Legacy,
    /// The parts stand at the start.
    #[default]
    Start,
    /// The parts stand at the end.
    End,
    /// The parts stand in the middle.
    Center,
    /// What is left goes between the parts.
    SpaceBetween,
    /// What is left goes before, between and after the parts, in equal amounts.
    SpaceEvenly,
    /// What is left goes round the parts, so that between two of them there is twice as much as at
    /// either end.
    SpaceAround,
}

impl Flex {
    /// Returns whether this is `Legacy`.
    pub fn is_legacy(&self) -> bool
        ensures { IsTrue result ↔ (self.now ≡ Flex.Legacy) }
    {
        matches!(self, Flex::Legacy)
    }

    /// Returns whether this is `Start`.
    pub fn is_start(&self) -> bool
        ensures { IsTrue result ↔ (self.now ≡ Flex.Start) }
    {
        matches!(self, Flex::Start)
    }

    /// Returns whether this is `End`.
    pub fn is_end(&self) -> bool
        ensures { IsTrue result ↔ (self.now ≡ Flex.End) }
    {
        matches!(self, Flex::End)
    }

    /// Returns whether this is `Center`.
    pub fn is_center(&self) -> bool
        ensures { IsTrue result ↔ (self.now ≡ Flex.Center) }
    {
        matches!(self, Flex::Center)
    }

    /// Returns whether this is `SpaceBetween`.
    pub fn is_space_between(&self) -> bool
        ensures { IsTrue result ↔ (self.now ≡ Flex.SpaceBetween) }
    {
        matches!(self, Flex::SpaceBetween)
    }

    /// Returns whether this is `SpaceEvenly`.
    pub fn is_space_evenly(&self) -> bool
        ensures { IsTrue result ↔ (self.now ≡ Flex.SpaceEvenly) }
    {
        matches!(self, Flex::SpaceEvenly)
    }

    /// Returns whether this is `SpaceAround`.
    pub fn is_space_around(&self) -> bool
        ensures { IsTrue result ↔ (self.now ≡ Flex.SpaceAround) }
    {
        matches!(self, Flex::SpaceAround)
    }
}

impl fmt::Display for Flex {
    ghost output = { λ x. Some (flex_name x) };

    fn fmt<W: fmt::Write>(&self, f: &mut fmt::Formatter<W>) -> fmt::Result {
        f.write_str(match self {
            Flex::Legacy => "Legacy",
            Flex::Start => "Start",
            Flex::End => "End",
            Flex::Center => "Center",
            Flex::SpaceBetween => "SpaceBetween",
            Flex::SpaceEvenly => "SpaceEvenly",
            Flex::SpaceAround => "SpaceAround",
        })
    }
}

impl FromStr for Flex {
    type Err = ParseError;

    ghost from_str_gives = { ReadsName flex_name };

    fn from_str(s: &str) -> Result<Self, ParseError> {
        match s {
            "Legacy" => Ok(Flex::Legacy),
            "Start" => Ok(Flex::Start),
            "End" => Ok(Flex::End),
            "Center" => Ok(Flex::Center),
            "SpaceBetween" => Ok(Flex::SpaceBetween),
            "SpaceEvenly" => Ok(Flex::SpaceEvenly),
            "SpaceAround" => Ok(Flex::SpaceAround),
            _ => Err(ParseError::VariantNotFound),
        }
    }
}
