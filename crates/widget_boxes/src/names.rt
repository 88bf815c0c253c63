//! Kinds of borders and places of titles as text, and back.

ghost use Rattle.std.specs.Prelude.{Some};
ghost use Rattle.ratatui_core.specs.Layout.{ReadsName};
ghost use Rattle.widget_boxes.specs.Names.{kind_name, place_name};

use crate::border_type::BorderType;
use crate::title::TitlePosition;
use ratatui_core::layout::ParseError;
use std::fmt;
use std::str::FromStr;

impl fmt::Display for BorderType {
    ghost output = { λ x. Some (kind_name x) };

    fn fmt<W: fmt::Write>(&self, f: &mut fmt::Formatter<W>) -> fmt::Result {
        f.write_str(match self {
            BorderType::Plain => "Plain",
            BorderType::Rounded => "Rounded",
            BorderType::Double => "Double",
            BorderType::Thick => "Thick",
            BorderType::LightDoubleDashed => "LightDoubleDashed",
            BorderType::HeavyDoubleDashed => "HeavyDoubleDashed",
            BorderType::LightTripleDashed => "LightTripleDashed",
            BorderType::HeavyTripleDashed => "HeavyTripleDashed",
            BorderType::LightQuadrupleDashed => "LightQuadrupleDashed",
            BorderType::HeavyQuadrupleDashed => "HeavyQuadrupleDashed",
            BorderType::QuadrantInside => "QuadrantInside",
            BorderType::QuadrantOutside => "QuadrantOutside",
        })
    }
}

impl FromStr for BorderType {
    type Err = ParseError;

    ghost from_str_gives = { ReadsName kind_name };

    fn from_str(s: &str) -> Result<Self, ParseError> {
        match s {
            "Plain" => Ok(BorderType::Plain),
            "Rounded" => Ok(BorderType::Rounded),
            "Double" => Ok(BorderType::Double),
            "Thick" => Ok(BorderType::Thick),
            "LightDoubleDashed" => Ok(BorderType::LightDoubleDashed),
            "HeavyDoubleDashed" => Ok(BorderType::HeavyDoubleDashed),
            "LightTripleDashed" => Ok(BorderType::LightTripleDashed),
            "HeavyTripleDashed" => Ok(BorderType::HeavyTripleDashed),
            "LightQuadrupleDashed" => Ok(BorderType::LightQuadrupleDashed),
            "HeavyQuadrupleDashed" => Ok(BorderType::HeavyQuadrupleDashed),
            "QuadrantInside" => Ok(BorderType::QuadrantInside),
            "QuadrantOutside" => Ok(BorderType::QuadrantOutside),
            _ => Err(ParseError::VariantNotFound),
        }
    }
}

impl fmt::Display for TitlePosition {
    ghost output = { λ x. Some (place_name x) };

    fn fmt<W: fmt::Write>(&self, f: &mut fmt::Formatter<W>) -> fmt::Result {
        f.write_str(match self {
            TitlePosition::Top => "Top",
            TitlePosition::Bottom => "Bottom",
        })
    }
}

impl FromStr for TitlePosition {
    type Err = ParseError;

    ghost from_str_gives = { ReadsName place_name };

    fn from_str(s: &str) -> Result<Self, ParseError> {
        match s {
            "Top" => Ok(TitlePosition::Top),
            "Bottom" => Ok(TitlePosition::Bottom),
            _ => Err(ParseError::VariantNotFound),
        }
    }
}
