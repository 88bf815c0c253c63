//! Directions of lists, and when there is room for a highlight symbol, as text, and back.

ghost use Rattle.std.specs.Prelude.{Some};
ghost use Rattle.ratatui_core.specs.Layout.{ReadsName};
ghost use Rattle.widget_list.specs.Names.{list_direction_name, spacing_name};

use crate::list::{HighlightSpacing, ListDirection};
use ratatui_core::layout::ParseError;
use std::fmt;
use std::str::FromStr;

impl fmt::Display for ListDirection {
    ghost output = { λ x. Some (list_direction_name x) };

    fn fmt<W: fmt::Write>(&self, f: &mut fmt::Formatter<W>) -> fmt::Result {
        f.write_str(match self {
            ListDirection::TopToBottom => "TopToBottom",
            ListDirection::BottomToTop => "BottomToTop",
        })
    }
}

impl FromStr for ListDirection {
    type Err = ParseError;

    ghost from_str_gives = { ReadsName list_direction_name };

    fn from_str(s: &str) -> Result<Self, ParseError> {
        match s {
            "TopToBottom" => Ok(ListDirection::TopToBottom),
            "BottomToTop" => Ok(ListDirection::BottomToTop),
            _ => Err(ParseError::VariantNotFound),
        }
    }
}

impl fmt::Display for HighlightSpacing {
    ghost output = { λ x. Some (spacing_name x) };

    fn fmt<W: fmt::Write>(&self, f: &mut fmt::Formatter<W>) -> fmt::Result {
        f.write_str(match self {
            HighlightSpacing::Always => "Always",
            HighlightSpacing::WhenSelected => "WhenSelected",
            HighlightSpacing::Never => "Never",
        })
    }
}

impl FromStr for HighlightSpacing {
    type Err = ParseError;

    ghost from_str_gives = { ReadsName spacing_name };

    fn from_str(s: &str) -> Result<Self, ParseError> {
        match s {
            "Always" => Ok(HighlightSpacing::Always),
            "WhenSelected" => Ok(HighlightSpacing::WhenSelected),
            "Never" => Ok(HighlightSpacing::Never),
            _ => Err(ParseError::VariantNotFound),
        }
    }
}
