//! Where scroll bars stand and to which side they are moved, as text, and back.

ghost use Rattle.std.specs.Prelude.{Some};
ghost use Rattle.ratatui_core.specs.Layout.{ReadsName};
ghost use Rattle.widget_scrollbar.specs.Names.{orientation_name, scroll_name};

use crate::scrollbar::{ScrollDirection, ScrollbarOrientation};
use ratatui_core::layout::ParseError;
use std::fmt;
use std::str::FromStr;

impl fmt::Display for ScrollbarOrientation {
    ghost output = { λ x. Some (orientation_name x) };

    fn fmt<W: fmt::Write>(&self, f: &mut fmt::Formatter<W>) -> fmt::Result {
        f.write_str(match self {
            ScrollbarOrientation::VerticalRight => "VerticalRight",
            ScrollbarOrientation::VerticalLeft => "VerticalLeft",
            ScrollbarOrientation::HorizontalBottom => "HorizontalBottom",
            ScrollbarOrientation::HorizontalTop => "HorizontalTop",
        })
    }
}

impl FromStr for ScrollbarOrientation {
    type Err = ParseError;

    ghost from_str_gives = { ReadsName orientation_name };

    fn from_str(s: &str) -> Result<Self, ParseError> {
        match s {
            "VerticalRight" => Ok(ScrollbarOrientation::VerticalRight),
            "VerticalLeft" => Ok(ScrollbarOrientation::VerticalLeft),
            "HorizontalBottom" => Ok(ScrollbarOrientation::HorizontalBottom),
            "HorizontalTop" => Ok(ScrollbarOrientation::HorizontalTop),
            _ => Err(ParseError::VariantNotFound),
        }
    }
}

impl fmt::Display for ScrollDirection {
    ghost output = { λ x. Some (scroll_name x) };

    fn fmt<W: fmt::Write>(&self, f: &mut fmt::Formatter<W>) -> fmt::Result {
        f.write_str(match self {
            ScrollDirection::Forward => "Forward",
            ScrollDirection::Backward => "Backward",
        })
    }
}

impl FromStr for ScrollDirection {
    type Err = ParseError;

    ghost from_str_gives = { ReadsName scroll_name };

    fn from_str(s: &str) -> Result<Self, ParseError> {
        match s {
            "Forward" => Ok(ScrollDirection::Forward),
            "Backward" => Ok(ScrollDirection::Backward),
            _ => Err(ParseError::VariantNotFound),
        }
    }
}
