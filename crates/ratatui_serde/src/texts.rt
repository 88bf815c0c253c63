//! Sets as texts, printed and read without serde.

ghost use Rattle.std.specs.Prelude.{Some, IfOk};
ghost use Rattle.widget_boxes.specs.Borders.{border_table, sides_of};
ghost use Rattle.rtui_style.specs.Modifier.{bits_of, modifier_table};
ghost use Rattle.ratatui_serde.specs.Flags.{flags_text, ReadsFlags, ReadsSides};

use crate::borders::{side_words, sides};
use crate::colors::modifier_words;
use crate::setting::Serde;
use bitflags::parser::{self, ParseError};
use rtui_style::Modifier;
use std::fmt;
use std::str::FromStr;
use widget_boxes::Borders;

/// The names with bars between, as serde writes them.
impl fmt::Display for Serde<Modifier> {
    ghost output = { λ modifier. Some (flags_text 16 modifier_table (bits_of modifier.0)) };

    fn fmt<W: fmt::Write>(&self, f: &mut fmt::Formatter<W>) -> fmt::Result {
        let words = modifier_words(self.0)?;
        f.write_str(words.as_str())
    }
}

/// Reads what serde reads.
impl FromStr for Serde<Modifier> {
    type Err = ParseError;

    ghost from_str_gives = { λ text r.
        IfOk r (λ modifier. ReadsFlags 16 modifier_table (bits_of modifier.0) text) };

    fn from_str(text: &str) -> Result<Self, ParseError> {
        Ok(Serde(parser::from_str::<Modifier>(text)?))
    }
}

/// The names with bars between, as serde writes them.
impl fmt::Display for Serde<Borders> {
    ghost output = { λ borders. Some (flags_text 8 border_table (sides_of borders.0)) };

    fn fmt<W: fmt::Write>(&self, f: &mut fmt::Formatter<W>) -> fmt::Result {
        let words = side_words(self.0)?;
        f.write_str(words.as_str())
    }
}

/// Reads what serde reads.
impl FromStr for Serde<Borders> {
    type Err = ParseError;

    ghost from_str_gives = { λ text r.
        IfOk r (λ borders. ReadsSides border_table (sides_of borders.0) text) };

    fn from_str(text: &str) -> Result<Self, ParseError> {
        Ok(Serde(sides(text)?))
    }
}
