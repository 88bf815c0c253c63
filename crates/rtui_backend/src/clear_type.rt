ghost use Rattle.std.specs.Prelude.{Some};
ghost use Rattle.rtui_layout.specs.Names.{ReadsName};
ghost use Rattle.rtui_backend.specs.Clear.{clear_name};

use rtui_layout::ParseError;
use std::fmt;
use std::str::FromStr;

/// Which part of the screen is emptied.
#[derive(Debug, Clone, Copy, PartialEq, Eq, Hash)]
pub enum ClearType {
    /// All of it.
    All,
    /// From the cursor to the end of its row, and all rows below.
    AfterCursor,
    /// All rows above the cursor, and its row up to and with it.
    BeforeCursor,
    /// The cursor's row.
    CurrentLine,
    /// From the cursor to the end of its row.
    UntilNewLine,
}

impl fmt::Display for ClearType {
    ghost output = { λ kind. Some (clear_name kind) };

    fn fmt<W: fmt::Write>(&self, f: &mut fmt::Formatter<W>) -> fmt::Result {
        f.write_str(match self {
            ClearType::All => "All",
            ClearType::AfterCursor => "AfterCursor",
            ClearType::BeforeCursor => "BeforeCursor",
            ClearType::CurrentLine => "CurrentLine",
            ClearType::UntilNewLine => "UntilNewLine",
        })
    }
}

impl FromStr for ClearType {
    type Err = ParseError;

    ghost from_str_gives = { ReadsName clear_name };

    fn from_str(s: &str) -> Result<Self, ParseError> {
        match s {
            "All" => Ok(ClearType::All),
            "AfterCursor" => Ok(ClearType::AfterCursor),
            "BeforeCursor" => Ok(ClearType::BeforeCursor),
            "CurrentLine" => Ok(ClearType::CurrentLine),
            "UntilNewLine" => Ok(ClearType::UntilNewLine),
            _ => Err(ParseError::VariantNotFound),
        }
    }
}
