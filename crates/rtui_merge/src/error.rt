//! Why a text was not read as a border symbol.
ghost use Rattle.std.specs.Prelude.{Some, codes};

use std::error::Error;
use std::fmt;

/// Why a text was not read as a border symbol.
#[derive(Debug, Clone, Copy, PartialEq, Eq)]
pub enum BorderSymbolError {
    /// The text is no border symbol.
    CannotParse,
}

impl fmt::Display for BorderSymbolError {
    ghost output = { λ _. Some (codes "The text is no border symbol") };

    fn fmt<W: fmt::Write>(&self, f: &mut fmt::Formatter<W>) -> fmt::Result {
        f.write_str("The text is no border symbol")
    }
}

impl Error for BorderSymbolError {}
