ghost use Rattle.std.specs.Prelude.{Some, codes};

use std::error::Error;
use std::fmt;

/// Why a text was not read as a variant of an enum.
#[derive(Debug, Clone, Copy, PartialEq, Eq, Hash)]
pub enum ParseError {
    /// No variant has the text as its name.
    VariantNotFound,
}

impl fmt::Display for ParseError {
    ghost output = { λ _. Some (codes "Matching variant not found") };

    fn fmt<W: fmt::Write>(&self, f: &mut fmt::Formatter<W>) -> fmt::Result {
        f.write_str("Matching variant not found")
    }
}

impl Error for ParseError {}
