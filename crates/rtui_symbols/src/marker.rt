//! How a chart marks its points.

ghost use Rattle.std.specs.Prelude.{Some};
ghost use Rattle.rtui_symbols.specs.Marker.{marker_name, ReadsMarker};

use rtui_layout::ParseError;
use std::fmt;
use std::str::FromStr;

/// A dot.
pub const DOT: &str = "•";

/// What marks a point.
///
/// ```
/// "Braille".parse::<Marker>(); // Ok(Marker::Braille)
/// Marker::HalfBlock.to_string(alloc)?; // "HalfBlock"
/// ```
#[derive(Debug, Default, Clone, Copy, PartialEq, Eq, Hash)]
pub enum Marker {
    /// One dot for a point.
    #[default]
    Dot,
    /// A block for a point.
    Block,
    /// A bar for a point.
    Bar,
    /// Braille: two by four points in a column.
    Braille,
    /// Half blocks: two points in a column, one over the other.
    HalfBlock,
    /// Quadrants: two by two points in a column.
    Quadrant,
    /// Sextants: two by three points in a column.
    Sextant,
    /// Octants: two by four points in a column.
    Octant,
    /// This character for a point.
    Custom(char),
}

/// The variant's name, without the character of `Custom`.
impl fmt::Display for Marker {
    ghost output = { λ marker. Some (marker_name marker) };

    fn fmt<W: fmt::Write>(&self, f: &mut fmt::Formatter<W>) -> fmt::Result {
        f.write_str(match self {
            Marker::Dot => "Dot",
            Marker::Block => "Block",
            Marker::Bar => "Bar",
            Marker::Braille => "Braille",
            Marker::HalfBlock => "HalfBlock",
            Marker::Quadrant => "Quadrant",
            Marker::Sextant => "Sextant",
            Marker::Octant => "Octant",
            Marker::Custom(_) => "Custom",
        })
    }
}

/// Reads exactly a variant's name. `Custom` is read with the null character.
impl FromStr for Marker {
    type Err = ParseError;

    ghost from_str_gives = { ReadsMarker };

    fn from_str(text: &str) -> Result<Marker, ParseError> {
        match text {
            "Dot" => Ok(Marker::Dot),
            "Block" => Ok(Marker::Block),
            "Bar" => Ok(Marker::Bar),
            "Braille" => Ok(Marker::Braille),
            "HalfBlock" => Ok(Marker::HalfBlock),
            "Quadrant" => Ok(Marker::Quadrant),
            "Sextant" => Ok(Marker::Sextant),
            "Octant" => Ok(Marker::Octant),
            "Custom" => Ok(Marker::Custom('\0')),
            _ => Err(ParseError::VariantNotFound),
        }
    }
}
