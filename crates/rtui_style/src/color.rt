//! Colours, printed and read.

ghost use Rattle.std.specs.Prelude.{◌≡◌, Some, codes, map, nat_eq, slice_index};
ghost use Rattle.std.specs.Cmp.Lexicographic.{pointwise};
ghost use Rattle.std.specs.Str.{chars};
ghost use Rattle.rtui_style.specs.Color.{is_kept, lowered, cleaned, color_among, named_color, pair_value};
ghost use Rattle.rtui_style.specs.Color.{hex_color, color_of, color_or_error, color_of_number, color_text};
ghost use Rattle.rtui_style.specs.declared.color.Color.TheVariants.{Rgb};

use std::error::Error;
use std::fmt;
use std::str::FromStr;

/// A colour of a text, of its background, or of the line under it.
#[derive(Debug, Default, Clone, Copy, PartialEq, Eq, Hash)]
pub enum Color {
    /// The terminal's own colour.
    #[default]
    Reset,
    Black,
    Red,
    Green,
    Yellow,
    Blue,
    Magenta,
    Cyan,
    Gray,
    DarkGray,
    LightRed,
    LightGreen,
    LightYellow,
    LightBlue,
    LightMagenta,
    LightCyan,
    White,
    /// A colour by its parts red, green and blue.
    Rgb(u8, u8, u8),
    /// A colour of the terminal's palette of 256.
    Indexed(u8),
}

/// The names of the colours, in lower case and without blanks, dashes and underscores.
const COLOR_NAMES: [(&str, Color); 37] = [
    ("reset", Color::Reset),
    ("black", Color::Black),
    ("red", Color::Red),
    ("green", Color::Green),
    ("yellow", Color::Yellow),
    ("blue", Color::Blue),
    ("magenta", Color::Magenta),
    ("cyan", Color::Cyan),
    ("gray", Color::Gray),
    ("grey", Color::Gray),
    ("silver", Color::Gray),
    ("darkgray", Color::DarkGray),
    ("darkgrey", Color::DarkGray),
    ("darksilver", Color::DarkGray),
    ("lightblack", Color::DarkGray),
    ("brightblack", Color::DarkGray),
    ("lightred", Color::LightRed),
    ("brightred", Color::LightRed),
    ("lightgreen", Color::LightGreen),
    ("brightgreen", Color::LightGreen),
    ("lightyellow", Color::LightYellow),
    ("brightyellow", Color::LightYellow),
    ("lightblue", Color::LightBlue),
    ("brightblue", Color::LightBlue),
    ("lightmagenta", Color::LightMagenta),
    ("brightmagenta", Color::LightMagenta),
    ("lightcyan", Color::LightCyan),
    ("brightcyan", Color::LightCyan),
    ("white", Color::White),
    ("lightwhite", Color::White),
    ("brightwhite", Color::White),
    ("lightgray", Color::White),
    ("brightgray", Color::White),
    ("lightgrey", Color::White),
    ("brightgrey", Color::White),
    ("lightsilver", Color::White),
    ("brightsilver", Color::White),
];

impl Color {
    /// Makes the colour of `0x00RRGGBB`. The top eight bits don't count.
    pub fn from_u32(rgb: u32) -> Self
        ensures { result ≡ color_of_number rgb }
    {
        let red = (rgb >> 16 & 0xff) as u8;
        let green = (rgb >> 8 & 0xff) as u8;
        let blue = (rgb & 0xff) as u8;
        Color::Rgb(red, green, blue)
    }
}

/// The text is no colour.
#[derive(Debug, Clone, Copy, PartialEq, Eq, Hash)]
pub struct ParseColorError;

impl fmt::Display for ParseColorError {
    ghost output = { λ _. Some (codes "Failed to parse Colors") };

    fn fmt<W: fmt::Write>(&self, f: &mut fmt::Formatter<W>) -> fmt::Result {
        f.write_str("Failed to parse Colors")
    }
}

impl Error for ParseColorError {}

/// Returns the character as it counts in a colour's name: ASCII letters in lower case, and the
/// Kelvin sign as a k.
fn lowered(c: char) -> char
    ensures { result ≡ lowered c }
{
    if c == '\u{212A}' {
        'k'
    } else {
        c.to_ascii_lowercase()
    }
}

/// Returns whether the character counts in a colour's name.
fn is_kept(c: char) -> bool
    ensures { result ≡ is_kept c }
{
    !matches!(c, ' ' | '-' | '_')
}

/// Returns whether a text, cleaned, is this name.
fn is_named(text: &str, name: &[u8]) -> bool
    ensures { result ≡ pointwise nat_eq name.now (cleaned text.now) }
{
    let mut rest = name;
    for c in text.chars() {
        if is_kept(c) {
            let Some((first, tail)) = rest.split_first() else {
                return false;
            };
            if *first as char != lowered(c) {
                return false;
            }
            rest = tail;
        }
    }
    rest.is_empty()
}

/// Returns the colour whose name among these a text is.
fn color_among(names: &[(&str, Color)], text: &str) -> Option<Color>
    ensures { result ≡ color_among (map (λ row. (row.0.now, row.1)) names.now) text.now }
{
    for row in names {
        if is_named(text, row.0.as_bytes()) {
            return Some(row.1);
        }
    }
    None
}

/// Returns the colour whose name a text is.
fn named_color(text: &str) -> Option<Color>
    ensures { result ≡ named_color text.now }
{
    color_among(&COLOR_NAMES, text)
}

/// Returns the byte that two characters write: two hexadecimal digits, or a plus and one.
fn pair_value(high: u8, low: u8) -> Option<u8>
    ensures { result ≡ pair_value high low }
{
    let low = (low as char).to_digit(16)?;
    let high = if high == b'+' {
        0
    } else {
        (high as char).to_digit(16)?
    };
    Some((16 * high + low) as u8)
}

/// Returns the colour that `#` and three pairs write.
fn hex_color(text: &str) -> Option<Color>
    ensures { result ≡ hex_color text.now }
{
    let &[b'#', r1, r0, g1, g0, b1, b0] = text.as_bytes() else {
        return None;
    };
    let red = pair_value(r1, r0)?;
    let green = pair_value(g1, g0)?;
    let blue = pair_value(b1, b0)?;
    Some(Color::Rgb(red, green, blue))
}

/// Reads a colour's name, index or `#` form. No memory is taken.
impl FromStr for Color {
    type Err = ParseColorError;

    ghost from_str_gives = { λ text r. r ≡ color_or_error (color_of text) };

    fn from_str(text: &str) -> Result<Color, ParseColorError> {
        if let Some(color) = named_color(text) {
            return Ok(color);
        }
        if let Ok(index) = text.parse::<u8>() {
            return Ok(Color::Indexed(index));
        }
        match hex_color(text) {
            Some(color) => Ok(color),
            None => Err(ParseColorError),
        }
    }
}

/// The variant's name, `#RRGGBB`, or the index in decimal.
impl fmt::Display for Color {
    ghost output = { λ color. Some (color_text color) };

    fn fmt<W: fmt::Write>(&self, f: &mut fmt::Formatter<W>) -> fmt::Result {
        match *self {
            Color::Reset => f.write_str("Reset"),
            Color::Black => f.write_str("Black"),
            Color::Red => f.write_str("Red"),
            Color::Green => f.write_str("Green"),
            Color::Yellow => f.write_str("Yellow"),
            Color::Blue => f.write_str("Blue"),
            Color::Magenta => f.write_str("Magenta"),
            Color::Cyan => f.write_str("Cyan"),
            Color::Gray => f.write_str("Gray"),
            Color::DarkGray => f.write_str("DarkGray"),
            Color::LightRed => f.write_str("LightRed"),
            Color::LightGreen => f.write_str("LightGreen"),
            Color::LightYellow => f.write_str("LightYellow"),
            Color::LightBlue => f.write_str("LightBlue"),
            Color::LightMagenta => f.write_str("LightMagenta"),
            Color::LightCyan => f.write_str("LightCyan"),
            Color::White => f.write_str("White"),
            Color::Rgb(red, green, blue) => write!(f, "#{red:02X}{green:02X}{blue:02X}"),
            Color::Indexed(index) => write!(f, "{index}"),
        }
    }
}

impl From<[u8; 3]> for Color {
    ghost from_gives = { λ parts color. color
        ≡ Rgb (slice_index parts 0) (slice_index parts 1) (slice_index parts 2) };

    fn from([red, green, blue]: [u8; 3]) -> Color {
        Color::Rgb(red, green, blue)
    }
}

impl From<(u8, u8, u8)> for Color {
    ghost from_gives = { λ parts color. color ≡ Rgb parts.0 parts.1 parts.2 };

    fn from((red, green, blue): (u8, u8, u8)) -> Color {
        Color::Rgb(red, green, blue)
    }
}

/// The fourth part doesn't count.
impl From<[u8; 4]> for Color {
    ghost from_gives = { λ parts color. color
        ≡ Rgb (slice_index parts 0) (slice_index parts 1) (slice_index parts 2) };

    fn from([red, green, blue, _]: [u8; 4]) -> Color {
        Color::Rgb(red, green, blue)
    }
}

/// The fourth part doesn't count.
impl From<(u8, u8, u8, u8)> for Color {
    ghost from_gives = { λ parts color. color ≡ Rgb parts.0 parts.1 parts.2 };

    fn from((red, green, blue, _): (u8, u8, u8, u8)) -> Color {
        Color::Rgb(red, green, blue)
    }
}
