//! The words of a line: numbers, and sizes of screens. Scripts and logs begin with them.
#![tactic(auto)]

ghost use Rattle.std.specs.Prelude.{◌≡◌, ◌<◌, IfSome};
ghost use Rattle.std.specs.Char.{is_ascii_digit};
ghost use Rattle.std.specs.List.{list_all};
ghost use Rattle.script_words.specs.Words.{first_word, after_word, parsed_number, parsed_size, size_by};

use rtui_geometry::Size;

/// Returns the first word of a text, and what stands after the blank that follows it.
pub fn split_word(text: &str) -> (&str, &str)
    ensures first { result.0.now ≡ first_word text.now }
    ensures after { result.1.now ≡ after_word text.now }
{
    match text.split_once(' ') {
        Some(parts) => parts,
        None => (text, ""),
    }
}

fn are_digits(text: &str) -> bool
    ensures { result ≡ list_all is_ascii_digit text.now }
{
    text.bytes().all(|byte| byte.is_ascii_digit())
}

/// Reads a number of decimal digits, at most 65535.
pub fn read_number(text: &str) -> Option<u16>
    ensures { result ≡ parsed_number text.now }
{
    if are_digits(text) {
        text.parse().ok()
    } else {
        None
    }
}

/// Returns two numbers as a size, if both are at least 1.
pub fn size_by(width: Option<u16>, height: Option<u16>) -> Option<Size>
    ensures value { result ≡ size_by width height }
    ensures some { IfSome result (λ size. (0 < size.width) × (0 < size.height)) }
{
    let (width, height) = (width?, height?);
    if width > 0 && height > 0 {
        Some(Size { width, height })
    } else {
        None
    }
}

/// Reads a number of columns and one of rows, both at least 1, with a blank between them.
#[tactic(auto, unfolding(crate::specs::Words::parsed_size))]
pub fn read_size(text: &str) -> Option<Size>
    ensures value { result ≡ parsed_size text.now }
    ensures some { IfSome result (λ size. (0 < size.width) × (0 < size.height)) }
{
    let (width, height) = split_word(text);
    size_by(read_number(width), read_number(height))
}
