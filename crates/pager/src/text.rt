//! A text of any bytes.

ghost use Rattle.std.specs.Prelude.{◌≡◌, false, [], IfOk};
ghost use Rattle.std.specs.Str.{IsUtf8};
ghost use Rattle.pager.specs.Parted.{has_signs};

use crate::parting::parted;
use crate::styles::Styles;
use bumpalo::Bump;
use simdutf8::basic::from_utf8;
use std::alloc::{AllocError, Global};

// Puts a byte as `<FF>` at the end of a text: its value in two hexadecimal digits.
fn push_byte(text: &mut String, byte: u8) -> Result<(), AllocError> {
    text.push('<')?;
    for digit in [byte >> 4, byte & 15] {
        text.push(char::from_digit(u32::from(digit), 16).map_or(
            '?',
            |digit| digit.to_ascii_uppercase(),
        ))?;
    }
    text.push('>')
}

// A text of bytes some of which are part of no character in UTF-8.
fn with_bytes_shown(alloc: Global, bytes: &[u8]) -> Result<String, AllocError> {
    let mut text = String::new(alloc);
    for chunk in bytes.utf8_chunks() {
        text.push_str(chunk.valid())?;
        for byte in chunk.invalid() {
            push_byte(&mut text, *byte)?;
        }
    }
    Ok(text)
}

// What a text says, in an arena, and the styles in which it says it.
fn kept<'a>(alloc: Global, arena: &'a Bump, text: &str) -> Result<(&'a str, Styles), AllocError>
    ensures text { IfOk result (λ r. has_signs text.now ≡ false → r.0.now ≡ text.now) }
    ensures plain { IfOk result (λ r. has_signs text.now ≡ false → r.1 ≡ []) }
{
    match parted(alloc, text)? {
        Some((said, styles)) => Ok((arena.try_alloc_str(said.as_str())?, styles)),
        None => Ok((arena.try_alloc_str(text)?, Styles::new(alloc))),
    }
}

/// Returns what bytes say, in an arena, and the styles in which they say it: themselves in none, if
/// they are UTF-8 without an escape or a backspace. A byte that is part of no character stands as
/// `<FF>`.
///
/// # Errors
///
/// `AllocError` if memory is refused.
pub fn parted_text<'a>(
    alloc: Global,
    arena: &'a Bump,
    bytes: &[u8],
) -> Result<(&'a str, Styles), AllocError>
    ensures text { IfOk result (λ r. IsUtf8 bytes.now → has_signs bytes.now ≡ false
        → r.0.now ≡ bytes.now) }
    ensures plain { IfOk result (λ r. IsUtf8 bytes.now → has_signs bytes.now ≡ false
        → r.1 ≡ []) }
{
    match from_utf8(bytes) {
        Ok(text) => kept(alloc, arena, text),
        Err(_) => {
            let text = with_bytes_shown(alloc, bytes)?;
            kept(alloc, arena, text.as_str())
        }
    }
}
