//! Names as they are shown.

ghost use Rattle.std.specs.Prelude.{◌≡◌, ◌++◌, OnOk, string_bytes};
ghost use Rattle.ansi_model.specs.Symbols.{is_shown, has_columns};
ghost use Rattle.files.specs.Names.{is_plain, last_hex_digit, escaped_low, escaped_high, shown_name_char, shown_name};
ghost use Rattle.files.specs.Names.{shown_text_char, text_shown};

use ansi_model::is_plain as is_plain_char;
use std::alloc::AllocError;
use unicode_width::UnicodeWidthChar;

// Whether a character is shown, or joins one that is.
fn is_shown(c: char) -> bool
    ensures { result ≡ is_shown c }
{
    !matches!(
        c,
        '\u{0}'..='\u{1f}'
            | '\u{7f}'..='\u{9f}'
            | '\u{61c}'
            | '\u{200e}'..='\u{200f}'
            | '\u{202a}'..='\u{202e}'
            | '\u{2066}'..='\u{2069}'
    )
}

// Whether a character has columns of its own.
fn has_columns(c: char) -> bool
    ensures { result ≡ has_columns c }
{
    is_plain_char(c) || c.width().unwrap_or(0) > 0
}

// Whether a character is shown as itself.
fn is_plain(c: char) -> bool
    ensures { result ≡ is_plain c }
{
    c != '\\' && c != '"' && is_shown(c) && has_columns(c)
}

// Appends the last hexadecimal digit of a number.
fn push_digit(text: &mut String, number: u32) -> Result<(), AllocError>
    ensures { OnOk result (string_bytes text.new ≡ string_bytes text.old ++ last_hex_digit number) }
{
    match char::from_digit(number % 16, 16) {
        Some(digit) => text.push(digit),
        None => Ok(()),
    }
}

// Appends what stands for a character below 256.
fn push_low(text: &mut String, code: u32) -> Result<(), AllocError>
    ensures { OnOk result (string_bytes text.new ≡ string_bytes text.old ++ escaped_low code) }
{
    text.push_str("\\x")?;
    push_digit(text, code / 16)?;
    push_digit(text, code)
}

// Appends what stands for another character.
fn push_high(text: &mut String, code: u32) -> Result<(), AllocError>
    ensures { OnOk result (string_bytes text.new ≡ string_bytes text.old ++ escaped_high code) }
{
    text.push_str("\\u")?;
    push_digit(text, code / 1048576)?;
    push_digit(text, code / 65536)?;
    push_digit(text, code / 4096)?;
    push_digit(text, code / 256)?;
    push_digit(text, code / 16)?;
    push_digit(text, code)
}

// Appends what is shown for a character.
fn push_char(text: &mut String, c: char) -> Result<(), AllocError>
    ensures { OnOk result (string_bytes text.new ≡ string_bytes text.old ++ shown_name_char c) }
{
    let code = c as u32;
    if is_plain(c) {
        text.push(c)
    } else if code < 256 {
        push_low(text, code)
    } else {
        push_high(text, code)
    }
}

/// Appends what is shown for a name.
pub(crate) fn push_name(text: &mut String, name: &str) -> Result<(), AllocError>
    ensures { OnOk result (string_bytes text.new ≡ string_bytes text.old ++ shown_name name.now) }
{
    for c in name.chars() {
        push_char(text, c)?;
    }
    Ok(())
}

// Appends what is shown for a character of a text.
fn push_text_char(text: &mut String, c: char) -> Result<(), AllocError>
    ensures { OnOk result (string_bytes text.new ≡ string_bytes text.old ++ shown_text_char c) }
{
    let code = c as u32;
    if c == '\t' {
        text.push_str("    ")
    } else if is_shown(c) {
        text.push(c)
    } else if code < 256 {
        push_low(text, code)
    } else {
        push_high(text, code)
    }
}

/// Appends what is shown for a line of a text.
pub(crate) fn push_text(text: &mut String, line: &str) -> Result<(), AllocError>
    ensures { OnOk result (string_bytes text.new ≡ string_bytes text.old ++ text_shown line.now) }
{
    for c in line.chars() {
        push_text_char(text, c)?;
    }
    Ok(())
}
