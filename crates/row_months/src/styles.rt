//! Styles by letters.

use ratatui_core::style::{Color, Style};

// A style: a foreground for each small letter, a background for each capital one.
pub fn style_of(letters: &str) -> Style {
    let mut style = Style::new();
    for byte in letters.as_bytes() {
        if byte.is_ascii_uppercase() {
            style = style.bg(Color::Indexed(*byte));
        } else {
            style = style.fg(Color::Indexed(*byte));
        }
    }
    style
}

// The letter of a colour, a point for no such colour.
pub fn letter_of(color: Color) -> char {
    match color {
        Color::Indexed(byte) => char::from(byte),
        _ => '.',
    }
}
