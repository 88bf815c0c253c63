//! Colours, modifiers and styles as words.
use crate::answer::Show;
use crate::args::Args;
use crate::error::RowError;
use crate::names::entry_of;
use bitflags::Flags;
use ratatui_core::style::{Color, Modifier, Style};
use std::alloc::AllocError;

static MODIFIERS: [(&str, Modifier); 9] = [
    ("bold", Modifier::BOLD),
    ("dim", Modifier::DIM),
    ("italic", Modifier::ITALIC),
    ("underlined", Modifier::UNDERLINED),
    ("slow_blink", Modifier::SLOW_BLINK),
    ("rapid_blink", Modifier::RAPID_BLINK),
    ("reversed", Modifier::REVERSED),
    ("hidden", Modifier::HIDDEN),
    ("crossed_out", Modifier::CROSSED_OUT),
];

// A modifier by its name, or a set by its number, as `bits=512`.
fn modifier_of(word: &str) -> Option<Modifier> {
    if let Some(modifier) = entry_of(&MODIFIERS, word) {
        return Some(*modifier);
    }
    let bits = word.strip_prefix("bits=")?.parse::<u16>().ok()?;
    Some(Modifier::from_bits_retain(bits))
}

// A style with what a word says of it.
fn styled(mut style: Style, word: &str) -> Option<Style> {
    if let Some(name) = word.strip_prefix('!') {
        style.sub_modifier.insert(modifier_of(name)?);
    } else if let Some(modifier) = modifier_of(word) {
        style.add_modifier.insert(modifier);
    } else if word != "plain" {
        let (part, name) = word.split_once('=')?;
        return colored(style, part, name.parse::<Color>().ok()?);
    }
    Some(style)
}

fn colored(style: Style, part: &str, color: Color) -> Option<Style> {
    match part {
        "fg" => Some(style.fg(color)),
        "bg" => Some(style.bg(color)),
        "underline" => Some(style.underline_color(color)),
        _ => None,
    }
}

impl<'a> Args<'a> {
    /// Takes the style that the next words name.
    pub fn style(&mut self) -> Style {
        self.skip_comma();
        let mut style = Style::new();
        for _ in 0..self.len() {
            let Some(next) = self.peek().and_then(|word| styled(style, word)) else {
                break;
            };
            style = next;
            self.skip();
        }
        style
    }

    /// Takes the modifiers that the next words name.
    pub fn modifier(&mut self) -> Modifier {
        self.skip_comma();
        let mut set = Modifier::empty();
        if self.takes("none") {
            return set;
        }
        for _ in 0..self.len() {
            let Some(next) = self.peek().and_then(|word| modifier_of(word)) else {
                break;
            };
            set.insert(next);
            self.skip();
        }
        set
    }

    pub fn color(&mut self) -> Result<Color, RowError> {
        self.value::<Color>()
    }
}

impl Show for Color {
    fn show(&self, out: &mut String) -> Result<(), AllocError> {
        let printed = self.to_string(*out.allocator())?;
        for ch in printed.as_str().chars() {
            out.push(ch.to_ascii_lowercase())?;
        }
        Ok(())
    }
}

// Writes a word after others.
fn put_word(sign: &str, word: &str, out: &mut String) -> Result<(), AllocError> {
    out.push(' ')?;
    out.push_str(sign)?;
    out.push_str(word)
}

// Writes each modifier of a set after a blank and a sign.
fn put_modifiers(set: Modifier, sign: &str, out: &mut String) -> Result<(), AllocError> {
    for (name, modifier) in MODIFIERS.iter() {
        if set.contains(*modifier) {
            put_word(sign, name, out)?;
        }
    }
    let unknown = (set - Modifier::ALL).bits();
    if unknown != 0 {
        write!(out, " {sign}bits={unknown}")?;
    }
    Ok(())
}

fn put_color(name: &str, color: Option<Color>, out: &mut String) -> Result<(), AllocError> {
    if let Some(color) = color {
        put_word(name, "=", out)?;
        color.show(out)?;
    }
    Ok(())
}

/// Writes the words of a style, each after a blank.
pub fn put_style(style: Style, out: &mut String) -> Result<(), AllocError> {
    put_color("fg", style.fg, out)?;
    put_color("bg", style.bg, out)?;
    put_color("underline", style.underline_color, out)?;
    put_modifiers(style.add_modifier, "", out)?;
    put_modifiers(style.sub_modifier, "!", out)
}

// Writes a text without the blank before it, or a word if it is empty.
fn put_words(words: &str, none: &str, out: &mut String) -> Result<(), AllocError> {
    out.push_str(words.strip_prefix(' ').unwrap_or(none))
}

impl Show for Modifier {
    fn show(&self, out: &mut String) -> Result<(), AllocError> {
        let mut words = String::new(*out.allocator());
        put_modifiers(*self, "", &mut words)?;
        put_words(words.as_str(), "none", out)
    }
}

impl Show for Style {
    fn show(&self, out: &mut String) -> Result<(), AllocError> {
        let mut words = String::new(*out.allocator());
        put_style(*self, &mut words)?;
        put_words(words.as_str(), "plain", out)
    }
}
