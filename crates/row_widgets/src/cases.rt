//! The cases that lines say.

use crate::looks::style_of;
use ratatui_core::layout::HorizontalAlignment;
use ratatui_core::style::Style;

/// A case: a widget, the size of a buffer, options with a tab between each two, and texts between
/// bars.
#[derive(Drop)]
pub struct Case<'a> {
    pub kind: &'a str,
    pub width: u16,
    pub height: u16,
    pub options: &'a str,
    pub texts: &'a str,
}

/// Returns the case that a line says, if it says one.
pub fn case_of(line: &str) -> Option<Case<'_>> {
    let (head, texts) = line.split_once("\t| ").unwrap_or((line, ""));
    let (kind, rest) = head.split_once("\t")?;
    let (size, options) = rest.split_once("\t").unwrap_or((rest, ""));
    let (width, height) = size.split_once("x")?;
    Some(Case {
        kind,
        width: width.parse().ok()?,
        height: height.parse().ok()?,
        options,
        texts,
    })
}

/// Reads two numbers with a comma between them.
pub fn pair_of(word: &str) -> Option<(i64, i64)> {
    let (first, second) = word.split_once(",")?;
    Some((first.parse().ok()?, second.parse().ok()?))
}

impl<'a> Case<'a> {
    /// Returns what an option says, if it stands there: an empty text if it says nothing.
    pub fn option(&self, name: &str) -> Option<&'a str> {
        for word in self.options.split("\t") {
            let (key, value) = word.split_once("=").unwrap_or((word, ""));
            if key == name {
                return Some(value);
            }
        }
        None
    }

    /// Returns what an option says, or an empty text.
    pub fn text(&self, name: &str) -> &'a str {
        self.option(name).unwrap_or("")
    }

    /// Returns the number that an option says, if it says one.
    pub fn number(&self, name: &str) -> Option<usize> {
        self.option(name)?.parse().ok()
    }

    /// Returns the number that an option says, cut at 65535, or another one.
    pub fn small(&self, name: &str, other: u16) -> u16 {
        match self.number(name) {
            Some(number) => number.min(65535) as u16,
            None => other,
        }
    }

    /// Returns the two numbers that an option says, or 0 and 10.
    pub fn bounds(&self, name: &str) -> [i64; 2] {
        let (low, high) = pair_of(self.text(name)).unwrap_or((0, 10));
        [low, high]
    }

    /// Returns the style that an option says.
    pub fn style(&self, name: &str) -> Style {
        style_of(self.text(name))
    }

    /// Returns the style that an option says, or another one.
    pub fn style_or(&self, name: &str, other: &str) -> Style {
        style_of(self.option(name).unwrap_or(other))
    }

    /// Returns the alignment that an option says.
    pub fn alignment(&self, name: &str) -> HorizontalAlignment {
        match self.text(name) {
            "center" => HorizontalAlignment::Center,
            "right" => HorizontalAlignment::Right,
            _ => HorizontalAlignment::Left,
        }
    }
}
