//! Rows of throbbers.

use crate::rows::Row;
use ratatui_core::buffer::Buffer;
use ratatui_core::style::{Color, Style};
use ratatui_core::text::Span;
use ratatui_core::widgets::StatefulWidget;
use std::alloc::{AllocError, Global};
use widget_throbber::{
    ARROW, ASCII, BOX_DRAWING, BRAILLE_EIGHT, BRAILLE_SIX, Set, Throbber, ThrobberState, WhichUse,
};

// A set without symbols.
const NONE: Set = Set {
    full: "F",
    empty: "E",
    symbols: &[],
};

// The set of a name.
fn set_of(name: &str) -> Set {
    match name {
        "ascii" => ASCII,
        "lines" => BOX_DRAWING,
        "arrow" => ARROW,
        "eight" => BRAILLE_EIGHT,
        "none" => NONE,
        _ => BRAILLE_SIX,
    }
}

// A throbber with what a word says.
fn throbber_with<'a>(throbber: Throbber<'a>, word: &str) -> Throbber<'a> {
    match word.split_once(':') {
        Some(("set", name)) => throbber.throbber_set(set_of(name)),
        Some(_) => throbber,
        None => match word {
            "full" => throbber.use_type(WhichUse::Full),
            "empty" => throbber.use_type(WhichUse::Empty),
            "red" => throbber.style(Style::new().bg(Color::Red)),
            "blue" => throbber.style(Style::new().bg(Color::Blue)),
            "green" => throbber.throbber_style(Style::new().fg(Color::Green).bg(Color::Reset)),
            _ => throbber,
        },
    }
}

// Goes as far as a word says.
fn go(state: &mut ThrobberState, word: &str) {
    if word == "next" {
        state.calc_next();
        return;
    }
    if let Some(("step", number)) = word.split_once(':') {
        if let Ok(step) = number.parse::<i8>() {
            state.calc_step(step);
        }
    }
}

// A throbber with a label, if there is one.
fn labelled(text: &str) -> Throbber<'_> {
    match text {
        "-" => Throbber::new(),
        label => Throbber::new().label(Span::raw(label)),
    }
}

// The throbber of a row.
fn throbber_of<'a>(row: &Row<'a>) -> Throbber<'a> {
    let mut throbber = labelled(row.text);
    for word in row.words.split(' ') {
        throbber = throbber_with(throbber, word);
    }
    throbber
}

// Renders the throbber of a row; how many steps it has gone.
pub fn render(alloc: Global, row: &Row<'_>, buffer: &mut Buffer) -> Result<String, AllocError> {
    let mut state = ThrobberState::new();
    for word in row.words.split(' ') {
        go(&mut state, word);
    }
    throbber_of(row).render(row.area(), buffer, &mut state)?;
    let index = state.index();
    format!(in alloc; "index {index}")
}
