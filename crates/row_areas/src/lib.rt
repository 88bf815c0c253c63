//! Rows of keys and what they make of a text of lines, or of a field of one line; rows of views of a
//! text of lines; and rows of the places where a field's cursor stops.
//!
//! A row of keys has a text, words and the text that they make of it, with a tab between each two. In
//! a text `|` is the cursor, and `\n`, `\r`, `\t`, `\e` and `\s` are a line feed, a carriage return, a
//! tab, an escape and a blank. A word is a key by its name, with `!` if it isn't for an area, or one
//! of `paste:TEXT`, `load:TEXT`, `find:TEXT`, `former:TEXT`, `line:NUMBER:COLUMN`, `steps:NUMBER`,
//! `all`, `mark` and `unmark`; for a field one of `insert:TEXT`, `set:TEXT`, `limit:CHARACTERS`,
//! `steps:NUMBER`, `undo`, `redo` and `clear`. Where memory is refused, all has to be as it was, and
//! the word is done once more.
//!
//! A row of a view has a size, words, a text, what it shows, and the column and the row of the
//! cursor. What is shown are rows with `/` between each two, in which a dot is a blank; a cursor that
//! stands nowhere is `-`. A word is one of `numbers`, `box`, `wrap`, `tab:COLUMNS`, `top:LINE`,
//! `row:NUMBER`, `left:COLUMN` and `ask:TEXT`; `-` is none. `select:NUMBER` selects so many
//! graphemes before the cursor, which stands before them then, `line` underlines the cursor's line,
//! and `styles` shows the cells' styles in place of their symbols: `#` is reversed, `_` underlined.
//!
//! A row of stops has the characters of a text by their numbers, as Unicode's own file has them:
//! `÷` where the cursor stops on its way to the right, and from there back, and `×` where it doesn't.
//!
//! A line `# NAME` begins a group.
#![tactic(auto)]

mod edits;
mod escapes;
mod fields;
mod keys;
mod shown;
mod stops;
mod views;
mod words;

use crate::views::View;
use std::io;

// What the rows of a file are about.
#[derive(Clone, Copy)]
enum Subject {
    Areas,
    Fields,
    Stops,
    Views,
}

// What the rows of a file of this name are about.
fn subject_of(name: &str) -> Subject {
    match name {
        "fields.rows" => Subject::Fields,
        "graphemes.rows" => Subject::Stops,
        "views.rows" => Subject::Views,
        _ => Subject::Areas,
    }
}

// Whether a row of a view holds; if it doesn't, what is shown in its place is printed.
fn view_holds(rt: &HostRuntime, line: &str) -> io::Result<bool> {
    let Some(view) = View::read(line) else {
        return Ok(false);
    };
    let shown = view.shown(rt.alloc())?;
    let is_held = view.wants(shown.as_str());
    if !is_held {
        println!(rt; "shown: {shown}")?;
    }
    Ok(is_held)
}

// Whether a row holds; if it doesn't, it is printed.
fn holds(rt: &HostRuntime, subject: Subject, line: &str) -> io::Result<bool> {
    let is_held = match subject {
        Subject::Areas => keys::holds(rt.alloc(), line)?,
        Subject::Fields => keys::holds_of_field(rt.alloc(), line)?,
        Subject::Stops => stops::holds(rt.alloc(), line)?,
        Subject::Views => view_holds(rt, line)?,
    };
    if !is_held {
        println!(rt; "{line}")?;
    }
    Ok(is_held)
}

/// Prints how many rows of a text that has a name hold, each that doesn't, and what is shown in its
/// place; returns how many don't.
pub fn check(rt: &HostRuntime, name: &str, text: &str) -> io::Result<usize> {
    let subject = subject_of(name);
    let mut held = 0usize;
    let mut differ = 0usize;
    for line in text.lines() {
        if line.is_empty() || line.starts_with('#') {
            continue;
        }
        if holds(rt, subject, line)? {
            held = held.saturating_add(1);
        } else {
            differ = differ.saturating_add(1);
        }
    }
    println!(rt; "{name}: {held} rows hold, {differ} differ")?;
    Ok(differ)
}
