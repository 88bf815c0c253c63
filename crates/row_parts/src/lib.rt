//! Rows of widgets of crates of their own, and a picture of each: what stands in each cell, and in
//! which colour.
//!
//! A row has the name of a widget, the size of a buffer, words and a text, with a tab between each
//! two. In the text of a popup a slash ends a line; that of a throbber is its label; in that of a
//! tree a slash ends an item, which begins with its depth (`1 lib.rt`; after a star its line is
//! green). `-` is no word, and no line, item or label.
//!
//! A word for all is `at:X,Y,WIDTH,HEIGHT`, the area in place of the whole buffer, and one for
//! popups and throbbers `red` or `blue`, the background of the widget. A popup's are `box`,
//! `title:TEXT`, `top`, `boxpad:LEFT,RIGHT,TOP,BOTTOM`, `center`, `right`, and `green`, the
//! background of its text; a throbber's `set:NAME`, `full`, `empty`, `next`, `step:NUMBER`, and
//! `green`, the foreground of its symbol.
//!
//! A tree's words are `box`, `title:TEXT`, `red`, its background, `blue`, the selected row's, and
//! the symbols `mark:TEXT`, `opened:TEXT`, `closed:TEXT` and `leaf:TEXT`; how its state begins,
//! `offset:NODE` and `begin:NODE`; and calls in turn: `select:NODE`, `open:NODE`, `close:NODE`,
//! `toggle:NODE`, `none`, `toggle`, `close`, `first`, `last`, `down`, `up`, `left`, `right`, and
//! `draw`, a rendering elsewhere. The calls' answers are printed, `+` for true and `-` for false.
//!
//! The text of a scroll view is its content, and a slash ends a line. Its words are
//! `size:COLUMNS,ROWS`, the content's, `red`, its background, `bars:`, `down-bar:` and `across-bar:`
//! with `always` or `never`, and calls in turn: `up`, `down`, `left`, `right`, `page-up`, `page-down`,
//! `top`, `bottom`, and `to:X,Y`. A row of a calendar begins with a date: the crate `row_months` says
//! what it has.
//!
//! In a big text a slash ends a line; a line that begins with `<` or `>` is aligned so, one with `*`
//! is green behind its letters, and one with `_` has green letters. Its words are `half-height`,
//! `half-width`, `quadrant`, `center`, `right`, `red`, its background, and `box`. A logo has the word
//! `small`, a mascot `red`, its eye, and a map `high`, `dots` in place of Braille, and
//! `in:LEFT,RIGHT,BOTTOM,TOP`, in degrees; they have no text.
//!
//! A picture has the buffer's rows between bars, in which letters stood before, and beside them a
//! letter for each cell's colour: a capital for the background, else one for the foreground, or a
//! dot. The letters of a mascot are those of its dots, and `o` for a red eye. A line `# NAME` begins a
//! group.
#![tactic(auto)]

mod big_texts;
mod logos;
mod maps;
mod pictures;
mod popups;
mod rows;
mod scrolls;
mod throbbers;
mod trees;

use crate::pictures::picture;
use crate::rows::Row;
use std::alloc::{AllocError, Global};
use std::io;

// The picture of a row.
fn shown(alloc: Global, row: &Row<'_>) -> Result<String, AllocError> {
    let mut buffer = row.buffer(alloc)?;
    let said = match row.name {
        "popup" => popups::render(alloc, row, &mut buffer)?,
        "throbber" => throbbers::render(alloc, row, &mut buffer)?,
        "scroll" => scrolls::render(alloc, row, &mut buffer)?,
        "big" => big_texts::render(alloc, row, &mut buffer)?,
        "logo" => logos::render(alloc, row, &mut buffer)?,
        "mascot" => logos::render_mascot(alloc, row, &mut buffer)?,
        "map" => maps::render(alloc, row, &mut buffer)?,
        "tree" => trees::render(alloc, row, &mut buffer)?,
        _ => String::from_str(alloc, "no such widget")?,
    };
    let rows = picture(alloc, &buffer)?;
    format!(in alloc; "{said}\n{rows}")
}

/// Prints a row of text, and its picture.
pub fn print_row(rt: &HostRuntime, line: &str) -> io::Result<()> {
    println!(rt; "{line}")?;
    if let Some(picture) = row_months::picture(rt.alloc(), line)? {
        return print!(rt; "{picture}");
    }
    if let Some(row) = Row::read(line) {
        let shown = shown(rt.alloc(), &row)?;
        println!(rt; "{shown}")?;
    }
    Ok(())
}
