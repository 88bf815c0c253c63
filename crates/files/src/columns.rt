//! What stands in the columns of a row.

ghost use Rattle.std.specs.Prelude.{◌≡◌, ◌++◌, ◌-◌, ◌<◌, IfOk, OnOk, string_bytes};
ghost use Rattle.files.specs.Columns.{above_width, folder_width, ahead_start, shows_entries, is_parted};
ghost use Rattle.files.specs.declared.glance.Sight.TheVariants as sight;
ghost use Rattle.files.specs.Columns.{in_first, sight_text, above_place, above_text, is_own_row, entry_kind, unseen_text, ahead_text};

use crate::browser::{Browser, Mode};
use crate::glance::{Glance, Lines, Sight};
use crate::glancing::is_wide;
use crate::list::{Row, Rows};
use crate::texts::{failure_text, push_row, row_place};
use itoa::Buffer as Digits;
use std::alloc::{AllocError, Global};

/// Returns how many columns are for the folder above.
pub(crate) fn above_width(width: u16) -> u16
    ensures { result ≡ above_width width }
{
    width / 12 * 2
}

/// Returns how many columns are for the folder.
pub(crate) fn folder_width(width: u16) -> u16
    ensures { result ≡ folder_width width }
{
    width / 12 * 5
}

/// Returns how many columns stand before what is selected.
pub(crate) fn ahead_start(width: u16) -> u16
    ensures { result ≡ ahead_start width }
{
    width / 12 * 7
}

// Appends a row of the entries of a folder.
fn push_entry(text: &mut String, rows: &Rows, place: usize) -> Result<(), AllocError>
    ensures { OnOk result (string_bytes text.new
        ≡ string_bytes text.old ++ sight_text (sight.Entries rows.now) place) }
{
    if rows.len() == 0 {
        return push_first(text, place, "empty");
    }
    match rows.get(place) {
        Some(row) => push_row(text, row),
        None => Ok(()),
    }
}

// Appends a row of lines.
fn push_line(text: &mut String, lines: &Lines, place: usize) -> Result<(), AllocError>
    ensures { OnOk result (string_bytes text.new
        ≡ string_bytes text.old ++ sight_text (sight.Lines lines.now) place) }
{
    if lines.len() == 0 {
        return push_first(text, place, "empty");
    }
    match lines.get(place) {
        Some(line) => text.push_str(line.as_str()),
        None => Ok(()),
    }
}

// Appends a text in the first row, and nothing in those after it.
fn push_first(text: &mut String, place: usize, first: &str) -> Result<(), AllocError>
    ensures { OnOk result (string_bytes text.new ≡ string_bytes text.old ++ in_first place first.now) }
{
    if place == 0 {
        text.push_str(first)
    } else {
        Ok(())
    }
}

// Appends how many bytes a file has that is no text, in the first row.
fn push_bytes(text: &mut String, place: usize, size: u64) -> Result<(), AllocError>
    ensures { OnOk result (string_bytes text.new
        ≡ string_bytes text.old ++ sight_text (sight.Size size) place) }
{
    if place > 0 {
        return Ok(());
    }
    let mut digits = Digits::new();
    text.push_str(digits.format(size))?;
    text.push_str(" bytes, no text")
}

// A row of what is seen.
fn sight_text(alloc: Global, sight: &Sight, place: usize) -> Result<String, AllocError>
    ensures { IfOk result (λ text. string_bytes text ≡ sight_text sight.now place) }
{
    let mut text = String::new(alloc);
    match sight {
        Sight::Entries(rows) => push_entry(&mut text, rows, place)?,
        Sight::Lines(lines) => push_line(&mut text, lines, place)?,
        Sight::Size(size) => push_bytes(&mut text, place, *size)?,
        Sight::Failed(why) => push_first(&mut text, place, failure_text(*why))?,
    }
    Ok(text)
}

// The row of the folder above that stands in a row of the list.
fn above_place(k: u16, height: u16, glance: &Glance) -> usize
    ensures { result ≡ above_place k height glance.now }
{
    let top = glance.place.saturating_sub(usize::from(height / 2));
    row_place(top, k)
}

// What an entry is of which nothing more is seen.
fn entry_kind(row: &Row) -> &'static str
    ensures { result.now ≡ entry_kind row.now }
{
    if !row.is_leaf {
        ""
    } else if row.is_link {
        "a link"
    } else if row.size.is_some() {
        ""
    } else {
        "neither a file nor a folder"
    }
}

impl Browser {
    // Whether the rows show entries.
    pub(crate) fn shows_entries(&self) -> bool
        ensures { result ≡ shows_entries self.now.mode }
    {
        match self.mode {
            Mode::Helping => false,
            _ => true,
        }
    }

    /// Returns whether a row has three columns.
    pub(crate) fn is_parted(&self, k: u16, width: u16, height: u16) -> bool
        requires { k < height }
        ensures { result ≡ is_parted k width height self.now }
    {
        is_wide(width) && self.shows_entries() && k > 0 && k != height - 1
    }

    /// Returns what stands in a row of the column of the folder above.
    pub(crate) fn above_text(&self, k: u16, height: u16) -> Result<String, AllocError>
        ensures { IfOk result (λ text. string_bytes text ≡ above_text k height self.now) }
    {
        match self.seen_above() {
            Some(glance) => sight_text(self.alloc, &glance.sight, above_place(k, height, glance)),
            None => Ok(String::new(self.alloc)),
        }
    }

    /// Returns whether the folder itself stands in a row of the column of the folder above.
    pub(crate) fn is_own_row(&self, k: u16, height: u16) -> bool
        ensures { result ≡ is_own_row k height self.now }
    {
        match self.seen_above() {
            Some(glance) => above_place(k, height, glance) == glance.place,
            None => false,
        }
    }

    // What stands in the first row beside an entry of which nothing is seen.
    fn unseen_text(&self, place: usize) -> Result<String, AllocError>
        ensures { IfOk result (λ text. string_bytes text ≡ unseen_text place self.now) }
    {
        let mut text = String::new(self.alloc);
        if let Some(row) = self.list.get(self.selected) {
            push_first(&mut text, place, entry_kind(row))?;
        }
        Ok(text)
    }

    /// Returns what stands in a row of the column of what is selected.
    pub(crate) fn ahead_text(&self, k: u16) -> Result<String, AllocError>
        ensures { IfOk result (λ text. string_bytes text ≡ ahead_text k self.now) }
    {
        let place = usize::from(k).saturating_sub(1);
        match self.seen_ahead() {
            Some(glance) => sight_text(self.alloc, &glance.sight, place),
            None => self.unseen_text(place),
        }
    }
}
