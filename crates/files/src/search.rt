//! Entries whose names have a text.

ghost use Rattle.std.specs.Prelude.{◌≡◌, ◌<◌, true, false, length, take, None, OnOk, OnErr};
ghost use Rattle.std.specs.Str.{str_eq_ignore_ascii_case};
ghost use Rattle.files.specs.Finding.{has_upper, starts_as, stands_in, row_has, has_at};
ghost use Rattle.files.specs.Finding.{first_named, last_named, next_named, previous_named};
ghost use Rattle.files.specs.Moves.{next_found, previous_found, found_selected, found_note, typed_sought, sought_into};

use crate::browser::{Browser, Mode, Note};
use crate::list::Row;
use crate::typing::Typing;
use ratatui_files::Text;
use std::alloc::AllocError;

// Whether a text has a capital letter.
fn has_upper(text: &[u8]) -> bool
    ensures { result ≡ has_upper text.now }
{
    text.iter().any(|byte| byte.is_ascii_uppercase())
}

// Whether the first bytes of a text and a name are others, whatever letters are capitals.
fn begins_otherwise(text: &[u8], name: &[u8]) -> bool
    ensures { result ≡ true → str_eq_ignore_ascii_case text.now (take (length text.now) name.now) ≡ false }
{
    match (text.first(), name.first()) {
        (Some(first), Some(other)) => !first.eq_ignore_ascii_case(other),
        _ => false,
    }
}

// Whether a name begins as a text does, whatever letters are capitals.
fn starts_as(text: &[u8], name: &[u8]) -> bool
    requires { has_upper text.now ≡ false }
    ensures { result ≡ starts_as text.now name.now }
{
    if begins_otherwise(text, name) {
        return false;
    }
    match name.get(..text.len()) {
        Some(start) => start.eq_ignore_ascii_case(text),
        None => false,
    }
}

// Whether a text without a capital letter stands in a name, whatever letters are capitals there.
fn stands_in_any_case(text: &[u8], name: &[u8]) -> bool
    requires some { 0 < length text.now }
    requires small { has_upper text.now ≡ false }
    ensures { result ≡ stands_in text.now name.now }
{
    for at in 0..name.len() {
        if starts_as(text, &name[at..]) {
            return true;
        }
    }
    false
}

// Whether a text stands in a name; a capital counts as a small letter, unless one is sought.
fn stands_in(text: &str, name: &str) -> bool
    requires { 0 < length text.now }
    ensures { result ≡ stands_in text.now name.now }
{
    if has_upper(text.as_bytes()) {
        name.contains(text)
    } else {
        stands_in_any_case(text.as_bytes(), name.as_bytes())
    }
}

// Whether a row has a text in its name, if that is some.
fn row_has(text: &str, row: &Row) -> bool
    ensures { result ≡ row_has text.now row.now }
{
    !text.is_empty() && stands_in(text, row.name.as_str())
}

// Whether the name in a row has a text in it.
fn has_at(text: &str, rows: &[Row], place: usize) -> bool
    ensures { result ≡ has_at text.now rows.now place }
{
    match rows.get(place) {
        Some(row) => row_has(text, row),
        None => false,
    }
}

// The first row from one on whose name has a text.
fn first_named(text: &str, rows: &[Row], from: usize) -> Option<usize>
    ensures { result ≡ first_named text.now rows.now from }
{
    for place in from..rows.len() {
        if has_at(text, rows, place) {
            return Some(place);
        }
    }
    None
}

// The last row before one whose name has a text.
fn last_named(text: &str, rows: &[Row], before: usize) -> Option<usize>
    ensures { result ≡ last_named text.now rows.now before }
{
    let mut place = before;
    while place > 0 {
        place -= 1;
        if has_at(text, rows, place) {
            return Some(place);
        }
    }
    None
}

// The first row of all whose name has a text, where none from one on has it.
fn first_of_all(text: &str, rows: &[Row], end: usize) -> Option<usize>
    requires { first_named text.now rows.now end ≡ None }
    ensures { result ≡ first_named text.now rows.now 0 }
{
    for place in 0..end.min(rows.len()) {
        if has_at(text, rows, place) {
            return Some(place);
        }
    }
    None
}

// The last row of all whose name has a text, where none before one has it.
fn last_of_all(text: &str, rows: &[Row], start: usize) -> Option<usize>
    requires { last_named text.now rows.now start ≡ None }
    ensures { result ≡ last_named text.now rows.now (length rows.now) }
{
    let mut place = rows.len();
    while place > start {
        place -= 1;
        if has_at(text, rows, place) {
            return Some(place);
        }
    }
    None
}

// The next row after one whose name has a text; after the last one the first.
fn next_named(text: &str, rows: &[Row], place: usize) -> Option<usize>
    ensures { result ≡ next_named text.now rows.now place }
{
    let next = place.saturating_add(1);
    match first_named(text, rows, next) {
        Some(found) => Some(found),
        None => first_of_all(text, rows, next),
    }
}

// The row before one whose name has a text; before the first one the last.
fn previous_named(text: &str, rows: &[Row], place: usize) -> Option<usize>
    ensures { result ≡ previous_named text.now rows.now place }
{
    match last_named(text, rows, place) {
        Some(found) => Some(found),
        None => last_of_all(text, rows, place),
    }
}

impl Browser {
    // Selects what was found, if something was, and answers what is told.
    fn select_found(&mut self, found: Option<usize>) -> Note
        ensures selected { self.new ≡ found_selected found self.old }
        ensures note { result ≡ found_note found }
    {
        match found {
            Some(place) => {
                self.select(place);
                Note::Place
            }
            None => Note::Missing,
        }
    }

    /// Selects the next entry whose name has what is sought, and answers what is told.
    pub(crate) fn seek_on(&mut self) -> Note
        ensures selected { self.new ≡ found_selected (next_found self.old) self.old }
        ensures note { result ≡ found_note (next_found self.old) }
    {
        let found = next_named(self.sought.as_str(), self.list.as_slice(), self.selected);
        self.select_found(found)
    }

    /// Selects the entry before whose name has what is sought, and answers what is told.
    pub(crate) fn seek_back(&mut self) -> Note
        ensures selected { self.new ≡ found_selected (previous_found self.old) self.old }
        ensures note { result ≡ found_note (previous_found self.old) }
    {
        let found = previous_named(self.sought.as_str(), self.list.as_slice(), self.selected);
        self.select_found(found)
    }

    // Seeks what is typed.
    fn seek_typed(&mut self) -> Result<(), AllocError>
        ensures ok { OnOk result (self.new ≡ typed_sought self.old) }
        ensures err { OnErr result (self.new ≡ self.old) }
    {
        self.sought = Text::copy(self.alloc, self.typed.text())?;
        self.mode = Mode::Looking;
        self.note = self.seek_on();
        Ok(())
    }

    /// Does what is asked for while a text is typed that names are to have.
    pub(crate) fn take_sought(&mut self, typing: Typing) -> Result<(), AllocError>
        ensures ok { OnOk result (self.new ≡ sought_into typing self.old) }
        ensures err { OnErr result (self.new ≡ self.old) }
    {
        match typing {
            Typing::Change(edit) => self.edit(edit),
            Typing::Accept => self.seek_typed(),
            Typing::Cancel => {
                self.mode = Mode::Looking;
                Ok(())
            }
            Typing::Ignore => Ok(()),
        }
    }
}
