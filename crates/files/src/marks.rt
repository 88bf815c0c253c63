//! Entries that are marked.

ghost use Rattle.std.specs.Prelude.{◌≡◌, ◌==◌, ◌++◌, ◌∷◌, [], filter, length, slice_get, option_map, IfOk, OnOk, OnErr};
ghost use Rattle.std.specs.List.{list_any, position_from};
ghost use Rattle.files.specs.Marks.{is_mark_named, is_row_named, is_row_marked, is_selected_marked, row_mark, marks_but, mark_turned, marks_turned};
ghost use Rattle.files.specs.Marks.{has_row_named, marks_left, mark_place, first_mark_place};
ghost use Rattle.files.specs.Moves.{first_mark_selected, marking, removals_go_on, mode_following};

use crate::browser::{Browser, Mode};
use crate::list::{Listing, Row};
use ratatui_files::Text;
use std::alloc::{AllocError, Global};
use std::marker::Model;

/// An entry that is marked.
#[derive(Drop)]
pub struct Mark {
    /// Its name.
    pub name: Text,
    /// Whether it was no folder when it was marked.
    pub is_leaf: bool,
}

/// Entries that are marked, in the order in which they were.
#[derive(Drop)]
pub struct Marks {
    marks: Vec<Mark>,
}

impl Model for Marks {
    ghost use Rattle.std.specs.Prelude.{List};
    ghost use Rattle.files.specs.declared.marks.Mark.{Mark};

    ghost Value = { List Mark };

    ghost view = { λ marks. marks.marks.items };
}

// Whether a mark has this name.
fn is_mark_named(name: &str, mark: &Mark) -> bool
    ensures { result ≡ is_mark_named name.now mark.now }
{
    mark.name.as_str() == name
}

// Whether a row has this name.
fn is_row_named(name: &str, row: &Row) -> bool
    ensures { result ≡ is_row_named name.now row.now }
{
    row.name.as_str() == name
}

// The mark of a row.
fn row_mark(alloc: Global, row: &Row) -> Result<Mark, AllocError>
    ensures { IfOk result (λ mark. mark ≡ row_mark row.now) }
{
    Ok(Mark {
        name: Text::copy(alloc, row.name.as_str())?,
        is_leaf: row.is_leaf,
    })
}

// Whether a row of a list is the one of a mark.
fn has_row(rows: &[Row], mark: &Mark) -> bool
    ensures { result ≡ has_row_named rows.now mark.now }
{
    rows.iter().any(|row| is_row_named(mark.name.as_str(), row))
}

// The place of a mark's entry in a list.
fn mark_place(rows: &[Row], mark: &Mark) -> Option<usize>
    ensures { result ≡ mark_place rows.now mark.now }
{
    rows.iter()
        .position(|row| is_row_named(mark.name.as_str(), row))
}

// Drops the marks with a name.
fn drop_named(marks: &mut Vec<Mark>, name: &str)
    ensures { marks.new.items ≡ marks_but name.now marks.old.items }
{
    marks.retain(|mark| !is_mark_named(name, mark));
}

// Drops the marks that have no row in a list.
fn keep_listed(marks: &mut Vec<Mark>, rows: &[Row])
    ensures { marks.new.items ≡ filter (has_row_named rows.now) marks.old.items }
{
    marks.retain(|mark| has_row(rows, mark));
}

impl Marks {
    /// Makes a list of no marks.
    pub fn new(alloc: Global) -> Marks
        ensures { result ≡ [] }
    {
        Marks {
            marks: Vec::new(alloc),
        }
    }

    /// Returns how many there are.
    pub fn len(&self) -> usize
        ensures { result ≡ length self.now }
    {
        self.marks.len()
    }

    /// Returns whether there is none.
    pub fn is_empty(&self) -> bool
        ensures { result ≡ (length self.now == 0) }
    {
        self.marks.is_empty()
    }

    /// Returns the one that was made first, if there is one.
    pub fn first(&self) -> Option<&Mark>
        ensures { option_map (λ mark. mark.now) result ≡ slice_get self.now 0 }
    {
        self.marks.get(0)
    }

    /// Lends them as a slice.
    pub fn as_slice(&self) -> &[Mark]
        ensures { result.now ≡ self.now }
    {
        self.marks.as_slice()
    }

    // Whether one of them has this name.
    fn has(&self, name: &str) -> bool
        ensures { result ≡ list_any (is_mark_named name.now) self.now }
    {
        self.marks.iter().any(|mark| is_mark_named(name, mark))
    }

    // Adds one.
    fn add(&mut self, mark: Mark) -> Result<(), AllocError>
        ensures ok { OnOk result (self.new ≡ self.old ++ mark ∷ []) }
        ensures err { OnErr result (self.new ≡ self.old) }
    {
        self.marks.push(mark)?;
        Ok(())
    }

    // Drops those with this name.
    fn drop_named(&mut self, name: &str)
        ensures { self.new ≡ marks_but name.now self.old }
    {
        drop_named(&mut self.marks, name);
    }

    // Adds one, or drops those with its name if there are some.
    fn turn(&mut self, mark: Mark) -> Result<(), AllocError>
        ensures ok { OnOk result (self.new ≡ mark_turned mark self.old) }
        ensures err { OnErr result (self.new ≡ self.old) }
    {
        if self.has(mark.name.as_str()) {
            self.drop_named(mark.name.as_str());
            return Ok(());
        }
        self.add(mark)
    }

    // Drops those that have no row in a list.
    fn keep_listed(&mut self, rows: &[Row])
        ensures { self.new ≡ filter (has_row_named rows.now) self.old }
    {
        keep_listed(&mut self.marks, rows);
    }
}

impl Browser {
    /// Returns whether a row is marked.
    pub(crate) fn is_row_marked(&self, row: &Row) -> bool
        ensures { result ≡ is_row_marked self.now row.now }
    {
        self.marks.has(row.name.as_str())
    }

    // Whether the entry that is selected is marked.
    fn is_selected_marked(&self) -> bool
        ensures { result ≡ is_selected_marked self.now }
    {
        match self.list.get(self.selected) {
            Some(row) => self.is_row_marked(row),
            None => false,
        }
    }

    // Marks the entry that is selected, or marks it no longer.
    fn turn_mark(&mut self) -> Result<(), AllocError>
        ensures ok { OnOk result (self.new ≡ record self.old { marks = marks_turned self.old }) }
        ensures err { OnErr result (self.new ≡ self.old) }
    {
        let mark = match self.list.get(self.selected) {
            Some(row) => row_mark(self.alloc, row)?,
            None => return Ok(()),
        };
        self.marks.turn(mark)
    }

    /// Marks the entry that is selected, or marks it no longer, and selects the next one.
    pub(crate) fn mark(&mut self) -> Result<(), AllocError>
        ensures ok { OnOk result (self.new ≡ marking self.old) }
        ensures err { OnErr result (self.new ≡ self.old) }
    {
        self.turn_mark()?;
        self.go_down(1);
        Ok(())
    }

    /// Marks none.
    pub(crate) fn unmark(&mut self)
        ensures { self.new ≡ record self.old { marks = [] } }
    {
        self.marks = Marks::new(self.alloc);
    }

    // The place of the entry that was marked first.
    fn first_mark_place(&self) -> Option<usize>
        ensures { result ≡ first_mark_place self.now }
    {
        match self.marks.first() {
            Some(mark) => mark_place(self.list.as_slice(), mark),
            None => None,
        }
    }

    /// Selects the entry that was marked first, if one is marked.
    pub(crate) fn select_first_mark(&mut self)
        ensures { self.new ≡ first_mark_selected self.old }
    {
        match self.first_mark_place() {
            Some(place) => self.select(place),
            None => {}
        }
    }

    /// Goes on to the next mark after a removal that was asked for in this mode.
    pub(crate) fn go_on_removing(&mut self, mode: Mode)
        ensures { self.new ≡ removals_go_on mode self.old }
    {
        match self.list.get(self.selected) {
            Some(row) => self.marks.drop_named(row.name.as_str()),
            None => self.marks.drop_named(""),
        }
        self.select_first_mark();
        self.follows = if self.marks.is_empty() {
            Mode::Looking
        } else {
            mode
        };
    }

    /// Drops the marks that have no row in what stands in a folder: all if it is another one.
    pub(crate) fn keep_marks(&mut self, listing: &Listing)
        ensures { self.new ≡ record self.old { marks = marks_left listing.now self.old } }
    {
        if listing.folder.as_str() == self.folder.as_str() {
            self.marks.keep_listed(listing.rows.as_slice());
        } else {
            self.unmark();
        }
    }

    /// Returns what keys are taken for after a listing.
    pub(crate) fn mode_following(&self, next: Mode) -> Mode
        ensures { result ≡ mode_following next self.now }
    {
        match next {
            Mode::Trashing | Mode::Removing if self.is_selected_marked() => self.asked_mode(next),
            Mode::Pasting if self.noted.is_some() => next,
            _ => Mode::Looking,
        }
    }
}
