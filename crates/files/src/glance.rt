//! What is seen beside a folder: the folder above, and what is selected.

ghost use Rattle.std.specs.Prelude.{◌≡◌, option_map, slice_get, length};
ghost use Rattle.files.specs.Glances.{no_glances, aged, with_glance};

use crate::list::Rows;
use ratatui_files::{Failure, Path, Text};
use std::marker::Model;

/// On which side of a folder something is seen.
#[derive(Debug, Clone, Copy, PartialEq, Eq)]
pub enum Side {
    /// The folder above it.
    Above,
    /// What is selected in it.
    Ahead,
}

/// Lines of a text, as they are shown.
#[derive(Drop)]
pub struct Lines {
    lines: Vec<Text>,
}

impl Model for Lines {
    ghost use Rattle.std.specs.Prelude.{ℕ, List};

    ghost Value = { List (List ℕ) };

    ghost view = { λ lines. lines.lines.items };
}

impl Lines {
    /// Takes these lines.
    pub fn new(lines: Vec<Text>) -> Lines
        ensures { result ≡ lines.items }
    {
        Lines { lines }
    }

    /// Returns how many there are.
    pub fn len(&self) -> usize
        ensures { result ≡ length self.now }
    {
        self.lines.len()
    }

    /// Returns one of them, if there are so many.
    pub fn get(&self, index: usize) -> Option<&Text>
        ensures { option_map (λ line. line.now) result ≡ slice_get self.now index }
    {
        self.lines.get(index)
    }
}

/// What is seen of something.
#[derive(Drop)]
pub enum Sight {
    /// The entries of a folder, in order.
    Entries(Rows),
    /// The first lines of a text.
    Lines(Lines),
    /// How many bytes a file has that is no text.
    Size(u64),
    /// Why it can't be seen.
    Failed(Failure),
}

/// What is seen on a side of a folder.
#[derive(Drop)]
pub struct Glance {
    pub side: Side,
    /// The folder beside which it is seen.
    pub folder: Path,
    /// The entry of it that is seen; nothing if the folder above is.
    pub name: Text,
    /// What is seen.
    pub sight: Sight,
    /// The row of the folder in the one above, from 0 on.
    pub place: usize,
}

/// What was seen last on both sides, and whether that is to be looked at anew.
#[derive(Drop)]
pub struct Glances {
    pub(crate) above: Option<Glance>,
    pub(crate) ahead: Option<Glance>,
    pub(crate) is_above_old: bool,
    pub(crate) is_ahead_old: bool,
}

impl Glances {
    /// Nothing was seen.
    pub(crate) fn none() -> Glances
        ensures { result ≡ no_glances }
    {
        Glances {
            above: None,
            ahead: None,
            is_above_old: false,
            is_ahead_old: false,
        }
    }

    /// All is to be looked at anew.
    pub(crate) fn age(&mut self)
        ensures { self.new ≡ aged self.old }
    {
        self.is_above_old = true;
        self.is_ahead_old = true;
    }

    /// Takes what is seen.
    pub(crate) fn take(&mut self, glance: Glance)
        ensures { self.new ≡ with_glance glance self.old }
    {
        match glance.side {
            Side::Above => {
                self.above = Some(glance);
                self.is_above_old = false;
            }
            Side::Ahead => {
                self.ahead = Some(glance);
                self.is_ahead_old = false;
            }
        }
    }
}
