//! The rows of a list, and what is answered.

ghost use Rattle.std.specs.Prelude.{◌≡◌, length, option_map, slice_get};

use crate::glance::Glance;
use crate::sort_key::SortKey;
use jiff_core::civil::DateTime;
use ratatui_files::{Failure, Path, Text};
use std::marker::Model;

/// A row of the list: what is told of an entry, and what its name is compared by.
#[derive(Drop)]
pub struct Row {
    /// Whether it is no folder.
    pub is_leaf: bool,
    /// Its name.
    pub name: String,
    /// Whether it is a symbolic link.
    pub is_link: bool,
    /// How many bytes a file has.
    pub size: Option<u64>,
    /// When it was changed last, in nanoseconds since 1970, if that is known.
    pub changed: Option<u128>,
    /// The date of that, where no zone's time is counted; none after the year 9999.
    pub date: Option<DateTime>,
    /// Who may read, write and run it, as the lowest nine bits, if that is known.
    pub mode: Option<u32>,
    /// What its name is compared by: its numbers as numbers.
    pub key: SortKey,
}

/// Rows of a list.
#[derive(Drop)]
pub struct Rows {
    rows: Vec<Row>,
}

impl Model for Rows {
    ghost use Rattle.std.specs.Prelude.{List};
    ghost use Rattle.files.specs.declared.list.Row.{Row};

    ghost Value = { List Row };

    ghost view = { λ rows. rows.rows.items };
}

impl Rows {
    /// Takes these rows.
    pub fn new(rows: Vec<Row>) -> Rows
        ensures { result ≡ rows.items }
    {
        Rows { rows }
    }

    /// Returns how many there are.
    pub fn len(&self) -> usize
        ensures { result ≡ length self.now }
    {
        self.rows.len()
    }

    /// Returns one of them, if there are so many.
    pub fn get(&self, index: usize) -> Option<&Row>
        ensures { option_map (λ row. row.now) result ≡ slice_get self.now index }
    {
        self.rows.get(index)
    }

    /// Lends them as a slice.
    pub fn as_slice(&self) -> &[Row]
        ensures { result.now ≡ self.now }
    {
        self.rows.as_slice()
    }
}

/// What stands in a folder.
#[derive(Drop)]
pub struct Listing {
    /// The folder.
    pub folder: Path,
    /// Its entries, in order.
    pub rows: Rows,
    /// How many entries beside them have names that are no texts.
    pub unnamed: u64,
    /// The row that is to be selected, from 0 on; or else the last one.
    pub place: usize,
}

/// What is answered.
#[derive(Drop)]
pub enum Outcome {
    /// What stands in a folder.
    Listed(Listing),
    /// What is seen beside a folder.
    Glanced(Glance),
    /// How a typed path goes on.
    Completed(Text),
    /// How many entries a folder has.
    Counted(u64),
    /// It was done.
    Done,
    /// It wasn't done, and nothing has changed.
    Failed(Failure),
}
