//! Orders of rows.

ghost use Rattle.std.specs.Prelude.{◌≡◌, IsPermutation, IsSorted, OnOk};
ghost use Rattle.files.specs.Orders.{compare_names, compare_by, compare_rows};

use crate::list::Row;
use std::alloc::AllocError;
use std::cmp::Ordering;

/// What rows are sorted by.
#[derive(Debug, Clone, Copy, PartialEq, Eq)]
pub enum SortBy {
    /// Their names, with numbers as numbers.
    Name,
    /// Their sizes.
    Size,
    /// When they were changed.
    Date,
}

/// An order of rows.
#[derive(Debug, Clone, Copy, PartialEq, Eq)]
pub struct Order {
    /// What they are sorted by.
    pub by: SortBy,
    /// Whether the last comes first.
    pub is_reversed: bool,
}

impl Order {
    // Compares names.
    fn names(one: &Row, other: &Row) -> Ordering
        ensures { result ≡ compare_names one.now other.now }
    {
        match one.key.compare(&other.key) {
            Ordering::Equal => one.name.cmp(&other.name),
            unlike => unlike,
        }
    }

    // Compares what rows are sorted by.
    fn in_turn(self, one: &Row, other: &Row) -> Ordering
        ensures { result ≡ compare_by self.by one.now other.now }
    {
        let first = match self.by {
            SortBy::Name => Ordering::Equal,
            SortBy::Size => one.size.cmp(&other.size),
            SortBy::Date => one.changed.cmp(&other.changed),
        };
        match first {
            Ordering::Equal => Order::names(one, other),
            unlike => unlike,
        }
    }

    // Compares rows.
    fn compare(self, one: &Row, other: &Row) -> Ordering
        ensures { result ≡ compare_rows self one.now other.now }
    {
        match one.is_leaf.cmp(&other.is_leaf) {
            Ordering::Equal if self.is_reversed => self.in_turn(other, one),
            Ordering::Equal => self.in_turn(one, other),
            unlike => unlike,
        }
    }

    /// Sorts rows.
    pub(crate) fn sort(self, rows: &mut Vec<Row>) -> Result<(), AllocError>
        ensures all { IsPermutation rows.old.items rows.new.items }
        ensures ordered { OnOk result (IsSorted (compare_rows self) rows.new.items) }
    {
        rows.sort_by(|one, other| self.compare(one, other))
    }
}
