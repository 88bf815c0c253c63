//! What a place is.

ghost use Rattle.std.specs.Prelude.{◌≡◌};
ghost use Rattle.text_places.specs.Places.{is_before, earlier_place, later_place};

/// A place in a text: a line, and a row of that line, both from 0 on.
#[derive(Debug, Clone, Copy, PartialEq, Eq, Hash)]
pub struct Place {
    /// The number of the line.
    pub line: usize,
    /// The number of the row in its line.
    pub row: usize,
}

impl Place {
    /// Returns whether a place stands before another one.
    pub fn is_before(self, other: Place) -> bool
        ensures { result ≡ is_before self other }
    {
        self.line < other.line || (self.line == other.line && self.row < other.row)
    }

    /// Returns the earlier one of two places.
    pub fn earlier(self, other: Place) -> Place
        ensures { result ≡ earlier_place self other }
    {
        if self.is_before(other) { self } else { other }
    }

    /// Returns the later one of two places.
    pub fn later(self, other: Place) -> Place
        ensures { result ≡ later_place self other }
    {
        if self.is_before(other) { other } else { self }
    }
}
