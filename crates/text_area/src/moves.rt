//! Where a cursor goes.

use crate::extent::Extent;

/// A `Move` says where the cursor goes.
#[derive(Debug, Clone, Copy, PartialEq, Eq, Hash)]
pub enum Move {
    /// It goes to the left, at most to the text's start.
    Left(Extent),
    /// It goes to the right, at most to the text's end.
    Right(Extent),
    /// It goes to the line above, if there is one, and there to the column that it aims at: the
    /// one where it stood before the first of such moves, or the line's end if there is none.
    Up,
    /// It goes to the line below in this way.
    Down,
    /// It goes up by the lines of a page.
    PageUp,
    /// It goes down by the lines of a page.
    PageDown,
}
