//! What is kept from one rendering to the next.

ghost use Rattle.std.specs.Prelude.{◌≡◌, None};

use ratatui_core::layout::Position;

/// An `AreaView` says where the part of a text begins that is shown, and where the cursor stood on
/// the screen when it was shown last.
#[derive(Debug, Clone, Copy, PartialEq, Eq, Hash)]
pub struct AreaView {
    /// The number of the first line that is shown, from 0 on.
    pub top: usize,
    /// How many rows of that line are above the view, if lines are wrapped.
    pub row: usize,
    /// The first column of each line that is shown, from 0 on, if lines aren't wrapped.
    pub left: usize,
    /// The column and the row of the buffer in which the cursor stood, for
    /// `Frame::set_cursor_position`, or `None` if there was no place for it.
    pub cursor: Option<Position>,
}

impl AreaView {
    /// Makes a view of a text's start.
    pub fn new() -> AreaView
        ensures { result ≡ record { top = 0; row = 0; left = 0; cursor = None } }
    {
        AreaView {
            top: 0,
            row: 0,
            left: 0,
            cursor: None,
        }
    }
}
