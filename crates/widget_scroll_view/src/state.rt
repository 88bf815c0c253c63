//! From which of its cells on a scroll view shows its content.

ghost use Rattle.std.specs.Prelude.{◌≡◌, ◌↔◌, None, IsTrue};
ghost use Rattle.widget_scroll_view.specs.Offsets.{unseen_at, scrolled_up, scrolled_down, scrolled_left};
ghost use Rattle.widget_scroll_view.specs.Offsets.{scrolled_right, page_step, SeesBottom};

use ratatui_core::layout::{Position, Size};

/// From which column and row on a scroll view shows its content, and how large the content and the
/// part that shows it were at the last rendering. A rendering makes of an offset past the last one
/// the last one: from there on the content's end is shown.
///
/// ```
/// let mut state = ScrollViewState::with_offset(Position::new(0, 2));
/// frame.render_stateful_widget(&view, area, &mut state)
/// ```
#[derive(Debug, Default, Clone, Copy, PartialEq, Eq, Hash)]
pub struct ScrollViewState {
    pub(crate) offset: Position,
    pub(crate) size: Option<Size>,
    pub(crate) page_size: Option<Size>,
}

impl ScrollViewState {
    /// Makes a state at the content's first cell, for a view that wasn't rendered yet.
    pub fn new() -> ScrollViewState
        ensures { result ≡ unseen_at (record { x = 0; y = 0 }) }
    {
        ScrollViewState::with_offset(Position::ORIGIN)
    }

    /// Makes a state at an offset in columns and rows, for a view that wasn't rendered yet.
    pub fn with_offset(offset: Position) -> ScrollViewState
        ensures { result ≡ unseen_at offset }
    {
        ScrollViewState {
            offset,
            size: None,
            page_size: None,
        }
    }

    /// Sets the offset: how many columns and rows of the content come before what is shown.
    pub fn set_offset(&mut self, offset: Position)
        ensures { self.new ≡ record self.old { offset = offset } }
    {
        self.offset = offset;
    }

    /// Returns the offset: how many columns and rows of the content come before what is shown.
    pub fn offset(&self) -> Position
        ensures { result ≡ self.now.offset }
    {
        self.offset
    }

    /// Returns the content's size in columns and rows at the last rendering, if there was one.
    pub fn size(&self) -> Option<Size>
        ensures { result ≡ self.now.size }
    {
        self.size
    }

    /// Returns how many columns and rows the last rendering had for the content, without the scroll
    /// bars, if there was one.
    pub fn page_size(&self) -> Option<Size>
        ensures { result ≡ self.now.page_size }
    {
        self.page_size
    }

    /// Scrolls one row up, if there is one.
    pub fn scroll_up(&mut self)
        ensures { self.new ≡ scrolled_up 1 self.old }
    {
        self.up(1);
    }

    /// Scrolls one row down, at most to row 65535.
    pub fn scroll_down(&mut self)
        ensures { self.new ≡ scrolled_down 1 self.old }
    {
        self.down(1);
    }

    /// Scrolls one column to the left, if there is one.
    pub fn scroll_left(&mut self)
        ensures { self.new ≡ scrolled_left 1 self.old }
    {
        self.offset.x = self.offset.x.saturating_sub(1);
    }

    /// Scrolls one column to the right, at most to column 65535.
    pub fn scroll_right(&mut self)
        ensures { self.new ≡ scrolled_right 1 self.old }
    {
        self.offset.x = self.offset.x.saturating_add(1);
    }

    /// Scrolls a page up: one row less than the last rendering showed, so that one row of both is
    /// the same, but at least one row; one row, too, before the first rendering.
    pub fn scroll_page_up(&mut self)
        ensures { self.new ≡ scrolled_up (page_step self.old.page_size) self.old }
    {
        self.up(self.page_step());
    }

    /// Scrolls a page down: one row less than the last rendering showed, so that one row of both is
    /// the same, but at least one row; one row, too, before the first rendering.
    pub fn scroll_page_down(&mut self)
        ensures { self.new ≡ scrolled_down (page_step self.old.page_size) self.old }
    {
        self.down(self.page_step());
    }

    /// Scrolls to the content's first cell.
    pub fn scroll_to_top(&mut self)
        ensures { self.new ≡ record self.old { offset = record { x = 0; y = 0 } } }
    {
        self.offset = Position::ORIGIN;
    }

    /// Scrolls down to the end, in the same columns: the next rendering shows the last row, however
    /// long the content is then.
    pub fn scroll_to_bottom(&mut self)
        ensures { let offset = record self.old.offset { y = 65535 } in
            self.new ≡ record self.old { offset = offset } }
    {
        self.offset.y = u16::MAX;
    }

    /// Returns whether the last row is seen, by the sizes of the last rendering; before the first
    /// one nothing is known, and it returns true.
    pub fn is_at_bottom(&self) -> bool
        ensures { IsTrue result ↔ SeesBottom self.now }
    {
        match (self.size, self.page_size) {
            (Some(size), Some(page)) => self.offset.y.saturating_add(page.height) >= size.height,
            _ => true,
        }
    }

    // So many rows up, as far as there are any.
    fn up(&mut self, rows: u16)
        ensures { self.new ≡ scrolled_up rows self.old }
    {
        self.offset.y = self.offset.y.saturating_sub(rows);
    }

    // So many rows down, at most to row 65535.
    fn down(&mut self, rows: u16)
        ensures { self.new ≡ scrolled_down rows self.old }
    {
        self.offset.y = self.offset.y.saturating_add(rows);
    }

    // How many rows a page is scrolled by.
    fn page_step(&self) -> u16
        ensures { result ≡ page_step self.now.page_size }
    {
        match self.page_size {
            Some(page) => page.height.saturating_sub(1).max(1),
            None => 1,
        }
    }
}
