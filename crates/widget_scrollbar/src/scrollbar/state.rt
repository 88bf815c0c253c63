//! What a scroll bar shows of a content: how long it is, and which part of it is seen.

ghost use Rattle.std.specs.Prelude.{◌≡◌, ◌≤◌, ◌<◌, ◌-◌, ◌^◌};
ghost use Rattle.widget_scrollbar.specs.Scrollbars.{moved_on, scrolled_by, seen_rows, rounded_quotient};
ghost use Rattle.widget_scrollbar.specs.Scrollbars.{thumb_start, thumb_length};

/// To which side a state is scrolled.
#[derive(Debug, Default, Clone, Copy, PartialEq, Eq, Hash)]
pub enum ScrollDirection {
    /// Down, or to the right.
    #[default]
    Forward,
    /// Up, or to the left.
    Backward,
}

/// How long a content is, which of its rows or columns is the first one seen, and how many are
/// seen; 0 stands for as many as the bar is long.
#[derive(Debug, Default, Clone, Copy, PartialEq, Eq, Hash)]
pub struct ScrollbarState {
    pub(super) content_length: usize,
    position: usize,
    viewport_content_length: usize,
}

impl ScrollbarState {
    /// Makes a state at the start of a content of this length.
    pub fn new(content_length: usize) -> ScrollbarState
        ensures { result ≡ record
            { content_length = content_length; position = 0; viewport_content_length = 0 } }
    {
        ScrollbarState {
            content_length,
            position: 0,
            viewport_content_length: 0,
        }
    }

    /// Sets the position.
    pub fn position(mut self, position: usize) -> ScrollbarState
        ensures { result ≡ record self { position = position } }
    {
        self.position = position;
        self
    }

    /// Sets the length of the content.
    pub fn content_length(mut self, content_length: usize) -> ScrollbarState
        ensures { result ≡ record self { content_length = content_length } }
    {
        self.content_length = content_length;
        self
    }

    /// Sets how much is seen at once.
    pub fn viewport_content_length(mut self, length: usize) -> ScrollbarState
        ensures { result ≡ record self { viewport_content_length = length } }
    {
        self.viewport_content_length = length;
        self
    }

    /// Returns the position.
    pub fn get_position(&self) -> usize
        ensures { result ≡ self.now.position }
    {
        self.position
    }

    /// Moves one position back, if there is one.
    pub fn prev(&mut self)
        ensures { self.new ≡ record self.old { position = self.old.position - 1 } }
    {
        self.position = self.position.saturating_sub(1);
    }

    /// Moves one position on, as far as the content goes.
    pub fn next(&mut self)
        ensures { self.new ≡ moved_on self.old }
    {
        let last = self.content_length.saturating_sub(1);
        self.position = self.position.saturating_add(1).min(last);
    }

    /// Moves to the start.
    pub fn first(&mut self)
        ensures { self.new ≡ record self.old { position = 0 } }
    {
        self.position = 0;
    }

    /// Moves to the last row or column.
    pub fn last(&mut self)
        ensures { self.new ≡ record self.old { position = self.old.content_length - 1 } }
    {
        self.position = self.content_length.saturating_sub(1);
    }

    /// Moves one position on or back.
    pub fn scroll(&mut self, direction: ScrollDirection)
        ensures { self.new ≡ scrolled_by direction self.old }
    {
        match direction {
            ScrollDirection::Forward => self.next(),
            ScrollDirection::Backward => self.prev(),
        }
    }
}

impl ScrollbarState {
    // How much is seen at once.
    fn seen(&self, length: u16) -> usize
        ensures { result ≡ seen_rows self.now length }
    {
        if self.viewport_content_length > 0 {
            self.viewport_content_length
        } else {
            usize::from(length)
        }
    }

    // Where the thumb begins on a track, and how long it is.
    pub fn thumb(&self, track: u16, length: u16) -> (u16, u16)
        requires some { 0 < track }
        requires fits { track ≤ length }
        ensures start { result.0 ≡ thumb_start self.now track length }
        ensures length { result.1 ≡ thumb_length self.now track length }
    {
        let track_length = u128::from(track);
        let last = self.content_length.saturating_sub(1);
        let seen = self.seen(length) as u128;
        let first = self.position.min(last) as u128;
        let total = last as u128 + seen;
        let start = rounded_quotient(first * track_length, total).min(track_length - 1);
        let end = rounded_quotient((first + seen) * track_length, total).min(track_length);
        (start as u16, end.saturating_sub(start).max(1) as u16)
    }
}

// The quotient of two numbers, rounded to the nearest one.
fn rounded_quotient(n: u128, d: u128) -> u128
    requires some { 0 < d }
    requires number { n < 2 ^ 90 }
    requires divisor { d < 2 ^ 90 }
    ensures { result ≡ rounded_quotient n d }
{
    (2 * n + d) / (2 * d)
}
