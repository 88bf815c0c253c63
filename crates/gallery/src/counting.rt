//! A backend of one's own: another one, and how often it was drawn to.

use ratatui_core::backend::{AsCell, Backend, ClearType, WindowSize};
use ratatui_core::layout::{Position, Size};
use std::ops::Range;

/// A backend that counts its draws, over another one.
#[derive(Debug, Drop)]
pub struct Counting<B> {
    inner: B,
    draws: u64,
}

impl<B> Counting<B> {
    /// Makes a backend to which nothing was drawn yet.
    pub fn new(inner: B) -> Counting<B> {
        Counting { inner, draws: 0 }
    }

    /// Returns the backend below.
    pub fn inner(&self) -> &B {
        &self.inner
    }

    /// Returns how often it was drawn to; the count stays at the greatest number.
    pub fn draws(&self) -> u64 {
        self.draws
    }
}

impl<B: Backend> Backend for Counting<B> {
    type Error = B::Error;

    ghost screen = { λ b. B.screen b.inner };

    ghost failures = { λ b. B.failures b.inner };

    ghost is_flushed = { λ b. B.is_flushed b.inner };

    ghost stops_at = { λ old new. B.stops_at old.inner new.inner };

    fn draw<C: AsCell, I: Iterator<Item = (u16, u16, C)>>(
        &mut self,
        content: I,
    ) -> Result<(), B::Error> {
        self.draws = self.draws.saturating_add(1);
        self.inner.draw(content)
    }

    fn append_lines(&mut self, n: u16) -> Result<(), B::Error> {
        self.inner.append_lines(n)
    }

    fn scroll_region_up(&mut self, region: Range<u16>, n: u16) -> Result<(), B::Error> {
        self.inner.scroll_region_up(region, n)
    }

    fn scroll_region_down(&mut self, region: Range<u16>, n: u16) -> Result<(), B::Error> {
        self.inner.scroll_region_down(region, n)
    }

    fn hide_cursor(&mut self) -> Result<(), B::Error> {
        self.inner.hide_cursor()
    }

    fn show_cursor(&mut self) -> Result<(), B::Error> {
        self.inner.show_cursor()
    }

    fn get_cursor_position(&mut self) -> Result<Position, B::Error> {
        self.inner.get_cursor_position()
    }

    fn set_cursor_position(&mut self, position: Position) -> Result<(), B::Error> {
        self.inner.set_cursor_position(position)
    }

    fn clear(&mut self) -> Result<(), B::Error> {
        self.inner.clear()
    }

    fn clear_region(&mut self, clear_type: ClearType) -> Result<(), B::Error> {
        self.inner.clear_region(clear_type)
    }

    fn size(&mut self) -> Result<Size, B::Error> {
        self.inner.size()
    }

    fn window_size(&mut self) -> Result<WindowSize, B::Error> {
        self.inner.window_size()
    }

    fn flush(&mut self) -> Result<(), B::Error> {
        self.inner.flush()
    }
}
