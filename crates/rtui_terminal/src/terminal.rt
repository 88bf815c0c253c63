use crate::terminal::frames::Frames;
use rtui_backend::Backend;
use rtui_geometry::{Position, Rect};
use rtui_viewport::Viewport;
use std::marker::Model;

mod backend;
mod buffers;
mod clone;
mod cursor;
mod eq;
pub mod error;
mod following;
pub mod frame;
mod frames;
pub mod init;
mod insert;
mod render;
mod resize;
mod widget;

/// A terminal over a backend. It keeps the buffer to paint on and the one painted before, so that a
/// draw writes only what differs. Its drop shows a cursor that it hid.
///
/// ```
/// let mut terminal = Terminal::new(alloc, TestBackend::new(alloc, 80, 24)?)?;
/// terminal.draw(|frame| {
///     let area = frame.area();
///     frame.render_widget(Line::raw(alloc, "Ready")?, area)
/// })?;
/// ```
#[derive(Debug, PartialEq, Eq, Hash)]
pub struct Terminal<B: Backend> {
    pub(crate) backend: B,
    pub(crate) frames: Frames,
    pub(crate) viewport: Viewport,
    pub(crate) viewport_area: Rect,
    pub(crate) last_known_area: Rect,
    pub(crate) last_known_cursor_pos: Position,
    pub(crate) hidden_cursor: bool,
    pub(crate) frame_count: usize,
}

impl<B: Backend> Model for Terminal<B> {
    ghost use Rattle.rtui_geometry.specs.Rect.{EdgesFit};
    ghost use Rattle.rtui_terminal.specs.TerminalData.{TerminalData, IsInPlace};

    ghost Value = { TerminalData B };

    ghost view = { λ t. record {
      backend = t.backend;
      current = t.frames.current;
      previous = t.frames.previous;
      viewport = t.viewport;
      viewport_area = t.viewport_area;
      last_known_area = t.last_known_area;
      last_known_cursor_pos = t.last_known_cursor_pos;
      hidden_cursor = t.hidden_cursor;
      frame_count = t.frame_count;
    } };

    ghost inverse = { λ d. record {
      backend = d.backend;
      frames = record { current = d.current; previous = d.previous };
      viewport = d.viewport;
      viewport_area = d.viewport_area;
      last_known_area = d.last_known_area;
      last_known_cursor_pos = d.last_known_cursor_pos;
      hidden_cursor = d.hidden_cursor;
      frame_count = d.frame_count;
    } };

    ghost invariant = { λ t. EdgesFit t.viewport_area × IsInPlace t.viewport t.viewport_area };
}

impl<B: Backend + Drop> Drop for Terminal<B> {
    fn drop(mut self) {
        if self.hidden_cursor {
            let _ = self.show_cursor();
        }
        let Terminal {
            backend: _,
            frames: _,
            viewport: _,
            viewport_area: _,
            last_known_area: _,
            last_known_cursor_pos: _,
            hidden_cursor: _,
            frame_count: _,
        } = self;
    }
}
