ghost use Rattle.std.specs.Prelude.{◌≡◌, MatchResult, OnOk};
ghost use Rattle.std.specs.Borrow.{sem};
ghost use Rattle.rtui_geometry.specs.Rect.{EdgesFit};
ghost use Rattle.rtui_buffer.specs.BufferData.{IsEmptied};
ghost use Rattle.rtui_backend.specs.Failures.{Counts};
ghost use Rattle.rtui_terminal.specs.Faults.{Faults};
ghost use Rattle.rtui_terminal.specs.Writing.{WritesDifferences, Flushes, FlushErr};
ghost use Rattle.rtui_terminal.specs.Frames.{IsNewFrame};
ghost use Rattle.rtui_terminal.specs.Borrows.{LendsCurrent};

use crate::terminal::Terminal;
use crate::terminal::error::TerminalError;
use crate::terminal::following::write_following;
use crate::terminal::frame::Frame;
use rtui_backend::Backend;
use rtui_buffer::Buffer;
use rtui_viewport::Viewport;

// Writes what differs between two buffers of one area.
fn write_differences<B: Backend>(
    backend: &mut B,
    previous: &Buffer,
    current: &Buffer,
) -> Result<(), B::Error>
    requires same { current.now.area ≡ previous.now.area }
    requires edges { EdgesFit previous.now.area }
    ensures ok { OnOk result
        (WritesDifferences previous.now current.now (B.screen backend.old) (B.screen backend.new)) }
    ensures counts { Counts result (B.failures backend.old) (B.failures backend.new) }
{
    backend.draw(previous.diff_iter(current))
}

impl<B: Backend> Terminal<B> {
    /// Makes a new frame over the current buffer, without a cursor. To paint outside a draw in a
    /// way that a proof sees, use `current_buffer_mut`.
    pub fn get_frame(&mut self) -> Frame<'_>
        ensures* writes_back { sem 𝓛 (LendsCurrent B.row B.Error.row B.Backend B.Error.Debug
            B.Error.Display self.entry result.buffer.ghost_name) }
        ensures value { IsNewFrame self.old.viewport_area self.old.frame_count self.old.current
            result }
    {
        let count = self.frame_count;
        let viewport_area = self.viewport_area;
        Frame {
            cursor_position: None,
            viewport_area,
            buffer: &mut self.frames.current,
            count,
        }
    }

    /// Returns the buffer to paint on.
    pub fn current_buffer_mut(&mut self) -> &mut Buffer
        ensures* writes_back { sem 𝓛 (LendsCurrent B.row B.Error.row B.Backend B.Error.Debug
            B.Error.Display self.entry result.ghost_name) }
        ensures value { result.now ≡ self.old.current }
    {
        &mut self.frames.current
    }

    /// Writes what differs between the previous and the current buffer, and leaves both as they
    /// are.
    ///
    /// # Errors
    ///
    /// - `Area`: one of them hasn't the viewport's area. Nothing has changed then.
    /// - `Backend`: a call of the backend failed. The buffers are as before, and the screen may
    ///   show anything.
    pub fn flush(&mut self) -> Result<(), TerminalError<B::Error>>
        ensures outcome { MatchResult result
            (λ _. Flushes B.screen self.old self.new) (FlushErr self.old self.new) }
        ensures faults { Faults result (B.failures self.old.backend) (B.failures self.new.backend) }
    {
        let area = self.viewport_area;
        let current = &self.frames.current;
        let previous = &self.frames.previous;
        if *current.area() != area || *previous.area() != area {
            return Err(TerminalError::Area);
        }
        if let Viewport::Inline(_) = self.viewport {
            let start = self.last_known_cursor_pos;
            let last = write_following(&mut self.backend, previous, current, start);
            self.last_known_cursor_pos = last.map_err(TerminalError::Backend)?;
            return Ok(());
        }
        write_differences(&mut self.backend, previous, current).map_err(TerminalError::Backend)
    }

    /// Makes the current buffer the previous one, and the emptied previous one current.
    pub fn swap_buffers(&mut self)
        ensures previous { self.new.previous ≡ self.old.current }
        ensures current { IsEmptied self.old.previous.area self.new.current }
        ensures rest { self.new
            ≡ record self.old { current = self.new.current; previous = self.new.previous } }
    {
        self.frames.swap();
    }
}
