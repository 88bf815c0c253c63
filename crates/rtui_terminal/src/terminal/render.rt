ghost use Rattle.std.specs.Prelude.{◌≡◌, true, None, Ok, Err, IfOk, OnOk, MatchResult};
ghost use Rattle.std.specs.Borrow.{sem};
ghost use Rattle.rtui_buffer.specs.Shown.{IsSettledBuffer};
ghost use Rattle.rtui_terminal.specs.InStep.{IsInStep, IsReady};
ghost use Rattle.rtui_terminal.specs.Frames.{PaintsFrame, AcceptsFrames, PaintsCurrent};
ghost use Rattle.rtui_terminal.specs.Inner.{AcceptsNewFrame};
ghost use Rattle.rtui_terminal.specs.Faults.{Faults};
ghost use Rattle.rtui_terminal.specs.Writing.{Writes, WriteErr, Applies, ApplyErr};
ghost use Rattle.rtui_terminal.specs.Drawing.{CompletesFrame, DrawOk, FrameOk, FrameErr, DrawErr, TryDrawErr};
ghost use Rattle.rtui_terminal.specs.Borrows.{RestsIfRefused};

use crate::terminal::Terminal;
use crate::terminal::error::TerminalError;
use crate::terminal::frame::{CompletedFrame, Frame};
use rtui_backend::Backend;
use rtui_buffer::Buffer;
use rtui_geometry::{Position, Rect};
use std::alloc::AllocError;

// Calls a closure on a new frame over a buffer: what it answers, and where it left the cursor.
fn paint<R, F>(
    buffer: &mut Buffer,
    viewport_area: Rect,
    count: usize,
    render_callback: F,
) -> (R, Option<Position>)
where
    F: FnOnce(&mut Frame<'_>) -> R,
    requires { AcceptsNewFrame F.FnOnce render_callback viewport_area count buffer.old }
    ensures { PaintsFrame F.FnOnce render_callback viewport_area count buffer.old result.0 result.1
        buffer.new }
{
    let mut frame = Frame {
        cursor_position: None,
        viewport_area,
        buffer,
        count,
    };
    let answer = render_callback(&mut frame);
    (answer, frame.cursor_position)
}

impl<B: Backend> Terminal<B> {
    // Writes what differs, and leaves the cursor at its place.
    fn write_frame(&mut self, cursor: Option<Position>) -> Result<(), TerminalError<B::Error>>
        ensures outcome { MatchResult result (λ _. Writes B.screen cursor self.old self.new)
            (WriteErr B.screen cursor self.old self.new) }
        ensures faults { Faults result (B.failures self.old.backend) (B.failures self.new.backend) }
    {
        self.flush()?;
        match cursor {
            None => self.hide_cursor()?,
            Some(position) => {
                self.show_cursor()?;
                self.set_cursor_position(position)?;
            }
        }
        Ok(())
    }

    // Draws the current buffer, and leaves the cursor at its place.
    fn apply(&mut self, cursor: Option<Position>) -> Result<(), TerminalError<B::Error>>
        ensures outcome { MatchResult result (λ _. Applies B.screen cursor self.old self.new)
            (ApplyErr B.screen cursor self.old self.new) }
        ensures flushed { OnOk result (B.is_flushed self.new.backend ≡ true) }
        ensures faults { Faults result (B.failures self.old.backend) (B.failures self.new.backend) }
    {
        self.write_frame(cursor)?;
        self.swap_buffers();
        self.backend.flush().map_err(TerminalError::Backend)?;
        self.frame_count = self.frame_count.wrapping_add(1);
        Ok(())
    }
}

impl<B: Backend> Terminal<B> {
    // Draws what a closure paints, or answers what the closure refused with.
    #[tactic(auto, using(crate::proofs::RenderLemmas::refused_before))]
    fn paint_and_apply<X, F>(
        &mut self,
        render_callback: F,
    ) -> Result<Result<(), X>, TerminalError<B::Error>>
    where
        F: FnOnce(&mut Frame<'_>) -> Result<(), X>,
        requires { AcceptsFrames F.FnOnce render_callback self.old }
        ensures drawn { let ran = PaintsCurrent F.FnOnce render_callback in
            MatchResult result (FrameOk B.screen ran self.old self.new)
            (FrameErr B.screen ran self.old self.new) }
        ensures flushed { IfOk result (λ answer. OnOk answer
            (B.is_flushed self.new.backend ≡ true)) }
        ensures faults { Faults result (B.failures self.old.backend) (B.failures self.new.backend) }
    {
        self.autoresize()?;
        let area = self.viewport_area;
        let count = self.frame_count;
        let (answer, cursor) = paint(&mut self.frames.current, area, count, render_callback);
        match answer {
            Ok(()) => {
                self.apply(cursor)?;
                Ok(Ok(()))
            }
            Err(error) => Ok(Err(error)),
        }
    }

    #[tactic(auto, using(crate::proofs::RenderLemmas::draw_refused))]
    pub(super) fn draw_frame<F>(
        &mut self,
        render_callback: F,
    ) -> Result<(), TerminalError<B::Error>>
    where
        F: FnOnce(&mut Frame<'_>) -> Result<(), AllocError>,
        requires { AcceptsFrames F.FnOnce render_callback self.old }
        ensures drawn { let ran = PaintsCurrent F.FnOnce render_callback in
            MatchResult result (λ _. DrawOk B.screen ran self.old self.new)
            (DrawErr B.screen ran self.old self.new) }
        ensures flushed { OnOk result (B.is_flushed self.new.backend ≡ true) }
        ensures faults { Faults result (B.failures self.old.backend) (B.failures self.new.backend) }
    {
        Ok(self.paint_and_apply(render_callback)??)
    }

    #[tactic(auto, using(crate::proofs::RenderLemmas::try_refused))]
    fn try_draw_frame<F>(&mut self, render_callback: F) -> Result<(), TerminalError<B::Error>>
    where
        F: FnOnce(&mut Frame<'_>) -> Result<(), B::Error>,
        requires { AcceptsFrames F.FnOnce render_callback self.old }
        ensures drawn { let ran = PaintsCurrent F.FnOnce render_callback in
            MatchResult result (λ _. DrawOk B.screen ran self.old self.new)
            (TryDrawErr B.screen ran self.old self.new) }
        ensures flushed { OnOk result (B.is_flushed self.new.backend ≡ true) }
        ensures faults { Faults result (B.failures self.old.backend) (B.failures self.new.backend) }
    {
        self.paint_and_apply(render_callback)?
            .map_err(TerminalError::Closure)
    }

    /// Draws a frame. If the screen has another size than the last known one, the viewport is
    /// resized first. The closure paints on the current buffer, what differs from the previous one
    /// is written and flushed, and the cursor is hidden, or shown where the closure put it. The
    /// painted buffer becomes the previous one, and an empty one current.
    ///
    /// ```
    /// let mut terminal = Terminal::new(alloc, TestBackend::new(alloc, 5, 1)?)?;
    /// terminal.draw(|frame| {
    ///     let area = frame.area();
    ///     frame.render_widget(Line::raw(alloc, "Ready")?, area)
    /// })?;
    /// assert!(rt; terminal.backend().lines_are(&["Ready"]));
    /// ```
    ///
    /// # Conditions
    ///
    /// The closure may be called on each frame that the draw may hand it: one without a cursor,
    /// whose buffer has the area of the frame or is the current buffer as it is. A closure without
    /// conditions of its own always may.
    ///
    /// # Errors
    ///
    /// - `Memory`: the resize was refused memory, and nothing changed; or the closure answered so.
    ///   Then nothing was written after the resize, and the current buffer keeps what the closure
    ///   left.
    /// - `Area`: a buffer hasn't the viewport's area. Nothing was written after the resize, and the
    ///   current buffer keeps what the closure left.
    /// - `Backend`: a call of the backend failed. The screen may show anything until the next
    ///   `clear`.
    pub fn draw<F>(
        &mut self,
        render_callback: F,
    ) -> Result<CompletedFrame<'_, B>, TerminalError<B::Error>>
    where
        F: FnOnce(&mut Frame<'_>) -> Result<(), AllocError>,
        requires { AcceptsFrames F.FnOnce render_callback self.old }
        ensures* refused { let ran = PaintsCurrent F.FnOnce render_callback in
            sem 𝓛 (RestsIfRefused B.row B.Error.row B.Backend B.Error.Debug B.Error.Display
            self.entry (λ frame. frame.terminal) result (DrawErr B.screen ran self.old)) }
        ensures same_terminal { IfOk result (λ frame.
            frame.terminal.ghost_name ≡ self.entry.ghost_name) }
        ensures drawn { IfOk result (λ frame.
            DrawOk B.screen (PaintsCurrent F.FnOnce render_callback) self.old frame.terminal.now) }
        ensures in_step { IfOk result (λ frame. IsReady B.screen self.old
            → IsSettledBuffer frame.terminal.now.previous → IsInStep B.screen frame.terminal.now) }
        ensures flushed { IfOk result (λ frame.
            B.is_flushed frame.terminal.now.backend ≡ true) }
        ensures frame { IfOk result (λ frame. CompletesFrame B.failures self.old
            frame.terminal.now frame.area frame.count) }
    {
        let count = self.frame_count;
        self.draw_frame(render_callback)?;
        let area = self.last_known_area;
        Ok(CompletedFrame {
            terminal: self,
            area,
            count,
        })
    }

    /// Does the same as `draw` with a closure that may answer the backend's error.
    ///
    /// ```
    /// let mut terminal = Terminal::new(alloc, TestBackend::new(alloc, 5, 1)?)?;
    /// let ready = Line::raw(alloc, "Ready")?;
    /// terminal.try_draw(|frame| {
    ///     let area = frame.area();
    ///     frame.render_widget(ready, area).map_err(|_| TestError::Memory)
    /// })?;
    /// ```
    ///
    /// # Conditions
    ///
    /// That of `draw`.
    ///
    /// # Errors
    ///
    /// Those of `draw`, and `Closure` with what the closure answered. Then nothing was written
    /// after the resize, and the current buffer keeps what the closure left.
    pub fn try_draw<F>(
        &mut self,
        render_callback: F,
    ) -> Result<CompletedFrame<'_, B>, TerminalError<B::Error>>
    where
        F: FnOnce(&mut Frame<'_>) -> Result<(), B::Error>,
        requires { AcceptsFrames F.FnOnce render_callback self.old }
        ensures* refused { let ran = PaintsCurrent F.FnOnce render_callback in
            sem 𝓛 (RestsIfRefused B.row B.Error.row B.Backend B.Error.Debug B.Error.Display
            self.entry (λ frame. frame.terminal) result (TryDrawErr B.screen ran self.old)) }
        ensures same_terminal { IfOk result (λ frame.
            frame.terminal.ghost_name ≡ self.entry.ghost_name) }
        ensures drawn { IfOk result (λ frame.
            DrawOk B.screen (PaintsCurrent F.FnOnce render_callback) self.old frame.terminal.now) }
        ensures in_step { IfOk result (λ frame. IsReady B.screen self.old
            → IsSettledBuffer frame.terminal.now.previous → IsInStep B.screen frame.terminal.now) }
        ensures flushed { IfOk result (λ frame.
            B.is_flushed frame.terminal.now.backend ≡ true) }
        ensures frame { IfOk result (λ frame. CompletesFrame B.failures self.old
            frame.terminal.now frame.area frame.count) }
    {
        let count = self.frame_count;
        self.try_draw_frame(render_callback)?;
        let area = self.last_known_area;
        Ok(CompletedFrame {
            terminal: self,
            area,
            count,
        })
    }

    /// Draws the current buffer as it is, and hides the cursor. It takes no memory.
    ///
    /// # Errors
    ///
    /// - `Area`: a buffer hasn't the viewport's area. Nothing has changed then.
    /// - `Backend`: a call of the backend failed. The screen may show anything. If all was written
    ///   and only the last flush failed, the buffers are swapped already, and the frame isn't
    ///   counted.
    pub fn apply_buffer(&mut self) -> Result<CompletedFrame<'_, B>, TerminalError<B::Error>>
        ensures* refused { sem 𝓛 (RestsIfRefused B.row B.Error.row B.Backend B.Error.Debug
            B.Error.Display self.entry (λ frame. frame.terminal) result
            (ApplyErr B.screen None self.old)) }
        ensures same_terminal { IfOk result (λ frame.
            frame.terminal.ghost_name ≡ self.entry.ghost_name) }
        ensures applied { IfOk result (λ frame. Applies B.screen None self.old frame.terminal.now) }
        ensures flushed { IfOk result (λ frame.
            B.is_flushed frame.terminal.now.backend ≡ true) }
        ensures frame { IfOk result (λ frame. CompletesFrame B.failures self.old
            frame.terminal.now frame.area frame.count) }
    {
        self.apply_buffer_with_cursor(None)
    }

    /// Draws the current buffer as it is, and hides the cursor, or shows it at a place. It takes no
    /// memory.
    ///
    /// # Errors
    ///
    /// - `Area`: a buffer hasn't the viewport's area. Nothing has changed then.
    /// - `Backend`: a call of the backend failed. The screen may show anything. If all was written
    ///   and only the last flush failed, the buffers are swapped already, and the frame isn't
    ///   counted.
    pub fn apply_buffer_with_cursor(
        &mut self,
        cursor_position: Option<Position>,
    ) -> Result<CompletedFrame<'_, B>, TerminalError<B::Error>>
        ensures* refused { sem 𝓛 (RestsIfRefused B.row B.Error.row B.Backend B.Error.Debug
            B.Error.Display self.entry (λ frame. frame.terminal) result
            (ApplyErr B.screen cursor_position self.old)) }
        ensures same_terminal { IfOk result (λ frame.
            frame.terminal.ghost_name ≡ self.entry.ghost_name) }
        ensures applied { IfOk result (λ frame.
            Applies B.screen cursor_position self.old frame.terminal.now) }
        ensures flushed { IfOk result (λ frame.
            B.is_flushed frame.terminal.now.backend ≡ true) }
        ensures frame { IfOk result (λ frame. CompletesFrame B.failures self.old
            frame.terminal.now frame.area frame.count) }
    {
        let count = self.frame_count;
        self.apply(cursor_position)?;
        let area = self.last_known_area;
        Ok(CompletedFrame {
            terminal: self,
            area,
            count,
        })
    }
}
