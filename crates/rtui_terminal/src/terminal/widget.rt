ghost use Rattle.std.specs.Prelude.{◌≡◌, true, None, IsOk, OnOk, OnErr, IfOk, MatchResult};
ghost use Rattle.rtui_geometry.specs.Rect.{EdgesFit};
ghost use Rattle.rtui_buffer.specs.BufferData.{IsEmptied};
ghost use Rattle.rtui_widgets.specs.Rendering.{ChangesWithin};
ghost use Rattle.rtui_terminal.specs.declared.terminal.frame.Frame.{Frame as FrameData};
ghost use Rattle.rtui_terminal.specs.Frames.{IsDrawFrame};
ghost use Rattle.rtui_terminal.specs.Inner.{KeepsButCursor};
ghost use Rattle.rtui_terminal.specs.InStep.{IsReady};
ghost use Rattle.rtui_terminal.specs.Drawing.{DrawOk, DrawErr};
ghost use Rattle.rtui_terminal.specs.Faults.{Faults};
ghost use Rattle.rtui_terminal.specs.Rendered.{RendersCurrent, ShowsRendered};
ghost use Rattle.rtui_terminal.specs.TextRow.{HasCursor};

use crate::terminal::Terminal;
use crate::terminal::error::TerminalError;
use crate::terminal::frame::Frame;
use rtui_backend::Backend;
use rtui_geometry::{Position, Rect};
use rtui_widgets::Widget;
use std::alloc::AllocError;

impl<B: Backend> Terminal<B> {
    /// Draws a frame with one widget over the whole viewport, hides the cursor, and answers the
    /// viewport's area.
    ///
    /// ```
    /// terminal.draw_widget(Line::raw(alloc, "Hello, world!")?.centered())?;
    /// ```
    ///
    /// # Conditions
    ///
    /// The widget may be rendered over each frame that the draw may hand out, as far as it says:
    /// over the area of a buffer of that area, or over the viewport in the current buffer as it is.
    ///
    /// # Errors
    ///
    /// Those of [`Terminal::draw`] with a closure that renders the widget and answers what the
    /// rendering answers. If the widget was refused memory, the current buffer is what that
    /// rendering left, and nothing was written after the resize.
    pub fn draw_widget<W: Widget + Drop>(
        &mut self,
        widget: W,
    ) -> Result<Rect, TerminalError<B::Error>>
        requires can { (frame : FrameData) → IsDrawFrame self.old frame
            → W.can_render widget frame.viewport_area frame.buffer.now }
        ensures outcome { let ran = RendersCurrent (W.renders widget) (W.leaves widget)
            (W.reach widget) (W.is_short widget) None in
            MatchResult result (λ _. DrawOk B.screen ran self.old self.new)
            (DrawErr B.screen ran self.old self.new) }
        ensures shown { IsReady B.screen self.old
            → IsEmptied self.old.viewport_area self.old.current
            → OnOk result (ShowsRendered B.screen (W.renders widget) self.new) }
        ensures cursor { OnOk result (HasCursor None (B.screen self.new.backend)) }
        ensures flushed { OnOk result (B.is_flushed self.new.backend ≡ true) }
        ensures faults { Faults result (B.failures self.old.backend) (B.failures self.new.backend) }
        ensures area { IfOk result (λ area. area ≡ self.new.previous.area) }
        ensures edges { OnOk result (EdgesFit self.new.previous.area) }
    {
        self.draw_widget_with_cursor(widget, None)
    }

    /// Draws a frame as [`Terminal::draw_widget`] does, but shows the cursor at a place of the
    /// screen, if there is one.
    ///
    /// ```
    /// let question = Line::raw(alloc, "Name: ")?;
    /// terminal.draw_widget_with_cursor(question, Some(Position::new(6, 0)))?;
    /// ```
    ///
    /// # Conditions
    ///
    /// Those of [`Terminal::draw_widget`].
    ///
    /// # Errors
    ///
    /// Those of [`Terminal::draw_widget`].
    pub fn draw_widget_with_cursor<W: Widget + Drop>(
        &mut self,
        widget: W,
        cursor: Option<Position>,
    ) -> Result<Rect, TerminalError<B::Error>>
        requires can { (frame : FrameData) → IsDrawFrame self.old frame
            → W.can_render widget frame.viewport_area frame.buffer.now }
        ensures outcome { let ran = RendersCurrent (W.renders widget) (W.leaves widget)
            (W.reach widget) (W.is_short widget) cursor in
            MatchResult result (λ _. DrawOk B.screen ran self.old self.new)
            (DrawErr B.screen ran self.old self.new) }
        ensures shown { IsReady B.screen self.old
            → IsEmptied self.old.viewport_area self.old.current
            → OnOk result (ShowsRendered B.screen (W.renders widget) self.new) }
        ensures cursor { OnOk result (HasCursor cursor (B.screen self.new.backend)) }
        ensures flushed { OnOk result (B.is_flushed self.new.backend ≡ true) }
        ensures faults { Faults result (B.failures self.old.backend) (B.failures self.new.backend) }
        ensures area { IfOk result (λ area. area ≡ self.new.previous.area) }
        ensures edges { OnOk result (EdgesFit self.new.previous.area) }
    {
        self.draw_frame(
            |frame: &mut Frame<'_>| -> Result<(), AllocError>
                requires { W.can_render widget frame.old.viewport_area frame.old.buffer.now }
                ensures keeps { KeepsButCursor frame.old frame.new }
                ensures placed { OnOk result (frame.new.cursor_position ≡ cursor) }
                ensures ok { OnOk result (W.renders widget frame.old.viewport_area
                    frame.old.buffer.now frame.new.buffer.now) }
                ensures err { let reach = W.reach widget frame.old.viewport_area in
                    OnErr result (ChangesWithin reach frame.old.buffer.now frame.new.buffer.now) }
                ensures left { OnErr result (W.leaves widget frame.old.viewport_area
                    frame.old.buffer.now frame.new.buffer.now) }
                ensures short { W.is_short widget frame.old.viewport_area frame.old.buffer.now
                    → IsOk result }
            {
                let area = frame.area();
                frame.render_widget(widget, area)?;
                frame.cursor_position = cursor;
                Ok(())
            },
        )?;
        Ok(*self.frames.previous.area())
    }
}
