ghost use Rattle.std.specs.Prelude.{◌≡◌, Some, IsOk, OnOk, OnErr};
ghost use Rattle.std.specs.Borrow.{sem};
ghost use Rattle.rtui_widgets.specs.Rendering.{ChangesWithin};

use crate::terminal::Terminal;
use rtui_backend::Backend;
use rtui_buffer::Buffer;
use rtui_geometry::{Position, Rect};
use rtui_widgets::{StatefulWidget, Widget};
use std::alloc::AllocError;

/// What a closure paints on: the current buffer of a terminal, its area, and the place that the
/// cursor is to have afterwards.
///
/// ```
/// let area = frame.area();
/// frame.buffer_mut().set_style(area, Style::new().bg(Color::Blue));
/// frame.render_widget(Line::raw(alloc, "Name: ")?, area)?;
/// frame.set_cursor_position(Position::new(area.x.saturating_add(6), area.y));
/// ```
#[derive(Debug, PartialEq, Eq, Hash, Drop)]
pub struct Frame<'a> {
    pub(crate) cursor_position: Option<Position>,
    pub(crate) viewport_area: Rect,
    pub(crate) buffer: &'a mut Buffer,
    pub(crate) count: usize,
}

impl Frame<'_> {
    ghost use Rattle.rtui_terminal.specs.Borrows.{LendsBuffer};
    ghost use Rattle.rtui_terminal.specs.Frames.{KeepsFrame};

    /// Returns the area of the viewport, in columns and rows of the screen.
    pub fn area(&self) -> Rect
        ensures { result ≡ self.now.viewport_area }
    {
        self.viewport_area
    }

    /// Returns the area of the viewport: the old name of `area`.
    pub fn size(&self) -> Rect
        ensures { result ≡ self.now.viewport_area }
    {
        self.viewport_area
    }

    /// Sets where the cursor is to be after the draw; a frame without one hides it.
    pub fn set_cursor_position(&mut self, position: Position)
        ensures { self.new ≡ record self.old { cursor_position = Some position } }
    {
        self.cursor_position = Some(position);
    }

    /// Sets where the cursor is to be after the draw: the old name of `set_cursor_position`.
    pub fn set_cursor(&mut self, x: u16, y: u16)
        ensures { self.new ≡ record self.old { cursor_position = Some (record { x = x; y = y }) } }
    {
        self.set_cursor_position(Position { x, y });
    }

    /// Returns the buffer to paint on.
    pub fn buffer_mut(&mut self) -> &mut Buffer
        ensures* writes_back { sem 𝓛 (LendsBuffer self.entry result) }
        ensures value { result.now ≡ self.old.buffer.now }
    {
        &mut *self.buffer
    }

    /// Renders a widget over an area of the frame's buffer.
    ///
    /// ```
    /// let area = frame.area();
    /// frame.render_widget(Line::raw(alloc, "Hello, world!")?.centered(), area)?;
    /// ```
    ///
    /// # Conditions
    ///
    /// The widget may be rendered over this area of the frame's buffer, as far as it says.
    ///
    /// # Errors
    ///
    /// `AllocError` if memory is refused. Then no cell outside the widget's reach has changed,
    /// which is the area unless the widget says otherwise.
    pub fn render_widget<W: Widget>(&mut self, widget: W, area: Rect) -> Result<(), AllocError>
        requires { W.can_render widget area self.old.buffer.now }
        ensures keeps { KeepsFrame self.old self.new }
        ensures ok { OnOk result (W.renders widget area self.old.buffer.now self.new.buffer.now) }
        ensures err { let reach = W.reach widget area in
            OnErr result (ChangesWithin reach self.old.buffer.now self.new.buffer.now) }
        ensures left { OnErr result (W.leaves widget area
            self.old.buffer.now self.new.buffer.now) }
        ensures short { W.is_short widget area self.old.buffer.now → IsOk result }
    {
        widget.render(area, self.buffer)
    }

    /// Renders a widget over an area of the frame's buffer, from its state on.
    ///
    /// ```
    /// let mut state = ListState::default();
    /// state.select(Some(2));
    /// frame.render_stateful_widget(list, area, &mut state)?;
    /// ```
    ///
    /// # Conditions
    ///
    /// The widget may be rendered over this area of the frame's buffer in this state, as far as it
    /// says.
    ///
    /// # Errors
    ///
    /// `AllocError` if memory is refused. Then no cell outside the widget's reach has changed,
    /// which is the area unless the widget says otherwise; the widget says what its state is then.
    pub fn render_stateful_widget<W: StatefulWidget>(
        &mut self,
        widget: W,
        area: Rect,
        state: &mut W::State,
    ) -> Result<(), AllocError>
        requires { W.can_render widget state.old area self.old.buffer.now }
        ensures keeps { KeepsFrame self.old self.new }
        ensures ok { OnOk result (W.renders widget state.old state.new area
            self.old.buffer.now self.new.buffer.now) }
        ensures err { let reach = W.reach widget area in
            OnErr result (ChangesWithin reach self.old.buffer.now self.new.buffer.now) }
        ensures left { OnErr result (W.leaves widget state.old state.new area
            self.old.buffer.now self.new.buffer.now) }
        ensures short { W.is_short widget state.old area self.old.buffer.now → IsOk result }
    {
        widget.render(area, self.buffer, state)
    }

    /// Returns how many frames were drawn before this one; it starts again at 0 past the greatest
    /// number.
    pub fn count(&self) -> usize
        ensures { result ≡ self.now.count }
    {
        self.count
    }
}

/// What a draw that answered Ok painted. Two are equal if their buffers, areas and counts are.
#[derive(Debug, Drop)]
pub struct CompletedFrame<'a, B: Backend> {
    pub(crate) terminal: &'a mut Terminal<B>,
    /// The area that was known last: the screen's, or a fixed viewport's own.
    pub area: Rect,
    /// How many frames were drawn before this one.
    pub count: usize,
}

impl<B: Backend> CompletedFrame<'_, B> {
    /// Returns the buffer that was painted.
    pub fn buffer(&self) -> &Buffer
        ensures { result.now ≡ self.now.terminal.now.previous }
    {
        let terminal = &*self.terminal;
        &terminal.frames.previous
    }
}
