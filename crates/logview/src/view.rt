//! Lines above a status line.

ghost use Rattle.std.specs.Prelude.{◌≡◌, ◌+◌, ◌<◌, IfOk, IfErr, IsOk, OnOk};
ghost use Rattle.ratatui_core.specs.Terminal.{DrawsRow, Faults, HasAreas, Inline, InsertsRow, IsBackendFault};
ghost use Rattle.ratatui_core.specs.Terminal.{IsBlank, IsSized};
ghost use Rattle.ratatui_core.specs.Terminal.{StartErr, WritesAtMost};
ghost use Rattle.ratatui_core.specs.Widgets.{HasFirstRow, RendersStr, RendersShortStr};
ghost use Rattle.logview.specs.Rows.{counted, status_text, RendersStatus};
ghost use Rattle.logview.specs.Inner.{RendersShortStatus};
ghost use Rattle.logview.specs.Rows.{end_place};
ghost use Rattle.logview.specs.Views.{IsFollowing, KeepsBelow, PushesLine, RefusesLine, RefusesPush};
ghost use Rattle.logview.specs.Views.{StartsView};
ghost use Rattle.logview.specs.Views.{cells_pushed, screen_in};

use crate::status::{status_style, status_text};
use ratatui_core::backend::Backend;
use ratatui_core::buffer::Buffer;
use ratatui_core::layout::{Position, Rect};
use ratatui_core::terminal::{Frame, Terminal, TerminalError, TerminalOptions, Viewport};
use ratatui_core::widgets::Widget;
use std::alloc::{AllocError, Global};

// Renders a text in the first row of an area, if the buffer has that row.
fn render_row(text: &str, area: Rect, buffer: &mut Buffer) -> Result<(), AllocError>
    ensures area { buffer.new.area ≡ buffer.old.area }
    ensures ok { HasFirstRow area buffer.old
        → OnOk result (RendersStr text.now area buffer.old buffer.new) }
    ensures short { RendersShortStr text.now area buffer.old → IsOk result }
{
    let own = *buffer.area();
    if area.x < own.x || area.y < own.y || own.bottom() <= area.y {
        return Ok(());
    }
    text.render(area, buffer)
}

// Renders a status line in the first row of an area, if the buffer has that row.
fn render_status(text: &str, area: Rect, buffer: &mut Buffer) -> Result<(), AllocError>
    ensures area { buffer.new.area ≡ buffer.old.area }
    ensures ok { HasFirstRow area buffer.old
        → OnOk result (RendersStatus text.now area buffer.old buffer.new) }
    ensures short { RendersShortStatus text.now area buffer.old → IsOk result }
{
    let own = *buffer.area();
    if area.x < own.x || area.y < own.y || own.bottom() <= area.y {
        return Ok(());
    }
    let columns = usize::from(area.width);
    buffer.set_stringn(area.x, area.y, text, columns, status_style())?;
    Ok(())
}

// Renders a status line of ASCII in the first row of a frame, and has the cursor after it.
fn render_frame(text: &str, frame: &mut Frame<'_>) -> Result<(), AllocError>
    ensures same { frame.new.buffer.ghost_name ≡ frame.old.buffer.ghost_name }
    ensures area { frame.new.buffer.now.area ≡ frame.old.buffer.now.area }
    ensures ok { HasFirstRow frame.old.viewport_area frame.old.buffer.now
        → OnOk result (RendersStatus text.now frame.old.viewport_area
        frame.old.buffer.now frame.new.buffer.now) }
    ensures cursor { OnOk result
        (frame.new.cursor_position ≡ end_place text.now frame.old.viewport_area) }
    ensures short { RendersShortStatus text.now frame.old.viewport_area frame.old.buffer.now
        → IsOk result }
{
    let area = frame.area();
    render_status(text, area, frame.buffer_mut())?;
    let last = area.width.saturating_sub(1);
    let columns = text.len().min(usize::from(last)) as u16;
    frame.set_cursor_position(Position::new(area.x.saturating_add(columns), area.y));
    Ok(())
}

/// A terminal over one row, the status line, below the lines that were pushed, of which it keeps
/// the number. The status line stands in reverse video, and the cursor after it.
///
/// ```
/// let mut view = LogView::new(alloc, TestBackend::new(alloc, 8, 3)?)?;
/// view.push("one")?;
/// assert!(rt; view.terminal().backend().lines_are(&["one     ", "lines: 1", "        "]));
/// ```
#[derive(Debug, Drop)]
pub struct LogView<B: Backend> {
    terminal: Terminal<B>,
    count: u64,
}

impl<B: Backend + Drop> LogView<B> {
    /// Makes a view without lines: its status line stands in the cursor's row, or in the last one.
    ///
    /// # Errors
    ///
    /// - `Memory`: memory was refused. It is taken only if the screen has cells.
    /// - `Backend`: a call of the backend failed.
    ///
    /// The backend is dropped then.
    pub fn new(alloc: Global, backend: B) -> Result<LogView<B>, TerminalError<B::Error>>
        ensures started { IsBlank (B.screen backend) → 0 < (B.screen backend).height
            → IfOk result (StartsView B.screen backend) }
        ensures count { IfOk result (λ v. v.count ≡ 0) }
        ensures calls { IfOk result (λ v.
            B.failures v.terminal.backend ≡ B.failures backend) }
        ensures refused { IfErr result (StartErr B.screen B.failures (Inline 1) backend) }
    {
        let options = TerminalOptions {
            viewport: Viewport::Inline(1),
        };
        let terminal = Terminal::with_options(alloc, backend, options)?;
        let mut view = LogView { terminal, count: 0 };
        view.draw_status()?;
        Ok(view)
    }
}

impl<B: Backend> LogView<B> {
    // Draws the status line, and has the cursor after it.
    fn draw_status(&mut self) -> Result<(), TerminalError<B::Error>>
        ensures count { self.new.count ≡ self.old.count }
        ensures ok { IsFollowing B.screen self.old
            → OnOk result (let text = status_text self.old.count in
            DrawsRow B.screen (RendersStatus text) (end_place text)
            self.old.terminal self.new.terminal) }
        ensures err { HasAreas self.old.terminal → IsSized B.screen self.old.terminal
            → IfErr result IsBackendFault }
        ensures faults { Faults result (B.failures self.old.terminal.backend)
            (B.failures self.new.terminal.backend) }
    {
        let text = status_text(self.count);
        self.terminal
            .draw(|frame| render_frame(text.as_str(), frame))?;
        Ok(())
    }

    // Inserts a line above the status line.
    fn insert_line(&mut self, line: &str) -> Result<(), TerminalError<B::Error>>
        ensures count { self.new.count ≡ self.old.count }
        ensures ok { IsFollowing B.screen self.old
            → OnOk result (InsertsRow B.screen line.now
            self.old.terminal self.new.terminal) }
        ensures kept { IsFollowing B.screen self.old
            → OnOk result (KeepsBelow B.screen self.old self.new) }
        ensures most { IsFollowing B.screen self.old
            → OnOk result (let before = screen_in B.screen self.old in
            WritesAtMost (cells_pushed before) before (screen_in B.screen self.new)) }
        ensures err { IsFollowing B.screen self.old
            → IfErr result (RefusesLine B.screen B.stops_at line.now self.old self.new) }
        ensures faults { Faults result (B.failures self.old.terminal.backend)
            (B.failures self.new.terminal.backend) }
    {
        self.terminal.insert_before(1, |buffer| {
            let area = *buffer.area();
            render_row(line, area, buffer)
        })
    }

    /// Appends a line: a row of the screen's width with as much of it as fits. The rows below the
    /// status line stay.
    ///
    /// # Errors
    ///
    /// - `Memory`: memory was refused. Nothing has changed then.
    /// - `Backend`: a call of the backend failed, in the insertion of the row or after the row was
    ///   counted. The screen may show anything then.
    pub fn push(&mut self, line: &str) -> Result<(), TerminalError<B::Error>>
        ensures pushed { IsFollowing B.screen self.old
            → OnOk result (PushesLine B.screen line.now self.old self.new) }
        ensures count { OnOk result (self.new.count ≡ counted (self.old.count + 1)) }
        ensures refused { IsFollowing B.screen self.old
            → IfErr result (RefusesPush B.screen B.stops_at line.now self.old self.new) }
        ensures faults { Faults result (B.failures self.old.terminal.backend)
            (B.failures self.new.terminal.backend) }
    {
        self.insert_line(line)?;
        self.count = self.count.saturating_add(1);
        self.draw_status()
    }

    /// Returns how many lines were pushed; it stays at the greatest number.
    pub fn count(&self) -> u64
        ensures { result ≡ self.now.count }
    {
        self.count
    }

    /// Returns the terminal that shows them.
    pub fn terminal(&self) -> &Terminal<B>
        ensures { result.now ≡ self.now.terminal }
    {
        &self.terminal
    }

    /// Gives the terminal back, when the view is done with: as the last call left it.
    pub fn into_terminal(self) -> Terminal<B>
        ensures { result ≡ self.terminal }
    {
        let LogView { terminal, count: _ } = self;
        terminal
    }
}
