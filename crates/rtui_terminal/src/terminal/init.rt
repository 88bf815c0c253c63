ghost use Rattle.std.specs.Prelude.{◌≡◌, IfOk, MatchResult};
ghost use Rattle.rtui_viewport.specs.Viewports.{FitsEdges};
ghost use Rattle.rtui_viewport.specs.declared.viewport.Viewport.TheVariants.{Fullscreen};
ghost use Rattle.rtui_terminal.specs.TerminalData.{IsDefaultOver};
ghost use Rattle.rtui_terminal.specs.Starting.{Starts, StartErr};

use crate::terminal::Terminal;
use crate::terminal::error::TerminalError;
use crate::terminal::frames::Frames;
use rtui_backend::Backend;
use rtui_buffer::Buffer;
use rtui_geometry::{Position, Rect};
use rtui_viewport::{Viewport, first_area, place_viewport};
use std::alloc::Global;

/// How a terminal is made.
#[derive(Debug, Default, Clone, PartialEq, Eq, Hash, Drop)]
pub struct TerminalOptions {
    /// The part of the screen that it draws on.
    pub viewport: Viewport,
}

impl<B: Backend + Drop> Terminal<B> {
    /// Makes a terminal over the whole screen of a backend, with empty buffers; it is in step if
    /// the screen is blank.
    ///
    /// # Errors
    ///
    /// - `Memory`: memory was refused. It is taken only if the screen has cells.
    /// - `Backend`: a call of the backend failed.
    ///
    /// The backend is dropped then.
    pub fn new(alloc: Global, backend: B) -> Result<Self, TerminalError<B::Error>>
        ensures starts { IfOk result (Starts B.screen Fullscreen backend) }
        ensures count { IfOk result (λ t. B.failures t.backend ≡ B.failures backend) }
        ensures refused { MatchResult result (λ _. Unit {0})
            (StartErr B.screen B.failures Fullscreen backend) }
    {
        let options = TerminalOptions {
            viewport: Viewport::Fullscreen,
        };
        Terminal::with_options(alloc, backend, options)
    }

    /// Makes a terminal over a part of a backend's screen, with empty buffers; it is in step if
    /// that part is on the screen and blank. If an inline viewport doesn't fit below the cursor,
    /// the screen scrolls.
    ///
    /// ```
    /// // Three rows at the cursor, below what the screen shows already.
    /// let options = TerminalOptions { viewport: Viewport::Inline(3) };
    /// let mut terminal = Terminal::with_options(alloc, backend, options)?;
    /// ```
    ///
    /// # Conditions
    ///
    /// The edges of a fixed viewport are at most 65535.
    ///
    /// # Errors
    ///
    /// - `Memory`: memory was refused. It is taken only if the viewport has cells.
    /// - `Backend`: a call of the backend failed. For a fixed viewport none is made.
    ///
    /// The backend is dropped then.
    pub fn with_options(
        alloc: Global,
        mut backend: B,
        options: TerminalOptions,
    ) -> Result<Self, TerminalError<B::Error>>
        requires { FitsEdges options.viewport }
        ensures starts { IfOk result (Starts B.screen options.viewport backend) }
        ensures count { IfOk result (λ t. B.failures t.backend ≡ B.failures backend) }
        ensures refused { MatchResult result (λ _. Unit {0})
            (StartErr B.screen B.failures options.viewport backend) }
    {
        let viewport = options.viewport;
        let area = first_area(&mut backend, viewport).map_err(TerminalError::Backend)?;
        let rows = Rect {
            x: 0,
            y: 0,
            width: area.width,
            height: viewport.rows_in(area.height),
        };
        let mut frames = Frames::empty(alloc, rows)?;
        let placed = place_viewport(&mut backend, viewport, 0, area, 0).map_err(
            TerminalError::Backend,
        )?;
        frames.move_to(placed.area.as_position());
        let last_known_cursor_pos = placed.cursor.unwrap_or(area.as_position());
        Ok(Terminal {
            backend,
            frames,
            viewport,
            viewport_area: placed.area,
            last_known_area: area,
            last_known_cursor_pos,
            hidden_cursor: false,
            frame_count: 0,
        })
    }
}

impl<B: Backend + Default + Drop> Terminal<B> {
    /// Makes a terminal over a default backend, which isn't asked for its size: the viewport is
    /// empty. It takes no memory.
    pub fn default_in(alloc: Global) -> Self
        ensures empty { IsDefaultOver result }
        ensures backend { B.is_default result.backend }
    {
        Terminal {
            backend: B::default(),
            frames: Frames {
                current: Buffer::default_in(alloc),
                previous: Buffer::default_in(alloc),
            },
            viewport: Viewport::Fullscreen,
            viewport_area: Rect::ZERO,
            last_known_area: Rect::ZERO,
            last_known_cursor_pos: Position::ORIGIN,
            hidden_cursor: false,
            frame_count: 0,
        }
    }
}
