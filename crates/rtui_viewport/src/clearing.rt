ghost use Rattle.std.specs.Prelude.{◌≡◌, ◌*◌, ◌≤◌, ◌<◌, OnOk};
ghost use Rattle.rtui_geometry.specs.Rect.{EdgesFit, has_position};
ghost use Rattle.rtui_backend.specs.Failures.{Counts};
ghost use Rattle.rtui_backend.specs.declared.clear_type.ClearType.TheVariants.{AfterCursor};
ghost use Rattle.rtui_backend.specs.Screen.{Clears, IsOnScreen, cursor_of, with_cursor};
ghost use Rattle.rtui_viewport.specs.Areas.{KeepsAllButLooks, Empties, is_between};
ghost use Rattle.rtui_viewport.specs.Clearing.{ClearsArea, WritesItems, WritesBlanks, blanks_needed};
ghost use Rattle.rtui_viewport.specs.declared.viewport.Viewport.TheVariants.{Fullscreen};
ghost use Rattle.rtui_viewport.specs.Viewports.{IsFixed, IsInline};
ghost use Rattle.rtui_viewport.specs.Placing.{cursor_restored};

use crate::blanks::Blanks;
use crate::viewport::Viewport;
use rtui_backend::{Backend, ClearType};
use rtui_cell::Cell;
use rtui_geometry::{Position, Rect};

// Empties the rows from `top` up to `bottom`, and draws nothing.
fn clear_rows<B: Backend>(backend: &mut B, top: u16, bottom: u16) -> Result<(), B::Error>
    requires { top ≤ bottom }
    ensures written { OnOk result
        ((B.screen backend.new).written ≡ (B.screen backend.old).written) }
    ensures cleared { OnOk result (top < (B.screen backend.old).height
        → Empties (is_between top bottom) (B.screen backend.old) (B.screen backend.new)) }
    ensures frame { OnOk result (KeepsAllButLooks (B.screen backend.old) (B.screen backend.new)) }
    ensures counts { Counts result (B.failures backend.old) (B.failures backend.new) }
{
    for y in top..bottom {
        backend.set_cursor_position(Position { x: 0, y })?;
        backend.clear_region(ClearType::CurrentLine)?;
    }
    Ok(())
}

// Draws an empty cell at each position of an area.
fn draw_blanks<B: Backend>(backend: &mut B, area: Rect) -> Result<(), B::Error>
    requires { EdgesFit area }
    ensures cleared { OnOk result
        (Empties (has_position area) (B.screen backend.old) (B.screen backend.new)) }
    ensures frame { OnOk result (KeepsAllButLooks (B.screen backend.old) (B.screen backend.new)) }
    ensures written { OnOk result
        (WritesItems (area.width * area.height) (B.screen backend.old) (B.screen backend.new)) }
    ensures counts { Counts result (B.failures backend.old) (B.failures backend.new) }
{
    let blank = Cell::EMPTY;
    backend.draw(Blanks::new(area, &blank))
}

// Empties an area and nothing else, by the fewest calls that serve.
fn clear_fixed<B: Backend>(backend: &mut B, area: Rect) -> Result<(), B::Error>
    requires { EdgesFit area }
    ensures cleared { OnOk result (IsOnScreen area (B.screen backend.old)
        → Empties (has_position area) (B.screen backend.old) (B.screen backend.new)) }
    ensures cut { OnOk result (area.y < (B.screen backend.old).height
        → Empties (has_position area) (B.screen backend.old) (B.screen backend.new)) }
    ensures frame { OnOk result (KeepsAllButLooks (B.screen backend.old) (B.screen backend.new)) }
    ensures written { OnOk result (WritesItems (blanks_needed area (B.screen backend.old))
        (B.screen backend.old) (B.screen backend.new)) }
    ensures counts { Counts result (B.failures backend.old) (B.failures backend.new) }
{
    if area.is_empty() {
        return Ok(());
    }
    let size = backend.size()?;
    if area.x != 0 || area.width != size.width {
        return draw_blanks(backend, area);
    }
    if area.bottom() != size.height {
        return clear_rows(backend, area.y, area.bottom());
    }
    backend.set_cursor_position(area.as_position())?;
    backend.clear_region(ClearType::AfterCursor)
}

/// Empties a viewport's area. An inline viewport is emptied together with all rows below it, a
/// fixed one alone, and for a fullscreen one the whole screen is. Blanks are drawn only over a
/// fixed one that isn't as wide as the screen. The cursor may end anywhere; for a fullscreen one it
/// stays.
///
/// # Conditions
///
/// The edges of the area are at most 65535.
///
/// # Errors
///
/// The backend's own error if one of its calls failed. Nothing is said of the screen then, and one
/// more failure is counted.
pub fn clear_area<B: Backend>(
    backend: &mut B,
    viewport: Viewport,
    area: Rect,
) -> Result<(), B::Error>
    requires { EdgesFit area }
    ensures cleared { OnOk result
        (ClearsArea viewport area (B.screen backend.old) (B.screen backend.new)) }
    ensures cut { OnOk result (IsFixed viewport → area.y < (B.screen backend.old).height
        → Empties (has_position area) (B.screen backend.old) (B.screen backend.new)) }
    ensures corner { OnOk result (IsInline viewport → Clears
        (with_cursor area.x area.y (B.screen backend.old)) AfterCursor (B.screen backend.new)) }
    ensures frame { OnOk result (KeepsAllButLooks (B.screen backend.old) (B.screen backend.new)) }
    ensures cursor { OnOk result (viewport ≡ Fullscreen
        → cursor_of (B.screen backend.new) ≡ cursor_of (B.screen backend.old)) }
    ensures written { OnOk result
        (WritesBlanks viewport area (B.screen backend.old) (B.screen backend.new)) }
    ensures counts { Counts result (B.failures backend.old) (B.failures backend.new) }
{
    match viewport {
        Viewport::Fullscreen => backend.clear_region(ClearType::All),
        Viewport::Inline(_) => {
            backend.set_cursor_position(area.as_position())?;
            backend.clear_region(ClearType::AfterCursor)
        }
        Viewport::Fixed(_) => clear_fixed(backend, area),
    }
}

/// Sets the cursor back to a place, if there is one.
///
/// # Errors
///
/// The backend's own error if one of its calls failed. Nothing is said of the screen then, and one
/// more failure is counted.
pub fn restore_cursor<B: Backend>(backend: &mut B, cursor: Option<Position>) -> Result<(), B::Error>
    ensures restored { OnOk result
        (B.screen backend.new ≡ cursor_restored cursor (B.screen backend.old)) }
    ensures counts { Counts result (B.failures backend.old) (B.failures backend.new) }
{
    if let Some(position) = cursor {
        backend.set_cursor_position(position)?;
    }
    Ok(())
}
