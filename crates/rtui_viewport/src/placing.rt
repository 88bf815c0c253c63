ghost use Rattle.std.specs.Prelude.{◌≡◌, ◌≤◌, nat_lt, OnOk, IfOk, IsOk};
ghost use Rattle.rtui_geometry.specs.Rect.{EdgesFit};
ghost use Rattle.rtui_backend.specs.Failures.{Counts};
ghost use Rattle.rtui_backend.specs.Screen.{Appends, IsOnGrid, IsOnScreen, cursor_of, size_of, screen_area};
ghost use Rattle.rtui_viewport.specs.Viewports.{IsInline};
ghost use Rattle.rtui_viewport.specs.Placing.{lines_below, inline_area, PlacesInline, Places, EmptiesAllIf};
ghost use Rattle.rtui_viewport.specs.Placing.{area_in, raised, cursor_found};

use crate::viewport::Viewport;
use rtui_backend::{Backend, ClearType};
use rtui_geometry::{Position, Rect, Size};

/// Where a viewport went, and the cursor that is to be set again after an inline one.
#[derive(Debug, Clone, Copy, PartialEq, Eq)]
pub struct Placed {
    pub area: Rect,
    pub cursor: Option<Position>,
}

/// Makes room for an inline viewport of `wanted` rows on a screen of this size, of which `offset`
/// are to lie above the cursor's row: if they don't fit below it, the screen scrolls. It answers
/// the viewport's area, and where the cursor was.
///
/// # Errors
///
/// The backend's own error if one of its calls failed. Nothing is said of the screen then, and one
/// more failure is counted.
pub fn place_inline<B: Backend>(
    backend: &mut B,
    wanted: u16,
    size: Size,
    offset: u16,
) -> Result<(Rect, Position), B::Error>
    ensures area { IfOk result (λ found.
        found.0 ≡ inline_area wanted size.width size.height offset
        (B.screen backend.old).cursor_y) }
    ensures fits { IfOk result (λ found. EdgesFit found.0) }
    ensures cursor { IfOk result (λ found. found.1 ≡ cursor_of (B.screen backend.old)) }
    ensures on_grid { OnOk result (IsOnGrid (B.screen backend.old)) }
    ensures appended { OnOk result
        (Appends (B.screen backend.old) (lines_below wanted offset) (B.screen backend.new)) }
    ensures placed { IfOk result (λ found. size ≡ size_of (B.screen backend.old)
        → PlacesInline wanted offset (B.screen backend.old) found.0 (B.screen backend.new)) }
    ensures counts { Counts result (B.failures backend.old) (B.failures backend.new) }
{
    let cursor = backend.get_cursor_position()?;
    let lines = wanted.saturating_sub(offset).saturating_sub(1);
    backend.append_lines(lines)?;
    let below = size.height.saturating_sub(cursor.y).saturating_sub(1);
    let missing = lines.saturating_sub(below);
    let area = Rect {
        x: 0,
        y: cursor.y.saturating_sub(missing).saturating_sub(offset),
        width: size.width,
        height: wanted.min(size.height),
    };
    Ok((area, cursor))
}

// Empties the whole screen if a viewport became narrower, which then goes to the top.
fn raise<B: Backend>(backend: &mut B, area: Rect, former_width: u16) -> Result<Rect, B::Error>
    requires { EdgesFit area }
    ensures area { IfOk result (λ r. r ≡ raised former_width area) }
    ensures fits { IfOk result EdgesFit }
    ensures emptied { OnOk result
        (EmptiesAllIf (nat_lt area.width former_width) (B.screen backend.old)
        (B.screen backend.new)) }
    ensures rest { OnOk result (B.screen backend.new
        ≡ record (B.screen backend.old) { grid = (B.screen backend.new).grid }) }
    ensures quiet { former_width ≤ area.width
        → IsOk result × (backend.new ≡ backend.old) }
    ensures counts { Counts result (B.failures backend.old) (B.failures backend.new) }
{
    if area.width >= former_width {
        return Ok(area);
    }
    backend.clear_region(ClearType::All)?;
    Ok(Rect { y: 0, ..area })
}

/// Finds where a viewport goes in a new area: an inline one as `place_inline` says, any other takes
/// it as it is. One that became narrower goes to the top, and the screen is emptied. For one that
/// isn't inline and didn't become narrower no call is made.
///
/// # Conditions
///
/// The edges of the area are at most 65535.
///
/// # Errors
///
/// The backend's own error if one of its calls failed. Nothing is said of the screen then, and one
/// more failure is counted.
pub fn place_viewport<B: Backend>(
    backend: &mut B,
    viewport: Viewport,
    former_width: u16,
    area: Rect,
    offset: u16,
) -> Result<Placed, B::Error>
    requires { EdgesFit area }
    ensures area { IfOk result (λ placed.
        placed.area ≡ raised former_width
        (area_in viewport area offset (B.screen backend.old).cursor_y)) }
    ensures fits { IfOk result (λ placed. EdgesFit placed.area) }
    ensures cursor { IfOk result (λ placed.
        placed.cursor ≡ cursor_found viewport (B.screen backend.old)) }
    ensures on_grid { OnOk result (IsInline viewport → IsOnGrid (B.screen backend.old)) }
    ensures on_screen { IfOk result (λ placed. area ≡ screen_area (B.screen backend.old)
        → IsOnScreen placed.area (B.screen backend.new)) }
    ensures placed { OnOk result
        (Places viewport former_width area.width offset (B.screen backend.old)
        (B.screen backend.new)) }
    ensures quiet { (IsInline viewport → ⊥) → former_width ≤ area.width
        → IsOk result × (backend.new ≡ backend.old) }
    ensures counts { Counts result (B.failures backend.old) (B.failures backend.new) }
{
    let (next, cursor) = match viewport {
        Viewport::Inline(wanted) => {
            let (next, cursor) = place_inline(backend, wanted, area.as_size(), offset)?;
            (next, Some(cursor))
        }
        _ => (area, None),
    };
    let area = raise(backend, next, former_width)?;
    Ok(Placed { area, cursor })
}
