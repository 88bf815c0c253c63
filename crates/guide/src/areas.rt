//! An area, divided.

ghost use Rattle.std.specs.Prelude.{◌+◌, ◌<◌, ◌≤◌, IfOk};
ghost use Rattle.guide.specs.Areas.{IsHeadAndBody};

use ratatui_core::layout::laws::who_takes_the_rest_leaves_nothing;
use ratatui_core::layout::{Constraint, Layout, Rect, SplitInto};
use std::alloc::{AllocError, Global};

/// Returns the first row of an area, and the rows below it.
///
/// # Errors
///
/// `AllocError` if memory is refused.
pub fn head_and_body(alloc: Global, area: Rect) -> Result<[Rect; 2], AllocError>
    ensures { 0 < area.height → area.y + area.height ≤ 65535
        → IfOk result (IsHeadAndBody area) }
{
    let layout = Layout::vertical(alloc, &[Constraint::Length(1), Constraint::Fill(1)])?;
    who_takes_the_rest_leaves_nothing();
    Ok(layout.areas(area))
}
