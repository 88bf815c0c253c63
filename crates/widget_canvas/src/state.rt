//! What a canvas keeps from one rendering to the next.

ghost use Rattle.std.specs.Prelude.{◌≡◌, None, IfOk, IsOk};
ghost use Rattle.widget_canvas.specs.Kept.{HasGrid};
ghost use Rattle.widget_canvas.specs.Inner.{IsEmptyGrid};

use rtui_dots::{Painter, Scale};
use std::alloc::{AllocError, Global};

/// The grid of a canvas's dots. A rendering makes it where there is none of as many cells as there are
/// inside its canvas's box, and takes no memory for it where there is one.
///
/// ```
/// let mut state = CanvasState::new();
/// StatefulWidget::render(&canvas, area, &mut first, &mut state)?;
/// ```
#[derive(Debug, Default, Drop)]
pub struct CanvasState {
    pub(crate) grid: Option<Painter>,
}

impl CanvasState {
    /// Makes a state without a grid; takes no memory.
    pub fn new() -> CanvasState
        ensures { result.grid ≡ None }
    {
        CanvasState { grid: None }
    }

    // Takes the grid out, for a scale and without dots; makes one if there is none.
    pub(crate) fn take(&mut self, alloc: Global, scale: Scale) -> Result<Painter, AllocError>
        ensures empty { IfOk result (IsEmptyGrid scale) }
        ensures short { HasGrid self.old scale → IsOk result }
    {
        match self.grid.take() {
            Some(mut grid) => {
                grid.restart(scale)?;
                Ok(grid)
            }
            None => Painter::new(alloc, scale),
        }
    }
}
