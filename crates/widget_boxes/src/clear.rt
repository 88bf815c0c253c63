//! Emptying an area.

ghost use Rattle.std.specs.Prelude.{⊤};
ghost use Rattle.ratatui_core.specs.Buffer.{empty_cell};

use ratatui_core::buffer::{Buffer, Cell, CellChange, change_area};
use ratatui_core::layout::{Position, Rect};
use ratatui_core::widgets::Widget;
use std::alloc::{AllocError, Global};

/// Empties each cell of an area.
#[derive(Debug, Default, Clone, Copy, PartialEq, Eq, Hash)]
pub struct Clear;

// A cell made empty.
#[derive(Drop)]
struct Emptying;

impl CellChange for Emptying {
    ghost made = { λ _ _ _. empty_cell };

    ghost is_light = { λ _ _ _. ⊤ };

    fn change(&self, alloc: Global, position: Position, cell: &mut Cell) -> Result<(), AllocError> {
        let _ = (alloc, position);
        cell.reset();
        Ok(())
    }
}

impl Widget for &Clear {
    ghost use Rattle.std.specs.Prelude.{⊤};
    ghost use Rattle.widget_boxes.specs.Clears.{RendersClear};

    ghost renders = { λ _. RendersClear };

    ghost is_short = { λ _ _ _. ⊤ };

    fn render(self, area: Rect, buf: &mut Buffer) -> Result<(), AllocError> {
        change_area(buf, area, &Emptying)
    }
}

impl Widget for Clear {
    ghost use Rattle.std.specs.Prelude.{⊤};
    ghost use Rattle.widget_boxes.specs.Clears.{RendersClear};

    ghost renders = { λ _. RendersClear };

    ghost is_short = { λ _ _ _. ⊤ };

    fn render(self, area: Rect, buf: &mut Buffer) -> Result<(), AllocError> {
        (&self).render(area, buf)
    }
}
