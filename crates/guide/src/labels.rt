//! A widget over a buffer, and what it leaves on a screen.

ghost use Rattle.std.specs.Prelude.{◌≡◌, ◌≤◌, ◌+◌, ◌-◌, List, OnOk};
ghost use Rattle.ratatui_core.specs.Layout.{Rect, Position, HasPosition};
ghost use Rattle.ratatui_core.specs.Style.{new_style};
ghost use Rattle.ratatui_core.specs.Buffer.{Grid, IsEmptied, IsSettledBuffer, PaintsPieces, Piece, columns};
ghost use Rattle.ratatui_core.specs.Buffer.{pieces_at};
ghost use Rattle.guide.specs.Labels.{StandsAt, ShowsLabel};

use ratatui_core::buffer::Buffer;
use ratatui_core::layout::Position;
use ratatui_core::style::Style;
use std::alloc::AllocError;

/// Paints a text at a position, if the buffer has it.
///
/// # Errors
///
/// `AllocError` if memory is refused. What the buffer holds then isn't said here.
pub fn label(buffer: &mut Buffer, position: Position, text: &str) -> Result<(), AllocError>
    ensures painted { HasPosition buffer.old.area position → OnOk result (
        PaintsPieces position (pieces_at buffer.old.area position.x 65535 new_style text.now)
        buffer.old buffer.new) }
    ensures settled { IsEmptied buffer.old.area buffer.old
        → OnOk result (IsSettledBuffer buffer.new) }
{
    if !buffer.area().contains(position) {
        return Ok(());
    }
    buffer.set_string(position.x, position.y, text, Style::new())
}

/// Says what shown pieces are, column by column.
pub fn pieces_stand()
    ensures { (area : Rect) (p : Position) (ps : List Piece) (g : Grid) → HasPosition area p
        → columns ps ≤ area.x + area.width - p.x → ShowsLabel area p ps g → StandsAt area p ps g }
{}
