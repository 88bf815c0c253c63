//! Buffers that move with a viewport.

ghost use Rattle.rtui_geometry.specs.Rect.{EdgesFit};
ghost use Rattle.rtui_insert.specs.Following.{Follows};

use rtui_buffer::Buffer;
use rtui_geometry::{Position, Rect};

/// Moves a buffer of a viewport's former area to the viewport's new top row, with the same cells;
/// any other buffer stays.
///
/// # Conditions
///
/// The edges of the viewport at its new top are at most 65535.
pub fn follow_viewport(buffer: &mut Buffer, former: Rect, top: u16)
    requires { EdgesFit (record former { y = top }) }
    ensures follows { Follows former (record former { y = top }) buffer.old buffer.new }
{
    if *buffer.area() == former {
        buffer.move_to(Position {
            x: former.x,
            y: top,
        });
    }
}
