//! One buffer laid over another.

ghost use Rattle.std.specs.Prelude.{◌≡◌, ◌*◌, ◌<◌, ◌≤◌, length, OnOk, OnErr, []};
ghost use Rattle.rtui_geometry.specs.Rect.{EdgesFit};
ghost use Rattle.rtui_buffer.specs.BufferData.{area_size};
ghost use Rattle.rtui_buffer.specs.Overlay.{IsOverlay, no_area};
ghost use Rattle.rtui_buffer.specs.Inner.{IsExtended, IsAround, HasInner};

use crate::buffer::Buffer;
use crate::buffer::sized::{copied, cut_or_fill};
use rtui_cell::Cell;
use rtui_geometry::Rect;
use rtui_grid::{Block, move_block};
use std::alloc::{AllocError, Global};

impl Buffer {
    /// Makes a buffer without cells, over the empty area in the corner of the grid; takes no
    /// memory.
    pub fn default_in(alloc: Global) -> Buffer
        ensures area { result.area ≡ no_area }
        ensures cells { result.cells ≡ [] }
        ensures room { result.room ≡ 0 }
    {
        Buffer {
            area: Rect::ZERO,
            content: Vec::new(alloc),
        }
    }

    /// Lays another buffer over this one: on the union of their areas stands each cell of the other
    /// one; where that has none, each cell of this one; and elsewhere an empty cell.
    ///
    /// # Errors
    ///
    /// `AllocError` if memory is refused; nothing has changed then.
    pub fn merge(&mut self, other: &Buffer) -> Result<(), AllocError>
        ensures overlay { OnOk result (IsOverlay self.old other.now self.new) }
        ensures keeps_room { self.old.room ≤ self.new.room }
        ensures err { OnErr result (self.new ≡ self.old) }
    {
        let alloc = *self.content.allocator();
        let upper_area = other.area;
        let mut upper = copied(alloc, other.content())?;
        let area = self.area.union(upper_area);
        self.extend(area)?;
        move_inner(
            self.content.as_mut_slice(),
            area,
            upper.as_mut_slice(),
            upper_area,
        );
        Ok(())
    }

    // Gives the buffer an area around its own, in which its cells stand where they stood, among
    // empty ones.
    fn extend(&mut self, area: Rect) -> Result<(), AllocError>
        requires edges { EdgesFit area }
        requires around { IsAround area self.old.area }
        ensures ok { OnOk result (IsExtended area self.old self.new) }
        ensures keeps_room { self.old.room ≤ self.new.room }
        ensures err { OnErr result (self.new ≡ self.old) }
    {
        if area == self.area {
            return Ok(());
        }
        let count = area.area() as usize;
        let room = count.max(self.content.capacity());
        let mut content = Vec::with_capacity(*self.content.allocator(), room)?;
        cut_or_fill(&mut content, count)?;
        move_inner(
            content.as_mut_slice(),
            area,
            self.content.as_mut_slice(),
            self.area,
        );
        self.content = content;
        self.area = area;
        Ok(())
    }
}

// Moves the cells of an inner area to their positions in the list of an area around it.
fn move_inner(cells: &mut [Cell], area: Rect, block: &mut [Cell], inner: Rect)
    requires count { length cells.old ≡ area_size area }
    requires block_count { length block.old ≡ area_size inner }
    requires around { IsAround area inner }
    ensures { HasInner area inner block.old cells.old cells.new }
{
    let place = Block {
        left: inner.x - area.x,
        top: inner.y - area.y,
        columns: inner.width,
        rows: inner.height,
    };
    move_block(cells, area.width, place, block, inner.width);
}
