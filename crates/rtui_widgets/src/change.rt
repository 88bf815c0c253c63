//! Changing each cell of an area.

ghost use Rattle.std.specs.Prelude.{◌≡◌, ◌<◌, IsOk, OnOk, OnErr};
ghost use Rattle.rtui_geometry.specs.Rect.{IsInside, HasPosition};
ghost use Rattle.rtui_buffer.specs.BufferData.{cell_in, position_of};
ghost use Rattle.rtui_widgets.specs.Rendering.{ChangesWithin};
ghost use Rattle.rtui_widgets.specs.Changes.{ChangesEach, AreLight, place_at};
ghost use Rattle.rtui_widgets.specs.Inner.{row_part, IsRowOfArea};

use rtui_buffer::{Buffer, Cell};
use rtui_geometry::{Position, Rect};
use std::alloc::{AllocError, Global};

/// A change of a cell by its position.
pub trait CellChange {
    ghost use Rattle.rtui_cell.specs.declared.cell.Cell.{Cell};
    ghost use Rattle.rtui_geometry.specs.declared.position.Position.{Position};

    // what it makes of a cell at a position
    ghost made: { Self → Position → Cell → Cell };

    // when it takes no memory
    ghost is_light: { Self → Position → Cell → Type 0 };

    /// Changes a cell that stands at a position.
    ///
    /// # Errors
    ///
    /// `AllocError` if memory is refused; the cell is as before then.
    fn change(&self, alloc: Global, position: Position, cell: &mut Cell) -> Result<(), AllocError>
        ensures ok { OnOk result (cell.new ≡ made self.now position cell.old) }
        ensures err { OnErr result (cell.new ≡ cell.old) }
        ensures short { is_light self.now position cell.old → IsOk result };
}

// Changes one cell.
fn change_one<C: CellChange>(buf: &mut Buffer, x: u16, y: u16, change: &C) -> Result<(), AllocError>
    requires { HasPosition buf.old.area (position_of (x, y)) }
    ensures changes { OnOk result
        (ChangesEach (place_at (position_of (x, y))) (C.made change.now) buf.old buf.new) }
    ensures err { OnErr result (buf.new ≡ buf.old) }
    ensures short { let p = position_of (x, y) in
        C.is_light change.now p (cell_in buf.old p) → IsOk result }
{
    let alloc = buf.allocator();
    change.change(alloc, Position { x, y }, &mut buf[Position { x, y }])
}

// Changes each cell of a row of a part.
fn change_row<C: CellChange>(
    buf: &mut Buffer,
    part: Rect,
    y: u16,
    change: &C,
) -> Result<(), AllocError>
    requires inside { IsInside part buf.old.area }
    requires row { IsRowOfArea part y }
    ensures area { buf.new.area ≡ buf.old.area }
    ensures ok { OnOk result
        (ChangesEach (row_part part y) (C.made change.now) buf.old buf.new) }
    ensures err { OnErr result (ChangesWithin part buf.old buf.new) }
    ensures short { AreLight (C.is_light change.now) (row_part part y) buf.old → IsOk result }
{
    for x in part.left()..part.right() {
        change_one(buf, x, y, change)?;
    }
    Ok(())
}

// Changes each cell of a part of a buffer.
fn change_part<C: CellChange>(buf: &mut Buffer, part: Rect, change: &C) -> Result<(), AllocError>
    requires { IsInside part buf.old.area }
    ensures area { buf.new.area ≡ buf.old.area }
    ensures ok { OnOk result (ChangesEach part (C.made change.now) buf.old buf.new) }
    ensures err { OnErr result (ChangesWithin part buf.old buf.new) }
    ensures short { AreLight (C.is_light change.now) part buf.old → IsOk result }
{
    for y in part.top()..part.bottom() {
        change_row(buf, part, y, change)?;
    }
    Ok(())
}

/// Changes each cell of an area, as far as the buffer has it.
///
/// # Errors
///
/// `AllocError` if memory is refused; no cell outside the area has changed then.
pub fn change_area<C: CellChange>(
    buf: &mut Buffer,
    area: Rect,
    change: &C,
) -> Result<(), AllocError>
    ensures area { buf.new.area ≡ buf.old.area }
    ensures ok { OnOk result (ChangesEach area (C.made change.now) buf.old buf.new) }
    ensures err { OnErr result (ChangesWithin area buf.old buf.new) }
    ensures short { AreLight (C.is_light change.now) area buf.old → IsOk result }
{
    let Some(part) = buf.part(area) else {
        return Ok(());
    };
    change_part(buf, part, change)
}
