//! The two buffers of a terminal.

ghost use Rattle.std.specs.Prelude.{◌≡◌, IfOk, OnOk, OnErr};
ghost use Rattle.rtui_geometry.specs.Rect.{EdgesFit};
ghost use Rattle.rtui_buffer.specs.BufferData.{HasRoomFor, IsEmptied, IsSameBuffer, area_size, moved_to};
ghost use Rattle.rtui_insert.specs.Following.{Follows};
ghost use Rattle.rtui_terminal.specs.Resizing.{IsResized};

use rtui_buffer::Buffer;
use rtui_geometry::{Position, Rect};
use rtui_insert::follow_viewport;
use std::alloc::{AllocError, Global};
use std::mem;

// The buffer to paint on, and the one painted before.
#[derive(Debug, PartialEq, Eq, Hash, Drop)]
pub struct Frames {
    pub(super) current: Buffer,
    pub(super) previous: Buffer,
}

impl Frames {
    // Two buffers of empty cells.
    pub(super) fn empty(alloc: Global, area: Rect) -> Result<Frames, AllocError>
        requires { EdgesFit area }
        ensures current { IfOk result (λ frames. IsEmptied area frames.current) }
        ensures previous { IfOk result (λ frames. IsEmptied area frames.previous) }
        ensures cells { OnErr result (area_size area ≡ 0 → ⊥) }
    {
        Ok(Frames {
            current: Buffer::empty(alloc, area)?,
            previous: Buffer::empty(alloc, area)?,
        })
    }

    // Moves both to another corner, with the same cells.
    pub(super) fn move_to(&mut self, corner: Position)
        requires current { EdgesFit (moved_to corner self.old.current.area) }
        requires previous { EdgesFit (moved_to corner self.old.previous.area) }
        ensures current { self.new.current
            ≡ record self.old.current { area = moved_to corner self.old.current.area } }
        ensures previous { self.new.previous
            ≡ record self.old.previous { area = moved_to corner self.old.previous.area } }
    {
        self.current.move_to(corner);
        self.previous.move_to(corner);
    }

    // Makes room in both for the cells of an area.
    pub(super) fn reserve(&mut self, area: Rect) -> Result<(), AllocError>
        requires { EdgesFit area }
        ensures current { IsSameBuffer self.old.current self.new.current }
        ensures previous { IsSameBuffer self.old.previous self.new.previous }
        ensures room_of_current { OnOk result (HasRoomFor area self.new.current) }
        ensures room_of_previous { OnOk result (HasRoomFor area self.new.previous) }
        ensures lacking { OnErr result (HasRoomFor area self.old.current
            → HasRoomFor area self.old.previous → ⊥) }
    {
        self.current.reserve(area)?;
        self.previous.reserve(area)
    }

    // Gives both an area, for which there is room.
    pub(super) fn set_area(&mut self, area: Rect)
        requires fits { EdgesFit area }
        requires room_of_current { HasRoomFor area self.old.current }
        requires room_of_previous { HasRoomFor area self.old.previous }
        ensures current { IsResized area self.old.current self.new.current }
        ensures previous { IsResized area self.old.previous self.new.previous }
    {
        let _ = self.current.resize(area);
        let _ = self.previous.resize(area);
    }

    // Moves each that has a viewport's area with it, to another row.
    pub(super) fn follow(&mut self, former: Rect, top: u16)
        requires { EdgesFit (record former { y = top }) }
        ensures current { Follows former (record former { y = top }) self.old.current
            self.new.current }
        ensures previous { Follows former (record former { y = top }) self.old.previous
            self.new.previous }
    {
        follow_viewport(&mut self.current, former, top);
        follow_viewport(&mut self.previous, former, top);
    }

    // Makes the current buffer the previous one, and the emptied previous one current.
    pub(super) fn swap(&mut self)
        ensures previous { self.new.previous ≡ self.old.current }
        ensures current { IsEmptied self.old.previous.area self.new.current }
    {
        self.previous.reset();
        mem::swap(&mut self.current, &mut self.previous);
    }
}
