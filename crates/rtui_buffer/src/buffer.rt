ghost use Rattle.std.specs.Prelude.{◌≡◌, ◌<◌, ◌≤◌, ◌↔◌, ◌⊎◌, MatchOption, length, IsTrue, IsOk, IsSome};
ghost use Rattle.std.specs.Prelude.{IfSome, OnOk, OnErr, IfOk, replicate};
ghost use Rattle.std.specs.Borrow.{sem, Lends, LendsIf, Array};
ghost use Rattle.rtui_geometry.specs.Rect.{HasPosition, EdgesFit, intersected};
ghost use Rattle.rtui_buffer.specs.Clipped.{IsClipped};
ghost use Rattle.rtui_cell.specs.contracts.cell.Cell.{the_row as cell_row};
ghost use Rattle.rtui_buffer.specs.contracts.buffer.Buffer.{the_row};
ghost use Rattle.rtui_buffer.specs.BufferData.{area_size, cell_index, place_position, position_of, cell_in};
ghost use Rattle.rtui_buffer.specs.BufferData.{with_cell, with_cells, resized, moved_to, buffer_row, HasRow};
ghost use Rattle.rtui_buffer.specs.BufferData.{IsEmptied, HasRoomFor, IsSameBuffer};
ghost use Rattle.rtui_buffer.specs.Shown.{IsSettledBuffer, IsShownByRepaint, IsAligned, IsBufferDiff, listed};

use rtui_cell::Cell;
use rtui_diff::{BufferDiff, is_settled};
use rtui_geometry::{Position, Rect};
use std::alloc::{AllocError, Global};
use std::marker::Model;

mod index;
mod lines;
mod overlay;
mod painting;
mod sized;

pub use lines::{lines_width, texts_width};
pub use painting::{empty_part, paint_printable, painted_width};
use sized::{copied, copies, cut_or_fill, empty_all};

/// A grid of cells over an area of a screen, row by row. There are always as many cells as the area
/// has, and its edges are at most 65535.
///
/// ```
/// let mut next = Buffer::empty(alloc, Rect::new(0, 0, 10, 1))?;
/// next.set_string(0, 0, "Ready", Style::new().fg(Color::Green))?;
/// for (x, y, cell) in shown.diff_iter(&next) {
///     // what differs from the buffer that is shown: cell.symbol() goes to column x of row y
/// }
/// ```
#[derive(Debug, Drop)]
pub struct Buffer {
    area: Rect,
    content: Vec<Cell>,
}

impl Model for Buffer {
    ghost use Rattle.std.specs.Vec.{vec_capacity};
    ghost use Rattle.rtui_buffer.specs.BufferData.{BufferData, IsBuffer};

    ghost Value = { BufferData };

    ghost view = { λ b. record
        { area = b.area; cells = b.content.items; room = vec_capacity b.content } };

    ghost invariant = { λ b. IsBuffer b.area b.content.items (vec_capacity b.content) };
}

impl Buffer {
    /// Makes a buffer of empty cells.
    ///
    /// # Conditions
    ///
    /// The edges of the area are at most 65535, as those that `Rect::new` makes are.
    ///
    /// # Errors
    ///
    /// `AllocError` if memory is refused. A buffer without cells takes none.
    pub fn empty(alloc: Global, area: Rect) -> Result<Buffer, AllocError>
        requires { EdgesFit area }
        ensures emptied { IfOk result (IsEmptied area) }
        ensures room { IfOk result (HasRoomFor area) }
        ensures succeeds { area_size area ≡ 0 → IsOk result }
    {
        let mut content = Vec::new(alloc);
        cut_or_fill(&mut content, area.area() as usize)?;
        Ok(Buffer { area, content })
    }

    /// Makes a buffer with this cell everywhere.
    ///
    /// # Conditions
    ///
    /// The edges of the area are at most 65535, as those that `Rect::new` makes are.
    ///
    /// # Errors
    ///
    /// `AllocError` if memory is refused. A buffer without cells takes none.
    pub fn filled(alloc: Global, area: Rect, cell: Cell) -> Result<Buffer, AllocError>
        requires { EdgesFit area }
        ensures area { IfOk result (λ b. b.area ≡ area) }
        ensures cells { IfOk result (λ b. b.cells ≡ replicate (area_size area) cell) }
        ensures room { IfOk result (HasRoomFor area) }
        ensures succeeds { area_size area ≡ 0 → IsOk result }
    {
        let content = copies(alloc, cell, area.area() as usize)?;
        Ok(Buffer { area, content })
    }

    /// Makes an equal buffer.
    ///
    /// # Errors
    ///
    /// `AllocError` if memory is refused. A buffer without cells takes none.
    pub fn clone(&self, alloc: Global) -> Result<Buffer, AllocError>
        ensures same { IfOk result (IsSameBuffer self.now) }
        ensures room { IfOk result (HasRoomFor self.now.area) }
        ensures succeeds { area_size self.now.area ≡ 0 → IsOk result }
    {
        let area = self.area;
        let content = copied(alloc, self.content.as_slice())?;
        Ok(Buffer { area, content })
    }

    /// Returns the cells, row by row.
    pub fn content(&self) -> &[Cell]
        ensures cells { result.now ≡ self.now.cells }
        ensures count { length result.now ≡ area_size self.now.area }
    {
        self.content.as_slice()
    }

    /// Returns the cells of a row of the area, from left to right.
    ///
    /// # Conditions
    ///
    /// Row `y` is one of the area.
    pub fn row(&self, y: u16) -> &[Cell]
        requires { HasRow self.now.area y }
        ensures cells { result.now ≡ buffer_row self.now y }
        ensures count { length result.now ≡ self.now.area.width }
    {
        let width = usize::from(self.area.width);
        let start = usize::from(y - self.area.y) * width;
        &self.content[start..start + width]
    }

    /// Returns the cells, row by row, to be written.
    pub fn cells_mut(&mut self) -> &mut [Cell]
        ensures* writes_back { sem 𝓛 (Lends the_row (Array cell_row 0) self.entry result
            (with_cells self.old)) }
        ensures cells { result.now ≡ self.old.cells }
        ensures count { length result.now ≡ area_size self.old.area }
    {
        self.content.as_mut_slice()
    }

    /// Returns what the cells' list takes its memory from.
    pub fn allocator(&self) -> Global {
        *self.content.allocator()
    }

    /// Returns the area, in columns and rows of the screen.
    pub fn area(&self) -> &Rect
        ensures area { result.now ≡ self.now.area }
        ensures edges { EdgesFit self.now.area }
        ensures count { length self.now.cells ≡ area_size self.now.area }
    {
        &self.area
    }

    /// Returns the part of an area that the buffer has, if there is one.
    pub fn part(&self, area: Rect) -> Option<Rect>
        ensures { let r = intersected area self.now.area in
            MatchOption result ((r.width ≡ 0) ⊎ (r.height ≡ 0)) (IsClipped area self.now.area) }
    {
        let part = area.intersection(self.area);
        if part.is_empty() {
            return None;
        }
        Some(part)
    }

    /// Returns the cell in a column and a row of the area.
    ///
    /// # Conditions
    ///
    /// The position lies in the area. If not, the Rust crate panics.
    pub fn get(&self, x: u16, y: u16) -> &Cell
        requires { HasPosition self.now.area (position_of (x, y)) }
        ensures { result.now ≡ cell_in self.now (position_of (x, y)) }
    {
        &self[Position { x, y }]
    }

    /// Returns the cell in a column and a row of the area, to be written.
    ///
    /// # Conditions
    ///
    /// The position lies in the area. If not, the Rust crate panics.
    pub fn get_mut(&mut self, x: u16, y: u16) -> &mut Cell
        requires { HasPosition self.old.area (position_of (x, y)) }
        ensures* writes_back { let p = position_of (x, y) in
            sem 𝓛 (Lends the_row cell_row self.entry result (with_cell self.old p)) }
        ensures value { result.now ≡ cell_in self.old (position_of (x, y)) }
        ensures inside { let p = position_of (x, y) in
            cell_index self.old.area p < length self.old.cells }
    {
        let place = self.index_of(x, y);
        &mut self.content[place]
    }

    /// Returns the cell at a position, if it lies in the area.
    pub fn cell(&self, position: Position) -> Option<&Cell>
        ensures inside { IsSome result ↔ HasPosition self.now.area position }
        ensures value { IfSome result (λ cell. cell.now ≡ cell_in self.now position) }
    {
        let place = self.place_of(position);
        self.content.get(place)
    }

    /// Returns the cell at a position, to be written, if it lies in the area.
    pub fn cell_mut(&mut self, position: Position) -> Option<&mut Cell>
        ensures* writes_back { sem 𝓛 (LendsIf the_row cell_row self.entry result
            (with_cell self.old position) self.old) }
        ensures inside { IsSome result ↔ HasPosition self.old.area position }
        ensures value { IfSome result (λ cell. cell.now ≡ cell_in self.old position) }
    {
        let place = self.place_of(position);
        self.content.get_mut(place)
    }

    /// Returns the place of a column and a row of the area in the list of cells.
    ///
    /// # Conditions
    ///
    /// The position lies in the area. If not, the Rust crate panics.
    pub fn index_of(&self, x: u16, y: u16) -> usize
        requires { HasPosition self.now.area (position_of (x, y)) }
        ensures value { result ≡ cell_index self.now.area (position_of (x, y)) }
        ensures inside { result < length self.now.cells }
    {
        let width = usize::from(self.area.width);
        usize::from(y - self.area.y) * width + usize::from(x - self.area.x)
    }

    // The place of a position, or the number of cells if it is outside.
    fn place_of(&self, position: Position) -> usize
        ensures inside { let area = self.now.area in
            HasPosition area position → result ≡ cell_index area position }
        ensures within { result < length self.now.cells ↔ HasPosition self.now.area position }
        ensures outside { ¬ (HasPosition self.now.area position) → result ≡ length self.now.cells }
    {
        if self.area.contains(position) {
            self.index_of(position.x, position.y)
        } else {
            self.content.len()
        }
    }

    /// Returns the column and the row of a place in the list of cells.
    ///
    /// # Conditions
    ///
    /// The place is less than the number of cells. If not, the Rust crate panics, at least in a
    /// debug build.
    pub fn pos_of(&self, index: usize) -> (u16, u16)
        requires { index < length self.now.cells }
        ensures { result ≡ place_position self.now.area index }
    {
        let width = usize::from(self.area.width);
        (
            self.area.x + (index % width) as u16,
            self.area.y + (index / width) as u16,
        )
    }

    /// Empties each cell.
    pub fn reset(&mut self)
        ensures emptied { IsEmptied self.old.area self.new }
        ensures room { self.new.room ≡ self.old.room }
    {
        empty_all(self.content.as_mut_slice());
    }

    /// Gives the buffer another area: its list of cells is cut, or goes on with empty ones.
    ///
    /// # Conditions
    ///
    /// The edges of the area are at most 65535, as those that `Rect::new` makes are.
    ///
    /// # Errors
    ///
    /// `AllocError` if memory is refused; nothing has changed then. Within the room that `reserve`
    /// made it takes none.
    pub fn resize(&mut self, area: Rect) -> Result<(), AllocError>
        requires { EdgesFit area }
        ensures area { OnOk result (self.new.area ≡ area) }
        ensures cells { OnOk result (self.new.cells ≡ resized (area_size area) self.old.cells) }
        ensures room { OnOk result (HasRoomFor area self.new) }
        ensures keeps_room { self.old.room ≤ self.new.room }
        ensures succeeds { HasRoomFor area self.old → IsOk result }
        ensures err { OnErr result (self.new ≡ self.old) }
    {
        cut_or_fill(&mut self.content, area.area() as usize)?;
        self.area = area;
        Ok(())
    }

    /// Makes room for the cells of an area.
    ///
    /// # Conditions
    ///
    /// The edges of the area are at most 65535, as those that `Rect::new` makes are.
    ///
    /// # Errors
    ///
    /// `AllocError` if memory is refused; nothing has changed then. Within the room that is there
    /// it takes none.
    pub fn reserve(&mut self, area: Rect) -> Result<(), AllocError>
        requires { EdgesFit area }
        ensures same { IsSameBuffer self.old self.new }
        ensures room { OnOk result (HasRoomFor area self.new) }
        ensures keeps_room { self.old.room ≤ self.new.room }
        ensures succeeds { HasRoomFor area self.old → IsOk result }
        ensures err { OnErr result (self.new ≡ self.old) }
    {
        let count = area.area() as usize;
        let len = self.content.len();
        self.content.try_reserve(count.saturating_sub(len))
    }

    /// Moves the buffer to another corner, with the same cells.
    ///
    /// # Conditions
    ///
    /// The edges of the area at its new corner are at most 65535.
    pub fn move_to(&mut self, position: Position)
        requires { EdgesFit (moved_to position self.old.area) }
        ensures { self.new ≡ record self.old { area = moved_to position self.old.area } }
    {
        self.area.x = position.x;
        self.area.y = position.y;
    }

    /// Returns whether a screen can show the buffer as it is: each skipped cell takes at most one
    /// column, each other cell ends within its row, and after an unskipped wide cell stand only
    /// empty or skipped ones. A full repaint of such a buffer shows it, whatever the screen had.
    pub fn is_settled(&self) -> bool
        ensures settled { IsTrue result ↔ IsSettledBuffer self.now }
        ensures repaints { IsTrue result → IsShownByRepaint self.now }
    {
        let area = *self.area();
        is_settled(self.content(), area.width, area.height)
    }

    /// Returns the updates that turn a screen which shows this buffer into one that shows the next:
    /// over the common rows, in order, only what differs.
    ///
    /// # Conditions
    ///
    /// Both buffers have the same corner and the same width. If not, the Rust crate panics.
    pub fn diff_iter<'prev, 'next>(&'prev self, next: &'next Buffer) -> BufferDiff<'prev, 'next>
        requires { IsAligned self.now next.now }
        ensures { IsBufferDiff self.now next.now result }
    {
        let area = *self.area();
        let height = area.height.min(next.area().height);
        BufferDiff::new(
            self.content(),
            next.content(),
            area.x,
            area.y,
            area.width,
            height,
        )
    }

    /// Returns the updates of `diff_iter` in a list.
    ///
    /// # Conditions
    ///
    /// Both buffers have the same corner and the same width. If not, the Rust crate panics.
    ///
    /// # Errors
    ///
    /// `AllocError` if memory is refused.
    pub fn diff<'next>(
        &self,
        alloc: Global,
        next: &'next Buffer,
    ) -> Result<Vec<(u16, u16, &'next Cell)>, AllocError>
        requires { IsAligned self.now next.now }
        ensures { IfOk result (λ all. IsBufferDiff self.now next.now (listed all.items)) }
    {
        collected(alloc, self.diff_iter(next))
    }
}

// What a diff gives, in a list.
fn collected<'next>(
    alloc: Global,
    updates: BufferDiff<'_, 'next>,
) -> Result<Vec<(u16, u16, &'next Cell)>, AllocError>
    ensures { IfOk result (λ all. listed all.items ≡ updates.entry) }
{
    let mut all = Vec::new(alloc);
    for update in updates {
        all.push(update)?;
    }
    Ok(all)
}
