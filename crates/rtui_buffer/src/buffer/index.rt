//! Cells by position, and equality.

ghost use Rattle.std.specs.Prelude.{◌≡◌, ◌<◌, ◌++◌, length};
ghost use Rattle.std.specs.Borrow.{sem, Lends};
ghost use Rattle.std.specs.Hash as fed;
ghost use Rattle.std.specs.Hash.{on_Alike, items_Alike, and-Alike};
ghost use Rattle.std.specs.Cmp.{and_equiv, on_equiv, partial_equiv_from_equiv};
ghost use Rattle.std.specs.Cmp.Lexicographic.{pointwise, lists_equiv};
ghost use Rattle.std.specs.Ordering.{on, eq_of_both};
ghost use Rattle.rtui_geometry.specs.Rect.{HasPosition};
ghost use Rattle.rtui_geometry.specs.contracts.rect.RectEq.TheImpl.Laws.{laws-law as rect_laws};
ghost use Rattle.rtui_geometry.specs.contracts.rect.RectHash.TheImpl.Laws.{respects_eq-law as rect_hashes};
ghost use Rattle.rtui_cell.specs.contracts.cell.Cell.{the_row as cell_row};
ghost use Rattle.rtui_cell.specs.contracts.cell.CellEq.TheImpl.Laws.{laws-law as cell_laws};
ghost use Rattle.rtui_cell.specs.contracts.cell.CellHash.TheImpl.Laws.{respects_eq-law as cell_hashes};
ghost use Rattle.rtui_buffer.specs.contracts.buffer.Buffer.{the_row};
ghost use Rattle.rtui_buffer.specs.BufferData.{cell_in, cell_index, with_cell, position_of};

use crate::buffer::Buffer;
use rtui_cell::Cell;
use rtui_geometry::{Position, Rect};
use std::hash::{Hash, Hasher};
use std::ops::{Index, IndexMut};

impl Index<Position> for Buffer {
    type Output = Cell;

    ghost can_index = { λ b p. HasPosition b.area p };

    ghost index_gives = { λ b p cell. cell ≡ cell_in b p };

    fn index(&self, position: Position) -> &Cell {
        let place = self.index_of(position.x, position.y);
        &self.content[place]
    }
}

impl IndexMut<Position> for Buffer {
    fn index_mut(&mut self, position: Position) -> &mut Cell
        requires { HasPosition self.old.area position }
        ensures* writes_back { sem 𝓛 (Lends the_row cell_row self.entry result
            (with_cell self.old position)) }
        ensures value { result.now ≡ cell_in self.old position }
        ensures inside { cell_index self.old.area position < length self.old.cells }
    {
        self.get_mut(position.x, position.y)
    }
}

impl Index<(u16, u16)> for Buffer {
    type Output = Cell;

    ghost can_index = { λ b p. HasPosition b.area (position_of p) };

    ghost index_gives = { λ b p cell. cell ≡ cell_in b (position_of p) };

    fn index(&self, position: (u16, u16)) -> &Cell {
        let place = self.index_of(position.0, position.1);
        &self.content[place]
    }
}

impl IndexMut<(u16, u16)> for Buffer {
    fn index_mut(&mut self, position: (u16, u16)) -> &mut Cell
        requires { HasPosition self.old.area (position_of position) }
        ensures* writes_back { let p = position_of position in
            sem 𝓛 (Lends the_row cell_row self.entry result (with_cell self.old p)) }
        ensures value { result.now ≡ cell_in self.old (position_of position) }
        ensures inside { let p = position_of position in
            cell_index self.old.area p < length self.old.cells }
    {
        self.get_mut(position.0, position.1)
    }
}

impl PartialEq for Buffer {
    ghost eq = { eq_of_both
        (on (λ b. b.area) ⟦<Rect as PartialEq>⟧.eq)
        (on (λ b. b.cells) (pointwise ⟦<Cell as PartialEq>⟧.eq)) };

    ghost laws = { partial_equiv_from_equiv (and_equiv
        (on_equiv (λ b. b.area) rect_laws)
        (on_equiv (λ b. b.cells) (lists_equiv cell_laws))) };

    fn eq(&self, other: &Buffer) -> bool {
        self.area == other.area && self.content.as_slice() == other.content.as_slice()
    }
}

impl Eq for Buffer {
    ghost laws = { and_equiv
        (on_equiv (λ b. b.area) rect_laws)
        (on_equiv (λ b. b.cells) (lists_equiv cell_laws)) };
}

impl Hash for Buffer {
    ghost hash_input = { λ b. ⟦<Rect as Hash>⟧.hash_input b.area
        ++ fed.slice ⟦<Cell as Hash>⟧.hash_input b.cells };

    ghost respects_eq = { (and-Alike
        (on_Alike (λ b. b.area) (record { fed = rect_hashes }))
        (on_Alike (λ b. b.cells) (items_Alike (record { fed = cell_hashes })))).fed };

    fn hash<H: Hasher>(&self, state: &mut H) {
        self.area.hash(state);
        self.content.as_slice().hash(state);
    }
}
