//! Lists of cells of a given length.

ghost use Rattle.std.specs.Prelude.{◌≡◌, ◌-◌, ◌≤◌, ◌++◌, length, replicate, OnOk, OnErr, IfOk, IsOk, vec_len};
ghost use Rattle.std.specs.Vec.{vec_capacity};
ghost use Rattle.rtui_buffer.specs.BufferData.{empty_cells, resized};

use rtui_cell::Cell;
use rtui_grid::fill;
use std::alloc::{AllocError, Global};
use std::mem;

// A cell, this many times.
pub fn copies(alloc: Global, cell: Cell, count: usize) -> Result<Vec<Cell>, AllocError>
    ensures items { IfOk result (λ cells. cells.items ≡ replicate count cell) }
    ensures room { IfOk result (λ cells. vec_capacity cells ≡ count) }
    ensures succeeds { count ≡ 0 → IsOk result }
{
    let mut cells = Vec::with_capacity(alloc, count)?;
    if count > 0 {
        for _i in 0..count - 1 {
            cells.push_reserved(cell.clone(alloc)?);
        }
        cells.push_reserved(cell);
    }
    Ok(cells)
}

// The same cells.
pub fn copied(alloc: Global, cells: &[Cell]) -> Result<Vec<Cell>, AllocError>
    ensures items { IfOk result (λ copies. copies.items ≡ cells.now) }
    ensures room { IfOk result (λ copies. vec_capacity copies ≡ length cells.now) }
    ensures succeeds { length cells.now ≡ 0 → IsOk result }
{
    let mut copies = filled_up(Vec::with_capacity(alloc, cells.len())?, cells.len());
    copy_all(alloc, copies.as_mut_slice(), cells)?;
    Ok(copies)
}

// Copies each cell to the same place.
fn copy_all(alloc: Global, copies: &mut [Cell], cells: &[Cell]) -> Result<(), AllocError>
    requires { length copies.old ≡ length cells.now }
    ensures ok { OnOk result (copies.new ≡ cells.now) }
    ensures succeeds { length cells.now ≡ 0 → IsOk result }
{
    for i in 0..cells.len() {
        copies[i].clone_from(alloc, &cells[i])?;
    }
    Ok(())
}

// Cuts the list, or fills it up with empty cells.
pub fn cut_or_fill(cells: &mut Vec<Cell>, count: usize) -> Result<(), AllocError>
    requires { vec_len cells.old ≤ vec_capacity cells.old }
    ensures ok { OnOk result (cells.new.items ≡ resized count cells.old.items) }
    ensures room { OnOk result (vec_capacity cells.old ≤ vec_capacity cells.new) }
    ensures fits { OnOk result (count ≤ vec_capacity cells.new) }
    ensures succeeds { count ≤ vec_capacity cells.old → IsOk result }
    ensures err { OnErr result (cells.new.items ≡ cells.old.items) }
    ensures err_room { OnErr result (vec_capacity cells.new ≡ vec_capacity cells.old) }
{
    let len = cells.len();
    if count <= len {
        cells.truncate(count);
        return Ok(());
    }
    cells.try_reserve(count - len)?;
    let empty = Vec::new(*cells.allocator());
    *cells = filled_up(mem::replace(cells, empty), count);
    Ok(())
}

// The list filled up with empty cells, for which there is room. It is handed over, so that its
// length needn't be written for each cell.
fn filled_up(mut cells: Vec<Cell>, count: usize) -> Vec<Cell>
    requires more { vec_len cells ≤ count }
    requires room { count ≤ vec_capacity cells }
    ensures items { result.items ≡ cells.items ++ empty_cells (count - vec_len cells) }
    ensures room { vec_capacity result ≡ vec_capacity cells }
{
    for _i in cells.len()..count {
        cells.push_reserved(Cell::EMPTY);
    }
    cells
}

// Empties each cell.
pub fn empty_all(cells: &mut [Cell])
    ensures { cells.new ≡ empty_cells (length cells.old) }
{
    let count = cells.len();
    fill(cells, 0, count);
}
