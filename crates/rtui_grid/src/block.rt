//! Blocks of elements in rows of others.

ghost use Rattle.std.specs.Prelude.{◌≡◌, ◌+◌, ◌*◌, ◌<◌, ◌≤◌, ℕ, length};
ghost use Rattle.rtui_grid.specs.Items.{item};
ghost use Rattle.rtui_grid.specs.Blocks.{HasBlock};

use crate::blank::Blank;
use std::mem;

/// A block of columns and rows, by its first column and row.
#[derive(Clone, Copy, Drop)]
pub struct Block {
    /// The first column.
    pub left: u16,
    /// The first row.
    pub top: u16,
    /// How many columns it has.
    pub columns: u16,
    /// How many rows it has.
    pub rows: u16,
}

/// Gives a block in rows of `width` elements those at the start of the rows of another list, whose
/// rows have `stride` elements. They are moved out of the other list; what it has in their place
/// isn't said.
///
/// # Conditions
///
/// The block lies in the rows of the list: `left + columns` is at most `width`, and the list has
/// `top + rows` rows of `width` elements. The other list has as many rows as the block, of `stride`
/// elements each, and `stride` is at least the columns of the block.
pub fn move_block<T: Blank>(
    items: &mut [T],
    width: u16,
    block: Block,
    others: &mut [T],
    stride: u16,
)
    requires columns { block.left + block.columns ≤ width }
    requires rows { (block.top + block.rows) * width ≤ length items.old }
    requires others_columns { block.columns ≤ stride }
    requires others_rows { block.rows * stride ≤ length others.old }
    ensures { HasBlock T.blank width block stride others.old items.old items.new }
{
    let columns = usize::from(block.columns);
    for row in 0..usize::from(block.rows) {
        let at = (usize::from(block.top) + row) * usize::from(width) + usize::from(block.left);
        swap_parts(items, at, others, row * usize::from(stride), columns);
    }
}

// Exchanges so many elements of a list, from a place on, with those of another list, from a place
// on.
fn swap_parts<T: Blank>(items: &mut [T], at: usize, others: &mut [T], start: usize, count: usize)
    requires inside { at + count ≤ length items.old }
    requires others_inside { start + count ≤ length others.old }
    ensures moved { (k : ℕ) → k < count
        → item T.blank items.new (at + k) ≡ item T.blank others.old (start + k) }
    ensures before { (k : ℕ) → k < at → item T.blank items.new k ≡ item T.blank items.old k }
    ensures after { (k : ℕ) → at + count ≤ k
        → item T.blank items.new k ≡ item T.blank items.old k }
    ensures others_after { (k : ℕ) → start + count ≤ k
        → item T.blank others.new k ≡ item T.blank others.old k }
{
    for k in 0..count {
        mem::swap(&mut items[at + k], &mut others[start + k]);
    }
}
