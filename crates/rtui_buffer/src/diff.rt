//! The updates between rows of two buffers.

ghost use Rattle.std.specs.Prelude.{◌≡◌, ◌+◌, ◌*◌, ◌≤◌, length};
ghost use Rattle.rtui_buffer.specs.RowsDiff.{part_cells, IsRowsDiff};

use crate::buffer::Buffer;
use rtui_cell::Cell;
use rtui_diff::BufferDiff;

// The cells of `count` rows, from row `first` on.
fn part(buffer: &Buffer, first: u16, count: u16) -> &[Cell]
    requires { first + count ≤ buffer.now.area.height }
    ensures cells { result.now ≡ part_cells buffer.now first count }
    ensures count { length result.now ≡ buffer.now.area.width * count }
{
    let columns = usize::from(buffer.area().width);
    let start = usize::from(first) * columns;
    let end = (usize::from(first) + usize::from(count)) * columns;
    &buffer.content()[start..end]
}

/// Returns the updates from `count` rows of a buffer, from its row `first` on, to as many of the
/// next one, from its row `next_first` on: what `diff_iter` gives from one part to the other, each
/// taken as a buffer at (0, 0). Rows are counted from the top of each buffer.
///
/// # Conditions
///
/// Both buffers have the same width. The first one has `count` rows from its row `first` on, and
/// the next one from its row `next_first` on.
pub fn diff_rows<'prev, 'next>(
    prev: &'prev Buffer,
    first: u16,
    next: &'next Buffer,
    next_first: u16,
    count: u16,
) -> BufferDiff<'prev, 'next>
    requires width { next.now.area.width ≡ prev.now.area.width }
    requires rows { first + count ≤ prev.now.area.height }
    requires next_rows { next_first + count ≤ next.now.area.height }
    ensures { IsRowsDiff prev.now first next.now next_first count result }
{
    BufferDiff::new(
        part(prev, first, count),
        part(next, next_first, count),
        0,
        0,
        prev.area().width,
        count,
    )
}
