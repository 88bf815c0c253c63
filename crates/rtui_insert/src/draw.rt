//! Rows of a buffer, drawn on a screen.

ghost use Rattle.std.specs.Prelude.{◌≡◌, ◌⊎◌, ◌+◌, ◌<◌, ◌≤◌, true, OnOk, OnErr};
ghost use Rattle.rtui_buffer.specs.BufferData.{IsEmptied};
ghost use Rattle.rtui_backend.specs.Failures.{Counts, FailsAfter};
ghost use Rattle.rtui_insert.specs.Rows.{IsBlankFor, DrawsRows, DrawsFirstRow};
ghost use Rattle.rtui_insert.specs.Insertion.{KeepsSizeAndVisibility};

use crate::marks::mark_skipped;
use crate::updates::ShiftedUpdates;
use rtui_backend::Backend;
use rtui_buffer::{Buffer, diff_rows};
use rtui_grid::fill;

/// Draws `count` rows of a buffer, from its row `first` on, at row `y` of a screen: what differs in
/// them from the first `count` rows of a former buffer, which the screen shows there. A flush
/// follows.
///
/// # Conditions
///
/// Both buffers have the same width. The former one has `count` rows, the other one has them from
/// row `first` on, and `y + count` is at most 65535.
///
/// # Errors
///
/// The backend's own error if one of its calls failed. The screen was as before or had the rows
/// until that call, and one more failure is counted.
pub fn draw_rows<B: Backend>(
    backend: &mut B,
    former: &Buffer,
    rows: &Buffer,
    first: u16,
    count: u16,
    y: u16,
) -> Result<(), B::Error>
    requires width { rows.now.area.width ≡ former.now.area.width }
    requires former { count ≤ former.now.area.height }
    requires inside { first + count ≤ rows.now.area.height }
    requires bottom { y + count ≤ 65535 }
    ensures ok { OnOk result (DrawsRows former.now rows.now first count y
        (B.screen backend.old) (B.screen backend.new)) }
    ensures shape { OnOk result
        (KeepsSizeAndVisibility (B.screen backend.old) (B.screen backend.new)) }
    ensures flushed { OnOk result (B.is_flushed backend.new ≡ true) }
    ensures counts { Counts result (B.failures backend.old) (B.failures backend.new) }
    ensures err { OnErr result (FailsAfter B.stops_at (λ b.
        (B.screen b ≡ B.screen backend.old) ⊎ DrawsRows former.now rows.now first count y
        (B.screen backend.old) (B.screen b)) backend.new) }
{
    let updates = diff_rows(former, 0, rows, first, count);
    backend.draw(ShiftedUpdates::new(updates, y))?;
    backend.flush()
}

/// Draws the first row of a buffer on the screen's first row, whatever stands there: each cell but
/// skipped ones and those that a wide one covers. The first row of an empty buffer is written to
/// meanwhile.
///
/// # Conditions
///
/// `blank` is an empty buffer as wide as `rows`, and both have a row.
///
/// # Errors
///
/// The backend's own error if one of its calls failed. The screen was as before or had the row
/// until that call, and one more failure is counted. `blank` is empty again.
pub fn draw_first_row<B: Backend>(
    backend: &mut B,
    blank: &mut Buffer,
    rows: &Buffer,
) -> Result<(), B::Error>
    requires blank { IsBlankFor 1 rows.now blank.old }
    requires row { 0 < rows.now.area.height }
    ensures ok { OnOk result
        (DrawsFirstRow rows.now (B.screen backend.old) (B.screen backend.new)) }
    ensures blank { IsEmptied blank.old.area blank.new }
    ensures shape { OnOk result
        (KeepsSizeAndVisibility (B.screen backend.old) (B.screen backend.new)) }
    ensures flushed { OnOk result (B.is_flushed backend.new ≡ true) }
    ensures counts { Counts result (B.failures backend.old) (B.failures backend.new) }
    ensures err { OnErr result (FailsAfter B.stops_at (λ b.
        (B.screen b ≡ B.screen backend.old)
        ⊎ DrawsFirstRow rows.now (B.screen backend.old) (B.screen b)) backend.new) }
{
    let columns = usize::from(rows.area().width);
    mark_skipped(blank.cells_mut(), columns);
    let drawn = draw_rows(backend, blank, rows, 0, 1, 0);
    fill(blank.cells_mut(), 0, columns);
    drawn
}
