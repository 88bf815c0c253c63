//! Rows that come in above a viewport, by scrolling parts of the screen.

ghost use Rattle.std.specs.Prelude.{◌≡◌, ◌+◌, ◌-◌, ◌<◌, ◌≤◌, min, true, IfOk, OnOk, OnErr};
ghost use Rattle.rtui_geometry.specs.Rect.{EdgesFit};
ghost use Rattle.rtui_buffer.specs.BufferData.{IsEmptied};
ghost use Rattle.rtui_backend.specs.Failures.{Counts, FailsAfter};
ghost use Rattle.rtui_insert.specs.Insertion.{KeepsSizeAndVisibility};
ghost use Rattle.rtui_insert.specs.Rows.{IsBlankFor};
ghost use Rattle.rtui_insert.specs.Scrolling.{PushesRows, InsertsDown, InsertsUp, rows_down};
ghost use Rattle.rtui_insert.specs.Scrolling.{StartsPushing, StartsLowering, StartsRaising};

use crate::draw::{draw_first_row, draw_rows};
use rtui_backend::Backend;
use rtui_buffer::Buffer;
use rtui_geometry::Rect;

/// Puts the rows of a buffer on the screen's first row, one after the other, and scrolls each off
/// from there. The first row is blank after that, and all rows below it are as before.
///
/// # Conditions
///
/// `blank` is an empty buffer as wide as `rows`, of at least one row.
///
/// # Errors
///
/// The backend's own error if one of its calls failed, and one more failure is counted. Until that
/// call so many of the rows were scrolled off, and all rows below the first were as before. `blank`
/// is empty again.
pub fn push_rows<B: Backend>(
    backend: &mut B,
    blank: &mut Buffer,
    rows: &Buffer,
) -> Result<(), B::Error>
    requires blank { IsBlankFor 1 rows.now blank.old }
    ensures blank { IsEmptied blank.old.area blank.new }
    ensures ok { OnOk result (PushesRows rows.now (B.screen backend.old) (B.screen backend.new)) }
    ensures shape { OnOk result
        (KeepsSizeAndVisibility (B.screen backend.old) (B.screen backend.new)) }
    ensures counts { Counts result (B.failures backend.old) (B.failures backend.new) }
    ensures err { OnErr result (FailsAfter B.stops_at (λ b. StartsPushing rows.now
        (B.screen backend.old) (B.screen b)) backend.new) }
{
    for row in 0..rows.area().height {
        if row == 0 {
            draw_first_row(backend, blank, rows)?;
        } else {
            draw_rows(backend, blank, rows, row, 1, 0)?;
        }
        backend.scroll_region_up(0..1, 1)?;
    }
    Ok(())
}

/// Moves a viewport down by as many rows as there are and the screen of `height` rows has room for,
/// and draws the first rows of a buffer at the place where it stood. Answers how many.
///
/// # Conditions
///
/// `blank` is an empty buffer as wide as `rows`, of at least as many rows as the viewport moves
/// down. The edges of the viewport are at most 65535.
///
/// # Errors
///
/// The backend's own error if one of its calls failed, and one more failure is counted. Until that
/// call the screen was as before, or the viewport's rows had moved down, and those above and below
/// them were as before.
pub fn insert_down<B: Backend>(
    backend: &mut B,
    blank: &Buffer,
    rows: &Buffer,
    viewport: Rect,
    height: u16,
) -> Result<u16, B::Error>
    requires blank { IsBlankFor (rows_down rows.now.area.height viewport height)
        rows.now blank.now }
    requires edges { EdgesFit viewport }
    ensures ok { IfOk result (InsertsDown rows.now viewport height
        (B.screen backend.old) (B.screen backend.new)) }
    ensures count { IfOk result (λ n. n ≡ rows_down rows.now.area.height viewport height) }
    ensures flushed { IfOk result (λ n. 0 < n → B.is_flushed backend.new ≡ true) }
    ensures shape { OnOk result
        (KeepsSizeAndVisibility (B.screen backend.old) (B.screen backend.new)) }
    ensures counts { Counts result (B.failures backend.old) (B.failures backend.new) }
    ensures err { OnErr result (FailsAfter B.stops_at (λ b. StartsLowering rows.now viewport height
        (B.screen backend.old) (B.screen b)) backend.new) }
{
    let bottom = viewport.y + viewport.height;
    if bottom >= height {
        return Ok(0);
    }
    let count = rows.area().height.min(height - bottom);
    backend.scroll_region_down(viewport.y..bottom + count, count)?;
    draw_rows(backend, blank, rows, 0, count, viewport.y)?;
    Ok(count)
}

/// Scrolls the rows above row `top` up, as far as there are any at a time, and draws the rows of a
/// buffer from row `first` on above `top`. The screen's rows from `top` on are as before. A flush
/// follows each drawing.
///
/// # Conditions
///
/// `first` is at most the number of rows, and if it is less, `top` is above 0. `blank` is an empty
/// buffer as wide as `rows`, of at least as many rows as are drawn at a time: those from `first`
/// on, but at most `top`.
///
/// # Errors
///
/// The backend's own error if one of its calls failed, and one more failure is counted. Until that
/// call so many of the rows had come to those above, and the screen's rows from `top` on were as
/// before.
pub fn insert_up<B: Backend>(
    backend: &mut B,
    blank: &Buffer,
    rows: &Buffer,
    first: u16,
    top: u16,
) -> Result<(), B::Error>
    requires blank { IsBlankFor (min (rows.now.area.height - first) top) rows.now blank.now }
    requires first { first ≤ rows.now.area.height }
    requires room { first < rows.now.area.height → 0 < top }
    ensures ok { OnOk result (InsertsUp rows.now first top
        (B.screen backend.old) (B.screen backend.new)) }
    ensures flushed { OnOk result (
        (first ≡ rows.now.area.height → B.is_flushed backend.old ≡ true)
        → B.is_flushed backend.new ≡ true) }
    ensures shape { OnOk result
        (KeepsSizeAndVisibility (B.screen backend.old) (B.screen backend.new)) }
    ensures counts { Counts result (B.failures backend.old) (B.failures backend.new) }
    ensures err { OnErr result (FailsAfter B.stops_at (λ b. StartsRaising rows.now first top
        (B.screen backend.old) (B.screen b)) backend.new) }
{
    let height = rows.area().height;
    let mut done = first;
    while done < height {
        let count = (height - done).min(top);
        backend.scroll_region_up(0..top, count)?;
        draw_rows(backend, blank, rows, done, count, top - count)?;
        done += count;
    }
    Ok(())
}
