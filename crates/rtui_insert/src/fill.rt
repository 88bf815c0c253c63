//! Buffers of rows that closures fill.

ghost use Rattle.std.specs.Prelude.{◌≡◌, ◌⊎◌, Ok, IfOk, OnErr};
ghost use Rattle.rtui_geometry.specs.Rect.{EdgesFit};
ghost use Rattle.rtui_buffer.specs.BufferData.{area_size};
ghost use Rattle.rtui_insert.specs.Filling.{IsNewBuffer, AcceptsRows, FillsRows, RefusesFilling};

use rtui_buffer::Buffer;
use rtui_geometry::Rect;
use std::alloc::{AllocError, Global};

// Calls a closure on an empty buffer of an area.
fn fill<F>(buffer: &mut Buffer, area: Rect, draw_fn: F) -> Result<(), AllocError>
where
    F: FnOnce(&mut Buffer) -> Result<(), AllocError>,
    requires accepts { AcceptsRows F.FnOnce draw_fn area }
    requires empty { IsNewBuffer area buffer.old }
    ensures { FillsRows F.FnOnce draw_fn area result buffer.new }
{
    draw_fn(buffer)
}

/// Returns what a closure leaves of an empty buffer of this area.
///
/// # Conditions
///
/// The edges of the area are at most 65535, and the closure may be called on an empty buffer of it.
///
/// # Errors
///
/// `AllocError` if the buffer has cells and memory is refused, in which case the closure isn't
/// called; or if the closure answers so.
pub fn fill_rows<F>(alloc: Global, area: Rect, draw_fn: F) -> Result<Buffer, AllocError>
where
    F: FnOnce(&mut Buffer) -> Result<(), AllocError>,
    requires edges { EdgesFit area }
    requires accepts { AcceptsRows F.FnOnce draw_fn area }
    ensures filled { IfOk result (FillsRows F.FnOnce draw_fn area (Ok tt)) }
    ensures refused { OnErr result ((area_size area ≡ 0 → ⊥)
        ⊎ RefusesFilling (FillsRows F.FnOnce draw_fn area)) }
{
    let mut rows = Buffer::empty(alloc, area)?;
    fill(&mut rows, area, draw_fn)?;
    Ok(rows)
}
