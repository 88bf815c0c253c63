//! The terminal's size, as its shell tells it.

ghost use Rattle.std.specs.Prelude.{◌<◌, IfSome};

use ratatui_core::layout::Size;
use std::alloc::Alloc;
use std::env::{self, Env};

// A number of columns or rows that a variable says.
fn number_in<R: Env + Alloc>(rt: &R, variable: &str) -> Option<u16>
    ensures { IfSome result (λ number. 0 < number) }
{
    let text = env::var(rt, variable).ok()?;
    let number: u16 = text.as_str().parse().ok()?;
    if number > 0 { Some(number) } else { None }
}

/// Returns the terminal's size as the variables COLUMNS and LINES tell it: `tools/raw` and
/// `tools/play` set them. What they don't tell is 80 columns or 24 rows.
///
/// ```
/// let backend = AnsiBackend::new(alloc, writer, size_told(&rt))?;
/// ```
pub fn size_told<R: Env + Alloc>(rt: &R) -> Size
    ensures columns { 0 < result.width }
    ensures rows { 0 < result.height }
{
    Size {
        width: number_in(rt, "COLUMNS").unwrap_or(80),
        height: number_in(rt, "LINES").unwrap_or(24),
    }
}
