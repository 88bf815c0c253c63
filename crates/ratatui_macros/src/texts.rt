//! Texts, line by line.

ghost use Rattle.std.specs.Prelude.{◌≡◌, ℕ, ◌+◌, ◌++◌, [], ◌∷◌, IfOk, IsOk};
ghost use Rattle.ratatui_core.specs.Text.{text_of};
ghost use Rattle.ratatui_macros.specs.Made.{HasRoomLeft, IsMadeBy};

use crate::into_line::IntoLine;
use ratatui_core::text::{Line, Text};
use std::alloc::AllocError;

/// A text of these lines, each a line, a span, a `&str` or a `String`: a `Result<Text,
/// AllocError>`. An empty list takes no memory.
///
/// ```
/// let text = text![in alloc; "Files".bold(), line![in alloc; "none ", "yet".dim()]?]?;
/// ```
#[macro_export]
macro_rules! text {
    (in $alloc:expr $(;)?) => {
        $crate::text_of($crate::with_room($alloc, 0))
    };
    (in $alloc:expr; $($part:expr),+ $(,)?) => {
        $crate::text!(@ $crate::with_room($alloc, $crate::part_count!($($part),+)), $($part),+)
    };
    (@ $lines:expr, $part:expr) => {
        $crate::text_of($crate::with_line($lines, $part))
    };
    (@ $lines:expr, $part:expr, $($rest:expr),+) => {
        $crate::text!(@ $crate::with_line($lines, $part), $($rest),+)
    };
    ($($rest:tt)*) => {
        compile_error!("`text!` takes an allocator first: write `text![in alloc; \"a\", \"b\".bold()]?`")
    };
}

/// Adds a part below the lines; refused lines stay refused.
///
/// # Errors
///
/// `AllocError` if the lines were refused, or if memory is. With room for one it isn't, if the part
/// becomes a line without memory.
pub fn with_line<'a, L: IntoLine<'a> + Drop>(
    lines: Result<Vec<Line<'a>>, AllocError>,
    part: L,
) -> Result<Vec<Line<'a>>, AllocError>
    ensures value { IsMadeBy (λ was made. made.items ≡ was.items ++ L.as_line part ∷ [])
        lines.entry result }
    ensures succeeds { IfOk lines.entry (λ was. HasRoomLeft 1 was → L.takes_none part → IsOk result) }
    ensures room { (n : ℕ) → IsMadeBy (λ was made. HasRoomLeft (n + 1) was → HasRoomLeft n made)
        lines.entry result }
{
    let mut lines = lines?;
    let line = part.into_line(*lines.allocator())?;
    lines.push(line)?;
    Ok(lines)
}

/// Makes a text of these lines; refused lines stay refused.
///
/// # Errors
///
/// `AllocError` if the lines were refused.
pub fn text_of<'a>(lines: Result<Vec<Line<'a>>, AllocError>) -> Result<Text<'a>, AllocError>
    ensures value { IsMadeBy (λ lines text. text ≡ text_of lines.items) lines.entry result }
    ensures succeeds { IsOk lines.entry → IsOk result }
{
    Ok(Text::from(lines?))
}
