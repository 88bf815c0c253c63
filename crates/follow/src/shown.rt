//! Lines as they are shown: what can't be sent to a terminal is replaced, and what has no room in a
//! row is left out.

ghost use Rattle.std.specs.Prelude.{◌≡◌, ◌<◌, ◌++◌, OnOk, IfOk, string_bytes, true};
ghost use Rattle.unicode_segmentation.specs.Grapheme.{graphemes};
ghost use Rattle.ratatui_core.specs.Buffer.{painted_width};
ghost use Rattle.follow.specs.Lines.{replacement, shown_grapheme, shown_line, LookAlike};
ghost use Rattle.follow.specs.Inner.{fills_row, is_part, IsFrontInRow};

use ansi_model::is_printed;
use rtui_buffer::painted_width;
use rtui_text::printable_front;
use std::alloc::AllocError;
use unicode_segmentation::UnicodeSegmentation;

// Appends U+FFFD, and blanks after it up to so many columns.
fn push_replacement(out: &mut String, columns: u16) -> Result<(), AllocError>
    ensures { OnOk result (string_bytes out.new ≡ string_bytes out.old ++ replacement columns) }
{
    out.push('\u{fffd}')?;
    for _ in 1..columns {
        out.push_str(" ")?;
    }
    Ok(())
}

// Appends a grapheme as it is shown, and says in how many columns it is painted.
fn push_grapheme(out: &mut String, grapheme: &str) -> Result<u16, AllocError>
    ensures shown { OnOk result (string_bytes out.new
        ≡ string_bytes out.old ++ shown_grapheme grapheme.now) }
    ensures columns { IfOk result (λ columns. columns ≡ painted_width grapheme.now) }
{
    let columns = painted_width(grapheme);
    if columns == 0 || is_printed(grapheme) {
        out.push_str(grapheme)?;
        return Ok(columns);
    }
    push_replacement(out, columns)?;
    Ok(columns)
}

// Whether the graphemes of a text before its last one, which more text may join, take so many
// columns.
fn is_filled(text: &str, columns: u16) -> bool
    ensures { result ≡ fills_row columns (graphemes true text.now) }
{
    let mut left = columns;
    for grapheme in text.graphemes(true) {
        if left == 0 {
            return true;
        }
        left = left.saturating_sub(painted_width(grapheme));
    }
    false
}

// Whether a grapheme is a control character of ASCII but a line break. It isn't shown, and no
// grapheme goes from what stands before it to what stands after it.
fn is_part(grapheme: &str) -> bool
    ensures { result ≡ is_part grapheme.now }
{
    matches!(grapheme.as_bytes(), [0..=9 | 11 | 12 | 14..=31 | 127])
}

// Appends the graphemes of a text as they are shown, up to the one after which a row of so many
// columns is full; of control characters in a row only the first. The row begins with what is held,
// printable characters of ASCII.
fn push_graphemes(out: &mut String, text: &str, columns: u16) -> Result<(), AllocError>
    ensures { OnOk result (IsFrontInRow columns (string_bytes out.old ++ shown_line text.now)
        (string_bytes out.new)) }
{
    let mut left = usize::from(columns).saturating_sub(out.len());
    let mut is_parted = false;
    for grapheme in text.graphemes(true) {
        let parts = is_part(grapheme);
        if parts && is_parted {
            continue;
        }
        is_parted = parts;
        let taken = push_grapheme(out, grapheme)?;
        if left == 0 {
            if is_filled(out.as_str(), columns) {
                return Ok(());
            }
            left = usize::from(columns);
        }
        left = left.saturating_sub(usize::from(taken));
    }
    Ok(())
}

/// Makes of a text what a row of so many columns shows of a line, whatever it held: in place of each
/// grapheme that terminals don't print as one symbol U+FFFD in its columns, with blanks after it
/// where it takes several. The line is looked at up to the grapheme after those that the row shows.
///
/// # Errors
///
/// `AllocError` if memory is refused. What the text holds then isn't said.
pub fn show_line(out: &mut String, line: &str, columns: u16) -> Result<(), AllocError>
    ensures { OnOk result (LookAlike columns (string_bytes out.new) (shown_line line.now)) }
{
    out.clear();
    let (front, rest) = line.split_at(printable_front(line, usize::from(columns) + 1));
    out.push_str(front)?;
    if front.len() > usize::from(columns) {
        return Ok(());
    }
    push_graphemes(out, rest, columns)
}
