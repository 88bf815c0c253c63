//! What is seen of something, by what is answered of it.

ghost use Rattle.std.specs.Prelude.{◌≡◌, IfOk};
ghost use Rattle.std.specs.Option.{option_copied};
ghost use Rattle.files.specs.Names.{text_shown};
ghost use Rattle.files.specs.Sights.{has_nul, shown_lines, IsTextIn, IsSightOfBytes, IsSightOf, IsPlaceIn};

use crate::glance::{Lines, Sight};
use crate::names::push_text;
use crate::order::Order;
use crate::sorting::{place_of, sorted};
use ratatui_files::{Answer, Failure, Text};
use std::alloc::{AllocError, Global};
use std::str::from_utf8;

// A line as it is shown.
fn shown_line(alloc: Global, line: &str) -> Result<Text, AllocError>
    ensures { IfOk result (λ text. text ≡ text_shown line.now) }
{
    let mut text = String::new(alloc);
    push_text(&mut text, line)?;
    Ok(Text::new(text))
}

// The lines of a text as they are shown.
fn shown_lines(alloc: Global, text: &str) -> Result<Vec<Text>, AllocError>
    ensures { IfOk result (λ all. all.items ≡ shown_lines text.now) }
{
    let mut all = Vec::new(alloc);
    for line in text.lines() {
        all.push(shown_line(alloc, line)?)?;
    }
    Ok(all)
}

// Whether a byte of a text is zero.
fn has_nul(bytes: &[u8]) -> bool
    ensures { result ≡ has_nul bytes.now }
{
    bytes.iter().any(|b| *b == 0)
}

// What of some bytes is text: all of them, but for a character that is cut off at their end.
fn text_of(bytes: &[u8]) -> Option<&str>
    ensures { IsTextIn bytes.now (option_copied result) }
{
    let end = match from_utf8(bytes) {
        Ok(text) => return Some(text),
        Err(error) if error.error_len().is_none() => error.valid_up_to(),
        Err(_) => return None,
    };
    match from_utf8(&bytes[..end]) {
        Ok(text) => Some(text),
        Err(_) => None,
    }
}

// What is seen of a file of so many bytes that begins with these.
fn sight_of_bytes(alloc: Global, size: u64, bytes: &[u8]) -> Result<Sight, AllocError>
    ensures { IfOk result (IsSightOfBytes size bytes.now) }
{
    if has_nul(bytes) {
        return Ok(Sight::Size(size));
    }
    let Some(text) = text_of(bytes) else {
        return Ok(Sight::Size(size));
    };
    let lines = shown_lines(alloc, text)?;
    Ok(Sight::Lines(Lines::new(lines)))
}

/// Returns what is seen of something, by what is answered of it; of a file it is told how many bytes
/// it has.
pub(crate) fn sight_of(
    alloc: Global,
    has_hidden: bool,
    order: Order,
    size: u64,
    answer: Answer,
) -> Result<Sight, AllocError>
    ensures { IfOk result (IsSightOf order has_hidden size answer) }
{
    match answer {
        Answer::Listed(entries, _) => {
            let rows = sorted(alloc, entries, has_hidden, order)?;
            Ok(Sight::Entries(rows))
        }
        Answer::Read(bytes) => sight_of_bytes(alloc, size, bytes.as_slice()),
        Answer::Failed(failure) => Ok(Sight::Failed(failure)),
        _ => Ok(Sight::Failed(Failure::Other)),
    }
}

/// Returns the row of a name in what is seen, if that has one, and else the first one.
pub(crate) fn place_in(sight: &Sight, name: &str) -> usize
    ensures { IsPlaceIn name.now sight.now result }
{
    match sight {
        Sight::Entries(rows) => place_of(rows.as_slice(), name, 0),
        _ => 0,
    }
}
