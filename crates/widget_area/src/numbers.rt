//! Numbers of lines.

ghost use Rattle.std.specs.Prelude.{◌≡◌, ◌≤◌, length, min};
ghost use Rattle.std.specs.Fmt.{decimal};
ghost use Rattle.rtui_drawing.specs.Drawings.{IsDone, IsRowIn, put_pieces, over};
ghost use Rattle.rtui_drawing.specs.declared.cut.Cut.TheVariants.{Last};
ghost use Rattle.ratatui_core.specs.Buffer.{text_pieces};

use itoa::Buffer as Digits;
use ratatui_core::buffer::Buffer;
use ratatui_core::layout::Rect;
use ratatui_core::style::Style;
use rtui_drawing::{Cut, write};
use std::alloc::AllocError;

// How many digits a number has.
pub(crate) fn digit_count(number: usize) -> u16
    ensures value { result ≡ length (decimal number) }
    ensures few { result ≤ 40 }
{
    let mut digits = Digits::new();
    digits.format(number).len() as u16
}

// Writes a number at the right of a row; answers how many columns it took.
#[tactic(auto, using(rtui_drawing::proofs::DrawingLemmas::drawing_steps, crate::proofs::RowLemmas::row_parts))]
pub(crate) fn write_number(
    number: usize,
    style: Style,
    row: Rect,
    buf: &mut Buffer,
) -> Result<u16, AllocError>
    requires { IsRowIn buf.old.area row }
    ensures done { let text = decimal number in
        let ps = text_pieces (min (length text) row.width) style text in
        IsDone (over (Last (length text)) (put_pieces ps)) row result buf.old buf.new }
    ensures area { buf.new.area ≡ buf.old.area }
{
    let mut digits = Digits::new();
    let text = digits.format(number);
    let part = Cut::Last(text.len() as u16).of(row);
    write(text, style, part, buf)
}
