//! Painting texts and styles.

ghost use Rattle.std.specs.Prelude.{true, ◌≡◌, ◌+◌, ◌-◌, ◌*◌, ◌<◌, ◌≤◌, [], ◌∷◌, length, IsOk, OnOk, OnErr};
ghost use Rattle.std.specs.Prelude.{IfOk};
ghost use Rattle.unicode_segmentation.specs.Grapheme.{graphemes};
ghost use Rattle.rtui_geometry.specs.Rect.{EdgesFit};
ghost use Rattle.rtui_style.specs.Style.{new_style, modifier_after};
ghost use Rattle.rtui_cell.specs.Symbol.{IsShort};
ghost use Rattle.rtui_cell.specs.Cell.{styled};
ghost use Rattle.rtui_cell.specs.Width.{text_width};
ghost use Rattle.rtui_text.specs.Printable.{ArePrintable, singles};
ghost use Rattle.rtui_buffer.specs.BufferData.{HasRow, position_of};
ghost use Rattle.rtui_buffer.specs.Painting.{painted_width, piece_of, pieces, text_pieces, columns, shown};
ghost use Rattle.rtui_buffer.specs.Painted.{emptied, with_piece, painted};
ghost use Rattle.rtui_buffer.specs.PaintedText.{room_at, pieces_at, Paints, IsStyled};
ghost use Rattle.rtui_buffer.specs.Inner.{PaintsCells, IsStyledPart, IsStyledRows};

use crate::buffer::Buffer;
use rtui_cell::{Cell, CellWidth};
use rtui_geometry::Rect;
use rtui_grid::fill;
use rtui_style::{Modifier, Style};
use rtui_text::{has_control, printable_front};
use std::alloc::{AllocError, Global};
use unicode_segmentation::UnicodeSegmentation;

impl Buffer {
    /// Paints a text in a style, from a column and a row on: the longest front of its graphemes
    /// that fits the area and `max` columns, without those that have a control character or no
    /// width. The columns after a wide grapheme become empty. It answers the column after the last
    /// one that was painted, and the row.
    ///
    /// # Conditions
    ///
    /// Row `y` is one of the area, and column `x` isn't left of it. If not, the Rust crate panics
    /// when it paints a grapheme.
    ///
    /// # Errors
    ///
    /// `AllocError` if memory is refused; a front of these graphemes is painted then, and no more.
    /// Graphemes of at most 22 bytes take none.
    #[tactic(auto, using(crate::proofs::TextLemmas::none_steps))]
    pub fn set_stringn(
        &mut self,
        x: u16,
        y: u16,
        text: &str,
        max: usize,
        style: Style,
    ) -> Result<(u16, u16), AllocError>
        requires row { HasRow self.old.area y }
        requires column { self.old.area.x ≤ x }
        ensures paints { let ps = pieces_at self.old.area x max style text.now in
            Paints (position_of (x, y)) ps result self.old self.new }
        ensures place { let ps = pieces_at self.old.area x max style text.now in
            IfOk result (λ end. end ≡ (x + columns ps, y)) }
    {
        let room = room_at(self.area, x, max);
        if room == 0 {
            return Ok((x, y));
        }
        let start = self.index_of(x, y);
        let alloc = *self.content.allocator();
        let used = paint_text(alloc, self.content.as_mut_slice(), start, room, text, style)?;
        Ok((x + used, y))
    }

    /// Paints a text in a style, from a column and a row on, as far as the area goes.
    ///
    /// ```
    /// let mut buffer = Buffer::empty(alloc, Rect::new(0, 0, 5, 1))?;
    /// buffer.set_string(3, 0, "Ready", Style::new())?;
    /// assert!(rt; buffer[(3, 0)].symbol() == "R");
    /// assert!(rt; buffer[(4, 0)].symbol() == "e");
    /// ```
    ///
    /// # Conditions
    ///
    /// Row `y` is one of the area, and column `x` isn't left of it. If not, the Rust crate panics
    /// when it paints a grapheme.
    ///
    /// # Errors
    ///
    /// Those of `set_stringn`.
    pub fn set_string(&mut self, x: u16, y: u16, text: &str, style: Style) -> Result<(), AllocError>
        requires row { HasRow self.old.area y }
        requires column { self.old.area.x ≤ x }
        ensures paints { let ps = pieces_at self.old.area x 65535 style text.now in
            Paints (position_of (x, y)) ps result self.old self.new }
    {
        self.set_stringn(x, y, text, usize::MAX, style)?;
        Ok(())
    }

    /// Lays a style over the cells of an area, as far as the buffer has them.
    pub fn set_style(&mut self, area: Rect, style: Style)
        ensures { IsStyled area style self.old self.new }
    {
        let common = self.area.intersection(area);
        if common.is_empty() {
            return;
        }
        let width = usize::from(self.area.width);
        let left = usize::from(common.x - self.area.x);
        let top = usize::from(common.y - self.area.y);
        let right = left + usize::from(common.width);
        let bottom = top + usize::from(common.height);
        style_rows(
            self.content.as_mut_slice(),
            width,
            left,
            right,
            top,
            bottom,
            style,
        );
    }
}

// The columns from x to the area's right edge, at most this many and 65535.
pub fn room_at(area: Rect, x: u16, max: usize) -> u16
    requires { EdgesFit area }
    ensures { result ≡ room_at area x max }
{
    let left = usize::from(area.right().saturating_sub(x));
    max.min(65535).min(left) as u16
}

// Paints the graphemes of a text that fit the room, and says how many columns they take: printable
// characters of ASCII at its start a byte at a time, and after them grapheme by grapheme.
pub fn paint_text(
    alloc: Global,
    cells: &mut [Cell],
    start: usize,
    room: u16,
    text: &str,
    style: Style,
) -> Result<u16, AllocError>
    requires inside { start + room ≤ length cells.old }
    ensures fits { IfOk result (λ n. n ≤ room) }
    ensures columns { IfOk result (λ n. n ≡ columns (text_pieces room style text.now)) }
    ensures paints { let ps = text_pieces room style text.now in
        PaintsCells start ps result cells.old cells.new }
{
    let front = printable_front(text, usize::from(room));
    paint_printable(alloc, cells, start, &text.as_bytes()[..front], style)?;
    let used = front as u16;
    let rest = &text[front..];
    if rest.is_empty() {
        return Ok(used);
    }
    let more = paint_graphemes(alloc, cells, start + front, room - used, rest, style)?;
    Ok(used + more)
}

/// Paints printable characters of ASCII in a style, one in each cell from a place on.
///
/// # Conditions
///
/// Each byte is a printable character of ASCII, and the list has a cell for each, from place
/// `start` on.
///
/// # Errors
///
/// None: it takes no memory.
#[tactic(auto, using(crate::proofs::PrintableLemmas::byte_steps))]
pub fn paint_printable(
    alloc: Global,
    cells: &mut [Cell],
    start: usize,
    bytes: &[u8],
    style: Style,
) -> Result<(), AllocError>
    requires inside { start + length bytes.now ≤ length cells.old }
    requires printable { ArePrintable bytes.now }
    ensures painted { cells.new ≡ painted start (pieces style (singles bytes.now)) cells.old }
    ensures succeeds { IsOk result }
{
    for i in 0..bytes.len() {
        show_byte(alloc, &mut cells[start + i], bytes[i], style)?;
    }
    Ok(())
}

// Shows a character of ASCII in a cell, in a style.
#[tactic(auto, using(crate::proofs::PrintableLemmas::ascii_steps))]
fn show_byte(alloc: Global, cell: &mut Cell, byte: u8, style: Style) -> Result<(), AllocError>
    requires { byte < 128 }
    ensures shown { cell.new ≡ shown (piece_of style (byte ∷ [])) cell.old }
    ensures succeeds { IsOk result }
{
    cell.set_char(alloc, char::from(byte))?;
    cell.set_style(style);
    Ok(())
}

// Paints the graphemes of a text that fit the room, and says how many columns they take.
#[tactic(auto, using(crate::proofs::RefusedLemmas::so_far_steps))]
fn paint_graphemes(
    alloc: Global,
    cells: &mut [Cell],
    start: usize,
    room: u16,
    text: &str,
    style: Style,
) -> Result<u16, AllocError>
    requires inside { start + room ≤ length cells.old }
    ensures fits { IfOk result (λ n. n ≤ room) }
    ensures columns { IfOk result (λ n. n ≡ columns (text_pieces room style text.now)) }
    ensures paints { let ps = text_pieces room style text.now in
        PaintsCells start ps result cells.old cells.new }
{
    let mut used = 0;
    for grapheme in text.graphemes(true) {
        let width = painted_width(grapheme);
        if width == 0 {
            continue;
        }
        if width > room - used {
            return Ok(used);
        }
        put_piece(
            alloc,
            cells,
            start + used as usize,
            width as usize,
            grapheme,
            style,
        )?;
        used += width;
    }
    Ok(used)
}

/// Returns how many columns a grapheme is painted in: none if it has a control character.
#[tactic(auto, unfolding(crate::specs::Painting::painted_width))]
pub fn painted_width(grapheme: &str) -> u16
    ensures { result ≡ painted_width grapheme.now }
{
    if has_control(grapheme) {
        return 0;
    }
    grapheme.cell_width()
}

// Paints a grapheme of this width.
#[tactic(auto, unfolding(crate::specs::Painted::with_piece))]
fn put_piece(
    alloc: Global,
    cells: &mut [Cell],
    at: usize,
    width: usize,
    symbol: &str,
    style: Style,
) -> Result<(), AllocError>
    requires width { width ≡ text_width symbol.now }
    requires wide { 0 < width }
    requires inside { at + width ≤ length cells.old }
    ensures ok { OnOk result (cells.new ≡ with_piece at (piece_of style symbol.now) cells.old) }
    ensures err { OnErr result (cells.new ≡ cells.old) }
    ensures short { IsShort symbol.now → IsOk result }
{
    cells[at].put(alloc, symbol, style)?;
    empty_part(cells, at + 1, at + width);
    Ok(())
}

/// Empties the cells from one place up to another.
///
/// # Conditions
///
/// `from` is at most `to`, and `to` is at most the number of cells.
pub fn empty_part(cells: &mut [Cell], from: usize, to: usize)
    requires order { from ≤ to }
    requires inside { to ≤ length cells.old }
    ensures { cells.new ≡ emptied from (to - from) cells.old }
{
    fill(cells, from, to);
}

// Lays a style over the columns from left to right of the rows from top to bottom.
#[tactic(auto, using(crate::proofs::StyleLemmas::row_steps))]
fn style_rows(
    cells: &mut [Cell],
    width: usize,
    left: usize,
    right: usize,
    top: usize,
    bottom: usize,
    style: Style,
)
    requires columns { right ≤ width }
    requires ordered { left ≤ right }
    requires rows { top ≤ bottom }
    requires inside { bottom * width ≤ length cells.old }
    ensures { IsStyledRows width left right top bottom style cells.old cells.new }
{
    for row in top..bottom {
        style_part(cells, row * width + left, row * width + right, style);
    }
}

// Lays a style over the cells of a part.
#[tactic(auto, using(crate::proofs::StyleLemmas::part_steps))]
fn style_part(cells: &mut [Cell], from: usize, to: usize, style: Style)
    requires order { from ≤ to }
    requires inside { to ≤ length cells.old }
    ensures { IsStyledPart from to style cells.old cells.new }
{
    for i in from..to {
        lay(&mut cells[i], style);
    }
}

// The new style leaves modifiers as they are. Calling it costs nothing, and tells the proof so.
fn new_style_leaves(modifier: Modifier)
    ensures { modifier_after new_style modifier ≡ modifier }
{}

// Whether a style changes nothing.
fn changes_nothing(style: &Style) -> bool
    ensures { result ≡ true → style.now ≡ new_style }
{
    style.fg.is_none()
        && style.bg.is_none()
        && style.underline_color.is_none()
        && style.add_modifier == Modifier::NONE
        && style.sub_modifier == Modifier::NONE
}

// Lays a style over a cell. Where a loop calls it the question stands before the loop, and a style
// that changes nothing takes no loop.
fn lay(cell: &mut Cell, style: Style)
    ensures { cell.new ≡ styled style cell.old }
{
    if changes_nothing(&style) {
        new_style_leaves(cell.modifier);
    } else {
        cell.set_style(style);
    }
}
