//! Showing a grid of dots.

ghost use Rattle.std.specs.Prelude.{◌≡◌, IsOk};
ghost use Rattle.ratatui_core.specs.Widgets.{ChangesWithin};
ghost use Rattle.ratatui_core.specs.Buffer.{ChangesEach};
ghost use Rattle.widget_canvas.specs.Canvases.{half_mark, dot_mark, in_color, under_dots, shown_at};

use ratatui_core::buffer::{Buffer, Cell, CellChange, change_area};
use ratatui_core::layout::{Position, Rect};
use ratatui_core::symbols::{Marker, pixel};
use rtui_dots::{DotCell, Painter, Scale};
use std::alloc::{AllocError, Global};

// The characters of patterns of dots.
static QUADRANTS: [char; 16] = pixel::QUADRANTS;

static SEXTANTS: [char; 64] = pixel::SEXTANTS;

static OCTANTS: [char; 256] = pixel::OCTANTS;

// The character of a cell's halves: a whole block where both have one colour.
fn half_mark(dots: &DotCell) -> char
    ensures { result ≡ half_mark dots.now }
{
    match dots.pattern {
        1 => '▀',
        2 => '▄',
        _ if dots.has_one_color() => '█',
        _ => '▀',
    }
}

// The character of a cell's dots.
#[inline(always)]
fn dot_mark(marker: Marker, dots: &DotCell) -> char
    ensures { result ≡ dot_mark marker dots.now }
{
    match marker {
        Marker::Braille => char::from_u32(0x2800 + u32::from(dots.pattern)).unwrap(),
        Marker::HalfBlock => half_mark(dots),
        Marker::Quadrant => QUADRANTS[usize::from(dots.pattern % 16)],
        Marker::Sextant => SEXTANTS[usize::from(dots.pattern % 64)],
        Marker::Octant => OCTANTS[usize::from(dots.pattern)],
        Marker::Dot => '•',
        Marker::Bar => '▄',
        Marker::Block => '█',
        Marker::Custom(ch) => ch,
    }
}

// Gives a cell the colour of its dots.
fn set_color(marker: Marker, dots: &DotCell, cell: &mut Cell)
    ensures { cell.new ≡ in_color marker dots.now cell.old }
{
    match marker {
        Marker::HalfBlock if dots.pattern == 2 => {
            cell.set_fg(dots.lower);
        }
        Marker::HalfBlock if dots.pattern != 1 => {
            cell.set_fg(dots.color);
            cell.set_bg(dots.lower);
        }
        _ => {
            cell.set_fg(dots.color);
        }
    }
}

// Shows dots in a cell, if there are any. Braille stands apart, since its characters have a known
// length.
fn show_cell(
    alloc: Global,
    marker: Marker,
    dots: &DotCell,
    cell: &mut Cell,
) -> Result<(), AllocError>
    ensures value { cell.new ≡ under_dots marker dots.now cell.old }
    ensures succeeds { IsOk result }
{
    if dots.pattern == 0 {
        return Ok(());
    }
    match marker {
        Marker::Braille => cell.set_char(alloc, dot_mark(Marker::Braille, dots))?,
        marker => cell.set_char(alloc, dot_mark(marker, dots))?,
    }
    set_color(marker, dots, cell);
    Ok(())
}

// The dots of a grid over an area.
#[derive(Drop)]
pub(crate) struct Shown<'b> {
    scale: Scale,
    cells: &'b [DotCell],
    area: Rect,
}

impl<'b> CellChange for Shown<'b> {
    ghost use Rattle.std.specs.Prelude.{⊤};
    ghost use Rattle.widget_canvas.specs.Canvases.{shown_at};

    ghost made = { λ s. shown_at s.scale s.area s.cells.now };

    ghost is_light = { λ _ _ _. ⊤ };

    fn change(&self, alloc: Global, position: Position, cell: &mut Cell) -> Result<(), AllocError> {
        let row = usize::from(position.y.saturating_sub(self.area.y));
        let column = usize::from(position.x.saturating_sub(self.area.x));
        let index = row * usize::from(self.scale.columns) + column;
        if index >= self.cells.len() {
            return Ok(());
        }
        show_cell(alloc, self.scale.marker, &self.cells[index], cell)
    }
}

// Shows the dots of a grid over an area.
pub(crate) fn show(painter: &Painter, area: Rect, buf: &mut Buffer) -> Result<(), AllocError>
    ensures within { ChangesWithin area buf.old buf.new }
    ensures shown { let f = shown_at painter.now.scale area painter.now.cells.items in
        ChangesEach area f buf.old buf.new }
    ensures succeeds { IsOk result }
{
    let shown = Shown {
        scale: painter.scale(),
        cells: painter.cells(),
        area,
    };
    change_area(buf, area, &shown)
}
