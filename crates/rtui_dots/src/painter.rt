//! Painting dots.

ghost use Rattle.std.specs.Prelude.{◌≡◌, ◌≤◌, ◌<◌, ◌+◌, ◌*◌, IsTrue, IfOk, IsOk, OnOk, OnErr, [], ◌∷◌, length};
ghost use Rattle.std.specs.Prelude.{replicate};
ghost use Rattle.rtui_dots.specs.Grids.{far, no_dots, empty_grid, cell_row, cell_column, dot_number};
ghost use Rattle.rtui_dots.specs.Grids.{has_one_color, with_dot_number};
ghost use Rattle.rtui_dots.specs.Grids.{has_dot, with_dot, SetsDots};

use crate::scale::{FAR, Scale};
use rtui_style::Color;
use rtui_symbols::marker::Marker;
use std::alloc::{AllocError, Global};

/// The dots of a cell, and their colour.
#[derive(Debug, Clone, Copy)]
pub struct DotCell {
    /// The dots: of Braille the number of the pattern after the empty one, of half blocks 1 for the
    /// upper one and 2 for the lower one, of quadrants, sextants and octants a bit for each dot, row
    /// by row from the top, the left one first, and else 1; 0 where there is none.
    pub pattern: u8,
    /// The colour of the dot that was set last, other than the lower half.
    pub color: Color,
    /// The colour of the lower half.
    pub lower: Color,
}

const NO_DOTS: DotCell = DotCell {
    pattern: 0,
    color: Color::Reset,
    lower: Color::Reset,
};

static BRAILLE_DOTS: [u8; 8] = [0x01, 0x08, 0x02, 0x10, 0x04, 0x20, 0x40, 0x80];

static PIXELS: [u8; 8] = [0x01, 0x02, 0x04, 0x08, 0x10, 0x20, 0x40, 0x80];

/// A grid of dots, which shapes set.
#[derive(Debug, Drop)]
pub struct Painter {
    pub(crate) scale: Scale,
    pub(crate) cells: Vec<DotCell>,
}

// A dot's number in the pattern of its cell.
#[inline(always)]
fn dot_number(marker: Marker, x: u64, y: u64) -> u8
    ensures { result ≡ dot_number marker x y }
{
    match marker {
        Marker::Braille => BRAILLE_DOTS[(y % 4 * 2 + x % 2) as usize],
        Marker::HalfBlock => (y % 2 + 1) as u8,
        Marker::Quadrant => PIXELS[(y % 2 * 2 + x % 2) as usize],
        Marker::Sextant => PIXELS[(y % 3 * 2 + x % 2) as usize],
        Marker::Octant => PIXELS[(y % 4 * 2 + x % 2) as usize],
        _ => 1,
    }
}

// The column of a dot's cell.
#[inline(always)]
fn cell_column(marker: Marker, x: u64) -> u64
    ensures value { result ≡ cell_column marker x }
    ensures within { result ≤ x }
{
    match marker {
        Marker::Braille | Marker::Quadrant | Marker::Sextant | Marker::Octant => x / 2,
        _ => x,
    }
}

// The row of a dot's cell.
#[inline(always)]
fn cell_row(marker: Marker, y: u64) -> u64
    ensures value { result ≡ cell_row marker y }
    ensures within { result ≤ y }
{
    match marker {
        Marker::Braille | Marker::Octant => y / 4,
        Marker::Sextant => y / 3,
        Marker::HalfBlock | Marker::Quadrant => y / 2,
        _ => y,
    }
}

impl DotCell {
    /// Returns whether the two halves of the cell have one colour.
    #[tactic(auto, unfolding(crate::specs::Grids::has_one_color))]
    pub fn has_one_color(&self) -> bool
        ensures { result ≡ has_one_color self.now }
    {
        self.color == self.lower
    }

    // The cell with one dot more.
    #[inline(always)]
    fn with_dot_number(self, marker: Marker, number: u8, color: Color) -> DotCell
        ensures { result ≡ with_dot_number marker number color self }
    {
        let pattern = self.pattern | number;
        match marker {
            Marker::HalfBlock if number == 2 => DotCell {
                pattern,
                lower: color,
                ..self
            },
            _ => DotCell {
                pattern,
                color,
                ..self
            },
        }
    }
}

impl Painter {
    /// Makes a grid of this scale, without dots. It takes memory for each of its cells.
    ///
    /// # Errors
    ///
    /// `AllocError` if memory is refused.
    pub fn new(alloc: Global, scale: Scale) -> Result<Painter, AllocError>
        ensures scale { IfOk result (λ p. p.scale ≡ scale) }
        ensures cells { IfOk result (λ p. p.cells.items ≡ empty_grid scale) }
    {
        let count = usize::from(scale.columns) * usize::from(scale.rows);
        let cells = vec![in alloc; NO_DOTS; count]?;
        Ok(Painter { scale, cells })
    }

    /// Returns the scale that it was made with.
    pub fn scale(&self) -> Scale
        ensures { result ≡ self.now.scale }
    {
        self.scale
    }

    /// Returns the cells, row by row.
    pub fn cells(&self) -> &[DotCell]
        ensures { result.now ≡ self.now.cells.items }
    {
        self.cells.as_slice()
    }

    /// Makes it a grid of another scale, without dots, over the same memory if it has as many cells.
    ///
    /// # Errors
    ///
    /// `AllocError` if memory is refused; a grid of as many cells takes none. The grid is as it was
    /// then.
    pub fn restart(&mut self, scale: Scale) -> Result<(), AllocError>
        ensures scale { OnOk result (self.new.scale ≡ scale) }
        ensures cells { OnOk result (self.new.cells.items ≡ empty_grid scale) }
        ensures err { OnErr result (self.new ≡ self.old) }
        ensures short { length self.old.cells.items ≡ scale.columns * scale.rows → IsOk result }
    {
        if self.cells.len() != usize::from(scale.columns) * usize::from(scale.rows) {
            *self = Painter::new(*self.cells.allocator(), scale)?;
            return Ok(());
        }
        self.clear();
        self.scale = scale;
        Ok(())
    }

    /// Takes all dots away.
    pub fn clear(&mut self)
        ensures cells { self.new.cells.items ≡ replicate (length self.old.cells.items) no_dots }
        ensures scale { self.new.scale ≡ self.old.scale }
    {
        for cell in self.cells.as_mut_slice() {
            *cell = NO_DOTS;
        }
    }

    // Sets a dot by its places. Braille stands apart, so that nothing is asked about the marker of
    // each of its dots.
    pub(crate) fn set_dot(&mut self, x: u64, y: u64, color: Color)
        ensures { SetsDots (record { x = x; y = y; color = color } ∷ []) self.old self.new }
    {
        let cells = self.cells.as_mut_slice();
        match self.scale.marker {
            Marker::Braille => set_marked(cells, self.scale, Marker::Braille, x, y, color),
            marker => set_marked(cells, self.scale, marker, x, y, color),
        }
    }
}

// Whether a grid has a dot.
#[inline(always)]
pub(crate) fn has_dot(scale: &Scale, marker: Marker, x: u64, y: u64) -> bool
    requires { marker ≡ scale.now.marker }
    ensures { result ≡ has_dot scale.now x y }
{
    let (columns, rows) = (scale.columns_by(marker), scale.rows_by(marker));
    FAR <= x && x < FAR + columns && FAR <= y && y < FAR + rows
}

// Sets a dot among the cells of a grid that marks dots so, and has it.
#[inline(always)]
pub(crate) fn set_inside(
    cells: &mut [DotCell],
    scale: Scale,
    marker: Marker,
    x: u64,
    y: u64,
    color: Color,
)
    requires marker { marker ≡ scale.marker }
    requires there { IsTrue (has_dot scale x y) }
    ensures { cells.new ≡ with_dot scale (record { x = x; y = y; color = color }) cells.old }
{
    let (x, y) = (x - FAR, y - FAR);
    let index = (cell_row(marker, y) * scale.width() + cell_column(marker, x)) as usize;
    let number = dot_number(marker, x, y);
    if index < cells.len() {
        cells[index] = cells[index].with_dot_number(marker, number, color);
    }
}

// Sets a dot among the cells of a grid that marks dots so, if the grid has it.
#[inline(always)]
pub(crate) fn set_marked(
    cells: &mut [DotCell],
    scale: Scale,
    marker: Marker,
    x: u64,
    y: u64,
    color: Color,
)
    requires { marker ≡ scale.marker }
    ensures { cells.new ≡ with_dot scale (record { x = x; y = y; color = color }) cells.old }
{
    if has_dot(&scale, marker, x, y) {
        set_inside(cells, scale, marker, x, y, color);
    }
}
