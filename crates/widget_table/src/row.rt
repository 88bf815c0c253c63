//! The rows of a table.

ghost use Rattle.std.specs.Prelude.{◌≡◌, ◌≤◌, ◌<◌, ◌+◌, min, IfOk, true, List, map};
ghost use Rattle.std.specs.Iterator.{IsFinite, Drains};
ghost use Rattle.ratatui_core.specs.Style.{new_style};
ghost use Rattle.widget_table.specs.Rows.{full_height, upper_height, cells_area, below, above, raw_cell, IsNewRow};
ghost use Rattle.widget_table.specs.declared.cell.Cell.{Cell as CellData};
ghost use Rattle.widget_table.specs.Inner.{IsTableArea};

use crate::cell::Cell;
use ratatui_core::layout::Rect;
use ratatui_core::style::Style;
use std::alloc::{AllocError, Global};

/// A row of a table: cells from left to right, in so many rows of the screen, with rows that stay
/// free above and below.
#[derive(Debug, PartialEq, Eq, Drop)]
pub struct Row<'a> {
    pub(crate) cells: Vec<Cell<'a>>,
    pub(crate) height: u16,
    pub(crate) top_margin: u16,
    pub(crate) bottom_margin: u16,
    pub(crate) style: Style,
}

impl<'a> Row<'a> {
    /// Makes a row of these cells, one row high and without margins; takes no memory.
    pub fn new(cells: Vec<Cell<'a>>) -> Row<'a>
        ensures { result ≡ record
            { cells = cells.entry; height = 1; top_margin = 0; bottom_margin = 0; style = new_style } }
    {
        Row {
            cells,
            height: 1,
            top_margin: 0,
            bottom_margin: 0,
            style: Style::new(),
        }
    }

    /// Makes a row of plain texts, a cell each, as [`Cell::raw`] makes it.
    ///
    /// ```
    /// let row = Row::raw(alloc, &["cpu", "97%"])?;
    /// ```
    ///
    /// # Errors
    ///
    /// `AllocError` if memory is refused.
    pub fn raw(alloc: Global, texts: &[&'a str]) -> Result<Row<'a>, AllocError>
        ensures { let cells = map (λ text. raw_cell text.now) texts.now in
            IfOk result (IsNewRow cells) }
    {
        Ok(Row::new(raw_cells(alloc, texts)?))
    }

    /// Makes a row of the cells that an iterator gives.
    ///
    /// # Conditions
    ///
    /// The iterator comes to an end, and `next` may be called on it until then.
    ///
    /// # Errors
    ///
    /// `AllocError` if memory is refused.
    pub fn try_from_iter<I>(alloc: Global, cells: I) -> Result<Row<'a>, AllocError>
    where
        I: IntoIterator<Item = Cell<'a>>,
        requires { (it : I.IntoIter) → I.into_iter_gives cells it
            → I.IntoIter.can_next it × IsFinite (I.IntoIter.remaining it) }
        ensures { IfOk result (λ made. (it : I.IntoIter) × (items : List CellData)
            × I.into_iter_gives cells it × Drains I.IntoIter.next_gives it items
            × IsNewRow items made) }
    {
        Ok(Row::new(Vec::from_iter(alloc, cells)?))
    }

    /// Sets the cells of the row.
    pub fn cells(self, cells: Vec<Cell<'a>>) -> Row<'a>
        ensures { result ≡ record self.entry { cells = cells.entry } }
    {
        Row { cells, ..self }
    }

    /// Sets how many rows of the screen the cells take.
    pub fn height(self, height: u16) -> Row<'a>
        ensures { result ≡ record self.entry { height = height } }
    {
        Row { height, ..self }
    }

    /// Sets how many free rows are above the cells.
    pub fn top_margin(self, margin: u16) -> Row<'a>
        ensures { result ≡ record self.entry { top_margin = margin } }
    {
        Row {
            top_margin: margin,
            ..self
        }
    }

    /// Sets how many free rows are below the cells.
    pub fn bottom_margin(self, margin: u16) -> Row<'a>
        ensures { result ≡ record self.entry { bottom_margin = margin } }
    {
        Row {
            bottom_margin: margin,
            ..self
        }
    }

    /// Sets the style of the row, without its margins.
    pub fn style(self, style: Style) -> Row<'a>
        ensures { result ≡ record self.entry { style = style } }
    {
        Row { style, ..self }
    }

    /// Makes an equal row.
    ///
    /// # Errors
    ///
    /// `AllocError` if memory is refused.
    pub fn clone(&self, alloc: Global) -> Result<Row<'a>, AllocError>
        ensures { let same = ⟦<Row<'a> as PartialEq>⟧.eq in
            IfOk result (λ row. same self.now row ≡ true) }
    {
        Ok(Row {
            cells: cloned_cells(alloc, self.cells.as_slice())?,
            height: self.height,
            top_margin: self.top_margin,
            bottom_margin: self.bottom_margin,
            style: self.style,
        })
    }

    /// Returns how many rows of the screen it takes, with its margins.
    pub fn height_with_margin(&self) -> usize
        ensures value { result ≡ full_height self.now }
        ensures small { result ≤ 196605 }
    {
        self.upper_height() + usize::from(self.bottom_margin)
    }

    // How many rows of the screen its cells take, with the margin above.
    pub(crate) fn upper_height(&self) -> usize
        ensures value { result ≡ upper_height self.now }
        ensures small { result ≤ 131070 }
    {
        usize::from(self.top_margin) + usize::from(self.height)
    }

    // Where its cells stand in an area that begins with its margin.
    pub(crate) fn cells_area(&self, area: Rect) -> Rect
        requires { IsTableArea area }
        ensures { result ≡ cells_area self.now area }
    {
        let left = below(area, usize::from(self.top_margin));
        Rect {
            height: self.height.min(left.height),
            ..left
        }
    }
}

// A cell for each text.
fn raw_cells<'a>(alloc: Global, texts: &[&'a str]) -> Result<Vec<Cell<'a>>, AllocError>
    ensures { IfOk result (λ made. made.items ≡ map (λ text. raw_cell text.now) texts.now) }
{
    let mut cells = Vec::with_capacity(alloc, texts.len())?;
    for text in texts {
        cells.push(Cell::raw(alloc, text)?)?;
    }
    Ok(cells)
}

// Equal cells.
fn cloned_cells<'a>(alloc: Global, cells: &[Cell<'a>]) -> Result<Vec<Cell<'a>>, AllocError>
    ensures { IfOk result (λ cloned. cloned.items ≡ cells.now) }
{
    let mut cloned = Vec::with_capacity(alloc, cells.len())?;
    for cell in cells {
        cloned.push(cell.clone(alloc)?)?;
    }
    Ok(cloned)
}

// An area without its first rows.
pub(crate) fn below(area: Rect, rows: usize) -> Rect
    requires { IsTableArea area }
    ensures { result ≡ below rows area }
{
    let rows = rows.min(usize::from(area.height)) as u16;
    Rect {
        y: area.y + rows,
        height: area.height - rows,
        ..area
    }
}

// An area without its last rows.
pub(crate) fn above(area: Rect, rows: usize) -> Rect
    ensures { result ≡ above rows area }
{
    let rows = rows.min(usize::from(area.height)) as u16;
    Rect {
        height: area.height - rows,
        ..area
    }
}
