//! The symbols and the style of an area's cells, column by column, which is the least work where an
//! area has few columns and many rows, as a bar has.

ghost use Rattle.std.specs.Prelude.{◌≡◌, ◌<◌, ◌≤◌, OnOk, OnErr, IsOk, All, ◌+◌};
ghost use Rattle.ratatui_core.specs.Layout.{intersected};
ghost use Rattle.ratatui_core.specs.Symbols.{bar_texts};
ghost use Rattle.ratatui_core.specs.Buffer.{IsShort, IsStyled, styled, with_symbol};
ghost use Rattle.rtui_drawing.specs.Drawings.{IsDone, put_change};
ghost use Rattle.widget_sparkline.specs.Levels.{level_mark};
ghost use Rattle.widget_sparkline.specs.Inner.{KeepsAround, MakesBlock, IsBlockIn, block_of, marked_row};
ghost use Rattle.widget_sparkline.specs.Inner.{row_among, level_row, full_row};

use crate::level::level_of;
use ratatui_core::buffer::{Buffer, Cell};
use ratatui_core::layout::Rect;
use ratatui_core::style::Style;
use ratatui_core::symbols::bar;
use std::alloc::{AllocError, Global};

// Some columns of some rows of a grid; `right` and `bottom` are after the last ones.
#[derive(Clone, Copy)]
pub(crate) struct Block {
    left: usize,
    right: usize,
    top: usize,
    bottom: usize,
}

// Sets the symbol of each cell of a block's column, in rows of so many cells.
#[inline(always)]
fn set_column(
    alloc: Global,
    cells: &mut [Cell],
    width: usize,
    block: Block,
    column: usize,
    symbol: &str,
) -> Result<(), AllocError>
    requires inside { IsBlockIn width block cells.old }
    requires column { column < width }
    ensures ok { let k = record block { left = column; right = column + 1 } in
        OnOk result (MakesBlock width k (λ _. with_symbol symbol.now) cells.old cells.new) }
    ensures err { let k = record block { left = column; right = column + 1 } in
        OnErr result (KeepsAround width k cells.old cells.new) }
    ensures short { IsShort symbol.now → IsOk result }
{
    for row in block.top..block.bottom {
        cells[row * width + column].set_symbol(alloc, symbol)?;
    }
    Ok(())
}

// Sets the symbol of each cell of a block, in rows of so many cells.
#[inline(always)]
fn set_block(
    alloc: Global,
    cells: &mut [Cell],
    width: usize,
    block: Block,
    symbol: &str,
) -> Result<(), AllocError>
    requires { IsBlockIn width block cells.old }
    ensures ok { OnOk result
        (MakesBlock width block (λ _. with_symbol symbol.now) cells.old cells.new) }
    ensures err { OnErr result (KeepsAround width block cells.old cells.new) }
    ensures short { IsShort symbol.now → IsOk result }
{
    for column in block.left..block.right {
        set_column(alloc, cells, width, block, column, symbol)?;
    }
    Ok(())
}

// Sets the symbol of each cell of a block, in rows of so many cells; symbols of usual lengths stand
// apart, since a copy of a known length takes no call.
fn fill_block(
    alloc: Global,
    cells: &mut [Cell],
    width: usize,
    block: Block,
    symbol: &str,
) -> Result<(), AllocError>
    requires { IsBlockIn width block cells.old }
    ensures ok { OnOk result
        (MakesBlock width block (λ _. with_symbol symbol.now) cells.old cells.new) }
    ensures err { OnErr result (KeepsAround width block cells.old cells.new) }
    ensures short { IsShort symbol.now → IsOk result }
{
    match symbol.len() {
        3 => set_block(alloc, cells, width, block, symbol),
        1 => set_block(alloc, cells, width, block, symbol),
        _ => set_block(alloc, cells, width, block, symbol),
    }
}

// Lays a style over a cell.
#[inline(always)]
fn restyle(cell: &mut Cell, style: Style)
    ensures { cell.new ≡ styled style cell.old }
{
    cell.set_style(style);
}

// Lays a style over each cell of a block's column, in rows of so many cells.
#[inline(always)]
fn style_column(cells: &mut [Cell], width: usize, block: Block, column: usize, style: Style)
    requires inside { IsBlockIn width block cells.old }
    requires column { column < width }
    ensures { let k = record block { left = column; right = column + 1 } in
        MakesBlock width k (λ _. styled style) cells.old cells.new }
{
    for row in block.top..block.bottom {
        restyle(&mut cells[row * width + column], style);
    }
}

// Lays a style over each cell of a block, in rows of so many cells.
fn style_block(cells: &mut [Cell], width: usize, block: Block, style: Style)
    requires { IsBlockIn width block cells.old }
    ensures { MakesBlock width block (λ _. styled style) cells.old cells.new }
{
    for column in block.left..block.right {
        style_column(cells, width, block, column, style);
    }
}

// Where the part of an area stands among the cells of a buffer's own area.
fn block_of(part: Rect, own: Rect) -> Block
    requires left { own.x ≤ part.x }
    requires top { own.y ≤ part.y }
    ensures { result ≡ block_of part own }
{
    let left = usize::from(part.x - own.x);
    let top = usize::from(part.y - own.y);
    Block {
        left,
        right: left + usize::from(part.width),
        top,
        bottom: top + usize::from(part.height),
    }
}

/// Lays a style over the cells of an area, as far as the buffer has them.
pub fn lay_style(style: Style, area: Rect, buf: &mut Buffer)
    ensures { IsStyled area style buf.old buf.new }
{
    let own = *buf.area();
    let part = own.intersection(area);
    if part.is_empty() {
        return;
    }
    let width = usize::from(own.width);
    style_block(buf.cells_mut(), width, block_of(part, own), style);
}

/// Sets the symbol of each cell of an area, as far as the buffer has them.
///
/// # Errors
///
/// `AllocError` if memory is refused; some cells of the area may have changed then. A symbol of at
/// most 22 bytes takes none.
pub fn fill(symbol: &str, area: Rect, buf: &mut Buffer) -> Result<(), AllocError>
    ensures { let d = put_change (λ _. with_symbol symbol.now) (λ _ _. IsShort symbol.now) in
        IsDone d area result buf.old buf.new }
{
    let own = *buf.area();
    let part = own.intersection(area);
    if part.is_empty() {
        return Ok(());
    }
    let width = usize::from(own.width);
    let alloc = buf.allocator();
    fill_block(alloc, buf.cells_mut(), width, block_of(part, own), symbol)
}

// The row of a grid that is row `y` of the screen, on which the grid's first row is row `first`; the
// first row of a block, if it lies above that, and the one after its last one, if it lies below.
fn row_among(y: usize, first: u16, block: Block) -> usize
    ensures { result ≡ row_among y first block }
{
    y.saturating_sub(usize::from(first))
        .max(block.top)
        .min(block.bottom)
}

// The rows of a block in which the level of a bar shows that is so many eighths of a cell high in an
// area: from the first on before the second one.
fn level_rows(eighths: u128, area: Rect, first: u16, block: Block) -> (usize, usize)
    ensures level { result.0 ≡ level_row eighths area first block }
    ensures full { result.1 ≡ full_row eighths area first block }
{
    let full = (eighths / 8).min(u128::from(area.height)) as u16;
    let above = area.height - full;
    let y = usize::from(area.y);
    let level_row = row_among(y + usize::from(above.saturating_sub(1)), first, block);
    (level_row, row_among(y + usize::from(above), first, block))
}

// Sets the symbols of a block, in rows of so many cells: a set's empty one above a row, a level in
// the rows from it on before another one, and the full one below.
fn fill_rows(
    alloc: Global,
    cells: &mut [Cell],
    width: usize,
    block: Block,
    level_row: usize,
    full_row: usize,
    set: &bar::Set<'_>,
    level: &str,
) -> Result<(), AllocError>
    requires inside { IsBlockIn width block cells.old }
    requires top { block.top ≤ level_row }
    requires order { level_row ≤ full_row }
    requires bottom { full_row ≤ block.bottom }
    ensures ok { let empty = set.now.empty.now in let full = set.now.full.now in
        let f = marked_row level_row full_row empty level.now full in
        OnOk result (MakesBlock width block f cells.old cells.new) }
    ensures err { OnErr result (KeepsAround width block cells.old cells.new) }
    ensures short { IsShort set.now.empty.now → IsShort level.now → IsShort set.now.full.now
        → IsOk result }
{
    let above = Block {
        bottom: level_row,
        ..block
    };
    let within = Block {
        top: level_row,
        bottom: full_row,
        ..block
    };
    let below = Block {
        top: full_row,
        ..block
    };
    fill_block(alloc, cells, width, above, set.empty)?;
    fill_block(alloc, cells, width, within, level)?;
    fill_block(alloc, cells, width, below, set.full)
}

/// Sets the symbols of a bar that is so many eighths of a cell high in each column of an area, as far
/// as the buffer has them: symbols of a set from below, and over them the set's empty one.
///
/// # Errors
///
/// `AllocError` if memory is refused; some cells of the area may have changed then. Symbols of at
/// most 22 bytes take none.
pub fn fill_levels(
    set: &bar::Set<'_>,
    eighths: u128,
    area: Rect,
    buf: &mut Buffer,
) -> Result<(), AllocError>
    ensures { let f = level_mark set.now area eighths in
        IsDone (put_change f (λ _ _. All IsShort (bar_texts set.now))) area result buf.old buf.new }
{
    let own = *buf.area();
    let part = own.intersection(area);
    if part.is_empty() {
        return Ok(());
    }
    let block = block_of(part, own);
    let (level_row, full_row) = level_rows(eighths, area, own.y, block);
    let level = level_of(set, (eighths % 8) as usize);
    let alloc = buf.allocator();
    let width = usize::from(own.width);
    let cells = buf.cells_mut();
    fill_rows(alloc, cells, width, block, level_row, full_row, set, level)
}
