//! Cells in their places, as a backend draws them.

ghost use Rattle.std.specs.Prelude.{◌≡◌, ℕ, ◌+◌, ◌-◌, ◌*◌, ◌^◌, ◌<◌, ◌≤◌, ◌==◌, min, true, false};
ghost use Rattle.std.specs.Prelude.{◌↔◌, IfOk, IfErr, IfSome, OnOk, List, [], ◌∷◌, map, IsTrue};
ghost use Rattle.std.specs.Prelude.{string_bytes, MatchOption, IsUtf8};
ghost use Rattle.std.specs.Iterator.{IsFinite, Drains};
ghost use Rattle.ratatui_core.specs.Buffer.{blank, symbol_text, width_of, update_by, Cell};
ghost use Rattle.ansi_model.specs.declared.glyph.Glyph.TheVariants.{Plain};
ghost use Rattle.ansi_model.specs.Sgr.{default_sgr, sgr_of};
ghost use Rattle.ansi_model.specs.Symbols.{printed_columns};
ghost use Rattle.ansi_model.specs.Drawing.{blanked, PenSends};
ghost use Rattle.ansi_model.specs.Places.{PlacesOn, PlacesEach};
ghost use Rattle.ratatui_ansi.specs.Cells.{is_fit, IsVacant};
ghost use Rattle.ratatui_ansi.specs.Inner.Draw.{IsGlyph, update_in, draw_bytes};
ghost use Rattle.ratatui_ansi.specs.Inner.Draw.{IsDraw, BeginsDraw, IsUncovered, KeepsDraw};
ghost use Rattle.ratatui_ansi.specs.Inner.Draw.{OnlyPens};
ghost use Rattle.ratatui_ansi.specs.Inner.Draw.{SetsSgr, PrintsSymbol, Covers, DrawsUpdates};
ghost use Rattle.ratatui_ansi.specs.Inner.Draw.{DrawsCells};
ghost use Rattle.ratatui_ansi.specs.Inner.Draw.{IsUnsendableSgr, RefusesUpdate};
ghost use Rattle.ratatui_ansi.specs.Inner.Draw.{has_place, StopsWithin, StopsDraw};

use ansi_model::{
    Glyph, Pen, Sgr, change_sgr, glyph_of, mark_symbol, only_printable, put_disputed, put_plain,
    put_spaces, put_symbol, set_sgr, tail_end,
};
use ratatui_core::backend::AsCell;
use ratatui_core::buffer::{Cell, CellDiffOption, CellWidth};
use ratatui_core::layout::Position;
use std::alloc::AllocError;

/// What a draw draws on: a screen of so many columns and rows, of a terminal that reads colours of
/// the underline or doesn't.
#[derive(Debug, Clone, Copy, PartialEq, Eq)]
pub struct Target {
    pub width: u16,
    pub height: u16,
    pub has_underline_colors: bool,
}

/// What is known of the terminal within a draw, beside its columns.
#[derive(Debug, Clone, Copy, PartialEq, Eq)]
pub struct DrawState {
    pub pen: Pen,
    /// Where the screen's cursor is.
    pub cursor: Position,
    /// How many items were drawn, as far as the count goes.
    pub written: u64,
}

impl DrawState {
    // Counts an item, as far as the count goes.
    fn count(&mut self)
        ensures { self.new ≡ record self.old { written = min (self.old.written + 1) (2 ^ 64 - 1) } }
    {
        self.written = self.written.saturating_add(1);
    }
}

/// A draw under way.
#[derive(Drop)]
pub struct Draw<'a, 'b> {
    /// What is sent is appended to it.
    pub out: &'a mut String,
    /// A flag for each column of the screen, row by row: whether it is a continuation column.
    pub continuations: &'b mut [bool],
    pub target: Target,
    pub state: DrawState,
}

/// Why a cell isn't drawn.
#[derive(Debug, Clone, Copy, PartialEq, Eq)]
pub enum CellError {
    /// Memory was refused.
    Memory,
    /// The symbol in this place isn't printed as one, or not in the columns that its cell takes, or
    /// not within its row.
    Symbol(Position),
    /// The rendition in this place can't be sent.
    Style(Position),
    /// The cell would cut the symbol that covers this place, of which the first column stays.
    Cut(Position),
}

impl From<AllocError> for CellError {
    ghost use Rattle.std.specs.Prelude.{◌≡◌};
    ghost use Rattle.ratatui_ansi.specs.declared.draw.CellError.TheVariants.{Memory};

    ghost from_gives = { λ _ refusal. refusal ≡ Memory };

    fn from(_: AllocError) -> CellError {
        CellError::Memory
    }
}

// Whether a cell takes just the columns in which its symbol is printed.
fn takes(cell: &Cell, columns: u16) -> bool
    requires columns { columns ≡ printed_columns (symbol_text cell.now.symbol) }
    requires utf8 { IsUtf8 (symbol_text cell.now.symbol) }
    ensures { result ≡ (columns == width_of cell.now) }
{
    match cell.diff_option {
        CellDiffOption::ForcedWidth(_) => columns == cell.cell_width(),
        CellDiffOption::None | CellDiffOption::Skip | CellDiffOption::AlwaysUpdate => true,
    }
}

// The printable ASCII character that is all of a cell's symbol, if the cell's width isn't forced.
fn printable_of(cell: &Cell) -> Option<char>
    ensures { IfSome result (λ c. (room : ℕ) → 0 < room → IsGlyph room cell.now (Plain c)) }
{
    match cell.diff_option {
        CellDiffOption::ForcedWidth(_) => None,
        CellDiffOption::None | CellDiffOption::Skip | CellDiffOption::AlwaysUpdate => {
            only_printable(cell.symbol())
        }
    }
}

// A cell's symbol, as it is printed in some columns: none if it isn't, if the cell takes others, or
// more than there are.
fn glyph_in(room: u16, cell: &Cell) -> Option<Glyph>
    ensures { MatchOption result (is_fit room cell.now ≡ false) (IsGlyph room cell.now) }
{
    let glyph = glyph_of(cell.symbol())?;
    let columns = glyph.columns();
    if columns == 0 || room < columns || !takes(cell, columns) {
        return None;
    }
    Some(glyph)
}

// Whether a text is one blank.
fn is_blank(symbol: &str) -> bool
    ensures { IsTrue result ↔ (symbol.now ≡ blank) }
{
    symbol == " "
}

// Whether a cell takes one column and looks like an empty one; apart, as few cells are asked.
#[inline(never)]
fn is_vacant(cell: &Cell) -> bool
    ensures { IsTrue result ↔ IsVacant cell.now }
{
    is_blank(cell.symbol()) && Sgr::DEFAULT.is_of(cell) && cell.cell_width() == 1
}

// Prints blanks in the columns of a row from `x` up to `end`, at least one.
#[inline(never)]
fn put_blanks(out: &mut String, pen: &mut Pen, x: u16, y: u16, end: u16) -> Result<(), AllocError>
    requires { x < end }
    ensures paints { OnOk result ((w h : ℕ) → end ≤ w → y < h → PenSends w h (string_bytes out.old)
        pen.old (blanked x y (end - x)) (string_bytes out.new) pen.new) }
    ensures sgr { OnOk result (pen.new.sgr ≡ default_sgr) }
    ensures places { OnOk result
        (PlacesOn (string_bytes out.old) pen.old (string_bytes out.new) pen.new) }
{
    change_sgr(out, pen, &Sgr::DEFAULT)?;
    put_spaces(out, pen, x, y, end)
}

impl Draw<'_, '_> {
    // Sets the flags of a symbol of so many columns, and empties what is left of another one of
    // which it covers the first part. Answers the column after all these.
    #[inline(always)]
    fn cover(&mut self, place: Position, columns: u16) -> Result<u16, AllocError>
        requires some { 0 < columns }
        requires fits { place.x + columns ≤ self.old.target.width }
        requires uncovered { IsUncovered self.old place }
        ensures keeps { KeepsDraw self.old self.new }
        ensures covers { IfOk result (λ end. Covers self.old place columns end self.new) }
    {
        let Position { x, y } = place;
        let width = self.target.width;
        let start = usize::from(y) * usize::from(width);
        let past_it = x + columns;
        let flags = &mut *self.continuations;
        let end = tail_end(flags, start, past_it, width);
        if x + 1 < end {
            if past_it < end {
                put_blanks(self.out, &mut self.state.pen, past_it, y, end)?;
            }
            mark_symbol(
                flags,
                start + usize::from(x),
                start + usize::from(past_it),
                start + usize::from(end),
            );
        }
        Ok(end)
    }

    // Prints a cell's symbol in its place, in the pen's rendition.
    #[inline(always)]
    fn put(&mut self, place: Position, cell: &Cell, glyph: Glyph) -> Result<(), AllocError>
        requires uncovered { IsUncovered self.old place }
        requires glyph { IsGlyph (self.old.target.width - place.x) cell.now glyph }
        ensures keeps { OnlyPens self.old self.new }
        ensures prints { OnOk result
            (PrintsSymbol self.old place (symbol_text cell.now.symbol) self.new) }
    {
        let Position { x, y } = place;
        let width = self.target.width;
        let pen = &mut self.state.pen;
        match glyph {
            Glyph::Plain(c) => put_plain(self.out, pen, x, y, c),
            Glyph::Whole(_) => put_symbol(self.out, pen, x, y, cell.symbol()),
            Glyph::Disputed(columns) => {
                put_disputed(self.out, pen, place, width, cell.symbol(), columns)
            }
        }
    }

    // Sets the rendition of the cell in a place; apart, so that the path of a cell in the pen's
    // rendition stays short.
    #[inline(never)]
    fn set_sgr_of(&mut self, place: Position, cell: &Cell) -> Result<(), CellError>
        ensures keeps { OnlyPens self.old self.new }
        ensures sets { OnOk result (SetsSgr self.old (sgr_of cell.now) self.new) }
        ensures refused { IfErr result (IsUnsendableSgr self.old place (sgr_of cell.now)) }
    {
        let sgr = Sgr::of(cell);
        if !sgr.is_sendable_by(self.target.has_underline_colors) {
            return Err(CellError::Style(place));
        }
        set_sgr(self.out, &mut self.state.pen, &sgr)?;
        Ok(())
    }

    // Sets the rendition of the cell in a place, if the pen has another.
    #[inline(always)]
    fn take_sgr(&mut self, place: Position, cell: &Cell) -> Result<(), CellError>
        requires { IsDraw self.old }
        ensures keeps { OnlyPens self.old self.new }
        ensures sets { OnOk result (SetsSgr self.old (sgr_of cell.now) self.new) }
        ensures refused { IfErr result (IsUnsendableSgr self.old place (sgr_of cell.now)) }
    {
        if self.state.pen.sgr.is_of(cell) {
            return Ok(());
        }
        self.set_sgr_of(place, cell)
    }

    // Draws a cell in its place, if no symbol covers it from the left, and counts it.
    #[inline(always)]
    fn draw_glyph(&mut self, place: Position, cell: &Cell, glyph: Glyph) -> Result<(), CellError>
        requires draw { IsDraw self.old }
        requires uncovered { IsUncovered self.old place }
        requires glyph { IsGlyph (self.old.target.width - place.x) cell.now glyph }
        ensures keeps { KeepsDraw self.old self.new }
        ensures drawn { OnOk result
            (DrawsUpdates self.old (update_in place cell.now ∷ []) self.new) }
        ensures refused { IfErr result (IsUnsendableSgr self.old place (sgr_of cell.now)) }
    {
        self.take_sgr(place, cell)?;
        self.put(place, cell, glyph)?;
        let end = self.cover(place, glyph.columns())?;
        self.state.cursor = Position {
            x: end.min(self.target.width - 1),
            y: place.y,
        };
        self.state.count();
        Ok(())
    }

    /// Draws a cell in its place, and counts it. Off the screen nothing is sent, and neither is a
    /// vacant cell after the first column of a symbol, which would tear the symbol.
    ///
    /// # Conditions
    ///
    /// There is a flag for each column of the screen, and the rendition that the pen has can be
    /// sent.
    ///
    /// # Errors
    ///
    /// A refusal with the cell's place, or `Memory`:
    ///
    /// - `Symbol`: terminals don't print the symbol as one in just the columns of the cell, or not
    ///   within its row.
    /// - `Style`: the rendition can't be sent.
    /// - `Cut`: the cell would cut a symbol of which the first column stays.
    /// - `Memory`: memory was refused.
    pub fn draw_cell(&mut self, place: Position, cell: &Cell) -> Result<(), CellError>
        requires { IsDraw self.old }
        ensures keeps { KeepsDraw self.old self.new }
        ensures drawn { OnOk result
            (DrawsUpdates self.old (update_in place cell.now ∷ []) self.new) }
        ensures refused { IfErr result (RefusesUpdate self.old (update_in place cell.now)) }
    {
        let Target { width, height, .. } = self.target;
        let Position { x, y } = place;
        if x >= width || y >= height {
            self.state.count();
            return Ok(());
        }
        if self.continuations[usize::from(y) * usize::from(width) + usize::from(x)] {
            if is_vacant(cell) {
                self.state.count();
                return Ok(());
            }
            return Err(CellError::Cut(place));
        }
        // Most symbols are printable ASCII: their path stands alone, so that it stays short.
        if let Some(c) = printable_of(cell) {
            return self.draw_glyph(place, cell, Glyph::Plain(c));
        }
        let Some(glyph) = glyph_in(width - x, cell) else {
            return Err(CellError::Symbol(place));
        };
        self.draw_glyph(place, cell, glyph)
    }

    // Draws cells in order.
    fn draw_all<C: AsCell, I: Iterator<Item = (u16, u16, C)>>(
        &mut self,
        content: I,
    ) -> Result<(), CellError>
        requires draw { IsDraw self.old }
        requires can { I.can_next content }
        requires finite { IsFinite (I.remaining content) }
        ensures keeps { KeepsDraw self.old self.new }
        ensures drawn { OnOk result ((items : List (ℕ × ℕ × C))
            × Drains I.next_gives content items
            × DrawsUpdates self.old (map (update_by C.cell) items) self.new) }
        ensures refused { IfErr result
            (StopsWithin I.next_gives content (update_by C.cell) self.old) }
    {
        for (x, y, cell) in content {
            self.draw_cell(Position { x, y }, cell.as_cell())?;
        }
        Ok(())
    }

    /// Draws cells in order. The terminal awaits text and is ready, and is so again. Answers where
    /// the cursor is then, and how many items were drawn, as far as the count goes; if ambiguous
    /// characters may be wide, each but ASCII is followed by a move.
    ///
    /// # Conditions
    ///
    /// There is a flag for each column of the screen, and the pen has the terminal's own rendition
    /// and knows no place. The iterator comes to an end, and `next` may be called on it until then.
    ///
    /// # Errors
    ///
    /// Those of `draw_cell`, for the first cell that is refused. What was appended and the flags
    /// are to be dropped then.
    pub fn draw_cells<C: AsCell, I: Iterator<Item = (u16, u16, C)>>(
        &mut self,
        content: I,
    ) -> Result<(Position, u64), CellError>
        requires begins { BeginsDraw self.old }
        requires can { I.can_next content }
        requires finite { IsFinite (I.remaining content) }
        ensures keeps { KeepsDraw self.old self.new }
        ensures drawn { IfOk result (λ after. (items : List (ℕ × ℕ × C))
            × Drains I.next_gives content items
            × DrawsCells self.old (map (update_by C.cell) items) after.0 after.1 self.new) }
        ensures placed { OnOk result (self.old.state.pen.ambiguous_is_wide ≡ true
            → PlacesEach (draw_bytes self.old) (draw_bytes self.new)) }
        ensures refused { IfErr result (λ refusal. IsTrue (has_place refusal)
            → StopsDraw I.next_gives content (update_by C.cell) self.old.target.width
            self.old.target.height self.old.target.has_underline_colors self.old.state.cursor
            self.old.state.written self.old.continuations.now refusal) }
    {
        self.draw_all(content)?;
        change_sgr(self.out, &mut self.state.pen, &Sgr::DEFAULT)?;
        Ok((self.state.cursor, self.state.written))
    }
}
