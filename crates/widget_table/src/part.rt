//! What a table draws.

ghost use Rattle.std.specs.Prelude.{◌≡◌, is_some, IfOk, OnOk};
ghost use Rattle.ratatui_core.specs.Widgets.{ChangesWithin};
ghost use Rattle.rtui_drawing.specs.Drawings.{IsDone};
ghost use Rattle.widget_table.specs.Rows.{rows_area, footer_area};
ghost use Rattle.widget_table.specs.Tables.{cells_drawing, symbol_drawing, symbol_if, row_drawing, rows_drawing};
ghost use Rattle.widget_table.specs.Tables.{outer_drawing, area_if, selected_row_area, selected_column};
ghost use Rattle.widget_table.specs.Tables.{placed_rows, symbol_columns, Highlights, ShowsBody, ShowsTableParts};
ghost use Rattle.widget_table.specs.Inner.{IsTableArea};

use crate::cell::Cell;
use crate::row::{Row, below};
use crate::state::TableState;
use crate::table::Table;
use ratatui_core::buffer::Buffer;
use ratatui_core::layout::Rect;
use ratatui_core::style::Style;
use rtui_drawing::{Cut, put_style, put_text};
use std::alloc::AllocError;
use widget_boxes::highlight;

// Where a table stands, and in it its rows and its footer.
#[derive(Clone, Copy)]
pub(crate) struct Places {
    pub(crate) whole: Rect,
    pub(crate) rows: Rect,
    pub(crate) footer: Rect,
}

// Draws the cells of a row in their columns.
fn draw_cells(
    cells: &[Cell<'_>],
    columns: &[Rect],
    area: Rect,
    buf: &mut Buffer,
) -> Result<(), AllocError>
    ensures { IsDone (cells_drawing columns.now cells.now) area result buf.old buf.new }
{
    for k in 0..cells.len().min(columns.len()) {
        let column = columns[k];
        cells[k].draw(Cut::Within(column).of(area), buf)?;
    }
    Ok(())
}

// An area, if there is to be one.
fn area_if(is_some: bool, area: Rect) -> Option<Rect>
    ensures { result ≡ area_if is_some area }
{
    if is_some { Some(area) } else { None }
}

// The selected column, if there is one.
fn selected_column(selected: Option<usize>, columns: &[Rect]) -> Option<Rect>
    ensures { result ≡ selected_column selected columns.now }
{
    columns.get(selected?).copied()
}

impl<'a> Table<'a> {
    // Draws the symbol in the first columns of a row, if it is selected.
    fn draw_symbol(
        &self,
        is_selected: bool,
        columns: u16,
        style: Style,
        area: Rect,
        buf: &mut Buffer,
    ) -> Result<(), AllocError>
        ensures { let symbol = symbol_if is_selected self.now.highlight_symbol in
            IsDone (symbol_drawing symbol columns style) area result buf.old buf.new }
    {
        if !is_selected || columns == 0 {
            return Ok(());
        }
        let Some(text) = &self.highlight_symbol else {
            return Ok(());
        };
        let part = Cut::First(columns).of(area);
        put_style(style, part, buf);
        put_text(text, part, buf)
    }

    // Draws a row: its style, the symbol if it is selected, and its cells.
    #[tactic(auto, using(rtui_drawing::proofs::DrawingLemmas::drawing_steps))]
    fn draw_row(
        &self,
        row: &Row<'a>,
        is_selected: bool,
        symbol_columns: u16,
        columns: &[Rect],
        area: Rect,
        buf: &mut Buffer,
    ) -> Result<(), AllocError>
        ensures { let symbol = symbol_if is_selected self.now.highlight_symbol in
            let d = row_drawing symbol symbol_columns columns.now row.now in
            IsDone d area result buf.old buf.new }
    {
        put_style(row.style, area, buf);
        self.draw_symbol(is_selected, symbol_columns, row.style, area, buf)?;
        draw_cells(row.cells.as_slice(), columns, area, buf)
    }

    // Draws the header or the footer, if there is one, at a place that begins with its margin.
    #[tactic(auto, using(rtui_drawing::proofs::DrawingLemmas::drawing_steps))]
    fn draw_outer(
        &self,
        row: &Option<Row<'a>>,
        columns: &[Rect],
        place: Rect,
        area: Rect,
        buf: &mut Buffer,
    ) -> Result<(), AllocError>
        requires { IsTableArea place }
        ensures { IsDone (outer_drawing columns.now row.now place) area result buf.old buf.new }
    {
        match row {
            Some(row) => {
                let part = Cut::Within(row.cells_area(place)).of(area);
                self.draw_row(row, false, 0, columns, part, buf)
            }
            None => Ok(()),
        }
    }

    // Draws the rows from the state's first one on, and answers where the selected one stands.
    fn draw_rows(
        &self,
        state: TableState,
        symbol_columns: u16,
        columns: &[Rect],
        place: Rect,
        area: Rect,
        buf: &mut Buffer,
    ) -> Result<Option<Rect>, AllocError>
        requires { IsTableArea place }
        ensures done { let shown = placed_rows self.now state place in
            let d = rows_drawing self.now state.selected symbol_columns columns.now shown in
            IsDone d area result buf.old buf.new }
        ensures selected { let shown = placed_rows self.now state place in
            IfOk result (λ selected. selected ≡ selected_row_area state.selected shown) }
    {
        let rows = self.rows.as_slice();
        let mut left = place;
        let mut selected = None;
        for k in state.offset..rows.len() {
            if left.height == 0 {
                return Ok(selected);
            }
            let row = &rows[k];
            let is_selected = state.selected == Some(k);
            let stands = row.cells_area(left);
            let part = Cut::Within(stands).of(area);
            self.draw_row(row, is_selected, symbol_columns, columns, part, buf)?;
            selected = selected.or(area_if(is_selected, stands));
            left = below(left, row.height_with_margin());
        }
        Ok(selected)
    }

    // Highlights the selected row, the selected column, and where they meet.
    fn draw_highlights(
        &self,
        row: Option<Rect>,
        column: Option<Rect>,
        place: Rect,
        area: Rect,
        buf: &mut Buffer,
    )
        ensures { Highlights self.now row column place area buf.old buf.new }
    {
        let rows = Cut::Within(place).of(area);
        match (row, column) {
            (Some(row), Some(column)) => {
                let row = Cut::Within(row).of(area);
                let column = Cut::Within(column);
                highlight(self.row_highlight_style, row, buf);
                highlight(self.column_highlight_style, column.of(rows), buf);
                highlight(self.cell_highlight_style, column.of(row), buf);
            }
            (Some(row), None) => {
                highlight(self.row_highlight_style, Cut::Within(row).of(area), buf);
            }
            (None, Some(column)) => {
                highlight(
                    self.column_highlight_style,
                    Cut::Within(column).of(rows),
                    buf,
                );
            }
            (None, None) => {}
        }
    }

    // Draws the rows, and the highlights over them; nothing of a table without rows.
    fn draw_body(
        &self,
        state: TableState,
        symbol_columns: u16,
        columns: &[Rect],
        place: Rect,
        area: Rect,
        buf: &mut Buffer,
    ) -> Result<(), AllocError>
        requires { IsTableArea place }
        ensures within { ChangesWithin area buf.old buf.new }
        ensures ok { let f = ShowsBody self.now state symbol_columns columns.now place area in
            OnOk result (f buf.old buf.new) }
    {
        if self.rows.as_slice().is_empty() {
            return Ok(());
        }
        let row = self.draw_rows(state, symbol_columns, columns, place, area, buf)?;
        let column = selected_column(state.selected_column, columns);
        self.draw_highlights(row, column, place, area, buf);
        Ok(())
    }

    // Draws the header, the rows and the footer.
    pub(crate) fn draw_table(
        &self,
        state: TableState,
        marks: u16,
        columns: &[Rect],
        places: Places,
        buf: &mut Buffer,
    ) -> Result<(), AllocError>
        requires symbol { let n = symbol_columns self.now (is_some state.selected) places.whole in
            marks ≡ n }
        requires rows { places.rows ≡ rows_area self.now.header self.now.footer places.whole }
        requires footer { places.footer ≡ footer_area self.now.header self.now.footer places.whole }
        requires all { IsTableArea places.whole }
        requires between { IsTableArea places.rows }
        requires below { IsTableArea places.footer }
        ensures within { ChangesWithin places.whole buf.old buf.new }
        ensures ok { OnOk result
            (ShowsTableParts self.now state columns.now places.whole buf.old buf.new) }
    {
        let area = places.whole;
        self.draw_outer(&self.header, columns, area, area, buf)?;
        self.draw_body(state, marks, columns, places.rows, area, buf)?;
        self.draw_outer(&self.footer, columns, places.footer, area, buf)
    }
}
