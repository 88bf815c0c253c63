//! A table of rows in columns.

ghost use Rattle.std.specs.Prelude.{◌≡◌, ◌≤◌, ◌<◌, ◌+◌, Some, OnOk, OnErr, IfOk, is_some, true, List};
ghost use Rattle.std.specs.Iterator.{IsFinite, Drains};
ghost use Rattle.std.specs.Cmp.Lexicographic.{pointwise};
ghost use Rattle.ratatui_core.specs.Layout.{inner, IsSplit};
ghost use Rattle.ratatui_core.specs.Widgets.{ChangesWithin};
ghost use Rattle.widget_boxes.specs.Boxes.{IsBoxArea};
ghost use Rattle.widget_table.specs.Rows.{height_if, rows_area};
ghost use Rattle.widget_table.specs.Inner.{IsTableArea};
ghost use Rattle.widget_table.specs.SettledTables.{SettlesTable, settled_table};
ghost use Rattle.widget_table.specs.Tables.{IsNewTable, column_count, same_widths, layout_of, symbol_columns};
ghost use Rattle.widget_table.specs.Tables.{AreColumns, IsNextState, ShowsTable, cells_if, within_count};
ghost use Rattle.widget_table.specs.declared.row.Row.{Row as RowData};

use crate::part::Places;
use crate::row::{Row, above, below};
use crate::state::TableState;
use crate::view::offset_for;
use ratatui_core::buffer::Buffer;
use ratatui_core::layout::{Constraint, Flex, Layout, Rect, Spacing, Split};
use ratatui_core::style::Style;
use ratatui_core::text::Text;
use ratatui_core::widgets::StatefulWidget;
use std::alloc::{AllocError, Global};
use widget_boxes::{Block, cloned_block, inner_if, render_frame};
use widget_list::HighlightSpacing;

/// Rows of cells in columns, with a header and a footer, of which a row and a column may be
/// selected: those that a state says.
///
/// ```
/// let table = Table::new(rows, widths).header(names).row_highlight_style(Style::new().bg(Color::Blue));
/// StatefulWidget::render(&table, area, buf, &mut state)?;
/// ```
#[derive(Debug, PartialEq, Eq, Drop)]
pub struct Table<'a> {
    pub(crate) rows: Vec<Row<'a>>,
    pub(crate) header: Option<Row<'a>>,
    pub(crate) footer: Option<Row<'a>>,
    widths: Vec<Constraint>,
    column_spacing: u16,
    block: Option<Block<'a>>,
    pub(crate) style: Style,
    pub(crate) row_highlight_style: Style,
    pub(crate) column_highlight_style: Style,
    pub(crate) cell_highlight_style: Style,
    pub(crate) highlight_symbol: Option<Text<'a>>,
    highlight_spacing: HighlightSpacing,
    flex: Flex,
}

impl<'a> Table<'a> {
    /// Makes a table of rows in columns of these widths, a column apart; without widths its columns
    /// are all the same. It has no header, footer, box, styles and highlight symbol. Takes no
    /// memory.
    pub fn new(rows: Vec<Row<'a>>, widths: Vec<Constraint>) -> Table<'a>
        ensures { IsNewTable rows.entry.items widths.items result }
    {
        Table {
            rows,
            header: None,
            footer: None,
            widths,
            column_spacing: 1,
            block: None,
            style: Style::new(),
            row_highlight_style: Style::new(),
            column_highlight_style: Style::new(),
            cell_highlight_style: Style::new(),
            highlight_symbol: None,
            highlight_spacing: HighlightSpacing::WhenSelected,
            flex: Flex::Start,
        }
    }

    /// Makes a table of the rows that an iterator gives, in columns of these widths, a column
    /// apart; without widths its columns are all the same.
    ///
    /// ```
    /// let rows = [Row::raw(alloc, &["init", "0%"])?, Row::raw(alloc, &["sshd", "1%"])?];
    /// let table = Table::try_from_iter(alloc, rows, &[Constraint::Fill(1), Constraint::Length(4)])?;
    /// ```
    ///
    /// # Conditions
    ///
    /// The iterator comes to an end, and `next` may be called on it until then.
    ///
    /// # Errors
    ///
    /// `AllocError` if memory is refused.
    pub fn try_from_iter<I>(
        alloc: Global,
        rows: I,
        widths: &[Constraint],
    ) -> Result<Table<'a>, AllocError>
    where
        I: IntoIterator<Item = Row<'a>>,
        requires { (it : I.IntoIter) → I.into_iter_gives rows it
            → I.IntoIter.can_next it × IsFinite (I.IntoIter.remaining it) }
        ensures { IfOk result (λ made. (it : I.IntoIter) × (items : List RowData)
            × I.into_iter_gives rows it × Drains I.IntoIter.next_gives it items
            × IsNewTable items widths.now made) }
    {
        let rows = Vec::from_iter(alloc, rows)?;
        Ok(Table::new(rows, widths.to_vec(alloc)?))
    }

    /// Sets the rows of the table.
    pub fn rows(mut self, rows: Vec<Row<'a>>) -> Table<'a>
        ensures { result ≡ record self.entry { rows = rows.entry } }
    {
        self.rows = rows;
        self
    }

    /// Puts a row above the others, which stays in view.
    pub fn header(mut self, header: Row<'a>) -> Table<'a>
        ensures { result ≡ record self.entry { header = Some header.entry } }
    {
        self.header = Some(header);
        self
    }

    /// Puts a row below the others, which stays in view.
    pub fn footer(mut self, footer: Row<'a>) -> Table<'a>
        ensures { result ≡ record self.entry { footer = Some footer.entry } }
    {
        self.footer = Some(footer);
        self
    }

    /// Sets the widths of the columns; without any they are all the same.
    pub fn widths(mut self, widths: Vec<Constraint>) -> Table<'a>
        ensures { result ≡ record self.entry { widths = widths } }
    {
        self.widths = widths;
        self
    }

    /// Sets how many columns of the screen are between each two of the table's own.
    pub fn column_spacing(mut self, spacing: u16) -> Table<'a>
        ensures { result ≡ record self.entry { column_spacing = spacing } }
    {
        self.column_spacing = spacing;
        self
    }

    /// Puts the table in a box.
    pub fn block(mut self, block: Block<'a>) -> Table<'a>
        ensures { result ≡ record self.entry { block = Some block.entry } }
    {
        self.block = Some(block);
        self
    }

    /// Sets the style of the table.
    pub fn style(mut self, style: Style) -> Table<'a>
        ensures { result ≡ record self.entry { style = style } }
    {
        self.style = style;
        self
    }

    /// Sets the style of the selected row. A wide character's second column isn't styled: it shows
    /// that character, in its own style. So it is of the styles below.
    pub fn row_highlight_style(mut self, style: Style) -> Table<'a>
        ensures { result ≡ record self.entry { row_highlight_style = style } }
    {
        self.row_highlight_style = style;
        self
    }

    /// Sets the style of the selected column, over that of the row, where the table's rows stand;
    /// without rows nothing is highlighted.
    pub fn column_highlight_style(mut self, style: Style) -> Table<'a>
        ensures { result ≡ record self.entry { column_highlight_style = style } }
    {
        self.column_highlight_style = style;
        self
    }

    /// Sets the style where the selected row and the selected column meet, over theirs.
    pub fn cell_highlight_style(mut self, style: Style) -> Table<'a>
        ensures { result ≡ record self.entry { cell_highlight_style = style } }
    {
        self.cell_highlight_style = style;
        self
    }

    /// Sets the symbol before the selected row.
    pub fn highlight_symbol(mut self, symbol: Text<'a>) -> Table<'a>
        ensures { result ≡ record self.entry { highlight_symbol = Some symbol.entry } }
    {
        self.highlight_symbol = Some(symbol);
        self
    }

    /// Sets when the columns of the symbol stay free.
    pub fn highlight_spacing(mut self, spacing: HighlightSpacing) -> Table<'a>
        ensures { result ≡ record self.entry { highlight_spacing = spacing } }
    {
        self.highlight_spacing = spacing;
        self
    }

    /// Sets the place of the columns of the screen that the table's own leave.
    pub fn flex(mut self, flex: Flex) -> Table<'a>
        ensures { result ≡ record self.entry { flex = flex } }
    {
        self.flex = flex;
        self
    }

    /// Makes an equal table.
    ///
    /// # Errors
    ///
    /// `AllocError` if memory is refused.
    pub fn clone(&self, alloc: Global) -> Result<Table<'a>, AllocError>
        ensures { let same = ⟦<Table<'a> as PartialEq>⟧.eq in
            IfOk result (λ table. same self.now table ≡ true) }
    {
        Ok(Table {
            rows: cloned_rows(alloc, self.rows.as_slice())?,
            header: cloned_row(alloc, &self.header)?,
            footer: cloned_row(alloc, &self.footer)?,
            widths: Vec::from_slice(alloc, self.widths.as_slice())?,
            column_spacing: self.column_spacing,
            block: cloned_block(alloc, &self.block)?,
            style: self.style,
            row_highlight_style: self.row_highlight_style,
            column_highlight_style: self.column_highlight_style,
            cell_highlight_style: self.cell_highlight_style,
            highlight_symbol: cloned_text(alloc, &self.highlight_symbol)?,
            highlight_spacing: self.highlight_spacing,
            flex: self.flex,
        })
    }

    /// Brings a state up to date as a rendering over an area does, and draws nothing: the selection
    /// is at most the last row and the last column, and the first row such that the selected one is
    /// in view. The area is the part that a buffer has of what the table is rendered over; without
    /// cells inside the box the state stays. It takes no memory.
    pub fn settle(&self, area: Rect, state: &mut TableState)
        ensures leaves { SettlesTable self.now area state.old state.new }
        ensures value { state.new ≡ settled_table self.now area state.old }
    {
        let inner = inner_if(&self.block, area);
        if !inner.is_empty() {
            *state = self.next_state(*state, self.rows_height(inner));
        }
    }

    // How many rows of an area the header and the footer leave.
    fn rows_height(&self, area: Rect) -> u16
        ensures { result ≡ (rows_area self.now.header self.now.footer area).height }
    {
        let left = usize::from(area.height).saturating_sub(height_if(&self.header));
        left.saturating_sub(height_if(&self.footer)) as u16
    }

    // How many columns it has: as many as the row, header or footer of most cells has cells.
    fn column_count(&self) -> usize
        ensures { result ≡ column_count self.now }
    {
        let mut count = cells_if(&self.header).max(cells_if(&self.footer));
        for row in self.rows.as_slice() {
            count = row.cells.len().max(count);
        }
        count
    }

    // The number of a column, but at most the last one; the rows are counted for a column alone.
    fn column_within(&self, number: Option<usize>) -> Option<usize>
        ensures { result ≡ within_count (column_count self.now) number }
    {
        if number.is_none() {
            return None;
        }
        within_count(self.column_count(), number)
    }

    // How many columns of the screen stay free for the symbol.
    fn symbol_columns(&self, is_selected: bool, area: Rect) -> u16
        ensures value { result ≡ symbol_columns self.now is_selected area }
        ensures within { result ≤ area.width }
    {
        let has_columns = match self.highlight_spacing {
            HighlightSpacing::Always => true,
            HighlightSpacing::WhenSelected => is_selected,
            HighlightSpacing::Never => false,
        };
        match &self.highlight_symbol {
            Some(symbol) if has_columns => symbol.width().min(usize::from(area.width)) as u16,
            _ => 0,
        }
    }

    // Where its columns stand, beside those of the symbol.
    fn columns(
        &self,
        alloc: Global,
        area: Rect,
        symbol_columns: u16,
    ) -> Result<Vec<Rect>, AllocError>
        requires area { IsTableArea area }
        requires fits { symbol_columns ≤ area.width }
        ensures { IfOk result
            (λ columns. AreColumns self.now symbol_columns area columns.items) }
    {
        let left = Rect {
            x: area.x + symbol_columns,
            width: area.width - symbol_columns,
            ..area
        };
        if !self.widths.as_slice().is_empty() {
            return self.cut(alloc, self.widths.as_slice(), left);
        }
        let widths = same_widths(alloc, self.column_count(), area.width)?;
        self.cut(alloc, widths.as_slice(), left)
    }

    // An area cut into columns of these widths.
    fn cut(&self, alloc: Global, widths: &[Constraint], area: Rect) -> Result<Vec<Rect>, AllocError>
        ensures { let l = layout_of self.now widths.now in
            IfOk result (λ columns. IsSplit l (inner area l.margin) columns.items) }
    {
        let layout = Layout::horizontal(alloc, widths)?
            .flex(self.flex)
            .spacing(Spacing::Space(self.column_spacing));
        layout.split(alloc, area)
    }

    // The state after the table is shown, with so many rows of the screen for its rows.
    fn next_state(&self, state: TableState, height: u16) -> TableState
        ensures { IsNextState self.now height state result }
    {
        let rows = self.rows.as_slice();
        let selected = within_count(rows.len(), state.selected);
        TableState {
            offset: offset_for(rows, selected, state.offset, usize::from(height)),
            selected,
            selected_column: self.column_within(state.selected_column),
        }
    }

    // Renders the header, the rows and the footer, and brings the state up to date.
    fn render_table(
        &self,
        inner: Rect,
        buf: &mut Buffer,
        state: &mut TableState,
    ) -> Result<(), AllocError>
        requires { IsBoxArea inner }
        ensures within { ChangesWithin inner buf.old buf.new }
        ensures ok { OnOk result
            (ShowsTable self.now state.old state.new inner buf.old buf.new) }
        ensures left { OnErr result (state.new ≡ state.old) }
    {
        let left = below(inner, height_if(&self.header));
        let area = above(left, height_if(&self.footer));
        let next = self.next_state(*state, area.height);
        let symbol_columns = self.symbol_columns(next.selected.is_some(), inner);
        let columns = self.columns(buf.allocator(), inner, symbol_columns)?;
        let places = Places {
            whole: inner,
            rows: area,
            footer: below(left, usize::from(area.height)),
        };
        self.draw_table(next, symbol_columns, columns.as_slice(), places, buf)?;
        *state = next;
        Ok(())
    }
}

// Equal rows.
fn cloned_rows<'a>(alloc: Global, rows: &[Row<'a>]) -> Result<Vec<Row<'a>>, AllocError>
    ensures { let same = ⟦<Row<'a> as PartialEq>⟧.eq in
        IfOk result (λ cloned. pointwise same rows.now cloned.items ≡ true) }
{
    let mut cloned = Vec::with_capacity(alloc, rows.len())?;
    for row in rows {
        cloned.push(row.clone(alloc)?)?;
    }
    Ok(cloned)
}

// An equal row, if there is one.
fn cloned_row<'a>(alloc: Global, row: &Option<Row<'a>>) -> Result<Option<Row<'a>>, AllocError>
    ensures { let same = ⟦<Option<Row<'a>> as PartialEq>⟧.eq in
        IfOk result (λ cloned. same row.now cloned ≡ true) }
{
    match row {
        Some(row) => Ok(Some(row.clone(alloc)?)),
        None => Ok(None),
    }
}

// An equal text, if there is one.
fn cloned_text<'a>(alloc: Global, text: &Option<Text<'a>>) -> Result<Option<Text<'a>>, AllocError>
    ensures { IfOk result (λ cloned. cloned ≡ text.now) }
{
    match text {
        Some(text) => Ok(Some(text.clone(alloc)?)),
        None => Ok(None),
    }
}

// How many cells the header or the footer has, if there is one.
fn cells_if(row: &Option<Row<'_>>) -> usize
    ensures { result ≡ cells_if row.now }
{
    match row {
        Some(row) => row.cells.len(),
        None => 0,
    }
}

// How many rows of the screen the header or the footer takes, if there is one.
fn height_if(row: &Option<Row<'_>>) -> usize
    ensures { result ≡ height_if row.now }
{
    match row {
        Some(row) => row.height_with_margin(),
        None => 0,
    }
}

// A number, but at most the last one of so many; none of none.
fn within_count(count: usize, number: Option<usize>) -> Option<usize>
    ensures { result ≡ within_count count number }
{
    if count == 0 {
        return None;
    }
    match number {
        Some(number) => Some(number.min(count - 1)),
        None => None,
    }
}

// The same width for each of so many columns, of so many columns of the screen.
fn same_widths(alloc: Global, count: usize, width: u16) -> Result<Vec<Constraint>, AllocError>
    ensures { IfOk result (λ widths. widths.items ≡ same_widths count width) }
{
    let each = (usize::from(width) / count.max(1)) as u16;
    let mut widths = Vec::new(alloc);
    for _ in 0..count {
        widths.push(Constraint::Length(each))?;
    }
    Ok(widths)
}

/// Over the area, as far as the buffer has it: the style, the box, and inside the header, the rows
/// from the state's first one on, as far as they fit, and the footer. The state's selection is at
/// most the last row and the last column, and its first row such that the selected one is in view.
impl<'b, 'a> StatefulWidget for &'b Table<'a> {
    type State = TableState;

    ghost use Rattle.widget_table.specs.Tables.{RendersTable};

    ghost renders = { λ table. RendersTable table.now };

    ghost leaves = { λ _ s t _ _ _. t ≡ s };

    fn render(
        self,
        area: Rect,
        buf: &mut Buffer,
        state: &mut TableState,
    ) -> Result<(), AllocError> {
        let Some(inner) = render_frame(self.style, &self.block, area, buf)? else {
            return Ok(());
        };
        self.render_table(inner, buf, state)
    }
}

impl<'a> StatefulWidget for Table<'a> {
    type State = TableState;

    ghost use Rattle.widget_table.specs.Tables.{RendersTable};

    ghost renders = { RendersTable };

    ghost leaves = { λ _ s t _ _ _. t ≡ s };

    fn render(
        self,
        area: Rect,
        buf: &mut Buffer,
        state: &mut TableState,
    ) -> Result<(), AllocError> {
        StatefulWidget::render(&self, area, buf, state)
    }
}
