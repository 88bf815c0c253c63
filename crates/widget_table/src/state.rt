//! What a table keeps from one rendering to the next.

ghost use Rattle.std.specs.Prelude.{◌≡◌, ◌-◌, ◌+◌, min, unwrap_or, Some, None, Option, option_map, ℕ};
ghost use Rattle.std.specs.Borrow.{sem};
ghost use Rattle.widget_list.specs.States.{next_of, previous_of};
ghost use Rattle.widget_table.specs.TableStates.{selecting_row, selecting_cell, cell_of_state};
ghost use Rattle.widget_table.specs.TableStates.{LendsRowOffset, LendsSelectedRow, LendsSelectedColumn};

/// Which row and which column are selected, and which row is the first one shown.
#[derive(Debug, Default, Clone, Copy, PartialEq, Eq, Hash)]
pub struct TableState {
    pub(crate) offset: usize,
    pub(crate) selected: Option<usize>,
    pub(crate) selected_column: Option<usize>,
}

impl TableState {
    /// Makes a state that begins with the first row, and in which nothing is selected.
    pub fn new() -> TableState
        ensures { result ≡ record { offset = 0; selected = None; selected_column = None } }
    {
        TableState {
            offset: 0,
            selected: None,
            selected_column: None,
        }
    }

    /// Sets the row that the state begins with.
    pub fn with_offset(mut self, offset: usize) -> TableState
        ensures { result ≡ record self { offset = offset } }
    {
        self.offset = offset;
        self
    }

    /// Sets the selected row.
    pub fn with_selected(mut self, selected: Option<usize>) -> TableState
        ensures { result ≡ record self { selected = selected } }
    {
        self.selected = selected;
        self
    }

    /// Sets the selected column.
    pub fn with_selected_column(mut self, selected: Option<usize>) -> TableState
        ensures { result ≡ record self { selected_column = selected } }
    {
        self.selected_column = selected;
        self
    }

    /// Sets the selected row and column to those of this cell, or to no row and no column.
    pub fn with_selected_cell(mut self, selected: Option<(usize, usize)>) -> TableState
        ensures { let row = option_map (λ cell. cell.0) selected in
            let column = option_map (λ cell. cell.1) selected in
            result ≡ record self { selected = row; selected_column = column } }
    {
        match selected {
            Some((row, column)) => {
                self.selected = Some(row);
                self.selected_column = Some(column);
            }
            None => {
                self.selected = None;
                self.selected_column = None;
            }
        }
        self
    }

    /// Returns the first row that is shown.
    pub fn offset(&self) -> usize
        ensures { result ≡ self.now.offset }
    {
        self.offset
    }

    /// Returns the first row that is shown, to be written.
    pub fn offset_mut(&mut self) -> &mut usize
        ensures* writes_back { sem 𝓛 (LendsRowOffset self.entry result) }
        ensures value { result.now ≡ self.old.offset }
    {
        &mut self.offset
    }

    /// Returns the selected row.
    pub fn selected(&self) -> Option<usize>
        ensures { result ≡ self.now.selected }
    {
        self.selected
    }

    /// Returns the selected row, to be written. The first row that is shown stays, also if none is
    /// selected.
    pub fn selected_mut(&mut self) -> &mut Option<usize>
        ensures* writes_back { sem 𝓛 (LendsSelectedRow self.entry result) }
        ensures value { result.now ≡ self.old.selected }
    {
        &mut self.selected
    }

    /// Returns the selected column.
    pub fn selected_column(&self) -> Option<usize>
        ensures { result ≡ self.now.selected_column }
    {
        self.selected_column
    }

    /// Returns the selected column, to be written.
    pub fn selected_column_mut(&mut self) -> &mut Option<usize>
        ensures* writes_back { sem 𝓛 (LendsSelectedColumn self.entry result) }
        ensures value { result.now ≡ self.old.selected_column }
    {
        &mut self.selected_column
    }

    /// Returns the selected row and column, if both are.
    pub fn selected_cell(&self) -> Option<(usize, usize)>
        ensures { result ≡ cell_of_state self.now }
    {
        match (self.selected, self.selected_column) {
            (Some(row), Some(column)) => Some((row, column)),
            _ => None,
        }
    }

    /// Selects a row, or none: then the table begins with its first one again.
    pub fn select(&mut self, index: Option<usize>)
        ensures { self.new ≡ selecting_row index self.old }
    {
        self.selected = index;
        if index.is_none() {
            self.offset = 0;
        }
    }

    /// Selects a column, or none.
    pub fn select_column(&mut self, index: Option<usize>)
        ensures { self.new ≡ record self.old { selected_column = index } }
    {
        self.selected_column = index;
    }

    /// Selects a row and a column, or neither: then the table begins with its first row again.
    pub fn select_cell(&mut self, indexes: Option<(usize, usize)>)
        ensures { self.new ≡ selecting_cell indexes self.old }
    {
        match indexes {
            Some((row, column)) => {
                self.selected = Some(row);
                self.selected_column = Some(column);
            }
            None => *self = TableState::new(),
        }
    }

    /// Selects the next row, or the first one.
    pub fn select_next(&mut self)
        ensures { self.new ≡ selecting_row (Some (next_of self.old.selected)) self.old }
    {
        let next = match self.selected {
            Some(index) => index.saturating_add(1),
            None => 0,
        };
        self.select(Some(next));
    }

    /// Selects the row before, or the last one: a rendering makes of too large a number the last
    /// row's.
    pub fn select_previous(&mut self)
        ensures { self.new ≡ selecting_row (Some (previous_of self.old.selected)) self.old }
    {
        let previous = match self.selected {
            Some(index) => index.saturating_sub(1),
            None => usize::MAX,
        };
        self.select(Some(previous));
    }

    /// Selects the first row.
    pub fn select_first(&mut self)
        ensures { self.new ≡ selecting_row (Some 0) self.old }
    {
        self.select(Some(0));
    }

    /// Selects the last row: a rendering makes of too large a number the last row's.
    pub fn select_last(&mut self)
        ensures { self.new ≡ selecting_row (Some usize.MAX) self.old }
    {
        self.select(Some(usize::MAX));
    }

    /// Selects the row so many further down.
    pub fn scroll_down_by(&mut self, amount: u16)
        ensures { let at = min (unwrap_or self.old.selected 0 + amount) usize.MAX in
            self.new ≡ selecting_row (Some at) self.old }
    {
        let selected = self.selected.unwrap_or(0);
        self.select(Some(selected.saturating_add(usize::from(amount))));
    }

    /// Selects the row so many further up.
    pub fn scroll_up_by(&mut self, amount: u16)
        ensures { let at = unwrap_or self.old.selected 0 - amount in
            self.new ≡ selecting_row (Some at) self.old }
    {
        let selected = self.selected.unwrap_or(0);
        self.select(Some(selected.saturating_sub(usize::from(amount))));
    }

    /// Selects the next column, or the first one.
    pub fn select_next_column(&mut self)
        ensures { let next = next_of self.old.selected_column in
            self.new ≡ record self.old { selected_column = Some next } }
    {
        let next = match self.selected_column {
            Some(index) => index.saturating_add(1),
            None => 0,
        };
        self.select_column(Some(next));
    }

    /// Selects the column before, or the last one: a rendering makes of too large a number the last
    /// column's.
    pub fn select_previous_column(&mut self)
        ensures { let previous = previous_of self.old.selected_column in
            self.new ≡ record self.old { selected_column = Some previous } }
    {
        let previous = match self.selected_column {
            Some(index) => index.saturating_sub(1),
            None => usize::MAX,
        };
        self.select_column(Some(previous));
    }

    /// Selects the first column.
    pub fn select_first_column(&mut self)
        ensures { self.new ≡ record self.old { selected_column = Some 0 } }
    {
        self.select_column(Some(0));
    }

    /// Selects the last column: a rendering makes of too large a number the last column's.
    pub fn select_last_column(&mut self)
        ensures { self.new ≡ record self.old { selected_column = Some usize.MAX } }
    {
        self.select_column(Some(usize::MAX));
    }

    /// Selects the column so many further right.
    pub fn scroll_right_by(&mut self, amount: u16)
        ensures { let at = min (unwrap_or self.old.selected_column 0 + amount) usize.MAX in
            self.new ≡ record self.old { selected_column = Some at } }
    {
        let selected = self.selected_column.unwrap_or(0);
        self.select_column(Some(selected.saturating_add(usize::from(amount))));
    }

    /// Selects the column so many further left.
    pub fn scroll_left_by(&mut self, amount: u16)
        ensures { let at = unwrap_or self.old.selected_column 0 - amount in
            self.new ≡ record self.old { selected_column = Some at } }
    {
        let selected = self.selected_column.unwrap_or(0);
        self.select_column(Some(selected.saturating_sub(usize::from(amount))));
    }
}
