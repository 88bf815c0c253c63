//! What is shown in an area.

ghost use Rattle.std.specs.Prelude.{◌≡◌, ◌<◌, ◌≤◌, ◌-◌, ℕ};
ghost use Rattle.widget_area.specs.TextAreas.{is_selected, wrapped_row, turned};

use crate::columns::past;

// The first line that is shown, how many of its rows are above the view, and the first column; how
// many columns of a line stand in a row, and how many columns the numbers take with the blank after
// them; the cursor's line and column, and in which column and row of the view it stands; and between
// which bytes is selected.
#[derive(Clone, Copy)]
pub(crate) struct Plan {
    pub(crate) top: usize,
    pub(crate) above: usize,
    pub(crate) left: usize,
    pub(crate) stride: u16,
    pub(crate) numbers: u16,
    pub(crate) row: usize,
    pub(crate) column: usize,
    pub(crate) x: u16,
    pub(crate) y: u16,
    pub(crate) from: usize,
    pub(crate) to: usize,
}

impl Plan {
    // Whether a byte of the text is selected.
    pub(crate) fn is_selected(&self, byte: usize) -> bool
        ensures { result ≡ is_selected self.now byte }
    {
        self.from <= byte && byte < self.to
    }

    // The row in which a column stands of a line that begins in a row.
    pub(crate) fn wrapped_row(&self, begin: usize, column: usize) -> usize
        requires { 0 < self.now.stride }
        ensures { result ≡ wrapped_row self.now begin column }
    {
        past(begin, column / usize::from(self.stride))
    }

    // How many columns of a line that begins in a row are above the view.
    pub(crate) fn hidden_columns(&self, begin: usize) -> usize
        requires { 0 < self.now.stride }
        ensures { (column : ℕ) → column < result → wrapped_row self.now begin column < self.now.above }
    {
        let rows = self.above.saturating_sub(begin);
        rows.saturating_mul(usize::from(self.stride))
    }

    // How many columns at the left of the view draw nothing: those left of it if nothing is selected.
    pub(crate) fn columns_left(&self) -> usize
        ensures within { result ≤ self.now.left }
        ensures unselected { 0 < result → self.now.to ≤ self.now.from }
    {
        if self.from < self.to { 0 } else { self.left }
    }

    // The part of a line that stands in one row with a column.
    pub(crate) fn turned(&self, column: usize) -> Plan
        requires { 0 < self.now.stride }
        ensures value { result ≡ turned self.now column }
        ensures within { column - result.left < self.now.stride }
    {
        Plan {
            left: column - column % usize::from(self.stride),
            ..*self
        }
    }
}
