//! Where points stand in a grid of dots.

ghost use Rattle.std.specs.Prelude.{◌≡◌, ◌≤◌, ◌<◌, ◌^◌, ◌-◌, pos, ◌*ℤ◌, unsigned_abs, IsTrue};
ghost use Rattle.rtui_dots.specs.Circles.{billion, fine_column, fine_row};
ghost use Rattle.rtui_dots.specs.Grids.{dots_across, dots_down, dot_columns, dot_rows, share, column_of_cell, row_of_cell};
ghost use Rattle.rtui_dots.specs.Grids.{lies_between, lies_within, has_point, dot_place, is_open, dot_column};
ghost use Rattle.rtui_dots.specs.Grids.{dot_row, nearest};

use rtui_symbols::marker::Marker;

// Places are counted from so many before a grid's first one.
pub(crate) const FAR: u64 = 1 << 60;

/// The coordinates at the sides of a grid of dots, how many cells it has, and how it marks dots. It
/// has no points unless `left` is less than `right`, and `bottom` less than `top`.
#[derive(Debug, Clone, Copy)]
pub struct Scale {
    /// The coordinate of its first column of dots.
    pub left: i64,
    /// The coordinate of its last column of dots.
    pub right: i64,
    /// The coordinate of its last row of dots.
    pub bottom: i64,
    /// The coordinate of its first row of dots.
    pub top: i64,
    /// How many cells a row has.
    pub columns: u16,
    /// How many cells a column has.
    pub rows: u16,
    /// What marks a dot: Braille and octants have two by four dots in a cell, sextants two by three,
    /// quadrants two by two, half blocks one by two, and each other marker has one.
    pub marker: Marker,
}

// How many dots a cell has side by side.
#[inline(always)]
fn dots_across(marker: Marker) -> u64
    ensures value { result ≡ dots_across marker }
    ensures within { result ≤ 2 }
{
    match marker {
        Marker::Braille | Marker::Quadrant | Marker::Sextant | Marker::Octant => 2,
        _ => 1,
    }
}

// How many dots a cell has one over the other.
#[inline(always)]
fn dots_down(marker: Marker) -> u64
    ensures value { result ≡ dots_down marker }
    ensures within { result ≤ 4 }
{
    match marker {
        Marker::Braille | Marker::Octant => 4,
        Marker::Sextant => 3,
        Marker::HalfBlock | Marker::Quadrant => 2,
        _ => 1,
    }
}

// The place, from 0 on, nearest to what lies `from_first` from the first one of so many over a whole
// length. Short lengths are divided in 64 bits.
fn nearest(from_first: u128, whole: u128, count: u64) -> u128
    requires whole { 0 < whole }
    requires short { whole < 2 ^ 100 }
    requires length { from_first < 2 ^ 100 }
    requires count { count ≤ 262140 }
    ensures { result ≡ nearest from_first whole count }
{
    if from_first < 1_000_000_000_000 && whole < 1_000_000_000_000 {
        let (from_first, whole) = (from_first as u64, whole as u64);
        let shares = from_first * count.saturating_sub(1);
        return u128::from((2 * shares + whole) / (2 * whole));
    }
    let shares = from_first * u128::from(count.saturating_sub(1));
    (2 * shares + whole) / (2 * whole)
}

// The place nearest to what lies `from_first` from the first one of so many over a whole length; not
// one of them, if it lies before the first one or after the last one.
fn dot_place(is_before: bool, is_behind: bool, from_first: u128, whole: u128, count: u64) -> u64
    requires whole { 0 < whole }
    requires short { whole < 2 ^ 100 }
    requires length { from_first < 2 ^ 100 }
    requires count { count ≤ 262140 }
    ensures value { result ≡ dot_place is_before is_behind from_first whole count }
    ensures within { result ≤ 2 ^ 61 }
{
    let nearest = nearest(from_first, whole, count);
    if is_before {
        return FAR - nearest.max(1).min(u128::from(FAR)) as u64;
    }
    let least = if is_behind { u128::from(count) } else { 0 };
    FAR + nearest.max(least).min(u128::from(FAR)) as u64
}

// The place, from 0 on, among so many that share a whole length, of what lies `from_first` from the
// first one.
fn share(from_first: u64, whole: u64, count: u16) -> u16
    requires whole { 0 < whole }
    requires within { from_first ≤ whole }
    ensures value { result ≡ share from_first whole count }
    ensures within { result ≤ count - 1 }
{
    (u128::from(from_first) * u128::from(count.saturating_sub(1)) / u128::from(whole)) as u16
}

// A coordinate in billionths.
pub(crate) fn in_billionths(n: i64) -> i128
    ensures value { result ≡ n *ℤ pos billion }
    ensures within { unsigned_abs result < 2 ^ 94 }
{
    i128::from(n) * 1_000_000_000
}

// Whether a number lies between two others, or is one of them.
fn lies_between(low: i64, high: i64, n: i64) -> bool
    ensures { result ≡ lies_between low high n }
{
    low <= n && n <= high
}

impl Scale {
    // How many dots a row has.
    pub(crate) fn dot_columns(&self) -> u64
        ensures value { result ≡ dot_columns self.now }
        ensures within { result ≤ 131070 }
    {
        self.columns_by(self.marker)
    }

    // How many dots a column has.
    pub(crate) fn dot_rows(&self) -> u64
        ensures value { result ≡ dot_rows self.now }
        ensures within { result ≤ 262140 }
    {
        self.rows_by(self.marker)
    }

    // How many cells a row has.
    pub(crate) fn width(&self) -> u64
        ensures value { result ≡ self.now.columns }
        ensures within { result ≤ 65535 }
    {
        u64::from(self.columns)
    }

    // How many dots a row has, by the grid's marker.
    #[inline(always)]
    pub(crate) fn columns_by(&self, marker: Marker) -> u64
        requires { marker ≡ self.now.marker }
        ensures value { result ≡ dot_columns self.now }
        ensures within { result ≤ 131070 }
    {
        u64::from(self.columns) * dots_across(marker)
    }

    // How many dots a column has, by the grid's marker.
    #[inline(always)]
    pub(crate) fn rows_by(&self, marker: Marker) -> u64
        requires { marker ≡ self.now.marker }
        ensures value { result ≡ dot_rows self.now }
        ensures within { result ≤ 262140 }
    {
        u64::from(self.rows) * dots_down(marker)
    }

    // Whether the bounds have points between them.
    pub(crate) fn is_open(&self) -> bool
        ensures { result ≡ is_open self.now }
    {
        self.left < self.right && self.bottom < self.top
    }

    // The column of a coordinate.
    pub(crate) fn column(&self, x: i64) -> u64
        requires { IsTrue (is_open self.now) }
        ensures value { result ≡ dot_column self.now x }
        ensures within { result ≤ 2 ^ 61 }
    {
        let (from_left, whole) = (x.abs_diff(self.left), self.right.abs_diff(self.left));
        let count = self.dot_columns();
        dot_place(
            x < self.left,
            self.right < x,
            u128::from(from_left),
            u128::from(whole),
            count,
        )
    }

    // The row of a coordinate.
    pub(crate) fn row(&self, y: i64) -> u64
        requires { IsTrue (is_open self.now) }
        ensures value { result ≡ dot_row self.now y }
        ensures within { result ≤ 2 ^ 61 }
    {
        let (from_top, whole) = (y.abs_diff(self.top), self.top.abs_diff(self.bottom));
        let count = self.dot_rows();
        dot_place(
            self.top < y,
            y < self.bottom,
            u128::from(from_top),
            u128::from(whole),
            count,
        )
    }

    // The column of a coordinate in billionths.
    pub(crate) fn fine_column(&self, x: i128) -> u64
        requires open { IsTrue (is_open self.now) }
        requires length { unsigned_abs x < 2 ^ 98 }
        ensures value { result ≡ fine_column self.now x }
        ensures within { result ≤ 2 ^ 61 }
    {
        let (left, right) = (in_billionths(self.left), in_billionths(self.right));
        let (from_left, whole) = (x.abs_diff(left), right.abs_diff(left));
        let count = self.dot_columns();
        dot_place(x < left, right < x, from_left, whole, count)
    }

    // The row of a coordinate in billionths.
    pub(crate) fn fine_row(&self, y: i128) -> u64
        requires open { IsTrue (is_open self.now) }
        requires length { unsigned_abs y < 2 ^ 98 }
        ensures value { result ≡ fine_row self.now y }
        ensures within { result ≤ 2 ^ 61 }
    {
        let (bottom, top) = (in_billionths(self.bottom), in_billionths(self.top));
        let (from_top, whole) = (y.abs_diff(top), top.abs_diff(bottom));
        let count = self.dot_rows();
        dot_place(top < y, y < bottom, from_top, whole, count)
    }

    // Whether a point lies within the bounds or on them.
    fn lies_within(&self, x: i64, y: i64) -> bool
        ensures { result ≡ lies_within self.now x y }
    {
        lies_between(self.left, self.right, x) && lies_between(self.bottom, self.top, y)
    }

    /// Returns whether there are points between the bounds, and this is one of them.
    pub fn has_point(&self, x: i64, y: i64) -> bool
        ensures { result ≡ has_point self.now x y }
    {
        self.is_open() && self.lies_within(x, y)
    }

    // The column among the cells of a point within the bounds.
    fn column_of_cell(&self, x: i64) -> u16
        requires open { IsTrue (is_open self.now) }
        requires within { IsTrue (lies_between self.now.left self.now.right x) }
        ensures value { result ≡ column_of_cell self.now x }
        ensures within { result ≤ self.now.columns - 1 }
    {
        let (from_left, whole) = (x.abs_diff(self.left), self.right.abs_diff(self.left));
        share(from_left, whole, self.columns)
    }

    // The row among the cells of a point within the bounds.
    fn row_of_cell(&self, y: i64) -> u16
        requires open { IsTrue (is_open self.now) }
        requires within { IsTrue (lies_between self.now.bottom self.now.top y) }
        ensures value { result ≡ row_of_cell self.now y }
        ensures within { result ≤ self.now.rows - 1 }
    {
        let (from_top, whole) = (y.abs_diff(self.top), self.top.abs_diff(self.bottom));
        share(from_top, whole, self.rows)
    }

    /// Returns the column and the row among the cells, from 0 on, of a point within the bounds.
    ///
    /// # Conditions
    ///
    /// The point lies within the bounds.
    pub fn cell_of(&self, x: i64, y: i64) -> (u16, u16)
        requires { IsTrue (has_point self.now x y) }
        ensures column { result.0 ≡ column_of_cell self.now x }
        ensures row { result.1 ≡ row_of_cell self.now y }
        ensures across { result.0 ≤ self.now.columns - 1 }
        ensures down { result.1 ≤ self.now.rows - 1 }
    {
        (self.column_of_cell(x), self.row_of_cell(y))
    }
}
