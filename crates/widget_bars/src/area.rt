//! Parts of an area.

ghost use Rattle.std.specs.Prelude.{◌≡◌};
ghost use Rattle.widget_bars.specs.BarAreas.{cells_along, bar_cut, behind_cut, beside_labels};

use ratatui_core::layout::{Direction, Rect};
use rtui_drawing::Cut;

// The part right of labels of so many columns and of a blank column.
pub(crate) fn beside_labels(labels: u16) -> Cut
    ensures { result ≡ beside_labels labels }
{
    Cut::After(labels.saturating_add(labels.min(1)))
}

// How many cells an area has from bar to bar.
pub(crate) fn cells_along(direction: Direction, area: Rect) -> u16
    ensures { result ≡ cells_along direction area }
{
    match direction {
        Direction::Vertical => area.width,
        Direction::Horizontal => area.height,
    }
}

// Where a bar stands that is so many cells wide.
pub(crate) fn bar_cut(direction: Direction, width: u16) -> Cut
    ensures { result ≡ bar_cut direction width }
{
    match direction {
        Direction::Vertical => Cut::First(width),
        Direction::Horizontal => Cut::Rows(0, width),
    }
}

// The part after so many cells.
pub(crate) fn behind_cut(direction: Direction, cells: u16) -> Cut
    ensures { result ≡ behind_cut direction cells }
{
    match direction {
        Direction::Vertical => Cut::After(cells),
        Direction::Horizontal => Cut::Below(cells),
    }
}
