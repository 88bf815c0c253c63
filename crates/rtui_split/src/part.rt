//! What each part of a layout wishes, and in which turn.
ghost use Rattle.std.specs.Prelude.{◌≡◌};
ghost use Rattle.rtui_split.specs.Wishes.{turn, wish};

use rtui_layout::Constraint;

/// So many units make one column or row.
pub(crate) const CELL_UNITS: u64 = 5_040_000;

/// The turn of the parts that take what is left.
pub(crate) const FILL: usize = 5;

/// A part, and what it wishes, in units.
#[derive(Debug, Clone, Copy, Drop)]
pub(crate) struct Part {
    pub constraint: Constraint,
    pub wanted: u64,
}

/// Returns in which turn a part gets what it wishes.
pub(crate) fn turn_of(constraint: Constraint) -> usize
    ensures { result ≡ turn constraint }
{
    match constraint {
        Constraint::Min(_) => 0,
        Constraint::Length(_) => 1,
        Constraint::Percentage(_) => 2,
        Constraint::Ratio(..) => 3,
        Constraint::Max(_) => 4,
        Constraint::Fill(_) => FILL,
    }
}

/// Returns what a part wishes in an area of so many columns or rows, in units.
pub(crate) fn wish_of(constraint: Constraint, cells: u16) -> u64
    ensures { result ≡ wish cells constraint }
{
    match constraint {
        Constraint::Min(n) | Constraint::Max(n) | Constraint::Length(n) => u64::from(n)
            * CELL_UNITS,
        Constraint::Percentage(n) => u64::from(cells) * u64::from(n) * (CELL_UNITS / 100),
        Constraint::Ratio(m, n) => {
            let share = u128::from(cells) * u128::from(m) * u128::from(CELL_UNITS)
                / u128::from(n.max(1));
            share.min(u128::from(u64::MAX)) as u64
        }
        Constraint::Fill(_) => 0,
    }
}
