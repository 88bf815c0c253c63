//! What the walk does at one cell.

ghost use Rattle.std.specs.Prelude.{◌≡◌, ◌&&◌, ◌||◌, not, IsTrue};
ghost use Rattle.rtui_cell.specs.Cell.{is_skipped, is_single_byte};
ghost use Rattle.rtui_diff.specs.Cells.{is_always};
ghost use Rattle.rtui_diff.specs.DiffRule.{gives_visited, gives_other, step_other};
ghost use Rattle.rtui_diff.specs.Inner.{walk_of};

use crate::cells::{has_fe0f, has_same_symbol, is_always, is_forced, shows_on_blank};
use rtui_cell::{Cell, CellWidth};

// What follows a cell: columns that are stepped over, or columns that are visited.
#[derive(Clone, Copy, Debug)]
pub struct Step {
    pub over: u16,
    pub left: u16,
    pub force: bool,
}

// Whether a visited cell is given.
pub fn is_given_when_visited(force: bool, prev: &Cell, next: &Cell) -> bool
    ensures { result ≡ gives_visited force prev.now next.now }
{
    !next.is_skipped() && (force || !has_same_symbol(prev, next))
}

// Whether any other cell is given that isn't stepped over, and is the same as the former one or
// not.
pub fn is_given(next: &Cell, same: bool) -> bool
    ensures { result ≡ (not (is_skipped next.now) && (is_always next.now || not same)) }
{
    !next.is_skipped() && (is_always(next) || !same)
}

// The same for a cell of a single byte, which has no option.
#[tactic(auto, using(crate::proofs::WalkLemmas::single_byte_always))]
pub fn is_single_byte_given(next: &Cell, same: bool) -> bool
    requires { IsTrue (is_single_byte next.now) }
    ensures { result ≡ (not (is_skipped next.now) && (is_always next.now || not same)) }
{
    !same && !next.is_skipped()
}

// What follows a cell that is given or not.
pub fn step_after(prev: &Cell, next: &Cell, given: bool) -> Step
    requires { given ≡ gives_other prev.now next.now }
    ensures { walk_of result ≡ step_other prev.now next.now }
{
    let mut step = Step {
        over: 0,
        left: 0,
        force: false,
    };
    if next.is_skipped() {
        return step;
    }
    let width = next.cell_width();
    if is_forced(next) || !given || (width > 1 && !has_fe0f(next)) {
        step.over = width.saturating_sub(1);
    } else if width > 1 {
        step.left = width - 1;
    } else if shows_on_blank(prev) {
        let former = prev.cell_width();
        if former > width {
            step.left = former - 1;
            step.force = true;
        }
    }
    step
}
