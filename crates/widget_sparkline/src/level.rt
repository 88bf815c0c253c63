//! Heights in eighths of a cell, and the symbols that show them.

ghost use Rattle.std.specs.Prelude.{◌≡◌, ◌≤◌, OnOk, OnErr, IsOk};
ghost use Rattle.ratatui_core.specs.Buffer.{with_symbol, IsShort};
ghost use Rattle.widget_sparkline.specs.Levels.{eighths_of_value, left_at, level_text};

use ratatui_core::buffer::Cell;
use ratatui_core::symbols::bar;
use std::alloc::{AllocError, Global};

/// Returns how many eighths of a cell a value is high, rounded down, if the greatest one takes so
/// many rows; none if that is 0.
pub fn eighths_of(value: u64, greatest: u64, rows: u16) -> u128
    ensures { result ≡ eighths_of_value value greatest rows }
{
    if greatest == 0 {
        return 0;
    }
    match value.checked_mul(u64::from(rows) * 8) {
        Some(all) => u128::from(all / greatest),
        None => u128::from(value) * u128::from(rows) * 8 / u128::from(greatest),
    }
}

/// Returns the symbol of a cell that is filled by so many eighths; more than eight fill it.
pub fn level_of<'a>(set: &bar::Set<'a>, eighths: usize) -> &'a str
    ensures { result.now ≡ level_text set.now eighths }
{
    match eighths {
        0 => set.empty,
        1 => set.one_eighth,
        2 => set.one_quarter,
        3 => set.three_eighths,
        4 => set.half,
        5 => set.five_eighths,
        6 => set.three_quarters,
        7 => set.seven_eighths,
        _ => set.full,
    }
}
