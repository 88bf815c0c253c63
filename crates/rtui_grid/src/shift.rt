//! Elements that move within a part of a list.

ghost use Rattle.std.specs.Prelude.{◌≡◌, ◌+◌, ◌-◌, ◌≤◌, ℕ, ◌&&◌, nat_le, nat_lt, if◌then◌else◌, length};
ghost use Rattle.rtui_grid.specs.Items.{item};

use crate::blank::{Blank, fill};

/// Moves the elements from one place up to another up by so many places: those that leave are lost,
/// and blank ones come in at the end.
///
/// # Conditions
///
/// `from` is at most `to`, and `to` is at most the length of the list.
pub fn shift_up<T: Blank>(items: &mut [T], from: usize, to: usize, by: usize)
    requires order { from ≤ to }
    requires end { to ≤ length items.old }
    ensures { (k : ℕ) → item T.blank items.new k ≡ (if nat_le from k && nat_lt k to
        then (if nat_lt (k + by) to then item T.blank items.old (k + by) else T.blank)
        else item T.blank items.old k) }
{
    raise(&mut items[from..to], by);
}

/// Moves the elements from one place up to another down by so many places: those that leave are
/// lost, and blank ones come in at the start.
///
/// # Conditions
///
/// `from` is at most `to`, and `to` is at most the length of the list.
pub fn shift_down<T: Blank>(items: &mut [T], from: usize, to: usize, by: usize)
    requires order { from ≤ to }
    requires end { to ≤ length items.old }
    ensures { (k : ℕ) → item T.blank items.new k ≡ (if nat_le from k && nat_lt k to
        then (if nat_le (from + by) k then item T.blank items.old (k - by) else T.blank)
        else item T.blank items.old k) }
{
    lower(&mut items[from..to], by);
}

// Moves all elements up.
fn raise<T: Blank>(items: &mut [T], by: usize)
    ensures { (k : ℕ) → item T.blank items.new k ≡ item T.blank items.old (k + by) }
{
    let count = by.min(items.len());
    fill(items, 0, count);
    items.rotate_left(count);
}

// Moves all elements down.
fn lower<T: Blank>(items: &mut [T], by: usize)
    ensures { (k : ℕ) → item T.blank items.new k ≡ (if nat_le by k && nat_lt k (length items.old)
        then item T.blank items.old (k - by) else T.blank) }
{
    let count = by.min(items.len());
    items.rotate_right(count);
    fill(items, 0, count);
}
