//! The level up to which parts get what they wish, where there is too little room for all wishes.
ghost use Rattle.std.specs.Prelude.{◌≡◌, ◌≤◌, ◌<◌, ◌+◌, IsTrue, IsFalse};
ghost use Rattle.rtui_split.specs.Inner.Slots.{wanted_in, capped_in};

use crate::part::turn_of;
use crate::slot::Slot;

// Whether there is room for the parts of a turn, if each gets what it wishes, but at most so much.
fn has_room(slots: &[Slot], turn: usize, most: u64, room: u64) -> bool
    ensures yes { IsTrue result → capped_in turn most slots.now ≤ room }
    ensures no { IsFalse result → room < capped_in turn most slots.now }
{
    let mut left = room;
    for Slot { part, .. } in slots {
        if turn_of(part.constraint) == turn {
            let size = part.wanted.min(most);
            if size > left {
                return false;
            }
            left -= size;
        }
    }
    true
}

// The highest level that has room, between one that has and one that hasn't.
fn level_below(slots: &[Slot], turn: usize, room: u64, to: u64) -> u64
    requires { room < capped_in turn to slots.now }
    ensures fits { capped_in turn result slots.now ≤ room }
    ensures most { room < capped_in turn (result + 1) slots.now }
{
    let (mut low, mut high) = (0, to);
    'halves: while high.saturating_sub(low) > 1 {
        let middle = low + (high - low) / 2;
        if has_room(slots, turn, middle, room) {
            low = middle;
        } else {
            high = middle;
        }
    }
    low
}

/// Returns the highest level that has room, if each part of a turn gets what it wishes, but at most
/// so much.
pub(crate) fn highest_level(slots: &[Slot], turn: usize, room: u64) -> u64
    requires { room < wanted_in turn slots.now }
    ensures fits { capped_in turn result slots.now ≤ room }
    ensures most { room < capped_in turn (result + 1) slots.now }
{
    if has_room(slots, turn, room, room) {
        return room;
    }
    level_below(slots, turn, room, room)
}
