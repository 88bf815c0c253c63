//! How what is left is shared by weight.
ghost use Rattle.std.specs.Prelude.{◌≡◌, ◌≤◌, ◌<◌, ◌+◌, ◌*◌, ◌/◌, ◌^◌, ◌==◌};
ghost use Rattle.std.specs.Prelude.{unwrap_or, IsTrue, IsFalse};
ghost use Rattle.rtui_split.specs.Wishes.{weight_in};
ghost use Rattle.rtui_split.specs.Units.{unit_levels};
ghost use Rattle.rtui_split.specs.Inner.Slots.{wanted_before, TakeNothingIn, weights};
ghost use Rattle.rtui_split.specs.Inner.Slots.{sized, filled_at};

use crate::part::{FILL, Part};
use crate::slot::Slot;
use rtui_layout::Constraint;

/// So many levels make one unit.
pub(crate) const UNIT_LEVELS: u64 = 1_048_576;

/// Who takes what is left.
#[derive(Debug, Clone, Copy, Drop)]
pub(crate) struct Takers {
    /// Whether `Min`s take nothing of it.
    pub legacy: bool,
    /// Whether all weights are 0, and so count as 1.
    pub even: bool,
}

// The weight of a part, or nothing if it takes nothing of what is left.
fn weight_of(part: &Part, takers: Takers) -> Option<u16>
    ensures { IsFalse takers.even
        → unwrap_or result 0 ≡ weight_in takers.legacy part.now.constraint }
{
    match part.constraint {
        Constraint::Fill(_) if takers.even => Some(1),
        Constraint::Fill(n) => Some(n),
        Constraint::Min(_) if !takers.legacy => Some(1),
        _ => None,
    }
}

// The share of a weight at a level.
fn share_of(weight: u16, level: u64) -> u64
    ensures { result ≡ weight * level / unit_levels }
{
    (u128::from(weight) * u128::from(level) / u128::from(UNIT_LEVELS)) as u64
}

/// Returns the size of a part at a level: its wish, or if it takes what is left, at least its
/// share.
pub(crate) fn size_at(part: &Part, takers: Takers, level: u64) -> u64
    ensures { result ≡ sized takers level part.now }
{
    match part.constraint {
        Constraint::Fill(n) => {
            let weight = if takers.even { n.max(1) } else { n };
            share_of(weight, level)
        }
        Constraint::Min(_) if !takers.legacy => part.wanted.max(level / UNIT_LEVELS),
        _ => part.wanted,
    }
}

// Whether the sizes at a level have room.
fn fits(slots: &[Slot], takers: Takers, level: u64, room: u64) -> bool
    ensures yes { IsTrue result → filled_at takers level slots.now ≤ room }
    ensures no { IsFalse result → room < filled_at takers level slots.now }
{
    let mut left = room;
    for Slot { part, .. } in slots {
        let size = size_at(part, takers, level);
        if size > left {
            return false;
        }
        left -= size;
    }
    true
}

// The level if those keep what they have that have more at this level.
fn lower_level(slots: &[Slot], takers: Takers, level: Option<u64>, room: u64) -> u64 {
    let mut left = room;
    let mut weights: u64 = 0;
    for Slot { part, .. } in slots {
        match weight_of(part, takers) {
            Some(weight) if level.is_none_or(|n| part.wanted <= share_of(weight, n)) => {
                weights = weights.saturating_add(u64::from(weight));
            }
            _ => left = left.saturating_sub(part.wanted),
        }
    }
    left.saturating_mul(UNIT_LEVELS) / weights.max(1)
}

/// Returns who takes what is left.
pub(crate) fn takers_of(slots: &[Slot], legacy: bool) -> Takers
    ensures legacy { result.legacy ≡ legacy }
    ensures even { result.even ≡ (weights legacy slots.now == 0) }
{
    Takers {
        legacy,
        even: weigh_nothing(slots, legacy),
    }
}

// Whether all weights are 0.
fn weigh_nothing(slots: &[Slot], legacy: bool) -> bool
    ensures { result ≡ (weights legacy slots.now == 0) }
{
    let each = Takers {
        legacy,
        even: false,
    };
    for Slot { part, .. } in slots {
        if weight_of(part, each).unwrap_or(0) > 0 {
            return false;
        }
    }
    true
}

// A level near the highest that has room.
fn near_level(slots: &[Slot], takers: Takers, room: u64) -> u64 {
    let mut level = lower_level(slots, takers, None, room);
    for _ in slots {
        if fits(slots, takers, level, room) {
            break;
        }
        level = lower_level(slots, takers, Some(level), room);
    }
    level
}

// The highest level that has room, between one that has and one that hasn't, but for less than a
// unit.
fn level_between(slots: &[Slot], takers: Takers, room: u64, from: u64, to: u64) -> u64
    requires low { filled_at takers from slots.now ≤ room }
    requires high { room < filled_at takers to slots.now }
    ensures fits { filled_at takers result slots.now ≤ room }
    ensures most { room < filled_at takers (result + unit_levels) slots.now }
{
    let (mut low, mut high) = (from, to);
    'halves: while high.saturating_sub(low) > UNIT_LEVELS {
        let middle = low + (high - low) / 2;
        if fits(slots, takers, middle, room) {
            low = middle;
        } else {
            high = middle;
        }
    }
    low
}

/// Returns a level so high that one weight takes more than the room.
pub(crate) fn top_of(room: u64) -> u64
    ensures { room < 2 ^ 43 → result ≡ (room + 1) * unit_levels }
{
    room.saturating_add(1).saturating_mul(UNIT_LEVELS)
}

/// Returns the highest level that has room, but for less than a unit; the top if the parts take
/// nothing of what is left.
pub(crate) fn level_of(slots: &[Slot], takers: Takers, room: u64) -> u64
    requires { wanted_before FILL slots.now ≤ room }
    ensures fits { filled_at takers result slots.now ≤ room }
    ensures most { room < 2 ^ 43 → result < (room + 1) * unit_levels
        → room < filled_at takers (result + unit_levels) slots.now }
    ensures top { room < 2 ^ 43 → TakeNothingIn takers.legacy slots.now
        → result ≡ (room + 1) * unit_levels }
{
    let top = top_of(room);
    let near = near_level(slots, takers, room).min(top);
    let next = near.saturating_add(UNIT_LEVELS);
    if fits(slots, takers, near, room) && !fits(slots, takers, next, room) {
        return near;
    }
    if fits(slots, takers, top, room) {
        return top;
    }
    level_between(slots, takers, room, 0, top)
}
