//! The parts of a layout while their sizes are found.
ghost use Rattle.std.specs.Prelude.{◌≡◌, ◌+◌, ◌<◌, map, length, All, MatchOption};
ghost use Rattle.rtui_split.specs.declared.slot.Slot.{Slot};
ghost use Rattle.rtui_split.specs.Inner.Slots.{slot_in, slot_parts, wanted_before, TriesItsWish};

use crate::part::{Part, turn_of, wish_of};
use rtui_layout::Constraint;

/// A part with its size.
#[derive(Debug, Clone, Copy, Drop)]
pub(crate) struct Slot {
    pub part: Part,
    /// What it has or, before anything is granted, tries, in units.
    pub size: u64,
    /// If parts that are shared together begin here: what all before them take, in units.
    pub base: Option<u64>,
}

impl Slot {
    /// A part that wishes nothing.
    pub(crate) const NONE: Slot = Slot {
        part: Part {
            constraint: Constraint::Fill(0),
            wanted: 0,
        },
        size: 0,
        base: None,
    };
}

/// Writes the parts of these constraints in an area of so many columns or rows.
pub(crate) fn write_slots(constraints: &[Constraint], cells: u16, slots: &mut [Slot])
    requires { length slots.old ≡ length constraints.now }
    ensures { slots.new ≡ map (slot_in cells) constraints.now }
{
    for (i, constraint) in constraints.iter().enumerate() {
        slots[i] = Slot {
            part: Part {
                constraint: *constraint,
                wanted: wish_of(*constraint, cells),
            },
            size: 0,
            base: None,
        };
    }
}

/// Returns what is left of the room when all have their wishes whose turn comes before this one;
/// `None` if they don't fit.
pub(crate) fn left_before(slots: &[Slot], turn: usize, room: u64) -> Option<u64>
    ensures { MatchOption result (room < wanted_before turn slots.now)
        (λ left. left + wanted_before turn slots.now ≡ room) }
{
    let mut left = room;
    for Slot { part, .. } in slots {
        if turn_of(part.constraint) < turn {
            if part.wanted > left {
                return None;
            }
            left -= part.wanted;
        }
    }
    Some(left)
}

/// Has all try the same size.
pub(crate) fn try_all(size: u64, slots: &mut [Slot])
    ensures parts { slot_parts slots.new ≡ slot_parts slots.old }
    ensures same { All (λ (s : Slot). s.size ≡ size) slots.new }
{
    for slot in slots.iter_mut() {
        slot.size = size;
    }
}

/// Has each try what it wishes.
pub(crate) fn try_wishes(slots: &mut [Slot])
    ensures parts { slot_parts slots.new ≡ slot_parts slots.old }
    ensures wish { All TriesItsWish slots.new }
{
    for slot in slots.iter_mut() {
        slot.size = slot.part.wanted;
    }
}
