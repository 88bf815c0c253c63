//! Where the room goes that no part takes.
ghost use Rattle.std.specs.Prelude.{◌≡◌, ◌≤◌, ◌+◌, ◌*◌, ◌^◌, ◌<◌, ℕ, true, false, [], ◌∷◌, length};
ghost use Rattle.rtui_layout.specs.declared.flex.Flex.TheVariants.{Legacy, SpaceBetween};
ghost use Rattle.rtui_split.specs.Spaces.{KeepsWishes, IsPacked, least_spaces};
ghost use Rattle.rtui_split.specs.Inner.Slots.{slot_parts, sizes_of, wanted_before};
ghost use Rattle.rtui_split.specs.Inner.Spaces.{IsArranged, IsLegacy, IsSpread, GivesWishes};
ghost use Rattle.rtui_split.specs.Inner.Spaces.{lead, first_share, middle_share};

use crate::edge::{Overlapped, share_overlapped};
use crate::share::{rest_of, share, stretch};
use crate::slot::{Slot, left_before};
use rtui_layout::Flex;

/// The space before the first part, and the one between two parts, in units. The last one has the
/// rest.
#[derive(Debug, Clone, Copy, Drop)]
pub(crate) struct Spaces {
    pub first: u64,
    pub middle: u64,
}

/// What is to be shared: so many units, with so much between the parts, or so much of them over one
/// another.
#[derive(Debug, Clone, Copy, Drop)]
pub(crate) struct Room {
    pub whole: u64,
    pub flex: Flex,
    pub gap: u64,
    pub overlap: u64,
}

fn is_legacy(flex: Flex) -> bool
    ensures keeps { (n : ℕ) → KeepsWishes flex n → result ≡ false }
    ensures legacy { flex ≡ Legacy → result ≡ true }
{
    matches!(flex, Flex::Legacy)
}

// How much of what is left comes before the first part.
fn lead_of(flex: Flex, left: u64) -> u64
    ensures { result ≡ lead flex left }
{
    match flex {
        Flex::End => left,
        Flex::Center => left / 2,
        _ => 0,
    }
}

// Parts with equal spaces between them, and what is left at the ends.
fn arrange_packed(slots: &mut [Slot], room: Room) -> Spaces
    requires { IsPacked room.flex }
    ensures parts { slot_parts slots.new ≡ slot_parts slots.old }
    ensures given { GivesWishes slots.new room result }
    ensures arranged { KeepsWishes room.flex (length slots.new)
        → IsArranged slots.new room result }
    ensures legacy { room.flex ≡ Legacy → IsLegacy slots.new room result }
{
    let inner = (slots.len() as u64).saturating_sub(1);
    let legacy = is_legacy(room.flex);
    let for_parts = room.whole.saturating_sub(room.gap.saturating_mul(inner));
    let left = share(slots, legacy, for_parts);
    if legacy {
        stretch(slots, left);
        return Spaces {
            first: 0,
            middle: room.gap,
        };
    }
    Spaces {
        first: lead_of(room.flex, left),
        middle: room.gap,
    }
}

// The room for the parts if the spaces take so much first, and so much more right after the wishes
// of the `Min`s.
fn room_after_mins(slots: &[Slot], room: u64, more: u64) -> u64
    ensures most { result ≤ room }
    ensures least { room ≤ result + more }
    ensures spared { wanted_before 1 slots.now < result → result + more ≤ room }
{
    match left_before(slots, 1, room) {
        Some(left) => room - more.min(left),
        None => room,
    }
}

// Spaces that share the rest: so many of equal size, or those at the ends half of the others.
fn spaces_of(rest: u64, flex: Flex, count: u64) -> Spaces
    requires { count < 2 ^ 63 }
    ensures fit { result.first + count * result.middle ≤ rest + result.middle }
    ensures first { IsSpread flex → 0 < count → result.first ≡ first_share flex count rest }
    ensures middle { IsSpread flex → KeepsWishes flex count → 0 < count
        → result.middle ≡ middle_share flex count rest }
{
    match flex {
        Flex::SpaceBetween => Spaces {
            first: 0,
            middle: rest / count.saturating_sub(1).max(1),
        },
        Flex::SpaceAround if count > 0 => {
            let first = rest / (2 * count);
            Spaces {
                first,
                middle: 2 * first,
            }
        }
        _ => {
            let each = rest / (count + 1);
            Spaces {
                first: each,
                middle: each,
            }
        }
    }
}

// How many spaces of the least size come before all parts, and how many right after the wishes of
// the `Min`s.
fn least_of(flex: Flex, count: u64) -> (u64, u64)
    requires { count < 2 ^ 63 }
    ensures { IsSpread flex → result.0 + result.1 ≡ least_spaces flex count }
{
    match flex {
        Flex::SpaceBetween => (count.saturating_sub(1), 0),
        Flex::SpaceAround if count > 1 => (count, count),
        _ => (count + 1, 0),
    }
}

// Parts with spaces that share what is left.
fn arrange_spread(slots: &mut [Slot], room: Room) -> Spaces
    requires { IsSpread room.flex }
    ensures parts { slot_parts slots.new ≡ slot_parts slots.old }
    ensures given { GivesWishes slots.new room result }
    ensures arranged { KeepsWishes room.flex (length slots.new)
        → IsArranged slots.new room result }
{
    let count = slots.len() as u64;
    let (first, after) = least_of(room.flex, count);
    let least = room.gap.saturating_mul(first).min(room.whole);
    let for_parts = room_after_mins(slots, room.whole - least, room.gap.saturating_mul(after));
    share(slots, false, for_parts);
    spaces_of(rest_of(room.whole, slots), room.flex, count)
}

// A part alone, if there is one, takes the room.
fn give_all(slots: &mut [Slot], room: Room) -> Spaces
    ensures parts { slot_parts slots.new ≡ slot_parts slots.old }
    ensures spaces { (result.first ≡ 0) × (result.middle ≡ 0) }
    ensures one { length slots.old ≡ 1 → sizes_of slots.new ≡ room.whole ∷ [] }
{
    if !slots.is_empty() {
        slots[0].size = room.whole;
    }
    Spaces {
        first: 0,
        middle: 0,
    }
}

/// Gives the parts their sizes, and answers what the spaces have.
pub(crate) fn arrange(slots: &mut [Slot], room: Room) -> Spaces
    ensures parts { room.overlap ≡ 0 → slot_parts slots.new ≡ slot_parts slots.old }
    ensures given { room.overlap ≡ 0 → GivesWishes slots.new room result }
    ensures alone { room.overlap ≡ 0 → room.flex ≡ SpaceBetween → length slots.new ≡ 1
        → (sizes_of slots.new ≡ room.whole ∷ []) × (result.first ≡ 0) × (result.middle ≡ 0) }
    ensures arranged { room.overlap ≡ 0 → KeepsWishes room.flex (length slots.new)
        → IsArranged slots.new room result }
    ensures legacy { room.overlap ≡ 0 → room.flex ≡ Legacy
        → IsLegacy slots.new room result }
{
    let inner = (slots.len() as u64).saturating_sub(1);
    if room.overlap > 0 && inner > 0 {
        let case = Overlapped {
            overlap: room.overlap,
            whole: room.whole,
            flex: room.flex,
        };
        let gaps = share_overlapped(slots, case);
        return Spaces {
            first: gaps.lead,
            middle: gaps.middle / inner,
        };
    }
    match room.flex {
        Flex::Legacy | Flex::Start | Flex::End | Flex::Center => arrange_packed(slots, room),
        Flex::SpaceBetween if inner == 0 => give_all(slots, room),
        _ => arrange_spread(slots, room),
    }
}
