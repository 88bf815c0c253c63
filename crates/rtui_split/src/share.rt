//! Shares room among the parts.
ghost use Rattle.std.specs.Prelude.{◌≡◌, ◌-◌, ◌≤◌, ◌<◌, ◌+◌, ◌*◌, ◌^◌, ℕ};
ghost use Rattle.std.specs.Prelude.{length, min, All, IsTrue, IsFalse};
ghost use Rattle.rtui_split.specs.declared.slot.Slot.{Slot};
ghost use Rattle.rtui_split.specs.{Units.unit_levels, Wishes.patience};
ghost use Rattle.rtui_split.specs.Ragged.{Run, IsLeastRagged};
ghost use Rattle.rtui_split.specs.Inner.Slots.{slot_parts, constraints_of, sizes_of, total_of};
ghost use Rattle.rtui_split.specs.Inner.Slots.{if_before, if_in, wanted_before, wanted_in};
ghost use Rattle.rtui_split.specs.Inner.Slots.{wishes_of, heights_of, capped_in, tries_in};
ghost use Rattle.rtui_split.specs.Inner.Slots.{AllSlots, TriesItsWish, HasSizeAt};
ghost use Rattle.rtui_split.specs.Inner.Shares.{IsOfTurn, KeepsToTurn, HaveTried, ComeFirst};
ghost use Rattle.rtui_split.specs.Inner.Shares.{IsGranted, IsShared, IsStretchableAt, IsStretched};

use crate::cap::highest_level;
use crate::level::{Takers, level_of, size_at, takers_of, top_of};
use crate::part::{FILL, Part, turn_of};
use crate::slot::{Slot, left_before, try_all, try_wishes};
use crate::smooth::smooth;
use rtui_layout::Constraint;

/// The first turn whose wishes don't fit, and what is left for it; `FILL` if all fit.
#[derive(Debug, Clone, Copy, Drop)]
pub(crate) struct Short {
    pub turn: usize,
    pub left: u64,
}

pub(crate) fn first_short(slots: &[Slot], room: u64) -> Short
    ensures turn { result.turn ≤ 5 }
    ensures left { result.left + wanted_before result.turn slots.now ≡ room }
    ensures short { result.turn < 5 → room < wanted_before (result.turn + 1) slots.now }
{
    let mut left = room;
    for turn in 0..FILL {
        match left_before(slots, turn + 1, room) {
            Some(rest) => left = rest,
            None => return Short { turn, left },
        }
    }
    Short { turn: FILL, left }
}

// What the parts try whose turn comes too short: first come, first served; or all the same; or so
// that neighbours differ least.
fn try_short(slots: &mut [Slot], short: Short, legacy: bool)
    requires { short.left < wanted_in short.turn slots.old }
    ensures parts { slot_parts slots.new ≡ slot_parts slots.old }
    ensures first { IsTrue legacy → All TriesItsWish slots.new }
    ensures level { IsFalse legacy → short.turn ≡ 0 → (level : ℕ)
        × All (λ (s : Slot). s.size ≡ level) slots.new
        × (capped_in 0 level slots.old ≤ short.left)
        × (short.left < capped_in 0 (level + 1) slots.old) }
    ensures smooth { IsFalse legacy → 0 < short.turn → (end : Run)
        × IsLeastRagged (wishes_of short.turn slots.new)
        (heights_of short.turn slots.new) short.left (sizes_of slots.new) end }
{
    if legacy {
        try_wishes(slots);
    } else if short.turn == 0 {
        let level = highest_level(slots, short.turn, short.left);
        try_all(level, slots);
    } else {
        smooth(slots, short.turn, short.left);
    }
}

// What is left of so much, when each part of a turn gets what it tries, but at most its wish.
fn spare_of(slots: &[Slot], short: Short) -> u64
    ensures { result ≡ short.left - tries_in short.turn slots.now }
{
    let mut left = short.left;
    for Slot { part, size, .. } in slots {
        if turn_of(part.constraint) == short.turn {
            left = left.saturating_sub(part.wanted.min(*size));
        }
    }
    left
}

// What a part gets, what is left after it, and how much of that nobody tries.
#[derive(Debug, Clone, Copy, Drop)]
struct Grant {
    size: u64,
    left: u64,
    spare: u64,
}

// A part before a turn gets its wish. One of the turn gets what it tries, and of what nobody tries
// as much as it still wishes.
fn grant_of(part: &Part, turn: usize, tried: u64, left: u64, spare: u64) -> Grant
    ensures turn { KeepsToTurn turn part.now result.size }
    ensures given { result.size + result.left ≡ if_before turn part.now + left }
    ensures bound { (rest : ℕ) → left ≤ min (if_in turn part.now) tried + rest + spare
        → result.left ≤ rest + result.spare }
    ensures wished { (rest wishes : ℕ) → rest ≤ wishes
        → min (if_in turn part.now) tried + rest + spare ≤ if_in turn part.now + wishes
        → rest + result.spare ≤ wishes }
    ensures tried { (rest : ℕ) → min (if_in turn part.now) tried + rest + spare ≤ left
        → (min (if_in turn part.now) tried ≤ result.size)
        × (rest + result.spare ≤ result.left) }
    ensures first { if_in turn part.now ≤ tried → spare ≡ 0 →
        (IsOfTurn turn part.now → result.size ≡ min part.now.wanted left)
        × (result.left ≡ left - if_in turn part.now) × (result.spare ≡ 0) }
{
    let own = turn_of(part.constraint);
    if own < turn {
        Grant {
            size: part.wanted,
            left,
            spare,
        }
    } else if own == turn {
        let least = part.wanted.min(tried);
        let more = (part.wanted - least).min(spare);
        let size = (least + more).min(left);
        Grant {
            size,
            left: left - size,
            spare: spare - more,
        }
    } else {
        Grant {
            size: 0,
            left,
            spare,
        }
    }
}

// All before a turn get their wishes, and those of the turn what is left.
fn grant_all(slots: &mut [Slot], short: Short)
    requires { short.left ≤ wanted_in short.turn slots.old }
    ensures parts { slot_parts slots.new ≡ slot_parts slots.old }
    ensures each { AllSlots (KeepsToTurn short.turn) slots.new }
    ensures all { total_of slots.new ≡ wanted_before short.turn slots.new + short.left }
    ensures tried { tries_in short.turn slots.old ≤ short.left
        → HaveTried short.turn slots.old slots.new }
    ensures first { All TriesItsWish slots.old
        → ComeFirst short.turn short.left slots.new }
{
    let mut spare = spare_of(slots, short);
    let mut left = short.left;
    for slot in slots.iter_mut() {
        let grant = grant_of(&slot.part, short.turn, slot.size, left, spare);
        slot.size = grant.size;
        left = grant.left;
        spare = grant.spare;
    }
}

// Each part gets its size at a level.
fn fill(slots: &mut [Slot], takers: Takers, level: u64)
    ensures parts { slot_parts slots.new ≡ slot_parts slots.old }
    ensures sizes { AllSlots (HasSizeAt takers level) slots.new }
{
    for slot in slots.iter_mut() {
        slot.size = size_at(&slot.part, takers, level);
    }
}

/// Gives the parts their sizes in so much room, and answers what nobody takes.
pub(crate) fn share(slots: &mut [Slot], legacy: bool, room: u64) -> u64
    ensures parts { slot_parts slots.new ≡ slot_parts slots.old }
    ensures shared { IsShared legacy slots.new room result }
{
    let short = first_short(slots, room);
    if short.turn < FILL {
        try_short(slots, short, legacy);
        grant_all(slots, short);
        return 0;
    }
    let takers = takers_of(slots, legacy);
    let level = level_of(slots, takers, room);
    fill(slots, takers, level);
    left_at(level, room, slots)
}

// What nobody takes, if the sizes are those at a level.
fn left_at(level: u64, room: u64, slots: &[Slot]) -> u64
    ensures most { result ≤ room - total_of slots.now }
    ensures top { room < 2 ^ 43 → level ≡ (room + 1) * unit_levels
        → result ≡ room - total_of slots.now }
    ensures below { room < 2 ^ 43 → level < (room + 1) * unit_levels → result ≡ 0 }
{
    if level < top_of(room) {
        0
    } else {
        rest_of(room, slots)
    }
}

/// Returns what the parts leave of the whole.
pub(crate) fn rest_of(whole: u64, slots: &[Slot]) -> u64
    ensures { result ≡ whole - total_of slots.now }
{
    let mut rest = whole;
    for slot in slots {
        rest = rest.saturating_sub(slot.size);
    }
    rest
}

// How little a part minds to be stretched.
fn patience_of(constraint: Constraint) -> u8
    ensures { result ≡ patience constraint }
{
    match constraint {
        Constraint::Fill(_) => 5,
        Constraint::Min(_) => 4,
        Constraint::Ratio(..) => 3,
        Constraint::Percentage(_) => 2,
        Constraint::Length(_) => 1,
        Constraint::Max(_) => 0,
    }
}

// A part, and how little it minds to be stretched.
#[derive(Debug, Clone, Copy, Drop)]
struct Stretchable {
    at: usize,
    patience: u8,
}

// Of a part and one after it the one that minds less, and the later one if they mind the same.
fn last_of(one: Stretchable, after: Stretchable) -> Stretchable
    ensures after { one.patience ≤ after.patience → result ≡ after }
    ensures one { after.patience < one.patience → result ≡ one }
{
    if after.patience >= one.patience {
        after
    } else {
        one
    }
}

// The last part of the kind that minds least to be stretched.
fn stretchable_of(slots: &[Slot]) -> usize
    ensures { 0 < length slots.now → IsStretchableAt (constraints_of slots.now) result }
{
    let mut last = Stretchable { at: 0, patience: 0 };
    for (at, slot) in slots.iter().enumerate() {
        let patience = patience_of(slot.part.constraint);
        last = last_of(last, Stretchable { at, patience });
    }
    last.at
}

// A part with so much more.
fn stretched_by(slot: Slot, more: u64) -> Slot
    ensures part { result.part ≡ slot.part }
    ensures base { result.base ≡ slot.base }
    ensures size { result.size ≡ min (slot.size + more) u64.MAX }
    ensures least { slot.size ≤ result.size }
{
    Slot {
        size: slot.size.saturating_add(more),
        ..slot
    }
}

/// Gives what nobody takes to the last part of the kind that minds least.
pub(crate) fn stretch(slots: &mut [Slot], left: u64)
    ensures parts { slot_parts slots.new ≡ slot_parts slots.old }
    ensures granted { (t : ℕ) → AllSlots (IsGranted t) slots.old
        → AllSlots (IsGranted t) slots.new }
    ensures all { total_of slots.new ≤ total_of slots.old + left }
    ensures nothing { left ≡ 0 → slots.new ≡ slots.old }
    ensures one { 0 < length slots.old → total_of slots.old + left < 2 ^ 64
        → IsStretched (sizes_of slots.old) slots.new left }
{
    let at = stretchable_of(slots);
    if at < slots.len() {
        slots[at] = stretched_by(slots[at], left);
    }
}
