//! Shares room that is too little for all that wish it so that neighbours differ least.
ghost use Rattle.std.specs.Prelude.{ℕ, ◌≡◌, ◌≤◌, ◌<◌, ◌+◌, ◌-◌, length, min, sum, slice_index, ◌/◌};
ghost use Rattle.std.specs.Prelude.{IsTrue, IsFalse, MatchOption, ◌⊎◌, ◌*◌};
ghost use Rattle.rtui_split.specs.Inner.Slots.{slot_parts, sizes_of, wanted_in};
ghost use Rattle.rtui_split.specs.Inner.Slots.{wishes_of, heights_of};
ghost use Rattle.rtui_split.specs.Ragged.{IsRunOf, run_length, beside, growth_before, growth_after};
ghost use Rattle.rtui_split.specs.Ragged.{growth, rank_at, rank, CostsNoMore, ComesNoLater};
ghost use Rattle.rtui_split.specs.Ragged.{Run as PartRun, IsLeastRagged};
ghost use Rattle.rtui_split.specs.Inner.Runs.{as_run, IsFirstRun, KeepsUpTo, StartsAt};

use crate::part::turn_of;
use crate::slot::{Slot, try_all};

/// Neighbouring parts of a turn, from the first up to before another, that wish more than a height.
#[derive(Debug, Clone, Copy, PartialEq, Eq, Drop)]
pub(crate) struct Run {
    pub first: usize,
    pub after: usize,
    pub height: u64,
}

// What a part wishes, if this is its turn; nothing beyond the last part.
fn wish_at(slots: &[Slot], turn: usize, at: usize) -> u64
    ensures { result ≡ slice_index (wishes_of turn slots.now) at }
{
    match slots.get(at) {
        Some(Slot { part, .. }) if turn_of(part.constraint) == turn => part.wanted,
        _ => 0,
    }
}

// How high a part stands whose turn came before.
fn stand_at(slots: &[Slot], turn: usize, at: usize) -> u64
    ensures { result ≡ slice_index (heights_of turn slots.now) at }
{
    match slots.get(at) {
        Some(Slot { part, .. }) if turn_of(part.constraint) < turn => part.wanted,
        _ => 0,
    }
}

// One more than what the difference to a neighbour grows by, if each part of the run gets a unit.
fn side_at(slots: &[Slot], turn: usize, run: Run, at: usize) -> u64
    ensures value { result ≡ beside (heights_of turn slots.now) (as_run run) at }
    ensures few { result ≤ 2 }
{
    if stand_at(slots, turn, at) > run.height {
        0
    } else {
        2
    }
}

// The same of the neighbour before the run, and of none.
fn side_before(slots: &[Slot], turn: usize, run: Run) -> u64
    ensures value { result ≡ growth_before (heights_of turn slots.now) (as_run run) }
    ensures few { result ≤ 2 }
{
    if run.first == 0 {
        1
    } else {
        side_at(slots, turn, run, run.first - 1)
    }
}

// The same ended it.
fn side_after(slots: &[Slot], turn: usize, run: Run) -> u64
    ensures value { result ≡ growth_after (heights_of turn slots.now) (as_run run) }
    ensures few { result ≤ 2 }
{
    if run.after == slots.len() {
        1
    } else {
        side_at(slots, turn, run, run.after)
    }
}

impl Run {
    fn length(self) -> u64
        ensures { result ≡ run_length (as_run self) }
    {
        self.after.saturating_sub(self.first) as u64
    }
}

// Whether a run's price is no more than another's, by what the differences grow with each.
fn costs_no_more(growth: u64, length: u64, other: u64, long: u64) -> bool
    requires one { growth ≤ 4 }
    requires other { other ≤ 4 }
    ensures yes { IsTrue result → growth * long + 2 * length ≤ other * length + 2 * long }
    ensures no { IsFalse result → other * length + 2 * long < growth * long + 2 * length }
{
    let (one, two) = (u128::from(length), u128::from(long));
    u128::from(growth) * two + 2 * one <= u128::from(other) * one + 2 * two
}

// Whether a run comes no later than another.
fn comes_no_later(slots: &[Slot], turn: usize, run: Run, other: Run) -> bool
    ensures yes { IsTrue result
        → ComesNoLater (heights_of turn slots.now) (as_run run) (as_run other) }
    ensures no { IsFalse result
        → ComesNoLater (heights_of turn slots.now) (as_run other) (as_run run) }
{
    let (growth, length) = (growth_of(slots, turn, run), run.length());
    let (others, long) = (growth_of(slots, turn, other), other.length());
    if !costs_no_more(growth, length, others, long) {
        return false;
    }
    if !costs_no_more(others, long, growth, length) {
        return true;
    }
    let (rank, rank_of_other) = (rank_of(slots, turn, run), rank_of(slots, turn, other));
    rank < rank_of_other || rank == rank_of_other && run.height <= other.height
}

// Two more than what the differences to both neighbours grow by.
fn growth_of(slots: &[Slot], turn: usize, run: Run) -> u64
    ensures value { result ≡ growth (heights_of turn slots.now) (as_run run) }
    ensures few { result ≤ 4 }
{
    side_before(slots, turn, run) + side_after(slots, turn, run)
}

// Which of the runs of one price comes first, by the last difference that it changes.
fn rank_of(slots: &[Slot], turn: usize, run: Run) -> u128
    ensures { result ≡ rank (heights_of turn slots.now) (as_run run) }
{
    let ended = side_after(slots, turn, run);
    let (grows, place) = if ended == 1 {
        (side_before(slots, turn, run), run.first)
    } else {
        (ended, run.after)
    };
    let (count, place) = (slots.len() as u128, place as u128);
    match grows {
        2 => count.saturating_sub(place),
        1 => count,
        _ => count + place,
    }
}

// Whether a run begins at a place, if it is at this height.
fn starts_at(slots: &[Slot], turn: usize, height: u64, at: usize) -> bool
    ensures yes { IsTrue result → StartsAt (wishes_of turn slots.now) height at }
    ensures no { IsFalse result → StartsAt (wishes_of turn slots.now) height at → ⊥ }
{
    wish_at(slots, turn, at) > height && (at == 0 || wish_at(slots, turn, at - 1) <= height)
}

// The run at this height that begins at this place.
fn run_from(slots: &[Slot], turn: usize, height: u64, first: usize) -> Run
    requires { StartsAt (wishes_of turn slots.now) height first }
    ensures run { IsRunOf (wishes_of turn slots.now) (as_run result) }
    ensures first { result.first ≡ first }
    ensures height { result.height ≡ height }
{
    for after in first..slots.len() {
        if wish_at(slots, turn, after) <= height {
            return Run {
                first,
                after,
                height,
            };
        }
    }
    Run {
        first,
        after: slots.len(),
        height,
    }
}

// Which of two runs comes first.
fn first_of(slots: &[Slot], turn: usize, best: Option<Run>, run: Run) -> Run
    ensures new { ComesNoLater (heights_of turn slots.now) (as_run result) (as_run run) }
    ensures old { MatchOption best (result ≡ run) (λ other.
        ComesNoLater (heights_of turn slots.now) (as_run result) (as_run other)
        × ((result ≡ run) ⊎ (result ≡ other))) }
{
    match best {
        Some(other) if comes_no_later(slots, turn, other, run) => other,
        _ => run,
    }
}

// The run that comes first of those whose first part stands at their height.
fn next_run(slots: &[Slot], turn: usize) -> Option<Run>
    ensures { MatchOption result
        ((r : PartRun) → IsRunOf (wishes_of turn slots.now) r
        → slice_index (sizes_of slots.now) r.first ≡ r.height → ⊥)
        (λ r. IsFirstRun (wishes_of turn slots.now) (heights_of turn slots.now)
        (sizes_of slots.now) (length (wishes_of turn slots.now)) (as_run r)) }
{
    let mut best: Option<Run> = None;
    for first in 0..slots.len() {
        let height = slots[first].size;
        if starts_at(slots, turn, height, first) {
            let run = run_from(slots, turn, height, first);
            best = Some(first_of(slots, turn, best, run));
        }
    }
    best
}

// The lower of two heights, of which the second counts only if it is above a run.
fn bounded(top: u64, height: u64, beside: u64) -> u64
    ensures higher { height < top → height < result }
    ensures most { result ≤ top }
    ensures beside { height < beside → result ≤ beside }
{
    if beside > height {
        top.min(beside)
    } else {
        top
    }
}

// The height below which a run keeps its parts and its neighbours.
fn ceiling_of(slots: &[Slot], turn: usize, run: Run) -> u64
    requires { IsRunOf (wishes_of turn slots.now) (as_run run) }
    ensures higher { run.height < result }
    ensures keeps { KeepsUpTo (wishes_of turn slots.now) (heights_of turn slots.now)
        (as_run run) result }
{
    let mut top = wish_at(slots, turn, run.first);
    for i in run.first..run.after {
        top = top.min(wish_at(slots, turn, i));
    }
    if run.first > 0 {
        top = bounded(top, run.height, stand_at(slots, turn, run.first - 1));
    }
    bounded(top, run.height, stand_at(slots, turn, run.after))
}

// The parts of a run try this height.
fn raise(run: Run, height: u64, slots: &mut [Slot])
    requires within { run.after ≤ length slots.old }
    requires stand { (i : ℕ) → run.first ≤ i → i < run.after
        → slice_index (sizes_of slots.old) i ≡ run.height }
    requires height { run.height ≤ height }
    ensures parts { slot_parts slots.new ≡ slot_parts slots.old }
    ensures inside { (i : ℕ) → run.first ≤ i → i < run.after
        → slice_index (sizes_of slots.new) i ≡ height }
    ensures others { (i : ℕ) → (i < run.first) ⊎ (run.after ≤ i)
        → slice_index (sizes_of slots.new) i ≡ slice_index (sizes_of slots.old) i }
    ensures all { sum (sizes_of slots.new)
        ≡ sum (sizes_of slots.old) + (height - run.height) * run_length (as_run run) }
{
    for i in run.first..run.after {
        slots[i].size = height;
    }
}

// By how much a run rises: to its ceiling, as far as there is room for all of it.
fn rise_of(run: Run, top: u64, left: u64) -> u64
    requires some { 0 < run_length (as_run run) }
    requires higher { run.height ≤ top }
    ensures { result ≡ min (top - run.height) (left / run_length (as_run run)) }
{
    (top - run.height).min(left / run.length())
}

/// Tries to share the room among the parts whose turn this is so that neighbours differ least.
pub(crate) fn smooth(slots: &mut [Slot], turn: usize, room: u64)
    requires { room < wanted_in turn slots.old }
    ensures parts { slot_parts slots.new ≡ slot_parts slots.old }
    ensures shared { (end : PartRun) × IsLeastRagged (wishes_of turn slots.new)
        (heights_of turn slots.new) room (sizes_of slots.new) end }
{
    try_all(0, slots);
    let mut left = room;
    'rising: while let Some(run) = next_run(slots, turn) {
        let top = ceiling_of(slots, turn, run);
        let by = rise_of(run, top, left);
        raise(run, run.height + by, slots);
        left -= by * run.length();
        if run.height + by < top {
            break;
        }
    }
}
