//! Cuts an area at the edges of the parts.
ghost use Rattle.std.specs.Prelude.{◌≡◌, ◌<◌, ◌≤◌, ◌+◌, ◌*◌, ◌-◌, ◌/◌, ℕ, length, min, max};
ghost use Rattle.std.specs.Prelude.{All};
ghost use Rattle.std.specs.List.{AllZip};
ghost use Rattle.rtui_split.specs.Cut.{first_cell, after_of, length_of, InOrder, Alternate};
ghost use Rattle.rtui_split.specs.Cut.{SpansAcross, IsPartAlong};
ghost use Rattle.rtui_split.specs.Cut.{AtMostCells, AtLeastCells, AreEdges};
ghost use Rattle.rtui_split.specs.Units.{cell_units, IsRounding};
ghost use Rattle.rtui_split.specs.Inner.{Slots.sizes_of, Spaces.HasRoomForSpaces, Spaces.IsCutTo};

use crate::flex::Spaces;
use crate::part::CELL_UNITS;
use crate::slot::Slot;
use rtui_geometry::Rect;
use rtui_layout::Direction;

/// The columns or rows of an area along a direction.
#[derive(Debug, Clone, Copy, Drop)]
pub(crate) struct Lane {
    pub area: Rect,
    pub direction: Direction,
    pub start: u16,
    pub end: u16,
    ghost ordered: { start ≤ end },
    ghost on_grid: { end ≤ 65535 },
}

// What is added to a place before it is cut to whole cells: a half, and a bit more, since places
// count to hundredths, half up, and each may have lost a unit for each part before it.
fn rounding_of(count: usize) -> u64
    ensures { IsRounding result }
{
    let lost = (count as u64).saturating_mul(2).min(CELL_UNITS / 400);
    CELL_UNITS / 2 + CELL_UNITS / 200 + lost
}

// The column or row of a place.
fn cell_of(place: u64, rounding: u64, lane: Lane) -> u16
    requires place { place ≤ (lane.end - lane.start) * cell_units }
    requires rounding { rounding < cell_units }
    ensures value { result ≡ lane.start + (place + rounding) / cell_units }
    ensures to { result ≤ lane.end }
{
    lane.start + ((place + rounding) / CELL_UNITS) as u16
}

// From one column or row up to another, across the area.
fn across(lane: Lane, from: u16, to: u16) -> Rect
    requires { from ≤ to }
    ensures from { first_cell lane.direction result ≡ from }
    ensures to { after_of lane.direction result ≡ to }
    ensures size { from + length_of lane.direction result ≡ to }
    ensures across { SpansAcross lane.direction lane.area result }
{
    let size = to - from;
    let area = lane.area;
    match lane.direction {
        Direction::Horizontal => Rect {
            x: from,
            y: area.y,
            width: size,
            height: area.height,
        },
        Direction::Vertical => Rect {
            x: area.x,
            y: from,
            width: area.width,
            height: size,
        },
    }
}

// Where a part begins, and where it ends, in units.
#[derive(Debug, Clone, Copy, Drop)]
struct Stretch {
    begin: u64,
    finish: u64,
}

// A part of so much from a place on, as far as there is room.
fn stretch_from(at: u64, size: u64, whole: u64) -> Stretch
    ensures begin { result.begin ≡ min at whole }
    ensures finish { result.finish ≡ min (result.begin + size) whole }
{
    let begin = at.min(whole);
    Stretch {
        begin,
        finish: begin.saturating_add(size).min(whole),
    }
}

// Where the part after this one begins.
fn place_after(part: Stretch, spaces: Spaces, overlap: u64) -> u64
    ensures { overlap ≡ 0 → result ≡ min (part.finish + spaces.middle) u64.MAX }
{
    part.finish
        .saturating_add(spaces.middle)
        .saturating_sub(overlap)
}

/// Writes the parts of these sizes.
pub(crate) fn place(slots: &[Slot], spaces: Spaces, overlap: u64, lane: Lane, parts: &mut [Rect])
    requires { length parts.old ≡ length slots.now }
    ensures inside { All (IsPartAlong lane.direction lane.area lane.start lane.end) parts.new }
    ensures in_order { overlap ≡ 0 → InOrder lane.direction lane.start lane.end parts.new }
    ensures at_most { AllZip (IsCutTo AtMostCells lane.direction) (sizes_of slots.now) parts.new }
    ensures at_least { overlap ≡ 0 → HasRoomForSpaces spaces
        ((lane.end - lane.start) * cell_units) (sizes_of slots.now)
        → AllZip (IsCutTo AtLeastCells lane.direction) (sizes_of slots.now) parts.new }
    ensures edges { overlap ≡ 0 → HasRoomForSpaces spaces
        ((lane.end - lane.start) * cell_units) (sizes_of slots.now)
        → (rounding : ℕ) × IsRounding rounding
        × AreEdges lane.direction lane.start rounding spaces.middle spaces.first
        (sizes_of slots.now) parts.new }
{
    let whole = u64::from(lane.end - lane.start) * CELL_UNITS;
    let rounding = rounding_of(slots.len());
    let mut at = spaces.first;
    for (i, slot) in slots.iter().enumerate() {
        let part = stretch_from(at, slot.size, whole);
        let from = cell_of(part.begin, rounding, lane);
        let to = cell_of(part.finish, rounding, lane);
        parts[i] = across(lane, from, to);
        at = place_after(part, spaces, overlap);
    }
}

// The first column or row of a part, and the one after its last.
fn ends_of(part: Rect, lane: Lane) -> (u16, u16)
    ensures first { result.0 ≡ first_cell lane.direction part }
    ensures after { result.1 ≡ min (after_of lane.direction part) 65535 }
{
    match lane.direction {
        Direction::Horizontal => (part.x, part.right()),
        Direction::Vertical => (part.y, part.bottom()),
    }
}

// The space up to a part; nothing, where the part begins before the end of the one before.
fn space_up_to(lane: Lane, before: u16, part: u16) -> Rect
    ensures from { first_cell lane.direction result ≡ before }
    ensures to { after_of lane.direction result ≡ max part before }
    ensures across { SpansAcross lane.direction lane.area result }
{
    across(lane, before, part.max(before))
}

// The space after the last part.
fn last_space(lane: Lane, before: u16) -> Rect
    ensures from { first_cell lane.direction result ≡ before }
    ensures to { after_of lane.direction result ≡ max lane.end before }
    ensures across { SpansAcross lane.direction lane.area result }
{
    across(lane, before, lane.end.max(before))
}

/// Writes the spaces before, between and after these parts: nothing, where a part begins before the
/// end of the one before.
pub(crate) fn place_spaces(parts: &[Rect], lane: Lane, spaces: &mut [Rect])
    requires { length spaces.old ≡ length parts.now + 1 }
    ensures across { All (SpansAcross lane.direction lane.area) spaces.new }
    ensures turns { InOrder lane.direction lane.start lane.end parts.now
        → Alternate lane.direction lane.start lane.end spaces.new parts.now }
{
    let mut before = lane.start;
    for (i, part) in parts.iter().enumerate() {
        let (from, to) = ends_of(*part, lane);
        spaces[i] = space_up_to(lane, before, from);
        before = to;
    }
    spaces[parts.len()] = last_space(lane, before);
}
