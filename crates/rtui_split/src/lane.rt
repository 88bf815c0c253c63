//! From a layout and an area to the parts, with room for notes lent by the caller.
ghost use Rattle.std.specs.Prelude.{◌≡◌, ◌≤◌, ◌<◌, ◌+◌, ◌^◌, List, [], ◌∷◌, length, vec_len, IfOk};
ghost use Rattle.rtui_split.specs.Cut.{first_cell, area_end, IsSpace};
ghost use Rattle.rtui_split.specs.Split.{inner, gap_units, centered_layout, IsSplit};
ghost use Rattle.rtui_split.specs.Inner.Lanes.{IsLane, IsRule};
ghost use Rattle.rtui_layout.specs.Layout.{LayoutData};
ghost use Rattle.rtui_layout.specs.declared.{constraint.Constraint.Constraint};
ghost use Rattle.rtui_layout.specs.declared.{direction.Direction.Direction};
ghost use Rattle.rtui_split.specs.Spacers.{AreSpacers};
ghost use Rattle.rtui_geometry.specs.declared.rect.Rect.{Rect};

use crate::flex::{Room, arrange};
use crate::part::CELL_UNITS;
use crate::place::{Lane, place, place_spaces};
use crate::slot::{Slot, write_slots};
use rtui_geometry::{Margin, Rect};
use rtui_layout::{Constraint, Direction, Flex, Layout, Spacing};
use std::alloc::{AllocError, Global};

// The space between two parts, in units.
fn gap_of(spacing: &Spacing) -> u64
    ensures { result ≡ gap_units spacing.now }
{
    match spacing {
        Spacing::Space(n) => u64::from(*n) * CELL_UNITS,
        Spacing::Overlap(_) => 0,
    }
}

// How far a part lies over the one before, in units, and at most so far.
fn overlap_of(spacing: &Spacing, flex: Flex, most: u64) -> u64
    ensures { IsSpace spacing.now → result ≡ 0 }
{
    match (spacing, flex) {
        (Spacing::Space(_), _) => 0,
        (Spacing::Overlap(_), Flex::SpaceAround | Flex::SpaceEvenly) => 0,
        (Spacing::Overlap(n), _) => (u64::from(*n) * CELL_UNITS).min(most),
    }
}

fn start_of(direction: Direction, area: Rect) -> u16
    ensures { result ≡ first_cell direction area }
{
    match direction {
        Direction::Horizontal => area.x,
        Direction::Vertical => area.y,
    }
}

fn end_of(direction: Direction, area: Rect) -> u16
    ensures value { result ≡ area_end direction area }
    ensures after { first_cell direction area ≤ result }
{
    match direction {
        Direction::Horizontal => area.right(),
        Direction::Vertical => area.bottom(),
    }
}

// The area less the margin.
fn inner_of(area: Rect, margin: Margin) -> Rect
    ensures { result ≡ inner area margin }
{
    area.inner(margin)
}

/// Returns the columns or rows of an area that a layout cuts.
pub(crate) fn lane_of(layout: &Layout, area: Rect) -> Lane
    ensures { IsLane layout.now (inner area layout.now.margin) result }
{
    let area = inner_of(area, layout.margin_of());
    let direction = layout.direction_of();
    let (start, end) = (start_of(direction, area), end_of(direction, area));
    Lane {
        area,
        direction,
        start,
        end,
    }
}

// What a layout says of the room that no part takes, in units.
#[derive(Debug, Clone, Copy, Drop)]
struct Rule {
    flex: Flex,
    gap: u64,
    overlap: u64,
}

fn rule_of(layout: &Layout, lane: Lane) -> Rule
    ensures { IsRule layout.now layout.now.constraints result }
{
    let flex = layout.flex_of();
    let spacing = layout.spacing_of();
    let most = u64::from(lane.end - lane.start) * CELL_UNITS;
    Rule {
        flex,
        gap: gap_of(spacing),
        overlap: overlap_of(spacing, flex, most),
    }
}

// Writes the parts of these constraints, with a slot for each.
fn cut_by(
    constraints: &[Constraint],
    rule: Rule,
    lane: Lane,
    slots: &mut [Slot],
    segments: &mut [Rect],
)
    requires slots { length slots.old ≡ length constraints.now }
    requires segments { length segments.old ≡ length constraints.now }
    ensures { (l : LayoutData) → IsLane l lane.area lane → IsRule l constraints.now rule
        → IsSplit l lane.area segments.new }
{
    let cells = lane.end - lane.start;
    let Rule { flex, gap, overlap } = rule;
    let room = Room {
        whole: u64::from(cells) * CELL_UNITS,
        flex,
        gap,
        overlap,
    };
    write_slots(constraints, cells, slots);
    let spaces = arrange(slots, room);
    place(slots, spaces, overlap, lane, segments);
}

// Writes the parts of a layout.
fn cut_lane(layout: &Layout, lane: Lane, slots: &mut [Slot], segments: &mut [Rect])
    requires lane { IsLane layout.now lane.area lane }
    requires slots { length slots.old ≡ length layout.now.constraints }
    requires segments { length segments.old ≡ length layout.now.constraints }
    ensures { IsSplit layout.now lane.area segments.new }
{
    let rule = rule_of(layout, lane);
    cut_by(layout.constraints_of(), rule, lane, slots, segments);
}

// The rule of a part alone in the middle.
fn middle_rule() -> Rule
    ensures { (d : Direction) (c : Constraint) → IsRule (centered_layout d c) (c ∷ []) result }
{
    Rule {
        flex: Flex::Center,
        gap: 0,
        overlap: 0,
    }
}

/// Returns the part of one constraint in the middle of an area; takes no memory.
pub(crate) fn cut_centered(constraint: Constraint, direction: Direction, area: Rect) -> Rect
    ensures { IsSplit (centered_layout direction constraint) area (result ∷ []) }
{
    let (start, end) = (start_of(direction, area), end_of(direction, area));
    let lane = Lane {
        area,
        direction,
        start,
        end,
    };
    let mut slots = [Slot::NONE];
    let mut segments = [Rect::ZERO];
    cut_by(
        &[constraint],
        middle_rule(),
        lane,
        &mut slots,
        &mut segments,
    );
    segments[0]
}

/// Returns the parts, in a list.
///
/// # Errors
///
/// `AllocError` if memory is refused.
pub(crate) fn cut_list(alloc: Global, layout: &Layout, lane: Lane) -> Result<Vec<Rect>, AllocError>
    requires { IsLane layout.now lane.area lane }
    ensures { IfOk result (λ parts. IsSplit layout.now lane.area parts.items) }
{
    let count = layout.constraints_of().len();
    let mut slots = vec![in alloc; Slot::NONE; count]?;
    let mut segments = vec![in alloc; Rect::ZERO; count]?;
    cut_lane(layout, lane, &mut slots, &mut segments);
    Ok(segments)
}

/// Returns the parts, in an array of as many; takes no memory.
pub(crate) fn cut_array<const N: usize>(layout: &Layout, lane: Lane) -> [Rect; N]
    requires lane { IsLane layout.now lane.area lane }
    requires count { N ≡ length layout.now.constraints }
    requires small { N < 2 ^ 32 }
    ensures { IsSplit layout.now lane.area result }
{
    let mut slots = [Slot::NONE; N];
    let mut segments = [Rect::ZERO; N];
    cut_lane(layout, lane, &mut slots, &mut segments);
    segments
}

// Writes the spaces before, between and after the parts.
fn cut_spaces(layout: &Layout, lane: Lane, segments: &[Rect], spaces: &mut [Rect])
    requires lane { IsLane layout.now lane.area lane }
    requires parts { IsSplit layout.now lane.area segments.now }
    requires count { length spaces.old ≡ length segments.now + 1 }
    ensures { AreSpacers layout.now lane.area spaces.new segments.now }
{
    place_spaces(segments, lane, spaces);
}

/// Returns the spaces before, between and after these parts, in a list.
///
/// # Errors
///
/// `AllocError` if memory is refused.
pub(crate) fn spaces_list(
    alloc: Global,
    layout: &Layout,
    lane: Lane,
    segments: &[Rect],
) -> Result<Vec<Rect>, AllocError>
    requires lane { IsLane layout.now lane.area lane }
    requires parts { IsSplit layout.now lane.area segments.now }
    ensures { IfOk result (λ spaces.
        AreSpacers layout.now lane.area spaces.items segments.now) }
{
    let mut spaces = vec![in alloc; Rect::ZERO; segments.len() + 1]?;
    cut_spaces(layout, lane, segments, &mut spaces);
    Ok(spaces)
}

/// Returns the spaces before, between and after the parts, in an array of one more than parts;
/// takes no memory.
pub(crate) fn spaces_array<const N: usize>(layout: &Layout, lane: Lane) -> [Rect; N]
    requires lane { IsLane layout.now lane.area lane }
    requires count { N ≡ length layout.now.constraints + 1 }
    requires small { N < 2 ^ 32 }
    ensures { (parts : List Rect) × IsSplit layout.now lane.area parts
        × AreSpacers layout.now lane.area result parts }
{
    let mut slots = [Slot::NONE; N];
    let mut segments = [Rect::ZERO; N];
    let mut spaces = [Rect::ZERO; N];
    let count = N - 1;
    let (slots, segments) = (&mut slots[..count], &mut segments[..count]);
    cut_lane(layout, lane, slots, segments);
    cut_spaces(layout, lane, segments, &mut spaces);
    spaces
}
