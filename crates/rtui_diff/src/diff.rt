//! The updates between two frames.

ghost use Rattle.std.specs.Prelude.{◌≡◌, ◌+◌, ◌*◌, ◌^◌, ◌<◌, ◌≤◌, length};
ghost use Rattle.rtui_cell.specs.Grid.{update_by};
ghost use Rattle.rtui_diff.specs.Diff.{IsDiff};

use crate::cells::{is_same, is_same_byte};
use crate::step::{is_given, is_given_when_visited, is_single_byte_given, step_after};
use rtui_cell::{Cell, CellWidth};
use std::marker::Model;

/// The updates from one frame to the next that are left, over their common rows: a column, a row
/// and the cell to be put there, row by row.
#[derive(Debug, Drop)]
pub struct BufferDiff<'prev, 'next> {
    walk: DiffWalk<'prev, 'next>,
}

impl<'prev, 'next> Model for BufferDiff<'prev, 'next> {
    ghost use Rattle.std.specs.Prelude.{List};
    ghost use Rattle.rtui_cell.specs.Grid.{Update};

    ghost Value = { List Update };

    ghost use Rattle.rtui_diff.specs.Remaining.{updates_left};

    ghost view = { λ d. updates_left d.walk };
}

impl<'prev, 'next> BufferDiff<'prev, 'next> {
    /// Makes the updates over the area at (x, y) of this width and height, in columns and rows.
    /// Both lists have its cells, row by row, and may go on after it.
    ///
    /// # Conditions
    ///
    /// Both lists have at least `width * height` cells, and neither edge of the area, `x + width`
    /// and `y + height`, lies past 65535.
    pub fn new(
        prev: &'prev [Cell],
        next: &'next [Cell],
        x: u16,
        y: u16,
        width: u16,
        height: u16,
    ) -> Self
        requires prev_covers { width * height ≤ length prev.now }
        requires next_covers { width * height ≤ length next.now }
        requires right { x + width ≤ 65535 }
        requires bottom { y + height ≤ 65535 }
        ensures { IsDiff x y width height prev.now next.now result }
    {
        BufferDiff {
            walk: DiffWalk::new(prev, next, x, y, width, height),
        }
    }
}

impl<'prev, 'next> Iterator for BufferDiff<'prev, 'next> {
    ghost use Rattle.std.specs.Iterator.{YieldsFirstBy, item_count};

    type Item = (u16, u16, &'next Cell);

    ghost next_gives = { YieldsFirstBy (update_by (λ cell. cell.now)) (λ rest. rest) };

    ghost remaining = { item_count (λ rest. rest) };

    fn next(&mut self) -> Option<(u16, u16, &'next Cell)> {
        while self.walk.pos < self.walk.len {
            let at = self.walk.pos;
            if self.walk.advance() {
                return Some(self.walk.item(at));
            }
            // after a cell that didn't change and has one column there are mostly more of them
            if self.walk.pos == at + 1 {
                self.walk.pass_same();
            }
        }
        None
    }
}

// Two frames, and how far a diff of them is.
#[derive(Debug, Drop)]
struct DiffWalk<'prev, 'next> {
    prev: &'prev [Cell],
    next: &'next [Cell],
    x: u16,
    y: u16,
    width: u16,
    height: u16,
    len: usize,
    // the next place, the end of the visited range, and whether its cells are given at all events
    pos: usize,
    end: usize,
    force: bool,
    // a row that doesn't begin after the next place
    row: Row,
    ghost prev_covers: { len ≤ length prev.now },
    ghost next_covers: { len ≤ length next.now },
    ghost count: { len ≡ width * height },
    ghost right: { x + width ≤ 65535 },
    ghost bottom: { y + height ≤ 65535 },
    ghost row_start: { row.start ≡ row.index * width },
    ghost row_begun: { row.start ≤ pos },
}

// A row of a frame: how many stand above it, and the place of its first cell.
#[derive(Debug, Clone, Copy)]
struct Row {
    index: u16,
    start: usize,
}

impl<'prev, 'next> DiffWalk<'prev, 'next> {
    ghost use Rattle.rtui_diff.specs.DiffRule.{give};
    ghost use Rattle.rtui_diff.specs.Remaining.{places_left, updates_left};
    ghost use Rattle.rtui_diff.specs.Inner.{IsSameBut};
    ghost use Rattle.rtui_diff.specs.Updates.{update_at, updates};

    fn new(
        prev: &'prev [Cell],
        next: &'next [Cell],
        x: u16,
        y: u16,
        width: u16,
        height: u16,
    ) -> Self
        requires prev_covers { width * height ≤ length prev.now }
        requires next_covers { width * height ≤ length next.now }
        requires right { x + width ≤ 65535 }
        requires bottom { y + height ≤ 65535 }
        ensures { updates_left result ≡ updates x y width height prev.now next.now }
    {
        DiffWalk {
            prev,
            next,
            x,
            y,
            width,
            height,
            len: usize::from(width) * usize::from(height),
            pos: 0,
            end: 0,
            force: false,
            row: Row { index: 0, start: 0 },
        }
    }

    // Goes past the next cell, and answers whether it is given.
    fn advance(&mut self) -> bool
        requires more { self.old.pos < self.old.len }
        ensures gives { places_left self.old ≡ give result self.old.pos (places_left self.new) }
        ensures further { self.old.pos < self.new.pos }
        ensures row { self.new.row ≡ self.old.row }
        ensures same { IsSameBut self.old self.new }
    {
        let at = self.pos;
        let prev = &self.prev[at];
        let next = &self.next[at];
        if at < self.end {
            self.pos = at + usize::from(next.cell_width().max(1));
            return is_given_when_visited(self.force, prev, next);
        }
        if next.is_single_byte() && prev.is_single_byte() {
            self.pos = at + 1;
            return is_single_byte_given(next, is_same_byte(prev, next));
        }
        let given = is_given(next, is_same(prev, next));
        let step = step_after(prev, next, given);
        self.pos = place_behind(at, step.over);
        self.end = at + 1 + usize::from(step.left);
        self.force = step.force;
        given
    }

    // Goes past cells of a single byte that are the same in both frames, up to any other one.
    #[inline(never)]
    fn pass_same(&mut self)
        ensures left { places_left self.new ≡ places_left self.old }
        ensures further { self.old.pos ≤ self.new.pos }
        ensures row { self.new.row ≡ self.old.row }
        ensures same { IsSameBut self.old self.new }
    {
        if self.pos < self.end {
            return;
        }
        while self.pos < self.len {
            let at = self.pos;
            let prev = &self.prev[at];
            let next = &self.next[at];
            if !next.is_single_byte() || !prev.is_single_byte() || !is_same_byte(prev, next) {
                return;
            }
            self.pos = at + 1;
        }
    }

    // The update at a place that the walk has come past.
    #[tactic(auto, using(crate::proofs::FrameLemmas::row_rules))]
    fn item(&mut self, at: usize) -> (u16, u16, &'next Cell)
        requires inside { at < self.old.len }
        requires begun { self.old.row.start ≤ at }
        requires past { at < self.old.pos }
        ensures update { let d = self.old in
            update_by (λ cell. cell.now) result ≡ update_at d.x d.y d.width d.next.now at }
        ensures left { places_left self.new ≡ places_left self.old }
        ensures same { IsSameBut self.old self.new }
    {
        self.row = row_with(self.row, usize::from(self.width), at);
        let next = self.next;
        (
            self.x + (at - self.row.start) as u16,
            self.y + self.row.index,
            &next[at],
        )
    }
}

// The row that has a place, from one that doesn't begin after it. A walk comes to few new rows, so
// it counts them and takes no division for each place.
#[tactic(auto, using(crate::proofs::FrameLemmas::row_rules))]
fn row_with(from: Row, width: usize, at: usize) -> Row
    requires start { from.start ≡ from.index * width }
    requires begun { from.start ≤ at }
    requires inside { at < width * 65536 }
    ensures start { result.start ≡ result.index * width }
    ensures begun { result.start ≤ at }
    ensures inside { at < result.start + width }
{
    let mut row = from;
    while at - row.start >= width {
        row = Row {
            index: row.index + 1,
            start: row.start + width,
        };
    }
    row
}

// The place after a cell and the columns that are stepped over. The usual steps stand apart, so
// that a processor that foresees them reads on before the width is known.
fn place_behind(at: usize, over: u16) -> usize
    requires { at + 65536 < 2 ^ 64 }
    ensures { result ≡ at + 1 + over }
{
    match over {
        0 => at + 1,
        1 => at + 2,
        _ => at + 1 + usize::from(over),
    }
}
