//! Lines.

ghost use Rattle.std.specs.Prelude.{◌≡◌, ◌≤◌, ◌<◌, ◌+◌, ◌-◌, ◌*◌, ◌^◌, max, [], ◌∷◌, true, IsTrue};
ghost use Rattle.std.specs.Int.{abs_diff};
ghost use Rattle.rtui_dots.specs.Grids.{SetsDots, has_dot, with_dot, with_dots};
ghost use Rattle.rtui_dots.specs.Lines.{gone_after, across_at, dot_by, run_dot, dots_from, run_dots, run_on};
ghost use Rattle.rtui_dots.specs.Lines.{run_between, run_of};
ghost use Rattle.rtui_dots.specs.Inner.{places_along, HasSteps, HasAlong, HasAcross};
ghost use Rattle.rtui_dots.specs.Shapes.{dots_between};

use crate::painter::{DotCell, Painter, set_inside, set_marked};
use crate::scale::{FAR, Scale};
use crate::shape::Shape;
use rtui_style::Color;
use rtui_symbols::marker::Marker;

/// A straight line between two points, as far as the canvas shows it.
#[derive(Debug, Clone, Copy)]
pub struct Line {
    /// The first end, from the left.
    pub x1: i64,
    /// The first end, from below.
    pub y1: i64,
    /// The other end, from the left.
    pub x2: i64,
    /// The other end, from below.
    pub y2: i64,
    /// Its colour.
    pub color: Color,
}

impl Line {
    /// Makes a line from one point to another one.
    pub fn new(x1: i64, y1: i64, x2: i64, y2: i64, color: Color) -> Line
        ensures { result ≡ record { x1 = x1; y1 = y1; x2 = x2; y2 = y2; color = color } }
    {
        Line {
            x1,
            y1,
            x2,
            y2,
            color,
        }
    }
}

// A line as steps along its longer side.
#[derive(Clone, Copy)]
pub(crate) struct Run {
    pub(crate) is_flat: bool,
    pub(crate) along: u64,
    pub(crate) across: u64,
    pub(crate) long: u64,
    pub(crate) short: u64,
    pub(crate) is_back: bool,
}

// The run from one end to another one, which isn't before it along the longer side.
fn run_on(is_flat: bool, along: u64, across: u64, last_along: u64, last_across: u64) -> Run
    requires { along ≤ last_along }
    ensures { result ≡ run_on is_flat along across last_along last_across }
{
    Run {
        is_flat,
        along,
        across,
        long: last_along - along,
        short: across.abs_diff(last_across),
        is_back: last_across < across,
    }
}

// The run between two ends, from the left or from the top.
fn run_between(is_flat: bool, along: u64, across: u64, last_along: u64, last_across: u64) -> Run
    ensures value { result ≡ run_between is_flat along across last_along last_across }
    ensures long { result.long ≡ abs_diff along last_along }
    ensures short { result.short ≡ abs_diff across last_across }
    ensures along { result.along + result.long ≡ max along last_along }
    ensures across { result.across ≤ max across last_across }
{
    if last_along < along {
        run_on(is_flat, last_along, last_across, along, across)
    } else {
        run_on(is_flat, along, across, last_along, last_across)
    }
}

// The run of a line between two dots.
fn run_of(x: u64, y: u64, last_x: u64, last_y: u64) -> Run
    requires x { x ≤ 2 ^ 61 }
    requires y { y ≤ 2 ^ 61 }
    requires last_x { last_x ≤ 2 ^ 61 }
    requires last_y { last_y ≤ 2 ^ 61 }
    ensures value { result ≡ run_of x y last_x last_y }
    ensures slope { result.short ≤ result.long }
    ensures along { result.along + result.long ≤ 2 ^ 61 }
    ensures across { result.across ≤ 2 ^ 61 }
{
    if y.abs_diff(last_y) < x.abs_diff(last_x) {
        run_between(true, x, y, last_x, last_y)
    } else {
        run_between(false, y, x, last_y, last_x)
    }
}

// How far across a run has gone, in wholes and what is left of one, after one step more.
fn step_on(run: Run, gone: u64, rest: u64) -> (u64, u64)
    requires slope { run.short ≤ run.long }
    requires near { run.long ≤ 2 ^ 61 }
    requires part { rest < 2 * run.long }
    requires few { gone ≤ 2 ^ 61 }
    ensures sum { let whole = 2 * run.long in
        result.1 + whole * result.0 ≡ rest + whole * gone + 2 * run.short }
    ensures part { result.1 < 2 * run.long }
    ensures few { result.0 ≤ gone + 1 }
{
    let rest = rest + 2 * run.short;
    if rest < 2 * run.long {
        (gone, rest)
    } else {
        (gone + 1, rest - 2 * run.long)
    }
}

// How far across a run has gone after some steps, in wholes and what is left of one.
fn gone_at(run: Run, steps: u64) -> (u64, u64)
    requires some { 0 < run.long }
    requires slope { run.short ≤ run.long }
    requires steps { steps ≤ run.long }
    requires near { run.long ≤ 2 ^ 61 }
    ensures sum { result.1 + 2 * run.long * result.0 ≡ 2 * run.short * steps + (run.long - 1) }
    ensures part { result.1 < 2 * run.long }
    ensures few { result.0 ≤ steps }
{
    if steps == 0 {
        return (0, run.long - 1);
    }
    let whole = u128::from(2 * run.long);
    let share = 2 * u128::from(run.short) * u128::from(steps) + u128::from(run.long - 1);
    ((share / whole) as u64, (share % whole) as u64)
}

// The place across of a run that has gone so far.
#[inline(always)]
fn across_at(run: Run, gone: u64) -> u64
    requires { run.across + gone ≤ 2 ^ 63 }
    ensures { result ≡ across_at run gone }
{
    if run.is_back {
        run.across.saturating_sub(gone)
    } else {
        run.across + gone
    }
}

// How the dots of a run are set: how they are marked, along which side they stand, and whether the
// grid is known to have all of them. Each is a constant where dots are set, so that nothing is asked
// for each of them.
#[derive(Clone, Copy)]
struct Way {
    marker: Marker,
    is_flat: bool,
    is_inside: bool,
}

// Sets the dot of a run at two places among the cells of a grid.
#[inline(always)]
fn set_by(cells: &mut [DotCell], scale: Scale, way: Way, along: u64, across: u64, color: Color)
    requires marker { way.marker ≡ scale.marker }
    requires inside { way.is_inside ≡ true → let d = dot_by way.is_flat along across color in
        IsTrue (has_dot scale d.x d.y) }
    ensures { let d = dot_by way.is_flat along across color in
        cells.new ≡ with_dot scale d cells.old }
{
    let (x, y) = if way.is_flat {
        (along, across)
    } else {
        (across, along)
    };
    if way.is_inside {
        set_inside(cells, scale, way.marker, x, y, color);
    } else {
        set_marked(cells, scale, way.marker, x, y, color);
    }
}

// Sets the dots of a run's steps from `first` on before `end` among the cells of a grid.
#[inline(always)]
fn set_steps_by(
    cells: &mut [DotCell],
    scale: Scale,
    way: Way,
    run: Run,
    first: u64,
    end: u64,
    color: Color,
)
    requires marker { way.marker ≡ scale.marker }
    requires flat { way.is_flat ≡ run.is_flat }
    requires inside { way.is_inside ≡ true → HasSteps scale run first end }
    requires some { 0 < run.long }
    requires slope { run.short ≤ run.long }
    requires order { first < end }
    requires end { end ≤ run.long + 1 }
    requires along { run.along + run.long ≤ 2 ^ 61 }
    requires across { run.across ≤ 2 ^ 61 }
    ensures { let dots = dots_from (run_dot run color) first (end - first) in
        cells.new ≡ with_dots scale dots cells.old }
{
    let (mut gone, mut rest) = gone_at(run, first);
    for step in first..end {
        set_by(
            cells,
            scale,
            way,
            run.along + step,
            across_at(run, gone),
            color,
        );
        (gone, rest) = step_on(run, gone, rest);
    }
}

// The same, with the side along which the run goes as a constant.
#[inline(always)]
fn set_steps_marked(
    cells: &mut [DotCell],
    scale: Scale,
    marker: Marker,
    is_inside: bool,
    run: Run,
    first: u64,
    end: u64,
    color: Color,
)
    requires marker { marker ≡ scale.marker }
    requires inside { is_inside ≡ true → HasSteps scale run first end }
    requires some { 0 < run.long }
    requires slope { run.short ≤ run.long }
    requires order { first < end }
    requires end { end ≤ run.long + 1 }
    requires along { run.along + run.long ≤ 2 ^ 61 }
    requires across { run.across ≤ 2 ^ 61 }
    ensures { let dots = dots_from (run_dot run color) first (end - first) in
        cells.new ≡ with_dots scale dots cells.old }
{
    if run.is_flat {
        let way = Way {
            marker,
            is_flat: true,
            is_inside,
        };
        set_steps_by(cells, scale, way, run, first, end, color);
    } else {
        let way = Way {
            marker,
            is_flat: false,
            is_inside,
        };
        set_steps_by(cells, scale, way, run, first, end, color);
    }
}

impl Scale {
    // How many places a grid has along its rows, or along its columns.
    fn places_along(&self, is_flat: bool) -> u64
        ensures value { result ≡ places_along is_flat self.now }
        ensures within { result ≤ 262140 }
    {
        if is_flat {
            self.dot_columns()
        } else {
            self.dot_rows()
        }
    }
}

// Whether a grid has all places across of a run.
fn has_across(scale: &Scale, run: Run) -> bool
    requires across { run.across ≤ 2 ^ 61 }
    requires short { run.short ≤ 2 ^ 61 }
    ensures { IsTrue result → HasAcross scale.now run }
{
    let end = FAR + scale.places_along(!run.is_flat);
    let last = across_at(run, run.short);
    FAR <= run.across && run.across < end && FAR <= last && last < end
}

impl Painter {
    // Sets the dot at which a run begins.
    fn set_first_dot(&mut self, run: Run, color: Color)
        ensures { let d = dot_by run.is_flat run.along run.across color in
            SetsDots (d ∷ []) self.old self.new }
    {
        if run.is_flat {
            self.set_dot(run.along, run.across, color);
        } else {
            self.set_dot(run.across, run.along, color);
        }
    }

    // Sets the dots of a run's steps from `first` on before `end`, of those that the grid has along
    // the run. Braille within the grid stands apart, so that nothing is asked about each of its
    // dots.
    fn set_steps(&mut self, run: Run, first: u64, end: u64, color: Color)
        requires some { 0 < run.long }
        requires slope { run.short ≤ run.long }
        requires end { end ≤ run.long + 1 }
        requires along { run.along + run.long ≤ 2 ^ 61 }
        requires across { run.across ≤ 2 ^ 61 }
        requires within { first < end → HasAlong self.old.scale run first end }
        ensures { SetsDots (dots_from (run_dot run color) first (end - first)) self.old self.new }
    {
        if end <= first {
            return;
        }
        let scale = self.scale;
        let is_inside = has_across(&scale, run);
        let cells = self.cells.as_mut_slice();
        match scale.marker {
            Marker::Braille if is_inside => {
                set_steps_marked(cells, scale, Marker::Braille, true, run, first, end, color);
            }
            marker => set_steps_marked(cells, scale, marker, false, run, first, end, color),
        }
    }

    // Sets the dots of a run that the grid has.
    fn set_run(&mut self, run: Run, color: Color)
        requires slope { run.short ≤ run.long }
        requires along { run.along + run.long ≤ 2 ^ 61 }
        requires across { run.across ≤ 2 ^ 61 }
        ensures { SetsDots (run_dots run color) self.old self.new }
    {
        if run.long == 0 {
            self.set_first_dot(run, color);
            return;
        }
        let count = self.scale.places_along(run.is_flat);
        let first = FAR.saturating_sub(run.along);
        let end = (FAR + count).saturating_sub(run.along).min(run.long + 1);
        self.set_steps(run, first, end, color);
    }

    // Draws a line between two points.
    pub(crate) fn draw_line(&mut self, from: (i64, i64), to: (i64, i64), color: Color)
        ensures { let s = self.old.scale in
            SetsDots (dots_between from.0 from.1 to.0 to.1 color s) self.old self.new }
    {
        if !self.scale.is_open() {
            return;
        }
        let (x, y) = (self.scale.column(from.0), self.scale.row(from.1));
        let (last_x, last_y) = (self.scale.column(to.0), self.scale.row(to.1));
        self.set_run(run_of(x, y, last_x, last_y), color);
    }
}

impl Shape for Line {
    ghost use Rattle.rtui_dots.specs.Shapes.{dots_of_line};

    ghost dots = { dots_of_line };

    fn draw(&self, painter: &mut Painter) {
        painter.draw_line((self.x1, self.y1), (self.x2, self.y2), self.color);
    }
}
