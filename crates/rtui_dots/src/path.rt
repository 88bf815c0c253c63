//! Lines from point to point.

ghost use Rattle.std.specs.Prelude.{◌≡◌};
ghost use Rattle.rtui_dots.specs.Grids.{SetsDots};
ghost use Rattle.rtui_dots.specs.Shapes.{dots_between, dots_on};

use crate::painter::Painter;
use crate::shape::Shape;
use rtui_style::Color;

/// Straight lines from each point to the next one.
#[derive(Debug, Clone, Copy)]
pub struct Path<'a> {
    /// The points, from the left and from below.
    pub coords: &'a [(i64, i64)],
    /// The colour of the lines.
    pub color: Color,
}

impl Painter {
    // Draws a line from one point to another one.
    fn draw_on(&mut self, from: &(i64, i64), to: &(i64, i64), color: Color)
        ensures { let s = self.old.scale in
            SetsDots (dots_between from.now.0 from.now.1 to.now.0 to.now.1 color s) self.old self.new }
    {
        self.draw_line(*from, *to, color);
    }

    // Draws lines from a point to the first of some others, and on to the next one.
    fn draw_path(&mut self, first: &(i64, i64), others: &[(i64, i64)], color: Color)
        ensures { let s = self.old.scale in
            SetsDots (dots_on first.now others.now color s) self.old self.new }
    {
        let mut last = first;
        for point in others {
            self.draw_on(last, point, color);
            last = point;
        }
    }
}

impl<'a> Shape for Path<'a> {
    ghost use Rattle.rtui_dots.specs.Shapes.{dots_of_path};

    ghost dots = { dots_of_path };

    fn draw(&self, painter: &mut Painter) {
        if let Some((first, others)) = self.coords.split_first() {
            painter.draw_path(first, others, self.color);
        }
    }
}
