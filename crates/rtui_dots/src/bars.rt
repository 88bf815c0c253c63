//! Lines from points down to the coordinate 0.

ghost use Rattle.std.specs.Prelude.{◌≡◌, pos};
ghost use Rattle.rtui_dots.specs.Grids.{SetsDots};
ghost use Rattle.rtui_dots.specs.Shapes.{dots_between, dots_of_columns};

use crate::painter::Painter;
use crate::shape::Shape;
use rtui_style::Color;

/// A straight line for each point: from it down to the coordinate 0, or up to it.
#[derive(Debug, Clone, Copy)]
pub struct Bars<'a> {
    /// The points, from the left and from below.
    pub coords: &'a [(i64, i64)],
    /// The colour of the lines.
    pub color: Color,
}

impl Painter {
    // Draws the line of a point.
    fn draw_bar(&mut self, point: &(i64, i64), color: Color)
        ensures { let s = self.old.scale in let x = point.now.0 in
            SetsDots (dots_between x (pos 0) x point.now.1 color s) self.old self.new }
    {
        self.draw_line((point.0, 0), *point, color);
    }

    // Draws the line of each point.
    fn draw_bars(&mut self, coords: &[(i64, i64)], color: Color)
        ensures { let s = self.old.scale in
            SetsDots (dots_of_columns coords.now color s) self.old self.new }
    {
        for point in coords {
            self.draw_bar(point, color);
        }
    }
}

impl<'a> Shape for Bars<'a> {
    ghost use Rattle.rtui_dots.specs.Shapes.{dots_of_bars};

    ghost dots = { dots_of_bars };

    fn draw(&self, painter: &mut Painter) {
        painter.draw_bars(self.coords, self.color);
    }
}
