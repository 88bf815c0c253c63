//! Points.

ghost use Rattle.std.specs.Prelude.{◌≡◌, IsTrue, [], ◌∷◌};
ghost use Rattle.rtui_dots.specs.Grids.{is_open, point_dot, SetsDots};
ghost use Rattle.rtui_dots.specs.Shapes.{point_dots};

use crate::painter::Painter;
use crate::shape::Shape;
use rtui_style::Color;

/// Points, each a dot.
#[derive(Debug, Clone, Copy)]
pub struct Points<'a> {
    /// Their coordinates, from the left and from below.
    pub coords: &'a [(i64, i64)],
    /// Their colour.
    pub color: Color,
}

impl<'a> Points<'a> {
    /// Makes points of these coordinates, in a colour.
    pub fn new(coords: &'a [(i64, i64)], color: Color) -> Points<'a>
        ensures { result ≡ record { coords = coords.entry; color = color } }
    {
        Points { coords, color }
    }
}

impl Painter {
    // Sets the dot of a point.
    fn set_point(&mut self, point: &(i64, i64), color: Color)
        requires { IsTrue (is_open self.old.scale) }
        ensures { let d = point_dot self.old.scale point.now.0 point.now.1 color in
            SetsDots (d ∷ []) self.old self.new }
    {
        let (column, row) = (self.scale.column(point.0), self.scale.row(point.1));
        self.set_dot(column, row, color);
    }

    // Sets the dot of each point.
    fn set_points(&mut self, coords: &[(i64, i64)], color: Color)
        requires { IsTrue (is_open self.old.scale) }
        ensures { SetsDots (point_dots self.old.scale color coords.now) self.old self.new }
    {
        for point in coords {
            self.set_point(point, color);
        }
    }
}

impl<'a> Shape for Points<'a> {
    ghost use Rattle.rtui_dots.specs.Shapes.{dots_of_points};

    ghost dots = { dots_of_points };

    fn draw(&self, painter: &mut Painter) {
        if painter.scale.is_open() {
            painter.set_points(self.coords, self.color);
        }
    }
}
