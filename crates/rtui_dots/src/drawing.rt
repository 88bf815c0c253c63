//! What a canvas draws.

ghost use Rattle.std.specs.Prelude.{◌≡◌};
ghost use Rattle.rtui_dots.specs.Layers.{is_layer};

use crate::bars::Bars;
use crate::circle::Circle;
use crate::line::Line;
use crate::painter::Painter;
use crate::path::Path;
use crate::points::Points;
use crate::rectangle::Rectangle;
use crate::shape::Shape;

/// What a canvas draws: a shape, or the beginning of a layer.
#[derive(Debug, Clone, Copy)]
pub enum Drawing<'a> {
    /// Points, each a dot.
    Points(Points<'a>),
    /// A line.
    Line(Line),
    /// Lines from each point to the next one.
    Path(Path<'a>),
    /// The sides of a rectangle.
    Rectangle(Rectangle),
    /// A circle.
    Circle(Circle),
    /// A line for each point, from the coordinate 0 to it.
    Bars(Bars<'a>),
    /// What comes after it lies over what comes before it: where both have dots in a cell, only
    /// those after it show.
    Layer,
}

impl<'a> Drawing<'a> {
    /// Returns whether it begins a layer.
    pub fn is_layer(&self) -> bool
        ensures { result ≡ is_layer self.now }
    {
        match self {
            Drawing::Layer => true,
            _ => false,
        }
    }
}

impl<'a> Shape for Drawing<'a> {
    ghost use Rattle.rtui_dots.specs.Layers.{drawn_dots};

    ghost dots = { drawn_dots };

    fn draw(&self, painter: &mut Painter) {
        match self {
            Drawing::Points(points) => points.draw(painter),
            Drawing::Line(line) => line.draw(painter),
            Drawing::Path(path) => path.draw(painter),
            Drawing::Rectangle(rectangle) => rectangle.draw(painter),
            Drawing::Circle(circle) => circle.draw(painter),
            Drawing::Bars(bars) => bars.draw(painter),
            Drawing::Layer => {}
        }
    }
}
