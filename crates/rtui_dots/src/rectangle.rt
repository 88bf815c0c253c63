//! Rectangles.

ghost use Rattle.std.specs.Prelude.{◌≡◌};

use crate::painter::Painter;
use crate::shape::Shape;
use rtui_style::Color;

/// The sides of a rectangle.
#[derive(Debug, Clone, Copy)]
pub struct Rectangle {
    /// Its left side.
    pub x: i64,
    /// Its lower side.
    pub y: i64,
    /// How far its right side is from the left one.
    pub width: i64,
    /// How far its upper side is from the lower one.
    pub height: i64,
    /// Its colour.
    pub color: Color,
}

impl Rectangle {
    /// Makes a rectangle from its lower left corner on.
    pub fn new(x: i64, y: i64, width: i64, height: i64, color: Color) -> Rectangle
        ensures { result
            ≡ record { x = x; y = y; width = width; height = height; color = color } }
    {
        Rectangle {
            x,
            y,
            width,
            height,
            color,
        }
    }
}

impl Shape for Rectangle {
    ghost use Rattle.rtui_dots.specs.Shapes.{dots_of_rectangle};

    ghost dots = { dots_of_rectangle };

    fn draw(&self, painter: &mut Painter) {
        let right = self.x.saturating_add(self.width);
        let top = self.y.saturating_add(self.height);
        painter.draw_line((self.x, self.y), (self.x, top), self.color);
        painter.draw_line((self.x, top), (right, top), self.color);
        painter.draw_line((right, self.y), (right, top), self.color);
        painter.draw_line((self.x, self.y), (right, self.y), self.color);
    }
}
