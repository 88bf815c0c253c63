//! What can be drawn by dots.

ghost use Rattle.rtui_dots.specs.Grids.{SetsDots};

use crate::painter::Painter;

/// What can be drawn by dots.
pub trait Shape {
    ghost use Rattle.std.specs.Prelude.{List};
    ghost use Rattle.rtui_dots.specs.declared.scale.Scale.{Scale};
    ghost use Rattle.rtui_dots.specs.Grids.{Dot};

    // the dots that it sets, one after the other, in a grid
    ghost dots: { Self → Scale → List Dot };

    /// Sets the shape's dots, as far as the grid has them.
    fn draw(&self, painter: &mut Painter)
        ensures { SetsDots (dots self.now painter.old.scale) painter.old painter.new };
}
