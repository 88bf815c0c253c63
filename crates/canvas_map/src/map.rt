//! Maps of the world.

ghost use Rattle.std.specs.Prelude.{◌≡◌};
ghost use Rattle.canvas_map.specs.declared.low.TheConstants.{LOW};
ghost use Rattle.canvas_map.specs.declared.high.TheConstants.{HIGH};
ghost use Rattle.canvas_map.specs.Maps.{points_of_map};

use crate::high::HIGH;
use crate::low::LOW;
use rtui_dots::{Painter, Points, Shape};
use rtui_style::Color;

/// How many points a map has, and so how fine its coasts are.
#[derive(Debug, Default, Clone, Copy, PartialEq, Eq, Hash)]
pub enum MapResolution {
    /// 1,335 points.
    #[default]
    Low,
    /// 5,007 points.
    High,
}

/// A map of the world: the points of its coasts, in hundredths of a degree, to the east and to the
/// north.
///
/// ```
/// let map = Map { resolution: MapResolution::High, color: Color::Green };
/// let drawings = [Drawing::Points(map.points())];
/// let canvas = Canvas::new()
///     .x_bounds([-18000, 18000])
///     .y_bounds([-9000, 9000])
///     .paint(&drawings);
/// ```
#[derive(Debug, Default, Clone, Copy, PartialEq, Eq, Hash)]
pub struct Map {
    /// How many points it has.
    pub resolution: MapResolution,
    /// Their colour.
    pub color: Color,
}

impl MapResolution {
    // The points of the coasts.
    fn points(self) -> &'static [(i64, i64)]
        ensures { result.now ≡ points_of_map self }
    {
        match self {
            MapResolution::Low => low_points(),
            MapResolution::High => high_points(),
        }
    }
}

// The points at low resolution.
fn low_points() -> &'static [(i64, i64)]
    ensures { result.now ≡ LOW }
{
    &LOW
}

// The points at high resolution.
fn high_points() -> &'static [(i64, i64)]
    ensures { result.now ≡ HIGH }
{
    &HIGH
}

impl Map {
    /// Returns the points of the map, as a canvas draws them.
    pub fn points(&self) -> Points<'static>
        ensures coords { result.coords.now ≡ points_of_map self.now.resolution }
        ensures color { result.color ≡ self.now.color }
    {
        Points::new(self.resolution.points(), self.color)
    }
}

impl Shape for Map {
    ghost use Rattle.canvas_map.specs.Maps.{dots_of_map};

    ghost dots = { dots_of_map };

    fn draw(&self, painter: &mut Painter) {
        self.points().draw(painter);
    }
}
