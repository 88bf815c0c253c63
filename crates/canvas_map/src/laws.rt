//! Laws of maps that are no single call's clause.

ghost use Rattle.std.specs.Prelude.{◌≡◌, IsTrue};
ghost use Rattle.std.specs.List.{list_all};
ghost use Rattle.canvas_map.specs.declared.low.TheConstants.{LOW};
ghost use Rattle.canvas_map.specs.declared.high.TheConstants.{HIGH};
ghost use Rattle.canvas_map.specs.declared.map.MapResolution.{MapResolution};
ghost use Rattle.canvas_map.specs.declared.map.MapResolution.TheVariants.{Low};
ghost use Rattle.canvas_map.specs.Maps.{is_on_globe, stand_among};

use crate::map::MapResolution;

/// Each point of a map lies on the globe.
pub fn points_lie_on_the_globe()
    ensures low { IsTrue (list_all is_on_globe LOW) }
    ensures high { IsTrue (list_all is_on_globe HIGH) }
{}

/// The points at low resolution are some of those at high resolution.
pub fn low_resolution_leaves_points_out()
    ensures { IsTrue (stand_among LOW HIGH) }
{}

/// A map has low resolution, unless it is told otherwise.
pub fn maps_have_this_default()
    ensures { (r : MapResolution) → ⟦<MapResolution as Default>⟧.is_default r → r ≡ Low }
{}
