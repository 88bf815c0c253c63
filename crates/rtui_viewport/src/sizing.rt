ghost use Rattle.std.specs.Prelude.{◌≡◌, OnOk, IfOk, IsOk};
ghost use Rattle.rtui_geometry.specs.Rect.{EdgesFit};
ghost use Rattle.rtui_backend.specs.Failures.{Counts};
ghost use Rattle.rtui_viewport.specs.Viewports.{FitsEdges, IsFixed};
ghost use Rattle.rtui_viewport.specs.Sizing.{first_area, IsAreaChange};

use crate::viewport::Viewport;
use rtui_backend::Backend;
use rtui_geometry::Rect;

/// Returns the area that a new viewport is placed on: a fixed one's own, for which no call is made,
/// or else the whole screen.
///
/// # Conditions
///
/// The edges of a fixed viewport are at most 65535.
///
/// # Errors
///
/// The backend's own error if one of its calls failed. Nothing is said of the screen then, and one
/// more failure is counted.
pub fn first_area<B: Backend>(backend: &mut B, viewport: Viewport) -> Result<Rect, B::Error>
    requires { FitsEdges viewport }
    ensures area { IfOk result (λ area. area ≡ first_area viewport (B.screen backend.old)) }
    ensures fits { IfOk result EdgesFit }
    ensures stays { OnOk result (B.screen backend.new ≡ B.screen backend.old) }
    ensures fixed { IsFixed viewport → IsOk result × (backend.new ≡ backend.old) }
    ensures counts { Counts result (B.failures backend.old) (B.failures backend.new) }
{
    if let Viewport::Fixed(area) = viewport {
        return Ok(area);
    }
    Ok(Rect::from(backend.size()?))
}

/// Returns the area that a viewport has to be placed on again: the whole screen, if that isn't the
/// last known one. A fixed viewport stays, and no call is made for it.
///
/// # Errors
///
/// The backend's own error if one of its calls failed. Nothing is said of the screen then, and one
/// more failure is counted.
pub fn changed_area<B: Backend>(
    backend: &mut B,
    viewport: Viewport,
    last_known_area: Rect,
) -> Result<Option<Rect>, B::Error>
    ensures area { IfOk result (IsAreaChange viewport last_known_area (B.screen backend.old)) }
    ensures stays { OnOk result (B.screen backend.new ≡ B.screen backend.old) }
    ensures fixed { IsFixed viewport → IsOk result × (backend.new ≡ backend.old) }
    ensures counts { Counts result (B.failures backend.old) (B.failures backend.new) }
{
    if let Viewport::Fixed(_) = viewport {
        return Ok(None);
    }
    let area = Rect::from(backend.size()?);
    if area == last_known_area {
        return Ok(None);
    }
    Ok(Some(area))
}
