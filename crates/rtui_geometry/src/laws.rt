//! Facts about the definitions that no single call states.
ghost use Rattle.std.specs.Prelude.{◌≡◌, ◌-◌, ◌^◌, pos, negsuc};
ghost use Rattle.std.specs.Ordering.{nat_cmp, ordering_then};
ghost use Rattle.rtui_geometry.specs.Rect.{cut_rect};

use crate::margin::Margin;
use crate::offset::Offset;
use crate::position::Position;
use crate::rect::Rect;
use crate::size::Size;

/// The constants of a rectangle are what `Rect::new` makes of the least and the greatest numbers.
pub fn rect_constants()
    ensures zero { Rect.ZERO ≡ cut_rect 0 0 0 0 }
    ensures min { Rect.MIN ≡ cut_rect 0 0 0 0 }
    ensures max { Rect.MAX ≡ cut_rect 0 0 (2 ^ 16 - 1) (2 ^ 16 - 1) }
{}

/// The constants of a position are those of the least and the greatest numbers.
pub fn position_constants()
    ensures origin { Position.ORIGIN ≡ record { x = 0; y = 0 } }
    ensures min { Position.MIN ≡ Position.ORIGIN }
    ensures max { Position.MAX ≡ record { x = 2 ^ 16 - 1; y = 2 ^ 16 - 1 } }
{}

/// The constants of a size are those of the least and the greatest numbers.
pub fn size_constants()
    ensures zero { Size.ZERO ≡ record { width = 0; height = 0 } }
    ensures min { Size.MIN ≡ Size.ZERO }
    ensures max { Size.MAX ≡ record { width = 2 ^ 16 - 1; height = 2 ^ 16 - 1 } }
{}

/// The constants of an offset are those of the least and the greatest numbers.
pub fn offset_constants()
    ensures zero { Offset.ZERO ≡ record { x = pos 0; y = pos 0 } }
    ensures min { Offset.MIN ≡ record { x = negsuc (2 ^ 31 - 1); y = negsuc (2 ^ 31 - 1) } }
    ensures max { Offset.MAX ≡ record { x = pos (2 ^ 31 - 1); y = pos (2 ^ 31 - 1) } }
{}

/// Positions are ordered by their column, and in one column by their row.
pub fn position_order(p: Position, q: Position)
    ensures { ⟦<Position as Ord>⟧.cmp p q ≡ ordering_then (nat_cmp p.x q.x) (nat_cmp p.y q.y) }
{}

/// The default of each type is the one of zeros.
pub fn defaults()
    ensures rect { (r : Rect) → ⟦<Rect as Default>⟧.is_default r → r ≡ Rect.ZERO }
    ensures position { (p : Position) → ⟦<Position as Default>⟧.is_default p → p ≡ Position.ORIGIN }
    ensures size { (s : Size) → ⟦<Size as Default>⟧.is_default s → s ≡ Size.ZERO }
    ensures offset { (o : Offset) → ⟦<Offset as Default>⟧.is_default o → o ≡ Offset.ZERO }
    ensures margin { (m : Margin) → ⟦<Margin as Default>⟧.is_default m
        → m ≡ record { horizontal = 0; vertical = 0 } }
{}
