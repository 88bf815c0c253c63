//! Facts about the definitions that no single call states.
ghost use Rattle.std.specs.Prelude.{◌≡◌};
ghost use Rattle.rtui_layout.specs.Names.{ReadsBack, direction_name, horizontal_name, vertical_name};
ghost use Rattle.rtui_layout.specs.Names.{flex_name};

use crate::alignment::{HorizontalAlignment, VerticalAlignment};
use crate::direction::Direction;
use crate::flex::Flex;

/// A printed name is read as the variant that printed it, and as no other.
pub fn names_read_back()
    ensures direction { ReadsBack direction_name }
    ensures horizontal { ReadsBack horizontal_name }
    ensures vertical { ReadsBack vertical_name }
    ensures flex { ReadsBack flex_name }
{}

/// The variants downwards, at the left, at the top and at the start are the defaults.
pub fn defaults()
    ensures direction { (d : Direction) → ⟦<Direction as Default>⟧.is_default d
        → d ≡ Direction.Vertical }
    ensures horizontal { (a : HorizontalAlignment)
        → ⟦<HorizontalAlignment as Default>⟧.is_default a → a ≡ HorizontalAlignment.Left }
    ensures vertical { (a : VerticalAlignment) → ⟦<VerticalAlignment as Default>⟧.is_default a
        → a ≡ VerticalAlignment.Top }
    ensures flex { (f : Flex) → ⟦<Flex as Default>⟧.is_default f → f ≡ Flex.Start }
{}
