//! The kinds of borders.

ghost use Rattle.std.specs.Prelude.{◌≡◌};
ghost use Rattle.ratatui_core.specs.Symbols.{border_texts};
ghost use Rattle.widget_boxes.specs.Kinds.{border_of_kind};

use ratatui_core::symbols::border;

/// A kind of border, which names a set of symbols.
#[derive(Debug, Default, Clone, Copy, PartialEq, Eq, Hash)]
pub enum BorderType {
    /// Plain lines.
    #[default]
    Plain,
    /// Plain lines with rounded corners.
    Rounded,
    /// Double lines.
    Double,
    /// Thick lines.
    Thick,
    /// Plain lines of two dashes.
    LightDoubleDashed,
    /// Thick lines of two dashes.
    HeavyDoubleDashed,
    /// Plain lines of three dashes.
    LightTripleDashed,
    /// Thick lines of three dashes.
    HeavyTripleDashed,
    /// Plain lines of four dashes.
    LightQuadrupleDashed,
    /// Thick lines of four dashes.
    HeavyQuadrupleDashed,
    /// Half blocks on the inner side.
    QuadrantInside,
    /// Half blocks on the outer side.
    QuadrantOutside,
}

impl BorderType {
    /// Returns the symbols of this kind.
    pub fn border_symbols(border_type: BorderType) -> border::Set<'static>
        ensures { border_texts result ≡ border_of_kind border_type }
    {
        match border_type {
            BorderType::Plain => border::PLAIN,
            BorderType::Rounded => border::ROUNDED,
            BorderType::Double => border::DOUBLE,
            BorderType::Thick => border::THICK,
            BorderType::LightDoubleDashed => border::LIGHT_DOUBLE_DASHED,
            BorderType::HeavyDoubleDashed => border::HEAVY_DOUBLE_DASHED,
            BorderType::LightTripleDashed => border::LIGHT_TRIPLE_DASHED,
            BorderType::HeavyTripleDashed => border::HEAVY_TRIPLE_DASHED,
            BorderType::LightQuadrupleDashed => border::LIGHT_QUADRUPLE_DASHED,
            BorderType::HeavyQuadrupleDashed => border::HEAVY_QUADRUPLE_DASHED,
            BorderType::QuadrantInside => border::QUADRANT_INSIDE,
            BorderType::QuadrantOutside => border::QUADRANT_OUTSIDE,
        }
    }

    /// Returns the symbols of this kind.
    pub fn to_border_set(self) -> border::Set<'static>
        ensures { border_texts result ≡ border_of_kind self }
    {
        BorderType::border_symbols(self)
    }
}
