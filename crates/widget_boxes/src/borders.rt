//! Which sides of a box are drawn.

ghost use Rattle.std.specs.Prelude.{⊤};
ghost use Rattle.widget_boxes.specs.Borders.{border_table, sides_of};

use bitflags::{Flag, Flags, bitflag_items};

/// A set of the sides of a box.
#[derive(Debug, Default, Clone, Copy, PartialEq, Eq, Hash)]
pub struct Borders(u8);

bitflag_items! {
    impl Borders: u8 {
        const TOP = 1;
        const RIGHT = 2;
        const BOTTOM = 4;
        const LEFT = 8;
    }
}

impl Borders {
    /// No side.
    pub const NONE: Borders = Borders(0);

    /// All four sides.
    pub const ALL: Borders = Borders(15);
}

impl Flags for Borders {
    type Bits = u8;

    ghost exact = { ⊤ };

    ghost table = { border_table };

    ghost set_of = { sides_of };

    fn flags<'a>() -> &'a [Flag<Borders>] {
        Borders::FLAGS
    }

    fn bits(&self) -> u8 {
        self.0
    }

    fn from_bits_retain(bits: u8) -> Borders {
        Borders(bits)
    }
}
