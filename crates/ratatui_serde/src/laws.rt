//! Laws: what is written is read back. Calling one of these functions costs nothing and tells the
//! caller's proof its law.

ghost use Rattle.std.specs.Prelude.{◌≡◌, ◌<◌, Some, true};
ghost use Rattle.widget_boxes.specs.Borders.{border_table, sides_of};
ghost use Rattle.widget_boxes.specs.Names.{kind_name};
ghost use Rattle.rtui_style.specs.Color.{color_of, color_text};
ghost use Rattle.rtui_style.specs.Modifier.{all_modifiers, bits_of, has_all, modifier_table};
ghost use Rattle.ratatui_serde.specs.Flags.{flags_text, ReadsFlags, ReadsSides};

use rtui_style::laws::printed_color_is_read;
use rtui_style::{Color, Modifier};
use widget_boxes::{BorderType, Borders};

/// The text that a colour is written as is read as that colour.
pub fn colors_are_read_back(color: Color)
    ensures { color_of (color_text color) ≡ Some color }
{
    printed_color_is_read(color)
}

/// The text that modifiers are written as is read as these modifiers, if they are among the nine.
pub fn modifiers_are_read_back(modifier: Modifier)
    ensures { has_all all_modifiers modifier ≡ true
        → ReadsFlags 16 modifier_table (bits_of modifier)
        (flags_text 16 modifier_table (bits_of modifier)) }
{}

/// The text that sides are written as is read as these sides, if they are among the four.
pub fn sides_are_read_back(borders: Borders)
    ensures { sides_of borders < 16 → ReadsSides border_table (sides_of borders)
        (flags_text 8 border_table (sides_of borders)) }
{}

/// No two kinds of borders are written as the same name.
pub fn kinds_are_read_back(kind: BorderType, other: BorderType)
    ensures { kind_name kind ≡ kind_name other → kind ≡ other }
{}
