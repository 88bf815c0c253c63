//! Laws of tabs that are no single call's clause.

ghost use Rattle.std.specs.Prelude.{IfSome};
ghost use Rattle.ratatui_core.specs.Layout.{Rect};
ghost use Rattle.ratatui_core.specs.Buffer.{BufferData, IsPlainFrom};
ghost use Rattle.widget_boxes.specs.Boxes.{IsNarrowBox};
ghost use Rattle.widget_tabs.specs.declared.tabs.Tabs.{Tabs as TabsData};
ghost use Rattle.widget_tabs.specs.Tabs.{HasNarrowTabs, RendersTabs};

use ratatui_core::buffer::laws::printable_graphemes_take_one_column;

/// Tabs whose texts take one column for each grapheme leave a buffer of plain cells one of plain
/// cells, if they have no box or a narrow one; so a screen can show it. Under a highlight a wide
/// grapheme's second column is no blank any more.
pub fn tabs_keep_cells_plain()
    ensures { (t : TabsData) (area : Rect) (old new : BufferData) → IfSome t.block IsNarrowBox
        → HasNarrowTabs t → IsPlainFrom 0 old → RendersTabs t area old new → IsPlainFrom 0 new }
{
    printable_graphemes_take_one_column();
}
