//! Laws of popups that are no single call's clause.

ghost use Rattle.std.specs.Prelude.{◌≡◌, ◌≤◌, length};
ghost use Rattle.ratatui_core.specs.Layout.{Rect};
ghost use Rattle.ratatui_core.specs.Text.{widest};
ghost use Rattle.ratatui_core.specs.Buffer.{BufferData, IsPlainFrom};
ghost use Rattle.widget_popup.specs.declared.popup.Popup.{Popup};
ghost use Rattle.widget_popup.specs.Places.{columns_wanted, rows_wanted, popup_inner};
ghost use Rattle.widget_popup.specs.Popups.{IsNarrowPopup, RendersPopup};

/// In an area that is large enough a popup's text has exactly the columns and rows that it takes.
pub fn texts_have_their_room()
    ensures columns { (p : Popup) (area : Rect) → columns_wanted p ≤ area.width
        → (popup_inner p area).width ≡ widest p.text.lines }
    ensures rows { (p : Popup) (area : Rect) → rows_wanted p ≤ area.height
        → (popup_inner p area).height ≡ length p.text.lines }
{}

/// A popup whose box and text take one column for each grapheme leaves a buffer of plain cells one
/// of plain cells; so a screen can show it.
pub fn popups_keep_cells_plain()
    ensures { (p : Popup) (area : Rect) (old new : BufferData) → IsNarrowPopup p
        → IsPlainFrom 0 old → RendersPopup p area old new → IsPlainFrom 0 new }
{}
