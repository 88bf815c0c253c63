//! Laws of lists that are no single call's clause.

ghost use Rattle.std.specs.Prelude.{◌≡◌, ℕ, ◌+◌, ◌<◌, ◌≤◌, Some, IfSome};
ghost use Rattle.ratatui_core.specs.Layout.{Rect, intersected};
ghost use Rattle.ratatui_core.specs.Buffer.{BufferData, IsPlainFrom};
ghost use Rattle.widget_boxes.specs.Apart.{StandsApart, IsReadyIn};
ghost use Rattle.widget_boxes.specs.Boxes.{IsNarrowBox};
ghost use Rattle.widget_list.specs.declared.list.List.{List as ListData};
ghost use Rattle.widget_list.specs.declared.state.ListState.{ListState};
ghost use Rattle.widget_list.specs.declared.list.HighlightSpacing.{HighlightSpacing};
ghost use Rattle.widget_list.specs.declared.list.HighlightSpacing.TheVariants.{WhenSelected};
ghost use Rattle.widget_list.specs.declared.list.ListDirection.{ListDirection};
ghost use Rattle.widget_list.specs.declared.list.ListDirection.TheVariants.{TopToBottom};
ghost use Rattle.widget_list.specs.Items.{HasNarrowItems, HasShowableItems, RendersList, ShowsList};
ghost use Rattle.widget_list.specs.Settled.{SettlesList, settled_list};
ghost use Rattle.widget_list.specs.Windows.{Fit};

use crate::list::{HighlightSpacing, ListDirection};

/// A list whose texts and whose symbol take one column for each grapheme leaves a buffer of plain
/// cells one of plain cells, if it has no box or a narrow one; so a screen can show it.
pub fn lists_keep_cells_plain()
    ensures { (l : ListData) (s t : ListState) (area : Rect) (old new : BufferData)
        → IfSome l.block IsNarrowBox → HasNarrowItems l → IsPlainFrom 0 old
        → RendersList l s t area old new → IsPlainFrom 0 new }
{}

/// A list over an area that is ready leaves the area apart, with wide graphemes, too, under a
/// highlight, too, if a screen can show its texts and its symbol, and it has no box or a narrow one;
/// so the buffer is settled.
pub fn lists_leave_areas_apart()
    ensures { (l : ListData) (s t : ListState) (area : Rect) (old new : BufferData)
        → IfSome l.block IsNarrowBox → HasShowableItems l → IsReadyIn area old
        → RendersList l s t area old new → StandsApart area new }
{}

/// The selected item is shown if its rows fit: it is one of those from the state's offset on.
pub fn selected_items_are_shown()
    ensures { (l : ListData) (s t : ListState) (r : Rect) (old new : BufferData) (selected : ℕ)
        → t.selected ≡ Some selected → Fit l.items.items r.height selected (selected + 1)
        → (shows : ShowsList l s t r old new)
        → (t.offset ≤ selected) × (selected < t.offset + shows.count) }
{}

/// What a rendering leaves in a state is what settling makes of it, in the part of the area that
/// the buffer has; and that is one state.
pub fn renderings_settle_the_state()
    ensures leaves { (l : ListData) (s t : ListState) (area : Rect) (old new : BufferData)
        → RendersList l s t area old new → SettlesList l (intersected area old.area) s t }
    ensures one { (l : ListData) (s t : ListState) (area : Rect) → SettlesList l area s t
        → t ≡ settled_list l area s }
{}

/// Settling twice is settling once; and a rendering of a state that was settled in its area leaves
/// it as it is, and shows what a rendering of the state before shows.
pub fn settled_states_stay()
    ensures twice { (l : ListData) (s : ListState) (area : Rect)
        → settled_list l area (settled_list l area s) ≡ settled_list l area s }
    ensures stays { (l : ListData) (s t u : ListState) (area : Rect) (old new : BufferData)
        → SettlesList l (intersected area old.area) s t → RendersList l t u area old new → u ≡ t }
    ensures shown { (l : ListData) (s t u : ListState) (area : Rect) (old new : BufferData)
        → SettlesList l (intersected area old.area) s t → RendersList l s u area old new
        → RendersList l t t area old new }
{}

/// A list stands from above, and has columns for its highlight symbol if an item is selected,
/// unless it is told otherwise.
pub fn lists_have_these_defaults()
    ensures direction { (d : ListDirection) → ⟦<ListDirection as Default>⟧.is_default d
        → d ≡ TopToBottom }
    ensures spacing { (h : HighlightSpacing) → ⟦<HighlightSpacing as Default>⟧.is_default h
        → h ≡ WhenSelected }
{}
