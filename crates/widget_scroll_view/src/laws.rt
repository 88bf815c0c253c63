//! Laws of scroll views that are no single call's clause.

ghost use Rattle.std.specs.Prelude.{◌≡◌, ℕ, ◌+◌, ◌-◌, ◌<◌, ◌≤◌, true};
ghost use Rattle.std.specs.Fn.{iterate};
ghost use Rattle.ratatui_core.specs.Layout.{Rect, Position, HasPosition, EdgesFit, intersected};
ghost use Rattle.ratatui_core.specs.Buffer.{BufferData, cell_in, width_of, IsPlainFrom, IsSettledBuffer};
ghost use Rattle.widget_boxes.specs.Boxes.{IsBoxArea};
ghost use Rattle.widget_scrollbar.specs.Scrollbars.{thumb_start, thumb_length};
ghost use Rattle.widget_scroll_view.specs.declared.scroll_view.ScrollView.{ScrollView};
ghost use Rattle.widget_scroll_view.specs.declared.scroll_view.ScrollbarVisibility.{ScrollbarVisibility};
ghost use Rattle.widget_scroll_view.specs.declared.scroll_view.ScrollbarVisibility.TheVariants.{Automatic, Always};
ghost use Rattle.widget_scroll_view.specs.declared.state.ScrollViewState.{ScrollViewState};
ghost use Rattle.widget_scroll_view.specs.Offsets.{unseen_at, scrolled_up, scrolled_down};
ghost use Rattle.widget_scroll_view.specs.Offsets.{scrolled_left, scrolled_right};
ghost use Rattle.widget_scroll_view.specs.Places.{has_bar, has_vertical, has_horizontal, view_area};
ghost use Rattle.widget_scroll_view.specs.Places.{vertical_bar, horizontal_bar, shown_offset, shown_area};
ghost use Rattle.widget_scroll_view.specs.Places.{StandApart, CanBeSeen};
ghost use Rattle.widget_scroll_view.specs.ScrollViews.{RendersScrollView, IsReadyOver, shown_cell, bar_state};
ghost use Rattle.widget_scroll_view.specs.ScrollViews.{settled_view};

use crate::scroll_view::ScrollbarVisibility;
use crate::state::ScrollViewState;
use widget_scrollbar::laws::thumbs_lie_on_their_tracks;

/// Scrolling down so many times by a row and then up as often leads back to where it began, if no
/// end of the grid was met; and so do the other way round, and to the sides.
pub fn scrolling_back_leads_back()
    ensures down { (s : ScrollViewState) (n : ℕ) → s.offset.y + n ≤ 65535
        → iterate (scrolled_up 1) n (iterate (scrolled_down 1) n s) ≡ s }
    ensures up { (s : ScrollViewState) (n : ℕ) → n ≤ s.offset.y → s.offset.y ≤ 65535
        → iterate (scrolled_down 1) n (iterate (scrolled_up 1) n s) ≡ s }
    ensures right { (s : ScrollViewState) (n : ℕ) → s.offset.x + n ≤ 65535
        → iterate (scrolled_left 1) n (iterate (scrolled_right 1) n s) ≡ s }
    ensures left { (s : ScrollViewState) (n : ℕ) → n ≤ s.offset.x → s.offset.x ≤ 65535
        → iterate (scrolled_right 1) n (iterate (scrolled_left 1) n s) ≡ s }
{}

/// Each bar stands as the room asks that the other one leaves; and the bars that stand and what
/// they leave lie in the area, each apart from the others, with some cell for the content.
pub fn bars_stand_beside_the_content()
    ensures vertical { (v : ScrollView) (r : Rect) → let view = view_area v r in
        has_vertical v r ≡ has_bar v.vertical_scrollbar_visibility
        v.content.area.height view.height r.width }
    ensures horizontal { (v : ScrollView) (r : Rect) → let view = view_area v r in
        has_horizontal v r ≡ has_bar v.horizontal_scrollbar_visibility
        v.content.area.width view.width r.height }
    ensures apart { (v : ScrollView) (r : Rect) → IsBoxArea r → StandApart v r }
    ensures some { (v : ScrollView) (r : Rect) → IsBoxArea r → IsBoxArea (view_area v r) }
{}

/// A view shows the content's cells from its offset on, and nothing else changes but its bars; the
/// offset is at most the last one.
pub fn scroll_views_show_their_content()
    ensures offset { (v : ScrollView) (s t : ScrollViewState) (area : Rect) (old new : BufferData)
        → RendersScrollView v s t area old new → let r = intersected area old.area in
        0 < r.width → 0 < r.height → t.offset ≡ shown_offset v.content (view_area v r) s.offset }
    ensures content { (v : ScrollView) (s t : ScrollViewState) (area : Rect) (old new : BufferData)
        → RendersScrollView v s t area old new → (p : Position) → HasPosition old.area p
        → let shown = shown_area v.content (view_area v (intersected area old.area)) in
        HasPosition shown p → cell_in new p ≡ shown_cell v.content t.offset shown p }
    ensures rest { (v : ScrollView) (s t : ScrollViewState) (area : Rect) (old new : BufferData)
        → RendersScrollView v s t area old new → (p : Position) → HasPosition old.area p
        → let r = intersected area old.area in let view = view_area v r in
        ¬ (HasPosition (shown_area v.content view) p)
        → (has_vertical v r ≡ true → ¬ (HasPosition (vertical_bar r view) p))
        → (has_horizontal v r ≡ true → ¬ (HasPosition (horizontal_bar r view) p))
        → cell_in new p ≡ cell_in old p }
{}

/// Without a bar that stands always, a content that is no larger than the area has all of it, and
/// each of its cells stands as far in the area as in the content.
pub fn contents_that_fit_are_shown()
    ensures view { (v : ScrollView) (r : Rect)
        → ¬ (v.vertical_scrollbar_visibility ≡ Always)
        → ¬ (v.horizontal_scrollbar_visibility ≡ Always)
        → v.content.area.width ≤ r.width → v.content.area.height ≤ r.height → view_area v r ≡ r }
    ensures cells { (v : ScrollView) (s t : ScrollViewState) (area : Rect) (old new : BufferData)
        → RendersScrollView v s t area old new → (q : Position)
        → ¬ (v.vertical_scrollbar_visibility ≡ Always)
        → ¬ (v.horizontal_scrollbar_visibility ≡ Always)
        → let content = v.content.area in let r = intersected area old.area in
        content.width ≤ r.width → content.height ≤ r.height → IsSettledBuffer v.content
        → HasPosition content q
        → cell_in new (record { x = r.x + (q.x - content.x); y = r.y + (q.y - content.y) })
        ≡ cell_in v.content q }
{}

/// Each cell of the content can be scrolled to: from some offset on an area shows it, whole if the
/// area has as many columns for the content.
pub fn each_cell_can_be_scrolled_to()
    ensures seen { (v : ScrollView) (r : Rect) (q : Position) → EdgesFit v.content.area
        → IsBoxArea r → HasPosition v.content.area q → CanBeSeen v r q }
    ensures shown { (v : ScrollView) (s t : ScrollViewState) (area : Rect) (old new : BufferData)
        → RendersScrollView v s t area old new → (q : Position)
        → let r = intersected area old.area in (seen : CanBeSeen v r q) → s.offset ≡ seen.offset
        → IsSettledBuffer v.content → HasPosition v.content.area q
        → width_of (cell_in v.content q) ≤ (view_area v r).width
        → cell_in new seen.place ≡ cell_in v.content q }
{}

/// The thumb of a bar begins where its track does at the first offset, and ends where it does at
/// the last one.
pub fn thumbs_tell_where_the_ends_are()
    ensures first { (length room track bar : ℕ) → 0 < bar
        → thumb_start (bar_state length room 0) track bar ≡ 0 }
    ensures last { (length room track bar : ℕ) → 0 < bar → 0 < track
        → let s = bar_state length room (length - room) in
        thumb_start s track bar + thumb_length s track bar ≡ track }
{
    thumbs_lie_on_their_tracks();
}

/// What a rendering leaves in a state is what settling makes of it, in the part of the area that
/// the buffer has.
pub fn renderings_settle_the_state()
    ensures { (v : ScrollView) (s t : ScrollViewState) (area : Rect) (old new : BufferData)
        → RendersScrollView v s t area old new → t ≡ settled_view v (intersected area old.area) s }
{}

/// Settling twice is settling once; and a rendering of a state that was settled in its area leaves
/// it as it is, and shows what a rendering of the state before shows.
pub fn settled_states_stay()
    ensures twice { (v : ScrollView) (s : ScrollViewState) (area : Rect)
        → settled_view v area (settled_view v area s) ≡ settled_view v area s }
    ensures shown { (v : ScrollView) (s t : ScrollViewState) (area : Rect) (old new : BufferData)
        → RendersScrollView v s t area old new
        → let u = settled_view v (intersected area old.area) s in
        RendersScrollView v u u area old new }
{}

/// A content of plain cells leaves a buffer of plain cells one of plain cells.
pub fn scroll_views_keep_cells_plain()
    ensures { (v : ScrollView) (s t : ScrollViewState) (area : Rect) (old new : BufferData)
        → RendersScrollView v s t area old new → EdgesFit v.content.area → IsPlainFrom 0 v.content
        → IsPlainFrom 0 old → IsPlainFrom 0 new }
{}

/// A content that a screen can show, with wide characters, too, leaves a buffer that a screen can
/// show, wherever its edges cut, if the area's cells were plain and none beside reached there; and
/// so it is over any area of a buffer of plain cells.
pub fn views_of_settled_contents_are_settled()
    ensures settled { (v : ScrollView) (s t : ScrollViewState) (area : Rect) (old new : BufferData)
        → RendersScrollView v s t area old new → IsSettledBuffer v.content
        → IsReadyOver (intersected area old.area) old → IsSettledBuffer new }
    ensures plain { (r : Rect) (s : BufferData) → EdgesFit s.area → IsPlainFrom 0 s
        → IsReadyOver r s }
{}

/// A bar stands where it is needed, and a state begins at the content's first cell, unless it is
/// told otherwise.
pub fn scroll_views_have_these_defaults()
    ensures visibility { (x : ScrollbarVisibility)
        → ⟦<ScrollbarVisibility as Default>⟧.is_default x → x ≡ Automatic }
    ensures state { (s : ScrollViewState) → ⟦<ScrollViewState as Default>⟧.is_default s
        → s ≡ unseen_at (record { x = 0; y = 0 }) }
{}
