//! Laws of scroll bars that are no single call's clause.

ghost use Rattle.std.specs.Prelude.{◌≡◌, ℕ, ◌+◌, ◌<◌, ◌≤◌, All};
ghost use Rattle.ratatui_core.specs.Layout.{Rect};
ghost use Rattle.ratatui_core.specs.Buffer.{BufferData, IsPlainFrom};
ghost use Rattle.ratatui_core.specs.Symbols.{scrollbar_sets};
ghost use Rattle.ratatui_core.specs.Text.{EachGrapheme, TakesOneColumn};
ghost use Rattle.widget_scrollbar.specs.declared.scrollbar.Scrollbar.{Scrollbar};
ghost use Rattle.widget_scrollbar.specs.declared.scrollbar.state.ScrollbarState.{ScrollbarState};
ghost use Rattle.widget_scrollbar.specs.declared.scrollbar.state.ScrollDirection.{ScrollDirection};
ghost use Rattle.widget_scrollbar.specs.declared.scrollbar.state.ScrollDirection.TheVariants.{Forward};
ghost use Rattle.widget_scrollbar.specs.declared.scrollbar.ScrollbarOrientation.{ScrollbarOrientation};
ghost use Rattle.widget_scrollbar.specs.declared.scrollbar.ScrollbarOrientation.TheVariants.{VerticalRight};
ghost use Rattle.widget_scrollbar.specs.Scrollbars.{RendersScrollbar, IsNewScrollbar};
ghost use Rattle.widget_scrollbar.specs.Scrollbars.{IsOneColumn, EachSymbol};
ghost use Rattle.widget_scrollbar.specs.Scrollbars.{thumb_length, thumb_start};

use crate::scrollbar::{ScrollDirection, ScrollbarOrientation};

/// A scroll bar of symbols whose graphemes take one column each keeps cells plain.
pub fn scroll_bars_keep_cells_plain()
    ensures { (b : Scrollbar) (s t : ScrollbarState) (area : Rect) (old new : BufferData)
        → EachSymbol (EachGrapheme TakesOneColumn) b → IsPlainFrom 0 old
        → RendersScrollbar b s t area old new → IsPlainFrom 0 new }
{}

/// The symbols of each set of scroll bars take one column, and so do those of a new bar: each cell
/// of the bar has its own. A bar of such symbols keeps cells plain.
pub fn sets_of_scroll_bars_take_one_column()
    ensures sets { All (All IsOneColumn) scrollbar_sets }
    ensures bar { (o : ScrollbarOrientation) (b : Scrollbar) → IsNewScrollbar o b
        → EachSymbol IsOneColumn b }
    ensures graphemes { (b : Scrollbar) → EachSymbol IsOneColumn b
        → EachSymbol (EachGrapheme TakesOneColumn) b }
{}

/// A thumb takes at least one cell, and lies on its track. At the first position it begins where
/// the track does, and at the last one it ends there.
pub fn thumbs_lie_on_their_tracks()
    ensures some { (s : ScrollbarState) (track length : ℕ) → 0 < thumb_length s track length }
    ensures within { (s : ScrollbarState) (track length : ℕ) → 0 < track
        → thumb_start s track length + thumb_length s track length ≤ track }
    ensures first { (s : ScrollbarState) (track length : ℕ) → 0 < length → s.position ≡ 0
        → thumb_start s track length ≡ 0 }
    ensures last { (s : ScrollbarState) (track length : ℕ) → 0 < length → 0 < track
        → 0 < s.content_length → s.content_length ≤ s.position + 1
        → thumb_start s track length + thumb_length s track length ≡ track }
{}

/// A scroll bar stands at the right, and scrolls forward, unless it is told otherwise.
pub fn scroll_bars_have_these_defaults()
    ensures orientation { (o : ScrollbarOrientation)
        → ⟦<ScrollbarOrientation as Default>⟧.is_default o → o ≡ VerticalRight }
    ensures direction { (d : ScrollDirection) → ⟦<ScrollDirection as Default>⟧.is_default d
        → d ≡ Forward }
{}
