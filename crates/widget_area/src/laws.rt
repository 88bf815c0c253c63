//! Laws of text areas that are rendered.

ghost use Rattle.std.specs.Prelude.{◌≡◌, ◌+◌, ◌<◌, ◌≤◌, ◌-◌, ℕ, List, All, false};
ghost use Rattle.ratatui_core.specs.Layout.{Rect};
ghost use Rattle.widget_area.specs.declared.view.AreaView.{AreaView};
ghost use Rattle.widget_area.specs.declared.widget.TextAreaWidget.{TextAreaWidget};
ghost use Rattle.text_places.specs.Places.{text_place, IsInLine, is_before, places_after, rows_between};
ghost use Rattle.text_places.specs.Places.{lines_rows};
ghost use Rattle.widget_area.specs.Columns.{past, columns_of_grapheme, column_past};
ghost use Rattle.widget_area.specs.Wraps.{rows_of_columns, in_rows};
ghost use Rattle.widget_area.specs.Windows.{window_start, wrapped_rows, cursor_place, wrapped_place};
ghost use Rattle.widget_area.specs.Windows.{wrapped_plan};
ghost use Rattle.widget_area.specs.TextAreas.{row_past};

/// The view stays where it is as long as the cursor stands in it.
pub fn the_view_stays_if_it_can()
    ensures { (first place room : ℕ) → first ≤ place → place < first + room
        → window_start first place room ≡ first }
{}

/// Whatever the view was, the cursor's place is in the next one.
pub fn the_cursor_is_in_view()
    ensures before { (first place room : ℕ) → window_start first place room ≤ place }
    ensures within { (first place room : ℕ) → 0 < room → place < window_start first place room + room }
{}

/// If the view moves, the cursor's place is the last or the first one in it.
pub fn the_view_moves_no_further_than_it_must()
    ensures left { (first place room : ℕ) → window_start first place room < first
        → window_start first place room ≡ place }
    ensures right { (first place room : ℕ) → first < window_start first place room
        → window_start first place room + (room - 1) ≡ place }
{}

/// The rows of a wrapped line, put together, are the line: no grapheme is lost, and none stands in
/// two rows. Each is to take a column or more, and the line fewer than the greatest number, as each
/// text does.
pub fn the_rows_of_a_line_are_the_line()
    ensures { (tab stride : ℕ) (gs : List (List ℕ)) → 0 < stride
        → All (λ g. (column : ℕ) → 0 < columns_of_grapheme tab column g) gs
        → column_past tab 0 gs < 18446744073709551615
        → in_rows tab stride 0 0 gs (rows_of_columns stride (column_past tab 0 gs)) ≡ gs }
{}

/// The view of wrapped lines stays where it is as long as the cursor's place is in it.
pub fn the_wrapped_view_stays_if_it_can()
    ensures { (w : TextAreaWidget) (v : AreaView) (stride height : ℕ)
        → let former = text_place v.top v.row in let rows = wrapped_rows w stride in
        IsInLine rows former → is_before (cursor_place w stride) former ≡ false
        → rows_between rows former (cursor_place w stride) < height
        → wrapped_place w v stride height ≡ former }
{}

/// The cursor's place is as many rows after the one with which the view begins as its row in the
/// view says, and that is one of the view's rows.
pub fn the_cursors_place_is_in_view()
    ensures place { (w : TextAreaWidget) (v : AreaView) (r : Rect) → let p = wrapped_plan w v r in
        places_after (wrapped_rows w p.stride) p.y (text_place p.top p.above)
        ≡ cursor_place w p.stride }
    ensures within { (w : TextAreaWidget) (v : AreaView) (r : Rect) → 0 < r.height
        → (wrapped_plan w v r).y < r.height }
{}

/// The cursor stands in its row of its line: that row is counted from the view's first line on, as
/// the rows of all lines that are drawn. There are to be fewer rows than the greatest number, as in
/// each text.
pub fn the_cursor_stands_in_its_row()
    ensures { (w : TextAreaWidget) (v : AreaView) (r : Rect) → let p = wrapped_plan w v r in
        let part = (cursor_place w p.stride).row in let n = p.row - p.top in
        lines_rows (wrapped_rows w p.stride) p.top n + part < 18446744073709551615
        → past (row_past w p 0 p.top n) part - p.above ≡ p.y }
{}
