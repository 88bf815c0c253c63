//! Laws of widgets that are no single call's clause.

pub use widget_bars::laws::{bar_charts_keep_cells_plain, digits_take_one_column};
pub use widget_boxes::laws::{
    boxes_of_short_symbols_take_no_memory, clearing_keeps_settled, narrow_boxes_keep_cells_plain,
};
pub use widget_canvas::laws::{canvases_keep_cells_plain, marks_are_narrow};
pub use widget_chart::laws::{charts_keep_cells_plain, charts_take_memory_for_grids};
pub use widget_list::laws::{lists_keep_cells_plain, lists_leave_areas_apart};
pub use widget_meters::laws::{
    gauges_on_plain_cells_are_settled, line_gauges_on_plain_cells_are_settled,
};
pub use widget_paragraph::laws::{
    whole_graphemes_are_painted_together, words_are_broken_only_if_wide, wrapping_loses_nothing,
};
pub use widget_scrollbar::laws::{
    scroll_bars_keep_cells_plain, sets_of_scroll_bars_take_one_column,
};
pub use widget_sparkline::laws::{sparklines_have_this_default, sparklines_keep_cells_plain};
pub use widget_table::laws::{
    selected_rows_are_shown, tables_keep_cells_plain, tables_leave_areas_apart,
};
pub use widget_tabs::laws::tabs_keep_cells_plain;
