//! Laws of tables that are no single call's clause.

ghost use Rattle.std.specs.Prelude.{◌≡◌, ℕ, ◌≤◌, ◌<◌, Some, IfSome};
ghost use Rattle.ratatui_core.specs.Layout.{Rect, intersected};
ghost use Rattle.ratatui_core.specs.Buffer.{BufferData, IsPlainFrom};
ghost use Rattle.widget_boxes.specs.Apart.{StandsApart, IsReadyIn};
ghost use Rattle.widget_boxes.specs.Boxes.{IsNarrowBox};
ghost use Rattle.widget_table.specs.declared.table.Table.{Table as TableData};
ghost use Rattle.widget_table.specs.declared.state.TableState.{TableState};
ghost use Rattle.widget_table.specs.Rows.{IsInView, rows_area, upper_at, cells_at};
ghost use Rattle.widget_table.specs.SettledTables.{SettlesTable, settled_table};
ghost use Rattle.widget_table.specs.Tables.{HasNarrowRows, HasShowableRows, RendersTable, ShowsTable};
ghost use Rattle.widget_table.specs.Tables.{IsShownWhole};

/// A table whose texts and whose symbol take one column for each grapheme leaves a buffer of plain
/// cells one of plain cells, if it has no box or a narrow one; so a screen can show it.
pub fn tables_keep_cells_plain()
    ensures { (t : TableData) (s u : TableState) (area : Rect) (old new : BufferData)
        → IfSome t.block IsNarrowBox → HasNarrowRows t → IsPlainFrom 0 old
        → RendersTable t s u area old new → IsPlainFrom 0 new }
{}

/// A table over an area that is ready leaves the area apart, with wide graphemes, too, under its
/// highlights, too, if a screen can show its texts and its symbol, and it has no box or a narrow one;
/// so the buffer is settled.
pub fn tables_leave_areas_apart()
    ensures { (t : TableData) (s u : TableState) (area : Rect) (old new : BufferData)
        → IfSome t.block IsNarrowBox → HasShowableRows t → IsReadyIn area old
        → RendersTable t s u area old new → StandsApart area new }
{}

/// The selected row is in view from the state's first one on, if the rows' area has room for it with
/// its upper margin; and then it is shown with all rows of its cells.
pub fn selected_rows_are_shown()
    ensures view { (t : TableData) (s u : TableState) (r : Rect) (old new : BufferData)
        → (selected : ℕ) → let height = (rows_area t.header t.footer r).height in
        u.selected ≡ Some selected → upper_at t.rows.items selected ≤ height
        → ShowsTable t s u r old new
        → (u.offset ≤ selected) × IsInView t.rows.items height u.offset selected }
    ensures whole { (t : TableData) (s u : TableState) (r : Rect) (old new : BufferData)
        → (selected : ℕ) → let rows = rows_area t.header t.footer r in
        u.selected ≡ Some selected → upper_at t.rows.items selected ≤ rows.height
        → 0 < cells_at t.rows.items selected → ShowsTable t s u r old new
        → IsShownWhole t u rows selected }
{}

/// What a rendering leaves in a state is what settling makes of it, in the part of the area that
/// the buffer has; and that is one state.
pub fn renderings_settle_the_state()
    ensures leaves { (t : TableData) (s u : TableState) (area : Rect) (old new : BufferData)
        → RendersTable t s u area old new → SettlesTable t (intersected area old.area) s u }
    ensures one { (t : TableData) (s u : TableState) (area : Rect) → SettlesTable t area s u
        → u ≡ settled_table t area s }
{}

/// Settling twice is settling once; and a rendering of a state that was settled in its area leaves
/// it as it is, and shows what a rendering of the state before shows.
pub fn settled_states_stay()
    ensures twice { (t : TableData) (s : TableState) (area : Rect)
        → settled_table t area (settled_table t area s) ≡ settled_table t area s }
    ensures stays { (t : TableData) (s u v : TableState) (area : Rect) (old new : BufferData)
        → SettlesTable t (intersected area old.area) s u → RendersTable t u v area old new → v ≡ u }
    ensures shown { (t : TableData) (s u v : TableState) (area : Rect) (old new : BufferData)
        → SettlesTable t (intersected area old.area) s u → RendersTable t s v area old new
        → RendersTable t u u area old new }
{}
