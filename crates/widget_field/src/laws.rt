//! Laws of fields that are rendered.

ghost use Rattle.std.specs.Prelude.{◌≡◌, ◌+◌, ◌-◌, ◌<◌, ◌≤◌, ℕ, List, length, drop, map, filter};
ghost use Rattle.std.specs.Prelude.{true, false, None, Some, IfSome};
ghost use Rattle.std.specs.Str.{IsAscii};
ghost use Rattle.unicode_segmentation.specs.Grapheme.{graphemes};
ghost use Rattle.ratatui_core.specs.Layout.{EdgesFit, Rect};
ghost use Rattle.ratatui_core.specs.Style.{new_style};
ghost use Rattle.ratatui_core.specs.Text.{has_control};
ghost use Rattle.ratatui_core.specs.Buffer.{BufferData, IsPlainFrom, IsSettledBuffer};
ghost use Rattle.ratatui_core.specs.Buffer.{has_painted_width, piece_of, text_pieces};
ghost use Rattle.widget_boxes.specs.Boxes.{IsNarrowBox};
ghost use Rattle.widget_boxes.specs.Framed.{IsShortFrame};
ghost use Rattle.text_field.specs.Field.{FieldData, field_text};
ghost use Rattle.widget_field.specs.declared.input.Input.{Input};
ghost use Rattle.widget_field.specs.Views.{IsView, byte_of, columns_after};
ghost use Rattle.widget_field.specs.Fields.{HasNarrowText, IsShortInput, RendersInput, ShowsField};
ghost use Rattle.widget_field.specs.Fields.{masked};

/// A field that was rendered has its cursor in the area, in the first row.
pub fn the_cursor_stands_in_the_area()
    ensures { (input : Input) (f g : FieldData) (r : Rect) (old new : BufferData)
        → ShowsField input f g r old new
        → (x : ℕ) × (g.place ≡ Some (x, r.y)) × (r.x ≤ x) × (x < r.x + r.width) }
{}

/// Rendering changes neither the text nor where the cursor stands in it.
pub fn rendering_keeps_the_text()
    ensures before { (input : Input) (f g : FieldData) (r : Rect) (old new : BufferData)
        → ShowsField input f g r old new → g.before ≡ f.before }
    ensures after { (input : Input) (f g : FieldData) (r : Rect) (old new : BufferData)
        → ShowsField input f g r old new → g.after ≡ f.after }
{}

/// Where the view begins is determined by the text, the room, where it began before, and the columns
/// of what is after the cursor.
pub fn there_is_one_view()
    ensures { (room behind first one other : ℕ) (text : List ℕ)
        → IsView room behind text first one → IsView room behind text first other → one ≡ other }
{}

/// The view stays where it began if a grapheme still begins there, all from there to the cursor
/// fits, and no grapheme before it would fit beside all from it to the text's end.
pub fn the_view_stays_if_it_can()
    ensures { (room behind first start n : ℕ) (text : List ℕ) → IsView room behind text first start
        → n ≤ length (graphemes true text) → first ≡ byte_of (graphemes true text) n
        → columns_after (graphemes true text) n ≤ room
        → ((k : ℕ) → k < n → room < columns_after (graphemes true text) k + behind) → start ≡ first }
{}

/// Nothing is hidden before the view that there is room for: no grapheme before it would fit beside
/// all from it to the text's end.
pub fn no_room_is_wasted()
    ensures { (room behind first start k : ℕ) (text : List ℕ) → IsView room behind text first start
        → byte_of (graphemes true text) k < start
        → room < columns_after (graphemes true text) k + behind }
{}

/// What an input shows before the cursor are the graphemes that its view counts. Each of them that
/// takes a column is painted; and if the text has no control character, the cursor stands in the
/// column after theirs.
pub fn the_view_shows_what_it_counts()
    ensures graphemes { (input : Input) (f g : FieldData) (r : Rect) (old new : BufferData)
        → (shows : ShowsField input f g r old new) → let text = masked input.mask f.before in
        graphemes true (drop g.first text) ≡ drop shows.parts.view.count (graphemes true text) }
    ensures painted { (input : Input) (f g : FieldData) (r : Rect) (old new : BufferData)
        → (shows : ShowsField input f g r old new) → let text = masked input.mask f.before in
        let counted = drop shows.parts.view.count (graphemes true text) in
        text_pieces (r.width - 1) new_style (drop g.first text)
        ≡ map (piece_of new_style) (filter has_painted_width counted) }
    ensures cursor { (input : Input) (f g : FieldData) (r : Rect) (old new : BufferData)
        → (shows : ShowsField input f g r old new) → let text = masked input.mask f.before in
        has_control text ≡ false
        → let columns = columns_after (graphemes true text) shows.parts.view.count in
        g.place ≡ Some (r.x + columns, r.y) }
{}

/// An input of ASCII takes no memory, unless it has a mask, or a box that takes some.
pub fn inputs_of_ascii_take_no_memory()
    ensures { (input : Input) (f : FieldData) (s : BufferData) → IsShortFrame input.block s
        → input.mask ≡ None → IsAscii f.before → IsAscii f.after → IsAscii input.placeholder.now
        → IsShortInput input f s }
{}

/// An input on a buffer of plain cells leaves one that a screen can show, whatever its text, if it
/// has no box or a narrow one.
pub fn inputs_on_plain_cells_are_settled()
    ensures { (input : Input) (f g : FieldData) (area : Rect) (old new : BufferData)
        → EdgesFit old.area → IsPlainFrom 0 old → IfSome input.block IsNarrowBox
        → RendersInput input f g area old new → IsSettledBuffer new }
{}

/// An input whose text takes one column for each grapheme leaves a buffer of plain cells one of
/// plain cells, if it has no box or a narrow one.
pub fn inputs_keep_cells_plain()
    ensures { (input : Input) (f g : FieldData) (area : Rect) (old new : BufferData)
        → IfSome input.block IsNarrowBox → HasNarrowText input f → IsPlainFrom 0 old
        → RendersInput input f g area old new → IsPlainFrom 0 new }
{}
