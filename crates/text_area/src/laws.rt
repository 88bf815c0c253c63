//! Laws of text areas.

ghost use Rattle.std.specs.Prelude.{◌≡◌, ◌≤◌, ◌<◌, ◌+◌, ◌-◌, ◌++◌, ℕ, List, [], ◌∷◌, length};
ghost use Rattle.std.specs.Prelude.{get_or};
ghost use Rattle.std.specs.Prelude.{false, true};
ghost use Rattle.std.specs.List.{replace_range, slice_split, join_with_byte};
ghost use Rattle.std.specs.Str.{IsUtf8};
ghost use Rattle.text_area.specs.Extents.{is_feed};
ghost use Rattle.text_area.specs.Lines.{feeds, nth_line, nth_place};
ghost use Rattle.text_area.specs.Drafts.{draft_text};
ghost use Rattle.text_area.specs.Journals.{JournalData, StepData, Undoes, undone, redone};
ghost use Rattle.text_area.specs.Journals.{changes_nothing, goes_on};
ghost use Rattle.text_area.specs.Areas.{AreaData, area_text, area_before, area_cursor, aim_of};
ghost use Rattle.text_area.specs.Areas.{put_over, gone, undoing};
ghost use Rattle.text_area.specs.Areas.{selected, typing_over, killing, yanking};
ghost use Rattle.text_area.specs.Typing.{written_text};
ghost use Rattle.text_area.specs.declared.moves.Move.{Move};
ghost use Rattle.text_area.specs.declared.moves.Move.TheVariants.{Up, Down};

/// A change puts a piece in place of a part of the text, and changes nothing else of it; the cursor
/// stands after the piece.
pub fn a_change_replaces_a_part()
    ensures text { (a : AreaData) (part : ℕ × ℕ) (piece : List ℕ)
        → area_text (put_over part piece a) ≡ replace_range (area_text a) part.0 part.1 piece }
    ensures cursor { (a : AreaData) (part : ℕ × ℕ) (piece : List ℕ)
        → changes_nothing part.0 part.1 piece ≡ false → part.0 ≤ length (area_text a)
        → area_cursor (put_over part piece a) ≡ part.0 + length piece }
{}

/// Moving the cursor changes neither the text nor what can be undone.
pub fn moving_keeps_the_text()
    ensures text { (a : AreaData) (to : Move) → area_text (gone to a) ≡ area_text a }
    ensures past { (a : AreaData) (to : Move) → (gone to a).journal.past ≡ a.journal.past }
    ensures future { (a : AreaData) (to : Move) → (gone to a).journal.future ≡ a.journal.future }
{}

/// Undoing a change gives the text and the cursor of before it, in an area that keeps any steps;
/// and after a change nothing can be redone. What goes on with what was put last, as the next
/// letter of a line does, is undone together with it.
pub fn undoing_gives_what_was()
    ensures text { (a : AreaData) (part : ℕ × ℕ) (piece : List ℕ)
        → changes_nothing part.0 part.1 piece ≡ false
        → goes_on part.0 part.1 piece a.journal.past a.journal.future ≡ false
        → 0 < a.journal.most → part.0 ≤ part.1 → part.1 ≤ length (area_text a)
        → (undoing (put_over part piece a)).journal.text ≡ a.journal.text }
    ensures together { (a : AreaData) (part : ℕ × ℕ) (piece : List ℕ)
        → changes_nothing part.0 part.1 piece ≡ false
        → goes_on part.0 part.1 piece a.journal.past a.journal.future ≡ true
        → Undoes a.journal.past (area_text a)
        → (undoing (put_over part piece a)).journal.text ≡ (undoing a).journal.text }
    ensures future { (a : AreaData) (part : ℕ × ℕ) (piece : List ℕ)
        → changes_nothing part.0 part.1 piece ≡ false
        → (put_over part piece a).journal.future ≡ [] }
{}

/// Redoing what was undone, and undoing what was redone, gives back the text, the cursor and what
/// can be undone and redone.
pub fn redoing_undoes_undoing()
    ensures redone { (j : JournalData) (s : StepData) (past : List StepData)
        → j.past ≡ s ∷ past → Undoes j.past (draft_text j.text) → redone (undone j) ≡ j }
    ensures undone { (j : JournalData) (s : StepData) (future : List StepData)
        → j.future ≡ s ∷ future → Undoes j.future (draft_text j.text) → undone (redone j) ≡ j }
{}

/// What is typed stands in place of what was selected, and all else stays.
pub fn typing_replaces_what_is_selected()
    ensures { (a : AreaData) (text : List ℕ)
        → (front back : List ℕ) × (area_text a ≡ (front ++ selected a) ++ back)
        × (area_text (typing_over text a) ≡ (front ++ written_text text) ++ back) }
{}

/// What was killed is typed again where it stood.
pub fn yanking_undoes_killing()
    ensures { (a : AreaData) (part : ℕ × ℕ) → part.0 < part.1 → part.1 ≤ length (area_text a)
        → area_text (yanking (killing part a)) ≡ area_text a }
{}

/// A text is its lines, with a line feed between each two; there is one more than line feeds.
pub fn a_text_is_its_lines()
    ensures whole { (text : List ℕ) → join_with_byte 10 (slice_split is_feed text) ≡ text }
    ensures count { (text : List ℕ) → length (slice_split is_feed text) ≡ feeds text + 1 }
    ensures lines { (text : List ℕ) (i : ℕ) → i ≤ feeds text
        → nth_line i text ≡ get_or (slice_split is_feed text) i [] }
{}

/// Going up and then down comes back, if the cursor stood where the column that it aims at is in its
/// own line, whatever the length of the line above.
pub fn going_down_undoes_going_up()
    ensures { (a : AreaData) → IsUtf8 (nth_line (feeds (area_before a) - 1) (area_text a))
        → 0 < feeds (area_before a)
        → nth_place (feeds (area_before a)) (aim_of a) (area_text a) ≡ area_cursor a
        → (gone Down (gone Up a)).journal ≡ a.journal }
{}
