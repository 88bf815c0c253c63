//! Laws of fields.

ghost use Rattle.std.specs.Prelude.{◌≡◌, ◌≤◌, ◌-◌, ◌++◌, ℕ, List, length, chars, encode_utf8_all};
ghost use Rattle.std.specs.Prelude.{true, Some};
ghost use Rattle.std.specs.Prelude.{◌<◌, bytes_eq, false};
ghost use Rattle.std.specs.Str.{IsUtf8};
ghost use Rattle.std.specs.List.{list_all};
ghost use Rattle.text_field.specs.Field.{FieldData, field_text, is_typed, accepted, typing, moved_left};
ghost use Rattle.text_field.specs.Field.{moved_right};
ghost use Rattle.text_field.specs.Field.{cut_left, cut_right, part_left, part_right, keeping};
ghost use Rattle.text_field.specs.Field.{new_field};
ghost use Rattle.text_field.specs.Reach.{reach_left};
ghost use Rattle.text_field.specs.History.{HistoryData, IsUndone, IsRedone, cursor_text, after_edit};
ghost use Rattle.text_field.specs.declared.reach.Reach.TheVariants.{Grapheme};

/// Moving the cursor changes no text.
pub fn moving_keeps_the_text()
    ensures left { (f : FieldData) (n : ℕ) → field_text (moved_left n f) ≡ field_text f }
    ensures right { (f : FieldData) (n : ℕ) → field_text (moved_right n f) ≡ field_text f }
{}

/// What was typed is gone when as much is deleted to the left; one deletion does it if what was
/// typed is one grapheme.
pub fn deleting_undoes_typing()
    ensures bytes { (f : FieldData) (text : List ℕ)
        → cut_left (length (accepted f text)) (typing text f) ≡ f }
    ensures grapheme { (f : FieldData) (text : List ℕ)
        → reach_left Grapheme (typing text f).before ≡ length (accepted f text)
        → cut_left (reach_left Grapheme (typing text f).before) (typing text f) ≡ f }
{}

/// What is typed into an empty field is its text, if it has no control character.
pub fn what_is_typed_is_the_text()
    ensures { (text : List ℕ) → IsUtf8 text → list_all is_typed (chars text) ≡ true
        → field_text (typing text new_field) ≡ text }
{}

/// What is typed has no control character, whatever the text.
pub fn no_control_character_is_typed()
    ensures { (f : FieldData) (text : List ℕ)
        → (cs : List ℕ) × (accepted f text ≡ encode_utf8_all cs) × (list_all is_typed cs ≡ true) }
{}

/// A limit is kept: no more characters are typed than it leaves.
pub fn a_limit_is_kept()
    ensures { (f : FieldData) (text : List ℕ) (limit : ℕ) → f.limit ≡ Some limit
        → (cs : List ℕ) × (accepted f text ≡ encode_utf8_all cs)
        × (length cs ≤ limit - length (chars (field_text f))) }
{}

/// What was killed to the left is typed again where it stood, if a field takes it as it is.
pub fn yanking_undoes_killing()
    ensures left { (f : FieldData) (n : ℕ) → let g = cut_left n (keeping (part_left n f) f) in
        accepted g (part_left n f) ≡ part_left n f
        → field_text (typing (part_left n f) g) ≡ field_text f }
    ensures right { (f : FieldData) (n : ℕ) → let g = cut_right n (keeping (part_right n f) f) in
        accepted g (part_right n f) ≡ part_right n f
        → field_text (typing (part_right n f) g) ≡ field_text f }
{}

/// Undoing an edit that has changed the text gives the text and the cursor of before it, in a
/// history that keeps any steps.
pub fn undoing_gives_what_was()
    ensures { (f g k : FieldData) (h i : HistoryData) → bytes_eq (field_text f) (field_text g) ≡ false
        → 0 < h.most → IsUndone g k (after_edit f g h) i → cursor_text k ≡ cursor_text f }
{}

/// Redoing what was undone, and undoing what was redone, gives back the field and its history.
pub fn redoing_undoes_undoing()
    ensures redone { (f g k : FieldData) (h i j : HistoryData)
        → IsUndone f g h i → IsRedone g k i j → (k ≡ f) × (j ≡ h) }
    ensures undone { (f g k : FieldData) (h i j : HistoryData)
        → IsRedone f g h i → IsUndone g k i j → (k ≡ f) × (j ≡ h) }
{}
