//! Laws of places.

ghost use Rattle.std.specs.Prelude.{◌≡◌, ◌<◌, ◌≤◌, ◌+◌, ◌-◌, ℕ, true, false};
ghost use Rattle.text_places.specs.declared.place.Place.{Place};
ghost use Rattle.text_places.specs.Places.{HaveRows, IsInLine, text_place};
ghost use Rattle.text_places.specs.Places.{places_after, places_before, is_before, rows_between};
ghost use Rattle.text_places.specs.Places.{view_begin};

/// As many rows further and back lead to where one was; and as many back and further, if the text
/// has so many before.
pub fn back_and_forth()
    ensures back { (rows : ℕ → ℕ) (n : ℕ) (q : Place) → HaveRows rows → IsInLine rows q
        → places_before rows n (places_after rows n q) ≡ q }
    ensures further { (rows : ℕ → ℕ) (n : ℕ) (q : Place) → HaveRows rows → IsInLine rows q
        → is_before (text_place 0 0) (places_before rows n q) ≡ true
        → places_after rows n (places_before rows n q) ≡ q }
{}

/// A row of a line leads to rows of lines, however far one goes.
pub fn walks_stay_in_lines()
    ensures further { (rows : ℕ → ℕ) (n : ℕ) (q : Place) → HaveRows rows → IsInLine rows q
        → IsInLine rows (places_after rows n q) }
    ensures back { (rows : ℕ → ℕ) (n : ℕ) (q : Place) → HaveRows rows → IsInLine rows q
        → IsInLine rows (places_before rows n q) }
{}

/// If each line takes at most so many rows, a walk from one of so many rows leads to one of so many.
pub fn walks_pass_no_more_rows_than_there_are()
    ensures further { (rows : ℕ → ℕ) (most n : ℕ) (q : Place) → ((line : ℕ) → rows line ≤ most)
        → q.row < most → (places_after rows n q).row < most }
    ensures back { (rows : ℕ → ℕ) (most n : ℕ) (q : Place) → ((line : ℕ) → rows line ≤ most)
        → q.row < most → (places_before rows n q).row < most }
{}

/// A walk depends only on the lines that it goes through: further on those before the last one that
/// it may reach, and back on those before its first one.
pub fn walks_depend_on_their_lines()
    ensures further { (rows others : ℕ → ℕ) (end n : ℕ) (q : Place)
        → ((line : ℕ) → line < end → others line ≡ rows line) → q.line + n ≤ end
        → places_after others n q ≡ places_after rows n q }
    ensures back { (rows others : ℕ → ℕ) (end n : ℕ) (q : Place)
        → ((line : ℕ) → line < end → others line ≡ rows line) → q.line ≤ end
        → places_before others n q ≡ places_before rows n q }
{}

/// A place before another one is before it after as many rows further.
pub fn places_stay_in_order()
    ensures { (rows : ℕ → ℕ) (n : ℕ) (a b : Place) → HaveRows rows → IsInLine rows a → IsInLine rows b
        → is_before a b ≡ true
        → is_before (places_after rows n a) (places_after rows n b) ≡ true }
{}

/// A place is as many rows after an earlier one as there are between them.
pub fn rows_between_are_walked()
    ensures { (rows : ℕ → ℕ) (a b : Place) → HaveRows rows → IsInLine rows a → IsInLine rows b
        → is_before b a ≡ false → places_after rows (rows_between rows a b) a ≡ b }
{}

/// Wherever the view began, the place is in the next one.
pub fn the_place_is_in_view()
    ensures before { (rows : ℕ → ℕ) (former q : Place) (n : ℕ) → HaveRows rows → IsInLine rows q
        → is_before q (view_begin rows former q n) ≡ false }
    ensures within { (rows : ℕ → ℕ) (former q : Place) (n : ℕ) → HaveRows rows → IsInLine rows q
        → 0 < n → rows_between rows (view_begin rows former q n) q < n }
{}

/// The view begins where it began as long as the place is in it.
pub fn the_view_stays_if_it_can()
    ensures { (rows : ℕ → ℕ) (former q : Place) (n : ℕ) → HaveRows rows → IsInLine rows former
        → IsInLine rows q → is_before q former ≡ false → rows_between rows former q < n
        → view_begin rows former q n ≡ former }
{}

/// If the view moves, the place is in the first or the last row of it.
pub fn the_view_moves_no_further_than_it_must()
    ensures back { (rows : ℕ → ℕ) (former q : Place) (n : ℕ) → HaveRows rows → IsInLine rows former
        → IsInLine rows q → is_before (view_begin rows former q n) former ≡ true
        → view_begin rows former q n ≡ q }
    ensures further { (rows : ℕ → ℕ) (former q : Place) (n : ℕ) → HaveRows rows
        → IsInLine rows former → IsInLine rows q
        → is_before former (view_begin rows former q n) ≡ true
        → view_begin rows former q n ≡ places_before rows (n - 1) q }
{}
