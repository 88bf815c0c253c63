//! Laws of the model. Calling one of these functions costs nothing and tells the caller's proof its
//! law.

ghost use Rattle.std.specs.Prelude.{◌≡◌, ℕ, ◌+◌, ◌<◌, ◌≤◌, nat_lt, if◌then◌else◌};
ghost use Rattle.ratatui_core.specs.Buffer.{Look, look_of, width_of, Update, put};
ghost use Rattle.ansi_model.specs.Columns.{Columns, look_in, is_continuation};
ghost use Rattle.ansi_model.specs.Screens.{HaveOwnWidths, IsWhole, IsBlankBeyond, IsIdle, IsUncut};
ghost use Rattle.ansi_model.specs.Screens.{put_columns};
ghost use Rattle.ansi_model.specs.Symbols.{printed_columns};
ghost use Rattle.ansi_model.specs.Emulator.{Emulator, run, blank_terminal};
ghost use Rattle.ansi_model.specs.Endings.{left_below, left_within};

/// A blank terminal of at least one row is ready, so that what is said of ready terminals is said
/// of some.
pub fn a_blank_terminal_is_ready()
    ensures { (w h : ℕ) → 0 < h → IsIdle w h (blank_terminal w h) }
{}

/// A terminal that has more rows than a program had is left as it stands: nothing scrolls, and the
/// cursor is shown at the beginning of the row after the program's.
pub fn a_higher_terminal_is_left_as_it_stands()
    ensures { (w h high : ℕ) (t : Emulator) → 0 < w → 0 < h → h < high → IsIdle w high t
        → left_below h t ≡ left_within h t }
{}

/// A symbol that is printed on the screen and cuts no other at its ends is put, as the cells' grids
/// say.
pub fn a_printed_symbol_is_put()
    ensures { (w h : ℕ) (u : Update) (c : Columns) → IsWhole c
        → IsUncut u.x u.y (width_of u.cell) c → 0 < width_of u.cell
        → u.x + width_of u.cell ≤ w → u.y < h
        → (a b : ℕ) → look_in (put_columns u.x u.y (width_of u.cell) (look_of u.cell) c a b)
        ≡ put w h u (λ i j. look_in (c i j)) a b }
{}

/// Once such a symbol is printed, and if it takes just those columns, all columns that were known
/// and sized still are, all symbols are whole, nothing stands right of the screen, and the symbol's
/// columns but the first are its continuation columns.
pub fn a_printed_symbol_keeps_the_others()
    ensures sized { (x y n : ℕ) (look : Look) (c : Columns) → IsWhole c → IsUncut x y n c
        → n ≡ printed_columns look.symbol → HaveOwnWidths c
        → HaveOwnWidths (put_columns x y n look c) }
    ensures whole { (x y n : ℕ) (look : Look) (c : Columns) → IsWhole c → IsUncut x y n c
        → IsWhole (put_columns x y n look c) }
    ensures beyond { (w x y n : ℕ) (look : Look) (c : Columns) → IsWhole c → IsUncut x y n c
        → x + n ≤ w → IsBlankBeyond w c → IsBlankBeyond w (put_columns x y n look c) }
    ensures continuations { (x y n : ℕ) (look : Look) (c : Columns) → IsWhole c → IsUncut x y n c
        → (a b : ℕ) → is_continuation (put_columns x y n look c a b)
        ≡ if run x y n a b then nat_lt x a else is_continuation (c a b) }
{}
