//! The list of the keys.

ghost use Rattle.std.specs.Prelude.{◌≡◌, [], map, slice_get, unwrap_or};
ghost use Rattle.files.specs.Help.{keys_row};

/// The list of the keys, row by row.
pub static HELP: [&str; 22] = [
    "j k  Down Up    next, previous entry",
    "PgDn PgUp       a page down, up",
    "Ctrl+D Ctrl+U   half a page down, up",
    "g G  Home End   first, last entry",
    "l  Enter Right  opens the folder",
    "h  Back Left    the folder above",
    "~               the folder all is in",
    ":  then Tab     to a path; completes it",
    ".               hidden entries, or not",
    "s  then n s d   by name, size, date;",
    "      or N S D  the other way round",
    "/               seeks a text in names",
    "n N             next, previous found",
    "Space  Esc      marks; unmarks all",
    "y d             notes to copy, to move",
    "p               pastes what is noted",
    "r z             renames, undoes a move",
    "a               makes a file, folder/",
    "D X             to the trash, for good",
    "wheel  click    moves; selects, opens",
    "?  F1           this list",
    "q  Ctrl+C  Q    the end; told where",
];

// A row of a list, and after it an empty one.
fn row_of(rows: &[&'static str], k: usize) -> &'static str
    ensures { result.now ≡ unwrap_or (slice_get (map (λ row. row.now) rows.now) k) [] }
{
    match rows.get(k) {
        Some(row) => row,
        None => "",
    }
}

/// Returns a row of the list of the keys, from 0 on, and after it an empty one.
pub(crate) fn keys_row(k: usize) -> &'static str
    ensures { result.now ≡ keys_row k }
{
    row_of(&HELP, k)
}
