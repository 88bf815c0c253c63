//! The list of the keys.

ghost use Rattle.std.specs.Prelude.{◌≡◌, [], map, slice_get, unwrap_or};
ghost use Rattle.pager.specs.Pages.{help_text};

/// The list of the keys, row by row.
pub static HELP: [&str; 19] = [
    "j k  Down Up  Enter   a row further, back: or as many as the number typed before",
    "Space b  f b  PgDn PgUp   a page further, back",
    "d u                   half a page further, back",
    "g G  Home End         to the first line, to the last: or to that of the number",
    "% p                   so many hundredths of the text from its beginning",
    "Left Right            half a screen to the left, to the right",
    "/ ?                   search further, back: Enter begins, Esc gives up",
    "n N                   the next match, the one before",
    "&                     only the lines that have what is typed; nothing: all",
    "m ' and a letter      marks the first row's line, goes back; '' to the last jump",
    "=                     how many bytes of the text end with the page",
    "l w                   numbers of lines, or none; long lines broken, or cut",
    ":n :p                 the next text, the one before, if there are several",
    "F                     follows a text that grows: the last page, until a key",
    "h  q  Ctrl+C          this list; the end",
    "The wheel of the mouse goes three rows further or back.",
    "One of \\ . + * ? ( ) [ { | ^ $ makes what is sought a regular expression.",
    "A search takes A to Z as small letters, unless one of them is typed.",
    "Tabs go to every eighth column. What can't be shown is a replacement character.",
];

// Row k of a list, and after it an empty one.
fn row_of(rows: &[&'static str], k: u16) -> &'static str
    ensures { result.now ≡ unwrap_or (slice_get (map (λ row. row.now) rows.now) k) [] }
{
    match rows.get(usize::from(k)) {
        Some(row) => row,
        None => "",
    }
}

// Row k of the list of the keys, and after it an empty one.
pub(crate) fn help_text(k: u16) -> &'static str
    ensures { result.now ≡ help_text k }
{
    row_of(&HELP, k)
}
