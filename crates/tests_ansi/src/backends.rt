//! A backend over memory: its calls, what it sends for cells, and what it refuses.
use ratatui_ansi::{AnsiBackend, AnsiError, KeyboardEnhancementFlags, SetCursorStyle};
use rtui_backend::{Backend, ClearType};
use rtui_cell::Cell;
use rtui_geometry::{Position, Size};
use rtui_style::Color;
use std::alloc::{AllocError, Global};
use std::io::ErrorKind;
use std::test::Fail;
use std::{slice, str};

// A backend that writes to memory.
pub(crate) type Kept = AnsiBackend<Vec<u8>>;

// A backend of a screen of so many columns and rows, over a writer that keeps what it is sent.
pub(crate) fn over_kept(alloc: Global, width: u16, height: u16) -> Result<Kept, Fail> {
    let size = Size { width, height };
    match AnsiBackend::new(alloc, Vec::new(alloc), size) {
        Ok(backend) => Ok(backend),
        Err(_) => Err(Fail::from(AllocError)),
    }
}

// What a backend was sent.
pub(crate) fn sent(backend: &Kept) -> &str {
    str::from_utf8(backend.writer().as_slice()).unwrap_or("not UTF-8")
}

// An error that can be compared: of a writer's error the kind alone.
#[derive(Debug, Clone, Copy, PartialEq, Eq)]
pub(crate) enum Why {
    Memory,
    Symbol(Position),
    Style(Position),
    Cut(Position),
    Size,
    Broken,
    Write(ErrorKind),
}

// An answer, with an error that can be compared.
pub(crate) fn by_kind<T>(answer: Result<T, AnsiError>) -> Result<T, Why> {
    answer.map_err(|error| match error {
        AnsiError::Memory => Why::Memory,
        AnsiError::Symbol(place) => Why::Symbol(place),
        AnsiError::Style(place) => Why::Style(place),
        AnsiError::Cut(place) => Why::Cut(place),
        AnsiError::Size => Why::Size,
        AnsiError::Broken => Why::Broken,
        AnsiError::Write(error) => Why::Write(error.kind()),
    })
}

// Whether a call was made, and what was sent until then ends so.
fn sends(backend: &Kept, answer: Result<(), AnsiError>, end: &str) -> bool {
    answer.is_ok() && sent(backend).ends_with(end)
}

// What makes a terminal of four columns and three rows blank.
const BLANK_4_3: &str =
    "\u{1b}\\\u{f}\u{1b}*B\u{1b}}\u{1b})B\u{1b}(B\u{1b}%G\u{1b}[4l\u{1b}[?6l\u{1b}[?69l\u{1b}[?7h\u{1b}[?2026l\
     \u{1b}[0m\u{1b}[rm\ré\u{1b}[3;4H\u{1b}[1J\u{1b}[1;1H\u{1b}[?25h";

// What scrolls its screen into its history.
const SAVE_4_3: &str =
    "\u{1b}\\\u{f}\u{1b}*B\u{1b}}\u{1b})B\u{1b}(B\u{1b}%G\u{1b}[4l\u{1b}[?6l\u{1b}[?69l\u{1b}[?7h\u{1b}[?2026l\
     \u{1b}[0m\u{1b}[r\u{1b}[65535;1H\r\n\n\n\n\u{1b}[1;1H\u{1b}[4L";

// Whether a text is two others, one after the other.
fn is_joined(text: &str, first: &str, second: &str) -> bool {
    text.strip_prefix(first) == Some(second)
}

// Makes one of the calls that answer nothing.
fn call(backend: &mut Kept, number: usize) -> Result<(), AnsiError> {
    match number {
        0 => backend.hide_cursor(),
        1 => backend.set_cursor_position(Position { x: 9, y: 1 }),
        2 => backend.append_lines(2),
        3 => backend.scroll_region_up(0..3, 1),
        4 => backend.clear(),
        5 => backend.clear_region(ClearType::UntilNewLine),
        6 => backend.flush(),
        _ => backend.restart(),
    }
}

// How what is sent ends after each of these calls, and where the cursor then is.
static CALLS: [(&str, (u16, u16)); 8] = [
    ("\u{1b}[?25l", (0, 0)),
    ("\u{1b}[?25l\u{1b}[2;10H", (3, 1)),
    ("\r\n\n", (0, 2)),
    ("\u{1b}[3;1H\r\n\u{1b}[3;1H", (0, 2)),
    ("\u{1b}[3;4H\u{1b}[1J\u{1b}[3;1H", (0, 2)),
    ("\u{1b}[3;1H\u{1b}[K\u{1b}[3;1H", (0, 2)),
    ("\u{1b}[3;1H\u{1b}[K\u{1b}[3;1H", (0, 2)),
    (BLANK_4_3, (0, 0)),
];

// Whether a backend tells that its cursor is here.
fn is_at(backend: &mut Kept, x: u16, y: u16) -> bool {
    by_kind(backend.get_cursor_position()) == Ok(Position { x, y })
        && by_kind(backend.get_cursor()) == Ok((x, y))
}

#[test]
fn calls_of_the_backend(rt: HostRuntime) -> Result<(), Fail> {
    let mut backend = over_kept(rt.alloc(), 4, 3)?;
    assert!(rt; is_joined(sent(&backend), SAVE_4_3, BLANK_4_3));
    for (number, (end, (x, y))) in CALLS.iter().enumerate() {
        let answer = call(&mut backend, number);
        assert!(rt; sends(&backend, answer, end) && is_at(&mut backend, *x, *y));
    }
    let size = Size {
        width: 4,
        height: 3,
    };
    assert!(rt; by_kind(backend.size()) == Ok(size));
    Ok(())
}

// Cells with these symbols.
fn cells_of(alloc: Global, symbols: &[&str]) -> Result<Vec<Cell>, AllocError> {
    let mut cells = Vec::new(alloc);
    for symbol in symbols {
        cells.push(Cell::new(alloc, symbol)?)?;
    }
    Ok(cells)
}

// Whether drawing cells in these places, on what was drawn before, answers so and is sent so.
fn draws(
    backend: &mut Kept,
    places: &[(u16, u16)],
    cells: &[Cell],
    wanted: Result<(), Why>,
    end: &str,
) -> bool {
    let before = sent(backend).len();
    let placed = places.iter().zip(cells.iter());
    let answer = backend.draw(placed.map(|((x, y), cell)| (*x, *y, cell)));
    by_kind(answer) == wanted && sent(backend).get(before..) == Some(end)
}

#[test]
fn moves_and_pens_only_where_they_change(rt: HostRuntime) -> Result<(), Fail> {
    let mut backend = over_kept(rt.alloc(), 80, 24)?;
    let mut cells = cells_of(rt.alloc(), &["a", "─", "c", "コ", "d"])?;
    for cell in cells.iter_mut().skip(2) {
        cell.fg = Color::Green;
    }
    let places = [(1, 0), (2, 0), (3, 0), (4, 0), (6, 0)];
    let wanted = "\u{1b}[1;2Ha─\u{1b}[0;32mc\u{1b}[1;5Hコ\u{1b}[1;7Hd\u{1b}[0m";
    assert!(rt; draws(&mut backend, &places, cells.as_slice(), Ok(()), wanted));
    Ok(())
}

// The places of cells, their symbols, the answer to drawing them, and what is sent.
type Drawn = (
    &'static [(u16, u16)],
    &'static [&'static str],
    Result<(), Why>,
    &'static str,
);

static SIDE_BY_SIDE: [Drawn; 2] = [
    (&[(0, 0), (1, 0)], &["a", "b"], Ok(()), "\u{1b}[1;1Hab"),
    (&[(2, 0), (3, 0)], &["コ", " "], Ok(()), "\u{1b}[1;3Hコ"),
];

const CUT: Result<(), Why> = Err(Why::Cut(Position { x: 3, y: 0 }));

// Of a symbol with U+FE0F all columns are blanked first, and a move follows it within its row.
static DISPUTED: [Drawn; 3] = [
    (
        &[(0, 0), (2, 0)],
        &["❤\u{fe0f}", "a"],
        Ok(()),
        "\u{1b}[1;1H  \u{1b}[1;1H❤\u{fe0f}\u{1b}[1;3Ha",
    ),
    (
        &[(3, 0), (4, 0)],
        &["a", "❤\u{fe0f}"],
        Ok(()),
        "\u{1b}[1;4Ha  \u{1b}[1;5H❤\u{fe0f}",
    ),
    (
        &[(5, 1)],
        &["❤\u{fe0f}"],
        Err(Why::Symbol(Position { x: 5, y: 1 })),
        "",
    ),
];

static OVER_ONE_ANOTHER: [Drawn; 6] = [
    (&[(3, 0)], &["a"], CUT, ""),
    (&[(2, 0)], &["a"], Ok(()), "\u{1b}[1;3Ha "),
    (&[(3, 0)], &["a"], Ok(()), "\u{1b}[1;4Ha"),
    (&[(4, 1)], &["コ"], Ok(()), "\u{1b}[2;5Hコ"),
    (&[(3, 1)], &["ン"], Ok(()), "\u{1b}[2;4Hン\u{1b}[2;6H "),
    (&[(9, 9)], &["a"], Ok(()), ""),
];

// Whether each of these draws, one after another, answers so and is sent so.
fn draws_each(alloc: Global, backend: &mut Kept, cases: &[Drawn]) -> Result<bool, AllocError> {
    for (places, symbols, wanted, end) in cases {
        let cells = cells_of(alloc, symbols)?;
        if !draws(backend, places, cells.as_slice(), *wanted, end) {
            return Ok(false);
        }
    }
    Ok(true)
}

#[test]
fn cells_in_their_places(rt: HostRuntime) -> Result<(), Fail> {
    let mut backend = over_kept(rt.alloc(), 6, 2)?;
    assert!(rt; draws_each(rt.alloc(), &mut backend, &SIDE_BY_SIDE)?);
    assert!(rt; by_kind(backend.get_cursor()) == Ok((4, 0)));
    assert!(rt; draws_each(rt.alloc(), &mut backend, &OVER_ONE_ANOTHER)?);
    Ok(())
}

#[test]
fn symbols_of_disputed_columns(rt: HostRuntime) -> Result<(), Fail> {
    let mut backend = over_kept(rt.alloc(), 6, 2)?;
    assert!(rt; draws_each(rt.alloc(), &mut backend, &DISPUTED)?);
    Ok(())
}

#[test]
fn ambiguous_cells(rt: HostRuntime) -> Result<(), Fail> {
    let mut backend = over_kept(rt.alloc(), 4, 1)?;
    let cells = cells_of(rt.alloc(), &["a", "é", "a", "é"])?;
    let row = [(0, 0), (1, 0), (2, 0), (3, 0)];
    let (narrow, wide) = ("\u{1b}[1;1Haéaé", "\u{1b}[1;1Haé\u{1b}[1;3Haé");
    assert!(rt; draws(&mut backend, &row, cells.as_slice(), Ok(()), narrow));
    backend.set_ambiguous_is_wide(true);
    assert!(rt; draws(&mut backend, &row, cells.as_slice(), Ok(()), wide));
    Ok(())
}

static UNPRINTED: [&str; 4] = ["a\u{1b}[2J", "", "ab", "コン"];

#[test]
fn symbols_that_are_refused(rt: HostRuntime) -> Result<(), Fail> {
    let mut backend = over_kept(rt.alloc(), 3, 1)?;
    let refused = Err(Why::Symbol(Position { x: 1, y: 0 }));
    let cells = cells_of(rt.alloc(), &UNPRINTED)?;
    for cell in &cells {
        assert!(rt; draws(&mut backend, &[(1, 0)], slice::from_ref(cell), refused, ""));
    }
    Ok(())
}

// Whether a cell with an underline of this colour answers so and is sent so.
fn underlines(
    backend: &mut Kept,
    cell: &mut Cell,
    color: Color,
    wanted: Result<(), Why>,
    end: &str,
) -> bool {
    cell.underline_color = color;
    draws(backend, &[(1, 0)], slice::from_ref(cell), wanted, end)
}

#[test]
fn underlines_that_are_refused(rt: HostRuntime) -> Result<(), Fail> {
    let mut backend = over_kept(rt.alloc(), 3, 1)?;
    let refused = Err(Why::Style(Position { x: 1, y: 0 }));
    let wanted = "\u{1b}[0;58;5;3m\u{1b}[1;2Ha\u{1b}[0m";
    let mut cell = Cell::new(rt.alloc(), "a")?;
    assert!(rt; underlines(&mut backend, &mut cell, Color::Red, refused, ""));
    assert!(rt; underlines(&mut backend, &mut cell, Color::Indexed(3), refused, ""));
    backend.set_underline_colors(true);
    assert!(rt; underlines(&mut backend, &mut cell, Color::Indexed(3), Ok(()), wanted));
    assert!(rt;
        underlines(
            &mut backend,
            &mut cell,
            Color::Reset,
            Ok(()),
            "\u{1b}[1;2Ha"
        )
    );
    Ok(())
}

#[test]
fn draws_within_updates(rt: HostRuntime) -> Result<(), Fail> {
    let mut backend = over_kept(rt.alloc(), 6, 2)?;
    let cells = cells_of(rt.alloc(), &["a", "b"])?;
    let row = [(0, 0), (1, 0)];
    backend.set_synchronized(true);
    let held = "\u{1b}[?2026h\u{1b}[1;1Hab\u{1b}[?2026l";
    assert!(rt; draws(&mut backend, &row, cells.as_slice(), Ok(()), held));
    backend.set_synchronized(false);
    assert!(rt;
        draws(
            &mut backend,
            &row,
            cells.as_slice(),
            Ok(()),
            "\u{1b}[1;1Hab"
        )
    );
    Ok(())
}

/// Presses, repeats and releases are told apart.
pub(crate) const EVENT_TYPES: KeyboardEnhancementFlags =
    KeyboardEnhancementFlags::REPORT_EVENT_TYPES;

// Asks what changes nothing on the screen.
fn ask(backend: &mut Kept, number: usize) -> Result<(), AnsiError> {
    match number {
        0 => backend.set_mouse_capture(true),
        1 => backend.set_mouse_capture(false),
        2 => backend.set_bracketed_paste(true),
        3 => backend.set_bracketed_paste(false),
        4 => backend.set_focus_change(true),
        5 => backend.set_focus_change(false),
        6 => backend.ask_cursor_position(),
        7 => backend.ask_size(),
        8 => backend.set_cursor_style(SetCursorStyle::DefaultUserShape),
        9 => backend.set_cursor_style(SetCursorStyle::SteadyBar),
        10 => backend.send_title("a\u{1b}]b\u{7}コ"),
        11 => backend.send_title(""),
        12 => backend.set_size_reports(true),
        13 => backend.set_size_reports(false),
        14 => backend.push_keyboard_enhancement_flags(
            KeyboardEnhancementFlags::DISAMBIGUATE_ESCAPE_CODES,
        ),
        15 => backend.pop_keyboard_enhancement_flags(),
        _ => backend.show_cursor(),
    }
}

static ASKED: [&str; 17] = [
    "\u{1b}[?1000h\u{1b}[?1002h\u{1b}[?1003h\u{1b}[?1006h",
    "\u{1b}[?1006l\u{1b}[?1003l\u{1b}[?1002l\u{1b}[?1000l",
    "\u{1b}[?2004h",
    "\u{1b}[?2004l",
    "\u{1b}[?1004h",
    "\u{1b}[?1004l",
    "\u{1b}[6n",
    "\u{1b}[65535;65535H\u{1b}[6n\u{1b}[1;1H",
    "\u{1b}[0 q",
    "\u{1b}[6 q",
    "\u{1b}[22;2t\u{1b}]2;a]bコ\u{1b}\\",
    "\u{1b}]2;\u{1b}\\",
    "\u{1b}[?2048h",
    "\u{1b}[?2048l",
    "\u{1b}[>1u",
    "\u{1b}[<1u",
    "",
];

#[test]
fn commands(rt: HostRuntime) -> Result<(), Fail> {
    let mut backend = over_kept(rt.alloc(), 4, 3)?;
    for (number, wanted) in ASKED.iter().enumerate() {
        let before = sent(&backend).len();
        let answer = ask(&mut backend, number);
        assert!(rt; answer.is_ok() && sent(&backend).get(before..) == Some(*wanted));
    }
    assert!(rt; is_at(&mut backend, 0, 0));
    Ok(())
}

const LEFT_BELOW: &str = "\u{1b}[?25l\u{1b}[0m\u{1b}[r\u{1b}[?25h\u{1b}[3;1H\r\n";

// Whether what a terminal is sent ends so once it is left.
fn is_left(backend: Kept, end: &str) -> bool {
    match backend.leave() {
        Ok(writer) => writer.as_slice().ends_with(end.as_bytes()),
        Err(_) => false,
    }
}

#[test]
fn a_terminal_is_left(rt: HostRuntime) -> Result<(), Fail> {
    let mut backend = over_kept(rt.alloc(), 4, 3)?;
    assert!(rt; backend.hide_cursor().is_ok());
    assert!(rt; is_left(backend, LEFT_BELOW));
    Ok(())
}

// The end of a terminal, of four columns and three rows, on which much was set.
const UNDONE: &str =
    "\u{1b}[?1006l\u{1b}[?1003l\u{1b}[?1002l\u{1b}[?1000l\u{1b}[?2004l\u{1b}[?1004l\u{1b}[?2048l\u{1b}[0 q\u{1b}[23;2t\u{1b}[<2u\u{1b}[0m\u{1b}[r\u{1b}[?25h\u{1b}[3;1H\r\n";

// Sets all that can be set.
fn set_all(backend: &mut Kept) -> Result<(), AnsiError> {
    backend.set_mouse_capture(true)?;
    backend.set_bracketed_paste(true)?;
    backend.set_focus_change(true)?;
    backend.set_size_reports(true)?;
    backend.set_cursor_style(SetCursorStyle::BlinkingBar)?;
    backend.send_title("one")?;
    backend.send_title("two")?;
    backend.push_keyboard_enhancement_flags(EVENT_TYPES)?;
    backend.push_keyboard_enhancement_flags(EVENT_TYPES)
}

#[test]
fn what_is_set_is_undone(rt: HostRuntime) -> Result<(), Fail> {
    let mut backend = over_kept(rt.alloc(), 4, 3)?;
    assert!(rt; set_all(&mut backend).is_ok());
    assert!(rt; is_left(backend, UNDONE));
    Ok(())
}

// Takes all that was set back, but for the title.
fn take_back(backend: &mut Kept) -> Result<(), AnsiError> {
    backend.set_mouse_capture(false)?;
    backend.set_bracketed_paste(false)?;
    backend.set_focus_change(false)?;
    backend.set_size_reports(false)?;
    backend.set_cursor_style(SetCursorStyle::DefaultUserShape)?;
    backend.pop_keyboard_enhancement_flags()?;
    backend.pop_keyboard_enhancement_flags()
}

#[test]
fn what_was_taken_back_is_not_undone_again(rt: HostRuntime) -> Result<(), Fail> {
    let mut backend = over_kept(rt.alloc(), 4, 3)?;
    assert!(rt; set_all(&mut backend).is_ok() && take_back(&mut backend).is_ok());
    let end = "\u{1b}[<1u\u{1b}[<1u\u{1b}[23;2t\u{1b}[0m\u{1b}[r\u{1b}[?25h\u{1b}[3;1H\r\n";
    assert!(rt; is_left(backend, end));
    Ok(())
}

// A backend over the alternate screen of a terminal of four columns and three rows.
fn over_alternate(alloc: Global) -> Result<Kept, Fail> {
    let size = Size {
        width: 4,
        height: 3,
    };
    match AnsiBackend::new_on_alternate_screen(alloc, Vec::new(alloc), size) {
        Ok(backend) => Ok(backend),
        Err(_) => Err(Fail::from(AllocError)),
    }
}

const ALTERNATE: &str = "\u{1b}\\\u{1b}[0m\u{1b}[?1049h";

const MAIN: &str = "\u{1b}[1;1H\r\n\u{1b}[r\u{1b}[?25h\u{1b}[?1049l\u{1b}[0m";

#[test]
fn the_main_screen_comes_back(rt: HostRuntime) -> Result<(), Fail> {
    let mut backend = over_alternate(rt.alloc())?;
    assert!(rt; is_joined(sent(&backend), ALTERNATE, BLANK_4_3));
    assert!(rt; backend.restart().is_ok() && sent(&backend).ends_with(BLANK_4_3));
    let place = Position { x: 0, y: 0 };
    assert!(rt; backend.set_cursor_position(place).is_ok() && backend.append_lines(1).is_ok());
    assert!(rt; is_left(backend, MAIN));
    Ok(())
}

// Begins on the alternate screen of a terminal and drops the backend; whether that worked.
fn begins_and_drops(alloc: Global, writer: &mut Vec<u8>) -> bool {
    let size = Size {
        width: 4,
        height: 3,
    };
    AnsiBackend::new_on_alternate_screen(alloc, writer, size).is_ok()
}

#[test]
fn a_drop_brings_the_main_screen_back(rt: HostRuntime) {
    let mut writer = Vec::new(rt.alloc());
    assert!(rt; begins_and_drops(rt.alloc(), &mut writer));
    assert!(rt;
        writer
            .as_slice()
            .ends_with(b"\x1b[r\x1b[?25h\x1b[?1049l\x1b[0m")
    );
}

// Begins on the main screen of a terminal and drops the backend; whether that worked.
fn begins_and_drops_on_main(alloc: Global, writer: &mut Vec<u8>) -> bool {
    let size = Size {
        width: 4,
        height: 3,
    };
    AnsiBackend::new(alloc, writer, size).is_ok()
}

#[test]
fn a_drop_gives_the_main_screen_back(rt: HostRuntime) {
    let mut writer = Vec::new(rt.alloc());
    assert!(rt; begins_and_drops_on_main(rt.alloc(), &mut writer));
    assert!(rt;
        writer
            .as_slice()
            .ends_with(b"\x1b[0m\x1b[r\x1b[?25h\x1b[3;1H\r\n")
    );
}

// After something was written by hand no call is made until the backend begins again.
#[test]
fn a_writer_is_written_by_hand(rt: HostRuntime) -> Result<(), Fail> {
    let mut backend = over_kept(rt.alloc(), 4, 3)?;
    backend.writer_mut().extend_from_slice(b"\x07")?;
    assert!(rt; sent(&backend).ends_with("\u{7}"));
    assert!(rt; by_kind(backend.hide_cursor()) == Err(Why::Broken));
    assert!(rt; backend.restart().is_ok() && sent(&backend).ends_with(BLANK_4_3));
    assert!(rt; by_kind(backend.hide_cursor()) == Ok(()));
    Ok(())
}

#[test]
fn no_backend_without_columns(rt: HostRuntime) {
    let none = Size {
        width: 0,
        height: 1,
    };
    assert!(rt; AnsiBackend::new(rt.alloc(), Vec::<u8>::new(rt.alloc()), none).is_err());
}
