//! Random plays of a backend, read by a terminal, beside a screen in memory.
use crate::backends::{EVENT_TYPES, Kept, over_kept, sent};
use crate::reader::Reader;
use ansi_model::is_symbol;
use bitflags::Flags;
use ratatui_ansi::{AnsiError, SetCursorStyle};
use rtui_backend::{Backend, ClearType, TestBackend};
use rtui_cell::{Cell, CellWidth};
use rtui_geometry::Position;
use rtui_style::{Color, Modifier};
use std::alloc::{AllocError, Global};
use std::test::Fail;
use std::{io, iter};

// Numbers that look random.
#[derive(Clone, Copy)]
struct Random {
    state: u64,
}

impl Random {
    // One below `n`, or 0.
    fn below(&mut self, n: u16) -> u16 {
        self.state = self
            .state
            .wrapping_mul(6364136223846793005)
            .wrapping_add(1442695040888963407);
        let high = (self.state >> 33) as u32;
        u16::try_from(high.checked_rem(u32::from(n)).unwrap_or(0)).unwrap_or(0)
    }

    fn among<T: Copy>(&mut self, choices: &[T], otherwise: T) -> T {
        let index = self.below(u16::try_from(choices.len()).unwrap_or(u16::MAX));
        match choices.get(usize::from(index)) {
            Some(choice) => *choice,
            None => otherwise,
        }
    }
}

const SYMBOLS: [&str; 15] = [
    " ",
    "a",
    "~",
    "é",
    "─",
    "コ",
    "ン",
    "e\u{301}",
    "👩\u{200d}🔬",
    "❤\u{fe0f}",
    "",
    "\u{7}",
    "ab",
    "日本",
    "コ\u{200b}",
];

const COLORS: [Color; 6] = [
    Color::Reset,
    Color::Reset,
    Color::Red,
    Color::White,
    Color::Indexed(200),
    Color::Rgb(1, 20, 255),
];

const MODIFIERS: [u16; 6] = [0, 0, 1, 256, 511, 512];

const CLEARS: [ClearType; 5] = [
    ClearType::All,
    ClearType::AfterCursor,
    ClearType::BeforeCursor,
    ClearType::CurrentLine,
    ClearType::UntilNewLine,
];

fn random_cell(alloc: Global, random: &mut Random) -> Result<Cell, AllocError> {
    let mut cell = Cell::new(alloc, random.among(&SYMBOLS, "a"))?;
    cell.fg = random.among(&COLORS, Color::Reset);
    cell.bg = random.among(&COLORS, Color::Reset);
    cell.underline_color = random.among(
        &[Color::Reset, Color::Reset, Color::Indexed(3)],
        Color::Reset,
    );
    cell.modifier = Modifier::from_bits_retain(random.among(&MODIFIERS, 0));
    Ok(cell)
}

// A backend and the screen that it should show, of so many columns and rows.
#[derive(Drop)]
struct Play {
    backend: Kept,
    screen: TestBackend,
    width: u16,
    height: u16,
    has_underline_colors: bool,
    // What another program left on the terminal.
    left: &'static str,
    // How much was sent before the backend's own beginning.
    first: usize,
    alloc: Global,
}

impl Play {
    fn new(alloc: Global, width: u16, height: u16) -> Result<Play, Fail> {
        let backend = over_kept(alloc, width, height)?;
        let first = sent(&backend).rfind("\u{1b}\\").unwrap_or(0);
        Ok(Play {
            backend,
            screen: TestBackend::new(alloc, width, height)?,
            width,
            height,
            has_underline_colors: false,
            left: LEFT,
            first,
            alloc,
        })
    }

    fn read(&self) -> Result<Reader<'_>, AllocError> {
        let all = sent(&self.backend);
        let (first, rest) = all.split_at_checked(self.first).unwrap_or(("", all));
        Reader::of(
            self.alloc,
            self.width,
            self.height,
            (self.left, first),
            rest,
        )
    }

    // Whether a terminal that reads what was sent shows the screen, with the cursor where both say
    // it is.
    fn is_shown(&mut self) -> Result<bool, Fail> {
        let Ok(cursor) = self.backend.get_cursor_position() else {
            return Ok(false);
        };
        Ok(self.read()?.shows(cursor, &self.screen))
    }

    // The screen in memory has its cursor if the backend has it.
    fn follow_cursor(&mut self) -> bool {
        match self.backend.get_cursor_position() {
            Ok(cursor) => self.screen.set_cursor_position(cursor).is_ok(),
            Err(_) => false,
        }
    }

    // Draws one cell; whether it is drawn on both, or refused for a reason with nothing sent.
    fn draws(&mut self, random: &mut Random) -> Result<bool, Fail> {
        let cell = random_cell(self.alloc, random)?;
        let (x, y) = (
            random.below(self.width.saturating_add(1)),
            random.below(self.height.saturating_add(1)),
        );
        let room = self.width.saturating_sub(x);
        let before = sent(&self.backend).len();
        match self.backend.draw(iter::once((x, y, &cell))) {
            Ok(()) => {
                let is_drawn = self.screen.draw(iter::once((x, y, &cell))).is_ok();
                Ok(is_drawn && self.follow_cursor())
            }
            Err(error) => {
                let place = Position { x, y };
                let is_in = x < self.width && y < self.height;
                let is_unsent = sent(&self.backend).len() == before;
                let is_behind = self.read()?.is_behind(x, y);
                let has_colors = self.has_underline_colors;
                let is_one = is_reason(error, place, is_behind, room, has_colors, &cell);
                Ok(is_in && is_unsent && is_one)
            }
        }
    }

    // Some places, in each of them one of two cells.
    fn random_items<'a>(
        &self,
        random: &mut Random,
        first: &'a Cell,
        second: &'a Cell,
    ) -> Result<Vec<(u16, u16, &'a Cell)>, AllocError> {
        let mut items = Vec::new(self.alloc);
        for at in 0..random.below(9) {
            let cell = if at % 2 == 0 { first } else { second };
            items.push((random.below(self.width), random.below(self.height), cell))?;
        }
        Ok(items)
    }

    // Draws cells at once; whether they are drawn on both, or refused with nothing sent.
    fn draws_items(&mut self, items: &[(u16, u16, &Cell)]) -> bool {
        let before = sent(&self.backend).len();
        if self.backend.draw(items.iter().copied()).is_ok() {
            self.screen.draw(items.iter().copied()).is_ok() && self.follow_cursor()
        } else {
            sent(&self.backend).len() == before
        }
    }

    // The same of random cells.
    fn draws_some(&mut self, random: &mut Random) -> Result<bool, Fail> {
        let first = random_cell(self.alloc, random)?;
        let second = random_cell(self.alloc, random)?;
        let items = self.random_items(random, &first, &second)?;
        Ok(self.draws_items(items.as_slice()))
    }

    fn moves(&mut self, random: &mut Random) -> bool {
        let place = Position {
            x: random.below(self.width.saturating_add(2)),
            y: random.below(self.height.saturating_add(2)),
        };
        self.backend.set_cursor_position(place).is_ok()
            && self.screen.set_cursor_position(place).is_ok()
    }

    // Clears a part; whether it is cleared on both, or refused if the cursor is after a symbol's
    // first column.
    fn clears(&mut self, random: &mut Random) -> Result<bool, Fail> {
        let clear_type = random.among(&CLEARS, ClearType::All);
        let cursor = self.screen.cursor_position();
        let before = sent(&self.backend).len();
        match self.backend.clear_region(clear_type) {
            Ok(()) => Ok(self.screen.clear_region(clear_type).is_ok()),
            Err(error) => {
                let is_unsent = sent(&self.backend).len() == before;
                let is_behind = self.read()?.is_behind(cursor.x, cursor.y);
                let is_one = matches!(error, AnsiError::Cut(at) if at == cursor);
                Ok(is_unsent && is_behind && is_one)
            }
        }
    }

    fn scrolls(&mut self, random: &mut Random, up: bool) -> bool {
        let (start, end) = (
            random.below(self.height.saturating_add(1)),
            random.below(self.height.saturating_add(2)),
        );
        let n = random.below(self.height.saturating_add(2));
        let are_both = if up {
            self.backend.scroll_region_up(start..end, n).is_ok()
                && self.screen.scroll_region_up(start..end, n).is_ok()
        } else {
            self.backend.scroll_region_down(start..end, n).is_ok()
                && self.screen.scroll_region_down(start..end, n).is_ok()
        };
        are_both && self.follow_cursor()
    }

    fn appends(&mut self, n: u16) -> bool {
        self.backend.append_lines(n).is_ok()
            && self.screen.append_lines(n).is_ok()
            && self.follow_cursor()
    }

    fn hides(&mut self, random: &mut Random) -> bool {
        if random.below(2) == 0 {
            self.backend.hide_cursor().is_ok() && self.screen.hide_cursor().is_ok()
        } else {
            self.backend.show_cursor().is_ok() && self.screen.show_cursor().is_ok()
        }
    }

    // Asks or tells something, which leaves the screen as it is.
    fn asks(&mut self, random: &mut Random) -> bool {
        let is_on = random.below(2) == 0;
        let answer = match random.below(10) {
            0 => self.backend.set_mouse_capture(is_on),
            1 => self.backend.set_bracketed_paste(is_on),
            2 => self.backend.set_focus_change(is_on),
            3 => self.backend.ask_cursor_position(),
            4 => self.backend.ask_size(),
            5 => self.backend.set_cursor_style(SetCursorStyle::SteadyBar),
            6 => self.backend.set_size_reports(is_on),
            7 => self.backend.push_keyboard_enhancement_flags(EVENT_TYPES),
            8 => self.backend.pop_keyboard_enhancement_flags(),
            _ => self.backend.send_title("a\u{7}\u{1b}コ\u{9c}"),
        };
        answer.is_ok()
    }

    // Makes a call of both; whether both answer as they should.
    fn calls(&mut self, random: &mut Random) -> Result<bool, Fail> {
        match random.below(17) {
            16 => Ok(self.asks(random)),
            0 => Ok(self.moves(random)),
            1 => Ok(self.hides(random)),
            2 => {
                let n = random.below(self.height.saturating_add(2));
                Ok(self.appends(n))
            }
            3 => self.clears(random),
            4 => Ok(self.scrolls(random, true)),
            5 => Ok(self.scrolls(random, false)),
            6 | 7 => self.draws_some(random),
            _ => self.draws(random),
        }
    }

    // Whether many calls in a row answer as they should, and are shown.
    fn is_played(&mut self, seed: u64) -> Result<bool, Fail> {
        let mut random = Random { state: seed };
        for _ in 0..CALLS {
            if !self.calls(&mut random)? || !self.is_shown()? {
                return Ok(false);
            }
        }
        Ok(true)
    }

    fn begins_anew(&mut self) -> bool {
        self.backend.restart().is_ok()
            && self
                .backend
                .draw(iter::empty::<(u16, u16, &Cell)>())
                .is_ok()
    }
}

// Whether an error is that of drawing a cell in this place.
fn is_reason(
    error: AnsiError,
    place: Position,
    is_behind: bool,
    room: u16,
    has_underline_colors: bool,
    cell: &Cell,
) -> bool {
    let columns = cell.cell_width();
    let is_one = is_symbol(cell.symbol());
    match error {
        AnsiError::Cut(at) => at == place && is_behind,
        AnsiError::Symbol(at) => at == place && !is_behind && (!is_one || room < columns),
        AnsiError::Style(at) => {
            let is_colored = cell.underline_color != Color::Reset;
            let is_sent = cell.modifier.bits() < 512 && (has_underline_colors || !is_colored);
            at == place && !is_behind && is_one && columns <= room && !is_sent
        }
        _ => false,
    }
}

// Whether a terminal that reads each call of a play shows the screen in memory.
fn is_played(alloc: Global, width: u16, height: u16, seed: u64) -> Result<bool, Fail> {
    let mut play = Play::new(alloc, width, height)?;
    play.has_underline_colors = seed % 2 == 0;
    play.backend.set_underline_colors(seed % 2 == 0);
    play.backend.set_ambiguous_is_wide(seed % 3 == 0);
    play.backend.set_synchronized(seed % 4 == 1);
    play.is_played(seed)
}

const CALLS: u16 = 40;

// Whether so many plays on a screen of this size are.
fn are_played(alloc: Global, width: u16, height: u16) -> Result<bool, Fail> {
    for seed in 0..PLAYS {
        if !is_played(alloc, width, height, seed)? {
            return Ok(false);
        }
    }
    Ok(true)
}

const PLAYS: u64 = 12;

#[test]
fn plays_are_shown(rt: HostRuntime) -> Result<(), Fail> {
    let alloc = rt.alloc();
    assert!(rt; are_played(alloc, 1, 1)?);
    assert!(rt; are_played(alloc, 2, 3)?);
    assert!(rt; are_played(alloc, 3, 2)?);
    assert!(rt; are_played(alloc, 7, 4)?);
    assert!(rt; are_played(alloc, 12, 5)?);
    Ok(())
}

// What another program leaves: rows that scrolled off, a symbol over halves of others, a rendition,
// margins, a hidden cursor, and every mode that changes how text is taken.
pub(crate) const LEFT: &str =
    "ab\n\n\n\n\r\u{1b}[1;1Hコココ\u{1b}[1;2Hコ\u{1b}[?25l\u{1b}[0;1;31m\u{1b}[2;3r\
     \u{1b}[4h\u{1b}[?6h\u{1b}[?69h\u{1b}[?7l\u{1b}[?2026h\u{e}\u{1b}(0\u{1b}%@";

// Whether a text, which is what another text has from its end on, makes a terminal blank that read
// the other.
fn blanks<'a>(alloc: Global, texts: Option<(&'a str, &'a str)>) -> Result<bool, Fail> {
    let Some((left, rest)) = texts else {
        return Ok(false);
    };
    let blank = TestBackend::new(alloc, 7, 4)?;
    Ok(Reader::of(alloc, 7, 4, (left, ""), rest)?.shows(Position::ORIGIN, &blank))
}

// Whether a backend that begins anew after a play makes the terminal blank, and its screen is
// blank, too.
fn is_begun_anew(alloc: Global, seed: u64) -> Result<bool, Fail> {
    let mut play = Play::new(alloc, 7, 4)?;
    if !play.is_played(seed)? {
        return Ok(false);
    }
    let before = sent(&play.backend).len();
    if !play.begins_anew() {
        return Ok(false);
    }
    blanks(alloc, sent(&play.backend).split_at_checked(before))
}

#[test]
fn used_terminals_are_made_blank(rt: HostRuntime) -> Result<(), Fail> {
    let alloc = rt.alloc();
    for seed in 0..PLAYS {
        assert!(rt; is_begun_anew(alloc, seed)?);
    }
    Ok(())
}

// What stood on the screen is in the history, an empty row after it, and no more.
#[test]
fn the_screen_is_saved(rt: HostRuntime) -> Result<(), Fail> {
    let backend = over_kept(rt.alloc(), 3, 2)?;
    let left = "a\u{1b}[31mb\r\ncde\n\rf\u{1b}[1;1H";
    let reader = Reader::of(rt.alloc(), 3, 2, (left, ""), sent(&backend))?;
    assert!(rt; reader.has_above(&["cde", "f  ", "   "]));
    Ok(())
}

// Draws a wide symbol at both ends of the widest screen, and after it; whether both do so.
fn draws_at_the_ends(play: &mut Play, wide: &Cell) -> bool {
    let items = [(0, 0, wide), (65533, 0, wide), (65535, 0, wide)];
    play.backend.draw(items.iter().copied()).is_ok()
        && play.screen.draw(items.iter().copied()).is_ok()
        && play.follow_cursor()
}

// A screen as wide as a terminal's can be.
#[test]
fn the_widest_screen(rt: HostRuntime) -> Result<(), Fail> {
    let wide = Cell::new(rt.alloc(), "コ")?;
    let mut play = Play::new(rt.alloc(), 65535, 1)?;
    assert!(rt; draws_at_the_ends(&mut play, &wide) && play.is_shown()?);
    assert!(rt; play.appends(1) && play.is_shown()?);
    Ok(())
}
