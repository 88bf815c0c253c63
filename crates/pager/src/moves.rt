//! What each command does to the place in the text.

ghost use Rattle.std.specs.Prelude.{◌≡◌, ◌-◌, OnOk, OnErr};
ghost use Rattle.pager.specs.Moves.{half_page, or_number, at_line, further, back, half_width, typed_digit};
ghost use Rattle.pager.specs.Moves.{jumped_to, part_line, after_move, asked, filter_asked, obeyed};

use crate::command::Command;
use crate::pager::{Mode, Note, Pager};
use crate::typing::empty_line;
use std::alloc::AllocError;
use text_places::Place;

impl<'a> Pager<'a> {
    // Half of the rows of a page.
    pub(crate) fn half_page(&self) -> u32
        ensures { result ≡ half_page self.now }
    {
        (self.page_rows() / 2).max(1)
    }

    // The number that was typed, or else another one.
    pub(crate) fn or_number(&self, other: u32) -> u32
        ensures { result ≡ or_number other self.now }
    {
        if self.number == 0 { other } else { self.number }
    }

    // Goes to the page that begins at a line, or to the last one.
    pub(crate) fn go_to(&mut self, line: u64)
        ensures { self.new ≡ at_line line self.old }
    {
        self.go_to_place(Place {
            line: line as usize,
            row: 0,
        });
    }

    // Goes so many rows further, or as many as the number says.
    fn go_down(&mut self, rows: u32)
        ensures { self.new ≡ further rows self.old }
    {
        let by = self.or_number(rows);
        let place = self.place_after(by);
        self.go_to_place(place);
    }

    // Goes so many rows back, or as many as the number says.
    fn go_up(&mut self, rows: u32)
        ensures { self.new ≡ back rows self.old }
    {
        let by = self.or_number(rows);
        let place = self.place_before(by);
        self.go_to_place(place);
    }

    // Goes to a line from 1 on, or to the one that the number says.
    fn go_to_number(&mut self, line: u32)
        ensures { self.new ≡ jumped_to (or_number line self.old - 1) self.old }
    {
        let number = self.or_number(line);
        self.jump_to(u64::from(number.saturating_sub(1)));
    }

    // Goes as many hundredths of the text from its beginning as the number says.
    fn go_to_part(&mut self)
        ensures { self.new ≡ jumped_to (part_line self.old.number self.old) self.old }
    {
        let count = u64::from(self.document.len());
        self.jump_to(count * u64::from(self.number.min(100)) / 100);
    }

    // Half of the columns.
    fn half_width(&self) -> u32
        ensures { result ≡ half_width self.now }
    {
        u32::from((self.columns / 2).max(1))
    }

    // Shows each line from an earlier or a later column on.
    fn go_left(&mut self)
        ensures { self.new ≡ after_move Command.ToLeft self.old }
    {
        let by = self.or_number(self.half_width());
        self.left = self.left.saturating_sub(by);
    }

    fn go_right(&mut self)
        ensures { self.new ≡ after_move Command.ToRight self.old }
    {
        let by = self.or_number(self.half_width());
        self.left = self.left.saturating_add(by);
    }

    // Breaks long lines, or no longer.
    fn go_wrapping(&mut self)
        ensures { self.new ≡ after_move Command.Wrap self.old }
    {
        self.wraps = !self.wraps;
        self.left = 0;
        self.go_to(u64::from(self.top));
    }

    // Shows the numbers of the lines, or no longer.
    fn go_numbering(&mut self)
        ensures { self.new ≡ after_move Command.Numbers self.old }
    {
        self.has_numbers = !self.has_numbers;
        self.go_to(u64::from(self.top));
    }

    // Takes another digit of a number.
    fn type_digit(&mut self, digit: u8)
        ensures { self.new ≡ typed_digit digit self.old }
    {
        self.number = self
            .number
            .saturating_mul(10)
            .saturating_add(u32::from(digit))
            .min(9_999_999);
    }

    // Moves as a command says.
    fn go(&mut self, command: Command)
        ensures { self.new ≡ after_move command self.old }
    {
        let page = self.page_rows();
        let half = self.half_page();
        let count = self.document.len();
        match command {
            Command::Down => self.go_down(1),
            Command::Up => self.go_up(1),
            Command::PageDown => self.go_down(page),
            Command::PageUp => self.go_up(page),
            Command::HalfDown => self.go_down(half),
            Command::HalfUp => self.go_up(half),
            Command::WheelDown => self.go_down(3),
            Command::WheelUp => self.go_up(3),
            Command::ToStart => self.go_to_number(1),
            Command::ToEnd => self.go_to_number(count),
            Command::ToPart => self.go_to_part(),
            Command::ToLeft => self.go_left(),
            Command::ToRight => self.go_right(),
            Command::Numbers => self.go_numbering(),
            Command::Wrap => self.go_wrapping(),
            Command::Help => self.mode = Mode::Helping,
            Command::Quit => self.is_over = true,
            Command::Follow => self.follow(),
            _ => {}
        }
    }

    // Lets a search be typed.
    fn ask(&mut self, is_back: bool)
        ensures { self.new ≡ asked is_back self.old }
    {
        self.mode = Mode::Asking;
        self.is_back = is_back;
        self.typed = empty_line(self.document.allocator());
    }

    // Lets a filter be typed.
    fn ask_filter(&mut self)
        ensures { self.new ≡ filter_asked self.old }
    {
        self.mode = Mode::Filtering;
        self.typed = empty_line(self.document.allocator());
    }

    // Takes the next key for a mark or a text.
    fn await_letter(&mut self, mode: Mode)
        ensures { self.new ≡ record self.old { mode = mode; note = Note.Range } }
    {
        self.mode = mode;
        self.note = Note::Range;
    }

    // Does what a command says; each but a digit takes the number.
    pub(crate) fn obey(&mut self, command: Command) -> Result<(), AllocError>
        ensures ok { OnOk result (self.new ≡ obeyed command self.old) }
        ensures err { OnErr result (self.new ≡ self.old) }
    {
        let is_back = self.is_back;
        match command {
            Command::Digit(digit) => {
                self.type_digit(digit);
                return Ok(());
            }
            Command::Ask(is_back) => {
                self.ask(is_back);
                self.note = Note::Range;
            }
            Command::Filter => {
                self.ask_filter();
                self.note = Note::Range;
            }
            Command::Next => self.seek_on(is_back)?,
            Command::Previous => self.seek_on(!is_back)?,
            Command::Details => self.note = Note::Bytes,
            Command::Mark => self.await_letter(Mode::Marking),
            Command::ToMark => self.await_letter(Mode::Returning),
            Command::Turn => self.await_letter(Mode::Turning),
            _ => {
                self.go(command);
                self.found = None;
                self.note = Note::Range;
            }
        }
        self.number = 0;
        Ok(())
    }
}
