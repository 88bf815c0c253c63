//! How many lines an event needs.

ghost use Rattle.std.specs.Prelude.{◌≡◌, ◌<◌, ◌&&◌, ◌+◌, ◌^◌, nat_lt, length, true, false, Some, IfOk};
ghost use Rattle.pager.specs.Places.{page_rows};
ghost use Rattle.pager.specs.Keys.{event_command};
ghost use Rattle.pager.specs.Moves.{next_sought};
ghost use Rattle.pager.specs.Growing.{every_line, lines_through, page_needs, further_needs, match_needs, search_needs};
ghost use Rattle.pager.specs.Growing.{next_needs, typed_needs, command_needs, answer_needs, mark_needs, mode_needs};
ghost use Rattle.pager.specs.Growing.{event_needs, knows, command_seeks, answer_seeks, mode_seeks, is_quit};

use crate::answer::{Answer, answer_of, mark_of};
use crate::command::{Command, command_of};
use crate::pager::{Mode, Pager};
use crate::sought::Sought;
use ratatui_events::Event;
use ratatui_reads::size_in;
use std::alloc::AllocError;

// Whether a command goes to one of all lines, or tells of all.
fn command_seeks(command: Command) -> bool
    ensures { result ≡ command_seeks command }
{
    match command {
        Command::ToStart
        | Command::ToEnd
        | Command::ToPart
        | Command::Details
        | Command::Next
        | Command::Previous => true,
        _ => false,
    }
}

// Whether an answer begins a search or a filter.
fn answer_seeks(answer: Answer) -> bool
    ensures { result ≡ answer_seeks answer }
{
    match answer {
        Answer::Search => true,
        _ => false,
    }
}

// Whether an event is a command that leaves.
pub(crate) fn quits(event: Event) -> bool
    ensures { result ≡ is_quit (event_command event) }
{
    match command_of(event) {
        Command::Quit => true,
        _ => false,
    }
}

impl<'a> Pager<'a> {
    // A page more than are known: whoever needs so many needs all.
    fn every_line(&self) -> u64
        ensures { result ≡ every_line self.now }
    {
        u64::from(self.document.len()) + u64::from(self.page_rows()) + 1
    }

    // The lines through the page that begins at a line, and one line after it.
    fn lines_through(&self, line: u64) -> u64
        requires { line < 2 ^ 63 }
        ensures { result ≡ lines_through line self.now }
    {
        line + u64::from(self.page_rows()) + 1
    }

    // How many lines the page needs.
    pub(crate) fn page_needs(&self) -> u64
        ensures { result ≡ page_needs self.now }
    {
        self.lines_through(u64::from(self.top))
    }

    // How many lines a move needs by so many rows further, or by the number.
    fn further_needs(&self, rows: u32) -> u64
        ensures { result ≡ further_needs rows self.now }
    {
        self.lines_through(u64::from(self.top) + u64::from(self.or_number(rows)))
    }

    // How many lines a search needs that finds a line, or else finds none.
    fn match_needs(&self, other: u64, found: Option<u32>) -> u64
        ensures { result ≡ match_needs other self.now found }
    {
        match found {
            Some(line) => self.lines_through(u64::from(line)),
            None => other,
        }
    }

    // How many lines a search needs back from a line.
    fn back_needs(&self, sought: &Sought, line: u32) -> Result<u64, AllocError>
        ensures { IfOk result (λ lines. lines ≡ search_needs true sought.now line self.now) }
    {
        let found = self.last_match(sought, line)?;
        Ok(self.match_needs(0, found).max(u64::from(line)))
    }

    // How many lines a search needs further from a line.
    fn on_needs(&self, sought: &Sought, line: u64) -> Result<u64, AllocError>
        ensures { IfOk result (λ lines. lines ≡ search_needs false sought.now line self.now) }
    {
        let found = self.next_match(sought, line)?;
        let other = u64::from(self.document.len()) + self.every_line();
        Ok(self.match_needs(other, found))
    }

    // How many lines a search needs that goes on.
    fn next_needs(&self, is_back: bool) -> Result<u64, AllocError>
        ensures { IfOk result (λ lines. lines ≡ next_needs is_back self.now) }
    {
        if is_back {
            self.back_needs(&self.sought, self.before_found())
        } else {
            self.on_needs(&self.sought, self.after_found())
        }
    }

    // How many lines this needs that is sought, or that a filter is to show.
    fn sought_needs(&self, sought: &Sought) -> Result<u64, AllocError>
        ensures { IfOk result (λ lines.
            lines ≡ typed_needs self.now.mode (Some sought.now) self.now) }
    {
        match self.mode {
            Mode::Filtering => Ok(self.every_line()),
            _ if self.is_back => self.back_needs(sought, self.top),
            _ => self.on_needs(sought, u64::from(self.top)),
        }
    }

    // How many lines the search or the filter needs that is typed.
    fn typed_needs(&self) -> Result<u64, AllocError>
        ensures { IfOk result (λ lines.
            lines ≡ typed_needs self.now.mode (next_sought self.now) self.now) }
    {
        if !self.has_typed() {
            return self.sought_needs(&self.sought);
        }
        match Sought::read(self.document.allocator(), self.typed.text())? {
            Some(sought) => self.sought_needs(&sought),
            None => Ok(0),
        }
    }

    // How many lines the way to the end needs, or to the line of the number.
    fn end_needs(&self) -> u64
        ensures { result ≡ command_needs Command.ToEnd self.now }
    {
        if self.number == 0 {
            self.every_line()
        } else {
            self.lines_through(u64::from(self.number - 1))
        }
    }

    // How many lines a command needs.
    fn command_needs(&self, command: Command) -> Result<u64, AllocError>
        ensures { IfOk result (λ lines. lines ≡ command_needs command self.now) }
    {
        let lines = match command {
            Command::Down => self.further_needs(1),
            Command::PageDown => self.further_needs(self.page_rows()),
            Command::HalfDown => self.further_needs(self.half_page()),
            Command::WheelDown => self.further_needs(3),
            Command::ToStart => {
                self.lines_through(u64::from(self.or_number(1).saturating_sub(1)))
            }
            Command::ToEnd => self.end_needs(),
            Command::ToPart | Command::Details => self.every_line(),
            Command::Next => self.next_needs(self.is_back)?,
            Command::Previous => self.next_needs(!self.is_back)?,
            Command::Quit => 0,
            _ => self.page_needs(),
        };
        Ok(lines)
    }

    // How many lines an answer needs while a search or a filter is typed.
    fn answer_needs(&self, answer: Answer) -> Result<u64, AllocError>
        ensures { IfOk result (λ lines. lines ≡ answer_needs self.now.mode answer self.now) }
    {
        match answer {
            Answer::Search => self.typed_needs(),
            _ => Ok(0),
        }
    }

    // How many lines a jump to a mark needs.
    fn mark_needs(&self, line: Option<u32>) -> u64
        ensures { result ≡ mark_needs self.now line }
    {
        match line {
            Some(line) => self.lines_through(u64::from(line)),
            None => 0,
        }
    }

    // How many lines an event needs that tells no size.
    fn mode_needs(&self, event: Event) -> Result<u64, AllocError>
        ensures { IfOk result (λ lines. lines ≡ mode_needs self.now.mode event self.now) }
    {
        match self.mode {
            Mode::Reading => self.command_needs(command_of(event)),
            Mode::Asking | Mode::Filtering => self.answer_needs(answer_of(event)),
            Mode::Returning => Ok(self.mark_needs(self.marked_line(mark_of(event)))),
            _ => Ok(0),
        }
    }

    // How many lines the page needs that begins where this one does, on so many rows.
    fn size_needs(&self, rows: u16) -> u64
        ensures { result ≡ page_needs (record self.now { rows = rows }) }
    {
        u64::from(self.top) + u64::from(rows.saturating_sub(1).max(1)) + 1
    }

    // How many lines must be known before an event can be taken.
    pub(crate) fn event_needs(&self, event: Event) -> Result<u64, AllocError>
        ensures { IfOk result (λ lines. lines ≡ event_needs self.now event) }
    {
        match size_in(event) {
            Some((_, rows)) => Ok(self.size_needs(rows)),
            None => self.mode_needs(event),
        }
    }

    // Whether an event seeks a line that isn't known, or all, if it needs so many lines.
    pub(crate) fn seeks_beyond(&self, event: Event, lines: u64) -> bool
        ensures { result
            ≡ (mode_seeks self.now.mode event && nat_lt (length self.now.document + page_rows self.now) lines) }
    {
        let known = u64::from(self.document.len()) + u64::from(self.page_rows());
        if !self.seeks(event) {
            return false;
        }
        known < lines
    }

    // Whether an event seeks one of all lines, or tells of all.
    pub(crate) fn seeks(&self, event: Event) -> bool
        ensures { result ≡ mode_seeks self.now.mode event }
    {
        match self.mode {
            Mode::Reading => command_seeks(command_of(event)),
            Mode::Asking | Mode::Filtering => answer_seeks(answer_of(event)),
            _ => false,
        }
    }

    // Whether so many lines are known, or all.
    pub(crate) fn knows(&self, lines: u64) -> bool
        ensures { result ≡ knows lines self.now }
    {
        !self.has_more || lines <= u64::from(self.document.len())
    }
}
