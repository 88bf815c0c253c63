//! A text that is shown while it comes.

ghost use Rattle.std.specs.Prelude.{◌≡◌, ◌&&◌, false, None, length, take, is_some, IfOk, OnOk, OnErr};
ghost use Rattle.std.specs.Prelude.{IsOk};
ghost use Rattle.pager.specs.Growing.{piece_known, heard, is_taken, is_due, resumed, given_up, heard_waiting, heard_after};
ghost use Rattle.pager.specs.Growing.{event_needs, is_following, told_waiting, followed, piece_taken, needs_more, asks_more};

use crate::answer::is_press;
use crate::command::Command;
use crate::needs::quits;
use crate::pager::{Ending, Mode, Note, Pager};
use crate::piece::{More, Piece};
use ratatui_acts::{Acts, Message};
use ratatui_app::Application;
use ratatui_core::buffer::Buffer;
use ratatui_core::layout::{Position, Rect};
use ratatui_events::Event;
use ratatui_reads::size_in;
use std::alloc::AllocError;

/// An event that waits until so many lines are known.
#[derive(Debug, Drop, Clone, Copy, PartialEq, Eq)]
pub struct Waiting {
    pub event: Event,
    pub lines: u64,
    /// How many lines were known when it was looked at.
    pub known: u64,
}

/// A pager of a text that comes piece by piece: it asks for the next piece where its page, or an
/// event, needs more lines than are known.
#[derive(Drop)]
pub struct Growing<'a> {
    pager: Pager<'a>,
    // The event that needs more lines.
    waiting: Option<Waiting>,
    // Whether the text gave nothing, and there was no tick since.
    rests: bool,
}

// How much a pager knew, and where it was, before a piece came.
#[derive(Clone, Copy)]
struct Known {
    lines: usize,
    styles: usize,
    has_more: bool,
    top: u32,
    row: u32,
}

impl<'a> Pager<'a> {
    // How much it knows, and where it is.
    fn known(&self) -> Known
        ensures lines { result.lines ≡ length self.now.document }
        ensures styles { result.styles ≡ length self.now.styles }
        ensures more { result.has_more ≡ self.now.has_more }
        ensures top { result.top ≡ self.now.top }
        ensures row { result.row ≡ self.now.row }
    {
        Known {
            lines: self.document.len() as usize,
            styles: self.styles.len(),
            has_more: self.has_more,
            top: self.top,
            row: self.row,
        }
    }

    // Takes the lines of a piece.
    fn grow(&mut self, piece: Piece<'a>) -> Result<(), AllocError>
        ensures ok { OnOk result (self.new ≡ piece_known piece.entry self.old) }
        ensures err { OnErr result (self.new ≡ self.old) }
    {
        let lines = self.document.len() as usize;
        let styles = self.styles.len();
        self.styles.extend(lines, piece.styles)?;
        if let Err(error) = self.document.extend(piece.text) {
            self.styles.truncate(styles);
            return Err(error);
        }
        self.has_more = !piece.is_last;
        Ok(())
    }

    // Forgets what it came to know since, and goes back to where it was.
    fn forget(&mut self, known: Known)
        ensures { self.new ≡ record self.old {
          document = take known.lines self.old.document;
          styles = take known.styles self.old.styles;
          has_more = known.has_more;
          top = known.top;
          row = known.row;
        } }
    {
        self.document.truncate(known.lines);
        self.styles.truncate(known.styles);
        self.has_more = known.has_more;
        self.top = known.top;
        self.row = known.row;
    }

    // Whether the text is followed.
    fn is_following(&self) -> bool
        ensures { result ≡ is_following self.now.mode }
    {
        match self.mode {
            Mode::Following => true,
            _ => false,
        }
    }

    // Shows the last page, if the text is followed.
    fn go_along(&mut self)
        ensures { self.new ≡ followed self.old }
    {
        if self.is_following() {
            let end = u64::from(self.document.len());
            self.go_to(end);
        }
    }

    // Whether an event is taken that needs so many lines.
    fn takes(&self, rests: bool, event: Event, lines: u64) -> bool
        requires { lines ≡ event_needs self.now event }
        ensures { result ≡ is_taken rests event self.now }
    {
        self.knows(lines) || (rests && !self.seeks_beyond(event, lines))
    }

    // Tells that a command waits.
    fn tell_waiting(&mut self, event: Event)
        ensures { self.new ≡ told_waiting event self.old }
    {
        match self.mode {
            Mode::Reading if self.seeks(event) => self.note = Note::Waiting,
            _ => {}
        }
    }

    // Whether an event that waits is looked at again.
    fn is_due(&self, rests: bool, waiting: Waiting) -> bool
        ensures { result ≡ is_due rests waiting self.now }
    {
        let is_new = waiting.known < u64::from(self.document.len());
        self.knows(waiting.lines) || (rests && (is_new || !self.seeks(waiting.event)))
    }

    // Ends the waiting of an event by another one.
    fn give_up(&mut self, waiting: Waiting, event: Event) -> Result<(), AllocError>
        ensures ok { OnOk result (self.new ≡ given_up waiting event self.old) }
        ensures err { OnErr result (self.new ≡ self.old) }
    {
        if quits(event) {
            return self.obey(Command::Quit);
        }
        self.hear(waiting.event)
    }
}

impl<'a> Growing<'a> {
    /// Takes a pager of a text that is not begun, and the first piece of the text.
    ///
    /// # Errors
    ///
    /// `AllocError` if memory is refused, or if the text has more than `u32::MAX` lines.
    pub fn new(mut pager: Pager<'a>, first: Piece<'a>) -> Result<Growing<'a>, AllocError>
        ensures { IfOk result (λ g.
            g ≡ record {
              pager = piece_known first.entry pager.entry;
              waiting = None;
              rests = first.entry.rests;
            }) }
    {
        let rests = first.rests;
        pager.grow(first)?;
        Ok(Growing {
            pager,
            waiting: None,
            rests,
        })
    }

    /// Returns how the reader is done with the text; it means something once the pager is over.
    pub fn ending(&self) -> Ending
        ensures { result ≡ self.now.pager.ending }
    {
        self.pager.ending()
    }

    /// Returns whether an event waits for lines.
    pub fn has_waiting(&self) -> bool
        ensures { result ≡ is_some self.now.waiting }
    {
        self.waiting.is_some()
    }

    /// Returns whether the text is followed: what comes at its end is shown.
    pub fn is_following(&self) -> bool
        ensures { result ≡ is_following self.now.pager.mode }
    {
        self.pager.is_following()
    }

    // Takes an event, or lets it wait for the lines that it needs.
    fn hear(&mut self, event: Event) -> Result<(), AllocError>
        ensures ok { OnOk result (self.new ≡ heard self.old.rests event self.old.pager) }
        ensures err { OnErr result (self.new ≡ self.old) }
    {
        if self.pager.has_more {
            let lines = self.pager.event_needs(event)?;
            if !self.pager.takes(self.rests, event, lines) {
                let known = u64::from(self.pager.document.len());
                self.pager.tell_waiting(event);
                self.waiting = Some(Waiting {
                    event,
                    lines,
                    known,
                });
                return Ok(());
            }
        }
        self.pager.hear(event)?;
        self.waiting = None;
        Ok(())
    }

    // Looks again at the event that waits, if that is due.
    fn resume(&mut self) -> Result<(), AllocError>
        ensures ok { OnOk result
            (self.new ≡ resumed self.old.rests self.old.waiting self.old.pager) }
        ensures err { OnErr result (self.new ≡ self.old) }
    {
        let Some(waiting) = self.waiting else {
            return Ok(());
        };
        if !self.pager.is_due(self.rests, waiting) {
            return Ok(());
        }
        self.hear(waiting.event)
    }

    // Takes an event while another one waits.
    fn take_while_waiting(&mut self, waiting: Waiting, event: Event) -> Result<bool, AllocError>
        ensures ok { OnOk result (self.new ≡ heard_waiting waiting event self.old) }
        ensures same { IfOk result (λ changed. changed ≡ false → self.new ≡ self.old) }
        ensures refused { OnErr result (self.new ≡ self.old) }
    {
        if size_in(event).is_some() {
            self.pager.hear(event)?;
            return Ok(true);
        }
        if !is_press(event) {
            return Ok(false);
        }
        self.pager.give_up(waiting, event)?;
        self.waiting = None;
        Ok(true)
    }

    // Takes an event.
    fn take_event(&mut self, event: Event) -> Result<bool, AllocError>
        ensures ok { OnOk result (self.new ≡ heard_after self.old.waiting event self.old) }
        ensures same { IfOk result (λ changed. changed ≡ false → self.new ≡ self.old) }
        ensures refused { OnErr result (self.new ≡ self.old) }
    {
        match self.waiting {
            Some(waiting) => self.take_while_waiting(waiting, event),
            None => {
                self.hear(event)?;
                Ok(true)
            }
        }
    }

    // Goes on with what came, and looks at the event that waits for it.
    fn go_on(&mut self) -> Result<(), AllocError>
        ensures ok { OnOk result
            (self.new ≡ resumed self.old.rests self.old.waiting (followed self.old.pager)) }
        ensures refused { OnErr result (self.new ≡ record self.old {
          pager = followed self.old.pager;
        }) }
    {
        self.pager.go_along();
        self.resume()
    }

    // Takes a piece, and then the event that waits for it.
    fn take_piece(&mut self, piece: Piece<'a>) -> Result<(), AllocError>
        ensures ok { OnOk result (self.new ≡ piece_taken self.old piece.entry) }
        ensures refused { OnErr result (self.new ≡ self.old) }
    {
        let known = self.pager.known();
        let rested = self.rests;
        let rests = piece.rests;
        self.pager.grow(piece)?;
        self.rests = rests;
        if let Err(error) = self.go_on() {
            self.pager.forget(known);
            self.rests = rested;
            return Err(error);
        }
        Ok(())
    }

    // Goes on with what is read after a tick. Answers whether nothing was read before.
    fn tick(&mut self) -> bool
        ensures state { self.new ≡ record self.old { rests = false } }
        ensures same { result ≡ false → self.new ≡ self.old }
    {
        let rested = self.rests;
        self.rests = false;
        rested
    }

    // Whether an event waits, or the page needs more lines than are known.
    fn needs_more(&self) -> bool
        ensures { result ≡ needs_more self.now }
    {
        self.waiting.is_some() || u64::from(self.pager.document.len()) < self.pager.page_needs()
    }

    // Whether the next piece is asked for.
    fn asks(&self) -> bool
        ensures { result ≡ asks_more self.now }
    {
        if self.rests || self.pager.whole.is_some() {
            return false;
        }
        self.pager.is_following() || (self.pager.has_more && self.needs_more())
    }
}

impl<'a> Acts for Growing<'a> {
    type Command = More;

    type Answer = Piece<'a>;

    ghost use Rattle.pager.specs.Growing.{grown_after, asked_for_more};

    ghost updated = { grown_after };

    ghost asked = { asked_for_more };

    ghost is_over = { λ g. g.pager.is_over };

    fn update(&mut self, message: Message<Piece<'a>>) -> Result<bool, AllocError>
        ensures ok { OnOk result (self.new ≡ grown_after self.old message.entry) }
        ensures same { IfOk result (λ changed. changed ≡ false → self.new ≡ self.old) }
        ensures refused { OnErr result (self.new ≡ self.old) }
        ensures light { ⊥ → IsOk result }
    {
        match message {
            Message::Event(event) => self.take_event(event),
            Message::Tick(_) => Ok(self.tick()),
            Message::Answer(piece) => {
                self.take_piece(piece)?;
                Ok(true)
            }
        }
    }

    fn asked(&self) -> Option<&More> {
        if self.asks() { Some(&More) } else { None }
    }

    fn is_over(&self) -> bool {
        self.pager.is_over
    }
}

impl<'a> Application for Growing<'a> {
    ghost use Rattle.pager.specs.Pages.{PaintsPager, page_cursor};
    ghost use Rattle.pager.specs.PageLemmas.{pages-settled};

    ghost paints = { λ g. PaintsPager g.pager };

    ghost cursor = { λ g. page_cursor g.pager };

    fn paint(&self, area: Rect, buf: &mut Buffer) -> Result<(), AllocError> {
        self.pager.paint(area, buf)
    }

    fn cursor(&self, area: Rect) -> Option<Position> {
        self.pager.cursor(area)
    }

    ghost is_settled = { λ g. pages-settled g.pager };
}
