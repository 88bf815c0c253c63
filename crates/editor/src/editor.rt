//! The editor, and what events make of it.

ghost use Rattle.std.specs.Prelude.{◌≡◌, ◌≢◌, ◌↔◌, ⊤, IsTrue, IfOk, OnOk, OnErr, None, Some, string_bytes};
ghost use Rattle.std.specs.Io.KnownBytes.{Appends};
ghost use Rattle.text_area.specs.Areas.{loaded_area, area_text, typing_over};
ghost use Rattle.text_area.specs.AreaKeys.{area_edit_of, area_edited_if};
ghost use Rattle.editor.specs.declared.editor.Mode.TheVariants.{Typing, Found, Offering, Replacing, Over};
ghost use Rattle.editor.specs.declared.editor.Note.TheVariants.{Saved};
ghost use Rattle.editor.specs.Commands.{asked_of, answer_of, offer_of};
ghost use Rattle.editor.specs.Offers.{ReplacesAll, AnswersOffer};
ghost use Rattle.editor.specs.Editing.{Keeps, IsSaved, IsForText, request_of, edited_text};
ghost use Rattle.editor.specs.Editing.{command_request, answer_request, left_by};
ghost use Rattle.editor.specs.declared.editor.Request.TheVariants.{Nothing};

use crate::keys::{Command, Offer, answer_of, command_of, offer_of, pressed};
use ratatui_events::{Event, KeyCode};
use std::alloc::{AllocError, Global};
use std::io::{self, Write};
use text_area::{AreaEdit, TextArea, area_edit_of};
use text_field::TextField;

/// What events are taken for.
#[derive(Debug, Clone, Copy, PartialEq, Eq)]
pub enum Mode {
    /// For the text.
    Typing,
    /// For the text, but `n` finds the pattern again.
    Found,
    /// For a pattern that is to be found.
    Finding,
    /// For a pattern that is to be replaced.
    Seeking,
    /// For what is to stand in its place.
    Giving,
    /// For an answer: is what was found, and is selected, to be replaced?
    Offering,
    /// For the number of a line.
    GoingTo,
    /// For an answer: is the editor to end though the text isn't saved?
    Leaving,
    /// For an answer: is the file to be replaced though it isn't what was read?
    Replacing,
    /// For nothing more.
    Over,
}

/// What is told in the last row.
#[derive(Debug, Drop)]
pub enum Note {
    /// Nothing.
    None,
    /// The text is saved.
    Saved,
    /// The pattern doesn't occur after the cursor.
    NotFound,
    /// What was typed is no number of a line.
    NoLine,
    /// Memory was refused for what was asked, and all is as it was.
    NoMemory,
    /// What a program tells, as an error.
    Told(String),
}

/// What the program is to do.
#[derive(Debug, Clone, Copy, PartialEq, Eq)]
pub enum Request {
    /// Nothing.
    Nothing,
    /// Save the text, if the file is what was read.
    Save,
    /// Save the text, whatever the file is.
    Replace,
}

/// A text that is edited, with all that an editor shows of it.
#[derive(Drop)]
pub struct Editor {
    pub alloc: Global,
    /// The text, with its cursor.
    pub area: TextArea,
    /// The text as it was read or saved last.
    pub saved: String,
    /// Its name.
    pub name: String,
    /// What is typed in the last row: a pattern, or a number.
    pub field: TextField,
    /// What is to be found.
    pub pattern: String,
    /// What is to stand in its place.
    pub piece: String,
    /// What events are taken for.
    pub mode: Mode,
    /// What is told.
    pub note: Note,
}

// Whether an event would type the letter n.
fn is_again(event: &Event) -> bool {
    match area_edit_of(event) {
        Some(AreaEdit::Insert(letter)) => letter == 'n',
        _ => false,
    }
}

impl Editor {
    /// Makes an editor of a text that has a name, with the cursor at its start. Each line break of
    /// the text becomes a line feed.
    ///
    /// # Errors
    ///
    /// `AllocError` if memory is refused.
    pub fn new(alloc: Global, name: &str, text: String) -> Result<Editor, AllocError>
        ensures area { IfOk result (λ editor. editor.area ≡ loaded_area (string_bytes text)) }
        ensures saved { IfOk result (λ editor. IsSaved editor) }
        ensures name { IfOk result (λ editor. string_bytes editor.name ≡ name.now) }
        ensures mode { IfOk result (λ editor. editor.mode ≡ Typing) }
    {
        let area = TextArea::from_text(alloc, text)?;
        let saved = String::from_str(alloc, area.text())?;
        let name = String::from_str(alloc, name)?;
        Ok(Editor {
            alloc,
            area,
            saved,
            name,
            field: TextField::new(alloc).with_limit(200),
            pattern: String::new(alloc),
            piece: String::new(alloc),
            mode: Mode::Typing,
            note: Note::None,
        })
    }

    /// Returns whether the text isn't the one that was read or saved last.
    pub fn is_changed(&self) -> bool
        ensures { IsTrue result ↔ (edited_text self.now ≢ string_bytes self.now.saved) }
    {
        self.area.text() != self.saved.as_str()
    }

    /// Returns whether it has ended.
    pub fn is_over(&self) -> bool
        ensures { IsTrue result ↔ (self.now.mode ≡ Over) }
    {
        match self.mode {
            Mode::Over => true,
            _ => false,
        }
    }

    /// Tells something in the last row.
    pub fn tell(&mut self, note: Note)
        ensures { self.new ≡ record self.old { note = note } }
    {
        self.note = note;
    }

    /// Asks whether the file is to be replaced that isn't what was read.
    pub fn ask_replace(&mut self)
        ensures { self.new ≡ record self.old { mode = Replacing } }
    {
        self.mode = Mode::Replacing;
    }

    /// Writes the text, whole, as it is to be saved.
    ///
    /// # Errors
    ///
    /// The writer's error if it can't take all of it.
    pub fn write_to<W: Write>(&self, writer: &mut W) -> io::Result<()>
        ensures { OnOk result
            (Appends (W.contents writer.old) (W.contents writer.new) (edited_text self.now)) }
    {
        writer.write_all(self.area.text().as_bytes())
    }

    /// Returns a copy of the text.
    ///
    /// # Errors
    ///
    /// `AllocError` if memory is refused.
    pub fn copied_text(&self) -> Result<String, AllocError>
        ensures { IfOk result (λ text. string_bytes text ≡ edited_text self.now) }
    {
        String::from_str(self.alloc, self.area.text())
    }

    /// Sets how many lines a page has.
    pub fn set_page(&mut self, lines: usize)
        ensures saved { string_bytes self.new.saved ≡ string_bytes self.old.saved }
        ensures text { edited_text self.new ≡ edited_text self.old }
        ensures mode { self.new.mode ≡ self.old.mode }
    {
        self.area.set_page(lines);
    }

    /// Takes it that a text was saved.
    pub fn take_saved(&mut self, text: String)
        ensures saved { string_bytes self.new.saved ≡ string_bytes text }
        ensures area { self.new.area ≡ self.old.area }
        ensures mode { self.new.mode ≡ self.old.mode }
        ensures note { self.new.note ≡ Saved }
    {
        self.saved = text;
        self.note = Note::Saved;
    }

    /// Takes an event, and answers what the program is to do.
    ///
    /// # Errors
    ///
    /// `AllocError` if memory is refused. Then the text is as it was.
    pub fn take(&mut self, event: &Event) -> Result<Request, AllocError>
        ensures keeps { OnOk result (Keeps event.now self.old self.new) }
        ensures request { IfOk result (λ request. request ≡ request_of self.old.mode event.now) }
        ensures typed { self.old.mode ≡ Typing → asked_of event.now ≡ None → OnOk result
            (self.new.area ≡ area_edited_if (area_edit_of event.now) self.old.area) }
        ensures err { OnErr result (self.new.area ≡ self.old.area) }
        ensures saved { OnErr result (string_bytes self.new.saved ≡ string_bytes self.old.saved) }
    {
        match self.mode {
            Mode::Typing => self.take_typed(event),
            Mode::Found => self.take_found(event),
            Mode::Finding | Mode::Seeking | Mode::Giving => self.take_words(event),
            Mode::Offering => self.take_offer(event),
            Mode::GoingTo => self.take_number(event),
            Mode::Leaving => {
                self.take_leave(event);
                Ok(Request::Nothing)
            }
            Mode::Replacing => Ok(self.take_replace(event)),
            Mode::Over => Ok(Request::Nothing),
        }
    }

    // Takes an event for the text.
    fn take_typed(&mut self, event: &Event) -> Result<Request, AllocError>
        requires { IsForText self.old.mode }
        ensures keeps { OnOk result (Keeps event.now self.old self.new) }
        ensures request { IfOk result (λ request.
            request ≡ command_request (asked_of event.now)) }
        ensures typed { asked_of event.now ≡ None → OnOk result
            (self.new.area ≡ area_edited_if (area_edit_of event.now) self.old.area) }
        ensures err { OnErr result (self.new.area ≡ self.old.area) }
        ensures saved { string_bytes self.new.saved ≡ string_bytes self.old.saved }
    {
        match command_of(event) {
            Some(command) => self.obey(command),
            None => {
                if self.area.handle(event)? {
                    self.note = Note::None;
                }
                Ok(Request::Nothing)
            }
        }
    }

    // Ends, or asks whether to.
    fn leave(&mut self)
        ensures area { self.new.area ≡ self.old.area }
        ensures saved { string_bytes self.new.saved ≡ string_bytes self.old.saved }
        ensures over { self.new.mode ≡ Over → IsSaved self.new }
    {
        if self.is_changed() {
            self.mode = Mode::Leaving;
        } else {
            self.mode = Mode::Over;
        }
    }

    // Does what a command says.
    fn obey(&mut self, command: Command) -> Result<Request, AllocError>
        requires { IsForText self.old.mode }
        ensures request { IfOk result (λ request. request ≡ command_request (Some command)) }
        ensures over { self.new.mode ≡ Over → IsSaved self.new }
        ensures err { OnErr result (self.new.area ≡ self.old.area) }
        ensures saved { string_bytes self.new.saved ≡ string_bytes self.old.saved }
    {
        self.note = Note::None;
        match command {
            Command::Save => return Ok(Request::Save),
            Command::Leave => self.leave(),
            Command::Find => self.mode = Mode::Finding,
            Command::Replace => self.mode = Mode::Seeking,
            Command::GoTo => {
                self.field.clear();
                self.mode = Mode::GoingTo;
            }
            Command::Undo => {
                let _done = self.area.undo()?;
            }
            Command::Redo => {
                let _done = self.area.redo()?;
            }
        }
        Ok(Request::Nothing)
    }

    // Takes an event after a pattern was found.
    fn take_found(&mut self, event: &Event) -> Result<Request, AllocError>
        requires { self.old.mode ≡ Found }
        ensures keeps { OnOk result (Keeps event.now self.old self.new) }
        ensures request { IfOk result (λ request.
            request ≡ command_request (asked_of event.now)) }
        ensures err { OnErr result (self.new.area ≡ self.old.area) }
        ensures saved { string_bytes self.new.saved ≡ string_bytes self.old.saved }
    {
        if command_of(event).is_none() && is_again(event) {
            self.find_again();
            return Ok(Request::Nothing);
        }
        if pressed(event).is_some() {
            self.mode = Mode::Typing;
        }
        self.take_typed(event)
    }

    // Selects the pattern where it occurs next.
    fn find_again(&mut self)
        ensures text { edited_text self.new ≡ edited_text self.old }
        ensures mode { self.new.mode ≢ Over }
        ensures saved { string_bytes self.new.saved ≡ string_bytes self.old.saved }
    {
        if self.area.select_next(self.pattern.as_str()) {
            self.mode = Mode::Found;
            self.note = Note::None;
        } else {
            self.mode = Mode::Typing;
            self.note = Note::NotFound;
        }
    }

    // Finds the pattern that was typed.
    fn find(&mut self) -> Result<(), AllocError>
        ensures text { edited_text self.new ≡ edited_text self.old }
        ensures mode { OnOk result (self.new.mode ≢ Over) }
        ensures err { OnErr result (self.new.area ≡ self.old.area) }
        ensures saved { string_bytes self.new.saved ≡ string_bytes self.old.saved }
    {
        self.pattern = String::from_str(self.alloc, self.field.text())?;
        self.field.clear();
        self.find_again();
        Ok(())
    }

    // Keeps the pattern that was typed, and asks what is to stand in its place.
    fn seek(&mut self) -> Result<(), AllocError>
        ensures area { self.new.area ≡ self.old.area }
        ensures mode { OnOk result (self.new.mode ≢ Over) }
        ensures saved { string_bytes self.new.saved ≡ string_bytes self.old.saved }
    {
        self.pattern = String::from_str(self.alloc, self.field.text())?;
        self.field.clear();
        self.mode = Mode::Giving;
        Ok(())
    }

    // Selects the pattern where it occurs next, and asks whether it is to be replaced. No pattern
    // occurs nowhere.
    fn offer(&mut self)
        ensures text { edited_text self.new ≡ edited_text self.old }
        ensures mode { self.new.mode ≢ Over }
        ensures saved { string_bytes self.new.saved ≡ string_bytes self.old.saved }
    {
        if !self.pattern.is_empty() && self.area.select_next(self.pattern.as_str()) {
            self.mode = Mode::Offering;
            self.note = Note::None;
        } else {
            self.mode = Mode::Typing;
            self.note = Note::NotFound;
        }
    }

    // Keeps what was typed as what is to stand in the pattern's place, and offers the first place.
    fn give(&mut self) -> Result<(), AllocError>
        ensures text { edited_text self.new ≡ edited_text self.old }
        ensures mode { OnOk result (self.new.mode ≢ Over) }
        ensures err { OnErr result (self.new.area ≡ self.old.area) }
        ensures saved { string_bytes self.new.saved ≡ string_bytes self.old.saved }
    {
        self.piece = String::from_str(self.alloc, self.field.text())?;
        self.field.clear();
        self.offer();
        Ok(())
    }

    // Replaces what is selected, and offers the next place.
    fn replace_one(&mut self) -> Result<(), AllocError>
        ensures text { OnOk result (edited_text self.new
            ≡ area_text (typing_over (string_bytes self.old.piece) self.old.area)) }
        ensures mode { OnOk result (self.new.mode ≢ Over) }
        ensures err { OnErr result (self.new.area ≡ self.old.area) }
        ensures saved { string_bytes self.new.saved ≡ string_bytes self.old.saved }
    {
        self.area.insert_str(self.piece.as_str())?;
        self.offer();
        Ok(())
    }

    // Replaces what is selected, and all that occurs after it. If memory is refused, it tells so.
    fn replace_all(&mut self)
        ensures area { ReplacesAll (string_bytes self.old.pattern) (string_bytes self.old.piece)
            self.old.area self.new.area }
        ensures mode { self.new.mode ≡ Typing }
        ensures saved { string_bytes self.new.saved ≡ string_bytes self.old.saved }
    {
        self.mode = Mode::Typing;
        for _ in 0..u64::MAX {
            if self.area.insert_str(self.piece.as_str()).is_err() {
                self.note = Note::NoMemory;
                return;
            }
            if !self.area.select_next(self.pattern.as_str()) {
                return;
            }
        }
    }

    // Takes the answer whether what is selected is to be replaced.
    fn take_offer(&mut self, event: &Event) -> Result<Request, AllocError>
        requires { self.old.mode ≡ Offering }
        ensures request { IfOk result (λ request. request ≡ Nothing) }
        ensures answered { OnOk result (AnswersOffer (offer_of event.now)
            (string_bytes self.old.pattern) (string_bytes self.old.piece) self.old.area self.new.area) }
        ensures mode { OnOk result (self.new.mode ≢ Over) }
        ensures err { OnErr result (self.new.area ≡ self.old.area) }
        ensures saved { string_bytes self.new.saved ≡ string_bytes self.old.saved }
    {
        match offer_of(event) {
            None => {}
            Some(Offer::Yes) => self.replace_one()?,
            Some(Offer::No) => self.offer(),
            Some(Offer::All) => self.replace_all(),
            Some(Offer::Stop) => self.mode = Mode::Typing,
        }
        Ok(Request::Nothing)
    }

    // Takes the words that were typed for what they are typed for.
    fn enter(&mut self) -> Result<(), AllocError>
        ensures text { edited_text self.new ≡ edited_text self.old }
        ensures mode { OnOk result (self.new.mode ≢ Over) }
        ensures err { OnErr result (self.new.area ≡ self.old.area) }
        ensures saved { string_bytes self.new.saved ≡ string_bytes self.old.saved }
    {
        match self.mode {
            Mode::Seeking => self.seek(),
            Mode::Giving => self.give(),
            _ => self.find(),
        }
    }

    // Takes an event for words: a pattern, or what is to stand in its place.
    fn take_words(&mut self, event: &Event) -> Result<Request, AllocError>
        requires { self.old.mode ≢ Over }
        ensures request { IfOk result (λ request. request ≡ Nothing) }
        ensures text { edited_text self.new ≡ edited_text self.old }
        ensures mode { OnOk result (self.new.mode ≢ Over) }
        ensures err { OnErr result (self.new.area ≡ self.old.area) }
        ensures saved { string_bytes self.new.saved ≡ string_bytes self.old.saved }
    {
        match pressed(event) {
            Some(KeyCode::Esc) => self.mode = Mode::Typing,
            Some(KeyCode::Enter) => self.enter()?,
            _ => {
                let _is_taken = self.field.handle(event)?;
            }
        }
        Ok(Request::Nothing)
    }

    // Takes an event for the number of a line.
    fn take_number(&mut self, event: &Event) -> Result<Request, AllocError>
        requires { self.old.mode ≢ Over }
        ensures request { IfOk result (λ request. request ≡ Nothing) }
        ensures text { edited_text self.new ≡ edited_text self.old }
        ensures mode { OnOk result (self.new.mode ≢ Over) }
        ensures err { OnErr result (self.new.area ≡ self.old.area) }
        ensures saved { string_bytes self.new.saved ≡ string_bytes self.old.saved }
    {
        match pressed(event) {
            Some(KeyCode::Esc) => self.mode = Mode::Typing,
            Some(KeyCode::Enter) => self.go_to(),
            _ => {
                let _is_taken = self.field.handle(event)?;
            }
        }
        Ok(Request::Nothing)
    }

    // The number that was typed, if it is one from 1 on.
    fn number(&self) -> Option<usize> {
        let number: Option<usize> = self.field.text().parse().ok();
        match number {
            Some(number) if number > 0 => Some(number),
            _ => None,
        }
    }

    // Moves the cursor to the line whose number was typed, from 1 on.
    fn go_to(&mut self)
        ensures text { edited_text self.new ≡ edited_text self.old }
        ensures mode { self.new.mode ≡ Typing }
        ensures saved { string_bytes self.new.saved ≡ string_bytes self.old.saved }
    {
        match self.number() {
            Some(number) => {
                self.area.unselect();
                self.area.go_to(number.saturating_sub(1), 0);
            }
            None => self.note = Note::NoLine,
        }
        self.field.clear();
        self.mode = Mode::Typing;
    }

    // Takes the answer whether to end.
    fn take_leave(&mut self, event: &Event)
        ensures area { self.new.area ≡ self.old.area }
        ensures mode { self.new.mode ≡ left_by (answer_of event.now) self.old.mode }
        ensures saved { string_bytes self.new.saved ≡ string_bytes self.old.saved }
    {
        match answer_of(event) {
            None => {}
            Some(true) => self.mode = Mode::Over,
            Some(false) => self.mode = Mode::Typing,
        }
    }

    // Takes the answer whether to replace the file.
    fn take_replace(&mut self, event: &Event) -> Request
        requires { self.old.mode ≢ Over }
        ensures request { result ≡ answer_request (answer_of event.now) }
        ensures area { self.new.area ≡ self.old.area }
        ensures mode { self.new.mode ≢ Over }
        ensures saved { string_bytes self.new.saved ≡ string_bytes self.old.saved }
    {
        match answer_of(event) {
            None => Request::Nothing,
            Some(true) => {
                self.mode = Mode::Typing;
                Request::Replace
            }
            Some(false) => {
                self.mode = Mode::Typing;
                Request::Nothing
            }
        }
    }
}
