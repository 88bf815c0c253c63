//! The state of a pager.

ghost use Rattle.std.specs.Prelude.{◌≡◌, true, false, Some, None, IfOk, OnOk, OnErr};
ghost use Rattle.std.specs.Prelude.{IsOk};
ghost use Rattle.pager.specs.Moves.{started, has_typed, taken_by, taken_in, answered, has_text, acted, updated};
ghost use Rattle.pager.specs.Inner.{at_told_size};
ghost use Rattle.pager.specs.Paging.{paged_after};

use crate::answer::{Answer, answer_of, ending_of, is_press, mark_of};
use crate::command::command_of;
use crate::document::{Document, Numbers};
use crate::own_text::OwnText;
use crate::sought::Sought;
use crate::styles::Styles;
use crate::typing::empty_line;
use ratatui_acts::{Acts, Message, Never};
use ratatui_core::layout::Size;
use ratatui_events::Event;
use ratatui_reads::size_in;
use std::alloc::AllocError;
use text_field::TextField;

/// What keys are taken for.
#[derive(Debug, Clone, Copy, PartialEq, Eq)]
pub enum Mode {
    /// For commands.
    Reading,
    /// For what is sought.
    Asking,
    /// For what the lines that are shown must have.
    Filtering,
    /// For the letter of a mark that is set.
    Marking,
    /// For the letter of a mark to go to.
    Returning,
    /// For the text to turn to.
    Turning,
    /// The list of the keys is shown; any key ends that.
    Helping,
    /// The text is followed; any key ends that.
    Following,
}

/// How a reader is done with a text.
#[derive(Debug, Clone, Copy, PartialEq, Eq)]
pub enum Ending {
    /// With the pager.
    Quit,
    /// The text after it is to be shown.
    Next,
    /// The text before it is to be shown.
    Previous,
}

/// What the status tells while a text is read.
#[derive(Debug, Clone, Copy, PartialEq, Eq)]
pub enum Note {
    /// Which lines are shown.
    Range,
    /// Which lines are shown, and how many bytes of the text end with them.
    Bytes,
    /// That the last search found no line.
    Missing,
    /// That what was typed can't be sought.
    Refused,
    /// Which lines are shown, and that a command waits for more.
    Waiting,
}

/// How many marks there are: one for the apostrophe, and one for each letter.
pub(crate) const MARKS: usize = 53;

/// A text in pages: the lines of a text, and the place in them.
#[derive(Drop)]
pub struct Pager<'a> {
    /// The lines of the text.
    pub(crate) document: Document<'a>,
    /// Whether lines may come after those that are known.
    pub(crate) has_more: bool,
    /// The styles of all lines.
    pub(crate) styles: Styles,
    /// All lines while only some of them are shown, and the numbers of those that are.
    pub(crate) whole: Option<Document<'a>>,
    pub(crate) numbers: Numbers,
    /// What the text is called.
    pub(crate) name: OwnText,
    /// The columns and rows of the terminal.
    pub(crate) columns: u16,
    pub(crate) rows: u16,
    /// The first line of the page, from 0 on, and the row of it that is the first one.
    pub(crate) top: u32,
    pub(crate) row: u32,
    /// The first column that is shown of each line, if lines aren't broken.
    pub(crate) left: u32,
    /// Whether lines are broken that are longer than a row.
    pub(crate) wraps: bool,
    /// The number that is typed, or 0.
    pub(crate) number: u32,
    /// Whether the numbers of the lines are shown.
    pub(crate) has_numbers: bool,
    pub(crate) mode: Mode,
    /// Whether the last search goes back.
    pub(crate) is_back: bool,
    /// What is typed of the next search.
    pub(crate) typed: TextField,
    /// What is sought, and the line in which it was found last, unless the place was left since.
    pub(crate) sought: Sought,
    pub(crate) found: Option<u32>,
    /// The line that each mark keeps.
    pub(crate) marks: [Option<u32>; MARKS],
    /// What the status tells.
    pub(crate) note: Note,
    /// Whether a text can be turned to, back and further.
    pub(crate) has_previous: bool,
    pub(crate) has_next: bool,
    /// Whether the reader is done, and how.
    pub(crate) is_over: bool,
    pub(crate) ending: Ending,
}

impl<'a> Pager<'a> {
    /// Makes a pager at the first line of a text, on a terminal of this size; `sought` is what is
    /// sought before anything was typed, as it stands.
    pub fn new(document: Document<'a>, name: OwnText, sought: OwnText, size: Size) -> Pager<'a>
        ensures { result ≡ started document.entry name sought size }
    {
        let alloc = document.allocator();
        Pager {
            document,
            has_more: false,
            styles: Styles::new(alloc),
            whole: None,
            numbers: Numbers::new(alloc),
            name,
            columns: size.width,
            rows: size.height,
            top: 0,
            row: 0,
            left: 0,
            wraps: false,
            number: 0,
            has_numbers: false,
            mode: Mode::Reading,
            is_back: false,
            typed: empty_line(alloc),
            sought: Sought::Plain(sought),
            found: None,
            marks: [None; MARKS],
            note: Note::Range,
            has_previous: false,
            has_next: false,
            is_over: false,
            ending: Ending::Quit,
        }
    }

    /// Sets whether there is a text before this one and one after it, to which `:p` and `:n` turn.
    pub fn between(self, has_previous: bool, has_next: bool) -> Pager<'a>
        ensures { result ≡ record self.entry { has_previous = has_previous; has_next = has_next } }
    {
        Pager {
            has_previous,
            has_next,
            ..self
        }
    }

    /// Returns how the reader is done with the text; it means something once the pager is over.
    pub fn ending(&self) -> Ending
        ensures { result ≡ self.now.ending }
    {
        self.ending
    }

    /// Sets the styles of the lines.
    pub fn styled(self, styles: Styles) -> Pager<'a>
        ensures { result ≡ record self.entry { styles = styles } }
    {
        Pager { styles, ..self }
    }

    // Takes the size that an event tells, if there is one.
    fn take_size(&mut self, size: Option<(u16, u16)>)
        ensures { self.new ≡ at_told_size size self.old }
    {
        if let Some((columns, rows)) = size {
            self.columns = columns;
            self.rows = rows;
            self.go_to(u64::from(self.top));
        }
    }

    // Shows all lines, or begins the search of what was sought last, where nothing is typed.
    fn take_nothing(&mut self) -> Result<(), AllocError>
        requires { has_typed self.old ≡ false }
        ensures ok { OnOk result
            (self.new ≡ taken_by self.old.mode (Some self.old.sought) self.old) }
        ensures err { OnErr result (self.new ≡ self.old) }
    {
        match self.mode {
            Mode::Filtering => {
                self.show_all();
                Ok(())
            }
            _ => self.search_again(),
        }
    }

    // Takes what was typed that seeks this, for a filter or for a search.
    fn take_sought(&mut self, sought: Sought) -> Result<(), AllocError>
        requires { has_typed self.old ≡ true }
        ensures ok { OnOk result (self.new ≡ taken_by self.old.mode (Some sought) self.old) }
        ensures err { OnErr result (self.new ≡ self.old) }
    {
        match self.mode {
            Mode::Filtering => self.filter(&sought),
            _ => self.search(sought),
        }
    }

    // Takes what was typed, for a filter or for a search.
    fn take_typed(&mut self) -> Result<(), AllocError>
        ensures ok { OnOk result (self.new ≡ taken_in self.old.mode self.old) }
        ensures err { OnErr result (self.new ≡ self.old) }
    {
        if !self.has_typed() {
            return self.take_nothing();
        }
        match Sought::read(self.document.allocator(), self.typed.text())? {
            Some(sought) => self.take_sought(sought),
            None => {
                self.note = Note::Refused;
                Ok(())
            }
        }
    }

    // Does what is asked while a search or a filter is typed.
    fn answer(&mut self, answer: Answer) -> Result<(), AllocError>
        ensures ok { OnOk result (self.new ≡ answered answer self.old) }
        ensures err { OnErr result (self.new ≡ self.old) }
    {
        match answer {
            Answer::Change(edit) => self.edit(edit)?,
            Answer::Search => {
                self.take_typed()?;
                self.mode = Mode::Reading;
            }
            Answer::Cancel => self.mode = Mode::Reading,
            Answer::Ignore => {}
        }
        Ok(())
    }

    // Marks the first line of the page, if an event names a mark.
    fn take_mark(&mut self, event: Event)
        ensures { self.new ≡ acted Mode.Marking event self.old }
    {
        if is_press(event) {
            self.set_mark(mark_of(event));
        }
    }

    // Goes to a mark, if an event names one.
    fn take_return(&mut self, event: Event)
        ensures { self.new ≡ acted Mode.Returning event self.old }
    {
        if is_press(event) {
            let line = self.marked_line(mark_of(event));
            self.return_to(line);
        }
    }

    // Whether there is the text that an ending turns to.
    fn has(&self, ending: Ending) -> bool
        ensures { result ≡ has_text ending self.now }
    {
        match ending {
            Ending::Quit => true,
            Ending::Next => self.has_next,
            Ending::Previous => self.has_previous,
        }
    }

    // Turns to another text, if an event names one that there is.
    fn take_turn(&mut self, event: Event)
        ensures { self.new ≡ acted Mode.Turning event self.old }
    {
        if !is_press(event) {
            return;
        }
        self.mode = Mode::Reading;
        if let Some(ending) = ending_of(event) {
            if self.has(ending) {
                self.is_over = true;
                self.ending = ending;
            }
        }
    }

    // Leaves the help, or ends following, if an event does.
    fn go_on(&mut self, event: Event)
        ensures help { self.new ≡ acted Mode.Helping event self.old }
        ensures follow { self.new ≡ acted Mode.Following event self.old }
    {
        if is_press(event) {
            self.mode = Mode::Reading;
        }
    }

    // Takes an event that tells no size.
    fn act(&mut self, event: Event) -> Result<(), AllocError>
        ensures ok { OnOk result (self.new ≡ acted self.old.mode event self.old) }
        ensures err { OnErr result (self.new ≡ self.old) }
    {
        match self.mode {
            Mode::Reading => self.obey(command_of(event)),
            Mode::Asking | Mode::Filtering => self.answer(answer_of(event)),
            Mode::Marking => {
                self.take_mark(event);
                Ok(())
            }
            Mode::Returning => {
                self.take_return(event);
                Ok(())
            }
            Mode::Turning => {
                self.take_turn(event);
                Ok(())
            }
            Mode::Helping | Mode::Following => {
                self.go_on(event);
                Ok(())
            }
        }
    }

    // Takes an event. Only what is typed takes memory, and a search and a filter that begin.
    pub(crate) fn hear(&mut self, event: Event) -> Result<(), AllocError>
        ensures ok { OnOk result (self.new ≡ updated self.old event) }
        ensures err { OnErr result (self.new ≡ self.old) }
    {
        match size_in(event) {
            Some(size) => {
                self.take_size(Some(size));
                Ok(())
            }
            None => self.act(event),
        }
    }
}

impl<'a> Acts for Pager<'a> {
    type Command = Never;

    type Answer = Never;

    ghost updated = { paged_after };

    ghost asked = { λ _. None };

    ghost is_over = { λ p. p.is_over };

    fn update(&mut self, message: Message<Never>) -> Result<bool, AllocError>
        ensures ok { OnOk result (self.new ≡ paged_after self.old message) }
        ensures same { IfOk result (λ changed. changed ≡ false → self.new ≡ self.old) }
        ensures refused { OnErr result (self.new ≡ self.old) }
        ensures light { ⊥ → IsOk result }
    {
        match message {
            Message::Event(event) => {
                self.hear(event)?;
                Ok(true)
            }
            Message::Tick(_) => Ok(false),
            Message::Answer(_) => Ok(false),
        }
    }

    fn asked(&self) -> Option<&Never> {
        None
    }

    fn is_over(&self) -> bool {
        self.is_over
    }
}
