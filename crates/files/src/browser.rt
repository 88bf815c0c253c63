//! The state of a file manager.

ghost use Rattle.std.specs.Prelude.{◌≡◌, false, Some, IfOk, OnOk, OnErr, option_map};
ghost use Rattle.files.specs.Moves.{new_browser, within_folder, removal_answered, order_taken, browsed, browser_at_told_size, told, outcome_told, browsed_after};
ghost use Rattle.files.specs.Moves.{acts, asks, browser_asked, help_left, gone_on, finished, failed, chosen};

use crate::glance::Glances;
use crate::going::{is_completing, leads_to_leaf};
use crate::help::HELP;
use crate::keys::{is_input, order_of, says_yes, wish_of};
use crate::list::{Outcome, Rows};
use crate::marks::Marks;
use crate::notes::{Noted, Notes};
use crate::order::{Order, SortBy};
use crate::typing::typing_of;
use crate::undo::Moved;
use ratatui_acts::{Acts, Message};
use ratatui_core::layout::Size;
use ratatui_events::Event;
use ratatui_files::{Failure, Path, Text};
use ratatui_reads::size_in;
use std::alloc::{AllocError, Global};
use text_field::TextField;

/// What keys are taken for, and what is being done.
#[derive(Clone, Copy, PartialEq, Eq)]
pub enum Mode {
    /// Keys select an entry.
    Looking,
    /// The folder is listed anew.
    Listing,
    /// The folder that is selected is listed.
    Entering,
    /// The folder above is listed.
    Leaving,
    /// The folder is listed above which nothing is reached.
    Returning,
    /// Keys say whether the entry is to be put into the trash.
    Trashing,
    /// Keys say whether the entry is to be removed for good.
    Removing,
    /// Another name of the entry is typed.
    Renaming,
    /// The name of a new folder is typed.
    Making,
    /// The name is typed under which what was noted comes here.
    Pasting,
    /// A key names the order of the entries.
    Sorting,
    /// A text is typed that names are to have.
    Seeking,
    /// The path of a folder is typed.
    Going,
    /// The folder is listed to which that leads.
    Visiting,
    /// The folder is listed that has what that leads to.
    Locating,
    /// It is asked how that goes on.
    Completing,
    /// It is asked how many entries the folder has about which `Trashing` asks then.
    CountingToTrash,
    /// The same before `Removing`.
    CountingToRemove,
    /// Keys say whether what was renamed or moved last is to get its old place back.
    Undoing,
    /// The list of the keys is shown, until one of them.
    Helping,
    /// Nothing more is done.
    Over,
    /// Nothing more is done, and the folder that is shown is told.
    Chosen,
}

/// What the status tells while an entry is selected.
#[derive(Clone, Copy, PartialEq, Eq)]
pub enum Note {
    /// Which entry is selected.
    Place,
    /// Why what was asked for last wasn't done.
    Failed(Mode, Failure),
    /// That the screen is too narrow for the question.
    Narrow,
    /// That there is no trash.
    NoTrash,
    /// That no name has what is sought.
    Missing,
    /// What is noted to be copied, or moved.
    Noted,
    /// That nothing is noted.
    NothingNoted,
    /// That nothing was renamed or moved.
    NothingMoved,
    /// That the typed path leads out of the folder above which nothing is reached.
    Outside,
    /// That nothing is reached above the folder that is shown.
    NothingAbove,
}

/// A folder in rows, of which one is selected. What it asks for is told by itself: it is a function
/// of what it shows.
#[derive(Drop)]
pub struct Browser {
    pub(crate) alloc: Global,
    /// The columns and rows of the screen.
    pub(crate) size: Size,
    /// What the folder is called that all is in.
    pub(crate) title: Text,
    /// The folder above which nothing is reached.
    pub(crate) base: Path,
    /// Where things are put that are removed, but not for good.
    pub(crate) trash: Option<Path>,
    /// The folder that is shown.
    pub(crate) folder: Path,
    /// Its entries, as they were told last.
    pub(crate) list: Rows,
    /// How many more have names that are no texts.
    pub(crate) unnamed: u64,
    /// Whether entries are listed whose name begins with a dot.
    pub(crate) has_hidden: bool,
    /// In which order they are listed.
    pub(crate) order: Order,
    /// The entry that is selected, and the one in the first row of the list.
    pub(crate) selected: usize,
    pub(crate) top: usize,
    pub(crate) mode: Mode,
    /// Whether what is asked was answered by yes, and is to be done.
    pub(crate) is_sure: bool,
    /// Whether the last read found nothing while all this was shown.
    pub(crate) is_quiet: bool,
    /// Whether the entry with the typed name is to be selected once the folder is listed.
    pub(crate) seeks_typed: bool,
    pub(crate) note: Note,
    /// What names are searched for.
    pub(crate) sought: Text,
    /// What is to be copied, or moved, if something is.
    pub(crate) noted: Option<Noted>,
    /// What is noted beside it, and how much of that is still to be asked about.
    pub(crate) more: Notes,
    pub(crate) left: usize,
    /// Which entries are marked.
    pub(crate) marks: Marks,
    /// What keys are taken for once the folder is listed: the next question, if one follows.
    pub(crate) follows: Mode,
    /// What was renamed or moved last, if something was.
    pub(crate) last_move: Option<Moved>,
    /// How many entries the folder has that was counted last.
    pub(crate) count: u64,
    /// The row of the list of the keys that is shown first.
    pub(crate) helped: usize,
    /// What is typed, and how many columns of the status stand before its cursor.
    pub(crate) typed: TextField,
    pub(crate) column: usize,
    /// What is seen beside the folder.
    pub(crate) glances: Glances,
}

impl Browser {
    /// Makes a browser on a terminal of this size, which asks for the folder that all is in; that
    /// is called so.
    pub fn new(alloc: Global, title: Text, size: Size) -> Browser
        ensures { result ≡ new_browser alloc title size }
    {
        Browser {
            alloc,
            size,
            title,
            base: Path::root(alloc),
            trash: None,
            folder: Path::root(alloc),
            list: Rows::new(Vec::new(alloc)),
            unnamed: 0,
            has_hidden: false,
            order: Order {
                by: SortBy::Name,
                is_reversed: false,
            },
            selected: 0,
            top: 0,
            mode: Mode::Listing,
            is_sure: false,
            is_quiet: false,
            seeks_typed: false,
            note: Note::Place,
            sought: Text::new(String::new(alloc)),
            noted: None,
            more: Notes::new(alloc),
            left: 0,
            marks: Marks::new(alloc),
            follows: Mode::Looking,
            last_move: None,
            count: 0,
            helped: 0,
            typed: TextField::new(alloc),
            column: 0,
            glances: Glances::none(),
        }
    }

    /// Shows this folder in place of the one that all is in. Nothing above it is reached, and the
    /// title stands for it.
    ///
    /// # Errors
    ///
    /// `AllocError` if memory is refused.
    pub fn within(self, folder: Path) -> Result<Browser, AllocError>
        ensures { IfOk result (λ browser. browser ≡ within_folder folder self) }
    {
        let mut browser = self;
        browser.folder = folder.copy(browser.alloc)?;
        browser.base = folder;
        Ok(browser)
    }

    /// Has this folder as its trash.
    pub fn with_trash(self, trash: Path) -> Browser
        ensures { result ≡ record self { trash = Some trash } }
    {
        let mut browser = self;
        browser.trash = Some(trash);
        browser
    }

    // Takes a size that was told, if one was.
    fn take_size(&mut self, size: Option<(u16, u16)>)
        ensures { self.new ≡ browser_at_told_size size self.old }
    {
        if let Some((width, height)) = size {
            self.is_quiet = self.is_quiet && self.size.width == width && self.size.height == height;
            self.size = Size { width, height };
            self.settle();
        }
    }

    // Takes an answer to the question whether an entry is to be removed, or put into the trash.
    fn take_answer(&mut self, event: Event) -> Result<(), AllocError>
        ensures ok { OnOk result (self.new ≡ removal_answered event self.old) }
        ensures err { OnErr result (self.new ≡ self.old) }
    {
        if says_yes(event) {
            return self.confirm();
        }
        self.mode = Mode::Looking;
        Ok(())
    }

    // Takes an order, if one is named: the folder is listed anew.
    fn take_order(&mut self, order: Option<Order>)
        ensures { self.new ≡ order_taken order self.old }
    {
        match order {
            Some(order) => {
                self.order = order;
                self.mode = Mode::Listing;
            }
            None => self.mode = Mode::Looking,
        }
    }

    // Shows what is left of the list of the keys, or goes back.
    fn leave_help(&mut self)
        ensures { self.new ≡ help_left self.old }
    {
        let rows = self.list_rows();
        if rows > 0 && rows < HELP.len().saturating_sub(self.helped) {
            self.helped += rows;
        } else {
            self.mode = Mode::Looking;
        }
    }

    // Takes what is typed, pasted or done with the mouse.
    fn act(&mut self, event: Event) -> Result<(), AllocError>
        ensures ok { OnOk result (self.new ≡ browsed self.old.mode event self.old) }
        ensures err { OnErr result (self.new ≡ self.old) }
    {
        match self.mode {
            Mode::Looking => self.obey(wish_of(event)),
            Mode::Trashing | Mode::Removing | Mode::Undoing => self.take_answer(event),
            Mode::Renaming | Mode::Making | Mode::Pasting => self.take_typing(typing_of(event)),
            Mode::Seeking => self.take_sought(typing_of(event)),
            Mode::Going => self.take_path(event),
            Mode::Sorting => {
                self.take_order(order_of(event));
                Ok(())
            }
            Mode::Helping => {
                self.leave_help();
                Ok(())
            }
            Mode::Listing
            | Mode::Entering
            | Mode::Leaving
            | Mode::Returning
            | Mode::Visiting
            | Mode::Locating
            | Mode::Completing
            | Mode::CountingToTrash
            | Mode::CountingToRemove
            | Mode::Over
            | Mode::Chosen => Ok(()),
        }
    }

    // Takes an event.
    fn hear(&mut self, event: Event) -> Result<(), AllocError>
        ensures ok { OnOk result (self.new ≡ told event self.old) }
        ensures err { OnErr result (self.new ≡ self.old) }
    {
        if is_input(event) {
            self.act(event)?;
            self.is_quiet = false;
        } else {
            self.take_size(size_in(event));
        }
        Ok(())
    }

    // Takes note of what was done: the folder is listed anew.
    fn finish(&mut self) -> Result<(), AllocError>
        ensures ok { OnOk result (self.new ≡ finished self.old) }
        ensures err { OnErr result (self.new ≡ self.old) }
    {
        let moved = self.move_made()?;
        self.go_on()?;
        self.note_move(moved);
        self.seeks_typed = self.names_typed();
        self.mode = Mode::Listing;
        Ok(())
    }

    // Goes on to the question that follows a change that was done.
    fn go_on(&mut self) -> Result<(), AllocError>
        ensures ok { OnOk result (self.new ≡ gone_on self.old.mode self.old) }
        ensures err { OnErr result (self.new ≡ self.old) }
    {
        match self.mode {
            Mode::Trashing | Mode::Removing => self.go_on_removing(self.mode),
            Mode::Pasting => self.go_on_pasting()?,
            _ => {}
        }
        Ok(())
    }

    // Tells why what was asked for failed. But a path that was to be completed goes on being typed,
    // and what the typed path leads to is selected in its folder if it is none.
    pub(crate) fn fail(&mut self, failure: Failure)
        ensures { self.new ≡ failed failure self.old }
    {
        if is_completing(self.mode) {
            self.mode = Mode::Going;
        } else if leads_to_leaf(self.mode, failure) {
            self.mode = Mode::Locating;
        } else {
            self.seeks_typed = false;
            self.follows = Mode::Looking;
            self.note = Note::Failed(self.mode, failure);
            self.mode = Mode::Looking;
        }
    }

    // Takes an answer.
    fn take_outcome(&mut self, outcome: Outcome) -> Result<(), AllocError>
        ensures ok { OnOk result (self.new ≡ outcome_told outcome self.old) }
        ensures err { OnErr result (self.new ≡ self.old) }
    {
        match outcome {
            Outcome::Listed(listing) => self.take_listing(listing)?,
            Outcome::Done => self.finish()?,
            Outcome::Glanced(glance) => self.take_glance(glance),
            Outcome::Completed(rest) => self.complete(rest)?,
            Outcome::Counted(count) => self.take_count(count),
            Outcome::Failed(failure) => self.fail(failure),
        }
        self.is_sure = false;
        self.is_quiet = false;
        Ok(())
    }

    /// Returns the folder that is told in the end, if one is.
    pub fn chosen(&self) -> Option<&Path>
        ensures { option_map (λ path. path.now) result ≡ chosen self.now }
    {
        match self.mode {
            Mode::Chosen => Some(&self.folder),
            _ => None,
        }
    }

    /// Returns whether it asks for something: what a person asked for, or what is to be seen beside
    /// the folder.
    pub fn asks(&self) -> bool
        ensures { result ≡ asks self.now }
    {
        self.acts() || self.side_wanted().is_some()
    }

    // Whether it asks for something that a person asked for.
    fn acts(&self) -> bool
        ensures { result ≡ acts self.now }
    {
        match self.mode {
            Mode::Listing
            | Mode::Entering
            | Mode::Leaving
            | Mode::Returning
            | Mode::Visiting
            | Mode::Locating
            | Mode::Completing
            | Mode::CountingToTrash
            | Mode::CountingToRemove => true,
            Mode::Trashing
            | Mode::Removing
            | Mode::Renaming
            | Mode::Making
            | Mode::Pasting
            | Mode::Undoing => self.is_sure,
            Mode::Looking
            | Mode::Sorting
            | Mode::Seeking
            | Mode::Going
            | Mode::Helping
            | Mode::Over
            | Mode::Chosen => false,
        }
    }
}

impl Acts for Browser {
    ghost use Rattle.files.specs.Moves.{is_over};

    type Command = Browser;

    type Answer = Outcome;

    ghost updated = { browsed_after };

    ghost asked = { browser_asked };

    ghost is_over = { is_over };

    fn update(&mut self, message: Message<Outcome>) -> Result<bool, AllocError>
        ensures ok { OnOk result (self.new ≡ browsed_after self.old message) }
        ensures same { IfOk result (λ changed. changed ≡ false → self.new ≡ self.old) }
        ensures refused { OnErr result (self.new ≡ self.old) }
    {
        match message {
            Message::Event(event) => self.hear(event)?,
            Message::Tick(_) => self.is_quiet = true,
            Message::Answer(outcome) => self.take_outcome(outcome)?,
        }
        Ok(true)
    }

    fn asked(&self) -> Option<&Browser> {
        if self.asks() { Some(self) } else { None }
    }

    fn is_over(&self) -> bool {
        match self.mode {
            Mode::Over | Mode::Chosen => true,
            _ => false,
        }
    }
}
