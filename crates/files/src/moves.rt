//! What is made of a wish, and of what is typed.

ghost use Rattle.std.specs.Prelude.{◌≡◌, ◌+◌, ◌-◌, if◌then◌else◌, not, length, IfOk, OnOk, OnErr};
ghost use Rattle.std.specs.Str.{bytes_eq};
ghost use Rattle.text_field.specs.Keys.{edited};
ghost use Rattle.files.specs.Moves.{list_rows, last_row_place, scrolled_list, selected_at, selection_moved, is_folder_selected};
ghost use Rattle.files.specs.Moves.{follows_dot, to_dot, at_extension, typing_in, typing_name, renaming};
ghost use Rattle.files.specs.Moves.{leaving, leave_note, went};
ghost use Rattle.files.specs.Moves.{asking_to_trash, trash_note, wished};
ghost use Rattle.files.specs.Texts.{selected_text};
ghost use Rattle.files.specs.Moves.{confirmed, typed_into, names_typed, folder_shown, listing_shown, entered, is_entry_row, clicked};

use crate::browser::{Browser, Mode, Note};
use crate::keys::Wish;
use crate::list::Listing;
use crate::notes::typed_name;
use crate::typing::Typing;
use std::alloc::AllocError;
use text_field::{Edit, Reach, TextField};

// Whether the cursor stands after a dot that isn't the first character.
fn follows_dot(field: &TextField) -> bool
    ensures { result ≡ follows_dot field.now }
{
    let before = field.before().as_bytes();
    match before.split_last() {
        Some((last, front)) => *last == b'.' && !front.is_empty(),
        None => false,
    }
}

// Brings the cursor to the left before the last dot that isn't the first character, or to the start.
fn go_to_dot(field: &mut TextField)
    ensures { field.new ≡ to_dot (length field.old.before) field.old }
{
    let count = field.before().len();
    for _step in 0..count {
        let is_behind = follows_dot(field);
        field.move_left(Reach::Grapheme);
        if is_behind {
            return;
        }
    }
}

// Brings the cursor from the end of a name before its extension, if it has one.
pub(crate) fn go_to_extension(field: &mut TextField)
    ensures { field.new ≡ at_extension field.old }
{
    go_to_dot(field);
    if field.before().is_empty() {
        field.move_right(Reach::All);
    }
}

impl Browser {
    // How many rows the list has.
    pub(crate) fn list_rows(&self) -> usize
        ensures { result ≡ list_rows self.now }
    {
        usize::from(self.size.height).saturating_sub(2)
    }

    // The place of the last entry.
    fn last_row_place(&self) -> usize
        ensures { result ≡ last_row_place self.now }
    {
        self.list.len().saturating_sub(1)
    }

    // Brings the entry that is selected into the rows, which move as little as they can.
    pub(crate) fn settle(&mut self)
        ensures { self.new ≡ scrolled_list self.old }
    {
        let rows = self.list_rows();
        let top = self.top.min(self.list.len().saturating_sub(rows));
        let lowest = self.selected.saturating_sub(rows.saturating_sub(1));
        self.top = top.max(lowest).min(self.selected);
    }

    // Selects an entry, or the last one.
    pub(crate) fn select(&mut self, place: usize)
        ensures { self.new ≡ selected_at place self.old }
    {
        self.selected = place.min(self.last_row_place());
        self.settle();
    }

    // Selects the entry so many rows further.
    pub(crate) fn go_down(&mut self, rows: usize)
        ensures { self.new ≡ selected_at (self.old.selected + rows) self.old }
    {
        let last = self.last_row_place();
        self.select(self.selected.saturating_add(rows).min(last));
    }

    // Selects the entry so many rows back.
    fn go_up(&mut self, rows: usize)
        ensures { self.new ≡ selected_at (self.old.selected - rows) self.old }
    {
        self.select(self.selected.saturating_sub(rows));
    }

    // Selects another entry.
    fn move_by(&mut self, wish: Wish)
        ensures { self.new ≡ selection_moved wish self.old }
    {
        let page = self.list_rows();
        match wish {
            Wish::Down => self.go_down(1),
            Wish::Up => self.go_up(1),
            Wish::PageDown => self.go_down(page),
            Wish::PageUp => self.go_up(page),
            Wish::HalfDown => self.go_down(page / 2),
            Wish::HalfUp => self.go_up(page / 2),
            Wish::WheelDown => self.go_down(3),
            Wish::WheelUp => self.go_up(3),
            Wish::ToFirst => self.select(0),
            Wish::ToLast => {
                let last = self.last_row_place();
                self.select(last);
            }
            _ => {}
        }
    }

    // Whether a folder is selected, or a link, which may lead to one.
    fn is_folder_selected(&self) -> bool
        ensures { result ≡ is_folder_selected self.now }
    {
        match self.list.get(self.selected) {
            Some(row) => !row.is_leaf || row.is_link,
            None => false,
        }
    }

    // Whether the folder that is shown isn't the one above which nothing is reached.
    fn is_inside(&self) -> bool
        ensures { result ≡ not (bytes_eq self.now.folder self.now.base) }
    {
        self.folder.as_str() != self.base.as_str()
    }

    // Asks for the folder that is selected, if one is.
    fn enter(&mut self)
        ensures { self.new ≡ entered self.old }
    {
        if self.is_folder_selected() {
            self.mode = Mode::Entering;
        }
    }

    // Whether a row of the screen has an entry of the list.
    fn is_entry_row(&self, row: u16) -> bool
        ensures { result ≡ is_entry_row row self.now }
    {
        row > 0 && usize::from(row) <= self.list_rows() && self.place_in_row(row) < self.list.len()
    }

    // Selects the entry in a row of the screen, if it has one; asks for the folder that is selected
    // if that is the one.
    fn click(&mut self, row: u16)
        ensures { self.new ≡ clicked row self.old }
    {
        if !self.is_entry_row(row) {
            return;
        }
        let place = self.place_in_row(row);
        if place == self.selected {
            self.enter();
        } else {
            self.select(place);
        }
    }

    // The name of the entry that is selected, with the cursor before its extension.
    fn selected_name(&self) -> Result<TextField, AllocError>
        ensures { IfOk result (λ field. field ≡ typing_name (selected_text self.now)) }
    {
        typed_name(self.alloc, self.selected_text())
    }

    // Begins to type a name, with this in the field.
    pub(crate) fn begin(&mut self, mode: Mode, typed: TextField) -> Result<(), AllocError>
        ensures ok { OnOk result (self.new ≡ typing_in mode typed self.old) }
        ensures err { OnErr result (self.new ≡ self.old) }
    {
        self.column = self.column_in(mode, &typed)?;
        self.typed = typed;
        self.mode = mode;
        Ok(())
    }

    // Begins to rename the entry that is selected, if there is one.
    fn rename(&mut self) -> Result<(), AllocError>
        ensures ok { OnOk result (self.new ≡ renaming self.old) }
        ensures err { OnErr result (self.new ≡ self.old) }
    {
        if self.list.len() == 0 {
            return Ok(());
        }
        let typed = self.selected_name()?;
        self.begin(Mode::Renaming, typed)
    }

    // Turns to another mode, if a condition holds.
    fn turn_if(&mut self, holds: bool, mode: Mode)
        ensures { self.new ≡ (if holds then record self.old { mode = mode } else self.old) }
    {
        if holds {
            self.mode = mode;
        }
    }

    // Asks for the folder above, if it is reached, and answers what is told.
    fn leave(&mut self) -> Note
        ensures mode { self.new ≡ leaving self.old }
        ensures note { result ≡ leave_note self.old }
    {
        if !self.is_inside() {
            return Note::NothingAbove;
        }
        self.mode = Mode::Leaving;
        Note::Place
    }

    // Does what is asked for that takes no memory.
    fn go(&mut self, wish: Wish)
        ensures { self.new ≡ went wish self.old }
    {
        match wish {
            Wish::Enter => self.enter(),
            Wish::Click(row) => self.click(row),
            Wish::Base => {
                let may = self.is_inside();
                self.turn_if(may, Mode::Returning);
            }
            Wish::Hidden => {
                self.has_hidden = !self.has_hidden;
                self.mode = Mode::Listing;
            }
            Wish::Sort => self.mode = Mode::Sorting,
            Wish::Remove => {
                if self.list.len() > 0 {
                    self.select_first_mark();
                    self.ask_about(Mode::Removing);
                }
            }
            Wish::Unmark => self.unmark(),
            Wish::Help => {
                self.helped = 0;
                self.mode = Mode::Helping;
            }
            Wish::Quit => self.mode = Mode::Over,
            Wish::Choose => self.mode = Mode::Chosen,
            other => self.move_by(other),
        }
    }

    // Asks whether the entry that was marked first, or else the one that is selected, is to be put
    // into the trash, and answers what is told.
    fn ask_to_trash(&mut self) -> Note
        ensures mode { self.new ≡ asking_to_trash self.old }
        ensures note { result ≡ trash_note self.old.trash }
    {
        if self.trash.is_none() {
            return Note::NoTrash;
        }
        if self.list.len() > 0 {
            self.select_first_mark();
            self.ask_about(Mode::Trashing);
        }
        Note::Place
    }

    /// Does what is asked for.
    pub(crate) fn obey(&mut self, wish: Wish) -> Result<(), AllocError>
        ensures ok { OnOk result (self.new ≡ wished wish self.old) }
        ensures err { OnErr result (self.new ≡ self.old) }
    {
        let mut note = Note::Place;
        match wish {
            Wish::Rename => self.rename()?,
            Wish::Make => self.begin(Mode::Making, TextField::new(self.alloc))?,
            Wish::Trash => note = self.ask_to_trash(),
            Wish::Undo => note = self.ask_to_undo(),
            Wish::Leave => note = self.leave(),
            Wish::Seek => self.begin(Mode::Seeking, TextField::new(self.alloc))?,
            Wish::Go => self.begin(Mode::Going, TextField::new(self.alloc))?,
            Wish::SeekOn => note = self.seek_on(),
            Wish::SeekBack => note = self.seek_back(),
            Wish::Mark => self.mark()?,
            Wish::NoteCopy => note = self.note_entries(false)?,
            Wish::NoteMove => note = self.note_entries(true)?,
            Wish::Paste => note = self.paste()?,
            other => self.go(other),
        }
        self.note = note;
        Ok(())
    }

    // Edits what is typed.
    pub(crate) fn edit(&mut self, edit: Edit) -> Result<(), AllocError>
        ensures ok { OnOk result
            (self.new ≡ typing_in self.old.mode (edited edit self.old.typed) self.old) }
        ensures err { OnErr result (self.new ≡ self.old) }
    {
        let mut typed = self.typed.clone(self.alloc)?;
        typed.apply(edit)?;
        self.begin(self.mode, typed)
    }

    /// Takes a yes. It counts only if the last read found nothing while the question was shown, and
    /// if the screen has columns for all of it.
    pub(crate) fn confirm(&mut self) -> Result<(), AllocError>
        ensures ok { OnOk result (self.new ≡ confirmed self.old) }
        ensures err { OnErr result (self.new ≡ self.old) }
    {
        if !self.is_quiet {
            return Ok(());
        }
        if self.fits(self.size.width)? {
            self.is_sure = true;
        } else {
            self.mode = Mode::Looking;
            self.note = Note::Narrow;
        }
        Ok(())
    }

    /// Does what is asked for while a name is typed.
    pub(crate) fn take_typing(&mut self, typing: Typing) -> Result<(), AllocError>
        ensures ok { OnOk result (self.new ≡ typed_into typing self.old) }
        ensures err { OnErr result (self.new ≡ self.old) }
    {
        match typing {
            Typing::Change(edit) => self.edit(edit),
            Typing::Accept => self.confirm(),
            Typing::Cancel => {
                self.mode = Mode::Looking;
                Ok(())
            }
            Typing::Ignore => Ok(()),
        }
    }

    /// Returns whether a name is typed.
    pub(crate) fn names_typed(&self) -> bool
        ensures { result ≡ names_typed self.now.mode }
    {
        match self.mode {
            Mode::Renaming | Mode::Making | Mode::Pasting => true,
            _ => false,
        }
    }

    // Shows what stands in a folder.
    fn show(&mut self, listing: Listing)
        ensures { self.new ≡ folder_shown listing self.old }
    {
        self.keep_marks(&listing);
        let Listing {
            folder,
            rows,
            unnamed,
            place,
        } = listing;
        self.folder = folder;
        self.list = rows;
        self.unnamed = unnamed;
        self.seeks_typed = false;
        self.follows = Mode::Looking;
        self.mode = Mode::Looking;
        self.glances.age();
        self.select(place);
    }

    /// Takes what stands in a folder, and asks the question that follows, if one does.
    pub(crate) fn take_listing(&mut self, listing: Listing) -> Result<(), AllocError>
        ensures ok { OnOk result (self.new ≡ listing_shown listing self.old) }
        ensures err { OnErr result (self.new ≡ self.old) }
    {
        let next = self.follows;
        let name = self.name_following()?;
        self.show(listing);
        self.mode = self.mode_following(next);
        if let Some((typed, column)) = name {
            self.typed = typed;
            self.column = column;
        }
        Ok(())
    }
}
