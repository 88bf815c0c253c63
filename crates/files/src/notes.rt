//! Entries that are noted, to be copied or moved to another folder.

ghost use Rattle.std.specs.Prelude.{◌≡◌, ◌++◌, ◌∷◌, [], not, length, drop, slice_get, Some, IfOk, MatchOption, OnOk, OnErr};
ghost use Rattle.std.specs.List.{list_any};
ghost use Rattle.std.specs.Option.{option_to_list, option_and_then};
ghost use Rattle.files.specs.Moves.{typing_name, note_taken, noted_note, taken, mark_taken, marks_taken, all_taken, pasting, paste_note};
ghost use Rattle.files.specs.Moves.{noted_unless, pastes_go_on, is_paste, typed_following, column_following};

use crate::browser::{Browser, Mode, Note};
use crate::marks::Mark;
use crate::moves::go_to_extension;
use ratatui_files::{Path, Text};
use std::alloc::{AllocError, Global};
use std::marker::Model;
use text_field::TextField;

/// An entry that is noted.
#[derive(Drop)]
pub struct Noted {
    /// Where it is.
    pub path: Path,
    /// Its name.
    pub name: Text,
    /// Whether it is to be moved; else it is to be copied.
    pub is_moved: bool,
}

impl Noted {
    // Copies it.
    fn copy(&self, alloc: Global) -> Result<Noted, AllocError>
        ensures { IfOk result (λ copy. copy ≡ self.now) }
    {
        Ok(Noted {
            path: self.path.copy(alloc)?,
            name: Text::copy(alloc, self.name.as_str())?,
            is_moved: self.is_moved,
        })
    }
}

/// Entries that are noted, in order.
#[derive(Drop)]
pub struct Notes {
    notes: Vec<Noted>,
}

impl Model for Notes {
    ghost use Rattle.std.specs.Prelude.{List};
    ghost use Rattle.files.specs.declared.notes.Noted.{Noted};

    ghost Value = { List Noted };

    ghost view = { λ notes. notes.notes.items };
}

impl Notes {
    /// Makes a list of no entries.
    pub fn new(alloc: Global) -> Notes
        ensures { result ≡ [] }
    {
        Notes {
            notes: Vec::new(alloc),
        }
    }

    /// Returns how many there are.
    pub fn len(&self) -> usize
        ensures { result ≡ length self.now }
    {
        self.notes.len()
    }

    // Adds one.
    fn add(&mut self, noted: Noted) -> Result<(), AllocError>
        ensures ok { OnOk result (self.new ≡ self.old ++ noted ∷ []) }
        ensures err { OnErr result (self.new ≡ self.old) }
    {
        self.notes.push(noted)?;
        Ok(())
    }

    // Adds one if there is one.
    fn add_some(&mut self, noted: Option<Noted>) -> Result<(), AllocError>
        ensures ok { OnOk result (self.new ≡ self.old ++ option_to_list noted) }
        ensures err { OnErr result (self.new ≡ self.old) }
    {
        match noted {
            Some(noted) => self.add(noted),
            None => Ok(()),
        }
    }

    // Takes the first one, if there is one.
    fn take_first(&mut self) -> Option<Noted>
        ensures first { result ≡ slice_get self.old 0 }
        ensures rest { self.new ≡ drop 1 self.old }
    {
        if self.notes.is_empty() {
            return None;
        }
        Some(self.notes.remove(0))
    }
}

// A name, typed, with the cursor before its extension.
pub(crate) fn typed_name(alloc: Global, name: &str) -> Result<TextField, AllocError>
    ensures { IfOk result (λ field. field ≡ typing_name name.now) }
{
    let mut field = TextField::new(alloc);
    field.set_text(name)?;
    go_to_extension(&mut field);
    Ok(field)
}

// Whether it is asked under which name what is noted comes here.
fn is_paste(mode: Mode) -> bool
    ensures { result ≡ is_paste mode }
{
    match mode {
        Mode::Pasting => true,
        _ => false,
    }
}

impl Browser {
    // The entry that is selected, if it can be moved, or copied.
    fn taken(&self, is_moved: bool) -> Result<Option<Noted>, AllocError>
        ensures { IfOk result (λ noted. noted ≡ taken is_moved self.now) }
    {
        let Some(row) = self.list.get(self.selected) else {
            return Ok(None);
        };
        if !is_moved && !row.is_leaf {
            return Ok(None);
        }
        match self.folder.entry(self.alloc, row.name.as_str())? {
            Some(path) => Ok(Some(Noted {
                path,
                name: Text::copy(self.alloc, row.name.as_str())?,
                is_moved,
            })),
            None => Ok(None),
        }
    }

    // The entry of a mark.
    fn mark_taken(&self, is_moved: bool, mark: &Mark) -> Result<Option<Noted>, AllocError>
        ensures { IfOk result (λ noted. noted ≡ mark_taken is_moved self.now mark.now) }
    {
        match self.folder.entry(self.alloc, mark.name.as_str())? {
            Some(path) => Ok(Some(Noted {
                path,
                name: Text::copy(self.alloc, mark.name.as_str())?,
                is_moved,
            })),
            None => Ok(None),
        }
    }

    // Whether one of the entries that are marked is a folder.
    fn has_folder_marked(&self) -> bool
        ensures { result ≡ list_any (λ mark. not mark.is_leaf) self.now.marks }
    {
        self.marks.as_slice().iter().any(|mark| !mark.is_leaf)
    }

    // The entries that are marked, if they can all be moved, or copied.
    fn marks_taken(&self, is_moved: bool) -> Result<Notes, AllocError>
        ensures { IfOk result (λ notes. notes ≡ marks_taken is_moved self.now) }
    {
        let mut notes = Notes::new(self.alloc);
        if !is_moved && self.has_folder_marked() {
            return Ok(notes);
        }
        for mark in self.marks.as_slice() {
            let noted = self.mark_taken(is_moved, mark)?;
            notes.add_some(noted)?;
        }
        Ok(notes)
    }

    // The entries that are marked, or else the one that is selected.
    fn all_taken(&self, is_moved: bool) -> Result<Notes, AllocError>
        ensures { IfOk result (λ notes. notes ≡ all_taken is_moved self.now) }
    {
        if !self.marks.is_empty() {
            return self.marks_taken(is_moved);
        }
        let mut notes = Notes::new(self.alloc);
        let noted = self.taken(is_moved)?;
        notes.add_some(noted)?;
        Ok(notes)
    }

    /// Notes the entries that are marked, or else the one that is selected, to be moved or copied, and
    /// answers what is told.
    pub(crate) fn note_entries(&mut self, is_moved: bool) -> Result<Note, AllocError>
        ensures ok { OnOk result (self.new ≡ note_taken is_moved self.old) }
        ensures note { IfOk result (λ note.
            note ≡ noted_note (slice_get (all_taken is_moved self.old) 0)) }
        ensures err { OnErr result (self.new ≡ self.old) }
    {
        let mut notes = self.all_taken(is_moved)?;
        if notes.len() > 0 {
            self.unmark();
        }
        self.noted = notes.take_first();
        self.more = notes;
        match &self.noted {
            Some(_) => Ok(Note::Noted),
            None => Ok(Note::NothingNoted),
        }
    }

    /// Begins to type the name under which what was noted comes here, and answers what is told.
    pub(crate) fn paste(&mut self) -> Result<Note, AllocError>
        ensures ok { OnOk result (self.new ≡ pasting self.old) }
        ensures note { IfOk result (λ note. note ≡ paste_note self.old.noted) }
        ensures err { OnErr result (self.new ≡ self.old) }
    {
        let typed = match &self.noted {
            Some(noted) => typed_name(self.alloc, noted.name.as_str())?,
            None => {
                self.left = self.more.len();
                return Ok(Note::NothingNoted);
            }
        };
        self.begin(Mode::Pasting, typed)?;
        self.left = self.more.len();
        Ok(Note::Place)
    }

    /// Returns what is typed after a listing, and how many columns stand before the cursor, if what
    /// is noted next is asked about.
    pub(crate) fn name_following(&self) -> Result<Option<(TextField, usize)>, AllocError>
        ensures { IfOk result (λ next. MatchOption next
            ((self.now.typed ≡ typed_following self.now.follows self.now)
            × (self.now.column ≡ column_following self.now.follows self.now))
            (λ name. (name.0 ≡ typed_following self.now.follows self.now)
            × (name.1 ≡ column_following self.now.follows self.now))) }
    {
        if !is_paste(self.follows) {
            return Ok(None);
        }
        match &self.noted {
            Some(noted) => {
                let typed = typed_name(self.alloc, noted.name.as_str())?;
                let column = self.column_in(Mode::Pasting, &typed)?;
                Ok(Some((typed, column)))
            }
            None => Ok(None),
        }
    }

    // What is noted, if it stays so once it is pasted.
    fn noted_again(&self) -> Result<Option<Noted>, AllocError>
        ensures { IfOk result (λ noted.
            noted ≡ option_and_then (λ it. noted_unless it.is_moved it) self.now.noted) }
    {
        match &self.noted {
            Some(noted) if !noted.is_moved => Ok(Some(noted.copy(self.alloc)?)),
            _ => Ok(None),
        }
    }

    /// Goes on to what is noted next, after something was pasted.
    pub(crate) fn go_on_pasting(&mut self) -> Result<(), AllocError>
        ensures ok { OnOk result (self.new ≡ pastes_go_on self.old) }
        ensures err { OnErr result (self.new ≡ self.old) }
    {
        let again = self.noted_again()?;
        self.more.add_some(again)?;
        self.noted = self.more.take_first();
        self.follows = if self.left == 0 {
            Mode::Looking
        } else {
            Mode::Pasting
        };
        self.left = self.left.saturating_sub(1);
        Ok(())
    }
}
