//! A field: a text, a cursor in it, and what is done to both.

ghost use Rattle.std.specs.Prelude.{◌≡◌, ◌+◌, ◌≤◌, ◌++◌, length, take, drop, chars, encode_utf8};
ghost use Rattle.std.specs.Prelude.{string_bytes};
ghost use Rattle.std.specs.Prelude.{bytes_eq, IsTrue, ◌↔◌, IfOk, OnOk, OnErr, Some, None, []};
ghost use Rattle.std.specs.Str.{IsCharBoundary};
ghost use Rattle.text_field.specs.Field.{FieldData, field_text, accepted, typing, moved_left, moved_right};
ghost use Rattle.text_field.specs.Field.{part_left, part_right, cut_left, cut_right, keeping};
ghost use Rattle.text_field.specs.Field.{cleared};
ghost use Rattle.text_field.specs.Field.{new_field};
ghost use Rattle.text_field.specs.Reach.{reach_left, reach_right};
ghost use Rattle.text_field.specs.History.{cursor_text, with_cursor_text};

use crate::cuts::{insert_at, keep, remove_between, replace_text};
use crate::reach::{Reach, left_of, right_of};
use crate::typed::{is_typed_whole, room_beside, typed_part};
use std::alloc::{AllocError, Global};
use std::marker::Model;
use std::mem;

/// A `TextField` is a line of text with a cursor in it.
///
/// The cursor stands between two parts of the text, and each part is read as graphemes by itself:
/// so no edit leaves the cursor inside a grapheme of a part. Moves and deletions take no memory.
/// Control characters, and so line feeds, are left out of what is typed.
///
/// ```
/// let mut field = TextField::new(alloc);
/// field.insert_str("hello world")?;
/// field.move_left(Reach::Word);
/// field.before(); // "hello "
/// field.after(); // "world"
/// field.kill_right(Reach::All)?;
/// field.text(); // "hello "
/// ```
#[derive(Drop)]
pub struct TextField {
    text: String,
    // the byte at which the cursor stands
    at: usize,
    killed: String,
    limit: Option<usize>,
    first: usize,
    place: Option<(u16, u16)>,
}

impl Model for TextField {
    ghost use Rattle.std.specs.Prelude.{string_bytes};
    ghost use Rattle.std.specs.Str.{IsCharBoundary};
    ghost use Rattle.text_field.specs.Field.{FieldData, field_at};

    ghost Value = { FieldData };

    ghost view = { λ f.
        field_at (string_bytes f.text) f.at (string_bytes f.killed) f.limit f.first f.place };

    ghost invariant = { λ f. IsCharBoundary (string_bytes f.text) f.at };
}

// The text of a field and the byte at which its cursor stands.
#[derive(Drop)]
pub(crate) struct Kept {
    text: String,
    at: usize,
}

impl Model for Kept {
    ghost use Rattle.std.specs.Prelude.{string_bytes};
    ghost use Rattle.std.specs.Str.{IsCharBoundary};
    ghost use Rattle.text_field.specs.History.{CursorText, cursor_text_at};

    ghost Value = { CursorText };

    ghost view = { λ kept. cursor_text_at (string_bytes kept.text) kept.at };

    ghost invariant = { λ kept. IsCharBoundary (string_bytes kept.text) kept.at };
}

impl Kept {
    // Whether this is its text.
    pub(crate) fn has_text(&self, text: &str) -> bool
        ensures { result ≡ bytes_eq (self.now.before ++ self.now.after) text.now }
    {
        self.text.as_str() == text
    }
}

impl TextField {
    // A copy of the text, and the cursor.
    pub(crate) fn kept(&self) -> Result<Kept, AllocError>
        ensures { IfOk result (λ kept. kept ≡ cursor_text self.now) }
    {
        let alloc = *self.text.allocator();
        let text = String::from_str(alloc, self.text.as_str())?;
        Ok(Kept { text, at: self.at })
    }

    // Takes a text and a cursor in place of those of the field, and answers these.
    pub(crate) fn exchange(&mut self, kept: Kept) -> Kept
        ensures field { self.new ≡ with_cursor_text kept self.old }
        ensures former { result ≡ cursor_text self.old }
    {
        let text = mem::replace(&mut self.text, kept.text);
        let at = self.at;
        self.at = kept.at;
        Kept { text, at }
    }

    /// Makes a field without a text and without a limit. It takes no memory.
    pub fn new(alloc: Global) -> TextField
        ensures { result ≡ new_field }
    {
        TextField {
            text: String::new(alloc),
            at: 0,
            killed: String::new(alloc),
            limit: None,
            first: 0,
            place: None,
        }
    }

    /// Makes an equal field.
    ///
    /// # Errors
    ///
    /// `AllocError` if memory is refused.
    pub fn clone(&self, alloc: Global) -> Result<TextField, AllocError>
        ensures { IfOk result (λ field. field ≡ self.now) }
    {
        Ok(TextField {
            text: String::from_str(alloc, self.text.as_str())?,
            at: self.at,
            killed: String::from_str(alloc, self.killed.as_str())?,
            limit: self.limit,
            first: self.first,
            place: self.place,
        })
    }

    /// Gives the field a limit: nothing is typed beyond so many characters. What stands there
    /// stays.
    pub fn with_limit(mut self, characters: usize) -> TextField
        ensures { result ≡ record self { limit = Some characters } }
    {
        self.limit = Some(characters);
        self
    }

    /// Returns how many characters there may be, or `None` if there is no limit.
    pub fn limit(&self) -> Option<usize>
        ensures { result ≡ self.now.limit }
    {
        self.limit
    }

    /// Returns the whole text.
    pub fn text(&self) -> &str
        ensures { result.now ≡ field_text self.now }
    {
        self.text.as_str()
    }

    /// Returns the text before the cursor.
    pub fn before(&self) -> &str
        ensures { result.now ≡ self.now.before }
    {
        self.text.as_str().split_at(self.at).0
    }

    /// Returns the text after the cursor.
    pub fn after(&self) -> &str
        ensures { result.now ≡ self.now.after }
    {
        self.text.as_str().split_at(self.at).1
    }

    /// Returns what was killed last: what `yank` types. At first it is empty.
    pub fn killed(&self) -> &str
        ensures { result.now ≡ self.now.killed }
    {
        self.killed.as_str()
    }

    /// Returns whether there is no text.
    pub fn is_empty(&self) -> bool
        ensures { IsTrue result ↔ (field_text self.now ≡ []) }
    {
        self.text.is_empty()
    }

    /// Returns the byte of the text at which the view began when the field was rendered last: of
    /// what is shown in its place if it was masked.
    pub fn view_start(&self) -> usize
        ensures { result ≡ self.now.first }
    {
        self.first
    }

    /// Returns the column and the row of the buffer in which the cursor stood when the field was
    /// rendered last, or `None` if there was no place for it.
    pub fn cursor_place(&self) -> Option<(u16, u16)>
        ensures { result ≡ self.now.place }
    {
        self.place
    }

    /// Keeps the byte at which the view begins, and the column and the row of its cursor. A widget
    /// that renders a field calls this.
    pub fn set_view(&mut self, first: usize, place: Option<(u16, u16)>)
        ensures { self.new ≡ record self.old { first = first; place = place } }
    {
        self.first = first;
        self.place = place;
    }

    // Puts a text in place of the whole one, as it is.
    fn replace(&mut self, piece: &str) -> Result<(), AllocError>
        ensures ok { OnOk result
            (self.new ≡ record self.old { before = piece.now; after = [] }) }
        ensures err { OnErr result (self.new ≡ self.old) }
    {
        replace_text(&mut self.text, piece)?;
        self.at = self.text.len();
        Ok(())
    }

    // Puts a text before the cursor as it is.
    fn put(&mut self, piece: &str) -> Result<(), AllocError>
        ensures ok { OnOk result
            (self.new ≡ record self.old { before = self.old.before ++ piece.now }) }
        ensures err { OnErr result (self.new ≡ self.old) }
    {
        let end = insert_at(&mut self.text, self.at, piece)?;
        self.at = end;
        Ok(())
    }

    /// Types a text before the cursor, or pastes it: its characters but the control characters, as
    /// many as the limit allows. What stands after the cursor is moved once.
    ///
    /// # Errors
    ///
    /// `AllocError` if memory is refused. Then the field is as it was, so a paste is typed whole or
    /// not at all.
    pub fn insert_str(&mut self, text: &str) -> Result<(), AllocError>
        ensures ok { OnOk result (self.new ≡ typing text.now self.old) }
        ensures err { OnErr result (self.new ≡ self.old) }
    {
        let whole = self.text.as_str();
        let room = room_beside(whole, self.limit, text.len());
        if is_typed_whole(text, room) {
            return self.put(text);
        }
        let alloc = *self.text.allocator();
        let part = typed_part(alloc, text, room)?;
        let piece = part.as_str();
        self.put(piece)
    }

    /// Types a character before the cursor, unless it is a control character or the limit is
    /// reached.
    ///
    /// # Errors
    ///
    /// `AllocError` if memory is refused. Then the field is as it was.
    pub fn insert(&mut self, character: char) -> Result<(), AllocError>
        ensures ok { OnOk result (self.new ≡ typing (encode_utf8 character) self.old) }
        ensures err { OnErr result (self.new ≡ self.old) }
    {
        let mut bytes = [0; 4];
        self.insert_str(character.encode_utf8(&mut bytes))
    }

    /// Types what was killed last before the cursor, as far as the limit allows.
    ///
    /// # Errors
    ///
    /// `AllocError` if memory is refused. Then the field is as it was.
    pub fn yank(&mut self) -> Result<(), AllocError>
        ensures ok { OnOk result (self.new ≡ typing self.old.killed self.old) }
        ensures err { OnErr result (self.new ≡ self.old) }
    {
        let alloc = *self.text.allocator();
        let text = String::from_str(alloc, self.killed.as_str())?;
        self.insert_str(text.as_str())
    }

    /// Makes a text the field's own: its characters but the control characters, as many as the
    /// limit allows. The cursor stands at its end. What was killed last stays.
    ///
    /// # Errors
    ///
    /// `AllocError` if memory is refused. Then the field is as it was.
    pub fn set_text(&mut self, text: &str) -> Result<(), AllocError>
        ensures ok { OnOk result (self.new ≡ typing text.now (cleared self.old)) }
        ensures err { OnErr result (self.new ≡ self.old) }
    {
        let room = room_beside("", self.limit, text.len());
        if is_typed_whole(text, room) {
            return self.replace(text);
        }
        let alloc = *self.text.allocator();
        let part = typed_part(alloc, text, room)?;
        let piece = part.as_str();
        self.replace(piece)
    }

    /// Takes the text away. What was killed last stays, and the room of the text too.
    pub fn clear(&mut self)
        ensures { self.new ≡ cleared self.old }
    {
        self.text.clear();
        self.at = 0;
    }

    /// Moves the cursor to the left, at most to the text's start.
    pub fn move_left(&mut self, reach: Reach)
        ensures { self.new ≡ moved_left (reach_left reach self.old.before) self.old }
    {
        let to = left_of(self.text.as_str(), self.at, reach);
        self.at = to;
    }

    /// Moves the cursor to the right, at most to the text's end.
    pub fn move_right(&mut self, reach: Reach)
        ensures { self.new ≡ moved_right (reach_right reach self.old.after) self.old }
    {
        let to = right_of(self.text.as_str(), self.at, reach);
        self.at = to;
    }

    /// Deletes what stands to the left of the cursor.
    pub fn delete_left(&mut self, reach: Reach)
        ensures { self.new ≡ cut_left (reach_left reach self.old.before) self.old }
    {
        let from = left_of(self.text.as_str(), self.at, reach);
        remove_between(&mut self.text, from, self.at);
        self.at = from;
    }

    /// Deletes what stands to the right of the cursor.
    pub fn delete_right(&mut self, reach: Reach)
        ensures { self.new ≡ cut_right (reach_right reach self.old.after) self.old }
    {
        let to = right_of(self.text.as_str(), self.at, reach);
        remove_between(&mut self.text, self.at, to);
    }

    /// Deletes what stands to the left of the cursor, and keeps it for `yank` if there is anything.
    ///
    /// # Errors
    ///
    /// `AllocError` if memory is refused. Then the field is as it was.
    pub fn kill_left(&mut self, reach: Reach) -> Result<(), AllocError>
        ensures ok { let n = reach_left reach self.old.before in
            OnOk result (self.new ≡ cut_left n (keeping (part_left n self.old) self.old)) }
        ensures err { OnErr result (self.new ≡ self.old) }
    {
        let from = left_of(self.text.as_str(), self.at, reach);
        let part = &self.text.as_str()[from..self.at];
        keep(&mut self.killed, part)?;
        remove_between(&mut self.text, from, self.at);
        self.at = from;
        Ok(())
    }

    /// Deletes what stands to the right of the cursor, and keeps it for `yank` if there is
    /// anything.
    ///
    /// # Errors
    ///
    /// `AllocError` if memory is refused. Then the field is as it was.
    pub fn kill_right(&mut self, reach: Reach) -> Result<(), AllocError>
        ensures ok { let n = reach_right reach self.old.after in
            OnOk result (self.new ≡ cut_right n (keeping (part_right n self.old) self.old)) }
        ensures err { OnErr result (self.new ≡ self.old) }
    {
        let to = right_of(self.text.as_str(), self.at, reach);
        let part = &self.text.as_str()[self.at..to];
        keep(&mut self.killed, part)?;
        remove_between(&mut self.text, self.at, to);
        Ok(())
    }
}
