//! What a field was, so that its edits can be undone.

ghost use Rattle.std.specs.Prelude.{◌≡◌, ◌<◌, ◌≤◌, ◌↔◌, ◌++◌, [], ◌∷◌, length, IsTrue, OnOk, OnErr};
ghost use Rattle.std.specs.Prelude.{IfOk, is_some};
ghost use Rattle.std.specs.Prelude.{vec_len, vec_capacity};
ghost use Rattle.text_field.specs.Field.{FieldData, field_text};
ghost use Rattle.text_field.specs.Keys.{edit_of, edited, edited_if};
ghost use Rattle.text_field.specs.History.{history_of, last_texts, after_edit};
ghost use Rattle.text_field.specs.History.{UndoesIf, RedoesIf};

use crate::field::{Kept, TextField};
use crate::keys::{Edit, edit_of};
use ratatui_events::Event;
use std::alloc::{AllocError, Global};
use std::marker::Model;

/// A `History` keeps what a field was before its edits, so that they can be undone.
///
/// Give it the events in place of the field. Each edit that changes the text is a step, and keeps a
/// copy of the text as it was.
///
/// ```
/// let mut history = History::new(alloc, 100);
/// let undo = Event::Key(KeyEvent::new(KeyCode::Char('z'), KeyModifiers::CONTROL));
/// if !history.handle(&mut field, &event)? && event == undo {
///     history.undo(&mut field)?;
/// }
/// ```
#[derive(Drop)]
pub struct History {
    past: Vec<Kept>,
    future: Vec<Kept>,
    most: usize,
}

impl Model for History {
    ghost use Rattle.std.specs.Prelude.{◌≤◌, ◌+◌, length};
    ghost use Rattle.text_field.specs.History.{HistoryData, history_of};

    ghost Value = { HistoryData };

    ghost view = { λ h. history_of h.past.items h.future.items h.most };

    ghost invariant = { λ h. length h.past.items + length h.future.items ≤ h.most };
}

impl History {
    /// Makes a history of at most so many steps. It takes no memory.
    pub fn new(alloc: Global, most: usize) -> History
        ensures { result ≡ history_of [] [] most }
    {
        History {
            past: Vec::new(alloc),
            future: Vec::new(alloc),
            most,
        }
    }

    /// Returns whether there is anything to undo.
    pub fn can_undo(&self) -> bool
        ensures { IsTrue result ↔ (0 < length self.now.past) }
    {
        self.past.len() > 0
    }

    /// Returns whether there is anything to redo.
    pub fn can_redo(&self) -> bool
        ensures { IsTrue result ↔ (0 < length self.now.future) }
    {
        self.future.len() > 0
    }

    /// Forgets all steps.
    pub fn clear(&mut self)
        ensures { self.new ≡ history_of [] [] self.old.most }
    {
        self.past.clear();
        self.future.clear();
    }

    // Edits the field in a way that may change its text, and keeps what it was if that has changed.
    fn apply_change(&mut self, field: &mut TextField, edit: Edit) -> Result<(), AllocError>
        ensures ok { OnOk result (field.new ≡ edited edit field.old) }
        ensures history { OnOk result (self.new ≡ after_edit field.old field.new self.old) }
        ensures err { OnErr result (field.new ≡ field.old) }
        ensures stays { OnErr result (self.new ≡ self.old) }
    {
        let kept = field.kept()?;
        self.past.reserve(1)?;
        field.apply(edit)?;
        if !kept.has_text(field.text()) {
            put_last(&mut self.past, self.most, kept);
            self.future.clear();
        }
        Ok(())
    }

    /// Edits the field, and keeps what it was if its text has changed.
    ///
    /// # Errors
    ///
    /// `AllocError` if memory is refused. Then the field and its history are as they were.
    pub fn apply(&mut self, field: &mut TextField, edit: Edit) -> Result<(), AllocError>
        ensures ok { OnOk result (field.new ≡ edited edit field.old) }
        ensures history { OnOk result (self.new ≡ after_edit field.old field.new self.old) }
        ensures err { OnErr result (field.new ≡ field.old) }
        ensures stays { OnErr result (self.new ≡ self.old) }
    {
        if is_move(edit) {
            return field.apply(edit);
        }
        self.apply_change(field, edit)
    }

    /// Edits the field as an event asks, as `TextField::handle` does, and keeps what it was if its
    /// text has changed. It answers whether the event asks for an edit.
    ///
    /// # Errors
    ///
    /// `AllocError` if memory is refused. Then the field and its history are as they were.
    pub fn handle(&mut self, field: &mut TextField, event: &Event) -> Result<bool, AllocError>
        ensures ok { OnOk result (field.new ≡ edited_if (edit_of event.now) field.old) }
        ensures history { OnOk result (self.new ≡ after_edit field.old field.new self.old) }
        ensures taken { IfOk result (λ taken. taken ≡ is_some (edit_of event.now)) }
        ensures err { OnErr result (field.new ≡ field.old) }
        ensures stays { OnErr result (self.new ≡ self.old) }
    {
        match edit_of(event) {
            None => Ok(false),
            Some(edit) => {
                self.apply(field, edit)?;
                Ok(true)
            }
        }
    }

    /// Undoes the last step: the field's text and cursor are what they were before it. It answers
    /// whether there was one; without one all is as before.
    ///
    /// # Errors
    ///
    /// `AllocError` if memory is refused. Then the field and its history are as they were.
    pub fn undo(&mut self, field: &mut TextField) -> Result<bool, AllocError>
        ensures ok { IfOk result (λ done. UndoesIf field.old field.new self.old self.new done) }
        ensures err { OnErr result (field.new ≡ field.old) }
        ensures stays { OnErr result (self.new ≡ self.old) }
    {
        self.future.reserve(1)?;
        match self.past.pop() {
            None => Ok(false),
            Some(kept) => {
                put(&mut self.future, field.exchange(kept));
                Ok(true)
            }
        }
    }

    /// Redoes the step that was undone last: the field's text and cursor are what they were before
    /// that. It answers whether there was one; without one all is as before. An edit that changes
    /// the text leaves nothing to redo.
    ///
    /// # Errors
    ///
    /// `AllocError` if memory is refused. Then the field and its history are as they were.
    pub fn redo(&mut self, field: &mut TextField) -> Result<bool, AllocError>
        ensures ok { IfOk result (λ done. RedoesIf field.old field.new self.old self.new done) }
        ensures err { OnErr result (field.new ≡ field.old) }
        ensures stays { OnErr result (self.new ≡ self.old) }
    {
        self.past.reserve(1)?;
        match self.future.pop() {
            None => Ok(false),
            Some(kept) => {
                put(&mut self.past, field.exchange(kept));
                Ok(true)
            }
        }
    }
}

// Whether an edit moves the cursor and changes no text.
#[tactic(auto, using(crate::proofs::HistoryLemmas::move_rules))]
fn is_move(edit: Edit) -> bool
    ensures { IsTrue result → (f : FieldData) → field_text (edited edit f) ≡ field_text f }
{
    match edit {
        Edit::MoveLeft(_) | Edit::MoveRight(_) => true,
        _ => false,
    }
}

// Puts one after the last of a list that has room for it.
fn put(list: &mut Vec<Kept>, kept: Kept)
    requires { vec_len list.old < vec_capacity list.old }
    ensures { list.new.items ≡ list.old.items ++ kept ∷ [] }
{
    match list.push(kept) {
        Ok(()) => {}
        Err(_) => unreachable!(),
    }
}

// Puts one after the last of a list that has room for it, and takes the first one away if there
// are more than so many.
fn put_last(list: &mut Vec<Kept>, most: usize, kept: Kept)
    requires room { vec_len list.old < vec_capacity list.old }
    requires few { length list.old.items ≤ most }
    ensures { list.new.items ≡ last_texts most (list.old.items ++ kept ∷ []) }
{
    put(list, kept);
    if list.len() > most {
        list.remove(0);
    }
}
