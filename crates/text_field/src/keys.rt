//! Which events edit a field.

ghost use Rattle.std.specs.Prelude.{◌≡◌, OnOk, OnErr, IfOk, IsOk, is_some, false};
ghost use Rattle.text_field.specs.Keys.{edit_among, plain_edit, word_edit, held_edit, key_edit};
ghost use Rattle.text_field.specs.Keys.{edit_of};
ghost use Rattle.text_field.specs.Keys.{control_keys, alt_keys, edited, edited_if, takes_memory};
ghost use Rattle.text_field.specs.Keys.{takes_memory_if};

use crate::field::TextField;
use crate::reach::Reach;
use ratatui_events::{Event, KeyCode, KeyEvent, KeyEventKind, KeyModifiers};
use std::alloc::AllocError;

/// An `Edit` says what is done to a field.
#[derive(Debug, Clone, Copy, PartialEq, Eq, Hash)]
pub enum Edit {
    /// A character is typed.
    Insert(char),
    /// What was killed last is typed.
    Yank,
    /// The cursor goes to the left.
    MoveLeft(Reach),
    /// The cursor goes to the right.
    MoveRight(Reach),
    /// What stands to the left of the cursor goes.
    DeleteLeft(Reach),
    /// What stands to the right of the cursor goes.
    DeleteRight(Reach),
    /// What stands to the left of the cursor goes, and is kept for `Yank`.
    KillLeft(Reach),
    /// What stands to the right of the cursor goes, and is kept for `Yank`.
    KillRight(Reach),
}

// What a character does beside Control.
static CONTROL_KEYS: [(char, Edit); 10] = [
    ('a', Edit::MoveLeft(Reach::All)),
    ('b', Edit::MoveLeft(Reach::Grapheme)),
    ('d', Edit::DeleteRight(Reach::Grapheme)),
    ('e', Edit::MoveRight(Reach::All)),
    ('f', Edit::MoveRight(Reach::Grapheme)),
    ('h', Edit::DeleteLeft(Reach::Grapheme)),
    ('k', Edit::KillRight(Reach::All)),
    ('u', Edit::KillLeft(Reach::All)),
    ('w', Edit::KillLeft(Reach::Word)),
    ('y', Edit::Yank),
];

// What a character does beside Alt.
static ALT_KEYS: [(char, Edit); 3] = [
    ('b', Edit::MoveLeft(Reach::Word)),
    ('d', Edit::KillRight(Reach::Word)),
    ('f', Edit::MoveRight(Reach::Word)),
];

// The edit that a table has for a character.
fn edit_among(table: &[(char, Edit)], c: char) -> Option<Edit>
    ensures { result ≡ edit_among table.now c }
{
    for row in table {
        if row.0 == c {
            return Some(row.1);
        }
    }
    None
}

// The edit of a character beside Control.
fn control_edit(c: char) -> Option<Edit>
    ensures { result ≡ edit_among control_keys c }
{
    edit_among(&CONTROL_KEYS, c)
}

// The edit of a character beside Alt.
fn alt_edit(c: char) -> Option<Edit>
    ensures { result ≡ edit_among alt_keys c }
{
    edit_among(&ALT_KEYS, c)
}

// The edit of a key beside which at most Shift is held.
fn plain_edit(code: KeyCode) -> Option<Edit>
    ensures { result ≡ plain_edit code }
{
    match code {
        KeyCode::Char(c) => Some(Edit::Insert(c)),
        KeyCode::Left => Some(Edit::MoveLeft(Reach::Grapheme)),
        KeyCode::Right => Some(Edit::MoveRight(Reach::Grapheme)),
        KeyCode::Home => Some(Edit::MoveLeft(Reach::All)),
        KeyCode::End => Some(Edit::MoveRight(Reach::All)),
        KeyCode::Backspace => Some(Edit::DeleteLeft(Reach::Grapheme)),
        KeyCode::Delete => Some(Edit::DeleteRight(Reach::Grapheme)),
        _ => None,
    }
}

// The edit of a key that is no character beside which Control or Alt is held.
fn word_edit(code: KeyCode) -> Option<Edit>
    ensures { result ≡ word_edit code }
{
    match code {
        KeyCode::Left => Some(Edit::MoveLeft(Reach::Word)),
        KeyCode::Right => Some(Edit::MoveRight(Reach::Word)),
        KeyCode::Backspace => Some(Edit::KillLeft(Reach::Word)),
        KeyCode::Delete => Some(Edit::KillRight(Reach::Word)),
        _ => None,
    }
}

// The edit of a key beside which Control is held.
fn beside_control(code: KeyCode) -> Option<Edit>
    ensures { result ≡ held_edit control_keys code }
{
    match code {
        KeyCode::Char(c) => control_edit(c),
        other => word_edit(other),
    }
}

// The edit of a key beside which Alt is held.
fn beside_alt(code: KeyCode) -> Option<Edit>
    ensures { result ≡ held_edit alt_keys code }
{
    match code {
        KeyCode::Char(c) => alt_edit(c),
        other => word_edit(other),
    }
}

// The edit of a key that goes down, by what is held beside it.
fn key_edit(key: KeyEvent) -> Option<Edit>
    ensures { result ≡ key_edit key.modifiers key.code }
{
    if key.modifiers == KeyModifiers::NONE || key.modifiers == KeyModifiers::SHIFT {
        plain_edit(key.code)
    } else if key.modifiers == KeyModifiers::ALT {
        beside_alt(key.code)
    } else if key.modifiers == KeyModifiers::CONTROL {
        beside_control(key.code)
    } else {
        None
    }
}

/// Returns the edit that an event asks of a field, or `None` if it asks none.
///
/// A character that is typed or pasted is inserted. Left and Right move by a grapheme, Home and End
/// over all; Backspace and Delete delete a grapheme. With Control or Alt these four go over words,
/// and a deletion is kept for `Edit::Yank`. Control with A, B, D, E, F, H, K, U, W and Y and Alt
/// with B, D and F do what they do at a shell's prompt. A key that is let go asks for nothing.
pub fn edit_of(event: &Event) -> Option<Edit>
    ensures { result ≡ edit_of event.now }
{
    match *event {
        Event::Key(key) => match key.kind {
            KeyEventKind::Release => None,
            KeyEventKind::Press | KeyEventKind::Repeat => key_edit(key),
        },
        Event::Pasted(c) => Some(Edit::Insert(c)),
        _ => None,
    }
}

impl TextField {
    /// Edits the field. Moves and deletions take no memory.
    ///
    /// # Errors
    ///
    /// `AllocError` if memory is refused. Then the field is as it was.
    pub fn apply(&mut self, edit: Edit) -> Result<(), AllocError>
        ensures ok { OnOk result (self.new ≡ edited edit self.old) }
        ensures err { OnErr result (self.new ≡ self.old) }
        ensures light { takes_memory edit ≡ false → IsOk result }
    {
        match edit {
            Edit::Insert(c) => self.insert(c),
            Edit::Yank => self.yank(),
            Edit::MoveLeft(reach) => {
                self.move_left(reach);
                Ok(())
            }
            Edit::MoveRight(reach) => {
                self.move_right(reach);
                Ok(())
            }
            Edit::DeleteLeft(reach) => {
                self.delete_left(reach);
                Ok(())
            }
            Edit::DeleteRight(reach) => {
                self.delete_right(reach);
                Ok(())
            }
            Edit::KillLeft(reach) => self.kill_left(reach),
            Edit::KillRight(reach) => self.kill_right(reach),
        }
    }

    /// Edits the field as an event asks, and answers whether it asks for an edit (`edit_of` says
    /// which). An event that asks for none leaves the field as it was.
    ///
    /// ```
    /// if !field.handle(&event)? {
    ///     // the event isn't for the field: perhaps Enter, Tab or Esc
    /// }
    /// ```
    ///
    /// # Errors
    ///
    /// `AllocError` if memory is refused. Then the field is as it was.
    pub fn handle(&mut self, event: &Event) -> Result<bool, AllocError>
        ensures ok { OnOk result (self.new ≡ edited_if (edit_of event.now) self.old) }
        ensures taken { IfOk result (λ taken. taken ≡ is_some (edit_of event.now)) }
        ensures err { OnErr result (self.new ≡ self.old) }
        ensures light { takes_memory_if (edit_of event.now) ≡ false → IsOk result }
    {
        match edit_of(event) {
            None => Ok(false),
            Some(edit) => {
                self.apply(edit)?;
                Ok(true)
            }
        }
    }
}
