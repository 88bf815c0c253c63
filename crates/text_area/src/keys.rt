//! Which events edit a text area.

ghost use Rattle.std.specs.Prelude.{◌≡◌, OnOk, OnErr, IfOk, IsOk, is_some, true, option_map};
ghost use Rattle.text_area.specs.Areas.{gone, unselected, selection_begun, undoing, redoing};
ghost use Rattle.text_area.specs.AreaKeys.{area_control_keys, area_alt_keys};
ghost use Rattle.text_area.specs.AreaKeys.{area_control_shift_keys};
ghost use Rattle.text_area.specs.AreaKeys.{area_edit_among, move_of, far_move_of, typing_edit};
ghost use Rattle.text_area.specs.AreaKeys.{far_deletion, table_edit, area_key_edit, area_edit_of};
ghost use Rattle.text_area.specs.AreaKeys.{area_edited, area_edited_if, is_move, is_move_if};
ghost use Rattle.text_area.specs.declared.keys.AreaEdit.TheVariants.{Go, Select};

use crate::area::TextArea;
use crate::extent::Extent;
use crate::moves::Move;
use ratatui_events::{Event, KeyCode, KeyEvent, KeyEventKind};
use std::alloc::AllocError;

/// An `AreaEdit` says what is done to a text area.
#[derive(Debug, Clone, Copy, PartialEq, Eq, Hash)]
pub enum AreaEdit {
    /// A character is typed in place of what is selected; a line feed begins a new line.
    Insert(char),
    /// What was killed last is typed in place of what is selected.
    Yank,
    /// The cursor moves, and nothing is selected.
    Go(Move),
    /// The cursor moves, and what is between it and where it was is selected, too.
    Select(Move),
    /// What is selected goes, or what stands between the cursor and where a move leads.
    Delete(Move),
    /// The same, and it is kept for `Yank`.
    Kill(Move),
    /// What is selected goes, and is kept for `Yank`.
    Cut,
    /// What is selected is kept for `Yank`.
    Copy,
    /// The last change is undone.
    Undo,
    /// What was undone last is done again.
    Redo,
}

// What a character does beside Control.
static CONTROL_KEYS: [(char, AreaEdit); 19] = [
    ('a', AreaEdit::Go(Move::Left(Extent::Line))),
    ('b', AreaEdit::Go(Move::Left(Extent::Grapheme))),
    ('c', AreaEdit::Copy),
    ('d', AreaEdit::Delete(Move::Right(Extent::Grapheme))),
    ('e', AreaEdit::Go(Move::Right(Extent::Line))),
    ('f', AreaEdit::Go(Move::Right(Extent::Grapheme))),
    ('h', AreaEdit::Delete(Move::Left(Extent::Grapheme))),
    ('j', AreaEdit::Insert('\n')),
    ('k', AreaEdit::Kill(Move::Right(Extent::LineOrBreak))),
    ('m', AreaEdit::Insert('\n')),
    ('n', AreaEdit::Go(Move::Down)),
    ('p', AreaEdit::Go(Move::Up)),
    ('r', AreaEdit::Redo),
    ('u', AreaEdit::Kill(Move::Left(Extent::LineOrBreak))),
    ('v', AreaEdit::Go(Move::PageDown)),
    ('w', AreaEdit::Kill(Move::Left(Extent::Word))),
    ('x', AreaEdit::Cut),
    ('y', AreaEdit::Yank),
    ('z', AreaEdit::Undo),
];

// What a character does beside Alt.
static ALT_KEYS: [(char, AreaEdit); 7] = [
    ('<', AreaEdit::Go(Move::Left(Extent::Text))),
    ('>', AreaEdit::Go(Move::Right(Extent::Text))),
    ('b', AreaEdit::Go(Move::Left(Extent::Word))),
    ('d', AreaEdit::Kill(Move::Right(Extent::Word))),
    ('f', AreaEdit::Go(Move::Right(Extent::Word))),
    ('v', AreaEdit::Go(Move::PageUp)),
    ('w', AreaEdit::Copy),
];

// What a character does beside Control and Shift.
static CONTROL_SHIFT_KEYS: [(char, AreaEdit); 2] = [('Z', AreaEdit::Redo), ('z', AreaEdit::Redo)];

// The edit that a table has for a character.
fn edit_among(table: &[(char, AreaEdit)], c: char) -> Option<AreaEdit>
    ensures { result ≡ area_edit_among table.now c }
{
    for row in table {
        if row.0 == c {
            return Some(row.1);
        }
    }
    None
}

// The edit of a character beside Control.
fn control_edit(c: char) -> Option<AreaEdit>
    ensures { result ≡ area_edit_among area_control_keys c }
{
    edit_among(&CONTROL_KEYS, c)
}

// The edit of a character beside Alt.
fn alt_edit(c: char) -> Option<AreaEdit>
    ensures { result ≡ area_edit_among area_alt_keys c }
{
    edit_among(&ALT_KEYS, c)
}

// The edit of a character beside Control and Shift.
fn control_shift_edit(c: char) -> Option<AreaEdit>
    ensures { result ≡ area_edit_among area_control_shift_keys c }
{
    edit_among(&CONTROL_SHIFT_KEYS, c)
}

// The move of a key that is no character.
fn move_of(code: KeyCode) -> Option<Move>
    ensures { result ≡ move_of code }
{
    match code {
        KeyCode::Left => Some(Move::Left(Extent::Grapheme)),
        KeyCode::Right => Some(Move::Right(Extent::Grapheme)),
        KeyCode::Up => Some(Move::Up),
        KeyCode::Down => Some(Move::Down),
        KeyCode::Home => Some(Move::Left(Extent::Line)),
        KeyCode::End => Some(Move::Right(Extent::Line)),
        KeyCode::PageUp => Some(Move::PageUp),
        KeyCode::PageDown => Some(Move::PageDown),
        _ => None,
    }
}

// The move of a key beside which Control or Alt is held.
fn far_move_of(code: KeyCode) -> Option<Move>
    ensures { result ≡ far_move_of code }
{
    match code {
        KeyCode::Left => Some(Move::Left(Extent::Word)),
        KeyCode::Right => Some(Move::Right(Extent::Word)),
        KeyCode::Home => Some(Move::Left(Extent::Text)),
        KeyCode::End => Some(Move::Right(Extent::Text)),
        _ => None,
    }
}

// The edit of a key that types or deletes, beside which at most Shift is held.
fn typing_edit(code: KeyCode) -> Option<AreaEdit>
    ensures { result ≡ typing_edit code }
{
    match code {
        KeyCode::Char(c) => Some(AreaEdit::Insert(c)),
        KeyCode::Enter => Some(AreaEdit::Insert('\n')),
        KeyCode::Backspace => Some(AreaEdit::Delete(Move::Left(Extent::Grapheme))),
        KeyCode::Delete => Some(AreaEdit::Delete(Move::Right(Extent::Grapheme))),
        _ => None,
    }
}

// The edit of a key that deletes, beside which Control or Alt is held.
fn far_deletion(code: KeyCode) -> Option<AreaEdit>
    ensures { result ≡ far_deletion code }
{
    match code {
        KeyCode::Backspace => Some(AreaEdit::Kill(Move::Left(Extent::Word))),
        KeyCode::Delete => Some(AreaEdit::Kill(Move::Right(Extent::Word))),
        _ => None,
    }
}

// The edit of a key that types or deletes, beside which Control is held.
fn beside_control(code: KeyCode) -> Option<AreaEdit>
    ensures { result ≡ table_edit area_control_keys code }
{
    match code {
        KeyCode::Char(c) => control_edit(c),
        other => far_deletion(other),
    }
}

// The edit of a key that types or deletes, beside which Alt is held.
fn beside_alt(code: KeyCode) -> Option<AreaEdit>
    ensures { result ≡ table_edit area_alt_keys code }
{
    match code {
        KeyCode::Char(c) => alt_edit(c),
        other => far_deletion(other),
    }
}

// The edit of a key that types or deletes, beside which Control and Shift are held.
fn beside_both(code: KeyCode) -> Option<AreaEdit>
    ensures { result ≡ table_edit area_control_shift_keys code }
{
    match code {
        KeyCode::Char(c) => control_shift_edit(c),
        other => far_deletion(other),
    }
}

// The edit that moves the cursor.
fn go_edit(to: Option<Move>) -> Option<AreaEdit>
    ensures { result ≡ option_map Go to }
{
    match to {
        Some(to) => Some(AreaEdit::Go(to)),
        None => None,
    }
}

// The edit that moves the cursor and selects.
fn select_edit(to: Option<Move>) -> Option<AreaEdit>
    ensures { result ≡ option_map Select to }
{
    match to {
        Some(to) => Some(AreaEdit::Select(to)),
        None => None,
    }
}

// The edit of a key that goes down, by what is held beside it: nothing, Shift (1), Alt (2),
// Control (4), or one of these with Shift.
fn key_edit(key: KeyEvent) -> Option<AreaEdit>
    ensures { result ≡ area_key_edit key.modifiers key.code }
{
    let code = key.code;
    match key.modifiers.to_bits() {
        0 => typing_edit(code).or(go_edit(move_of(code))),
        1 => typing_edit(code).or(select_edit(move_of(code))),
        2 => beside_alt(code).or(go_edit(far_move_of(code))),
        3 => beside_alt(code).or(select_edit(far_move_of(code))),
        4 => beside_control(code).or(go_edit(far_move_of(code))),
        5 => beside_both(code).or(select_edit(far_move_of(code))),
        _ => None,
    }
}

/// Returns the edit that an event asks of a text area, or `None` if it asks none.
///
/// A character that is typed or pasted is inserted, and Enter begins a new line. Arrows, Home, End,
/// PageUp and PageDown move, Backspace and Delete delete a grapheme. With Control or Alt, Left and
/// Right go over words, Home and End over the whole text, and a deletion of a word is kept for
/// `AreaEdit::Yank`. With Shift a move selects. Control with A, B, D, E, F, H, J, K, M, N, P, U, W
/// and Y and Alt with B, D, F, < and > do what they do at a shell's prompt or in Emacs; Control with
/// C, X, Z and R copies, cuts, undoes and redoes, as Alt with W and Control with Shift and Z do;
/// Control with V and Alt with V go by a page. A key that is let go asks for nothing.
pub fn area_edit_of(event: &Event) -> Option<AreaEdit>
    ensures { result ≡ area_edit_of event.now }
{
    match *event {
        Event::Key(key) => match key.kind {
            KeyEventKind::Release => None,
            KeyEventKind::Press | KeyEventKind::Repeat => key_edit(key),
        },
        Event::Pasted(c) => Some(AreaEdit::Insert(c)),
        _ => None,
    }
}

impl TextArea {
    // Moves the cursor; nothing is selected.
    fn go_unselected(&mut self, to: Move)
        ensures { self.new ≡ gone to (unselected self.old) }
    {
        self.unselect();
        self.go(to);
    }

    // Moves the cursor and selects.
    fn go_selecting(&mut self, to: Move)
        ensures { self.new ≡ gone to (selection_begun self.old) }
    {
        self.select();
        self.go(to);
    }

    // Undoes the last change, if there is one.
    fn undo_if_any(&mut self) -> Result<(), AllocError>
        ensures ok { OnOk result (self.new ≡ undoing self.old) }
        ensures err { OnErr result (self.new ≡ self.old) }
    {
        self.undo()?;
        Ok(())
    }

    // Does again what was undone last, if anything was.
    fn redo_if_any(&mut self) -> Result<(), AllocError>
        ensures ok { OnOk result (self.new ≡ redoing self.old) }
        ensures err { OnErr result (self.new ≡ self.old) }
    {
        self.redo()?;
        Ok(())
    }

    /// Edits the area. Moves take no memory.
    ///
    /// # Errors
    ///
    /// `AllocError` if memory is refused. Then the area is as it was.
    pub fn apply(&mut self, edit: AreaEdit) -> Result<(), AllocError>
        ensures ok { OnOk result (self.new ≡ area_edited edit self.old) }
        ensures err { OnErr result (self.new ≡ self.old) }
        ensures light { is_move edit ≡ true → IsOk result }
    {
        match edit {
            AreaEdit::Insert(c) => self.insert(c),
            AreaEdit::Yank => self.yank(),
            AreaEdit::Go(to) => {
                self.go_unselected(to);
                Ok(())
            }
            AreaEdit::Select(to) => {
                self.go_selecting(to);
                Ok(())
            }
            AreaEdit::Delete(to) => self.delete(to),
            AreaEdit::Kill(to) => self.kill(to),
            AreaEdit::Cut => self.cut(),
            AreaEdit::Copy => self.copy(),
            AreaEdit::Undo => self.undo_if_any(),
            AreaEdit::Redo => self.redo_if_any(),
        }
    }

    /// Edits the area as an event asks, and answers whether it asks for an edit (`area_edit_of`
    /// says which). An event that asks for none leaves the area as it was.
    ///
    /// ```
    /// if !area.handle(&event)? {
    ///     // the event isn't for the area: perhaps Tab or Esc
    /// }
    /// ```
    ///
    /// # Errors
    ///
    /// `AllocError` if memory is refused. Then the area is as it was.
    pub fn handle(&mut self, event: &Event) -> Result<bool, AllocError>
        ensures ok { OnOk result (self.new ≡ area_edited_if (area_edit_of event.now) self.old) }
        ensures taken { IfOk result (λ taken. taken ≡ is_some (area_edit_of event.now)) }
        ensures err { OnErr result (self.new ≡ self.old) }
        ensures light { is_move_if (area_edit_of event.now) ≡ true → IsOk result }
    {
        match area_edit_of(event) {
            None => Ok(false),
            Some(edit) => {
                self.apply(edit)?;
                Ok(true)
            }
        }
    }
}
