//! A text area: a text of lines, a cursor in it, and what is done to both.

ghost use Rattle.std.specs.Prelude.{◌≡◌, ◌≤◌, ◌<◌, ◌+◌, ◌↔◌, [], length, slice_range, string_bytes};
ghost use Rattle.std.specs.Prelude.{encode_utf8, IsTrue, IfOk, OnOk, OnErr, IfSome, IfNone, None};
ghost use Rattle.std.specs.Prelude.{is_some, true, is_none, not, ◌==◌};
ghost use Rattle.std.specs.Str.{IsCharBoundary};
ghost use Rattle.text_field.specs.Field.{kept_of};
ghost use Rattle.text_field.specs.History.{CursorText};
ghost use Rattle.text_area.specs.Lines.{feeds, nth_line, column_after, place_above, place_below};
ghost use Rattle.text_area.specs.Drafts.{draft_text};
ghost use Rattle.text_area.specs.Journals.{JournalData};
ghost use Rattle.text_area.specs.Finding.{part_selected};
ghost use Rattle.text_area.specs.Areas.{AreaData, area_of, area_text, area_before, area_after};
ghost use Rattle.text_area.specs.Areas.{area_cursor, new_area, loaded_area, aim_of, target};
ghost use Rattle.text_area.specs.Areas.{aim_after};
ghost use Rattle.text_area.specs.Areas.{gone, selection, selected, reached, put_over, typing_over};
ghost use Rattle.text_area.specs.Areas.{yanking, deleting, keeping_part, killing, selection_begun};
ghost use Rattle.text_area.specs.Areas.{selecting_all};
ghost use Rattle.text_area.specs.Areas.{unselected, undoing, redoing, keeping_steps, ends, gone_to};

use crate::draft::Draft;
use crate::extent::{left_of, right_of};
use crate::journal::Journal;
use crate::lines::place_in_line;
use crate::moves::Move;
use crate::typed::{is_written_whole, loaded, written_part};
use std::alloc::{AllocError, Global};
use std::marker::Model;

// Two places in their order.
fn ends(a: usize, b: usize) -> (usize, usize)
    ensures value { result ≡ ends a b }
    ensures order { result.0 ≤ result.1 }
{
    (a.min(b), a.max(b))
}

/// A `TextArea` is a text of several lines with a cursor in it.
///
/// The cursor stands between two parts of the text, and each part is read as graphemes by itself:
/// so no edit leaves the cursor inside a grapheme of a part. Moves take no memory. Each change can
/// be undone, and done again.
///
/// ```
/// let mut area = TextArea::new(alloc);
/// area.insert_str("one two\nthree")?;
/// area.go(Move::Up);
/// area.before(); // "one t"
/// area.kill(Move::Right(Extent::Line))?;
/// area.text(); // "one t\nthree"
/// area.undo()?;
/// area.text(); // "one two\nthree"
/// ```
#[derive(Drop)]
pub struct TextArea {
    journal: Journal,
    anchor: Option<usize>,
    aim: Option<usize>,
    killed: String,
    page: usize,
}

impl Model for TextArea {
    ghost use Rattle.std.specs.Prelude.{string_bytes, IfSome};
    ghost use Rattle.std.specs.Str.{IsCharBoundary};
    ghost use Rattle.text_area.specs.Drafts.{draft_text};
    ghost use Rattle.text_area.specs.Areas.{AreaData, area_of};

    ghost Value = { AreaData };

    ghost view = { λ a. area_of a.journal a.anchor a.aim (string_bytes a.killed) a.page };

    ghost invariant = { λ a.
        IfSome a.anchor (λ at. IsCharBoundary (draft_text a.journal.text) at) };
}

#[tactic(auto, using(crate::proofs::AreaLemmas::area_rules))]
impl TextArea {
    /// Makes an area without a text. It takes no memory. At most 1000 changes can be undone, and a
    /// page has one line.
    pub fn new(alloc: Global) -> TextArea
        ensures { result ≡ new_area }
    {
        TextArea {
            journal: Journal::new(alloc, String::new(alloc), 1000),
            anchor: None,
            aim: None,
            killed: String::new(alloc),
            page: 1,
        }
    }

    /// Makes an area of a text, with the cursor at its start. Each carriage return becomes a line
    /// feed, together with the line feed right after it; a text without one is taken as it is, and
    /// not copied. All other characters stay.
    ///
    /// # Errors
    ///
    /// `AllocError` if memory is refused.
    pub fn from_text(alloc: Global, text: String) -> Result<TextArea, AllocError>
        ensures { IfOk result (λ area. area ≡ loaded_area (string_bytes text)) }
    {
        let whole = loaded(alloc, text)?;
        Ok(TextArea {
            journal: Journal::new(alloc, whole, 1000),
            anchor: None,
            aim: None,
            killed: String::new(alloc),
            page: 1,
        })
    }

    /// Returns the whole text, with a line feed between each two lines.
    pub fn text(&self) -> &str
        ensures { result.now ≡ area_text self.now }
    {
        self.draft().text()
    }

    /// Returns the text before the cursor.
    pub fn before(&self) -> &str
        ensures { result.now ≡ area_before self.now }
    {
        self.draft().before()
    }

    /// Returns the text after the cursor.
    pub fn after(&self) -> &str
        ensures { result.now ≡ area_after self.now }
    {
        self.draft().after()
    }

    /// Returns what was killed last: what `yank` types. At first it is empty.
    pub fn killed(&self) -> &str
        ensures { result.now ≡ self.now.killed }
    {
        self.killed.as_str()
    }

    /// Returns whether there is no text.
    pub fn is_empty(&self) -> bool
        ensures { IsTrue result ↔ (area_text self.now ≡ []) }
    {
        self.text().is_empty()
    }

    /// Returns how many lines there are: one more than line feeds. It reads nothing of the text.
    pub fn line_count(&self) -> usize
        ensures { result ≡ feeds (area_text self.now) + 1 }
    {
        self.draft().line_count()
    }

    /// Returns a line without its line feed, or `None` if no line has this number. The first one
    /// has the number 0. It reads the lines from there to the nearest of the cursor, the text's
    /// start and its end.
    pub fn line(&self, number: usize) -> Option<&str>
        ensures some { IfSome result (λ line. line.now ≡ nth_line number (area_text self.now)) }
        ensures within { is_some result ≡ true → number ≤ feeds (area_text self.now) }
        ensures none { IfNone result (feeds (area_text self.now) < number) }
    {
        match self.line_start(number) {
            None => None,
            Some(start) => Some(self.line_from(start)),
        }
    }

    /// Returns the number of the line in which the cursor stands, and how many graphemes stand
    /// before it there. It reads nothing of the text if that line is plain, and else the line before
    /// the cursor.
    pub fn cursor(&self) -> (usize, usize)
        ensures line { result.0 ≡ feeds (area_before self.now) }
        ensures column { result.1 ≡ column_after (area_before self.now) }
    {
        (self.cursor_row(), self.draft().column())
    }

    /// Returns the number of the line in which the cursor stands. It reads nothing of the text.
    pub fn cursor_row(&self) -> usize
        ensures { result ≡ feeds (area_before self.now) }
    {
        self.draft().row()
    }

    // The text with its cursor.
    pub(crate) fn draft(&self) -> &Draft
        ensures { result.now ≡ self.now.journal.text }
    {
        self.journal.draft()
    }

    /// Returns the byte of the text at which the cursor stands.
    pub fn cursor_byte(&self) -> usize
        ensures value { result ≡ area_cursor self.now }
        ensures boundary { IsCharBoundary (area_text self.now) result }
    {
        self.draft().at()
    }

    // The column that the cursor aims at.
    fn aimed(&self) -> usize
        ensures { result ≡ aim_of self.now }
    {
        match self.aim {
            Some(aim) => aim,
            None => self.draft().column(),
        }
    }

    // The place so many lines above the cursor.
    fn above(&self, lines: usize) -> usize
        ensures value { result
            ≡ place_above lines (aim_of self.now) (area_before self.now) (area_text self.now) }
        ensures boundary { IsCharBoundary (area_text self.now) result }
    {
        self.draft().above(lines, self.aimed())
    }

    // The place so many lines below the cursor.
    fn below(&self, lines: usize) -> usize
        ensures value { result
            ≡ place_below lines (aim_of self.now) (area_before self.now) (area_text self.now) }
        ensures boundary { IsCharBoundary (area_text self.now) result }
    {
        self.draft().below(lines, self.aimed())
    }

    // Where a move leads to.
    fn target(&self, to: Move) -> usize
        ensures value { result ≡ target to self.now }
        ensures boundary { IsCharBoundary (area_text self.now) result }
    {
        match to {
            Move::Left(extent) => left_of(self.text(), self.cursor_byte(), extent),
            Move::Right(extent) => right_of(self.text(), self.cursor_byte(), extent),
            Move::Up => self.above(1),
            Move::Down => self.below(1),
            Move::PageUp => self.above(self.page),
            Move::PageDown => self.below(self.page),
        }
    }

    // The column that the cursor aims at after a move.
    fn aim_after(&self, to: Move) -> Option<usize>
        ensures { result ≡ aim_after to self.now }
    {
        match to {
            Move::Left(_) | Move::Right(_) => None,
            _ => Some(self.aimed()),
        }
    }

    /// Moves the cursor. What is selected goes on from where the selection began.
    pub fn go(&mut self, to: Move)
        ensures { self.new ≡ gone to self.old }
    {
        let aim = self.aim_after(to);
        let at = self.target(to);
        self.journal.go(at);
        self.aim = aim;
    }

    /// Sets how many lines a page has.
    pub fn set_page(&mut self, lines: usize)
        ensures { self.new ≡ record self.old { page = lines } }
    {
        self.page = lines;
    }

    /// Keeps at most so many changes from now on that can be undone; those that were kept are
    /// forgotten.
    pub fn set_steps(&mut self, most: usize)
        ensures { self.new ≡ keeping_steps most self.old }
    {
        self.journal.forget(most);
    }

    /// Returns between which bytes of the text is selected. Without a selection both are the
    /// cursor's.
    pub fn selection(&self) -> (usize, usize)
        ensures value { result ≡ selection self.now }
        ensures order { result.0 ≤ result.1 }
        ensures start { IsCharBoundary (area_text self.now) result.0 }
        ensures end { IsCharBoundary (area_text self.now) result.1 }
    {
        let at = self.cursor_byte();
        ends(self.anchor.unwrap_or(at), at)
    }

    // What a deletion by a move is about.
    fn reached(&self, to: Move) -> (usize, usize)
        ensures value { result ≡ reached to self.now }
        ensures order { result.0 ≤ result.1 }
        ensures start { IsCharBoundary (area_text self.now) result.0 }
        ensures end { IsCharBoundary (area_text self.now) result.1 }
    {
        let part = self.selection();
        if part.0 != part.1 {
            return part;
        }
        ends(self.cursor_byte(), self.target(to))
    }

    /// Returns what is selected: nothing if there is no selection.
    pub fn selected(&self) -> &str
        ensures { result.now ≡ selected self.now }
    {
        let part = self.selection();
        &self.text()[part.0..part.1]
    }

    /// Begins a selection at the cursor, unless there is one. It goes to where the cursor goes.
    pub fn select(&mut self)
        ensures { self.new ≡ selection_begun self.old }
    {
        let at = self.cursor_byte();
        self.anchor = Some(self.anchor.unwrap_or(at));
    }

    /// Selects all, with the cursor at the end.
    pub fn select_all(&mut self)
        ensures { self.new ≡ selecting_all self.old }
    {
        let end = self.text().len();
        self.journal.go(end);
        self.anchor = Some(0);
        self.aim = None;
    }

    /// Selects a part of the text between two bytes of it, with the cursor at its end. No character
    /// may be cut there: what `find_next` answers can be selected.
    pub fn select_part(&mut self, from: usize, to: usize)
        requires start { IsCharBoundary (area_text self.old) from }
        requires end { IsCharBoundary (area_text self.old) to }
        ensures { self.new ≡ part_selected from to self.old }
    {
        self.journal.go(to);
        self.anchor = Some(from);
        self.aim = None;
    }

    /// Moves the cursor to the line of a number, the first one being 0, or to the last line if no
    /// line has it; there it stands after so many graphemes, or at the line's end if there are
    /// fewer. What is selected goes on from where the selection began. It reads the lines from there
    /// to the nearest of where the cursor was, the text's start and its end.
    pub fn go_to(&mut self, line: usize, column: usize)
        ensures { self.new ≡ gone_to line column self.old }
    {
        let draft = self.draft();
        let start = draft.start_of(line.min(draft.last()));
        let at = place_in_line(draft.text(), start, column);
        self.journal.go(at);
        self.aim = None;
    }

    /// Ends the selection; the cursor stays.
    pub fn unselect(&mut self)
        ensures { self.new ≡ unselected self.old }
    {
        self.anchor = None;
    }

    // Puts a piece in place of a part of the text.
    fn change(&mut self, part: (usize, usize), piece: &str) -> Result<(), AllocError>
        requires order { part.0 ≤ part.1 }
        requires start { IsCharBoundary (area_text self.old) part.0 }
        requires end { IsCharBoundary (area_text self.old) part.1 }
        ensures ok { OnOk result (self.new ≡ put_over part piece.now self.old) }
        ensures err { OnErr result (self.new ≡ self.old) }
    {
        self.journal.change(part.0, part.1, piece)?;
        self.anchor = None;
        self.aim = None;
        Ok(())
    }

    fn allocator(&self) -> Global {
        self.draft().allocator()
    }

    /// Types a text before the cursor, or pastes it, in place of what is selected: its characters,
    /// with a line feed for each line break, but no control characters other than tabs. What stands
    /// after the cursor is moved once.
    ///
    /// # Errors
    ///
    /// `AllocError` if memory is refused. Then the area is as it was, so a paste is typed whole or
    /// not at all.
    pub fn insert_str(&mut self, text: &str) -> Result<(), AllocError>
        ensures ok { OnOk result (self.new ≡ typing_over text.now self.old) }
        ensures err { OnErr result (self.new ≡ self.old) }
    {
        let part = self.selection();
        if is_written_whole(text) {
            return self.change(part, text);
        }
        let piece = written_part(self.allocator(), text)?;
        self.change(part, piece.as_str())
    }

    /// Types a character before the cursor, in place of what is selected: a line feed begins a new
    /// line, and so does a carriage return; no other control character is typed but a tab.
    ///
    /// # Errors
    ///
    /// `AllocError` if memory is refused. Then the area is as it was.
    pub fn insert(&mut self, character: char) -> Result<(), AllocError>
        ensures ok { OnOk result (self.new ≡ typing_over (encode_utf8 character) self.old) }
        ensures err { OnErr result (self.new ≡ self.old) }
    {
        let mut bytes = [0; 4];
        self.insert_str(character.encode_utf8(&mut bytes))
    }

    /// Types what was killed last before the cursor, in place of what is selected.
    ///
    /// # Errors
    ///
    /// `AllocError` if memory is refused. Then the area is as it was.
    pub fn yank(&mut self) -> Result<(), AllocError>
        ensures ok { OnOk result (self.new ≡ yanking self.old) }
        ensures err { OnErr result (self.new ≡ self.old) }
    {
        let part = self.selection();
        let piece = String::from_str(self.allocator(), self.killed.as_str())?;
        self.change(part, piece.as_str())
    }

    /// Deletes what is selected, or what stands between the cursor and where a move leads.
    ///
    /// # Errors
    ///
    /// `AllocError` if memory is refused. Then the area is as it was.
    pub fn delete(&mut self, to: Move) -> Result<(), AllocError>
        ensures ok { OnOk result (self.new ≡ deleting (reached to self.old) self.old) }
        ensures err { OnErr result (self.new ≡ self.old) }
    {
        let part = self.reached(to);
        self.change(part, "")
    }

    // A copy of a part of the text.
    fn copied(&self, part: (usize, usize)) -> Result<String, AllocError>
        requires order { part.0 ≤ part.1 }
        requires start { IsCharBoundary (area_text self.now) part.0 }
        requires end { IsCharBoundary (area_text self.now) part.1 }
        ensures { IfOk result (λ copy.
            string_bytes copy ≡ slice_range (area_text self.now) part.0 part.1) }
    {
        String::from_str(self.allocator(), &self.text()[part.0..part.1])
    }

    // Keeps a part for yanking; nothing is no part.
    fn hold(&mut self, part: String)
        ensures { self.new
            ≡ record self.old { killed = kept_of (string_bytes part) self.old.killed } }
    {
        if !part.is_empty() {
            self.killed = part;
        }
    }

    // Deletes a part, and keeps it for yanking.
    fn kill_part(&mut self, part: (usize, usize)) -> Result<(), AllocError>
        requires order { part.0 ≤ part.1 }
        requires start { IsCharBoundary (area_text self.old) part.0 }
        requires end { IsCharBoundary (area_text self.old) part.1 }
        ensures ok { OnOk result (self.new ≡ killing part self.old) }
        ensures err { OnErr result (self.new ≡ self.old) }
    {
        let held = self.copied(part)?;
        self.change(part, "")?;
        self.hold(held);
        Ok(())
    }

    /// Deletes what is selected, or what stands between the cursor and where a move leads, and
    /// keeps it for `yank` if it is anything.
    ///
    /// # Errors
    ///
    /// `AllocError` if memory is refused. Then the area is as it was.
    pub fn kill(&mut self, to: Move) -> Result<(), AllocError>
        ensures ok { OnOk result (self.new ≡ killing (reached to self.old) self.old) }
        ensures err { OnErr result (self.new ≡ self.old) }
    {
        let part = self.reached(to);
        self.kill_part(part)
    }

    /// Deletes what is selected, and keeps it for `yank` if it is anything.
    ///
    /// # Errors
    ///
    /// `AllocError` if memory is refused. Then the area is as it was.
    pub fn cut(&mut self) -> Result<(), AllocError>
        ensures ok { OnOk result (self.new ≡ killing (selection self.old) self.old) }
        ensures err { OnErr result (self.new ≡ self.old) }
    {
        let part = self.selection();
        self.kill_part(part)
    }

    /// Keeps what is selected for `yank` if it is anything. It stays selected.
    ///
    /// # Errors
    ///
    /// `AllocError` if memory is refused. Then the area is as it was.
    pub fn copy(&mut self) -> Result<(), AllocError>
        ensures ok { OnOk result (self.new ≡ keeping_part (selection self.old) self.old) }
        ensures err { OnErr result (self.new ≡ self.old) }
    {
        let part = self.selection();
        let held = self.copied(part)?;
        self.hold(held);
        Ok(())
    }

    /// Returns whether there is anything to undo.
    pub fn can_undo(&self) -> bool
        ensures { IsTrue result ↔ (0 < length self.now.journal.past) }
    {
        self.journal.can_undo()
    }

    /// Returns whether there is anything to redo.
    pub fn can_redo(&self) -> bool
        ensures { IsTrue result ↔ (0 < length self.now.journal.future) }
    {
        self.journal.can_redo()
    }

    /// Undoes the last change, and all that went on with it, as the next letters of a line do: the
    /// text and the cursor are what they were before it, and nothing is selected. It answers whether
    /// there was one.
    ///
    /// # Errors
    ///
    /// `AllocError` if memory is refused. Then the area is as it was.
    pub fn undo(&mut self) -> Result<bool, AllocError>
        ensures ok { OnOk result (self.new ≡ undoing self.old) }
        ensures done { IfOk result (λ done. IsTrue done ↔ (0 < length self.old.journal.past)) }
        ensures err { OnErr result (self.new ≡ self.old) }
    {
        let done = self.journal.undo()?;
        self.anchor = None;
        self.aim = None;
        Ok(done)
    }

    /// Does again what was undone last: the text and the cursor are what they were before that, and
    /// nothing is selected. It answers whether there was anything. A change leaves nothing to redo.
    ///
    /// # Errors
    ///
    /// `AllocError` if memory is refused. Then the area is as it was.
    pub fn redo(&mut self) -> Result<bool, AllocError>
        ensures ok { OnOk result (self.new ≡ redoing self.old) }
        ensures done { IfOk result (λ done. IsTrue done ↔ (0 < length self.old.journal.future)) }
        ensures err { OnErr result (self.new ≡ self.old) }
    {
        let done = self.journal.redo()?;
        self.anchor = None;
        self.aim = None;
        Ok(done)
    }
}
