//! A text with a cursor, of which the changes can be undone.

ghost use Rattle.std.specs.Prelude.{◌≡◌, ◌≤◌, ◌<◌, ◌+◌, [], ◌∷◌, length, drop, string_bytes, List};
ghost use Rattle.std.specs.Prelude.{OnOk, OnErr, IfOk, IsTrue, ◌↔◌};
ghost use Rattle.std.specs.Str.{IsCharBoundary};
ghost use Rattle.text_field.specs.History.{CursorText, cursor_text_at};
ghost use Rattle.text_area.specs.Drafts.{draft_text, part_replaced};
ghost use Rattle.text_area.specs.Journals.{StepData, IsStepOf, Undoes, JournalData, journal_of};
ghost use Rattle.text_area.specs.Journals.{step_for};
ghost use Rattle.text_area.specs.Journals.{changed, moved_cursor, forgetting, stepped_text};
ghost use Rattle.text_area.specs.Journals.{begins_line, goes_on};
ghost use Rattle.text_area.specs.Journals.{stepped_onto, undone, redone};

use crate::draft::Draft;
use crate::steps::{Step, Steps};
use std::alloc::{AllocError, Global};
use std::marker::Model;

// Changes a part of a text, and keeps how that is undone.
#[tactic(auto, using(crate::proofs::JournalLemmas::change_rules))]
fn record(
    draft: &mut Draft,
    past: &mut Steps,
    from: usize,
    to: usize,
    piece: &str,
) -> Result<(), AllocError>
    requires order { from ≤ to }
    requires start { IsCharBoundary (draft_text draft.old) from }
    requires end { IsCharBoundary (draft_text draft.old) to }
    ensures ok { OnOk result (draft.new ≡ part_replaced from to piece.now draft.old) }
    ensures past { OnOk result
        (past.new ≡ step_for from to (length piece.now) draft.old ∷ past.old) }
    ensures undoes { Undoes past.old (draft_text draft.old)
        → OnOk result (Undoes past.new (draft_text draft.new)) }
    ensures err { OnErr result (draft.new ≡ draft.old) }
    ensures stays { OnErr result (past.new ≡ past.old) }
{
    let cursor = draft.at();
    let alloc = draft.allocator();
    let was = String::from_str(alloc, &draft.text()[from..to])?;
    past.push(Step::new(from, from + piece.len(), was, cursor))?;
    if let Err(error) = draft.replace(from, to, piece) {
        past.pop();
        return Err(error);
    }
    Ok(())
}

// Whether a text begins with a line feed.
fn begins_line(text: &str) -> bool
    ensures { result ≡ begins_line text.now }
{
    match text.as_bytes().first() {
        Some(byte) => *byte == b'\n',
        None => false,
    }
}

// How a step will be undone.
#[tactic(auto, using(crate::proofs::JournalLemmas::step_rules))]
fn inverse(draft: &Draft, step: &Step) -> Result<Step, AllocError>
    requires { IsStepOf step.now (draft_text draft.now) }
    ensures ok { IfOk result (λ back. back
        ≡ step_for step.now.at step.now.to (length step.now.was) draft.now) }
    ensures undoes { (steps : List StepData) → Undoes steps (draft_text draft.now)
        → IfOk result (λ back. Undoes (back ∷ steps)
        (draft_text (stepped_text (step.now ∷ []) draft.now))) }
{
    let from = step.at();
    let text = draft.text();
    let was = String::from_str(draft.allocator(), &text[from..step.to()])?;
    Ok(Step::new(from, from + step.was().len(), was, draft.at()))
}

// Makes a step.
fn put_back(draft: &mut Draft, step: &Step) -> Result<(), AllocError>
    requires { IsStepOf step.now (draft_text draft.old) }
    ensures ok { OnOk result (draft.new ≡ stepped_text (step.now ∷ []) draft.old) }
    ensures err { OnErr result (draft.new ≡ draft.old) }
{
    draft.replace(step.at(), step.to(), step.was())?;
    draft.go(step.cursor());
    Ok(())
}

// Makes the first of some steps, and puts how that is undone before others. It answers whether
// there was one.
#[tactic(auto, using(crate::proofs::JournalLemmas::step_rules))]
fn take_step(draft: &mut Draft, from: &mut Steps, onto: &mut Steps) -> Result<bool, AllocError>
    requires { Undoes from.old (draft_text draft.old) }
    ensures text { OnOk result (draft.new ≡ stepped_text from.old draft.old) }
    ensures rest { OnOk result (from.new ≡ drop 1 from.old) }
    ensures onto { OnOk result (onto.new ≡ stepped_onto from.old draft.old onto.old) }
    ensures undoes { OnOk result (Undoes from.new (draft_text draft.new)) }
    ensures redoes { Undoes onto.old (draft_text draft.old)
        → OnOk result (Undoes onto.new (draft_text draft.new)) }
    ensures done { IfOk result (λ done. IsTrue done ↔ (0 < length from.old)) }
    ensures err { OnErr result (draft.new ≡ draft.old) }
    ensures stays { OnErr result (from.new ≡ from.old) }
    ensures stays_onto { OnErr result (onto.new ≡ onto.old) }
{
    let Some(step) = from.first() else {
        return Ok(false);
    };
    let back = inverse(draft, step)?;
    onto.push(back)?;
    if let Err(error) = put_back(draft, step) {
        onto.pop();
        return Err(error);
    }
    from.pop();
    Ok(true)
}

// A text with a cursor, how its changes are undone and done again, and how many of both are kept.
#[derive(Drop)]
pub(crate) struct Journal {
    draft: Draft,
    past: Steps,
    future: Steps,
    most: usize,
}

impl Model for Journal {
    ghost use Rattle.std.specs.Prelude.{◌≤◌, ◌+◌, length};
    ghost use Rattle.text_area.specs.Drafts.{draft_text};
    ghost use Rattle.text_area.specs.Journals.{JournalData, journal_of, Undoes};

    ghost Value = { JournalData };

    ghost view = { λ j. journal_of j.draft j.past j.future j.most };

    ghost invariant = { λ j. Undoes j.past (draft_text j.draft)
        × Undoes j.future (draft_text j.draft)
        × (length j.past + length j.future ≤ j.most) };
}

#[tactic(auto, using(crate::proofs::JournalLemmas::journal_rules))]
impl Journal {
    // A text with the cursor at its start.
    pub(crate) fn new(alloc: Global, text: String, most: usize) -> Journal
        ensures { result ≡ journal_of (cursor_text_at (string_bytes text) 0) [] [] most }
    {
        Journal {
            draft: Draft::new(text),
            past: Steps::new(alloc),
            future: Steps::new(alloc),
            most,
        }
    }

    pub(crate) fn draft(&self) -> &Draft
        ensures { result.now ≡ self.now.text }
    {
        &self.draft
    }

    // Whether anything can be undone.
    pub(crate) fn can_undo(&self) -> bool
        ensures { IsTrue result ↔ (0 < length self.now.past) }
    {
        !self.past.is_empty()
    }

    // Whether anything can be done again.
    pub(crate) fn can_redo(&self) -> bool
        ensures { IsTrue result ↔ (0 < length self.now.future) }
    {
        !self.future.is_empty()
    }

    // Puts the cursor at a byte of the text.
    pub(crate) fn go(&mut self, at: usize)
        requires { IsCharBoundary (draft_text self.old.text) at }
        ensures { self.new ≡ moved_cursor at self.old }
    {
        self.draft.go(at);
    }

    // Forgets how changes are undone, and keeps at most so many steps from now on.
    pub(crate) fn forget(&mut self, most: usize)
        ensures { self.new ≡ forgetting most self.old }
    {
        self.past.clear();
        self.future.clear();
        self.most = most;
    }

    // Whether a piece goes on with what was put last.
    fn goes_on(&self, from: usize, to: usize, piece: &str) -> bool
        ensures { result ≡ goes_on from to piece.now self.now.past self.now.future }
    {
        match self.past.first() {
            Some(last) => {
                self.future.is_empty() && last.is_before(from, to) && !begins_line(piece)
            }
            None => false,
        }
    }

    // Puts a piece in place of a part of the text, and the cursor after it.
    pub(crate) fn change(&mut self, from: usize, to: usize, piece: &str) -> Result<(), AllocError>
        requires order { from ≤ to }
        requires start { IsCharBoundary (draft_text self.old.text) from }
        requires end { IsCharBoundary (draft_text self.old.text) to }
        ensures ok { OnOk result (self.new ≡ changed from to piece.now self.old) }
        ensures err { OnErr result (self.new ≡ self.old) }
    {
        if from == to && piece.is_empty() {
            return Ok(());
        }
        if self.goes_on(from, to, piece) {
            self.draft.replace(from, to, piece)?;
            self.past.lengthen(self.draft.at());
            return Ok(());
        }
        record(&mut self.draft, &mut self.past, from, to, piece)?;
        self.past.keep_first(self.most);
        self.future.clear();
        Ok(())
    }

    // Undoes the last change; answers whether there was one.
    pub(crate) fn undo(&mut self) -> Result<bool, AllocError>
        ensures ok { OnOk result (self.new ≡ undone self.old) }
        ensures done { IfOk result (λ done. IsTrue done ↔ (0 < length self.old.past)) }
        ensures err { OnErr result (self.new ≡ self.old) }
    {
        take_step(&mut self.draft, &mut self.past, &mut self.future)
    }

    // Does again what was undone last; answers whether anything was.
    pub(crate) fn redo(&mut self) -> Result<bool, AllocError>
        ensures ok { OnOk result (self.new ≡ redone self.old) }
        ensures done { IfOk result (λ done. IsTrue done ↔ (0 < length self.old.future)) }
        ensures err { OnErr result (self.new ≡ self.old) }
    {
        take_step(&mut self.draft, &mut self.future, &mut self.past)
    }
}
