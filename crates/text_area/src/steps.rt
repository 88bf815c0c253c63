//! How changes are undone.

ghost use Rattle.std.specs.Prelude.{◌≡◌, ◌≤◌, ◌+◌, [], ◌∷◌, length, take, drop, OnOk, OnErr, IfOk};
ghost use Rattle.std.specs.Prelude.{IfSome, IfNone, string_bytes, IsTrue, ◌↔◌};
ghost use Rattle.text_area.specs.Journals.{StepData, undo_step, is_after, longer};

use std::alloc::{AllocError, Global};
use std::marker::Model;

// How a change is undone: the part between two bytes gives way to what stood there, and the cursor
// goes to where it was.
#[derive(Drop)]
pub(crate) struct Step {
    at: usize,
    to: usize,
    was: String,
    cursor: usize,
}

impl Model for Step {
    ghost use Rattle.std.specs.Prelude.{string_bytes};
    ghost use Rattle.text_area.specs.Journals.{StepData, undo_step};

    ghost Value = { StepData };

    ghost view = { λ step. undo_step step.at step.to (string_bytes step.was) step.cursor };
}

impl Step {
    pub(crate) fn new(at: usize, to: usize, was: String, cursor: usize) -> Step
        ensures { result ≡ undo_step at to (string_bytes was) cursor }
    {
        Step {
            at,
            to,
            was,
            cursor,
        }
    }

    pub(crate) fn at(&self) -> usize
        ensures { result ≡ self.now.at }
    {
        self.at
    }

    pub(crate) fn to(&self) -> usize
        ensures { result ≡ self.now.to }
    {
        self.to
    }

    pub(crate) fn was(&self) -> &str
        ensures { result.now ≡ self.now.was }
    {
        self.was.as_str()
    }

    pub(crate) fn cursor(&self) -> usize
        ensures { result ≡ self.now.cursor }
    {
        self.cursor
    }

    // Whether these two places are the end of what the change has put, if it has put anything.
    pub(crate) fn is_before(&self, from: usize, to: usize) -> bool
        ensures { result ≡ is_after from to self.now }
    {
        from == to && self.to == from && self.at < from
    }
}

// Steps, the last one first.
#[derive(Drop)]
pub(crate) struct Steps {
    items: Vec<Step>,
}

impl Model for Steps {
    ghost use Rattle.std.specs.Prelude.{List, reverse};
    ghost use Rattle.text_area.specs.Journals.{StepData};

    ghost Value = { List StepData };

    ghost view = { λ steps. reverse steps.items.items };
}

#[tactic(auto, using(crate::proofs::StepLemmas::stack_rules))]
impl Steps {
    pub(crate) fn new(alloc: Global) -> Steps
        ensures { result ≡ [] }
    {
        Steps {
            items: Vec::new(alloc),
        }
    }

    pub(crate) fn is_empty(&self) -> bool
        ensures { IsTrue result ↔ (self.now ≡ []) }
    {
        self.items.is_empty()
    }

    // The first one.
    pub(crate) fn first(&self) -> Option<&Step>
        ensures some { IfSome result (λ step. self.now ≡ step.now ∷ drop 1 self.now) }
        ensures none { IfNone result (self.now ≡ []) }
    {
        self.items.last()
    }

    // Puts one before all others.
    pub(crate) fn push(&mut self, step: Step) -> Result<(), AllocError>
        ensures ok { OnOk result (self.new ≡ step ∷ self.old) }
        ensures err { OnErr result (self.new ≡ self.old) }
    {
        self.items.push(step)?;
        Ok(())
    }

    // Takes the first one away.
    pub(crate) fn pop(&mut self)
        ensures { self.new ≡ drop 1 self.old }
    {
        let _ = self.items.pop();
    }

    // Lets the first one undo all up to a place.
    pub(crate) fn lengthen(&mut self, to: usize)
        ensures { self.new ≡ longer to self.old }
    {
        if let Some(last) = self.items.len().checked_sub(1) {
            self.items[last].to = to;
        }
    }

    // Takes all away.
    pub(crate) fn clear(&mut self)
        ensures { self.new ≡ [] }
    {
        self.items.clear();
    }

    // Takes the last one away if there is one more than so many.
    pub(crate) fn keep_first(&mut self, most: usize)
        requires { length self.old ≤ most + 1 }
        ensures { self.new ≡ take most self.old }
    {
        if self.items.len() > most {
            self.items.remove(0);
        }
    }
}
