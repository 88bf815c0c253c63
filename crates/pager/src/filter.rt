//! Lines that are shown, and others that are hidden.

ghost use Rattle.std.specs.Prelude.{◌≡◌, None, [], length, OnOk, OnErr};
ghost use Rattle.pager.specs.Search.{matching};
ghost use Rattle.pager.specs.Moves.{all_lines, relined, with_lines};

use crate::document::{Document, Numbers};
use crate::pager::{MARKS, Pager};
use crate::sought::Sought;
use std::alloc::AllocError;
use std::mem;

impl<'a> Pager<'a> {
    // All lines, also while some of them are hidden.
    fn all_lines(&self) -> &Document<'a>
        ensures { result.now ≡ all_lines self.now }
    {
        match &self.whole {
            Some(whole) => whole,
            None => &self.document,
        }
    }

    // Shows the page of the first line, without marks.
    fn begin_again(&mut self)
        ensures { self.new ≡ relined self.old.whole self.old.numbers self.old.document self.old }
    {
        self.left = 0;
        self.found = None;
        self.marks = [None; MARKS];
        self.go_to(0);
    }

    // Shows only these lines, of these numbers.
    fn pick(&mut self, numbers: Numbers, lines: Document<'a>)
        ensures { self.new ≡ relined (Some (all_lines self.old)) numbers lines.entry self.old }
    {
        let shown = mem::replace(&mut self.document, lines);
        if self.whole.is_none() {
            self.whole = Some(shown);
        }
        self.numbers = numbers;
        self.begin_again();
    }

    // Shows all lines.
    pub(crate) fn show_all(&mut self)
        ensures { self.new ≡ relined None [] (all_lines self.old) self.old }
    {
        if let Some(whole) = self.whole.take() {
            let _ = mem::replace(&mut self.document, whole);
        }
        self.numbers = Numbers::new(self.document.allocator());
        self.begin_again();
    }

    // Shows only the lines that have this.
    pub(crate) fn filter(&mut self, sought: &Sought) -> Result<(), AllocError>
        ensures ok { let lines = all_lines self.old in OnOk result
            (self.new ≡ with_lines (matching sought.now lines (length lines)) self.old) }
        ensures err { OnErr result (self.new ≡ self.old) }
    {
        let numbers = self.all_lines().matching(sought)?;
        let lines = self.all_lines().picked(&numbers)?;
        self.pick(numbers, lines);
        Ok(())
    }
}
