//! Lines that are marked by letters, and jumps.

ghost use Rattle.std.specs.Prelude.{◌≡◌, ◌<◌, IfSome};
ghost use Rattle.pager.specs.Moves.{with_mark, jumped_to, letter_marked, marked_line, gone_back, follow_begun};

use crate::pager::{MARKS, Mode, Pager};

/// The mark of the apostrophe: where the last jump began.
const LAST_JUMP: usize = 0;

impl<'a> Pager<'a> {
    // Keeps the first line of the page as a mark.
    fn keep(&mut self, mark: usize)
        requires { mark < 53 }
        ensures { self.new ≡ with_mark mark self.old }
    {
        self.marks[mark] = Some(self.top);
    }

    // Goes to the page that begins at a line, or to the last one, and marks where that began.
    pub(crate) fn jump_to(&mut self, line: u64)
        ensures { self.new ≡ jumped_to line self.old }
    {
        self.keep(LAST_JUMP);
        self.go_to(line);
    }

    // Follows the text, unless lines of it are hidden, and marks where that began.
    pub(crate) fn follow(&mut self)
        ensures { self.new ≡ follow_begun self.old }
    {
        if self.whole.is_none() {
            let mark = LAST_JUMP;
            self.keep(mark);
            self.mode = Mode::Following;
        }
    }

    // Marks the first line of the page, if a mark is named.
    pub(crate) fn set_mark(&mut self, mark: Option<usize>)
        requires { IfSome mark (λ mark. mark < 53) }
        ensures { self.new ≡ letter_marked mark self.old }
    {
        if let Some(mark) = mark {
            self.keep(mark);
        }
        self.mode = Mode::Reading;
    }

    // The line that a mark keeps.
    pub(crate) fn marked_line(&self, mark: Option<usize>) -> Option<u32>
        ensures { result ≡ marked_line mark self.now }
    {
        *self.marks.get(mark?)?
    }

    // Goes to a line that was marked, if one was.
    pub(crate) fn return_to(&mut self, line: Option<u32>)
        ensures { self.new ≡ gone_back line self.old }
    {
        if let Some(line) = line {
            self.jump_to(u64::from(line));
            self.found = None;
        }
        self.mode = Mode::Reading;
    }
}
