//! Lines that have what is sought.

ghost use Rattle.std.specs.Prelude.{◌≡◌, ◌<◌, false, length, IfOk, OnOk, OnErr};
ghost use Rattle.pager.specs.declared.sought.Sought.TheVariants.{Plain};
ghost use Rattle.pager.specs.Search.{has_capital, occurs, has_match, numbered_line, next_match, last_match};
ghost use Rattle.pager.specs.Moves.{found_at, after_found, before_found, sought_on, first_match, sought_first};

use crate::finder::Finder;
use crate::pager::{Note, Pager};
use crate::sought::Sought;
use crate::symbols::{begins_in_any_case, has_capital};
use std::alloc::AllocError;

// Whether a text without a capital stands somewhere in a line, whose capitals count as small
// letters.
fn occurs_in_any_case(pattern: &[u8], line: &[u8]) -> bool
    requires some { 0 < length pattern.now }
    requires small { has_capital pattern.now ≡ false }
    ensures { result ≡ occurs pattern.now line.now }
{
    for at in 0..line.len() {
        if begins_in_any_case(pattern, &line[at..]) {
            return true;
        }
    }
    false
}

// Whether a text stands somewhere in a line; a capital counts as a small letter, unless one is
// sought.
fn occurs(pattern: &str, line: &str) -> bool
    requires { 0 < length pattern.now }
    ensures { result ≡ occurs pattern.now line.now }
{
    if has_capital(pattern) {
        line.contains(pattern)
    } else {
        occurs_in_any_case(pattern.as_bytes(), line.as_bytes())
    }
}

// Whether a line has a text in it, if that is some.
pub(crate) fn has_text(text: &str, line: &str) -> bool
    ensures { result ≡ has_match (Plain text.now) line.now }
{
    !text.is_empty() && occurs(text, line)
}

impl<'a> Pager<'a> {
    // Whether a line has what is sought.
    fn has_match(&self, finder: &mut Finder<'_>, line: u32) -> bool
        ensures found { result ≡ has_match finder.old (numbered_line self.now.document line) }
        ensures same { finder.new ≡ finder.old }
    {
        finder.has_match(self.document.line_or_empty(u64::from(line)))
    }

    // The first line from one on that has what is sought.
    pub(crate) fn next_match(&self, sought: &Sought, from: u64) -> Result<Option<u32>, AllocError>
        ensures { IfOk result (λ found. found ≡ next_match sought.now self.now.document from) }
    {
        let mut finder = sought.finder(self.document.allocator())?;
        for line in from..u64::from(self.document.len()) {
            if self.has_match(&mut finder, line as u32) {
                return Ok(Some(line as u32));
            }
        }
        Ok(None)
    }

    // The last line before one that has what is sought.
    pub(crate) fn last_match(&self, sought: &Sought, before: u32) -> Result<Option<u32>, AllocError>
        ensures { IfOk result (λ found. found ≡ last_match sought.now self.now.document before) }
    {
        let mut finder = sought.finder(self.document.allocator())?;
        let mut line = before;
        while line > 0 {
            line -= 1;
            if self.has_match(&mut finder, line) {
                return Ok(Some(line));
            }
        }
        Ok(None)
    }

    // Goes to a line that was found, or keeps in mind that none was.
    fn go_to_found(&mut self, found: Option<u32>)
        ensures { self.new ≡ found_at found self.old }
    {
        match found {
            Some(line) => {
                self.jump_to(u64::from(line));
                self.found = Some(line);
                self.note = Note::Range;
            }
            None => self.note = Note::Missing,
        }
    }

    // The line after the one that was found last, or after the first one of the page.
    pub(crate) fn after_found(&self) -> u64
        ensures { result ≡ after_found self.now.found self.now.top }
    {
        match self.found {
            Some(line) => u64::from(line) + 1,
            None => u64::from(self.top) + 1,
        }
    }

    // The line that was found last, or the first one of the page.
    pub(crate) fn before_found(&self) -> u32
        ensures { result ≡ before_found self.now.found self.now.top }
    {
        match self.found {
            Some(line) => line,
            None => self.top,
        }
    }

    // Goes on with the search in a direction.
    pub(crate) fn seek_on(&mut self, is_back: bool) -> Result<(), AllocError>
        ensures ok { OnOk result (self.new ≡ sought_on is_back self.old) }
        ensures err { OnErr result (self.new ≡ self.old) }
    {
        let found = if is_back {
            self.last_match(&self.sought, self.before_found())?
        } else {
            self.next_match(&self.sought, self.after_found())?
        };
        self.go_to_found(found);
        Ok(())
    }

    // The line where a search finds this that begins.
    fn first_match(&self, sought: &Sought) -> Result<Option<u32>, AllocError>
        ensures { IfOk result (λ found. found ≡ first_match sought.now self.now) }
    {
        if self.is_back {
            self.last_match(sought, self.top)
        } else {
            self.next_match(sought, u64::from(self.top))
        }
    }

    // Begins the search of what was sought last.
    pub(crate) fn search_again(&mut self) -> Result<(), AllocError>
        ensures ok { OnOk result (self.new ≡ sought_first self.old) }
        ensures err { OnErr result (self.new ≡ self.old) }
    {
        let found = self.first_match(&self.sought)?;
        self.go_to_found(found);
        Ok(())
    }

    // Begins the search of this.
    pub(crate) fn search(&mut self, sought: Sought) -> Result<(), AllocError>
        ensures ok { OnOk result
            (self.new ≡ sought_first (record self.old { sought = sought })) }
        ensures err { OnErr result (self.new ≡ self.old) }
    {
        let found = self.first_match(&sought)?;
        self.sought = sought;
        self.go_to_found(found);
        Ok(())
    }
}
