//! What finds a text, or the matches of a regular expression, in lines.

ghost use Rattle.std.specs.Prelude.{◌≡◌, ◌≤◌, ◌-◌, length};
ghost use Rattle.regex.specs.Strings.{matcher_pattern};
ghost use Rattle.pager.specs.declared.sought.Sought.TheVariants.{Plain, Pattern};
ghost use Rattle.pager.specs.Patterns.{IsPatternOf, span_from, begun_at};
ghost use Rattle.pager.specs.Search.{has_match};
ghost use Rattle.pager.specs.Symbols.{marked_bytes};
ghost use Rattle.pager.specs.Inner.{reaches, IsAheadIn, IsKnownAhead};

use crate::search::has_text;
use crate::symbols::marked_text;
use regex::Matcher;
use std::marker::Model;

/// What finds what is sought, in one line after the other.
#[derive(Drop)]
pub(crate) struct Finder<'a> {
    text: &'a str,
    // What finds the matches, if the text is a regular expression.
    matcher: Option<Matcher<'a>>,
}

impl<'a> Model for Finder<'a> {
    ghost use Rattle.std.specs.Prelude.{IfSome};
    ghost use Rattle.regex.specs.Strings.{matcher_pattern};
    ghost use Rattle.pager.specs.declared.sought.Sought.{Sought};
    ghost use Rattle.pager.specs.Search.{sought_if};
    ghost use Rattle.pager.specs.Patterns.{IsPatternOf};

    ghost Value = { Sought };

    ghost view = { λ finder. sought_if finder.matcher finder.text.now };

    ghost invariant = { λ finder.
        IfSome finder.matcher (λ m. IsPatternOf finder.text.now (matcher_pattern m)) };
}

// The first match of a line that begins at a byte or after it: where it begins and ends, if there is one.
#[derive(Debug, Clone, Copy)]
pub(crate) struct Ahead {
    from: usize,
    span: Option<(usize, usize)>,
}

impl Ahead {
    // Whether it is the first match from a later byte on, too.
    fn reaches(self, at: usize) -> bool
        ensures { result ≡ reaches at self.span }
    {
        match self.span {
            Some((start, _)) => at <= start,
            None => true,
        }
    }
}

// How many bytes a match has that begins at a byte.
fn begun_at(at: usize, span: Option<(usize, usize)>) -> usize
    ensures { result ≡ begun_at at span }
{
    match span {
        Some((start, end)) if start == at => end.saturating_sub(at),
        _ => 0,
    }
}

// Where the first match of a line begins and ends, from a byte on.
fn next_span(
    matcher: &mut Matcher<'_>,
    line: &str,
    at: usize,
    ahead: &mut Option<Ahead>,
) -> Option<(usize, usize)>
    requires within { at ≤ length line.now }
    requires known { IsAheadIn (matcher_pattern matcher.old) line.now at ahead.old }
    ensures span { result ≡ span_from (matcher_pattern matcher.old) line.now at }
    ensures ahead { IsAheadIn (matcher_pattern matcher.old) line.now at ahead.new }
    ensures same { matcher_pattern matcher.new ≡ matcher_pattern matcher.old }
{
    if let Some(known) = *ahead {
        if known.reaches(at) {
            return known.span;
        }
    }
    let span = match matcher.find_at(line, at) {
        Some(found) => Some((found.start(), found.end())),
        None => None,
    };
    *ahead = Some(Ahead { from: at, span });
    span
}

impl<'a> Finder<'a> {
    /// Finds a text, as it stands.
    pub(crate) fn of_text(text: &'a str) -> Finder<'a>
        ensures { result ≡ Plain text.now }
    {
        Finder {
            text,
            matcher: None,
        }
    }

    /// Finds the matches of the regular expression that a text is.
    pub(crate) fn of_matcher(text: &'a str, matcher: Matcher<'a>) -> Finder<'a>
        requires { IsPatternOf text.now (matcher_pattern matcher) }
        ensures { result ≡ Pattern text.now }
    {
        Finder {
            text,
            matcher: Some(matcher),
        }
    }

    /// Returns whether a line has what is sought.
    pub(crate) fn has_match(&mut self, line: &str) -> bool
        ensures found { result ≡ has_match self.old line.now }
        ensures same { self.new ≡ self.old }
    {
        match &mut self.matcher {
            Some(matcher) => matcher.is_match(line),
            None => has_text(self.text, line),
        }
    }

    /// Returns how many bytes are marked of the rest of a line, where so many were marked of an
    /// earlier match; `ahead` is what is known of the line's next match, and nothing at first.
    pub(crate) fn marked(
        &mut self,
        line: &str,
        marked: usize,
        rest: &str,
        ahead: &mut Option<Ahead>,
    ) -> usize
        requires { IsKnownAhead self.old line.now (length line.now - length rest.now) ahead.old }
        ensures marked { result ≡ marked_bytes self.old line.now marked rest.now }
        ensures ahead { IsKnownAhead self.old line.now (length line.now - length rest.now) ahead.new }
        ensures same { self.new ≡ self.old }
    {
        let Some(matcher) = &mut self.matcher else {
            return marked_text(self.text, marked, rest);
        };
        if marked > 0 {
            return marked;
        }
        let at = line.len().saturating_sub(rest.len());
        begun_at(at, next_span(matcher, line, at, ahead))
    }
}
