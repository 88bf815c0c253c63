//! What is sought in lines: a text, or the matches of a regular expression.

ghost use Rattle.std.specs.Prelude.{◌≡◌, IfOk, option_map};
ghost use Rattle.pager.specs.Patterns.{is_operator, has_operator, is_literal, pattern_of};
ghost use Rattle.pager.specs.Search.{sought_by, text_of_sought};

use crate::finder::Finder;
use crate::own_text::OwnText;
use crate::symbols::has_capital;
use regex::{Error, Regex, RegexBuilder};
use std::alloc::{AllocError, Global};
use std::marker::Model;

/// A regular expression, with its text.
#[derive(Drop)]
pub struct Pattern {
    text: OwnText,
    regex: Regex,
}

impl Model for Pattern {
    ghost use Rattle.std.specs.Prelude.{ℕ, List};
    ghost use Rattle.regex.specs.Strings.{regex_pattern};
    ghost use Rattle.pager.specs.Patterns.{IsPatternOf};

    ghost Value = { List ℕ };

    ghost view = { λ pattern. pattern.text };

    ghost invariant = { λ pattern. IsPatternOf pattern.text (regex_pattern pattern.regex) };
}

/// What is sought.
#[derive(Drop)]
pub enum Sought {
    /// A text, as it stands.
    Plain(OwnText),
    /// The matches of a regular expression.
    Pattern(Pattern),
}

// Whether a character means something in a regular expression.
fn is_operator(c: char) -> bool
    ensures { result ≡ is_operator c }
{
    matches!(
        c,
        '\\' | '.' | '+' | '*' | '?' | '(' | ')' | '[' | '{' | '|' | '^' | '$'
    )
}

fn has_operator(text: &str) -> bool
    ensures { result ≡ has_operator text.now }
{
    text.chars().any(|c| is_operator(c))
}

// Whether no character of a text means anything but itself.
fn is_literal(text: &str) -> bool
    ensures { result ≡ is_literal text.now }
{
    !has_operator(text)
}

impl Pattern {
    // Reads a text as a regular expression, if it is one.
    fn read(alloc: Global, text: &str) -> Result<Option<Pattern>, AllocError>
        ensures { IfOk result (λ pattern. pattern
            ≡ option_map (λ re. text.now) (pattern_of text.now)) }
    {
        let any_case = !has_capital(text);
        let built = RegexBuilder::new(text)
            .case_insensitive(any_case)
            .build(alloc);
        match built {
            Ok(regex) => {
                let text = OwnText::new(String::from_str(alloc, text)?);
                Ok(Some(Pattern { text, regex }))
            }
            Err(Error::Syntax(_)) => Ok(None),
            Err(_) => Err(AllocError),
        }
    }
}

impl Sought {
    /// Reads what a text seeks. That is the text itself, if no character of it means anything else,
    /// and else the matches of the regular expression that it is. If it is none, nothing can be
    /// sought by it.
    ///
    /// # Errors
    ///
    /// `AllocError` if memory is refused, or if a regular expression takes more than 10 MiB.
    pub fn read(alloc: Global, text: &str) -> Result<Option<Sought>, AllocError>
        ensures { IfOk result (λ sought. sought ≡ sought_by text.now) }
    {
        if is_literal(text) {
            let text = OwnText::new(String::from_str(alloc, text)?);
            return Ok(Some(Sought::Plain(text)));
        }
        match Pattern::read(alloc, text)? {
            Some(pattern) => Ok(Some(Sought::Pattern(pattern))),
            None => Ok(None),
        }
    }

    /// Lends its text.
    pub fn text(&self) -> &str
        ensures { result.now ≡ text_of_sought self.now }
    {
        match self {
            Sought::Plain(text) => text.as_str(),
            Sought::Pattern(pattern) => pattern.text.as_str(),
        }
    }

    /// Makes what finds it in lines.
    ///
    /// # Errors
    ///
    /// `AllocError` if memory is refused.
    pub(crate) fn finder(&self, alloc: Global) -> Result<Finder<'_>, AllocError>
        ensures { IfOk result (λ finder. finder ≡ self.now) }
    {
        match self {
            Sought::Plain(text) => Ok(Finder::of_text(text.as_str())),
            Sought::Pattern(pattern) => {
                let matcher = pattern.regex.matcher(alloc)?;
                Ok(Finder::of_matcher(pattern.text.as_str(), matcher))
            }
        }
    }
}
