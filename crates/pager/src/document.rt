//! A text by its lines.

ghost use Rattle.std.specs.Prelude.{◌≡◌, ◌≤◌, ◌-◌, ◌^◌, [], length, map, min, slice_get, slice_index_or};
ghost use Rattle.std.specs.Prelude.{◌<◌, ◌∷◌, ◌++◌, if◌then◌else◌, option_map, take, IfOk, OnOk, OnErr};
ghost use Rattle.std.specs.Prelude.{IsNone, IfSome};
ghost use Rattle.std.specs.Str.Lines.{lines, strip_carriage_return};
ghost use Rattle.pager.specs.Search.{numbered_line, matching, picked};
ghost use Rattle.pager.specs.Pages.{bytes_before};

use crate::sought::Sought;
use memchr::memchr;
use std::alloc::{AllocError, Global};
use std::marker::Model;
use thiserror::Error;

/// The lines of a text, which it borrows.
#[derive(Drop)]
pub struct Document<'a> {
    lines: Vec<&'a str>,
}

/// The numbers of lines, from 0 on.
#[derive(Drop)]
pub struct Numbers {
    numbers: Vec<u32>,
}

/// Why a text has no `Document`.
#[derive(Debug, Drop, Clone, Copy, PartialEq, Eq, Error)]
pub enum TextError {
    /// Memory was refused.
    #[error("no memory")]
    Memory,
    /// It has more than `u32::MAX` lines.
    #[error("too many lines")]
    Lines,
}

impl From<AllocError> for TextError {
    fn from(_: AllocError) -> Self {
        TextError::Memory
    }
}

impl<'a> Model for Document<'a> {
    ghost use Rattle.std.specs.Prelude.{ℕ, ◌<◌, ◌^◌, List, map, length};

    ghost Value = { List (List ℕ) };

    ghost view = { λ d. map (λ line. line.now) d.lines.items };

    ghost invariant = { λ d. length d.lines.items < 2 ^ 32 };
}

impl Model for Numbers {
    ghost use Rattle.std.specs.Prelude.{ℕ, List};

    ghost Value = { List ℕ };

    ghost view = { λ numbers. numbers.numbers.items };
}

impl Numbers {
    /// Makes an empty list of numbers.
    pub fn new(alloc: Global) -> Numbers
        ensures { result ≡ [] }
    {
        Numbers {
            numbers: Vec::new(alloc),
        }
    }

    /// Returns a number by its place, and after the last one another one.
    pub fn get_or(&self, place: u64, other: u64) -> u64
        ensures number { result ≡ slice_index_or self.now place other }
        ensures small { other < 2 ^ 63 → result < 2 ^ 63 }
    {
        match self.numbers.get(place as usize) {
            Some(number) => u64::from(*number),
            None => other,
        }
    }
}

impl<'a> Document<'a> {
    /// Makes the lines of a text, as `str::lines` gives them.
    ///
    /// # Errors
    ///
    /// `Memory` if memory is refused, and `Lines` if there are more than `u32::MAX` lines.
    pub fn new(alloc: Global, text: &'a str) -> Result<Document<'a>, TextError>
        ensures { IfOk result (λ d. d ≡ lines text.now) }
    {
        let mut lines = Vec::new(alloc);
        push_lines(&mut lines, text)?;
        if lines.len() > 0xffff_ffff {
            return Err(TextError::Lines);
        }
        Ok(Document { lines })
    }

    /// Appends the lines of a text.
    ///
    /// # Errors
    ///
    /// `AllocError` if memory is refused, or if there would be more than `u32::MAX` lines; nothing
    /// has changed then.
    pub fn extend(&mut self, text: &'a str) -> Result<(), AllocError>
        ensures ok { OnOk result (self.new ≡ self.old ++ lines text.now) }
        ensures err { OnErr result (self.new ≡ self.old) }
    {
        let known = self.lines.len();
        let added = push_lines(&mut self.lines, text);
        if added.is_err() || self.lines.len() > 0xffff_ffff {
            self.lines.truncate(known);
            return Err(AllocError);
        }
        Ok(())
    }

    /// Keeps so many first lines.
    pub fn truncate(&mut self, count: usize)
        ensures { self.new ≡ take count self.old }
    {
        self.lines.truncate(count);
    }

    /// Returns what the list of lines takes its memory from.
    pub fn allocator(&self) -> Global {
        *self.lines.allocator()
    }

    /// Returns how many lines there are.
    pub fn len(&self) -> u32
        ensures { result ≡ length self.now }
    {
        self.lines.len() as u32
    }

    /// Returns the numbers of the lines that have what is sought.
    ///
    /// # Errors
    ///
    /// `AllocError` if memory is refused.
    pub fn matching(&self, sought: &Sought) -> Result<Numbers, AllocError>
        ensures numbers { IfOk result (λ numbers.
            numbers ≡ matching sought.now self.now (length self.now)) }
        ensures count { IfOk result (λ numbers. length numbers < 2 ^ 32) }
    {
        let mut finder = sought.finder(self.allocator())?;
        let mut numbers = Vec::new(self.allocator());
        for number in 0..self.len() {
            let is_match = finder.has_match(self.line_or_empty(u64::from(number)));
            push_if(is_match, number, &mut numbers)?;
        }
        Ok(Numbers { numbers })
    }

    /// Makes a document of the lines of these numbers.
    ///
    /// # Errors
    ///
    /// `AllocError` if memory is refused.
    pub fn picked(&self, numbers: &Numbers) -> Result<Document<'a>, AllocError>
        requires { length numbers.now < 2 ^ 32 }
        ensures { IfOk result (λ d. d ≡ picked self.now numbers.now) }
    {
        let mut lines = Vec::new(self.allocator());
        for number in &numbers.numbers {
            lines.push(self.line_or_empty(u64::from(*number)))?;
        }
        Ok(Document { lines })
    }

    /// Returns a line by its number, from 0 on.
    pub fn line(&self, number: usize) -> Option<&'a str>
        ensures { option_map (λ line. line.now) result ≡ slice_get self.now number }
    {
        match self.lines.get(number) {
            Some(line) => Some(*line),
            None => None,
        }
    }

    /// Returns a line by its number, from 0 on, and after the end an empty one.
    pub fn line_or_empty(&self, number: u64) -> &'a str
        ensures { result.now ≡ numbered_line self.now number }
    {
        match self.line(number as usize) {
            Some(line) => line,
            None => "",
        }
    }

    /// Returns how many bytes the first lines take, with one for the end of each; at most
    /// `u64::MAX`.
    pub fn bytes_before(&self, count: u64) -> u64
        ensures { result ≡ min (bytes_before self.now count) (2 ^ 64 - 1) }
    {
        let mut bytes = 0u64;
        for number in 0..count {
            let length = self.line_or_empty(number).len() as u64;
            bytes = bytes.saturating_add(length).saturating_add(1);
        }
        bytes
    }
}

// Another number, if a line has a match.
fn push_if(is_match: bool, number: u32, numbers: &mut Vec<u32>) -> Result<(), AllocError>
    ensures { OnOk result (numbers.new.items
        ≡ (if is_match then numbers.old.items ++ number ∷ [] else numbers.old.items)) }
{
    if is_match {
        numbers.push(number)?;
    }
    Ok(())
}

// A line less the carriage return at its end.
fn without_return(line: &str) -> &str
    ensures { result.now ≡ strip_carriage_return line.now }
{
    match line.as_bytes().last() {
        Some(b'\r') => &line[..line.len() - 1],
        _ => line,
    }
}

// The first line of a text, as `str::lines` gives it, and what comes after it.
fn first_line(text: &str) -> Option<(&str, &str)>
    ensures none { IsNone result → lines text.now ≡ [] }
    ensures some { IfSome result (λ r. lines text.now ≡ r.0.now ∷ lines r.1.now) }
    ensures shorter { IfSome result (λ r. length r.1.now < length text.now) }
{
    match memchr(b'\n', text.as_bytes()) {
        Some(end) => Some((without_return(&text[..end]), &text[end + 1..])),
        None if text.is_empty() => None,
        None => Some((text, "")),
    }
}

// Appends the lines of a text to a list, or some of them if memory is refused. `memchr` finds their
// ends many bytes at once, which `str::lines` doesn't.
fn push_lines<'a>(list: &mut Vec<&'a str>, text: &'a str) -> Result<(), AllocError>
    ensures all { OnOk result (map (λ line. line.now) list.new.items
        ≡ map (λ line. line.now) list.old.items ++ lines text.now) }
    ensures same { take (length list.old.items) list.new.items ≡ list.old.items }
{
    let mut rest = text;
    while let Some((line, after)) = first_line(rest) {
        list.push(line)?;
        rest = after;
    }
    Ok(())
}
