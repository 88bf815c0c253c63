//! The arguments of a call.
ghost use Rattle.std.specs.Prelude.{IfOk};
ghost use Rattle.rtui_geometry.specs.Rect.{EdgesFit};

use crate::error::RowError;
use crate::tokens::Token;
use ratatui_core::layout::{Margin, Offset, Position, Rect, Size};
use std::alloc::Global;
use std::str::FromStr;

/// The arguments of a step that aren't read yet.
#[derive(Drop)]
pub struct Args<'a> {
    rest: &'a [Token],
    pub alloc: Global,
}

impl<'a> Args<'a> {
    pub fn new(alloc: Global, rest: &'a [Token]) -> Args<'a> {
        Args { rest, alloc }
    }

    /// Returns whether nothing is left.
    pub fn is_empty(&self) -> bool {
        self.rest.is_empty()
    }

    // The next token that isn't a comma.
    fn token(&mut self) -> Option<&'a Token> {
        self.skip_comma();
        let (first, rest) = self.rest.split_first()?;
        self.rest = rest;
        Some(first)
    }

    /// Takes the next word.
    pub fn word(&mut self) -> Result<&'a str, RowError> {
        match self.token() {
            Some(Token::Word(word)) => Ok(word.as_str()),
            _ => Err(RowError::Unread),
        }
    }

    /// Takes the next text.
    pub fn text(&mut self) -> Result<&'a str, RowError> {
        match self.token() {
            Some(Token::Text(text)) => Ok(text.as_str()),
            _ => Err(RowError::Unread),
        }
    }

    /// Refuses what is left over.
    pub fn end(&self) -> Result<(), RowError> {
        if self.is_empty() {
            Ok(())
        } else {
            Err(RowError::Unread)
        }
    }

    /// Returns how many tokens are left.
    pub fn len(&self) -> usize {
        self.rest.len()
    }

    /// Returns the next word, which is left, if one stands before the next comma.
    pub fn peek(&self) -> Option<&'a str> {
        match self.rest.first()? {
            Token::Word(word) => Some(word.as_str()),
            _ => None,
        }
    }

    /// Leaves out the next token.
    pub fn skip(&mut self) {
        if let Some((_, rest)) = self.rest.split_first() {
            self.rest = rest;
        }
    }

    /// Leaves out a comma that comes next.
    pub fn skip_comma(&mut self) {
        if let Some((Token::Comma, rest)) = self.rest.split_first() {
            self.rest = rest;
        }
    }

    /// Takes the next word if it is this one, before any comma.
    pub fn takes(&mut self, wanted: &str) -> bool {
        let is_next = self.peek() == Some(wanted);
        if is_next {
            self.skip();
        }
        is_next
    }

    /// Takes the next text, if there is one before the next comma.
    pub fn next_text(&mut self) -> Option<&'a str> {
        let Some((Token::Text(text), rest)) = self.rest.split_first() else {
            return None;
        };
        self.rest = rest;
        Some(text.as_str())
    }

    /// Takes the next text, and answers its first character.
    pub fn char(&mut self) -> Result<char, RowError> {
        self.text()?.chars().next().ok_or(RowError::Unread)
    }

    /// Takes the next word, as a value that it names.
    pub fn value<T: FromStr>(&mut self) -> Result<T, RowError>
    where
        T::Err: Drop,
    {
        self.word()?.parse::<T>().map_err(|_| RowError::Unread)
    }

    pub fn u16(&mut self) -> Result<u16, RowError> {
        self.value::<u16>()
    }

    /// Takes two numbers.
    pub fn pair(&mut self) -> Result<(u16, u16), RowError> {
        Ok((self.u16()?, self.u16()?))
    }

    pub fn rect(&mut self) -> Result<Rect, RowError> {
        let ((x, y), (width, height)) = (self.pair()?, self.pair()?);
        Ok(Rect {
            x,
            y,
            width,
            height,
        })
    }

    /// Takes a rectangle for a call that requires one which ends at column and row 65535 at the
    /// latest.
    pub fn area(&mut self) -> Result<Rect, RowError>
        ensures { IfOk result EdgesFit }
    {
        let area = self.rect()?;
        let cut = Rect::new(area.x, area.y, area.width, area.height);
        if cut == area {
            Ok(cut)
        } else {
            Err(RowError::Requires)
        }
    }

    pub fn position(&mut self) -> Result<Position, RowError> {
        let (x, y) = self.pair()?;
        Ok(Position { x, y })
    }

    pub fn size(&mut self) -> Result<Size, RowError> {
        let (width, height) = self.pair()?;
        Ok(Size { width, height })
    }

    pub fn margin(&mut self) -> Result<Margin, RowError> {
        let (horizontal, vertical) = self.pair()?;
        Ok(Margin {
            horizontal,
            vertical,
        })
    }

    pub fn offset(&mut self) -> Result<Offset, RowError> {
        Ok(Offset {
            x: self.value::<i32>()?,
            y: self.value::<i32>()?,
        })
    }

    /// Takes the texts that are left.
    pub fn texts(&mut self) -> Result<Vec<&'a str>, RowError> {
        let mut texts = Vec::new(self.alloc);
        self.skip_comma();
        for _ in 0..self.len() {
            if let Some(text) = self.next_text() {
                texts.push(text)?;
            }
        }
        Ok(texts)
    }
}
