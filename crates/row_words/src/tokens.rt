//! What a row is made of: steps between bars, and their words, texts and commas.
use crate::error::RowError;
use std::alloc::{AllocError, Global};
use std::mem;

/// A part of a step.
#[derive(Debug, Drop)]
pub enum Token {
    Word(String),
    /// What stood between quotes.
    Text(String),
    Comma,
}

// Where the reading of a row is.
#[derive(Debug, Clone, Copy, PartialEq, Eq)]
enum Place {
    // In a word or between two.
    Plain,
    Text,
    // After a backslash.
    Escape,
    // In the number of a character, of which so much is read.
    Number(u32),
}

#[derive(Drop)]
struct Tokens {
    alloc: Global,
    steps: Vec<Vec<Token>>,
    step: Vec<Token>,
    text: String,
    place: Place,
}

impl Tokens {
    // The text that was read, which then is empty.
    fn taken(&mut self) -> String {
        mem::replace(&mut self.text, String::new(self.alloc))
    }

    fn end_word(&mut self) -> Result<(), AllocError> {
        if !self.text.is_empty() {
            let word = self.taken();
            self.step.push(Token::Word(word))?;
        }
        Ok(())
    }

    fn end_step(&mut self) -> Result<(), AllocError> {
        self.end_word()?;
        let step = mem::replace(&mut self.step, Vec::new(self.alloc));
        self.steps.push(step)?;
        Ok(())
    }

    fn take_plain(&mut self, ch: char) -> Result<(), AllocError> {
        match ch {
            ' ' => self.end_word(),
            '|' => self.end_step(),
            ',' => {
                self.end_word()?;
                self.step.push(Token::Comma)?;
                Ok(())
            }
            '"' => {
                self.place = Place::Text;
                Ok(())
            }
            _ => self.text.push(ch),
        }
    }

    fn take_text(&mut self, ch: char) -> Result<(), AllocError> {
        match ch {
            '"' => {
                let text = self.taken();
                self.step.push(Token::Text(text))?;
                self.place = Place::Plain;
                Ok(())
            }
            '\\' => {
                self.place = Place::Escape;
                Ok(())
            }
            _ => self.text.push(ch),
        }
    }

    fn take_escape(&mut self, ch: char) -> Result<(), AllocError> {
        self.place = Place::Text;
        match ch {
            'n' => self.text.push('\n'),
            't' => self.text.push('\t'),
            'u' => {
                self.place = Place::Number(0);
                Ok(())
            }
            _ => self.text.push(ch),
        }
    }

    fn take_number(&mut self, number: u32, ch: char) -> Result<(), AllocError> {
        if ch == '}' {
            self.place = Place::Text;
            return self.text.push(char::from_u32(number).unwrap_or('?'));
        }
        if let Some(digit) = ch.to_digit(16) {
            self.place = Place::Number(number.wrapping_mul(16).wrapping_add(digit));
        }
        Ok(())
    }

    fn take(&mut self, ch: char) -> Result<(), AllocError> {
        match self.place {
            Place::Plain => self.take_plain(ch),
            Place::Text => self.take_text(ch),
            Place::Escape => self.take_escape(ch),
            Place::Number(number) => self.take_number(number, ch),
        }
    }
}

/// Returns the steps of a call.
pub fn steps_of(alloc: Global, call: &str) -> Result<Vec<Vec<Token>>, RowError> {
    let mut tokens = Tokens {
        alloc,
        steps: Vec::new(alloc),
        step: Vec::new(alloc),
        text: String::new(alloc),
        place: Place::Plain,
    };
    for ch in call.chars() {
        tokens.take(ch)?;
    }
    if tokens.place != Place::Plain {
        return Err(RowError::Unread);
    }
    tokens.end_step()?;
    Ok(tokens.steps)
}
