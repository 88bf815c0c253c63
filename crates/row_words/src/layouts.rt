//! Constraints and spacings as words.
use crate::answer::Show;
use crate::args::Args;
use crate::error::RowError;
use ratatui_core::layout::{Constraint, Spacing};
use std::alloc::AllocError;

impl Show for Constraint {
    fn show(&self, out: &mut String) -> Result<(), AllocError> {
        match self {
            Constraint::Min(n) => write!(out, "Min {n}"),
            Constraint::Max(n) => write!(out, "Max {n}"),
            Constraint::Length(n) => write!(out, "Length {n}"),
            Constraint::Percentage(n) => write!(out, "Percentage {n}"),
            Constraint::Ratio(n, m) => write!(out, "Ratio {n} {m}"),
            Constraint::Fill(n) => write!(out, "Fill {n}"),
        }
    }
}

impl Show for Spacing {
    fn show(&self, out: &mut String) -> Result<(), AllocError> {
        match self {
            Spacing::Space(n) => write!(out, "Space {n}"),
            Spacing::Overlap(n) => write!(out, "Overlap {n}"),
        }
    }
}

// A constraint of one number.
fn constraint_of(word: &str, number: u16) -> Option<Constraint> {
    match word {
        "Min" => Some(Constraint::Min(number)),
        "Max" => Some(Constraint::Max(number)),
        "Length" => Some(Constraint::Length(number)),
        "Percentage" => Some(Constraint::Percentage(number)),
        "Fill" => Some(Constraint::Fill(number)),
        _ => None,
    }
}

impl<'a> Args<'a> {
    pub fn constraint(&mut self) -> Result<Constraint, RowError> {
        let word = self.word()?;
        if word == "Ratio" {
            let (part, whole) = self.ratio()?;
            return Ok(Constraint::Ratio(part, whole));
        }
        constraint_of(word, self.u16()?).ok_or(RowError::Unread)
    }

    fn ratio(&mut self) -> Result<(u32, u32), RowError> {
        Ok((self.value::<u32>()?, self.value::<u32>()?))
    }

    /// Takes the constraints that are left.
    pub fn constraints(&mut self) -> Result<Vec<Constraint>, RowError> {
        let mut all = Vec::new(self.alloc);
        for _ in 0..self.len() {
            if !self.is_empty() {
                all.push(self.constraint()?)?;
            }
        }
        Ok(all)
    }

    /// Takes the numbers that are left.
    pub fn numbers(&mut self) -> Result<Vec<u16>, RowError> {
        let mut all = Vec::new(self.alloc);
        for _ in 0..self.len() {
            if !self.is_empty() {
                all.push(self.u16()?)?;
            }
        }
        Ok(all)
    }

    /// Takes the pairs of numbers that are left.
    pub fn ratios(&mut self) -> Result<Vec<(u32, u32)>, RowError> {
        let mut all = Vec::new(self.alloc);
        for _ in 0..self.len() {
            if !self.is_empty() {
                all.push(self.ratio()?)?;
            }
        }
        Ok(all)
    }
}
