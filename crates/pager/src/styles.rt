//! The styles of a text, line by line.

ghost use Rattle.std.specs.Prelude.{◌≡◌, [], ◌∷◌, ◌++◌, ◌-◌, length, replicate, take, option_map, slice_get};
ghost use Rattle.std.specs.Prelude.{IfOk, OnOk, OnErr};
ghost use Rattle.pager.specs.Growing.{more_styles};
ghost use Rattle.pager.specs.Pages.{line_runs};

use ratatui_core::style::Style;
use std::alloc::{AllocError, Global};
use std::marker::Model;

/// A style, and the byte of its line before which it ends. It begins where the run before ends.
#[derive(Debug, Clone, Copy, PartialEq, Eq)]
pub struct Run {
    pub end: usize,
    pub style: Style,
}

// The runs of one line.
#[derive(Drop)]
struct Runs {
    runs: Vec<Run>,
}

/// The runs of styles of each line of a text. What comes after the last run of a line is in no
/// style, and so is each line after the last one that has runs.
#[derive(Drop)]
pub struct Styles {
    lines: Vec<Runs>,
}

impl Model for Styles {
    ghost use Rattle.std.specs.Prelude.{List, map};
    ghost use Rattle.pager.specs.declared.styles.Run.{Run};

    ghost Value = { List (List Run) };

    ghost view = { λ styles. map (λ line. line.runs.items) styles.lines.items };
}

// So many lines without runs.
fn plain_lines(alloc: Global, count: usize) -> Result<Styles, AllocError>
    ensures { IfOk result (λ all. all ≡ replicate count []) }
{
    let mut all = Styles::new(alloc);
    for done in 0..count {
        all.push(Vec::new(alloc))?;
    }
    Ok(all)
}

impl Styles {
    /// Makes styles in which no line has one.
    pub fn new(alloc: Global) -> Styles
        ensures { result ≡ [] }
    {
        Styles {
            lines: Vec::new(alloc),
        }
    }

    /// Appends the runs of one more line.
    ///
    /// # Errors
    ///
    /// `AllocError` if memory is refused; nothing has changed then.
    pub fn push(&mut self, runs: Vec<Run>) -> Result<(), AllocError>
        ensures ok { OnOk result (self.new ≡ self.old ++ runs.items ∷ []) }
        ensures err { OnErr result (self.new ≡ self.old) }
    {
        self.lines.push(Runs { runs })?;
        Ok(())
    }

    /// Returns how many lines have runs, which may be none, or stand before one that has.
    pub fn len(&self) -> usize
        ensures { result ≡ length self.now }
    {
        self.lines.len()
    }

    // As many lines without runs as are missing up to a count, and then these lines.
    fn behind(&self, count: usize, more: Styles) -> Result<Styles, AllocError>
        ensures { IfOk result (λ all. all ≡ replicate (count - length self.now) [] ++ more) }
    {
        let mut all = plain_lines(
            *self.lines.allocator(),
            count.saturating_sub(self.lines.len()),
        )?;
        let mut lines = more.lines;
        all.lines.append(&mut lines)?;
        Ok(all)
    }

    /// Appends the runs of the lines that come after so many first ones.
    ///
    /// # Errors
    ///
    /// `AllocError` if memory is refused; nothing has changed then.
    pub fn extend(&mut self, count: usize, more: Styles) -> Result<(), AllocError>
        ensures ok { OnOk result (self.new ≡ more_styles count self.old more) }
        ensures err { OnErr result (self.new ≡ self.old) }
    {
        if more.lines.is_empty() {
            return Ok(());
        }
        let mut all = self.behind(count, more)?;
        self.lines.append(&mut all.lines)
    }

    /// Keeps the runs of so many first lines.
    pub fn truncate(&mut self, count: usize)
        ensures { self.new ≡ take count self.old }
    {
        self.lines.truncate(count);
    }

    // The runs of a line by its number, if it has any.
    fn get(&self, number: usize) -> Option<&[Run]>
        ensures { option_map (λ runs. runs.now) result ≡ slice_get self.now number }
    {
        match self.lines.get(number) {
            Some(line) => Some(line.runs.as_slice()),
            None => None,
        }
    }

    /// Returns the runs of a line by its number, from 0 on.
    pub fn line(&self, number: u64) -> &[Run]
        ensures { result.now ≡ line_runs self.now number }
    {
        match self.get(number as usize) {
            Some(runs) => runs,
            None => &[],
        }
    }
}
