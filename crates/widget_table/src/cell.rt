//! The cells of a table.

ghost use Rattle.std.specs.Prelude.{◌≡◌, IfOk};
ghost use Rattle.ratatui_core.specs.Style.{new_style};
ghost use Rattle.rtui_drawing.specs.Drawings.{IsDone};
ghost use Rattle.widget_table.specs.{Rows.raw_cell, Tables.styled_text};

use ratatui_core::buffer::Buffer;
use ratatui_core::layout::Rect;
use ratatui_core::style::Style;
use ratatui_core::text::Text;
use rtui_drawing::{put_style, put_text};
use std::alloc::{AllocError, Global};

/// A cell of a table: a text in a style.
#[derive(Debug, PartialEq, Eq, Drop)]
pub struct Cell<'a> {
    pub(crate) content: Text<'a>,
    pub(crate) style: Style,
}

impl<'a> Cell<'a> {
    /// Makes a cell of a text; takes no memory.
    pub fn new(content: Text<'a>) -> Cell<'a>
        ensures { result ≡ record { content = content.entry; style = new_style } }
    {
        Cell {
            content,
            style: Style::new(),
        }
    }

    /// Makes a cell of a plain text, a line for each of its lines.
    ///
    /// # Errors
    ///
    /// `AllocError` if memory is refused.
    pub fn raw(alloc: Global, content: &'a str) -> Result<Cell<'a>, AllocError>
        ensures { IfOk result (λ cell. cell ≡ raw_cell content.now) }
    {
        Ok(Cell::new(Text::raw(alloc, content)?))
    }

    /// Sets the text of the cell.
    pub fn content(self, content: Text<'a>) -> Cell<'a>
        ensures { result ≡ record self.entry { content = content.entry } }
    {
        Cell { content, ..self }
    }

    /// Sets the style of the cell.
    pub fn style(self, style: Style) -> Cell<'a>
        ensures { result ≡ record self.entry { style = style } }
    {
        Cell { style, ..self }
    }

    /// Makes an equal cell.
    ///
    /// # Errors
    ///
    /// `AllocError` if memory is refused.
    pub fn clone(&self, alloc: Global) -> Result<Cell<'a>, AllocError>
        ensures { IfOk result (λ cell. cell ≡ self.now) }
    {
        Ok(Cell {
            content: self.content.clone(alloc)?,
            style: self.style,
        })
    }

    // Draws the cell: its style, and its text over it.
    #[tactic(auto, using(rtui_drawing::proofs::DrawingLemmas::drawing_steps))]
    pub(crate) fn draw(&self, area: Rect, buf: &mut Buffer) -> Result<(), AllocError>
        ensures { let d = styled_text self.now.style self.now.content in
            IsDone d area result buf.old buf.new }
    {
        put_style(self.style, area, buf);
        put_text(&self.content, area, buf)
    }
}
