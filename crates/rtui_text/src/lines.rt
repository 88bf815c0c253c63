ghost use Rattle.std.specs.Prelude.{◌≡◌, [], IsOk, IfOk, OnOk, OnErr};
ghost use Rattle.rtui_text.specs.Text.{with_last_span};

use crate::items::Items;
use crate::line::Line;
use crate::span::Span;
use std::alloc::{AllocError, Global};

/// The lines of a text, in order.
pub type Lines<'a> = Items<Line<'a>>;

impl<'a> Items<Line<'a>> {
    /// Makes lines equal to these.
    ///
    /// # Errors
    ///
    /// `AllocError` if memory is refused. An empty list takes none.
    pub fn from_slice(alloc: Global, lines: &[Line<'a>]) -> Result<Lines<'a>, AllocError>
        ensures value { IfOk result (λ l. l ≡ lines.now) }
        ensures succeeds { lines.now ≡ [] → IsOk result }
    {
        let mut items = Vec::with_capacity(alloc, lines.len())?;
        for line in lines {
            items.push(line.clone(alloc)?)?;
        }
        Ok(Lines { items })
    }

    /// Makes equal lines.
    ///
    /// # Errors
    ///
    /// `AllocError` if memory is refused. An empty list takes none.
    pub fn clone(&self, alloc: Global) -> Result<Lines<'a>, AllocError>
        ensures value { IfOk result (λ l. l ≡ self.now) }
        ensures succeeds { self.now ≡ [] → IsOk result }
    {
        Lines::from_slice(alloc, self.as_slice())
    }

    /// Puts a span at the end of the last line, or into a new line if there is none.
    ///
    /// # Errors
    ///
    /// `AllocError` if memory is refused; nothing has changed then.
    pub fn push_span(&mut self, span: Span<'a>) -> Result<(), AllocError>
        ensures ok { OnOk result (self.new ≡ with_last_span span.entry self.old) }
        ensures err { OnErr result (self.new ≡ self.old) }
    {
        if let Some(line) = self.items.last_mut() {
            return line.push_span(span);
        }
        self.push(Line::from_span(self.allocator(), span)?)
    }
}
