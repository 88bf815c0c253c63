ghost use Rattle.std.specs.Prelude.{◌≡◌, [], IsOk, IfOk};

use crate::items::Items;
use crate::span::Span;
use std::alloc::{AllocError, Global};

/// The spans of a line, in order.
pub type Spans<'a> = Items<Span<'a>>;

impl<'a> Items<Span<'a>> {
    /// Makes spans equal to these.
    ///
    /// # Errors
    ///
    /// `AllocError` if memory is refused. An empty list takes none.
    pub fn from_slice(alloc: Global, spans: &[Span<'a>]) -> Result<Spans<'a>, AllocError>
        ensures value { IfOk result (λ s. s ≡ spans.now) }
        ensures succeeds { spans.now ≡ [] → IsOk result }
    {
        let mut items = Vec::with_capacity(alloc, spans.len())?;
        for span in spans {
            items.push(span.clone(alloc)?)?;
        }
        Ok(Spans { items })
    }

    /// Makes equal spans.
    ///
    /// # Errors
    ///
    /// `AllocError` if memory is refused. An empty list takes none.
    pub fn clone(&self, alloc: Global) -> Result<Spans<'a>, AllocError>
        ensures value { IfOk result (λ s. s ≡ self.now) }
        ensures succeeds { self.now ≡ [] → IsOk result }
    {
        Spans::from_slice(alloc, self.as_slice())
    }
}
