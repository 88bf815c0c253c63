//! Equal paragraphs.

ghost use Rattle.std.specs.Prelude.{◌≡◌, IfOk, true};

use crate::paragraph::Paragraph;
use std::alloc::{AllocError, Global};
use widget_boxes::cloned_block;

impl<'a> Paragraph<'a> {
    /// Makes an equal paragraph.
    ///
    /// # Errors
    ///
    /// `AllocError` if memory is refused.
    pub fn clone(&self, alloc: Global) -> Result<Paragraph<'a>, AllocError>
        ensures { let same = ⟦<Paragraph<'a> as PartialEq>⟧.eq in
            IfOk result (λ paragraph. same self.now paragraph ≡ true) }
    {
        Ok(Paragraph {
            block: cloned_block(alloc, &self.block)?,
            style: self.style,
            wrap: self.wrap,
            text: self.text.clone(alloc)?,
            scroll: self.scroll,
            alignment: self.alignment,
        })
    }
}
