//! Equal boxes.

ghost use Rattle.std.specs.Prelude.{◌≡◌, [], IfOk, IsOk, true};

use crate::block::Block;
use crate::title::Title;
use std::alloc::{AllocError, Global};

impl<'a> Block<'a> {
    /// Makes an equal box.
    ///
    /// # Errors
    ///
    /// `AllocError` if memory is refused. A box without titles takes none.
    pub fn clone(&self, alloc: Global) -> Result<Block<'a>, AllocError>
        ensures value { let same = ⟦<Block<'a> as PartialEq>⟧.eq in
            IfOk result (λ block. same self.now block ≡ true) }
        ensures succeeds { self.now.titles.items ≡ [] → IsOk result }
    {
        Ok(Block {
            titles: cloned_titles(alloc, self.titles.as_slice())?,
            titles_style: self.titles_style,
            titles_alignment: self.titles_alignment,
            titles_position: self.titles_position,
            borders: self.borders,
            border_style: self.border_style,
            border_set: self.border_set,
            style: self.style,
            padding: self.padding,
            merge_borders: self.merge_borders,
        })
    }
}

// Equal titles.
fn cloned_titles<'a>(alloc: Global, titles: &[Title<'a>]) -> Result<Vec<Title<'a>>, AllocError>
    ensures value { IfOk result (λ cloned. cloned.items ≡ titles.now) }
    ensures succeeds { titles.now ≡ [] → IsOk result }
{
    let mut cloned = Vec::with_capacity(alloc, titles.len())?;
    for title in titles {
        cloned.push(title.clone(alloc)?)?;
    }
    Ok(cloned)
}

impl<'a> Title<'a> {
    // An equal title.
    fn clone(&self, alloc: Global) -> Result<Title<'a>, AllocError>
        ensures { IfOk result (λ title. title ≡ self.now) }
    {
        Ok(Title {
            position: self.position,
            line: self.line.clone(alloc)?,
        })
    }
}
