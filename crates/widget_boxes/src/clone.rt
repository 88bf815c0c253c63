//! Equal parts of widgets, which may have them.

ghost use Rattle.std.specs.Prelude.{◌≡◌, IfOk, true};

use crate::block::Block;
use ratatui_core::text::Line;
use std::alloc::{AllocError, Global};

/// Makes an equal box, if there is one.
///
/// # Errors
///
/// `AllocError` if memory is refused.
pub fn cloned_block<'a>(
    alloc: Global,
    block: &Option<Block<'a>>,
) -> Result<Option<Block<'a>>, AllocError>
    ensures { let same = ⟦<Option<Block<'a>> as PartialEq>⟧.eq in
        IfOk result (λ cloned. same block.now cloned ≡ true) }
{
    match block {
        Some(block) => Ok(Some(block.clone(alloc)?)),
        None => Ok(None),
    }
}

/// Makes an equal line, if there is one.
///
/// # Errors
///
/// `AllocError` if memory is refused.
pub fn cloned_line<'a>(
    alloc: Global,
    line: &Option<Line<'a>>,
) -> Result<Option<Line<'a>>, AllocError>
    ensures { IfOk result (λ cloned. cloned ≡ line.now) }
{
    match line {
        Some(line) => Ok(Some(line.clone(alloc)?)),
        None => Ok(None),
    }
}
