//! Lists that have room for their parts.

ghost use Rattle.std.specs.Prelude.{◌≡◌, [], IfOk, IsOk};
ghost use Rattle.ratatui_macros.specs.Made.{HasRoomLeft};

use std::alloc::{AllocError, Global};

// How many parts there are.
#[macro_export]
macro_rules! part_count {
    () => {
        0
    };
    ($part:expr $(, $rest:expr)*) => {
        1 + $crate::part_count!($($rest),*)
    };
}

/// Makes an empty list, with room for so many.
///
/// # Errors
///
/// `AllocError` if memory is refused. Room for none takes none.
pub fn with_room<T>(alloc: Global, parts: usize) -> Result<Vec<T>, AllocError>
    ensures value { IfOk result (λ made. made.items ≡ []) }
    ensures room { IfOk result (λ made. HasRoomLeft parts made) }
    ensures succeeds { parts ≡ 0 → IsOk result }
{
    Vec::with_capacity(alloc, parts)
}
