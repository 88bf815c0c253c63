//! What several tests make, and compare. What is made is handed over as it is answered, so that a
//! test has no way out for each part.

use std::alloc::{AllocError, Global};

/// Whether two values were made, and are equal.
pub(crate) fn are_equal<T: PartialEq + Drop>(
    one: Result<T, AllocError>,
    other: Result<T, AllocError>,
) -> Result<bool, AllocError> {
    let one = one?;
    let other = other?;
    Ok(one == other)
}

/// A list of one item.
pub(crate) fn one<T: Drop>(
    alloc: Global,
    item: Result<T, AllocError>,
) -> Result<Vec<T>, AllocError> {
    let item = item?;
    let mut items = Vec::new(alloc);
    items.push(item)?;
    Ok(items)
}

/// A list of two items.
pub(crate) fn both<T: Drop>(
    alloc: Global,
    first: Result<T, AllocError>,
    second: Result<T, AllocError>,
) -> Result<Vec<T>, AllocError> {
    let mut items = one(alloc, first)?;
    let second = second?;
    items.push(second)?;
    Ok(items)
}

/// An array of two items.
pub(crate) fn pair<T: Drop>(
    first: Result<T, AllocError>,
    second: Result<T, AllocError>,
) -> Result<[T; 2], AllocError> {
    let first = first?;
    let second = second?;
    Ok([first, second])
}
