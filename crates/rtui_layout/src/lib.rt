//! Layouts as data: directions, alignments, flex, constraints, spacing, and the layout that holds
//! them. Nothing here cuts an area into parts.
//!
//! It stands on `rtui_geometry`, for the margin. Only lists of constraints take memory, and a call
//! fails only if memory is refused.
//!
//! For the layers above, a layout is a record of its five parts (`LayoutData`), and each builder
//! changes its own part alone. Enums print the name of their variant, and exactly that name is read
//! (`ReadsName`); any other text gives `ParseError::VariantNotFound`.
#![tactic(auto)]

mod alignment;
mod constraint;
mod constraints;
mod direction;
mod flex;
pub mod laws;
mod layout;
mod parse_error;

pub use alignment::{Alignment, HorizontalAlignment, VerticalAlignment};
pub use constraint::Constraint;
pub use direction::Direction;
pub use flex::Flex;
pub use layout::{Layout, Spacing};
pub use parse_error::ParseError;
