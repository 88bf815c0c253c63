//! Widgets, texts on a buffer, and changes of cells by position.
//!
//! It stands on `rtui_buffer` and `rtui_text`. A [`Widget`] states over which areas it may be
//! rendered and what it makes of a buffer. For texts this is `specs/Rendering`: each row of the
//! area, as far as the buffer has it, is the row before with a span (`specs/Span`), a line
//! (`specs/Line`) or a line of the text on it, and nothing else changes. [`change_area`] makes one
//! change of each cell of an area (`specs/Changes`). `specs/Parts` says of parts of a buffer that
//! they are changed apart from each other, and `specs/Plain` of which cells a buffer stays settled
//! if it is painted again and again.
#![tactic(auto)]

mod buffer;
mod change;
pub mod laws;
mod line;
mod span;
mod text;
mod widget;

pub use change::{CellChange, change_area};
pub use widget::{StatefulWidget, Widget};
