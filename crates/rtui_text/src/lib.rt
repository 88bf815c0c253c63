//! Styled texts as data: a span is a text in a style, a line is spans in a row, and a text is lines
//! one below the other.
//!
//! It stands on `rtui_style`, on `rtui_layout` for alignments, and on `rtui_cell` for the columns
//! of a text. For the layers above, each is seen as its parts (`specs/Text`); `specs/Widths` says
//! how many columns they take, `specs/Graphemes` which graphemes they have, and `specs/Display`
//! what they print. Content is borrowed or owned, which makes no difference to a value.
#![tactic(auto)]

mod columns;
mod grapheme;
mod items;
pub mod laws;
mod line;
mod lines;
mod masked;
mod printable;
mod span;
mod span_graphemes;
mod spans;
mod styled;
mod stylize;
mod text;
mod to_text;

pub use columns::text_columns;
pub use grapheme::{LineGraphemes, StyledGrapheme, has_control};
pub use items::Items;
pub use line::Line;
pub use lines::Lines;
pub use masked::Masked;
pub use printable::printable_front;
pub use span::Span;
pub use span_graphemes::SpanGraphemes;
pub use spans::Spans;
pub use styled::Styled;
pub use stylize::Stylize;
pub use text::Text;
pub use to_text::{ToLine, ToSpan, ToText};
