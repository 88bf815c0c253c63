//! A text of several lines in an area: what a person edits.
//!
//! It shows a `TextArea` of `text_area`. `specs/Columns` says in which columns of a line its
//! graphemes stand, `specs/Wraps` in which rows if lines are wrapped, `specs/Windows` which part of
//! the text is shown, and `specs/TextAreas` what is drawn of it, and what a rendering makes of a
//! buffer and of the view. Where lines are wrapped, `text_places` says what a place is, and where a
//! view begins that has the cursor's place in it.
//!
//! What a rendering costs: it finds the lines that are shown from the cursor's line on, reads that one
//! up to the cursor, and of each line that is shown what stands before the view's last column. Beside
//! that it costs what is shown, and it takes no memory but for graphemes that are long.
//!
//! Where lines are wrapped, it reads whole each line in view, and those above the cursor's line once
//! more, to find where the view begins; it reads no line that isn't in view. So a line of megabytes
//! is read a few times from its start to its end, however few of its rows are in view.
#![tactic(auto)]

mod columns;
pub mod laws;
mod numbers;
mod places;
mod plan;
mod rows;
mod styled;
mod view;
mod widget;
mod wrapped;

pub use view::AreaView;
pub use widget::TextAreaWidget;
