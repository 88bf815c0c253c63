//! An application on a terminal: what is typed, and what is answered, decides what is shown.
#![tactic(auto)]

mod application;
mod by_hand;
mod counter;
mod drawing;
mod from_blank;
pub mod laws;
mod line;
mod on_glass;
mod on_screen;
mod whole;

pub use application::Application;
pub use by_hand::count_by_hand;
pub use counter::Counter;
pub use drawing::{draw, refresh};
pub use from_blank::{count_from_blank, counting_is_never_refused};
pub use line::paint_line;
pub use on_glass::OnGlass;
pub use on_screen::OnScreen;
pub use whole::{Left, run_and_leave, run_inline_and_leave};
