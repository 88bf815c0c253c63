//! Examples; docs/USING.md and docs/WIDGETS.md walk through them.
//!
//! [`greet`] is the README's first example. [`draw_checked`] draws a frame on a terminal, [`log`]
//! logs rows above it, [`renew`] makes a list of calls, and [`label`] paints on a buffer. Widgets of
//! one's own are [`Badge`], which says what it draws, [`Banner`], which promises nothing,
//! [`Growing`], which has a state, and [`Gauge`], which is painted from the ground up. [`draw_text`]
//! draws a text over a whole frame, and [`draw_gauge`] a gauge, by `Terminal::draw_widget`;
//! [`draw_hello`] and [`draw_hello_checked`] a span, by closures of one call. [`head_and_body`]
//! divides an area.
#![tactic(auto)]

mod areas;
mod badge;
mod banner;
mod closures;
mod frames;
mod gauge;
mod growing;
mod hello;
mod labels;
mod lines;
mod logging;
mod renewing;
mod widget_frames;

pub use areas::head_and_body;
pub use badge::Badge;
pub use banner::Banner;
pub use closures::{draw_hello, draw_hello_checked};
pub use frames::draw_checked;
pub use gauge::Gauge;
pub use growing::Growing;
pub use hello::greet;
pub use labels::{label, pieces_stand};
pub use lines::restyle_first;
pub use logging::log;
pub use renewing::renew;
pub use widget_frames::{draw_gauge, draw_text};
