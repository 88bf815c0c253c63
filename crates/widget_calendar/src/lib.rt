//! A calendar of a month: its days in weeks from Sunday on.
//!
//! It stands on `rtui_inside`, and takes dates from `jiff`. `specs/Days` says which day stands in
//! which column of which week, `specs/Calendars` what a calendar draws, and `specs/Events` which
//! style an event gives a day.
#![tactic(auto)]

mod events;
pub mod laws;
mod letters;
mod month;
mod monthly;
mod weeks;

pub use events::{CalendarEventStore, DateStyler};
pub use monthly::Monthly;
