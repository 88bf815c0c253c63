//! Planets, of which one is chosen: an application that keeps the state of a list.
//!
//! It settles the state of its list at each event. So the frame that a terminal shows is that of the
//! state, and no frame leaves anything in it. It stands on `ratatui_app` and `widget_list`;
//! `specs/Choosing` says what is told to it and what it shows, `specs/Laws` what is known of a run.
#![tactic(auto)]

mod chooser;
mod from_blank;
pub mod laws;
mod planets;

pub use chooser::Chooser;
pub use from_blank::choose_from_blank;
