//! A box in the middle of an area, over what stands there.
//!
//! It stands on `ratatui_core`, `widget_boxes`, `rtui_drawing` and `rtui_inside`. `specs/Places` says
//! where a popup stands, `specs/Popups` what it makes of a buffer.
#![tactic(auto)]

pub mod laws;
mod popup;
mod styled;

pub use popup::Popup;
