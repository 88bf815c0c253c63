//! Widgets that show how much there is of a whole: gauges in an area and in a row.
//!
//! It stands on `ratatui_core` and `widget_boxes`. `specs/Shares` says how many columns a share
//! fills, `specs/Gauges` and `specs/LineGauges` which cell gets which symbol and style.
#![tactic(auto)]

mod gauge;
pub mod laws;
mod line_gauge;
mod share;
mod styled;

pub use gauge::Gauge;
pub use line_gauge::LineGauge;
