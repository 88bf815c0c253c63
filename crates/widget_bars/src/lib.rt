//! Bar charts: bars in groups, each as long as its share of the greatest value.
//!
//! It stands on `ratatui_core`, `widget_boxes`, `rtui_inside` and `widget_sparkline`, whose
//! `specs/Levels` says how high a value is in eighths of a cell and by which symbol a cell shows it.
//! `specs/BarAreas` says where bars stand, and `specs/BarCharts` what a bar chart draws.
#![tactic(auto)]

mod area;
mod chart;
mod chart_part;
mod group;
pub mod laws;
mod long_bar;
mod styled;

pub use chart::BarChart;
pub use group::{Bar, BarGroup};
