//! A chart: the points of data sets by dots, in whole numbers, between two axes.
//!
//! It stands on `ratatui_core`, `widget_boxes`, `rtui_drawing` and `widget_canvas`, which shows the
//! dots. `specs/ChartLayouts` says how many columns and rows the parts of a chart take,
//! `specs/ChartParts` what they draw, `specs/Legends` the same of the legend, `specs/Plots` what a
//! whole chart draws, `specs/NarrowCharts` which charts have texts and marks of one column, and
//! `specs/ShortCharts` which take no memory.
#![tactic(auto)]

mod axis;
mod chart;
mod dataset;
pub mod laws;
mod layout;
mod legend;
mod parts;
mod styled;

pub use axis::Axis;
pub use chart::Chart;
pub use dataset::{Dataset, GraphType};
pub use legend::LegendPosition;
