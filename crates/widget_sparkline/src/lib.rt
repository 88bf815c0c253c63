//! Sparklines: values side by side in columns, each as high as its share of the greatest one.
//!
//! It stands on `ratatui_core` and `widget_boxes`. `specs/Levels` says how high a value is in
//! eighths of a cell and by which symbol a cell shows it, `specs/Sparklines` what each cell of a
//! sparkline shows. [`fill`] sets the symbols of such bars, and of a bar chart's, in an area.
#![tactic(auto)]

pub mod fill;
pub mod laws;
pub mod level;
mod sparkline;
mod styled;

pub use sparkline::{RenderDirection, Sparkline, SparklineBar};
