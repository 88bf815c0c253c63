//! Bars.
use ratatui_core::terminal::Frame;
use ratatui_core::text::Line;
use ratatui_widgets::{Bar, BarChart, Sparkline, SparklineBar};
use std::alloc::{AllocError, Global};

/// Draws numbers, a column each.
pub fn sparkline(alloc: Global, frame: &mut Frame<'_>) -> Result<(), AllocError> {
    let area = frame.area();
    let mut bars = Vec::new(alloc);
    for value in [1, 3, 4, 8, 5, 2, 0, 7, 11, 16, 12, 9, 6, 3] {
        bars.push(SparklineBar::new(Some(value)))?;
    }
    frame.render_widget(Sparkline::new(bars), area)
}

/// Draws bars with labels and values.
pub fn bar_chart(alloc: Global, frame: &mut Frame<'_>) -> Result<(), AllocError> {
    let area = frame.area();
    let mut bars = Vec::new(alloc);
    for (name, value) in [("Mon", 3), ("Tue", 9), ("Wed", 6)] {
        bars.push(Bar::with_label(Line::raw(alloc, name)?, value))?;
    }
    let chart = BarChart::new(alloc, bars)?.bar_width(4).bar_gap(2);
    frame.render_widget(chart, area)
}

/// Draws bars that grow to the right.
pub fn horizontal_bars(alloc: Global, frame: &mut Frame<'_>) -> Result<(), AllocError> {
    let area = frame.area();
    let mut bars = Vec::new(alloc);
    for (name, value) in [("Mon", 3), ("Tue", 9), ("Wed", 6)] {
        bars.push(Bar::with_label(Line::raw(alloc, name)?, value))?;
    }
    let chart = BarChart::horizontal(alloc, bars)?.bar_gap(0);
    frame.render_widget(chart, area)
}
