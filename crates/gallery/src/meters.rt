//! Gauges and a scroll bar.
use ratatui_core::style::Stylize;
use ratatui_core::terminal::Frame;
use ratatui_core::text::Line;
use ratatui_widgets::{Gauge, LineGauge, Scrollbar, ScrollbarOrientation, ScrollbarState};
use std::alloc::{AllocError, Global};

/// Draws a share of a whole, in eighths of a column.
pub fn gauge(frame: &mut Frame<'_>) -> Result<(), AllocError> {
    let area = frame.area();
    let gauge = Gauge::new().ratio(1, 3).use_unicode(true).green();
    frame.render_widget(gauge, area)
}

/// Draws a share of a whole, in one row.
pub fn line_gauge(alloc: Global, frame: &mut Frame<'_>) -> Result<(), AllocError> {
    let area = frame.area();
    let gauge = LineGauge::new()
        .percent(40)
        .label(Line::raw(alloc, "sent")?);
    frame.render_widget(gauge, area)
}

/// Draws where the third of six parts is.
pub fn scrollbar(frame: &mut Frame<'_>) -> Result<(), AllocError> {
    let area = frame.area();
    let mut state = ScrollbarState::new(6).position(2);
    let bar = Scrollbar::new(ScrollbarOrientation::VerticalRight);
    frame.render_stateful_widget(bar, area, &mut state)
}
