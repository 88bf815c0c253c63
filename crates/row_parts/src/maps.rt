//! Rows of maps.

use crate::rows::Row;
use canvas_map::{Map, MapResolution};
use ratatui_core::buffer::Buffer;
use ratatui_core::style::Color;
use ratatui_core::symbols::Marker;
use ratatui_core::widgets::Widget;
use std::alloc::{AllocError, Global};
use widget_canvas::{Canvas, Drawing};

// A number of degrees, in hundredths, or 0.
fn degrees(text: &str) -> i64 {
    match text.parse::<i16>() {
        Ok(number) => i64::from(number) * 100,
        Err(_) => 0,
    }
}

// A canvas of these bounds, if they are four.
fn canvas_in<'a>(canvas: Canvas<'a>, bounds: &str) -> Canvas<'a> {
    let Some((left, rest)) = bounds.split_once(',') else {
        return canvas;
    };
    let Some((right, rest)) = rest.split_once(',') else {
        return canvas;
    };
    let Some((bottom, top)) = rest.split_once(',') else {
        return canvas;
    };
    canvas
        .x_bounds([degrees(left), degrees(right)])
        .y_bounds([degrees(bottom), degrees(top)])
}

// A canvas with what a word says.
fn canvas_with<'a>(canvas: Canvas<'a>, word: &str) -> Canvas<'a> {
    match word.split_once(':') {
        Some(("in", bounds)) => canvas_in(canvas, bounds),
        Some(_) => canvas,
        None => match word {
            "dots" => canvas.marker(Marker::Dot),
            _ => canvas,
        },
    }
}

// Renders the map of a row.
pub fn render(alloc: Global, row: &Row<'_>, buffer: &mut Buffer) -> Result<String, AllocError> {
    let mut map = Map {
        resolution: MapResolution::Low,
        color: Color::Green,
    };
    for word in row.words.split(' ') {
        if word == "high" {
            map.resolution = MapResolution::High;
        }
    }
    let drawings = [Drawing::Points(map.points())];
    let mut canvas = Canvas::new()
        .x_bounds([-18000, 18000])
        .y_bounds([-9000, 9000])
        .paint(&drawings);
    for word in row.words.split(' ') {
        canvas = canvas_with(canvas, word);
    }
    canvas.render(row.area(), buffer)?;
    Ok(String::new(alloc))
}
