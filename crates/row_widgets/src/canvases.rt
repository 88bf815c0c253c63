//! The canvases of the cases.

use crate::boxes::plain_frame;
use crate::cases::{Case, pair_of};
use crate::looks::{color_of, line_of};
use ratatui_core::buffer::Buffer;
use ratatui_core::layout::Rect;
use ratatui_core::style::Color;
use ratatui_core::symbols::Marker;
use ratatui_core::widgets::Widget;
use std::alloc::{AllocError, Global};
use widget_canvas::{Canvas, Circle, Drawing, Label, Line, Points, Rectangle};

/// Returns the marker that a case says.
pub fn marker_of(case: &Case<'_>) -> Marker {
    match case.text("marker") {
        "dot" => Marker::Dot,
        "bar" => Marker::Bar,
        "block" => Marker::Block,
        "half" => Marker::HalfBlock,
        "quadrant" => Marker::Quadrant,
        "sextant" => Marker::Sextant,
        "octant" => Marker::Octant,
        _ => Marker::Braille,
    }
}

// The points that a text says: all its words that are two numbers with a comma between them.
fn points_of(alloc: Global, text: &str) -> Result<Vec<(i64, i64)>, AllocError> {
    let mut points = Vec::new(alloc);
    for word in text.split(" ") {
        if let Some(point) = pair_of(word) {
            points.push(point)?;
        }
    }
    Ok(points)
}

/// Returns the points of each text.
pub fn all_points(alloc: Global, texts: &str) -> Result<Vec<Vec<(i64, i64)>>, AllocError> {
    let mut lists = Vec::new(alloc);
    for text in texts.split(" | ") {
        lists.push(points_of(alloc, text)?)?;
    }
    Ok(lists)
}

// The colour that a letter says; what is none is the terminal's own.
fn paint_of(letter: &str) -> Color {
    match letter.chars().next() {
        Some(letter) => color_of(letter).unwrap_or(Color::Reset),
        None => Color::Reset,
    }
}

// A word of a text, from 0 on.
fn word(text: &str, index: usize) -> &str {
    text.split(" ").nth(index).unwrap_or("")
}

// A word of a text as a number.
fn number(text: &str, index: usize) -> i64 {
    word(text, index).parse().unwrap_or(0)
}

fn drawn_line(text: &str) -> Line {
    Line {
        x1: number(text, 2),
        y1: number(text, 3),
        x2: number(text, 4),
        y2: number(text, 5),
        color: paint_of(word(text, 1)),
    }
}

fn rectangle_of(text: &str) -> Rectangle {
    Rectangle {
        x: number(text, 2),
        y: number(text, 3),
        width: number(text, 4),
        height: number(text, 5),
        color: paint_of(word(text, 1)),
    }
}

fn circle_of(text: &str) -> Circle {
    Circle {
        x: number(text, 2),
        y: number(text, 3),
        radius: number(text, 4).max(0) as u64,
        color: paint_of(word(text, 1)),
    }
}

// What a text with these points draws, if it isn't a label.
fn drawing_of<'a>(text: &str, coords: &'a [(i64, i64)]) -> Option<Drawing<'a>> {
    match word(text, 0) {
        "line" => Some(Drawing::Line(drawn_line(text))),
        "rectangle" => Some(Drawing::Rectangle(rectangle_of(text))),
        "circle" => Some(Drawing::Circle(circle_of(text))),
        "points" => {
            let color = paint_of(word(text, 1));
            Some(Drawing::Points(Points { coords, color }))
        }
        "layer" => Some(Drawing::Layer),
        _ => None,
    }
}

// What texts between bars draw, each with its points.
fn drawings_of<'a>(
    alloc: Global,
    texts: &str,
    points: &'a [Vec<(i64, i64)>],
) -> Result<Vec<Drawing<'a>>, AllocError> {
    let mut drawings = Vec::new(alloc);
    for (text, coords) in texts.split(" | ").zip(points.iter()) {
        if let Some(drawing) = drawing_of(text, coords.as_slice()) {
            drawings.push(drawing)?;
        }
    }
    Ok(drawings)
}

// The labels among texts between bars, as `print 3 4 some text`.
fn labels_of<'a>(alloc: Global, texts: &'a str) -> Result<Vec<Label<'a>>, AllocError> {
    let mut labels = Vec::new(alloc);
    for text in texts.split(" | ") {
        if word(text, 0) == "print" {
            let content = text.splitn(4, " ").nth(3).unwrap_or("");
            let line = line_of(alloc, content)?;
            labels.push(Label::new(number(text, 1), number(text, 2), line))?;
        }
    }
    Ok(labels)
}

// Renders a canvas with these shapes and labels.
fn render_canvas<'a>(
    alloc: Global,
    case: &Case<'_>,
    shown: (&'a [Drawing<'a>], &'a [Label<'a>]),
    area: Rect,
    buffer: &mut Buffer,
) -> Result<(), AllocError> {
    let canvas = Canvas::new()
        .x_bounds(case.bounds("x"))
        .y_bounds(case.bounds("y"))
        .marker(marker_of(case))
        .background_color(paint_of(case.text("back")))
        .paint(shown.0)
        .print(shown.1);
    match case.option("box") {
        Some(_) => canvas.block(plain_frame(alloc, case)).render(area, buffer),
        None => canvas.render(area, buffer),
    }
}

/// Renders the canvas that a case says.
pub fn canvas(
    alloc: Global,
    case: &Case<'_>,
    area: Rect,
    buffer: &mut Buffer,
) -> Result<(), AllocError> {
    let points = all_points(alloc, case.texts)?;
    let texts = String::from_str(alloc, case.texts)?;
    let drawings = drawings_of(alloc, case.texts, points.as_slice())?;
    let labels = labels_of(alloc, texts.as_str())?;
    let shown = (drawings.as_slice(), labels.as_slice());
    render_canvas(alloc, case, shown, area, buffer)
}
