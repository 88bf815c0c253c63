//! The boxes of the cases.

use crate::cases::Case;
use crate::looks::line_of;
use ratatui_core::buffer::Buffer;
use ratatui_core::layout::{HorizontalAlignment, Rect};
use ratatui_core::text::Line;
use ratatui_core::widgets::Widget;
use std::alloc::{AllocError, Global};
use widget_boxes::{Block, BorderType, Borders, Padding, TitlePosition};

/// Returns the box around a widget that a case says, without a title.
pub fn plain_frame(alloc: Global, case: &Case<'_>) -> Block<'static> {
    Block::bordered(alloc)
        .style(case.style("inside"))
        .border_style(case.style("box"))
}

/// Returns the box around a widget that a case says, if there is one.
pub fn frame_of<'a>(alloc: Global, case: &Case<'a>) -> Result<Option<Block<'a>>, AllocError> {
    if case.option("box").is_none() {
        return Ok(None);
    }
    let frame = plain_frame(alloc, case);
    match case.option("title") {
        Some(title) => Ok(Some(frame.title(line_of(alloc, title)?)?)),
        None => Ok(Some(frame)),
    }
}

// The sides that letters say.
fn borders_of(letters: &str) -> Borders {
    let mut borders = Borders::NONE;
    for letter in letters.chars() {
        borders = borders
            | match letter {
                't' => Borders::TOP,
                'l' => Borders::LEFT,
                'r' => Borders::RIGHT,
                'b' => Borders::BOTTOM,
                _ => Borders::NONE,
            };
    }
    borders
}

fn type_of(case: &Case<'_>) -> BorderType {
    match case.text("type") {
        "rounded" => BorderType::Rounded,
        "double" => BorderType::Double,
        "thick" => BorderType::Thick,
        "light-double-dashed" => BorderType::LightDoubleDashed,
        "heavy-double-dashed" => BorderType::HeavyDoubleDashed,
        "light-triple-dashed" => BorderType::LightTripleDashed,
        "heavy-triple-dashed" => BorderType::HeavyTripleDashed,
        "light-quadruple-dashed" => BorderType::LightQuadrupleDashed,
        "heavy-quadruple-dashed" => BorderType::HeavyQuadrupleDashed,
        "quadrant-inside" => BorderType::QuadrantInside,
        "quadrant-outside" => BorderType::QuadrantOutside,
        _ => BorderType::Plain,
    }
}

// The space that four numbers say, between commas: left, right, above and below.
fn padding_of(case: &Case<'_>) -> Padding {
    let mut numbers = case.text("padding").split(",");
    let left = numbers.next().unwrap_or("").parse().unwrap_or(0);
    let right = numbers.next().unwrap_or("").parse().unwrap_or(0);
    let top = numbers.next().unwrap_or("").parse().unwrap_or(0);
    let bottom = numbers.next().unwrap_or("").parse().unwrap_or(0);
    Padding::new(left, right, top, bottom)
}

// A title with the alignment that a place has in its name.
fn aligned<'a>(line: Line<'a>, place: &str) -> Line<'a> {
    if place.ends_with("left") {
        line.alignment(HorizontalAlignment::Left)
    } else if place.ends_with("center") {
        line.alignment(HorizontalAlignment::Center)
    } else if place.ends_with("right") {
        line.alignment(HorizontalAlignment::Right)
    } else {
        line
    }
}

// A box with a title at a place as `top left`, `bottom` or `center`.
fn titled<'a>(block: Block<'a>, line: Line<'a>, place: &str) -> Result<Block<'a>, AllocError> {
    let line = aligned(line, place);
    if place.starts_with("top") {
        block.title_top(line)
    } else if place.starts_with("bottom") {
        block.title_bottom(line)
    } else {
        block.title(line)
    }
}

// The box that a case says, without its titles.
fn plain_block(alloc: Global, case: &Case<'_>) -> Block<'static> {
    let position = match case.text("at") {
        "bottom" => TitlePosition::Bottom,
        _ => TitlePosition::Top,
    };
    Block::new(alloc)
        .borders(borders_of(case.option("borders").unwrap_or("tlrb")))
        .border_type(type_of(case))
        .style(case.style("style"))
        .border_style(case.style("lines"))
        .title_style(case.style("titles"))
        .title_alignment(case.alignment("align"))
        .title_position(position)
        .padding(padding_of(case))
}

// A box with the titles that a case says.
fn with_titles<'a>(
    alloc: Global,
    case: &Case<'a>,
    plain: Block<'a>,
) -> Result<Block<'a>, AllocError> {
    let mut block = plain;
    let mut places = case.text("places").split(",");
    for text in case.texts.split(" | ") {
        let line = line_of(alloc, text)?;
        block = titled(block, line, places.next().unwrap_or(""))?;
    }
    Ok(block)
}

/// Renders the box that a case says.
pub fn block(
    alloc: Global,
    case: &Case<'_>,
    area: Rect,
    buffer: &mut Buffer,
) -> Result<(), AllocError> {
    with_titles(alloc, case, plain_block(alloc, case))?.render(area, buffer)
}
