//! The first page: texts and lists in boxes, and gauges.

ghost use Rattle.std.specs.Prelude.{◌≡◌};

use ratatui_core::buffer::Buffer;
use ratatui_core::layout::{Constraint, Layout, Rect, Spacing, SplitInto};
use ratatui_core::style::{Color, Modifier, Style};
use ratatui_core::symbols::line;
use ratatui_core::symbols::merge::MergeStrategy;
use ratatui_core::text::{Line, Span, Text};
use ratatui_core::widgets::{StatefulWidget, Widget};
use ratatui_widgets::{
    Block, BorderType, Gauge, LineGauge, List, ListItem, ListState, Padding, Paragraph, Scrollbar,
    ScrollbarOrientation, ScrollbarState, Wrap,
};
use std::alloc::{AllocError, Global};

// The box at the left.
fn left_box<'a>(alloc: Global) -> Result<Block<'a>, AllocError> {
    Block::bordered(alloc)
        .border_type(BorderType::Rounded)
        .border_style(Style::new().fg(Color::Cyan))
        .merge_borders(MergeStrategy::Fuzzy)
        .padding(Padding::horizontal(1))
        .title_style(Style::new().add_modifier(Modifier::BOLD))
        .title(Line::raw(alloc, " Paragraph ")?.style(Style::new().fg(Color::Yellow)))?
        .title(Line::raw(alloc, " 日本語 ")?.right_aligned())?
        .title_bottom(Line::raw(alloc, " wrapped ")?.centered())
}

// The text of the paragraph.
fn text<'a>(alloc: Global) -> Result<Text<'a>, AllocError> {
    let mut line = Line::raw(alloc, "Words are broken ")?;
    line.push_span(Span::styled(
        "between",
        Style::new()
            .fg(Color::Green)
            .add_modifier(Modifier::UNDERLINED),
    ))?;
    line.push_span(Span::raw(" them, and wide characters take two columns each: "))?;
    line.push_span(Span::styled("コンピュータ上で文字を扱う場合", Style::new().fg(Color::LightRed)))?;
    line.push_span(Span::raw("; a longwordthatdoesntfitinarowisbrokenwithin."))?;
    let mut text = Text::from_line(alloc, line)?;
    text.push_line(Line::raw(alloc, "")?)?;
    text.push_line(Line::raw(alloc, "centred")?.centered())?;
    text.push_line(Line::raw(alloc, "and right")?.right_aligned())?;
    Ok(text)
}

// The box at the right.
fn right_box<'a>(alloc: Global) -> Result<Block<'a>, AllocError> {
    Block::bordered(alloc)
        .border_type(BorderType::Rounded)
        .border_style(Style::new().fg(Color::Cyan))
        .merge_borders(MergeStrategy::Fuzzy)
        .title(Line::raw(alloc, " List ")?.style(Style::new().fg(Color::Yellow)))
}

// What the list names.
static NAMES: [&str; 24] = [
    "rtui_geometry",
    "rtui_layout",
    "rtui_style",
    "rtui_palette",
    "rtui_symbols",
    "rtui_merge",
    "rtui_cell",
    "rtui_text",
    "rtui_drawing",
    "ratatui_acts",
    "rtui_diff",
    "rtui_buffer",
    "rtui_widgets",
    "widget_canvas",
    "rtui_backend",
    "rtui_viewport",
    "rtui_insert",
    "rtui_terminal",
    "ratatui_core",
    "ratatui_ansi",
    "widget_boxes",
    "widget_meters",
    "widget_list",
    "ratatui_widgets",
];

// The items of the list: a name in each, after a mark in colour.
fn items<'a>(alloc: Global) -> Result<Vec<ListItem<'a>>, AllocError> {
    let mut items = Vec::new(alloc);
    for name in &NAMES {
        let mut line = Line::styled(alloc, "● ", Style::new().fg(Color::Green))?;
        line.push_span(Span::styled(name, Style::new().fg(Color::White)))?;
        items.push(ListItem::new(Text::from_line(alloc, line)?))?;
    }
    Ok(items)
}

// Paints the list with its scroll bar.
fn paint_list(alloc: Global, area: Rect, buf: &mut Buffer) -> Result<(), AllocError>
    ensures { buf.new.area ≡ buf.old.area }
{
    let mut state = ListState::default().with_selected(Some(20));
    let list = List::new(items(alloc)?)
        .block(right_box(alloc)?)
        .highlight_symbol(Line::raw(alloc, "▶ ")?)
        .highlight_style(
            Style::new()
                .bg(Color::Rgb(40, 60, 110))
                .add_modifier(Modifier::BOLD),
        )
        .scroll_padding(2);
    StatefulWidget::render(list, area, buf, &mut state)?;
    let rows = area.height.saturating_sub(2);
    let mut seen = ScrollbarState::new(
        NAMES
            .len()
            .saturating_sub(usize::from(rows))
            .saturating_add(1),
    )
    .viewport_content_length(usize::from(rows))
    .position(state.offset());
    let side = Rect {
        y: area.y.saturating_add(1),
        height: rows,
        ..area
    };
    Scrollbar::new(ScrollbarOrientation::VerticalRight)
        .thumb_style(Style::new().fg(Color::Yellow))
        .track_style(Style::new().fg(Color::DarkGray))
        .render(side, buf, &mut seen)
}

// Paints the gauges: one in a box, and one in a row.
fn paint_gauges(alloc: Global, area: Rect, row: Rect, buf: &mut Buffer) -> Result<(), AllocError>
    ensures { buf.new.area ≡ buf.old.area }
{
    let frame = Block::bordered(alloc)
        .border_type(BorderType::Rounded)
        .border_style(Style::new().fg(Color::Cyan))
        .merge_borders(MergeStrategy::Fuzzy);
    Gauge::new()
        .block(frame)
        .ratio(2, 3)
        .use_unicode(true)
        .gauge_style(Style::new().fg(Color::Green).bg(Color::Rgb(30, 40, 30)))
        .label(Span::raw("two thirds of a gauge"))
        .render(area, buf)?;
    LineGauge::new()
        .percent(40)
        .line_set(line::THICK)
        .filled_style(Style::new().fg(Color::Magenta))
        .unfilled_style(Style::new().fg(Color::DarkGray))
        .render(row, buf)
}

/// Paints two boxes that share a column, under them a gauge that shares a row with both, and another
/// one.
pub fn paint(alloc: Global, buf: &mut Buffer) -> Result<(), AllocError>
    ensures { buf.new.area ≡ buf.old.area }
{
    let area = *buf.area();
    let height = area.height.saturating_sub(4);
    let boxes = Layout::horizontal(alloc, &[Constraint::Fill(1), Constraint::Fill(1)])?.spacing(
        Spacing::Overlap(1),
    );
    let [left, right]: [Rect; 2] = boxes.areas(Rect { height, ..area });
    let below = Rect::new(0, height.saturating_sub(1), area.width, 3);
    let row = Rect::new(
        1,
        area.height.saturating_sub(1),
        area.width.saturating_sub(2),
        1,
    );
    Paragraph::new(text(alloc)?)
        .block(left_box(alloc)?)
        .wrap(Wrap { trim: true })
        .render(left, buf)?;
    paint_list(alloc, right, buf)?;
    paint_gauges(alloc, below, row, buf)
}
