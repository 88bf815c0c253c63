//! A calendar, a popup, a throbber, a scroll view, a tree, a big text, a logo and a mascot, which stand in
//! crates of their own.
use jiff::civil::Date;
use ratatui_core::layout::{Position, Size};
use ratatui_core::style::{Style, Stylize};
use ratatui_core::terminal::Frame;
use ratatui_core::text::{Span, Text};
use ratatui_widgets::Block;
use std::alloc::{AllocError, Global};
use widget_big_text::{BigText, PixelSize};
use widget_calendar::{CalendarEventStore, Monthly};
use widget_logo::{MascotEyeColor, RatatuiLogo, RatatuiMascot};
use widget_popup::Popup;
use widget_scroll_view::{ScrollView, ScrollViewState};
use widget_throbber::{ASCII, Throbber, ThrobberState};
use widget_tree::{Tree, TreeItem, TreeState};

/// Draws the calendar of a month, of which a day has a style of its own.
pub fn calendar(alloc: Global, frame: &mut Frame<'_>, date: Date) -> Result<(), AllocError> {
    let area = frame.area();
    let mut events = CalendarEventStore::new(alloc);
    events.add(date, Style::new().red())?;
    let monthly = Monthly::new(date, events)
        .show_month_header(Style::new().bold())
        .show_weekdays_header(Style::new());
    frame.render_widget(monthly, area)
}

/// Draws a popup over points.
pub fn popup(alloc: Global, frame: &mut Frame<'_>) -> Result<(), AllocError> {
    let area = frame.area();
    let popup = Popup::raw(alloc, "Remove it? y/n")?
        .block(Block::bordered(alloc).title_raw("Remove")?)
        .style(Style::new().on_red());
    frame.render_widget(popup, area)
}

/// Draws a throbber that was turned once.
pub fn throbber(frame: &mut Frame<'_>) -> Result<(), AllocError> {
    let area = frame.area();
    let mut state = ThrobberState::new();
    state.calc_next();
    let throbber = Throbber::new()
        .label(Span::raw("Loading"))
        .throbber_set(ASCII);
    frame.render_stateful_widget(throbber, area, &mut state)
}

/// Draws a part of a text that is higher than the screen.
pub fn scroll_view(alloc: Global, frame: &mut Frame<'_>) -> Result<(), AllocError> {
    let text = Text::raw(alloc, "one\ntwo\nthree\nfour\nfive\nsix\nseven\neight")?;
    let mut view = ScrollView::new(alloc, Size::new(12, 8))?;
    let whole = view.area();
    view.render_widget(&text, whole)?;
    let area = frame.area();
    let mut state = ScrollViewState::with_offset(Position::new(0, 2));
    frame.render_stateful_widget(&view, area, &mut state)
}

/// Draws a tree of which a node is opened.
pub fn tree(alloc: Global, frame: &mut Frame<'_>) -> Result<(), AllocError> {
    let items = vec![in alloc;
        TreeItem::raw(alloc, 0, "src")?,
        TreeItem::raw(alloc, 1, "lib.rt")?,
        TreeItem::raw(alloc, 0, "README.md")?,
    ]?;
    let area = frame.area();
    let tree = Tree::new(alloc, items)?.highlight_symbol("> ");
    let mut state = TreeState::new(alloc);
    state.key_down(&tree);
    state.key_right(&tree)?;
    frame.render_stateful_widget(&tree, area, &mut state)
}

/// Draws a text in large letters.
pub fn big_text(alloc: Global, frame: &mut Frame<'_>) -> Result<(), AllocError> {
    let area = frame.area();
    let text = BigText::raw(alloc, "Rattle")?
        .pixel_size(PixelSize::Quadrant)
        .cyan();
    frame.render_widget(text, area)
}

/// Draws the logo.
pub fn logo(frame: &mut Frame<'_>) -> Result<(), AllocError> {
    let area = frame.area();
    frame.render_widget(RatatuiLogo::small(), area)
}

/// Draws the mascot.
pub fn mascot(frame: &mut Frame<'_>) -> Result<(), AllocError> {
    let area = frame.area();
    frame.render_widget(RatatuiMascot::new().set_eye(MascotEyeColor::Red), area)
}
