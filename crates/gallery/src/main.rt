//! A picture of each widget, as docs/WIDGETS.md shows them: its name, and the rows of a small screen.
//! After them two recipes of docs/USING.md: a list with its state, drawn on a backend of one's own
//! after the selection moved down three times, in two rows, and how often it was drawn.
#![tactic(auto)]

mod apart;
mod bars;
mod boxes;
mod charts;
mod counting;
mod lists;
mod menu;
mod meters;

use crate::counting::Counting;
use crate::menu::draw_menu;
use jiff::civil::Date;
use ratatui_core::backend::TestBackend;
use ratatui_core::terminal::{Frame, Terminal};
use ratatui_widgets::ListState;
use std::alloc::{AllocError, Global};

// A widget, by its name.
#[derive(Clone, Copy)]
enum Picture {
    Block,
    Paragraph,
    List,
    Table,
    Tabs,
    Gauge,
    LineGauge,
    Scrollbar,
    Sparkline,
    BarChart,
    HorizontalBars,
    Canvas,
    Chart,
    Monthly,
    Popup,
    Throbber,
    ScrollView,
    Tree,
    BigText,
    RatatuiLogo,
    RatatuiMascot,
    Map,
}

impl Picture {
    fn name(self) -> &'static str {
        match self {
            Picture::Block => "Block",
            Picture::Paragraph => "Paragraph",
            Picture::List => "List",
            Picture::Table => "Table",
            Picture::Tabs => "Tabs",
            Picture::Gauge => "Gauge",
            Picture::LineGauge => "LineGauge",
            Picture::Scrollbar => "Scrollbar",
            Picture::Sparkline => "Sparkline",
            Picture::BarChart => "BarChart",
            Picture::HorizontalBars => "BarChart::horizontal",
            Picture::Canvas => "Canvas",
            Picture::Chart => "Chart",
            Picture::Monthly => "Monthly",
            Picture::Popup => "Popup",
            Picture::Throbber => "Throbber",
            Picture::ScrollView => "ScrollView",
            Picture::Tree => "Tree",
            Picture::BigText => "BigText",
            Picture::RatatuiLogo => "RatatuiLogo",
            Picture::RatatuiMascot => "RatatuiMascot",
            Picture::Map => "Map",
        }
    }

    // Paints it over a frame.
    fn paint(self, alloc: Global, frame: &mut Frame<'_>) -> Result<(), AllocError> {
        match self {
            Picture::Block => boxes::block(alloc, frame),
            Picture::Paragraph => boxes::paragraph(alloc, frame),
            Picture::List => lists::list(alloc, frame),
            Picture::Table => lists::table(alloc, frame),
            Picture::Tabs => lists::tabs(alloc, frame),
            Picture::Gauge => meters::gauge(frame),
            Picture::LineGauge => meters::line_gauge(alloc, frame),
            Picture::Scrollbar => meters::scrollbar(frame),
            Picture::Sparkline => bars::sparkline(alloc, frame),
            Picture::BarChart => bars::bar_chart(alloc, frame),
            Picture::HorizontalBars => bars::horizontal_bars(alloc, frame),
            Picture::Canvas => charts::canvas(frame),
            Picture::Chart => charts::chart(alloc, frame),
            Picture::Monthly => match Date::new(2026, 11, 29) {
                Ok(date) => apart::calendar(alloc, frame, date),
                Err(_) => Ok(()),
            },
            Picture::Popup => apart::popup(alloc, frame),
            Picture::Throbber => apart::throbber(frame),
            Picture::ScrollView => apart::scroll_view(alloc, frame),
            Picture::Tree => apart::tree(alloc, frame),
            Picture::BigText => apart::big_text(alloc, frame),
            Picture::RatatuiLogo => apart::logo(frame),
            Picture::RatatuiMascot => apart::mascot(frame),
            Picture::Map => charts::map(frame),
        }
    }
}

// Each widget, with the columns and rows of its picture.
static PICTURES: [(Picture, u16, u16); 22] = [
    (Picture::Block, 24, 4),
    (Picture::Paragraph, 24, 4),
    (Picture::List, 24, 3),
    (Picture::Table, 24, 3),
    (Picture::Tabs, 24, 1),
    (Picture::Gauge, 24, 1),
    (Picture::LineGauge, 24, 1),
    (Picture::Scrollbar, 1, 6),
    (Picture::Sparkline, 24, 2),
    (Picture::BarChart, 24, 6),
    (Picture::HorizontalBars, 24, 3),
    (Picture::Canvas, 24, 6),
    (Picture::Chart, 24, 8),
    (Picture::Monthly, 24, 7),
    (Picture::Popup, 24, 5),
    (Picture::Throbber, 24, 1),
    (Picture::ScrollView, 24, 4),
    (Picture::Tree, 24, 3),
    (Picture::BigText, 24, 4),
    (Picture::RatatuiLogo, 27, 2),
    (Picture::RatatuiMascot, 32, 16),
    (Picture::Map, 60, 15),
];

// Draws a widget on a screen of its own, and prints its name and that screen.
fn show(rt: &HostRuntime, picture: Picture, width: u16, height: u16) -> anyhow::Result<()> {
    let alloc = rt.alloc();
    let mut terminal = Terminal::new(alloc, TestBackend::new(alloc, width, height)?)?;
    terminal.draw(|frame| picture.paint(alloc, frame))?;
    println!(rt; "{}", picture.name())?;
    terminal.backend().write_to(&mut rt.stdout())?;
    Ok(())
}

// Draws a list three times, and prints the last screen.
fn show_menu(rt: &HostRuntime) -> anyhow::Result<()> {
    let alloc = rt.alloc();
    let backend = Counting::new(TestBackend::new(alloc, 12, 2)?);
    let mut terminal = Terminal::new(alloc, backend)?;
    let mut state = ListState::default();
    for _ in 0..3 {
        state.select_next();
        draw_menu(alloc, &mut terminal, &mut state)?;
    }
    let backend = terminal.backend();
    backend.inner().write_to(&mut rt.stdout())?;
    println!(rt; "{} draws", backend.draws())?;
    Ok(())
}

fn main(rt: HostRuntime) -> anyhow::Result<()> {
    for (picture, width, height) in PICTURES {
        show(&rt, picture, width, height)?;
    }
    show_menu(&rt)
}
