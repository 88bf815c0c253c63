//! Frames with one widget on a screen in memory, and a widget that keeps a state.
ghost use Rattle.std.specs.Prelude.{⊤};

use guide::{Gauge, draw_gauge, draw_text};
use ratatui_core::backend::TestBackend;
use ratatui_core::buffer::Buffer;
use ratatui_core::layout::Rect;
use ratatui_core::style::{Color, Style};
use ratatui_core::terminal::Terminal;
use ratatui_core::text::{Line, Text};
use ratatui_core::widgets::{StatefulWidget, Widget};
use std::alloc::{AllocError, Global};
use std::test::Fail;

// A terminal over a screen of 6 columns and 2 rows.
fn terminal(alloc: Global) -> Result<Terminal<TestBackend>, Fail> {
    let backend = TestBackend::new(alloc, 6, 2)?;
    match Terminal::new(alloc, backend) {
        Ok(terminal) => Ok(terminal),
        Err(_) => Err(Fail::from(AllocError)),
    }
}

// How many cells of the screen are green.
fn green_cells(terminal: &Terminal<TestBackend>) -> usize {
    let cells = terminal.backend().buffer().content();
    cells.iter().filter(|cell| cell.bg == Color::Green).count()
}

// Whether a gauge of this label and width leaves this first row on the screen, and so many cells
// green.
fn gauge_shows(
    alloc: Global,
    filled: u16,
    label: &str,
    row: &str,
    green: usize,
) -> Result<bool, Fail> {
    let mut terminal = terminal(alloc)?;
    let gauge = Gauge {
        filled,
        label: Line::raw(alloc, label)?,
        style: Style::new().bg(Color::Green),
    };
    let drawn = draw_gauge(&mut terminal, &gauge);
    Ok(
        drawn == Ok(Rect::new(0, 0, 6, 2))
            && terminal.backend().lines_are(&[row, "      "])
            && green_cells(&terminal) == green,
    )
}

#[test]
fn gauges(rt: HostRuntime) -> Result<(), Fail> {
    assert!(rt; gauge_shows(rt.alloc(), 3, "50%", "50%   ", 3)?);
    assert!(rt; gauge_shows(rt.alloc(), 9, "", "      ", 6)?);
    assert!(rt; gauge_shows(rt.alloc(), 0, "too long", "too lo", 0)?);
    assert!(rt; gauge_shows(rt.alloc(), 2, "コ", "コ    ", 1)?);
    Ok(())
}

// Whether a text leaves these rows on the screen.
fn text_shows(alloc: Global, text: &str, first: &str, second: &str) -> Result<bool, Fail> {
    let mut terminal = terminal(alloc)?;
    let text = Text::raw(alloc, text)?;
    Ok(draw_text(&mut terminal, &text).is_ok() && terminal.backend().lines_are(&[first, second]))
}

#[test]
fn texts(rt: HostRuntime) -> Result<(), Fail> {
    assert!(rt; text_shows(rt.alloc(), "ab\nコン", "ab    ", "コン  ")?);
    Ok(())
}

// Greets the one whose name is its state, and adds a mark to the name.
#[derive(Clone, Copy)]
struct Greeting;

impl StatefulWidget for Greeting {
    type State = String;

    ghost renders = { λ _ _ _ _ _ _. ⊤ };

    fn render(self, area: Rect, buf: &mut Buffer, state: &mut String) -> Result<(), AllocError> {
        let alloc = *state.allocator();
        let greeting = format!(in alloc; "Hi {state}")?;
        state.push_str("!")?;
        Line::raw_string(alloc, greeting)?.render(area, buf)
    }
}

// Whether a buffer shows a greeting, and its state went on.
fn greets_on_a_buffer(alloc: Global) -> Result<bool, AllocError> {
    let area = Rect::new(0, 0, 6, 1);
    let mut buffer = Buffer::empty(alloc, area)?;
    let mut state = String::from_str(alloc, "you")?;
    Greeting.render(area, &mut buffer, &mut state)?;
    let mut shown = String::new(alloc);
    for cell in buffer.content() {
        shown.push_str(cell.symbol())?;
    }
    Ok(shown.as_str() == "Hi you" && state.as_str() == "you!")
}

// Draws a frame with a greeting, and answers whether it was drawn.
fn draws_greeting(terminal: &mut Terminal<TestBackend>, state: &mut String) -> bool {
    let drawn = terminal.draw(|frame| {
        let area = frame.area();
        frame.render_stateful_widget(Greeting, area, state)
    });
    drawn.is_ok()
}

#[test]
fn greetings(rt: HostRuntime) -> Result<(), Fail> {
    assert!(rt; greets_on_a_buffer(rt.alloc())?);
    let mut terminal = terminal(rt.alloc())?;
    let mut state = String::from_str(rt.alloc(), "I")?;
    assert!(rt; draws_greeting(&mut terminal, &mut state));
    assert!(rt; draws_greeting(&mut terminal, &mut state));
    assert!(rt; terminal.backend().lines_are(&["Hi I! ", "      "]));
    assert!(rt; state.as_str() == "I!!");
    Ok(())
}
