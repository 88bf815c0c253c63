//! Examples of positions, rectangles and layouts.
use ratatui_core::backend::TestBackend;
use ratatui_core::layout::{
    Constraint, Flex, Layout, Margin, Offset, Position, Rect, Split, SplitAreaInto, SplitInto,
};
use ratatui_core::terminal::{Frame, Terminal};
use ratatui_core::text::Line;
use std::alloc::{AllocError, Global};
use std::test::Fail;

#[test]
fn a_position_is_moved(rt: HostRuntime) {
    assert!(rt; Position::new(3, 4) + Offset::new(-5, 1) == Position::new(0, 5));
}

#[test]
fn a_rectangle_has_an_inside(rt: HostRuntime) {
    let screen = Rect::new(0, 0, 80, 24);
    let inside = screen.inner(Margin::new(2, 1));
    assert!(rt; inside == Rect::new(2, 1, 76, 22));
    assert!(rt; inside.contains(Position::new(77, 22)));
    assert!(rt; inside.right() == 78);
}

#[test]
fn constraints_are_made_of_numbers(rt: HostRuntime) -> Result<(), AllocError> {
    let alloc = rt.alloc();
    let made = Constraint::from_percentages(alloc, &[25, 75])?;
    assert!(rt;
        made.as_slice() == [Constraint::Percentage(25), Constraint::Percentage(75)].as_slice()
    );
    assert!(rt; Constraint::Ratio(1, 3).is_ratio());
    Ok(())
}

#[test]
fn a_layout_has_what_it_was_given(rt: HostRuntime) -> Result<(), AllocError> {
    let alloc = rt.alloc();
    let parts = [Constraint::Length(3), Constraint::Min(0)];
    let layout = Layout::vertical(alloc, &parts)?.margin(1).flex(Flex::End);
    assert!(rt; layout.margin_of() == Margin::new(1, 1));
    assert!(rt; layout.constraints_of() == parts.as_slice());
    Ok(())
}

// The parts of a frame: a row, and what is left.
fn divided(alloc: Global, frame: &mut Frame<'_>) -> Result<[Rect; 2], AllocError> {
    let layout = Layout::vertical(alloc, &[Constraint::Length(1), Constraint::Fill(1)])?;
    let parts = layout.split(alloc, frame.area())?;
    let [head, body]: [Rect; 2] = layout.areas(frame.area());
    let count = if parts.len() == 2 { "two" } else { "" };
    frame.render_widget(Line::raw(alloc, count)?, head)?;
    Ok([head, body])
}

// The same, asked of the area.
fn divided_by(alloc: Global, frame: &Frame<'_>) -> Result<[Rect; 2], AllocError> {
    let layout = Layout::vertical(alloc, &[Constraint::Length(1), Constraint::Fill(1)])?;
    let [head, body]: [Rect; 2] = frame.area().layout(&layout);
    Ok([head, body])
}

#[test]
fn a_layout_divides_an_area(rt: HostRuntime) -> Result<(), Fail> {
    let alloc = rt.alloc();
    let mut terminal = Terminal::new(alloc, TestBackend::new(alloc, 3, 4)?)?;
    let mut frame = terminal.get_frame();
    let [head, body] = divided(alloc, &mut frame)?;
    assert!(rt; head == Rect::new(0, 0, 3, 1));
    assert!(rt; body == Rect::new(0, 1, 3, 3));
    assert!(rt; divided_by(alloc, &frame)? == [head, body]);
    Ok(())
}
