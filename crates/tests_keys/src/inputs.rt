//! What an input shows of a field, and where its cursor stands.

use ratatui_core::backend::{Backend, TestBackend};
use ratatui_core::buffer::Buffer;
use ratatui_core::layout::{Position, Rect};
use ratatui_core::style::Style;
use ratatui_core::terminal::{Frame, Terminal};
use ratatui_core::widgets::StatefulWidget;
use std::alloc::{AllocError, Global};
use std::test::Fail;
use text_field::{Reach, TextField};
use widget_boxes::Block;
use widget_field::{Input, cursor_position};

// Whether these are the symbols of a row, one after the other.
fn row_is(buffer: &Buffer, y: u16, symbols: &str) -> bool {
    let mut left = symbols;
    for x in 0..buffer.area().width {
        let Some(cell) = buffer.cell(Position { x, y }) else {
            return false;
        };
        match left.strip_prefix(cell.symbol()) {
            Some(rest) => left = rest,
            None => return false,
        }
    }
    left.is_empty()
}

// Whether an input shows these symbols of a field in a row of so many columns, with the cursor in
// this column.
fn shows(
    alloc: Global,
    input: &Input<'_>,
    width: u16,
    field: &mut TextField,
    symbols: &str,
    column: u16,
) -> bool {
    let area = Rect::new(0, 0, width, 1);
    let Ok(mut buffer) = Buffer::empty(alloc, area) else {
        return false;
    };
    let Ok(()) = StatefulWidget::render(input, area, &mut buffer, field) else {
        return false;
    };
    row_is(&buffer, 0, symbols) && cursor_position(field) == Some(Position { x: column, y: 0 })
}

#[test]
fn the_cursor_stays_in_view(rt: HostRuntime) -> Result<(), AllocError> {
    let alloc = rt.alloc();
    let input = Input::new();
    let mut field = TextField::new(alloc);
    assert!(rt; shows(alloc, &input, 6, &mut field, "      ", 0));
    field.insert_str("hello")?;
    assert!(rt; shows(alloc, &input, 6, &mut field, "hello ", 5));
    field.insert_str(" world")?;
    assert!(rt; shows(alloc, &input, 6, &mut field, "world ", 5));
    field.move_left(Reach::Grapheme);
    assert!(rt; shows(alloc, &input, 6, &mut field, "world ", 4));
    field.move_left(Reach::All);
    assert!(rt; shows(alloc, &input, 6, &mut field, "hello ", 0));
    field.move_right(Reach::Word);
    assert!(rt; shows(alloc, &input, 6, &mut field, "hello ", 5));
    field.move_right(Reach::Grapheme);
    assert!(rt; shows(alloc, &input, 6, &mut field, "ello w", 5));
    Ok(())
}

#[test]
fn no_room_is_wasted(rt: HostRuntime) -> Result<(), AllocError> {
    let alloc = rt.alloc();
    let input = Input::new();
    let mut field = TextField::new(alloc);
    field.insert_str("one two three")?;
    assert!(rt; shows(alloc, &input, 6, &mut field, "three ", 5));
    field.delete_left(Reach::Word);
    assert!(rt; shows(alloc, &input, 6, &mut field, " two  ", 5));
    field.delete_left(Reach::Word);
    assert!(rt; shows(alloc, &input, 6, &mut field, "one   ", 4));
    Ok(())
}

#[test]
fn no_wide_grapheme_is_cut(rt: HostRuntime) -> Result<(), AllocError> {
    let alloc = rt.alloc();
    let input = Input::new();
    let mut field = TextField::new(alloc);
    field.insert_str("世界人")?;
    assert!(rt; shows(alloc, &input, 6, &mut field, "界 人   ", 4));
    assert!(rt; shows(alloc, &input, 5, &mut field, "界 人  ", 4));
    assert!(rt; shows(alloc, &input, 2, &mut field, "  ", 0));
    field.move_left(Reach::All);
    assert!(rt; shows(alloc, &input, 3, &mut field, "世  ", 0));
    Ok(())
}

#[test]
fn a_placeholder_stands_for_no_text(rt: HostRuntime) -> Result<(), AllocError> {
    let alloc = rt.alloc();
    let input = Input::new().placeholder("name", Style::new());
    let mut field = TextField::new(alloc);
    assert!(rt; shows(alloc, &input, 6, &mut field, "name  ", 0));
    field.insert('x')?;
    assert!(rt; shows(alloc, &input, 6, &mut field, "x     ", 1));
    Ok(())
}

#[test]
fn a_mask_stands_for_each_grapheme(rt: HostRuntime) -> Result<(), AllocError> {
    let alloc = rt.alloc();
    let input = Input::new().placeholder("secret", Style::new()).mask('*');
    let mut field = TextField::new(alloc);
    assert!(rt; shows(alloc, &input, 8, &mut field, "secret  ", 0));
    field.insert_str("ae\u{301}世b")?;
    field.move_left(Reach::Grapheme);
    assert!(rt; shows(alloc, &input, 8, &mut field, "****    ", 3));
    let copy = input.clone(alloc)?;
    assert!(rt; copy == input);
    Ok(())
}

#[test]
fn an_input_stands_in_a_box(rt: HostRuntime) -> Result<(), AllocError> {
    let alloc = rt.alloc();
    let mut field = TextField::new(alloc);
    field.insert_str("ab")?;
    let area = Rect::new(0, 0, 6, 3);
    let mut buffer = Buffer::empty(alloc, area)?;
    let input = Input::new().block(Block::bordered(alloc));
    StatefulWidget::render(&input, area, &mut buffer, &mut field)?;
    assert!(rt; row_is(&buffer, 0, "┌────┐"));
    assert!(rt; row_is(&buffer, 1, "│ab  │"));
    assert!(rt; cursor_position(&field) == Some(Position { x: 3, y: 1 }));
    // Without room the cursor stands nowhere.
    let area = Rect::new(0, 0, 6, 2);
    StatefulWidget::render(input, area, &mut buffer, &mut field)?;
    assert!(rt; cursor_position(&field).is_none());
    assert!(rt; field.text() == "ab");
    Ok(())
}

// A field in a box over a frame, with the cursor in it.
fn draw_field(
    alloc: Global,
    frame: &mut Frame<'_>,
    field: &mut TextField,
) -> Result<(), AllocError> {
    let area = frame.area();
    let input = Input::new().block(Block::bordered(alloc));
    frame.render_stateful_widget(input, area, field)?;
    if let Some(position) = cursor_position(field) {
        frame.set_cursor_position(position);
    }
    Ok(())
}

#[test]
fn a_frame_has_a_cursor(rt: HostRuntime) -> Result<(), Fail> {
    let alloc = rt.alloc();
    let mut field = TextField::new(alloc);
    field.insert_str("ab")?;
    let mut terminal = Terminal::new(alloc, TestBackend::new(alloc, 6, 3)?)?;
    terminal.draw(|frame| draw_field(alloc, frame, &mut field))?;
    assert!(rt;
        terminal
            .backend()
            .lines_are(&["┌────┐", "│ab  │", "└────┘"])
    );
    assert!(rt; terminal.backend().cursor_position() == Position { x: 3, y: 1 });
    Ok(())
}
