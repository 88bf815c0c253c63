//! The examples of a text area.
use ratatui_events::{Event, KeyCode, KeyEvent, KeyModifiers};
use std::alloc::AllocError;
use std::test::Fail;
use text_area::{Extent, Move, TextArea};

#[test]
fn a_line_is_killed(rt: HostRuntime) -> Result<(), Fail> {
    let alloc = rt.alloc();
    let mut area = TextArea::new(alloc);
    area.insert_str("one two\nthree")?;
    area.go(Move::Up);
    assert!(rt; area.before() == "one t");
    area.kill(Move::Right(Extent::Line))?;
    assert!(rt; area.text() == "one t\nthree");
    area.undo()?;
    assert!(rt; area.text() == "one two\nthree");
    Ok(())
}

// Writes the next such word as Americans do.
fn spell(area: &mut TextArea) -> Result<(), AllocError> {
    if area.select_next("colour") {
        area.insert_str("color")?;
    }
    Ok(())
}

#[test]
fn a_word_is_replaced(rt: HostRuntime) -> Result<(), Fail> {
    let mut area = TextArea::new(rt.alloc());
    area.insert_str("colours and a colour")?;
    area.go(Move::Left(Extent::Text));
    spell(&mut area)?;
    assert!(rt; area.text() == "colors and a colour");
    Ok(())
}

// Whether an event is left to others.
fn is_left(area: &mut TextArea, event: Event) -> Result<bool, AllocError> {
    if !area.handle(&event)? {
        return Ok(true);
    }
    Ok(false)
}

#[test]
fn tab_is_left(rt: HostRuntime) -> Result<(), Fail> {
    let mut area = TextArea::new(rt.alloc());
    let key = |code| Event::Key(KeyEvent::new(code, KeyModifiers::NONE));
    assert!(rt; is_left(&mut area, key(KeyCode::Tab))?);
    assert!(rt; !is_left(&mut area, key(KeyCode::Char('a')))?);
    Ok(())
}
