//! Calls of a field and of its history, each once; the rows of `vectors` say what keys do.

use ratatui_events::{Event, KeyCode, KeyEvent, KeyModifiers};
use std::alloc::AllocError;
use text_field::{Edit, History, Reach, TextField};

#[test]
fn a_field_is_typed_into(rt: HostRuntime) -> Result<(), AllocError> {
    let alloc = rt.alloc();
    let mut field = TextField::new(alloc);
    field.insert_str("hello world")?;
    field.move_left(Reach::Word);
    assert!(rt; field.before() == "hello ");
    assert!(rt; field.after() == "world");
    field.kill_right(Reach::All)?;
    assert!(rt; field.text() == "hello ");
    assert!(rt; field.killed() == "world");
    field.move_left(Reach::All);
    field.yank()?;
    assert!(rt; field.text() == "worldhello ");
    field.kill_left(Reach::Grapheme)?;
    assert!(rt; field.killed() == "d");
    field.insert('k')?;
    assert!(rt; field.before() == "worlk");
    field.apply(Edit::Insert(','))?;
    assert!(rt; field.text() == "worlk,hello ");
    Ok(())
}

#[test]
fn a_paste_is_typed(rt: HostRuntime) -> Result<(), AllocError> {
    let alloc = rt.alloc();
    let mut field = TextField::new(alloc);
    assert!(rt; field.handle(&Event::Pasted('a'))?);
    assert!(rt; field.handle(&Event::Pasted('\n'))?);
    assert!(rt; field.handle(&Event::Pasted('b'))?);
    assert!(rt; field.text() == "ab");
    Ok(())
}

// Gives a field an event, and counts those that aren't for it.
fn give(field: &mut TextField, event: Event, others: &mut u32) -> Result<(), AllocError> {
    if !field.handle(&event)? {
        *others = others.saturating_add(1);
    }
    Ok(())
}

#[test]
fn a_field_tells_what_it_takes(rt: HostRuntime) -> Result<(), AllocError> {
    let alloc = rt.alloc();
    let mut field = TextField::new(alloc);
    let mut others = 0;
    give(&mut field, Event::Pasted('a'), &mut others)?;
    give(&mut field, Event::FocusLost, &mut others)?;
    assert!(rt; others == 1);
    Ok(())
}

#[test]
fn a_field_is_set_cleared_and_cloned(rt: HostRuntime) -> Result<(), AllocError> {
    let alloc = rt.alloc();
    let mut field = TextField::new(alloc).with_limit(7);
    assert!(rt; field.is_empty());
    assert!(rt; field.limit() == Some(7));
    field.set_text("one two three")?;
    assert!(rt; field.before() == "one two");
    field.kill_left(Reach::Word)?;
    let copy = field.clone(alloc)?;
    field.clear();
    assert!(rt; field.is_empty());
    assert!(rt; field.killed() == "two");
    assert!(rt; copy.before() == "one ");
    assert!(rt; copy.killed() == "two");
    Ok(())
}

#[test]
fn a_history_undoes(rt: HostRuntime) -> Result<(), AllocError> {
    let alloc = rt.alloc();
    let mut field = TextField::new(alloc);
    let mut history = History::new(alloc, 100);
    let undo = Event::Key(KeyEvent::new(KeyCode::Char('z'), KeyModifiers::CONTROL));
    for event in [Event::Pasted('a'), Event::Pasted('b'), undo] {
        if !history.handle(&mut field, &event)? && event == undo {
            history.undo(&mut field)?;
        }
    }
    assert!(rt; field.text() == "a");
    Ok(())
}

#[test]
fn a_step_is_a_changed_text(rt: HostRuntime) -> Result<(), AllocError> {
    let alloc = rt.alloc();
    let mut field = TextField::new(alloc);
    let mut history = History::new(alloc, 9);
    history.apply(&mut field, Edit::DeleteLeft(Reach::Grapheme))?;
    assert!(rt; !history.can_undo());
    history.apply(&mut field, Edit::Insert('a'))?;
    history.apply(&mut field, Edit::MoveLeft(Reach::All))?;
    assert!(rt; history.undo(&mut field)?);
    assert!(rt; field.is_empty());
    assert!(rt; history.can_redo());
    assert!(rt; history.redo(&mut field)?);
    // The cursor stands where it stood when the step was undone.
    assert!(rt; field.after() == "a");
    history.clear();
    assert!(rt; !history.undo(&mut field)?);
    Ok(())
}
