//! Examples of events.
use ratatui_events::{Event, KeyCode, KeyEvent, KeyModifiers};
use ratatui_input::EventReader;
use std::test::Fail;

#[test]
fn a_key_is_a_press(rt: HostRuntime) {
    let quit = KeyEvent::new(KeyCode::Char('c'), KeyModifiers::CONTROL);
    assert!(rt; quit.is_press());
}

#[test]
fn a_key_is_read(rt: HostRuntime) -> Result<(), Fail> {
    let event = Event::Key(KeyEvent::new(KeyCode::Char('c'), KeyModifiers::CONTROL));
    let quit: KeyEvent = "Ctrl+C".parse()?;
    assert!(rt; event == Event::Key(quit));
    Ok(())
}

// Standard input has nothing in a test.
#[test]
fn events_are_read(rt: HostRuntime) -> Result<(), Fail> {
    let mut events = EventReader::new(rt.reader());
    if let Some(event) = events.read()? {
        println!(rt; "{event:?}")?;
    }
    Ok(())
}
