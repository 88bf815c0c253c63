//! What keys make of a text.

use ratatui_events::{Event, KeyCode, KeyEvent, KeyEventKind, KeyModifiers};
use std::alloc::Global;
use std::test::Fail;
use text_field::TextField;

// Presses keys by name, with a blank between each two; answers whether the field took each.
fn press(field: &mut TextField, names: &str) -> bool {
    for name in names.split(' ') {
        let Ok(key) = name.parse::<KeyEvent>() else {
            return false;
        };
        let Ok(true) = field.handle(&Event::Key(key)) else {
            return false;
        };
    }
    true
}

// Whether keys make of a text that was typed these parts before and after the cursor.
fn makes(alloc: Global, text: &str, names: &str, before: &str, after: &str) -> bool {
    let mut field = TextField::new(alloc);
    let Ok(()) = field.insert_str(text) else {
        return false;
    };
    press(&mut field, names) && field.before() == before && field.after() == after
}

#[test]
fn keys_edit(rt: HostRuntime) -> Result<(), Fail> {
    let alloc = rt.alloc();
    assert!(rt; makes(alloc, "", "h i", "hi", ""));
    assert!(rt; makes(alloc, "ab", "Left x", "ax", "b"));
    assert!(rt; makes(alloc, "ab", "Ctrl+B Ctrl+B Ctrl+F", "a", "b"));
    assert!(rt; makes(alloc, "ab", "Home", "", "ab"));
    assert!(rt; makes(alloc, "ab", "Ctrl+A End", "ab", ""));
    assert!(rt; makes(alloc, "ab", "Ctrl+A Ctrl+E", "ab", ""));
    assert!(rt; makes(alloc, "abc", "Left Backspace", "a", "c"));
    assert!(rt; makes(alloc, "abc", "Ctrl+H", "ab", ""));
    assert!(rt; makes(alloc, "abc", "Home Delete", "", "bc"));
    assert!(rt; makes(alloc, "abc", "Home Ctrl+D", "", "bc"));
    assert!(rt; makes(alloc, "a", "Home Left Backspace", "", "a"));
    assert!(rt; makes(alloc, "a", "Right Delete", "a", ""));
    Ok(())
}

#[test]
fn keys_go_over_words(rt: HostRuntime) -> Result<(), Fail> {
    let alloc = rt.alloc();
    assert!(rt; makes(alloc, "one  two ", "Ctrl+Left", "one  ", "two "));
    assert!(rt; makes(alloc, "one  two ", "Alt+B Alt+B", "", "one  two "));
    assert!(rt; makes(alloc, "one  two ", "Home Ctrl+Right", "one", "  two "));
    assert!(rt; makes(alloc, "one  two ", "Home Alt+F Alt+F", "one  two", " "));
    assert!(rt; makes(alloc, "one  two ", "Ctrl+W", "one  ", ""));
    assert!(rt; makes(alloc, "one  two ", "Alt+Backspace x", "one  x", ""));
    assert!(rt; makes(alloc, "one  two ", "Home Alt+D", "", "  two "));
    assert!(rt; makes(alloc, "one  two ", "Home Ctrl+Delete", "", "  two "));
    Ok(())
}

#[test]
fn keys_kill_and_yank(rt: HostRuntime) -> Result<(), Fail> {
    let alloc = rt.alloc();
    assert!(rt; makes(alloc, "one two", "Alt+B Ctrl+U End Ctrl+Y", "twoone ", ""));
    assert!(rt; makes(alloc, "one two", "Alt+B Ctrl+K Home Ctrl+Y", "two", "one "));
    assert!(rt; makes(alloc, "one two", "Ctrl+W Ctrl+Y Ctrl+Y", "one twotwo", ""));
    // What was killed stays if nothing more is.
    assert!(rt; makes(alloc, "one two", "Ctrl+U Ctrl+K Ctrl+Y", "one two", ""));
    Ok(())
}

// A family, a flag of France beside one of Germany, and an e with a mark.
const FAMILY: &str = "\u{1f468}\u{200d}\u{1f469}\u{200d}\u{1f467}";

const FLAGS: &str = "\u{1f1e9}\u{1f1ea}\u{1f1eb}\u{1f1f7}";

#[test]
fn graphemes_are_kept_whole(rt: HostRuntime) -> Result<(), Fail> {
    let alloc = rt.alloc();
    assert!(rt; makes(alloc, FAMILY, "Left", "", FAMILY));
    assert!(rt; makes(alloc, FAMILY, "Backspace", "", ""));
    assert!(rt;
        makes(
            alloc,
            FLAGS,
            "Left",
            "\u{1f1e9}\u{1f1ea}",
            "\u{1f1eb}\u{1f1f7}"
        )
    );
    assert!(rt; makes(alloc, FLAGS, "Home Delete", "", "\u{1f1eb}\u{1f1f7}"));
    assert!(rt; makes(alloc, "e\u{301}", "Left", "", "e\u{301}"));
    assert!(rt; makes(alloc, "e\u{301}x", "Left Backspace", "", "x"));
    assert!(rt; makes(alloc, "世界", "Left", "世", "界"));
    Ok(())
}

// Whether a field doesn't take an event, and stays as it was.
fn leaves(alloc: Global, event: &Event) -> bool {
    let mut field = TextField::new(alloc);
    let Ok(()) = field.insert_str("ab") else {
        return false;
    };
    field.move_left(text_field::Reach::Grapheme);
    let Ok(false) = field.handle(event) else {
        return false;
    };
    field.before() == "a" && field.after() == "b"
}

// The same of a key.
fn leaves_key(alloc: Global, code: KeyCode, modifiers: KeyModifiers) -> bool {
    leaves(alloc, &Event::Key(KeyEvent::new(code, modifiers)))
}

#[test]
fn other_events_are_left(rt: HostRuntime) -> Result<(), Fail> {
    let alloc = rt.alloc();
    assert!(rt; leaves_key(alloc, KeyCode::Enter, KeyModifiers::NONE));
    assert!(rt; leaves_key(alloc, KeyCode::Tab, KeyModifiers::NONE));
    assert!(rt; leaves_key(alloc, KeyCode::Esc, KeyModifiers::NONE));
    assert!(rt; leaves_key(alloc, KeyCode::Up, KeyModifiers::NONE));
    assert!(rt; leaves_key(alloc, KeyCode::Char('c'), KeyModifiers::CONTROL));
    assert!(rt; leaves_key(alloc, KeyCode::Char('x'), KeyModifiers::ALT));
    assert!(rt; leaves_key(alloc, KeyCode::Char('a'), KeyModifiers::SUPER));
    assert!(rt; leaves(alloc, &Event::PasteBegun));
    assert!(rt; leaves(alloc, &Event::PasteEnded));
    assert!(rt; leaves(alloc, &Event::FocusLost));
    assert!(rt; leaves(alloc, &Event::Size(80, 24)));
    let mut released = KeyEvent::new(KeyCode::Char('x'), KeyModifiers::NONE);
    released.kind = KeyEventKind::Release;
    assert!(rt; leaves(alloc, &Event::Key(released)));
    Ok(())
}
