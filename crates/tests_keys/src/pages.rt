//! Pages after keys.

use pager::{Document, OwnText, Pager};
use ratatui_acts::{Nothing, Seat, run};
use ratatui_app::OnScreen;
use ratatui_core::backend::TestBackend;
use ratatui_core::layout::Size;
use ratatui_core::terminal::Viewport;
use std::alloc::{AllocError, Global};
use std::io::{self, Read};
use std::test::Fail;

// Whether these bytes lead to a screen with these lines.
fn shows(alloc: Global, text: &str, keys: &[u8], lines: &[&str]) -> bool {
    let Ok(document) = Document::new(alloc, text) else {
        return false;
    };
    let Ok(name) = String::from_str(alloc, "t") else {
        return false;
    };
    let Ok(backend) = TestBackend::new(alloc, 14, 4) else {
        return false;
    };
    let Ok(mut glass) = OnScreen::begin(alloc, Viewport::Fullscreen, backend) else {
        return false;
    };
    let nothing = OwnText::new(String::new(alloc));
    let pager = Pager::new(document, OwnText::new(name), nothing, Size::new(14, 4));
    let mut seat = Seat::new(pager);
    let mut reader = keys;
    match run(&mut reader, &mut Nothing, false, &mut glass, &mut seat) {
        Ok(()) => glass.terminal().backend().lines_are(lines),
        Err(_) => false,
    }
}

#[test]
fn moves(rt: HostRuntime) -> Result<(), Fail> {
    let alloc = rt.alloc();
    let text = "one\ntwo\tx\nthr\u{1}e\n日本\nfive\nsix\n";
    assert!(rt;
        shows(
            alloc,
            text,
            b"",
            &[
                "one           ",
                "two     x     ",
                "thr\u{fffd}e         ",
                "t 1-3/6 50%   "
            ]
        )
    );
    Ok(())
}

// What a terminal answers is no key: `q` in it ends nothing, and `g` goes nowhere.
#[test]
fn answers_are_no_keys(rt: HostRuntime) -> Result<(), Fail> {
    let alloc = rt.alloc();
    let text = "one\ntwo\tx\nthr\u{1}e\n日本\nfive\nsix\n";
    assert!(rt;
        shows(
            alloc,
            text,
            b"j\x1b]11;rgb:0/0/0\x1b\\\x1bP1$r0q\x1b\\\x1b]4;g\x07",
            &[
                "two     x     ",
                "thr\u{fffd}e         ",
                "日本          ",
                "t 2-4/6 66%   "
            ]
        )
    );
    Ok(())
}

// A text of so many lines.
fn text_of(alloc: Global, line: &str, count: usize) -> Result<String, AllocError> {
    let mut text = String::new(alloc);
    for _ in 0..count {
        text.push_str(line)?;
    }
    Ok(text)
}

#[test]
fn a_text_may_have_many_lines(rt: HostRuntime) -> Result<(), Fail> {
    let text = text_of(rt.alloc(), "\n", 70000)?;
    assert!(rt; Document::new(rt.alloc(), text.as_str()).is_ok());
    Ok(())
}

// Whether a screen of 300 columns shows a row of this letter.
fn fills_a_row(alloc: Global, text: &str, letter: &str) -> bool {
    let Ok(document) = Document::new(alloc, text) else {
        return false;
    };
    let Ok(name) = String::from_str(alloc, "t") else {
        return false;
    };
    let Ok(backend) = TestBackend::new(alloc, 300, 2) else {
        return false;
    };
    let Ok(mut glass) = OnScreen::begin(alloc, Viewport::Fullscreen, backend) else {
        return false;
    };
    let nothing = OwnText::new(String::new(alloc));
    let pager = Pager::new(document, OwnText::new(name), nothing, Size::new(300, 2));
    let mut seat = Seat::new(pager);
    let mut reader = b"".as_slice();
    if run(&mut reader, &mut Nothing, false, &mut glass, &mut seat).is_err() {
        return false;
    }
    let cells = glass.terminal().backend().buffer().content();
    cells.iter().take(300).all(|cell| cell.symbol() == letter)
}

#[test]
fn a_screen_may_be_wide(rt: HostRuntime) -> Result<(), Fail> {
    let text = text_of(rt.alloc(), "x", 300)?;
    assert!(rt; fills_a_row(rt.alloc(), text.as_str(), "x"));
    Ok(())
}
