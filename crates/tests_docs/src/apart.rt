//! What differs, and how it prints.

ghost use Rattle.std.specs.Prelude.{◌↔◌, ◌≤◌, length, IsTrue};
ghost use Rattle.ratatui_core.specs.Text.{widest};
ghost use Rattle.ratatui_core.specs.Buffer.{raw_lines};

use ratatui_core::backend::TestBackend;
use ratatui_core::buffer::{Buffer, texts_width};
use ratatui_core::layout::{Position, Rect};
use ratatui_core::style::{Style, Stylize};
use ratatui_test::{Shows, assert_same, difference};
use std::alloc::{AllocError, Global};

// Whether a buffer can have these texts as its rows.
fn is_small(texts: &[&str]) -> bool
    ensures { IsTrue result ↔ (length texts.now ≤ 65535) × (widest (raw_lines texts.now) ≤ 65535) }
{
    texts.len() <= 65535 && texts_width(texts) <= 65535
}

// A buffer of texts.
fn shown(alloc: Global, texts: &[&str]) -> Result<Buffer, AllocError> {
    if !is_small(texts) {
        return Buffer::empty(alloc, Rect::new(0, 0, 0, 0));
    }
    Buffer::from_texts(alloc, texts)
}

// A screen of texts.
fn screen(alloc: Global, texts: &[&str]) -> Result<TestBackend, AllocError> {
    if !is_small(texts) {
        return TestBackend::new(alloc, 0, 0);
    }
    TestBackend::with_lines(alloc, texts)
}

#[test]
fn equal_buffers(rt: HostRuntime) -> Result<(), AllocError> {
    let alloc = rt.alloc();
    let left = shown(alloc, &["Hello", "there"])?;
    let right = shown(alloc, &["Hello", "there"])?;
    assert_same!(rt; &left, &right);
    Ok(())
}

// Whether two buffers differ first at a place, and this is told of them.
fn is_told(
    alloc: Global,
    left: &Buffer,
    right: &Buffer,
    position: Option<Position>,
    wanted: &str,
) -> Result<bool, AllocError> {
    let Some(apart) = difference(left, right) else {
        return Ok(false);
    };
    let told = format!(in alloc; "{apart}")?;
    Ok(apart.position == position && told.as_str() == wanted)
}

// The same of two buffers of texts.
fn texts_differ(
    alloc: Global,
    left: &[&str],
    right: &[&str],
    position: Option<Position>,
    wanted: &str,
) -> Result<bool, AllocError> {
    let left = shown(alloc, left)?;
    let right = shown(alloc, right)?;
    is_told(alloc, &left, &right, position, wanted)
}

// The same of a buffer of a text, and of one of which the second cell is in red and bold.
fn styles_differ(
    alloc: Global,
    text: &str,
    position: Option<Position>,
    wanted: &str,
) -> Result<bool, AllocError> {
    let left = shown(alloc, &[text])?;
    let mut right = shown(alloc, &[text])?;
    right.set_style(Rect::new(1, 0, 1, 1), Style::new().red().bold());
    is_told(alloc, &left, &right, position, wanted)
}

#[test]
fn symbols_styles_and_areas_differ(rt: HostRuntime) -> Result<(), AllocError> {
    let alloc = rt.alloc();
    let wanted =
        "at (3, 1): left \"w\", right \"o\"\nleft:\n|日 one|\n|a two |\n    ^\nright:\n|日 one|\n|a tow |\n    ^";
    let place = Some(Position::new(3, 1));
    assert!(rt;
        texts_differ(
            alloc,
            &["日 one", "a two"],
            &["日 one", "a tow"],
            place,
            wanted
        )?
    );
    let wanted =
        "at (1, 0): left \"b\", right \"b\"; fg Reset, Red; BOLD right\nleft:\n|ab|\n  ^\nright:\n|ab|\n  ^";
    assert!(rt; styles_differ(alloc, "ab", Some(Position::new(1, 0)), wanted)?);
    let wanted = "areas: left 2x1+0+0, right 3x1+0+0\nleft:\n|ab|\nright:\n|abc|";
    assert!(rt; texts_differ(alloc, &["ab"], &["abc"], None, wanted)?);
    Ok(())
}

// Whether a screen differs first from lines at a place, and this is told of it.
fn row_differs(
    alloc: Global,
    backend: &TestBackend,
    lines: &[&str],
    position: Option<Position>,
    wanted: &str,
) -> Result<bool, AllocError> {
    let Some(apart) = backend.difference(alloc, lines)? else {
        return Ok(false);
    };
    let told = format!(in alloc; "{apart}")?;
    Ok(apart.position == position && told.as_str() == wanted)
}

// Whether a screen has another size than lines.
fn size_differs(alloc: Global, backend: &TestBackend, lines: &[&str]) -> Result<bool, AllocError> {
    let Some(apart) = backend.difference(alloc, lines)? else {
        return Ok(false);
    };
    Ok(apart.position.is_none())
}

#[test]
fn a_row_differs(rt: HostRuntime) -> Result<(), AllocError> {
    let alloc = rt.alloc();
    let backend = screen(alloc, &["one  ", "two  "])?;
    let wanted =
        "at (1, 1): \"w\" is shown\nshown:\n|one  |\n|two  |\n  ^\nwanted:\n|one  |\n|tow  |\n  ^";
    let place = Some(Position::new(1, 1));
    assert!(rt; row_differs(alloc, &backend, &["one  ", "tow  "], place, wanted)?);
    assert!(rt; size_differs(alloc, &backend, &["one  "])?);
    Ok(())
}
