//! What borrows in place of a copy, and lists of spans.
use rtui_text::{Line, Span, Spans, Text};
use std::alloc::{AllocError, Global};
use std::borrow::CowStr;
use std::test::Fail;

fn borrows(content: &CowStr<'_>) -> bool {
    match content {
        CowStr::Borrowed(_) => true,
        _ => false,
    }
}

// Whether each span of a line borrows its text.
fn line_borrows(line: &Line<'_>) -> bool {
    line.iter().all(|span| borrows(&span.content))
}

// Whether each span of a text does.
fn text_borrows(text: &Text<'_>) -> bool {
    text.iter().all(|line| line_borrows(line))
}

#[test]
fn raw_texts_borrow(rt: HostRuntime) -> Result<(), Fail> {
    let line = Line::raw(rt.alloc(), "ab")?;
    assert!(rt; line_borrows(&line));
    let text = Text::raw(rt.alloc(), "a\nb")?;
    assert!(rt; text_borrows(&text));
    let owned = Line::raw_string(rt.alloc(), String::from_str(rt.alloc(), "ab")?)?;
    assert!(rt; !line_borrows(&owned));
    Ok(())
}

// Whether the copy of a span that borrows its text does, too.
fn copy_borrows(alloc: Global) -> Result<bool, AllocError> {
    let copy = Span::raw("ab").clone(alloc)?;
    Ok(borrows(&copy.content))
}

#[test]
fn copies_of_borrowed_texts_borrow(rt: HostRuntime) -> Result<(), Fail> {
    assert!(rt; copy_borrows(rt.alloc())?);
    Ok(())
}

// Whether a list has so many spans, and its copy equals it.
fn has_copy(alloc: Global, spans: &Spans<'_>, count: usize) -> Result<bool, AllocError> {
    let copy = spans.clone(alloc)?;
    Ok(copy == *spans && copy.len() == count && copy.as_slice() == spans.as_slice())
}

#[test]
fn spans_are_a_list(rt: HostRuntime) -> Result<(), Fail> {
    let mut spans = Spans::new(rt.alloc());
    assert!(rt; spans.is_empty());
    spans.push(Span::raw("a"))?;
    spans.extend([Span::raw("コ")])?;
    assert!(rt; !spans.is_empty());
    assert!(rt; has_copy(rt.alloc(), &spans, 2)?);
    Ok(())
}
