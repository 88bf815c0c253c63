//! What prints, as a span, a line and a text.
use rtui_buffer::Buffer;
use rtui_geometry::Rect;
use rtui_text::{Line, Masked, Span, Text, ToLine, ToSpan, ToText};
use rtui_widgets::Widget;
use std::alloc::{AllocError, Global};
use std::borrow::CowStr;
use std::fmt::Display;
use std::test::Fail;

// Whether a value becomes a line of what it prints.
fn is_line_of<T: Display>(alloc: Global, value: &T, printed: &str) -> Result<bool, AllocError> {
    Ok(value.to_line(alloc)? == Line::raw(alloc, printed)?)
}

// Whether a value becomes a text of what it prints.
fn is_text_of<T: Display>(alloc: Global, value: &T, printed: &str) -> Result<bool, AllocError> {
    Ok(value.to_text(alloc)? == Text::raw(alloc, printed)?)
}

// The same, and whether it becomes a span of it.
fn prints<T: Display>(alloc: Global, value: &T, printed: &str) -> Result<bool, AllocError> {
    let is_span = value.to_span(alloc)? == Span::raw(printed);
    Ok(is_span && is_line_of(alloc, value, printed)? && is_text_of(alloc, value, printed)?)
}

// Whether a borrowed text becomes what it is.
fn borrowed_prints(alloc: Global, text: &'static str) -> Result<bool, AllocError> {
    let borrowed: CowStr = CowStr::Borrowed(text);
    prints(alloc, &borrowed, text)
}

#[test]
fn borrowed_texts(rt: HostRuntime) -> Result<(), Fail> {
    assert!(rt; borrowed_prints(rt.alloc(), "ab")?);
    Ok(())
}

#[test]
fn numbers(rt: HostRuntime) -> Result<(), Fail> {
    let least = "-170141183460469231731687303715884105728";
    assert!(rt; prints(rt.alloc(), &i128::MIN, least)?);
    assert!(rt; prints(rt.alloc(), &7u8, "7")?);
    assert!(rt; prints(rt.alloc(), &42usize, "42")?);
    Ok(())
}

// Whether no span leaves a buffer as it was, and a default masked text is empty.
fn nothing_is_rendered(alloc: Global) -> Result<bool, AllocError> {
    let area = Rect::new(0, 0, 3, 1);
    let mut buffer = Buffer::empty(alloc, area)?;
    None::<Span<'_>>.render(area, &mut buffer)?;
    Ok(buffer == Buffer::empty(alloc, area)? && Masked::default() == Masked::new("", '\0'))
}

#[test]
fn nothing(rt: HostRuntime) -> Result<(), Fail> {
    assert!(rt; nothing_is_rendered(rt.alloc())?);
    Ok(())
}
