//! Parts of areas.

use ratatui_core::layout::Rect;
use rtui_drawing::Cut;
use std::test::Fail;

#[test]
fn columns(rt: HostRuntime) -> Result<(), Fail> {
    assert!(rt; Cut::First(4).of(Rect::new(2, 0, 10, 3)) == Rect::new(2, 0, 4, 3));
    assert!(rt; Cut::First(40).of(Rect::new(2, 0, 10, 3)) == Rect::new(2, 0, 10, 3));
    assert!(rt; Cut::After(4).of(Rect::new(2, 0, 10, 3)) == Rect::new(6, 0, 6, 3));
    assert!(rt; Cut::Last(4).of(Rect::new(2, 0, 10, 3)) == Rect::new(8, 0, 4, 3));
    assert!(rt; Cut::BeforeLast(4).of(Rect::new(2, 0, 10, 3)) == Rect::new(2, 0, 6, 3));
    assert!(rt; Cut::Middle(5).of(Rect::new(2, 0, 10, 3)) == Rect::new(4, 0, 5, 3));
    Ok(())
}

#[test]
fn rows(rt: HostRuntime) -> Result<(), Fail> {
    assert!(rt; Cut::Rows(1, 1).of(Rect::new(2, 0, 10, 3)) == Rect::new(2, 1, 10, 1));
    assert!(rt; Cut::Rows(2, 9).of(Rect::new(2, 0, 10, 3)) == Rect::new(2, 2, 10, 1));
    Ok(())
}

#[test]
fn the_rest(rt: HostRuntime) -> Result<(), Fail> {
    assert!(rt; Cut::Below(2).of(Rect::new(2, 1, 10, 3)) == Rect::new(2, 3, 10, 1));
    assert!(rt; Cut::Above(2).of(Rect::new(2, 1, 10, 3)) == Rect::new(2, 1, 10, 1));
    assert!(rt;
        Cut::Within(Rect::new(0, 2, 4, 9)).of(Rect::new(2, 1, 10, 3)) == Rect::new(2, 2, 2, 2)
    );
    Ok(())
}

#[test]
fn the_example(rt: HostRuntime) {
    assert!(rt; Cut::First(4).of(Rect::new(2, 0, 10, 3)) == Rect::new(2, 0, 4, 3));
    assert!(rt; Cut::After(4).of(Rect::new(2, 0, 10, 3)) == Rect::new(6, 0, 6, 3));
    assert!(rt; Cut::Rows(1, 1).of(Rect::new(2, 0, 10, 3)) == Rect::new(2, 1, 10, 1));
}
