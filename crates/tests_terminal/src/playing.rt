//! Plays of steps, without a script.
use rtui_geometry::{Rect, Size};
use rtui_text::Text;
use rtui_viewport::Viewport;
use screenplay::{PlayCause, PlayFault, Puts, Scene, Stage, Step, play};
use std::alloc::{AllocError, Global};
use std::slice;
use std::test::Fail;

// Plays one draw of one put on a stage of two columns and one row.
fn play_put(
    alloc: Global,
    put: (u16, u16, char),
) -> Result<Result<Vec<Scene>, PlayFault>, AllocError> {
    let (x, y, ch) = put;
    let mut puts = Puts::new(alloc);
    puts.push(x, y, ch)?;
    let stage = Stage {
        width: 2,
        height: 1,
        viewport: Viewport::Fullscreen,
    };
    let step = Step::Draw {
        size: None,
        text: Text::default_in(alloc),
        puts,
    };
    Ok(play(alloc, stage, slice::from_ref(&step)))
}

// Whether a scene has these symbols, row by row, a viewport over its whole screen, and no history.
fn is_scene(scene: &Scene, area: Rect, symbols: &[&str]) -> bool {
    let cells = scene.screen.content().iter();
    cells.map(|cell| cell.symbol()).eq(symbols.iter().copied())
        && *scene.screen.area() == area
        && scene.viewport == area
        && scene.history.is_empty()
}

// Whether the play of one put gives a blank scene and one with these symbols.
fn gives(
    alloc: Global,
    put: (u16, u16, char),
    area: Rect,
    symbols: &[&str],
) -> Result<bool, AllocError> {
    match play_put(alloc, put)? {
        Ok(scenes) => Ok(match scenes.as_slice() {
            [start, drawn] => is_scene(start, area, &[" ", " "]) && is_scene(drawn, area, symbols),
            _ => false,
        }),
        Err(_) => Ok(false),
    }
}

#[test]
fn gives_a_scene_for_each_step(rt: HostRuntime) -> Result<(), Fail> {
    let area = Rect::new(0, 0, 2, 1);
    assert!(rt; gives(rt.alloc(), (1, 0, 'a'), area, &[" ", "a"])?);
    assert!(rt; gives(rt.alloc(), (2, 0, 'a'), area, &[" ", " "])?);
    Ok(())
}

// Whether the play of one put ends at its draw, as the frame over this area isn't settled, with a
// blank scene.
fn is_unsettled(alloc: Global, put: (u16, u16, char), area: Rect) -> Result<bool, AllocError> {
    match play_put(alloc, put)? {
        Ok(_) => Ok(false),
        Err(fault) => Ok(match fault.scenes.as_slice() {
            [start] => {
                fault.step == 1
                    && fault.cause == PlayCause::Unsettled(area)
                    && is_scene(start, area, &[" ", " "])
            }
            _ => false,
        }),
    }
}

#[test]
fn ends_at_a_frame_that_is_not_settled(rt: HostRuntime) -> Result<(), Fail> {
    let area = Rect::new(0, 0, 2, 1);
    assert!(rt; is_unsettled(rt.alloc(), (1, 0, 'コ'), area)?);
    Ok(())
}

// Plays a frame, before which the screen loses its rows, and then an insertion.
fn play_without_rows(alloc: Global) -> Result<Result<Vec<Scene>, PlayFault>, AllocError> {
    let frame = Step::Draw {
        size: Some(Size {
            width: 2,
            height: 0,
        }),
        text: Text::default_in(alloc),
        puts: Puts::new(alloc),
    };
    let mut steps = Vec::new(alloc);
    steps.push(frame)?;
    steps.push(Step::Insert(Text::raw(alloc, "ab")?))?;
    let stage = Stage {
        width: 2,
        height: 1,
        viewport: Viewport::Inline(1),
    };
    Ok(play(alloc, stage, steps.as_slice()))
}

// Whether these scenes are one of a blank row and two without rows.
fn lose_their_rows(scenes: &[Scene]) -> bool {
    let none = Rect::new(0, 0, 2, 0);
    match scenes {
        [start, drawn, inserted] => {
            is_scene(start, Rect::new(0, 0, 2, 1), &[" ", " "])
                && is_scene(drawn, none, &[])
                && is_scene(inserted, none, &[])
        }
        _ => false,
    }
}

fn inserts_nothing_without_rows(alloc: Global) -> Result<bool, AllocError> {
    match play_without_rows(alloc)? {
        Ok(scenes) => Ok(lose_their_rows(scenes.as_slice())),
        Err(_) => Ok(false),
    }
}

#[test]
fn writes_nothing_on_a_screen_without_rows(rt: HostRuntime) -> Result<(), Fail> {
    assert!(rt; inserts_nothing_without_rows(rt.alloc())?);
    Ok(())
}

// Where the viewport of two rows ends up above which so many rows were inserted, on a screen of ten
// columns and four rows.
fn top_after(alloc: Global, rows: &str) -> Result<Option<Rect>, AllocError> {
    let step = Step::Insert(Text::raw(alloc, rows)?);
    let stage = Stage {
        width: 10,
        height: 4,
        viewport: Viewport::Inline(2),
    };
    match play(alloc, stage, slice::from_ref(&step)) {
        Ok(scenes) => Ok(scenes.last().map(|scene| scene.viewport)),
        Err(_) => Ok(None),
    }
}

#[test]
fn moves_the_viewport_down(rt: HostRuntime) -> Result<(), Fail> {
    assert!(rt; top_after(rt.alloc(), "r0\nr1\nr2\nr3\nr4")? == Some(Rect::new(0, 2, 10, 2)));
    assert!(rt; top_after(rt.alloc(), "r0")? == Some(Rect::new(0, 1, 10, 2)));
    Ok(())
}
