//! Terminals compared and copied.
ghost use Rattle.std.specs.Prelude.{true, []};
ghost use Rattle.rtui_cell.specs.Look.{empty_look};

use crate::steps::terminal;
use rtui_backend::{AsCell, Backend, ClearType, TestBackend, TestError, WindowSize};
use rtui_geometry::{Position, Rect, Size};
use rtui_terminal::{CompletedFrame, Terminal, TerminalError};
use std::alloc::{AllocError, Global};
use std::hash::{DefaultHasher, Hash, Hasher};
use std::ops::Range;
use std::test::Fail;

// A screen that tells its size and refuses each other call.
#[derive(Debug, Default, Clone, Copy, PartialEq, Eq, Hash)]
struct Refusing {
    size: Size,
    failures: u64,
}

impl Backend for Refusing {
    type Error = TestError;

    ghost screen = { λ b. record {
      history = [];
      width = b.size.width;
      height = b.size.height;
      grid = λ _ _. empty_look;
      cursor_x = 0;
      cursor_y = 0;
      visible = true;
      written = 0;
    } };

    ghost failures = { λ b. b.failures };

    ghost is_flushed = { λ b. true };

    ghost stops_at = { λ old new. Unit {0} };

    fn draw<C: AsCell, I: Iterator<Item = (u16, u16, C)>>(
        &mut self,
        content: I,
    ) -> Result<(), TestError> {
        for _ in content {}
        self.failures = self.failures.saturating_add(1);
        Err(TestError::Told)
    }

    fn append_lines(&mut self, _n: u16) -> Result<(), TestError> {
        self.failures = self.failures.saturating_add(1);
        Err(TestError::Told)
    }

    fn scroll_region_up(&mut self, _region: Range<u16>, _n: u16) -> Result<(), TestError> {
        self.failures = self.failures.saturating_add(1);
        Err(TestError::Told)
    }

    fn scroll_region_down(&mut self, _region: Range<u16>, _n: u16) -> Result<(), TestError> {
        self.failures = self.failures.saturating_add(1);
        Err(TestError::Told)
    }

    fn clear(&mut self) -> Result<(), TestError> {
        self.failures = self.failures.saturating_add(1);
        Err(TestError::Told)
    }

    fn clear_region(&mut self, _clear_type: ClearType) -> Result<(), TestError> {
        self.failures = self.failures.saturating_add(1);
        Err(TestError::Told)
    }

    fn hide_cursor(&mut self) -> Result<(), TestError> {
        self.failures = self.failures.saturating_add(1);
        Err(TestError::Told)
    }

    fn show_cursor(&mut self) -> Result<(), TestError> {
        self.failures = self.failures.saturating_add(1);
        Err(TestError::Told)
    }

    fn get_cursor_position(&mut self) -> Result<Position, TestError> {
        self.failures = self.failures.saturating_add(1);
        Err(TestError::Told)
    }

    fn set_cursor_position(&mut self, _position: Position) -> Result<(), TestError> {
        self.failures = self.failures.saturating_add(1);
        Err(TestError::Told)
    }

    fn size(&mut self) -> Result<Size, TestError> {
        Ok(self.size)
    }

    fn window_size(&mut self) -> Result<WindowSize, TestError> {
        self.failures = self.failures.saturating_add(1);
        Err(TestError::Told)
    }

    fn flush(&mut self) -> Result<(), TestError> {
        self.failures = self.failures.saturating_add(1);
        Err(TestError::Told)
    }
}

fn hash_of<T: Hash>(value: &T) -> u64 {
    let mut state = DefaultHasher::new();
    value.hash(&mut state);
    state.finish()
}

// A terminal over a screen of this size that refuses to be drawn on.
fn over_refusing(alloc: Global, width: u16, height: u16) -> Result<Terminal<Refusing>, Fail> {
    let size = Size { width, height };
    match Terminal::new(alloc, Refusing { size, failures: 0 }) {
        Ok(terminal) => Ok(terminal),
        Err(_) => Err(Fail::from(AllocError)),
    }
}

// Whether a copy is equal to a terminal, and their hashes.
fn copy_is_alike(alloc: Global, terminal: &Terminal<Refusing>) -> Result<bool, AllocError> {
    let copy = terminal.clone(alloc)?;
    Ok(copy == *terminal && hash_of(&copy) == hash_of(terminal))
}

// Whether a terminal whose backend then refuses a call differs from a copy.
fn refusal_tells_apart(
    alloc: Global,
    terminal: &mut Terminal<Refusing>,
) -> Result<bool, AllocError> {
    let copy = terminal.clone(alloc)?;
    Ok(terminal.hide_cursor().is_err() && terminal.backend().failures == 1 && copy != *terminal)
}

fn is_default(terminal: &Terminal<Refusing>) -> bool {
    terminal.viewport_area() == Rect::ZERO && *terminal.backend() == Refusing::default()
}

#[test]
fn copies_a_terminal(rt: HostRuntime) -> Result<(), Fail> {
    let mut terminal = Terminal::<Refusing>::default_in(rt.alloc());
    assert!(rt; is_default(&terminal));
    assert!(rt; copy_is_alike(rt.alloc(), &terminal)?);
    assert!(rt; refusal_tells_apart(rt.alloc(), &mut terminal)?);
    Ok(())
}

// Sets a character in the corner of the next frame.
fn set_corner(
    alloc: Global,
    terminal: &mut Terminal<Refusing>,
    ch: char,
) -> Result<(), AllocError> {
    if let Some(cell) = terminal.current_buffer_mut().cell_mut(Position::ORIGIN) {
        cell.set_char(alloc, ch)?;
    }
    Ok(())
}

// Whether a copy differs from a terminal once a character is set in its corner.
fn corner_tells_apart(alloc: Global, terminal: &Terminal<Refusing>) -> Result<bool, AllocError> {
    let mut copy = terminal.clone(alloc)?;
    set_corner(alloc, &mut copy, 'y')?;
    Ok(copy != *terminal)
}

#[test]
fn copies_a_terminal_with_cells(rt: HostRuntime) -> Result<(), Fail> {
    let mut terminal = over_refusing(rt.alloc(), 2, 1)?;
    set_corner(rt.alloc(), &mut terminal, 'x')?;
    assert!(rt; copy_is_alike(rt.alloc(), &terminal)?);
    assert!(rt; corner_tells_apart(rt.alloc(), &terminal)?);
    Ok(())
}

// Whether two terminals are equal, and their hashes.
fn are_alike(one: &Terminal<TestBackend>, other: &Terminal<TestBackend>) -> bool {
    one == other && hash_of(one) == hash_of(other)
}

// Whether an empty frame, drawn on a terminal, equals one that was drawn, and their hashes.
fn draws_like(
    terminal: &mut Terminal<TestBackend>,
    drawn: &CompletedFrame<'_, TestBackend>,
) -> bool {
    match terminal.draw(|_| Ok(())) {
        Ok(again) => again == *drawn && hash_of(&again) == hash_of(drawn),
        Err(_) => false,
    }
}

// Whether two empty frames, drawn on two terminals, are equal, and their hashes.
fn draw_alike(one: &mut Terminal<TestBackend>, other: &mut Terminal<TestBackend>) -> bool {
    match one.draw(|_| Ok(())) {
        Ok(drawn) => draws_like(other, &drawn),
        Err(_) => false,
    }
}

// Whether two terminals are alike until the cursor of one is shown.
fn are_alike_until_one_is_shown(
    one: &mut Terminal<TestBackend>,
    other: &mut Terminal<TestBackend>,
) -> bool {
    are_alike(one, other)
        && draw_alike(one, other)
        && *one == *other
        && one.show_cursor().is_ok()
        && *one != *other
}

#[test]
fn compares_terminals(rt: HostRuntime) -> Result<(), Fail> {
    let mut one = terminal(rt.alloc(), 2, 1)?;
    let mut other = terminal(rt.alloc(), 2, 1)?;
    assert!(rt; are_alike_until_one_is_shown(&mut one, &mut other));
    Ok(())
}

// Whether the next frames of two terminals are equal, and their hashes.
fn frames_are_alike(one: &mut Terminal<TestBackend>, other: &mut Terminal<TestBackend>) -> bool {
    let frame = one.get_frame();
    let again = other.get_frame();
    frame == again && hash_of(&frame) == hash_of(&again)
}

// Whether a cursor on one of them tells the next frames of two terminals apart.
fn cursor_parts_frames(one: &mut Terminal<TestBackend>, other: &mut Terminal<TestBackend>) -> bool {
    let mut frame = one.get_frame();
    frame.set_cursor(1, 0);
    frame != other.get_frame()
}

#[test]
fn compares_frames(rt: HostRuntime) -> Result<(), Fail> {
    let mut one = terminal(rt.alloc(), 2, 1)?;
    let mut other = terminal(rt.alloc(), 2, 1)?;
    assert!(rt; frames_are_alike(&mut one, &mut other));
    assert!(rt; cursor_parts_frames(&mut one, &mut other));
    Ok(())
}

// Whether a terminal can't start over a backend, for the fault that it is asked for.
fn is_refused(alloc: Global, backend: TestBackend) -> bool {
    match Terminal::new(alloc, backend) {
        Err(TerminalError::Backend(error)) => error == TestError::Told,
        _ => false,
    }
}

#[test]
fn refuses_to_start_over_a_failing_backend(rt: HostRuntime) -> Result<(), Fail> {
    let mut backend = TestBackend::new(rt.alloc(), 2, 1)?;
    backend.fail_after(0);
    assert!(rt; is_refused(rt.alloc(), backend));
    Ok(())
}
