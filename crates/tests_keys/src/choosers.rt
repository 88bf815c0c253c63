//! Screens of a chooser of planets, after reads that are known.

use crate::screens;
use chooser::Chooser;
use ratatui_acts::{Nothing, Seat, run};
use ratatui_app::OnScreen;
use ratatui_core::backend::TestBackend;
use ratatui_core::layout::Size;
use ratatui_core::terminal::Viewport;
use ratatui_reads::Pieces;
use ratatui_test::assert_stored;
use std::alloc::{AllocError, Global};
use std::test::Fail;

// A screen of eleven columns and four rows after these reads, of which the last one gives nothing.
fn played(alloc: Global, reads: &[&[u8]]) -> Result<OnScreen<TestBackend>, AllocError> {
    let size = Size {
        width: 11,
        height: 4,
    };
    let backend = TestBackend::new(alloc, size.width, size.height)?;
    let Ok(mut glass) = OnScreen::begin(alloc, Viewport::Fullscreen, backend) else {
        return Err(AllocError);
    };
    let mut seat = Seat::new(Chooser::new(alloc, size));
    let mut source = Pieces::new(reads);
    match run(&mut source, &mut Nothing, false, &mut glass, &mut seat) {
        Ok(()) => Ok(glass),
        Err(_) => Err(AllocError),
    }
}

#[test]
fn begins_with_the_first_planet(rt: HostRuntime) -> Result<(), Fail> {
    let glass = played(rt.alloc(), &[b""])?;
    assert_stored!(rt; glass.terminal().backend(), screens::FIRST);
    Ok(())
}

#[test]
fn rows_move_down_as_little_as_they_can(rt: HostRuntime) -> Result<(), Fail> {
    let glass = played(rt.alloc(), &[b"j", b"jj", b"jj", b""])?;
    assert_stored!(rt; glass.terminal().backend(), screens::SIXTH);
    Ok(())
}

// The rows stay where five steps down left them, though no frame was drawn there.
#[test]
fn keys_in_one_read_do_what_they_do_in_many(rt: HostRuntime) -> Result<(), Fail> {
    let glass = played(rt.alloc(), &[b"jjjjjkk", b""])?;
    assert_stored!(rt; glass.terminal().backend(), screens::BACK);
    let glass = played(rt.alloc(), &[b"j", b"j", b"j", b"jjk", b"k", b""])?;
    assert_stored!(rt; glass.terminal().backend(), screens::BACK);
    Ok(())
}

#[test]
fn nothing_is_past_the_ends(rt: HostRuntime) -> Result<(), Fail> {
    let glass = played(rt.alloc(), &[b"jjjjjjjjjjjjk", b""])?;
    assert_stored!(rt; glass.terminal().backend(), screens::LAST_BUT_ONE);
    let glass = played(rt.alloc(), &[b"kkkj", b""])?;
    assert_stored!(rt; glass.terminal().backend(), screens::SECOND);
    Ok(())
}

// A lower screen brings the chosen planet into its last row, and a higher one moves nothing.
#[test]
fn follows_new_sizes(rt: HostRuntime) -> Result<(), Fail> {
    let glass = played(rt.alloc(), &[b"jjj", b"\x1b[8;2;11t", b""])?;
    assert_stored!(rt; glass.terminal().backend(), screens::LOWER);
    let glass = played(rt.alloc(), &[b"jjj", b"\x1b[8;2;11t\x1b[8;5;11t", b""])?;
    assert_stored!(rt; glass.terminal().backend(), screens::HIGHER);
    Ok(())
}
