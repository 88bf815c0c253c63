//! Names that are removed, over reads and answers that are known.

use ratatui_acts::{Fault, Seat, run};
use ratatui_ansi::AnsiBackend;
use ratatui_app::OnGlass;
use ratatui_core::layout::Size;
use ratatui_core::terminal::Viewport;
use ratatui_reads::Pieces;
use remover::{Folder, Name, Names, Remover};
use std::alloc::{AllocError, Global};
use std::test::Fail;

fn three_names(alloc: Global) -> Result<Names, AllocError> {
    let mut names = Vec::new(alloc);
    for text in ["a.txt", "b.txt", "c.txt"] {
        let mut name = String::new(alloc);
        name.push_str(text)?;
        names.push(Name::new(name))?;
    }
    Ok(Names::new(names))
}

// How many names are left after these reads and answers, and how the run ended: 0 well, 1 at a
// read, 2 outside.
fn left(alloc: Global, pieces: &[&[u8]], answers: &[bool]) -> Option<(usize, u8)> {
    let Ok(names) = three_names(alloc) else {
        return None;
    };
    let size = Size {
        width: 30,
        height: 2,
    };
    let Ok(backend) = AnsiBackend::new(alloc, Vec::<u8>::new(alloc), size) else {
        return None;
    };
    let Ok(mut glass) = OnGlass::begin(alloc, Viewport::Fullscreen, backend) else {
        return None;
    };
    let mut seat = Seat::new(Remover::new(alloc, names));
    let mut source = Pieces::new(pieces);
    let mut folder = Folder::new(answers);
    let ended = match run(&mut source, &mut folder, false, &mut glass, &mut seat) {
        Ok(()) => 0,
        Err(Fault::Read(_)) => 1,
        Err(Fault::Outside(_)) => 2,
        Err(_) => 3,
    };
    Some((seat.state().names().len(), ended))
}

#[test]
fn removes_after_the_question(rt: HostRuntime) -> Result<(), Fail> {
    let alloc = rt.alloc();
    assert!(rt; left(alloc, &[b"j", b"d", b"y", b"q"], &[true]) == Some((2, 0)));
    assert!(rt; left(alloc, &[b"j", b"d", b"n", b"q"], &[]) == Some((3, 0)));
    assert!(rt; left(alloc, &[b"d", b"y", b"q"], &[false]) == Some((3, 0)));
    Ok(())
}

#[test]
fn keys_wait_until_it_is_answered(rt: HostRuntime) -> Result<(), Fail> {
    let alloc = rt.alloc();
    assert!(rt; left(alloc, &[b"dydydyq"], &[true, false, true]) == Some((1, 0)));
    assert!(rt; left(alloc, &[b"dydy"], &[true, true]) == Some((1, 1)));
    Ok(())
}

#[test]
fn ends_where_what_is_outside_is_lost(rt: HostRuntime) -> Result<(), Fail> {
    let alloc = rt.alloc();
    assert!(rt; left(alloc, &[b"dydyq"], &[true]) == Some((2, 2)));
    assert!(rt; left(alloc, &[b"dy", b""], &[true]) == Some((2, 0)));
    Ok(())
}
