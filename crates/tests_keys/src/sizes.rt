//! What a terminal is sent when sizes are told, and when nothing is.

use ratatui_acts::{Glass, Told};
use ratatui_ansi::AnsiBackend;
use ratatui_app::{Counter, OnGlass};
use ratatui_core::layout::Size;
use ratatui_core::terminal::Viewport;
use std::alloc::Global;
use std::test::Fail;

const TICK: Told = Told {
    changed: false,
    came: false,
    size: None,
    anew: false,
};

const KEY: Told = Told {
    changed: false,
    came: true,
    size: None,
    anew: false,
};

fn begun(alloc: Global) -> Option<OnGlass<Vec<u8>>> {
    let size = Size {
        width: 4,
        height: 3,
    };
    let Ok(backend) = AnsiBackend::new(alloc, Vec::<u8>::new(alloc), size) else {
        return None;
    };
    match OnGlass::begin(alloc, Viewport::Fullscreen, backend) {
        Ok(glass) => Some(glass),
        Err(_) => None,
    }
}

fn count(glass: &OnGlass<Vec<u8>>) -> usize {
    glass.terminal().backend().writer().len()
}

// How many bytes each of these turns sends.
fn sent(alloc: Global, turns: &[Told], bytes: &mut Vec<usize>) -> bool {
    let Some(mut glass) = begun(alloc) else {
        return false;
    };
    let state = Counter {
        count: 7,
        is_over: false,
    };
    let Ok(()) = glass.show(&state, Told::first()) else {
        return false;
    };
    for told in turns {
        let before = count(&glass);
        let Ok(()) = glass.show(&state, *told) else {
            return false;
        };
        let Ok(()) = bytes.push(count(&glass).saturating_sub(before)) else {
            return false;
        };
    }
    true
}

// The turns at which something was sent.
fn sent_at(alloc: Global, turns: &[Told]) -> Option<Vec<usize>> {
    let mut bytes = Vec::new(alloc);
    if !sent(alloc, turns, &mut bytes) {
        return None;
    }
    let mut at = Vec::new(alloc);
    for (i, count) in bytes.iter().enumerate() {
        if *count != 0 {
            let Ok(()) = at.push(i) else {
                return None;
            };
        }
    }
    Some(at)
}

fn size(columns: u16, rows: u16) -> Told {
    Told {
        size: Some((columns, rows)),
        ..KEY
    }
}

// Whether just these turns sent something.
fn sends_at(alloc: Global, turns: &[Told], wanted: &[usize]) -> bool {
    match sent_at(alloc, turns) {
        Some(at) => at.as_slice() == wanted,
        None => false,
    }
}

#[test]
fn asks_at_every_fifth_tick(rt: HostRuntime) -> Result<(), Fail> {
    let alloc = rt.alloc();
    // The first question's answer came; then every fifth tick asks, if it was answered.
    let mut turns = Vec::new(alloc);
    turns.push(size(4, 3))?;
    for _ in 0..5 {
        turns.push(TICK)?;
    }
    turns.push(size(4, 3))?;
    for _ in 0..2 {
        turns.push(TICK)?;
    }
    turns.push(KEY)?;
    for _ in 0..4 {
        turns.push(TICK)?;
    }
    assert!(rt; sends_at(alloc, turns.as_slice(), &[5, 12]));
    Ok(())
}

#[test]
fn waits_fifty_ticks_for_an_answer(rt: HostRuntime) -> Result<(), Fail> {
    let alloc = rt.alloc();
    let mut turns = Vec::new(alloc);
    for _ in 0..101 {
        turns.push(TICK)?;
    }
    assert!(rt; sends_at(alloc, turns.as_slice(), &[49, 99]));
    Ok(())
}

#[test]
fn draws_whole_where_it_must(rt: HostRuntime) -> Result<(), Fail> {
    let alloc = rt.alloc();
    // The size that it has, asked for and not; another one; Ctrl+L; and a key that changes nothing.
    let anew = Told { anew: true, ..KEY };
    let turns = [size(4, 3), size(4, 3), size(5, 3), KEY, anew, size(5, 3)];
    assert!(rt; sends_at(alloc, &turns, &[1, 2, 4, 5]));
    Ok(())
}
