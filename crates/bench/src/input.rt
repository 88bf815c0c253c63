//! Workloads on keys and areas.
ghost use Rattle.std.specs.Prelude.{◌<◌, ◌^◌, OnOk};
ghost use Rattle.ratatui_app.specs.{Counting.PaintsCounter, Glass.no_cursor, Glass.StandsOnGlass};

use crate::memory::Memory;
use crate::{Done, Size};
use ratatui_acts::{Glass, Nothing, Seat, Told};
use ratatui_ansi::AnsiBackend;
use ratatui_app::{Counter, OnGlass};
use ratatui_core::layout::{Constraint, Layout, Rect, Size as ScreenSize, SplitInto};
use ratatui_core::terminal::Viewport;
use ratatui_input::Decoder;
use ratatui_reads::Pieces;
use std::alloc::{AllocError, Global};

// A text's bytes decoded each round; the sum counts the events.
fn decodes(alloc: Global, size: Size, text: &str) -> Done {
    let bytes = text.repeat(alloc, 100)?;
    let mut decoder = Decoder::new();
    let mut events = 0u64;
    for _round in 0..size.count {
        for byte in bytes.as_bytes() {
            if decoder.feed(*byte).event.is_some() {
                events = events.saturating_add(1);
            }
        }
    }
    Ok(Some((size.count, events)))
}

// Has an application hear a read, unless it is over, and shows it.
fn hear(
    glass: &mut OnGlass<Memory>,
    seat: &mut Seat<Counter>,
    read: &[u8],
) -> Result<(), AllocError>
    requires { StandsOnGlass (PaintsCounter seat.old.state) no_cursor glass.old.terminal }
    ensures { OnOk result (StandsOnGlass (PaintsCounter seat.new.state) no_cursor
        glass.new.terminal) }
{
    if seat.state().is_over {
        return Ok(());
    }
    let pieces = [read];
    let Ok(told) = seat.turn(&mut Pieces::new(&pieces), &mut Nothing, glass) else {
        return Err(AllocError);
    };
    let Ok(()) = glass.show(seat.state(), told) else {
        return Err(AllocError);
    };
    Ok(())
}

// A read heard by an application each round, which counts up and down, from the read's bytes to the
// bytes that are sent: how many those were, and the last count. The reads are two and two in turns;
// an empty one is a tick.
fn frames(alloc: Global, size: Size, reads: [&str; 2]) -> Done {
    let screen = ScreenSize::new(size.width, size.height);
    let Ok(backend) = AnsiBackend::new(alloc, Memory::new(alloc), screen) else {
        return Err(AllocError);
    };
    let Ok(mut glass) = OnGlass::begin(alloc, Viewport::Fullscreen, backend) else {
        return Err(AllocError);
    };
    let mut seat = Seat::new(Counter {
        count: 0,
        is_over: false,
    });
    let Ok(()) = glass.show(seat.state(), Told::first()) else {
        return Err(AllocError);
    };
    let before = glass.terminal().backend().writer().flushed();
    let [first, second] = reads;
    for round in 0..size.count {
        let read = if round % 4 < 2 { first } else { second };
        hear(&mut glass, &mut seat, read.as_bytes())?;
    }
    let after = glass.terminal().backend().writer().flushed();
    Ok(Some((after.wrapping_sub(before), u64::from(seat.state().count))))
}

// A row cut into N parts each round; the sum counts their columns.
fn splits<const N: usize>(size: Size, layout: &Layout) -> Done
    requires { N < 2 ^ 32 }
{
    let mut columns = 0u64;
    for _round in 0..size.count {
        let area = Rect::new(0, 0, size.width, 1);
        let Ok(parts) = layout.try_areas(area) else {
            return Ok(None);
        };
        let parts: [Rect; N] = parts;
        for part in &parts {
            columns = columns.saturating_add(u64::from(part.width));
        }
    }
    Ok(Some((size.count, columns)))
}

// The first of these constraints, as a row.
fn row(alloc: Global, count: usize) -> Result<Layout, AllocError> {
    let mixed = [
        Constraint::Length(5),
        Constraint::Fill(1),
        Constraint::Percentage(10),
        Constraint::Min(3),
        Constraint::Max(7),
        Constraint::Ratio(1, 9),
    ];
    let mut constraints = Vec::new(alloc);
    for constraint in mixed.iter().cycle().take(count) {
        constraints.push(*constraint)?;
    }
    Layout::horizontal(alloc, constraints.as_slice())
}

/// Runs the workload of this name, if it is one.
pub fn run(alloc: Global, name: &str, size: Size) -> Done {
    match name {
        "keys_text" => decodes(alloc, size, "the quick brown fox jumps over "),
        "keys_arrows" => decodes(alloc, size, "\u{1b}[A\u{1b}[B\u{1b}[1;5C"),
        "keys_mouse" => decodes(alloc, size, "\u{1b}[<0;12;34M\u{1b}[<35;13;34m"),
        "app_keys" => frames(alloc, size, ["+", "-"]),
        "app_ticks" => frames(alloc, size, ["", ""]),
        "split_3" => splits::<3>(size, &row(alloc, 3)?),
        "split_8" => splits::<8>(size, &row(alloc, 8)?),
        "split_20" => splits::<20>(size, &row(alloc, 20)?),
        _ => Ok(None),
    }
}
