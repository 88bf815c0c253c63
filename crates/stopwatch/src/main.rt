//! The program `stopwatch`: how many seconds have gone, until `q`.
//!
//! The blank stops it and lets it go on, `r` begins anew. It is an application of `ratatui_app` whose
//! ticks tell the time, by the system's clock. `tools/play stopwatch` shows it.
#![tactic(auto)]

mod watch;

use crate::watch::Stopwatch;
use programs::{Stream, is_terminal};
use ratatui_acts::{Clocked, Nothing, Seat};
use ratatui_ansi::{AnsiBackend, size_told};
use ratatui_app::run_and_leave;
use std::io::BufWriter;

fn main(rt: HostRuntime) -> anyhow::Result<()> {
    let alloc = rt.alloc();
    let writer = BufWriter::new(alloc, rt.stdout())?;
    let backend = AnsiBackend::new_on_alternate_screen(alloc, writer, size_told(&rt))?;
    let mut ears = Clocked::new(rt.reader(), &rt)?;
    let mut seat = Seat::new(Stopwatch::new());
    let has_ticks = is_terminal(&rt, Stream::Input);
    run_and_leave(
        alloc,
        &mut ears,
        &mut Nothing,
        has_ticks,
        backend,
        &mut seat,
    )?
    .ended?;
    Ok(())
}
