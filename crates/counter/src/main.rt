//! The program `counter`: a number that `+` and `-` change, until `q`.
//!
//! It is an application of `ratatui_app`, on the terminal's alternate screen. `tools/play counter`
//! shows it.
#![tactic(auto)]

use programs::{Stream, is_terminal};
use ratatui_acts::{Nothing, Seat};
use ratatui_ansi::{AnsiBackend, size_told};
use ratatui_app::{Counter, run_and_leave};
use ratatui_reads::Recorded;
use std::io::BufWriter;

fn main(rt: HostRuntime) -> anyhow::Result<()> {
    let alloc = rt.alloc();
    let writer = BufWriter::new(alloc, rt.stdout())?;
    let backend = AnsiBackend::new_on_alternate_screen(alloc, writer, size_told(&rt))?;
    let counter = Counter {
        count: 0,
        is_over: false,
    };
    let mut seat = Seat::new(counter);
    run_and_leave(
        alloc,
        &mut Recorded::new(rt.reader()),
        &mut Nothing,
        is_terminal(&rt, Stream::Input),
        backend,
        &mut seat,
    )?
    .ended?;
    Ok(())
}
