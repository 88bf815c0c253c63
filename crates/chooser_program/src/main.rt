//! The program `chooser`: planets, of which one is chosen.
//!
//! `j` and `k` choose the next one and the one before, `q` ends. It is an application of
//! `ratatui_app` that keeps the state of a list. `tools/play chooser_program` shows it.
#![tactic(auto)]

use chooser::Chooser;
use programs::{Stream, is_terminal};
use ratatui_acts::{Nothing, Seat};
use ratatui_ansi::{AnsiBackend, size_told};
use ratatui_app::run_and_leave;
use ratatui_reads::Recorded;
use std::io::BufWriter;

fn main(rt: HostRuntime) -> anyhow::Result<()> {
    let alloc = rt.alloc();
    let writer = BufWriter::new(alloc, rt.stdout())?;
    let size = size_told(&rt);
    let backend = AnsiBackend::new_on_alternate_screen(alloc, writer, size)?;
    let mut seat = Seat::new(Chooser::new(alloc, size));
    run_and_leave(
        alloc,
        &mut Recorded::new(rt.reader()),
        &mut Nothing,
        is_terminal(&rt, Stream::Input),
        backend,
        &mut seat,
    )?
    .ended?;
    Ok(())
}
