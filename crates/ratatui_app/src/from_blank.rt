//! A counter from nothing to the glass.

ghost use Rattle.std.specs.Prelude.{IfSome};
ghost use Rattle.ratatui_app.specs.FromBlank.{CountsFromBlank, NeedsMemoryForSizes};

use crate::counter::Counter;
use crate::laws::light_applications_are_never_refused;
use crate::on_glass::OnGlass;
use ratatui_acts::laws::{
    reads_decide_where_nothing_is_asked_for, the_reads_are_what_a_source_gave,
};
use ratatui_acts::{Nothing, Seat, run};
use ratatui_ansi::AnsiBackend;
use ratatui_core::layout::Size;
use ratatui_core::terminal::Viewport;
use ratatui_reads::Source;
use std::alloc::Global;
use std::io::Write;

/// Counts from 0 on a terminal of this size, until `q` or the source's end, and answers the
/// terminal, or none if a call failed or memory was refused. There is no premise: whenever it read,
/// each terminal that had read what was sent until then showed the number that all reads before
/// lead to, and in the end each shows the number that all of them lead to.
pub fn count_from_blank<S: Source, W: Write + Drop>(
    alloc: Global,
    size: Size,
    source: &mut S,
    writer: W,
) -> Option<OnGlass<W>>
    ensures { IfSome result (CountsFromBlank S.coming source.old source.new) }
{
    let Ok(backend) = AnsiBackend::new(alloc, writer, size) else {
        return None;
    };
    let Ok(mut glass) = OnGlass::begin(alloc, Viewport::Fullscreen, backend) else {
        return None;
    };
    let mut seat = Seat::new(Counter {
        count: 0,
        is_over: false,
    });
    reads_decide_where_nothing_is_asked_for::<Counter, OnGlass<W>, S, Nothing>();
    the_reads_are_what_a_source_gave::<Counter, OnGlass<W>, S, Nothing>();
    match run(source, &mut Nothing, false, &mut glass, &mut seat) {
        Ok(()) => Some(glass),
        Err(_) => None,
    }
}

/// Counting takes no memory: a run stops for want of it only at the frame of a turn that told
/// another size than the screen has.
pub fn counting_is_never_refused<S: Source, W: Write + Drop>()
    ensures { NeedsMemoryForSizes W S.coming }
{
    light_applications_are_never_refused::<W, Counter, S, Nothing>();
}
