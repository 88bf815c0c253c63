//! Planets from nothing to the glass.

ghost use Rattle.std.specs.Prelude.{IfSome};
ghost use Rattle.chooser.specs.Choosing.{new_chooser};
ghost use Rattle.chooser.specs.Laws.{ChoosesFromBlank};

use crate::chooser::Chooser;
use ratatui_acts::laws::{
    reads_decide_where_nothing_is_asked_for, the_reads_are_what_a_source_gave,
};
use ratatui_acts::{Nothing, Seat, run};
use ratatui_ansi::AnsiBackend;
use ratatui_app::OnGlass;
use ratatui_core::layout::Size;
use ratatui_core::terminal::Viewport;
use ratatui_reads::Source;
use std::alloc::Global;
use std::io::Write;

/// Lets a planet be chosen on a terminal of this size, until `q` or the source's end, and answers
/// the terminal, or none if a call failed or memory was refused. There is no premise: whenever it
/// read, each terminal that had read what was sent until then showed the state that all reads
/// before lead to, which was settled; and in the end each shows the one that all of them lead to.
pub fn choose_from_blank<S: Source, W: Write + Drop>(
    alloc: Global,
    size: Size,
    source: &mut S,
    writer: W,
) -> Option<OnGlass<W>>
    ensures { let first = new_chooser alloc size in
        IfSome result (ChoosesFromBlank S.coming first source.old source.new) }
{
    let Ok(backend) = AnsiBackend::new(alloc, writer, size) else {
        return None;
    };
    let Ok(mut glass) = OnGlass::begin(alloc, Viewport::Fullscreen, backend) else {
        return None;
    };
    let mut seat = Seat::new(Chooser::new(alloc, size));
    reads_decide_where_nothing_is_asked_for::<Chooser, OnGlass<W>, S, Nothing>();
    the_reads_are_what_a_source_gave::<Chooser, OnGlass<W>, S, Nothing>();
    match run(source, &mut Nothing, false, &mut glass, &mut seat) {
        Ok(()) => Some(glass),
        Err(_) => None,
    }
}
