//! Names that are removed, from nothing to the glass.

ghost use Rattle.std.specs.Prelude.{[], IfSome};
ghost use Rattle.ratatui_input.specs.Encodings.{fresh_decoder};
ghost use Rattle.remover.specs.declared.remover.Phase.TheVariants.{Looking};
ghost use Rattle.remover.specs.Laws.{RemovesFromBlank};

use crate::folder::Folder;
use crate::laws::names_are_removed_while_they_are_shown;
use crate::name::Names;
use crate::remover::Remover;
use ratatui_acts::{Seat, run};
use ratatui_ansi::AnsiBackend;
use ratatui_app::OnGlass;
use ratatui_core::layout::Size;
use ratatui_core::terminal::Viewport;
use ratatui_reads::Source;
use std::alloc::Global;
use std::io::Write;

/// Removes files of a folder on a terminal of this size, until `q` or the source's end, and answers
/// the terminal, or none if a call failed or memory was refused. There is no premise: each name
/// that was removed was removed while each terminal that had read what was sent until then showed
/// the question that names it; and in the end the glass shows the state that all that was read and
/// answered leads to.
pub fn remove_from_blank<'a, S: Source, W: Write + Drop>(
    alloc: Global,
    size: Size,
    names: Names,
    source: &mut S,
    folder: &mut Folder<'a>,
    writer: W,
) -> Option<OnGlass<W>>
    ensures { IfSome result (λ glass. RemovesFromBlank S.coming
        (record { alloc = alloc; names = names; selected = 0; phase = Looking })
        source.old folder.old source.new folder.new glass) }
{
    let Ok(backend) = AnsiBackend::new(alloc, writer, size) else {
        return None;
    };
    let Ok(mut glass) = OnGlass::begin(alloc, Viewport::Fullscreen, backend) else {
        return None;
    };
    names_are_removed_while_they_are_shown::<W, S, Folder<'a>>();
    let mut seat = Seat::new(Remover::new(alloc, names));
    match run(source, folder, false, &mut glass, &mut seat) {
        Ok(()) => Some(glass),
        Err(_) => None,
    }
}
