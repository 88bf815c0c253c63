//! Frames, printed.

ghost use Rattle.std.specs.Prelude.{◌≡◌, true};
ghost use Rattle.pager_frames.specs.InMemory.{ShowsInMemory};

use crate::recording::Recording;
use bitflags::Flags;
use pager::{Document, OwnText, Pager, Styles, parted};
use ratatui_acts::{Acts, Glass, Nothing, Seat, Told};
use ratatui_app::OnScreen;
use ratatui_core::backend::TestBackend;
use ratatui_core::buffer::Cell;
use ratatui_core::layout::Size;
use ratatui_core::style::{Color, Modifier};
use ratatui_core::terminal::Viewport;
use ratatui_reads::Pieces;
use std::alloc::Global;
use std::io::{self, ErrorKind};
use std::str;

/// A text as it came and what it says, and the size of the screen on which it is shown.
#[derive(Clone, Copy)]
pub struct Stage<'a> {
    pub alloc: Global,
    pub raw: &'a str,
    pub text: &'a str,
    pub size: Size,
}

impl<'a> Stage<'a> {
    // The styles in which the text is said.
    fn styles(&self) -> Option<Styles> {
        match parted(self.alloc, self.raw).ok()? {
            Some((_text, styles)) => Some(styles),
            None => Some(Styles::new(self.alloc)),
        }
    }

    /// Makes a pager of the text.
    pub fn pager(&self) -> Option<Pager<'a>> {
        let styles = self.styles()?;
        let document = Document::new(self.alloc, self.text).ok()?;
        let name = OwnText::new(String::from_str(self.alloc, "text").ok()?);
        let pattern = OwnText::new(String::new(self.alloc));
        Some(Pager::new(document, name, pattern, self.size).styled(styles))
    }
}

// A sign for how a cell is styled.
fn sign_of(cell: &Cell) -> &'static str {
    let is_bold = cell.modifier.contains(Modifier::BOLD);
    let is_underlined = cell.modifier.contains(Modifier::UNDERLINED);
    if cell.modifier.contains(Modifier::REVERSED) {
        "^"
    } else if is_bold && is_underlined {
        "B"
    } else if is_bold {
        "b"
    } else if is_underlined {
        "u"
    } else if cell.bg != Color::Reset {
        "g"
    } else if cell.fg != Color::Reset {
        "c"
    } else {
        " "
    }
}

// Prints how the columns of a row are styled, if some are.
fn print_marks(rt: &HostRuntime, alloc: Global, cells: &[Cell], width: usize) -> io::Result<()> {
    let mut marks = String::new(alloc);
    let mut is_marked = false;
    for cell in cells.iter().take(width) {
        let sign = sign_of(cell);
        is_marked = is_marked || sign != " ";
        marks.push_str(sign).map_err(|_| ErrorKind::OutOfMemory)?;
    }
    if is_marked {
        let marks = marks.as_str().trim_end();
        println!(rt; " {marks}")?;
    }
    Ok(())
}

// Prints the screen, and below each row but the last one how it is styled.
fn print_screen(rt: &HostRuntime, alloc: Global, backend: &TestBackend) -> io::Result<()> {
    let mut rows = Vec::new(alloc);
    backend.write_to(&mut rows)?;
    let text = str::from_utf8(rows.as_slice()).map_err(|_| ErrorKind::InvalidData)?;
    let area = *backend.buffer().area();
    let width = usize::from(area.width);
    let last = usize::from(area.height.saturating_sub(1));
    for (y, row) in text.lines().enumerate() {
        println!(rt; "{row}")?;
        if y < last {
            let from = y.saturating_mul(width);
            let cells = backend.buffer().content();
            print_marks(rt, alloc, cells.get(from..).unwrap_or(&[]), width)?;
        }
    }
    Ok(())
}

// The bytes of read k of a recording.
fn read_of(recording: &Recording, k: usize) -> &[u8] {
    let end = recording.ends.get(k).copied().unwrap_or(0);
    let from = match k.checked_sub(1) {
        Some(before) => recording.ends.get(before).copied().unwrap_or(0),
        None => 0,
    };
    recording.bytes.get(from..end).unwrap_or(&[])
}

// Takes the bytes of a read, unless the pager is over, and shows the page; answers whether that went
// well.
fn take(glass: &mut OnScreen<TestBackend>, seat: &mut Seat<Pager<'_>>, bytes: &[u8]) -> bool
    requires { ShowsInMemory seat.old.state glass.old.terminal }
    ensures { result ≡ true → ShowsInMemory seat.new.state glass.new.terminal }
{
    if seat.state().is_over() {
        return true;
    }
    let pieces = [bytes];
    let Ok(told) = seat.turn(&mut Pieces::new(&pieces), &mut Nothing, glass) else {
        return false;
    };
    let Ok(()) = glass.show(seat.state(), told) else {
        return false;
    };
    true
}

/// Prints the first frame, and the one after each read; answers whether all were drawn.
pub fn print_frames(
    rt: &HostRuntime,
    stage: Stage<'_>,
    script: &str,
    recording: &Recording,
) -> io::Result<bool> {
    let Some(pager) = stage.pager() else {
        return Ok(false);
    };
    let Ok(screen) = TestBackend::new(stage.alloc, stage.size.width, stage.size.height) else {
        return Ok(false);
    };
    let Ok(mut glass) = OnScreen::begin(stage.alloc, Viewport::Fullscreen, screen) else {
        return Ok(false);
    };
    let mut seat = Seat::new(pager);
    let Ok(()) = glass.show(seat.state(), Told::first()) else {
        return Ok(false);
    };
    print_screen(rt, stage.alloc, glass.terminal().backend())?;
    for (k, line) in script.lines().enumerate() {
        println!(rt; "> {line}")?;
        if !take(&mut glass, &mut seat, read_of(recording, k)) {
            return Ok(false);
        }
        print_screen(rt, stage.alloc, glass.terminal().backend())?;
    }
    Ok(true)
}
