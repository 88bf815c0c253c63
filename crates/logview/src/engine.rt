//! The engine: from the bytes of a log to the printed screen.

ghost use Rattle.std.specs.Prelude.{◌≡◌, ◌<◌, [], drop, IfOk, IfErr, IfSome, OnOk};
ghost use Rattle.std.specs.Io.KnownBytes.{Appends};
ghost use Rattle.std.specs.Str.{IsUtf8};
ghost use Rattle.std.specs.Str.Lines.{lines};
ghost use Rattle.ratatui_core.specs.Layout.{Size};
ghost use Rattle.ratatui_core.specs.Backend.{printed_screen};
ghost use Rattle.printed_backend.specs.Printed.{shown_on};
ghost use Rattle.logview.specs.Views.{IsViewOf};
ghost use Rattle.logview.specs.Engine.{size_of_log, IsLogView, IsLogFault, PrintsLog, StopsPushing};
ghost use Rattle.logview.specs.declared.fault.LogFault.TheVariants.{Read, Write};

use crate::fault::LogFault;
use crate::view::LogView;
use printed_backend::PrintedBackend;
use ratatui_core::backend::Backend;
use ratatui_core::layout::Size;
use script_words::read_size;
use std::alloc::Global;
use std::io::{self, ErrorKind, Read, Write};
use std::str;

// All that a reader has left.
fn read_bytes<R: Read>(alloc: Global, reader: &mut R) -> Result<Vec<u8>, LogFault>
    ensures ok { IfOk result (λ bytes.
        IfSome (R.remaining reader.old) (λ all. bytes.items ≡ all)) }
    ensures err { IfErr result (λ fault.
        IfSome (R.remaining reader.old) (λ bytes. IsLogFault bytes fault)) }
    ensures not_write { IfErr result (λ fault. fault ≡ Write → ⊥) }
{
    let mut bytes = Vec::new(alloc);
    match reader.read_to_end(&mut bytes) {
        Ok(_) => Ok(bytes),
        Err(error) if error.kind() == ErrorKind::OutOfMemory => Err(LogFault::Memory),
        Err(_) => Err(LogFault::Read),
    }
}

// The size that the first line of a text says.
fn first_size(text: &str) -> Option<Size>
    ensures value { result ≡ size_of_log (lines text.now) }
    ensures some { IfSome result (λ size. (0 < size.width) × (0 < size.height)) }
{
    let first = text.lines().next()?;
    read_size(first)
}

// A view over a blank screen in memory.
fn open(alloc: Global, size: Size) -> Option<LogView<PrintedBackend>>
    ensures { 0 < size.height → IfSome result (IsViewOf shown_on size []) }
{
    let backend = PrintedBackend::new(alloc, size.width, size.height).ok()?;
    LogView::new(alloc, backend).ok()
}

/// Pushes the lines of a log: those of a text but the first, which is its size.
///
/// # Errors
///
/// `Refused` names the line that was refused; the lines before it were pushed.
pub fn push_lines<B: Backend>(view: &mut LogView<B>, text: &str) -> Result<(), LogFault>
    ensures ok { OnOk result ((size : Size) → IsViewOf B.screen size [] view.old
        → IsViewOf B.screen size (drop 1 (lines text.now)) view.new) }
    ensures err { IfErr result (λ fault. (size : Size) → IsViewOf B.screen size [] view.old
        → StopsPushing B.screen B.stops_at size (lines text.now) view.new fault) }
{
    let mut number = 1usize;
    for line in text.lines().skip(1) {
        number += 1;
        if let Err(_) = view.push(line) {
            return Err(LogFault::Refused(number));
        }
    }
    Ok(())
}

// The view of a log: its size, and then its lines.
fn view_of_text(alloc: Global, text: &str) -> Result<LogView<PrintedBackend>, LogFault>
    ensures ok { IfOk result (IsLogView (lines text.now)) }
    ensures err { IfErr result (IsLogFault text.now) }
    ensures not_read { IfErr result (λ fault. fault ≡ Read → ⊥) }
    ensures not_write { IfErr result (λ fault. fault ≡ Write → ⊥) }
{
    let Some(size) = first_size(text) else {
        return Err(LogFault::Size);
    };
    let Some(mut view) = open(alloc, size) else {
        return Err(LogFault::Refused(1));
    };
    push_lines(&mut view, text)?;
    Ok(view)
}

/// Makes the view of the log that these bytes are: a line `W H` of columns and rows, both from 1 to
/// 65535, and then any lines.
///
/// # Errors
///
/// - `Size`: the first line isn't a size.
/// - `NotText`: the bytes aren't UTF-8.
/// - `Refused`: memory was refused for the line of this number.
/// - `Memory`: memory was refused.
pub fn view_of(alloc: Global, bytes: &[u8]) -> Result<LogView<PrintedBackend>, LogFault>
    ensures text { OnOk result (IsUtf8 bytes.now) }
    ensures view { IfOk result (IsLogView (lines bytes.now)) }
    ensures fault { IfErr result (IsLogFault bytes.now) }
    ensures not_read { IfErr result (λ fault. fault ≡ Read → ⊥) }
    ensures not_write { IfErr result (λ fault. fault ≡ Write → ⊥) }
{
    let Ok(text) = str::from_utf8(bytes) else {
        return Err(LogFault::NotText);
    };
    view_of_text(alloc, text)
}

// Writes what the screen of a view shows, and flushes it.
fn write_view<W: Write>(writer: &mut W, view: &LogView<PrintedBackend>) -> io::Result<()>
    ensures { OnOk result (Appends (W.contents writer.old) (W.contents writer.new)
        (printed_screen (shown_on view.now.terminal.backend))) }
{
    view.terminal().backend().write_to(writer)?;
    writer.flush()
}

/// Reads a log to its end: a line `W H` of columns and rows, both from 1 to 65535, and then any
/// lines. It shows them on a screen of that size, and writes the rows that scrolled off, each after
/// `^`, and those of the screen, each after `|`.
///
/// # Errors
///
/// Those of [`view_of`]; `Read` if the reader failed; and `Write` if the writer failed. With any
/// but `Write` nothing was written.
pub fn run<R: Read, W: Write>(alloc: Global, reader: &mut R, writer: &mut W) -> Result<(), LogFault>
    ensures printed { OnOk result (IfSome (R.remaining reader.old) (λ bytes.
        PrintsLog bytes (W.contents writer.old) (W.contents writer.new))) }
    ensures fault { IfErr result (λ fault.
        IfSome (R.remaining reader.old) (λ bytes. IsLogFault bytes fault)) }
    ensures nothing_written { IfErr result (λ fault.
        (fault ≡ Write → ⊥) → writer.new ≡ writer.old) }
{
    let bytes = read_bytes(alloc, reader)?;
    let view = view_of(alloc, bytes.as_slice())?;
    write_view(writer, &view).map_err(|_| LogFault::Write)
}
