//! What a screen shows, printed.

ghost use Rattle.std.specs.Prelude.{codes, ◌≡◌, ◌<◌, OnOk, map};
ghost use Rattle.std.specs.List.{flat_map, range_with_len};
ghost use Rattle.std.specs.Io.KnownBytes.{Appends};
ghost use Rattle.rtui_cell.specs.Look.{look_of};
ghost use Rattle.rtui_backend.specs.Screen.{row_of};
ghost use Rattle.rtui_backend.specs.TestBackend.{screen_of};
ghost use Rattle.rtui_backend.specs.Print.{row_text, printed_row, printed_screen};

use crate::test::TestBackend;
use rtui_buffer::{Cell, CellWidth};
use std::io::{self, Write};

// Writes the symbols of a row, without the columns after a wide one.
#[tactic(auto, unfolding(rtui_cell::specs::Look::look_of))]
fn write_cells<W: Write>(writer: &mut W, cells: &[Cell]) -> io::Result<()>
    ensures { OnOk result (Appends (W.contents writer.old) (W.contents writer.new)
        (row_text 0 (map look_of cells.now))) }
{
    let mut behind = 0;
    for cell in cells {
        if behind > 0 {
            behind -= 1;
        } else {
            writer.write_all(cell.symbol().as_bytes())?;
            behind = cell.symbol().cell_width().saturating_sub(1);
        }
    }
    Ok(())
}

fn write_row<W: Write>(writer: &mut W, mark: &str, cells: &[Cell]) -> io::Result<()>
    ensures { OnOk result (Appends (W.contents writer.old) (W.contents writer.new)
        (printed_row mark.now (map look_of cells.now))) }
{
    writer.write_all(mark.as_bytes())?;
    write_cells(writer, cells)?;
    writer.write_all(b"\n")
}

fn write_history<W: Write>(writer: &mut W, history: &[Vec<Cell>]) -> io::Result<()>
    ensures { OnOk result (Appends (W.contents writer.old) (W.contents writer.new)
        (flat_map (λ row. printed_row (codes "^") (map look_of row.items)) history.now)) }
{
    for row in history {
        write_row(writer, "^", row.as_slice())?;
    }
    Ok(())
}

// Row b of a screen, from the left.
fn row_cells(backend: &TestBackend, b: u16) -> &[Cell]
    requires { b < (screen_of backend.now).height }
    ensures { map look_of result.now ≡ row_of (screen_of backend.now) b }
{
    backend.buffer().row(b)
}

fn write_rows<W: Write>(writer: &mut W, backend: &TestBackend) -> io::Result<()>
    ensures { OnOk result (Appends (W.contents writer.old) (W.contents writer.new)
        (flat_map (λ b. printed_row (codes "|") (row_of (screen_of backend.now) b))
        (range_with_len 0 (screen_of backend.now).height))) }
{
    for b in 0..backend.buffer().area().height {
        write_row(writer, "|", row_cells(backend, b))?;
    }
    Ok(())
}

impl TestBackend {
    /// Writes the rows that scrolled off, each after `^`, and those of the screen, each after `|`.
    /// Each row has the symbols of its columns, but for the columns that a wide symbol covers, and
    /// ends in a line break.
    ///
    /// # Errors
    ///
    /// The writer's error if a write fails. How much was written then isn't said.
    pub fn write_to<W: Write>(&self, writer: &mut W) -> io::Result<()>
        ensures { OnOk result (Appends (W.contents writer.old) (W.contents writer.new)
            (printed_screen (screen_of self.now))) }
    {
        write_history(writer, self.scrollback())?;
        write_rows(writer, self)
    }
}
