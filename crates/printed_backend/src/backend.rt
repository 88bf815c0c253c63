//! A backend that keeps the rows that scrolled off as text.

ghost use Rattle.std.specs.Prelude.{◌≡◌, ℕ, codes, length, string_bytes, IfOk, OnOk, IsNone};
ghost use Rattle.std.specs.List.{flat_map};
ghost use Rattle.std.specs.Io.KnownBytes.{Appends};
ghost use Rattle.rtui_backend.specs.Screen.{IsBlankScreen, screen_area};
ghost use Rattle.rtui_backend.specs.CellGrid.{grid_of};
ghost use Rattle.rtui_backend.specs.TestBackend.{screen_of, told_after};
ghost use Rattle.rtui_backend.specs.Print.{printed_row, printed_screen};
ghost use Rattle.printed_backend.specs.Inner.{looks_in};

use crate::rows::Rows;
use rtui_backend::TestBackend;
use rtui_buffer::Buffer;
use std::alloc::{AllocError, Global};
use std::io::{self, Write};

/// A screen in memory as a `TestBackend`'s, whose rows that scrolled off are kept as they are
/// printed. Only memory that is refused lets a call fail.
///
/// ```
/// let mut backend = PrintedBackend::new(alloc, 3, 1)?;
/// let cell = Cell::new(alloc, "x")?;
/// backend.draw(iter::once((1, 0, &cell)))?;
/// backend.append_lines(1)?;
/// let mut printed = Vec::new(alloc);
/// backend.write_to(&mut printed)?;
/// assert!(rt; printed.as_slice() == "^ x \n|   \n".as_bytes());
/// ```
#[derive(Drop)]
pub struct PrintedBackend {
    // no row scrolls off it
    pub(crate) screen: TestBackend,
    // the rows that scrolled off
    pub(crate) text: String,
    pub(crate) rows: Rows,
    pub(crate) written: u64,
    pub(crate) failures: u64,
    pub(crate) alloc: Global,
    ghost printed: { string_bytes text ≡ flat_map (printed_row (codes "^")) (looks_in rows) },
    ghost none_off: { length (screen_of screen).history ≡ 0 },
    ghost untold: { IsNone (told_after screen) },
}

impl PrintedBackend {
    ghost use Rattle.printed_backend.specs.Printed.{shown_on, failed_calls};

    /// Makes a blank screen of this size in columns and rows, its cursor visible in the corner.
    ///
    /// # Errors
    ///
    /// `AllocError` if memory is refused.
    pub fn new(alloc: Global, width: u16, height: u16) -> Result<PrintedBackend, AllocError>
        ensures screen { IfOk result (λ b. IsBlankScreen width height (shown_on b)) }
        ensures failures { IfOk result (λ b. failed_calls b ≡ 0) }
    {
        Ok(PrintedBackend {
            screen: TestBackend::new(alloc, width, height)?,
            text: String::new(alloc),
            rows: Rows::none(),
            written: 0,
            failures: 0,
            alloc,
        })
    }

    /// Returns what the screen shows, as a buffer with its corner at (0, 0).
    pub fn buffer(&self) -> &Buffer
        ensures area { result.now.area ≡ screen_area (shown_on self.now) }
        ensures shown { (a b : ℕ) → grid_of result.now.area.width result.now.cells a b
            ≡ (shown_on self.now).grid a b }
    {
        self.screen.buffer()
    }

    /// Returns the rows that scrolled off, in order, as they are printed: each after `^`.
    pub fn scrollback(&self) -> &str
        ensures { result.now ≡ flat_map (printed_row (codes "^")) (shown_on self.now).history }
    {
        self.text.as_str()
    }

    /// Writes the rows that scrolled off, each after `^`, and those of the screen, each after `|`,
    /// as `TestBackend` does.
    ///
    /// # Errors
    ///
    /// The writer's error if a write fails. How much was written then isn't said.
    pub fn write_to<W: Write>(&self, writer: &mut W) -> io::Result<()>
        ensures { OnOk result (Appends (W.contents writer.old) (W.contents writer.new)
            (printed_screen (shown_on self.now))) }
    {
        writer.write_all(self.text.as_bytes())?;
        self.screen.write_to(writer)
    }
}
