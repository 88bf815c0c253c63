//! A writer that fails once.

ghost use Rattle.std.specs.Prelude.{◌≡◌};

use std::alloc::Global;
use std::io::{self, ErrorKind, Write};

/// A writer that keeps what it is given, and fails once.
#[derive(Drop)]
pub struct Tearing {
    /// What it was given.
    pub sent: Vec<u8>,
    calls: u64,
    /// Whether it has failed.
    pub is_torn: bool,
}

impl Tearing {
    /// Makes a writer that fails after so many calls.
    pub fn new(alloc: Global, calls: u64) -> Tearing {
        Tearing {
            sent: Vec::new(alloc),
            calls,
            is_torn: false,
        }
    }

    fn begin(&mut self) -> io::Result<()>
        ensures { self.new.sent ≡ self.old.sent }
    {
        if self.is_torn {
            return Ok(());
        }
        if self.calls > 0 {
            self.calls -= 1;
            return Ok(());
        }
        self.is_torn = true;
        Err(ErrorKind::BrokenPipe.into())
    }
}

impl Write for Tearing {
    fn write(&mut self, buf: &[u8]) -> io::Result<usize> {
        self.begin()?;
        self.sent.extend_from_slice(buf)?;
        Ok(buf.len())
    }

    fn flush(&mut self) -> io::Result<()> {
        self.begin()
    }
}
