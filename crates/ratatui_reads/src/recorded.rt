//! Readers whose reads are recorded.

ghost use Rattle.std.specs.Prelude.{◌≡◌, []};
ghost use Rattle.ratatui_reads.specs.Recorded.{recorded_reads, coming_recorded};

use crate::reads::Reads;
use crate::source::Source;
use std::io::{self, Read};

/// A reader whose reads are recorded. As a source it lets clauses know which bytes each read put into
/// its buffer, also if nothing is known of the reader, as of a keyboard; that takes no memory.
#[derive(Drop)]
pub struct Recorded<R> {
    reader: R,
    reads: Reads,
}

impl<R: Read> Recorded<R> {
    /// Takes a reader, of which no read is recorded yet.
    pub fn new(reader: R) -> Recorded<R>
        ensures { recorded_reads result ≡ [] }
    {
        let reads = Reads::new(&reader);
        Recorded { reader, reads }
    }
}

impl<R: Read> Source for Recorded<R> {
    ghost coming = { coming_recorded };

    fn read_once(&mut self, buf: &mut [u8]) -> io::Result<usize> {
        let count = self.reader.read(buf)?;
        self.reads.note(&buf[..count]);
        Ok(count)
    }
}
