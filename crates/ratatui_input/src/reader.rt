//! Events from a reader.

ghost use Rattle.std.specs.Prelude.{◌≡◌, ◌<◌, ◌+◌, [], None, Some, slice_get, IfNone, MatchOption};
ghost use Rattle.std.specs.Prelude.{MatchResult};
ghost use Rattle.ratatui_input.specs.Encodings.{fresh_decoder};
ghost use Rattle.ratatui_input.specs.Reading.{kept_told, unread, source, Reads};
ghost use Rattle.ratatui_input.specs.Inner.{TellsFirst, TellsNothing};
ghost use Rattle.ratatui_input.specs.Reading.{KeepsAll};

use crate::decoder::{Decoder, Fed};
use ratatui_events::Event;
use std::io::{self, ErrorKind, Read};

/// How many bytes a read gives at most.
const ROOM: usize = 1024;

/// What has been read and isn't told yet.
#[derive(Debug, Clone, Copy)]
struct Kept {
    decoder: Decoder,
    // The second event of the byte before, if it had two.
    second: Option<Event>,
    // What the last read gave, and the places of the next byte and of the end in it.
    bytes: [u8; ROOM],
    next: usize,
    end: usize,
}

impl Kept {
    // Nothing is read yet.
    fn new() -> Kept
        ensures { kept_told result ≡ ([], fresh_decoder) }
    {
        Kept {
            decoder: Decoder::new(),
            second: None,
            bytes: [0; ROOM],
            next: 0,
            end: 0,
        }
    }

    // Decodes the next byte, and tells its first event.
    fn next_byte(&mut self, byte: u8) -> Option<Event>
        requires none { self.old.second ≡ None }
        requires some { self.old.next < self.old.end }
        requires next { slice_get self.old.bytes self.old.next ≡ Some byte }
        ensures told { MatchOption result (kept_told self.new ≡ kept_told self.old) (λ event.
            TellsFirst self.old event self.new) }
        ensures second { IfNone result (self.new.second ≡ None) }
        ensures next { self.new.next ≡ self.old.next + 1 }
        ensures end { self.new.end ≡ self.old.end }
    {
        self.next += 1;
        let Fed { cut, event } = self.decoder.feed(byte);
        match cut {
            Some(first) => {
                self.second = event;
                Some(first)
            }
            None => event,
        }
    }

    // The next event of the bytes that have come.
    fn next_event(&mut self) -> Option<Event>
        ensures { MatchOption result (TellsNothing self.old self.new) (λ event.
            TellsFirst self.old event self.new) }
    {
        if let Some(event) = self.second {
            self.second = None;
            return Some(event);
        }
        'bytes: while self.next < self.end {
            let Some(byte) = self.bytes.get(self.next).copied() else {
                break 'bytes;
            };
            if let Some(event) = self.next_byte(byte) {
                return Some(event);
            }
        }
        self.end = 0;
        None
    }

    // Takes what a read gave, in place of what came before.
    fn begin(&mut self, count: usize)
        ensures { self.new ≡ record self.old { second = None; next = 0; end = count } }
    {
        self.second = None;
        self.next = 0;
        self.end = count;
    }
}

/// Reads events from what a reader gives: from a terminal in raw mode, or from any bytes.
///
/// A read that finds nothing is taken for the end of what is to come for now: ESC alone is a key
/// then. So set the terminal to answer such a read after a while, as `stty raw -echo min 0 time 1`
/// does after a tenth of a second.
///
/// ```
/// let mut events = EventReader::new(rt.reader());
/// if let Some(event) = events.read()? {
///     println!(rt; "{event:?}")?;
/// }
/// ```
#[derive(Drop)]
pub struct EventReader<R> {
    reader: R,
    kept: Kept,
}

impl<R: Read> EventReader<R> {
    /// Makes a reader of events that has read nothing yet.
    pub fn new(reader: R) -> EventReader<R>
        ensures source { source result ≡ reader }
        ensures nothing { unread result ≡ ([], fresh_decoder) }
    {
        EventReader {
            reader,
            kept: Kept::new(),
        }
    }

    /// Returns the next event, reading until one is whole. `None` if a read found nothing and
    /// nothing that had come is a key by itself.
    ///
    /// # Errors
    ///
    /// The reader's own. What had come is kept: call again to go on.
    pub fn read(&mut self) -> io::Result<Option<Event>>
        ensures { MatchResult result
            (λ told. Reads R.remaining self.old told self.new)
            (λ _. KeepsAll R.remaining self.old self.new) }
    {
        for _ in 0..u64::MAX {
            if let Some(event) = self.kept.next_event() {
                return Ok(Some(event));
            }
            let count = match self.reader.read(&mut self.kept.bytes) {
                Ok(count) => count,
                Err(error) => return Err(error),
            };
            self.kept.begin(count);
            if count == 0 {
                return Ok(self.kept.decoder.settle());
            }
        }
        Err(io::Error::from(ErrorKind::Other))
    }
}
