//! Events as lines of text, each with its bytes.

use arrayvec::ArrayVec;
use ratatui_events::{Event, KeyCode, KeyModifiers};
use ratatui_input::{Decoder, Fed};
use std::io::{self, Write};

/// How many bytes of an event are shown.
const ROOM: usize = 64;

/// A decoder, and the bytes of the event that is under way.
#[derive(Drop)]
pub struct Shown {
    decoder: Decoder,
    bytes: ArrayVec<u8, ROOM>,
}

// Writes a byte as a word: by its name, as an ASCII character, or in hexadecimal digits.
fn write_byte<W: Write>(out: &mut W, byte: u8) -> io::Result<()> {
    match byte {
        0x1b => write!(out, "ESC "),
        b' ' => write!(out, "SP "),
        b'\r' => write!(out, "CR "),
        b'\n' => write!(out, "LF "),
        b'\t' => write!(out, "TAB "),
        0x7f => write!(out, "DEL "),
        b'!'..=b'~' => {
            let character = byte as char;
            write!(out, "{character} ")
        }
        _ => write!(out, "{byte:02X} "),
    }
}

// Writes a line: bytes, and their event. In raw mode a line ends with CR and LF.
fn write_line<W: Write>(out: &mut W, bytes: &[u8], event: Event) -> io::Result<()> {
    for byte in bytes {
        write_byte(out, *byte)?;
    }
    write!(out, "= {event}\r\n")
}

// Whether an event ends the program: Ctrl+D, whatever locks are on.
fn is_end(event: Event) -> bool {
    match event {
        Event::Key(key) => {
            key.code == KeyCode::Char('d') && key.modifiers == KeyModifiers::CONTROL
        }
        _ => false,
    }
}

impl Shown {
    /// Begins where nothing has come.
    pub fn new() -> Shown {
        Shown {
            decoder: Decoder::new(),
            bytes: ArrayVec::new(),
        }
    }

    // Writes an event, if there is one, and forgets its bytes. Whether it ends the program.
    fn tell<W: Write>(&mut self, event: Option<Event>, out: &mut W) -> io::Result<bool> {
        match event {
            None => Ok(false),
            Some(event) => {
                write_line(out, self.bytes.as_slice(), event)?;
                self.bytes.clear();
                Ok(is_end(event))
            }
        }
    }

    // Takes a byte.
    fn take_byte<W: Write>(&mut self, byte: u8, out: &mut W) -> io::Result<bool> {
        let Fed { cut, event } = self.decoder.feed(byte);
        let ends = self.tell(cut, out)?;
        if !self.bytes.is_full() {
            self.bytes.push(byte);
        }
        Ok(self.tell(event, out)? || ends)
    }

    /// Writes the events of the bytes of a read; where nothing came, what had come is taken as
    /// whole. Returns whether one of them ends the program.
    pub fn take<W: Write>(&mut self, bytes: &[u8], out: &mut W) -> io::Result<bool> {
        if bytes.is_empty() {
            let event = self.decoder.settle();
            return self.tell(event, out);
        }
        for byte in bytes {
            if self.take_byte(*byte, out)? {
                return Ok(true);
            }
        }
        Ok(false)
    }
}
