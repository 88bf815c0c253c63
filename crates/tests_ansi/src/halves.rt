//! What another program broke off in the middle: the beginning's bytes end it, for any terminal that
//! reads sequences as ECMA-48 has them.
use ratatui_ansi::AnsiBackend;
use ratatui_core::layout::Size;
use std::alloc::{AllocError, Global};
use std::test::Fail;

/// Where a terminal stands in its input.
#[derive(Clone, Copy, PartialEq, Eq)]
enum Place {
    /// Between characters and sequences.
    Ground,
    /// In a character of which so many bytes lack.
    Character(u8),
    /// After ESC and what stands between it and the final byte.
    Escape,
    /// After ESC `[`.
    Control,
    /// In a string, of a title say.
    Text,
}

/// A terminal as far as it finds the ends of characters, sequences and strings.
#[derive(Drop)]
struct Terminal {
    place: Place,
    /// What it took as whole: characters, controls and sequences.
    whole: Vec<u8>,
    /// What it has of one that isn't whole yet.
    part: Vec<u8>,
}

impl Terminal {
    // The part is whole.
    fn take(&mut self) -> Result<(), AllocError> {
        self.whole.extend_from_slice(self.part.as_slice())?;
        self.part.clear();
        self.place = Place::Ground;
        Ok(())
    }

    // A part begins, and what there was of one is dropped.
    fn begin(&mut self, byte: u8, place: Place) -> Result<(), AllocError> {
        self.part.clear();
        self.go_on(byte, place)
    }

    // The part goes on.
    fn go_on(&mut self, byte: u8, place: Place) -> Result<(), AllocError> {
        self.place = place;
        self.part.push(byte)?;
        Ok(())
    }

    fn read_escape(&mut self, byte: u8) -> Result<(), AllocError> {
        match byte {
            b'[' => self.go_on(byte, Place::Control),
            b']' | b'P' | b'_' | b'^' | b'X' => self.begin(byte, Place::Text),
            0x20..=0x2F => self.go_on(byte, Place::Escape),
            _ => {
                self.part.push(byte)?;
                self.take()
            }
        }
    }

    fn read_ground(&mut self, byte: u8) -> Result<(), AllocError> {
        match byte {
            0xC2..=0xDF => self.begin(byte, Place::Character(1)),
            0xE0..=0xEF => self.begin(byte, Place::Character(2)),
            0xF0..=0xF4 => self.begin(byte, Place::Character(3)),
            _ => {
                self.begin(byte, Place::Ground)?;
                self.take()
            }
        }
    }

    fn read(&mut self, byte: u8) -> Result<(), AllocError> {
        if byte == 0x1B {
            return self.begin(byte, Place::Escape);
        }
        match self.place {
            Place::Character(left) if 0x80 <= byte && byte < 0xC0 => {
                self.go_on(byte, Place::Character(left.saturating_sub(1)))?;
                if left <= 1 {
                    return self.take();
                }
                Ok(())
            }
            Place::Ground | Place::Character(_) => self.read_ground(byte),
            Place::Escape => self.read_escape(byte),
            Place::Control => {
                self.part.push(byte)?;
                if 0x40 <= byte && byte < 0x7F {
                    return self.take();
                }
                Ok(())
            }
            Place::Text => Ok(()),
        }
    }
}

// What a terminal takes of bytes that stand there when others were left.
fn taken(alloc: Global, left: &[u8], bytes: &[u8]) -> Result<Vec<u8>, AllocError> {
    let mut terminal = Terminal {
        place: Place::Ground,
        whole: Vec::new(alloc),
        part: Vec::new(alloc),
    };
    for byte in left {
        terminal.read(*byte)?;
    }
    terminal.whole.clear();
    for byte in bytes {
        terminal.read(*byte)?;
    }
    Ok(terminal.whole)
}

static LEFT: [&[u8]; 12] = [
    b"",
    b"\x1b",
    b"\x1b(",
    b"\x1b[3",
    b"\x1b[38;5;1",
    b"\x1b[?",
    b"\x1b]0;title",
    b"\x1bPq",
    b"\x1b_Gabc",
    b"\xc3",
    b"\xe3\x81",
    b"\xf0\x9f\x98",
];

#[test]
fn beginnings_end_what_was_broken_off(rt: HostRuntime) -> Result<(), Fail> {
    let alloc = rt.alloc();
    let size = Size {
        width: 8,
        height: 2,
    };
    let sent = match AnsiBackend::new(alloc, Vec::new(alloc), size) {
        Ok(backend) => backend.into_writer(),
        Err(_) => Vec::new(alloc),
    };
    assert!(rt; sent.len() > 40);
    for left in LEFT {
        let whole = taken(alloc, left, sent.as_slice())?;
        assert!(rt; whole == sent);
    }
    // A beginning without its first two bytes would end no string.
    let late = &sent.as_slice()[2..];
    assert!(rt; taken(alloc, b"\x1b]0;title", late)?.as_slice() != late);
    Ok(())
}
