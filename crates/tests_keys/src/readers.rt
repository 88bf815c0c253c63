//! Readers that give bytes in pieces, and one that fails between two of them.

use ratatui_events::{Event, KeyCode, KeyEvent, KeyModifiers};
use ratatui_input::EventReader;
use std::io::{self, ErrorKind, Read};

// Gives `a` and ESC, then an error, then `[A`, and then nothing.
#[derive(Drop)]
struct Interrupted {
    reads: u8,
}

impl Read for Interrupted {
    fn read(&mut self, buf: &mut [u8]) -> io::Result<usize> {
        self.reads = self.reads.saturating_add(1);
        if buf.len() < 2 {
            return Ok(0);
        }
        match self.reads {
            1 => {
                buf[0] = b'a';
                buf[1] = 0x1b;
                Ok(2)
            }
            2 => Err(io::Error::from(ErrorKind::Interrupted)),
            3 => {
                buf[0] = b'[';
                buf[1] = b'A';
                Ok(2)
            }
            _ => Ok(0),
        }
    }
}

// Gives ESC, `]` and `q`, then nothing, and then `q`, BEL and `j`: what a terminal answers in two
// pieces, and a key.
#[derive(Drop)]
struct Answering {
    reads: u8,
}

impl Read for Answering {
    fn read(&mut self, buf: &mut [u8]) -> io::Result<usize> {
        self.reads = self.reads.saturating_add(1);
        if buf.len() < 3 {
            return Ok(0);
        }
        match self.reads {
            1 => {
                buf[0] = 0x1b;
                buf[1] = b']';
                buf[2] = b'q';
                Ok(3)
            }
            3 => {
                buf[0] = b'q';
                buf[1] = 0x07;
                buf[2] = b'j';
                Ok(3)
            }
            _ => Ok(0),
        }
    }
}

// Whether the next event is this key, pressed with nothing held.
fn is_next<R: Read>(events: &mut EventReader<R>, code: KeyCode) -> bool {
    match events.read() {
        Ok(Some(event)) => event == Event::Key(KeyEvent::new(code, KeyModifiers::NONE)),
        _ => false,
    }
}

// Whether the next read fails with an error of this kind.
fn fails_with<R: Read>(events: &mut EventReader<R>, kind: ErrorKind) -> bool {
    match events.read() {
        Err(error) => error.kind() == kind,
        Ok(_) => false,
    }
}

#[test]
fn a_reader_that_fails_loses_nothing(rt: HostRuntime) {
    let mut events = EventReader::new(Interrupted { reads: 0 });
    assert!(rt; is_next(&mut events, KeyCode::Char('a')));
    assert!(rt; fails_with(&mut events, ErrorKind::Interrupted));
    assert!(rt; is_next(&mut events, KeyCode::Up));
    assert!(rt; matches!(events.read(), Ok(None)));
}

#[test]
fn escape_at_the_end_is_a_key(rt: HostRuntime) {
    let mut events = EventReader::new(&b"\x1b[B\x1b"[..]);
    assert!(rt; is_next(&mut events, KeyCode::Down));
    assert!(rt; is_next(&mut events, KeyCode::Esc));
    assert!(rt; matches!(events.read(), Ok(None)));
}

#[test]
fn an_answer_in_pieces_is_one_event(rt: HostRuntime) {
    let mut events = EventReader::new(Answering { reads: 0 });
    assert!(rt; matches!(events.read(), Ok(None)));
    assert!(rt; matches!(events.read(), Ok(Some(Event::Unknown))));
    assert!(rt; is_next(&mut events, KeyCode::Char('j')));
    assert!(rt; matches!(events.read(), Ok(None)));
}

// Gives what a terminal answers byte by byte: ESC and `]`, so many letters, and BEL.
#[derive(Drop)]
struct Dripping {
    reads: usize,
    letters: usize,
}

impl Read for Dripping {
    fn read(&mut self, buf: &mut [u8]) -> io::Result<usize> {
        let Some(first) = buf.first_mut() else {
            return Ok(0);
        };
        *first = match self.reads {
            0 => 0x1b,
            1 => b']',
            reads if reads < self.letters.saturating_add(2) => b'x',
            _ => 0x07,
        };
        self.reads = self.reads.saturating_add(1);
        Ok(1)
    }
}

#[test]
fn an_answer_may_come_byte_by_byte(rt: HostRuntime) {
    let mut events = EventReader::new(Dripping {
        reads: 0,
        letters: 2000,
    });
    assert!(rt; matches!(events.read(), Ok(Some(Event::Unknown))));
}

// Gives the letter `a` as often as there is room, up to so many, once; and then fails.
#[derive(Drop)]
struct Pasting {
    letters: usize,
}

impl Read for Pasting {
    fn read(&mut self, buf: &mut [u8]) -> io::Result<usize> {
        if self.letters == 0 {
            return Err(ErrorKind::TimedOut.into());
        }
        let count = self.letters.min(buf.len());
        buf[..count].fill(b'a');
        self.letters = 0;
        Ok(count)
    }
}

// What has come is read at once, as far as there is room for 1024 bytes.
#[test]
fn a_thousand_keys_are_one_read(rt: HostRuntime) {
    let mut events = EventReader::new(Pasting { letters: 1024 });
    for _ in 0..1024 {
        assert!(rt; is_next(&mut events, KeyCode::Char('a')));
    }
    assert!(rt; fails_with(&mut events, ErrorKind::TimedOut));
}
