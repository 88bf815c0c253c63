//! Rows: bytes, and the events that they are to give.

use bitflags::Flags;
use ratatui_events::{Event, KeyCode, KeyEvent, KeyEventState, KeyModifiers};
use ratatui_input::{Decoder, Fed};
use std::alloc::{AllocError, Global};

// The value of a hexadecimal digit.
fn digit(byte: u8) -> Option<u8> {
    match byte {
        b'0'..=b'9' => Some(byte - b'0'),
        b'A'..=b'F' => Some(byte - b'A' + 10),
        _ => None,
    }
}

// The byte that a word stands for.
fn byte_of(word: &str) -> Option<u8> {
    match word.as_bytes() {
        [byte] => Some(*byte),
        b"ESC" => Some(0x1b),
        b"SP" => Some(b' '),
        b"CR" => Some(b'\r'),
        b"LF" => Some(b'\n'),
        b"TAB" => Some(b'\t'),
        b"DEL" => Some(0x7f),
        [high, low] => {
            let high = digit(*high)?;
            let low = digit(*low)?;
            Some(((high & 15) << 4) | (low & 15))
        }
        _ => None,
    }
}

// Adds a text, after a comma where one stands before it.
fn add(told: &mut String, text: &str) -> Result<(), AllocError> {
    if !told.is_empty() {
        told.push_str(", ")?;
    }
    told.push_str(text)
}

// Whether a key is a capital letter without Shift, which no text stands for.
fn is_unwritten(key: KeyEvent) -> bool {
    match key.code {
        KeyCode::Char(c) => c.is_uppercase() && !key.modifiers.contains(KeyModifiers::SHIFT),
        _ => false,
    }
}

// Whether a key that is pressed, with no lock on, is read back from its text.
fn is_read_back(event: Event, text: &str) -> bool {
    match event.as_key_press_event() {
        Some(key) if key.state == KeyEventState::NONE && !is_unwritten(key) => {
            text.parse::<KeyEvent>() == Ok(key)
        }
        _ => true,
    }
}

// Adds an event, if there is one, and says so if its text isn't read back.
fn tell(alloc: Global, told: &mut String, event: Option<Event>) -> Result<(), AllocError> {
    let Some(event) = event else {
        return Ok(());
    };
    let text = format!(in alloc; "{event}")?;
    add(told, text.as_str())?;
    if is_read_back(event, text.as_str()) {
        Ok(())
    } else {
        told.push_str(" (not read back)")
    }
}

// What a word gives: a byte, or nothing for a while.
fn fed(decoder: &mut Decoder, word: &str) -> Option<Fed> {
    if word == "TICK" {
        return Some(Fed {
            cut: None,
            event: decoder.settle(),
        });
    }
    Some(decoder.feed(byte_of(word)?))
}

// The events of bytes that come at once, as text. None if a word isn't a byte.
fn events_of(alloc: Global, bytes: &str) -> Result<Option<String>, AllocError> {
    let mut decoder = Decoder::new();
    let mut told = String::new(alloc);
    for word in bytes.split(' ') {
        let Some(Fed { cut, event }) = fed(&mut decoder, word) else {
            return Ok(None);
        };
        tell(alloc, &mut told, cut)?;
        tell(alloc, &mut told, event)?;
    }
    tell(alloc, &mut told, decoder.settle())?;
    if !decoder.is_empty() {
        add(&mut told, "...")?;
    }
    Ok(Some(told))
}

/// What came of rows: how many hold and how many differ, of this group and of all, and the text to
/// be printed.
#[derive(Debug, Drop)]
pub struct Tally {
    pub held: usize,
    pub differ: usize,
    pub report: String,
    group: String,
    group_held: usize,
}

impl Tally {
    /// Makes a tally to which no row has come.
    pub fn new(alloc: Global) -> Tally {
        Tally {
            held: 0,
            differ: 0,
            report: String::new(alloc),
            group: String::new(alloc),
            group_held: 0,
        }
    }

    /// Ends a group: says how many of its rows hold.
    pub fn end_group(&mut self, alloc: Global) -> Result<(), AllocError> {
        if !self.group.is_empty() {
            let (group, held) = (self.group.as_str(), self.group_held);
            let line = format!(in alloc; "{group}: {held} rows\n")?;
            self.report.push_str(line.as_str())?;
        }
        self.group_held = 0;
        Ok(())
    }

    // A row that doesn't hold, and what is told.
    fn fail(&mut self, alloc: Global, row: &str, told: &str) -> Result<(), AllocError> {
        self.differ = self.differ.saturating_add(1);
        let line = format!(in alloc; "{row}\n  told: {told}\n")?;
        self.report.push_str(line.as_str())
    }

    // Compares a row.
    fn compare(&mut self, alloc: Global, row: &str) -> Result<(), AllocError> {
        let Some((bytes, wanted)) = row.split_once(" = ") else {
            return self.fail(alloc, row, "no row: = is missing");
        };
        let Some(told) = events_of(alloc, bytes)? else {
            return self.fail(alloc, row, "no row: a word is no byte");
        };
        if told.as_str() != wanted {
            return self.fail(alloc, row, told.as_str());
        }
        self.held = self.held.saturating_add(1);
        self.group_held = self.group_held.saturating_add(1);
        Ok(())
    }

    /// Takes a line: a row, or the name of a group.
    pub fn take(&mut self, alloc: Global, line: &str) -> Result<(), AllocError> {
        let Some(name) = line.strip_prefix("# ") else {
            return self.compare(alloc, line);
        };
        self.end_group(alloc)?;
        self.group = String::from_str(alloc, name)?;
        Ok(())
    }
}
