//! Recorded reads.

use std::alloc::{AllocError, Global};
use std::io::{self, ErrorKind, Read};

/// The bytes of reads, one after the other; an empty read is a tick.
#[derive(Debug, Drop)]
pub struct Recording {
    pub bytes: Vec<u8>,
    /// Where each read ends in these bytes.
    pub ends: Vec<usize>,
}

// The bytes that a word stands for.
fn bytes_of(word: &str) -> &[u8] {
    match word {
        "TICK" => b"",
        "ESC" => b"\x1b",
        "SP" => b" ",
        "CR" => b"\r",
        "TAB" => b"\t",
        "DEL" => b"\x7f",
        _ => word.as_bytes(),
    }
}

impl Recording {
    /// Makes the reads that a script says, one a line.
    pub fn read(alloc: Global, script: &str) -> Result<Recording, AllocError> {
        let mut bytes = Vec::new(alloc);
        let mut ends = Vec::new(alloc);
        for line in script.lines() {
            for word in line.split(' ') {
                bytes.extend_from_slice(bytes_of(word))?;
            }
            ends.push(bytes.len())?;
        }
        Ok(Recording { bytes, ends })
    }
}

/// Gives the reads of a recording, each whole, or cut at random places; then it fails, or it fails
/// before a read.
#[derive(Drop)]
pub struct Player<'a> {
    recording: &'a Recording,
    /// How many reads are done, and how many bytes.
    read: usize,
    at: usize,
    /// Where the random numbers go on, if reads are cut.
    seed: Option<u32>,
    /// How many calls are made before one fails.
    calls: usize,
}

impl<'a> Player<'a> {
    /// Makes a player that begins with the first read.
    pub fn new(recording: &'a Recording, seed: Option<u32>, calls: usize) -> Player<'a> {
        Player {
            recording,
            read: 0,
            at: 0,
            seed,
            calls,
        }
    }

    /// Lets so many calls more be made before one fails.
    pub fn go_on(&mut self, calls: usize) {
        self.calls = calls;
    }

    // How many of these bytes are read at once.
    fn piece(&mut self, count: usize) -> usize {
        let Some(seed) = self.seed else {
            return count;
        };
        let next = seed.wrapping_mul(1_664_525).wrapping_add(1_013_904_223);
        self.seed = Some(next);
        ((next >> 24) as usize % 4 + 1).min(count)
    }
}

impl Read for Player<'_> {
    fn read(&mut self, buf: &mut [u8]) -> io::Result<usize> {
        let Some(end) = self.recording.ends.get(self.read) else {
            return Err(ErrorKind::BrokenPipe.into());
        };
        if self.calls == 0 {
            return Err(ErrorKind::BrokenPipe.into());
        }
        self.calls -= 1;
        let rest = self.recording.bytes.get(self.at..*end).unwrap_or(&[]);
        let count = self.piece(rest.len()).min(rest.len()).min(buf.len());
        buf[..count].copy_from_slice(&rest[..count]);
        self.at = self.at.saturating_add(count);
        if self.at >= *end {
            self.read = self.read.saturating_add(1);
        }
        Ok(count)
    }
}
