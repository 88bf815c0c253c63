//! Pieces of what a reader gives.

ghost use Rattle.std.specs.Prelude.{◌≡◌, ◌≤◌, true, false, length, take, IfOk};
ghost use Rattle.std.specs.Prelude.{◌<◌, drop, OnOk, IfSome, IsNone, Some};
ghost use Rattle.std.specs.Io.KnownBytes.{Keeps, Consumes, IsAtEnd};
ghost use Rattle.pager.specs.Growing.{AreWholeLines, IsPieceOf, GivesPiece, GivesKnownPiece, to_come};

use crate::growing::Growing;
use crate::piece::{More, Piece};
use crate::text::parted_text;
use bumpalo::Bump;
use memchr::memrchr;
use ratatui_acts::{Glass, Outside};
use std::alloc::{AllocError, Global};
use std::io::{self, ErrorKind, Read};
use std::mem;

/// How many bytes make a piece, while no event waits for more lines and while one does. Of a file
/// few are read at once also then: they are still in the processor's cache when they are kept.
const FEW: usize = 1 << 16;

const MANY: usize = 1 << 20;

/// How often a read is made that finds nothing, before a piece says so, where the read before it
/// found something: what writes a pipe is about to, then. That takes some milliseconds.
const TRIES: u32 = 30_000;

/// What gives a text piece by piece, as it comes from a reader. The pieces stay in an arena.
#[derive(Drop)]
pub struct PieceReader<'a, R> {
    alloc: Global,
    arena: &'a Bump,
    reader: R,
    // Whether each read finds bytes or the end, so that one can be made only to find out whether it
    // is the last one.
    is_file: bool,
    // What a read fills.
    buf: Vec<u8>,
    // What was read after the last piece.
    rest: Vec<u8>,
    // Whether the last read found something.
    flows: bool,
}

// Reads once if something is there, or the end, and tries so often. Answers how many bytes came, or
// none if nothing is there yet.
fn read_ready<R: Read>(reader: &mut R, buf: &mut [u8], tries: u32) -> io::Result<Option<usize>>
    requires { 0 < length buf.old }
    ensures same { length buf.new ≡ length buf.old }
    ensures fits { IfOk result (λ count. IfSome count (λ n. n ≤ length buf.new)) }
    ensures bytes { IfOk result (λ count. IfSome count (λ n.
        Consumes (R.remaining reader.old) (R.remaining reader.new) (take n buf.new))) }
    ensures end { IfOk result (λ count. count ≡ Some 0 → IsAtEnd (R.remaining reader.new)) }
    ensures none { IfOk result (λ count. IsNone count
        → Keeps (R.remaining reader.old) (R.remaining reader.new)) }
{
    for _ in 0..tries {
        match reader.read(buf) {
            Ok(count) => return Ok(Some(count)),
            Err(error) if error.kind() == ErrorKind::WouldBlock => {}
            Err(error) => return Err(error),
        }
    }
    Ok(None)
}

// An error of want of memory.
fn no_memory(_: AllocError) -> io::Error {
    ErrorKind::OutOfMemory.into()
}

// How many bytes at the front are whole lines, if there is no line's end among so many first ones.
fn whole_lines(bytes: &[u8], from: usize) -> usize
    requires { from ≤ length bytes.now }
    ensures most { result ≤ length bytes.now }
    ensures whole { AreWholeLines (take result bytes.now) }
{
    match memrchr(b'\n', &bytes[from..]) {
        Some(last) => from + last + 1,
        None => 0,
    }
}

impl<'a, R: Read> PieceReader<'a, R> {
    /// Takes a reader. Of a file, whose reads never wait, the last piece is known to be it.
    pub fn new(alloc: Global, arena: &'a Bump, reader: R, is_file: bool) -> PieceReader<'a, R>
        ensures { to_come result.rest.items (R.remaining result.reader) ≡ R.remaining reader }
    {
        PieceReader {
            alloc,
            arena,
            reader,
            is_file,
            buf: Vec::new(alloc),
            rest: Vec::new(alloc),
            flows: true,
        }
    }

    // Takes out what a read of so many bytes fills: that of the last one, if it has as many.
    fn take_buf(&mut self, room: usize) -> Result<Vec<u8>, AllocError>
        ensures room { IfOk result (λ buf. length buf.items ≡ room) }
        ensures rest { self.new.rest ≡ self.old.rest }
        ensures reader { self.new.reader ≡ self.old.reader }
    {
        let buf = mem::replace(&mut self.buf, Vec::new(self.alloc));
        if buf.len() == room {
            Ok(buf)
        } else {
            Vec::from_elem(self.alloc, 0u8, room)
        }
    }

    // Reads once, and keeps what came. Answers how many bytes did, or none if nothing is there yet.
    fn read_once(&mut self, room: usize) -> io::Result<Option<usize>>
        requires { 0 < room }
        ensures stays { OnOk result (Keeps
            (to_come self.old.rest.items (R.remaining self.old.reader))
            (to_come self.new.rest.items (R.remaining self.new.reader))) }
        ensures end { IfOk result (λ count. count ≡ Some 0
            → IsAtEnd (R.remaining self.new.reader)) }
        ensures more { OnOk result (length self.old.rest.items ≤ length self.new.rest.items) }
    {
        let mut buf = self.take_buf(room).map_err(no_memory)?;
        let tries = if self.flows { TRIES } else { 1 };
        let found = read_ready(&mut self.reader, buf.as_mut_slice(), tries)?;
        self.flows = found.is_some();
        if let Some(count) = found {
            self.rest
                .extend_from_slice(&buf[..count])
                .map_err(no_memory)?;
        }
        self.buf = buf;
        Ok(found)
    }

    // How many bytes are read at once, if so many make a piece.
    fn room_for(&self, wanted: usize) -> usize
        requires { 0 < wanted }
        ensures { 0 < result }
    {
        if self.is_file {
            wanted.min(FEW)
        } else {
            wanted
        }
    }

    // Reads once, and a file until so many bytes came; keeps them. Answers whether the end was
    // found.
    fn read_on(&mut self, wanted: usize) -> io::Result<bool>
        requires { 0 < wanted }
        ensures stays { OnOk result (Keeps
            (to_come self.old.rest.items (R.remaining self.old.reader))
            (to_come self.new.rest.items (R.remaining self.new.reader))) }
        ensures end { IfOk result (λ is_end. is_end ≡ true
            → IsAtEnd (R.remaining self.new.reader)) }
        ensures more { OnOk result (length self.old.rest.items ≤ length self.new.rest.items) }
    {
        let from = self.rest.len();
        let room = self.room_for(wanted);
        for _ in 0..=wanted / room {
            match self.read_once(room)? {
                Some(0) => return Ok(true),
                Some(_) if self.is_file && self.rest.len() - from < wanted => {}
                _ => return Ok(false),
            }
        }
        Ok(false)
    }

    // Whether what was read ends with a line's end, or nothing is kept.
    fn is_whole(&self) -> bool {
        self.rest.last().is_none_or(|byte| *byte == b'\n')
    }

    // Makes a piece of so many first bytes, in the arena.
    fn piece_of(&self, count: usize, is_last: bool, rests: bool) -> Result<Piece<'a>, AllocError>
        requires { count ≤ length self.now.rest.items }
        ensures is { IfOk result (IsPieceOf (take count self.now.rest.items)) }
        ensures last { IfOk result (λ piece. piece.is_last ≡ is_last) }
    {
        match parted_text(self.alloc, self.arena, &self.rest[..count]) {
            Ok((text, styles)) => Ok(Piece {
                text,
                styles,
                is_last,
                rests,
            }),
            Err(error) => Err(error),
        }
    }

    // Keeps what comes after so many first bytes.
    fn forget(&mut self, count: usize)
        requires { count ≤ length self.old.rest.items }
        ensures after { self.new.rest.items ≡ drop count self.old.rest.items }
        ensures reader { self.new.reader ≡ self.old.reader }
    {
        if count > 0 {
            let left = self.rest.len() - count;
            self.rest.copy_within(count.., 0);
            self.rest.truncate(left);
        }
    }

    // How many bytes the next piece has: the whole lines that were read, and at the end all.
    fn count_for(&self, is_last: bool, from: usize) -> usize
        requires { from ≤ length self.now.rest.items }
        ensures most { result ≤ length self.now.rest.items }
        ensures whole { is_last ≡ false → AreWholeLines (take result self.now.rest.items) }
        ensures all { is_last ≡ true → result ≡ length self.now.rest.items }
    {
        if is_last {
            self.rest.len()
        } else {
            whole_lines(self.rest.as_slice(), from)
        }
    }

    // Gives a piece of what was read, if there is no line's end among so many first bytes of it.
    fn cut(&mut self, is_last: bool, rests: bool, from: usize) -> Result<Piece<'a>, AllocError>
        requires { from ≤ length self.old.rest.items }
        ensures gives { IfOk result (λ piece.
            GivesPiece self.old.rest.items piece self.new.rest.items) }
        ensures last { IfOk result (λ piece. piece.is_last ≡ is_last) }
        ensures reader { OnOk result (self.new.reader ≡ self.old.reader) }
    {
        let count = self.count_for(is_last, from);
        match self.piece_of(count, is_last, rests) {
            Ok(piece) => {
                self.forget(count);
                Ok(piece)
            }
            Err(error) => Err(error),
        }
    }

    // Whether all that is kept is given: the end was found, and no line is kept until it is whole.
    fn gives_all(&self, is_end: bool, is_followed: bool) -> bool
        ensures { result ≡ true → is_end ≡ true }
    {
        is_end && (!is_followed || self.is_whole())
    }

    /// Reads, and gives the whole lines that came, which may be none yet; at the end all that is
    /// left, unless the text is followed: then a line that isn't whole is kept until it is. A reader
    /// whose error says that a read would wait is tried again for some milliseconds, and then the
    /// piece is empty.
    ///
    /// # Errors
    ///
    /// If the reader fails otherwise, or memory is refused.
    pub fn next_piece(&mut self, is_many: bool, is_followed: bool) -> io::Result<Piece<'a>>
        ensures { IfOk result (λ piece. GivesKnownPiece
            (to_come self.old.rest.items (R.remaining self.old.reader)) piece
            (to_come self.new.rest.items (R.remaining self.new.reader))) }
    {
        let from = self.rest.len();
        let is_end = self.read_on(if is_many { MANY } else { FEW })?;
        let is_last = self.gives_all(is_end, is_followed);
        let rests = self.rest.len() == from;
        match self.cut(is_last, rests, from) {
            Ok(piece) => Ok(piece),
            Err(error) => Err(no_memory(error)),
        }
    }
}

impl<'a, G: Glass<Growing<'a>>, R: Read> Outside<Growing<'a>, G> for PieceReader<'a, R> {
    ghost use Rattle.pager.specs.Growing.{GivesKnownPiece, to_come};

    ghost answers = { λ before _ piece after. GivesKnownPiece
        (to_come before.rest.items (R.remaining before.reader)) piece
        (to_come after.rest.items (R.remaining after.reader)) };

    fn perform(
        &mut self,
        _glass: &G,
        state: &Growing<'a>,
        _command: &More,
    ) -> io::Result<Piece<'a>> {
        let is_followed = state.is_following();
        self.next_piece(is_followed || state.has_waiting(), is_followed)
    }
}
