//! What gives reads.

ghost use Rattle.std.specs.Prelude.{◌≡◌, ◌∷◌, [], length, map, take, None, IfSome, IsNone, IfOk, OnErr};
ghost use Rattle.std.specs.Io.{ReadsAtMost};
ghost use Rattle.ratatui_reads.specs.Sources.{Coming, KnownReads, coming_bytes, GivesRead};
ghost use Rattle.ratatui_reads.specs.Sources.{StaysKnown, MayFail};
ghost use Rattle.ratatui_reads.specs.Pieces.{pieces_left};

use std::io::{self, ErrorKind, Read};

/// What gives reads, one after the other. Each [`Read`] does; if its bytes are known, so is what it
/// gives. A type of which more is known, as [`Pieces`], is a source of its own, and no `Read`.
pub trait Source {
    // what is known of the reads from here on
    ghost coming: { Self → Coming };

    /// Reads once into a buffer, and answers how many bytes came. None may mean that there are none
    /// yet.
    ///
    /// # Errors
    ///
    /// The source failed. It gave nothing then.
    fn read_once(&mut self, buf: &mut [u8]) -> io::Result<usize>
        ensures fits { ReadsAtMost result buf.new }
        ensures gives { IfOk result (λ count. GivesRead (length buf.new) (coming self.old)
            (coming self.new) (take count buf.new)) }
        ensures stays { OnErr result (StaysKnown (coming self.old) (coming self.new)) }
        ensures fails { OnErr result (MayFail (coming self.old)) };
}

impl<R: Read> Source for R {
    ghost coming = { λ reader. coming_bytes (R.remaining reader) };

    fn read_once(&mut self, buf: &mut [u8]) -> io::Result<usize> {
        self.read(buf)
    }
}

/// Reads that are known. Each piece is one, also an empty one; where the buffer has no room for all
/// of a piece, the next read goes on with it. After the last one a read fails.
#[derive(Debug, Drop, Clone, Copy)]
pub struct Pieces<'a> {
    // what is left of a piece
    rest: Option<&'a [u8]>,
    pieces: &'a [&'a [u8]],
}

impl<'a> Pieces<'a> {
    /// Takes these pieces, from the first one on.
    pub fn new(pieces: &'a [&'a [u8]]) -> Pieces<'a>
        ensures { pieces_left result ≡ map (λ piece. piece.now) pieces.now }
    {
        Pieces { rest: None, pieces }
    }

    // Takes the next piece, or what is left of one.
    fn next_piece(&mut self) -> Option<&'a [u8]>
        ensures rest { self.new.rest ≡ None }
        ensures some { IfSome result
            (λ piece. pieces_left self.old ≡ piece.now ∷ pieces_left self.new) }
        ensures none { IsNone result
            → (pieces_left self.old ≡ []) × (pieces_left self.new ≡ []) }
    {
        if let Some(rest) = self.rest.take() {
            return Some(rest);
        }
        let pieces = self.pieces;
        let piece = *pieces.first()?;
        self.pieces = &pieces[1..];
        Some(piece)
    }
}

impl<'a> Source for Pieces<'a> {
    ghost coming = { λ pieces. KnownReads (pieces_left pieces) };

    fn read_once(&mut self, buf: &mut [u8]) -> io::Result<usize> {
        let Some(piece) = self.next_piece() else {
            return Err(ErrorKind::UnexpectedEof.into());
        };
        let count = piece.len().min(buf.len());
        let (now, later) = piece.split_at(count);
        buf[..count].copy_from_slice(now);
        if !later.is_empty() {
            self.rest = Some(later);
        }
        Ok(count)
    }
}
