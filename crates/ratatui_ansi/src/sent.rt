//! What a writer was sent, in clauses alone: nothing of it is kept when the program runs.

ghost use Rattle.std.specs.Prelude.{◌≡◌, ℕ, List, Option, [], ◌++◌};
ghost use Rattle.std.specs.Borrow.{ftrue};

use std::io::Write;
use std::marker::{Model, PhantomData};

/// What a writer held, if that is known, and the bytes that it was sent since; it takes no memory.
/// No memory holds this, so nothing ties it to the writer but the clauses of those who keep it.
#[derive(Drop)]
pub(crate) struct Sent {
    marker: PhantomData<u8>,
    pub(crate) ghost before: { Option (List ℕ) },
    pub(crate) ghost bytes: { List ℕ },
}

impl Model for Sent {
    ghost also_owns = { λ _. ftrue };
}

impl Sent {
    /// Begins with nothing sent to this writer.
    pub(crate) fn new<W: Write>(_writer: &W) -> Sent
        ensures before { result.before ≡ W.contents _writer.now }
        ensures bytes { result.bytes ≡ [] }
    {
        Sent {
            marker: PhantomData,
        }
    }

    /// Notes that bytes are sent.
    pub(crate) fn note(&mut self, _bytes: &[u8])
        ensures { self.new ≡ record self.old { bytes = self.old.bytes ++ _bytes.now } }
    {}
}

// It owns nothing.
unsafe impl Send for Sent {}

unsafe impl Sync for Sent {}
