//! The reads that were made of a reader, in clauses alone: nothing of it is kept when the program
//! runs.

ghost use Rattle.std.specs.Prelude.{◌≡◌, ℕ, List, [], ◌∷◌, ◌++◌};
ghost use Rattle.std.specs.Borrow.{ftrue};

use std::io::Read;
use std::marker::{Model, PhantomData};

/// The reads that were made of a reader; it takes no memory. No memory holds this, so nothing ties it
/// to the reader but the clauses of those who keep it.
#[derive(Drop)]
pub(crate) struct Reads {
    marker: PhantomData<u8>,
    pub(crate) ghost made: { List (List ℕ) },
}

impl Model for Reads {
    ghost also_owns = { λ _. ftrue };
}

impl Reads {
    /// Begins before the first read of this reader.
    pub(crate) fn new<R: Read>(_reader: &R) -> Reads
        ensures { result.made ≡ [] }
    {
        Reads {
            marker: PhantomData,
        }
    }

    /// Notes a read that gave these bytes.
    pub(crate) fn note(&mut self, _bytes: &[u8])
        ensures { self.new ≡ record self.old { made = self.old.made ++ _bytes.now ∷ [] } }
    {}
}
