//! Equality and hashes of completed frames.

ghost use Rattle.std.specs.Prelude.{◌++◌, nat_eq};
ghost use Rattle.std.specs.Hash as fed;
ghost use Rattle.std.specs.Hash.{on_Alike, and-Alike, same_Alike};
ghost use Rattle.std.specs.Cmp.{and_equiv, on_equiv, partial_equiv_from_equiv};
ghost use Rattle.std.specs.Cmp.{unsigned_Decides, nat_eq_equiv};
ghost use Rattle.std.specs.Ordering.{on, eq_of_both};
ghost use Rattle.rtui_geometry.specs.contracts.rect.RectEq.TheImpl.Laws.{laws-law as rect_laws};
ghost use Rattle.rtui_geometry.specs.contracts.rect.RectHash.TheImpl.Laws.{respects_eq-law as rect_hashes};
ghost use Rattle.rtui_buffer.specs.contracts.buffer.index.BufferEq.TheImpl.Laws.{laws-law as buffer_laws};
ghost use Rattle.rtui_buffer.specs.contracts.buffer.index.BufferHash.TheImpl.Laws.{
  respects_eq-law as buffer_hashes,
};

use crate::terminal::frame::CompletedFrame;
use rtui_backend::Backend;
use rtui_buffer::Buffer;
use rtui_geometry::Rect;
use std::hash::{Hash, Hasher};

impl<B: Backend> PartialEq for CompletedFrame<'_, B> {
    ghost eq = { eq_of_both (eq_of_both
        (on (λ f. f.terminal.now.previous) ⟦<Buffer as PartialEq>⟧.eq)
        (on (λ f. f.area) ⟦<Rect as PartialEq>⟧.eq))
        (on (λ f. f.count) nat_eq) };

    ghost laws = { partial_equiv_from_equiv (and_equiv (and_equiv
        (on_equiv (λ f. f.terminal.now.previous) buffer_laws)
        (on_equiv (λ f. f.area) rect_laws))
        (on_equiv (λ f. f.count) nat_eq_equiv)) };

    fn eq(&self, other: &Self) -> bool {
        self.buffer() == other.buffer() && self.area == other.area && self.count == other.count
    }
}

impl<B: Backend> Eq for CompletedFrame<'_, B> {
    ghost laws = { and_equiv (and_equiv
        (on_equiv (λ f. f.terminal.now.previous) buffer_laws)
        (on_equiv (λ f. f.area) rect_laws))
        (on_equiv (λ f. f.count) nat_eq_equiv) };
}

impl<B: Backend> Hash for CompletedFrame<'_, B> {
    ghost hash_input = { λ f. ⟦<Buffer as Hash>⟧.hash_input f.terminal.now.previous
        ++ ⟦<Rect as Hash>⟧.hash_input f.area ++ fed.usize f.count };

    ghost respects_eq = { (and-Alike (and-Alike
        (on_Alike (λ f. f.terminal.now.previous) (record { fed = buffer_hashes }))
        (on_Alike (λ f. f.area) (record { fed = rect_hashes })))
        (on_Alike (λ f. f.count)
        (same_Alike fed.usize unsigned_Decides))).fed };

    fn hash<H: Hasher>(&self, state: &mut H) {
        self.buffer().hash(state);
        self.area.hash(state);
        self.count.hash(state);
    }
}
