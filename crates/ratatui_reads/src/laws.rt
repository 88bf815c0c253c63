//! Laws of reads.

ghost use Rattle.std.specs.Prelude.{◌≡◌, ℕ, ◌*◌, ◌++◌, ◌∷◌, [], Bool, List, ◌<◌, ◌≤◌, Some, length};
ghost use Rattle.ratatui_events.specs.declared.event.Event.{Event};
ghost use Rattle.ratatui_reads.specs.Reads.{Between, after_read, after_reads, after_bytes, all_bytes};
ghost use Rattle.ratatui_input.specs.declared.decoder.Decoder.{Decoder};
ghost use Rattle.ratatui_reads.specs.Reads.{IsNonEmpty, AreNonEmpty, size_told, told_by};
ghost use Rattle.ratatui_reads.specs.Sources.{Coming, ReadSoFar, KnownBytes, KnownReads};
ghost use Rattle.ratatui_reads.specs.Sources.{GivesReads, AreWithinRoom};

use crate::updates::Updates;

/// In whatever pieces bytes are read, as long as no read is empty, they make the same of decoder
/// and state; and a read in two pieces makes what it makes in one.
pub fn pieces_make_the_same<A: Updates>()
    ensures whole { (b : Between A)
        (reads : List (List ℕ)) → AreNonEmpty reads
        → after_reads A.Updates b reads ≡ after_bytes A.Updates b (all_bytes reads) }
    ensures two { (b : Between A)
        (one two : List ℕ) (reads : List (List ℕ)) → IsNonEmpty one → IsNonEmpty two
        → after_reads A.Updates b (one ∷ two ∷ reads)
        ≡ after_reads A.Updates b ((one ++ two) ∷ reads) }
{}

/// What is known of a source comes in order: each read that has room is given whole, also an empty
/// one; and known bytes are given whole, in whatever reads. Reads that are recorded are all recorded.
pub fn what_is_known_is_given()
    ensures reads { (all reads : List (List ℕ)) (rest : Coming) → AreWithinRoom all
        → GivesReads (KnownReads all) rest reads
        → (left : List (List ℕ)) × (rest ≡ KnownReads left) × (all ≡ reads ++ left) }
    ensures bytes { (all : List ℕ) (reads : List (List ℕ)) (rest : Coming)
        → GivesReads (KnownBytes all) rest reads
        → (left : List ℕ) × (rest ≡ KnownBytes left) × (all ≡ all_bytes reads ++ left) }
    ensures recorded { (past reads : List (List ℕ)) (rest : Coming)
        → GivesReads (ReadSoFar past) rest reads → rest ≡ ReadSoFar (past ++ reads) }
{}

/// A size that a read tells has a column and a row.
#[tactic(auto, using(crate::proofs::SizeLemmas::told_cells))]
pub fn told_sizes_have_cells()
    ensures { (d : Decoder) (bytes : List ℕ) (columns rows : ℕ)
        → size_told d bytes ≡ Some (columns, rows) → (0 < columns) × (0 < rows) }
{}

/// A read tells at most two events for each of its bytes: that of what had come before and doesn't
/// go on, and its own. One that gave nothing tells at most one event.
#[tactic(auto, using(crate::proofs::CountLemmas::some_count, crate::proofs::CountLemmas::none_count))]
pub fn reads_tell_few_events()
    ensures some { (d : Decoder) (b : ℕ) (bytes : List ℕ)
        → length (told_by d (b ∷ bytes)).0 ≤ 2 * length (b ∷ bytes) }
    ensures none { (d : Decoder) → length (told_by d []).0 ≤ 1 }
{}
