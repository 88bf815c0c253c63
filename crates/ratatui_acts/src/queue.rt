//! Events that were read and not told yet.

ghost use Rattle.std.specs.Prelude.{◌≡◌, ◌+◌, ◌≤◌, ◌<◌, List, [], ◌∷◌, ◌++◌, length, drop, take};
ghost use Rattle.std.specs.Prelude.{IsOk, IfSome, IsNone, IfOk, OnOk, OnErr};
ghost use Rattle.ratatui_reads.specs.Reads.{told_by, size_told};
ghost use Rattle.ratatui_acts.specs.Turns.{events_room};

use ratatui_events::Event;
use ratatui_input::Decoder;
use ratatui_reads::{Taken, Updates, take};
use std::alloc::AllocError;
use std::marker::Model;

// So many events there is room for: a read of 1024 bytes tells no more.
const ROOM: usize = 2048;

/// Events in order, which lie in the queue itself: it takes no memory, and has room for 2048.
#[derive(Drop)]
pub struct Queue {
    places: [Event; ROOM],
    // the first one's place, and the place after the last one
    from: usize,
    to: usize,
}

impl Model for Queue {
    ghost use Rattle.std.specs.Prelude.{List, ◌≤◌, drop, take};
    ghost use Rattle.ratatui_events.specs.declared.event.Event.{Event};

    ghost Value = { List Event };

    ghost view = { λ queue. drop queue.from (take queue.to queue.places) };

    ghost invariant = { λ queue. (queue.from ≤ queue.to) × (queue.to ≤ 2048) };
}

// Moves the events between two places to the front, and answers the place after the last one.
#[tactic(auto, using(crate::proofs::QueueLemmas::within_moved))]
fn gather(places: &mut [Event; ROOM], from: usize, to: usize) -> usize
    requires order { from ≤ to }
    requires inside { to ≤ 2048 }
    ensures count { result + from ≡ to }
    ensures moved { take result places.new ≡ drop from (take to places.old) }
{
    places.rotate_left(from);
    to - from
}

impl Queue {
    /// Makes a queue without events.
    pub fn new() -> Queue
        ensures { result ≡ [] }
    {
        Queue {
            places: [Event::Unknown; ROOM],
            from: 0,
            to: 0,
        }
    }

    /// Returns how many there are.
    pub fn len(&self) -> usize
        ensures { result ≡ length self.now }
    {
        self.places[self.from..self.to].len()
    }

    /// Returns the first one.
    #[tactic(auto, using(crate::proofs::QueueLemmas::within_first, crate::proofs::QueueLemmas::within_none))]
    pub fn first(&self) -> Option<Event>
        ensures some { IfSome result (λ event. self.now ≡ event ∷ drop 1 self.now) }
        ensures none { IsNone result → self.now ≡ [] }
    {
        if self.from < self.to {
            Some(self.places[self.from])
        } else {
            None
        }
    }

    /// Lets the first one go, if there is one.
    #[tactic(auto, using(crate::proofs::QueueLemmas::within_rest, crate::proofs::QueueLemmas::within_none))]
    pub fn remove_first(&mut self)
        ensures { self.new ≡ drop 1 self.old }
    {
        if self.from < self.to {
            self.from += 1;
        }
    }

    // Begins at the front again, if there are no events.
    #[tactic(auto, using(crate::proofs::QueueLemmas::within_none))]
    fn rewind(&mut self)
        ensures { self.new ≡ self.old }
    {
        if self.from == self.to {
            self.from = 0;
            self.to = 0;
        }
    }

    // Lets all go.
    fn clear(&mut self)
        ensures { self.new ≡ [] }
    {
        self.from = 0;
        self.to = 0;
    }

    /// Puts the events of a read at its end.
    ///
    /// # Errors
    ///
    /// `AllocError` if there is no room for them. Then all events are let go.
    pub fn add(&mut self, bytes: &[u8], decoder: &mut Decoder) -> Result<Taken, AllocError>
        ensures decoder { OnOk result (decoder.new ≡ (told_by decoder.old bytes.now).1) }
        ensures events { OnOk result (self.new ≡ self.old ++ (told_by decoder.old bytes.now).0) }
        ensures size { IfOk result (λ taken. taken.size ≡ size_told decoder.old bytes.now) }
        ensures full { OnErr result
            (events_room < length (self.old ++ (told_by decoder.old bytes.now).0)) }
        ensures refused { OnErr result (self.new ≡ []) }
    {
        self.rewind();
        match take(bytes, decoder, self) {
            Ok(taken) => Ok(taken),
            Err(error) => {
                self.clear();
                Err(error)
            }
        }
    }
}

// A read's events are put at its end.
impl Updates for Queue {
    ghost use Rattle.std.specs.Prelude.{false, ◌<◌, ◌++◌, ◌∷◌, [], length};

    ghost updated = { λ events event. events ++ (event ∷ []) };

    ghost is_over = { λ _. false };

    ghost is_light = { λ events _. length events < 2048 };

    #[tactic(auto, using(crate::proofs::QueueLemmas::within_more, crate::proofs::QueueLemmas::within_length))]
    fn update(&mut self, event: Event) -> Result<(), AllocError> {
        if self.to < ROOM {
            self.places[self.to] = event;
            self.to += 1;
            return Ok(());
        }
        if self.from == 0 {
            return Err(AllocError);
        }
        let count = gather(&mut self.places, self.from, self.to);
        self.from = 0;
        self.places[count] = event;
        self.to = count + 1;
        Ok(())
    }

    fn is_over(&self) -> bool {
        false
    }
}
