//! Where a state sits between what is outside and what shows it.

ghost use Rattle.std.specs.Prelude.{◌≡◌, ◌≤◌, ◌||◌, length, List, [], ◌++◌, is_some, true, false, None, Some};
ghost use Rattle.std.specs.Prelude.{Option, IsNone, IfSome, OnOk, OnErr, IfOk, IfErr};
ghost use Rattle.ratatui_events.specs.declared.event.Event.{Event as EventData};
ghost use Rattle.ratatui_acts.specs.declared.message.Message.TheVariants.{Answer, Tick};
ghost use Rattle.ratatui_acts.specs.declared.told.Told.{Told};
ghost use Rattle.ratatui_acts.specs.Redraws.{has_redraw};
ghost use Rattle.ratatui_acts.specs.Turns.{Came, Done, Standing, Tells, TellsSome, RefusesTurn};
ghost use Rattle.ratatui_acts.specs.Turns.{waits, taking, ticked, after_turn, IsTickHeavy};
ghost use Rattle.ratatui_acts.specs.Seats.{seated, TurnsTo, HearsTo, StopsHearing, StopsTurn};
ghost use Rattle.ratatui_input.specs.Encodings.{fresh_decoder};

use crate::acts::Acts;
use crate::fault::Fault;
use crate::glass::Glass;
use crate::message::Message;
use crate::outside::{Hears, Outside};
use crate::queue::Queue;
use crate::told::{Told, is_anew};
use ratatui_input::Decoder;
use std::alloc::AllocError;
use std::io;
use std::time::Duration;

/// A state, and what was read for it and not told yet. Nothing else can tell it anything.
#[derive(Drop)]
pub struct Seat<A> {
    decoder: Decoder,
    left: Queue,
    state: A,
}

// What messages made: whether what is shown may have changed, and whether Ctrl+L was among them.
#[derive(Clone, Copy)]
struct Effect {
    changed: bool,
    anew: bool,
}

impl<A: Acts> Seat<A> {
    /// Takes a state that was told nothing. It takes no memory.
    pub fn new(state: A) -> Seat<A>
        ensures { seated result ≡ record { decoder = fresh_decoder; left = []; state = state } }
    {
        Seat {
            decoder: Decoder::new(),
            left: Queue::new(),
            state,
        }
    }

    /// Returns the state.
    pub fn state(&self) -> &A
        ensures { result.now ≡ (seated self.now).state }
    {
        &self.state
    }

    /// Returns the state again; what was read and not told is lost.
    pub fn into_state(self) -> A
        ensures { result ≡ self.state }
    {
        self.state
    }

    /// Returns whether the state asks for something.
    pub fn asks(&self) -> bool
        ensures { result ≡ is_some (A.asked self.now.state) }
    {
        self.state.asked().is_some()
    }

    // Whether it is told no event.
    fn waits(&self) -> bool
        ensures { result ≡ waits A.Acts self.now.state }
    {
        self.state.is_over() || self.asks()
    }

    // Tells it a message.
    fn tell(&mut self, message: Message<A::Answer>, changed: bool) -> Result<bool, AllocError>
        ensures ok { OnOk result
            (self.new ≡ record self.old { state = A.updated self.old.state message }) }
        ensures same { IfOk result (λ is. is ≡ false
            → (changed ≡ false) × (self.new.state ≡ self.old.state)) }
        ensures refused { OnErr result (self.new ≡ self.old) }
        ensures heavy { OnErr result (A.is_light self.old.state message → ⊥) }
    {
        let is_new = self.state.update(message)?;
        Ok(is_new | changed)
    }

    // Tells it a tick, if nothing came.
    fn tick(&mut self, bytes: &[u8], passed: Duration) -> Result<bool, AllocError>
        ensures ok { OnOk result (self.new
            ≡ record self.old { state = ticked A.Acts bytes.now passed self.old.state }) }
        ensures same { IfOk result (λ is. is ≡ false → self.new.state ≡ self.old.state) }
        ensures refused { OnErr result (self.new ≡ self.old) }
        ensures heavy { OnErr result (IsTickHeavy A.Acts self.old.state bytes.now passed) }
    {
        if bytes.is_empty() {
            self.tell(Message::Tick(passed), false)
        } else {
            Ok(false)
        }
    }

    // Tells it what is left, until it waits.
    fn tell_left(&mut self, before: bool) -> Result<Effect, AllocError>
        ensures ok { OnOk result
            (seated self.new ≡ taking A.Acts self.old.decoder self.old.left self.old.state) }
        ensures same { IfOk result (λ effect. effect.changed ≡ false
            → (before ≡ false) × (self.new.state ≡ self.old.state)) }
        ensures told { IfOk result (λ effect. (events : List EventData)
            × (self.old.left ≡ events ++ self.new.left) × (effect.anew ≡ has_redraw events)) }
        ensures refused { OnErr result
            (TellsSome A.Acts self.old.left self.old.state self.new.left self.new.state) }
    {
        let mut changed = before;
        let mut anew = false;
        let count = self.left.len();
        for done in 0..count {
            if self.waits() {
                return Ok(Effect { changed, anew });
            }
            let Some(event) = self.left.first() else {
                return Ok(Effect { changed, anew });
            };
            match self.tell(Message::Event(event), changed) {
                Ok(is_new) => changed = is_new,
                Err(error) => return Err(error),
            }
            self.left.remove_first();
            anew = is_anew(anew, event);
        }
        Ok(Effect { changed, anew })
    }

    // Tells it what a read gave.
    fn came(&mut self, bytes: &[u8], passed: Duration) -> Result<Told, AllocError>
        requires { length bytes.now ≤ 1024 }
        ensures ok { OnOk result
            (seated self.new ≡ after_turn A.Acts (seated self.old) (Came bytes.now passed)) }
        ensures tells { IfOk result (λ told.
            Tells A.Acts (seated self.old) (Came bytes.now passed) told (seated self.new)) }
        ensures refused { OnErr result
            (RefusesTurn A.Acts (seated self.old) (Came bytes.now passed) (seated self.new)) }
    {
        let taken = match self.left.add(bytes, &mut self.decoder) {
            Ok(taken) => taken,
            Err(error) => return Err(error),
        };
        let ticked = match self.tick(bytes, passed) {
            Ok(ticked) => ticked,
            Err(error) => return Err(error),
        };
        match self.tell_left(ticked) {
            Ok(effect) => Ok(Told {
                changed: effect.changed,
                came: !bytes.is_empty(),
                size: taken.size,
                anew: effect.anew,
            }),
            Err(error) => Err(error),
        }
    }

    // Tells it an answer.
    fn answered(&mut self, answer: A::Answer) -> Result<Told, AllocError>
        ensures ok { OnOk result (seated self.new ≡ taking A.Acts self.old.decoder self.old.left
            (A.updated self.old.state (Answer answer))) }
        ensures tells { IfOk result (λ told. (command : A.Command)
            → Tells A.Acts (seated self.old) (Done command answer) told (seated self.new)) }
        ensures refused { OnErr result ((command : A.Command)
            → RefusesTurn A.Acts (seated self.old) (Done command answer) (seated self.new)) }
    {
        let first = match self.tell(Message::Answer(answer), false) {
            Ok(first) => first,
            Err(error) => return Err(error),
        };
        match self.tell_left(first) {
            Ok(effect) => Ok(Told {
                changed: effect.changed,
                came: true,
                size: None,
                anew: effect.anew,
            }),
            Err(error) => Err(error),
        }
    }

    /// Reads once, and tells the state what was read.
    ///
    /// # Errors
    ///
    /// `Read` if the read failed; nothing has changed then. `Memory` if memory was refused for a
    /// tick or for an event, which isn't light then: the events before it have been told, and this
    /// one and those after it wait. So they may after an answer was refused. Where more than 2048
    /// would wait by and by, all of them are let go, and the fault is `Memory` too.
    pub fn hear<G: Glass<A>, H: Hears<A, G>>(
        &mut self,
        ears: &mut H,
        glass: &G,
    ) -> Result<Told, Fault<G::Error>>
        requires shown { G.shows glass.now self.old.state }
        requires free { A.asked self.old.state ≡ None }
        requires goes_on { A.is_over self.old.state ≡ false }
        ensures heard { IfOk result (λ told. HearsTo A.Acts H.gives H.fails
            (seated self.old) ears.old told (seated self.new) ears.new) }
        ensures stops { IfErr result (StopsHearing A.Acts H.gives H.fails
            (seated self.old) ears.old (seated self.new) ears.new) }
    {
        let mut buf = [0u8; 1024];
        let heard = match ears.hear(glass, &self.state, &mut buf) {
            Ok(heard) => heard,
            Err(error) => return Err(Fault::Read(error)),
        };
        match self.came(&buf[..heard.count], heard.passed) {
            Ok(told) => Ok(told),
            Err(_) => Err(Fault::Memory),
        }
    }

    // Does what the state asks for, if it asks for something.
    fn ask<G: Glass<A>, O: Outside<A, G>>(
        &self,
        outside: &mut O,
        glass: &G,
    ) -> Option<io::Result<A::Answer>>
        requires shown { G.shows glass.now self.now.state }
        requires goes_on { A.is_over self.now.state ≡ false }
        ensures none { IsNone result
            → (A.asked self.now.state ≡ None) × (outside.new ≡ outside.old) }
        ensures some { IfSome result (λ done. IfOk done (λ answer. (command : A.Command)
            × (A.asked self.now.state ≡ Some command)
            × O.answers outside.old command answer outside.new)) }
    {
        match self.state.asked() {
            None => None,
            Some(command) => Some(outside.perform(glass, &self.state, command)),
        }
    }

    /// Makes one turn: does what the state asks for, and tells it the answer; or reads once, if it
    /// asks for nothing. Then it tells the state the events that wait, until it asks again.
    ///
    /// # Errors
    ///
    /// Those of [`Seat::hear`], and `Outside` if what is outside is lost; nothing has changed then
    /// but what is outside.
    pub fn turn<G: Glass<A>, H: Hears<A, G>, O: Outside<A, G>>(
        &mut self,
        ears: &mut H,
        outside: &mut O,
        glass: &G,
    ) -> Result<Told, Fault<G::Error>>
        requires shown { G.shows glass.now self.old.state }
        requires goes_on { A.is_over self.old.state ≡ false }
        ensures turns { IfOk result (λ told. TurnsTo A.Acts H.gives H.fails O.answers
            (seated self.old) ears.old outside.old told
            (seated self.new) ears.new outside.new) }
        ensures stops { IfErr result (StopsTurn A.Acts H.gives H.fails O.answers
            (seated self.old) ears.old outside.old (seated self.new) ears.new outside.new) }
    {
        match self.ask(outside, glass) {
            None => self.hear(ears, glass),
            Some(Err(error)) => Err(Fault::Outside(error)),
            Some(Ok(answer)) => match self.answered(answer) {
                Ok(told) => Ok(told),
                Err(_) => Err(Fault::Memory),
            },
        }
    }
}
