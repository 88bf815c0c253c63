//! Laws of runs.

ghost use Rattle.std.specs.Prelude.{◌≡◌, ◌+◌, ◌++◌, [], List};
ghost use Rattle.ratatui_events.specs.declared.event.Event.{Event};
ghost use Rattle.ratatui_acts.specs.Turns.{after_turns, HasLightMessages};
ghost use Rattle.ratatui_acts.specs.declared.fault.Fault.TheVariants.{Memory};
ghost use Rattle.ratatui_reads.specs.Reads.{after_reads};
ghost use Rattle.ratatui_reads.specs.Sources.{GivesReads};
ghost use Rattle.ratatui_acts.specs.Hearing.{GivesUntimed, FailsToGive};
ghost use Rattle.ratatui_acts.specs.Reading.{AsksNothing, seat_between, event_rules, turn_reads};
ghost use Rattle.ratatui_acts.specs.Runs.{ground_of, Now, Past, HasRun, AreAnswered, AreTimely};
ghost use Rattle.ratatui_acts.specs.Runs.{turns_of, IsTurn, StopsTurning};
ghost use Rattle.ratatui_acts.specs.Turns.{Turn};
ghost use Rattle.ratatui_acts.specs.Endings.{EndsEach, ComesIn, IsToldIn};
ghost use Rattle.ratatui_reads.specs.Recorded.{recorded_reads, coming_recorded};
ghost use Rattle.ratatui_reads.specs.declared.recorded.Recorded.{Recorded as RecordedReader};
ghost use Rattle.ratatui_acts.specs.declared.clocked.Clocked.{Clocked as ClockedSource};
ghost use Rattle.ratatui_acts.specs.Hearing.{GivesTimed, time_told};
ghost use Rattle.std.specs.Time.{instant_nanos};

use crate::acts::Acts;
use crate::glass::Glass;
use crate::outside::{Hears, Outside};
use ratatui_reads::Source;
use std::io::Read;
use std::rt::Clock;

/// Where a run stands now, the state is what its turns make of the first one, one after the other:
/// what was read, and what was answered. What was read and waits is in the seat.
pub fn a_run_makes_what_its_turns_make<A: Acts, G: Glass<A>, H: Hears<A, G>, O: Outside<A, G>>()
    ensures { let basis = ground_of A.Acts G.shows G.moves G.lacks H.gives H.fails O.answers in
        (begun now : Now A G H O) (past : List (Past A A.Command A.Answer G H O))
        → HasRun basis begun past now
        → now.standing ≡ after_turns A.Acts begun.standing (turns_of basis past) }
{}

/// Wherever a run read, all that it had read before had been told to the state that the glass
/// showed then.
pub fn what_was_read_is_told_before_more_is_read<
    A: Acts,
    G: Glass<A>,
    H: Hears<A, G>,
    O: Outside<A, G>,
>()
    ensures { let basis = ground_of A.Acts G.shows G.moves G.lacks H.gives H.fails O.answers in
        (begun now : Now A G H O) (past : List (Past A A.Command A.Answer G H O))
        → begun.standing.left ≡ [] → HasRun basis begun past now
        → AreAnswered basis past }
{}

/// Whenever a run read, or did something, the glass showed the state that all turns before make of
/// the first one; what was done is what that state asks for, and where it was read, that state asks
/// for nothing.
pub fn each_turn_was_made_while_its_state_was_shown<
    A: Acts,
    G: Glass<A>,
    H: Hears<A, G>,
    O: Outside<A, G>,
>()
    ensures { let basis = ground_of A.Acts G.shows G.moves G.lacks H.gives H.fails O.answers in
        (begun now : Now A G H O) (past : List (Past A A.Command A.Answer G H O))
        → HasRun basis begun past now → AreTimely basis begun.standing past }
{}

/// Of states that ask for nothing, and that ticks don't change, decoder and state are what the
/// reads of a run make of the first ones.
pub fn reads_decide_where_nothing_is_asked_for<
    A: Acts,
    G: Glass<A>,
    H: Hears<A, G>,
    O: Outside<A, G>,
>()
    ensures { let basis = ground_of A.Acts G.shows G.moves G.lacks H.gives H.fails O.answers in
        AsksNothing A.Acts
        → (begun now : Now A G H O) (past : List (Past A A.Command A.Answer G H O))
        → begun.standing.left ≡ [] → HasRun basis begun past now
        → seat_between now.standing ≡ after_reads (event_rules A.Acts) (seat_between begun.standing)
        (turn_reads (turns_of basis past)) }
{}

/// The reads of a run are those that its source gave, in order.
pub fn the_reads_are_what_a_source_gave<A: Acts, G: Glass<A>, S: Source, O: Outside<A, G>>()
    ensures { let basis = ground_of A.Acts G.shows G.moves G.lacks
        (GivesUntimed S.coming) (FailsToGive S.coming) O.answers in
        (begun now : Now A G S O) (past : List (Past A A.Command A.Answer G S O))
        → HasRun basis begun past now
        → GivesReads (S.coming begun.ears) (S.coming now.ears)
        (turn_reads (turns_of basis past)) }
{}

/// The reads of a run over a recorded reader, as a keyboard's, are those that were recorded
/// meanwhile. They are what each put into its buffer; without a clock, and with one.
pub fn the_reads_are_those_recorded<
    'a,
    A: Acts,
    G: Glass<A>,
    R: Read + Drop,
    C: Clock,
    O: Outside<A, G>,
>()
    ensures untimed { let basis = ground_of A.Acts G.shows G.moves G.lacks
        (GivesUntimed coming_recorded) (FailsToGive coming_recorded) O.answers in
        (begun now : Now A G (RecordedReader R) O)
        (past : List (Past A A.Command A.Answer G (RecordedReader R) O))
        → HasRun basis begun past now
        → recorded_reads now.ears
        ≡ recorded_reads begun.ears ++ turn_reads (turns_of basis past) }
    ensures timed { let basis = ground_of A.Acts G.shows G.moves G.lacks
        (GivesTimed (λ c. coming_recorded c.source) (λ c. instant_nanos c.last))
        (FailsToGive (λ c. coming_recorded c.source)) O.answers in
        (begun now : Now A G (ClockedSource (RecordedReader R) C) O)
        (past : List (Past A A.Command A.Answer G (ClockedSource (RecordedReader R) C) O))
        → HasRun basis begun past now
        → recorded_reads now.ears.source
        ≡ recorded_reads begun.ears.source ++ turn_reads (turns_of basis past) }
{}

/// The times that the ticks of a run tell add up to what the clock has gone on from the beginning
/// to the last tick.
pub fn ticks_tell_the_time_of_the_clock<
    'a,
    A: Acts,
    G: Glass<A>,
    S: Source + Drop,
    C: Clock,
    O: Outside<A, G>,
>()
    ensures { let basis = ground_of A.Acts G.shows G.moves G.lacks
        (GivesTimed (λ c. S.coming c.source) (λ c. instant_nanos c.last))
        (FailsToGive (λ c. S.coming c.source)) O.answers in
        (begun now : Now A G (ClockedSource S C) O)
        (past : List (Past A A.Command A.Answer G (ClockedSource S C) O))
        → HasRun basis begun past now
        → instant_nanos now.ears.last
        ≡ instant_nanos begun.ears.last + time_told (turns_of basis past) }
{}

/// A run whose messages are all light is never refused memory for one: it stops by `Memory` only if
/// a message isn't light in the state that it meets, or if events were left over that a run before
/// it hadn't told.
pub fn light_messages_are_never_refused<A: Acts, G: Glass<A>, H: Hears<A, G>, O: Outside<A, G>>()
    ensures { let basis = ground_of A.Acts G.shows G.moves G.lacks H.gives H.fails O.answers in
        HasLightMessages A.Acts → (before after : Now A G H O) → before.standing.left ≡ []
        → StopsTurning basis before after Memory → ⊥ }
{}

/// An event that ends each state which it can be told to ends a run. No turn comes after one in
/// which it was told. Of states that ask for nothing, and that ticks don't change, none comes after
/// one in which it came, whatever came beside it.
pub fn an_event_that_ends_each_state_ends_the_run<
    A: Acts,
    G: Glass<A>,
    H: Hears<A, G>,
    O: Outside<A, G>,
>()
    ensures told { let basis = ground_of A.Acts G.shows G.moves G.lacks H.gives H.fails O.answers in
        (e : Event) → EndsEach A.Acts e
        → (before between after : Now A G H O) (turn next : Turn A.Command A.Answer)
        → IsTurn basis before turn between → IsToldIn A.Acts before.standing turn e
        → IsTurn basis between next after → ⊥ }
    ensures came { let basis = ground_of A.Acts G.shows G.moves G.lacks H.gives H.fails O.answers in
        (e : Event) → AsksNothing A.Acts → EndsEach A.Acts e
        → (before between after : Now A G H O) (turn next : Turn A.Command A.Answer)
        → IsTurn basis before turn between → ComesIn A.Acts before.standing turn e
        → IsTurn basis between next after → ⊥ }
{}
