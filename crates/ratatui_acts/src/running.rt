//! Running a state.

ghost use Rattle.std.specs.Prelude.{◌≡◌, ◌||◌, Bool, true, false, OnOk, IfOk, IfErr};
ghost use Rattle.ratatui_acts.specs.declared.told.Told.{Told};
ghost use Rattle.ratatui_acts.specs.Steps.{ShowsTurn, ends_by, now_of};
ghost use Rattle.ratatui_acts.specs.Runs.{ground_of, StopsNext, StopsTurning, RunsToEnd};

use crate::acts::Acts;
use crate::fault::Fault;
use crate::glass::Glass;
use crate::outside::{Hears, Outside};
use crate::seat::Seat;
use crate::told::Told;

// One turn and the frame after it. Answers whether something came.
fn step<A: Acts, G: Glass<A>, H: Hears<A, G>, O: Outside<A, G>>(
    ears: &mut H,
    outside: &mut O,
    glass: &mut G,
    seat: &mut Seat<A>,
) -> Result<bool, Fault<G::Error>>
    requires shown { G.shows glass.old seat.old.state }
    requires goes_on { A.is_over seat.old.state ≡ false }
    ensures steps { let basis = ground_of A.Acts G.shows G.moves G.lacks
        H.gives H.fails O.answers in
        IfOk result (ShowsTurn basis
        (now_of seat.old glass.old ears.old outside.old)
        (now_of seat.new glass.new ears.new outside.new)) }
    ensures stops { let basis = ground_of A.Acts G.shows G.moves G.lacks
        H.gives H.fails O.answers in
        IfErr result (StopsNext basis
        (now_of seat.old glass.old ears.old outside.old)
        (now_of seat.new glass.new ears.new outside.new)) }
{
    let told = match seat.turn(ears, outside, glass) {
        Ok(told) => told,
        Err(fault) => return Err(fault),
    };
    match glass.show(seat.state(), told) {
        Ok(()) => Ok(told.came),
        Err(error) => Err(Fault::Show(error)),
    }
}

// Whether nothing more comes: nothing did before, or a read gave nothing, and that is no tick.
fn is_end(before: bool, came: bool, has_ticks: bool) -> bool
    ensures { result ≡ ends_by before came has_ticks }
{
    before || (!came && !has_ticks)
}

/// Shows a state, and then makes turn after turn, until the state is over or, unless a read that
/// gives nothing is a tick, nothing more comes: what the state asks for is done, and where it asks
/// for nothing, it is read. After each turn the state is shown again, before anything else is done
/// or read.
///
/// # Errors
///
/// Those of [`Seat::turn`], and `Show` if the glass failed. Each turn before was shown. `Endless`
/// after 2^64 - 1 turns.
pub fn run<A: Acts, G: Glass<A>, H: Hears<A, G>, O: Outside<A, G>>(
    ears: &mut H,
    outside: &mut O,
    has_ticks: bool,
    glass: &mut G,
    seat: &mut Seat<A>,
) -> Result<(), Fault<G::Error>>
    requires { G.is_ready glass.old }
    ensures runs { let basis = ground_of A.Acts G.shows G.moves G.lacks
        H.gives H.fails O.answers in
        OnOk result (RunsToEnd basis has_ticks
        (now_of seat.old glass.old ears.old outside.old)
        (now_of seat.new glass.new ears.new outside.new)) }
    ensures stops { let basis = ground_of A.Acts G.shows G.moves G.lacks
        H.gives H.fails O.answers in
        IfErr result (StopsTurning basis
        (now_of seat.old glass.old ears.old outside.old)
        (now_of seat.new glass.new ears.new outside.new)) }
{
    match glass.show(seat.state(), Told::first()) {
        Ok(()) => {}
        Err(error) => return Err(Fault::Show(error)),
    }
    let mut is_used_up = false;
    for _ in 0..u64::MAX {
        if seat.state().is_over() {
            return Ok(());
        }
        let asks = seat.asks();
        if is_used_up && !asks {
            return Ok(());
        }
        match step(ears, outside, glass, seat) {
            Ok(came) => is_used_up = is_end(is_used_up, came, has_ticks),
            Err(fault) => return Err(fault),
        }
    }
    Err(Fault::Endless)
}
