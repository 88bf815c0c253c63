//! What shows states.

ghost use Rattle.std.specs.Prelude.{◌≡◌, false, OnOk, IfErr};
ghost use Rattle.ratatui_acts.specs.declared.told.Told.{Told};
ghost use Rattle.ratatui_acts.specs.Turns.{IsQuiet};

use crate::told::Told;

/// What shows a state, as a terminal does.
pub trait Glass<A> {
    type Error;

    // it shows a state
    ghost shows: { Self → A → Type 0 };

    // a state can be shown
    ghost is_ready: { Self → Type 0 };

    // how it moves on when it is told of a turn
    ghost moves: { Told → Self → Self → Type 0 };

    // where it stopped when it was to show a state
    ghost lacks: { Told → A → Self → Self → Self.Error → Type 0 };

    /// Shows a state after a turn, and takes the size that was told, if one was. It decides itself
    /// whether it draws: a state that hasn't changed may stand there already.
    ///
    /// # Errors
    ///
    /// What the terminal failed at. Then nothing is said of what is shown.
    fn show(&mut self, state: &A, told: Told) -> Result<(), Self::Error>
        ensures shows { is_ready self.old → (told.changed ≡ false → shows self.old state.now)
            → OnOk result (shows self.new state.now) }
        ensures moves { is_ready self.old → OnOk result (moves told self.old self.new) }
        ensures stays { IsQuiet told → OnOk result (self.new ≡ self.old) }
        ensures lacks { is_ready self.old
            → IfErr result (λ error. lacks told state.now self.old self.new error) };

    // where a state is shown, another one can be
    ghost shown_is_ready: { (glass : Self) (s : A) → shows glass s → is_ready glass };
}
