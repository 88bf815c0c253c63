//! Laws of names that are removed.

ghost use Rattle.std.specs.Prelude.{List, ℕ, Bool};
ghost use Rattle.ratatui_acts.specs.Runs.{Now, Past, HasRun};
ghost use Rattle.remover.specs.declared.remover.Remover.{Remover};
ghost use Rattle.ratatui_app.specs.declared.on_glass.OnGlass.{OnGlass};
ghost use Rattle.remover.specs.Laws.{on_terminal, AreNamed};

use crate::remover::Remover;
use ratatui_acts::{Hears, Outside};
use ratatui_app::OnGlass;
use std::io::Write;

/// Each name that a run removed was removed while each terminal that had read what was sent until
/// then showed the question that names it, and nothing else but that.
pub fn names_are_removed_while_they_are_shown<
    W: Write + Drop,
    H: Hears<Remover, OnGlass<W>>,
    O: Outside<Remover, OnGlass<W>>,
>()
    ensures { (begun now : Now Remover (OnGlass W) H O)
        (past : List (Past Remover (List ℕ) Bool (OnGlass W) H O))
        → HasRun (on_terminal H.gives H.fails O.answers) begun past now → AreNamed past }
{}
