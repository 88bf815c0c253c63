//! Laws of choosing.

ghost use Rattle.std.specs.Prelude.{◌≡◌};
ghost use Rattle.std.specs.declared.alloc.Global.{Global as GlobalData};
ghost use Rattle.ratatui_core.specs.Layout.{Rect, Size as SizeData, intersected};
ghost use Rattle.ratatui_core.specs.Buffer.{BufferData};
ghost use Rattle.ratatui_acts.specs.declared.message.Message.{Message};
ghost use Rattle.ratatui_acts.specs.declared.nothing.Never.{Never};
ghost use Rattle.chooser.specs.declared.chooser.Chooser.{Chooser};
ghost use Rattle.chooser.specs.Choosing.{new_chooser, chooser_after, settled_chooser, PaintsPlanets, ShowsPlanets};

/// The state is settled at the beginning, and stays so whatever it is told.
pub fn the_state_is_always_settled()
    ensures begun { (alloc : GlobalData) (size : SizeData)
        → settled_chooser (new_chooser alloc size) ≡ new_chooser alloc size }
    ensures stays { (c : Chooser) (m : Message Never) → settled_chooser c ≡ c
        → settled_chooser (chooser_after c m) ≡ chooser_after c m }
{}

/// What is shown of a settled state at its size is the list in this state, and leaves it.
pub fn the_frame_is_that_of_the_state()
    ensures { (c : Chooser) (area : Rect) (old new : BufferData) → settled_chooser c ≡ c
        → intersected area old.area ≡ c.area → PaintsPlanets c area old new
        → ShowsPlanets c area old new }
{}
