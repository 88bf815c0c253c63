//! What events change.

ghost use Rattle.std.specs.Prelude.{◌≡◌, Bool, IsOk, OnOk, OnErr};
ghost use Rattle.ratatui_events.specs.declared.event.Event.{Event};

use ratatui_events::Event;
use std::alloc::AllocError;

/// A state that events change.
pub trait Updates {
    // what an event makes of a state
    ghost updated: { Self → Event → Self };

    // whether it takes no more events
    ghost is_over: { Self → Bool };

    // when an event takes no memory: never, unless it says otherwise
    ghost is_light: { Self → Event → Type 0 } = { λ _ _. ⊥ };

    /// Takes an event.
    ///
    /// # Errors
    ///
    /// `AllocError` if memory is refused, of which a light event takes none. Nothing has changed
    /// then.
    fn update(&mut self, event: Event) -> Result<(), AllocError>
        ensures ok { OnOk result (self.new ≡ updated self.old event) }
        ensures refused { OnErr result (self.new ≡ self.old) }
        ensures light { is_light self.old event → IsOk result };

    /// Returns whether it takes no more events.
    fn is_over(&self) -> bool
        ensures { result ≡ is_over self.now };
}
