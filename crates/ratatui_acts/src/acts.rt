//! States that act.

ghost use Rattle.std.specs.Prelude.{◌≡◌, Bool, Option, option_map, false, IsOk, IfOk, OnOk, OnErr};
ghost use Rattle.ratatui_acts.specs.declared.message.Message.{Message};

use crate::message::Message;
use std::alloc::AllocError;

/// A state that messages change and that may ask for something to be done outside.
pub trait Acts {
    /// What is asked for.
    type Command;

    /// What comes back.
    type Answer;

    // what a message makes of a state
    ghost updated: { Self → Message Self.Answer → Self };

    // what a state asks for; until it is answered, the state is told nothing else
    ghost asked: { Self → Option Self.Command };

    // whether it takes no more messages
    ghost is_over: { Self → Bool };

    // when a message takes no memory: never, unless it says otherwise
    ghost is_light: { Self → Message Self.Answer → Type 0 } = { λ _ _. ⊥ };

    /// Takes a message. Answers whether anything that is shown may have changed.
    ///
    /// # Errors
    ///
    /// `AllocError` if memory is refused, of which a light message takes none. Nothing has changed
    /// then.
    fn update(&mut self, message: Message<Self::Answer>) -> Result<bool, AllocError>
        ensures ok { OnOk result (self.new ≡ updated self.old message) }
        ensures same { IfOk result (λ changed. changed ≡ false → self.new ≡ self.old) }
        ensures refused { OnErr result (self.new ≡ self.old) }
        ensures light { is_light self.old message → IsOk result };

    /// Returns what it asks for.
    fn asked(&self) -> Option<&Self::Command>
        ensures { option_map (λ command. command.now) result ≡ asked self.now };

    /// Returns whether it takes no more messages.
    fn is_over(&self) -> bool
        ensures { result ≡ is_over self.now };
}
