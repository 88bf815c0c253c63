//! What a state is told.

use ratatui_events::Event;
use std::time::Duration;

/// What a state is told.
#[derive(Debug, Drop, Clone, Copy, PartialEq, Eq)]
pub enum Message<R> {
    /// An event of the terminal.
    Event(Event),
    /// A read gave nothing. So much time has gone since the last tick, or since the beginning; none
    /// if nobody gives a clock ([`Clocked`](crate::Clocked)).
    Tick(Duration),
    /// What the state asked for was done, and this is the answer.
    Answer(R),
}
