//! States that act: messages change them, and what they ask for is done while it is shown.
#![tactic(auto)]

mod acts;
mod clocked;
mod fault;
mod glass;
pub mod laws;
mod message;
mod nothing;
mod outside;
mod queue;
mod running;
mod seat;
mod told;

pub use acts::Acts;
pub use clocked::Clocked;
pub use fault::Fault;
pub use glass::Glass;
pub use message::Message;
pub use nothing::{Never, Nothing};
pub use outside::{Heard, Hears, Outside};
pub use running::run;
pub use seat::Seat;
pub use told::Told;
