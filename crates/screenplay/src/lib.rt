//! A script of frames, played on a screen in memory.
//!
//! It stands on `rtui_terminal`, by its contract alone, and on the backend in memory.
//! `specs/Script` is the grammar of a script, `specs/Run` says what a run of its steps is and
//! `specs/Appending` what rows it leaves above an inline viewport, `specs/Print` is the text that
//! it prints, and `specs/Engine` joins them. [`play`] gives the scenes of a run;
//! [`printed_text`] gives the text that a script prints; [`run`] reads a script from any reader,
//! and writes its text to any writer. [`print_script`] is a run that writes its fault
//! (`specs/Ending`).
#![tactic(auto)]

mod act;
mod engine;
mod error;
pub mod laws;
mod playing;
mod printing;
mod raw_lines;
mod scene;
mod script;

pub use engine::{printed_text, run};
pub use error::RunError;
pub use playing::play;
pub use printing::print_script;
pub use scene::{PlayCause, PlayFault, Puts, Scene, Stage, Step, StepError};
