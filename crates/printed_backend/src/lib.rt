//! A screen in memory that keeps the rows that scrolled off as text: as they are printed.
//!
//! It stands on `rtui_backend`. [`PrintedBackend`] is a backend as `TestBackend` is, and prints the
//! same; a row that scrolled off takes the bytes of its text and no cells. Its cells are noted in
//! clauses alone (`rows`), so that the screen's history is all that any backend has.
//! `specs/Printed` says what it shows, and what a failed call leaves.
#![tactic(auto)]

mod backend;
mod calls;
mod drawing;
mod printing;
mod rows;
mod scrolling;

pub use backend::PrintedBackend;
