//! Why a run ended before the state was over.

use std::fmt::Display;
use std::io;
use thiserror::Error;

/// Why a run ended before the state was over.
#[derive(Debug, Drop, Error)]
#[error_bound(E: Display)]
pub enum Fault<E> {
    /// A read failed.
    #[error("input: {0}")]
    Read(io::Error),
    /// What is outside is lost.
    #[error("outside: {0}")]
    Outside(io::Error),
    /// An update was refused memory.
    #[error("no memory")]
    Memory,
    /// The glass failed.
    #[error("{0}")]
    Show(E),
    /// So many turns were made that no number counts them.
    #[error("no end")]
    Endless,
}
