//! Why a call gave no answer.
use std::alloc::{AllocError, AllocFailed};

/// Why a call of a row gave no answer.
#[derive(Debug, Clone, Copy, PartialEq, Eq)]
pub enum RowError {
    /// The row doesn't say a call.
    Unread,
    /// What the call requires isn't met.
    Requires,
    /// Memory was refused.
    Memory,
    /// Memory was refused to a backend, after which nothing is promised.
    Lost,
}

impl From<AllocError> for RowError {
    fn from(_: AllocError) -> RowError {
        RowError::Memory
    }
}

impl<T: Drop> From<AllocFailed<T>> for RowError {
    fn from(_: AllocFailed<T>) -> RowError {
        RowError::Memory
    }
}

impl RowError {
    /// Returns whether memory was refused.
    pub fn is_memory(self) -> bool {
        matches!(self, RowError::Memory | RowError::Lost)
    }

    /// Returns the word that stands for an answer.
    pub fn word(self) -> &'static str {
        match self {
            RowError::Unread => "unread",
            RowError::Requires => "requires",
            RowError::Memory | RowError::Lost => "no memory",
        }
    }
}
