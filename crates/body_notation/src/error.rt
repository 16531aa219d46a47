//! Why a text is nothing here.

use std::alloc::AllocFailed;
use wasm_code::SinkError;

/// Why a text is nothing here.
#[derive(Clone, Copy, Debug, PartialEq, Eq)]
pub enum NotationError {
    /// No memory was left.
    Memory,
    /// An operator that there isn't, or a word that is no number.
    Unknown,
}

impl<T: Drop> From<AllocFailed<T>> for NotationError {
    fn from(_error: AllocFailed<T>) -> NotationError {
        NotationError::Memory
    }
}

impl From<SinkError> for NotationError {
    fn from(_error: SinkError) -> NotationError {
        NotationError::Memory
    }
}
