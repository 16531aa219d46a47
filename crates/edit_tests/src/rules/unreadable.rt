//! An input that no call can be read from.

use body_notation::NotationError;
use std::alloc::{AllocError, AllocFailed};
use wasm_code::SinkError;

/// The input can't be read, or no memory was left.
#[derive(Drop)]
pub struct Unreadable;

impl<T: Drop> From<AllocFailed<T>> for Unreadable {
    fn from(_error: AllocFailed<T>) -> Unreadable {
        Unreadable
    }
}

impl From<AllocError> for Unreadable {
    fn from(_error: AllocError) -> Unreadable {
        Unreadable
    }
}

impl From<NotationError> for Unreadable {
    fn from(_error: NotationError) -> Unreadable {
        Unreadable
    }
}

impl From<SinkError> for Unreadable {
    fn from(_error: SinkError) -> Unreadable {
        Unreadable
    }
}

/// The number that the text is.
pub fn number_in(text: &str) -> Result<usize, Unreadable> {
    text.parse().ok().ok_or(Unreadable)
}
