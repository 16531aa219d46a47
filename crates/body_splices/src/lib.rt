//! Bodies in which some operators are replaced by others.
//!
//! Tests: `tests`, in this crate.
#![tactic(auto)]

mod bytes;
mod control;
pub mod laws;
mod piece;
mod splicing;
#[cfg(test)]
mod tests;

pub use control::Control;
pub use piece::Piece;
pub use splicing::splice;
