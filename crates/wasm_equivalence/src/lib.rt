//! What a rewritten module does: all that it did, calls among its own functions included; and what holds of
//! valid bodies.
//!
//! Tests: by running what is rewritten, `tests/modules.sh` and `tests/chained.sh`; its laws have no code.
#![tactic(auto)]

pub mod laws;
pub mod validity;
