//! Callers of the library, to be read: the whole way from a body to the body with a term in it; a tree laid out; and a second
//! small kind of nodes, with callers that know no more than the trait says.
//!
//! Tests: `peephole_tests`.
#![tactic(auto)]

mod arith;
mod callers;
mod replacing;
mod tree;

pub use arith::{Arith, ArithHead};
pub use callers::{all_first, read_again, set_first};
pub use replacing::{ReplaceError, Replaced, replace};
pub use tree::tree_of;
