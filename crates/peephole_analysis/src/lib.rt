//! The types of results: of a node, by the types of its operands, and of a term.
//!
//! Tests: `peephole_tests`.
#![tactic(auto)]

mod analysis;
pub mod laws;
mod term_types;

pub use analysis::{ClassData, OperandTypes, PeepholeMutationAnalysis};
