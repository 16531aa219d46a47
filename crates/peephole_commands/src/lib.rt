//! The commands of the program: lines are read and answered one by one.
//!
//! Tests: `peephole_tests` (`scripts`, `results`, `faulty_lines`, `devices`), by whole scripts.
#![tactic(auto)]

mod arguments;
mod body;
mod graphs;
pub mod laws;
mod place;
mod reply;
mod results;
mod runner;
mod session;
mod show;
mod starts;
mod writing;

pub use peephole_script::{Fault, LIMIT, RunError};
pub use runner::run;
