//! What a run of the program for modules reads, writes and answers as its options ask, over any reader and writer.
//!
//! Tests: `run_small.txt` of `edit_tests`, by whole command lines.
#![tactic(auto)]

mod blocks;
mod change_report;
mod changes;
mod changing;
mod ending;
mod failure;
mod families;
mod faults;
mod front;
mod functions;
mod input;
mod listing;
mod messages;
mod mutating;
mod names;
mod objects;
mod progress;
mod reach;
mod reporting;
mod rules;
mod running;
mod sharing;
mod showing;
mod sites;
mod stats;
mod writing;

pub use ending::Ending;
pub use failure::Failure;
pub use families::Family;
pub use progress::Progress;
pub use reach::{Part, Reach, reach_of};
pub use running::run;
