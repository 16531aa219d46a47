//! The command line of the program for modules: what its words ask for, and how it is told where they ask for nothing.
//!
//! Tests: `option_read.txt` and `option_messages.txt` of `edit_tests`, a case for each command line.
#![tactic(auto)]

mod arguments;
mod conflicts;
mod flags;
mod form;
mod front;
mod misuse;
mod named;
mod nearest;
mod options;
mod task;
mod values;
mod words;

pub use flags::Flags;
pub use form::Form;
pub use front::begins_with;
pub use misuse::Misuse;
pub use options::Options;
pub use task::Task;
pub use words::{options_from, options_of};
