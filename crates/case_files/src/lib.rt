//! Tests as data: files of cases, one a line, each with its input and with what is expected of it. A program of tests answers the input
//! alone, and `judge_file` compares the answer with what is expected, so that no answer can be copied into the file unseen.
//!
//! A file `FAMILY.txt` begins with a comment that names the source of what it expects. Lines that begin with `#`, and empty ones, are
//! comments. A case is `INPUT => EXPECTED`; each following line that begins with `> ` is a further line of what is expected.
#![tactic(auto)]

mod fields;
mod judging;

pub use fields::{bytes_of, fields_of};
pub use judging::{Answers, judge_file};
