//! Tests of the port by cases, the lines of `data/*.txt`: blocks, graphs, terms, written bodies and scripts, and what instructions
//! compute on a plain machine.
#![tactic(auto)]

mod graphs;
mod machine;
mod numbers;
mod parts;
mod scripts;
mod terms;
mod types;
mod writing;

use case_files::{Answers, judge_file};
use parts::{Refusal, call_of, told};
use std::alloc::{AllocError, Global};
use std::io;
use std::process::ExitCode;

// The files of cases.
const FAMILIES: &str =
    "blocks graphs layouts writing expansions replacements rereading types languages
    scripts results faulty_lines devices machine running";

/// The calls that the cases name.
struct Calls;

// What a call answers.
fn answered(alloc: Global, call: &str, case: &str) -> Result<String, Refusal> {
    match call {
        "run" | "failing_reader" | "refusing_writer" | "idle_writer" => {
            scripts::answered(alloc, call, case)
        }
        "order" | "write" | "expand" | "replace" => writing::answered(alloc, call, case),
        "type" | "type_by_copy" | "classes" => types::answered(alloc, call, case),
        "compute" | "change" => machine::answered(alloc, call, case),
        "node" | "set_first" | "far_sum" | "nodes" | "tree" | "arithmetic_tree" => {
            terms::answered(alloc, call, case)
        }
        _ => graphs::answered(alloc, call, case),
    }
}

impl Answers for Calls {
    fn answer(&self, alloc: Global, input: &str) -> Result<String, AllocError> {
        let (call, case) = call_of(input);
        told(alloc, answered(alloc, call, case))
    }
}

// Whether all cases are answered as expected.
fn judge(rt: &HostRuntime) -> io::Result<bool> {
    let mut are_right = true;
    for family in FAMILIES.split_whitespace() {
        are_right &= judge_file(rt, family, &Calls)?;
    }
    Ok(are_right)
}

fn main(rt: HostRuntime) -> ExitCode {
    match judge(&rt) {
        Ok(true) => ExitCode::SUCCESS,
        _ => ExitCode::FAILURE,
    }
}
