//! Tests of rules, rewrites and changes: files of cases, each with its input and with what is expected. For each file a line is printed that
//! counts the cases that are answered as expected, and each other case with what is found. It ends with failure unless there is none.
#![tactic(auto)]

mod modules;
mod rules;

use std::io;
use std::process::ExitCode;

// Judges all files; whether every case is right.
fn judge_all(rt: &HostRuntime) -> io::Result<bool> {
    let rules_are_right = rules::judge_all(rt)?;
    let modules_are_right = modules::judge_all(rt)?;
    Ok(rules_are_right && modules_are_right)
}

fn main(rt: HostRuntime) -> ExitCode {
    match judge_all(&rt) {
        Ok(true) => ExitCode::SUCCESS,
        Ok(false) => ExitCode::FAILURE,
        Err(error) => {
            let _ = eprintln!(rt; "edit_tests: {error}");
            ExitCode::FAILURE
        }
    }
}
