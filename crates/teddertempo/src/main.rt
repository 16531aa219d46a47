//! Rewrites instructions of a WebAssembly module without changing what it computes, or with `--change` changes it so that it stays
//! valid: a module comes in from a file or on standard input, and the new one goes to a file or to standard output. `--list` and
//! `--blocks` write lines about the module instead; `--list-rules` and `--list-changes` read none, and write the rules or the changes.
//!
//! Exit status: 0 on success, and for `--help` and `--version`; 1 where the module is refused, the input can't be read, the output
//! can't be written, or no memory is left; 2 where no rule applies, nothing can be changed, or the module has no function of its own; 3
//! where no function can be read, or `--function` names none of the module's own, or one whose index isn't known; 64 where the options
//! can't be read, or a module would go to a terminal.
#![tactic(auto)]

mod beside;
mod destination;
mod files;
mod progress;
mod standard_files;
mod trouble;
mod watched_output;

use crate::files::run_on_files;
use crate::standard_files::hold_standard_files;
use crate::trouble::Trouble;
use clap::error::ErrorKind;
use module_commands::{Ending, Failure};
use module_options::{Options, options_of};
use rewrite_rules::rule_names;
use std::env::Env;
use std::io::IsTerminal;
use std::process::ExitCode;
use std::{env, io};

// The exit status where the options can't be read.
const USAGE: u8 = 64;

// The words of the command line.
fn words(rt: &(impl Env + AllocGlobal)) -> io::Result<Vec<String>> {
    Ok(env::args(rt)?.collect(rt.alloc())?)
}

// Says that no memory is left, and answers the status.
fn refuse_for_memory(rt: &impl Eprint) -> ExitCode {
    let failure = Failure::Memory;
    let _ = eprintln!(rt; "teddertempo: {failure}");
    ExitCode::from(failure.status())
}

// Says why the words of the command line can't be read, and answers the status.
fn refuse_words(rt: &impl Eprint, error: &io::Error) -> ExitCode {
    if error.kind() == io::ErrorKind::OutOfMemory {
        return refuse_for_memory(rt);
    }
    let _ = eprintln!(rt; "teddertempo: an argument isn't UTF-8");
    ExitCode::from(USAGE)
}

// Prints the message of the options' reader, and answers the status: that of a success for help and version.
fn refuse(rt: &(impl Print + Eprint), error: &clap::Error) -> ExitCode {
    if error.kind() == ErrorKind::OutOfMemory {
        return refuse_for_memory(rt);
    }
    let printed = error.print(rt).is_ok();
    if error.use_stderr() {
        ExitCode::from(USAGE)
    } else if printed {
        ExitCode::SUCCESS
    } else {
        ExitCode::FAILURE
    }
}

// The name of the file under the path, or else that of the standard one.
fn name_of<'a>(path: &'a Option<String>, standard: &'a str) -> &'a str {
    match path {
        Some(path) => path.as_str(),
        None => standard,
    }
}

// Prints why a run has no success, behind the names of the program and of the file.
fn tell(rt: &impl Eprint, options: &Options, trouble: &Trouble) {
    let name = if trouble.is_of_output() {
        name_of(&options.output, "standard output")
    } else {
        name_of(&options.input, "standard input")
    };
    let _ = eprintln!(rt; "teddertempo: {name}: {trouble}");
}

// Prints that memory ran out, where it did, and that may be told.
fn tell_ending(rt: &impl Eprint, options: &Options, ending: Ending) {
    match ending {
        Ending::Whole => {}
        Ending::OutOfMemory => {
            let name = name_of(&options.input, "standard input");
            let _ = eprintln!(rt;
                "teddertempo: {name}: no memory is left for more: there are fewer rewrites or changes than asked for"
            );
        }
    }
}

// Says that a module is read from the terminal, if there are no arguments and standard input is one.
fn tell_reading(rt: &HostRuntime, words: &[String]) {
    if words.len() <= 1 && rt.stdin().is_terminal() {
        let _ = eprintln!(rt;
            "teddertempo: reading a module from standard input; teddertempo --help lists the options"
        );
    }
}

fn main(rt: HostRuntime) -> ExitCode {
    let _held = hold_standard_files(&rt);
    let alloc = rt.alloc();
    let words = match words(&rt) {
        Ok(words) => words,
        Err(error) => return refuse_words(&rt, &error),
    };
    let Ok(names) = rule_names(alloc) else {
        return refuse_for_memory(&rt);
    };
    let options = match options_of(alloc, &names, &words) {
        Ok(options) => options,
        Err(error) => return refuse(&rt, &error),
    };
    tell_reading(&rt, &words);
    match run_on_files(&rt, &options) {
        Ok(ending) => {
            if !options.quiet {
                tell_ending(&rt, &options, ending);
            }
            ExitCode::SUCCESS
        }
        Err(trouble) => {
            tell(&rt, &options, &trouble);
            ExitCode::from(trouble.status())
        }
    }
}
