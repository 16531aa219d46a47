//! Runs the commands of standard input: what they print goes to standard output.
#![tactic(auto)]

use device_tally::Tally;
use peephole_commands::run;
use std::io;
use std::io::{BufWriter, Write};
use std::process::ExitCode;

// How many bytes of output are written at once.
const PIECE: usize = 65_536;

fn main(rt: HostRuntime) -> ExitCode {
    let Ok(writer) = BufWriter::with_capacity(rt.alloc(), PIECE, rt.stdout()) else {
        return ExitCode::FAILURE;
    };
    let mut input = Tally::new(rt.stdin());
    let mut output = Tally::new(writer);
    let answer = run(rt.alloc(), &mut input, &mut output);
    match (answer, output.flush()) {
        (Ok(true), Ok(())) => ExitCode::SUCCESS,
        _ => ExitCode::FAILURE,
    }
}
