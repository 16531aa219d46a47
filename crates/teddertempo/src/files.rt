//! What a run reads from and writes to: files, or the process's own input and output.

use crate::beside::Beside;
use crate::destination::{Destination, destination_of};
use crate::progress::ProgressLine;
use crate::trouble::Trouble;
use crate::watched_output::WatchedOutput;
use device_tally::Tally;
use module_commands::{Ending, Failure, run};
use module_options::{Options, Task};
use std::fs::{File, Metadata, OpenOptions};
use std::io::{BufWriter, ErrorKind, IsTerminal, Read, Write};
use std::{fs, io};

// Runs from that input to that output.
fn run_watched<R: Read, W: Write + Drop>(
    rt: &HostRuntime,
    options: &Options,
    input: &mut Tally<R>,
    output: &mut WatchedOutput<W>,
) -> Result<Ending, Failure> {
    let Ok(mut output) = BufWriter::new(rt.alloc(), output) else {
        return Err(Failure::Memory);
    };
    let mut notes = rt.stderr();
    let progress = ProgressLine::new(rt, options);
    run(
        rt.alloc(),
        options,
        input,
        &mut output,
        &mut notes,
        progress,
    )
}

// What comes of it that the output had this error, if any: where nobody reads on a list, that is its end.
fn unwritten(task: Task, error: Option<io::Error>) -> Result<Ending, Trouble> {
    match error {
        Some(error) if !task.writes_module() && error.kind() == ErrorKind::BrokenPipe => {
            Ok(Ending::Whole)
        }
        Some(error) => Err(Trouble::Output(error)),
        None => Err(Trouble::Run(Failure::Output)),
    }
}

// Runs from that input to that output, and says why this can't be written.
fn run_to<R: Read, W: Write + Drop>(
    rt: &HostRuntime,
    options: &Options,
    input: &mut Tally<R>,
    output: W,
) -> Result<Ending, Trouble> {
    let mut output = WatchedOutput::new(output);
    match run_watched(rt, options, input, &mut output) {
        Ok(ending) => Ok(ending),
        Err(Failure::Output) => unwritten(options.task, output.error()),
        Err(failure) => Err(Trouble::Run(failure)),
    }
}

// Opens what is written where it stands: a plain file, whose name is the number of an open one, behind what it has.
fn open_in_place(rt: &HostRuntime, path: &str) -> io::Result<File> {
    let is_plain = fs::metadata(rt, path)?.is_file();
    OpenOptions::new()
        .write(true)
        .append(is_plain)
        .open(rt, path)
}

// Runs to a file beside the place, which goes there when all of it is there.
fn run_beside<R: Read>(
    rt: &HostRuntime,
    options: &Options,
    input: &mut Tally<R>,
    place: &str,
    old: Option<&Metadata>,
) -> Result<Ending, Trouble> {
    let beside = Beside::create(rt, place, old.is_none())?;
    match run_to(rt, options, input, beside.file()) {
        Ok(ending) => {
            beside.replace(rt, place, old)?;
            Ok(ending)
        }
        Err(trouble) => {
            beside.remove(rt);
            Err(trouble)
        }
    }
}

// Runs to standard output, unless that is a terminal and a module would go there.
fn run_to_standard_output<R: Read>(
    rt: &HostRuntime,
    options: &Options,
    input: &mut Tally<R>,
) -> Result<Ending, Trouble> {
    let output = rt.stdout();
    if options.task.writes_module() && output.is_terminal() {
        return Err(Trouble::Terminal);
    }
    run_to(rt, options, input, output)
}

// Runs from that input to where the path leads.
fn run_to_path<R: Read>(
    rt: &HostRuntime,
    options: &Options,
    input: &mut Tally<R>,
    path: &str,
) -> Result<Ending, Trouble> {
    match destination_of(rt, path)? {
        Destination::Standard => run_to_standard_output(rt, options, input),
        Destination::InPlace(place) => {
            let file = open_in_place(rt, place.as_str())?;
            run_to(rt, options, input, file)
        }
        Destination::Old(place, old) => run_beside(rt, options, input, place.as_str(), Some(&old)),
        Destination::New(place) => run_beside(rt, options, input, place.as_str(), None),
    }
}

// Runs from that input to the output that the options name.
fn run_from<R: Read>(
    rt: &HostRuntime,
    options: &Options,
    input: &mut Tally<R>,
) -> Result<Ending, Trouble> {
    match &options.output {
        None => run_to_standard_output(rt, options, input),
        Some(path) => run_to_path(rt, options, input, path.as_str()),
    }
}

/// Runs from the input to the output that the options name, and tells how the run ended.
pub fn run_on_files(rt: &HostRuntime, options: &Options) -> Result<Ending, Trouble> {
    match &options.input {
        None => run_from(rt, options, &mut Tally::new(rt.stdin())),
        Some(path) => match File::open(rt, path.as_str()) {
            Ok(file) => run_from(rt, options, &mut Tally::new(file)),
            Err(error) => Err(Trouble::Input(error)),
        },
    }
}
