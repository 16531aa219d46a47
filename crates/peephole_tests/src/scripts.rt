//! Scripts, as `peephole_run` reads them, and devices that fail.

ghost use Rattle.std.specs.Prelude.{◌≡◌, false};

use crate::parts::{Refusal, spread};
use device_tally::Tally;
use failing_devices::{FailingReader, FailingWriter};
use peephole_commands::run;
use std::alloc::{AllocError, Global};
use std::io::{Read, Write};

// How a run ends, and which device has failed.
fn end_of<R: Read, W: Write>(
    alloc: Global,
    input: &mut Tally<R>,
    output: &mut Tally<W>,
) -> Result<String, AllocError>
    requires input_sound { input.old.failed ≡ false }
    requires output_sound { output.old.failed ≡ false }
{
    let end = run(alloc, input, output);
    let mut text = format!(in alloc; "{end:?}")?;
    if input.failed() {
        text.push_str(", the input failed")?;
    }
    if output.failed() {
        text.push_str(", the output failed")?;
    }
    Ok(text)
}

// How the run of a script ends, and what it writes. In the script ` ; ` and `\n` stand for the end of a line, `\r` for a return.
fn of_script(alloc: Global, script: &str) -> Result<String, Refusal> {
    let lines = script.replace(alloc, " ; ", "\n")?;
    let lines = lines.replace(alloc, "\\n", "\n")?;
    let lines = lines.replace(alloc, "\\r", "\r")?;
    let lines = spread(alloc, &lines)?;
    let mut input = Tally::new(lines.as_bytes());
    let mut output = Tally::new(Vec::new(alloc));
    let mut text = end_of(alloc, &mut input, &mut output)?;
    let written = output.into_inner();
    match str::from_utf8(&written) {
        Ok(written) => {
            text.push('\n')?;
            text.push_str(written)?;
            Ok(text)
        }
        Err(_) => Err(Refusal::Unreadable),
    }
}

// How a run ends whose reader fails after two lines. What it wrote before would fail too.
fn of_reader(alloc: Global) -> Result<String, Refusal> {
    let mut input = Tally::new(FailingReader::new(b"body 0b\nat 0\n"));
    let mut output = Tally::new(FailingWriter::refusing(0));
    Ok(end_of(alloc, &mut input, &mut output)?)
}

// How a run ends whose writer fails.
fn of_writer(alloc: Global, writer: FailingWriter) -> Result<String, Refusal> {
    let mut input = Tally::new(b"body 0b\nat 0\n".as_slice());
    let mut output = Tally::new(writer);
    Ok(end_of(alloc, &mut input, &mut output)?)
}

/// What the run of a script answers, or one with a device that fails.
pub fn answered(alloc: Global, call: &str, script: &str) -> Result<String, Refusal> {
    match call {
        "failing_reader" => of_reader(alloc),
        "refusing_writer" => of_writer(alloc, FailingWriter::refusing(0)),
        "idle_writer" => of_writer(alloc, FailingWriter::taking_none()),
        _ => of_script(alloc, script),
    }
}
