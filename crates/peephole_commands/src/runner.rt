//! Answers an input line by line.

ghost use Rattle.std.specs.Prelude.{◌≡◌, ◌≢◌, ◌≤◌, false, IfOk, OnOk, OnErr, IsErrOf, IfSome, IsTrue, length, Ok, Err};
ghost use Rattle.std.specs.Io.KnownBytes.{Appends, Keeps, IsAtEnd};
ghost use Rattle.peephole_script.specs.Faults.{ConsumesMore};
ghost use Rattle.peephole_commands.specs.Answer.{WritesCommandAnswers, fault_line};

use crate::session::Session;
use device_tally::Tally;
use itoa::Buffer;
use peephole_script::{Fault, LIMIT, RunError, cut_line, read_input};
use std::alloc::Global;
use std::io::{Read, Write};

/// Writes the report of a faulty line, and takes no memory.
fn report<W: Write>(output: &mut Tally<W>, number: u64, fault: Fault) -> Result<(), RunError>
    requires { output.old.failed ≡ false }
    ensures ok { OnOk result
        (Appends (W.contents output.old.device) (W.contents output.new.device)
        (fault_line number fault)) }
    ensures err { OnErr result (result ≡ Err RunError.Output) }
    ensures failed { OnErr result (IsTrue output.new.failed) }
{
    let mut buffer = Buffer::new();
    let digits = buffer.format(number);
    write(output, b"line ")?;
    write(output, digits.as_bytes())?;
    write(output, b": ")?;
    write(output, fault.name().as_bytes())?;
    write(output, b"\n")
}

fn write<W: Write>(output: &mut Tally<W>, bytes: &[u8]) -> Result<(), RunError>
    requires { output.old.failed ≡ false }
    ensures ok { OnOk result
        (Appends (W.contents output.old.device) (W.contents output.new.device) bytes.now) }
    ensures sound { OnOk result (output.new.failed ≡ false) }
    ensures err { OnErr result (result ≡ Err RunError.Output) }
    ensures failed { OnErr result (IsTrue output.new.failed) }
{
    match output.write_all(bytes) {
        Ok(()) => Ok(()),
        Err(_) => Err(RunError::Output),
    }
}

fn answer_input<W: Write>(
    alloc: Global,
    input: &[u8],
    output: &mut Tally<W>,
) -> Result<bool, RunError>
    requires short { length input.now ≤ LIMIT }
    requires sound { output.old.failed ≡ false }
    ensures ok { IfOk result
        (WritesCommandAnswers input.now (W.contents output.old.device)
        (W.contents output.new.device)) }
    ensures err { OnErr result (result ≡ Err RunError.Output) }
    ensures failed { OnErr result (IsTrue output.new.failed) }
{
    let mut session = Session::new(alloc);
    let mut number: u64 = 0;
    let mut rest = input;
    'lines: while !rest.is_empty() {
        let (line, more) = cut_line(rest);
        rest = more;
        number += 1;
        match session.run_line(line) {
            Ok(text) => write(output, text.as_slice())?,
            Err(fault) => {
                report(output, number, fault)?;
                return Ok(false);
            }
        }
    }
    Ok(true)
}

/// Reads all of the input, and then runs its lines.
pub fn run<R: Read, W: Write>(
    alloc: Global,
    input: &mut Tally<R>,
    output: &mut Tally<W>,
) -> Result<bool, RunError>
    requires input_sound { input.old.failed ≡ false }
    requires output_sound { output.old.failed ≡ false }
    ensures answer { IfOk result (λ ok. IfSome (R.remaining input.old.device) (λ bytes.
        WritesCommandAnswers bytes (W.contents output.old.device)
        (W.contents output.new.device) ok)) }
    ensures end { OnOk result (IsAtEnd (R.remaining input.new.device)) }
    ensures short { OnOk result
        (IfSome (R.remaining input.old.device) (λ bytes. length bytes ≤ LIMIT)) }
    ensures quiet { OnErr result ((result ≢ Err RunError.Output)
        → Keeps (W.contents output.old.device) (W.contents output.new.device)) }
    ensures too_long { IsErrOf result RunError.TooLong
        → ConsumesMore (R.remaining input.old.device) (R.remaining input.new.device) LIMIT }
    ensures input_failed { IsErrOf result RunError.Input → IsTrue input.new.failed }
    ensures output_failed { IsErrOf result RunError.Output → IsTrue output.new.failed }
{
    let bytes = read_input(alloc, input)?;
    answer_input(alloc, bytes.as_slice(), output)
}
