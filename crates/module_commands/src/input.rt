//! Reads the whole input.
ghost use Rattle.std.specs.Prelude.{◌≡◌, ◌≤◌, length, IfOk, IfErr, IsErrOf, IsTrue, OnOk};
ghost use Rattle.module_commands.specs.Failures.{FailsToTake};
ghost use Rattle.std.specs.Io.KnownBytes.{Consumes, IsAtEnd};

use crate::failure::Failure;
use device_tally::Tally;
use std::alloc::Global;
use std::io::Read;

/// The most bytes that an input may have: 1 GiB.
pub const LIMIT: usize = 1_073_741_824;

/// All bytes of the input, up to its end. `TooLong` past [`LIMIT`] bytes, `Input` where the reader fails, `Memory` for want of
/// memory.
pub fn read_input<R: Read>(alloc: Global, input: &mut Tally<R>) -> Result<Vec<u8>, Failure>
    ensures bytes { IfOk result (λ text. Consumes (R.remaining input.old.device)
        (R.remaining input.new.device) text.items) }
    ensures end { OnOk result (IsAtEnd (R.remaining input.new.device)) }
    ensures length { IfOk result (λ text. length text.items ≤ LIMIT) }
    ensures fails { IfErr result (FailsToTake (R.remaining input.old.device)) }
    // `Input` only where a read failed; with the bytes, none did.
    ensures input { IsErrOf result Failure.Input → IsTrue input.new.failed }
    ensures sound { OnOk result (input.new.failed ≡ input.old.failed) }
{
    let mut text = Vec::new(alloc);
    let mut piece = [0u8; 8192];
    'reads: loop {
        let Ok(n) = input.read(&mut piece) else {
            return Err(Failure::Input);
        };
        if n == 0 {
            return Ok(text);
        }
        if n > LIMIT - text.len() {
            return Err(Failure::TooLong);
        }
        if text.extend_from_slice(&piece[..n]).is_err() {
            return Err(Failure::Memory);
        }
    }
}
