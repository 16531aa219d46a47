//! Reads the whole input.

ghost use Rattle.std.specs.Prelude.{◌≡◌, ◌≢◌, length, false, ◌≤◌, ◌<◌, IfOk, OnOk, IsErrOf, IsTrue};
ghost use Rattle.std.specs.Io.KnownBytes.{Consumes, IsAtEnd};
ghost use Rattle.peephole_script.specs.Faults.{ConsumesMore};

use crate::fault::RunError;
use device_tally::Tally;
use std::alloc::Global;
use std::io::Read;

/// The most bytes that an input may have.
pub const LIMIT: usize = 16_777_216;

/// All bytes of the input, up to its end; `TooLong` past [`LIMIT`] bytes, `Input` where the reader fails, `Memory` for want of
/// memory.
///
/// Condition: no call on the input has failed.
pub fn read_input<R: Read>(alloc: Global, input: &mut Tally<R>) -> Result<Vec<u8>, RunError>
    requires { input.old.failed ≡ false }
    ensures bytes { IfOk result (λ text. Consumes (R.remaining input.old.device)
        (R.remaining input.new.device) text.items) }
    ensures end { OnOk result (IsAtEnd (R.remaining input.new.device)) }
    ensures length { IfOk result (λ text. length text.items ≤ LIMIT) }
    ensures too_long { IsErrOf result RunError.TooLong
        → ConsumesMore (R.remaining input.old.device) (R.remaining input.new.device) LIMIT }
    ensures input { IsErrOf result RunError.Input → IsTrue input.new.failed }
    ensures not_output { result ≢ Err RunError.Output }
{
    let mut text = Vec::new(alloc);
    let mut piece = [0u8; 8192];
    'reads: loop {
        let Ok(n) = input.read(&mut piece) else {
            return Err(RunError::Input);
        };
        if n == 0 {
            return Ok(text);
        }
        if n > LIMIT - text.len() {
            return Err(RunError::TooLong);
        }
        if text.extend_from_slice(&piece[..n]).is_err() {
            return Err(RunError::Memory);
        }
    }
}
