//! How a run with a success ends.
ghost use Rattle.std.specs.Prelude.{◌≡◌};
ghost use Rattle.module_commands.specs.Ending.{ending_of, is_memory};

use module_rewrites::MutationError;
use wasm_module::{ModuleFault, WriteError};

/// How a run with a success ends.
#[derive(Clone, Copy, Debug, PartialEq, Eq)]
pub enum Ending {
    /// With all that was asked for, or as much of it as there is.
    Whole,
    /// With fewer rewrites, since no memory was left for more.
    OutOfMemory,
}

// Whether memory was wanting.
fn is_memory(error: &MutationError) -> bool
    ensures { result ≡ is_memory error.now }
{
    match error {
        MutationError::Read(e) => match e.kind {
            ModuleFault::Memory => true,
            _ => false,
        },
        MutationError::Memory => true,
        MutationError::Write(WriteError::Memory) => true,
        _ => false,
    }
}

/// How a run ends whose rewrites stopped so.
pub fn ending_of(stopped: &Option<MutationError>) -> Ending
    ensures { result ≡ ending_of stopped.now }
{
    match stopped {
        None => Ending::Whole,
        Some(error) => {
            if is_memory(error) {
                Ending::OutOfMemory
            } else {
                Ending::Whole
            }
        }
    }
}
