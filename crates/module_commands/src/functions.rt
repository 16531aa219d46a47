//! The module that a run reads.
ghost use Rattle.std.specs.Prelude.{◌≡◌, IfOk, IfErr};
ghost use Rattle.module_commands.specs.Failures.{FailsToRead};
ghost use Rattle.wasm_module.specs.Module.{IsModule};

use crate::failure::Failure;
use module_rewrites::{MutationError, Reason};
use std::alloc::Global;
use wasm_module::{Module, read_marked};

/// Reads the module, what runs which is exact or not; `Refused` where it is refused.
pub fn module_of<'a>(alloc: Global, bytes: &'a [u8], exact: bool) -> Result<Module<'a>, Failure>
    ensures read { IfOk result (λ m. IsModule bytes.now m.info m.layout) }
    ensures marked { IfOk result (λ m. m.info.exact ≡ exact) }
    ensures fault { IfErr result (FailsToRead bytes.now) }
{
    match read_marked(alloc, bytes, exact) {
        Ok(module) => Ok(module),
        Err(e) => Err(Failure::Nothing(Reason::Refused(MutationError::Read(e)))),
    }
}
