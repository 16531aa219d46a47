//! The function that was rewritten, in a module.
ghost use Rattle.std.specs.Prelude.{IfOk, IfSome};
ghost use Rattle.wasm_module.specs.Module.{IsModule};

use crate::error::ShowError;
use module_rewrites::{FunctionBody, read_function};
use std::alloc::Global;
use wasm_module::{Layout, Module, ModuleFault, read_marked};
use wasm_types::ModuleInfo;

/// The module; none where the bytes are none. Rewrites on exact rows are shown too, whatever runs it.
pub(crate) fn module_of<'a>(alloc: Global, bytes: &'a [u8]) -> Result<Option<Module<'a>>, ShowError>
    ensures { IfOk result (λ o. IfSome o (λ m. IsModule bytes.now m.info m.layout)) }
{
    match read_marked(alloc, bytes, true) {
        Ok(module) => Ok(Some(module)),
        Err(e) => {
            if e.kind == ModuleFault::Memory {
                return Err(ShowError::Memory);
            }
            Ok(None)
        }
    }
}

/// The function with the index; none where the module has none of its own with it, or it can't be read.
pub(crate) fn function_of(
    alloc: Global,
    bytes: &[u8],
    info: &ModuleInfo<'_>,
    layout: &Layout,
    index: usize,
) -> Result<Option<FunctionBody>, ShowError>
    requires { IsModule bytes.now info.now layout.now }
{
    let imported = layout.imported_functions;
    if index < imported {
        return Ok(None);
    }
    let n = index - imported;
    if n >= layout.entries.len() {
        return Ok(None);
    }
    match read_function(alloc, bytes, info, layout, n) {
        Ok(function) => Ok(Some(function)),
        Err(e) => {
            if e.is_memory() {
                return Err(ShowError::Memory);
            }
            Ok(None)
        }
    }
}
