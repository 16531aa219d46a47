//! Whether threads share a memory of a module, so that what runs it isn't exact.
ghost use Rattle.std.specs.Prelude.{◌≡◌, ◌↔◌, true, IfOk, IfErr, IsTrue, OnOk};
ghost use Rattle.module_commands.specs.Failures.{FailsToBeExact, SharesMemory, is_any_shared};
ghost use Rattle.module_commands.specs.declared.failure.Failure.TheVariants.{Memory};

use crate::failure::Failure;
use std::alloc::Global;
use wasm_module::{ModuleFault, read_marked};
use wasm_types::MemoryType;

// Whether threads share one of the memories.
fn is_any_shared(memories: &[MemoryType]) -> bool
    ensures { result ≡ is_any_shared memories.now }
{
    memories.iter().any(|memory| memory.shared)
}

// Whether they share one of the module's; bytes that are no module have none.
fn shares_memory(alloc: Global, bytes: &[u8]) -> Result<bool, Failure>
    ensures shares { IfOk result (λ b. IsTrue b ↔ SharesMemory bytes.now) }
    ensures memory { IfErr result (λ e. e ≡ Memory) }
{
    match read_marked(alloc, bytes, true) {
        Ok(module) => Ok(is_any_shared(&module.info.memory_types)),
        Err(e) => match e.kind {
            ModuleFault::Memory => Err(Failure::Memory),
            _ => Ok(false),
        },
    }
}

/// Refuses a module of which threads share a memory, where what runs it is to be exact: another thread may write what a load reads.
pub fn check_exact(alloc: Global, exact: bool, bytes: &[u8]) -> Result<(), Failure>
    ensures alone { exact ≡ true → OnOk result (¬ (SharesMemory bytes.now)) }
    ensures asked { IfErr result (λ e. exact ≡ true) }
    ensures fails { IfErr result (FailsToBeExact bytes.now) }
{
    if !exact {
        return Ok(());
    }
    if shares_memory(alloc, bytes)? {
        return Err(Failure::SharedMemory);
    }
    Ok(())
}
