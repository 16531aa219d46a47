//! What a module imports, by its kind, and behind it what it has of its own.
ghost use Rattle.std.specs.Prelude.{◌≡◌, IfOk};
ghost use Rattle.wasm_module.specs.Module.{functions_of, tables_of, memories_of, globals_of};

use std::alloc::{AllocError, Global};
use wasm_lists::Import;
use wasm_types::{MemoryType, PrimitiveTypeInfo, TableType};

/// Of each imported function the index of its type.
pub fn imported_functions(alloc: Global, imports: &[Import]) -> Result<Vec<u32>, AllocError>
    ensures { IfOk result (λ all. all.items ≡ functions_of imports.now) }
{
    let mut all = Vec::new(alloc);
    for import in imports {
        if let Import::Function(place) = import {
            all.push(*place)?;
        }
    }
    Ok(all)
}

/// The imported tables.
pub fn imported_tables(alloc: Global, imports: &[Import]) -> Result<Vec<TableType>, AllocError>
    ensures { IfOk result (λ all. all.items ≡ tables_of imports.now) }
{
    let mut all = Vec::new(alloc);
    for import in imports {
        if let Import::Table(table) = import {
            all.push(*table)?;
        }
    }
    Ok(all)
}

/// The imported memories.
pub fn imported_memories(alloc: Global, imports: &[Import]) -> Result<Vec<MemoryType>, AllocError>
    ensures { IfOk result (λ all. all.items ≡ memories_of imports.now) }
{
    let mut all = Vec::new(alloc);
    for import in imports {
        if let Import::Memory(memory) = import {
            all.push(*memory)?;
        }
    }
    Ok(all)
}

/// The types of the imported globals.
pub fn imported_globals(
    alloc: Global,
    imports: &[Import],
) -> Result<Vec<PrimitiveTypeInfo>, AllocError>
    ensures { IfOk result (λ all. all.items ≡ globals_of imports.now) }
{
    let mut all = Vec::new(alloc);
    for import in imports {
        if let Import::Global(tpe) = import {
            all.push(*tpe)?;
        }
    }
    Ok(all)
}
