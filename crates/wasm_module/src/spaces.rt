//! The index spaces of a module: its types, group by group; and of all else what it imports first, and then what it has of its own.
ghost use Rattle.std.specs.Prelude.{◌≡◌, ◌↔◌, length, None, IfOk, IsTrue};
ghost use Rattle.wasm_lists.specs.Types.{types_in};
ghost use Rattle.wasm_module.specs.Lists.{unknown_in};
ghost use Rattle.wasm_module.specs.Module.{functions_of, tables_of, memories_of, globals_of, space};

use crate::imports::{imported_functions, imported_globals, imported_memories, imported_tables};
use crate::listed::Listed;
use crate::unknown::Unknown;
use std::alloc::{AllocError, Global};
use wasm_lists::{Import, Known, TypeGroup};
use wasm_types::{MemoryType, PrimitiveTypeInfo, TableType, TypeInfo};

/// Whether every import is of a form that is known, so that the indices behind them are.
fn are_known(imports: &Known<Import>) -> bool
    ensures { IsTrue result ↔ (imports.now.unknown ≡ None) }
{
    imports.unknown.is_none()
}

/// The types, one group behind another.
pub fn type_space(alloc: Global, groups: Vec<TypeGroup>) -> Result<Vec<TypeInfo>, AllocError>
    ensures { IfOk result (λ all. all.items ≡ types_in groups.items) }
{
    let mut all = Vec::with_capacity(alloc, groups.len())?;
    for group in groups {
        group.append_to(&mut all)?;
    }
    Ok(all)
}

/// Of each function the index of its type, and how many functions are imported.
pub fn function_space(alloc: Global, listed: &Listed) -> Result<(Vec<u32>, usize), AllocError>
    ensures all { IfOk result (λ x. x.0.items ≡ space (functions_of listed.now.imports.items)
        listed.now.imports.unknown listed.now.functions) }
    ensures imported { IfOk result (λ x. x.1 ≡ length (functions_of listed.now.imports.items)) }
{
    let imports = &listed.imports;
    let mut all = imported_functions(alloc, &imports.items)?;
    let imported = all.len();
    if are_known(imports) {
        all.extend_from_slice(&listed.functions)?;
    }
    Ok((all, imported))
}

/// The tables.
pub fn table_space(alloc: Global, listed: &Listed) -> Result<Vec<TableType>, AllocError>
    ensures { IfOk result (λ all. all.items ≡ space (tables_of listed.now.imports.items)
        listed.now.imports.unknown listed.now.tables.items) }
{
    let imports = &listed.imports;
    let own = &listed.tables;
    let mut all = imported_tables(alloc, &imports.items)?;
    if are_known(imports) {
        all.extend_from_slice(&own.items)?;
    }
    Ok(all)
}

/// The memories.
pub fn memory_space(alloc: Global, listed: &Listed) -> Result<Vec<MemoryType>, AllocError>
    ensures { IfOk result (λ all. all.items ≡ space (memories_of listed.now.imports.items)
        listed.now.imports.unknown listed.now.memories.items) }
{
    let imports = &listed.imports;
    let own = &listed.memories;
    let mut all = imported_memories(alloc, &imports.items)?;
    if are_known(imports) {
        all.extend_from_slice(&own.items)?;
    }
    Ok(all)
}

/// The types of the globals.
pub fn global_space(alloc: Global, listed: &Listed) -> Result<Vec<PrimitiveTypeInfo>, AllocError>
    ensures { IfOk result (λ all. all.items ≡ space (globals_of listed.now.imports.items)
        listed.now.imports.unknown listed.now.globals.items) }
{
    let imports = &listed.imports;
    let own = &listed.globals;
    let mut all = imported_globals(alloc, &imports.items)?;
    if are_known(imports) {
        all.extend_from_slice(&own.items)?;
    }
    Ok(all)
}

/// How many globals the module has of its own.
pub fn global_count(listed: &Listed) -> usize
    ensures { result ≡ listed.now.globals.count }
{
    let globals = &listed.globals;
    globals.count as usize
}

/// What isn't known of the lists.
pub fn unknown_of(listed: &Listed) -> Unknown
    ensures { result ≡ unknown_in listed.now }
{
    Unknown {
        types: listed.types.unknown,
        imports: listed.imports.unknown,
        tables: listed.tables.unknown,
        memories: listed.memories.unknown,
        globals: listed.globals.unknown,
    }
}
