//! What is known of a module, and modules with another body of a function.

use crate::inputs::{Text, field, types_of, unreadable};
use case_files::bytes_of;
use hex::encode;
use std::alloc::Global;
use wasm_module::{Module, read_module, with_body};
use wasm_sections::ModuleFault;

/// Answers what is known of a module, whether bytes are one, and the module with another body.
pub fn answer(alloc: Global, fields: &[&str]) -> Text {
    let bytes = bytes_of(alloc, field(fields, 1))?;
    match field(fields, 0) {
        "read_module" => told(alloc, &bytes),
        "is_module" => match read_module(alloc, &bytes) {
            Ok(_) => format!(in alloc; "true"),
            Err(error) if error.kind == ModuleFault::Memory => format!(in alloc; "Memory"),
            Err(_) => format!(in alloc; "false"),
        },
        "with_body" => changed(alloc, &bytes, fields),
        _ => unreadable(alloc),
    }
}

/// What bytes declare as a module, or why they are none: how many types there are, of each function the type, the types of the globals,
/// tables and memories, the imported ones first; then how many functions are imported, how many globals the module's own section has, the
/// entries and how many sections there are; then what isn't known.
fn told(alloc: Global, bytes: &[u8]) -> Text {
    let Module { info, layout, .. } = match read_module(alloc, bytes) {
        Ok(module) => module,
        Err(error) => return format!(in alloc; "{error}"),
    };
    let (types, functions, memories) = (info.types_map.len(), info.function_map, info.memory_types);
    let (globals, tables) = (info.global_types, info.table_types);
    let text = format!(in alloc; "{types} {functions:?} {globals:?} {tables:?} {memories:?}")?;
    let (imported, own) = (layout.imported_functions, layout.own_globals);
    let (entries, sections, unknown) = (layout.entries, layout.sections.len(), layout.unknown);
    format!(in alloc; "{text} | {imported} {own} {entries:?} {sections} | {unknown:?}")
}

/// The module with other locals and another expression of one of its own functions, and with new globals, or why it isn't written.
fn changed(alloc: Global, bytes: &[u8], fields: &[&str]) -> Text {
    let locals = bytes_of(alloc, field(fields, 3))?;
    let expression = bytes_of(alloc, field(fields, 4))?;
    let globals = types_of(alloc, field(fields, 5))?;
    let Ok(n) = field(fields, 2).parse::<usize>() else {
        return unreadable(alloc);
    };
    let module = match read_module(alloc, bytes) {
        Ok(module) => module,
        Err(error) => return format!(in alloc; "{error}"),
    };
    let layout = &module.layout;
    if n >= layout.entries.len() {
        return unreadable(alloc);
    }
    match with_body(alloc, bytes, layout, n, &locals, &expression, &globals) {
        Ok(new) => encode(alloc, &new),
        Err(error) => format!(in alloc; "{error:?}"),
    }
}
