//! What sections list.

use crate::inputs::{Text, field, unreadable};
use case_files::bytes_of;
use std::alloc::Global;
use std::fmt::Debug;
use wasm_lists::{
    Globals, Imports, Indices, Known, Memories, Tables, TypeGroup, TypeGroups, read_entries,
    read_known, read_list, read_locals,
};
use wasm_sections::ModuleError;
use wasm_types::PrimitiveTypeInfo;

/// What comes before the locals.
const PARAMETERS: [PrimitiveTypeInfo; 1] = [PrimitiveTypeInfo::I32];

/// Answers what is read of a list that begins at an offset, or of the locals after a parameter of the type i32.
pub fn answer(alloc: Global, fields: &[&str]) -> Text {
    let contents = bytes_of(alloc, field(fields, 2))?;
    let Ok(start) = field(fields, 1).parse::<u16>() else {
        return unreadable(alloc);
    };
    let start = usize::from(start);
    match field(fields, 0) {
        "types" => shown_types(alloc, read_known::<TypeGroups>(alloc, &contents, start)),
        "imports" => shown_items(alloc, read_known::<Imports>(alloc, &contents, start)),
        "memories" => shown_items(alloc, read_known::<Memories>(alloc, &contents, start)),
        "tables" => shown_items(alloc, read_known::<Tables>(alloc, &contents, start)),
        "globals" => shown_items(alloc, read_known::<Globals>(alloc, &contents, start)),
        "entries" => shown(alloc, read_entries(alloc, &contents, start)),
        "functions" => shown(alloc, read_list::<Indices>(alloc, &contents, start)),
        "locals" => shown(alloc, read_locals(alloc, &PARAMETERS, &contents, start)),
        "count of locals" => {
            let locals = read_locals(alloc, &PARAMETERS, &contents, start);
            shown(alloc, locals.map(|locals| locals.types.len()))
        }
        _ => unreadable(alloc),
    }
}

/// What is read, or why nothing is.
fn shown<T: Debug + Drop>(alloc: Global, answer: Result<T, ModuleError>) -> Text {
    match answer {
        Ok(found) => format!(in alloc; "{found:?}"),
        Err(error) => format!(in alloc; "{error}"),
    }
}

/// The items, or how many are known of how many, and where and why the next one isn't.
fn shown_items<T: Debug + Drop>(alloc: Global, answer: Result<Known<T>, ModuleError>) -> Text {
    let known = match answer {
        Ok(known) => known,
        Err(error) => return format!(in alloc; "{error}"),
    };
    let (count, found) = (known.count, known.items.len());
    match known.unknown {
        Some(error) => format!(in alloc; "{found} of {count}, then {error}"),
        None if usize::try_from(count) == Ok(found) => shown(alloc, Ok(known.items)),
        None => format!(in alloc; "{found} of {count}"),
    }
}

/// The types, one group after another, or how many groups are known of how many, and where and why the next one isn't.
fn shown_types(alloc: Global, answer: Result<Known<TypeGroup>, ModuleError>) -> Text {
    let known = match answer {
        Ok(known) if known.unknown.is_none() => known,
        other => return shown_items(alloc, other),
    };
    let mut types = Vec::new(alloc);
    for group in known.into_items() {
        group.append_to(&mut types)?;
    }
    shown(alloc, Ok(types))
}
