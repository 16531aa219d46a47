//! Modules as sections, and the names of functions.

use crate::inputs::{Text, field, unreadable};
use case_files::bytes_of;
use hex::encode;
use std::alloc::Global;
use wasm_sections::{
    SectionId, find_section, function_name, is_debug, place_of, put_section, read_sections,
    without_debug,
};

/// Answers calls on a module, on the contents of a custom section, and on a module that a section is added to.
pub fn answer(alloc: Global, fields: &[&str]) -> Text {
    let (call, second) = (field(fields, 0), field(fields, 2));
    let mut bytes = bytes_of(alloc, field(fields, 1))?;
    match call {
        "is_debug" => format!(in alloc; "{}", is_debug(&bytes)),
        "put_section" => {
            let contents = bytes_of(alloc, field(fields, 3))?;
            let Some(id) = id_of(second) else {
                return unreadable(alloc);
            };
            match put_section(&mut bytes, id, &contents) {
                Ok(()) => encode(alloc, &bytes),
                Err(error) => format!(in alloc; "{error}"),
            }
        }
        _ => read(alloc, call, &bytes, second),
    }
}

/// The id that a byte means, which is written in decimal digits.
fn id_of(text: &str) -> Option<SectionId> {
    SectionId::from_byte(text.parse::<u8>().ok()?)
}

/// The sections of a module, what is left of it without those that name places in the code, the names of its first functions, or
/// the section with that id and where it would be, among all and among all but the first.
fn read(alloc: Global, call: &str, bytes: &[u8], id: &str) -> Text {
    let sections = match read_sections(alloc, bytes) {
        Ok(sections) => sections,
        Err(error) => return format!(in alloc; "{error}"),
    };
    match (call, id_of(id)) {
        ("read_sections", _) => format!(in alloc; "{sections:?}"),
        ("without_debug", _) => encode(alloc, &without_debug(alloc, bytes, &sections)?),
        ("function_name", _) => {
            let first = function_name(bytes, &sections, 0).unwrap_or("-");
            let second = function_name(bytes, &sections, 1).unwrap_or("-");
            let third = function_name(bytes, &sections, 2).unwrap_or("-");
            format!(in alloc; "{first} {second} {third}")
        }
        ("find_section", Some(id)) => { format!(in alloc; "{:?}", find_section(&sections, id)) }
        ("place_of", Some(id)) => {
            let further = sections.get(1..).unwrap_or(&[]);
            format!(in alloc; "{} {}", place_of(&sections, id), place_of(further, id))
        }
        _ => unreadable(alloc),
    }
}
