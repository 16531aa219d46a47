//! Names of functions.
ghost use Rattle.std.specs.Prelude.{◌≡◌, ℕ, List, IfSome, MatchOption};
ghost use Rattle.wasm_sections.specs.Section.{SpellsModule};
ghost use Rattle.wasm_sections.specs.Names.{HasSubsection, HasName, ListsName, NamesFunction};

use crate::custom::name_section;
use crate::name_reading::{naming_of, subsection_of};
use crate::section::Section;
use wasm_code::u32_of;

/// The id of the subsection that has the names of functions.
const FUNCTIONS: u8 = 1;

/// The contents of the first subsection that has the id.
fn subsection_with(subsections: &[u8], id: u8) -> Option<&[u8]>
    ensures found { IfSome result (λ contents. HasSubsection subsections.now id contents.now) }
    ensures only { (contents : List ℕ) → HasSubsection subsections.now id contents
        → MatchOption result ⊥ (λ found. found.now ≡ contents) }
{
    let mut rest = subsections;
    while let Ok((found, contents, behind)) = subsection_of(rest) {
        if found == id {
            return Some(contents);
        }
        rest = behind;
    }
    None
}

/// The first name for the index, among so many.
fn name_among(count: u32, bytes: &[u8], index: u32) -> Option<&str>
    ensures found { IfSome result (λ name. HasName index count bytes.now name.now) }
    ensures only { (name : List ℕ) → HasName index count bytes.now name
        → MatchOption result ⊥ (λ found. found.now ≡ name) }
{
    let mut rest = bytes;
    for _ in 0..count {
        match naming_of(rest) {
            Ok((function, name, behind)) => {
                if function == index {
                    return Some(name);
                }
                rest = behind;
            }
            Err(_) => return None,
        }
    }
    None
}

/// The first name for the index, in a list of names.
fn listed_name(contents: &[u8], index: u32) -> Option<&str>
    ensures found { IfSome result (λ name. ListsName index contents.now name.now) }
    ensures only { (name : List ℕ) → ListsName index contents.now name
        → MatchOption result ⊥ (λ found. found.now ≡ name) }
{
    match u32_of(contents) {
        Ok((count, rest)) => name_among(count, rest, index),
        Err(_) => None,
    }
}

/// The name of the function with the index, as the name section of the module has it (WebAssembly Core Specification 3.0,
/// Appendix, Custom Sections, Name Section); the sections are those of the module.
///
/// The name is looked for in the first custom section `name`, there in the first subsection with names of functions, and there
/// it is the first name for the index. Where one of these isn't there, or is malformed up to the end of the name, the function
/// has no name: a custom section makes no module malformed. What stands behind the name isn't read.
pub fn function_name<'a>(bytes: &'a [u8], sections: &[Section], index: u32) -> Option<&'a str>
    requires { SpellsModule bytes.now sections.now }
    // What is found is the function's name.
    ensures found { IfSome result (λ name.
        NamesFunction bytes.now sections.now index name.now) }
    // A name that the function has is found.
    ensures only { (name : List ℕ) → NamesFunction bytes.now sections.now index name
        → MatchOption result ⊥ (λ found. found.now ≡ name) }
{
    let subsections = name_section(bytes, sections)?;
    let contents = subsection_with(subsections, FUNCTIONS)?;
    listed_name(contents, index)
}
