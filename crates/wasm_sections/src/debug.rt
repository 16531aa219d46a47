//! Custom sections that say where things stand in the code, and modules without these.
ghost use Rattle.std.specs.Prelude.{◌≡◌, ◌↔◌, ◌⊎◌, IsTrue, length, codes, All, IfOk, OnOk};
ghost use Rattle.wasm_code.specs.Code.{BeginsWith};
ghost use Rattle.wasm_sections.specs.Section.{SpellsModule};
ghost use Rattle.wasm_sections.specs.Laws.{IsWithin};
ghost use Rattle.wasm_sections.specs.Debug.{IsDebugName, NamesPlaces, IsDebug, IsWithoutDebug};
ghost use Rattle.wasm_sections.specs.Reader.{IsPut, ArePut};

use crate::id::SectionId;
use crate::laws::sections_fill_the_module;
use crate::name::name_of;
use crate::section::{PREAMBLE, Section};
use std::alloc::{AllocError, Global};

/// Whether a custom section of that name says where debugging information or a source map is.
fn is_reference_name(name: &[u8]) -> bool
    ensures { IsTrue result
        ↔ ((name.now ≡ codes "sourceMappingURL") ⊎ (name.now ≡ codes "external_debug_info")) }
{
    name == b"sourceMappingURL".as_slice() || name == b"external_debug_info".as_slice()
}

fn begins_with(name: &[u8], front: &[u8]) -> bool
    ensures { IsTrue result ↔ BeginsWith name.now front.now }
{
    name.starts_with(front)
}

/// Whether the name of a custom section is that of debugging information or of code metadata.
fn is_information_name(name: &[u8]) -> bool
    ensures { IsTrue result ↔ (BeginsWith name.now (codes ".debug_")
        ⊎ BeginsWith name.now (codes "metadata.code.")) }
{
    begins_with(name, b".debug_") || begins_with(name, b"metadata.code.")
}

/// Whether a custom section of that name names places in the code, or says where these are named.
fn is_debug_name(name: &[u8]) -> bool
    ensures { IsTrue result ↔ IsDebugName name.now }
{
    is_reference_name(name) || is_information_name(name)
}

/// Whether these contents of a custom section name places in the code, which are others once the module is rewritten.
///
/// They do where the section's name is `sourceMappingURL` or `external_debug_info`, or begins with `.debug_` (WebAssembly tool
/// conventions, Debugging) or with `metadata.code.` (Code Metadata).
pub fn is_debug(contents: &[u8]) -> bool
    ensures { IsTrue result ↔ NamesPlaces contents.now }
{
    match name_of(contents) {
        Some(name) => is_debug_name(name),
        None => false,
    }
}

/// Whether the section of the module is a custom one that names places in the code.
fn is_debug_section(bytes: &[u8], section: Section) -> bool
    requires { IsWithin 8 (length bytes.now) section }
    ensures { IsTrue result ↔ IsDebug bytes.now section }
{
    match section.id {
        SectionId::Custom => is_debug(&bytes[section.contents..section.end]),
        _ => false,
    }
}

/// Appends the section of the module, unless it names places in the code.
fn put_other(out: &mut Vec<u8>, bytes: &[u8], section: Section) -> Result<(), AllocError>
    requires { IsWithin 8 (length bytes.now) section }
    ensures { OnOk result (IsPut bytes.now section out.old.items out.new.items) }
{
    if is_debug_section(bytes, section) {
        return Ok(());
    }
    out.extend_from_slice(&bytes[section.start..section.end])
}

/// Appends those of the module's sections that name no places in the code.
fn put_others(out: &mut Vec<u8>, bytes: &[u8], sections: &[Section]) -> Result<(), AllocError>
    requires { All (IsWithin 8 (length bytes.now)) sections.now }
    ensures { OnOk result (ArePut bytes.now sections.now out.old.items out.new.items) }
{
    for section in sections {
        put_other(out, bytes, *section)?;
    }
    Ok(())
}

/// The module without its custom sections that name places in the code, as `is_debug` has them, since these are others once the
/// module is rewritten. Every other byte stands as it stood, in order, and so a module that has no such section is copied.
///
/// Memory is taken once, as many bytes as the module has. An error says that none was left.
pub fn without_debug(
    alloc: Global,
    bytes: &[u8],
    sections: &[Section],
) -> Result<Vec<u8>, AllocError>
    requires { SpellsModule bytes.now sections.now }
    ensures { IfOk result (λ new. IsWithoutDebug bytes.now sections.now new.items) }
{
    sections_fill_the_module();
    let mut new = Vec::with_capacity(alloc, bytes.len())?;
    new.extend_from_slice(&PREAMBLE)?;
    put_others(&mut new, bytes, sections)?;
    Ok(new)
}
