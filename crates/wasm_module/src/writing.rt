//! A module with another body and more globals.
ghost use Rattle.std.specs.Prelude.{◌≡◌, ◌↔◌, ◌≤◌, ◌<◌, ◌^◌, ◌++◌, ℕ, List, length, drop, Contains, Err, IfOk, IfErr, OnOk};
ghost use Rattle.wasm_types.specs.Module.{Module};
ghost use Rattle.wasm_types.specs.declared.types.PrimitiveTypeInfo.TheVariants.{Empty};
ghost use Rattle.wasm_module.specs.declared.refusal.WriteError.TheVariants.{EmptyType, TooLarge};
ghost use Rattle.wasm_module.specs.Module.{IsModule};
ghost use Rattle.wasm_module.specs.Rewritten.{code_section_with, IsRewritten};
ghost use Rattle.wasm_module.specs.Limits.{IsTooLarge};
ghost use Rattle.wasm_module.specs.Room.{IsEntryOf, IsCodePlace, size_with};

use crate::front::front_with;
use crate::globals::has_empty;
use crate::layout::Layout;
use crate::refusal::WriteError;
use crate::sizes::{number_size, section_size, sum};
use std::alloc::{AllocError, Global};
use wasm_code::put_unsigned;
use wasm_lists::Entry;
use wasm_sections::laws::sections_fill_the_module;
use wasm_sections::{Section, SectionId, WriteError as SectionError, find_section, put_head};
use wasm_types::PrimitiveTypeInfo;

/// How many bytes the code section contains where the entry's contents have so many.
fn code_size(code: Section, entry: Entry, size: u32) -> Result<u32, SectionError>
    requires first { code.contents ≤ entry.start }
    requires order { entry.start ≤ entry.end }
    requires last { entry.end ≤ code.end }
    ensures ok { IfOk result (λ n. n ≡ size_with code entry size) }
    ensures too_large { IfErr result (λ _. 2 ^ 32 ≤ size_with code entry size) }
{
    let kept = (code.end - code.contents) - (entry.end - entry.start);
    sum(kept, number_size(size) + size as usize)
}

/// Appends what the code section contains, with `locals` and `expression` behind one another as the contents of the entry, which
/// have that size, and what stands behind the section.
fn put_code(
    out: &mut Vec<u8>,
    bytes: &[u8],
    code: Section,
    entry: Entry,
    size: u32,
    locals: &[u8],
    expression: &[u8],
) -> Result<(), AllocError>
    requires placed { IsEntryOf bytes.now code.contents entry.start entry.end code.end }
    requires sized { size ≡ length (locals.now ++ expression.now) }
    ensures { OnOk result (out.new.items ≡ out.old.items
        ++ (code_section_with bytes.now code entry (locals.now ++ expression.now)
        ++ drop code.end bytes.now)) }
{
    out.extend_from_slice(&bytes[code.contents..entry.start])?;
    put_unsigned(out, size as u64)?;
    out.extend_from_slice(locals)?;
    out.extend_from_slice(expression)?;
    out.extend_from_slice(&bytes[entry.end..code.end])?;
    out.extend_from_slice(&bytes[code.end..])
}

/// The code section, and the n-th of its entries.
pub fn code_place(layout: &Layout, n: usize) -> (Section, Entry)
    requires module { (bytes : List ℕ) × (info : Module) × IsModule bytes info layout.now }
    requires inside { n < length layout.now.entries }
    ensures { (bytes : List ℕ) (info : Module) → IsModule bytes info layout.now
        → IsCodePlace bytes layout.now n result.0 result.1 }
{
    sections_fill_the_module();
    match find_section(&layout.sections, SectionId::Code) {
        Some(code) => (code, layout.entries[n]),
        None => unreachable!(),
    }
}

/// The module with `locals` and `expression` behind one another as the contents of its n-th code entry (n from 0), and with
/// globals of the types appended to its own, each of which may be written and starts as zero, or null.
///
/// The sizes of the entry, of the code section and of the global section, and the number of the globals, are written in as few
/// bytes as will do. Where there is no global section, one is written where the standard has it; where no globals are given, none
/// is. Every other byte stands as it stood: custom sections, and the order of all. The sizes are computed first, so that memory is
/// taken once, as many bytes as the new module has, and each byte is written once.
///
/// `EmptyType` where `Empty` is among the types, which is no type of a global; `TooLarge` where 32 bits don't hold one of those sizes
/// or the number; `Memory` where no memory was left.
pub fn with_body(
    alloc: Global,
    bytes: &[u8],
    layout: &Layout,
    n: usize,
    locals: &[u8],
    expression: &[u8],
    globals: &[PrimitiveTypeInfo],
) -> Result<Vec<u8>, WriteError>
    requires module { (info : Module) × IsModule bytes.now info layout.now }
    requires inside { n < length layout.now.entries }
    ensures written { IfOk result (λ new. IsRewritten
        bytes.now layout.now n (locals.now ++ expression.now) globals.now new.items) }
    ensures empty { (result ≡ Err EmptyType) ↔ Contains globals.now Empty }
    ensures too_large { result ≡ Err TooLarge → IsTooLarge
        bytes.now layout.now n (locals.now ++ expression.now) globals.now }
{
    if has_empty(globals) {
        return Err(WriteError::EmptyType);
    }
    let (code, entry) = code_place(layout, n);
    let size = sum(locals.len(), expression.len())?;
    let whole = code_size(code, entry, size)?;
    let behind = section_size(whole) + (bytes.len() - code.end);
    let mut new = front_with(alloc, bytes, layout, code.start, globals, behind)?;
    put_head(&mut new, SectionId::Code, whole)?;
    put_code(&mut new, bytes, code, entry, size, locals, expression)?;
    Ok(new)
}
