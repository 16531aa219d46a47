//! The bytes of a module before an offset, with more globals.
ghost use Rattle.std.specs.Prelude.{◌≡◌, ◌≤◌, ◌<◌, ◌^◌, ◌++◌, ℕ, List, length, take, slice_range, Err, IfOk, OnOk};
ghost use Rattle.wasm_code.specs.Number.{SpellsUnsigned};
ghost use Rattle.wasm_sections.specs.declared.id.SectionId.TheVariants as ids;
ghost use Rattle.wasm_sections.specs.Find.{IsFirstWith, LackId};
ghost use Rattle.wasm_sections.specs.Writing.{section_code};
ghost use Rattle.wasm_sections.specs.declared.writing.WriteError.TheVariants.{TooLarge};
ghost use Rattle.wasm_module.specs.Rewritten.{GrowsGlobals, AddsGlobals, IsFront};
ghost use Rattle.wasm_module.specs.Limits.{HasTooManyGlobals};
ghost use Rattle.wasm_module.specs.Room.{globals_with, CountBeginsText, HasRoom};

use crate::contents::contents_of;
use crate::globals::{globals_size, put_globals};
use crate::layout::Layout;
use crate::sizes::{section_size, sum};
use std::alloc::{AllocError, Global};
use wasm_code::u32_of;
use wasm_sections::{
    Section, SectionId, WriteError as SectionError, find_section, place_of, put_head,
};
use wasm_types::PrimitiveTypeInfo;

/// What follows the number that begins the bytes.
pub fn past_count(bytes: &[u8]) -> &[u8]
    requires { (n : ℕ) × CountBeginsText bytes.now n }
    ensures { (count items : List ℕ) (n : ℕ) → bytes.now ≡ count ++ items
        → SpellsUnsigned 32 count n → result.now ≡ items }
{
    match u32_of(bytes) {
        Ok((_count, items)) => items,
        Err(_) => unreachable!(),
    }
}

/// What stands before `from`, and what stands between `past` and `to`.
fn around(bytes: &[u8], from: usize, past: usize, to: usize) -> (&[u8], &[u8])
    requires order { from ≤ past }
    requires before { past ≤ to }
    requires inside { to ≤ length bytes.now }
    ensures before { result.0.now ≡ take from bytes.now }
    ensures after { result.1.now ≡ slice_range bytes.now past to }
{
    (&bytes[..from], &bytes[past..to])
}

/// The bytes, with room for `spare` more.
fn copied(alloc: Global, bytes: &[u8], spare: usize) -> Result<Vec<u8>, AllocError>
    ensures { IfOk result (λ v. v.items ≡ bytes.now) }
{
    let mut copy = Vec::with_capacity(alloc, spare.saturating_add(bytes.len()))?;
    copy.extend_from_slice(bytes)?;
    Ok(copy)
}

/// A global section that has `count` globals, those with the bytes `items` and more, and what stands before and behind it, with room
/// for `spare` bytes more.
fn spliced(
    alloc: Global,
    before: &[u8],
    count: u32,
    items: &[u8],
    more: &[PrimitiveTypeInfo],
    after: &[u8],
    spare: usize,
) -> Result<Vec<u8>, SectionError>
    ensures written { IfOk result (λ v. v.items ≡ before.now
        ++ section_code ids.Global (globals_with count items.now more.now) ++ after.now) }
    ensures sized { OnOk result (length (globals_with count items.now more.now) < 2 ^ 32) }
    ensures too_large { result ≡ Err TooLarge
        → 2 ^ 32 ≤ length (globals_with count items.now more.now) }
{
    let size = globals_size(count, items, more)?;
    let behind = section_size(size) + after.len();
    let mut front = copied(alloc, before, spare.saturating_add(behind))?;
    put_head(&mut front, SectionId::Global, size)?;
    put_globals(&mut front, count, items, more)?;
    front.extend_from_slice(after)?;
    Ok(front)
}

/// The bytes before `to`, with more globals in the global section, and with room for `spare` bytes more.
fn grown(
    alloc: Global,
    bytes: &[u8],
    layout: &Layout,
    section: Section,
    to: usize,
    globals: &[PrimitiveTypeInfo],
    spare: usize,
) -> Result<Vec<u8>, SectionError>
    requires room { HasRoom bytes.now layout.now to }
    requires section { IsFirstWith layout.now.sections ids.Global section }
    ensures written { IfOk result (λ v.
        GrowsGlobals bytes.now layout.now globals.now to v.items) }
    ensures too_large { result ≡ Err TooLarge
        → HasTooManyGlobals bytes.now layout.now globals.now }
{
    let items = past_count(contents_of(bytes, section));
    let count = sum(layout.own_globals, globals.len())?;
    let (before, after) = around(bytes, section.start, section.end, to);
    spliced(alloc, before, count, items, globals, after, spare)
}

/// The same where there is no global section.
fn started(
    alloc: Global,
    bytes: &[u8],
    layout: &Layout,
    to: usize,
    globals: &[PrimitiveTypeInfo],
    spare: usize,
) -> Result<Vec<u8>, SectionError>
    requires room { HasRoom bytes.now layout.now to }
    requires none { LackId layout.now.sections ids.Global }
    ensures written { IfOk result (λ v.
        AddsGlobals bytes.now layout.now globals.now to v.items) }
    ensures too_large { result ≡ Err TooLarge
        → HasTooManyGlobals bytes.now layout.now globals.now }
{
    let place = place_of(&layout.sections, SectionId::Global);
    let count = sum(0, globals.len())?;
    let (before, after) = around(bytes, place, place, to);
    spliced(alloc, before, count, &[], globals, after, spare)
}

/// The bytes of the module before the offset `to`, with more globals, and with room for `spare` bytes more.
pub fn front_with(
    alloc: Global,
    bytes: &[u8],
    layout: &Layout,
    to: usize,
    globals: &[PrimitiveTypeInfo],
    spare: usize,
) -> Result<Vec<u8>, SectionError>
    requires room { HasRoom bytes.now layout.now to }
    ensures written { IfOk result (λ v. IsFront bytes.now layout.now globals.now to v.items) }
    ensures too_large { result ≡ Err TooLarge
        → (0 < length globals.now) × HasTooManyGlobals bytes.now layout.now globals.now }
{
    if globals.is_empty() {
        return Ok(copied(alloc, &bytes[..to], spare)?);
    }
    match find_section(&layout.sections, SectionId::Global) {
        Some(section) => grown(alloc, bytes, layout, section, to, globals, spare),
        None => started(alloc, bytes, layout, to, globals, spare),
    }
}
