//! Imports, and the types of functions by their indices.
ghost use Rattle.wasm_code.specs.Number.{SpellsUnsigned, FailsUnsigned};
ghost use Rattle.wasm_code.specs.Reader.{Gives, unsigned_at};
ghost use Rattle.wasm_lists.specs.Imports.{SpellsImport, FailsImport};
ghost use Rattle.wasm_lists.specs.Reader.{skip_at, name_at, external_at, import_at};

use crate::globals::global_type_from;
use crate::import::Import;
use crate::item::Item;
use crate::refusal::Refusal;
use crate::tables::{memory_type_from, table_type_from};
use crate::value_types::past_mark;
use std::alloc::Global;
use wasm_code::{Cause, byte_of, u32_of};

/// What follows so many bytes.
#[tactic(auto, unfolding(crate::specs::Reader::skip_at))]
pub fn past_bytes(count: u32, bytes: &[u8]) -> Result<&[u8], Cause>
    ensures { Gives (λ x. (tt, x.now)) result (skip_at count bytes.now) }
{
    if bytes.len() < count as usize {
        return Err(Cause::Truncated);
    }
    let (_skipped, rest) = bytes.split_at(count as usize);
    Ok(rest)
}

/// What follows a name.
#[tactic(auto, unfolding(crate::specs::Reader::name_at))]
fn past_name(bytes: &[u8]) -> Result<&[u8], Cause>
    ensures { Gives (λ x. (tt, x.now)) result (name_at bytes.now) }
{
    let (count, rest) = u32_of(bytes)?;
    past_bytes(count, rest)
}

/// What is imported, and what follows it.
#[tactic(auto, unfolding(crate::specs::Reader::external_at))]
fn external_from(bytes: &[u8]) -> Result<(Import, &[u8]), Cause>
    ensures { Gives (λ x. (x.0, x.1.now)) result (external_at bytes.now) }
{
    let (b, rest) = byte_of(bytes)?;
    match b {
        0x00 => {
            let (index, rest) = u32_of(rest)?;
            Ok((Import::Function(index), rest))
        }
        0x01 => {
            let (table, rest) = table_type_from(rest)?;
            Ok((Import::Table(table), rest))
        }
        0x02 => {
            let (memory, rest) = memory_type_from(rest)?;
            Ok((Import::Memory(memory), rest))
        }
        0x03 => {
            let (ty, rest) = global_type_from(rest)?;
            Ok((Import::Global(ty), rest))
        }
        0x04 => {
            let rest = past_mark(0x00, rest)?;
            let (index, rest) = u32_of(rest)?;
            Ok((Import::Tag(index), rest))
        }
        _ => Err(Cause::BadImmediate),
    }
}

/// An import, and what follows it.
#[tactic(auto, unfolding(crate::specs::Reader::import_at))]
fn import_from(bytes: &[u8]) -> Result<(Import, &[u8]), Cause>
    ensures { Gives (λ x. (x.0, x.1.now)) result (import_at bytes.now) }
{
    let rest = past_name(bytes)?;
    let rest = past_name(rest)?;
    external_from(rest)
}

/// The imports that an import section lists (WebAssembly Core Specification 3.0, Binary Format, Modules, Import Section).
///
/// Each is two names and a function, a table, a memory, a global or a tag. Neither are names kept, nor is it asked whether they are
/// UTF-8. Their types are those of `TypeGroups`, `Tables` and `Memories`. An import of another kind, and one of a table, a memory or a
/// global whose type isn't among those, is of an unknown form.
pub struct Imports;

impl Item for Imports {
    type Value = Import;

    ghost Spells = { SpellsImport };

    ghost Fails = { FailsImport };

    ghost at = { import_at };

    fn items_are_read() {}

    fn read(_alloc: Global, bytes: &[u8]) -> Result<(Import, &[u8]), Refusal> {
        Ok(import_from(bytes)?)
    }
}

/// The types of functions, by their indices, that a function section lists (WebAssembly Core Specification 3.0, Binary Format,
/// Modules, Function Section).
///
/// Each is a number of 32 bits. Whether there are such types isn't asked. None is of an unknown form.
pub struct Indices;

impl Item for Indices {
    type Value = u32;

    ghost Spells = { SpellsUnsigned 32 };

    ghost Fails = { FailsUnsigned 32 };

    ghost at = { unsigned_at 32 };

    fn items_are_read() {}

    fn read(_alloc: Global, bytes: &[u8]) -> Result<(u32, &[u8]), Refusal> {
        Ok(u32_of(bytes)?)
    }
}
