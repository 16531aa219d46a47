//! Limits, tables and memories.
ghost use Rattle.std.specs.Prelude.{◌≡◌};
ghost use Rattle.wasm_code.specs.Reader.{Gives};
ghost use Rattle.wasm_lists.specs.Reader.{flag_of, flag_at, limits_at, table_type_at, table_at, memory_type_at};
ghost use Rattle.wasm_lists.specs.Tables.{SpellsTable, FailsTable, SpellsMemoryType, FailsMemoryType};

use crate::constants::past_initialiser;
use crate::item::Item;
use crate::refusal::Refusal;
use crate::value_types::{past_mark, past_reference_type};
use std::alloc::Global;
use wasm_code::laws::parts_are_read;
use wasm_code::{Cause, byte_of, u64_of};
use wasm_types::{ElementType, MemoryType, TableType};

/// Whether 64 bits index, and, where a maximum follows the minimum, whether the limits are shared.
fn flag(b: u8) -> Option<(bool, Option<bool>)>
    ensures { result ≡ flag_of b }
{
    match b {
        0x00 => Some((false, None)),
        0x01 => Some((false, Some(false))),
        0x03 => Some((false, Some(true))),
        0x04 => Some((true, None)),
        0x05 => Some((true, Some(false))),
        0x07 => Some((true, Some(true))),
        _ => None,
    }
}

#[tactic(auto, unfolding(crate::specs::Reader::flag_at))]
fn flag_from(bytes: &[u8]) -> Result<((bool, Option<bool>), &[u8]), Cause>
    ensures { Gives (λ x. (x.0, x.1.now)) result (flag_at bytes.now) }
{
    let (b, rest) = byte_of(bytes)?;
    match flag(b) {
        Some(found) => Ok((found, rest)),
        None => Err(Cause::BadImmediate),
    }
}

/// Whether 64 bits index and whether what has the limits is shared, as they say, and what follows them.
#[tactic(auto, unfolding(crate::specs::Reader::limits_at, wasm_code::specs::Reader::times_at))]
fn limits_from(bytes: &[u8]) -> Result<((bool, bool), &[u8]), Cause>
    ensures { Gives (λ x. (x.0, x.1.now)) result (limits_at bytes.now) }
{
    let ((wide, maximum), rest) = flag_from(bytes)?;
    let (_minimum, rest) = u64_of(rest)?;
    let Some(shared) = maximum else {
        return Ok(((wide, false), rest));
    };
    let (_maximum, rest) = u64_of(rest)?;
    Ok(((wide, shared), rest))
}

/// A table type, and what follows it.
#[tactic(auto, unfolding(crate::specs::Reader::table_type_at))]
pub fn table_type_from(bytes: &[u8]) -> Result<(TableType, &[u8]), Cause>
    ensures { Gives (λ x. (x.0, x.1.now)) result (table_type_at bytes.now) }
{
    let rest = past_reference_type(bytes)?;
    let ((table64, _shared), rest) = limits_from(rest)?;
    Ok((
        TableType {
            element_type: ElementType::Other,
            table64,
        },
        rest,
    ))
}

/// The byte that begins a table with an initialiser.
const WITH_INITIALISER: u8 = 0x40;

/// A table, and what follows it.
#[tactic(auto, unfolding(crate::specs::Reader::table_at))]
fn table_from(bytes: &[u8]) -> Result<(TableType, &[u8]), Cause>
    ensures { Gives (λ x. (x.0, x.1.now)) result (table_at bytes.now) }
{
    let (b, rest) = byte_of(bytes)?;
    if b == WITH_INITIALISER {
        let rest = past_mark(0x00, rest)?;
        let (ty, rest) = table_type_from(rest)?;
        let rest = past_initialiser(rest)?;
        Ok((ty, rest))
    } else {
        table_type_from(bytes)
    }
}

/// A memory type, and what follows it.
#[tactic(auto, unfolding(crate::specs::Reader::memory_type_at))]
pub fn memory_type_from(bytes: &[u8]) -> Result<(MemoryType, &[u8]), Cause>
    ensures { Gives (λ x. (x.0, x.1.now)) result (memory_type_at bytes.now) }
{
    let ((memory64, shared), rest) = limits_from(bytes)?;
    Ok((MemoryType { memory64, shared }, rest))
}

/// The tables that a table section lists (WebAssembly Core Specification 3.0, Binary Format, Modules, Table Section).
///
/// Each is a table type, with or without an initialiser. Neither the limits nor the initialiser are kept, nor what its references
/// refer to (they are all `ElementType::Other`). Reference types are those of `TypeGroups`, and
/// operators of initialisers those of `Globals`. Tables of others or of other limits are of an unknown form.
pub struct Tables;

impl Item for Tables {
    type Value = TableType;

    ghost Spells = { SpellsTable };

    ghost Fails = { FailsTable };

    ghost at = { table_at };

    fn items_are_read() {
        parts_are_read();
    }

    fn read(_alloc: Global, bytes: &[u8]) -> Result<(TableType, &[u8]), Refusal> {
        Ok(table_from(bytes)?)
    }
}

/// The memories that a memory section lists (WebAssembly Core Specification 3.0, Binary Format, Modules, Memory Section).
///
/// Each is a memory type, shared ones of the threads proposal among them, which it tells. The bounds aren't kept. Memories of other limits are of an
/// unknown form.
pub struct Memories;

impl Item for Memories {
    type Value = MemoryType;

    ghost Spells = { SpellsMemoryType };

    ghost Fails = { FailsMemoryType };

    ghost at = { memory_type_at };

    fn items_are_read() {}

    fn read(_alloc: Global, bytes: &[u8]) -> Result<(MemoryType, &[u8]), Refusal> {
        Ok(memory_type_from(bytes)?)
    }
}
