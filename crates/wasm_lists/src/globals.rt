//! Globals.
ghost use Rattle.wasm_code.specs.Reader.{Gives};
ghost use Rattle.wasm_lists.specs.Globals.{SpellsGlobal, FailsGlobal};
ghost use Rattle.wasm_lists.specs.Reader.{global_type_at, global_at};

use crate::constants::past_initialiser;
use crate::item::Item;
use crate::refusal::Refusal;
use crate::value_types::{mutable_from, primitive_from};
use std::alloc::Global;
use wasm_code::Cause;
use wasm_code::laws::parts_are_read;
use wasm_types::PrimitiveTypeInfo;

/// A global type, and what follows it.
#[tactic(auto, unfolding(crate::specs::Reader::global_type_at))]
pub fn global_type_from(bytes: &[u8]) -> Result<(PrimitiveTypeInfo, &[u8]), Cause>
    ensures { Gives (λ x. (x.0, x.1.now)) result (global_type_at bytes.now) }
{
    let (ty, rest) = primitive_from(bytes)?;
    let (_mutable, rest) = mutable_from(rest)?;
    Ok((ty, rest))
}

/// The type of a global, and what follows its initialiser.
#[tactic(auto, unfolding(crate::specs::Reader::global_at))]
fn global_from(bytes: &[u8]) -> Result<(PrimitiveTypeInfo, &[u8]), Cause>
    ensures { Gives (λ x. (x.0, x.1.now)) result (global_at bytes.now) }
{
    let (ty, rest) = global_type_from(bytes)?;
    let rest = past_initialiser(rest)?;
    Ok((ty, rest))
}

/// The globals that a global section lists (WebAssembly Core Specification 3.0, Binary Format, Modules, Global Section).
///
/// Each is a global type and operators up to the first `end`, since a constant expression holds no block. Of each the type of its value is kept.
/// The operators' types aren't checked, and neither is kept whether a global may be written. Value types are those of `TypeGroups`, and
/// operators those of function bodies, `ref.null` of every heap type, and those that make structures, arrays and i31 references or turn
/// outer references into inner ones and back. Other value types, another byte than 0 or 1 behind one, and an operator's whole immediate
/// that names nothing are an unknown form, an operator that isn't among those an unknown opcode.
pub struct Globals;

impl Item for Globals {
    type Value = PrimitiveTypeInfo;

    ghost Spells = { SpellsGlobal };

    ghost Fails = { FailsGlobal };

    ghost at = { global_at };

    fn items_are_read() {
        parts_are_read();
    }

    fn read(_alloc: Global, bytes: &[u8]) -> Result<(PrimitiveTypeInfo, &[u8]), Refusal> {
        Ok(global_from(bytes)?)
    }
}
