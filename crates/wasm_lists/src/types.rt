//! The types that a module declares.
ghost use Rattle.std.specs.Prelude.{◌≡◌};
ghost use Rattle.wasm_code.specs.Reader.{Gives, times_at, unsigned_at};
ghost use Rattle.wasm_lists.specs.Reader.{AnswersUnlessMemory, storage_type_at, field_at, counted_at, signature_at, composite_type_at, sub_type_at, type_group_at};
ghost use Rattle.wasm_lists.specs.Types.{is_packed, is_sub, SpellsSubType, FailsSubType, SpellsTypeGroup, FailsTypeGroup};

use crate::constants::past_indices;
use crate::item::Item;
use crate::list::list_of;
use crate::refusal::Refusal;
use crate::type_group::TypeGroup;
use crate::value_types::{ValueTypes, mutable_from, primitive_from};
use std::alloc::Global;
use wasm_code::{Cause, byte_of, u32_of};
use wasm_types::{FuncInfo, TypeInfo};

/// The byte that begins a group.
const GROUP: u8 = 0x4e;

/// The byte that begins a function's type.
const FUNCTION: u8 = 0x60;

/// The byte that begins a structure.
const STRUCTURE: u8 = 0x5f;

/// The byte that begins an array.
const ARRAY: u8 = 0x5e;

/// Whether the byte is that of i16 or i8.
fn is_packed(b: u8) -> bool
    ensures { result ≡ is_packed b }
{
    b == 0x77 || b == 0x78
}

/// What follows the type of what is stored.
#[tactic(auto, unfolding(crate::specs::Reader::storage_type_at))]
fn past_storage_type(bytes: &[u8]) -> Result<&[u8], Cause>
    ensures { Gives (λ x. (tt, x.now)) result (storage_type_at bytes.now) }
{
    let (b, rest) = byte_of(bytes)?;
    if is_packed(b) {
        return Ok(rest);
    }
    let (_stored, rest) = primitive_from(bytes)?;
    Ok(rest)
}

/// What follows a field.
#[tactic(auto, unfolding(crate::specs::Reader::field_at))]
fn past_field(bytes: &[u8]) -> Result<&[u8], Cause>
    ensures { Gives (λ x. (tt, x.now)) result (field_at bytes.now) }
{
    let rest = past_storage_type(bytes)?;
    let (_mutable, rest) = mutable_from(rest)?;
    Ok(rest)
}

/// What follows so many fields.
fn past_fields(count: u32, bytes: &[u8]) -> Result<&[u8], Cause>
    ensures { Gives (λ x. (tt, x.now)) result (times_at count field_at bytes.now) }
{
    let mut rest = bytes;
    for _ in 0..count {
        match past_field(rest) {
            Ok(after) => rest = after,
            Err(e) => return Err(e),
        }
    }
    Ok(rest)
}

/// What follows a structure's fields.
#[tactic(auto, unfolding(crate::specs::Reader::counted_at))]
fn past_structure(bytes: &[u8]) -> Result<&[u8], Cause>
    ensures { Gives (λ x. (tt, x.now)) result (counted_at field_at bytes.now) }
{
    let (count, rest) = u32_of(bytes)?;
    past_fields(count, rest)
}

/// What follows the indices of the types that a type is a subtype of.
#[tactic(auto, unfolding(crate::specs::Reader::counted_at))]
fn past_supertypes(bytes: &[u8]) -> Result<&[u8], Cause>
    ensures { Gives (λ x. (tt, x.now)) result (counted_at (unsigned_at 32) bytes.now) }
{
    let (count, rest) = u32_of(bytes)?;
    past_indices(count, rest)
}

/// A function's type behind its byte, and what follows it.
#[tactic(auto, unfolding(crate::specs::Reader::signature_at))]
fn signature_from(alloc: Global, bytes: &[u8]) -> Result<(TypeInfo, &[u8]), Refusal>
    ensures { AnswersUnlessMemory (λ x. (x.0, x.1.now)) result (signature_at bytes.now) }
{
    let (params, rest) = list_of::<ValueTypes>(alloc, bytes)?;
    let (returns, rest) = list_of::<ValueTypes>(alloc, rest)?;
    Ok((TypeInfo::Func(FuncInfo { params, returns }), rest))
}

/// A composite type, and what follows it.
#[tactic(auto, unfolding(crate::specs::Reader::composite_type_at))]
fn composite_type_from(alloc: Global, bytes: &[u8]) -> Result<(TypeInfo, &[u8]), Refusal>
    ensures { AnswersUnlessMemory (λ x. (x.0, x.1.now)) result (composite_type_at bytes.now) }
{
    let (b, rest) = byte_of(bytes)?;
    if b == FUNCTION {
        signature_from(alloc, rest)
    } else if b == STRUCTURE {
        let rest = past_structure(rest)?;
        Ok((TypeInfo::Other, rest))
    } else if b == ARRAY {
        let rest = past_field(rest)?;
        Ok((TypeInfo::Other, rest))
    } else {
        Err(Refusal::Bytes(Cause::BadImmediate))
    }
}

/// Whether the byte begins a subtype with the types that it is of.
fn is_sub(b: u8) -> bool
    ensures { result ≡ is_sub b }
{
    b == 0x4f || b == 0x50
}

/// A subtype, and what follows it.
#[tactic(auto, unfolding(crate::specs::Reader::sub_type_at))]
fn sub_type_from(alloc: Global, bytes: &[u8]) -> Result<(TypeInfo, &[u8]), Refusal>
    ensures { AnswersUnlessMemory (λ x. (x.0, x.1.now)) result (sub_type_at bytes.now) }
{
    let (b, rest) = byte_of(bytes)?;
    if is_sub(b) {
        let rest = past_supertypes(rest)?;
        composite_type_from(alloc, rest)
    } else {
        composite_type_from(alloc, bytes)
    }
}

/// Subtypes.
struct SubTypes;

impl Item for SubTypes {
    type Value = TypeInfo;

    ghost Spells = { SpellsSubType };

    ghost Fails = { FailsSubType };

    ghost at = { sub_type_at };

    fn items_are_read() {}

    fn read(alloc: Global, bytes: &[u8]) -> Result<(TypeInfo, &[u8]), Refusal> {
        Ok(sub_type_from(alloc, bytes)?)
    }
}

/// A group of types, and what follows it.
#[tactic(auto, unfolding(crate::specs::Reader::type_group_at))]
fn type_group_from(alloc: Global, bytes: &[u8]) -> Result<(TypeGroup, &[u8]), Refusal>
    ensures { AnswersUnlessMemory (λ x. (x.0, x.1.now)) result (type_group_at bytes.now) }
{
    let (b, rest) = byte_of(bytes)?;
    if b == GROUP {
        let (types, rest) = list_of::<SubTypes>(alloc, rest)?;
        Ok((TypeGroup::many(types), rest))
    } else {
        let (tpe, rest) = sub_type_from(alloc, bytes)?;
        Ok((TypeGroup::one(alloc, tpe), rest))
    }
}

/// The groups of types that a type section lists (WebAssembly Core Specification 3.0, Binary Format, Modules, Type Section).
///
/// Each is a recursive group or one type alone: a function's, of which parameters and results are kept, or a structure's or an array's,
/// of which nothing is (`TypeInfo::Other`), with or without the types that it is a subtype of. Value types are numbers, vectors, and
/// references of every heap type, abstract or by index; each reference is kept as `Empty`, and whether there is a type with the index
/// isn't asked. Everything else is of an unknown form, such as shared heap types, continuations, and what describes other types.
pub struct TypeGroups;

impl Item for TypeGroups {
    type Value = TypeGroup;

    ghost Spells = { SpellsTypeGroup };

    ghost Fails = { FailsTypeGroup };

    ghost at = { type_group_at };

    fn items_are_read() {}

    fn read(alloc: Global, bytes: &[u8]) -> Result<(TypeGroup, &[u8]), Refusal> {
        Ok(type_group_from(alloc, bytes)?)
    }
}
