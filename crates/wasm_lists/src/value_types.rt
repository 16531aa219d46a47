//! Heap types, reference types and value types.
ghost use Rattle.std.specs.Prelude.{◌≡◌};
ghost use Rattle.wasm_code.specs.Reader.{Gives};
ghost use Rattle.wasm_lists.specs.ValueReader.{mark_at, index_at, heap_type_or_index_at, reference_type_at, primitive_at, mutable_of, mutable_at};
ghost use Rattle.wasm_lists.specs.ValueTypes.{is_abstract, is_plain, plain_type, SpellsPrimitive, FailsPrimitive};

use crate::item::Item;
use crate::refusal::Refusal;
use std::alloc::Global;
use wasm_code::{Cause, byte_of, u32_of};
use wasm_types::PrimitiveTypeInfo;

/// A number whose last byte is of this size or more is negative where it is read as signed.
const NEGATIVE: u8 = 64;

/// What follows that byte.
#[tactic(auto, unfolding(crate::specs::ValueReader::mark_at))]
pub fn past_mark(mark: u8, bytes: &[u8]) -> Result<&[u8], Cause>
    ensures { Gives (λ x. (tt, x.now)) result (mark_at mark bytes.now) }
{
    let (b, rest) = byte_of(bytes)?;
    if b == mark {
        Ok(rest)
    } else {
        Err(Cause::BadImmediate)
    }
}

/// The index of a type, and what follows it.
#[tactic(auto, unfolding(crate::specs::ValueReader::index_at))]
fn index_from(bytes: &[u8]) -> Result<(u32, &[u8]), Cause>
    ensures { Gives (λ x. (x.0, x.1.now)) result (index_at bytes.now) }
{
    let (index, rest) = u32_of(bytes)?;
    if bytes[bytes.len() - rest.len() - 1] >= NEGATIVE {
        return Err(Cause::BadImmediate);
    }
    Ok((index, rest))
}

fn is_abstract(b: u8) -> bool
    ensures { result ≡ is_abstract b }
{
    0x69 <= b && b <= 0x74
}

/// What follows a heap type.
#[tactic(auto, unfolding(crate::specs::ValueReader::heap_type_or_index_at))]
pub fn past_heap_type(bytes: &[u8]) -> Result<&[u8], Cause>
    ensures { Gives (λ x. (tt, x.now)) result (heap_type_or_index_at bytes.now) }
{
    let (b, rest) = byte_of(bytes)?;
    if is_abstract(b) {
        return Ok(rest);
    }
    let (_index, rest) = index_from(bytes)?;
    Ok(rest)
}

/// What follows a reference type.
#[tactic(auto, unfolding(crate::specs::ValueReader::reference_type_at))]
pub fn past_reference_type(bytes: &[u8]) -> Result<&[u8], Cause>
    ensures { Gives (λ x. (tt, x.now)) result (reference_type_at bytes.now) }
{
    let (b, rest) = byte_of(bytes)?;
    if b == 0x63 {
        past_heap_type(rest)
    } else if b == 0x64 {
        past_heap_type(rest)
    } else if is_abstract(b) {
        Ok(rest)
    } else {
        Err(Cause::BadImmediate)
    }
}

fn is_plain(b: u8) -> bool
    ensures { result ≡ is_plain b }
{
    0x7b <= b && b <= 0x7f
}

/// The type of numbers or of vectors with this byte.
fn plain_type(b: u8) -> PrimitiveTypeInfo
    ensures { result ≡ plain_type b }
{
    match b {
        0x7f => PrimitiveTypeInfo::I32,
        0x7e => PrimitiveTypeInfo::I64,
        0x7d => PrimitiveTypeInfo::F32,
        0x7c => PrimitiveTypeInfo::F64,
        _ => PrimitiveTypeInfo::V128,
    }
}

/// A value type, and what follows it; `Empty` for references of any type.
#[tactic(auto, unfolding(crate::specs::ValueReader::primitive_at))]
pub fn primitive_from(bytes: &[u8]) -> Result<(PrimitiveTypeInfo, &[u8]), Cause>
    ensures { Gives (λ x. (x.0, x.1.now)) result (primitive_at bytes.now) }
{
    let (b, rest) = byte_of(bytes)?;
    if is_plain(b) {
        return Ok((plain_type(b), rest));
    }
    let rest = past_reference_type(bytes)?;
    Ok((PrimitiveTypeInfo::Empty, rest))
}

/// Value types.
pub struct ValueTypes;

impl Item for ValueTypes {
    type Value = PrimitiveTypeInfo;

    ghost Spells = { SpellsPrimitive };

    ghost Fails = { FailsPrimitive };

    ghost at = { primitive_at };

    fn items_are_read() {}

    fn read(_alloc: Global, bytes: &[u8]) -> Result<(PrimitiveTypeInfo, &[u8]), Refusal> {
        Ok(primitive_from(bytes)?)
    }
}

/// Whether a global, or a field, may be written.
fn mutable(b: u8) -> Option<bool>
    ensures { result ≡ mutable_of b }
{
    match b {
        0x00 => Some(false),
        0x01 => Some(true),
        _ => None,
    }
}

/// Whether a global, or a field, may be written, and what follows that.
#[tactic(auto, unfolding(crate::specs::ValueReader::mutable_at))]
pub fn mutable_from(bytes: &[u8]) -> Result<(bool, &[u8]), Cause>
    ensures { Gives (λ x. (x.0, x.1.now)) result (mutable_at bytes.now) }
{
    let (b, rest) = byte_of(bytes)?;
    match mutable(b) {
        Some(found) => Ok((found, rest)),
        None => Err(Cause::BadImmediate),
    }
}
