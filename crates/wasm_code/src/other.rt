//! Operators of the standard that are neither instructions of the table nor control operators of `Operator`: their
//! opcodes, and what stands behind these, of which nothing is kept.
ghost use Rattle.std.specs.Prelude.{◌≡◌};
ghost use Rattle.wasm_code.specs.Other.{is_abstract, is_type, is_reference_type_byte, is_catching_byte, byte_shape, fb_shape, fe_shape, shape_of};
ghost use Rattle.wasm_code.specs.declared.other.Other.TheVariants as others;
ghost use Rattle.wasm_code.specs.Reader.{Gives, times_at, type_index_at, any_heap_type_at, any_val_type_at, any_block_type_at, any_types_at, catch_at, catches_at, cast_at, zero_at, shape_at, other_opcode_at, other_at};

use crate::fault::Cause;
use crate::number::{i33_of, u32_of};
use crate::reading::{byte_of, memarg_of, pair_of};

/// The opcode of such an operator.
#[derive(Clone, Copy, Debug, PartialEq, Eq)]
pub enum Other {
    /// One byte.
    Byte(u8),
    /// The byte FB and this number.
    Fb(u32),
    /// The byte FE and this number.
    Fe(u32),
}

/// What stands behind the opcode of such an operator.
#[derive(Clone, Copy, Debug, PartialEq, Eq)]
pub enum Shape {
    /// Nothing.
    Nothing,
    /// An index, or a label.
    Index,
    /// Two indexes, or an index and a number.
    Pair,
    /// A place in a memory.
    Mem,
    /// The byte 0.
    Zero,
    /// A heap type.
    Heap,
    /// How many value types, and these.
    Types,
    /// The type of a block.
    Block,
    /// The type of a block, and its catch clauses.
    Catches,
    /// A byte of flags, a label and two heap types.
    Cast,
}

/// Whether the byte is an abstract heap type.
fn is_abstract_byte(b: u8) -> bool
    ensures { result ≡ is_abstract b }
{
    if b < 0x69 { false } else { b < 0x75 }
}

/// Whether the byte is a value type.
fn is_type_byte(b: u8) -> bool
    ensures { result ≡ is_type b }
{
    if b < 0x69 {
        false
    } else if b < 0x75 {
        true
    } else if b < 0x7b {
        false
    } else {
        b < 0x80
    }
}

/// Whether the byte begins a reference type whose heap type follows.
fn is_reference_byte(b: u8) -> bool
    ensures { result ≡ is_reference_type_byte b }
{
    if b == 0x63 { true } else { b == 0x64 }
}

/// What follows the index of a type.
#[tactic(auto, unfolding(crate::specs::Reader::type_index_at))]
fn past_type_index(bytes: &[u8]) -> Result<&[u8], Cause>
    ensures { Gives (λ x. (tt, x.now)) result (type_index_at bytes.now) }
{
    let (n, rest) = i33_of(bytes)?;
    if n < 0 {
        Err(Cause::BadImmediate)
    } else {
        Ok(rest)
    }
}

/// What follows a heap type.
#[tactic(auto, unfolding(crate::specs::Reader::any_heap_type_at))]
fn past_heap_type(bytes: &[u8]) -> Result<&[u8], Cause>
    ensures { Gives (λ x. (tt, x.now)) result (any_heap_type_at bytes.now) }
{
    let (b, rest) = byte_of(bytes)?;
    if is_abstract_byte(b) {
        Ok(rest)
    } else {
        past_type_index(bytes)
    }
}

/// What follows a value type.
#[tactic(auto, unfolding(crate::specs::Reader::any_val_type_at))]
fn past_val_type(bytes: &[u8]) -> Result<&[u8], Cause>
    ensures { Gives (λ x. (tt, x.now)) result (any_val_type_at bytes.now) }
{
    let (b, rest) = byte_of(bytes)?;
    if is_type_byte(b) {
        Ok(rest)
    } else if is_reference_byte(b) {
        past_heap_type(rest)
    } else {
        Err(Cause::BadImmediate)
    }
}

/// What follows a block type.
#[tactic(auto, unfolding(crate::specs::Reader::any_block_type_at))]
fn past_block_type(bytes: &[u8]) -> Result<&[u8], Cause>
    ensures { Gives (λ x. (tt, x.now)) result (any_block_type_at bytes.now) }
{
    let (b, rest) = byte_of(bytes)?;
    if b == 0x40 {
        Ok(rest)
    } else if is_type_byte(b) {
        Ok(rest)
    } else if is_reference_byte(b) {
        past_heap_type(rest)
    } else {
        past_type_index(bytes)
    }
}

/// What follows so many value types.
fn past_val_types(count: u32, bytes: &[u8]) -> Result<&[u8], Cause>
    ensures { Gives (λ x. (tt, x.now)) result (times_at count any_val_type_at bytes.now) }
{
    let mut rest = bytes;
    for _ in 0..count {
        match past_val_type(rest) {
            Ok(after) => rest = after,
            Err(e) => return Err(e),
        }
    }
    Ok(rest)
}

/// What follows a count and as many value types.
#[tactic(auto, unfolding(crate::specs::Reader::any_types_at))]
fn past_counted_types(bytes: &[u8]) -> Result<&[u8], Cause>
    ensures { Gives (λ x. (tt, x.now)) result (any_types_at bytes.now) }
{
    let (count, rest) = u32_of(bytes)?;
    past_val_types(count, rest)
}

/// What follows a catch clause.
#[tactic(auto, unfolding(crate::specs::Reader::catch_at))]
fn past_catch(bytes: &[u8]) -> Result<&[u8], Cause>
    ensures { Gives (λ x. (tt, x.now)) result (catch_at bytes.now) }
{
    let (b, rest) = byte_of(bytes)?;
    if b < 2 {
        let (_, rest) = pair_of(rest)?;
        Ok(rest)
    } else if b < 4 {
        let (_, rest) = u32_of(rest)?;
        Ok(rest)
    } else {
        Err(Cause::BadImmediate)
    }
}

/// What follows so many catch clauses.
fn past_catches(count: u32, bytes: &[u8]) -> Result<&[u8], Cause>
    ensures { Gives (λ x. (tt, x.now)) result (times_at count catch_at bytes.now) }
{
    let mut rest = bytes;
    for _ in 0..count {
        match past_catch(rest) {
            Ok(after) => rest = after,
            Err(e) => return Err(e),
        }
    }
    Ok(rest)
}

/// What follows a block type and its catch clauses.
#[tactic(auto, unfolding(crate::specs::Reader::catches_at))]
fn past_counted_catches(bytes: &[u8]) -> Result<&[u8], Cause>
    ensures { Gives (λ x. (tt, x.now)) result (catches_at bytes.now) }
{
    let rest = past_block_type(bytes)?;
    let (count, rest) = u32_of(rest)?;
    past_catches(count, rest)
}

/// What follows the flags, the label and the two heap types of a cast that branches.
#[tactic(auto, unfolding(crate::specs::Reader::cast_at))]
fn past_cast(bytes: &[u8]) -> Result<&[u8], Cause>
    ensures { Gives (λ x. (tt, x.now)) result (cast_at bytes.now) }
{
    let (b, rest) = byte_of(bytes)?;
    if b < 4 {
        let (_, rest) = u32_of(rest)?;
        let rest = past_heap_type(rest)?;
        past_heap_type(rest)
    } else {
        Err(Cause::BadImmediate)
    }
}

/// What follows the byte 0.
#[tactic(auto, unfolding(crate::specs::Reader::zero_at))]
fn past_zero(bytes: &[u8]) -> Result<&[u8], Cause>
    ensures { Gives (λ x. (tt, x.now)) result (zero_at bytes.now) }
{
    let (b, rest) = byte_of(bytes)?;
    if b == 0 {
        Ok(rest)
    } else {
        Err(Cause::BadImmediate)
    }
}

/// What follows that.
#[tactic(auto, unfolding(crate::specs::Reader::shape_at))]
fn past_shape(shape: Shape, bytes: &[u8]) -> Result<&[u8], Cause>
    ensures { Gives (λ x. (tt, x.now)) result (shape_at shape bytes.now) }
{
    match shape {
        Shape::Nothing => Ok(bytes),
        Shape::Index => {
            let (_, rest) = u32_of(bytes)?;
            Ok(rest)
        }
        Shape::Pair => {
            let (_, rest) = pair_of(bytes)?;
            Ok(rest)
        }
        Shape::Mem => {
            let (_, rest) = memarg_of(bytes)?;
            Ok(rest)
        }
        Shape::Zero => past_zero(bytes),
        Shape::Heap => past_heap_type(bytes),
        Shape::Types => past_counted_types(bytes),
        Shape::Block => past_block_type(bytes),
        Shape::Catches => past_counted_catches(bytes),
        Shape::Cast => past_cast(bytes),
    }
}

fn byte_shape_of(b: u8) -> Option<Shape>
    ensures { result ≡ byte_shape b }
{
    match b {
        0x02 => Some(Shape::Block),
        0x03 => Some(Shape::Block),
        0x04 => Some(Shape::Block),
        0x06 => Some(Shape::Block),
        0x07 => Some(Shape::Index),
        0x08 => Some(Shape::Index),
        0x09 => Some(Shape::Index),
        0x0a => Some(Shape::Nothing),
        0x12 => Some(Shape::Index),
        0x13 => Some(Shape::Pair),
        0x14 => Some(Shape::Index),
        0x15 => Some(Shape::Index),
        0x18 => Some(Shape::Index),
        0x19 => Some(Shape::Nothing),
        0x1c => Some(Shape::Types),
        0x1f => Some(Shape::Catches),
        0xd0 => Some(Shape::Heap),
        0xd3 => Some(Shape::Nothing),
        0xd4 => Some(Shape::Nothing),
        0xd5 => Some(Shape::Index),
        0xd6 => Some(Shape::Index),
        _ => None,
    }
}

fn fb_shape_of(n: u32) -> Option<Shape>
    ensures { result ≡ fb_shape n }
{
    if n < 2 {
        Some(Shape::Index)
    } else if n < 6 {
        Some(Shape::Pair)
    } else if n < 8 {
        Some(Shape::Index)
    } else if n < 11 {
        Some(Shape::Pair)
    } else if n < 15 {
        Some(Shape::Index)
    } else if n < 16 {
        Some(Shape::Nothing)
    } else if n < 17 {
        Some(Shape::Index)
    } else if n < 20 {
        Some(Shape::Pair)
    } else if n < 24 {
        Some(Shape::Heap)
    } else if n < 26 {
        Some(Shape::Cast)
    } else if n < 31 {
        Some(Shape::Nothing)
    } else {
        None
    }
}

fn fe_shape_of(n: u32) -> Option<Shape>
    ensures { result ≡ fe_shape n }
{
    if n < 3 {
        Some(Shape::Mem)
    } else if n < 4 {
        Some(Shape::Zero)
    } else if n < 16 {
        None
    } else if n < 79 {
        Some(Shape::Mem)
    } else {
        None
    }
}

/// Whether the opcode is that of an operator that catches exceptions, or stands where one has been caught.
fn is_catching(b: u8) -> bool
    ensures { result ≡ is_catching_byte b }
{
    if b == 0x06 {
        true
    } else if b == 0x07 {
        true
    } else if b == 0x09 {
        true
    } else if b == 0x18 {
        true
    } else if b == 0x19 {
        true
    } else {
        b == 0x1f
    }
}

fn plain_shape_of(b: u8) -> Option<Shape>
    ensures { result ≡ shape_of (others.Byte b) }
{
    if is_catching(b) {
        None
    } else {
        byte_shape_of(b)
    }
}

fn shape_by(opcode: Other) -> Option<Shape>
    ensures { result ≡ shape_of opcode }
{
    match opcode {
        Other::Byte(b) => plain_shape_of(b),
        Other::Fb(n) => fb_shape_of(n),
        Other::Fe(n) => fe_shape_of(n),
    }
}

#[tactic(auto, unfolding(crate::specs::Reader::other_opcode_at))]
fn other_opcode_from(bytes: &[u8]) -> Result<(Other, &[u8]), Cause>
    ensures { Gives (λ x. (x.0, x.1.now)) result (other_opcode_at bytes.now) }
{
    let (b, rest) = byte_of(bytes)?;
    if b == 0xfb {
        let (n, rest) = u32_of(rest)?;
        Ok((Other::Fb(n), rest))
    } else if b == 0xfe {
        let (n, rest) = u32_of(rest)?;
        Ok((Other::Fe(n), rest))
    } else {
        Ok((Other::Byte(b), rest))
    }
}

/// The first operator by its opcode, and what follows it; `UnknownOpcode` where the table of shapes has no such opcode.
#[tactic(auto, unfolding(crate::specs::Reader::other_at))]
pub(crate) fn other_from(bytes: &[u8]) -> Result<(Other, &[u8]), Cause>
    ensures { Gives (λ x. (x.0, x.1.now)) result (other_at bytes.now) }
{
    let (opcode, rest) = other_opcode_from(bytes)?;
    match shape_by(opcode) {
        Some(shape) => {
            let rest = past_shape(shape, rest)?;
            Ok((opcode, rest))
        }
        None => Err(Cause::UnknownOpcode),
    }
}
