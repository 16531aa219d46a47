//! Immediates from the front of bytes.
ghost use Rattle.std.specs.Prelude.{◌≡◌, ◌≢◌, ◌<◌, Some, IfOk, true};
ghost use Rattle.wasm_code.specs.Instruction.{is_of_kind, InRange};
ghost use Rattle.wasm_code.specs.Table.{row_at};
ghost use Rattle.wasm_code.specs.Reader.{Gives, byte_at, bytes_at, val_type_of, heap_type_of, val_type_at, heap_type_at, block_type_at, block_type_of, memarg_at, offset_at, pair_at, instr_at};
ghost use Rattle.wasm_code.specs.declared.operator.Operator.TheVariants as op;
ghost use Rattle.wasm_code.specs.declared.table.Kind.TheVariants as kinds;

use crate::fault::Cause;
use crate::immediate::{AbstractHeapType, BlockType, HeapType, Imm, MemArg, ValType};
use crate::number::{i32_of, i33_of, i64_of, u32_of, u64_of};
use crate::operator::{Instr, Operator};
use crate::table::{Kind, Row};

/// The first byte, and what follows it. `Truncated` where there is none.
pub fn byte_of(bytes: &[u8]) -> Result<(u8, &[u8]), Cause>
    ensures { Gives (λ x. (x.0, x.1.now)) result (byte_at bytes.now) }
{
    match bytes {
        [] => Err(Cause::Truncated),
        [b, rest @ ..] => Ok((*b, rest)),
    }
}

/// The first `N` bytes, and what follows them.
fn array_of<const N: usize>(bytes: &[u8]) -> Result<([u8; N], &[u8]), Cause>
    ensures { Gives (λ x. (x.0, x.1.now)) result (bytes_at N bytes.now) }
{
    if bytes.len() < N {
        return Err(Cause::Truncated);
    }
    let (front, rest) = bytes.split_at(N);
    match <[u8; N]>::try_from(front) {
        Ok(array) => Ok((array, rest)),
        Err(_) => unreachable!(),
    }
}

#[tactic(auto, unfolding(crate::specs::Reader::val_type_of))]
fn val_type(b: u8) -> Option<ValType>
    ensures { result ≡ val_type_of b }
{
    match b {
        0x7f => Some(ValType::I32),
        0x7e => Some(ValType::I64),
        0x7d => Some(ValType::F32),
        0x7c => Some(ValType::F64),
        0x7b => Some(ValType::V128),
        0x70 => Some(ValType::FuncRef),
        0x6f => Some(ValType::ExternRef),
        _ => None,
    }
}

#[tactic(auto, unfolding(crate::specs::Reader::heap_type_of))]
fn heap_type(b: u8) -> Option<HeapType>
    ensures { result ≡ heap_type_of b }
{
    match b {
        0x70 => Some(HeapType::Abstract {
            ty: AbstractHeapType::Func,
        }),
        0x6f => Some(HeapType::Abstract {
            ty: AbstractHeapType::Extern,
        }),
        _ => None,
    }
}

/// A value type, and what follows it. `Truncated` where there is no byte, `BadImmediate` where the first one stands for none
/// of `ValType`.
#[tactic(auto, unfolding(crate::specs::Reader::val_type_at))]
pub fn val_type_from(bytes: &[u8]) -> Result<(ValType, &[u8]), Cause>
    ensures { Gives (λ x. (x.0, x.1.now)) result (val_type_at bytes.now) }
{
    let (b, rest) = byte_of(bytes)?;
    match val_type(b) {
        Some(t) => Ok((t, rest)),
        None => Err(Cause::BadImmediate),
    }
}

#[tactic(auto, unfolding(crate::specs::Reader::heap_type_at))]
fn heap_type_from(bytes: &[u8]) -> Result<(HeapType, &[u8]), Cause>
    ensures { Gives (λ x. (x.0, x.1.now)) result (heap_type_at bytes.now) }
{
    let (b, rest) = byte_of(bytes)?;
    match heap_type(b) {
        Some(t) => Ok((t, rest)),
        None => Err(Cause::BadImmediate),
    }
}

/// A block type, and what follows it.
#[tactic(auto, unfolding(crate::specs::Reader::block_type_at, crate::specs::Reader::block_type_of))]
#[inline(always)]
pub fn block_type_from(bytes: &[u8]) -> Result<(BlockType, &[u8]), Cause>
    ensures { Gives (λ x. (x.0, x.1.now)) result (block_type_at bytes.now) }
{
    let (b, rest) = byte_of(bytes)?;
    if b == 0x40 {
        return Ok((BlockType::Empty, rest));
    }
    match val_type(b) {
        Some(t) => Ok((BlockType::Value(t), rest)),
        None => {
            let (n, rest) = i33_of(bytes)?;
            if n < 0 {
                Err(Cause::BadImmediate)
            } else {
                Ok((BlockType::FuncType(n as u32), rest))
            }
        }
    }
}

#[tactic(auto, unfolding(crate::specs::Reader::offset_at))]
#[inline(always)]
fn offset_of(align: u8, memory: u32, bytes: &[u8]) -> Result<(MemArg, &[u8]), Cause>
    ensures gives { Gives (λ x. (x.0, x.1.now)) result (offset_at align memory bytes.now) }
    ensures align { IfOk result (λ x. x.0.align ≡ align) }
{
    let (offset, rest) = u64_of(bytes)?;
    Ok((
        MemArg {
            offset,
            align,
            memory,
        },
        rest,
    ))
}

#[tactic(auto, unfolding(crate::specs::Reader::memarg_at))]
#[inline(always)]
pub fn memarg_of(bytes: &[u8]) -> Result<(MemArg, &[u8]), Cause>
    ensures gives { Gives (λ x. (x.0, x.1.now)) result (memarg_at bytes.now) }
    ensures align { IfOk result (λ x. x.0.align < 64) }
{
    let (n, rest) = u32_of(bytes)?;
    if n < 64 {
        offset_of(n as u8, 0, rest)
    } else if n < 128 {
        let (memory, rest) = u32_of(rest)?;
        offset_of((n - 64) as u8, memory, rest)
    } else {
        Err(Cause::BadImmediate)
    }
}

/// Two numbers, and what follows them.
#[tactic(auto, unfolding(crate::specs::Reader::pair_at))]
#[inline(always)]
pub fn pair_of(bytes: &[u8]) -> Result<((u32, u32), &[u8]), Cause>
    ensures { Gives (λ x. (x.0, x.1.now)) result (pair_at bytes.now) }
{
    let (a, rest) = u32_of(bytes)?;
    let (b, rest) = u32_of(rest)?;
    Ok(((a, b), rest))
}

/// The instruction of that row, which has that number, with an immediate of its kind.
#[inline(always)]
fn instr(number: u16, row: Row, imm: Imm) -> Operator
    requires row { row_at number ≡ Some row }
    requires kind { is_of_kind row.kind imm ≡ true }
    requires in_range { InRange imm }
    ensures { result ≡ op.Instr (record { row = number; imm = imm }) }
{
    Operator::Instr(Instr::of_row(number, imm))
}

/// The instruction of that row, which has that number, with the immediate that stands there, and what follows it.
#[tactic(auto, unfolding(crate::specs::Reader::imm_at))]
#[inline(always)]
pub fn instr_of(number: u16, row: Row, bytes: &[u8]) -> Result<(Operator, &[u8]), Cause>
    requires row { row_at number ≡ Some row }
    requires kind { row.kind ≢ kinds.Val }
    ensures { Gives (λ x. (x.0, x.1.now)) result (instr_at number row.kind bytes.now) }
{
    match row.kind {
        Kind::Nothing => Ok((instr(number, row, Imm::Nothing), bytes)),
        Kind::Index => {
            let (n, rest) = u32_of(bytes)?;
            Ok((instr(number, row, Imm::Index(n)), rest))
        }
        Kind::Pair => {
            let ((a, b), rest) = pair_of(bytes)?;
            Ok((instr(number, row, Imm::Pair(a, b)), rest))
        }
        Kind::Mem => {
            let (m, rest) = memarg_of(bytes)?;
            Ok((instr(number, row, Imm::Mem(m)), rest))
        }
        Kind::MemLane => {
            let (m, rest) = memarg_of(bytes)?;
            let (lane, rest) = byte_of(rest)?;
            Ok((instr(number, row, Imm::MemLane(m, lane)), rest))
        }
        Kind::Lane => {
            let (lane, rest) = byte_of(bytes)?;
            Ok((instr(number, row, Imm::Lane(lane)), rest))
        }
        Kind::I32 => {
            let (z, rest) = i32_of(bytes)?;
            Ok((instr(number, row, Imm::I32(z)), rest))
        }
        Kind::I64 => {
            let (z, rest) = i64_of(bytes)?;
            Ok((instr(number, row, Imm::I64(z)), rest))
        }
        Kind::F32 => {
            let (b, rest) = array_of::<4>(bytes)?;
            Ok((instr(number, row, Imm::F32(u32::from_le_bytes(b))), rest))
        }
        Kind::F64 => {
            let (b, rest) = array_of::<8>(bytes)?;
            Ok((instr(number, row, Imm::F64(u64::from_le_bytes(b))), rest))
        }
        Kind::V128 => {
            let (b, rest) = array_of::<16>(bytes)?;
            Ok((instr(number, row, Imm::V128(i128::from_le_bytes(b))), rest))
        }
        Kind::Shuffle => {
            let (b, rest) = array_of::<16>(bytes)?;
            Ok((instr(number, row, Imm::Shuffle(b)), rest))
        }
        Kind::Heap => {
            let (t, rest) = heap_type_from(bytes)?;
            Ok((instr(number, row, Imm::Heap(t)), rest))
        }
        Kind::Val => unreachable!(),
    }
}
