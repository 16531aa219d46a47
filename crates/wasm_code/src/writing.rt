//! Instructions as bytes, with shortest numbers.
ghost use Rattle.std.specs.Prelude.{◌≡◌, ◌++◌, ◌+◌, ◌<◌, [], ◌∷◌, OnOk, OnErr};
ghost use Rattle.wasm_code.specs.Immediate.{val_type_code, heap_type_code};
ghost use Rattle.wasm_code.specs.Code.{shortest, low_bits, signed_form, shortest_signed, memarg_code, imm_code, opcode_code, code, BeginsWith};

use crate::immediate::{AbstractHeapType, HeapType, Imm, MemArg, ValType};
use crate::operator::Instr;
use crate::packed::v128_bytes;
use crate::table::{Opcode, find_row};
use std::alloc::AllocError;

/// Appends the shortest spelling of the number. Where no memory was left, some of its bytes may have been appended.
pub fn put_unsigned(out: &mut Vec<u8>, n: u64) -> Result<(), AllocError>
    ensures ok { OnOk result (out.new.items ≡ out.old.items ++ shortest n) }
    ensures err { OnErr result (BeginsWith out.new.items out.old.items) }
{
    let mut rest = n;
    while rest >= 128 {
        out.push((rest % 128 + 128) as u8)?;
        rest /= 128;
    }
    out.push(rest as u8)?;
    Ok(())
}

fn low(negative: bool, n: u64) -> u8
    ensures value { result ≡ low_bits negative n }
    ensures below { result < 128 }
{
    if negative {
        127 - (n % 128) as u8
    } else {
        (n % 128) as u8
    }
}

fn put_form(out: &mut Vec<u8>, negative: bool, n: u64) -> Result<(), AllocError>
    ensures ok { OnOk result (out.new.items ≡ out.old.items ++ signed_form negative n) }
    ensures err { OnErr result (BeginsWith out.new.items out.old.items) }
{
    let mut rest = n;
    while rest >= 64 {
        out.push(low(negative, rest) + 128)?;
        rest /= 128;
    }
    out.push(low(negative, rest))?;
    Ok(())
}

fn put_signed(out: &mut Vec<u8>, z: i64) -> Result<(), AllocError>
    ensures ok { OnOk result (out.new.items ≡ out.old.items ++ shortest_signed z) }
    ensures err { OnErr result (BeginsWith out.new.items out.old.items) }
{
    if z < 0 {
        put_form(out, true, (-1 - z) as u64)
    } else {
        put_form(out, false, z as u64)
    }
}

fn val_code(t: ValType) -> u8
    ensures { result ≡ val_type_code t }
{
    match t {
        ValType::I32 => 0x7f,
        ValType::I64 => 0x7e,
        ValType::F32 => 0x7d,
        ValType::F64 => 0x7c,
        ValType::V128 => 0x7b,
        ValType::FuncRef => 0x70,
        ValType::ExternRef => 0x6f,
    }
}

fn heap_code(t: HeapType) -> u8
    ensures { result ≡ heap_type_code t }
{
    match t {
        HeapType::Abstract {
            ty: AbstractHeapType::Func,
        } => 0x70,
        HeapType::Abstract {
            ty: AbstractHeapType::Extern,
        } => 0x6f,
    }
}

fn put_byte(out: &mut Vec<u8>, b: u8) -> Result<(), AllocError>
    ensures ok { OnOk result (out.new.items ≡ out.old.items ++ b ∷ []) }
    ensures err { OnErr result (BeginsWith out.new.items out.old.items) }
{
    out.push(b)?;
    Ok(())
}

fn put_bytes(out: &mut Vec<u8>, bytes: &[u8]) -> Result<(), AllocError>
    ensures ok { OnOk result (out.new.items ≡ out.old.items ++ bytes.now) }
    ensures err { OnErr result (BeginsWith out.new.items out.old.items) }
{
    out.extend_from_slice(bytes)
}

#[tactic(auto, unfolding(crate::specs::Code::memarg_code))]
fn put_memarg(out: &mut Vec<u8>, m: MemArg) -> Result<(), AllocError>
    ensures ok { OnOk result (out.new.items ≡ out.old.items ++ memarg_code m) }
    ensures err { OnErr result (BeginsWith out.new.items out.old.items) }
{
    if m.memory == 0 {
        put_unsigned(out, m.align as u64)?;
    } else {
        put_unsigned(out, m.align as u64 + 64)?;
        put_unsigned(out, m.memory as u64)?;
    }
    put_unsigned(out, m.offset)
}

#[tactic(auto, unfolding(crate::specs::Code::imm_code))]
fn put_imm(out: &mut Vec<u8>, imm: Imm) -> Result<(), AllocError>
    ensures ok { OnOk result (out.new.items ≡ out.old.items ++ imm_code imm) }
    ensures err { OnErr result (BeginsWith out.new.items out.old.items) }
{
    match imm {
        Imm::Nothing => Ok(()),
        Imm::Index(n) => put_unsigned(out, n as u64),
        Imm::Pair(a, b) => {
            put_unsigned(out, a as u64)?;
            put_unsigned(out, b as u64)
        }
        Imm::Mem(m) => put_memarg(out, m),
        Imm::MemLane(m, lane) => {
            put_memarg(out, m)?;
            put_byte(out, lane)
        }
        Imm::Lane(lane) => put_byte(out, lane),
        Imm::I32(z) => put_signed(out, z as i64),
        Imm::I64(z) => put_signed(out, z),
        Imm::F32(bits) => put_bytes(out, &bits.to_le_bytes()),
        Imm::F64(bits) => put_bytes(out, &bits.to_le_bytes()),
        Imm::V128(z) => put_bytes(out, &v128_bytes(z)),
        Imm::Shuffle(lanes) => put_bytes(out, &lanes),
        Imm::Heap(t) => put_byte(out, heap_code(t)),
        Imm::Val(t) => {
            put_byte(out, 1)?;
            put_byte(out, val_code(t))
        }
    }
}

#[tactic(auto, unfolding(crate::specs::Code::opcode_code))]
fn put_opcode(out: &mut Vec<u8>, op: Opcode) -> Result<(), AllocError>
    ensures ok { OnOk result (out.new.items ≡ out.old.items ++ opcode_code op) }
    ensures err { OnErr result (BeginsWith out.new.items out.old.items) }
{
    match op {
        Opcode::Byte(b) => put_byte(out, b),
        Opcode::Fc(n) => {
            put_byte(out, 0xfc)?;
            put_unsigned(out, n as u64)
        }
        Opcode::Fd(n) => {
            put_byte(out, 0xfd)?;
            put_unsigned(out, n as u64)
        }
    }
}

/// Appends the code of the instruction.
#[tactic(auto, unfolding(crate::specs::Code::code))]
pub fn put_code(out: &mut Vec<u8>, i: &Instr) -> Result<(), AllocError>
    ensures ok { OnOk result (out.new.items ≡ out.old.items ++ code i.now) }
    ensures err { OnErr result (BeginsWith out.new.items out.old.items) }
{
    if let Some(row) = find_row(i.row()) {
        put_opcode(out, row.opcode)?;
    }
    put_imm(out, i.imm())
}
