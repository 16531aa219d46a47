//! Constants that words name.
ghost use Rattle.std.specs.Prelude.{◌≡◌, ◌+◌, ◌*◌, ◌%◌, ◌^◌, IsTrue};
ghost use Rattle.wasm_code.specs.Instruction.{fits_row, IsInstruction};
ghost use Rattle.wasm_code.specs.Table.{row_at};
ghost use Rattle.body_changes.specs.Drawing.{is_drawable};
ghost use Rattle.body_changes.specs.Goals.{constant_by, constant_imm, constant_row, is_constant_imm, IsConstantOf};
ghost use Rattle.body_changes.specs.Typed.{is_told_apart};

use wasm_code::{AbstractHeapType, HeapType, Imm, Instr};
use wasm_types::{ModuleInfo, PrimitiveTypeInfo};

/// Whether values of the type can be drawn: numbers, vectors, and funcref and externref where the module tells references apart.
pub fn is_drawable(info: &ModuleInfo<'_>, t: PrimitiveTypeInfo) -> bool
    ensures { result ≡ is_drawable info.now t }
{
    match t {
        PrimitiveTypeInfo::Empty => false,
        PrimitiveTypeInfo::FuncRef => !info.one_reference,
        PrimitiveTypeInfo::ExternRef => !info.one_reference,
        _ => true,
    }
}

// The bits of floats at the edges: zeros, ones, the smallest and the largest ones, infinities and NaNs.
const EDGES_32: [u32; 12] = [
    0,
    0x8000_0000,
    0x3F80_0000,
    0xBF80_0000,
    1,
    0x8000_0001,
    0x7F7F_FFFF,
    0xFF7F_FFFF,
    0x7F80_0000,
    0xFF80_0000,
    0x7FC0_0000,
    0x7FA0_0000,
];

const EDGES_64: [u64; 12] = [
    0,
    0x8000_0000_0000_0000,
    0x3FF0_0000_0000_0000,
    0xBFF0_0000_0000_0000,
    1,
    0x8000_0000_0000_0001,
    0x7FEF_FFFF_FFFF_FFFF,
    0xFFEF_FFFF_FFFF_FFFF,
    0x7FF0_0000_0000_0000,
    0xFFF0_0000_0000_0000,
    0x7FF8_0000_0000_0000,
    0x7FF4_0000_0000_0000,
];

/// A whole number that a word names by its kind: near zero, near a power of two, the complement of that, or the word itself.
pub(crate) fn whole(kind: u64, word: u64) -> u64
    ensures { kind ≡ 4 → result ≡ word }
{
    let near = (word >> 6) % 4;
    let power = 1u64 << (word % 64);
    match kind % 5 {
        0 => near,
        1 => near.wrapping_neg(),
        2 => power.wrapping_add(near),
        3 => power.wrapping_sub(near),
        _ => word,
    }
}

/// The lower half of its bits.
pub(crate) fn low_half(word: u64) -> u32
    ensures { result ≡ word % 2 ^ 32 }
{
    (word % 0x1_0000_0000) as u32
}

// The bits of a float: at an edge, or the word's own.
fn bits_32(kind: u64, word: u64) -> u32
    ensures { kind ≡ 4 → result ≡ word % 2 ^ 32 }
{
    match kind % 5 {
        0..=1 => EDGES_32[(word % 12) as usize],
        _ => low_half(word),
    }
}

fn bits_64(kind: u64, word: u64) -> u64
    ensures { kind ≡ 4 → result ≡ word }
{
    match kind % 5 {
        0..=1 => EDGES_64[(word % 12) as usize],
        _ => word,
    }
}

// The number with these halves.
fn joined(low: u64, high: u64) -> u128
    ensures { result ≡ high * 2 ^ 64 + low }
{
    high as u128 * 0x1_0000_0000_0000_0000 + low as u128
}

/// The row's instruction with the immediate.
pub(crate) fn instr(row: u16, imm: Imm) -> Instr
    requires { IsTrue (fits_row (row_at row) imm) }
    ensures is { result ≡ record { row = row; imm = imm } }
    ensures instruction { IsInstruction result }
{
    match Instr::new(row, imm) {
        Some(instr) => instr,
        None => unreachable!(),
    }
}

/// The row of its constants.
pub(crate) fn constant_row(t: PrimitiveTypeInfo) -> u16
    ensures { result ≡ constant_row t }
{
    match t {
        PrimitiveTypeInfo::I32 => 36,
        PrimitiveTypeInfo::I64 => 37,
        PrimitiveTypeInfo::F32 => 38,
        PrimitiveTypeInfo::F64 => 39,
        PrimitiveTypeInfo::V128 => 201,
        _ => 168,
    }
}

// The immediate of a constant of the type.
fn immediate(wanted: PrimitiveTypeInfo, kind: u64, low: u64, high: u64) -> Imm
    requires { IsTrue (is_told_apart wanted) }
    ensures is { IsTrue (is_constant_imm wanted result) }
    ensures own { kind ≡ 4 → result ≡ constant_imm wanted low high }
{
    match wanted {
        PrimitiveTypeInfo::I32 => Imm::I32(low_half(whole(kind, low)).cast_signed()),
        PrimitiveTypeInfo::I64 => Imm::I64(whole(kind, low).cast_signed()),
        PrimitiveTypeInfo::F32 => Imm::F32(bits_32(kind, low)),
        PrimitiveTypeInfo::F64 => Imm::F64(bits_64(kind, low)),
        PrimitiveTypeInfo::V128 => {
            Imm::V128(joined(whole(kind, low), whole(kind, high)).cast_signed())
        }
        PrimitiveTypeInfo::FuncRef => Imm::Heap(HeapType::Abstract {
            ty: AbstractHeapType::Func,
        }),
        PrimitiveTypeInfo::ExternRef => Imm::Heap(HeapType::Abstract {
            ty: AbstractHeapType::Extern,
        }),
        PrimitiveTypeInfo::Empty => unreachable!(),
    }
}

/// A constant of the type, which the words name by its kind; by the fourth kind it has their bits.
pub(crate) fn constant(wanted: PrimitiveTypeInfo, kind: u64, low: u64, high: u64) -> Instr
    requires { IsTrue (is_told_apart wanted) }
    ensures instruction { IsInstruction result }
    ensures typed { IsConstantOf wanted result }
    ensures row { result.row ≡ constant_row wanted }
    ensures own { kind ≡ 4 → result ≡ constant_by wanted low high }
{
    let imm = immediate(wanted, kind, low, high);
    instr(constant_row(wanted), imm)
}
