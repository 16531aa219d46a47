//! An instruction's row and immediate in few bytes.
ghost use Rattle.std.specs.Prelude.{◌≡◌};
ghost use Rattle.wasm_code.specs.Code.{v128_code};
ghost use Rattle.wasm_code.specs.Packed.{packed_of, instruction_of};

use crate::immediate::{HeapType, Imm, MemArg, ValType};

/// A row, and an immediate by its form: none of its parts asks for an alignment above four bytes, so that numbers of 64 bits
/// and more stand as their bytes, the lowest first.
#[derive(Clone, Copy, PartialEq, Eq)]
pub enum Packed {
    /// No immediate.
    Nothing(u16),
    /// An index.
    Index(u16, u32),
    /// Two indexes.
    Pair(u16, u32, u32),
    /// A memory argument: the memory, the offset and the exponent of the alignment.
    Mem(u16, u32, [u8; 8], u8),
    /// The same, and the number of a lane.
    MemLane(u16, u32, [u8; 8], u8, u8),
    /// The number of a lane.
    Lane(u16, u8),
    /// A constant of type i32.
    I32(u16, i32),
    /// The bytes of a constant of type i64.
    I64(u16, [u8; 8]),
    /// The bits of a constant of type f32.
    F32(u16, u32),
    /// The bytes of the bits of a constant of type f64.
    F64(u16, [u8; 8]),
    /// The bytes of a constant of type v128.
    V128(u16, [u8; 16]),
    /// The lanes that a shuffle takes.
    Shuffle(u16, [u8; 16]),
    /// A heap type.
    Heap(u16, HeapType),
    /// A value type.
    Val(u16, ValType),
}

/// The bytes of a constant of type v128, the lowest first.
pub fn v128_bytes(z: i128) -> [u8; 16]
    ensures { result ≡ v128_code z }
{
    z.to_le_bytes()
}

/// The row and the immediate in few bytes.
#[inline(always)]
pub fn pack(row: u16, imm: Imm) -> Packed
    ensures { result ≡ packed_of row imm }
{
    match imm {
        Imm::Nothing => Packed::Nothing(row),
        Imm::Index(n) => Packed::Index(row, n),
        Imm::Pair(a, b) => Packed::Pair(row, a, b),
        Imm::Mem(m) => Packed::Mem(row, m.memory, m.offset.to_le_bytes(), m.align),
        Imm::MemLane(m, lane) => {
            Packed::MemLane(row, m.memory, m.offset.to_le_bytes(), m.align, lane)
        },
        Imm::Lane(lane) => Packed::Lane(row, lane),
        Imm::I32(z) => Packed::I32(row, z),
        Imm::I64(z) => Packed::I64(row, z.cast_unsigned().to_le_bytes()),
        Imm::F32(bits) => Packed::F32(row, bits),
        Imm::F64(bits) => Packed::F64(row, bits.to_le_bytes()),
        Imm::V128(z) => Packed::V128(row, v128_bytes(z)),
        Imm::Shuffle(lanes) => Packed::Shuffle(row, lanes),
        Imm::Heap(t) => Packed::Heap(row, t),
        Imm::Val(t) => Packed::Val(row, t),
    }
}

impl Packed {
    /// The row.
    #[inline(always)]
    pub fn row(self) -> u16
        ensures { result ≡ (instruction_of self).row }
    {
        match self {
            Packed::Nothing(row)
            | Packed::Index(row, _)
            | Packed::Pair(row, _, _)
            | Packed::Mem(row, _, _, _)
            | Packed::MemLane(row, _, _, _, _)
            | Packed::Lane(row, _)
            | Packed::I32(row, _)
            | Packed::I64(row, _)
            | Packed::F32(row, _)
            | Packed::F64(row, _)
            | Packed::V128(row, _)
            | Packed::Shuffle(row, _)
            | Packed::Heap(row, _)
            | Packed::Val(row, _) => row,
        }
    }

    /// The immediate.
    #[inline(always)]
    pub fn imm(self) -> Imm
        ensures { result ≡ (instruction_of self).imm }
    {
        match self {
            Packed::Nothing(_) => Imm::Nothing,
            Packed::Index(_, n) => Imm::Index(n),
            Packed::Pair(_, a, b) => Imm::Pair(a, b),
            Packed::Mem(_, memory, offset, align) => Imm::Mem(MemArg {
                offset: u64::from_le_bytes(offset),
                align,
                memory,
            }),
            Packed::MemLane(_, memory, offset, align, lane) => Imm::MemLane(
                MemArg {
                    offset: u64::from_le_bytes(offset),
                    align,
                    memory,
                },
                lane,
            ),
            Packed::Lane(_, lane) => Imm::Lane(lane),
            Packed::I32(_, z) => Imm::I32(z),
            Packed::I64(_, bytes) => Imm::I64(i64::from_le_bytes(bytes)),
            Packed::F32(_, bits) => Imm::F32(bits),
            Packed::F64(_, bytes) => Imm::F64(u64::from_le_bytes(bytes)),
            Packed::V128(_, bytes) => Imm::V128(i128::from_le_bytes(bytes)),
            Packed::Shuffle(_, lanes) => Imm::Shuffle(lanes),
            Packed::Heap(_, t) => Imm::Heap(t),
            Packed::Val(_, t) => Imm::Val(t),
        }
    }
}
