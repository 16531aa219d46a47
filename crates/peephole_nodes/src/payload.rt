//! What a node says besides its variant and its children.
ghost use Rattle.std.specs.Prelude.{◌≡◌};
ghost use Rattle.wasm_code.specs.Instruction.{InRange};
ghost use Rattle.wasm_code.specs.declared.immediate.Imm.TheVariants as imm;
ghost use Rattle.peephole_nodes.specs.Payload.{imm_of, payload_of_imm, is_writable};

use peephole_payloads::{
    F32, F64, MemArg, MemArgLane, MemoryCopy, MemoryInit, RefType, Shuffle, TableCopy, TableInit,
};
use wasm_code::{AbstractHeapType, HeapType, Imm, ValType};

/// What a node says besides its variant and its children.
#[derive(Clone, Copy, Debug, PartialEq, Eq, PartialOrd, Ord, Hash)]
pub enum Payload {
    /// Nothing: the variant says it all.
    Nothing,
    /// An index, as of a local.
    Index(u32),
    /// The number of a lane.
    Lane(u8),
    /// A constant of type i32.
    I32(i32),
    /// A constant of type i64.
    I64(i64),
    /// A constant of type f32.
    F32(F32),
    /// A constant of type f64.
    F64(F64),
    /// A constant of type v128.
    V128(i128),
    /// A memory argument: offset, alignment, memory.
    Memory(MemArg),
    /// A memory argument, and the number of a lane.
    MemoryLane(MemArgLane),
    /// The lanes that a shuffle takes.
    Shuffle(Shuffle),
    /// What a null reference refers to.
    Ref(RefType),
    /// The type of a value.
    Value(ValType),
    /// A memory, and the segment that it is written from.
    MemoryInit(MemoryInit),
    /// The memories that are copied between.
    MemoryCopy(MemoryCopy),
    /// A table, and the segment that it is written from.
    TableInit(TableInit),
    /// The tables that are copied between.
    TableCopy(TableCopy),
}

/// Which kind of payload a variant has.
#[derive(Clone, Copy)]
pub enum PayloadKind {
    Nothing,
    Index,
    Lane,
    I32,
    I64,
    F32,
    F64,
    V128,
    Memory,
    MemoryLane,
    Shuffle,
    Ref,
    Value,
    MemoryInit,
    MemoryCopy,
    TableInit,
    TableCopy,
}

// The immediate of a shuffle's lanes.
fn shuffle_imm(shuffle: Shuffle) -> Imm
    ensures value { result ≡ imm.Shuffle shuffle.indices }
    ensures in_range { InRange result }
{
    Imm::Shuffle(shuffle.indices)
}

impl Payload {
    /// The immediate that stands for the payload in an instruction.
    pub fn imm(self) -> Imm
        ensures value { result ≡ imm_of self }
        ensures in_range { InRange result }
    {
        match self {
            Payload::Nothing => Imm::Nothing,
            Payload::Index(index) => Imm::Index(index),
            Payload::Lane(lane) => Imm::Lane(lane),
            Payload::I32(number) => Imm::I32(number),
            Payload::I64(number) => Imm::I64(number),
            Payload::F32(ref number) => Imm::F32(number.to_bits()),
            Payload::F64(ref number) => Imm::F64(number.to_bits()),
            Payload::V128(number) => Imm::V128(number),
            Payload::Memory(memarg) => Imm::Mem((&memarg).into()),
            Payload::MemoryLane(MemArgLane { memarg, lane }) => Imm::MemLane(
                (&memarg).into(),
                lane,
            ),
            Payload::Shuffle(shuffle) => shuffle_imm(shuffle),
            Payload::Ref(ty) => Imm::Heap(ty.into()),
            Payload::Value(ty) => Imm::Val(ty),
            Payload::MemoryInit(init) => Imm::Pair(init.segment, init.memory),
            Payload::MemoryCopy(copy) => Imm::Pair(copy.dst, copy.src),
            Payload::TableInit(init) => Imm::Pair(init.segment, init.table),
            Payload::TableCopy(copy) => Imm::Pair(copy.dst, copy.src),
        }
    }

    /// Whether the exponent of its alignment, where it has one, is below 64.
    pub fn is_writable(self) -> bool
        ensures { result ≡ is_writable self }
    {
        match self {
            Payload::Memory(memarg) => memarg.align < 64,
            Payload::MemoryLane(place) => place.memarg.align < 64,
            _ => true,
        }
    }
}

impl PayloadKind {
    /// The payload of this kind that stands for an immediate, or None where none does.
    pub fn of_imm(self, imm: Imm) -> Option<Payload>
        ensures { result ≡ payload_of_imm self imm }
    {
        match (self, imm) {
            (PayloadKind::Nothing, Imm::Nothing) => Some(Payload::Nothing),
            (PayloadKind::Index, Imm::Index(index)) => Some(Payload::Index(index)),
            (PayloadKind::Lane, Imm::Lane(lane)) => Some(Payload::Lane(lane)),
            (PayloadKind::I32, Imm::I32(number)) => Some(Payload::I32(number)),
            (PayloadKind::I64, Imm::I64(number)) => Some(Payload::I64(number)),
            (PayloadKind::F32, Imm::F32(bits)) => Some(Payload::F32(F32::from_bits(bits))),
            (PayloadKind::F64, Imm::F64(bits)) => Some(Payload::F64(F64::from_bits(bits))),
            (PayloadKind::V128, Imm::V128(number)) => Some(Payload::V128(number)),
            (PayloadKind::Memory, Imm::Mem(memarg)) => Some(Payload::Memory((&memarg).into())),
            (PayloadKind::MemoryLane, Imm::MemLane(memarg, lane)) => {
                let memarg = (&memarg).into();
                Some(Payload::MemoryLane(MemArgLane { memarg, lane }))
            }
            (PayloadKind::Shuffle, Imm::Shuffle(indices)) => Some(Payload::Shuffle(Shuffle {
                indices,
            })),
            (PayloadKind::Ref, Imm::Heap(HeapType::Abstract { ty })) => Some(Payload::Ref(
                match ty {
                    AbstractHeapType::Func => RefType::Func,
                    AbstractHeapType::Extern => RefType::Extern,
                },
            )),
            (PayloadKind::Value, Imm::Val(ty)) => Some(Payload::Value(ty)),
            (PayloadKind::MemoryInit, Imm::Pair(segment, memory)) => {
                Some(Payload::MemoryInit(MemoryInit { memory, segment }))
            }
            (PayloadKind::MemoryCopy, Imm::Pair(dst, src)) => Some(Payload::MemoryCopy(MemoryCopy {
                src,
                dst,
            })),
            (PayloadKind::TableInit, Imm::Pair(segment, table)) => Some(Payload::TableInit(
                TableInit { table, segment },
            )),
            (PayloadKind::TableCopy, Imm::Pair(dst, src)) => Some(Payload::TableCopy(TableCopy {
                src,
                dst,
            })),
            _ => None,
        }
    }
}
