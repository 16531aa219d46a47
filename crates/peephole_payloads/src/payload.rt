//! The payloads of nodes that are no plain numbers.
ghost use Rattle.std.specs.Prelude.{◌≡◌};

/// What a reference refers to: a function, or something outside. Its text is `func` or `extern`.
#[derive(Clone, Copy, Debug, PartialEq, Eq, PartialOrd, Ord, Hash)]
pub enum RefType {
    /// A function.
    Func,
    /// Something outside.
    Extern,
}

/// Where in memory a node loads or stores. Its text is `static_offset.align.mem`.
#[derive(Clone, Copy, Debug, PartialEq, Eq, PartialOrd, Ord, Hash)]
pub struct MemArg {
    /// What is added to the address.
    pub static_offset: u64,
    /// The exponent of the alignment: 3 for eight bytes.
    pub align: u8,
    /// The index of the memory.
    pub mem: u32,
}

/// A place in memory, and the number of a lane. Its text is `static_offset.align.mem.lane`.
#[derive(Clone, Copy, Debug, PartialEq, Eq, PartialOrd, Ord, Hash)]
pub struct MemArgLane {
    /// The place in memory.
    pub memarg: MemArg,
    /// The number of the lane.
    pub lane: u8,
}

/// The lanes that a shuffle takes. Its text is their numbers, with dots between them.
#[derive(Clone, Copy, Debug, PartialEq, Eq, PartialOrd, Ord, Hash)]
pub struct Shuffle {
    /// For each lane of the result, the lane that it is taken from.
    pub indices: [u8; 16],
}

/// The tables that are copied between. Its text is `src.dst`.
#[derive(Clone, Copy, Debug, PartialEq, Eq, PartialOrd, Ord, Hash)]
pub struct TableCopy {
    /// The index of the table that is read.
    pub src: u32,
    /// The index of the table that is written.
    pub dst: u32,
}

/// The memories that are copied between. Its text is `src.dst`.
#[derive(Clone, Copy, Debug, PartialEq, Eq, PartialOrd, Ord, Hash)]
pub struct MemoryCopy {
    /// The index of the memory that is read.
    pub src: u32,
    /// The index of the memory that is written.
    pub dst: u32,
}

/// The table that is written, and the segment that it is written from. Its text is `table.segment`.
#[derive(Clone, Copy, Debug, PartialEq, Eq, PartialOrd, Ord, Hash)]
pub struct TableInit {
    /// The index of the table.
    pub table: u32,
    /// The index of the segment.
    pub segment: u32,
}

/// The memory that is written, and the segment that it is written from. Its text is `memory.segment`.
#[derive(Clone, Copy, Debug, PartialEq, Eq, PartialOrd, Ord, Hash)]
pub struct MemoryInit {
    /// The index of the memory.
    pub memory: u32,
    /// The index of the segment.
    pub segment: u32,
}

impl From<RefType> for wasm_code::HeapType {
    ghost use Rattle.std.specs.Prelude.{◌≡◌};
    ghost use Rattle.peephole_payloads.specs.Payload.{ref_heap_type};

    ghost from_gives = { λ t h. h ≡ ref_heap_type t };

    fn from(t: RefType) -> wasm_code::HeapType {
        let ty = match t {
            RefType::Func => wasm_code::AbstractHeapType::Func,
            RefType::Extern => wasm_code::AbstractHeapType::Extern,
        };
        wasm_code::HeapType::Abstract { ty }
    }
}

impl From<&wasm_code::MemArg> for MemArg {
    ghost use Rattle.std.specs.Prelude.{◌≡◌};
    ghost use Rattle.peephole_payloads.specs.Payload.{payload_of_mem_arg};

    ghost from_gives = { λ m p. p ≡ payload_of_mem_arg m.now };

    fn from(m: &wasm_code::MemArg) -> MemArg {
        MemArg {
            static_offset: m.offset,
            align: m.align,
            mem: m.memory,
        }
    }
}

impl From<&MemArg> for wasm_code::MemArg {
    ghost use Rattle.std.specs.Prelude.{◌≡◌};
    ghost use Rattle.peephole_payloads.specs.Payload.{mem_arg_of_payload};

    ghost from_gives = { λ p m. m ≡ mem_arg_of_payload p.now };

    fn from(p: &MemArg) -> wasm_code::MemArg {
        wasm_code::MemArg {
            offset: p.static_offset,
            align: p.align,
            memory: p.mem,
        }
    }
}
