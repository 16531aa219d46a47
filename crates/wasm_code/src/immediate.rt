//! What stands behind an opcode.
ghost use Rattle.std.specs.Prelude.{◌≡◌, ◌≢◌, IfSome, IfNone};
ghost use Rattle.wasm_code.specs.ValType.{val_type_name};
ghost use Rattle.wasm_code.specs.declared.immediate.ValType.{ValType};

/// The type of a value, ordered as its variants stand here.
#[derive(Clone, Copy, Debug, PartialEq, Eq, PartialOrd, Ord, Hash)]
pub enum ValType {
    /// A 32-bit integer.
    I32,
    /// A 64-bit integer.
    I64,
    /// A 32-bit float.
    F32,
    /// A 64-bit float.
    F64,
    /// A vector of 128 bits.
    V128,
    /// A reference to a function.
    FuncRef,
    /// A reference to something outside.
    ExternRef,
}

impl ValType {
    /// The type's name: `i32`, `i64`, `f32`, `f64`, `v128`, `funcref` or `externref`.
    pub fn name(&self) -> &'static str
        ensures { result.now ≡ val_type_name self.now }
    {
        match self {
            ValType::I32 => "i32",
            ValType::I64 => "i64",
            ValType::F32 => "f32",
            ValType::F64 => "f64",
            ValType::V128 => "v128",
            ValType::FuncRef => "funcref",
            ValType::ExternRef => "externref",
        }
    }

    /// The type of that name, or none where no type has it.
    pub fn from_name(name: &str) -> Option<ValType>
        ensures some { IfSome result (λ t. val_type_name t ≡ name.now) }
        ensures none { IfNone result ((t : ValType) → val_type_name t ≢ name.now) }
    {
        match name {
            "i32" => Some(ValType::I32),
            "i64" => Some(ValType::I64),
            "f32" => Some(ValType::F32),
            "f64" => Some(ValType::F64),
            "v128" => Some(ValType::V128),
            "funcref" => Some(ValType::FuncRef),
            "externref" => Some(ValType::ExternRef),
            _ => None,
        }
    }
}

/// The type of a block: what it takes and gives.
#[derive(Clone, Copy, Debug, PartialEq, Eq)]
pub enum BlockType {
    /// Nothing.
    Empty,
    /// It gives one value of this type.
    Value(ValType),
    /// The function type with this index.
    FuncType(u32),
    /// It gives one reference, whose type isn't spelled as one of `ValType`.
    Reference,
}

/// What a reference refers to.
#[derive(Clone, Copy, Debug, PartialEq, Eq)]
pub enum AbstractHeapType {
    /// A function.
    Func,
    /// Something outside.
    Extern,
}

/// The type behind a reference.
#[derive(Clone, Copy, Debug, PartialEq, Eq)]
pub enum HeapType {
    /// A type without a definition of its own.
    Abstract {
        /// Which one.
        ty: AbstractHeapType,
    },
}

/// Where in memory an instruction loads or stores.
#[derive(Clone, Copy, Debug, PartialEq, Eq)]
pub struct MemArg {
    /// What is added to the address.
    pub offset: u64,
    /// The exponent of the alignment: 3 for eight bytes.
    pub align: u8,
    /// The index of the memory.
    pub memory: u32,
}

/// The immediate of an instruction: what its bytes say behind the opcode.
#[derive(Clone, Copy, Debug, PartialEq, Eq)]
pub enum Imm {
    /// None.
    Nothing,
    /// An index, as of a local.
    Index(u32),
    /// Two indexes, in the order of their bytes.
    Pair(u32, u32),
    /// A memory argument.
    Mem(MemArg),
    /// A memory argument, and the number of a lane.
    MemLane(MemArg, u8),
    /// The number of a lane.
    Lane(u8),
    /// A constant of type i32.
    I32(i32),
    /// A constant of type i64.
    I64(i64),
    /// The bits of a constant of type f32.
    F32(u32),
    /// The bits of a constant of type f64.
    F64(u64),
    /// The bits of a constant of type v128.
    V128(i128),
    /// The lanes that a shuffle takes.
    Shuffle([u8; 16]),
    /// A heap type.
    Heap(HeapType),
    /// A value type.
    Val(ValType),
}
